// Messages to vats.
ghost use Rattle.std.specs.Prelude.{◌≡◌, ◌↔◌, IfOk, IsTrue};
ghost use Rattle.std.specs.Option.{option_map};
ghost use Rattle.post.specs.Messages as model;
ghost use Rattle.post.specs.DeliveryView.{delivery_of};
ghost use Rattle.post.specs.MessageView.{message_of, place_of};

use crate::delivery::{Delivery, same_delivery};
use eorder::fence::Fence;
use ids::names::{EventName, PromId, VatNo};
use std::alloc::{AllocError, Global};
use std::sync::Arc;

/// Where a message is.
#[derive(Clone, Copy)]
pub enum Place {
    /// On the way to a vat.
    Flying(VatNo),
    /// At a vat.
    At(VatNo),
    /// Done in an event.
    Done(EventName),
}

/// What was sent, which does not change.
#[derive(Drop)]
pub struct Sent {
    pub delivery: Delivery,
    /// The promise for its result.
    pub result: PromId,
    /// The messages that must be done before it.
    pub after: Fence,
}

/// A message to a vat. Sharing it costs nothing that grows with it.
pub struct Message {
    pub sent: Arc<Sent>,
    pub place: Place,
}

// By hand, so that what drops one elsewhere calls this and is not proved anew for all that it holds.
impl Drop for Message {
    fn drop(self) {
        let Message { sent: _, place: _ } = self;
    }
}

impl Message {
    /// A message that was sent so and is at this place. Fails only for want of memory.
    pub fn new(alloc: Global, sent: Sent, place: Place) -> Result<Message, AllocError>
        ensures { IfOk result (λ g. message_of g ≡ record { delivery = delivery_of sent.delivery; result = sent.result; after = sent.after; place = place_of place }) }
    {
        Ok(Message {
            sent: Arc::new(alloc, sent)?,
            place,
        })
    }

    /// The same message, shared. Fails only for want of memory.
    pub fn share(&self) -> Result<Message, AllocError>
        ensures { IfOk result (λ g. message_of g ≡ message_of self.now) }
    {
        Ok(Message {
            sent: Arc::try_clone(&self.sent)?,
            place: self.place,
        })
    }

    // The same message, shared, at another place.
    fn moved(&self, place: Place) -> Result<Message, AllocError>
        ensures { IfOk result (λ g. message_of g ≡ record (message_of self.now) { place = place_of place }) }
    {
        Ok(Message {
            sent: Arc::try_clone(&self.sent)?,
            place,
        })
    }

    /// The same message, shared, at the vat to which it flies; none where it does not fly. Fails only for want of memory.
    pub fn arrived(&self) -> Result<Option<Message>, AllocError>
        ensures { IfOk result (λ g. option_map message_of g ≡ model.arrived (message_of self.now)) }
    {
        match self.place {
            Place::Flying(vat) => Ok(Some(self.moved(Place::At(vat))?)),
            Place::At(_) | Place::Done(_) => Ok(None),
        }
    }

    /// The same message, shared, on the way from the vat where it is to another one; none where it is at no vat. Fails only for
    /// want of memory.
    pub fn forwarded(&self, vat: VatNo) -> Result<Option<Message>, AllocError>
        ensures { IfOk result (λ g. option_map message_of g ≡ model.forwarded vat (message_of self.now)) }
    {
        match self.place {
            Place::At(_) => Ok(Some(self.moved(Place::Flying(vat))?)),
            Place::Flying(_) | Place::Done(_) => Ok(None),
        }
    }

    /// The same message, shared, as one that was done in this event. Fails only for want of memory.
    pub fn done_in(&self, event: EventName) -> Result<Message, AllocError>
        ensures { IfOk result (λ g. message_of g ≡ record (message_of self.now) { place = model.done event }) }
    {
        self.moved(Place::Done(event))
    }
}

impl Clone for Message {
    ghost is_clone = { λ a b. message_of b ≡ message_of a };

    fn clone(&self) -> Result<Message, AllocError> {
        self.share()
    }
}

/// Whether two messages are the same, their places aside.
pub fn same_sent(a: &Message, b: &Message) -> bool
    ensures { IsTrue result ↔ (record (message_of a.now) { place = (message_of b.now).place } ≡ message_of b.now) }
{
    same_delivery(&a.sent.delivery, &b.sent.delivery)
        && a.sent.result == b.sent.result
        && a.sent.after.is_same(&b.sent.after)
}
