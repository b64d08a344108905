// Where messages go on to.
ghost use Rattle.std.specs.Prelude.{◌≡◌, Some, IfOk, option_map};
ghost use Rattle.event.specs.Events.{goes_on as goes_on_of};
ghost use Rattle.event.specs.Forwarding.{onward_of, to_of};
ghost use Rattle.post.specs.MessageView.{message_of};
ghost use Rattle.values.specs.View.{val_of};
ghost use Rattle.world_cells.specs.View.{world_of};

use crate::walks::{Walked, walk};
use ids::names::{PromId, VatNo};
use post::delivery::Delivery;
use post::message::Message;
use std::alloc::{AllocError, Global};
use values::value::Value;
use world_cells::world::World;

/// The vat to which a message goes on, and the promises on the way of its target.
#[derive(Drop)]
pub struct Destination {
    pub to: VatNo,
    pub through: Vec<PromId>,
}

/// Where a message at a vat goes on to, if it does: a call goes on where its target ends at an object or an ejector of another vat, or
/// at a promise whose home is another vat. Fails only for want of memory.
pub fn onward(
    alloc: Global,
    world: &World,
    message: &Message,
    vat: VatNo,
) -> Result<Option<Destination>, AllocError>
    ensures { IfOk result (λ r. option_map to_of r ≡ onward_of (world_of world.now) vat (message_of message.now)) }
{
    match &message.sent.delivery {
        Delivery::Sent(call) => {
            let Walked { end, through } = walk(alloc, world, &call.target)?;
            match goes_on(vat, &end) {
                Some(to) => Ok(Some(Destination { to, through })),
                None => Ok(None),
            }
        }
        Delivery::Opening(_, _) | Delivery::Asked(_) | Delivery::Waiting(_) => Ok(None),
    }
}

/// The other vat to which a message goes on whose target ends so.
fn goes_on(here: VatNo, end: &Option<Value>) -> Option<VatNo>
    ensures { result ≡ goes_on_of here (option_map val_of end.now) }
{
    match end {
        Some(value) => elsewhere(here, value),
        None => None,
    }
}

/// The same of an end.
fn elsewhere(here: VatNo, end: &Value) -> Option<VatNo>
    ensures { result ≡ goes_on_of here (Some (val_of end.now)) }
{
    let home = match end {
        Value::Object(object) => object.vat,
        Value::Ejector(ejector) => ejector.vat,
        Value::Promise(promise) => promise.home,
        Value::Null
        | Value::Bool(_)
        | Value::Int(_)
        | Value::Text(_)
        | Value::List(_)
        | Value::Broken(_) => return None,
    };
    (home != here).then_some(home)
}
