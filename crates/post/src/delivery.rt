// What is delivered to a vat.
ghost use Rattle.std.specs.Prelude.{◌≡◌, ◌↔◌, IfOk, IsTrue};
ghost use Rattle.post.specs.DeliveryView.{delivery_of};

use crate::call::Call;
use crate::earlier::{Earlier, same_earlier};
use crate::program::{Question, Script};
use crate::when::{When, same_block};
use std::alloc::AllocError;
use std::sync::Arc;

/// What is delivered to a vat.
#[derive(Drop)]
pub enum Delivery {
    /// The vat's script, whose definitions bind the vat's top nouns, and the earlier vats, whose names are top nouns too.
    Opening(Arc<Vec<Earlier>>, Script),
    /// A program with a scope of its own, which sees the top nouns.
    Asked(Question),
    /// A call that a vat sent.
    Sent(Call),
    /// A block of the vat itself, which waits until more is known of a value.
    Waiting(When),
}

impl Delivery {
    /// The same delivery, shared. Fails only for want of memory.
    pub fn share(&self) -> Result<Delivery, AllocError>
        ensures { IfOk result (λ d. delivery_of d ≡ delivery_of self.now) }
    {
        match self {
            Delivery::Opening(earlier, script) => {
                Ok(Delivery::Opening(Arc::try_clone(earlier)?, script.share()?))
            }
            Delivery::Asked(question) => Ok(Delivery::Asked(question.share()?)),
            Delivery::Sent(call) => Ok(Delivery::Sent(call.share()?)),
            Delivery::Waiting(block) => Ok(Delivery::Waiting(block.share()?)),
        }
    }
}

/// Whether two deliveries are the same: of one kind, and with the same content.
pub fn same_delivery(a: &Delivery, b: &Delivery) -> bool
    ensures { IsTrue result ↔ (delivery_of a.now ≡ delivery_of b.now) }
{
    match (a, b) {
        (Delivery::Opening(earlier, x), Delivery::Opening(others, y)) => {
            same_earlier(earlier, others) && same_block(&x.items, &y.items)
        }
        (Delivery::Asked(x), Delivery::Asked(y)) => same_block(&x.items, &y.items),
        (Delivery::Sent(x), Delivery::Sent(y)) => x.is_same(y),
        (Delivery::Waiting(x), Delivery::Waiting(y)) => x.is_same(y),
        _ => false,
    }
}
