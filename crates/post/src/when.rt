// What a `when` waits for, and what it runs.
ghost use Rattle.std.specs.Prelude.{◌≡◌, ◌↔◌, false, IfOk, IsTrue};
ghost use Rattle.code.specs.Frames.{fits_all};
ghost use Rattle.code.specs.Props.{fits_all-prop};
ghost use Rattle.code.specs.View.{trees_of_codes};
ghost use Rattle.heap.specs.Names.{names_of};
ghost use Rattle.post.specs.Blocks.{handler_fits, handler_fits-prop};

use crate::call::same_value;
use code::code::Code;
use code::sameness::{same_codes, same_pattern};
use heap::sameness::same_nouns;
use heap::state::Noun;
use kernele::tree::Pattern;
use std::alloc::AllocError;
use std::sync::Arc;
use values::value::Value;

/// What a problem is bound to, and the block that it runs.
#[derive(Drop)]
pub struct Handler {
    pub pattern: Pattern,
    pub block: Arc<Vec<Code>>,
}

/// A block that waits until more is known of a value. Sharing it costs nothing that grows with it.
#[derive(Drop)]
pub struct When {
    /// As it was, not settled.
    pub value: Value,
    /// The names that it captured, the newest last. The block fits just these, and the handler these and what its problem is bound
    /// to.
    pub captured: Arc<Vec<Noun>>,
    pub block: Arc<Vec<Code>>,
    pub handler: Option<Handler>,
    pub ghost fits: { fits_all false (names_of captured.value.items) block.value.items } by { fits_all-prop false (names_of captured.value.items) block.value.items },
    pub ghost handled: { handler_fits (names_of captured.value.items) handler } by { handler_fits-prop (names_of captured.value.items) handler },
}

impl Handler {
    ghost use Rattle.post.specs.DeliveryView.{handler_of};

    /// The same handler, shared. Fails only for want of memory.
    fn share(&self) -> Result<Handler, AllocError>
        ensures { IfOk result (λ h. (h.pattern ≡ self.now.pattern) × (h.block.value ≡ self.now.block.value)) }
    {
        Ok(Handler {
            pattern: self.pattern.share()?,
            block: Arc::try_clone(&self.block)?,
        })
    }

    /// Whether two handlers are the same.
    fn is_same(&self, other: &Handler) -> bool
        ensures { IsTrue result ↔ (handler_of self.now ≡ handler_of other.now) }
    {
        same_bound(&self.pattern, &other.pattern) && same_block(&self.block, &other.block)
    }
}

impl When {
    ghost use Rattle.std.specs.Option.{option_map};
    ghost use Rattle.post.specs.DeliveryView.{handler_of, when_of};

    /// The same `when`, shared. Fails only for want of memory.
    pub fn share(&self) -> Result<When, AllocError>
        ensures { IfOk result (λ w. when_of w ≡ when_of self.now) }
    {
        let handler = match &self.handler {
            Some(handler) => Some(handler.share()?),
            None => None,
        };
        Ok(When {
            value: self.value.share()?,
            captured: Arc::try_clone(&self.captured)?,
            block: Arc::try_clone(&self.block)?,
            handler,
        })
    }

    /// Whether two of them are the same: value, captured names, block and handler.
    pub fn is_same(&self, other: &When) -> bool
        ensures { IsTrue result ↔ (when_of self.now ≡ when_of other.now) }
    {
        same_value(&self.value, &other.value)
            && same_nouns(&self.captured, &other.captured)
            && same_block(&self.block, &other.block)
            && self.has_same_handler(other)
    }

    fn has_same_handler(&self, other: &When) -> bool
        ensures { IsTrue result ↔ (option_map handler_of self.now.handler ≡ option_map handler_of other.now.handler) }
    {
        match (&self.handler, &other.handler) {
            (Some(x), Some(y)) => x.is_same(y),
            (None, None) => true,
            _ => false,
        }
    }
}

fn same_bound(a: &Pattern, b: &Pattern) -> bool
    ensures { IsTrue result ↔ (a.now ≡ b.now) }
{
    same_pattern(a, b)
}

pub(crate) fn same_block(xs: &Arc<Vec<Code>>, ys: &Arc<Vec<Code>>) -> bool
    ensures { IsTrue result ↔ (trees_of_codes xs.now.value.items ≡ trees_of_codes ys.now.value.items) }
{
    same_codes(xs, ys)
}
