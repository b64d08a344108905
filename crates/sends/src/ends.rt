// Ends and settled forms under a turn.
ghost use Rattle.std.specs.Prelude.{◌≡◌, IfOk, OnOk, option_map};
ghost use Rattle.heap.specs.Drafts.{draft_of};
ghost use Rattle.values.specs.View.{val_of};
ghost use Rattle.sends.specs.Vats.{ended, settled};
ghost use Rattle.sends.specs.Playing.{under, Did, IsSameTurn, views_in, looked_at};

use heap::draft::Draft;
use heap::state::View;
use ids::names::PromId;
use refs::resolve::Resolve;
use refs::{ends, settling};
use std::alloc::{AllocError, Global};
use values::value::Value;

/// What a vat under a turn knows promises resolved to.
#[derive(Drop)]
struct KnownResolutions<'a> {
    draft: &'a Draft,
}

impl<'a> Resolve for KnownResolutions<'a> {
    ghost use Rattle.heap.specs.Drafts.{draft_of};
    ghost use Rattle.sends.specs.Playing.{views_in};

    ghost resolutions = { λ k. views_in (draft_of k.draft.now) };

    fn resolution(&self, promise: PromId) -> Option<&Value> {
        match self.draft.known(promise) {
            Some(View::Resolved(value)) => Some(value),
            _ => None,
        }
    }
}

/// Touches what is known of each of these promises, in their order.
fn look_at(draft: &mut Draft, promises: &[PromId]) -> Result<(), AllocError>
    ensures looked { OnOk result (under draft.new ≡ looked_at promises.now (under draft.old)) }
    ensures turn { IsSameTurn draft.old draft.new }
{
    for promise in promises {
        draft.reach_view(*promise)?;
    }
    Ok(())
}

/// The end of a value in the vat, shared. A value that is no promise touches nothing and takes no memory.
pub fn end_of(alloc: Global, draft: &mut Draft, value: &Value) -> Result<Value, AllocError>
    ensures did { IfOk result (λ e. Did (ended (val_of value.now)) draft.old (val_of e) draft.new) }
    ensures turn { IsSameTurn draft.old draft.new }
{
    let mut through = Vec::new(alloc);
    let end = ends::end_of(&KnownResolutions { draft: &*draft }, value, &mut through)?;
    look_at(draft, through.as_slice())?;
    Ok(end)
}

/// The settled form of a value in the vat; none, if it passes a limit of values.
pub fn settle(alloc: Global, draft: &mut Draft, value: &Value) -> Result<Option<Value>, AllocError>
    ensures did { IfOk result (λ o. Did (settled (val_of value.now)) draft.old (option_map val_of o) draft.new) }
    ensures turn { IsSameTurn draft.old draft.new }
{
    let mut through = Vec::new(alloc);
    let form = settling::settle(&KnownResolutions { draft: &*draft }, value, &mut through)?;
    look_at(draft, through.as_slice())?;
    Ok(form)
}
