// What is entered in a vat's view under a turn.
ghost use Rattle.std.specs.Prelude.{IfOk};
ghost use Rattle.values.specs.View.{val_of};
ghost use Rattle.sends.specs.Vats.{entered};
ghost use Rattle.sends.specs.Making.{entered_if_come};
ghost use Rattle.sends.specs.Playing.{Did, IsSameTurn};

use crate::fences::{fence_of, join_end};
use heap::draft::Draft;
use heap::state::View;
use ids::names::PromId;
use ids::reference::Reference;
use std::alloc::{AllocError, Global};
use values::value::Value;

/// Enters a promise in the view as this value, adds its fence to that of what the value then settles to, and answers
/// that, where it is a reference.
pub fn enter(
    alloc: Global,
    draft: &mut Draft,
    promise: PromId,
    value: &Value,
) -> Result<Option<Reference>, AllocError>
    ensures did { IfOk result (λ t. Did (entered promise (val_of value.now)) draft.old t draft.new) }
    ensures turn { IsSameTurn draft.old draft.new }
{
    draft.write_view(promise, View::Resolved(value.share()?))?;
    let names = fence_of(alloc, draft, Reference::Promise(promise))?;
    join_end(alloc, draft, value, &names)
}

/// Enters a promise as this value, where it has come into the vat.
pub fn enter_if_come(
    alloc: Global,
    draft: &mut Draft,
    promise: PromId,
    value: &Value,
) -> Result<Option<Reference>, AllocError>
    ensures did { IfOk result (λ t. Did (entered_if_come promise (val_of value.now)) draft.old t draft.new) }
    ensures turn { IsSameTurn draft.old draft.new }
{
    draft.reach_view(promise)?;
    match draft.known(promise) {
        Some(_) => enter(alloc, draft, promise, value),
        None => Ok(None),
    }
}
