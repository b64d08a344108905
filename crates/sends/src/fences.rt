// Fences under a turn.
ghost use Rattle.std.specs.Prelude.{◌≡◌, IfOk, OnOk, Some};
ghost use Rattle.values.specs.View.{val_of};
ghost use Rattle.sends.specs.Vats.{nothing, reference_in, value_of as the_value_of, fence_of as the_fence_of, fence_joined, end_joined, sent_after};
ghost use Rattle.sends.specs.Playing.{Did, IsSameTurn};

use crate::ends::end_of;
use eorder::fence::Fence;
use heap::draft::Draft;
use ids::names::MsgId;
use ids::reference::Reference;
use std::alloc::{AllocError, Global};
use values::value::Value;

/// The reference that a value is.
pub fn reference_of(value: &Value) -> Option<Reference>
    ensures { result ≡ reference_in (val_of value.now) }
{
    match value {
        Value::Null
        | Value::Bool(_)
        | Value::Int(_)
        | Value::Text(_)
        | Value::List(_)
        | Value::Broken(_) => None,
        Value::Object(object) => Some(Reference::Object(*object)),
        Value::Ejector(ejector) => Some(Reference::Ejector(*ejector)),
        Value::Promise(promise) => Some(Reference::Promise(*promise)),
    }
}

/// A reference as a value.
pub fn value_of(reference: Reference) -> Value
    ensures { val_of result ≡ the_value_of reference }
{
    match reference {
        Reference::Object(object) => Value::Object(object),
        Reference::Ejector(ejector) => Value::Ejector(ejector),
        Reference::Promise(promise) => Value::Promise(promise),
    }
}

/// The names behind a reference, copied.
pub fn fence_of(alloc: Global, draft: &mut Draft, reference: Reference) -> Result<Fence, AllocError>
    ensures did { IfOk result (λ f. Did (the_fence_of reference) draft.old f draft.new) }
    ensures turn { IsSameTurn draft.old draft.new }
{
    draft.reach_fence(reference)?;
    match draft.fence(reference) {
        Some(fence) => fence.share(),
        None => Ok(Fence::empty(alloc)),
    }
}

/// Adds names to a fence. Where there is no name, or no reference, nothing is touched.
fn join_fence(
    alloc: Global,
    draft: &mut Draft,
    reference: Option<Reference>,
    names: &Fence,
) -> Result<(), AllocError>
    ensures did { OnOk result (Did (fence_joined reference names.now) draft.old nothing draft.new) }
    ensures turn { IsSameTurn draft.old draft.new }
{
    match reference {
        Some(reference) => add_names(alloc, draft, reference, names),
        None => Ok(()),
    }
}

/// Adds names to the fence of a reference. Where there is no name nothing is touched.
fn add_names(
    alloc: Global,
    draft: &mut Draft,
    reference: Reference,
    names: &Fence,
) -> Result<(), AllocError>
    ensures did { OnOk result (Did (fence_joined (Some reference) names.now) draft.old nothing draft.new) }
    ensures turn { IsSameTurn draft.old draft.new }
{
    if names.is_empty() {
        return Ok(());
    }
    let fence = fence_of(alloc, draft, reference)?.join(names)?;
    draft.write_fence(reference, fence)
}

/// Adds names to the fence of what a value settles to, and answers that, where it is a reference.
pub fn join_end(
    alloc: Global,
    draft: &mut Draft,
    value: &Value,
    names: &Fence,
) -> Result<Option<Reference>, AllocError>
    ensures did { IfOk result (λ t. Did (end_joined (val_of value.now) names.now) draft.old t draft.new) }
    ensures turn { IsSameTurn draft.old draft.new }
{
    let end = end_of(alloc, draft, value)?;
    let reference = reference_of(&end);
    join_fence(alloc, draft, reference, names)?;
    Ok(reference)
}

/// What a message comes after: the names behind its settled target, behind which it then stands alone.
pub fn send_on(
    alloc: Global,
    draft: &mut Draft,
    message: MsgId,
    target: Option<Reference>,
) -> Result<Fence, AllocError>
    ensures did { IfOk result (λ f. Did (sent_after message target) draft.old f draft.new) }
    ensures turn { IsSameTurn draft.old draft.new }
{
    match target {
        Some(reference) => {
            let after = fence_of(alloc, draft, reference)?;
            draft.write_fence(reference, Fence::alone(alloc, message))?;
            Ok(after)
        }
        None => Ok(Fence::empty(alloc)),
    }
}
