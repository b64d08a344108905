// What comes into a vat under a turn.
ghost use Rattle.std.specs.Prelude.{IfOk, OnOk};
ghost use Rattle.values.specs.View.{val_of, vals_of};
ghost use Rattle.sends.specs.Vats.{nothing, value_of as the_value_of, references, references_in, names_for, end_joined, comes_in, brought, all_brought, received, arrived, coming_in};
ghost use Rattle.sends.specs.Playing.{Did, IsSameTurn};

use crate::fences::{join_end, value_of};
use crate::gathering::{gather, gather_all};
use eorder::carried::Carried;
use eorder::fence::Fence;
use heap::draft::Draft;
use heap::state::View;
use ids::names::PromId;
use ids::reference::Reference;
use indexmap::IndexSet;
use std::alloc::{AllocError, Global};
use values::value::Value;

/// A promise comes into the vat: it is open there, unless it came before.
pub fn come_in(draft: &mut Draft, promise: PromId) -> Result<(), AllocError>
    ensures did { OnOk result (Did (comes_in promise) draft.old nothing draft.new) }
    ensures turn { IsSameTurn draft.old draft.new }
{
    draft.reach_view(promise)?;
    match draft.known(promise) {
        Some(_) => Ok(()),
        None => draft.write_view(promise, View::Open),
    }
}

/// A reference comes in, which matters where it is a promise.
fn bring(draft: &mut Draft, reference: Reference) -> Result<(), AllocError>
    ensures did { OnOk result (Did (brought reference) draft.old nothing draft.new) }
    ensures turn { IsSameTurn draft.old draft.new }
{
    match reference {
        Reference::Promise(promise) => come_in(draft, promise),
        Reference::Object(_) | Reference::Ejector(_) => Ok(()),
    }
}

/// All these references come in, from the left.
fn bring_all(draft: &mut Draft, references: &[Reference]) -> Result<(), AllocError>
    ensures did { OnOk result (Did (all_brought references.now) draft.old nothing draft.new) }
    ensures turn { IsSameTurn draft.old draft.new }
{
    for reference in references {
        bring(draft, *reference)?;
    }
    Ok(())
}

/// Adds the fence that a reference comes in with to that of what it settles to here, which is answered, where it is a
/// reference.
fn join_carried(
    alloc: Global,
    draft: &mut Draft,
    fences: &Carried,
    reference: Reference,
) -> Result<Option<Reference>, AllocError>
    ensures did { IfOk result (λ t. Did (end_joined (the_value_of reference) (names_for fences.now reference)) draft.old t draft.new) }
    ensures turn { IsSameTurn draft.old draft.new }
{
    let value = value_of(reference);
    match fences.fence(reference) {
        Some(names) => join_end(alloc, draft, &value, names),
        None => join_end(alloc, draft, &value, &Fence::empty(alloc)),
    }
}

/// Adds the fences that these references come in with, from the left.
fn join_all(
    alloc: Global,
    draft: &mut Draft,
    fences: &Carried,
    references: &[Reference],
) -> Result<(), AllocError>
    ensures did { OnOk result (Did (received fences.now references.now) draft.old nothing draft.new) }
    ensures turn { IsSameTurn draft.old draft.new }
{
    for reference in references {
        join_carried(alloc, draft, fences, *reference)?;
    }
    Ok(())
}

/// References come in with fences: first all promises, then the fences.
fn arrive(
    alloc: Global,
    draft: &mut Draft,
    fences: &Carried,
    references: &[Reference],
) -> Result<(), AllocError>
    ensures did { OnOk result (Did (arrived fences.now references.now) draft.old nothing draft.new) }
    ensures turn { IsSameTurn draft.old draft.new }
{
    bring_all(draft, references)?;
    join_all(alloc, draft, fences, references)
}

/// The references in a value come in with fences, each once.
pub fn receive(
    alloc: Global,
    draft: &mut Draft,
    fences: &Carried,
    value: &Value,
) -> Result<(), AllocError>
    ensures did { OnOk result (Did (coming_in fences.now (references (val_of value.now))) draft.old nothing draft.new) }
    ensures turn { IsSameTurn draft.old draft.new }
{
    let mut found = IndexSet::new(alloc);
    gather(value, &mut found)?;
    arrive(alloc, draft, fences, found.as_slice())
}

/// The references in values come in with fences, each once.
pub fn receive_all(
    alloc: Global,
    draft: &mut Draft,
    fences: &Carried,
    values: &[Value],
) -> Result<(), AllocError>
    ensures did { OnOk result (Did (coming_in fences.now (references_in (vals_of values.now))) draft.old nothing draft.new) }
    ensures turn { IsSameTurn draft.old draft.new }
{
    let mut found = IndexSet::new(alloc);
    gather_all(values, &mut found)?;
    arrive(alloc, draft, fences, found.as_slice())
}
