// References that leave a vat with their fences.
ghost use Rattle.std.specs.Prelude.{[], IfOk};
ghost use Rattle.values.specs.View.{val_of, vals_of};
ghost use Rattle.sends.specs.Vats.{carried, leaving, references, references_in};
ghost use Rattle.sends.specs.Playing.{Did, IsSameTurn};

use crate::fences::fence_of;
use crate::gathering::{gather, gather_all};
use eorder::carried::Carried;
use heap::draft::Draft;
use ids::reference::Reference;
use indexmap::IndexSet;
use std::alloc::{AllocError, Global};
use values::value::Value;

/// References with the fences that they have at this moment. Those whose fences are empty are left out.
fn carry(alloc: Global, draft: &mut Draft, references: &[Reference]) -> Result<Carried, AllocError>
    ensures did { IfOk result (λ c. Did (carried [] references.now) draft.old c draft.new) }
    ensures turn { IsSameTurn draft.old draft.new }
{
    let mut row = Carried::empty(alloc);
    for reference in references {
        let fence = fence_of(alloc, draft, *reference)?;
        row.add(*reference, fence)?;
    }
    Ok(row)
}

/// The references in a settled value leave with their fences.
pub fn leave(alloc: Global, draft: &mut Draft, value: &Value) -> Result<Carried, AllocError>
    ensures did { IfOk result (λ c. Did (leaving (references (val_of value.now))) draft.old c draft.new) }
    ensures turn { IsSameTurn draft.old draft.new }
{
    let mut found = IndexSet::new(alloc);
    gather(value, &mut found)?;
    carry(alloc, draft, found.as_slice())
}

/// The references in settled values leave with their fences.
pub fn leave_all(alloc: Global, draft: &mut Draft, values: &[Value]) -> Result<Carried, AllocError>
    ensures did { IfOk result (λ c. Did (leaving (references_in (vals_of values.now))) draft.old c draft.new) }
    ensures turn { IsSameTurn draft.old draft.new }
{
    let mut found = IndexSet::new(alloc);
    gather_all(values, &mut found)?;
    carry(alloc, draft, found.as_slice())
}
