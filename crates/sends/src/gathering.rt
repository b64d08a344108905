// References in values.
ghost use Rattle.std.specs.Prelude.{◌≡◌, OnOk};
ghost use Rattle.values.specs.View.{val_of, vals_of};
ghost use Rattle.sends.specs.Vats.{and_reference, each_once, references, references_in};

use ids::reference::Reference;
use indexmap::IndexSet;
use std::alloc::AllocError;
use values::value::Value;

/// Adds the references in a value, at any depth of lists and from the left, to those that were found, each once.
#[cycle(gathering)]
pub fn gather(value: &Value, found: &mut IndexSet<Reference>) -> Result<(), AllocError>
    ensures { OnOk result (found.new.keys ≡ each_once found.old.keys (references (val_of value.now))) }
{
    match value {
        Value::Null | Value::Bool(_) | Value::Int(_) | Value::Text(_) | Value::Broken(_) => {}
        Value::List(items) => gather_all(items.as_slice(), found)?,
        Value::Object(object) => add(Reference::Object(*object), found)?,
        Value::Ejector(ejector) => add(Reference::Ejector(*ejector), found)?,
        Value::Promise(promise) => add(Reference::Promise(*promise), found)?,
    }
    Ok(())
}

/// Adds the references in each of some values, from the left.
#[cycle(gathering)]
pub fn gather_all(values: &[Value], found: &mut IndexSet<Reference>) -> Result<(), AllocError>
    ensures { OnOk result (found.new.keys ≡ each_once found.old.keys (references_in (vals_of values.now))) }
{
    for value in values {
        gather(value, found)?;
    }
    Ok(())
}

/// Adds a reference, unless it was found.
fn add(reference: Reference, found: &mut IndexSet<Reference>) -> Result<(), AllocError>
    ensures { OnOk result (found.new.keys ≡ and_reference found.old.keys reference) }
{
    match found.insert(reference) {
        Ok(_) => Ok(()),
        Err(_) => Err(AllocError),
    }
}
