// Where values lead in the vat.
ghost use Rattle.std.specs.Prelude.{◌≡◌, OnOk};
ghost use Rattle.eval_rules.specs.Doings.{behind, given_by};
ghost use Rattle.eval_rules.specs.View.{at};
ghost use Rattle.sends.specs.Vats.{ended};
ghost use Rattle.values.specs.View.{val_of};

use eval_rules::working::Working;
use sends::ends::end_of;
use std::alloc::AllocError;
use values::value::Value;

/// Puts the end of a value in the vat in its place. A value that is no promise is its own end, and touches nothing.
#[inline(always)]
pub fn take_end(w: &mut Working, value: &mut Value) -> Result<(), AllocError>
    ensures end { OnOk result (val_of value.new ≡ given_by (ended (val_of value.old)) (at w.old)) }
    ensures place { OnOk result (at w.new ≡ behind (ended (val_of value.old)) (at w.old)) }
    ensures halt { w.new.halt ≡ w.old.halt }
{
    match value.as_promise() {
        Some(_) => walk(w, value),
        None => Ok(()),
    }
}

/// The same, of a promise most likely.
#[inline(never)]
fn walk(w: &mut Working, value: &mut Value) -> Result<(), AllocError>
    ensures end { OnOk result (val_of value.new ≡ given_by (ended (val_of value.old)) (at w.old)) }
    ensures place { OnOk result (at w.new ≡ behind (ended (val_of value.old)) (at w.old)) }
    ensures halt { w.new.halt ≡ w.old.halt }
{
    *value = end_of(w.alloc, &mut w.draft, value)?;
    Ok(())
}
