// The opening of a vat.
ghost use Rattle.std.specs.Prelude.{◌≡◌, ◌∷◌, [], true, OnOk};
ghost use Rattle.code.specs.Frames.{fits_all};
ghost use Rattle.code.specs.View.{trees_of_codes};
ghost use Rattle.values.specs.Data.{null};
ghost use Rattle.eval_rules.specs.Answered.{OnEnd};
ghost use Rattle.eval_rules.specs.Rules.{Items};
ghost use Rattle.eval_rules.specs.View.{at};
ghost use Rattle.turn_deliveries.specs.Turn.{knowing};

use code::code::Code;
use eval::eval::eval_items;
use eval_objects::nouns::bind;
use eval_rules::end::Stop;
use eval_rules::working::Working;
use heap::state::Binding;
use post::earlier::Earlier;
use sends::coming::come_in;
use std::alloc::AllocError;
use values::value::Value;

/// Runs a script, in which the names of earlier vats stand for the promises of their openings.
pub(crate) fn run_opening(
    w: &mut Working,
    earlier: &[Earlier],
    items: &[Code],
    into: &mut Value,
) -> Result<(), Stop>
    requires own { (at w.old).own_scope ≡ true }
    requires bare { (at w.old).nouns ≡ [] }
    requires fits { fits_all true [] items.now }
    ensures { OnEnd result into.new w.new (Items 1 null (trees_of_codes items.now) (knowing earlier.now (at w.old))) }
{
    know(w, earlier)?;
    eval_items(w, items, 1, into)
}

/// The promises of earlier vats come in, and are bound to their names.
fn know(w: &mut Working, earlier: &[Earlier]) -> Result<(), AllocError>
    ensures { OnOk result (at w.new ≡ knowing earlier.now (at w.old)) }
{
    for vat in earlier {
        know_vat(w, vat)?;
    }
    Ok(())
}

/// The same of one of them.
fn know_vat(w: &mut Working, vat: &Earlier) -> Result<(), AllocError>
    ensures { OnOk result (at w.new ≡ knowing (vat.now ∷ []) (at w.old)) }
{
    come_in(&mut w.draft, vat.opening)?;
    bind(w, &vat.name, Binding::Fixed(Value::Promise(vat.opening)))
}
