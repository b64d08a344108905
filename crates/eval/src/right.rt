// What an expression does with the value of its right side.
ghost use Rattle.std.specs.Prelude.{◌≡◌};
ghost use Rattle.values.specs.View.{val_of};
ghost use Rattle.eval_objects.specs.Making.{TakesParts};
ghost use Rattle.eval_rules.specs.Doings.{datum_of, datum_read};
ghost use Rattle.eval_rules.specs.Outcomes.{value as value_end};
ghost use Rattle.eval_rules.specs.Answered.{OnEnd};
ghost use Rattle.eval_rules.specs.Rules.{primitive_end};
ghost use Rattle.eval_rules.specs.View.{at};
ghost use Rattle.eval.specs.Sides.{is_placed, taken_at, taken_end};

use code::code::Code;
use eval_messages::ends::take_end;
use eval_messages::references::{give_broken, give_state};
use eval_objects::nouns::{assign, bind_parts, declare, match_pattern};
use eval_rules::end::Stop;
use eval_rules::wanted::thrown;
use eval_rules::working::Working;
use kernele::tree::{Pattern, Primitive};
use values::value::Value;

/// Has an expression take the value of its right side. One that has none leaves the value as it is.
#[inline(always)]
pub(crate) fn take(w: &mut Working, e: &Code, into: &mut Value) -> Result<(), Stop>
    requires { is_placed (at w.old) e.now }
    ensures { OnEnd result into.new w.new (λ o b. (o ≡ taken_end e.now (value_end (val_of into.old)) (at w.old))
        × (b ≡ taken_at e.now (value_end (val_of into.old)) (at w.old))) }
{
    match e {
        Code::Def(pattern, _) => Ok(match_pattern(w, pattern, into)?),
        Code::DefList(patterns, _) => take_parts(w, patterns, into),
        Code::Var(name, _) => declare(w, name, into),
        Code::Assign(name, place, _) => assign(w, name, *place, into),
        Code::Primitive(primitive, _) => {
            take_end(w, into)?;
            give_made(w, *primitive, into)
        }
        _ => Ok(()),
    }
}

/// Gives what a primitive makes of a value at its end.
#[inline(always)]
fn give_made(w: &mut Working, primitive: Primitive, into: &mut Value) -> Result<(), Stop>
    ensures { OnEnd result into.new w.new (λ o b. (o ≡ primitive_end (value_end (val_of into.old)) (at w.old).vat primitive) × (b ≡ at w.old)) }
{
    match primitive {
        Primitive::Throw => Err(thrown(w, into)),
        Primitive::BreakRef => give_broken(w, into),
        Primitive::StateRef => give_state(w, into),
    }
}

/// Has a list of patterns take the items at the end of a value, which stays as it is.
fn take_parts(w: &mut Working, patterns: &[Pattern], value: &Value) -> Result<(), Stop>
    ensures { OnEnd result value.now w.new (TakesParts patterns.now (val_of value.now) (datum_of (value_end (val_of value.now)) (at w.old)) (datum_read (value_end (val_of value.now)) (at w.old))) }
{
    let mut end = value.share()?;
    take_end(w, &mut end)?;
    bind_parts(w, patterns, &end)
}
