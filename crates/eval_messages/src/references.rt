// What references are, and which values are the same.
ghost use Rattle.std.specs.Prelude.{◌≡◌, IfOk, option_map};
ghost use Rattle.eval_rules.specs.Answered.{OnEnd, OnStop};
ghost use Rattle.eval_rules.specs.Doings.{refusal_end, same_end, same_read, state_end, state_word};
ghost use Rattle.eval_rules.specs.Outcomes.{halt, value as value_end};
ghost use Rattle.eval_rules.specs.Rules.{broken_end};
ghost use Rattle.eval_rules.specs.View.{at};
ghost use Rattle.sends.specs.Making.{value_too_large};
ghost use Rattle.values.specs.Data.{broken};
ghost use Rattle.values.specs.Replies.{text_in};
ghost use Rattle.values.specs.View.{val_of};

use crate::places::here;
use eval_rules::end::Stop;
use eval_rules::halting::throw_made;
use eval_rules::results::give;
use eval_rules::wanted::mismatch;
use eval_rules::working::Working;
use ids::text::Text;
use refs::kinds::{Kind, kind_of};
use sends::ends::settle;
use std::alloc::AllocError;
use values::sameness::same_reply;
use values::value::Value;

/// Whether two values are the same: both are settled first, the left one before the right one, which stands where the answer goes.
pub fn give_same(w: &mut Working, left: &Value, into: &mut Value) -> Result<(), Stop>
    ensures { OnEnd result into.new w.new (λ o b. (o ≡ same_end (val_of left.now) (value_end (val_of into.old)) (at w.old))
        × (b ≡ same_read (val_of left.now) (value_end (val_of into.old)) (at w.old))) }
{
    let Some(left) = settle(w.alloc, &mut w.draft, left)? else {
        return Err(too_large(w));
    };
    let Some(right) = settle(w.alloc, &mut w.draft, into)? else {
        return Err(too_large(w));
    };
    let answer = same_reply(w.alloc, &left, &right)?;
    give(w, answer, into)
}

/// The word for what an end is in the vat.
pub fn give_state(w: &mut Working, into: &mut Value) -> Result<(), Stop>
    ensures { OnEnd result into.new w.new (λ o b. (o ≡ state_end (at w.old).vat (value_end (val_of into.old))) × (b ≡ at w.old)) }
{
    let here = here(w);
    *into = Value::Text(Text::new(w.alloc, word_of(kind_of(into, here)))?);
    Ok(())
}

fn word_of(kind: Kind) -> &'static str
    ensures { result.now ≡ state_word kind }
{
    match kind {
        Kind::Near => "near",
        Kind::Far => "far",
        Kind::LocalPromise | Kind::RemotePromise => "promise",
        Kind::Broken => "broken",
    }
}

/// A broken value, of the problem that is a text here.
pub fn give_broken(w: &mut Working, into: &mut Value) -> Result<(), Stop>
    ensures { OnEnd result into.new w.new (λ o b. (o ≡ broken_end (value_end (val_of into.old))) × (b ≡ at w.old)) }
{
    let broken = broken_by(into)?;
    match broken {
        Some(value) => {
            *into = value;
            Ok(())
        }
        None => Err(mismatch(w, "not a text", into)),
    }
}

/// A broken value of the problem that a text is; none of any other value.
fn broken_by(value: &Value) -> Result<Option<Value>, AllocError>
    ensures { IfOk result (λ o. option_map val_of o ≡ option_map broken (text_in (val_of value.now))) }
{
    match value {
        Value::Text(problem) => Ok(Some(Value::Broken(problem.share()?))),
        Value::Null
        | Value::Bool(_)
        | Value::Int(_)
        | Value::List(_)
        | Value::Object(_)
        | Value::Ejector(_)
        | Value::Promise(_)
        | Value::Broken(_) => Ok(None),
    }
}

/// Throws that a value is too large.
fn too_large(w: &mut Working) -> Stop
    ensures { OnStop result w.new (λ h b. (halt h ≡ refusal_end value_too_large) × (b ≡ at w.old)) }
{
    let problem = Text::new(w.alloc, "value too large");
    throw_made(w, problem)
}
