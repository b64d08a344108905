// Where a datum is wanted: what a condition, a list, a throw and a Try make of what they find.
ghost use Rattle.std.specs.Prelude.{◌≡◌, IfOk};
ghost use Rattle.std.specs.Option.{option_map};
ghost use Rattle.values.specs.Replies.{items_in};
ghost use Rattle.values.specs.View.{val_of};
ghost use Rattle.eval_rules.specs.Answered.{OnAnswer, OnStop};
ghost use Rattle.eval_rules.specs.Rules.{bool_in, choice_of, ends, goes, listed, listing_of, unlisted, mismatch as mismatch_of, thrown_end, caught as caught_of};
ghost use Rattle.eval_rules.specs.Outcomes.{value as value_end, halt as halt_end, thrown as thrown_halt};
ghost use Rattle.eval_rules.specs.View.{at, halt_of};

use crate::end::{Halt, Stop};
use crate::halting::throw_made;
use crate::working::Working;
use ids::text::Text;
use std::alloc::{AllocError, Global};
use std::sync::Arc;
use values::value::{Items, Value};

/// What a value throws that is not of the kind that is wanted: these words, or its own problem, if it is broken.
#[inline(never)]
pub fn mismatch(w: &mut Working, words: &str, value: &Value) -> Stop
    ensures { OnStop result w.new (λ h b. (halt_end h ≡ mismatch_of words.now (val_of value.now)) × (b ≡ at w.old)) }
{
    let problem = mismatch_problem(w.alloc, words, value);
    throw_made(w, problem)
}

fn mismatch_problem(alloc: Global, words: &str, value: &Value) -> Result<Text, AllocError>
    ensures { IfOk result (λ t. halt_end (thrown_halt t) ≡ mismatch_of words.now (val_of value.now)) }
{
    match value {
        Value::Broken(problem) => problem.share(),
        Value::Null
        | Value::Bool(_)
        | Value::Int(_)
        | Value::Text(_)
        | Value::List(_)
        | Value::Object(_)
        | Value::Ejector(_)
        | Value::Promise(_) => Text::new(alloc, words),
    }
}

/// The truth value that a value is.
fn as_bool(value: &Value) -> Option<bool>
    ensures { result ≡ bool_in (val_of value.now) }
{
    match value {
        Value::Bool(truth) => Some(*truth),
        Value::Null
        | Value::Int(_)
        | Value::Text(_)
        | Value::List(_)
        | Value::Object(_)
        | Value::Ejector(_)
        | Value::Promise(_)
        | Value::Broken(_) => None,
    }
}

/// What a condition leads to that gave this value.
pub fn choose(w: &mut Working, tested: &Value) -> Result<bool, Stop>
    ensures { OnAnswer result w.new (λ q b. (choice_of (value_end (val_of tested.now)) ≡ goes q) × (b ≡ at w.old))
        (λ h b. (choice_of (value_end (val_of tested.now)) ≡ ends (halt_end h)) × (b ≡ at w.old)) }
{
    match as_bool(tested) {
        Some(truth) => Ok(truth),
        None => Err(mismatch(w, "not a truth value", tested)),
    }
}

/// The items of the list that a value is, shared.
fn shared_items(value: &Value) -> Result<Option<Arc<Items>>, AllocError>
    ensures { IfOk result (λ l. option_map (λ a. a.value) l ≡ items_in (val_of value.now)) }
{
    match value {
        Value::List(items) => Ok(Some(Arc::try_clone(items)?)),
        Value::Null
        | Value::Bool(_)
        | Value::Int(_)
        | Value::Text(_)
        | Value::Object(_)
        | Value::Ejector(_)
        | Value::Promise(_)
        | Value::Broken(_) => Ok(None),
    }
}

/// What a For goes over whose list is this value: its items, shared.
pub fn items_of(w: &mut Working, value: &Value) -> Result<Arc<Items>, Stop>
    ensures { OnAnswer result w.new (λ items b. (listing_of (value_end (val_of value.now)) ≡ listed items.value) × (b ≡ at w.old))
        (λ h b. (listing_of (value_end (val_of value.now)) ≡ unlisted (halt_end h)) × (b ≡ at w.old)) }
{
    let listed = shared_items(value)?;
    match listed {
        Some(items) => Ok(items),
        None => Err(mismatch(w, "not a list", value)),
    }
}

/// What is thrown where this value is to be thrown.
pub fn thrown(w: &mut Working, value: &Value) -> Stop
    ensures { OnStop result w.new (λ h b. (halt_end h ≡ thrown_end (value_end (val_of value.now))) × (b ≡ at w.old)) }
{
    let problem = thrown_problem(w.alloc, value);
    throw_made(w, problem)
}

fn thrown_problem(alloc: Global, value: &Value) -> Result<Text, AllocError>
    ensures { IfOk result (λ t. halt_end (thrown_halt t) ≡ thrown_end (value_end (val_of value.now))) }
{
    match value {
        Value::Text(problem) => problem.share(),
        Value::Null
        | Value::Bool(_)
        | Value::Int(_)
        | Value::List(_)
        | Value::Object(_)
        | Value::Ejector(_)
        | Value::Promise(_)
        | Value::Broken(_) => mismatch_problem(alloc, "not a text", value),
    }
}

/// The problem that a Try catches, if it was halted by one.
pub fn caught(w: &Working) -> Result<Option<Text>, AllocError>
    ensures { IfOk result (λ t. t ≡ caught_of (halt_end (halt_of w.now.halt))) }
{
    match &w.halt {
        Halt::Thrown(problem) => Ok(Some(problem.share()?)),
        Halt::Ejected(_, _) | Halt::Abandoned(_) => Ok(None),
    }
}
