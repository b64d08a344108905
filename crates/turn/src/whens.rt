// Whens that are delivered.
ghost use Rattle.std.specs.Prelude.{◌≡◌, OnOk};
ghost use Rattle.values.specs.View.{val_of};
ghost use Rattle.heap.specs.View.{nouns_of};
ghost use Rattle.post.specs.DeliveryView.{when_of};
ghost use Rattle.eval_rules.specs.Answered.{OnEnd};
ghost use Rattle.eval_rules.specs.Doings.{behind, given_by};
ghost use Rattle.eval_rules.specs.Rules.{inside};
ghost use Rattle.eval_rules.specs.View.{at};
ghost use Rattle.sends.specs.Vats.{ended};
ghost use Rattle.turn_deliveries.specs.Turn.{Led, handled, when_met};

use eval::eval::eval_items;
use eval_messages::ends::take_end;
use eval_objects::calls::enter_method;
use eval_objects::nouns::match_pattern;
use eval_rules::end::Stop;
use eval_rules::halting::throw;
use eval_rules::working::Working;
use ids::text::Text;
use post::when::When;
use std::alloc::AllocError;
use std::sync::Arc;
use values::value::Value;

/// Runs a `when`: its block, or its handler where its value is broken.
pub(crate) fn run_when(w: &mut Working, when: &When, into: &mut Value) -> Result<(), Stop>
    ensures { OnEnd result into.new w.new (Led (when_met (when_of when.now) (given_by (ended (val_of when.now.value)) (at w.old))) (behind (ended (val_of when.now.value)) (at w.old))) }
{
    let mut value = when.value.share()?;
    take_end(w, &mut value)?;
    run_by(w, when, &value, into)
}

/// The same, by the end of its value.
fn run_by(w: &mut Working, when: &When, value: &Value, into: &mut Value) -> Result<(), Stop>
    ensures { OnEnd result into.new w.new (Led (when_met (when_of when.now) (val_of value.now)) (at w.old)) }
{
    match value {
        Value::Broken(problem) => handle(w, when, problem, into),
        Value::Null
        | Value::Bool(_)
        | Value::Int(_)
        | Value::Text(_)
        | Value::List(_)
        | Value::Object(_)
        | Value::Ejector(_)
        | Value::Promise(_) => {
            enter_when(w, when)?;
            eval_items(w, &when.block, 1, into)
        }
    }
}

/// Handles a problem. Where there is no handler it is thrown.
fn handle(w: &mut Working, when: &When, problem: &Text, into: &mut Value) -> Result<(), Stop>
    ensures { OnEnd result into.new w.new (Led (handled problem.now (when_of when.now).captured (when_of when.now).handler) (at w.old)) }
{
    match &when.handler {
        Some(handler) => {
            enter_when(w, when)?;
            match_pattern(w, &handler.pattern, &Value::Text(problem.share()?))?;
            eval_items(w, &handler.block, 1, into)
        }
        None => Err(throw(w, problem.share()?)),
    }
}

/// Begins a `when` with the names that it captured.
fn enter_when(w: &mut Working, when: &When) -> Result<(), AllocError>
    ensures { OnOk result (at w.new ≡ inside (nouns_of when.now.captured.value.items) (at w.old)) }
{
    let captured = Arc::try_clone(&when.captured)?;
    let own = Vec::new(w.alloc);
    let _ = enter_method(w, Some(captured), own);
    Ok(())
}
