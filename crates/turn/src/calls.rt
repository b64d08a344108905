// Calls that were sent.
ghost use Rattle.std.specs.Prelude.{◌≡◌, IfOk, OnOk};
ghost use Rattle.code.specs.View.{trees_of_codes};
ghost use Rattle.values.specs.Data.{null};
ghost use Rattle.values.specs.View.{vals_of};
ghost use Rattle.heap.specs.View.{nouns_of};
ghost use Rattle.post.specs.DeliveryView.{call_of};
ghost use Rattle.eval_rules.specs.Answered.{OnEnd};
ghost use Rattle.eval_rules.specs.Doings.{behind};
ghost use Rattle.eval_rules.specs.Locals.{captured_in, locals_after};
ghost use Rattle.eval_rules.specs.Rules.{Items, inside};
ghost use Rattle.eval_rules.specs.View.{at};
ghost use Rattle.turn_deliveries.specs.Outcomes.{found_of};
ghost use Rattle.turn_deliveries.specs.Turn.{Led, call_coming, call_meeting, call_met, list_coming};

use eval::eval::eval_items;
use eval_objects::calls::{call_target, enter_method};
use eval_rules::end::Stop;
use eval_rules::entry::MethodEntry;
use eval_rules::working::Working;
use post::call::Call;
use sends::coming::{receive, receive_all};
use std::alloc::{AllocError, Global};
use turn_deliveries::lead::Lead;
use values::value::Value;

/// Makes a call that was sent on the end of its target. Its arguments come in first, and then a list that it is made on.
pub(crate) fn run_call(
    w: &mut Working,
    call: &Call,
    lead: &Lead,
    into: &mut Value,
) -> Result<(), Stop>
    ensures { OnEnd result into.new w.new (Led (call_met (call_of call.now) (found_of lead.now) (at w.old)) (call_meeting (call_of call.now) (found_of lead.now) (at w.old))) }
{
    bring_in(w, call, lead)?;
    let mut target = lead.end.share()?;
    let mut arguments = share_all(w.alloc, &call.arguments)?;
    let entry = call_target(w, &mut target, &call.verb, &mut arguments, into)?;
    match entry {
        Some(entry) => run_entry(w, entry, into),
        None => Ok(()),
    }
}

/// What a call brings into the vat.
fn bring_in(w: &mut Working, call: &Call, lead: &Lead) -> Result<(), AllocError>
    ensures { OnOk result (at w.new ≡ behind (call_coming (call_of call.now) (found_of lead.now)) (at w.old)) }
{
    receive_all(w.alloc, &mut w.draft, &call.fences, &call.arguments)?;
    bring_list(w, lead)
}

/// A list on which a call is made comes in.
fn bring_list(w: &mut Working, lead: &Lead) -> Result<(), AllocError>
    ensures { OnOk result (at w.new ≡ behind (list_coming (found_of lead.now).fences (found_of lead.now).end) (at w.old)) }
{
    match &lead.end {
        Value::List(_) => receive(w.alloc, &mut w.draft, &lead.fences, &lead.end),
        Value::Null
        | Value::Bool(_)
        | Value::Int(_)
        | Value::Text(_)
        | Value::Object(_)
        | Value::Ejector(_)
        | Value::Promise(_)
        | Value::Broken(_) => Ok(()),
    }
}

/// The arguments of a call, shared.
fn share_all(alloc: Global, values: &[Value]) -> Result<Vec<Value>, AllocError>
    ensures { IfOk result (λ row. vals_of row.items ≡ vals_of values.now) }
{
    let mut row = Vec::with_capacity(alloc, values.len())?;
    for value in values {
        row.push(value.share()?)?;
    }
    Ok(row)
}

/// Runs a method's block. The turn ends with it, so there is no caller to come back to.
fn run_entry(w: &mut Working, entry: MethodEntry, into: &mut Value) -> Result<(), Stop>
    ensures { OnEnd result into.new w.new (Items 1 null (trees_of_codes entry.body.value.items) (inside (locals_after (nouns_of (captured_in entry.captured)) entry.nouns.items) (at w.old))) }
{
    let MethodEntry {
        captured,
        nouns,
        body,
    } = entry;
    let _ = enter_method(w, captured, nouns);
    eval_items(w, &body, 1, into)
}
