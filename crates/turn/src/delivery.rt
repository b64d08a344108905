// One delivery to a vat.
ghost use Rattle.std.specs.Prelude.{◌≡◌, [], IfOk};
ghost use Rattle.std.specs.Arc.{arc_value};
ghost use Rattle.heap.specs.Found.{Found};
ghost use Rattle.heap.specs.View.{state_of};
ghost use Rattle.eval_rules.specs.Answered.{OnEnd};
ghost use Rattle.eval_rules.specs.At.{At};
ghost use Rattle.eval_rules.specs.Outcomes.{End};
ghost use Rattle.eval_rules.specs.View.{at};
ghost use Rattle.turn_deliveries.specs.Outcomes.{Meets, found_of};
ghost use Rattle.turn_deliveries.specs.Turn.{start};
ghost use Rattle.post.specs.DeliveryView.{delivery_of};
ghost use Rattle.post.specs.MessageView.{message_of};
ghost use Rattle.turn.specs.Runs.{Does, RunsToEnd, is_opening};

use crate::calls::run_call;
use crate::ending::{end, lose};
use crate::opening::run_opening;
use crate::whens::run_when;
use eval::eval::eval_items;
use eval_rules::end::{Abandon, Halt, Stop};
use eval_rules::outbox::Outbox;
use eval_rules::working::Working;
use heap::draft::Draft;
use heap::state::VatState;
use ids::names::{EventName, VatNo};
use post::delivery::Delivery;
use post::message::{Message, Sent};
use std::alloc::{AllocError, Global};
use std::sync::Arc;
use turn_deliveries::lead::Lead;
use turn_deliveries::outcome::{Outcome, TurnEnd};
use values::value::Value;

/// Runs the turn of a message at a vat in this state, which itself stays as it is. The message's target leads there. Fails only for
/// want of memory.
pub fn deliver(
    alloc: Global,
    message: &Message,
    lead: &Lead,
    event: EventName,
    vat: VatNo,
    state: &Arc<VatState>,
    budget: u32,
) -> Result<Outcome, AllocError>
    ensures found { IfOk result (λ o. Found o.footprint (state_of (arc_value state.now))) }
    ensures meets { IfOk result (λ o. Meets (message_of message.now) (found_of lead.now) event vat budget o) }
{
    let sent: &Sent = &message.sent;
    let state = Arc::try_clone(state)?;
    let mut w = begin(alloc, &sent.delivery, event, vat, state, budget);
    let ended = run_to_end(&mut w, sent, lead)?;
    let footprint = w.draft.finish()?;
    Ok(Outcome {
        footprint,
        ended,
        steps: w.steps,
        out: w.out,
    })
}

/// Runs a delivery, and ends its turn.
fn run_to_end(w: &mut Working, sent: &Sent, lead: &Lead) -> Result<TurnEnd, AllocError>
    requires own { (at w.old).own_scope ≡ is_opening (delivery_of sent.now.delivery) }
    requires bare { (at w.old).nouns ≡ [] }
    ensures { IfOk result (λ e. (o : End) × (b : At) × Does (delivery_of sent.now.delivery) (found_of lead.now) (at w.old) o b × RunsToEnd w.new e sent.now.result o b) }
{
    let mut value = Value::Null;
    match run(w, &sent.delivery, lead, &mut value) {
        Ok(()) => end(w, sent.result, &value),
        Err(Stop::Halted) => lose(w, sent.result),
        Err(Stop::Memory) => Err(AllocError),
    }
}

/// A turn that is to run a delivery: a script defines top nouns.
fn begin(
    alloc: Global,
    delivery: &Delivery,
    event: EventName,
    vat: VatNo,
    state: Arc<VatState>,
    budget: u32,
) -> Working
    ensures { at result ≡ start (is_opening (delivery_of delivery.now)) event vat (state_of (arc_value state)) budget }
{
    Working {
        alloc,
        draft: Draft::new(alloc, state, event, vat),
        own_scope: defines_tops(delivery),
        captured: None,
        older: 0,
        nouns: Vec::new(alloc),
        spare: Vec::new(alloc),
        steps: budget,
        ejectors: 0,
        opened: Vec::new(alloc),
        out: Outbox::new(alloc),
        halt: Halt::Abandoned(Abandon::Budget),
    }
}

/// Whether a delivery is evaluated in the vat's own scope.
fn defines_tops(delivery: &Delivery) -> bool
    ensures { result ≡ is_opening (delivery_of delivery.now) }
{
    match delivery {
        Delivery::Opening(_, _) => true,
        Delivery::Asked(_) | Delivery::Sent(_) | Delivery::Waiting(_) => false,
    }
}

/// Runs a delivery.
fn run(w: &mut Working, delivery: &Delivery, lead: &Lead, into: &mut Value) -> Result<(), Stop>
    requires own { (at w.old).own_scope ≡ is_opening (delivery_of delivery.now) }
    requires bare { (at w.old).nouns ≡ [] }
    ensures { OnEnd result into.new w.new (Does (delivery_of delivery.now) (found_of lead.now) (at w.old)) }
{
    match delivery {
        Delivery::Opening(earlier, script) => run_opening(w, earlier, &script.items, into),
        Delivery::Asked(question) => eval_items(w, &question.items, 1, into),
        Delivery::Sent(call) => run_call(w, call, lead, into),
        Delivery::Waiting(when) => run_when(w, when, into),
    }
}
