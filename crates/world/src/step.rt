// One step of the world: what each kind of event does.
ghost use Rattle.std.specs.Prelude.{◌≡◌, ◌⊎◌, ◌↔◌, IfOk, IfErr, IsTrue, OnOk, OnErr, None, Some, map};
ghost use Rattle.std.specs.Arc.{arc_value};
ghost use Rattle.ids.specs.declared.cells.CellKey.TheVariants as key;
ghost use Rattle.code.specs.View.{trees_of_codes};
ghost use Rattle.heap.specs.Found.{Found};
ghost use Rattle.heap.specs.State.{pending, view_cell, viewed};
ghost use Rattle.heap.specs.View.{state_of};
ghost use Rattle.world_cells.specs.EventView.{event_of};
ghost use Rattle.world_cells.specs.Events.{birth, ask, arrive, forward, learn, turn};
ghost use Rattle.post.specs.MessageView.{message_of, published_of};
ghost use Rattle.world_cells.specs.View.{seen_of_world, world_of};
ghost use Rattle.world_cells.specs.World.{vat_state};
ghost use Rattle.turn_deliveries.specs.Outcomes.{found_of};
ghost use Rattle.eval_rules.specs.OutboxView.{letter_of};
ghost use Rattle.event.specs.Events.{AreNew, Foot, letters_from};
ghost use Rattle.event.specs.Effects.{Happens};
ghost use Rattle.event.specs.ReadyView.{IsWay};
ghost use Rattle.event.specs.Naming.{Numbers};
ghost use Rattle.world.specs.Steps.{StepsTo, TellsStep, Learnable, Ready, RunsAt, Unlearnable, Unnamed, Unready as IsUnready};
ghost use Rattle.world.specs.declared.step.StepFault.TheVariants.{Memory};

use code_unresolver::unresolve;
use eval_rules::outbox::Letter;
use event::effects::{
    Effects, ask_effects, birth_effects, learn_effects, move_effects, turn_effects,
};
use event::forwarding::onward;
use event::learning::learn;
use event::ready::{Delay, Way, check_ready, message_at_vat};
use heap::state::{VatState, View};
use ids::names::{EventName, MsgId, PromId, VatNo};
use ids::text::Text;
use kernele_scopes::top_names;
use post::message::Message;
use post::program::{Question, Script};
use post::published::Published;
use std::alloc::{AllocError, AllocFailed, Global};
use turn::ticket::{Out, Ran, Task, Ticket};
use turn_deliveries::lead::Lead;
use undo::records::{make_rooms, swap_records};
use world_cells::event::{Action, Event};
use world_cells::world::World;

/// The seat of turns that are run from none.
const NO_SEAT: u64 = 0;

/// Why an event was not done.
#[derive(Drop)]
pub enum StepFault {
    /// It is not possible in this world.
    Impossible,
    Memory,
}

impl From<AllocError> for StepFault {
    ghost from_gives = { λ _ e. e ≡ Memory };

    fn from(_error: AllocError) -> Self {
        StepFault::Memory
    }
}

impl<T: Drop> From<AllocFailed<T>> for StepFault {
    ghost from_gives = { λ _ e. e ≡ Memory };

    fn from(_error: AllocFailed<T>) -> Self {
        StepFault::Memory
    }
}

/// The effects of a birth, if its name is free.
fn effects_of_birth(
    alloc: Global,
    world: &World,
    event: EventName,
    name: &Text,
    earlier: &[Text],
    script: &Script,
) -> Result<Effects, StepFault>
    ensures ok { IfOk result (λ it. (f : Foot) × Happens (record { name = event; act = birth name.now earlier.now (trees_of_codes script.now.items.value.items) }) f (world_of world.now) it) }
    ensures err { IfErr result (λ fault. TellsStep (record { name = event; act = birth name.now earlier.now (trees_of_codes script.now.items.value.items) }) (world_of world.now) fault) }
{
    let None = world.vat(name) else {
        return Err(StepFault::Impossible);
    };
    let vats = numbers_of(alloc, world, earlier)?;
    let program = unresolve(alloc, &script.items)?;
    let tops = top_names(alloc, &program)?;
    Ok(birth_effects(alloc, event, name, earlier, vats.as_slice(), tops, script)?)
}

/// The numbers of the vats of these names, if each has one.
fn numbers_of(alloc: Global, world: &World, names: &[Text]) -> Result<Vec<VatNo>, StepFault>
    ensures ok { IfOk result (λ found. Numbers (world_of world.now) names.now found.items) }
    ensures err { IfErr result (λ fault. Unnamed (world_of world.now) names.now fault) }
{
    let mut numbers = Vec::new(alloc);
    for name in names {
        match world.vat(name) {
            Some(vat) => numbers.push(vat.number)?,
            None => return Err(StepFault::Impossible),
        }
    }
    Ok(numbers)
}

/// The effects of an asked program, if the vat is there.
fn effects_of_ask(
    alloc: Global,
    world: &World,
    event: EventName,
    name: &Text,
    question: &Question,
) -> Result<Effects, StepFault>
    ensures ok { IfOk result (λ it. (f : Foot) × Happens (record { name = event; act = ask name.now (trees_of_codes question.now.items.value.items) }) f (world_of world.now) it) }
    ensures err { IfErr result (λ fault. TellsStep (record { name = event; act = ask name.now (trees_of_codes question.now.items.value.items) }) (world_of world.now) fault) }
{
    let Some(vat) = world.vat(name) else {
        return Err(StepFault::Impossible);
    };
    Ok(ask_effects(alloc, event, name, vat.number, question)?)
}

/// The effects of an arrival, if the message is on its way.
fn effects_of_arrival(
    alloc: Global,
    world: &World,
    event: EventName,
    name: MsgId,
) -> Result<Effects, StepFault>
    ensures ok { IfOk result (λ it. (f : Foot) × Happens (record { name = event; act = arrive name }) f (world_of world.now) it) }
    ensures err { IfErr result (λ fault. TellsStep (record { name = event; act = arrive name }) (world_of world.now) fault) }
{
    let Some(message) = world.message(name) else {
        return Err(StepFault::Impossible);
    };
    let Some(arrived) = message.arrived()? else {
        return Err(StepFault::Impossible);
    };
    Ok(move_effects(alloc, event, name, arrived, &[])?)
}

/// The effects of a forwarding, if the message's target leads to another vat.
fn effects_of_forwarding(
    alloc: Global,
    world: &World,
    event: EventName,
    name: MsgId,
) -> Result<Effects, StepFault>
    ensures ok { IfOk result (λ it. (f : Foot) × Happens (record { name = event; act = forward name }) f (world_of world.now) it) }
    ensures err { IfErr result (λ fault. TellsStep (record { name = event; act = forward name }) (world_of world.now) fault) }
{
    let Ok((message, vat)) = message_at_vat(world, name) else {
        return Err(StepFault::Impossible);
    };
    let Some(onward) = onward(alloc, world, message, vat)? else {
        return Err(StepFault::Impossible);
    };
    let Some(forwarded) = message.forwarded(onward.to)? else {
        return Err(StepFault::Impossible);
    };
    Ok(move_effects(alloc, event, name, forwarded, &onward.through)?)
}

/// The effects of what a vat learns of a promise, if that is open in its view and was published. What is seen in the world stays.
fn effects_of_learning(
    alloc: Global,
    world: &mut World,
    event: EventName,
    vat: VatNo,
    promise: PromId,
) -> Result<Effects, StepFault>
    ensures ok { IfOk result (λ it. (f : Foot) × Happens (record { name = event; act = learn vat promise }) f (world_of world.old) it) }
    ensures err { IfErr result (λ fault. TellsStep (record { name = event; act = learn vat promise }) (world_of world.old) fault) }
    ensures seen { seen_of_world world.new ≡ seen_of_world world.old }
{
    let published = learnable(world, vat, promise)?;
    let state = world.share_vat(alloc, vat)?;
    let footprint = learn(alloc, event, vat, state, promise, &published)?;
    Ok(learn_effects(alloc, event, vat, promise, &footprint)?)
}

/// What a promise was published as that is open in a vat's view, shared.
fn learnable(world: &World, vat: VatNo, promise: PromId) -> Result<Published, StepFault>
    ensures ok { IfOk result (λ b. Learnable (world_of world.now) vat promise (published_of b)) }
    ensures err { IfErr result (λ fault. Unlearnable (world_of world.now) vat promise fault) }
{
    if !is_open(world, vat, promise) {
        return Err(StepFault::Impossible);
    }
    match world.published(promise) {
        Some(published) => Ok(published.share()?),
        None => Err(StepFault::Impossible),
    }
}

/// Whether a promise is open in a vat's view.
fn is_open(world: &World, vat: VatNo, promise: PromId) -> bool
    ensures { IsTrue result ↔ (vat_state (world_of world.now) vat (view_cell promise) ≡ Some (viewed pending)) }
{
    match world.home(vat) {
        Some(state) => is_open_in(state, promise),
        None => false,
    }
}

/// Whether a promise is open in what a state knows.
fn is_open_in(state: &VatState, promise: PromId) -> bool
    ensures { IsTrue result ↔ (state_of state.now (view_cell promise) ≡ Some (viewed pending)) }
{
    match state.views.get(&promise) {
        Some(View::Open) => true,
        Some(View::Resolved(_)) | None => false,
    }
}

/// A message that may be delivered now to this vat, shared, and the way to its target.
fn ready(alloc: Global, world: &World, vat: VatNo, name: MsgId) -> Result<(Message, Way), StepFault>
    ensures ok { IfOk result (λ r. Ready (world_of world.now) name (message_of r.0) vat) }
    ensures way { IfOk result (λ r. IsWay (world_of world.now) vat (message_of r.0) r.1) }
    ensures err { IfErr result (λ fault. IsUnready (world_of world.now) name vat fault) }
{
    let Ok((message, home)) = message_at_vat(world, name) else {
        return Err(StepFault::Impossible);
    };
    if home != vat {
        return Err(StepFault::Impossible);
    }
    match check_ready(alloc, world, message, vat) {
        Ok(way) => Ok((message.share()?, way)),
        Err(Delay::Memory) => Err(StepFault::Memory),
        Err(Delay::Unready(_)) => Err(StepFault::Impossible),
    }
}

/// Runs the turn of a ticket.
fn run(ticket: Ticket<Out>) -> Result<Ran, AllocError>
    ensures { IfOk result (λ ran. (ran.carried ≡ ticket.carried) × Found ran.outcome.footprint (state_of (arc_value ticket.state))) }
{
    match ticket.run() {
        Ok(ran) => Ok(ran.into_parts()),
        Err((ticket, error)) => {
            ticket.discard();
            Err(error)
        }
    }
}

/// Runs the turn of a message at a vat. What is seen in the world stays.
fn run_at(
    alloc: Global,
    world: &mut World,
    event: EventName,
    name: MsgId,
    budget: u32,
    message: Message,
    lead: Lead,
    vat: VatNo,
) -> Result<Ran, AllocError>
    ensures ok { IfOk result (λ ran. RunsAt (world_of world.old) event name budget message (found_of lead) vat ran) }
    ensures seen { seen_of_world world.new ≡ seen_of_world world.old }
{
    let state = world.share_vat(alloc, vat)?;
    run(Ticket::new(Out {
        alloc,
        carried: Task {
            event,
            name,
            message,
            lead,
            vat,
            budget,
            seat: NO_SEAT,
        },
        state,
    }))
}

/// Of the messages that an event makes none is there yet.
fn check_new(world: &World, event: EventName, letters: &[Letter]) -> Result<(), StepFault>
    ensures ok { OnOk result (AreNew (world_of world.now) (letters_from event 0 (map letter_of letters.now))) }
    ensures err { IfErr result (λ fault. (fault ≡ Memory) ⊎ (AreNew (world_of world.now) (letters_from event 0 (map letter_of letters.now)) → ⊥)) }
{
    for place in 0..letters.len() {
        check_free(world, event, place)?;
    }
    Ok(())
}

/// There is no message of this event and number yet.
fn check_free(world: &World, event: EventName, place: usize) -> Result<(), StepFault>
    ensures ok { OnOk result (world_of world.now (key.Msg (record { event = event; index = place })) ≡ None) }
    ensures err { IfErr result (λ fault. (fault ≡ Memory) ⊎ (world_of world.now (key.Msg (record { event = event; index = place })) ≡ None → ⊥)) }
{
    let Ok(index) = u32::try_from(place) else {
        return Err(StepFault::Memory);
    };
    match world.message(MsgId { event, index }) {
        Some(_) => Err(StepFault::Impossible),
        None => Ok(()),
    }
}

/// The effects of a turn, if its message may be delivered to its vat. What is seen in the world stays.
fn effects_of_turn(
    alloc: Global,
    world: &mut World,
    event: EventName,
    vat: VatNo,
    name: MsgId,
    budget: u32,
) -> Result<Effects, StepFault>
    ensures ok { IfOk result (λ it. (f : Foot) × Happens (record { name = event; act = turn vat name budget }) f (world_of world.old) it) }
    ensures err { IfErr result (λ fault. TellsStep (record { name = event; act = turn vat name budget }) (world_of world.old) fault) }
    ensures seen { seen_of_world world.new ≡ seen_of_world world.old }
{
    let (message, way) = ready(alloc, world, vat, name)?;
    let lead = way.lead.share()?;
    let ran = run_at(alloc, world, event, name, budget, message, lead, vat)?;
    check_new(world, event, ran.outcome.out.letters.as_slice())?;
    Ok(turn_effects(
        alloc,
        world,
        event,
        name,
        &ran.carried.message,
        &way,
        vat,
        &ran.outcome,
    )?)
}

/// The effects of an event, if it is possible. What is seen in the world stays.
fn effects_of(alloc: Global, world: &mut World, event: &Event) -> Result<Effects, StepFault>
    ensures ok { IfOk result (λ it. (f : Foot) × Happens (event_of event.now) f (world_of world.old) it) }
    ensures err { IfErr result (λ fault. TellsStep (event_of event.now) (world_of world.old) fault) }
    ensures seen { seen_of_world world.new ≡ seen_of_world world.old }
{
    match &event.action {
        Action::Birth(name, earlier, script) => {
            effects_of_birth(alloc, world, event.name, name, earlier, script)
        }
        Action::Ask(name, question) => effects_of_ask(alloc, world, event.name, name, question),
        Action::Arrive(message) => effects_of_arrival(alloc, world, event.name, *message),
        Action::Forward(message) => effects_of_forwarding(alloc, world, event.name, *message),
        Action::Learn(vat, promise) => {
            effects_of_learning(alloc, world, event.name, *vat, *promise)
        }
        Action::Turn {
            vat,
            message,
            budget,
        } => effects_of_turn(alloc, world, event.name, *vat, *message, *budget),
    }
}

/// Does an event: all that it writes is written, or nothing.
///
/// # Errors
/// `Impossible`, `Memory`. The world is then as it was.
pub fn step(alloc: Global, world: &mut World, event: &Event) -> Result<(), StepFault>
    ensures ok { OnOk result (StepsTo (event_of event.now) (world_of world.old) (world_of world.new)) }
    ensures err { IfErr result (λ fault. TellsStep (event_of event.now) (world_of world.old) fault) }
    ensures unchanged { OnErr result (seen_of_world world.new ≡ seen_of_world world.old) }
{
    let Effects {
        touched: _,
        mut records,
        notes: _,
    } = effects_of(alloc, world, event)?;
    make_rooms(alloc, world, &records)?;
    swap_records(world, &mut records);
    Ok(())
}
