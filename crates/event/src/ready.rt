// Whether a message may be delivered, and where it leads.
ghost use Rattle.std.specs.Prelude.{◌≡◌, [], None, Some, true, IfOk, IfErr, OnOk};
ghost use Rattle.ids.specs.declared.cells.CellKey.TheVariants as key;
ghost use Rattle.heap.specs.View.{state_of};
ghost use Rattle.post.specs.Delivery.{sent, waiting};
ghost use Rattle.post.specs.DeliveryView.{call_of, delivery_of, when_of};
ghost use Rattle.refs.specs.Walks.{walk as walk_of, most_walked};
ghost use Rattle.sends.specs.Playing.{views_in};
ghost use Rattle.post.specs.MessageView.{message_of, place_of};
ghost use Rattle.post.specs.Messages.{at_vat, done_in};
ghost use Rattle.values.specs.Data.{null};
ghost use Rattle.values.specs.View.{val_of};
ghost use Rattle.world_cells.specs.View.{world_of};
ghost use Rattle.world_cells.specs.World.{message_of as message_in_world, message as message_content, vat_state};
ghost use Rattle.turn_deliveries.specs.Outcomes.{found_of};
ghost use Rattle.event.specs.Ready.{first_undone as first_undone_of, lost, early_by};
ghost use Rattle.event.specs.Walks.{delivery_walk, found_by, is_known as is_known_of, is_there as is_there_of, looked_up, may_end};
ghost use Rattle.event.specs.ReadyView.{CannotLead, IsUnready, IsWay};

use crate::walks::{Walked, awaited_along, last_fences, walk};
use eorder::carried::Carried;
use eorder::fence::Fence;
use heap::state::{VatState, View};
use ids::names::{MsgId, PromId, VatNo};
use post::call::Call;
use post::delivery::Delivery;
use post::message::{Message, Place};
use post::when::When;
use refs::ends::end_of;
use refs::resolve::Resolve;
use std::alloc::{AllocError, Global};
use std::sync::Arc;
use turn_deliveries::lead::Lead;
use values::value::Value;
use world_cells::world::World;

/// Why a message may not be delivered now.
#[derive(Drop)]
pub enum Unready {
    NoMessage,
    /// It is not at a vat.
    NotThere,
    /// Its target does not lead to the vat where it is, or the value of its `when` is not known.
    NotReady,
    /// This message must be done first: the least of those that are awaited.
    Before(MsgId),
}

/// Why it is not known that a message may be delivered.
#[derive(Drop)]
pub enum Delay {
    Memory,
    Unready(Unready),
}

impl From<Unready> for Delay {
    ghost use Rattle.event.specs.declared.ready.Delay.TheVariants as delay;

    ghost from_gives = { λ u d. d ≡ delay.Unready u };

    fn from(unready: Unready) -> Self {
        Delay::Unready(unready)
    }
}

impl From<AllocError> for Delay {
    ghost use Rattle.event.specs.declared.ready.Delay.TheVariants as delay;

    ghost from_gives = { λ _ d. d ≡ delay.Memory };

    fn from(_error: AllocError) -> Self {
        Delay::Memory
    }
}

/// What a message that may be delivered leads to, the promises whose publications it looks at, and the messages that were awaited.
#[derive(Drop)]
pub struct Way {
    pub lead: Lead,
    pub through: Vec<PromId>,
    pub awaited: Fence,
}

/// Whether a message is there and done.
pub fn is_done(world: &World, message: MsgId) -> bool
    ensures { result ≡ done_in (message_in_world (world_of world.now) message) }
{
    match world.message(message) {
        Some(message) => match message.place {
            Place::Flying(_) | Place::At(_) => false,
            Place::Done(_) => true,
        },
        None => false,
    }
}

/// A message that is at a vat, and the vat.
pub fn message_at_vat(world: &World, name: MsgId) -> Result<(&Message, VatNo), Unready>
    ensures waiting { IfOk result (λ r. world_of world.now (key.Msg name) ≡ Some (message_content (message_of r.0.now))) }
    ensures there { IfOk result (λ r. place_of r.0.now.place ≡ at_vat r.1) }
    ensures ok { OnOk result (lost (world_of world.now) name ≡ None) }
    ensures err { IfErr result (λ why. lost (world_of world.now) name ≡ Some why) }
{
    match world.message(name) {
        Some(message) => match message.place {
            Place::At(vat) => Ok((message, vat)),
            Place::Flying(_) | Place::Done(_) => Err(Unready::NotThere),
        },
        None => Err(Unready::NoMessage),
    }
}

/// Checks that a message at a vat may be delivered, and tells where it leads.
pub fn check_ready(
    alloc: Global,
    world: &World,
    message: &Message,
    vat: VatNo,
) -> Result<Way, Delay>
    ensures ok { IfOk result (IsWay (world_of world.now) vat (message_of message.now)) }
    ensures err { IfErr result (IsUnready (world_of world.now) vat (message_of message.now)) }
{
    let (lead, through) = lead_of(alloc, world, &message.sent.delivery, vat)?;
    let awaited = awaited_along(world, message.sent.after.share()?, through.as_slice())?;
    check_done(world, &awaited)?;
    Ok(Way {
        lead,
        through,
        awaited,
    })
}

/// Where a delivery leads, and the promises whose publications it looks at.
fn lead_of(
    alloc: Global,
    world: &World,
    delivery: &Delivery,
    vat: VatNo,
) -> Result<(Lead, Vec<PromId>), Delay>
    ensures may { OnOk result (may_end vat (delivery_of delivery.now) (delivery_walk (world_of world.now) vat (delivery_of delivery.now)).end ≡ true) }
    ensures lead { IfOk result (λ r. found_of r.0 ≡ found_by (world_of world.now) (delivery_of delivery.now)) }
    ensures through { IfOk result (λ r. r.1.items ≡ looked_up (world_of world.now) (delivery_of delivery.now)) }
    ensures err { IfErr result (CannotLead (world_of world.now) vat (delivery_of delivery.now)) }
{
    match delivery {
        Delivery::Sent(call) => call_lead(alloc, world, call, vat),
        Delivery::Waiting(when) => {
            check_known(alloc, world, when, vat)?;
            Ok((no_lead(alloc)?, Vec::new(alloc)))
        }
        Delivery::Opening(_, _) | Delivery::Asked(_) => Ok((no_lead(alloc)?, Vec::new(alloc))),
    }
}

/// Where a call leads, if that is in this vat.
fn call_lead(
    alloc: Global,
    world: &World,
    call: &Call,
    vat: VatNo,
) -> Result<(Lead, Vec<PromId>), Delay>
    ensures may { OnOk result (may_end vat (sent (call_of call.now)) (delivery_walk (world_of world.now) vat (sent (call_of call.now))).end ≡ true) }
    ensures lead { IfOk result (λ r. found_of r.0 ≡ found_by (world_of world.now) (sent (call_of call.now))) }
    ensures through { IfOk result (λ r. r.1.items ≡ looked_up (world_of world.now) (sent (call_of call.now))) }
    ensures err { IfErr result (CannotLead (world_of world.now) vat (sent (call_of call.now))) }
{
    let Walked { end, through } = walk(alloc, world, &call.target)?;
    let Some(end) = end else {
        return Err(Delay::Unready(Unready::NotReady));
    };
    if !is_there(vat, &end) {
        return Err(Delay::Unready(Unready::NotReady));
    }
    let fences = last_fences(alloc, world, through.as_slice())?;
    Ok((Lead { end, fences }, through))
}

/// Whether a call on an end is made in this vat.
pub fn is_there(vat: VatNo, end: &Value) -> bool
    ensures { result ≡ is_there_of vat (val_of end.now) }
{
    match end {
        Value::Object(object) => object.vat == vat,
        Value::Ejector(ejector) => ejector.vat == vat,
        Value::Promise(_) => false,
        Value::Null
        | Value::Bool(_)
        | Value::Int(_)
        | Value::Text(_)
        | Value::List(_)
        | Value::Broken(_) => true,
    }
}

/// What is no call leads nowhere.
fn no_lead(alloc: Global) -> Result<Lead, AllocError>
    ensures { IfOk result (λ l. found_of l ≡ record { end = null; fences = [] }) }
{
    let fences = Arc::new(alloc, Carried::empty(alloc))?;
    Ok(Lead {
        end: Value::Null,
        fences,
    })
}

/// Checks that the value of a `when` is known in its vat.
fn check_known(alloc: Global, world: &World, when: &When, vat: VatNo) -> Result<(), Delay>
    ensures ok { OnOk result (may_end vat (waiting (when_of when.now)) (delivery_walk (world_of world.now) vat (waiting (when_of when.now))).end ≡ true) }
    ensures err { IfErr result (CannotLead (world_of world.now) vat (waiting (when_of when.now))) }
{
    if is_known_at(alloc, world, &when.value, vat)? {
        Ok(())
    } else {
        Err(Delay::Unready(Unready::NotReady))
    }
}

/// Whether a value is known in a vat: it leads to no unresolved promise.
fn is_known_at(alloc: Global, world: &World, value: &Value, vat: VatNo) -> Result<bool, AllocError>
    ensures { IfOk result (λ b. b ≡ is_known_of (walk_of most_walked (views_in (vat_state (world_of world.now) vat)) [] (val_of value.now)).end) }
{
    match world.home(vat) {
        Some(state) => is_known(alloc, state, value),
        None => Ok(value.as_promise().is_none()),
    }
}

/// Checks that all these messages are done, the least first.
fn check_done(world: &World, awaited: &Fence) -> Result<(), Unready>
    ensures ok { OnOk result (first_undone_of (world_of world.now) awaited.now ≡ None) }
    ensures err { IfErr result (λ why. early_by (first_undone_of (world_of world.now) awaited.now) ≡ Some why) }
{
    for name in awaited.names() {
        if !is_done(world, *name) {
            return Err(Unready::Before(*name));
        }
    }
    Ok(())
}

/// Whether a value is known in a vat's state.
fn is_known(alloc: Global, state: &VatState, value: &Value) -> Result<bool, AllocError>
    ensures { IfOk result (λ b. b ≡ is_known_of (walk_of most_walked (views_in (state_of state.now)) [] (val_of value.now)).end) }
{
    let mut through = Vec::new(alloc);
    let end = end_of(&Views { state }, value, &mut through)?;
    Ok(end.as_promise().is_none())
}

/// What a vat's state knows promises resolved to.
#[derive(Drop)]
struct Views<'a> {
    state: &'a VatState,
}

impl<'a> Resolve for Views<'a> {
    ghost use Rattle.heap.specs.View.{state_of};
    ghost use Rattle.sends.specs.Playing.{views_in};

    ghost resolutions = { λ v. views_in (state_of v.state.now) };

    fn resolution(&self, promise: PromId) -> Option<&Value> {
        match self.state.views.get(&promise) {
            Some(View::Resolved(value)) => Some(value),
            _ => None,
        }
    }
}
