// How messages wait, and the cells that tell it.
ghost use Rattle.std.specs.Prelude.{◌≡◌, ◌++◌, [], map, option_map, Some, is_none, IfOk, OnOk};
ghost use Rattle.values.specs.View.{val_of};
ghost use Rattle.heap.specs.View.{state_of};
ghost use Rattle.refs.specs.Walks.{walked};
ghost use Rattle.sends.specs.Playing.{views_in};
ghost use Rattle.post.specs.DeliveryView.{delivery_of};
ghost use Rattle.post.specs.MessageView.{message_of};
ghost use Rattle.world_cells.specs.View.{world_of};
ghost use Rattle.world_cells.specs.World.{vat_state};
ghost use Rattle.event.specs.Ready.{first_undone, unready_at};
ghost use Rattle.event.specs.Walks.{looked_up as looked_up_of};
ghost use Rattle.book_agenda.specs.Ways.{behind, cues_here, cues_in, stays as stays_of, viewed as viewed_of, waits_here, waits_in};
ghost use Rattle.book_agenda.specs.declared.ways.Cue.TheVariants as cue;

use crate::waiting::Waits;
use event::forwarding::onward;
use event::ready::{Delay, check_ready, is_done, is_there};
use event::walks::{Walked, awaited_along, walk};
use heap::state::{VatState, View};
use ids::names::{MsgId, PromId, VatNo};
use post::delivery::Delivery;
use post::message::{Message, Place};
use refs::ends::end_of;
use refs::resolve::Resolve;
use std::alloc::{AllocError, Global};
use values::value::Value;
use world_cells::world::World;

/// A cell that tells how messages wait.
#[derive(Clone, Copy, PartialEq, Eq, PartialOrd, Ord)]
pub(crate) enum Cue {
    /// A message that others come after.
    Message(MsgId),
    /// What a vat knows of a promise.
    View(VatNo, PromId),
    /// What a promise was published as.
    Board(PromId),
}

/// How a message waits, if it is there and not done, and the cells that tell it besides its own.
#[derive(Drop)]
pub(crate) struct CuedWait {
    pub waits: Option<Waits>,
    pub cues: Vec<Cue>,
}

/// The way of a message. Fails only for want of memory.
pub(crate) fn way_of(alloc: Global, world: &World, name: MsgId) -> Result<CuedWait, AllocError>
    ensures waits { IfOk result (λ r. r.waits ≡ waits_in (world_of world.now) name) }
    ensures cues { IfOk result (λ r. r.cues.items ≡ cues_in (world_of world.now) name) }
{
    match world.message(name) {
        Some(message) => match message.place {
            Place::Flying(_) => Ok(alone(alloc, Some(Waits::Moving))),
            Place::At(vat) => way_at(alloc, world, message, vat),
            Place::Done(_) => Ok(alone(alloc, None)),
        },
        None => Ok(alone(alloc, None)),
    }
}

/// A way that the message's own cell tells alone.
fn alone(alloc: Global, waits: Option<Waits>) -> CuedWait
    ensures waits { result.waits ≡ waits }
    ensures cues { result.cues.items ≡ [] }
{
    CuedWait {
        waits,
        cues: Vec::new(alloc),
    }
}

/// The way of a message at a vat.
fn way_at(
    alloc: Global,
    world: &World,
    message: &Message,
    vat: VatNo,
) -> Result<CuedWait, AllocError>
    ensures waits { IfOk result (λ r. r.waits ≡ Some (waits_here (world_of world.now) vat (message_of message.now))) }
    ensures cues { IfOk result (λ r. r.cues.items ≡ cues_here (world_of world.now) vat (message_of message.now)) }
{
    if stays(&message.sent.delivery, vat) {
        way_behind(alloc, world, message.sent.after.names(), vat)
    } else {
        way_led(alloc, world, message, vat)
    }
}

/// The way of a message that can do nothing but have its turn at this vat, once these messages are done.
fn way_behind(
    alloc: Global,
    world: &World,
    names: &[MsgId],
    vat: VatNo,
) -> Result<CuedWait, AllocError>
    ensures waits { IfOk result (λ r. r.waits ≡ Some (behind (world_of world.now) vat names.now)) }
    ensures cues { IfOk result (λ r. r.cues.items ≡ map cue.Message names.now) }
{
    let mut cues = Vec::new(alloc);
    add_messages(names, &mut cues)?;
    let waits = Some(waits_behind(world, names, vat));
    Ok(CuedWait { waits, cues })
}

/// How a message waits at a vat that can do nothing but have its turn there, once these messages are done.
fn waits_behind(world: &World, names: &[MsgId], vat: VatNo) -> Waits
    ensures { result ≡ behind (world_of world.now) vat names.now }
{
    if are_done(world, names) {
        Waits::Ready(vat)
    } else {
        Waits::Behind
    }
}

/// The way of a message at a vat that hangs on what is published, or on what the vat knows.
fn way_led(
    alloc: Global,
    world: &World,
    message: &Message,
    vat: VatNo,
) -> Result<CuedWait, AllocError>
    ensures waits { IfOk result (λ r. r.waits ≡ Some (waits_here (world_of world.now) vat (message_of message.now))) }
    ensures cues { IfOk result (λ r. r.cues.items ≡ cues_here (world_of world.now) vat (message_of message.now)) }
{
    let waits = Some(waits_led(alloc, world, message, vat)?);
    let cues = cues_led(alloc, world, message, vat)?;
    Ok(CuedWait { waits, cues })
}

/// How a message waits at a vat: it may go on, or have its turn, or do nothing.
fn waits_led(
    alloc: Global,
    world: &World,
    message: &Message,
    vat: VatNo,
) -> Result<Waits, AllocError>
    ensures { IfOk result (λ waits. waits ≡ waits_here (world_of world.now) vat (message_of message.now)) }
{
    if onward(alloc, world, message, vat)?.is_some() {
        return Ok(Waits::Moving);
    }
    if is_ready(alloc, world, message, vat)? {
        Ok(Waits::Ready(vat))
    } else {
        Ok(Waits::Behind)
    }
}

/// Whether a message at a vat may be delivered.
pub(crate) fn is_ready(
    alloc: Global,
    world: &World,
    message: &Message,
    vat: VatNo,
) -> Result<bool, AllocError>
    ensures { IfOk result (λ ready. ready ≡ is_none (unready_at (world_of world.now) vat (message_of message.now))) }
{
    match check_ready(alloc, world, message, vat) {
        Ok(_) => Ok(true),
        Err(Delay::Memory) => Err(AllocError),
        Err(Delay::Unready(_)) => Ok(false),
    }
}

/// The cells that tell how a message waits at a vat: those that are looked at to know where it leads, and the messages that are awaited.
fn cues_led(
    alloc: Global,
    world: &World,
    message: &Message,
    vat: VatNo,
) -> Result<Vec<Cue>, AllocError>
    ensures { IfOk result (λ cues. cues.items ≡ cues_here (world_of world.now) vat (message_of message.now)) }
{
    let published = looked_up(alloc, world, &message.sent.delivery)?;
    let known = viewed(alloc, world, &message.sent.delivery, vat)?;
    let awaited = awaited_along(world, message.sent.after.share()?, published.as_slice())?;
    let mut cues = Vec::new(alloc);
    add_boards(published.as_slice(), &mut cues)?;
    add_views(vat, known.as_slice(), &mut cues)?;
    add_messages(awaited.names(), &mut cues)?;
    Ok(cues)
}

/// The promises whose publications tell where a delivery leads.
fn looked_up(alloc: Global, world: &World, delivery: &Delivery) -> Result<Vec<PromId>, AllocError>
    ensures { IfOk result (λ ps. ps.items ≡ looked_up_of (world_of world.now) (delivery_of delivery.now)) }
{
    match delivery {
        Delivery::Sent(call) => {
            let Walked { end: _, through } = walk(alloc, world, &call.target)?;
            Ok(through)
        }
        Delivery::Opening(_, _) | Delivery::Asked(_) | Delivery::Waiting(_) => Ok(Vec::new(alloc)),
    }
}

/// The promises of which it tells what the vat knows whether a delivery may be made there.
fn viewed(
    alloc: Global,
    world: &World,
    delivery: &Delivery,
    vat: VatNo,
) -> Result<Vec<PromId>, AllocError>
    ensures { IfOk result (λ ps. ps.items ≡ viewed_of (world_of world.now) vat (delivery_of delivery.now)) }
{
    match delivery {
        Delivery::Waiting(when) => known_along(alloc, world, &when.value, vat),
        Delivery::Opening(_, _) | Delivery::Asked(_) | Delivery::Sent(_) => Ok(Vec::new(alloc)),
    }
}

/// The promises through which a value leads in a vat.
fn known_along(
    alloc: Global,
    world: &World,
    value: &Value,
    vat: VatNo,
) -> Result<Vec<PromId>, AllocError>
    ensures { IfOk result (λ ps. ps.items ≡ walked (views_in (vat_state (world_of world.now) vat)) (val_of value.now)) }
{
    let mut through = Vec::new(alloc);
    end_of(&VatViews { world, vat }, value, &mut through)?;
    Ok(through)
}

/// What a vat knows promises resolved to.
#[derive(Drop)]
struct VatViews<'a> {
    world: &'a World,
    vat: VatNo,
}

impl<'a> Resolve for VatViews<'a> {
    ghost use Rattle.sends.specs.Playing.{views_in};
    ghost use Rattle.world_cells.specs.View.{world_of};
    ghost use Rattle.world_cells.specs.World.{vat_state};

    ghost resolutions = { λ v. views_in (vat_state (world_of v.world.now) v.vat) };

    fn resolution(&self, promise: PromId) -> Option<&Value> {
        match self.world.home(self.vat) {
            Some(state) => known_in(state, promise),
            None => None,
        }
    }
}

/// What a vat's state knows a promise resolved to.
fn known_in(state: &VatState, promise: PromId) -> Option<&Value>
    ensures { option_map (λ v. val_of v.now) result ≡ views_in (state_of state.now) promise }
{
    match state.views.get(&promise) {
        Some(View::Resolved(value)) => Some(value),
        _ => None,
    }
}

/// Adds the cells of publications.
fn add_boards(promises: &[PromId], cues: &mut Vec<Cue>) -> Result<(), AllocError>
    ensures { OnOk result (cues.new.items ≡ cues.old.items ++ map cue.Board promises.now) }
{
    for promise in promises {
        cues.push(Cue::Board(*promise))?;
    }
    Ok(())
}

/// Adds the cells of what a vat knows.
fn add_views(vat: VatNo, promises: &[PromId], cues: &mut Vec<Cue>) -> Result<(), AllocError>
    ensures { OnOk result (cues.new.items ≡ cues.old.items ++ map (λ p. cue.View vat p) promises.now) }
{
    for promise in promises {
        cues.push(Cue::View(vat, *promise))?;
    }
    Ok(())
}

/// Adds the cells of messages.
fn add_messages(names: &[MsgId], cues: &mut Vec<Cue>) -> Result<(), AllocError>
    ensures { OnOk result (cues.new.items ≡ cues.old.items ++ map cue.Message names.now) }
{
    for name in names {
        cues.push(Cue::Message(*name))?;
    }
    Ok(())
}

/// Whether a delivery is made in this vat whatever is published or learnt: a call on what is there, an opening, or a question.
fn stays(delivery: &Delivery, vat: VatNo) -> bool
    ensures { result ≡ stays_of vat (delivery_of delivery.now) }
{
    match delivery {
        Delivery::Sent(call) => is_there(vat, &call.target),
        Delivery::Opening(_, _) | Delivery::Asked(_) => true,
        Delivery::Waiting(_) => false,
    }
}

/// Whether all these messages are done.
fn are_done(world: &World, names: &[MsgId]) -> bool
    ensures { result ≡ is_none (first_undone (world_of world.now) names.now) }
{
    for name in names {
        if !is_done(world, *name) {
            return false;
        }
    }
    true
}
