// What may be done next.
ghost use Rattle.std.specs.Prelude.{◌≡◌, ◌++◌, ◌&&◌, cond, nat_eq, [], Some, is_some, IfOk, OnOk};
ghost use Rattle.std.specs.Option.{option_to_list};
ghost use Rattle.std.specs.Ordering.{is_eq};
ghost use Rattle.std.specs.BTreeMap.{IsOrdered as IsOrderedMap};
ghost use Rattle.std.specs.BTreeSet.{contains, IsOrdered};
ghost use Rattle.ids.specs.Cells.{message_cmp, promise_cmp, vat_cmp};
ghost use Rattle.ids.specs.declared.names.VatNo.{VatNo};
ghost use Rattle.ids.specs.declared.names.MsgId.{MsgId};
ghost use Rattle.ids.specs.declared.cells.CellKey.TheVariants as cell;
ghost use Rattle.heap.specs.State.{viewed, view_cell};
ghost use Rattle.heap.specs.View.{state_of, view_of};
ghost use Rattle.world_cells.specs.View.{world_of};
ghost use Rattle.world_cells.specs.World.{World as Cells, message_of as message_in_world, vat_state};
ghost use Rattle.book_agenda.specs.Agendas.{AlikeBut, KnownAs, is_open as is_open_of, open_view, can_learn as can_learn_of};
ghost use Rattle.book_agenda.specs.Enabled.{Enabled, First};
ghost use Rattle.book_agenda.specs.AgendaView.{out_at, KeepsEach};
ghost use Rattle.book_agenda.specs.Found.{moves as moves_of, step_by as step_by_way, learn_step};

use crate::waiting::{Waiting, Waits};
use crate::ways::{Cue, CuedWait, way_of};
use desk::desk::Desk;
use heap::state::{VatState, View};
use ids::cells::CellKey;
use ids::names::{EventName, MsgId, PromId, VatNo};
use post::message::Place;
use std::alloc::{AllocError, Global};
use std::collections::{BTreeMap, BTreeSet};
use world_cells::world::World;

/// Something that happens without running anything.
#[derive(Clone, Copy)]
pub enum Move {
    /// A message on its way arrives.
    Arrive(MsgId),
    /// A message goes on to the vat to which its target leads.
    Forward(MsgId),
    /// A vat learns what a promise was published as.
    Learn(VatNo, PromId),
}

/// Something that may be done.
#[derive(Clone, Copy)]
pub enum Step {
    Move(Move),
    /// A message that is ready has its turn.
    Turn(MsgId),
}

/// A promise that is open in a vat's view.
#[derive(Clone, Copy, PartialEq, Eq, PartialOrd, Ord)]
struct Open {
    promise: PromId,
    vat: VatNo,
}

/// A promise that a vat can learn of.
#[derive(Clone, Copy, PartialEq, Eq, PartialOrd, Ord)]
struct Known {
    vat: VatNo,
    promise: PromId,
}

/// A message at a vat, and a cell that tells how it waits there.
#[derive(Clone, Copy, PartialEq, Eq, PartialOrd, Ord)]
struct Watcher {
    cue: Cue,
    message: MsgId,
}

/// The messages of a world that are not done, by how they wait, the promises that are open in views, and those of them that were
/// published.
#[derive(Drop)]
pub struct Agenda {
    waiting: Waiting,
    /// By the cells that tell how they wait: when one of these changes, it is looked at again.
    watchers: BTreeSet<Watcher>,
    /// The cells that tell of each how it waits, if there are any.
    cues: BTreeMap<MsgId, Vec<Cue>>,
    open: BTreeSet<Open>,
    known: BTreeSet<Known>,
}

impl Agenda {
    ghost use Rattle.book_agenda.specs.AgendaView.{open_cmp, known_cmp, has_open, has_known, is_among, is_in, same_view, watches, NotedIn, Watches, Places, NotesViews, NotesCell};
    ghost use Rattle.book_agenda.specs.Found.{front_step, front_steps, message_steps, learn_steps, first_in};

    /// What is not done in this world. Fails only for want of memory.
    pub fn new(alloc: Global, world: &World) -> Result<Agenda, AllocError>
        ensures { IfOk result (NotedIn (world_of world.now)) }
    {
        let mut agenda = Agenda {
            waiting: Waiting::new(alloc),
            watchers: BTreeSet::new(alloc),
            cues: BTreeMap::new(alloc),
            open: BTreeSet::new(alloc),
            known: BTreeSet::new(alloc),
        };
        agenda.note_messages(alloc, world)?;
        agenda.note_vats(alloc, world)?;
        Ok(agenda)
    }

    /// Notes what the cells hold now that were written. Fails only for want of memory, and is then of no use.
    pub fn note(
        &mut self,
        alloc: Global,
        world: &World,
        written: &[CellKey],
    ) -> Result<(), AllocError>
        ensures { (before : Cells) → NotedIn before self.old → AlikeBut written.now before (world_of world.now) → OnOk result (NotedIn (world_of world.now) self.new) }
    {
        for key in written {
            self.note_cell(alloc, world, key)?;
        }
        Ok(())
    }

    /// Notes what a cell holds, and anew how those wait that it tells of.
    fn note_cell(&mut self, alloc: Global, world: &World, key: &CellKey) -> Result<(), AllocError>
        ensures { OnOk result (NotesCell (world_of world.now) key.now self.old self.new) }
    {
        match key {
            CellKey::Msg(name) => self.note_message(alloc, world, *name),
            CellKey::View(vat, promise) => self.note_known(alloc, world, *vat, *promise),
            CellKey::Board(promise) => self.note_board(alloc, world, *promise),
            CellKey::Name(_)
            | CellKey::Slot(_)
            | CellKey::Object(_)
            | CellKey::Top(_, _)
            | CellKey::Fence(_, _) => Ok(()),
        }
    }

    /// Notes how a message waits, and anew how those wait that come after it.
    fn note_message(&mut self, alloc: Global, world: &World, name: MsgId) -> Result<(), AllocError>
        ensures { OnOk result (NotesCell (world_of world.now) (cell.Msg name) self.old self.new) }
    {
        self.wake(alloc, world, Cue::Message(name))?;
        self.place(alloc, world, name)
    }

    /// Notes what a vat knows of a promise, and anew how those wait that hang on it.
    fn note_known(
        &mut self,
        alloc: Global,
        world: &World,
        vat: VatNo,
        promise: PromId,
    ) -> Result<(), AllocError>
        ensures { OnOk result (NotesCell (world_of world.now) (cell.View vat promise) self.old self.new) }
    {
        self.wake(alloc, world, Cue::View(vat, promise))?;
        self.note_view(world, vat, promise)
    }

    /// Notes what a promise was published as, and anew how those wait that hang on it.
    fn note_board(
        &mut self,
        alloc: Global,
        world: &World,
        promise: PromId,
    ) -> Result<(), AllocError>
        ensures { OnOk result (NotesCell (world_of world.now) (cell.Board promise) self.old self.new) }
    {
        self.wake(alloc, world, Cue::Board(promise))?;
        self.note_publication(alloc, world, promise)
    }

    /// Notes of all messages how they wait.
    fn note_messages(&mut self, alloc: Global, world: &World) -> Result<(), AllocError>
        ensures { OnOk result (Places (world_of world.now) (λ m. is_some (message_in_world (world_of world.now) m)) self.old self.new) }
    {
        let messages = world.messages(alloc)?;
        for (name, _) in messages.iter() {
            self.place(alloc, world, *name)?;
        }
        Ok(())
    }

    /// Notes anew how those messages wait of which a cell tells it.
    fn wake(&mut self, alloc: Global, world: &World, cue: Cue) -> Result<(), AllocError>
        ensures { OnOk result (Places (world_of world.now) (λ m. watches self.old cue m) self.old self.new) }
    {
        for watcher in self.watchers_of(alloc, cue)? {
            self.place(alloc, world, watcher)?;
        }
        Ok(())
    }

    /// Notes how a message waits, and which cells tell it.
    fn place(&mut self, alloc: Global, world: &World, name: MsgId) -> Result<(), AllocError>
        ensures { OnOk result (Places (world_of world.now) (λ m. is_eq (message_cmp name m)) self.old self.new) }
    {
        let CuedWait { waits, cues } = way_of(alloc, world, name)?;
        self.watch(name, cues)?;
        self.waiting.put(name, waits)
    }

    /// Notes that these cells tell how a message waits, and no others.
    fn watch(&mut self, name: MsgId, cues: Vec<Cue>) -> Result<(), AllocError>
        ensures { OnOk result (Watches name cues.items self.old self.new) }
    {
        self.unwatch(name)?;
        if cues.is_empty() {
            return Ok(());
        }
        keep_each(&mut self.watchers, name, cues.as_slice(), true)?;
        self.cues.insert(name, cues)?;
        Ok(())
    }

    /// Notes that no cell tells how a message waits.
    fn unwatch(&mut self, name: MsgId) -> Result<(), AllocError>
        ensures { OnOk result (Watches name [] self.old self.new) }
    {
        match self.cues.remove(&name) {
            Some(cues) => keep_each(&mut self.watchers, name, cues.as_slice(), false),
            None => Ok(()),
        }
    }

    /// The messages of which a cell tells how they wait.
    fn watchers_of(&self, alloc: Global, cue: Cue) -> Result<Vec<MsgId>, AllocError>
        ensures { IfOk result (λ names. (m : MsgId) → is_in names.items m ≡ watches self.now cue m) }
    {
        let mut names = Vec::new(alloc);
        let first = Watcher {
            cue,
            message: MsgId {
                event: EventName(0),
                index: 0,
            },
        };
        for watcher in self.watchers.range(first..) {
            if watcher.cue != cue {
                return Ok(names);
            }
            names.push(watcher.message)?;
        }
        Ok(names)
    }

    /// Notes all views of all vats.
    fn note_vats(&mut self, alloc: Global, world: &World) -> Result<(), AllocError>
        ensures { OnOk result (NotesViews (world_of world.now) (λ p v. is_some (vat_state (world_of world.now) v (view_cell p))) self.old self.new) }
    {
        for vat in world.vats(alloc)? {
            self.note_vat(alloc, world, vat)?;
        }
        Ok(())
    }

    /// Notes all views of a vat.
    fn note_vat(&mut self, alloc: Global, world: &World, vat: VatNo) -> Result<(), AllocError>
        ensures { OnOk result (NotesViews (world_of world.now) (λ p v. is_eq (vat_cmp vat v) && is_some (vat_state (world_of world.now) v (view_cell p))) self.old self.new) }
    {
        let Some(state) = world.home(vat) else {
            return Ok(());
        };
        let contents = state.contents(alloc)?;
        for (promise, _) in contents.views.iter() {
            self.note_view(world, vat, *promise)?;
        }
        Ok(())
    }

    /// Notes whether a promise is open in a vat's view, and whether the vat can learn of it.
    fn note_view(&mut self, world: &World, vat: VatNo, promise: PromId) -> Result<(), AllocError>
        ensures { OnOk result (NotesViews (world_of world.now) (same_view promise vat) self.old self.new) }
    {
        let open = is_open(world, vat, promise);
        let known = can_learn(world, vat, promise);
        keep(&mut self.open, Open { promise, vat }, open)?;
        keep(&mut self.known, Known { vat, promise }, known)
    }

    /// Notes the views in which a promise was open.
    fn note_publication(
        &mut self,
        alloc: Global,
        world: &World,
        promise: PromId,
    ) -> Result<(), AllocError>
        ensures { OnOk result (NotesViews (world_of world.now) (λ p v. is_eq (promise_cmp promise p) && has_open self.old p v) self.old self.new) }
    {
        for vat in self.vats_that_wait(alloc, promise)? {
            self.note_view(world, vat, promise)?;
        }
        Ok(())
    }

    /// The vats in whose views a promise is open.
    fn vats_that_wait(&self, alloc: Global, promise: PromId) -> Result<Vec<VatNo>, AllocError>
        ensures { IfOk result (λ vats. (v : VatNo) → is_among vats.items v ≡ has_open self.now promise v) }
    {
        let mut vats = Vec::new(alloc);
        let first = Open {
            promise,
            vat: VatNo(EventName(0)),
        };
        for open in self.open.range(first..) {
            if open.promise != promise {
                return Ok(vats);
            }
            vats.push(open.vat)?;
        }
        Ok(vats)
    }

    /// The promise of this event and number that a vat can learn of: the first, should there be several.
    pub fn known_as(&self, vat: VatNo, event: EventName, index: u32) -> Option<PromId>
        ensures { KnownAs (has_known self.now) vat event index result }
    {
        let first = Known {
            vat,
            promise: PromId {
                event,
                index,
                home: VatNo(EventName(0)),
            },
        };
        let known = self.known.range(first..).next()?;
        if is_of(known, vat, event, index) {
            Some(known.promise)
        } else {
            None
        }
    }

    /// The first that may be done: what a message can do, in order of their names, then what vats can learn, in order of birth and of
    /// promise. Turns and learning of vats that are out are left out.
    pub fn first(&self, world: &World, desk: &Desk) -> Option<Step>
        ensures { NotedIn (world_of world.now) self.now → First (world_of world.now) (out_at desk.now) result }
    {
        match self.first_of_messages(world, desk) {
            Some(step) => Some(step),
            None => self.first_learning(desk),
        }
    }

    /// The first that a message can do. Only those are looked at that move, and at each vat the first of those that are ready there.
    fn first_of_messages(&self, world: &World, desk: &Desk) -> Option<Step>
        ensures first { result ≡ first_in (front_steps (world_of world.now) (out_at desk.now) self.now) }
        ensures ordered { IsOrdered message_cmp self.now.waiting.fronts }
    {
        for name in self.waiting.fronts.iter() {
            if let Some(step) = self.front_step(world, *name, desk) {
                return Some(step);
            }
        }
        None
    }

    /// What a message at the front can do.
    fn front_step(&self, world: &World, name: MsgId, desk: &Desk) -> Option<Step>
        ensures { result ≡ front_step (world_of world.now) (out_at desk.now) self.now name }
    {
        match self.waiting.get(name) {
            Some(waits) => step_by(world, name, waits, desk),
            None => None,
        }
    }

    /// The first that a vat can learn.
    fn first_learning(&self, desk: &Desk) -> Option<Step>
        ensures first { result ≡ first_in (learn_steps (out_at desk.now) self.now) }
        ensures ordered { IsOrdered known_cmp self.now.known }
    {
        for known in self.known.iter() {
            if let Some(step) = learning(known, desk) {
                return Some(step);
            }
        }
        None
    }

    /// All that may be done, in that order. Fails only for want of memory.
    pub fn all(&self, alloc: Global, world: &World, desk: &Desk) -> Result<Vec<Step>, AllocError>
        ensures { NotedIn (world_of world.now) self.now → IfOk result (λ steps. Enabled (world_of world.now) (out_at desk.now) steps.items) }
    {
        let mut steps = Vec::new(alloc);
        self.add_messages(world, desk, &mut steps)?;
        self.add_learning(desk, &mut steps)?;
        Ok(steps)
    }

    /// Adds what messages can do.
    fn add_messages(
        &self,
        world: &World,
        desk: &Desk,
        steps: &mut Vec<Step>,
    ) -> Result<(), AllocError>
        ensures added { OnOk result (steps.new.items ≡ steps.old.items ++ message_steps (world_of world.now) (out_at desk.now) self.now) }
        ensures ordered { IsOrderedMap message_cmp self.now.waiting.all }
    {
        for (name, waits) in self.waiting.all.iter() {
            add_step(step_by(world, *name, *waits, desk), steps)?;
        }
        Ok(())
    }

    /// Adds what vats can learn.
    fn add_learning(&self, desk: &Desk, steps: &mut Vec<Step>) -> Result<(), AllocError>
        ensures added { OnOk result (steps.new.items ≡ steps.old.items ++ learn_steps (out_at desk.now) self.now) }
        ensures ordered { IsOrdered known_cmp self.now.known }
    {
        for known in self.known.iter() {
            add_step(learning(known, desk), steps)?;
        }
        Ok(())
    }
}

/// Notes of a message whether these cells tell how it waits.
fn keep_each(
    watchers: &mut BTreeSet<Watcher>,
    message: MsgId,
    cues: &[Cue],
    stays: bool,
) -> Result<(), AllocError>
    ensures { OnOk result (KeepsEach message cues.now stays watchers.old watchers.new) }
{
    for cue in cues {
        let watcher = Watcher { cue: *cue, message };
        keep(watchers, watcher, stays)?;
    }
    Ok(())
}

/// Puts an item into a set or takes it out.
fn keep<T: Ord + Drop>(set: &mut BTreeSet<T>, item: T, stays: bool) -> Result<(), AllocError>
    ensures { OnOk result ((q : T) → contains T.cmp set.new q ≡ cond (is_eq (T.cmp item q)) stays (contains T.cmp set.old q)) }
{
    if stays {
        set.insert(item)?;
        Ok(())
    } else {
        set.remove(&item);
        Ok(())
    }
}

/// Whether a promise is open in a vat's view: it has come into the vat, and nothing was learnt of it.
pub fn is_open(world: &World, vat: VatNo, promise: PromId) -> bool
    ensures { result ≡ open_view (world_of world.now) promise vat }
{
    match world.home(vat) {
        Some(state) => is_open_in(state, promise),
        None => false,
    }
}

/// Whether a promise is open in the view of this state.
fn is_open_in(state: &VatState, promise: PromId) -> bool
    ensures { result ≡ is_open_of (state_of state.now (view_cell promise)) }
{
    match state.views.get(&promise) {
        Some(view) => is_open_view(view),
        None => false,
    }
}

/// Whether nothing was learnt of a promise.
fn is_open_view(view: &View) -> bool
    ensures { result ≡ is_open_of (Some (viewed (view_of view.now))) }
{
    match view {
        View::Open => true,
        View::Resolved(_) => false,
    }
}

/// Whether a vat can learn of a promise: it is open in the vat's view, and was published.
fn can_learn(world: &World, vat: VatNo, promise: PromId) -> bool
    ensures { result ≡ can_learn_of (world_of world.now) vat promise }
{
    is_open(world, vat, promise) && world.published(promise).is_some()
}

/// Whether a known promise is that of this vat, of this event and of this number.
fn is_of(known: &Known, vat: VatNo, event: EventName, index: u32) -> bool
    ensures { result ≡ (nat_eq known.now.vat.0.0 vat.0.0 && (nat_eq known.now.promise.event.0 event.0 && nat_eq known.now.promise.index index)) }
{
    known.vat == vat && known.promise.event == event && known.promise.index == index
}

/// Adds a step, if there is one.
fn add_step(step: Option<Step>, steps: &mut Vec<Step>) -> Result<(), AllocError>
    ensures { OnOk result (steps.new.items ≡ steps.old.items ++ option_to_list step) }
{
    match step {
        Some(step) => {
            steps.push(step)?;
            Ok(())
        }
        None => Ok(()),
    }
}

/// What a message does that waits so.
fn step_by(world: &World, name: MsgId, waits: Waits, desk: &Desk) -> Option<Step>
    ensures { result ≡ step_by_way (world_of world.now) (out_at desk.now) name waits }
{
    match waits {
        Waits::Moving => moves(world, name),
        Waits::Ready(vat) => (!desk.has_vat(vat)).then_some(Step::Turn(name)),
        Waits::Behind => None,
    }
}

/// What a message does that moves: it arrives, or goes on.
fn moves(world: &World, name: MsgId) -> Option<Step>
    ensures { result ≡ moves_of name (message_in_world (world_of world.now) name) }
{
    match world.message(name) {
        Some(message) => match message.place {
            Place::Flying(_) => Some(Step::Move(Move::Arrive(name))),
            Place::At(_) => Some(Step::Move(Move::Forward(name))),
            Place::Done(_) => None,
        },
        None => None,
    }
}

/// What a vat learns of a promise that it can learn of, if no ticket of it is out.
fn learning(known: &Known, desk: &Desk) -> Option<Step>
    ensures { result ≡ learn_step (out_at desk.now) known.now }
{
    (!desk.has_vat(known.vat)).then_some(Step::Move(Move::Learn(known.vat, known.promise)))
}
