// The book: the world, the journal that made it, the names that are not drawn yet, and the tickets that are out; how events are entered, and which may be next.
ghost use Rattle.std.specs.Prelude.{◌≡◌, ℕ, ◌≤◌, ◌+◌, [], All, None, IfOk, IfErr, OnOk, OnErr, length, not};
ghost use Rattle.std.specs.Option.{option_map, ForSome};
ghost use Rattle.history.specs.Records.{contents};
ghost use Rattle.history.specs.Chains.{last_writer};
ghost use Rattle.history.specs.Journal.{live_set};
ghost use Rattle.ids.specs.declared.cells.CellKey.{CellKey};
ghost use Rattle.kernele.specs.View.{program_of};
ghost use Rattle.kernele_scopes.specs.Check.{scopes_of};
ghost use Rattle.kernele_scopes.specs.Scope.{checked_program};
ghost use Rattle.world_cells.specs.EventView.{event_of};
ghost use Rattle.post.specs.MessageView.{message_of, published_of, vat_of};
ghost use Rattle.world_cells.specs.Theory.{cells, state_of_world};
ghost use Rattle.world_cells.specs.View.{world_of};
ghost use Rattle.world_cells.specs.World.{World as WorldModel, vat, vat_named};
ghost use Rattle.event.specs.Events.{Foot};
ghost use Rattle.event.specs.Naming.{Numbers};
ghost use Rattle.book_agenda.specs.Agendas.{AlikeBut, KnownAs, can_learn};
ghost use Rattle.book_agenda.specs.AgendaView.{NotedIn};
ghost use Rattle.book_agenda.specs.Enabled.{Enabled, First};
ghost use Rattle.book_agenda.specs.declared.agenda.Move.TheVariants.{Arrive, Forward, Learn};
ghost use Rattle.event.specs.Effects.{Happens};
ghost use Rattle.event.specs.Runs.{PlainRun};
ghost use Rattle.journal.specs.Journals.{items_of};
ghost use Rattle.journal.specs.Lines.{plain, lines_of, entries_in};
ghost use Rattle.causality.specs.Journals.{IsJournal};
ghost use Rattle.undo.specs.CoreView.{items_of as core_items, settled_of, state_of};
ghost use Rattle.desk.specs.Desks.{has_vat};
ghost use Rattle.desk.specs.DeskView.{out_of};
ghost use Rattle.book_refusals.specs.Refusals.{nothing_to_learn, refuse_where};
ghost use Rattle.book_refusals.specs.Fault.{Tells};
ghost use Rattle.book.specs.Refusals.{birth_refusal, ask_refusal, arrival_refusal, forward_refusal, named_refusal, learn_refusal, learning_refusal, full_refusal, check_refusal, taken_refusal};
ghost use Rattle.book.specs.Books.{blank};
ghost use Rattle.book.specs.Calls.{EntersNext, AdmitsAsk, AdmitsBirth, Asks, Births, Learns, Makes, AdmitsArrival, AdmitsForward, AdmitsLearning, CanLearn, RunsFromBase, live_events};
ghost use Rattle.book.specs.Learning.{LearnsNamed, TellsNamed};
ghost use Rattle.book.specs.Standing.{Stands};
ghost use Rattle.book.specs.declared.book.TheConstants.{MOST_ENTRIES};
ghost use Rattle.ids.specs.declared.cells.CellKey.TheVariants as key;

use crate::seats::greatest_seat;
use book_agenda::agenda::{Agenda, Step, is_open};
use book_refusals::fault::{BookFault, unready_fault};
use desk::desk::Desk;
use event::effects::{Effects, ask_effects, birth_effects, learn_effects, move_effects};
use event::forwarding::{Destination, onward};
use event::learning::learn;
use event::ready::message_at_vat;
use ids::cells::CellKey;
use ids::names::{EventName, MsgId, PromId, VatNo};
use ids::text::Text;
use journal::journal::Journal;
use kernele::tree::Program;
use kernele_scopes::{CheckFault, Outer, check, top_names};
use post::message::Message;
use post::program::{Question, Script};
use post::published::Published;
use post::vat::Vat;
use std::alloc::{AllocError, Global};
use turn_deliveries::outcome::TurnEnd;
use undo::records::keys_of;
use undo::undoing::{Core, Deed};
use world_cells::event::{Action, Event};
use world_cells::world::World;

/// The greatest name that an event may have.
pub(crate) const LAST_NAME: u64 = 4_294_967_295;

/// The most entries that a journal may have.
pub const MOST_ENTRIES: usize = 1_048_576;

/// The most steps that a turn may be given.
pub const MOST_STEPS: u32 = 1_000_000;

/// The seat of events that are entered from none.
pub const NO_SEAT: u64 = 0;

/// A turn that was run: its event's name, and how it ended.
#[derive(Drop)]
pub struct Turned {
    pub event: EventName,
    pub ended: TurnEnd,
}

/// All that has happened: the world, the journal whose live events made it, the next event's name, and the tickets that are out.
#[derive(Drop)]
pub struct Book {
    pub(crate) alloc: Global,
    pub(crate) core: Core,
    pub(crate) next: u64,
    pub(crate) desk: Desk,
    /// What may be done next; none where it is to be found anew.
    pub(crate) agenda: Option<Agenda>,
    pub ghost in_range: { next ≤ 4294967296 },
    pub ghost stands: { Stands core next (out_of desk) },
    pub ghost within: { length (core_items core) ≤ settled_of core + MOST_ENTRIES },
    pub ghost noted: { ForSome agenda (NotedIn (contents cells (state_of core))) },
}

fn check_program(alloc: Global, program: &Program, outer: &Outer) -> Result<(), BookFault>
    ensures ok { OnOk result (check_refusal (checked_program (program_of program.now) (scopes_of outer.now)) ≡ None) }
    ensures err { IfErr result (λ fault. Tells fault (check_refusal (checked_program (program_of program.now) (scopes_of outer.now)))) }
{
    match check(alloc, program, outer) {
        Ok(()) => Ok(()),
        Err(CheckFault::Memory) => Err(BookFault::Memory),
        Err(fault) => Err(BookFault::Check(fault)),
    }
}

/// The agenda with what these cells hold now, which are all that were written. Without memory there is none, and it is to be found anew.
pub(crate) fn noted(
    alloc: Global,
    agenda: Option<Agenda>,
    world: &World,
    written: &[CellKey],
) -> Option<Agenda>
    ensures { (before : WorldModel) → ForSome agenda (NotedIn before) → AlikeBut written.now before (world_of world.now) → ForSome result (NotedIn (world_of world.now)) }
{
    let mut agenda = agenda?;
    match agenda.note(alloc, world, written) {
        Ok(()) => Some(agenda),
        Err(_) => None,
    }
}

impl Book {
    ghost use Rattle.book.specs.BookView.{book_of, swaps_of};
    ghost use Rattle.book.specs.Counting.{CountsNew};

    /// A book in which nothing has happened.
    pub fn new(alloc: Global) -> Book
        ensures blank { book_of result ≡ blank }
        ensures counted { swaps_of result ≡ 0 }
    {
        Book {
            alloc,
            core: Core::new(alloc),
            next: 1,
            desk: Desk::new(alloc),
            agenda: None,
        }
    }

    /// The world: what the live events lead to from the empty world, one after another in the journal's order, so also what those that
    /// are not settled lead to from the base, which is what the settled ones lead to. Each cell has as its last writer the last live
    /// event that wrote it.
    pub fn world(&self) -> &World
        ensures same { world_of result.now ≡ (book_of self.now).world }
        ensures plain_run { PlainRun (live_events (book_of self.now).journal) (world_of result.now) }
        ensures from_base { RunsFromBase (book_of self.now) }
        ensures last_writers { (k : CellKey) → (state_of_world result.now k).1 ≡ last_writer plain k (live_set plain) (entries_in (book_of self.now).journal) }
    {
        self.core.world()
    }

    /// The journal: what is kept of settled entries, and the entries behind them, in its order.
    pub fn journal(&self) -> Journal<'_>
        ensures lines { lines_of (items_of result) ≡ (book_of self.now).journal }
        ensures settled { length result.settled.now ≡ (book_of self.now).settled }
        ensures journal { IsJournal (items_of result) }
    {
        self.core.journal()
    }

    /// The greatest seat of an entry or of a ticket that is out; 0 where there is none.
    pub fn greatest_seat(&self) -> u64
        ensures entries { All (λ l. l.seat ≤ result) (book_of self.now).journal }
        ensures tickets { All (λ t. t.seat ≤ result) (book_of self.now).out }
        ensures least { (n : ℕ) → All (λ l. l.seat ≤ n) (book_of self.now).journal → All (λ t. t.seat ≤ n) (book_of self.now).out → result ≤ n }
    {
        let entered = greatest_seat(self.core.journal());
        let lent = self.desk.greatest_seat();
        if entered < lent { lent } else { entered }
    }

    /// The name that the next event is given.
    pub(crate) fn next_event(&self) -> Result<EventName, BookFault>
        ensures ok { IfOk result (λ e. (e.0 ≡ self.now.next) × (self.now.next ≤ LAST_NAME) × (full_refusal (book_of self.now) ≡ None)) }
        ensures err { IfErr result (λ fault. Tells fault (full_refusal (book_of self.now))) }
    {
        if self.next > LAST_NAME || self.core.len() >= MOST_ENTRIES {
            return Err(BookFault::Full);
        }
        Ok(EventName(self.next as u32))
    }

    /// Enters an event that is possible and makes no notes under the next name, from a seat, or changes nothing.
    fn enter_event(&mut self, event: Event, seat: u64, effects: Effects) -> Result<(), AllocError>
        requires named { event.name.0 ≡ self.old.next }
        requires in_range { self.old.next ≤ LAST_NAME }
        requires room { full_refusal (book_of self.old) ≡ None }
        requires possible { (f : Foot) × Happens (event_of event) f (book_of self.old).world effects }
        requires quiet { effects.notes.items ≡ [] }
        ensures ok { OnOk result ((f : Foot) → Happens (event_of event) f (book_of self.old).world effects → EntersNext (event_of event) f seat (book_of self.old) (book_of self.new)) }
        ensures unchanged { OnErr result (book_of self.new ≡ book_of self.old) }
        ensures counted { OnOk result (CountsNew self.old self.new) }
        ensures none { OnErr result (swaps_of self.new ≡ swaps_of self.old) }
    {
        let Effects {
            touched,
            records,
            notes,
        } = effects;
        let deed = Deed { event, notes, seat };
        let written = keys_of(self.alloc, &records)?;
        self.core.enter(self.alloc, deed, &touched, records)?;
        self.next += 1;
        self.agenda = noted(self.alloc, self.agenda.take(), self.core.world(), &written);
        Ok(())
    }

    /// What is known of the vat of this name.
    fn vat(&self, name: &Text) -> Option<&Vat>
        ensures { option_map (λ v. vat (vat_of v.now)) result ≡ (book_of self.now).world (key.Name name.now) }
    {
        self.core.world().vat(name)
    }

    fn check_free(&self, name: &Text) -> Result<(), BookFault>
        ensures ok { OnOk result ((book_of self.now).world (key.Name name.now) ≡ None) }
        ensures err { IfErr result (λ fault. Tells fault (taken_refusal name.now (vat_named (book_of self.now).world name.now))) }
    {
        match self.vat(name) {
            None => Ok(()),
            Some(_) => Err(BookFault::NameTaken(name.share()?)),
        }
    }

    /// The name of a birth that may be entered.
    fn admit_birth(
        &self,
        name: &Text,
        earlier: &[Text],
        script: &Program,
    ) -> Result<(EventName, Vec<VatNo>), BookFault>
        ensures ok { IfOk result (λ r. AdmitsBirth (book_of self.now) name.now earlier.now (program_of script.now) r.0 r.1.items) }
        ensures err { IfErr result (λ fault. Tells fault (birth_refusal (book_of self.now) name.now earlier.now (program_of script.now))) }
    {
        self.check_free(name)?;
        let vats = self.numbers_of(earlier)?;
        let outer = Outer::for_script(self.alloc, earlier)?;
        check_program(self.alloc, script, &outer)?;
        let event = self.next_event()?;
        Ok((event, vats))
    }

    /// The numbers of the vats of these names.
    fn numbers_of(&self, names: &[Text]) -> Result<Vec<VatNo>, BookFault>
        ensures numbers { IfOk result (λ numbers. Numbers (book_of self.now).world names.now numbers.items) }
        ensures ok { OnOk result (named_refusal (book_of self.now).world names.now ≡ None) }
        ensures err { IfErr result (λ fault. Tells fault (named_refusal (book_of self.now).world names.now)) }
    {
        let mut numbers = Vec::new(self.alloc);
        for name in names {
            let Some(vat) = self.vat(name) else {
                return Err(BookFault::NoVat(name.share()?));
            };
            numbers.push(vat.number)?;
        }
        Ok(numbers)
    }

    /// A new vat, with its script as its opening message, from a seat.
    ///
    /// # Errors
    /// `NameTaken`, a fault of the check, `Full`, `Memory`, tried in this order.
    pub fn birth_as(
        &mut self,
        name: &Text,
        earlier: Vec<Text>,
        script: Program,
        seat: u64,
    ) -> Result<EventName, BookFault>
        ensures ok { IfOk result (λ e. Births name.now earlier.items (program_of script) seat e (book_of self.old) (book_of self.new)) }
        ensures err { IfErr result (λ fault. Tells fault (birth_refusal (book_of self.old) name.now earlier.items (program_of script))) }
        ensures unchanged { OnErr result (book_of self.new ≡ book_of self.old) }
        ensures counted { OnOk result (CountsNew self.old self.new) }
        ensures none { OnErr result (swaps_of self.new ≡ swaps_of self.old) }
    {
        let (event, vats) = self.admit_birth(name, &earlier, &script)?;
        let tops = top_names(self.alloc, &script)?;
        let script = Script::new(self.alloc, &script)?;
        let effects = birth_effects(self.alloc, event, name, &earlier, &vats, tops, &script)?;
        let action = Action::Birth(name.share()?, earlier, script);
        self.enter_event(
            Event {
                name: event,
                action,
            },
            seat,
            effects,
        )?;
        Ok(event)
    }

    /// The name of an asked program that may be entered, and its vat.
    fn admit_ask(&self, name: &Text, program: &Program) -> Result<(EventName, VatNo), BookFault>
        ensures ok { IfOk result (λ r. AdmitsAsk (book_of self.now) name.now (program_of program.now) r.0 r.1) }
        ensures err { IfErr result (λ fault. Tells fault (ask_refusal (book_of self.now) name.now (program_of program.now))) }
    {
        let Some(vat) = self.vat(name) else {
            return Err(BookFault::NoVat(name.share()?));
        };
        check_program(self.alloc, program, vat.outer())?;
        let event = self.next_event()?;
        Ok((event, vat.number))
    }

    /// A program that is asked of a vat, from a seat: a message that waits for the vat's opening.
    ///
    /// # Errors
    /// `NoVat`, a fault of the check, `Full`, `Memory`, tried in this order.
    pub fn ask_as(
        &mut self,
        name: &Text,
        program: Program,
        seat: u64,
    ) -> Result<EventName, BookFault>
        ensures ok { IfOk result (λ e. Asks name.now (program_of program) seat e (book_of self.old) (book_of self.new)) }
        ensures err { IfErr result (λ fault. Tells fault (ask_refusal (book_of self.old) name.now (program_of program))) }
        ensures unchanged { OnErr result (book_of self.new ≡ book_of self.old) }
        ensures counted { OnOk result (CountsNew self.old self.new) }
        ensures none { OnErr result (swaps_of self.new ≡ swaps_of self.old) }
    {
        let (event, vat) = self.admit_ask(name, &program)?;
        let question = Question::new(self.alloc, &program)?;
        let effects = ask_effects(self.alloc, event, name, vat, &question)?;
        let action = Action::Ask(name.share()?, question);
        self.enter_event(
            Event {
                name: event,
                action,
            },
            seat,
            effects,
        )?;
        Ok(event)
    }

    /// The name of an arrival that may be entered, and the message where it arrived.
    fn admit_arrival(&self, name: MsgId) -> Result<(EventName, Message), BookFault>
        ensures ok { IfOk result (λ r. AdmitsArrival (book_of self.now) name r.0 (message_of r.1)) }
        ensures in_range { OnOk result (self.now.next ≤ LAST_NAME) }
        ensures err { IfErr result (λ fault. Tells fault (arrival_refusal (book_of self.now) name)) }
    {
        let Some(message) = self.core.world().message(name) else {
            return Err(BookFault::NoMessage(name));
        };
        let Some(arrived) = message.arrived()? else {
            return Err(BookFault::NotThere);
        };
        let event = self.next_event()?;
        Ok((event, arrived))
    }

    /// A message arrives at the vat to which it is on its way, from a seat.
    ///
    /// # Errors
    /// `NoMessage`, `NotThere`, `Full`, `Memory`, tried in this order.
    pub fn arrive_as(&mut self, name: MsgId, seat: u64) -> Result<EventName, BookFault>
        ensures ok { IfOk result (λ e. Makes (Arrive name) seat e (book_of self.old) (book_of self.new)) }
        ensures err { IfErr result (λ fault. Tells fault (arrival_refusal (book_of self.old) name)) }
        ensures unchanged { OnErr result (book_of self.new ≡ book_of self.old) }
        ensures counted { OnOk result (CountsNew self.old self.new) }
        ensures none { OnErr result (swaps_of self.new ≡ swaps_of self.old) }
    {
        let (event, arrived) = self.admit_arrival(name)?;
        let effects = move_effects(self.alloc, event, name, arrived, &[])?;
        self.enter_event(
            Event {
                name: event,
                action: Action::Arrive(name),
            },
            seat,
            effects,
        )?;
        Ok(event)
    }

    /// The name of a forwarding that may be entered, the message on its way, and the promises whose publications it looked at.
    fn admit_forward(&self, name: MsgId) -> Result<(EventName, Message, Vec<PromId>), BookFault>
        ensures ok { IfOk result (λ r. AdmitsForward (book_of self.now) name r.0 (message_of r.1) r.2.items) }
        ensures in_range { OnOk result (self.now.next ≤ LAST_NAME) }
        ensures err { IfErr result (λ fault. Tells fault (forward_refusal (book_of self.now) name)) }
    {
        let world = self.core.world();
        let (message, vat) = match message_at_vat(world, name) {
            Ok(found) => found,
            Err(unready) => return Err(unready_fault(name, unready)),
        };
        let Some(Destination { to, through }) = onward(self.alloc, world, message, vat)? else {
            return Err(BookFault::NotReady);
        };
        let Some(forwarded) = message.forwarded(to)? else {
            return Err(BookFault::NotThere);
        };
        let event = self.next_event()?;
        Ok((event, forwarded, through))
    }

    /// A message goes on to the vat to which its target leads, from a seat.
    ///
    /// # Errors
    /// `NoMessage`, `NotThere`, `NotReady`, `Full`, `Memory`, tried in this order.
    pub fn forward_as(&mut self, name: MsgId, seat: u64) -> Result<EventName, BookFault>
        ensures ok { IfOk result (λ e. Makes (Forward name) seat e (book_of self.old) (book_of self.new)) }
        ensures err { IfErr result (λ fault. Tells fault (forward_refusal (book_of self.old) name)) }
        ensures unchanged { OnErr result (book_of self.new ≡ book_of self.old) }
        ensures counted { OnOk result (CountsNew self.old self.new) }
        ensures none { OnErr result (swaps_of self.new ≡ swaps_of self.old) }
    {
        let (event, forwarded, through) = self.admit_forward(name)?;
        let effects = move_effects(self.alloc, event, name, forwarded, &through)?;
        self.enter_event(
            Event {
                name: event,
                action: Action::Forward(name),
            },
            seat,
            effects,
        )?;
        Ok(event)
    }

    /// The vat of this name learns what a promise was published as that is open in its view, from a seat.
    ///
    /// # Errors
    /// `NoVat`, `NothingToLearn`, `Full`, `Memory`, tried in this order.
    pub fn learn_as(
        &mut self,
        name: &Text,
        promise: PromId,
        seat: u64,
    ) -> Result<EventName, BookFault>
        ensures ok { IfOk result (λ e. Learns name.now promise seat e (book_of self.old) (book_of self.new)) }
        ensures err { IfErr result (λ fault. Tells fault (learn_refusal (book_of self.old) name.now promise)) }
        ensures unchanged { OnErr result (book_of self.new ≡ book_of self.old) }
        ensures counted { OnOk result (CountsNew self.old self.new) }
        ensures none { OnErr result (swaps_of self.new ≡ swaps_of self.old) }
    {
        let vat = match self.vat(name) {
            Some(vat) => vat.number,
            None => return Err(BookFault::NoVat(name.share()?)),
        };
        self.learn_at(vat, promise, seat)
    }

    /// The same, from no seat, by the event and the number of the promise, which do without its home.
    ///
    /// # Errors
    /// As `learn_as`.
    pub fn learn_named(
        &mut self,
        name: &Text,
        event: EventName,
        index: u32,
    ) -> Result<EventName, BookFault>
        ensures ok { IfOk result (λ e. LearnsNamed name.now event index e (book_of self.old) (book_of self.new)) }
        ensures err { IfErr result (λ fault. TellsNamed fault (book_of self.old) name.now event index) }
        ensures unchanged { OnErr result (book_of self.new ≡ book_of self.old) }
        ensures counted { OnOk result (CountsNew self.old self.new) }
        ensures none { OnErr result (swaps_of self.new ≡ swaps_of self.old) }
    {
        let vat = match self.vat(name) {
            Some(vat) => vat.number,
            None => return Err(BookFault::NoVat(name.share()?)),
        };
        match self.known_as(vat, event, index)? {
            Some(promise) => self.learn_at(vat, promise, NO_SEAT),
            None => Err(BookFault::NothingToLearn),
        }
    }

    /// The same, from a seat, by the vat's number.
    pub(crate) fn learn_at(
        &mut self,
        vat: VatNo,
        promise: PromId,
        seat: u64,
    ) -> Result<EventName, BookFault>
        ensures ok { IfOk result (λ e. Makes (Learn vat promise) seat e (book_of self.old) (book_of self.new)) }
        ensures err { IfErr result (λ fault. Tells fault (learning_refusal (book_of self.old) vat promise)) }
        ensures unchanged { OnErr result (book_of self.new ≡ book_of self.old) }
        ensures counted { OnOk result (CountsNew self.old self.new) }
        ensures none { OnErr result (swaps_of self.new ≡ swaps_of self.old) }
    {
        let (event, published) = self.admit_learning(vat, promise)?;
        let state = self.core.share_vat(self.alloc, vat)?;
        let footprint = learn(self.alloc, event, vat, state, promise, &published)?;
        let effects = learn_effects(self.alloc, event, vat, promise, &footprint)?;
        self.enter_event(
            Event {
                name: event,
                action: Action::Learn(vat, promise),
            },
            seat,
            effects,
        )?;
        Ok(event)
    }

    /// The name of what a vat learns that may be entered, and what the promise was published as.
    fn admit_learning(
        &self,
        vat: VatNo,
        promise: PromId,
    ) -> Result<(EventName, Published), BookFault>
        ensures ok { IfOk result (λ r. AdmitsLearning (book_of self.now) vat promise r.0 (published_of r.1)) }
        ensures in_range { OnOk result (self.now.next ≤ LAST_NAME) }
        ensures err { IfErr result (λ fault. Tells fault (learning_refusal (book_of self.now) vat promise)) }
    {
        let published = self.learnable(vat, promise)?;
        let event = self.next_event()?;
        Ok((event, published))
    }

    /// What a promise was published as that is open in a vat's view, shared.
    fn learnable(&self, vat: VatNo, promise: PromId) -> Result<Published, BookFault>
        ensures can { IfOk result (λ p. CanLearn (book_of self.now).world vat promise (published_of p)) }
        ensures ok { OnOk result (refuse_where (not (can_learn (book_of self.now).world vat promise)) nothing_to_learn ≡ None) }
        ensures err { IfErr result (λ fault. Tells fault (refuse_where (not (can_learn (book_of self.now).world vat promise)) nothing_to_learn)) }
    {
        let world = self.core.world();
        if !is_open(world, vat, promise) {
            return Err(BookFault::NothingToLearn);
        }
        match world.published(promise) {
            Some(published) => Ok(published.share()?),
            None => Err(BookFault::NothingToLearn),
        }
    }

    /// The promise of this event and number that a vat can learn of.
    fn known_as(
        &mut self,
        vat: VatNo,
        event: EventName,
        index: u32,
    ) -> Result<Option<PromId>, AllocError>
        ensures known { IfOk result (KnownAs (can_learn (book_of self.old).world) vat event index) }
        ensures same { book_of self.new ≡ book_of self.old }
        ensures counted { swaps_of self.new ≡ swaps_of self.old }
    {
        let agenda = self.agenda()?;
        let found = agenda.known_as(vat, event, index);
        self.agenda = Some(agenda);
        Ok(found)
    }

    /// What may be done next, found once.
    fn agenda(&mut self) -> Result<Agenda, AllocError>
        ensures noted { IfOk result (NotedIn (book_of self.old).world) }
        ensures same { book_of self.new ≡ book_of self.old }
        ensures counted { swaps_of self.new ≡ swaps_of self.old }
    {
        match self.agenda.take() {
            Some(agenda) => Ok(agenda),
            None => Agenda::new(self.alloc, self.core.world()),
        }
    }

    /// The first that may be done: what a message can do, in order of their names, then what vats can learn, in order of birth and of
    /// promise. Turns and learning of vats of which a ticket is out are left out. Fails only for want of memory.
    pub fn next(&mut self) -> Result<Option<Step>, AllocError>
        ensures first { IfOk result (First (book_of self.old).world (λ v. has_vat v (book_of self.old).out)) }
        ensures same { book_of self.new ≡ book_of self.old }
        ensures counted { swaps_of self.new ≡ swaps_of self.old }
    {
        let agenda = self.agenda()?;
        let step = agenda.first(self.core.world(), &self.desk);
        self.agenda = Some(agenda);
        Ok(step)
    }

    /// All that may be done, in that order. Fails only for want of memory.
    pub fn enabled(&mut self) -> Result<Vec<Step>, AllocError>
        ensures all { IfOk result (λ steps. Enabled (book_of self.old).world (λ v. has_vat v (book_of self.old).out) steps.items) }
        ensures same { book_of self.new ≡ book_of self.old }
        ensures counted { swaps_of self.new ≡ swaps_of self.old }
    {
        let agenda = self.agenda()?;
        let steps = agenda.all(self.alloc, self.core.world(), &self.desk);
        self.agenda = Some(agenda);
        steps
    }
}
