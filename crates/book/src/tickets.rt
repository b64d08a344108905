// Turns: tickets that are lent, given back with what was run, or let go.
ghost use Rattle.std.specs.Prelude.{◌≡◌, ◌≤◌, ◌↔◌, None, Some, true, false, IsTrue, IfOk, IfErr, IfSome, OnOk, OnErr};
ghost use Rattle.std.specs.Option.{option_map};
ghost use Rattle.heap.specs.Found.{Found};
ghost use Rattle.post.specs.MessageView.{place_of, message_of};
ghost use Rattle.world_cells.specs.View.{world_of};
ghost use Rattle.post.specs.Messages.{at_vat};
ghost use Rattle.world_cells.specs.World.{vat, vat_state};
ghost use Rattle.event.specs.Events.{Turn};
ghost use Rattle.event.specs.ReadyView.{IsWay};
ghost use Rattle.turn_deliveries.specs.Outcomes.{told_of};
ghost use Rattle.desk.specs.Desks.{is_out, without};
ghost use Rattle.desk.specs.DeskView.{lent_of as desk_lent};
ghost use Rattle.book_refusals.specs.Refusals.{full};
ghost use Rattle.book_refusals.specs.Fault.{Tells};
ghost use Rattle.book_refusals.specs.declared.fault.BookFault.TheVariants.{NoTicket, Full};
ghost use Rattle.book.specs.Refusals.{checkout_refusal, budget_refusal, journal_full};
ghost use Rattle.book.specs.Calls.{Admitted, LeadsAsBefore, TurnsNext, lent_of, Lends, Commits, IsKnown, IsFresh};
ghost use Rattle.book.specs.TurnFaults.{TellsLost, TellsStale, TellsCommit, Unturned};
ghost use Rattle.book.specs.declared.book.TheConstants.{LAST_NAME};

use crate::book::{Book, MOST_ENTRIES, MOST_STEPS, NO_SEAT, Turned, noted};
use book_refusals::fault::{BookFault, delay_fault, unready_fault};
use desk::desk::Lent;
use event::effects::{Effects, turn_effects};
use event::found::is_found;
use event::ready::{Delay, Unready, Way, check_ready, message_at_vat};
use heap::reach::Footprint;
use heap::state::VatState;
use ids::names::{EventName, MsgId, VatNo};
use post::message::{Message, Place, same_sent};
use std::alloc::{AllocError, Global};
use turn::ticket::{Out, Ran, Task, Ticket};
use undo::records::keys_of;
use undo::undoing::Deed;
use world_cells::event::{Action, Event};
use world_cells::world::World;

fn check_budget(budget: u32) -> Result<(), BookFault>
    ensures ok { OnOk result (budget_refusal budget ≡ None) }
    ensures err { IfErr result (λ fault. Tells fault (budget_refusal budget)) }
{
    if budget == 0 || budget > MOST_STEPS {
        return Err(BookFault::BadBudget);
    }
    Ok(())
}

/// Whether the state of a vat, if it has one, holds what a turn found.
fn is_found_at(alloc: Global, footprint: &Footprint, world: &World, vat: VatNo) -> bool
    ensures { IsTrue result ↔ Found footprint.now (vat_state (world_of world.now) vat) }
{
    match world.home(vat) {
        Some(state) => is_found(footprint, state),
        None => is_found(footprint, &VatState::new(alloc)),
    }
}

fn is_at(place: Place, vat: VatNo) -> bool
    ensures { IsTrue result ↔ (place_of place ≡ at_vat vat) }
{
    match place {
        Place::At(home) => home == vat,
        Place::Flying(_) | Place::Done(_) => false,
    }
}

/// Whether a message, if the world has it, is the one that a ticket carries, their places aside.
fn is_copy(found: Option<&Message>, carried: &Message) -> bool
    ensures { IsTrue result ↔ IfSome found.entry (λ g. record (message_of g.now) { place = (message_of carried.now).place } ≡ message_of carried.now) }
{
    match found {
        Some(message) => same_sent(message, carried),
        None => true,
    }
}

/// Where the message of a ticket leads, if it is ready and leads where it led.
fn same_way(alloc: Global, world: &World, out: &Task) -> Result<Way, BookFault>
    ensures ok { OnOk result (LeadsAsBefore (world_of world.now) out.now) }
    ensures way { IfOk result (IsWay (world_of world.now) out.now.vat (message_of out.now.message)) }
    ensures err { IfErr result (λ fault. TellsLost fault (world_of world.now) out.now) }
{
    let way = match check_ready(alloc, world, &out.message, out.vat) {
        Ok(way) => way,
        Err(Delay::Memory) => return Err(BookFault::Memory),
        Err(Delay::Unready(_)) => return Err(BookFault::Stale),
    };
    if !way.lead.is_same(&out.lead) {
        return Err(BookFault::Stale);
    }
    Ok(way)
}

/// Whether the ticket that was found out, if one was, is this one.
fn is_lent(found: Option<Lent>, out: &Task) -> bool
    ensures { IsTrue result ↔ (option_map desk_lent found ≡ Some (lent_of out.now)) }
{
    match found {
        Some(lent) => {
            lent.number == out.event
                && lent.message == out.name
                && lent.vat == out.vat
                && lent.budget == out.budget
                && lent.seat == out.seat
        }
        None => false,
    }
}

impl Book {
    ghost use Rattle.book.specs.BookView.{book_of, swaps_of};
    ghost use Rattle.book.specs.Counting.{CountsNew};

    /// A message that may be delivered with this budget, shared, where it leads, its vat, and the name of its turn.
    fn admit_turn(
        &self,
        message: MsgId,
        budget: u32,
    ) -> Result<(Message, Way, VatNo, EventName), BookFault>
        ensures ok { IfOk result (λ r. Admitted (book_of self.now) message budget r.0 r.1.lead r.2 r.3) }
        ensures way { IfOk result (λ r. IsWay (book_of self.now).world r.2 (message_of r.0) r.1) }
        ensures in_range { OnOk result (self.now.next ≤ LAST_NAME) }
        ensures err { IfErr result (λ fault. Tells fault (checkout_refusal (book_of self.now) message budget)) }
    {
        check_budget(budget)?;
        let world = self.core.world();
        let (waiting, vat) = match message_at_vat(world, message) {
            Ok(found) => found,
            Err(unready) => return Err(unready_fault(message, unready)),
        };
        if self.desk.has_vat(vat) {
            return Err(BookFault::VatOut);
        }
        let way = match check_ready(self.alloc, world, waiting, vat) {
            Ok(way) => way,
            Err(delay) => return Err(delay_fault(message, delay)),
        };
        let event = self.next_event()?;
        Ok((waiting.share()?, way, vat, event))
    }

    /// A ticket for the turn of a message that is lent to a seat, and where the message leads.
    fn lend(
        &mut self,
        message: MsgId,
        budget: u32,
        seat: u64,
    ) -> Result<(Ticket<Out>, Way), BookFault>
        ensures ok { IfOk result (λ r. (checkout_refusal (book_of self.old) message budget ≡ None) × Lends message budget seat r.0 (book_of self.old) (book_of self.new)) }
        ensures way { IfOk result (λ r. IsWay (book_of self.old).world r.0.carried.vat (message_of r.0.carried.message) r.1) }
        ensures err { IfErr result (λ fault. Tells fault (checkout_refusal (book_of self.old) message budget)) }
        ensures unchanged { OnErr result (book_of self.new ≡ book_of self.old) }
        ensures counted { swaps_of self.new ≡ swaps_of self.old }
    {
        let (carried, way, vat, event) = self.admit_turn(message, budget)?;
        let lead = way.lead.share()?;
        let state = self.core.share_vat(self.alloc, vat)?;
        self.desk.lend(Lent {
            number: event,
            message,
            vat,
            budget,
            seat,
        })?;
        self.next += 1;
        let ticket = Ticket::new(Out {
            alloc: self.alloc,
            carried: Task {
                event,
                name: message,
                message: carried,
                lead,
                vat,
                budget,
                seat,
            },
            state,
        });
        Ok((ticket, way))
    }

    /// Lends a ticket for the turn of a message, with at most this many steps, to a seat. The ticket shares the vat's state.
    ///
    /// # Errors
    /// `BadBudget`, `NoMessage`, `NotThere`, `VatOut`, `NotReady`, `Before`, `Full`, `Memory`, tried in this order.
    pub fn checkout(
        &mut self,
        message: MsgId,
        budget: u32,
        seat: u64,
    ) -> Result<Ticket<Out>, BookFault>
        ensures ok { IfOk result (λ t. (checkout_refusal (book_of self.old) message budget ≡ None) × Lends message budget seat t (book_of self.old) (book_of self.new)) }
        ensures err { IfErr result (λ fault. Tells fault (checkout_refusal (book_of self.old) message budget)) }
        ensures unchanged { OnErr result (book_of self.new ≡ book_of self.old) }
        ensures counted { swaps_of self.new ≡ swaps_of self.old }
    {
        match self.lend(message, budget, seat) {
            Ok((ticket, _)) => Ok(ticket),
            Err(fault) => Err(fault),
        }
    }

    /// The ticket is out, and its message is the world's, if it is there.
    fn check_known(&self, out: &Task) -> Result<(), BookFault>
        ensures ok { OnOk result (IsKnown (book_of self.now) out.now) }
        ensures err { IfErr result (λ fault. (fault ≡ NoTicket) × (IsKnown (book_of self.now) out.now → ⊥)) }
    {
        if is_lent(self.desk.get(out.event), out)
            && is_copy(self.core.world().message(out.name), &out.message)
        {
            return Ok(());
        }
        Err(BookFault::NoTicket)
    }

    /// The message of a known ticket is ready at its vat, and the vat holds what the turn found.
    fn check_fresh(&self, ran: &Ran) -> Result<Way, BookFault>
        requires { IsKnown (book_of self.now) ran.now.carried }
        ensures ok { OnOk result (IsFresh (book_of self.now) ran.now) }
        ensures way { IfOk result (IsWay (book_of self.now).world ran.now.carried.vat (message_of ran.now.carried.message)) }
        ensures err { IfErr result (λ fault. TellsStale fault (book_of self.now) ran.now) }
    {
        let world = self.core.world();
        let out = &ran.carried;
        // A copy may say another place than the message in the world, and each must be at the vat.
        match world.message(out.name) {
            Some(message)
                if is_at(message.place, out.vat)
                    && is_at(out.message.place, out.vat)
                    && is_found_at(self.alloc, &ran.outcome.footprint, world, out.vat) => {
                same_way(self.alloc, world, out)
            }
            _ => Err(BookFault::Stale),
        }
    }

    fn check_room(&self) -> Result<(), BookFault>
        ensures ok { OnOk result (journal_full (book_of self.now) ≡ None) }
        ensures err { IfErr result (λ fault. (fault ≡ Full) × (journal_full (book_of self.now) ≡ Some full)) }
    {
        if self.core.len() >= MOST_ENTRIES {
            return Err(BookFault::Full);
        }
        Ok(())
    }

    /// Enters a turn that was run, of which all was looked at, and its ticket is no longer out. Fails only for want of memory.
    fn enter_ran(&mut self, ran: &Ran, way: &Way) -> Result<(), AllocError>
        requires known { IsKnown (book_of self.old) ran.now.carried }
        requires fresh { IsFresh (book_of self.old) ran.now }
        requires room { journal_full (book_of self.old) ≡ None }
        requires way { IsWay (book_of self.old).world ran.now.carried.vat (message_of ran.now.carried.message) way.now }
        ensures ok { OnOk result (Commits ran.now (book_of self.old) (book_of self.new)) }
        ensures unchanged { OnErr result (book_of self.new ≡ book_of self.old) }
        ensures counted { OnOk result (CountsNew self.old self.new) }
        ensures none { OnErr result (swaps_of self.new ≡ swaps_of self.old) }
    {
        let out = &ran.carried;
        let Effects {
            touched,
            records,
            notes,
        } = turn_effects(
            self.alloc,
            self.core.world(),
            out.event,
            out.name,
            &out.message,
            way,
            out.vat,
            &ran.outcome,
        )?;
        let event = Event {
            name: out.event,
            action: Action::Turn {
                vat: out.vat,
                message: out.name,
                budget: out.budget,
            },
        };
        let deed = Deed {
            event,
            notes,
            seat: out.seat,
        };
        let written = keys_of(self.alloc, &records)?;
        self.core.enter(self.alloc, deed, &touched, records)?;
        self.desk.remove(out.event);
        self.agenda = noted(self.alloc, self.agenda.take(), self.core.world(), &written);
        Ok(())
    }

    /// Enters the turn of a ticket that was run, and the ticket is no longer out. What it carries stays with the caller.
    ///
    /// # Errors
    /// `NoTicket`, `Stale`, `Full`, `Memory`, tried in this order. Nothing changes.
    pub fn enter_turn(&mut self, ran: &Ran) -> Result<(), BookFault>
        ensures ok { OnOk result (Commits ran.now (book_of self.old) (book_of self.new)) }
        ensures err { IfErr result (λ fault. TellsCommit fault (book_of self.old) ran.now) }
        ensures unchanged { OnErr result (book_of self.new ≡ book_of self.old) }
        ensures counted { OnOk result (CountsNew self.old self.new) }
        ensures none { OnErr result (swaps_of self.new ≡ swaps_of self.old) }
    {
        self.check_known(&ran.carried)?;
        let way = self.check_fresh(ran)?;
        self.check_room()?;
        self.enter_ran(ran, &way)?;
        Ok(())
    }

    /// Enters the turn of a ticket that was run, and the ticket is no longer out. A refused ticket comes back as it was.
    ///
    /// # Errors
    /// `NoTicket`, `Stale`, `Full`, `Memory`, tried in this order.
    pub fn commit(&mut self, ticket: Ticket<Ran>) -> Result<EventName, (Ticket<Ran>, BookFault)>
        ensures ok { IfOk result (λ e. (e ≡ ticket.carried.event) × Commits ticket (book_of self.old) (book_of self.new)) }
        ensures err { IfErr result (λ r. TellsCommit r.1 (book_of self.old) ticket) }
        ensures back { IfErr result (λ r. r.0 ≡ ticket) }
        ensures unchanged { OnErr result (book_of self.new ≡ book_of self.old) }
        ensures counted { OnOk result (CountsNew self.old self.new) }
        ensures none { OnErr result (swaps_of self.new ≡ swaps_of self.old) }
    {
        match self.enter_turn(ticket.ran()) {
            Ok(()) => {
                let event = ticket.ran().carried.event;
                ticket.discard();
                Ok(event)
            }
            Err(fault) => Err((ticket, fault)),
        }
    }

    /// Lets go of the ticket of this number: it is no longer out. It takes no memory.
    ///
    /// # Errors
    /// `NoTicket`.
    pub fn abandon(&mut self, number: EventName) -> Result<(), BookFault>
        ensures ok { OnOk result (is_out number (book_of self.old).out ≡ true) }
        ensures gone { OnOk result (book_of self.new ≡ record (book_of self.old) { out = without number (book_of self.old).out }) }
        ensures err { IfErr result (λ fault. (fault ≡ NoTicket) × (is_out number (book_of self.old).out ≡ false)) }
        ensures unchanged { OnErr result (book_of self.new ≡ book_of self.old) }
        ensures counted { swaps_of self.new ≡ swaps_of self.old }
    {
        if self.desk.remove(number) {
            Ok(())
        } else {
            Err(BookFault::NoTicket)
        }
    }

    /// Lets go of a ticket whose turn cannot be entered.
    fn drop_turn<S: Drop>(
        &mut self,
        number: EventName,
        ticket: Ticket<S>,
        fault: BookFault,
    ) -> BookFault
        ensures same { result ≡ fault }
        ensures gone { book_of self.new ≡ record (book_of self.old) { out = without number (book_of self.old).out } }
        ensures counted { swaps_of self.new ≡ swaps_of self.old }
    {
        ticket.discard();
        self.desk.remove(number);
        fault
    }

    /// Runs the turn of a message, with at most this many steps, and enters what it did: checkout, run and commit. Between these nothing
    /// changes, so the turn is not looked at again.
    ///
    /// # Errors
    /// `BadBudget`, `NoMessage`, `NotThere`, `VatOut`, `NotReady`, `Before`, `Full`, `Memory`, tried in this order.
    pub fn turn(&mut self, message: MsgId, budget: u32) -> Result<Turned, BookFault>
        ensures ok { IfOk result (λ t. (checkout_refusal (book_of self.old) message budget ≡ None) × ((u : Turn) × TurnsNext t.event message budget u (book_of self.old) (book_of self.new) × (told_of t.ended ≡ u.outcome.told))) }
        ensures err { IfErr result (λ fault. Tells fault (checkout_refusal (book_of self.old) message budget)) }
        ensures unchanged { IfErr result (λ fault. Unturned fault (book_of self.old) (book_of self.new)) }
        ensures counted { OnOk result (CountsNew self.old self.new) }
        ensures none { OnErr result (swaps_of self.new ≡ swaps_of self.old) }
    {
        let (ticket, way) = self.lend(message, budget, NO_SEAT)?;
        let ran = match ticket.run() {
            Ok(ran) => ran,
            Err((ticket, _)) => {
                let number = ticket.carried().event;
                return Err(self.drop_turn(number, ticket, BookFault::Memory));
            }
        };
        let number = ran.ran().carried.event;
        let Ok(ended) = ran.outcome().ended.share() else {
            return Err(self.drop_turn(number, ran, BookFault::Memory));
        };
        match self.enter_ran(ran.ran(), &way) {
            Ok(()) => {
                ran.discard();
                Ok(Turned {
                    event: number,
                    ended,
                })
            }
            Err(_) => Err(self.drop_turn(number, ran, BookFault::Memory)),
        }
    }
}
