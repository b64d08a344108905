//! A book that several threads share, each with a seat.
//!
//! The book is the value of a lock. What a seat did is known to its holder, whatever the others do: the entries with its number are just the
//! events of its list, each once. Turns are run outside of the lock and come back in any order.
#![tactic(auto)]

ghost use Rattle.std.specs.Prelude.{◌≡◌, ◌≢◌, ◌<◌, ◌≤◌, ◌+◌, All, Err, IfOk, IfErr, IfSome, true, length, sum_by};
ghost use Rattle.book_refusals.specs.declared.fault.BookFault.TheVariants.{NoTicket};
ghost use Rattle.book.specs.BookView.{book_of};
ghost use Rattle.bench_pact.specs.Agree.{blank};
ghost use Rattle.book.specs.Entered.{entered_in, IsAmong};
ghost use Rattle.bench.specs.SharedBook.{held, refused, Answers, Returns};
ghost use Rattle.bench.specs.Author.{Authored, mark_of, turn_of, Picked};
ghost use Rattle.book.specs.declared.book.TheConstants.{MOST_STEPS};

pub mod instruction;
mod last;
pub mod pick;
pub mod seat;
pub mod start;
pub mod theorems;
pub mod under_lock;

use crate::instruction::Instruction;
use crate::pick::Pick;
use crate::seat::{Opening, Seat};
use crate::start::Begun;
use crate::under_lock::SharedBook;
use bench_pact::PactCell;
use book::book::Book;
use book_refusals::fault::BookFault;
use ids::names::EventName;
use std::sync::atomic::{AtomicU64, Ordering};
use std::sync::ledger::Blank;
use std::sync::{Mutex, Wait};
use turn::ticket::{Ran, Ticket};

/// A book under a lock. What lies there is good whenever the lock is free: so is the book, and what each seat did stands in it.
#[derive(Drop)]
pub struct Bench<L: Opening> {
    cell: PactCell,
    shared: Mutex<SharedBook<L>>,
    ghost named: { cell.table.shared.table_id ≡ L.table },
}

impl<L: Opening> Bench<L> {
    /// Each turn has at most this many steps. The ledger has a part for each seat that there may be.
    pub fn new(begun: Begun, budget: u32, blank: Blank, parts: u64) -> Bench<L>
        requires budget { (0 < budget) × (budget ≤ MOST_STEPS) }
        requires ledger { (blank.name ≡ L.name) × (blank.parts ≡ L.parts) × (L.parts ≡ L.seats) × (parts ≡ L.seats) }
        requires book { (begun.table ≡ L.table) × (entered_in (book_of begun.book).journal ≡ L.began) × (begun.before ≡ L.before) }
    {
        let (cell, shared) = begun.into_shared::<L>(budget, blank, parts);
        Bench {
            cell,
            shared: Mutex::new(shared),
        }
    }

    /// A new seat, with a number that no entry and no ticket out had when the Bench was made; none where numbers or the parts of the ledger
    /// are used up.
    pub fn seat<R: Wait>(&self, rt: &R) -> Option<Seat<L>>
        ensures { IfSome result (λ s. (L.before < s.number) × (s.deeds ≡ blank)) }
    {
        self.shared.lock(rt).seat(rt, &self.cell)
    }

    /// Picks the first that may be done: it is done at once, but a turn is to be run and given. Its ticket is open with the seat.
    ///
    /// # Errors
    /// `Full`, `Memory`.
    pub fn checkout<R: Wait>(&self, rt: &R, seat: &mut Seat<L>) -> Result<Pick, BookFault>
        ensures ok { IfOk result (λ p. Picked p seat.old seat.new) }
        ensures err { IfErr result (λ fault. seat.new ≡ seat.old) }
    {
        self.shared.lock(rt).checkout(rt, &self.cell, seat)
    }

    /// As `checkout`, where turns are left to check out. The count of these is read and lowered under the same lock.
    pub fn checkout_one<R: Wait>(
        &self,
        rt: &R,
        left: &AtomicU64,
        seat: &mut Seat<L>,
    ) -> Result<Pick, BookFault>
        ensures ok { IfOk result (λ p. Picked p seat.old seat.new) }
        ensures err { IfErr result (λ fault. seat.new ≡ seat.old) }
    {
        let mut shared = self.shared.lock(rt);
        if left.load(Ordering::SeqCst) == 0 {
            return Ok(Pick::Nothing);
        }
        let answer = shared.checkout(rt, &self.cell, seat);
        if matches!(&answer, Ok(Pick::Turn(_))) {
            left.fetch_sub(1, Ordering::SeqCst);
        }
        answer
    }

    /// Enters the turn of a ticket that was run, with the seat that checked it out. A stale ticket is abandoned.
    ///
    /// # Errors
    /// `NoTicket`, with another seat too, `Stale`, `Full`, `Memory`, tried in this order. The ticket comes back.
    pub fn give<R: Wait>(
        &self,
        rt: &R,
        ticket: Ticket<Ran>,
        seat: &mut Seat<L>,
    ) -> Result<EventName, (Ticket<Ran>, BookFault)>
        ensures ok { IfOk result (λ e. (e ≡ ticket.carried.event) × (ticket.carried.seat ≡ seat.old.number) × Returns (turn_of ticket) seat.old seat.new) }
        ensures err { IfErr result (λ r. (r.0 ≡ ticket) × (seat.new ≡ refused r.1 ticket.carried.event seat.old)) }
        ensures strange { ticket.carried.seat ≢ seat.old.number → result ≡ Err (ticket, NoTicket) }
    {
        // The lock is free again behind this, before anything of the ticket is dropped.
        let given = self.shared.lock(rt).give(rt, &self.cell, &ticket, seat);
        match given {
            Ok(event) => {
                ticket.discard();
                Ok(event)
            }
            Err(fault) => Err((ticket, fault)),
        }
    }

    /// Does what is asked for. Answers the name of a new event, where it enters one.
    ///
    /// # Errors
    /// Those of the call of the book. A number that is abandoned is no longer open with the seat then either.
    pub fn author<R: Wait>(
        &self,
        rt: &R,
        instruction: Instruction,
        seat: &mut Seat<L>,
    ) -> Result<Option<EventName>, BookFault>
        ensures ok { IfOk result (λ o. Authored instruction seat.old o seat.new) }
        ensures err { IfErr result (λ fault. seat.new ≡ held seat.old (mark_of instruction)) }
    {
        self.shared
            .lock(rt)
            .author(rt, &self.cell, instruction, seat)
    }

    /// Ends the work. Of each seat that is handed in, the entries with its number are just its list, each once, and its tickets out are open;
    /// all that was entered before is there still. True where every seat that was made is handed in: then nothing else was entered.
    pub fn close<R: Wait>(self, rt: &R, seats: Vec<Seat<L>>) -> (Book, bool)
        requires { L.parts ≡ L.seats }
        ensures seats { All (λ s. Answers s.number s.deeds (book_of result.0)) seats.items }
        ensures still { IsAmong L.began (entered_in (book_of result.0).journal) }
        ensures all { result.1 ≡ true → sum_by (λ s. length s.deeds.events) seats.items + length L.began ≡ length (book_of result.0).journal }
    {
        let Bench { cell, shared } = self;
        shared.into_inner().close(rt, &cell, seats)
    }
}
