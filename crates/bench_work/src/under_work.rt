//! What lies under the lock of a workshop: the shared book, and what became of it since work began.
ghost use Rattle.std.specs.Prelude.{◌≡◌, ℕ, ◌<◌, ◌≤◌, IfOk, IfErr, IfSome, true};
ghost use Rattle.book.specs.BookView.{book_of};
ghost use Rattle.bench_pact.specs.declared.Act.TheVariants.{Closes};
ghost use Rattle.bench_pact.specs.Agree.{blank};
ghost use Rattle.bench.specs.Author.{Picked, turn_of};
ghost use Rattle.bench.specs.SharedBook.{events_of, held, refused, Returns};
ghost use Rattle.bench_work.specs.Seats.{AreWork};
ghost use Rattle.book_crew.specs.Work.{IsGreatestSeat, Worked};

use crate::workshop::Shift;
use bench::instruction::Instruction;
use bench::pick::Pick;
use bench::seat::Seat;
use bench::under_lock::SharedBook;
use bench_pact::PactCell;
use book::book::Book;
use book::theorems::journals_are_good;
use book_refusals::fault::BookFault;
use ids::names::EventName;
use std::marker::Model;
use std::sync::Wait;
use turn::ticket::{Ran, Ticket};

/// The shared book, with counts of turns, and the numbers of the tickets that it lent.
#[derive(Drop)]
pub(crate) struct WorkBook<L: Shift> {
    shared: SharedBook<L>,
    /// The turns that may still be checked out.
    left: u64,
    /// The turns that were entered.
    given: u64,
    /// The numbers of its tickets are from this one on, and below `behind`.
    first: u64,
    behind: u64,
    /// Whether the book is as it was when work began.
    untouched: bool,
}

impl<L: Shift> Model for WorkBook<L> {
    ghost use Rattle.book.specs.BookView.{book_of};
    ghost use Rattle.bench.specs.SharedBookView.{SharedView, shared_code};
    ghost use Rattle.bench_work.specs.Workshop.{IsWorkshop};

    ghost Value = { SharedView };

    ghost coded = { shared_code };

    ghost view = { λ d. d.shared };

    ghost invariant = { λ d. IsWorkshop L.before L.seats L.most L.book d.left d.given d.first d.behind d.untouched (book_of d.shared.book) };
}

/// The first number that was lent, when this one is lent too.
fn first_lent(first: u64, behind: u64, number: u64) -> u64
    requires { (first ≤ behind) × (behind ≤ number) }
    ensures low { result ≤ number }
    ensures covers { (k : ℕ) → first ≤ k → k < behind → result ≤ k }
{
    if first == behind { number } else { first }
}

impl<L: Shift> WorkBook<L> {
    /// Nothing was done yet.
    pub fn new(shared: SharedBook<L>, turns: u64) -> WorkBook<L>
        requires book { (book_of shared.book ≡ L.book) × IsGreatestSeat L.before L.book }
        requires turns { turns ≡ L.most }
    {
        WorkBook {
            shared,
            left: turns,
            given: 0,
            first: 0,
            behind: 0,
            untouched: true,
        }
    }

    /// A new seat, as `SharedBook::seat`.
    pub fn seat<R: Wait>(&mut self, rt: &R, cell: &PactCell) -> Option<Seat<L>>
        requires { cell.now.table.shared.table_id ≡ L.table }
        ensures { IfSome result (λ s. s.deeds ≡ blank) }
    {
        self.shared.seat(rt, cell)
    }

    /// Picks the first that may be done, where turns are left to check out.
    pub fn checkout<R: Wait>(
        &mut self,
        rt: &R,
        cell: &PactCell,
        seat: &mut Seat<L>,
    ) -> Result<Pick, BookFault>
        requires { cell.now.table.shared.table_id ≡ L.table }
        ensures ok { IfOk result (λ p. Picked p seat.old seat.new) }
        ensures err { IfErr result (λ fault. seat.new ≡ seat.old) }
        ensures work { AreWork (events_of seat.old.deeds) → AreWork (events_of seat.new.deeds) }
    {
        if self.left == 0 {
            return Ok(Pick::Nothing);
        }
        let pick = self.shared.checkout(rt, cell, seat)?;
        match &pick {
            Pick::Nothing => {}
            Pick::Moved(_) => self.untouched = false,
            Pick::Turn(ticket) => {
                let number = ticket.carried().event.0 as u64;
                self.first = first_lent(self.first, self.behind, number);
                self.behind = number + 1;
                self.left -= 1;
                self.untouched = false;
            }
        }
        Ok(pick)
    }

    /// Enters the turn of a ticket that was run, as `SharedBook::give`.
    pub fn give<R: Wait>(
        &mut self,
        rt: &R,
        cell: &PactCell,
        ticket: &Ticket<Ran>,
        seat: &mut Seat<L>,
    ) -> Result<EventName, BookFault>
        requires { cell.now.table.shared.table_id ≡ L.table }
        ensures ok { IfOk result (λ e. Returns (turn_of ticket.now) seat.old seat.new) }
        ensures err { IfErr result (λ fault. seat.new ≡ refused fault ticket.now.carried.event seat.old) }
        ensures work { AreWork (events_of seat.old.deeds) → AreWork (events_of seat.new.deeds) }
    {
        self.untouched = false;
        let event = self.shared.give(rt, cell, ticket, seat)?;
        self.given += 1;
        Ok(event)
    }

    /// The ticket of this number is no longer out, nor open with the seat.
    pub fn abandon<R: Wait>(
        &mut self,
        rt: &R,
        cell: &PactCell,
        number: EventName,
        seat: &mut Seat<L>,
    )
        requires { cell.now.table.shared.table_id ≡ L.table }
        ensures { seat.new ≡ held seat.old (Closes number) }
    {
        self.untouched = false;
        let _ = self
            .shared
            .author(rt, cell, Instruction::Abandon(number), seat);
    }

    /// Ends the work: tickets that nobody gave are let go.
    pub fn close(self) -> (Book, u64, bool)
        ensures worked { Worked L.seats L.most result.1 L.book (book_of result.0) }
        ensures untouched { result.2 ≡ true → book_of result.0 ≡ L.book }
    {
        let WorkBook {
            shared,
            left: _,
            given,
            first,
            behind,
            untouched,
        } = self;
        let mut book = shared.into_book();
        for number in first..behind {
            let _ = book.abandon(EventName(number as u32));
        }
        journals_are_good(&book);
        (book, given, untouched)
    }
}
