//! A book that workers alone have, under a lock.
ghost use Rattle.std.specs.Prelude.{◌≡◌, ◌<◌, ◌≤◌, true};
ghost use Rattle.book_crew.specs.Work.{Worked};
ghost use Rattle.book.specs.Entered.{entered_in};
ghost use Rattle.book.specs.BookView.{book_of};
ghost use Rattle.book.specs.declared.book.TheConstants.{MOST_STEPS};

use crate::under_work::WorkBook;
use crate::workplace::Workplace;
use bench::pick::Pick;
use bench::seat::{Opening, Seat};
use bench::start::Begun;
use bench_pact::PactCell;
use book::book::Book;
use book_refusals::fault::BookFault;
use ids::names::EventName;
use std::marker::Brand;
use std::sync::ledger::Blank;
use std::sync::{Mutex, Wait};
use turn::ticket::{Ran, Ticket};

/// Stands for one workshop: the book that work began with, and how many turns may be checked out.
pub(crate) trait Shift: Opening {
    ghost use Rattle.std.specs.Prelude.{ℕ};
    ghost use Rattle.book.specs.Books.{Book};

    // The book that work began with.
    ghost book: { Book };

    // The most turns that may be checked out.
    ghost most: { ℕ };
}

impl Shift for Brand {
    ghost use Rattle.book.specs.Books.{blank};

    ghost book = { blank };

    ghost most = { 0 };
}

/// What lies under its lock knows what became of the book since work began.
#[derive(Drop)]
pub(crate) struct Workshop<L: Shift> {
    cell: PactCell,
    shared: Mutex<WorkBook<L>>,
    ghost named: { cell.table.shared.table_id ≡ L.table },
}

impl<L: Shift> Workshop<L> {
    /// As `Bench::new`; so many turns may be checked out.
    pub fn new(begun: Begun, budget: u32, blank: Blank, parts: u64, turns: u64) -> Workshop<L>
        requires budget { (0 < budget) × (budget ≤ MOST_STEPS) }
        requires ledger { (blank.name ≡ L.name) × (blank.parts ≡ L.parts) × (L.parts ≡ L.seats) × (parts ≡ L.seats) }
        requires book { (begun.table ≡ L.table) × (book_of begun.book ≡ L.book) × (entered_in (book_of begun.book).journal ≡ L.began) × (begun.before ≡ L.before) }
        requires turns { turns ≡ L.most }
    {
        let (cell, shared) = begun.into_shared::<L>(budget, blank, parts);
        Workshop {
            cell,
            shared: Mutex::new(WorkBook::new(shared, turns)),
        }
    }

    /// The book, with how many turns were entered, and whether it is as it was.
    pub fn close(self) -> (Book, u64, bool)
        ensures worked { Worked L.seats L.most result.1 L.book (book_of result.0) }
        ensures untouched { result.2 ≡ true → book_of result.0 ≡ L.book }
    {
        let Workshop { cell: _, shared } = self;
        shared.into_inner().close()
    }
}

impl<L: Shift> Workplace<L> for Workshop<L> {
    fn seat<R: Wait>(&self, rt: &R) -> Option<Seat<L>> {
        self.shared.lock(rt).seat(rt, &self.cell)
    }

    fn checkout<R: Wait>(&self, rt: &R, seat: &mut Seat<L>) -> Result<Pick, BookFault> {
        self.shared.lock(rt).checkout(rt, &self.cell, seat)
    }

    fn give<R: Wait>(
        &self,
        rt: &R,
        ticket: Ticket<Ran>,
        seat: &mut Seat<L>,
    ) -> Result<EventName, (Ticket<Ran>, BookFault)> {
        let given = self.shared.lock(rt).give(rt, &self.cell, &ticket, seat);
        match given {
            Ok(event) => {
                ticket.discard();
                Ok(event)
            }
            Err(fault) => Err((ticket, fault)),
        }
    }

    fn abandon<R: Wait>(&self, rt: &R, number: EventName, seat: &mut Seat<L>) {
        self.shared.lock(rt).abandon(rt, &self.cell, number, seat)
    }
}
