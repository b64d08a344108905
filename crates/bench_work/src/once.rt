//! Work on a book that nobody else has.
ghost use Rattle.std.specs.Prelude.{◌≡◌, ◌<◌, ◌≤◌, IfOk, IfErr};
ghost use Rattle.book.specs.BookView.{book_of};
ghost use Rattle.book.specs.Entered.{entered_in};
ghost use Rattle.book.specs.declared.book.TheConstants.{MOST_STEPS};
ghost use Rattle.book_crew.specs.Work.{StopsWork, Worked};

use crate::work::{Gate, work_at};
use crate::workshop::{Shift, Workshop};
use bench::start::Begun;
use book::book::Book;
use book_refusals::fault::{BookFault, WorkFault};
use std::alloc::Global;
use std::marker::Brand;
use std::sync::Wait;
use std::sync::ledger::Blank;
use std::thread::Threads;

/// Has workers do what may be done in a book, as `work_at_bench` says, and gives the book back. Answers how many turns they entered.
///
/// # Errors
/// As `work_at_bench`; `Memory` also where there is none for the workshop. The book is as it was.
pub fn work_once<G: Gate + Sync, R: Threads + Wait + Sync>(
    rt: &R,
    alloc: Global,
    book: Book,
    budget: u32,
    workers: usize,
    turns: u64,
    gate: &G,
) -> (Book, Result<u64, WorkFault>)
    requires { (0 < budget) × (budget ≤ MOST_STEPS) }
    ensures ok { IfOk result.1 (λ done. Worked workers turns done (book_of book) (book_of result.0)) }
    ensures err { IfErr result.1 (λ fault. StopsWork fault × (book_of result.0 ≡ book_of book)) }
{
    let parts = workers as u64;
    match Begun::new(alloc, book) {
        Ok(begun) => work_on::<Brand, G, R>(
            rt,
            alloc,
            begun,
            budget,
            Blank::new(parts),
            parts,
            workers,
            turns,
            gate,
        ),
        Err((book, _)) => (book, Err(WorkFault::Book(BookFault::Memory))),
    }
}

/// The same in a workshop of its own.
fn work_on<L: Shift + Send + Sync, G: Gate + Sync, R: Threads + Wait + Sync>(
    rt: &R,
    alloc: Global,
    begun: Begun,
    budget: u32,
    blank: Blank,
    parts: u64,
    workers: usize,
    turns: u64,
    gate: &G,
) -> (Book, Result<u64, WorkFault>)
    requires budget { (0 < budget) × (budget ≤ MOST_STEPS) }
    requires ledger { (blank.name ≡ L.name) × (blank.parts ≡ L.parts) × (L.parts ≡ L.seats) × (parts ≡ L.seats) }
    requires book { (begun.table ≡ L.table) × (book_of begun.book ≡ L.book) × (entered_in (book_of begun.book).journal ≡ L.began) × (begun.before ≡ L.before) }
    requires most { (workers ≡ L.seats) × (turns ≡ L.most) }
    ensures ok { IfOk result.1 (λ done. Worked workers turns done (book_of begun.book) (book_of result.0)) }
    ensures err { IfErr result.1 (λ fault. StopsWork fault × (book_of result.0 ≡ book_of begun.book)) }
{
    let workshop = Workshop::<L>::new(begun, budget, blank, parts, turns);
    let worked = work_at(rt, alloc, &workshop, workers, turns, gate);
    let (book, given, untouched) = workshop.close();
    match (worked, untouched) {
        (Err(fault), true) => (book, Err(fault)),
        _ => (book, Ok(given)),
    }
}
