//! Work at a Bench where others may be too.
ghost use Rattle.std.specs.Prelude.{◌≡◌, ◌≤◌, [], All, IfOk, IfErr, sum_by};
ghost use Rattle.bench.specs.Seats.{turns_in};
ghost use Rattle.bench.specs.SharedBook.{events_of};
ghost use Rattle.bench_work.specs.Seats.{AreWork};
ghost use Rattle.book_crew.specs.Work.{StopsWork};

use crate::work::{Gate, Worked, work_at};
use crate::workplace::Workplace;
use bench::Bench;
use bench::instruction::Instruction;
use bench::pick::Pick;
use bench::seat::{Opening, Seat};
use book_refusals::fault::{BookFault, WorkFault};
use ids::names::EventName;
use std::alloc::Global;
use std::sync::Wait;
use std::sync::atomic::AtomicU64;
use std::thread::Threads;
use turn::ticket::{Ran, Ticket};

/// A Bench, with the count of the turns that may still be checked out for this work. It is read and lowered under the lock of the Bench.
#[derive(Drop)]
pub(crate) struct Errand<'a, L: Opening> {
    bench: &'a Bench<L>,
    left: AtomicU64,
}

impl<'a, L: Opening> Errand<'a, L> {
    pub(crate) fn new(bench: &'a Bench<L>, turns: u64) -> Errand<'a, L> {
        Errand {
            bench,
            left: AtomicU64::new(turns),
        }
    }
}

impl<L: Opening> Workplace<L> for Errand<'_, L> {
    fn seat<R: Wait>(&self, rt: &R) -> Option<Seat<L>> {
        self.bench.seat(rt)
    }

    fn checkout<R: Wait>(&self, rt: &R, seat: &mut Seat<L>) -> Result<Pick, BookFault> {
        self.bench.checkout_one(rt, &self.left, seat)
    }

    fn give<R: Wait>(
        &self,
        rt: &R,
        ticket: Ticket<Ran>,
        seat: &mut Seat<L>,
    ) -> Result<EventName, (Ticket<Ran>, BookFault)> {
        self.bench.give(rt, ticket, seat)
    }

    fn abandon<R: Wait>(&self, rt: &R, number: EventName, seat: &mut Seat<L>) {
        let _ = self.bench.author(rt, Instruction::Abandon(number), seat);
    }
}

/// Has workers, as many as this if they can be started, do what may be done at a Bench until this many turns were checked out or nothing may be
/// done. Each has a seat of its own. Others may be at the Bench: what is said is said of the workers' seats.
///
/// # Errors
/// `Memory`, where there is none for the list of their seats; `NoWorker`, where none could be started.
pub fn work_at_bench<L: Opening + Send + Sync, G: Gate + Sync, R: Threads + Wait + Sync>(
    rt: &R,
    alloc: Global,
    bench: &Bench<L>,
    workers: usize,
    turns: u64,
    gate: &G,
) -> Result<Worked<L>, WorkFault>
    ensures open { IfOk result (λ w. All (λ s. (s.deeds.tickets ≡ []) × AreWork (events_of s.deeds)) w.seats.items) }
    ensures turns { IfOk result (λ w. (w.turns ≡ sum_by (λ s. turns_in (events_of s.deeds)) w.seats.items) × (w.turns ≤ turns)) }
    ensures err { IfErr result (λ fault. StopsWork fault) }
{
    work_at(rt, alloc, &Errand::new(bench, turns), workers, turns, gate)
}
