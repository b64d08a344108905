// Turns that workers run at the same time.
ghost use Rattle.std.specs.Prelude.{◌≡◌};
ghost use Rattle.book.specs.BookView.{book_of};
ghost use Rattle.book.specs.Entered.{entered_in};

use crate::books::{BUDGET, asked, begun, birth};
use bench::Bench;
use bench::seat::Opening;
use bench::start::Begun;
use bench_work::errand::work_at_bench;
use bench_work::once::work_once;
use bench_work::work::{Gate, NoGate, Worked};
use book::book::Book;
use ids::names::{EventName, MsgId};
use journal::entry::Mark;
use std::marker::Brand;
use std::process::Abort;
use std::sync::Wait;
use std::sync::atomic::{AtomicBool, Ordering};
use std::sync::ledger::Blank;
use std::thread;
use std::thread::Threads;
use std::time::{Clock, Duration};
use world_cells::event::Action;

/// Holds the turn of each question until that of the next one was run, for a second at most.
#[derive(Drop)]
struct Reverse<'a, R: Clock> {
    rt: &'a R,
    /// The event that asked the first question.
    first: u32,
    ran: &'a [AtomicBool],
    gave_up: AtomicBool,
}

impl<R: Clock> Gate for Reverse<'_, R> {
    fn before_turn(&self, message: MsgId) {
        let next = (message.event.0 as usize)
            .wrapping_sub(self.first as usize)
            .wrapping_add(1);
        let Some(next) = self.ran.get(next) else {
            return;
        };
        for _ in 0..1000 {
            if next.load(Ordering::SeqCst) {
                return;
            }
            thread::sleep(self.rt, Duration::from_millis(1));
        }
        self.gave_up.store(true, Ordering::SeqCst);
    }

    fn after_turn(&self, message: MsgId) {
        let mine = (message.event.0 as usize).wrapping_sub(self.first as usize);
        if let Some(mine) = self.ran.get(mine) {
            mine.store(true, Ordering::SeqCst);
        }
    }
}

/// The last entries are live turns of the questions, the last question's first.
fn expect_reversed(rt: &impl Abort, book: &Book, vats: usize) {
    assert!(rt; vats <= 4);
    let entries = book.journal().entries;
    assert!(rt; entries.len() == 4 * vats);
    let mut question = 3 * vats as u32;
    for entry in entries.iter().skip(3 * vats) {
        assert!(rt; entry.mark == Mark::Live);
        assert!(rt; entry.seat > 0);
        match &entry.event.action {
            Action::Turn { message, .. } => assert!(rt; message.event == EventName(question)),
            _ => rt.panic("no turn"),
        }
        question = question.wrapping_sub(1);
    }
}

/// One question waits at each vat, and there are as many workers as vats.
fn overlap<L: Opening + Send + Sync, R: Threads + Wait + Clock + Abort + AllocGlobal + Sync>(
    rt: &R,
    begun: Begun,
    blank: Blank,
    parts: u64,
    vats: usize,
)
    requires ledger { (blank.name ≡ L.name) × (blank.parts ≡ L.parts) × (L.parts ≡ L.seats) × (parts ≡ L.seats) }
    requires book { (begun.table ≡ L.table) × (entered_in (book_of begun.book).journal ≡ L.began) × (begun.before ≡ L.before) }
{
    assert!(rt; vats <= 4);
    let all = [
        AtomicBool::new(false),
        AtomicBool::new(false),
        AtomicBool::new(false),
        AtomicBool::new(false),
    ];
    let Some(ran) = all.get(..vats) else {
        return rt.panic("at most four vats");
    };
    let gate = Reverse {
        rt,
        first: 2 * vats as u32 + 1,
        ran,
        gave_up: AtomicBool::new(false),
    };
    let bench = Bench::<L>::new(begun, BUDGET, blank, parts);
    let worked = work_at_bench(rt, rt.alloc(), &bench, vats, vats as u64, &gate);
    let Ok(Worked { seats, turns }) = worked else {
        return rt.panic("no work");
    };
    assert!(rt; turns == vats as u64);
    assert!(rt; seats.len() == vats);
    for seat in &seats {
        assert!(rt; seat.tally() == 1);
        assert!(rt; seat.turns() == 1);
    }
    assert!(rt; !gate.gave_up.load(Ordering::SeqCst));
    let (book, whole) = bench.close(rt, seats);
    assert!(rt; whole);
    expect_reversed(rt, &book, vats);
}

fn overlap_now<R: Threads + Wait + Clock + Abort + AllocGlobal + Sync>(rt: &R, vats: u32) {
    overlap::<Brand, R>(
        rt,
        begun(rt, asked(rt, vats)),
        Blank::new(8),
        8,
        vats as usize,
    )
}

/// The second turn is run while the first one is held.
#[test]
fn two_overlap(rt: HostRuntime) {
    overlap_now(&rt, 2)
}

/// Four turns are run in reverse order.
#[test]
fn four_in_reverse(rt: HostRuntime) {
    overlap_now(&rt, 4)
}

/// Two new vats have two turns, those of their scripts.
#[test]
fn two_new_vats(rt: HostRuntime) {
    let mut book = Book::new(rt.alloc());
    birth(&rt, &mut book, "a", &[], "", 1);
    birth(&rt, &mut book, "b", &[], "", 2);
    let (book, worked) = work_once(&rt, rt.alloc(), book, BUDGET, 2, 10, &NoGate);
    assert!(rt; matches!(worked, Ok(2)));
    assert!(rt; book.journal().len() == 4);
}

/// No turn is checked out where none is allowed, and no worker starts where none is.
#[test]
fn no_work(rt: HostRuntime) {
    let (book, worked) = work_once(&rt, rt.alloc(), asked(&rt, 2), BUDGET, 2, 0, &NoGate);
    assert!(rt; matches!(worked, Ok(0)));
    assert!(rt; book.journal().len() == 6);
    let (book, worked) = work_once(&rt, rt.alloc(), book, BUDGET, 0, 2, &NoGate);
    assert!(rt; worked.is_err());
    assert!(rt; book.journal().len() == 6);
}
