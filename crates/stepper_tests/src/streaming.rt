// Replies that go out piece by piece: each step's of a run, and those that are as large as the world.

use crate::fakes::{dripping, ending_of};
use book::book::Book;
use book_crew::crew::{Crew, Order};
use book_refusals::fault::WorkFault;
use std::alloc::Global;
use std::io;
use std::io::{Error, ErrorKind, Write};
use std::process::Abort;
use stepper::{Limits, run};
use stepper_streams::lines::Lines;
use stepper_streams::outlet::Outlet;

/// Keeps what goes out, with a bar for each flush, and how much came at once. Fails behind so many flushes.
#[derive(Drop)]
struct Basin {
    taken: Vec<u8>,
    /// The most bytes of one write.
    largest: usize,
    flushes_left: u32,
}

impl Write for Basin {
    fn write(&mut self, bytes: &[u8]) -> io::Result<usize> {
        if self.flushes_left == 0 {
            return Err(Error::from(ErrorKind::Other));
        }
        self.taken.extend_from_slice(bytes)?;
        self.largest = self.largest.max(bytes.len());
        Ok(bytes.len())
    }

    fn flush(&mut self) -> io::Result<()> {
        if self.flushes_left == 0 {
            return Err(Error::from(ErrorKind::Other));
        }
        self.flushes_left -= 1;
        self.taken.extend_from_slice(b"|")?;
        Ok(())
    }
}

/// A crew of nobody, which counts how often it was asked.
#[derive(Clone, Copy)]
struct Asked {
    times: u32,
}

impl Crew for Asked {
    fn work(
        &mut self,
        _alloc: Global,
        book: Book,
        _order: Order,
    ) -> (Book, Result<u64, WorkFault>) {
        self.times = self.times.saturating_add(1);
        (book, Err(WorkFault::NoWorker))
    }
}

/// What came of commands.
#[derive(Drop)]
struct Outcome {
    basin: Basin,
    ending: &'static str,
    /// How often workers were to do something.
    asked: u32,
}

/// Runs commands over a writer that fails behind so many flushes.
fn outcome_of(rt: &(impl Abort + AllocGlobal), commands: &str, flushes: u32) -> Outcome {
    let alloc = rt.alloc();
    let limits = Limits {
        budget: 10_000,
        workers: 8,
    };
    let basin = Basin {
        taken: Vec::new(alloc),
        largest: 0,
        flushes_left: flushes,
    };
    let mut source = Lines::new(alloc, dripping(commands.as_bytes(), 8_192)).expect(
        rt,
        "no memory",
    );
    let mut sink = Outlet::new(alloc, basin);
    let mut crew = Asked { times: 0 };
    let ending = ending_of(run(alloc, &mut source, &mut sink, limits, &mut crew));
    Outcome {
        basin: sink.into_writer(),
        ending,
        asked: crew.times,
    }
}

/// Two vats whose scripts are run, and then workers.
const TWO: &str = "vat a () 0\nvat b () 0\nrun 4\nwork 1 1\n";

/// What a step told goes out before the next one begins. The first flush comes before the first read, the last ones at the end.
#[test]
fn each_step_of_a_run_goes_out(rt: HostRuntime) {
    let outcome = outcome_of(&rt, TWO, u32::MAX);
    let wanted =
        "|ok e1 e1.m0\nok e2 e2.m0\nok e3 value null\n|ok e4 value null\n|idle\nno S7 NoWorker\n||";
    let taken = str::from_utf8(&outcome.basin.taken).expect(&rt, "no text");
    assert_eq!(rt; taken, wanted);
    assert_eq!(rt; outcome.ending, "refused");
    assert_eq!(rt; outcome.asked, 1);
}

/// Where nobody reads any more, this is noticed at the next step's reply, and no command is done behind it.
#[test]
fn a_run_ends_where_nobody_reads(rt: HostRuntime) {
    let outcome = outcome_of(&rt, TWO, 2);
    let taken = str::from_utf8(&outcome.basin.taken).expect(&rt, "no text");
    assert_eq!(rt; taken, "|ok e1 e1.m0\nok e2 e2.m0\nok e3 value null\n|");
    assert_eq!(rt; outcome.ending, "writer");
    assert_eq!(rt; outcome.asked, 0);
}

/// Vats with a large text each, and then what there is.
fn large_world(rt: &(impl Abort + AllocGlobal), vats: u32) -> String {
    let alloc = rt.alloc();
    let text = "x".repeat(alloc, 60_000).expect(rt, "no memory");
    let mut commands = String::new(alloc);
    for number in 0..vats {
        let vat = format!(in alloc; "vat v{number} () 1\ndef t := \"{text}\"\n");
        commands
            .push_str(vat.expect(rt, "no memory").as_str())
            .expect(rt, "no memory");
    }
    commands.push_str("run 100\nshow\n").expect(rt, "no memory");
    commands
}

/// The world is many times as large as the block that holds replies, and is never held whole.
#[test]
fn a_large_world_is_shown_piece_by_piece(rt: HostRuntime) {
    let outcome = outcome_of(&rt, &large_world(&rt, 20), u32::MAX);
    assert_eq!(rt; outcome.ending, "accepted");
    assert!(rt; outcome.basin.taken.len() > 1_200_000);
    assert!(rt; outcome.basin.largest < 131_072);
}
