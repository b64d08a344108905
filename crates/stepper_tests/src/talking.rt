// An author who waits for each reply.

use crate::fakes::{ORDER, SUM, Talk, ending_of, replies_within};
use book_crew::crew::Nobody;
use std::alloc::Global;
use std::io;
use std::io::{Error, ErrorKind, Read, Write};
use std::process::Abort;
use std::sync::Arc;
use std::sync::atomic::{AtomicU64, Ordering};
use stepper::{Limits, run};
use stepper_streams::lines::Lines;
use stepper_streams::outlet::Outlet;

/// Gives a command only where all earlier ones were answered, and fails otherwise.
#[derive(Drop)]
struct Author {
    talk: Talk,
    /// How many commands were given.
    given: usize,
    /// How many bytes answer them.
    wanted: u64,
    heard: Arc<AtomicU64, Global>,
}

impl Read for Author {
    fn read(&mut self, buf: &mut [u8]) -> io::Result<usize> {
        if self.heard.load(Ordering::SeqCst) != self.wanted {
            return Err(Error::from(ErrorKind::Other));
        }
        let Some((command, reply)) = self.talk.get(self.given) else {
            return Ok(0);
        };
        let count = command.len().min(buf.len());
        buf[..count].copy_from_slice(&command.as_bytes()[..count]);
        self.wanted = self.wanted.wrapping_add(reply.len() as u64);
        self.given = self.given.wrapping_add(1);
        Ok(count)
    }
}

/// Counts the bytes of the replies.
#[derive(Drop)]
struct Ear {
    heard: Arc<AtomicU64, Global>,
}

impl Write for Ear {
    fn write(&mut self, bytes: &[u8]) -> io::Result<usize> {
        self.heard.fetch_add(bytes.len() as u64, Ordering::SeqCst);
        Ok(bytes.len())
    }

    fn flush(&mut self) -> io::Result<()> {
        Ok(())
    }
}

/// Each command is answered before more is read than the block that holds it, up to the last.
#[test]
fn replies_come_before_the_next_read(rt: HostRuntime) {
    let alloc = rt.alloc();
    for (talk, ending) in [(SUM, "accepted"), (ORDER, "refused")] {
        let heard = Arc::new(alloc, AtomicU64::new(0)).expect(&rt, "no memory");
        let author = Author {
            talk,
            given: 0,
            wanted: 0,
            heard: Arc::try_clone(&heard).expect(&rt, "no memory"),
        };
        let mut source = Lines::new(alloc, author).expect(&rt, "no memory");
        let ear = Ear {
            heard: Arc::try_clone(&heard).expect(&rt, "no memory"),
        };
        let mut sink = Outlet::new(alloc, ear);
        let limits = Limits {
            budget: 10_000,
            workers: 8,
        };
        let ended = run(alloc, &mut source, &mut sink, limits, &mut Nobody);
        assert!(rt; ending_of(ended) == ending);
        let replies = replies_within(&rt, talk, usize::MAX);
        assert!(rt; heard.load(Ordering::SeqCst) == replies.len() as u64);
    }
}
