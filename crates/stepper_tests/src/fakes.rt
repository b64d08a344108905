// Readers and writers that give and take little, or fail, and sessions that are run over them.

use book_crew::crew::Nobody;
use std::io;
use std::io::{Error, ErrorKind, Read, Write};
use std::process::Abort;
use stepper::{Fault, Limits, Summary, run};
use stepper_streams::lines::Lines;
use stepper_streams::outlet::Outlet;

/// Gives up to `most` bytes in a call, and fails behind so many calls.
#[derive(Drop)]
pub(crate) struct Drip<'a> {
    pub bytes: &'a [u8],
    pub most: usize,
    pub calls_left: u32,
}

impl Read for Drip<'_> {
    fn read(&mut self, buf: &mut [u8]) -> io::Result<usize> {
        if self.calls_left == 0 {
            return Err(Error::from(ErrorKind::Other));
        }
        self.calls_left -= 1;
        let count = self.most.min(self.bytes.len()).min(buf.len());
        buf[..count].copy_from_slice(&self.bytes[..count]);
        self.bytes = &self.bytes[count..];
        Ok(count)
    }
}

/// A reader that gives all its bytes, up to `most` in a call.
pub(crate) fn dripping(bytes: &[u8], most: usize) -> Drip<'_> {
    Drip {
        bytes,
        most,
        calls_left: u32::MAX,
    }
}

/// Takes up to `most` bytes in a call and `room` in all, and fails behind so many calls, flushes among them.
#[derive(Drop)]
pub(crate) struct Tap {
    pub taken: Vec<u8>,
    pub most: usize,
    pub room: usize,
    pub calls_left: u32,
}

impl Tap {
    fn call(&mut self) -> io::Result<()> {
        if self.calls_left == 0 {
            return Err(Error::from(ErrorKind::Other));
        }
        self.calls_left -= 1;
        Ok(())
    }
}

impl Write for Tap {
    fn write(&mut self, bytes: &[u8]) -> io::Result<usize> {
        self.call()?;
        let count = self.most.min(self.room).min(bytes.len());
        self.taken.extend_from_slice(&bytes[..count])?;
        self.room -= count;
        Ok(count)
    }

    fn flush(&mut self) -> io::Result<()> {
        self.call()
    }
}

/// A writer that takes all bytes, up to `most` in a call.
pub(crate) fn tapping(rt: &impl AllocGlobal, most: usize) -> Tap {
    Tap {
        taken: Vec::new(rt.alloc()),
        most,
        room: usize::MAX,
        calls_left: u32::MAX,
    }
}

/// How a run ended.
pub(crate) fn ending_of(ended: Result<Summary, Fault>) -> &'static str {
    match ended {
        Ok(summary) if summary.refused => "refused",
        Ok(_) => "accepted",
        Err(Fault::Reader) => "reader",
        Err(Fault::Writer) => "writer",
        Err(Fault::Memory) => "memory",
    }
}

/// What went out in a run, how it ended, and how many reads and writes failed.
pub(crate) fn told(rt: &(impl Abort + AllocGlobal), input: Drip<'_>, output: Tap) -> String {
    let alloc = rt.alloc();
    let limits = Limits {
        budget: 10_000,
        workers: 8,
    };
    let mut source = Lines::new(alloc, input).expect(rt, "no memory");
    let mut sink = Outlet::new(alloc, output);
    let ended = ending_of(run(alloc, &mut source, &mut sink, limits, &mut Nobody));
    let reads = source.failures();
    let writes = sink.failures();
    let taken = sink.into_writer().taken;
    let text = str::from_utf8(&taken).expect(rt, "no text");
    format!(in alloc; "{text}|{ended} {reads} {writes}").expect(rt, "no memory")
}

/// Commands, each with the lines of its script and its reply.
pub(crate) type Talk = &'static [(&'static str, &'static str)];

/// The commands of a talk.
pub(crate) fn commands_of(rt: &(impl Abort + AllocGlobal), talk: Talk) -> String {
    let mut commands = String::new(rt.alloc());
    for (command, _) in talk {
        commands.push_str(command).expect(rt, "no memory");
    }
    commands
}

/// The replies to those commands of a talk that stand in its first bytes.
pub(crate) fn replies_within(rt: &(impl Abort + AllocGlobal), talk: Talk, bytes: usize) -> String {
    let mut replies = String::new(rt.alloc());
    let mut left = bytes;
    for (command, reply) in talk {
        if left < command.len() {
            break;
        }
        left -= command.len();
        replies.push_str(reply).expect(rt, "no memory");
    }
    replies
}

/// A question, and what came of it.
pub(crate) const SUM: Talk = &[
    ("vat a () 0\n", "ok e1 e1.m0\n"),
    ("turn e1.m0\n", "ok e2 value null\n"),
    ("ask a 2 + 3\n", "ok e3 e3.m0\n"),
    ("turn e3.m0\n", "ok e4 value 5\n"),
];

/// A message that was passed on, and waits for one that was sent before it.
pub(crate) const ORDER: Talk = &[
    (
        "vat carol () 1\ndef _ { method x() { 1 } method w() { 2 } }\n",
        "ok e1 e1.m0\n",
    ),
    ("turn e1.m0\n", "ok e2 value <e2.o0>\n"),
    (
        "vat bob () 1\ndef _ { method y(c) { c <- w() } }\n",
        "ok e3 e3.m0\n",
    ),
    ("turn e3.m0\n", "ok e4 value <e4.o0>\n"),
    ("vat alice (carol bob) 0\n", "ok e5 e5.m0\n"),
    ("turn e5.m0\n", "ok e6 value null\n"),
    ("ask alice carol <- x(); bob <- y(carol)\n", "ok e7 e7.m0\n"),
    ("turn e7.m0\n", "ok e8 value <e8.p1>\n"),
    ("arrive e8.m1\n", "ok e9\n"),
    ("turn e8.m1\n", "ok e10 value <e10.p0>\n"),
    ("arrive e10.m0\n", "ok e11\n"),
    ("turn e10.m0\n", "no B6 Before e8.m0\n"),
    ("arrive e8.m0\n", "ok e12\n"),
    ("turn e8.m0\n", "ok e13 value 1\n"),
    ("turn e10.m0\n", "ok e14 value 2\n"),
];
