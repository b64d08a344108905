// Replies on their way to a writer.
ghost use Rattle.std.specs.Prelude.{◌≡◌, [], true, false, OnOk, OnErr};
ghost use Rattle.std.specs.Io.KnownBytes.{Appends};
ghost use Rattle.stepper_streams.specs.Counted.{inner, failures, IsOneMore};
ghost use Rattle.stepper_streams.specs.Outlet.{TakesSome};

use crate::counted::Counted;
use itoa::{Buffer, Integer};
use std::alloc::Global;
use std::io::Write;

/// How many bytes may wait before they are written without being asked for.
const MOST_WAITING: usize = 65_536;

/// A write failed, or took nothing.
#[derive(Clone, Copy)]
pub struct WriteFailed;

/// A writer, and what was given to it and waits to be written, which is never much.
///
/// Where a write fails, the outlet is cut: what is given then is lost. So whoever gives a reply piece by piece need not look after each of
/// them: `check` tells it behind the last.
#[derive(Drop)]
pub struct Outlet<W> {
    sink: Counted<W>,
    waiting: Vec<u8>,
    is_cut: bool,
}

/// Writes bytes in as many calls as the writer takes for them.
fn write_whole<W: Write>(sink: &mut Counted<W>, bytes: &[u8]) -> Result<(), WriteFailed>
    ensures ok { OnOk result (Appends (W.contents (inner sink.old)) (W.contents (inner sink.new)) bytes.now) }
    ensures none_failed { OnOk result (failures sink.new ≡ failures sink.old) }
    ensures err { OnErr result (TakesSome (W.contents (inner sink.old)) (W.contents (inner sink.new)) bytes.now) }
    ensures one_failed { OnErr result (IsOneMore (failures sink.old) (failures sink.new)) }
{
    let mut rest = bytes;
    'writes: while !rest.is_empty() {
        match sink.write(rest) {
            Ok(taken) => rest = rest.split_at(taken).1,
            Err(_) => return Err(WriteFailed),
        }
    }
    Ok(())
}

impl<W> Outlet<W> {
    ghost use Rattle.stepper_streams.specs.Outlet.{waiting, writer, writes_failed, is_cut};

    /// An outlet to this writer, in which nothing waits yet.
    pub fn new(alloc: Global, output: W) -> Outlet<W>
        ensures writer { writer result ≡ output }
        ensures none_waits { waiting result ≡ [] }
        ensures none_failed { writes_failed result ≡ 0 }
        ensures open { is_cut result ≡ false }
    {
        Outlet {
            sink: Counted::new(output),
            waiting: Vec::new(alloc),
            is_cut: false,
        }
    }

    /// # Errors
    /// A write failed, and the outlet was not opened again.
    pub fn check(&self) -> Result<(), WriteFailed>
        ensures ok { OnOk result (is_cut self.now ≡ false) }
        ensures err { OnErr result (is_cut self.now ≡ true) }
    {
        if self.is_cut {
            return Err(WriteFailed);
        }
        Ok(())
    }

    /// How many writes failed, modulo 2^64.
    pub fn failures(&self) -> u64
        ensures { result ≡ writes_failed self.now }
    {
        self.sink.failures()
    }

    /// The writer, without what waits.
    pub fn into_writer(self) -> W
        ensures { result ≡ writer self }
    {
        self.sink.into_inner()
    }
}

impl<W: Write> Outlet<W> {
    ghost use Rattle.stepper_streams.specs.Outlet.{waiting, is_cut, Gives, IsCutShort, Tells};

    /// Opens the outlet again behind a write that failed.
    pub fn reopen(&mut self)
        ensures gives { Gives W.contents self.old self.new [] }
        ensures open { is_cut self.new ≡ false }
    {
        self.is_cut = false;
    }

    /// Writes what waits. Nothing waits then: what did not go out is lost, so that nothing goes out twice.
    fn write_waiting(&mut self) -> Result<(), WriteFailed>
        ensures ok { OnOk result (Gives W.contents self.old self.new []) }
        ensures none_waits { waiting self.new ≡ [] }
        ensures err { OnErr result (IsCutShort W.contents self.old self.new []) }
        ensures cut { is_cut self.new ≡ is_cut self.old }
    {
        let written = write_whole(&mut self.sink, self.waiting.as_slice());
        self.waiting.clear();
        written
    }

    /// Writes what waits, and has the writer pass on all that it holds back.
    fn pass_on(&mut self) -> Result<(), WriteFailed>
        ensures ok { OnOk result (Gives W.contents self.old self.new []) }
        ensures none_waits { waiting self.new ≡ [] }
        ensures err { OnErr result (IsCutShort W.contents self.old self.new []) }
        ensures cut { is_cut self.new ≡ is_cut self.old }
    {
        self.write_waiting()?;
        match self.sink.flush() {
            Ok(()) => Ok(()),
            Err(_) => Err(WriteFailed),
        }
    }

    /// Writes what waits, and has the writer pass on all that it holds back.
    ///
    /// # Errors
    /// A write failed, now or before: a beginning of what was given went out, and the rest is lost.
    pub fn send(&mut self) -> Result<(), WriteFailed>
        ensures tells { Tells W.contents self.old self.new [] }
        ensures ok { OnOk result (is_cut self.new ≡ false) }
        ensures err { OnErr result (is_cut self.new ≡ true) }
        ensures none_waits { OnOk result (waiting self.new ≡ []) }
    {
        if self.is_cut {
            return Err(WriteFailed);
        }
        match self.pass_on() {
            Ok(()) => Ok(()),
            Err(failed) => {
                self.is_cut = true;
                Err(failed)
            }
        }
    }

    /// Writes what waits, where that is many bytes.
    fn write_many(&mut self) -> Result<(), WriteFailed>
        ensures ok { OnOk result (Gives W.contents self.old self.new []) }
        ensures err { OnErr result (IsCutShort W.contents self.old self.new []) }
        ensures cut { is_cut self.new ≡ is_cut self.old }
    {
        if self.waiting.len() < MOST_WAITING {
            return Ok(());
        }
        self.write_waiting()
    }

    /// Lets bytes wait until they are sent or are many.
    fn offer(&mut self, bytes: &[u8]) -> Result<(), WriteFailed>
        ensures ok { OnOk result (Gives W.contents self.old self.new bytes.now) }
        ensures err { OnErr result (IsCutShort W.contents self.old self.new bytes.now) }
        ensures cut { is_cut self.new ≡ is_cut self.old }
    {
        if bytes.len() >= MOST_WAITING {
            return self.write_now(bytes);
        }
        self.write_many()?;
        match self.waiting.extend_from_slice(bytes) {
            Ok(()) => Ok(()),
            // Without memory to let them wait they are written now.
            Err(_) => self.write_now(bytes),
        }
    }

    fn write_now(&mut self, bytes: &[u8]) -> Result<(), WriteFailed>
        ensures ok { OnOk result (Gives W.contents self.old self.new bytes.now) }
        ensures err { OnErr result (IsCutShort W.contents self.old self.new bytes.now) }
        ensures cut { is_cut self.new ≡ is_cut self.old }
    {
        self.write_waiting()?;
        write_whole(&mut self.sink, bytes)
    }

    /// Gives bytes, which wait until they are sent or are many. Where a write fails, of what waited, with these bytes behind it, a
    /// beginning went out, and the rest is lost.
    pub fn give(&mut self, bytes: &[u8])
        ensures { Tells W.contents self.old self.new bytes.now }
    {
        if self.is_cut {
            return;
        }
        match self.offer(bytes) {
            Ok(()) => {}
            Err(WriteFailed) => self.is_cut = true,
        }
    }

    /// Gives a text.
    pub fn put(&mut self, text: &str)
        ensures { Tells W.contents self.old self.new text.now }
    {
        self.give(text.as_bytes());
    }

    /// Gives a number in decimal digits.
    pub fn put_number<I: Integer>(&mut self, number: I)
        ensures { Tells W.contents self.old self.new (I.text number) }
    {
        let mut digits = Buffer::new();
        self.put(digits.format(number));
    }
}
