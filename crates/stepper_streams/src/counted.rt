// A reader or a writer whose failed calls are counted.
ghost use Rattle.std.specs.Prelude.{◌≡◌, ◌<◌, length, IfOk, Ok};
ghost use Rattle.std.specs.Io.{ReadsAtMost, WritesAtMost};
ghost use Rattle.std.specs.Io.KnownBytes.{Keeps, ReadConsumes, WriteAppends};

use std::io;
use std::io::{Error, ErrorKind, Read, Write};

/// How often a call that a signal interrupts is made again.
const TRIES: u32 = 1_000;

/// A reader or a writer, with the number of its calls that failed, modulo 2^64.
///
/// A call that a signal interrupts is made again, and fails only where that comes of it each time. A write that takes no
/// byte of some fails.
#[derive(Drop)]
pub struct Counted<T> {
    inner: T,
    failures: u64,
}

impl<T> Counted<T> {
    ghost use Rattle.stepper_streams.specs.Counted.{failures, inner, IsOneMore};

    /// Counts from here on which calls of a reader or writer fail.
    pub fn new(wrapped: T) -> Self
        ensures inner { inner result ≡ wrapped }
        ensures failures { failures result ≡ 0 }
    {
        Counted {
            inner: wrapped,
            failures: 0,
        }
    }

    /// How many calls failed, modulo 2^64.
    pub fn failures(&self) -> u64
        ensures { result ≡ failures self.now }
    {
        self.failures
    }

    /// The reader or writer itself.
    pub fn into_inner(self) -> T
        ensures { result ≡ inner self }
    {
        self.inner
    }

    /// Counts a call that failed.
    pub(crate) fn count(&mut self)
        ensures inner { inner self.new ≡ inner self.old }
        ensures failures { IsOneMore (failures self.old) (failures self.new) }
    {
        self.failures = self.failures.wrapping_add(1);
    }
}

fn is_interrupted(error: &Error) -> bool {
    error.kind() == ErrorKind::Interrupted
}

/// One read, made again where a signal interrupts it.
fn read_again<R: Read>(reader: &mut R, buf: &mut [u8]) -> io::Result<usize>
    ensures bound { ReadsAtMost result buf.new }
    ensures bytes { ReadConsumes (R.remaining reader.old) (R.remaining reader.new) result buf.new }
{
    'tries: for _ in 0..TRIES {
        match reader.read(buf) {
            Ok(n) => return Ok(n),
            Err(error) => {
                if !is_interrupted(&error) {
                    return Err(error);
                }
            }
        }
    }
    Err(Error::from(ErrorKind::Interrupted))
}

/// One write, made again where a signal interrupts it.
fn write_again<W: Write>(writer: &mut W, bytes: &[u8]) -> io::Result<usize>
    ensures bound { WritesAtMost result bytes.now }
    ensures bytes { WriteAppends (W.contents writer.old) (W.contents writer.new) result bytes.now }
    ensures some { IfOk result (λ n. 0 < length bytes.now → 0 < n) }
{
    'tries: for _ in 0..TRIES {
        match writer.write(bytes) {
            Ok(n) => {
                if n == 0 && !bytes.is_empty() {
                    return Err(Error::from(ErrorKind::WriteZero));
                }
                return Ok(n);
            }
            Err(error) => {
                if !is_interrupted(&error) {
                    return Err(error);
                }
            }
        }
    }
    Err(Error::from(ErrorKind::Interrupted))
}

/// One flush, made again where a signal interrupts it.
fn flush_again<W: Write>(writer: &mut W) -> io::Result<()>
    ensures { Keeps (W.contents writer.old) (W.contents writer.new) }
{
    'tries: for _ in 0..TRIES {
        match writer.flush() {
            Ok(()) => return Ok(()),
            Err(error) => {
                if !is_interrupted(&error) {
                    return Err(error);
                }
            }
        }
    }
    Err(Error::from(ErrorKind::Interrupted))
}

impl<R: Read> Read for Counted<R> {
    ghost use Rattle.stepper_streams.specs.Counted.{failures, inner, Counts};

    ghost remaining = { λ c. R.remaining (inner c) };

    fn read(&mut self, buf: &mut [u8]) -> io::Result<usize>
        ensures bound { ReadsAtMost result buf.new }
        ensures bytes { ReadConsumes (R.remaining (inner self.old)) (R.remaining (inner self.new)) result buf.new }
        ensures count { Counts (failures self.old) (failures self.new) result }
    {
        match read_again(&mut self.inner, buf) {
            Ok(n) => Ok(n),
            Err(error) => {
                self.count();
                Err(error)
            }
        }
    }
}

impl<W: Write> Write for Counted<W> {
    ghost use Rattle.stepper_streams.specs.Counted.{failures, inner, Counts};

    ghost contents = { λ c. W.contents (inner c) };

    fn write(&mut self, bytes: &[u8]) -> io::Result<usize>
        ensures bound { WritesAtMost result bytes.now }
        ensures bytes { WriteAppends (W.contents (inner self.old)) (W.contents (inner self.new)) result bytes.now }
        ensures some { IfOk result (λ n. 0 < length bytes.now → 0 < n) }
        ensures count { Counts (failures self.old) (failures self.new) result }
    {
        match write_again(&mut self.inner, bytes) {
            Ok(n) => Ok(n),
            Err(error) => {
                self.count();
                Err(error)
            }
        }
    }

    fn flush(&mut self) -> io::Result<()>
        ensures bytes { Keeps (W.contents (inner self.old)) (W.contents (inner self.new)) }
        ensures count { Counts (failures self.old) (failures self.new) result }
    {
        match flush_again(&mut self.inner) {
            Ok(()) => Ok(()),
            Err(error) => {
                self.count();
                Err(error)
            }
        }
    }
}
