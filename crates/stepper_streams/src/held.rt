// The bytes that were read and not taken yet.
ghost use Rattle.std.specs.Prelude.{◌≡◌, ◌+◌, ◌-◌, ◌<◌, ◌≤◌, [], length, take, drop, IfOk, OnErr, is_some, vec_len};
ghost use Rattle.std.specs.List.{position};
ghost use Rattle.stepper_commands.specs.Lines.{is_line_feed};
ghost use Rattle.stepper_streams.specs.Counted.{inner, failures, Counts};
ghost use Rattle.std.specs.Io.KnownBytes.{Keeps, Consumes, IsAtEnd};

use crate::counted::Counted;
use crate::line::Line;
use std::alloc::{AllocError, Global};
use std::io;
use std::io::Read;

/// How many bytes one read may give.
const BLOCK: usize = 8_192;

/// The bytes of `block` from `start` to `end` were read and not taken yet.
#[derive(Drop)]
pub(crate) struct Held {
    block: Vec<u8>,
    start: usize,
    end: usize,
    ghost ordered: { start ≤ end },
    ghost within: { end ≤ vec_len block },
    ghost has_room: { 0 < vec_len block },
}

impl Held {
    ghost use Rattle.stepper_streams.specs.Held.{held_bytes};
    ghost use Rattle.stepper_streams.specs.Pieces.{GivesPart};

    pub(crate) fn new(alloc: Global) -> Result<Held, AllocError>
        ensures { IfOk result (λ h. held_bytes h ≡ []) }
    {
        let mut block = Vec::with_capacity(alloc, BLOCK)?;
        block.resize(BLOCK, 0)?;
        Ok(Held {
            block,
            start: 0,
            end: 0,
        })
    }

    pub(crate) fn as_slice(&self) -> &[u8]
        ensures { result.now ≡ held_bytes self.now }
    {
        let (start, end) = (self.start, self.end);
        let all = self.block.as_slice();
        &all[start..end]
    }

    /// Lets go of the first bytes.
    pub(crate) fn take(&mut self, count: usize)
        requires { count ≤ length (held_bytes self.old) }
        ensures { held_bytes self.new ≡ drop count (held_bytes self.old) }
    {
        self.start += count;
    }

    /// Reads once, in place of what is held, and says how many bytes came: none only at the end.
    pub(crate) fn read<R: Read>(&mut self, source: &mut Counted<R>) -> io::Result<usize>
        ensures ok { IfOk result (λ n. Consumes (R.remaining (inner source.old)) (R.remaining (inner source.new)) (held_bytes self.new)) }
        ensures count { IfOk result (λ n. n ≡ length (held_bytes self.new)) }
        ensures end { IfOk result (λ n. n ≡ 0 → IsAtEnd (R.remaining (inner source.new))) }
        ensures err { OnErr result (Keeps (R.remaining (inner source.old)) (R.remaining (inner source.new))) }
        ensures none { OnErr result (held_bytes self.new ≡ []) }
        ensures counts { Counts (failures source.old) (failures source.new) result }
    {
        self.start = 0;
        self.end = 0;
        let n = read_over(source, &mut self.block)?;
        self.end = n;
        Ok(n)
    }

    /// Whether a line feed is held.
    pub(crate) fn has_line_feed(&self) -> bool
        ensures { result ≡ is_some (position is_line_feed (held_bytes self.now)) }
    {
        line_feed_in(self.as_slice()).is_some()
    }

    /// Moves the bytes before the first line feed into a line, and lets go of that too; where there is none it moves all.
    /// Says whether there was one.
    pub(crate) fn give_part(&mut self, line: &mut Line) -> Result<bool, AllocError>
        ensures ok { IfOk result (GivesPart (held_bytes self.old) (held_bytes self.new) line.old line.new) }
        ensures err { OnErr result (held_bytes self.new ≡ held_bytes self.old) }
    {
        let bytes = self.as_slice();
        match line_feed_in(bytes) {
            Some(at) => {
                line.add(&bytes[..at])?;
                self.take(at + 1);
                Ok(true)
            }
            None => {
                let all = bytes.len();
                line.add(bytes)?;
                self.take(all);
                Ok(false)
            }
        }
    }
}

fn line_feed_in(bytes: &[u8]) -> Option<usize>
    ensures { result ≡ position is_line_feed bytes.now }
{
    bytes.iter().position(|b| *b == b'\n')
}

/// One read, from the front of a block on.
fn read_over<R: Read>(source: &mut Counted<R>, block: &mut Vec<u8>) -> io::Result<usize>
    ensures len { vec_len block.new ≡ vec_len block.old }
    ensures bound { IfOk result (λ n. n ≤ vec_len block.new) }
    ensures ok { IfOk result (λ n. Consumes (R.remaining (inner source.old)) (R.remaining (inner source.new)) (take n block.new.items)) }
    ensures end { IfOk result (λ n. n ≡ 0 → 0 < vec_len block.old → IsAtEnd (R.remaining (inner source.new))) }
    ensures err { OnErr result (Keeps (R.remaining (inner source.old)) (R.remaining (inner source.new))) }
    ensures counts { Counts (failures source.old) (failures source.new) result }
{
    source.read(block.as_mut_slice())
}
