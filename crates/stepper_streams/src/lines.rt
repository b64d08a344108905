// Lines of a reader.
ghost use Rattle.std.specs.Prelude.{◌≡◌, [], IfOk, IfErr, OnOk, OnErr, MatchOption, true, false};
ghost use Rattle.std.specs.Io.KnownBytes.{Keeps, IsAtEnd};
ghost use Rattle.stepper_streams.specs.declared.lines.TakeFault.TheVariants.{Reader, Memory};

use crate::counted::Counted;
use crate::held::Held;
use crate::line::Line;
use std::alloc::{AllocError, Global};
use std::io::Read;

/// Why a line could not be taken.
#[derive(Clone, Copy)]
pub enum TakeFault {
    /// A read failed.
    Reader,
    /// There was no room for the line.
    Memory,
}

/// The lines of a reader, read through a block of a fixed size. They are counted, and so are those for which there was no room.
///
/// A line that is too long takes no more memory than the longest that is not. After a fault the part of the line that was
/// read is lost.
#[derive(Drop)]
pub struct Lines<R> {
    source: Counted<R>,
    held: Held,
    is_ended: bool,
    alloc: Global,
    taken: u64,
    refused: u64,
}

impl From<AllocError> for TakeFault {
    ghost from_gives = { λ _ f. f ≡ Memory };

    fn from(_error: AllocError) -> Self {
        TakeFault::Memory
    }
}

impl<R> Lines<R> {
    ghost use Rattle.stepper_streams.specs.Lines.{held, reader, reads_failed, lines_refused, is_ended, is_at_hand};

    /// # Errors
    /// Memory ran out for the block.
    pub fn new(alloc: Global, input: R) -> Result<Lines<R>, AllocError>
    where
        R: Drop,
        ensures reader { IfOk result (λ l. reader l ≡ input) }
        ensures none_read { IfOk result (λ l. held l ≡ []) }
        ensures none_failed { IfOk result (λ l. reads_failed l ≡ 0) }
        ensures open { IfOk result (λ l. is_ended l ≡ false) }
        ensures none_refused { IfOk result (λ l. lines_refused l ≡ 0) }
    {
        Ok(Lines {
            source: Counted::new(input),
            held: Held::new(alloc)?,
            is_ended: false,
            alloc,
            taken: 0,
            refused: 0,
        })
    }

    /// How many reads failed, modulo 2^64.
    pub fn failures(&self) -> u64
        ensures { result ≡ reads_failed self.now }
    {
        self.source.failures()
    }

    /// For how many lines there was no room, modulo 2^64.
    pub fn refusals(&self) -> u64
        ensures { result ≡ lines_refused self.now }
    {
        self.refused
    }

    /// Whether the next line, or that there is none, is known without a read.
    pub fn is_at_hand(&self) -> bool
        ensures { result ≡ is_at_hand self.now }
    {
        self.is_ended || self.held.has_line_feed()
    }
}

impl<R: Read> Lines<R> {
    ghost use Rattle.stepper_streams.specs.Lines.{held, reader, reads_failed, lines_taken, lines_refused, is_ended, is_at_hand, ReadsNothing, unread, IsSound, TakesLine, HasNoLine, Faults, CountsTaken, CountsRefused};
    ghost use Rattle.stepper_streams.specs.Counted.{IsOneMore};

    /// Reads once, where nothing is held, and says whether there was more.
    fn read_more(&mut self) -> Result<bool, TakeFault>
        requires { held self.old ≡ [] }
        ensures kept { OnOk result (Keeps (unread R.remaining self.old) (unread R.remaining self.new)) }
        ensures more { IfOk result (λ more. more ≡ true → is_ended self.new ≡ is_ended self.old) }
        ensures none { IfOk result (λ more. more ≡ false → IsAtEnd (unread R.remaining self.new) × (is_ended self.new ≡ true)) }
        ensures none_failed { OnOk result (reads_failed self.new ≡ reads_failed self.old) }
        ensures err { OnErr result (Keeps (unread R.remaining self.old) (unread R.remaining self.new)) }
        ensures none_held { OnErr result (held self.new ≡ []) }
        ensures still_open { OnErr result (is_ended self.new ≡ is_ended self.old) }
        ensures one_failed { OnErr result (IsOneMore (reads_failed self.old) (reads_failed self.new)) }
        ensures reader { IfErr result (λ fault. fault ≡ Reader) }
        ensures taken { lines_taken self.new ≡ lines_taken self.old }
        ensures refused { lines_refused self.new ≡ lines_refused self.old }
    {
        match self.held.read(&mut self.source) {
            Ok(0) => {
                self.is_ended = true;
                Ok(false)
            }
            Ok(_) => Ok(true),
            Err(_) => Err(TakeFault::Reader),
        }
    }

    /// The next line, if there is one, before it is counted.
    fn gather(&mut self) -> Result<Option<Line>, TakeFault>
        requires sound { IsSound R.remaining self.old }
        requires open { is_ended self.old ≡ false }
        ensures ok { IfOk result (λ line. MatchOption line (HasNoLine R.remaining self.old self.new) (TakesLine R.remaining self.old self.new)) }
        ensures err { IfErr result (Faults R.remaining self.old self.new) }
        ensures at_hand { is_at_hand self.old ≡ true → ReadsNothing self.old self.new }
        ensures taken { lines_taken self.new ≡ lines_taken self.old }
        ensures refused { lines_refused self.new ≡ lines_refused self.old }
    {
        let mut line = Line::new(self.alloc);
        if self.held.give_part(&mut line)? {
            return Ok(Some(line.ended()));
        }
        'parts: for _ in 0..u64::MAX {
            if !self.read_more()? {
                return Ok(line.last());
            }
            if self.held.give_part(&mut line)? {
                return Ok(Some(line.ended()));
            }
        }
        // More pieces came than can be counted, and no line feed.
        self.source.count();
        Err(TakeFault::Reader)
    }

    /// Counts a line for which there is no room.
    fn refuse(&mut self) -> TakeFault
        ensures fault { result ≡ Memory }
        ensures rest { self.new ≡ record self.old { refused = self.new.refused } }
        ensures one { IsOneMore (lines_refused self.old) (lines_refused self.new) }
    {
        self.refused = self.refused.wrapping_add(1);
        TakeFault::Memory
    }

    /// Takes the next line, if there is one. Nothing is read where it is at hand.
    ///
    /// # Errors
    /// `Reader` where a read failed: what was read of the line is no line. `Memory` where there was no room for the line, or where as many
    /// were taken as can be counted.
    pub fn next_line(&mut self) -> Result<Option<Line>, TakeFault>
        requires { IsSound R.remaining self.old }
        ensures ok { IfOk result (λ line. MatchOption line (HasNoLine R.remaining self.old self.new) (TakesLine R.remaining self.old self.new)) }
        ensures err { IfErr result (Faults R.remaining self.old self.new) }
        ensures at_hand { is_at_hand self.old ≡ true → ReadsNothing self.old self.new }
        ensures taken { CountsTaken (lines_taken self.old) (lines_taken self.new) result }
        ensures refused { CountsRefused (lines_refused self.old) (lines_refused self.new) result }
    {
        if self.is_ended {
            return Ok(None);
        }
        if self.taken == u64::MAX {
            return Err(self.refuse());
        }
        match self.gather() {
            Ok(Some(line)) => {
                self.taken += 1;
                Ok(Some(line))
            }
            Ok(None) => Ok(None),
            Err(TakeFault::Memory) => Err(self.refuse()),
            Err(TakeFault::Reader) => Err(TakeFault::Reader),
        }
    }
}
