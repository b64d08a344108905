// A line, as its bytes are gathered.
ghost use Rattle.std.specs.Prelude.{◌≡◌, ◌+◌, ◌<◌, ◌≤◌, [], ◌++◌, length, OnOk, MatchOption, false, vec_len, vec_capacity};
ghost use Rattle.stepper_commands.specs.Lines.{without_return};
ghost use Rattle.stepper_commands.specs.declared.command.TheConstants.{LONGEST_LINE};

use std::alloc::{AllocError, Global};
use stepper_commands::command::LONGEST_LINE;

/// A line of an input, without its end.
#[derive(Drop)]
pub struct Line {
    /// Its bytes; none where it is too long.
    pub text: Vec<u8>,
    /// Whether more than `LONGEST_LINE` bytes stand before its end.
    pub is_long: bool,
    // However long the line is, it has no more memory than the longest that is kept.
    ghost is_small: { vec_capacity text ≤ LONGEST_LINE },
}

/// Puts a piece behind a text that has room for it.
fn put(text: &mut Vec<u8>, piece: &[u8])
    requires { vec_len text.old + length piece.now ≤ vec_capacity text.old }
    ensures items { text.new.items ≡ text.old.items ++ piece.now }
    ensures capacity { vec_capacity text.new ≡ vec_capacity text.old }
{
    for byte in piece {
        text.push_reserved(*byte);
    }
}

/// Makes room for more bytes: at least twice what there was, so that a line that comes byte by byte is seldom moved, and
/// never more than the longest line needs.
fn make_room(text: &mut Vec<u8>, more: usize) -> Result<(), AllocError>
    requires fits { vec_len text.old + more ≤ LONGEST_LINE }
    requires small { vec_capacity text.old ≤ LONGEST_LINE }
    ensures items { text.new.items ≡ text.old.items }
    ensures len { vec_len text.new ≡ vec_len text.old }
    ensures small { vec_capacity text.new ≤ LONGEST_LINE }
    ensures room { OnOk result (vec_len text.new + more ≤ vec_capacity text.new) }
{
    let wanted = text.len() + more;
    if wanted <= text.capacity() {
        return Ok(());
    }
    let room = wanted.max(2 * text.capacity()).min(LONGEST_LINE);
    text.reserve_exact(room - text.len())
}

impl Line {
    ghost use Rattle.stepper_streams.specs.Pieces.{Gathers, GathersMore};

    pub(crate) fn new(alloc: Global) -> Line
        ensures { Gathers result [] }
    {
        Line {
            text: Vec::new(alloc),
            is_long: false,
        }
    }

    /// Adds a piece. Of a line that is too long nothing is kept.
    pub(crate) fn add(&mut self, piece: &[u8]) -> Result<(), AllocError>
        ensures { OnOk result (GathersMore self.old self.new piece.now) }
    {
        if self.is_long || LONGEST_LINE - self.text.len() < piece.len() {
            self.text.clear();
            self.is_long = true;
            return Ok(());
        }
        make_room(&mut self.text, piece.len())?;
        put(&mut self.text, piece);
        Ok(())
    }

    /// The line when its line feed was found: a carriage return before it is no part of it.
    pub(crate) fn ended(mut self) -> Line
        ensures text { result.text.items ≡ without_return self.text.items }
        ensures long { result.is_long ≡ self.is_long }
    {
        if let Some(b'\r') = self.text.last() {
            self.text.pop();
        }
        self
    }

    /// The line where the input ended behind what was gathered, if that is any.
    pub(crate) fn last(self) -> Option<Line>
        ensures { MatchOption result ((self.is_long ≡ false) × (self.text.items ≡ [])) (λ line. (line ≡ self) × (self.is_long ≡ false → 0 < length self.text.items)) }
    {
        if !self.is_long && self.text.is_empty() {
            return None;
        }
        Some(self)
    }
}
