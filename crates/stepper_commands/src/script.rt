// The script lines of a vat.
ghost use Rattle.std.specs.Prelude.{◌≡◌, ◌++◌, ℕ, List, [], ◌∷◌, IfOk, OnOk, cond, None, string_bytes};
ghost use Rattle.stepper_commands.specs.Scripts.{fault_in, or_fault, unless};
ghost use Rattle.stepper_commands.specs.ScriptView.{fault_at, IsHeld, with_line, IsScript};

use crate::command::LineFault;
use std::alloc::{AllocError, Global};
use std::mem;

/// A line as a text.
pub fn text_of(line: &[u8], is_long: bool) -> Result<&str, LineFault>
    ensures ok { IfOk result (λ text. text.now ≡ line.now) }
    ensures fault { fault_at result ≡ fault_in line.now is_long }
{
    if is_long {
        return Err(LineFault::LineTooLong);
    }
    match str::from_utf8(line) {
        Ok(text) => Ok(text),
        Err(_) => Err(LineFault::BadWord),
    }
}

/// The lines of a script so far: joined, as long as there is memory for it, and the first fault among them.
#[derive(Drop)]
pub struct Joined {
    /// None where memory ran out for it.
    pub text: Option<String>,
    pub fault: Option<LineFault>,
}

/// Adds a line to a text; a line feed stands before each but the first.
fn push_line(text: &mut String, line: &str, is_first: bool) -> Result<(), AllocError>
    ensures { OnOk result (string_bytes text.new ≡ string_bytes text.old ++ (cond is_first [] (10 ∷ []) ++ line.now)) }
{
    if !is_first {
        text.push_str("\n")?;
    }
    text.push_str(line)
}

/// A text with one more line, where there is one and memory for it.
fn longer(text: Option<String>, line: &str, is_first: bool) -> Option<String>
    ensures { (before : List ℕ) → IsHeld text before → IsHeld result (before ++ (cond is_first [] (10 ∷ []) ++ line.now)) }
{
    let mut text = text?;
    match push_line(&mut text, line, is_first) {
        Ok(()) => Some(text),
        Err(AllocError) => None,
    }
}

impl Joined {
    /// A script of no lines yet.
    pub fn new(alloc: Global) -> Joined
        ensures text { IsHeld result.text [] }
        ensures fault { result.fault ≡ None }
    {
        Joined {
            text: Some(String::new(alloc)),
            fault: None,
        }
    }

    /// Adds a line; a line feed stands before each but the first.
    pub fn add(&mut self, line: Result<&str, LineFault>, is_first: bool)
        ensures fault { self.new.fault ≡ or_fault self.old.fault (fault_at line.entry) }
        ensures text { (before : List ℕ) → IsHeld self.old.text before → IsHeld self.new.text (with_line line.entry is_first before) }
    {
        match line {
            Ok(line) => {
                let text = mem::replace(&mut self.text, None);
                self.text = longer(text, line, is_first);
            }
            Err(found) => self.fault = self.fault.or(Some(found)),
        }
    }

    /// The first fault, or else the script: none where memory ran out for it.
    pub fn finish(self) -> Result<Option<String>, LineFault>
        ensures { (text : List ℕ) → IsHeld self.text text → IsScript result (unless self.fault text) }
    {
        match self.fault {
            Some(fault) => Err(fault),
            None => Ok(self.text),
        }
    }
}
