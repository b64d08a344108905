// What the program could not do.
ghost use Rattle.std.specs.Prelude.{◌≡◌};
ghost use Rattle.stepper.specs.Ended.{status_of};
ghost use Rattle.evats.specs.Complaint.{complaint_text, exit_status_of};

use std::fmt;
use std::fmt::{Display, Formatter, Write};
use stepper::{Ended, Fault, status};

/// Why the program did not do what it was asked, or not all of it.
#[derive(Clone, Copy)]
pub(crate) enum Complaint<'a> {
    /// A word of the command line is not UTF-8: these are its bytes.
    NotText(&'a [u8]),
    /// The file of this name cannot be read.
    NoFile(&'a str),
    /// No thread can be started in which the commands are to be answered.
    NoThread,
    /// A run was cut short, or never began for want of memory, or the help could not be written.
    Cut(Fault),
}

impl Display for Complaint<'_> {
    ghost output = { complaint_text };

    fn fmt<W: Write>(&self, f: &mut Formatter<W>) -> fmt::Result {
        match self {
            Complaint::NotText(word) => {
                write!(f, "this word is not UTF-8: \"{}\"", word.escape_ascii())
            }
            Complaint::NoFile(name) => write!(f, "cannot read {name:?}"),
            Complaint::NoThread => f.write_str("no thread can be started"),
            Complaint::Cut(fault) => write!(f, "{fault}"),
        }
    }
}

/// What the program comes to, or why it does not.
pub(crate) type RunEnd<'a> = Result<Ended, Complaint<'a>>;

/// A run that was cut short is complained of.
pub(crate) fn outcome<'a>(ended: Ended) -> RunEnd<'a>
    ensures { exit_status_of result ≡ status_of ended }
{
    match ended {
        Ended::Ran(Err(fault)) => Err(Complaint::Cut(fault)),
        _ => Ok(ended),
    }
}

/// The exit status: 2 where something is complained of.
pub(crate) fn exit_status(outcome: &RunEnd<'_>) -> u8
    ensures { result ≡ exit_status_of outcome.now }
{
    match outcome {
        Ok(ended) => status(ended),
        Err(_) => 2,
    }
}
