// How the program ends.
ghost use Rattle.std.specs.Prelude.{◌≡◌};
ghost use Rattle.stepper.specs.Ended.{status_of};

use crate::engine::Summary;
use crate::fault::Fault;

/// How a run of the program ends.
#[derive(Clone, Copy)]
pub enum Ended {
    /// The help was asked for and printed.
    Help,
    /// The words of the command line are wrong.
    Usage,
    /// The file cannot be read.
    NoFile,
    Ran(Result<Summary, Fault>),
}

/// The exit status: 0, 1 where a command was refused, 2 where not all commands were answered.
pub fn status(ended: &Ended) -> u8
    ensures { result ≡ status_of ended.now }
{
    match ended {
        Ended::Help => 0,
        Ended::Usage | Ended::NoFile => 2,
        Ended::Ran(Ok(summary)) => u8::from(summary.refused),
        Ended::Ran(Err(_)) => 2,
    }
}
