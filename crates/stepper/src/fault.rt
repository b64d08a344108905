// Why a run was cut short.
ghost use Rattle.std.specs.Prelude.{◌≡◌, Some};
ghost use Rattle.stepper.specs.Fault.{fault_text, taking};
ghost use Rattle.stepper.specs.declared.fault.Fault.TheVariants.{Writer};

use std::fmt;
use std::fmt::{Debug, Display, Formatter, Write};
use stepper_streams::lines::TakeFault;
use stepper_streams::outlet::WriteFailed;
use thiserror::Error;

/// Why a run did not come to its end.
#[derive(Clone, Copy, Error)]
pub enum Fault {
    /// The input could not be read.
    Reader,
    /// The replies could not be written.
    Writer,
    /// There was no room for a line.
    Memory,
}

impl Display for Fault {
    ghost output = { λ fault. Some (fault_text fault) };

    fn fmt<W: Write>(&self, f: &mut Formatter<W>) -> fmt::Result {
        f.write_str(match self {
            Fault::Reader => "reading failed",
            Fault::Writer => "writing failed",
            Fault::Memory => "out of memory",
        })
    }
}

impl Debug for Fault {
    fn fmt<W: Write>(&self, f: &mut Formatter<W>) -> fmt::Result {
        Display::fmt(self, f)
    }
}

impl From<TakeFault> for Fault {
    ghost from_gives = { λ fault f. f ≡ taking fault };

    fn from(fault: TakeFault) -> Self {
        match fault {
            TakeFault::Reader => Fault::Reader,
            TakeFault::Memory => Fault::Memory,
        }
    }
}

impl From<WriteFailed> for Fault {
    ghost from_gives = { λ _ f. f ≡ Writer };

    fn from(_failed: WriteFailed) -> Self {
        Fault::Writer
    }
}
