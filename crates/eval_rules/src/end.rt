// How evaluations end: with a value, which stands in the place that the caller gave, or stopped.
ghost use Rattle.std.specs.Prelude.{◌≡◌};
ghost use Rattle.eval_rules.specs.Outcomes.{reason};
ghost use Rattle.eval_rules.specs.View.{cause_of};
ghost use Rattle.eval_rules.specs.declared.end.Stop.TheVariants as stop;

use ids::names::EjId;
use ids::text::Text;
use std::alloc::{AllocError, AllocFailed};
use values::value::Value;

/// Why a turn is abandoned.
#[derive(Clone, Copy)]
pub enum Abandon {
    Budget,
    Depth,
    Size,
}

/// Why an expression has no value: a problem that was thrown, a value on its way to the Escape of its ejector, or an
/// abandoned turn.
#[derive(Drop)]
pub enum Halt {
    Thrown(Text),
    Ejected(EjId, Value),
    Abandoned(Abandon),
}

/// Why an evaluation stopped without a value.
#[derive(Clone, Copy)]
pub enum Stop {
    Memory,
    /// The reason stands in the turn's `halt`, so that what every evaluation answers is small.
    Halted,
}

impl From<AllocError> for Stop {
    ghost from_gives = { λ _ s. s ≡ stop.Memory };

    fn from(_error: AllocError) -> Self {
        Stop::Memory
    }
}

impl<T: Drop> From<AllocFailed<T>> for Stop {
    ghost from_gives = { λ _ s. s ≡ stop.Memory };

    fn from(_error: AllocFailed<T>) -> Self {
        Stop::Memory
    }
}

impl Abandon {
    /// The problem that an abandoned turn leaves.
    pub fn reason(self) -> &'static str
        ensures { result.now ≡ reason (cause_of self) }
    {
        match self {
            Abandon::Budget => "turn budget spent",
            Abandon::Depth => "calls too deep",
            Abandon::Size => "turn too large",
        }
    }
}
