// Why a question has no answer.
ghost use Rattle.std.specs.Prelude.{◌≡◌, Some};
ghost use Rattle.stepper_questions.specs.Refusals.{unanswered_text};
ghost use Rattle.stepper_questions.specs.declared.unanswered.Unanswered.TheVariants.{Memory};

use ids::names::{EventName, MsgId};
use std::alloc::{AllocError, AllocFailed};
use std::fmt;
use std::fmt::{Debug, Display, Formatter, Write};
use thiserror::Error;

/// Why a question has no answer.
#[derive(Drop, Error)]
pub enum Unanswered {
    /// No message has this name.
    NoMessage(MsgId),
    /// No entry of the journal has this name.
    NoEvent(EventName),
    /// The event is settled: of its cells only those that it wrote are kept.
    Settled(EventName),
    /// No vat has an object of this event with this number.
    NoObject(EventName, u32),
    Memory,
}

impl Display for Unanswered {
    ghost output = { λ fault. Some (unanswered_text fault) };

    fn fmt<W: Write>(&self, f: &mut Formatter<W>) -> fmt::Result {
        match self {
            Unanswered::NoMessage(message) => write!(f, "B3 NoMessage {message}"),
            Unanswered::NoEvent(event) => write!(f, "B12 NoEvent {event}"),
            Unanswered::Settled(event) => write!(f, "B22 Settled {event}"),
            Unanswered::NoObject(event, index) => write!(f, "B23 NoObject {event}.o{index}"),
            Unanswered::Memory => f.write_str("B20 Memory"),
        }
    }
}

impl Debug for Unanswered {
    fn fmt<W: Write>(&self, f: &mut Formatter<W>) -> fmt::Result {
        Display::fmt(self, f)
    }
}

impl From<AllocError> for Unanswered {
    ghost from_gives = { λ _ e. e ≡ Memory };

    fn from(_error: AllocError) -> Self {
        Unanswered::Memory
    }
}

impl<T: Drop> From<AllocFailed<T>> for Unanswered {
    ghost from_gives = { λ _ e. e ≡ Memory };

    fn from(_error: AllocFailed<T>) -> Self {
        Unanswered::Memory
    }
}
