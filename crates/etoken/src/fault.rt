// Why a text has no tokens.
ghost use Rattle.std.specs.Prelude.{◌≡◌};
ghost use Rattle.etoken.specs.declared.fault.TokenFault.TheVariants.{Memory};

use std::alloc::{AllocError, AllocFailed};

/// Why a text has no tokens. Each number is an offset, in bytes of the text. What is told of it stands with the refusals of a whole text, in
/// `ereader`.
#[derive(Drop)]
pub enum TokenFault {
    /// No token begins here.
    BadCharacter(usize),
    /// The text whose `"` stands here does not end.
    UnclosedText(usize),
    /// The `\` here begins no escape.
    BadEscape(usize),
    /// The integer whose first digit stands here is over 9223372036854775807.
    IntegerTooLarge(usize),
    /// Over `MAX_BYTES` bytes or `MAX_TOKENS` tokens.
    TooLong,
    /// Memory ran out.
    Memory,
}

impl From<AllocError> for TokenFault {
    ghost from_gives = { λ _ f. f ≡ Memory };

    fn from(_error: AllocError) -> TokenFault {
        TokenFault::Memory
    }
}

impl<T: Drop> From<AllocFailed<T>> for TokenFault {
    ghost from_gives = { λ _ f. f ≡ Memory };

    fn from(_error: AllocFailed<T>) -> TokenFault {
        TokenFault::Memory
    }
}
