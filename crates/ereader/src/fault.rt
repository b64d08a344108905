// Why nothing was read.
ghost use Rattle.std.specs.Prelude.{◌≡◌, ◌++◌, Some};
ghost use Rattle.std.specs.Fmt.{WritesOnOk, decimal};
ghost use Rattle.ereader.specs.declared.fault.ReadFault.TheVariants.{Memory};
ghost use Rattle.ereader.specs.Shown.{shown};
ghost use Rattle.ereader.specs.Texts.{refusal_of};

use etoken::fault::TokenFault;
use std::alloc::{AllocError, AllocFailed};
use std::fmt;
use thiserror::Error;

/// Why a text is not read. An offset counts the text's bytes.
#[derive(Drop, Error)]
pub enum ReadFault {
    /// No token begins here.
    BadCharacter(usize),
    /// The text whose quotation mark stands here has no end.
    UnclosedText(usize),
    /// The `\` here begins no escape.
    BadEscape(usize),
    /// The number that begins here has more than 63 bits.
    IntegerTooLarge(usize),
    /// The token here, or the end, is not one that may stand there.
    Unexpected(usize),
    /// More than 100 brackets are open at once.
    TooDeep,
    /// More than 65,536 bytes or 16,384 tokens.
    TooLong,
    Memory,
}

/// Writes words, and behind them an offset.
fn write_at<W: fmt::Write>(f: &mut fmt::Formatter<W>, words: &str, offset: usize) -> fmt::Result
    ensures { WritesOnOk W.write_str_gives f.old result (words.now ++ decimal offset) f.new }
{
    write!(f, "{words}{offset}")
}

impl fmt::Display for ReadFault {
    ghost output = { λ f. Some (shown f) };

    fn fmt<W: fmt::Write>(&self, f: &mut fmt::Formatter<W>) -> fmt::Result {
        match self {
            ReadFault::BadCharacter(offset) => write_at(f, "L1 BadCharacter ", *offset),
            ReadFault::UnclosedText(offset) => write_at(f, "L2 UnclosedText ", *offset),
            ReadFault::BadEscape(offset) => write_at(f, "L3 BadEscape ", *offset),
            ReadFault::IntegerTooLarge(offset) => write_at(f, "L4 IntegerTooLarge ", *offset),
            ReadFault::Unexpected(offset) => write_at(f, "L5 Unexpected ", *offset),
            ReadFault::TooDeep => f.write_str("L6 TooDeep"),
            ReadFault::Memory => f.write_str("L7 Memory"),
            ReadFault::TooLong => f.write_str("L8 TooLong"),
        }
    }
}

impl fmt::Debug for ReadFault {
    fn fmt<W: fmt::Write>(&self, f: &mut fmt::Formatter<W>) -> fmt::Result {
        fmt::Display::fmt(self, f)
    }
}

impl From<TokenFault> for ReadFault {
    ghost from_gives = { λ f e. e ≡ refusal_of f };

    fn from(fault: TokenFault) -> Self {
        match fault {
            TokenFault::BadCharacter(offset) => ReadFault::BadCharacter(offset),
            TokenFault::UnclosedText(offset) => ReadFault::UnclosedText(offset),
            TokenFault::BadEscape(offset) => ReadFault::BadEscape(offset),
            TokenFault::IntegerTooLarge(offset) => ReadFault::IntegerTooLarge(offset),
            TokenFault::TooLong => ReadFault::TooLong,
            TokenFault::Memory => ReadFault::Memory,
        }
    }
}

impl From<AllocError> for ReadFault {
    ghost from_gives = { λ _ e. e ≡ Memory };

    fn from(_error: AllocError) -> Self {
        ReadFault::Memory
    }
}

impl<T: Drop> From<AllocFailed<T>> for ReadFault {
    ghost from_gives = { λ _ e. e ≡ Memory };

    fn from(_error: AllocFailed<T>) -> Self {
        ReadFault::Memory
    }
}
