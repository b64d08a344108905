// The words of the command line, as the system has them.
ghost use Rattle.std.specs.Prelude.{◌≡◌, IfErr};
ghost use Rattle.evats.specs.Words.{IsNoText};
ghost use Rattle.evats.specs.declared.words.WordsFault.TheVariants.{Memory};

use std::alloc::AllocError;
use std::env::{Env, FillError};

/// Why the words cannot be read.
#[derive(Drop)]
pub(crate) enum WordsFault {
    /// A word is not UTF-8: these are its bytes.
    NotText(Vec<u8>),
    /// Memory ran out for a word.
    Memory,
}

impl From<AllocError> for WordsFault {
    ghost from_gives = { λ _ fault. fault ≡ Memory };

    fn from(_error: AllocError) -> Self {
        WordsFault::Memory
    }
}

/// The room for a word at first, in bytes.
const FIRST_ROOM: usize = 256;

/// The bytes of a word, counted from 0; none behind the last one.
fn word<R: Env + AllocGlobal>(rt: &R, index: usize) -> Result<Option<Vec<u8>>, AllocError> {
    let mut bytes = vec![in rt.alloc(); 0u8; FIRST_ROOM]?;
    for _ in 0..usize::BITS {
        match rt.arg(index, &mut bytes) {
            Ok(length) => {
                bytes.truncate(length);
                return Ok(Some(bytes));
            }
            Err(FillError::NotPresent) => return Ok(None),
            Err(FillError::TooLong) => bytes.resize(bytes.len().saturating_mul(2), 0)?,
        }
    }
    Err(AllocError)
}

/// The words, the program's own name first. The first one that is not UTF-8 is told.
pub(crate) fn words<R: Env + AllocGlobal>(rt: &R) -> Result<Vec<String>, WordsFault>
    ensures { IfErr result IsNoText }
{
    let mut words = Vec::new(rt.alloc());
    for index in 0..usize::MAX {
        let Some(bytes) = word(rt, index)? else {
            break;
        };
        match String::from_utf8(bytes) {
            Ok(text) => words.push(text).map_err(AllocError::from)?,
            Err(error) => return Err(WordsFault::NotText(error.into_bytes())),
        }
    }
    Ok(words)
}
