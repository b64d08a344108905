// Which words are names.
ghost use Rattle.std.specs.Prelude.{◌≡◌};
ghost use Rattle.std.specs.List.{list_all};
ghost use Rattle.etoken.specs.Bytes.{is_letter, is_word_byte, begins_with};
ghost use Rattle.etoken.specs.Names.{is_name};

use crate::bytes::is_word_byte;
use crate::table::reserved;

fn begins_with_letter(word: &[u8]) -> bool
    ensures { result ≡ begins_with is_letter word.now }
{
    match word.first() {
        Some(first) => is_word_byte(*first) && !first.is_ascii_digit(),
        None => false,
    }
}

fn all_word_bytes(word: &[u8]) -> bool
    ensures { result ≡ list_all is_word_byte word.now }
{
    word.iter().all(|byte| is_word_byte(*byte))
}

/// Whether a word is a name: letters, digits and `_`, no digit first, no word of the language, and not `_` alone.
pub fn is_name(word: &str) -> bool
    ensures { result ≡ is_name word.now }
{
    begins_with_letter(word.as_bytes())
        && all_word_bytes(word.as_bytes())
        && word != "_"
        && reserved(word).is_none()
}
