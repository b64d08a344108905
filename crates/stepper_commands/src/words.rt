// Words of a line.
ghost use Rattle.std.specs.Prelude.{◌≡◌, map, not, IfOk};
ghost use Rattle.std.specs.List.{position, position_or_len};
ghost use Rattle.stepper_commands.specs.Words.{is_blank, without_blanks, first_word, behind_word, words_in, ends_blank};

use std::alloc::{AllocError, Global};

fn is_blank(b: u8) -> bool
    ensures { result ≡ is_blank b }
{
    b == b' ' || b == b'\t'
}

fn blank_in(text: &[u8]) -> Option<usize>
    ensures { result ≡ position is_blank text.now }
{
    text.iter().position(|b| is_blank(*b))
}

fn no_blank_in(text: &[u8]) -> Option<usize>
    ensures { result ≡ position (λ b. not (is_blank b)) text.now }
{
    text.iter().position(|b| !is_blank(*b))
}

/// Where the first word ends.
fn word_end(text: &[u8]) -> usize
    ensures { result ≡ position_or_len is_blank text.now }
{
    blank_in(text).unwrap_or(text.len())
}

/// Where the blanks in front end.
fn blanks_end(text: &[u8]) -> usize
    ensures { result ≡ position_or_len (λ b. not (is_blank b)) text.now }
{
    no_blank_in(text).unwrap_or(text.len())
}

/// What begins with the first character that is no blank.
pub(crate) fn skip_blanks(text: &str) -> &str
    ensures { result.now ≡ without_blanks text.now }
{
    text.split_at(blanks_end(text.as_bytes())).1
}

/// The word that a text begins with, and what stands behind the blanks after it.
pub(crate) fn cut_word(text: &str) -> (&str, &str)
    ensures word { result.0.now ≡ first_word text.now }
    ensures rest { result.1.now ≡ behind_word text.now }
{
    let (word, behind) = text.split_at(word_end(text.as_bytes()));
    (word, skip_blanks(behind))
}

/// All words of a text.
///
/// # Errors
/// Memory ran out for the list.
pub fn all_words(alloc: Global, text: &str) -> Result<Vec<&str>, AllocError>
    ensures { IfOk result (λ words. map (λ w. w.now) words.items ≡ words_in text.now) }
{
    let mut words = Vec::new(alloc);
    let mut rest = skip_blanks(text);
    'words: while !rest.is_empty() {
        let (word, behind) = cut_word(rest);
        words.push(word)?;
        rest = behind;
    }
    Ok(words)
}

/// Whether a text ends with a blank.
pub(crate) fn ends_blank(text: &[u8]) -> bool
    ensures { result ≡ ends_blank text.now }
{
    match text {
        [.., last] => is_blank(*last),
        _ => false,
    }
}
