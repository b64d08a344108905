// Runs of bytes of one kind, and what stands between tokens.
ghost use Rattle.std.specs.Prelude.{false, ◌≡◌, ◌<◌, ◌∷◌, length, MatchOption};
ghost use Rattle.std.specs.List.{take_while};
ghost use Rattle.std.specs.Char.{is_ascii_digit};
ghost use Rattle.etoken.specs.Bytes.{is_word_byte, is_plain, is_in_line, Longest, begins_with, is_ascii_byte};
ghost use Rattle.etoken.specs.Cutting.{Blanks};

/// The first byte and the text behind it, where that byte is an ASCII character.
pub(crate) fn split_ascii(text: &str) -> Option<(u8, &str)>
    ensures { MatchOption result (begins_with is_ascii_byte text.now ≡ false) (λ x. (text.now ≡ x.0 ∷ x.1.now) × (x.0 < 128)) }
{
    let first = text.as_bytes().first().copied()?;
    if first < 128 {
        Some((first, &text[1..]))
    } else {
        None
    }
}

/// A letter, `_` or a digit.
pub(crate) fn is_word_byte(byte: u8) -> bool
    ensures { result ≡ is_word_byte byte }
{
    byte.is_ascii_alphabetic() || byte == b'_' || byte.is_ascii_digit()
}

/// How many digits stand in front.
fn digit_count(text: &str) -> usize
    ensures { result ≡ length (take_while is_ascii_digit text.now) }
{
    text.bytes()
        .take_while(|byte| byte.is_ascii_digit())
        .count()
}

/// The digits in front, and the text behind them.
pub(crate) fn digits(text: &str) -> (&str, &str)
    ensures { Longest is_ascii_digit text.now result.0.now result.1.now }
{
    text.split_at(digit_count(text))
}

/// How many letters, digits and `_` stand in front.
fn word_len(text: &str) -> usize
    ensures { result ≡ length (take_while is_word_byte text.now) }
{
    text.bytes().take_while(|byte| is_word_byte(*byte)).count()
}

/// The letters, digits and `_` in front, and the text behind them.
pub(crate) fn word(text: &str) -> (&str, &str)
    ensures { Longest is_word_byte text.now result.0.now result.1.now }
{
    text.split_at(word_len(text))
}

/// What stands before the first `"` or `\`, and the text from there on.
pub(crate) fn plain(text: &str) -> (&str, &str)
    ensures { Longest is_plain text.now result.0.now result.1.now }
{
    let end = text.bytes().position(|byte| byte == b'"' || byte == b'\\');
    text.split_at(end.unwrap_or(text.len()))
}

/// What stands before the first line feed, and the text from there on.
fn line(text: &str) -> (&str, &str)
    ensures { Longest is_in_line text.now result.0.now result.1.now }
{
    let end = text.bytes().position(|byte| byte == b'\n');
    text.split_at(end.unwrap_or(text.len()))
}

/// Goes past spaces, line breaks and comments: whether there is a line break, and the text behind them.
pub(crate) fn blanks(text: &str) -> (bool, &str)
    ensures { Blanks text.now result.0 result.1.now }
{
    let mut rest = text;
    let mut broken = false;
    'more: while let Some((byte, behind)) = split_ascii(rest) {
        match byte {
            b' ' | b'\t' | b'\r' => rest = behind,
            b'\n' => {
                broken = true;
                rest = behind;
            }
            b'#' => rest = line(behind).1,
            _ => break,
        }
    }
    (broken, rest)
}
