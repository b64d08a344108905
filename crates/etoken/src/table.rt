// The words, the signs and the escapes of the language.
ghost use Rattle.std.specs.Prelude.{◌≡◌, ◌<◌, ◌∷◌, [], IfSome};
ghost use Rattle.etoken.specs.Table.{sign_of, reserved_of, escape_of};

use crate::token::{Reserved, Sign};

/// The sign of these two characters.
pub(crate) fn long_sign(first: u8, second: u8) -> Option<Sign>
    ensures { result ≡ sign_of (first ∷ second ∷ []) }
{
    match first {
        b'<' => match second {
            b'-' => Some(Sign::SendTo),
            b'=' => Some(Sign::AtMost),
            _ => None,
        },
        b'-' => (second == b'>').then_some(Sign::Arrow),
        b':' => (second == b'=').then_some(Sign::Becomes),
        b'=' => (second == b'=').then_some(Sign::Equal),
        b'!' => (second == b'=').then_some(Sign::NotEqual),
        b'>' => (second == b'=').then_some(Sign::AtLeast),
        b'&' => (second == b'&').then_some(Sign::And),
        b'|' => (second == b'|').then_some(Sign::Or),
        b'/' => (second == b'/').then_some(Sign::Divide),
        _ => None,
    }
}

/// The sign of this one character.
pub(crate) fn short_sign(byte: u8) -> Option<Sign>
    ensures { result ≡ sign_of (byte ∷ []) }
{
    match byte {
        b'(' => Some(Sign::OpenRound),
        b')' => Some(Sign::CloseRound),
        b'[' => Some(Sign::OpenSquare),
        b']' => Some(Sign::CloseSquare),
        b'{' => Some(Sign::OpenCurly),
        b'}' => Some(Sign::CloseCurly),
        b',' => Some(Sign::Comma),
        b';' => Some(Sign::Semicolon),
        b'.' => Some(Sign::Dot),
        b'<' => Some(Sign::Less),
        b'>' => Some(Sign::More),
        b'!' => Some(Sign::Not),
        b'+' => Some(Sign::Plus),
        b'-' => Some(Sign::Minus),
        b'*' => Some(Sign::Times),
        _ => None,
    }
}

/// The word of the language that is spelled so.
pub(crate) fn reserved(word: &str) -> Option<Reserved>
    ensures { result ≡ reserved_of word.now }
{
    match word {
        "def" => Some(Reserved::Def),
        "var" => Some(Reserved::Var),
        "method" => Some(Reserved::Method),
        "to" => Some(Reserved::To),
        "return" => Some(Reserved::Return),
        "if" => Some(Reserved::If),
        "else" => Some(Reserved::Else),
        "while" => Some(Reserved::While),
        "for" => Some(Reserved::For),
        "in" => Some(Reserved::In),
        "escape" => Some(Reserved::Escape),
        "try" => Some(Reserved::Try),
        "catch" => Some(Reserved::Catch),
        "when" => Some(Reserved::When),
        "true" => Some(Reserved::True),
        "false" => Some(Reserved::False),
        "null" => Some(Reserved::Null),
        "throw" => Some(Reserved::Throw),
        "Ref" => Some(Reserved::Ref),
        _ => None,
    }
}

/// The byte that stands for itself behind a `\`, or that this letter names there.
pub(crate) fn escape(letter: u8) -> Option<u8>
    ensures value { result ≡ escape_of letter }
    ensures ascii { IfSome result (λ b. b < 128) }
{
    match letter {
        b'"' | b'\\' | b'\'' => Some(letter),
        b'n' => Some(b'\n'),
        b't' => Some(b'\t'),
        b'r' => Some(b'\r'),
        _ => None,
    }
}
