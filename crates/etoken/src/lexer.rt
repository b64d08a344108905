// The token in front of a text.
ghost use Rattle.std.specs.Prelude.{◌≡◌, ◌∷◌, ◌<◌, ◌==◌, [], cond, true, length, MatchResult, MatchOption, Some, None, List, ℕ};
ghost use Rattle.std.specs.Char.{is_ascii_digit};
ghost use Rattle.etoken.specs.Bytes.{begins_with, is_letter};
ghost use Rattle.etoken.specs.Table.{escape_of, sign_of};
ghost use Rattle.std.specs.String.{string_bytes};
ghost use Rattle.etoken.specs.declared.fault.TokenFault.TheVariants.{BadEscape, UnclosedText};
ghost use Rattle.etoken.specs.declared.token.Token.TheVariants as token;
ghost use Rattle.etoken.specs.Spelling.{offset_of, LeftToSigns, Spells, Blames};

use crate::bytes::{digits, is_word_byte, plain, split_ascii, word};
use crate::fault::TokenFault;
use crate::table::{escape, long_sign, reserved, short_sign};
use crate::token::{Sign, Token};
use ids::text::Text;
use std::alloc::Global;

/// Reads tokens of a text of so many bytes.
#[derive(Clone, Copy)]
pub struct Lexer {
    pub alloc: Global,
    pub length: usize,
}

impl Lexer {
    /// Where the rest of the text begins.
    pub(crate) fn offset(&self, rest: &str) -> usize
        ensures { result ≡ offset_of self.now.length rest.now }
    {
        self.length.saturating_sub(rest.len())
    }

    /// The token in front of a text that is not empty, and the text behind it.
    pub(crate) fn token<'a>(&self, rest: &'a str) -> Result<(Token, &'a str), TokenFault>
        requires some { 0 < length rest.now }
        ensures { MatchResult result (λ x. Spells rest.now x.0 x.1.now) (Blames self.now.length rest.now) }
    {
        let Some((first, behind)) = split_ascii(rest) else {
            return Err(TokenFault::BadCharacter(self.offset(rest)));
        };
        if first == b'"' {
            self.text(rest, behind)
        } else if first.is_ascii_digit() {
            self.integer(rest)
        } else if is_word_byte(first) {
            self.word(rest)
        } else {
            self.sign(rest, first, behind)
        }
    }

    fn integer<'a>(&self, rest: &'a str) -> Result<(Token, &'a str), TokenFault>
        requires { begins_with is_ascii_digit rest.now ≡ true }
        ensures { MatchResult result (λ x. Spells rest.now x.0 x.1.now) (Blames self.now.length rest.now) }
    {
        let (digits, behind) = digits(rest);
        match digits.parse::<i64>() {
            Ok(number) => Ok((Token::Int(number), behind)),
            Err(_) => Err(TokenFault::IntegerTooLarge(self.offset(rest))),
        }
    }

    fn word<'a>(&self, rest: &'a str) -> Result<(Token, &'a str), TokenFault>
        requires { begins_with is_letter rest.now ≡ true }
        ensures { MatchResult result (λ x. Spells rest.now x.0 x.1.now) (Blames self.now.length rest.now) }
    {
        let (word, behind) = word(rest);
        if word == "_" {
            return Ok((Token::Sign(Sign::Underscore), behind));
        }
        let token = match reserved(word) {
            Some(reserved) => Token::Word(reserved),
            None => Token::Name(Text::new(self.alloc, word)?),
        };
        Ok((token, behind))
    }

    fn sign<'a>(
        &self,
        rest: &'a str,
        first: u8,
        behind: &'a str,
    ) -> Result<(Token, &'a str), TokenFault>
        requires whole { rest.now ≡ first ∷ behind.now }
        requires other { LeftToSigns first }
        ensures { MatchResult result (λ x. Spells rest.now x.0 x.1.now) (Blames self.now.length rest.now) }
    {
        if let Some((sign, after)) = long_sign_of(first, behind) {
            return Ok((Token::Sign(sign), after));
        }
        match short_sign(first) {
            Some(sign) => Ok((Token::Sign(sign), behind)),
            None => Err(TokenFault::BadCharacter(self.offset(rest))),
        }
    }

    fn text<'a>(&self, rest: &'a str, behind: &'a str) -> Result<(Token, &'a str), TokenFault>
        requires { rest.now ≡ 34 ∷ behind.now }
        ensures { MatchResult result (λ x. Spells rest.now x.0 x.1.now) (Blames self.now.length rest.now) }
    {
        let (content, behind) = self.content(rest, behind)?;
        Ok((Token::Text(Text::from_string(content)?), behind))
    }

    /// What stands up to the closing quotation mark, its escapes replaced, and the text behind the mark.
    fn content<'a>(&self, rest: &'a str, behind: &'a str) -> Result<(String, &'a str), TokenFault>
        requires { rest.now ≡ 34 ∷ behind.now }
        ensures { MatchResult result (λ x. Spells rest.now (token.Text (string_bytes x.0)) x.1.now) (Blames self.now.length rest.now) }
    {
        let mut content = String::new(self.alloc);
        let mut left = behind;
        'more: loop {
            let (front, stop) = plain(left);
            content.push_str(front)?;
            let Some((mark, behind)) = split_ascii(stop) else {
                return Err(TokenFault::UnclosedText(self.offset(rest)));
            };
            if mark == b'"' {
                return Ok((content, behind));
            }
            let Some((byte, after)) = escaped(behind) else {
                return Err(self.bad_escape(rest, stop, behind));
            };
            content.push(char::from(byte))?;
            left = after;
        }
    }

    /// The fault of a `\` that begins no escape: `stop` is the text from the `\` on, and `behind` what is behind it.
    fn bad_escape(&self, rest: &str, stop: &str, behind: &str) -> TokenFault
        ensures { result ≡ cond (length behind.now == 0) (UnclosedText (offset_of self.now.length rest.now)) (BadEscape (offset_of self.now.length stop.now)) }
    {
        if behind.is_empty() {
            TokenFault::UnclosedText(self.offset(rest))
        } else {
            TokenFault::BadEscape(self.offset(stop))
        }
    }
}

/// What the escape whose letter stands in front gives, and the text behind it.
fn escaped(text: &str) -> Option<(u8, &str)>
    ensures { MatchOption result ((e : ℕ) (a : List ℕ) → text.now ≡ e ∷ a → escape_of e ≡ None) (λ x. (e : ℕ) × (text.now ≡ e ∷ x.1.now) × (escape_of e ≡ Some x.0) × (x.0 < 128)) }
{
    let (letter, behind) = split_ascii(text)?;
    Some((escape(letter)?, behind))
}

/// The sign of two characters of which the second stands in front of the text, and the text behind it.
fn long_sign_of(first: u8, text: &str) -> Option<(Sign, &str)>
    ensures { MatchOption result ((y : ℕ) (a : List ℕ) → text.now ≡ y ∷ a → sign_of (first ∷ y ∷ []) ≡ None) (λ x. (y : ℕ) × (text.now ≡ y ∷ x.1.now) × (sign_of (first ∷ y ∷ []) ≡ Some x.0)) }
{
    let (second, behind) = split_ascii(text)?;
    Some((long_sign(first, second)?, behind))
}
