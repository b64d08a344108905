// What stands in front of a reader.
ghost use Rattle.std.specs.Prelude.{◌≡◌};
ghost use Rattle.ereader_signs.specs.Signs.{link_of, operator_of, prefix_operator};
ghost use Rattle.ereader_grammar.specs.Reading as reading;
ghost use Rattle.ereader_grammar.specs.Reading.{front, sign_in};
ghost use Rattle.ereader_grammar.specs.View.{plain};
ghost use Rattle.ereader_parser.specs.Heads.{behind};
ghost use Rattle.ereader_parser.specs.View.{left_of, word_in};

use crate::reader::Reader;
use ereader_signs::operator::{CallSign, Level, Operator, Prefix};
use etoken::breaks::Bracket;
use etoken::token::{Placed, Reserved, Sign, Token};

/// The sign that the first token is.
fn front_sign(tokens: &[Placed]) -> Option<Sign>
    ensures { result ≡ sign_in (plain tokens.now) }
{
    match tokens.first()?.token {
        Token::Sign(sign) => Some(sign),
        _ => None,
    }
}

fn opens_list(sign: Option<Sign>) -> bool
    ensures { result ≡ reading.is_open Bracket.Square sign }
{
    matches!(sign, Some(Sign::OpenSquare))
}

fn is_becomes(sign: Option<Sign>) -> bool
    ensures { result ≡ reading.is_becomes sign }
{
    matches!(sign, Some(Sign::Becomes))
}

/// Whether a list of patterns is in front, or one pattern and `:=`.
fn is_bound(tokens: &[Placed]) -> bool
    ensures { result ≡ reading.is_bound (plain tokens.now) }
{
    let Some((_, rest)) = tokens.split_first() else {
        return false;
    };
    opens_list(front_sign(tokens)) || is_becomes(front_sign(rest))
}

/// Whether an operand begins with a word.
fn word_begins(word: Reserved) -> bool
    ensures { result ≡ reading.begins_word word }
{
    matches!(
        word,
        Reserved::True
            | Reserved::False
            | Reserved::Null
            | Reserved::If
            | Reserved::While
            | Reserved::For
            | Reserved::Escape
            | Reserved::Try
            | Reserved::Throw
            | Reserved::Def
            | Reserved::When
            | Reserved::Ref
    )
}

/// Whether an operand begins with a sign, or may have it before it.
fn sign_begins(sign: Sign) -> bool
    ensures { result ≡ reading.begins_sign sign }
{
    matches!(
        sign,
        Sign::OpenRound | Sign::OpenSquare | Sign::OpenCurly | Sign::Not | Sign::Minus
    )
}

fn token_begins(token: &Token) -> bool
    ensures { result ≡ reading.begins_token token.now }
{
    match token {
        Token::Int(_) | Token::Text(_) | Token::Name(_) => true,
        Token::Word(word) => word_begins(*word),
        Token::Sign(sign) => sign_begins(*sign),
    }
}

impl<'a> Reader<'a> {
    /// The sign in front.
    fn sign(&self) -> Option<Sign>
        ensures { result ≡ sign_in (left_of self.now) }
    {
        front_sign(self.rest)
    }

    /// The word in front.
    fn word(&self) -> Option<Reserved>
        ensures { result ≡ word_in (left_of self.now) }
    {
        match self.rest.first()?.token {
            Token::Word(word) => Some(word),
            _ => None,
        }
    }

    pub(crate) fn at_end(&self) -> bool
        ensures { result ≡ reading.is_empty (left_of self.now) }
    {
        self.rest.is_empty()
    }

    /// The operator of a level in front.
    pub(crate) fn operator(&self, level: Level) -> Option<Operator>
        ensures { result ≡ front (operator_of level) (left_of self.now) }
    {
        level.operator(self.sign()?)
    }

    fn prefix_operator(&self) -> Option<Prefix>
        ensures { result ≡ front prefix_operator (left_of self.now) }
    {
        Prefix::of(self.sign()?)
    }

    /// Goes past the operator before an operand, if there is one.
    pub(crate) fn prefix(&mut self) -> Option<Prefix>
        ensures is { result ≡ front prefix_operator (left_of self.old) }
        ensures past { left_of self.new ≡ behind result (left_of self.old) }
    {
        let prefix = self.prefix_operator()?;
        self.skip();
        Some(prefix)
    }

    /// What makes a call of what was read, if that goes on.
    pub(crate) fn link(&self) -> Option<CallSign>
        ensures { result ≡ front link_of (left_of self.now) }
    {
        CallSign::of(self.sign()?)
    }

    /// Whether a definition of what a value is given to is in front, and not one of an object.
    pub(crate) fn at_definition(&self) -> bool
        ensures { result ≡ reading.is_definition (left_of self.now) }
    {
        let Some((first, rest)) = self.rest.split_first() else {
            return false;
        };
        matches!(first.token, Token::Word(Reserved::Def)) && is_bound(rest)
    }

    pub(crate) fn at_variable(&self) -> bool
        ensures { result ≡ reading.is_at_word reading.is_var_word (left_of self.now) }
    {
        matches!(self.word(), Some(Reserved::Var))
    }

    pub(crate) fn at_if(&self) -> bool
        ensures { result ≡ reading.is_at_word reading.is_if_word (left_of self.now) }
    {
        matches!(self.word(), Some(Reserved::If))
    }

    pub(crate) fn at_else(&self) -> bool
        ensures { result ≡ reading.is_at_word reading.is_else_word (left_of self.now) }
    {
        matches!(self.word(), Some(Reserved::Else))
    }

    pub(crate) fn at_in(&self) -> bool
        ensures { result ≡ reading.is_at_word reading.is_in_word (left_of self.now) }
    {
        matches!(self.word(), Some(Reserved::In))
    }

    pub(crate) fn at_catch(&self) -> bool
        ensures { result ≡ reading.is_at_word reading.is_catch_word (left_of self.now) }
    {
        matches!(self.word(), Some(Reserved::Catch))
    }

    pub(crate) fn at_return(&self) -> bool
        ensures { result ≡ reading.is_at_word reading.is_return_word (left_of self.now) }
    {
        matches!(self.word(), Some(Reserved::Return))
    }

    pub(crate) fn at_to(&self) -> bool
        ensures { result ≡ reading.is_at_word reading.is_to_word (left_of self.now) }
    {
        matches!(self.word(), Some(Reserved::To))
    }

    /// Whether a method begins here.
    pub(crate) fn at_method(&self) -> bool
        ensures { result ≡ reading.is_at_word reading.is_method_word (left_of self.now) }
    {
        matches!(self.word(), Some(Reserved::To | Reserved::Method))
    }

    /// Whether an expression that may stand in any place can begin here.
    pub(crate) fn at_operand(&self) -> bool
        ensures { result ≡ reading.begins (left_of self.now) }
    {
        match self.rest.first() {
            Some(placed) => token_begins(&placed.token),
            None => false,
        }
    }

    /// Whether a name is in front, and `:=` behind it.
    pub(crate) fn at_assignment(&self) -> bool
        ensures { result ≡ reading.is_assignment (left_of self.now) }
    {
        let Some((first, rest)) = self.rest.split_first() else {
            return false;
        };
        matches!(first.token, Token::Name(_)) && is_becomes(front_sign(rest))
    }

    pub(crate) fn at_dot(&self) -> bool
        ensures { result ≡ reading.is_dot (sign_in (left_of self.now)) }
    {
        matches!(self.sign(), Some(Sign::Dot))
    }

    pub(crate) fn at_arrow(&self) -> bool
        ensures { result ≡ reading.is_arrow (sign_in (left_of self.now)) }
    {
        matches!(self.sign(), Some(Sign::Arrow))
    }

    pub(crate) fn at_comma(&self) -> bool
        ensures { result ≡ reading.is_comma (sign_in (left_of self.now)) }
    {
        matches!(self.sign(), Some(Sign::Comma))
    }

    pub(crate) fn at_semicolon(&self) -> bool
        ensures { result ≡ reading.is_semicolon (sign_in (left_of self.now)) }
    {
        matches!(self.sign(), Some(Sign::Semicolon))
    }

    pub(crate) fn at_becomes(&self) -> bool
        ensures { result ≡ reading.is_becomes (sign_in (left_of self.now)) }
    {
        is_becomes(self.sign())
    }

    pub(crate) fn at_open(&self, bracket: Bracket) -> bool
        ensures { result ≡ reading.is_open bracket (sign_in (left_of self.now)) }
    {
        match bracket {
            Bracket::Round => matches!(self.sign(), Some(Sign::OpenRound)),
            Bracket::Square => matches!(self.sign(), Some(Sign::OpenSquare)),
            Bracket::Curly => matches!(self.sign(), Some(Sign::OpenCurly)),
        }
    }

    pub(crate) fn at_close(&self, bracket: Bracket) -> bool
        ensures { result ≡ reading.is_close bracket (sign_in (left_of self.now)) }
    {
        match bracket {
            Bracket::Round => matches!(self.sign(), Some(Sign::CloseRound)),
            Bracket::Square => matches!(self.sign(), Some(Sign::CloseSquare)),
            Bracket::Curly => matches!(self.sign(), Some(Sign::CloseCurly)),
        }
    }

    /// Whether a block ends here: at the end, or before its closing brace.
    pub(crate) fn at_block_end(&self) -> bool
        ensures { result ≡ reading.is_block_end (left_of self.now) }
    {
        self.at_end() || self.at_close(Bracket::Curly)
    }
}
