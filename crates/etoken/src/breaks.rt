// Which line breaks give a semicolon.
ghost use Rattle.std.specs.Prelude.{◌≡◌, ◌&&◌, [], false, OnOk, IfErr, reverse};
ghost use Rattle.etoken.specs.Breaks.{may_end, may_begin, word_begins, in_items, behind};
ghost use Rattle.etoken.specs.declared.fault.TokenFault.TheVariants.{Memory};

use crate::fault::TokenFault;
use crate::token::{Reserved, Sign, Token};
use std::alloc::Global;

/// A kind of bracket.
#[derive(Clone, Copy)]
pub enum Bracket {
    Round,
    Square,
    Curly,
}

impl Token {
    /// Whether an item of a block may end with it.
    pub(crate) fn may_end(&self) -> bool
        ensures { result ≡ may_end self.now }
    {
        match self {
            Token::Int(_) | Token::Text(_) | Token::Name(_) => true,
            Token::Word(word) => matches!(
                word,
                Reserved::True | Reserved::False | Reserved::Null | Reserved::Return
            ),
            Token::Sign(sign) => matches!(
                sign,
                Sign::CloseRound | Sign::CloseSquare | Sign::CloseCurly
            ),
        }
    }

    /// Whether an item of a block may begin with it.
    pub(crate) fn may_begin(&self) -> bool
        ensures { result ≡ may_begin self.now }
    {
        match self {
            Token::Int(_) | Token::Text(_) | Token::Name(_) => true,
            Token::Word(word) => word.may_begin(),
            Token::Sign(sign) => matches!(
                sign,
                Sign::OpenRound | Sign::OpenSquare | Sign::Not | Sign::Minus
            ),
        }
    }
}

impl Reserved {
    /// Whether an item of a block may begin with it.
    pub(crate) fn may_begin(&self) -> bool
        ensures { result ≡ word_begins self.now }
    {
        !matches!(
            self,
            Reserved::Method | Reserved::To | Reserved::Else | Reserved::In | Reserved::Catch
        )
    }
}

/// The open brackets, and whether an item may end with the last token.
#[derive(Drop)]
pub struct Breaks {
    /// The innermost last.
    pub brackets: Vec<Bracket>,
    pub ended: bool,
}

impl Breaks {
    pub(crate) fn new(alloc: Global) -> Breaks
        ensures brackets { result.brackets.items ≡ [] }
        ensures ended { result.ended ≡ false }
    {
        Breaks {
            brackets: Vec::new(alloc),
            ended: false,
        }
    }

    /// Whether a line break before the token gives a semicolon.
    pub(crate) fn part(&self, broken: bool, token: &Token) -> bool
        ensures { result ≡ (broken && in_items (reverse self.now.brackets.items) && self.now.ended && may_begin token.now) }
    {
        let in_items = matches!(self.brackets.last(), None | Some(Bracket::Curly));
        broken && in_items && self.ended && token.may_begin()
    }

    /// Goes past the token.
    pub(crate) fn pass(&mut self, token: &Token) -> Result<(), TokenFault>
        ensures brackets { OnOk result (reverse self.new.brackets.items ≡ behind token.now (reverse self.old.brackets.items)) }
        ensures ended { OnOk result (self.new.ended ≡ may_end token.now) }
        // The one error is of memory.
        ensures err { IfErr result (λ f. f ≡ Memory) }
    {
        match token {
            Token::Sign(Sign::OpenRound) => self.brackets.push(Bracket::Round)?,
            Token::Sign(Sign::OpenSquare) => self.brackets.push(Bracket::Square)?,
            Token::Sign(Sign::OpenCurly) => self.brackets.push(Bracket::Curly)?,
            Token::Sign(Sign::CloseRound | Sign::CloseSquare | Sign::CloseCurly) => {
                self.brackets.pop();
            }
            _ => {}
        }
        self.ended = token.may_end();
        Ok(())
    }
}
