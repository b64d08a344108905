// The tokens of a whole text.
ghost use Rattle.std.specs.Prelude.{◌≡◌, ◌<◌, ◌≤◌, ◌++◌, ◌∷◌, ◌⊎◌, [], false, length, reverse, OnOk, IfOk, IfErr};
ghost use Rattle.etoken.specs.declared.fault.TokenFault.TheVariants.{Memory, TooLong};
ghost use Rattle.etoken.specs.Breaks.{may_end, behind, with_break};
ghost use Rattle.etoken.specs.Tokens.{Answers};
ghost use Rattle.etoken.specs.declared.tokens.TheConstants.{MAX_TOKENS};

use crate::breaks::Breaks;
use crate::bytes::blanks;
use crate::fault::TokenFault;
use crate::lexer::Lexer;
use crate::token::{Placed, Sign, Token};
use std::alloc::Global;

/// The most bytes that a text may have.
pub const MAX_BYTES: usize = 65_536;

/// The most tokens that a text may have.
pub const MAX_TOKENS: usize = 16_384;

/// How many tokens there is room for to begin with: those of most questions.
const ROOM: usize = 16;

/// The tokens so far, with the semicolons that line breaks gave.
#[derive(Drop)]
struct Output {
    breaks: Breaks,
    tokens: Vec<Placed>,
    ghost in_limit: { length tokens.items ≤ MAX_TOKENS },
}

impl Output {
    fn new(alloc: Global) -> Result<Output, TokenFault>
        ensures tokens { IfOk result (λ o. o.tokens.items ≡ []) }
        ensures brackets { IfOk result (λ o. o.breaks.brackets.items ≡ []) }
        ensures ended { IfOk result (λ o. o.breaks.ended ≡ false) }
        ensures err { IfErr result (λ f. f ≡ Memory) }
    {
        Ok(Output {
            breaks: Breaks::new(alloc),
            tokens: Vec::with_capacity(alloc, ROOM)?,
        })
    }

    /// Adds a token, and a semicolon before it where a line break there gives one.
    fn add(&mut self, broken: bool, placed: Placed) -> Result<(), TokenFault>
        ensures tokens { OnOk result (self.new.tokens.items ≡ self.old.tokens.items ++ with_break (reverse self.old.breaks.brackets.items) self.old.breaks.ended (record { broken = broken; placed = placed })) }
        ensures brackets { OnOk result (reverse self.new.breaks.brackets.items ≡ behind placed.token (reverse self.old.breaks.brackets.items)) }
        ensures ended { OnOk result (self.new.breaks.ended ≡ may_end placed.token) }
        ensures err { IfErr result (λ f. (f ≡ Memory) ⊎ ((f ≡ TooLong) × (MAX_TOKENS < length (self.old.tokens.items ++ with_break (reverse self.old.breaks.brackets.items) self.old.breaks.ended (record { broken = broken; placed = placed }))))) }
    {
        if self.breaks.part(broken, &placed.token) {
            self.push(Placed {
                token: Token::Sign(Sign::Semicolon),
                offset: placed.offset,
            })?;
        }
        self.breaks.pass(&placed.token)?;
        self.push(placed)
    }

    fn push(&mut self, placed: Placed) -> Result<(), TokenFault>
        ensures tokens { OnOk result (self.new.tokens.items ≡ self.old.tokens.items ++ placed ∷ []) }
        ensures breaks { self.new.breaks ≡ self.old.breaks }
        ensures err { IfErr result (λ f. (f ≡ Memory) ⊎ ((f ≡ TooLong) × (length self.old.tokens.items ≡ MAX_TOKENS))) }
    {
        if self.tokens.len() == MAX_TOKENS {
            return Err(TokenFault::TooLong);
        }
        self.tokens.push(placed)?;
        Ok(())
    }
}

/// The tokens of a text, with the semicolons that line breaks give.
///
/// # Errors
/// `TooLong` over 65,536 bytes. Then, from left to right, the first token that is bad, or `TooLong` where there would be
/// a 16,385th token. `Memory` where memory runs out.
pub fn tokens(alloc: Global, text: &str) -> Result<Vec<Placed>, TokenFault>
    ensures { Answers text.now result }
{
    if text.len() > MAX_BYTES {
        return Err(TokenFault::TooLong);
    }
    let lexer = Lexer {
        alloc,
        length: text.len(),
    };
    let mut output = Output::new(alloc)?;
    let mut rest = text;
    'more: loop {
        let (broken, front) = blanks(rest);
        if front.is_empty() {
            return Ok(output.tokens);
        }
        let (token, behind) = lexer.token(front)?;
        let offset = lexer.offset(front);
        output.add(broken, Placed { token, offset })?;
        rest = behind;
    }
}
