// Expressions without operators, and what stands in brackets.
ghost use Rattle.kernele.specs.View.{tree_of};
ghost use Rattle.ereader_grammar.specs.Reading as reading;
ghost use Rattle.ereader_grammar.specs.Reading.{rest_of, within_at};
ghost use Rattle.ereader_parser.specs.View.{Gives, GivesMany};

use crate::made;
use crate::reader::Reader;
use ereader_forms::words;
use ereader_nodes::nodes;
use ereader_signs::stop::ReadStop;
use etoken::breaks::Bracket;
use etoken::token::{Sign, Token};
use kernele::tree::Expr;

impl<'a> Reader<'a> {
    /// Arguments with commas between them, and the closing bracket.
    #[cycle(read)]
    pub(crate) fn args(&mut self, left: usize, bracket: Bracket) -> Result<Vec<Expr>, ReadStop>
        ensures { GivesMany result self.old self.new (reading.args_at (within_at left) bracket) }
    {
        if self.at_close(bracket) {
            self.skip();
            return Ok(Vec::new(self.alloc));
        }
        let first = self.expression(left)?;
        let mut items = made::one(self.alloc, first)?;
        'more: while self.at_comma() {
            self.skip();
            let item = self.expression(left)?;
            items.push(item)?;
        }
        self.close(bracket)?;
        Ok(items)
    }

    #[cycle(read)]
    pub(crate) fn primary(&mut self, left: usize) -> Result<Expr, ReadStop>
        ensures { Gives result self.old self.new (reading.primary_at (within_at left)) }
    {
        let Some((first, rest)) = self.rest.split_first() else {
            return Err(ReadStop::Unexpected);
        };
        match &first.token {
            Token::Int(number) => {
                self.rest = rest;
                Ok(nodes::integer(*number))
            }
            Token::Text(text) => {
                let text = nodes::text(text)?;
                self.rest = rest;
                Ok(text)
            }
            Token::Name(name) => {
                let noun = nodes::noun(name)?;
                self.rest = rest;
                Ok(noun)
            }
            Token::Word(word) => {
                let Some(literal) = words::literal(*word) else {
                    return self.control(left, *word);
                };
                self.rest = rest;
                Ok(literal)
            }
            Token::Sign(sign) => self.bracketed(left, *sign),
        }
    }

    /// What begins with the sign in front, if an expression may.
    #[cycle(read)]
    fn bracketed(&mut self, left: usize, sign: Sign) -> Result<Expr, ReadStop>
        ensures { Gives result self.old self.new (λ a. reading.bracket_at (within_at left) sign (rest_of a)) }
    {
        match sign {
            Sign::OpenRound => {
                self.skip();
                let inner = self.expr(left)?;
                self.closed(inner)
            }
            Sign::OpenSquare => {
                self.skip();
                let items = self.args(left, Bracket::Square)?;
                made::list(self.alloc, items)
            }
            Sign::OpenCurly => {
                self.skip();
                let body = self.block(left)?;
                self.close(Bracket::Curly)?;
                made::hidden(self.alloc, body)
            }
            _ => Err(ReadStop::Unexpected),
        }
    }

    /// The bracket behind an expression in round brackets.
    fn closed(&mut self, inner: Expr) -> Result<Expr, ReadStop>
        ensures { Gives result self.old self.new (λ a. reading.past (reading.is_close Bracket.Round) (tree_of inner, a)) }
    {
        if !self.at_close(Bracket::Round) {
            return Err(ReadStop::Unexpected);
        }
        self.skip();
        Ok(inner)
    }

    /// An expression, and what it is given to, if it is given to anything.
    #[cycle(read)]
    pub(crate) fn expr(&mut self, left: usize) -> Result<Expr, ReadStop>
        ensures { Gives result self.old self.new (reading.expr_at (within_at left)) }
    {
        if self.at_return() {
            self.skip();
            return self.returned(left);
        }
        let target = self.target()?;
        let value = self.expression(left)?;
        made::given(self.alloc, target, value)
    }

    /// What stands behind `return`.
    #[cycle(read)]
    #[inline(never)]
    fn returned(&mut self, left: usize) -> Result<Expr, ReadStop>
        ensures { Gives result self.old self.new (reading.return_at (within_at left)) }
    {
        if !self.at_operand() {
            return made::returned(self.alloc, Expr::Null);
        }
        let value = self.expression(left)?;
        made::returned(self.alloc, value)
    }
}
