// Blocks, and what begins with a word and has blocks.
ghost use Rattle.std.specs.Prelude.{◌≡◌, OnOk};
ghost use Rattle.ereader_grammar.specs.Reading as reading;
ghost use Rattle.ereader_grammar.specs.Reading.{rest_of, within_at};
ghost use Rattle.kernele.specs.View.{tree_of, trees_of};
ghost use Rattle.ereader_parser.specs.Heads.{head_at, caught_at};
ghost use Rattle.ereader_parser.specs.View.{left_of, IsNoLonger, Gives, GivesShared, GivesMany, GivesPlain, GivesHead, GoesTo, PutsItem};

use crate::head::Head;
use crate::made;
use crate::reader::Reader;
use ereader_forms::words::RefWord;
use ereader_nodes::nodes;
use ereader_signs::stop::ReadStop;
use etoken::breaks::Bracket;
use etoken::token::Reserved;
use kernele::tree::{Expr, Pattern, Primitive};
use std::sync::Arc;

impl<'a> Reader<'a> {
    /// Goes past semicolons.
    fn skip_semicolons(&mut self)
        ensures { left_of self.new ≡ reading.skip_semicolons (left_of self.old) }
    {
        'more: while self.at_semicolon() {
            self.skip();
        }
    }

    /// The semicolons behind an item, or the block's end.
    fn separator(&mut self) -> Result<(), ReadStop>
        ensures gives { GoesTo result self.old self.new reading.separator_at }
        ensures shorter { OnOk result (IsNoLonger self.old self.new) }
    {
        if !self.at_block_end() && !self.at_semicolon() {
            return Err(ReadStop::Unexpected);
        }
        self.skip_semicolons();
        Ok(())
    }

    /// Puts an item of a block behind those before it, and goes past what parts it from the next.
    fn put_item(&mut self, items: &mut Vec<Expr>, item: Expr) -> Result<(), ReadStop>
        ensures { PutsItem result self.old items.old.items item self.new items.new.items }
    {
        items.push(item)?;
        self.separator()
    }

    /// The items of a block, up to its end, where parts lie within one another at most `left` deep.
    ///
    /// # Errors
    ///
    /// `Unexpected` before the first token that can't follow those before it; `Memory` where memory runs out.
    #[cycle(read)]
    pub fn block(&mut self, left: usize) -> Result<Vec<Expr>, ReadStop>
        ensures gives { GivesMany result self.old self.new (reading.block_at (within_at left)) }
        ensures shorter { OnOk result (IsNoLonger self.old self.new) }
    {
        let mut items = Vec::new(self.alloc);
        self.skip_semicolons();
        'more: while !self.at_block_end() {
            let item = self.expr(left)?;
            self.put_item(&mut items, item)?;
        }
        Ok(items)
    }

    /// A block in its braces.
    #[cycle(read)]
    pub(crate) fn braced(&mut self, left: usize) -> Result<Vec<Expr>, ReadStop>
        ensures { GivesMany result self.old self.new (reading.braced_at (within_at left)) }
    {
        self.open(Bracket::Curly)?;
        let items = self.block(left)?;
        self.close(Bracket::Curly)?;
        Ok(items)
    }

    /// The bracket behind a condition.
    fn closed_condition(&mut self, condition: Expr) -> Result<Arc<Expr>, ReadStop>
        ensures { GivesShared result self.old self.new (λ a. reading.past (reading.is_close Bracket.Round) (tree_of condition, a)) }
    {
        let condition = Arc::new(self.alloc, condition)?;
        self.close(Bracket::Round)?;
        Ok(condition)
    }

    /// An expression in round brackets.
    #[cycle(read)]
    fn condition(&mut self, left: usize) -> Result<Arc<Expr>, ReadStop>
        ensures { GivesShared result self.old self.new (reading.condition_at (within_at left)) }
    {
        self.open(Bracket::Round)?;
        let condition = self.expression(left)?;
        self.closed_condition(condition)
    }

    /// What begins with the word in front and is no literal, if an expression may.
    #[cycle(read)]
    pub(crate) fn control(&mut self, left: usize, word: Reserved) -> Result<Expr, ReadStop>
        ensures { Gives result self.old self.new (λ a. reading.control_at (within_at left) word (rest_of a)) }
    {
        match word {
            Reserved::If => {
                self.skip();
                self.conditional(left)
            }
            Reserved::Throw => {
                self.skip();
                let problem = self.condition(left)?;
                Ok(nodes::primitive(Primitive::Throw, problem))
            }
            Reserved::Def => {
                self.skip();
                self.object(left)
            }
            Reserved::When => {
                self.skip();
                self.when(left)
            }
            Reserved::Ref => {
                self.skip();
                self.reference(left)
            }
            _ => {
                let head = self.head(left, word)?;
                let body = self.braced(left)?;
                head.whole(self.alloc, body)
            }
        }
    }

    /// What begins with the word in front, up to its last block, if that word has one.
    #[cycle(read)]
    #[inline(never)]
    fn head(&mut self, left: usize, word: Reserved) -> Result<Head, ReadStop>
        ensures { GivesHead result self.old self.new (λ a. head_at (within_at left) word (rest_of a)) }
    {
        match word {
            Reserved::While => {
                self.skip();
                Ok(Head::While(self.condition(left)?))
            }
            Reserved::For => {
                self.skip();
                let pattern = self.each()?;
                let list = self.expression(left)?;
                Head::each(self.alloc, pattern, list)
            }
            Reserved::Try => {
                self.skip();
                let body = self.braced(left)?;
                self.caught(body)
            }
            Reserved::Escape => {
                self.skip();
                Ok(Head::Escape(self.name()?))
            }
            _ => Err(ReadStop::Unexpected),
        }
    }

    /// A pattern and the `in` behind it.
    fn each(&mut self) -> Result<Pattern, ReadStop>
        ensures { GivesPlain result self.old self.new reading.each_at }
    {
        let pattern = self.pattern()?;
        if !self.at_in() {
            return Err(ReadStop::Unexpected);
        }
        self.skip();
        Ok(pattern)
    }

    /// The `catch` and the pattern behind the block of a `try`.
    fn caught(&mut self, body: Vec<Expr>) -> Result<Head, ReadStop>
        ensures { GivesHead result self.old self.new (λ a. caught_at (trees_of body.items, a)) }
    {
        if !self.at_catch() {
            return Err(ReadStop::Unexpected);
        }
        self.skip();
        Ok(Head::Try(body, self.pattern()?))
    }

    /// What stands behind `when`.
    #[cycle(read)]
    #[inline(never)]
    fn when(&mut self, left: usize) -> Result<Expr, ReadStop>
        ensures { Gives result self.old self.new (reading.when_at (within_at left)) }
    {
        let value = self.condition(left)?;
        self.arrow()?;
        let body = self.braced(left)?;
        self.when_from(left, value, body)
    }

    /// The `catch` behind the block of a `when`, if there is one.
    #[cycle(read)]
    fn when_from(
        &mut self,
        left: usize,
        value: Arc<Expr>,
        body: Vec<Expr>,
    ) -> Result<Expr, ReadStop>
        ensures { Gives result self.old self.new (reading.when_from (within_at left) (tree_of value.value) (trees_of body.items)) }
    {
        if !self.at_catch() {
            return made::when(self.alloc, value, body);
        }
        self.skip();
        let pattern = self.pattern()?;
        let handler = self.braced(left)?;
        made::when_catch(self.alloc, value, body, pattern, handler)
    }

    /// Round brackets with nothing in them, behind `Ref.promise`.
    fn promise(&mut self) -> Result<Expr, ReadStop>
        ensures { Gives result self.old self.new reading.promise_at }
    {
        self.open(Bracket::Round)?;
        self.close(Bracket::Round)?;
        Ok(nodes::new_promise())
    }

    /// What stands behind `Ref`.
    #[cycle(read)]
    #[inline(never)]
    fn reference(&mut self, left: usize) -> Result<Expr, ReadStop>
        ensures { Gives result self.old self.new (reading.ref_at (within_at left)) }
    {
        match self.ref_word()? {
            RefWord::Promise => self.promise(),
            RefWord::Broken => {
                let problem = self.condition(left)?;
                Ok(nodes::primitive(Primitive::BreakRef, problem))
            }
            RefWord::State => {
                let value = self.condition(left)?;
                Ok(nodes::primitive(Primitive::StateRef, value))
            }
        }
    }

    /// What stands behind `if`.
    #[cycle(read)]
    fn conditional(&mut self, left: usize) -> Result<Expr, ReadStop>
        ensures { Gives result self.old self.new (reading.if_at (within_at left)) }
    {
        let condition = self.condition(left)?;
        let first = self.braced(left)?;
        let second = self.second(left)?;
        made::choice(self.alloc, condition, first, second)
    }

    /// The second block, if there is one: an `if` behind `else` is all of it.
    #[cycle(read)]
    fn second(&mut self, left: usize) -> Result<Vec<Expr>, ReadStop>
        ensures { GivesMany result self.old self.new (reading.else_at (within_at left)) }
    {
        if !self.at_else() {
            return Ok(Vec::new(self.alloc));
        }
        self.skip();
        if !self.at_if() {
            return self.braced(left);
        }
        if left == 0 {
            return Err(ReadStop::Unexpected);
        }
        self.skip();
        let inner = self.conditional(left - 1)?;
        made::one(self.alloc, inner)
    }
}
