// Expressions by how tightly their operators bind. What goes on behind an operand is read apart from the operand, so that
// few and small frames lie on the stack below one, as in `for a in for b in ..`, which nests without brackets.
ghost use Rattle.std.specs.Prelude.{OnOk};
ghost use Rattle.kernele.specs.View.{tree_of};
ghost use Rattle.ereader_grammar.specs.Reading as reading;
ghost use Rattle.ereader_grammar.specs.Reading.{within_at};
ghost use Rattle.ereader_signs.specs.Signs.{operator_of};
ghost use Rattle.ereader_parser.specs.Levels.{level_at, level_from};
ghost use Rattle.ereader_parser.specs.View.{IsNoLonger, Gives, GivesPlain};

use crate::level::{joins_two, tighter};
use crate::made;
use crate::reader::Reader;
use ereader_forms::operators;
use ereader_signs::operator::{CallSign, Level};
use ereader_signs::stop::ReadStop;
use etoken::breaks::Bracket;
use ids::text::Text;
use kernele::tree::Expr;
use std::sync::Arc;

impl<'a> Reader<'a> {
    /// The verb of a call or a send, up to its arguments.
    fn verb(&mut self, link: CallSign) -> Result<Text, ReadStop>
        ensures gives { GivesPlain result self.old self.new (reading.verb_at link) }
        ensures shorter { OnOk result (IsNoLonger self.old self.new) }
    {
        if link.is_send() {
            self.send_verb()
        } else {
            self.call_verb(link)
        }
    }

    /// The verb of a send, up to its arguments: `run`, where no name stands for it.
    fn send_verb(&mut self) -> Result<Text, ReadStop>
        ensures gives { GivesPlain result self.old self.new reading.send_verb_at }
        ensures shorter { OnOk result (IsNoLonger self.old self.new) }
    {
        if !self.at_open(Bracket::Round) {
            return self.method_verb();
        }
        let run = Text::new(self.alloc, "run")?;
        self.skip();
        Ok(run)
    }

    /// The verb of a call, up to its arguments.
    fn call_verb(&mut self, link: CallSign) -> Result<Text, ReadStop>
        ensures gives { GivesPlain result self.old self.new (reading.call_verb_at link) }
        ensures shorter { OnOk result (IsNoLonger self.old self.new) }
    {
        match link.verb(self.alloc)? {
            Some(verb) => Ok(verb),
            None => self.method_verb(),
        }
    }

    /// A verb and the bracket behind it.
    pub(crate) fn method_verb(&mut self) -> Result<Text, ReadStop>
        ensures gives { GivesPlain result self.old self.new reading.method_verb_at }
        ensures shorter { OnOk result (IsNoLonger self.old self.new) }
    {
        let verb = self.name()?;
        if !self.at_open(Bracket::Round) {
            return Err(ReadStop::Unexpected);
        }
        self.skip();
        Ok(verb)
    }

    /// An expression that gives its value to no name, where parts lie within one another less than `left` deep. Each
    /// such part is behind at least one token of the one around it, so the number of tokens is always enough.
    #[cycle(read)]
    pub(crate) fn expression(&mut self, left: usize) -> Result<Expr, ReadStop>
        ensures { Gives result self.old self.new (within_at left).expression }
    {
        if left == 0 {
            return Err(ReadStop::Unexpected);
        }
        self.operands(left - 1, Level::Disjunction)
    }

    /// Operands and the operators of a level between them.
    #[cycle(read)]
    fn operands(&mut self, left: usize, level: Level) -> Result<Expr, ReadStop>
        ensures { Gives result self.old self.new (level_at level (within_at left)) }
    {
        let prefix = self.prefix();
        let operand = self.primary(left)?;
        let operand = self.postfix_from(left, operand)?;
        let first = made::prefixed(self.alloc, prefix, operand)?;
        self.operands_from(left, level, first)
    }

    /// The same behind the first operand: what binds more tightly goes first.
    #[cycle(read)]
    #[inline(never)]
    fn operands_from(&mut self, left: usize, level: Level, first: Expr) -> Result<Expr, ReadStop>
        ensures { Gives result self.old self.new (level_from level (within_at left) (tree_of first)) }
    {
        let Some(tighter) = tighter(level) else {
            return Ok(first);
        };
        let operand = self.operands_from(left, tighter, first)?;
        if joins_two(level) {
            return self.comparison_from(left, operand);
        }
        self.joined_from(left, level, tighter, operand)
    }

    /// What the operators of a level join to its first operand, where all operands are `tighter`.
    #[cycle(read)]
    #[inline(never)]
    fn joined_from(
        &mut self,
        left: usize,
        level: Level,
        tighter: Level,
        first: Expr,
    ) -> Result<Expr, ReadStop>
        ensures { Gives result self.old self.new (reading.operands_from (operator_of level) (level_at tighter (within_at left)) (tree_of first)) }
    {
        let mut joined = first;
        'more: while let Some(operator) = self.operator(level) {
            self.skip();
            let whole = Arc::new(self.alloc, joined)?;
            let right = self.operands(left, tighter)?;
            joined = made::joined(self.alloc, whole, operator, right)?;
        }
        Ok(joined)
    }

    #[cycle(read)]
    #[inline(never)]
    fn comparison_from(&mut self, left: usize, first: Expr) -> Result<Expr, ReadStop>
        ensures { Gives result self.old self.new (reading.comparison_from (within_at left) (tree_of first)) }
    {
        let Some(operator) = self.operator(Level::Comparison) else {
            return Ok(first);
        };
        self.skip();
        let first = Arc::new(self.alloc, first)?;
        let second = self.operands(left, Level::Sum)?;
        made::joined(self.alloc, first, operator, second)
    }

    #[cycle(read)]
    #[inline(never)]
    fn postfix_from(&mut self, left: usize, first: Expr) -> Result<Expr, ReadStop>
        ensures { Gives result self.old self.new (reading.postfix_from (within_at left) (tree_of first)) }
    {
        let mut postfix = first;
        'more: while let Some(link) = self.link() {
            self.skip();
            let receiver = Arc::new(self.alloc, postfix)?;
            let verb = self.verb(link)?;
            let args = self.args(left, link.bracket())?;
            postfix = operators::link(self.alloc, link, receiver, verb, args)?;
        }
        Ok(postfix)
    }
}
