// Objects and their methods.
ghost use Rattle.ereader_grammar.specs.Reading as reading;
ghost use Rattle.ereader_grammar.specs.Reading.{within_at};
ghost use Rattle.ereader_parser.specs.Heads.{method_head_at, parameters_at};
ghost use Rattle.ereader_parser.specs.View.{Gives, GivesMethodHead, GivesPatterns};

use crate::head::MethodHead;
use crate::made;
use crate::reader::Reader;
use ereader_signs::stop::ReadStop;
use etoken::breaks::Bracket;
use kernele::tree::{Expr, Pattern};

impl<'a> Reader<'a> {
    /// Parameters in their brackets.
    fn parameters(&mut self) -> Result<Vec<Pattern>, ReadStop>
        ensures { GivesPatterns result self.old self.new parameters_at }
    {
        self.open(Bracket::Round)?;
        self.pattern_list(Bracket::Round)
    }

    /// What stands behind the `def` of an object: one with methods, or one with a block and its parameters.
    #[cycle(read)]
    #[inline(never)]
    pub(crate) fn object(&mut self, left: usize) -> Result<Expr, ReadStop>
        ensures { Gives result self.old self.new (reading.object_at (within_at left)) }
    {
        let pattern = self.pattern()?;
        if self.at_open(Bracket::Curly) {
            self.skip();
            return self.members(left, pattern);
        }
        let parameters = self.parameters()?;
        let body = self.braced(left)?;
        made::function(self.alloc, pattern, parameters, body)
    }

    /// An object that the pattern is bound to, behind its opening brace.
    #[cycle(read)]
    fn members(&mut self, left: usize, pattern: Pattern) -> Result<Expr, ReadStop>
        ensures { Gives result self.old self.new (reading.members_at (within_at left) pattern) }
    {
        let mut methods = Vec::new(self.alloc);
        'more: while self.at_method() {
            let head = self.method_head()?;
            let body = self.braced(left)?;
            head.put(self.alloc, body, &mut methods)?;
        }
        self.close(Bracket::Curly)?;
        made::object(self.alloc, pattern, methods)
    }

    /// What stands before the block of a method, where its first word is in front.
    fn method_head(&mut self) -> Result<MethodHead, ReadStop>
        ensures { GivesMethodHead result self.old self.new method_head_at }
    {
        let returns = self.at_to();
        self.skip();
        let verb = self.method_verb()?;
        let parameters = self.pattern_list(Bracket::Round)?;
        Ok(MethodHead {
            returns,
            verb,
            parameters,
        })
    }
}
