// What stands before a last block, which is read behind it.
ghost use Rattle.kernele.specs.View.{tree_of, trees_of};
ghost use Rattle.kernele.specs.Tree.{for_tree};
ghost use Rattle.ereader_parser.specs.Heads.{whole_of, whole_method};
ghost use Rattle.ereader_parser.specs.View.{Makes, MakesHead, PutsMethod};

use ereader_forms::methods;
use ereader_nodes::nodes;
use ereader_signs::stop::ReadStop;
use ids::text::Text;
use kernele::tree::{Expr, Method, Pattern};
use std::alloc::Global;
use std::sync::Arc;

/// What begins with a word, up to its last block.
#[derive(Drop)]
pub enum Head {
    /// The condition of `while`.
    While(Arc<Expr>),
    /// The pattern and the list of `for`.
    For(Pattern, Arc<Expr>),
    /// The block of `try` and the pattern of its `catch`.
    Try(Vec<Expr>, Pattern),
    /// The name of `escape`.
    Escape(Text),
}

impl Head {
    /// That of `for`.
    pub(crate) fn each(alloc: Global, pattern: Pattern, list: Expr) -> Result<Head, ReadStop>
        ensures { MakesHead result (for_tree pattern (tree_of list)) }
    {
        let list = Arc::new(alloc, list)?;
        Ok(Head::For(pattern, list))
    }

    /// The whole, with its last block.
    pub(crate) fn whole(self, alloc: Global, body: Vec<Expr>) -> Result<Expr, ReadStop>
        ensures { Makes result (whole_of self (trees_of body.items)) }
    {
        let whole = match self {
            Head::While(condition) => nodes::repeat_while(alloc, condition, body),
            Head::For(pattern, list) => nodes::repeat_for(alloc, pattern, list, body),
            Head::Try(first, pattern) => nodes::try_catch(alloc, first, pattern, body),
            Head::Escape(name) => nodes::escape(alloc, name, body),
        };
        Ok(whole?)
    }
}

/// A method up to its block.
#[derive(Drop)]
pub struct MethodHead {
    /// Whether it may return.
    pub returns: bool,
    pub verb: Text,
    pub parameters: Vec<Pattern>,
}

impl MethodHead {
    /// Puts the method with its block behind those before it.
    pub(crate) fn put(
        self,
        alloc: Global,
        body: Vec<Expr>,
        methods: &mut Vec<Method>,
    ) -> Result<(), ReadStop>
        ensures { PutsMethod result methods.old.items (whole_method self (trees_of body.items)) methods.new.items }
    {
        let body = methods::block_of(alloc, self.returns, body)?;
        let method = nodes::method(alloc, self.verb, self.parameters, body)?;
        methods.push(method)?;
        Ok(())
    }
}
