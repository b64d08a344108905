// Nodes of trees, where want of memory ends the reading. They stand apart from the recursion, since each further way out of one
// of its functions is dear to prove.
ghost use Rattle.kernele.specs.Tree.{list_tree, hide as hide_tree, if_tree, object_tree, when_tree, when_catch_tree};
ghost use Rattle.kernele.specs.View.{tree_of, trees_of, methods_of};
ghost use Rattle.ereader_forms.specs.Forms.{alone, joined as joined_trees, return_tree, function_tree};
ghost use Rattle.ereader_parser.specs.Heads.{given_to, prefixed as prefixed_tree};
ghost use Rattle.ereader_parser.specs.View.{Makes, MakesMany};

use ereader_forms::{methods, operators};
use ereader_nodes::nodes;
use ereader_nodes::target::Target;
use ereader_signs::operator::{Operator, Prefix};
use ereader_signs::stop::ReadStop;
use kernele::tree::{Expr, Method, Pattern};
use std::alloc::Global;
use std::sync::Arc;

/// A vector of one expression.
pub(crate) fn one(alloc: Global, item: Expr) -> Result<Vec<Expr>, ReadStop>
    ensures { MakesMany result (alone (tree_of item)) }
{
    Ok(nodes::one(alloc, item)?)
}

pub(crate) fn list(alloc: Global, items: Vec<Expr>) -> Result<Expr, ReadStop>
    ensures { Makes result (list_tree (trees_of items.items)) }
{
    Ok(nodes::list(alloc, items)?)
}

/// A hidden block.
pub(crate) fn hidden(alloc: Global, body: Vec<Expr>) -> Result<Expr, ReadStop>
    ensures { Makes result (hide_tree (trees_of body.items)) }
{
    Ok(nodes::hide(alloc, body)?)
}

/// A condition, and a block for each of its answers.
pub(crate) fn choice(
    alloc: Global,
    condition: Arc<Expr>,
    first: Vec<Expr>,
    second: Vec<Expr>,
) -> Result<Expr, ReadStop>
    ensures { Makes result (if_tree (tree_of condition.value) (trees_of first.items) (trees_of second.items)) }
{
    Ok(nodes::choose(alloc, condition, first, second)?)
}

/// A value, and the block that runs when it is known.
pub(crate) fn when(alloc: Global, value: Arc<Expr>, body: Vec<Expr>) -> Result<Expr, ReadStop>
    ensures { Makes result (when_tree (tree_of value.value) (trees_of body.items)) }
{
    Ok(nodes::when(alloc, value, body)?)
}

/// The same, and a handler of its problem.
pub(crate) fn when_catch(
    alloc: Global,
    value: Arc<Expr>,
    body: Vec<Expr>,
    pattern: Pattern,
    handler: Vec<Expr>,
) -> Result<Expr, ReadStop>
    ensures { Makes result (when_catch_tree (tree_of value.value) (trees_of body.items) pattern (trees_of handler.items)) }
{
    Ok(nodes::when_catch(alloc, value, body, pattern, handler)?)
}

/// What `return` stands for.
pub(crate) fn returned(alloc: Global, value: Expr) -> Result<Expr, ReadStop>
    ensures { Makes result (return_tree (tree_of value)) }
{
    Ok(methods::returned(alloc, value)?)
}

/// A value, and what it is given to, if it is given to anything.
pub(crate) fn given(alloc: Global, target: Option<Target>, value: Expr) -> Result<Expr, ReadStop>
    ensures { Makes result (given_to target (tree_of value)) }
{
    match target {
        Some(target) => Ok(nodes::give(alloc, target, value)?),
        None => Ok(value),
    }
}

/// An operand, and the operator before it, if there is one.
pub(crate) fn prefixed(
    alloc: Global,
    prefix: Option<Prefix>,
    operand: Expr,
) -> Result<Expr, ReadStop>
    ensures { Makes result (prefixed_tree prefix (tree_of operand)) }
{
    match prefix {
        Some(prefix) => Ok(operators::prefixed(alloc, prefix, operand)?),
        None => Ok(operand),
    }
}

/// What an operator between two operands stands for.
pub(crate) fn joined(
    alloc: Global,
    left: Arc<Expr>,
    operator: Operator,
    right: Expr,
) -> Result<Expr, ReadStop>
    ensures { Makes result (joined_trees operator (tree_of left.value) (tree_of right)) }
{
    Ok(operators::join(alloc, left, operator, right)?)
}

/// An object with one method, and what it is bound to.
pub(crate) fn function(
    alloc: Global,
    pattern: Pattern,
    parameters: Vec<Pattern>,
    body: Vec<Expr>,
) -> Result<Expr, ReadStop>
    ensures { Makes result (function_tree pattern parameters.items (trees_of body.items)) }
{
    Ok(methods::function(alloc, pattern, parameters, body)?)
}

/// An object and what it is bound to.
pub(crate) fn object(
    alloc: Global,
    pattern: Pattern,
    methods: Vec<Method>,
) -> Result<Expr, ReadStop>
    ensures { Makes result (object_tree pattern (methods_of methods.items)) }
{
    Ok(nodes::object(alloc, pattern, methods)?)
}
