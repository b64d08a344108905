// What operators stand for.
ghost use Rattle.std.specs.Prelude.{IfOk, ◌≡◌};
ghost use Rattle.kernele.specs.Tree.{call as call_tree, none};
ghost use Rattle.kernele.specs.View.{tree_of, trees_of};
ghost use Rattle.ereader_forms.specs.Forms.{binary as binary_tree, joined, linked, prefix_verb};

use ereader_nodes::nodes::{call, choose, one, send};
use ereader_signs::operator::{CallSign, Operator, Prefix};
use ids::text::Text;
use kernele::tree::Expr;
use std::alloc::{AllocError, Global};
use std::sync::Arc;

/// `left && right`
fn both(alloc: Global, left: Arc<Expr>, right: Expr) -> Result<Expr, AllocError>
    ensures { IfOk result (λ e. tree_of e ≡ joined Operator.And (tree_of left.value) (tree_of right)) }
{
    let first = one(alloc, right)?;
    let second = one(alloc, Expr::Bool(false))?;
    choose(alloc, left, first, second)
}

/// `left || right`
fn either(alloc: Global, left: Arc<Expr>, right: Expr) -> Result<Expr, AllocError>
    ensures { IfOk result (λ e. tree_of e ≡ joined Operator.Or (tree_of left.value) (tree_of right)) }
{
    let second = one(alloc, right)?;
    let first = one(alloc, Expr::Bool(true))?;
    choose(alloc, left, first, second)
}

fn same(alloc: Global, left: Arc<Expr>, right: Expr) -> Result<Expr, AllocError>
    ensures { IfOk result (λ e. tree_of e ≡ joined Operator.Same (tree_of left.value) (tree_of right)) }
{
    Ok(Expr::Same(left, Arc::new(alloc, right)?))
}

/// A call with no arguments.
fn unary(alloc: Global, receiver: Expr, verb: &str) -> Result<Expr, AllocError>
    ensures { IfOk result (λ e. tree_of e ≡ call_tree (tree_of receiver) verb.now none) }
{
    let receiver = Arc::new(alloc, receiver)?;
    let verb = Text::new(alloc, verb)?;
    call(alloc, receiver, verb, Vec::new(alloc))
}

/// A call with one argument.
fn binary(
    alloc: Global,
    receiver: Arc<Expr>,
    verb: &str,
    argument: Expr,
) -> Result<Expr, AllocError>
    ensures { IfOk result (λ e. tree_of e ≡ binary_tree (tree_of receiver.value) verb.now (tree_of argument)) }
{
    let args = one(alloc, argument)?;
    let verb = Text::new(alloc, verb)?;
    call(alloc, receiver, verb, args)
}

/// What an operator between two operands stands for.
pub fn join(
    alloc: Global,
    left: Arc<Expr>,
    operator: Operator,
    right: Expr,
) -> Result<Expr, AllocError>
    ensures { IfOk result (λ e. tree_of e ≡ joined operator (tree_of left.value) (tree_of right)) }
{
    match operator {
        Operator::Add => binary(alloc, left, "add", right),
        Operator::Subtract => binary(alloc, left, "subtract", right),
        Operator::Multiply => binary(alloc, left, "multiply", right),
        Operator::FloorDivide => binary(alloc, left, "floorDivide", right),
        Operator::LessThan => binary(alloc, left, "lessThan", right),
        Operator::AtMost => binary(alloc, left, "atMost", right),
        Operator::MoreThan => binary(alloc, left, "moreThan", right),
        Operator::AtLeast => binary(alloc, left, "atLeast", right),
        Operator::Same => same(alloc, left, right),
        Operator::Differ => {
            let equal = same(alloc, left, right)?;
            unary(alloc, equal, "not")
        }
        Operator::And => both(alloc, left, right),
        Operator::Or => either(alloc, left, right),
    }
}

/// What is made of a receiver: a call of it, or a send.
pub fn link(
    alloc: Global,
    link: CallSign,
    receiver: Arc<Expr>,
    verb: Text,
    args: Vec<Expr>,
) -> Result<Expr, AllocError>
    ensures { IfOk result (λ e. tree_of e ≡ linked link (tree_of receiver.value) verb (trees_of args.items)) }
{
    match link {
        CallSign::Method | CallSign::Run | CallSign::Index => call(alloc, receiver, verb, args),
        CallSign::Send => send(alloc, receiver, verb, args),
    }
}

/// What an operator before an operand stands for.
pub fn prefixed(alloc: Global, operator: Prefix, operand: Expr) -> Result<Expr, AllocError>
    ensures { IfOk result (λ e. tree_of e ≡ call_tree (tree_of operand) (prefix_verb operator) none) }
{
    match operator {
        Prefix::Not => unary(alloc, operand, "not"),
        Prefix::Negate => unary(alloc, operand, "negate"),
    }
}
