// The nodes of trees. An expression goes behind an `Arc`, or into a vector, before anything else is done: to let go of one
// that is owned takes code for each kind of expression, wherever that may happen.
ghost use Rattle.std.specs.Prelude.{◌≡◌, [], ◌∷◌, IfOk};
ghost use Rattle.kernele.specs.Tree.{int_tree, text_tree, noun as noun_tree, call as call_tree, list_tree, hide as hide_tree, if_tree, while_tree, for_tree, try_tree, primitive as primitive_tree, object_tree, escape_tree, send as send_tree, when_tree, when_catch_tree, new_promise as promise_tree};
ghost use Rattle.kernele.specs.View.{tree_of, trees_of, methods_of};
ghost use Rattle.ereader_nodes.specs.Nodes.{given, method_tree};
ghost use Rattle.ereader_nodes.specs.View.{place_of, method_of};

use crate::target::Target;
use ids::text::Text;
use kernele::tree::{Expr, Method, Pattern, Primitive};
use std::alloc::{AllocError, Global};
use std::sync::Arc;

/// An integer as it is written.
pub fn integer(number: i64) -> Expr
    ensures { tree_of result ≡ int_tree number }
{
    Expr::Int(number)
}

/// A text as it is written.
pub fn text(text: &Text) -> Result<Expr, AllocError>
    ensures { IfOk result (λ e. tree_of e ≡ text_tree text.now) }
{
    Ok(Expr::Text(text.share()?))
}

/// What a name stands for.
pub fn noun(name: &Text) -> Result<Expr, AllocError>
    ensures { IfOk result (λ e. tree_of e ≡ noun_tree name.now) }
{
    Ok(Expr::Noun(name.share()?))
}

/// A vector of one expression.
pub fn one(alloc: Global, item: Expr) -> Result<Vec<Expr>, AllocError>
    ensures { IfOk result (λ items. items.items ≡ item ∷ []) }
{
    Ok(vec![in alloc; item]?)
}

/// A call of a method, at once.
pub fn call(
    alloc: Global,
    receiver: Arc<Expr>,
    verb: Text,
    args: Vec<Expr>,
) -> Result<Expr, AllocError>
    ensures { IfOk result (λ e. tree_of e ≡ call_tree (tree_of receiver.value) verb (trees_of args.items)) }
{
    let args = Arc::new(alloc, args)?;
    Ok(Expr::Call(receiver, verb, args))
}

/// A message to a receiver.
pub fn send(
    alloc: Global,
    receiver: Arc<Expr>,
    verb: Text,
    args: Vec<Expr>,
) -> Result<Expr, AllocError>
    ensures { IfOk result (λ e. tree_of e ≡ send_tree (tree_of receiver.value) verb (trees_of args.items)) }
{
    let sent = Arc::new(alloc, args)?;
    Ok(Expr::Send(receiver, verb, sent))
}

/// A list of what these give.
pub fn list(alloc: Global, items: Vec<Expr>) -> Result<Expr, AllocError>
    ensures { IfOk result (λ e. tree_of e ≡ list_tree (trees_of items.items)) }
{
    Ok(Expr::List(Arc::new(alloc, items)?))
}

/// A value and what it is given to.
pub fn give(alloc: Global, target: Target, value: Expr) -> Result<Expr, AllocError>
    ensures { IfOk result (λ e. tree_of e ≡ given (place_of target) (tree_of value)) }
{
    let value = Arc::new(alloc, value)?;
    Ok(match target {
        Target::Definition(pattern) => Expr::Def(pattern, value),
        Target::Definitions(patterns) => Expr::DefList(Arc::new(alloc, patterns)?, value),
        Target::Variable(name) => Expr::Var(name, value),
        Target::Assignment(name) => Expr::Assign(name, value),
    })
}

/// A hidden block.
pub fn hide(alloc: Global, body: Vec<Expr>) -> Result<Expr, AllocError>
    ensures { IfOk result (λ e. tree_of e ≡ hide_tree (trees_of body.items)) }
{
    Ok(Expr::Hide(Arc::new(alloc, body)?))
}

/// A condition, and a block for each of its answers.
pub fn choose(
    alloc: Global,
    condition: Arc<Expr>,
    first: Vec<Expr>,
    second: Vec<Expr>,
) -> Result<Expr, AllocError>
    ensures { IfOk result (λ e. tree_of e ≡ if_tree (tree_of condition.value) (trees_of first.items) (trees_of second.items)) }
{
    let first = Arc::new(alloc, first)?;
    let second = Arc::new(alloc, second)?;
    Ok(Expr::If(condition, first, second))
}

/// A block that is repeated as long as a condition holds.
pub fn repeat_while(
    alloc: Global,
    condition: Arc<Expr>,
    body: Vec<Expr>,
) -> Result<Expr, AllocError>
    ensures { IfOk result (λ e. tree_of e ≡ while_tree (tree_of condition.value) (trees_of body.items)) }
{
    let body = Arc::new(alloc, body)?;
    Ok(Expr::While(condition, body))
}

/// A block that is run for each item of a list.
pub fn repeat_for(
    alloc: Global,
    pattern: Pattern,
    list: Arc<Expr>,
    body: Vec<Expr>,
) -> Result<Expr, AllocError>
    ensures { IfOk result (λ e. tree_of e ≡ for_tree pattern (tree_of list.value) (trees_of body.items)) }
{
    let body = Arc::new(alloc, body)?;
    Ok(Expr::For(pattern, list, body))
}

/// A block, and a handler of the problem that it throws.
pub fn try_catch(
    alloc: Global,
    body: Vec<Expr>,
    pattern: Pattern,
    handler: Vec<Expr>,
) -> Result<Expr, AllocError>
    ensures { IfOk result (λ e. tree_of e ≡ try_tree (trees_of body.items) pattern (trees_of handler.items)) }
{
    let body = Arc::new(alloc, body)?;
    let handler = Arc::new(alloc, handler)?;
    Ok(Expr::Try(body, pattern, handler))
}

/// What the language itself does with a value.
pub fn primitive(primitive: Primitive, value: Arc<Expr>) -> Expr
    ensures { tree_of result ≡ primitive_tree primitive (tree_of value.value) }
{
    Expr::Primitive(primitive, value)
}

/// A value, and the block that runs when it is known.
pub fn when(alloc: Global, value: Arc<Expr>, body: Vec<Expr>) -> Result<Expr, AllocError>
    ensures { IfOk result (λ e. tree_of e ≡ when_tree (tree_of value.value) (trees_of body.items)) }
{
    let body = Arc::new(alloc, body)?;
    Ok(Expr::When(value, body))
}

/// The same, and a handler of its problem.
pub fn when_catch(
    alloc: Global,
    value: Arc<Expr>,
    body: Vec<Expr>,
    pattern: Pattern,
    handler: Vec<Expr>,
) -> Result<Expr, AllocError>
    ensures { IfOk result (λ e. tree_of e ≡ when_catch_tree (tree_of value.value) (trees_of body.items) pattern (trees_of handler.items)) }
{
    let body = Arc::new(alloc, body)?;
    let handler = Arc::new(alloc, handler)?;
    Ok(Expr::WhenCatch(value, body, pattern, handler))
}

/// A promise and its resolver.
pub fn new_promise() -> Expr
    ensures { tree_of result ≡ promise_tree }
{
    Expr::NewPromise
}

/// A block that an ejector ends.
pub fn escape(alloc: Global, name: Text, body: Vec<Expr>) -> Result<Expr, AllocError>
    ensures { IfOk result (λ e. tree_of e ≡ escape_tree name (trees_of body.items)) }
{
    Ok(Expr::Escape(name, Arc::new(alloc, body)?))
}

/// A method: its verb, its parameters and its body.
pub fn method(
    alloc: Global,
    verb: Text,
    parameters: Vec<Pattern>,
    body: Vec<Expr>,
) -> Result<Method, AllocError>
    ensures { IfOk result (λ m. method_of m ≡ method_tree verb parameters.items (trees_of body.items)) }
{
    let parameters = Arc::new(alloc, parameters)?;
    let body = Arc::new(alloc, body)?;
    Ok(Method {
        verb,
        parameters,
        body,
    })
}

/// An object and what it is bound to.
pub fn object(alloc: Global, pattern: Pattern, methods: Vec<Method>) -> Result<Expr, AllocError>
    ensures { IfOk result (λ e. tree_of e ≡ object_tree pattern (methods_of methods.items)) }
{
    Ok(Expr::Object(pattern, Arc::new(alloc, methods)?))
}
