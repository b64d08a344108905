// The tree of resolved code: one small function for each construct that has several parts. Where names are found is left out.
ghost use Rattle.std.specs.Prelude.{◌≡◌, IfOk};
ghost use Rattle.kernele.specs.Tree.{define_list, call, same_tree, if_tree, while_tree, for_tree, try_tree, object_tree, escape_tree, send, when_tree, when_catch_tree};
ghost use Rattle.kernele.specs.View.{tree_of, trees_of, methods_of, program_of};
ghost use Rattle.code.specs.View.{tree_of_code, trees_of_codes, methods_of_codes};

use code::code::{Code, MethodCode};
use ids::text::Text;
use kernele::tree::{Block, Expr, Method, Pattern, Program};
use std::alloc::{AllocError, Global};
use std::sync::Arc;
use values::verb::Verb;

/// The program that a row of code was made from, in its own names. Fails only for want of memory.
pub fn unresolve(alloc: Global, items: &Arc<Vec<Code>>) -> Result<Program, AllocError>
    ensures { IfOk result (λ p. program_of p ≡ trees_of_codes items.now.value.items) }
{
    let row = tree_row(alloc, items)?;
    Ok(Program(Block(row)))
}

#[cycle(unresolve)]
fn whole(alloc: Global, code: &Code) -> Result<Expr, AllocError>
    ensures { IfOk result (λ e. tree_of e ≡ tree_of_code code.now) }
{
    match code {
        Code::Null => Ok(Expr::Null),
        Code::Bool(b) => Ok(Expr::Bool(*b)),
        Code::Int(n) => Ok(Expr::Int(*n)),
        Code::Text(text) => Ok(Expr::Text(text.share()?)),
        Code::Noun(name, _) => Ok(Expr::Noun(name.share()?)),
        Code::Def(pattern, right) => Ok(Expr::Def(pattern.share()?, part(alloc, right)?)),
        Code::Var(name, right) => Ok(Expr::Var(name.share()?, part(alloc, right)?)),
        Code::Assign(name, _, right) => Ok(Expr::Assign(name.share()?, part(alloc, right)?)),
        Code::DefList(names, list) => defined_list(alloc, names, list),
        Code::Call(receiver, verb, args) => called(alloc, receiver, verb, args),
        Code::Send(receiver, verb, args) => sent(alloc, receiver, verb, args),
        Code::List(items) => Ok(Expr::List(tree_row(alloc, items)?)),
        Code::Same(left, right) => compared(alloc, left, right),
        Code::Hide(body) => Ok(Expr::Hide(tree_row(alloc, body)?)),
        Code::If(condition, first, second) => chosen(alloc, condition, first, second),
        Code::While(condition, body) => repeated(alloc, condition, body),
        Code::For(pattern, list, body) => walked(alloc, pattern, list, body),
        Code::Try(body, pattern, handler) => tried(alloc, body, pattern, handler),
        Code::Primitive(primitive, value) => Ok(Expr::Primitive(*primitive, part(alloc, value)?)),
        Code::Object(pattern, _, methods, _) => made(alloc, pattern, methods),
        Code::Escape(name, body) => escaped(alloc, name, body),
        Code::When(value, _, body) => awaited(alloc, value, body),
        Code::WhenCatch(value, _, body, pattern, handler) => {
            caught(alloc, value, body, pattern, handler)
        }
        Code::NewPromise => Ok(Expr::NewPromise),
    }
}

/// The tree of code that is a part of other code.
#[cycle(unresolve)]
fn part(alloc: Global, code: &Arc<Code>) -> Result<Arc<Expr>, AllocError>
    ensures { IfOk result (λ e. tree_of e.value ≡ tree_of_code code.now.value) }
{
    let tree = whole(alloc, code)?;
    Ok(Arc::new(alloc, tree)?)
}

/// The trees of a block, of arguments, or of the items of a list.
#[cycle(unresolve)]
fn tree_row(alloc: Global, row: &Arc<Vec<Code>>) -> Result<Arc<Vec<Expr>>, AllocError>
    ensures { IfOk result (λ es. trees_of es.value.items ≡ trees_of_codes row.now.value.items) }
{
    let mut trees = Vec::new(alloc);
    for code in row.iter() {
        let tree = whole(alloc, code)?;
        trees.push(tree)?;
    }
    Ok(Arc::new(alloc, trees)?)
}

#[cycle(unresolve)]
fn defined_list(
    alloc: Global,
    names: &Arc<Vec<Pattern>>,
    list: &Arc<Code>,
) -> Result<Expr, AllocError>
    ensures { IfOk result (λ e. tree_of e ≡ define_list names.now.value.items (tree_of_code list.now.value)) }
{
    let list = part(alloc, list)?;
    Ok(Expr::DefList(Arc::try_clone(names)?, list))
}

#[cycle(unresolve)]
fn called(
    alloc: Global,
    receiver: &Arc<Code>,
    verb: &Verb,
    args: &Arc<Vec<Code>>,
) -> Result<Expr, AllocError>
    ensures { IfOk result (λ e. tree_of e ≡ call (tree_of_code receiver.now.value) verb.now (trees_of_codes args.now.value.items)) }
{
    let receiver = part(alloc, receiver)?;
    let args = tree_row(alloc, args)?;
    Ok(Expr::Call(receiver, verb.text().share()?, args))
}

#[cycle(unresolve)]
fn sent(
    alloc: Global,
    receiver: &Arc<Code>,
    verb: &Verb,
    args: &Arc<Vec<Code>>,
) -> Result<Expr, AllocError>
    ensures { IfOk result (λ e. tree_of e ≡ send (tree_of_code receiver.now.value) verb.now (trees_of_codes args.now.value.items)) }
{
    let receiver = part(alloc, receiver)?;
    let args = tree_row(alloc, args)?;
    Ok(Expr::Send(receiver, verb.text().share()?, args))
}

#[cycle(unresolve)]
fn compared(alloc: Global, left: &Arc<Code>, right: &Arc<Code>) -> Result<Expr, AllocError>
    ensures { IfOk result (λ e. tree_of e ≡ same_tree (tree_of_code left.now.value) (tree_of_code right.now.value)) }
{
    let left = part(alloc, left)?;
    let right = part(alloc, right)?;
    Ok(Expr::Same(left, right))
}

#[cycle(unresolve)]
fn chosen(
    alloc: Global,
    condition: &Arc<Code>,
    first: &Arc<Vec<Code>>,
    second: &Arc<Vec<Code>>,
) -> Result<Expr, AllocError>
    ensures { IfOk result (λ e. tree_of e ≡ if_tree (tree_of_code condition.now.value) (trees_of_codes first.now.value.items) (trees_of_codes second.now.value.items)) }
{
    let condition = part(alloc, condition)?;
    let first = tree_row(alloc, first)?;
    let second = tree_row(alloc, second)?;
    Ok(Expr::If(condition, first, second))
}

#[cycle(unresolve)]
fn repeated(alloc: Global, condition: &Arc<Code>, body: &Arc<Vec<Code>>) -> Result<Expr, AllocError>
    ensures { IfOk result (λ e. tree_of e ≡ while_tree (tree_of_code condition.now.value) (trees_of_codes body.now.value.items)) }
{
    let condition = part(alloc, condition)?;
    let body = tree_row(alloc, body)?;
    Ok(Expr::While(condition, body))
}

#[cycle(unresolve)]
fn walked(
    alloc: Global,
    pattern: &Pattern,
    list: &Arc<Code>,
    body: &Arc<Vec<Code>>,
) -> Result<Expr, AllocError>
    ensures { IfOk result (λ e. tree_of e ≡ for_tree pattern.now (tree_of_code list.now.value) (trees_of_codes body.now.value.items)) }
{
    let list = part(alloc, list)?;
    let body = tree_row(alloc, body)?;
    Ok(Expr::For(pattern.share()?, list, body))
}

#[cycle(unresolve)]
fn tried(
    alloc: Global,
    body: &Arc<Vec<Code>>,
    pattern: &Pattern,
    handler: &Arc<Vec<Code>>,
) -> Result<Expr, AllocError>
    ensures { IfOk result (λ e. tree_of e ≡ try_tree (trees_of_codes body.now.value.items) pattern.now (trees_of_codes handler.now.value.items)) }
{
    let body = tree_row(alloc, body)?;
    let handler = tree_row(alloc, handler)?;
    Ok(Expr::Try(body, pattern.share()?, handler))
}

#[cycle(unresolve)]
fn made(
    alloc: Global,
    pattern: &Pattern,
    methods: &Arc<Vec<MethodCode>>,
) -> Result<Expr, AllocError>
    ensures { IfOk result (λ e. tree_of e ≡ object_tree pattern.now (methods_of_codes methods.now.value.items)) }
{
    let methods = method_trees(alloc, methods)?;
    Ok(Expr::Object(pattern.share()?, Arc::new(alloc, methods)?))
}

#[cycle(unresolve)]
fn escaped(alloc: Global, name: &Text, body: &Arc<Vec<Code>>) -> Result<Expr, AllocError>
    ensures { IfOk result (λ e. tree_of e ≡ escape_tree name.now (trees_of_codes body.now.value.items)) }
{
    let body = tree_row(alloc, body)?;
    Ok(Expr::Escape(name.share()?, body))
}

#[cycle(unresolve)]
fn awaited(alloc: Global, value: &Arc<Code>, body: &Arc<Vec<Code>>) -> Result<Expr, AllocError>
    ensures { IfOk result (λ e. tree_of e ≡ when_tree (tree_of_code value.now.value) (trees_of_codes body.now.value.items)) }
{
    let value = part(alloc, value)?;
    let body = tree_row(alloc, body)?;
    Ok(Expr::When(value, body))
}

#[cycle(unresolve)]
fn caught(
    alloc: Global,
    value: &Arc<Code>,
    body: &Arc<Vec<Code>>,
    pattern: &Pattern,
    handler: &Arc<Vec<Code>>,
) -> Result<Expr, AllocError>
    ensures { IfOk result (λ e. tree_of e ≡ when_catch_tree (tree_of_code value.now.value) (trees_of_codes body.now.value.items) pattern.now (trees_of_codes handler.now.value.items)) }
{
    let value = part(alloc, value)?;
    let body = tree_row(alloc, body)?;
    let handler = tree_row(alloc, handler)?;
    Ok(Expr::WhenCatch(value, body, pattern.share()?, handler))
}

#[cycle(unresolve)]
fn method_trees(alloc: Global, methods: &[MethodCode]) -> Result<Vec<Method>, AllocError>
    ensures { IfOk result (λ ms. methods_of ms.items ≡ methods_of_codes methods.now) }
{
    let mut trees = Vec::new(alloc);
    for method in methods {
        let body = tree_row(alloc, &method.body)?;
        trees.push(Method {
            verb: method.verb.share()?,
            parameters: Arc::try_clone(&method.parameters)?,
            body,
        })?;
    }
    Ok(trees)
}
