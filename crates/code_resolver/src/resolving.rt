// Resolving a program: one small function for all constructs that have a right side alone, and one for each other. The frame
// holds the names that stand where the walk is, the oldest first.
ghost use Rattle.std.specs.Prelude.{◌≡◌, [], ◌++◌, Bool, IfOk, IsSome, OnOk, Some};
ghost use Rattle.kernele.specs.Tree.{call, same_tree, if_tree, while_tree, for_tree, try_tree, object_tree, escape_tree, send, when_tree, when_catch_tree};
ghost use Rattle.kernele.specs.View.{tree_of, trees_of, methods_of, program_of};
ghost use Rattle.kernele_scopes.specs.Scope.{name_of};
ghost use Rattle.code.specs.View.{trees_of_codes};
ghost use Rattle.code.specs.Frames.{Frame, fits_all, only_names};
ghost use Rattle.code.specs.Props.{fits_all-prop};
ghost use Rattle.code_resolver.specs.Resolves.{Resolves, ResolvesAll, ResolvesBlock, ResolvesMethods, right_side};
ghost use Rattle.kernele.specs.declared.tree.Expr.{Expr};

use crate::frame::{add_all_bound, add_bound, add_name, find_place, place_all};
use code::code::{Code, MethodCode};
use code::index::index_many;
use ids::text::Text;
use kernele::tree::{Expr, Method, Pattern, Program};
use kernele_scopes::{captured_by_when, captured_names};
use std::alloc::{AllocError, Global};
use std::sync::Arc;
use values::verb::Verb;

/// A program whose names are resolved, for a frame that begins without names.
#[derive(Drop)]
pub struct Resolved {
    /// Whether it stands in a script's own scope, whose names are the vat's top nouns.
    pub own_scope: bool,
    pub items: Arc<Vec<Code>>,
    pub ghost fits: { fits_all own_scope [] items.value.items } by { fits_all-prop own_scope [] items.value.items },
}

/// Resolves the names of a program. Fails only for want of memory.
pub fn resolve(alloc: Global, program: &Program, own_scope: bool) -> Result<Resolved, AllocError>
    ensures program { IfOk result (λ r. trees_of_codes r.items.value.items ≡ program_of program.now) }
    ensures scope { IfOk result (λ r. r.own_scope ≡ own_scope) }
{
    let mut frame = Vec::new(alloc);
    let items = resolve_row(alloc, &program.0.0, own_scope, &mut frame)?;
    Ok(Resolved { own_scope, items })
}

#[cycle(resolve)]
fn resolve_expr(
    alloc: Global,
    e: &Expr,
    own_scope: bool,
    frame: &mut Vec<Text>,
) -> Result<Code, AllocError>
    ensures { IfOk result (λ c. Resolves own_scope frame.old.items (tree_of e.now) c frame.new.items) }
{
    match e {
        Expr::Null => Ok(Code::Null),
        Expr::Bool(b) => Ok(Code::Bool(*b)),
        Expr::Int(n) => Ok(Code::Int(*n)),
        Expr::Text(text) => Ok(Code::Text(text.share()?)),
        Expr::Noun(name) => Ok(Code::Noun(name.share()?, find_place(frame, name))),
        Expr::Def(_, right)
        | Expr::Var(_, right)
        | Expr::Assign(_, right)
        | Expr::DefList(_, right)
        | Expr::Primitive(_, right) => resolve_right(alloc, e, right, own_scope, frame),
        Expr::Call(receiver, verb, args) => {
            resolve_call(alloc, receiver, verb, args, own_scope, frame)
        }
        Expr::List(items) => Ok(Code::List(resolve_row(alloc, items, own_scope, frame)?)),
        Expr::Same(left, right) => resolve_same(alloc, left, right, own_scope, frame),
        Expr::Hide(body) => Ok(Code::Hide(resolve_block(alloc, body, frame)?)),
        Expr::If(condition, first, second) => {
            resolve_if(alloc, condition, first, second, own_scope, frame)
        }
        Expr::While(condition, body) => resolve_while(alloc, condition, body, own_scope, frame),
        Expr::For(pattern, list, body) => {
            resolve_for(alloc, pattern, list, body, own_scope, frame)
        }
        Expr::Try(body, pattern, handler) => resolve_try(alloc, body, pattern, handler, frame),
        Expr::Object(pattern, methods) => {
            resolve_object(alloc, pattern, methods, own_scope, frame)
        }
        Expr::Escape(name, body) => resolve_escape(alloc, name, body, frame),
        Expr::Send(receiver, verb, args) => {
            resolve_send(alloc, receiver, verb, args, own_scope, frame)
        }
        Expr::When(value, body) => resolve_when(alloc, value, body, own_scope, frame),
        Expr::WhenCatch(value, body, pattern, handler) => {
            resolve_when_catch(alloc, value, body, pattern, handler, own_scope, frame)
        }
        Expr::NewPromise => Ok(Code::NewPromise),
    }
}

/// An expression that is a part of another.
#[cycle(resolve)]
fn resolve_part(
    alloc: Global,
    e: &Arc<Expr>,
    own_scope: bool,
    frame: &mut Vec<Text>,
) -> Result<Arc<Code>, AllocError>
    ensures { IfOk result (λ c. Resolves own_scope frame.old.items (tree_of e.now.value) c.value frame.new.items) }
{
    let code = resolve_expr(alloc, e, own_scope, frame)?;
    Ok(Arc::new(alloc, code)?)
}

/// Expressions in order: each finds the names of those before it.
#[cycle(resolve)]
fn resolve_row(
    alloc: Global,
    row: &Arc<Vec<Expr>>,
    own_scope: bool,
    frame: &mut Vec<Text>,
) -> Result<Arc<Vec<Code>>, AllocError>
    ensures { IfOk result (λ cs. ResolvesAll own_scope frame.old.items (trees_of row.now.value.items) cs.value.items frame.new.items) }
{
    let mut codes = Vec::with_capacity(alloc, row.len())?;
    for tree in row.iter() {
        let code = resolve_expr(alloc, tree, own_scope, frame)?;
        codes.push(code)?;
    }
    Ok(Arc::new(alloc, codes)?)
}

/// A block: its names end with it.
#[cycle(resolve)]
fn resolve_block(
    alloc: Global,
    body: &Arc<Vec<Expr>>,
    frame: &mut Vec<Text>,
) -> Result<Arc<Vec<Code>>, AllocError>
    ensures code { IfOk result (λ cs. ResolvesBlock frame.old.items (trees_of body.now.value.items) cs.value.items) }
    ensures frame { OnOk result (frame.new.items ≡ frame.old.items) }
{
    let outer = frame.len();
    let codes = resolve_row(alloc, body, false, frame)?;
    frame.truncate(outer);
    Ok(codes)
}

/// A block that begins with the name of a pattern.
#[cycle(resolve)]
fn resolve_bound_block(
    alloc: Global,
    pattern: &Pattern,
    body: &Arc<Vec<Expr>>,
    frame: &mut Vec<Text>,
) -> Result<Arc<Vec<Code>>, AllocError>
    ensures code { IfOk result (λ cs. ResolvesBlock (frame.old.items ++ only_names (name_of pattern.now)) (trees_of body.now.value.items) cs.value.items) }
    ensures frame { OnOk result (frame.new.items ≡ frame.old.items) }
{
    let around = frame.len();
    add_bound(pattern, false, frame)?;
    let codes = resolve_row(alloc, body, false, frame)?;
    frame.truncate(around);
    Ok(codes)
}

/// What has a right side stands behind it: there it defines its names, and there a name that it assigns is looked up.
#[cycle(resolve)]
fn resolve_right(
    alloc: Global,
    e: &Expr,
    right: &Arc<Expr>,
    own_scope: bool,
    frame: &mut Vec<Text>,
) -> Result<Code, AllocError>
    requires { right_side e.now ≡ Some right.now.value }
    ensures { IfOk result (λ c. Resolves own_scope frame.old.items (tree_of e.now) c frame.new.items) }
{
    let right = resolve_part(alloc, right, own_scope, frame)?;
    with_right(e, right, own_scope, frame)
}

/// The code of an expression whose right side has been resolved.
fn with_right(
    e: &Expr,
    right: Arc<Code>,
    own_scope: bool,
    frame: &mut Vec<Text>,
) -> Result<Code, AllocError>
    requires { IsSome (right_side e.now) }
    ensures { IfOk result (λ c. (before : Frame) (r : Expr) → right_side e.now ≡ Some r → Resolves own_scope before (tree_of r) right.value frame.old.items → Resolves own_scope before (tree_of e.now) c frame.new.items) }
{
    match e {
        Expr::Def(pattern, _) => {
            add_bound(pattern, own_scope, frame)?;
            Ok(Code::Def(pattern.share()?, right))
        }
        Expr::Var(name, _) => {
            add_name(name, own_scope, frame)?;
            Ok(Code::Var(name.share()?, right))
        }
        Expr::Assign(name, _) => {
            let place = find_place(frame, name);
            Ok(Code::Assign(name.share()?, place, right))
        }
        Expr::DefList(patterns, _) => {
            add_all_bound(patterns, own_scope, frame)?;
            Ok(Code::DefList(Arc::try_clone(patterns)?, right))
        }
        Expr::Primitive(primitive, _) => Ok(Code::Primitive(*primitive, right)),
        _ => unreachable!(),
    }
}

#[cycle(resolve)]
fn resolve_call(
    alloc: Global,
    receiver: &Arc<Expr>,
    verb: &Text,
    args: &Arc<Vec<Expr>>,
    own_scope: bool,
    frame: &mut Vec<Text>,
) -> Result<Code, AllocError>
    ensures { IfOk result (λ c. Resolves own_scope frame.old.items (call (tree_of receiver.now.value) verb.now (trees_of args.now.value.items)) c frame.new.items) }
{
    let receiver = resolve_part(alloc, receiver, own_scope, frame)?;
    let args = resolve_row(alloc, args, own_scope, frame)?;
    Ok(Code::Call(receiver, Verb::new(verb.share()?), args))
}

#[cycle(resolve)]
fn resolve_send(
    alloc: Global,
    receiver: &Arc<Expr>,
    verb: &Text,
    args: &Arc<Vec<Expr>>,
    own_scope: bool,
    frame: &mut Vec<Text>,
) -> Result<Code, AllocError>
    ensures { IfOk result (λ c. Resolves own_scope frame.old.items (send (tree_of receiver.now.value) verb.now (trees_of args.now.value.items)) c frame.new.items) }
{
    let receiver = resolve_part(alloc, receiver, own_scope, frame)?;
    let args = resolve_row(alloc, args, own_scope, frame)?;
    Ok(Code::Send(receiver, Verb::new(verb.share()?), args))
}

#[cycle(resolve)]
fn resolve_same(
    alloc: Global,
    left: &Arc<Expr>,
    right: &Arc<Expr>,
    own_scope: bool,
    frame: &mut Vec<Text>,
) -> Result<Code, AllocError>
    ensures { IfOk result (λ c. Resolves own_scope frame.old.items (same_tree (tree_of left.now.value) (tree_of right.now.value)) c frame.new.items) }
{
    let left = resolve_part(alloc, left, own_scope, frame)?;
    let right = resolve_part(alloc, right, own_scope, frame)?;
    Ok(Code::Same(left, right))
}

#[cycle(resolve)]
fn resolve_if(
    alloc: Global,
    condition: &Arc<Expr>,
    first: &Arc<Vec<Expr>>,
    second: &Arc<Vec<Expr>>,
    own_scope: bool,
    frame: &mut Vec<Text>,
) -> Result<Code, AllocError>
    ensures { IfOk result (λ c. Resolves own_scope frame.old.items (if_tree (tree_of condition.now.value) (trees_of first.now.value.items) (trees_of second.now.value.items)) c frame.new.items) }
{
    let condition = resolve_part(alloc, condition, own_scope, frame)?;
    let first = resolve_block(alloc, first, frame)?;
    let second = resolve_block(alloc, second, frame)?;
    Ok(Code::If(condition, first, second))
}

#[cycle(resolve)]
fn resolve_while(
    alloc: Global,
    condition: &Arc<Expr>,
    body: &Arc<Vec<Expr>>,
    own_scope: bool,
    frame: &mut Vec<Text>,
) -> Result<Code, AllocError>
    ensures { IfOk result (λ c. Resolves own_scope frame.old.items (while_tree (tree_of condition.now.value) (trees_of body.now.value.items)) c frame.new.items) }
{
    let condition = resolve_part(alloc, condition, own_scope, frame)?;
    let body = resolve_block(alloc, body, frame)?;
    Ok(Code::While(condition, body))
}

#[cycle(resolve)]
fn resolve_for(
    alloc: Global,
    pattern: &Pattern,
    list: &Arc<Expr>,
    body: &Arc<Vec<Expr>>,
    own_scope: bool,
    frame: &mut Vec<Text>,
) -> Result<Code, AllocError>
    ensures { IfOk result (λ c. Resolves own_scope frame.old.items (for_tree pattern.now (tree_of list.now.value) (trees_of body.now.value.items)) c frame.new.items) }
{
    let list = resolve_part(alloc, list, own_scope, frame)?;
    let body = resolve_bound_block(alloc, pattern, body, frame)?;
    Ok(Code::For(pattern.share()?, list, body))
}

#[cycle(resolve)]
fn resolve_try(
    alloc: Global,
    body: &Arc<Vec<Expr>>,
    pattern: &Pattern,
    handler: &Arc<Vec<Expr>>,
    frame: &mut Vec<Text>,
) -> Result<Code, AllocError>
    ensures { IfOk result (λ c. (own : Bool) → Resolves own frame.old.items (try_tree (trees_of body.now.value.items) pattern.now (trees_of handler.now.value.items)) c frame.new.items) }
{
    let body = resolve_block(alloc, body, frame)?;
    let handler = resolve_bound_block(alloc, pattern, handler, frame)?;
    Ok(Code::Try(body, pattern.share()?, handler))
}

#[cycle(resolve)]
fn resolve_escape(
    alloc: Global,
    name: &Text,
    body: &Arc<Vec<Expr>>,
    frame: &mut Vec<Text>,
) -> Result<Code, AllocError>
    ensures { IfOk result (λ c. (own : Bool) → Resolves own frame.old.items (escape_tree name.now (trees_of body.now.value.items)) c frame.new.items) }
{
    let before = frame.len();
    add_name(name, false, frame)?;
    let body = resolve_row(alloc, body, false, frame)?;
    frame.truncate(before);
    Ok(Code::Escape(name.share()?, body))
}

/// An object finds what it captures in the frame around it; its methods begin with those names and its own.
#[cycle(resolve)]
fn resolve_object(
    alloc: Global,
    pattern: &Pattern,
    methods: &Arc<Vec<Method>>,
    own_scope: bool,
    frame: &mut Vec<Text>,
) -> Result<Code, AllocError>
    ensures { IfOk result (λ c. Resolves own_scope frame.old.items (object_tree pattern.now (methods_of methods.now.value.items)) c frame.new.items) }
{
    let mut inside = captured_names(alloc, pattern, methods)?;
    let captures = place_all(alloc, &inside, frame)?;
    add_bound(pattern, false, &mut inside)?;
    let methods = resolve_methods(alloc, methods, &mut inside)?;
    let index = index_many(alloc, &methods)?;
    add_bound(pattern, own_scope, frame)?;
    Ok(Code::Object(
        pattern.share()?,
        Arc::new(alloc, captures)?,
        Arc::new(alloc, methods)?,
        index,
    ))
}

/// A `when` finds what it captures in the frame behind its value; its block begins with those names.
#[cycle(resolve)]
fn resolve_when(
    alloc: Global,
    value: &Arc<Expr>,
    body: &Arc<Vec<Expr>>,
    own_scope: bool,
    frame: &mut Vec<Text>,
) -> Result<Code, AllocError>
    ensures { IfOk result (λ c. Resolves own_scope frame.old.items (when_tree (tree_of value.now.value) (trees_of body.now.value.items)) c frame.new.items) }
{
    let value = resolve_part(alloc, value, own_scope, frame)?;
    let mut inside = captured_by_when(alloc, body, &Pattern::Ignore, &[])?;
    let captures = place_all(alloc, &inside, frame)?;
    let body = resolve_block(alloc, body, &mut inside)?;
    Ok(Code::When(value, Arc::new(alloc, captures)?, body))
}

/// The same of one with a handler, which begins with the captured names too, and with what the problem is bound to.
#[cycle(resolve)]
fn resolve_when_catch(
    alloc: Global,
    value: &Arc<Expr>,
    body: &Arc<Vec<Expr>>,
    pattern: &Pattern,
    handler: &Arc<Vec<Expr>>,
    own_scope: bool,
    frame: &mut Vec<Text>,
) -> Result<Code, AllocError>
    ensures { IfOk result (λ c. Resolves own_scope frame.old.items (when_catch_tree (tree_of value.now.value) (trees_of body.now.value.items) pattern.now (trees_of handler.now.value.items)) c frame.new.items) }
{
    let value = resolve_part(alloc, value, own_scope, frame)?;
    let mut inside = captured_by_when(alloc, body, pattern, handler)?;
    let captures = place_all(alloc, &inside, frame)?;
    let body = resolve_block(alloc, body, &mut inside)?;
    let handler = resolve_bound_block(alloc, pattern, handler, &mut inside)?;
    Ok(Code::WhenCatch(
        value,
        Arc::new(alloc, captures)?,
        body,
        pattern.share()?,
        handler,
    ))
}

/// The body of a method begins with its parameters behind the names of the object.
#[cycle(resolve)]
fn resolve_methods(
    alloc: Global,
    methods: &[Method],
    frame: &mut Vec<Text>,
) -> Result<Vec<MethodCode>, AllocError>
    ensures { IfOk result (λ cs. ResolvesMethods frame.old.items (methods_of methods.now) cs.items) }
{
    let captured = frame.len();
    let mut codes = Vec::with_capacity(alloc, methods.len())?;
    for method in methods {
        add_all_bound(&method.parameters, false, frame)?;
        let body = resolve_row(alloc, &method.body, false, frame)?;
        frame.truncate(captured);
        codes.push(MethodCode {
            verb: method.verb.share()?,
            parameters: Arc::try_clone(&method.parameters)?,
            body,
        })?;
    }
    Ok(codes)
}
