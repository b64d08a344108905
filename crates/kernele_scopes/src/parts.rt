// What a construct does to names, part after part.
ghost use Rattle.std.specs.Prelude.{◌≡◌};
ghost use Rattle.kernele.specs.View.{tree_of};
ghost use Rattle.kernele_scopes.specs.Parts.{first, second, third, part_in};

use ids::text::Text;
use kernele::tree::{Expr, Method, Pattern};

/// The names that a part adds to a scope.
#[derive(Clone, Copy)]
pub(crate) enum AddedNames<'a> {
    Nothing,
    Definition(&'a Text),
    Variable(&'a Text),
    Pattern(&'a Pattern),
    Patterns(&'a [Pattern]),
}

/// What a part of a construct does to names.
#[derive(Clone, Copy)]
pub(crate) enum NamePart<'a> {
    Nothing,
    /// A noun is looked up.
    Noun(&'a Text),
    /// A name stands in the text before the expression behind which it is assigned.
    Target(&'a Text, &'a Expr),
    /// A name is assigned.
    Assign(&'a Text),
    Evaluate(&'a Expr),
    EvaluateAll(&'a [Expr]),
    Bind(AddedNames<'a>),
    /// A block has a scope of its own, which begins with some names.
    Block(AddedNames<'a>, &'a [Expr]),
    Methods(&'a [Method]),
}

/// What a construct does to names first.
pub(crate) fn first_part(e: &Expr) -> NamePart<'_>
    ensures { part_in result ≡ first (tree_of e.now) }
{
    match e {
        Expr::Null | Expr::Bool(_) | Expr::Int(_) | Expr::Text(_) | Expr::NewPromise => {
            NamePart::Nothing
        }
        Expr::Noun(name) => NamePart::Noun(name),
        Expr::Assign(name, value) => NamePart::Target(name, value),
        Expr::Def(_, e)
        | Expr::Var(_, e)
        | Expr::DefList(_, e)
        | Expr::Call(e, _, _)
        | Expr::Same(e, _)
        | Expr::If(e, _, _)
        | Expr::While(e, _)
        | Expr::For(_, e, _)
        | Expr::Primitive(_, e)
        | Expr::Send(e, _, _)
        | Expr::When(e, _)
        | Expr::WhenCatch(e, _, _, _) => NamePart::Evaluate(e),
        Expr::List(items) => NamePart::EvaluateAll(items),
        Expr::Hide(body) | Expr::Try(body, _, _) => NamePart::Block(AddedNames::Nothing, body),
        Expr::Object(pattern, _) => NamePart::Bind(AddedNames::Pattern(pattern)),
        Expr::Escape(name, body) => NamePart::Block(AddedNames::Definition(name), body),
    }
}

/// What it does to names then.
pub(crate) fn second_part(e: &Expr) -> NamePart<'_>
    ensures { part_in result ≡ second (tree_of e.now) }
{
    match e {
        Expr::Def(pattern, _) => NamePart::Bind(AddedNames::Pattern(pattern)),
        Expr::Var(name, _) => NamePart::Bind(AddedNames::Variable(name)),
        Expr::DefList(patterns, _) => NamePart::Bind(AddedNames::Patterns(patterns)),
        Expr::Assign(_, e) | Expr::Same(_, e) => NamePart::Evaluate(e),
        Expr::Call(_, _, args) | Expr::Send(_, _, args) => NamePart::EvaluateAll(args),
        Expr::If(_, body, _)
        | Expr::While(_, body)
        | Expr::When(_, body)
        | Expr::WhenCatch(_, body, _, _) => NamePart::Block(AddedNames::Nothing, body),
        Expr::For(pattern, _, body) | Expr::Try(_, pattern, body) => {
            NamePart::Block(AddedNames::Pattern(pattern), body)
        }
        Expr::Object(_, methods) => NamePart::Methods(methods),
        Expr::Null
        | Expr::Bool(_)
        | Expr::Int(_)
        | Expr::Text(_)
        | Expr::Noun(_)
        | Expr::List(_)
        | Expr::Hide(_)
        | Expr::Primitive(_, _)
        | Expr::Escape(_, _)
        | Expr::NewPromise => NamePart::Nothing,
    }
}

/// What it does to names last.
pub(crate) fn third_part(e: &Expr) -> NamePart<'_>
    ensures { part_in result ≡ third (tree_of e.now) }
{
    match e {
        Expr::Assign(name, _) => NamePart::Assign(name),
        Expr::If(_, _, body) => NamePart::Block(AddedNames::Nothing, body),
        Expr::WhenCatch(_, _, pattern, handler) => {
            NamePart::Block(AddedNames::Pattern(pattern), handler)
        }
        Expr::Null
        | Expr::Bool(_)
        | Expr::Int(_)
        | Expr::Text(_)
        | Expr::Noun(_)
        | Expr::Def(_, _)
        | Expr::Var(_, _)
        | Expr::Call(_, _, _)
        | Expr::List(_)
        | Expr::Same(_, _)
        | Expr::DefList(_, _)
        | Expr::Hide(_)
        | Expr::While(_, _)
        | Expr::For(_, _, _)
        | Expr::Try(_, _, _)
        | Expr::Primitive(_, _)
        | Expr::Object(_, _)
        | Expr::Escape(_, _)
        | Expr::Send(_, _, _)
        | Expr::When(_, _)
        | Expr::NewPromise => NamePart::Nothing,
    }
}
