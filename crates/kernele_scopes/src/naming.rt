// The names that a program defines.
ghost use Rattle.std.specs.Prelude.{◌≡◌, [], ◌∷◌, ◌++◌, IfOk, OnOk};
ghost use Rattle.kernele.specs.View.{tree_of, trees_of, program_of};
ghost use Rattle.kernele_scopes.specs.Scope.{own_names, own_names_in, name_of, names_of_all, AddsOwnNames};
ghost use Rattle.kernele_scopes.specs.Parts.{part_in, part_names, binding_in, binding_names};

use crate::parts::{AddedNames, NamePart, first_part, second_part, third_part};
use ids::text::Text;
use kernele::tree::{Expr, Pattern, Program};
use std::alloc::{AllocError, Global};

/// What a name in scope is.
#[derive(Clone, Copy)]
pub enum NameKind {
    /// What it stands for stays the same.
    Definition,
    /// It may be assigned.
    Variable,
}

/// A name that a program defines in its own scope.
#[derive(Drop)]
pub struct TopName {
    pub name: Text,
    pub kind: NameKind,
}

/// The names that a program defines in its own scope, in the order of their definitions.
pub fn top_names(alloc: Global, program: &Program) -> Result<Vec<TopName>, AllocError>
    ensures { IfOk result (λ names. names.items ≡ own_names_in (program_of program.now)) }
{
    let mut names = Vec::new(alloc);
    add_all_names(&program.0.0, &mut names)?;
    Ok(names)
}

#[cycle(names)]
fn add_all_names(trees: &[Expr], names: &mut Vec<TopName>) -> Result<(), AllocError>
    ensures { OnOk result (names.new.items ≡ names.old.items ++ own_names_in (trees_of trees.now)) }
{
    for tree in trees {
        add_names(tree, names)?;
    }
    Ok(())
}

#[cycle(names)]
pub(crate) fn add_names(e: &Expr, names: &mut Vec<TopName>) -> Result<(), AllocError>
    ensures { OnOk result (names.new.items ≡ names.old.items ++ own_names (tree_of e.now)) }
{
    add_part_names(first_part(e), names)?;
    add_part_names(second_part(e), names)?;
    add_part_names(third_part(e), names)
}

#[cycle(names)]
fn add_part_names(part: NamePart<'_>, names: &mut Vec<TopName>) -> Result<(), AllocError>
    ensures { OnOk result (names.new.items ≡ names.old.items ++ part_names (part_in part.entry)) }
{
    match part {
        NamePart::Evaluate(e) => add_names(e, names),
        NamePart::EvaluateAll(trees) => add_all_names(trees, names),
        NamePart::Bind(binding) => add_binding(binding, names),
        NamePart::Nothing
        | NamePart::Noun(_)
        | NamePart::Target(_, _)
        | NamePart::Assign(_)
        | NamePart::Block(_, _)
        | NamePart::Methods(_) => Ok(()),
    }
}

/// Adds the names of a binding.
pub(crate) fn add_binding(
    binding: AddedNames<'_>,
    names: &mut Vec<TopName>,
) -> Result<(), AllocError>
    ensures { OnOk result (names.new.items ≡ names.old.items ++ binding_names (binding_in binding.entry)) }
{
    match binding {
        AddedNames::Nothing => Ok(()),
        AddedNames::Definition(name) => add_name(name, NameKind::Definition, names),
        AddedNames::Variable(name) => add_name(name, NameKind::Variable, names),
        AddedNames::Pattern(pattern) => add_bound(pattern, names),
        AddedNames::Patterns(patterns) => add_all_bound(patterns, names),
    }
}

fn add_all_bound(patterns: &[Pattern], names: &mut Vec<TopName>) -> Result<(), AllocError>
    ensures { OnOk result (names.new.items ≡ names.old.items ++ names_of_all patterns.now) }
{
    for pattern in patterns {
        add_bound(pattern, names)?;
    }
    Ok(())
}

pub(crate) fn add_bound(pattern: &Pattern, names: &mut Vec<TopName>) -> Result<(), AllocError>
    ensures { OnOk result (names.new.items ≡ names.old.items ++ name_of pattern.now) }
{
    match pattern {
        Pattern::Name(name) => add_name(name, NameKind::Definition, names),
        Pattern::Ignore => Ok(()),
    }
}

fn add_name(name: &Text, kind: NameKind, names: &mut Vec<TopName>) -> Result<(), AllocError>
    ensures { OnOk result (names.new.items ≡ names.old.items ++ record { name = name.now; kind = kind } ∷ []) }
{
    let name = name.share()?;
    names.push(TopName { name, kind })?;
    Ok(())
}

/// The names in scope behind a program are those before it and the names that it defines.
pub fn adds_own_names()
    ensures { AddsOwnNames }
{}
