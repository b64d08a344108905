// The names that an object or a `when` captures.
ghost use Rattle.std.specs.Prelude.{◌≡◌, ◌++◌, IfOk, OnOk};
ghost use Rattle.kernele.specs.View.{tree_of, trees_of, methods_of};
ghost use Rattle.kernele_scopes.specs.Scope.{own_names, own_names_in};
ghost use Rattle.kernele_scopes.specs.Free.{captures, when_captures, free, free_in, free_of, occurring, defines as defined_by, is_among as among_those, FreeNamesAreInScope, UnboundNamesAreFree};
ghost use Rattle.kernele_scopes.specs.Found.{with_all_new};
ghost use Rattle.kernele_scopes.specs.Parts.{part_in, part_names, part_free, binding_in, binding_names};

use crate::naming::{TopName, add_binding, add_bound, add_names};
use crate::parts::{AddedNames, NamePart, first_part, second_part, third_part};
use ids::text::Text;
use kernele::tree::{Expr, Method, Pattern};
use std::alloc::{AllocError, Global};

/// The names that an object with these methods captures, each once, in the order in which they first occur in its text.
pub fn captured_names(
    alloc: Global,
    pattern: &Pattern,
    methods: &[Method],
) -> Result<Vec<Text>, AllocError>
    ensures { IfOk result (λ names. names.items ≡ captures pattern.now (methods_of methods.now)) }
{
    let mut inside = Vec::new(alloc);
    let mut found = Vec::new(alloc);
    add_bound(pattern, &mut inside)?;
    find_in_methods(methods, &mut inside, &mut found)?;
    Ok(found)
}

/// The names that a `when` with this block and this handler captures behind its value, each once, in the order in which they
/// first occur in its text. Where it has no `catch`, the handler has no items.
pub fn captured_by_when(
    alloc: Global,
    body: &[Expr],
    pattern: &Pattern,
    handler: &[Expr],
) -> Result<Vec<Text>, AllocError>
    ensures { IfOk result (λ names. names.items ≡ when_captures (trees_of body.now) pattern.now (trees_of handler.now)) }
{
    let mut inside = Vec::new(alloc);
    let mut found = Vec::new(alloc);
    find_in_block(AddedNames::Nothing, body, &mut inside, &mut found)?;
    find_in_block(
        AddedNames::Pattern(pattern),
        handler,
        &mut inside,
        &mut found,
    )?;
    Ok(found)
}

/// Adds the names that are free in an expression, where those inside are defined inside the object, and what it defines to those.
#[cycle(free)]
fn find_in(e: &Expr, inside: &mut Vec<TopName>, found: &mut Vec<Text>) -> Result<(), AllocError>
    ensures inside { OnOk result (inside.new.items ≡ inside.old.items ++ own_names (tree_of e.now)) }
    ensures found { OnOk result (found.new.items ≡ with_all_new found.old.items (free (tree_of e.now) inside.old.items)) }
{
    find_in_part(first_part(e), inside, found)?;
    find_in_part(second_part(e), inside, found)?;
    find_in_part(third_part(e), inside, found)
}

/// The same of a part of an expression.
#[cycle(free)]
fn find_in_part(
    part: NamePart<'_>,
    inside: &mut Vec<TopName>,
    found: &mut Vec<Text>,
) -> Result<(), AllocError>
    ensures inside { OnOk result (inside.new.items ≡ inside.old.items ++ part_names (part_in part.entry)) }
    ensures found { OnOk result (found.new.items ≡ with_all_new found.old.items (part_free (part_in part.entry) inside.old.items)) }
{
    match part {
        NamePart::Nothing | NamePart::Assign(_) => Ok(()),
        NamePart::Noun(name) => add_occurring(name, inside, found),
        NamePart::Target(name, value) => find_target(name, value, inside, found),
        NamePart::Evaluate(e) => find_in(e, inside, found),
        NamePart::EvaluateAll(trees) => find_in_all(trees, inside, found),
        NamePart::Bind(binding) => add_binding(binding, inside),
        NamePart::Block(binding, body) => find_in_block(binding, body, inside, found),
        NamePart::Methods(methods) => find_in_methods(methods, inside, found),
    }
}

/// The same of expressions in order.
#[cycle(free)]
fn find_in_all(
    trees: &[Expr],
    inside: &mut Vec<TopName>,
    found: &mut Vec<Text>,
) -> Result<(), AllocError>
    ensures inside { OnOk result (inside.new.items ≡ inside.old.items ++ own_names_in (trees_of trees.now)) }
    ensures found { OnOk result (found.new.items ≡ with_all_new found.old.items (free_in (trees_of trees.now) inside.old.items)) }
{
    for tree in trees {
        find_in(tree, inside, found)?;
    }
    Ok(())
}

/// The same of methods: the parameters of a method are defined in its body alone.
#[cycle(free)]
fn find_in_methods(
    methods: &[Method],
    inside: &mut Vec<TopName>,
    found: &mut Vec<Text>,
) -> Result<(), AllocError>
    ensures inside { OnOk result (inside.new.items ≡ inside.old.items) }
    ensures found { OnOk result (found.new.items ≡ with_all_new found.old.items (free_of (methods_of methods.now) inside.old.items)) }
{
    for method in methods {
        let parameters = AddedNames::Patterns(&method.parameters);
        find_in_block(parameters, &method.body, inside, found)?;
    }
    Ok(())
}

/// The same of a block that begins with some names; what it defines ends with it.
#[cycle(free)]
fn find_in_block(
    binding: AddedNames<'_>,
    body: &[Expr],
    inside: &mut Vec<TopName>,
    found: &mut Vec<Text>,
) -> Result<(), AllocError>
    ensures inside { OnOk result (inside.new.items ≡ inside.old.items) }
    ensures found { OnOk result (found.new.items ≡ with_all_new found.old.items (free_in (trees_of body.now) (inside.old.items ++ binding_names (binding_in binding.entry)))) }
{
    let outer = inside.len();
    add_binding(binding, inside)?;
    find_in_all(body, inside, found)?;
    inside.truncate(outer);
    Ok(())
}

/// Adds a name that stands before an expression and is looked up behind it.
fn find_target(
    name: &Text,
    value: &Expr,
    inside: &mut Vec<TopName>,
    found: &mut Vec<Text>,
) -> Result<(), AllocError>
    ensures inside { OnOk result (inside.new.items ≡ inside.old.items) }
    ensures found { OnOk result (found.new.items ≡ with_all_new found.old.items (occurring name.now (inside.old.items ++ own_names (tree_of value.now)))) }
{
    let outer = inside.len();
    add_names(value, inside)?;
    add_occurring(name, inside, found)?;
    inside.truncate(outer);
    Ok(())
}

/// Adds a name where nothing inside the object has defined it and it was not found before.
fn add_occurring(name: &Text, inside: &[TopName], found: &mut Vec<Text>) -> Result<(), AllocError>
    ensures { OnOk result (found.new.items ≡ with_all_new found.old.items (occurring name.now inside.now)) }
{
    if defines(inside, name) || is_among(found, name) {
        return Ok(());
    }
    found.push(name.share()?)?;
    Ok(())
}

fn defines(names: &[TopName], name: &Text) -> bool
    ensures { result ≡ defined_by names.now name.now }
{
    for top in names {
        if top.name == *name {
            return true;
        }
    }
    false
}

fn is_among(names: &[Text], name: &Text) -> bool
    ensures { result ≡ among_those names.now name.now }
{
    for other in names {
        if *other == *name {
            return true;
        }
    }
    false
}

/// The names that are free in a program are those that its check looks for in the scopes around it: where it passes, each of
/// them is there, and one that is refused as unbound is one of them and is not there.
pub fn checks_free_names()
    ensures passed { FreeNamesAreInScope }
    ensures unbound { UnboundNamesAreFree }
{}
