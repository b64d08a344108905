// The check of a program before it is evaluated.
ghost use Rattle.std.specs.Prelude.{◌≡◌, ◌++◌, [], map, false, Some, Ok, IsOk, IfOk, IfErr, OnOk};
ghost use Rattle.std.specs.Fmt.{WritesOnOk};
ghost use Rattle.kernele.specs.View.{tree_of, trees_of, methods_of, program_of};
ghost use Rattle.kernele_scopes.specs.Scope.{checked, checked_all, checked_methods, checked_program, found, assigned, added, bound, all_bound, entered, in_block, same_signature, has_signature, script_scopes, asked_scopes, names_in, definitions, kind_in};
ghost use Rattle.kernele_scopes.specs.Check.{Gives, Refuses, fault_text, MayRefuse, names_of, scopes_of, scopes_in, scopes_with, signature_of};
ghost use Rattle.kernele_scopes.specs.Parts.{part_checked, part_in, binding_checked, binding_in, checked_behind};
ghost use Rattle.kernele_scopes.specs.declared.checking.CheckFault.TheVariants.{Memory};

use crate::count::{Room, behind_all};
use crate::naming::{NameKind, TopName};
use crate::parts::{AddedNames, NamePart, first_part, second_part, third_part};
use ids::text::Text;
use kernele::tree::{Expr, Method, Pattern, Program};
use std::alloc::{AllocError, AllocFailed, Global};
use std::collections::BTreeMap;
use std::fmt;
use std::fmt::{Debug, Display, Formatter, Write};
use thiserror::Error;

/// The most nodes that a program may have.
const MOST_NODES: u32 = 16_384;

/// The greatest depth that a program may have.
const GREATEST_DEPTH: u32 = 200;

/// Why a program is not evaluated.
#[derive(Drop, Error)]
pub enum CheckFault {
    /// A noun that no scope has.
    Unbound(Text),
    /// The name that is assigned was made by no `var`.
    AssignToDef(Text),
    /// A second definition of a name in one scope.
    DuplicateName(Text),
    /// Trees deeper than `GREATEST_DEPTH`.
    TooDeep,
    /// More than 16,384 nodes.
    TooLong,
    /// No memory was left for the check.
    Memory,
}

/// Writes words, and behind them the name that they are about.
fn write_about<W: Write>(f: &mut Formatter<W>, words: &str, name: &Text) -> fmt::Result
    ensures { WritesOnOk W.write_str_gives f.old result (words.now ++ name.now) f.new }
{
    write!(f, "{words}{name}")
}

impl Display for CheckFault {
    ghost output = { λ fault. Some (fault_text fault) };

    fn fmt<W: Write>(&self, f: &mut Formatter<W>) -> fmt::Result {
        match self {
            CheckFault::Unbound(name) => write_about(f, "K1 Unbound ", name),
            CheckFault::AssignToDef(name) => write_about(f, "K2 AssignToDef ", name),
            CheckFault::DuplicateName(name) => write_about(f, "K3 DuplicateName ", name),
            CheckFault::TooDeep => f.write_str("K4 TooDeep"),
            CheckFault::TooLong => f.write_str("K5 TooLong"),
            CheckFault::Memory => f.write_str("B20 Memory"),
        }
    }
}

impl Debug for CheckFault {
    fn fmt<W: Write>(&self, f: &mut Formatter<W>) -> fmt::Result {
        Display::fmt(self, f)
    }
}

impl From<AllocError> for CheckFault {
    ghost from_gives = { λ _ e. e ≡ Memory };

    fn from(_error: AllocError) -> Self {
        CheckFault::Memory
    }
}

impl<T: Drop> From<AllocFailed<T>> for CheckFault {
    ghost from_gives = { λ _ e. e ≡ Memory };

    fn from(_error: AllocFailed<T>) -> Self {
        CheckFault::Memory
    }
}

/// The names of earlier vats, which are no variables.
fn names_of_vats(alloc: Global, earlier: &[Text]) -> Result<BTreeMap<Text, NameKind>, AllocError>
    ensures { IfOk result (λ names. names_of names ≡ names_in (definitions earlier.now)) }
{
    let mut names = BTreeMap::new(alloc);
    for name in earlier {
        names.insert(name.share()?, NameKind::Definition)?;
    }
    Ok(names)
}

/// The names that a program finds in scope.
#[derive(Drop)]
pub struct Outer {
    /// Those of its own scope, which it may not define again.
    own: BTreeMap<Text, NameKind>,
    /// Those of the scope around it, which it may hide.
    around: BTreeMap<Text, NameKind>,
}

impl Outer {
    /// For a script, which may not define the names of earlier vats again.
    pub fn for_script(alloc: Global, earlier: &[Text]) -> Result<Outer, AllocError>
        ensures { IfOk result (λ outer. scopes_of outer ≡ script_scopes earlier.now) }
    {
        let own = names_of_vats(alloc, earlier)?;
        let around = BTreeMap::new(alloc);
        Ok(Outer { own, around })
    }

    /// For an asked program, which may hide the names of the vats before its own, and those that the script of its vat defined.
    pub fn for_asked(alloc: Global, earlier: &[Text], tops: &[TopName]) -> Result<Outer, AllocError>
        ensures { IfOk result (λ outer. scopes_of outer ≡ asked_scopes earlier.now tops.now) }
    {
        let mut around = names_of_vats(alloc, earlier)?;
        for top in tops {
            around.insert(top.name.share()?, top.kind)?;
        }
        let own = BTreeMap::new(alloc);
        Ok(Outer { own, around })
    }
}

/// Checks that a program may be evaluated: first its size, then its depth, then that each noun is
/// in scope where it stands, that what is assigned is a variable and that no scope has a name twice.
pub fn check(alloc: Global, program: &Program, outer: &Outer) -> Result<(), CheckFault>
    ensures ok { OnOk result (IsOk (checked_program (program_of program.now) (scopes_of outer.now))) }
    ensures refused { IfErr result (λ fault. Refuses fault (checked_program (program_of program.now) (scopes_of outer.now))) }
{
    let trees = program.0.0.as_slice();
    let room = Room {
        nodes: MOST_NODES,
        too_deep: false,
    };
    let Some(room) = behind_all(trees, GREATEST_DEPTH, Some(room)) else {
        return Err(CheckFault::TooLong);
    };
    if room.too_deep {
        return Err(CheckFault::TooDeep);
    }
    let mut scopes = Scopes {
        alloc,
        around: Around::Program(outer),
        defined: BTreeMap::new(alloc),
    };
    check_all(trees, &mut scopes)
}

/// What lies around the definitions of the innermost scope.
#[derive(Drop)]
enum Around<'a> {
    /// The scope is the program's own.
    Program(&'a Outer),
    /// The scope is a block's: the definitions of the scope where the block stands, and what lies
    /// around those.
    Block(&'a BTreeMap<Text, NameKind>, &'a Around<'a>),
}

/// The scopes where an expression stands.
#[derive(Drop)]
struct Scopes<'a> {
    alloc: Global,
    around: Around<'a>,
    /// The names that the innermost scope has defined so far.
    defined: BTreeMap<Text, NameKind>,
}

impl<'a> Around<'a> {
    /// What a name is in the scope with these definitions.
    fn kind_in_own(&self, defined: &BTreeMap<Text, NameKind>, name: &Text) -> Option<NameKind>
        ensures { result ≡ (scopes_with self.now (names_of defined.now)).own name.now }
    {
        let found = defined.get(name).copied();
        match self {
            Around::Program(outer) => found.or(outer.own.get(name).copied()),
            Around::Block(_, _) => found,
        }
    }

    /// What a name is: one of an inner scope hides one of an outer scope.
    fn kind(&self, defined: &BTreeMap<Text, NameKind>, name: &Text) -> Option<NameKind>
        ensures { result ≡ kind_in (scopes_with self.now (names_of defined.now)) name.now }
    {
        if let Some(kind) = self.kind_in_own(defined, name) {
            return Some(kind);
        }
        match self {
            Around::Program(outer) => outer.around.get(name).copied(),
            Around::Block(names, around) => around.kind(names, name),
        }
    }
}

impl<'a> Scopes<'a> {
    /// What a name is in the innermost scope.
    fn kind_in_own(&self, name: &Text) -> Option<NameKind>
        ensures { result ≡ (scopes_in self.now).own name.now }
    {
        self.around.kind_in_own(&self.defined, name)
    }

    /// What a name is: one of an inner scope hides one of an outer scope.
    fn kind(&self, name: &Text) -> Option<NameKind>
        ensures { result ≡ kind_in (scopes_in self.now) name.now }
    {
        self.around.kind(&self.defined, name)
    }

    /// The scopes where a block begins.
    fn enter(&self) -> Scopes<'_>
        ensures { scopes_in result ≡ entered (scopes_in self.now) }
    {
        Scopes {
            alloc: self.alloc,
            around: Around::Block(&self.defined, &self.around),
            defined: BTreeMap::new(self.alloc),
        }
    }

    /// Adds a name to the innermost scope, which must not have it.
    fn add(&mut self, name: &Text, kind: NameKind) -> Result<(), CheckFault>
        ensures { Gives result (scopes_in self.new) (added (record { name = name.now; kind = kind }) (scopes_in self.old)) }
    {
        if self.kind_in_own(name).is_some() {
            return Err(CheckFault::DuplicateName(name.share()?));
        }
        self.defined.insert(name.share()?, kind)?;
        Ok(())
    }
}

#[cycle(check)]
fn check_all(trees: &[Expr], scopes: &mut Scopes) -> Result<(), CheckFault>
    ensures { Gives result (scopes_in scopes.new) (checked_all (trees_of trees.now) (scopes_in scopes.old)) }
{
    for tree in trees {
        check_expr(tree, scopes)?;
    }
    Ok(())
}

#[cycle(check)]
fn check_expr(e: &Expr, scopes: &mut Scopes) -> Result<(), CheckFault>
    ensures { Gives result (scopes_in scopes.new) (checked (tree_of e.now) (scopes_in scopes.old)) }
{
    check_part(first_part(e), scopes)?;
    check_part(second_part(e), scopes)?;
    check_part(third_part(e), scopes)
}

#[cycle(check)]
fn check_part(part: NamePart<'_>, scopes: &mut Scopes) -> Result<(), CheckFault>
    ensures { Gives result (scopes_in scopes.new) (part_checked (part_in part.entry) (scopes_in scopes.old)) }
{
    match part {
        NamePart::Nothing | NamePart::Target(_, _) => Ok(()),
        NamePart::Noun(name) => check_noun(name, scopes),
        NamePart::Assign(name) => check_assigned(name, scopes),
        NamePart::Evaluate(e) => check_expr(e, scopes),
        NamePart::EvaluateAll(trees) => check_all(trees, scopes),
        NamePart::Bind(binding) => check_binding(binding, scopes),
        NamePart::Block(binding, body) => check_block(binding, body, scopes),
        NamePart::Methods(methods) => check_methods(methods, scopes),
    }
}

/// Checks a block in a scope of its own, which begins with some names.
#[cycle(check)]
fn check_block(
    binding: AddedNames<'_>,
    body: &[Expr],
    scopes: &Scopes<'_>,
) -> Result<(), CheckFault>
    ensures { Gives result (scopes_in scopes.now) (in_block (checked_behind (binding_in binding.entry) (checked_all (trees_of body.now))) (scopes_in scopes.now)) }
{
    let mut inner = scopes.enter();
    check_binding(binding, &mut inner)?;
    check_all(body, &mut inner)
}

/// Checks the methods of an object, each behind the earlier ones.
#[cycle(check)]
fn check_methods(methods: &[Method], scopes: &Scopes<'_>) -> Result<(), CheckFault>
    ensures { Gives result (scopes_in scopes.now) (checked_methods [] (methods_of methods.now) (scopes_in scopes.now)) }
{
    let mut index = 0;
    while index < methods.len() {
        let method = &methods[index];
        check_is_new(&methods[..index], method)?;
        check_block(
            AddedNames::Patterns(&method.parameters),
            &method.body,
            scopes,
        )?;
        index += 1;
    }
    Ok(())
}

fn check_noun(name: &Text, scopes: &mut Scopes) -> Result<(), CheckFault>
    ensures { Gives result (scopes_in scopes.new) (found name.now (scopes_in scopes.old)) }
{
    if scopes.kind(name).is_some() {
        Ok(())
    } else {
        Err(CheckFault::Unbound(name.share()?))
    }
}

fn check_assigned(name: &Text, scopes: &mut Scopes) -> Result<(), CheckFault>
    ensures { Gives result (scopes_in scopes.new) (assigned name.now (scopes_in scopes.old)) }
{
    match scopes.kind(name) {
        Some(NameKind::Variable) => Ok(()),
        Some(NameKind::Definition) => Err(CheckFault::AssignToDef(name.share()?)),
        None => Err(CheckFault::Unbound(name.share()?)),
    }
}

/// Checks that no earlier method of the object is found by the verb and the number of arguments of this one.
fn check_is_new(earlier: &[Method], method: &Method) -> Result<(), CheckFault>
    ensures ok { OnOk result (has_signature (map signature_of earlier.now) (signature_of method.now) ≡ false) }
    ensures refused { IfErr result (λ fault. MayRefuse fault (has_signature (map signature_of earlier.now) (signature_of method.now)) method.now.verb) }
{
    for other in earlier {
        if is_found_as(other, method) {
            return Err(CheckFault::DuplicateName(method.verb.share()?));
        }
    }
    Ok(())
}

/// Whether two methods are found by the same verb and number of arguments.
fn is_found_as(one: &Method, other: &Method) -> bool
    ensures { result ≡ same_signature (signature_of one.now) (signature_of other.now) }
{
    one.verb == other.verb && one.parameters.len() == other.parameters.len()
}

fn check_binding(binding: AddedNames<'_>, scopes: &mut Scopes) -> Result<(), CheckFault>
    ensures { Gives result (scopes_in scopes.new) (binding_checked (binding_in binding.entry) (scopes_in scopes.old)) }
{
    match binding {
        AddedNames::Nothing => Ok(()),
        AddedNames::Definition(name) => scopes.add(name, NameKind::Definition),
        AddedNames::Variable(name) => scopes.add(name, NameKind::Variable),
        AddedNames::Pattern(pattern) => check_pattern(pattern, scopes),
        AddedNames::Patterns(patterns) => check_patterns(patterns, scopes),
    }
}

fn check_patterns(patterns: &[Pattern], scopes: &mut Scopes) -> Result<(), CheckFault>
    ensures { Gives result (scopes_in scopes.new) (all_bound patterns.now (scopes_in scopes.old)) }
{
    for pattern in patterns {
        check_pattern(pattern, scopes)?;
    }
    Ok(())
}

fn check_pattern(pattern: &Pattern, scopes: &mut Scopes) -> Result<(), CheckFault>
    ensures { Gives result (scopes_in scopes.new) (bound pattern.now (scopes_in scopes.old)) }
{
    match pattern {
        Pattern::Name(name) => scopes.add(name, NameKind::Definition),
        Pattern::Ignore => Ok(()),
    }
}
