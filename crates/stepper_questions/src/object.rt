// What is told of an object.
ghost use Rattle.std.specs.Prelude.{◌≡◌, ◌++◌, ◌∷◌, IfOk, IfErr, IfSome, map, codes, option_copied};
ghost use Rattle.std.specs.Option.{option_map};
ghost use Rattle.kernele.specs.Spelling.{joined, led_by, bound_name};
ghost use Rattle.code.specs.View.{methods_of_codes};
ghost use Rattle.heap.specs.View.{object_of};
ghost use Rattle.world_cells.specs.View.{world_of};
ghost use Rattle.stepper_questions.specs.Objects as model;
ghost use Rattle.stepper_questions.specs.Objects.{ObjectTold, LacksObject, inside_lines, method_lines, found_in};
ghost use Rattle.stepper_questions.specs.ObjectView.{owned_of, captured_in, told_method_line, told_method_lines, told_object_text};
ghost use Rattle.stepper_streams.specs.Outlet.{Tells};

use crate::named::{ProgramText, program_text, put_block, put_captured};
use crate::unanswered::Unanswered;
use code::code::MethodCode;
use heap::made::Made;
use ids::names::{EventName, ObjId, VatNo};
use ids::text::Text;
use kernele::tree::Pattern;
use std::alloc::{AllocError, Global};
use std::collections::BTreeMap;
use std::io::Write;
use stepper_printing::names::put_object;
use stepper_printing::picture::vats_by_birth;
use stepper_printing::show::{put_made, put_pattern};
use stepper_streams::outlet::Outlet;
use world_cells::world::World;

/// An object with its name and that of its vat.
#[derive(Clone, Copy)]
pub(crate) struct Owned<'w, 'v> {
    pub name: ObjId,
    pub owner: &'v Text,
    pub object: &'w Made,
}

/// A method, with its body as a text.
#[derive(Drop)]
pub(crate) struct ToldMethod<'w> {
    pub method: &'w MethodCode,
    pub body: ProgramText,
}

/// An object, ready to be told.
#[derive(Drop)]
pub struct ToldObject<'w> {
    pub(crate) name: ObjId,
    /// The name of its vat.
    pub(crate) owner: Text,
    pub(crate) object: &'w Made,
    pub(crate) methods: Vec<ToldMethod<'w>>,
}

/// The object of a vat with this name.
fn object_at(world: &World, name: ObjId) -> Option<&Made>
    ensures { option_map object_of (option_copied result) ≡ model.object_of (world_of world.now) name.event name.index name.vat }
{
    match world.home(name.vat) {
        Some(state) => state.objects.get(&name),
        None => None,
    }
}

/// The object of this name of the first of these vats that has one, with its vat's name.
fn find_object<'w, 'v>(
    world: &'w World,
    vats: &'v BTreeMap<VatNo, Text>,
    event: EventName,
    index: u32,
) -> Option<Owned<'w, 'v>>
    ensures found { option_map owned_of result ≡ found_in (world_of world.now) event index vats.now.entries }
    ensures named { IfSome result (λ o. (o.name.event ≡ event) × (o.name.index ≡ index)) }
{
    for (vat, owner) in vats.iter() {
        let vat = *vat;
        let name = ObjId { event, index, vat };
        if let Some(object) = object_at(world, name) {
            return Some(Owned {
                name,
                owner,
                object,
            });
        }
    }
    None
}

/// Methods with their bodies as texts. Fails only for want of memory.
fn spelled_methods<'w>(
    alloc: Global,
    methods: &'w [MethodCode],
) -> Result<Vec<ToldMethod<'w>>, AllocError>
    ensures { IfOk result (λ told. told_method_lines told.items ≡ method_lines (methods_of_codes methods.now)) }
{
    let mut told = Vec::new(alloc);
    for method in methods {
        let body = program_text(alloc, &method.body)?;
        told.push(ToldMethod { method, body })?;
    }
    Ok(told)
}

/// The methods of an object, with their bodies as texts. Fails only for want of memory.
fn methods_in<'w>(alloc: Global, object: &'w Made) -> Result<Vec<ToldMethod<'w>>, AllocError>
    ensures { IfOk result (λ told. captured_in (object_of object.now) ++ told_method_lines told.items ≡ inside_lines (object_of object.now)) }
{
    match object {
        Made::Plain(plain) => spelled_methods(alloc, plain.methods.as_slice()),
        Made::Resolver(_) => Ok(Vec::new(alloc)),
    }
}

/// What is told of the object of an event with this number: what it is, its vat, what the names stand for that it captured, and its
/// methods, in their own names.
///
/// # Errors
/// No vat has such an object; or memory ran out.
pub fn object_told<'w>(
    alloc: Global,
    world: &'w World,
    event: EventName,
    index: u32,
) -> Result<ToldObject<'w>, Unanswered>
    ensures told { IfOk result (λ told. ObjectTold (world_of world.now) event index (told_object_text told)) }
    ensures refused { IfErr result (λ fault. LacksObject (world_of world.now) event index fault) }
{
    let names = world.names(alloc)?;
    let vats = vats_by_birth(alloc, &names)?;
    let Some(owned) = find_object(world, &vats, event, index) else {
        return Err(Unanswered::NoObject(event, index));
    };
    let methods = methods_in(alloc, owned.object)?;
    Ok(ToldObject {
        name: owned.name,
        owner: owned.owner.share()?,
        object: owned.object,
        methods,
    })
}

/// Puts parameters, each behind a comma and a space.
fn put_more<W: Write>(parameters: &[Pattern], out: &mut Outlet<W>)
    ensures { Tells W.contents out.old out.new (led_by (codes ", ") (map bound_name parameters.now)) }
{
    for parameter in parameters {
        out.put(", ");
        put_pattern(parameter, out);
    }
}

fn put_first_and<W: Write>(first: &Pattern, rest: &[Pattern], out: &mut Outlet<W>)
    ensures { Tells W.contents out.old out.new (joined (codes ", ") (map bound_name (first.now ∷ rest.now))) }
{
    put_pattern(first, out);
    put_more(rest, out);
}

/// Puts parameters with a comma and a space between two of them.
fn put_parameters<W: Write>(parameters: &[Pattern], out: &mut Outlet<W>)
    ensures { Tells W.contents out.old out.new (joined (codes ", ") (map bound_name parameters.now)) }
{
    match parameters.split_first() {
        Some((first, rest)) => put_first_and(first, rest, out),
        None => out.put(""),
    }
}

fn put_method<W: Write>(told: &ToldMethod<'_>, out: &mut Outlet<W>)
    ensures { Tells W.contents out.old out.new (told_method_line told.now) }
{
    out.put(" method ");
    out.put(told.method.verb.as_str());
    out.put("(");
    put_parameters(told.method.parameters.as_slice(), out);
    out.put(")");
    out.put(" ");
    put_block(&told.body, out);
    out.put("\n");
}

/// Puts methods in their order, a line for each.
fn put_methods<W: Write>(methods: &[ToldMethod<'_>], out: &mut Outlet<W>)
    ensures { Tells W.contents out.old out.new (told_method_lines methods.now) }
{
    for method in methods {
        put_method(method, out);
    }
}

/// Puts what an object captured.
fn put_captured_in<W: Write>(object: &Made, out: &mut Outlet<W>)
    ensures { Tells W.contents out.old out.new (captured_in (object_of object.now)) }
{
    match object {
        Made::Plain(plain) => put_captured(plain.captured.as_slice(), out),
        Made::Resolver(_) => out.put(""),
    }
}

/// Puts what is told of an object.
pub fn put_told_object<W: Write>(told: &ToldObject<'_>, out: &mut Outlet<W>)
    ensures { Tells W.contents out.old out.new (told_object_text told.now) }
{
    out.put("object ");
    put_object(told.name, out);
    out.put(" ");
    put_made(told.object, out);
    out.put("\n at ");
    out.put(told.owner.as_str());
    out.put("\n");
    put_captured_in(told.object, out);
    put_methods(&told.methods, out);
}
