// What is told of a message.
ghost use Rattle.std.specs.Prelude.{◌≡◌, ◌∷◌, ◌++◌, IfOk, IfErr, codes, string_bytes};
ghost use Rattle.std.specs.Option.{option_map};
ghost use Rattle.kernele.specs.Spelling.{bound_name};
ghost use Rattle.values.specs.Shown.{shown_items, shown_more};
ghost use Rattle.values.specs.View.{vals_of};
ghost use Rattle.post.specs.Delivery as model;
ghost use Rattle.post.specs.DeliveryView.{call_of, handler_of, when_of, delivery_of};
ghost use Rattle.world_cells.specs.View.{world_of};
ghost use Rattle.stepper_questions.specs.Deliveries.{delivery_lines, handler_text, message_refusal, MessageTold};
ghost use Rattle.stepper_questions.specs.DeliveriesView.{braced, caught_text, delivered_text, told_message_text, waiting_text};
ghost use Rattle.stepper_questions.specs.Refusals.{Refuses};
ghost use Rattle.stepper_streams.specs.Outlet.{Tells};

use crate::named::{ProgramText, program_text, put_block, put_captured, put_program};
use crate::unanswered::Unanswered;
use ids::names::{MsgId, VatNo};
use ids::text::Text;
use kernele::tree::Pattern;
use post::call::Call;
use post::delivery::Delivery;
use post::message::Message;
use post::when::{Handler, When};
use std::alloc::{AllocError, Global};
use std::collections::BTreeMap;
use std::io::Write;
use stepper_printing::picture::vats_by_birth;
use stepper_printing::show::{put_message_line, put_names, put_pattern};
use stepper_printing::value::put_value;
use stepper_streams::outlet::Outlet;
use values::value::Value;
use world_cells::world::World;

/// What runs if a value that a block waits for is broken.
#[derive(Drop)]
pub(crate) struct Caught<'w> {
    pub pattern: &'w Pattern,
    pub block: ProgramText,
}

/// A block that waits for a value.
#[derive(Drop)]
pub(crate) struct ToldWhen<'w> {
    pub when: &'w When,
    pub block: ProgramText,
    pub caught: Option<Caught<'w>>,
}

/// What a message delivers, with its programs as texts.
#[derive(Drop)]
pub(crate) enum Delivered<'w> {
    Opening(ProgramText),
    Asked(ProgramText),
    Sent(&'w Call),
    Waiting(ToldWhen<'w>),
}

/// A message, ready to be told.
#[derive(Drop)]
pub struct ToldMessage<'w> {
    pub(crate) name: MsgId,
    pub(crate) message: &'w Message,
    /// The vats by birth, with their names.
    pub(crate) vats: BTreeMap<VatNo, Text>,
    pub(crate) delivered: Delivered<'w>,
}

fn caught_by<'w>(
    alloc: Global,
    handler: &'w Option<Handler>,
) -> Result<Option<Caught<'w>>, AllocError>
    ensures { IfOk result (λ caught. caught_text caught ≡ handler_text (option_map handler_of handler.now)) }
{
    match handler {
        Some(handler) => Ok(Some(Caught {
            pattern: &handler.pattern,
            block: program_text(alloc, &handler.block)?,
        })),
        None => Ok(None),
    }
}

fn waiting_in<'w>(alloc: Global, when: &'w When) -> Result<ToldWhen<'w>, AllocError>
    ensures { IfOk result (λ waiting. waiting_text waiting ≡ delivery_lines (model.waiting (when_of when.now))) }
{
    Ok(ToldWhen {
        when,
        block: program_text(alloc, &when.block)?,
        caught: caught_by(alloc, &when.handler)?,
    })
}

/// What is delivered. Fails only for want of memory.
fn delivered_of<'w>(alloc: Global, delivery: &'w Delivery) -> Result<Delivered<'w>, AllocError>
    ensures { IfOk result (λ delivered. delivered_text delivered ≡ delivery_lines (delivery_of delivery.now)) }
{
    match delivery {
        Delivery::Opening(_, script) => Ok(Delivered::Opening(program_text(alloc, &script.items)?)),
        Delivery::Asked(question) => Ok(Delivered::Asked(program_text(alloc, &question.items)?)),
        Delivery::Sent(call) => Ok(Delivered::Sent(call)),
        Delivery::Waiting(when) => Ok(Delivered::Waiting(waiting_in(alloc, when)?)),
    }
}

/// What is told of a message: its line among all messages, the messages that must be done before it, and what it delivers, in its
/// own names.
///
/// # Errors
/// No message has this name; or memory ran out.
pub fn message_told<'w>(
    alloc: Global,
    world: &'w World,
    name: MsgId,
) -> Result<ToldMessage<'w>, Unanswered>
    ensures told { IfOk result (λ told. MessageTold (world_of world.now) name (told_message_text told)) }
    ensures refused { IfErr result (λ fault. Refuses fault (message_refusal (world_of world.now) name)) }
{
    let Some(message) = world.message(name) else {
        return Err(Unanswered::NoMessage(name));
    };
    let vats = vats_by_birth(alloc, &world.names(alloc)?)?;
    let delivered = delivered_of(alloc, &message.sent.delivery)?;
    Ok(ToldMessage {
        name,
        message,
        vats,
        delivered,
    })
}

/// Puts values, each behind a comma and a space.
fn put_more<W: Write>(values: &[Value], out: &mut Outlet<W>)
    ensures { Tells W.contents out.old out.new (shown_more (vals_of values.now)) }
{
    for value in values {
        out.put(", ");
        put_value(value, out);
    }
}

fn put_first_and<W: Write>(first: &Value, rest: &[Value], out: &mut Outlet<W>)
    ensures { Tells W.contents out.old out.new (shown_items (vals_of (first.now ∷ rest.now))) }
{
    put_value(first, out);
    put_more(rest, out);
}

/// Puts values with a comma and a space between two of them.
fn put_values<W: Write>(values: &[Value], out: &mut Outlet<W>)
    ensures { Tells W.contents out.old out.new (shown_items (vals_of values.now)) }
{
    match values.split_first() {
        Some((first, rest)) => put_first_and(first, rest, out),
        None => out.put(""),
    }
}

fn put_call<W: Write>(call: &Call, out: &mut Outlet<W>)
    ensures { Tells W.contents out.old out.new (delivery_lines (model.sent (call_of call.now))) }
{
    out.put(" sent ");
    put_value(&call.target, out);
    out.put(" <- ");
    out.put(call.verb.text().as_str());
    out.put("(");
    put_values(call.arguments.as_slice(), out);
    out.put(")\n");
}

fn put_catch<W: Write>(caught: &Caught<'_>, out: &mut Outlet<W>)
    ensures { Tells W.contents out.old out.new (codes " catch " ++ (bound_name caught.now.pattern.now ++ (codes " " ++ braced (option_map string_bytes caught.now.block)))) }
{
    out.put(" catch ");
    put_pattern(caught.pattern, out);
    out.put(" ");
    put_block(&caught.block, out);
}

fn put_caught<W: Write>(caught: &Option<Caught<'_>>, out: &mut Outlet<W>)
    ensures { Tells W.contents out.old out.new (caught_text caught.now) }
{
    match caught {
        Some(caught) => put_catch(caught, out),
        None => out.put(""),
    }
}

fn put_waiting<W: Write>(waiting: &ToldWhen<'_>, out: &mut Outlet<W>)
    ensures { Tells W.contents out.old out.new (waiting_text waiting.now) }
{
    out.put(" when ");
    put_value(&waiting.when.value, out);
    out.put(" -> ");
    put_block(&waiting.block, out);
    put_caught(&waiting.caught, out);
    out.put("\n");
    put_captured(waiting.when.captured.as_slice(), out);
}

fn put_delivered<W: Write>(delivered: &Delivered<'_>, out: &mut Outlet<W>)
    ensures { Tells W.contents out.old out.new (delivered_text delivered.now) }
{
    match delivered {
        Delivered::Opening(script) => put_program(" opening", script, out),
        Delivered::Asked(question) => put_program(" asked", question, out),
        Delivered::Sent(call) => put_call(call, out),
        Delivered::Waiting(waiting) => put_waiting(waiting, out),
    }
}

/// Puts what is told of a message.
pub fn put_told_message<W: Write>(told: &ToldMessage<'_>, out: &mut Outlet<W>)
    ensures { Tells W.contents out.old out.new (told_message_text told.now) }
{
    put_message_line(told.name, told.message, &told.vats, out);
    out.put(" after");
    put_names(told.message.sent.after.names(), out);
    out.put("\n");
    put_delivered(&told.delivered, out);
}
