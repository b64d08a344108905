// Sends, whens and promises.
ghost use Rattle.std.specs.Prelude.{◌≡◌, ◌<◌, true, IfOk, option_map};
ghost use Rattle.heap.specs.Drafts.{began_with, counts_of};
ghost use Rattle.values.specs.View.{val_of, vals_of};
ghost use Rattle.sends.specs.Vats.{all_settled, goes_to};
ghost use Rattle.sends.specs.Making.{makes, condition, waiting, promising, send_placed, sending};
ghost use Rattle.sends.specs.Playing.{Did, IsSameTurn, next_object};
ghost use Rattle.sends.specs.View.{sent_of, making_of, and_resolver};

use crate::coming::come_in;
use crate::ends::{end_of, settle};
use crate::fences::{reference_of, send_on};
use crate::leaving::leave_all;
use crate::refusing::{Making, Refusal, refuse};
use eorder::carried::Carried;
use eorder::fence::Fence;
use heap::draft::Draft;
use heap::made::Made;
use ids::names::{EventName, MsgId, ObjId, PromId, VatNo};
use std::alloc::{AllocError, Global};
use values::value::Value;

/// A message that is to be sent: the vat that sends it, its name, whether the turn may send one more, and the event and
/// the number of the promise of its result.
#[derive(Clone, Copy)]
pub struct Draw {
    pub here: VatNo,
    pub message: MsgId,
    pub room: bool,
    pub event: EventName,
    pub index: u32,
}

/// What was sent on what, with the fences of the references in the arguments, what it comes after, and the promise of its
/// result.
#[derive(Drop)]
pub struct Sending {
    pub target: Value,
    pub arguments: Vec<Value>,
    pub fences: Carried,
    pub after: Fence,
    pub result: PromId,
}

/// The vat to which a message on a settled value goes first.
pub fn home_of(here: VatNo, target: &Value) -> VatNo
    ensures { result ≡ goes_to here (val_of target.now) }
{
    match target {
        Value::Null
        | Value::Bool(_)
        | Value::Int(_)
        | Value::Text(_)
        | Value::List(_)
        | Value::Broken(_) => here,
        Value::Object(object) => object.vat,
        Value::Ejector(ejector) => ejector.vat,
        Value::Promise(promise) => promise.home,
    }
}

/// Each value settled by itself, from the left; none, where one passes a limit of values.
fn settle_all(
    alloc: Global,
    draft: &mut Draft,
    values: &[Value],
) -> Result<Option<Vec<Value>>, AllocError>
    ensures did { IfOk result (λ o. Did (all_settled (vals_of values.now)) draft.old (option_map (λ r. vals_of r.items) o) draft.new) }
    ensures turn { IsSameTurn draft.old draft.new }
{
    let mut row = Vec::with_capacity(alloc, values.len())?;
    for value in values {
        match settle(alloc, draft, value)? {
            Some(settled) => row.push(settled)?,
            None => return Ok(None),
        }
    }
    Ok(Some(row))
}

/// Sends a message on a settled target with settled arguments.
fn place(
    alloc: Global,
    draft: &mut Draft,
    draw: Draw,
    target: Value,
    arguments: Vec<Value>,
) -> Result<Sending, AllocError>
    ensures did { IfOk result (λ s. Did (send_placed draw.here draw.message (λ home. record { event = draw.event; index = draw.index; home = home }) (val_of target) (vals_of arguments.items)) draft.old (makes (sent_of s)) draft.new) }
    ensures turn { IsSameTurn draft.old draft.new }
{
    let after = send_on(alloc, draft, draw.message, reference_of(&target))?;
    let fences = leave_all(alloc, draft, arguments.as_slice())?;
    let result = PromId {
        event: draw.event,
        index: draw.index,
        home: home_of(draw.here, &target),
    };
    come_in(draft, result)?;
    Ok(Sending {
        target,
        arguments,
        fences,
        after,
        result,
    })
}

/// Sends a message. The receiver is settled first, then the arguments, from the left; then the message is counted.
pub fn send(
    alloc: Global,
    draft: &mut Draft,
    draw: Draw,
    receiver: &Value,
    arguments: &[Value],
) -> Result<Making<Sending>, AllocError>
    ensures did { IfOk result (λ m. Did (sending draw.here draw.message draw.room (λ home. record { event = draw.event; index = draw.index; home = home }) (val_of receiver.now) (vals_of arguments.now)) draft.old (making_of sent_of m) draft.new) }
    ensures turn { IsSameTurn draft.old draft.new }
{
    let Some(target) = settle(alloc, draft, receiver)? else {
        return Ok(Making::Refused(refuse(alloc, "value too large")?));
    };
    let Some(arguments) = settle_all(alloc, draft, arguments)? else {
        return Ok(Making::Refused(refuse(alloc, "value too large")?));
    };
    if !draw.room {
        return Ok(Making::Refused(Refusal::TurnTooLarge));
    }
    Ok(Making::Makes(place(alloc, draft, draw, target, arguments)?))
}

/// What a when waits for: an unresolved promise, or else its own result.
fn condition_of(result_of_when: PromId, end: &Value) -> PromId
    ensures { result ≡ condition result_of_when (val_of end.now) }
{
    match end.as_promise() {
        Some(promise) => promise,
        None => result_of_when,
    }
}

/// Makes a when, whose result is this promise, and answers what it waits for. The value's end is taken as it is made.
pub fn wait(
    alloc: Global,
    draft: &mut Draft,
    room: bool,
    promise: PromId,
    value: &Value,
) -> Result<Making<PromId>, AllocError>
    ensures did { IfOk result (λ m. Did (waiting room promise (val_of value.now)) draft.old (making_of (λ p. p) m) draft.new) }
    ensures turn { IsSameTurn draft.old draft.new }
{
    let end = end_of(alloc, draft, value)?;
    if !room {
        return Ok(Making::Refused(Refusal::TurnTooLarge));
    }
    come_in(draft, promise)?;
    Ok(Making::Makes(condition_of(promise, &end)))
}

/// Makes a promise, and its resolver, which is the turn's next object.
pub fn promise(draft: &mut Draft, room: bool, promise: PromId) -> Result<Making<ObjId>, AllocError>
    requires { room ≡ true → (counts_of draft.old).objects < u32.MAX }
    ensures did { IfOk result (λ m. Did (promising room promise (next_object draft.old)) draft.old (making_of (λ o. o) m) draft.new) }
    ensures counts { IfOk result (λ m. counts_of draft.new ≡ and_resolver m (counts_of draft.old)) }
    ensures began { began_with draft.new ≡ began_with draft.old }
{
    if !room {
        return Ok(Making::Refused(Refusal::TurnTooLarge));
    }
    come_in(draft, promise)?;
    let resolver = draft.new_object(Made::Resolver(promise))?;
    Ok(Making::Makes(resolver))
}
