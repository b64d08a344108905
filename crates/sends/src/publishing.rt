// What is published.
ghost use Rattle.std.specs.Prelude.{◌≡◌, IfOk};
ghost use Rattle.values.specs.Replies.{text_in};
ghost use Rattle.values.specs.View.{val_of, reply_of};
ghost use Rattle.sends.specs.Making.{publishing, already_used, used, resolving, smashing, smashed_by, ending};
ghost use Rattle.sends.specs.Playing.{Did, IsSameTurn};
ghost use Rattle.sends.specs.View.{published_of, making_of};

use crate::ends::{end_of, settle};
use crate::entering::enter_if_come;
use crate::leaving::leave;
use crate::refusing::{Making, Refusal, refuse};
use eorder::carried::Carried;
use heap::draft::Draft;
use heap::state::View;
use ids::names::PromId;
use ids::reference::Reference;
use std::alloc::{AllocError, Global};
use values::value::{Answer, Value};

/// What is published: a value, the fences with which its references leave, and the reference that it settles to where its
/// promise was entered.
#[derive(Drop)]
pub struct Resolution {
    pub value: Value,
    pub fences: Carried,
    pub joined: Option<Reference>,
}

/// Publishes a promise as a settled or broken value. Its references leave with the fences from before it is entered.
pub fn publish(
    alloc: Global,
    draft: &mut Draft,
    promise: PromId,
    value: Value,
) -> Result<Resolution, AllocError>
    ensures did { IfOk result (λ b. Did (publishing promise (val_of value)) draft.old (published_of b) draft.new) }
    ensures turn { IsSameTurn draft.old draft.new }
{
    let fences = leave(alloc, draft, &value)?;
    let joined = enter_if_come(alloc, draft, promise, &value)?;
    Ok(Resolution {
        value,
        fences,
        joined,
    })
}

/// Uses a promise's resolver, which works while the promise is open.
fn use_resolver(
    alloc: Global,
    draft: &mut Draft,
    promise: PromId,
    value: Value,
) -> Result<Making<Resolution>, AllocError>
    ensures did { IfOk result (λ m. Did (used promise (val_of value)) draft.old (making_of published_of m) draft.new) }
    ensures turn { IsSameTurn draft.old draft.new }
{
    draft.reach_view(promise)?;
    match draft.known(promise) {
        Some(View::Open) => Ok(Making::Makes(publish(alloc, draft, promise, value)?)),
        Some(View::Resolved(_)) => no_use(alloc),
        None => no_use(alloc),
    }
}

/// A resolver was used before.
fn no_use(alloc: Global) -> Result<Making<Resolution>, AllocError>
    ensures { IfOk result (λ m. making_of published_of m ≡ already_used) }
{
    Ok(Making::Refused(refuse(alloc, "already resolved")?))
}

/// A resolver resolves its promise to a value, which is settled before it is tried whether the resolver was used.
pub fn resolve(
    alloc: Global,
    draft: &mut Draft,
    promise: PromId,
    value: &Value,
) -> Result<Making<Resolution>, AllocError>
    ensures did { IfOk result (λ m. Did (resolving promise (val_of value.now)) draft.old (making_of published_of m) draft.new) }
    ensures turn { IsSameTurn draft.old draft.new }
{
    match settle(alloc, draft, value)? {
        Some(settled) => use_resolver(alloc, draft, promise, settled),
        None => Ok(Making::Refused(refuse(alloc, "value too large")?)),
    }
}

/// A resolver breaks its promise by a problem, which is looked at as a text before it is tried whether the resolver was
/// used.
pub fn smash(
    alloc: Global,
    draft: &mut Draft,
    promise: PromId,
    problem: &Value,
) -> Result<Making<Resolution>, AllocError>
    ensures did { IfOk result (λ m. Did (smashing promise (val_of problem.now)) draft.old (making_of published_of m) draft.new) }
    ensures turn { IsSameTurn draft.old draft.new }
{
    let end = end_of(alloc, draft, problem)?;
    smash_by(alloc, draft, promise, end)
}

/// The same, by the end of what was given.
fn smash_by(
    alloc: Global,
    draft: &mut Draft,
    promise: PromId,
    end: Value,
) -> Result<Making<Resolution>, AllocError>
    ensures did { IfOk result (λ m. Did (smashed_by promise (val_of end) (text_in (val_of end))) draft.old (making_of published_of m) draft.new) }
    ensures turn { IsSameTurn draft.old draft.new }
{
    match end {
        Value::Text(words) => use_resolver(alloc, draft, promise, Value::Broken(words)),
        Value::Broken(words) => Ok(Making::Refused(Refusal::Problem(words))),
        Value::Null
        | Value::Bool(_)
        | Value::Int(_)
        | Value::List(_)
        | Value::Object(_)
        | Value::Ejector(_)
        | Value::Promise(_) => Ok(Making::Refused(refuse(alloc, "not a text")?)),
    }
}

/// A turn ends: its result is published as its value, which is settled already, or as broken by its problem.
pub fn end_with(
    alloc: Global,
    draft: &mut Draft,
    promise: PromId,
    told: Answer,
) -> Result<Resolution, AllocError>
    ensures did { IfOk result (λ b. Did (ending promise (reply_of told)) draft.old (published_of b) draft.new) }
    ensures turn { IsSameTurn draft.old draft.new }
{
    match told {
        Answer::Gives(value) => publish(alloc, draft, promise, value),
        Answer::Throws(problem) => publish(alloc, draft, promise, Value::Broken(problem)),
    }
}
