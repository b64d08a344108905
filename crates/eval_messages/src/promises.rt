// Promises that programs make, and the uses of their resolvers.
ghost use Rattle.std.specs.Prelude.{◌≡◌, ◌+◌, ◌<◌, IfOk, OnOk};
ghost use Rattle.eval_messages.specs.Ending.{EndsBy};
ghost use Rattle.eval_rules.specs.Answered.{OnEnd};
ghost use Rattle.eval_rules.specs.Doings.{pair_end, pair_out, promise_pair, published_out, resolver_end, resolver_out};
ghost use Rattle.eval_rules.specs.View.{at};
ghost use Rattle.sends.specs.Making.{resolving, smashing};
ghost use Rattle.sends.specs.View.{making_of, published_of};
ghost use Rattle.values.specs.Data.{and_val, list, no_vals, object, promise as promise_value};
ghost use Rattle.values.specs.View.{val_of};

use crate::outgoing::draw;
use crate::stops::refused;
use eval_rules::end::Stop;
use eval_rules::outbox::Note;
use eval_rules::working::{MAX_OBJECTS, Working};
use ids::names::{ObjId, PromId};
use post::published::Published;
use sends::publishing::{Resolution, resolve, smash};
use sends::refusing::Making;
use sends::sending::promise;
use std::alloc::{AllocError, Global};
use values::lists::list_within;
use values::value::Value;

/// Makes a promise and its resolver, and gives a list of both.
pub fn make_promise(w: &mut Working, into: &mut Value) -> Result<(), Stop>
    requires promised { w.old.out.promises + w.old.steps < u32.MAX }
    ensures { OnEnd result into.new w.new (EndsBy (promise_pair (at w.old)) (λ m. pair_end m (at w.old)) pair_out (at w.old)) }
{
    let draw = draw(w);
    let made = PromId {
        event: draw.event,
        index: draw.index,
        home: draw.here,
    };
    let room = w.draft.object_count() < MAX_OBJECTS;
    let making = promise(&mut w.draft, room, made)?;
    match making {
        Making::Makes(resolver) => {
            w.out.promises += 1;
            *into = pair(w.alloc, made, resolver)?;
            Ok(())
        }
        Making::Refused(why) => Err(refused(w, why)),
    }
}

/// The resolver of a promise resolves it.
pub fn use_resolve(
    w: &mut Working,
    promise: PromId,
    value: &Value,
    into: &mut Value,
) -> Result<(), Stop>
    ensures { OnEnd result into.new w.new (EndsBy (resolving promise (val_of value.now)) resolver_end (resolver_out promise) (at w.old)) }
{
    let making = resolve(w.alloc, &mut w.draft, promise, value)?;
    finish_use(w, promise, making, into)
}

/// The resolver of a promise breaks it.
pub fn use_smash(
    w: &mut Working,
    promise: PromId,
    problem: &Value,
    into: &mut Value,
) -> Result<(), Stop>
    ensures { OnEnd result into.new w.new (EndsBy (smashing promise (val_of problem.now)) resolver_end (resolver_out promise) (at w.old)) }
{
    let making = smash(w.alloc, &mut w.draft, promise, problem)?;
    finish_use(w, promise, making, into)
}

/// What the use of a resolver gives, which publishes its promise unless nothing was made.
fn finish_use(
    w: &mut Working,
    promise: PromId,
    making: Making<Resolution>,
    into: &mut Value,
) -> Result<(), Stop>
    ensures { OnEnd result into.new w.new (λ o b. (o ≡ resolver_end (making_of published_of making))
        × (b ≡ resolver_out promise (making_of published_of making) (at w.old))) }
{
    match making {
        Making::Makes(resolved) => {
            publish(w, promise, resolved)?;
            *into = Value::Null;
            Ok(())
        }
        Making::Refused(why) => Err(refused(w, why)),
    }
}

/// Puts what a promise is published as into the outbox, with a note.
fn publish(w: &mut Working, promise: PromId, resolved: Resolution) -> Result<(), AllocError>
    ensures { OnOk result (at w.new ≡ record (at w.old) { out = published_out promise (published_of resolved) (at w.old).out }) }
{
    let published = Published::new(w.alloc, resolved.value, resolved.fences)?;
    w.out.publications.add(promise, published)?;
    w.out.notes.push(Note::Resolved(promise))?;
    Ok(())
}

/// A promise and its resolver, as a list.
fn pair(alloc: Global, promise: PromId, resolver: ObjId) -> Result<Value, AllocError>
    ensures { IfOk result (λ v. val_of v ≡ list (and_val (promise_value promise) (and_val (object resolver) no_vals))) }
{
    let items = vec![in alloc; Value::Promise(promise), Value::Object(resolver)]?;
    Ok(list_within(alloc, items)?.unwrap_or(Value::Null))
}
