// Calls: what they lead to, and how a method is entered and left.
ghost use Rattle.std.specs.Prelude.{◌≡◌, ◌≤◌, [], IfSome, codes, length};
ghost use Rattle.values.specs.View.{val_of, vals_of};
ghost use Rattle.eval_objects.specs.Making.{CallsEnd, GivesForOne};
ghost use Rattle.eval_rules.specs.Answered.{OnStop};
ghost use Rattle.eval_rules.specs.Doings.{same_vat};
ghost use Rattle.eval_rules.specs.Outcomes.{halt, thrown, values};
ghost use Rattle.eval_rules.specs.Rules.{called, callee_of, if_own, inside, target_of};
ghost use Rattle.heap.specs.View.{nouns_of};
ghost use Rattle.eval_rules.specs.Locals.{captured_in, locals_after, names_in};
ghost use Rattle.eval_rules.specs.View.{at};
ghost use Rattle.eval_objects.specs.View.{callee_view, OnTarget};

use crate::objects::object_target;
use eval_messages::calls::call_datum;
use eval_messages::ends::take_end;
use eval_messages::places::here;
use eval_rules::end::Stop;
use eval_rules::entry::MethodEntry;
use eval_rules::escapes::call_ejector;
use eval_rules::halting::throw_made;
use eval_rules::local::{Local, let_go};
use eval_rules::working::Working;
use heap::state::Noun;
use ids::names::{EjId, ObjId, VatNo};
use ids::text::Text;
use std::mem;
use std::sync::Arc;
use values::calls::call_integers;
use values::value::Value;
use values::verb::Verb;

/// What a call is made on.
#[derive(Clone, Copy)]
pub enum Callee {
    /// An object of the vat.
    Object(ObjId),
    /// An ejector of the vat.
    Ejector(EjId),
    /// A datum, or a broken value.
    Datum,
    /// What is of another vat, or not known yet.
    Far,
}

/// What a caller's names were when the method was entered.
#[derive(Drop)]
pub struct Caller {
    captured: Option<Arc<Vec<Noun>>>,
    older: usize,
    nouns: Vec<Local>,
    own_scope: bool,
    ghost within: { older ≤ length (captured_in captured) },
}

/// What a call with these arguments leads to, which is made on the end of its receiver: a method's block, or a value.
pub fn call_target(
    w: &mut Working,
    receiver: &mut Value,
    verb: &Verb,
    args: &mut [Value],
    into: &mut Value,
) -> Result<Option<MethodEntry>, Stop>
    ensures { OnTarget result into.new w.new (λ t b. (t ≡ target_of (val_of receiver.old) verb.now (values (vals_of args.old)) (at w.old))
        × (b ≡ called (val_of receiver.old) verb.now (values (vals_of args.old)) (at w.old))) }
{
    if let Some(given) = called_on_integer(receiver, verb, args) {
        *into = given;
        return Ok(None);
    }
    take_end(w, receiver)?;
    call_end(w, receiver, verb, args, into)
}

/// The value of a call on an integer with another one, if it gives one.
#[inline(always)]
fn called_on_integer(receiver: &Value, verb: &Verb, args: &[Value]) -> Option<Value>
    ensures { IfSome result (λ v. GivesForOne (val_of receiver.now) verb.now (vals_of args.now) (val_of v)) }
{
    if args.len() != 1 {
        return None;
    }
    match (receiver, &args[0]) {
        (Value::Int(x), Value::Int(y)) => call_integers(*x, verb, *y),
        _ => None,
    }
}

/// What a call on an end leads to.
fn call_end(
    w: &mut Working,
    receiver: &Value,
    verb: &Verb,
    args: &mut [Value],
    into: &mut Value,
) -> Result<Option<MethodEntry>, Stop>
    ensures { OnTarget result into.new w.new (CallsEnd (val_of receiver.now) verb.now (vals_of args.old) (at w.old)) }
{
    match called_on(here(w), receiver) {
        Callee::Object(id) => object_target(w, id, verb, args, into),
        Callee::Ejector(id) => {
            call_ejector(w, id, verb, args, into)?;
            Ok(None)
        }
        Callee::Datum => {
            call_datum(w, receiver, verb, args, into)?;
            Ok(None)
        }
        Callee::Far => Err(not_near(w)),
    }
}

/// What a value is to a call in this vat.
fn called_on(here: VatNo, value: &Value) -> Callee
    ensures { callee_view result ≡ callee_of here (val_of value.now) }
{
    match value {
        Value::Object(id) => own(here, id.vat, Callee::Object(*id)),
        Value::Ejector(id) => own(here, id.vat, Callee::Ejector(*id)),
        Value::Promise(_) => Callee::Far,
        Value::Null
        | Value::Bool(_)
        | Value::Int(_)
        | Value::Text(_)
        | Value::List(_)
        | Value::Broken(_) => Callee::Datum,
    }
}

/// What is of the vat, and far what is of another one.
#[inline(always)]
fn own(here: VatNo, vat: VatNo, callee: Callee) -> Callee
    ensures { callee_view result ≡ if_own (same_vat vat here) (callee_view callee) }
{
    if vat == here { callee } else { Callee::Far }
}

/// Throws that a call was made on what is not near.
fn not_near(w: &mut Working) -> Stop
    ensures { OnStop result w.new (λ h b. (halt h ≡ halt (thrown (codes "not near"))) × (b ≡ at w.old)) }
{
    let problem = Text::new(w.alloc, "not near");
    throw_made(w, problem)
}

/// Begins a method with what its object captured and with names of its own, in place of those of the caller.
#[inline(always)]
pub fn enter_method(w: &mut Working, captured: Option<Arc<Vec<Noun>>>, nouns: Vec<Local>) -> Caller
    ensures captured { captured_in result.captured ≡ captured_in w.old.captured }
    ensures older { result.older ≡ w.old.older }
    ensures names { result.nouns ≡ w.old.nouns }
    ensures own { result.own_scope ≡ w.old.own_scope }
    ensures place { at w.new ≡ inside (locals_after (nouns_of (captured_in captured)) nouns.items) (at w.old) }
{
    let own_scope = w.own_scope;
    let older = w.older;
    let count = count_captured(&captured);
    let captured = replace_captured(w, captured, count);
    let nouns = mem::replace(&mut w.nouns, nouns);
    w.own_scope = false;
    Caller {
        captured,
        older,
        nouns,
        own_scope,
    }
}

/// How many names were captured.
#[inline(always)]
fn count_captured(captured: &Option<Arc<Vec<Noun>>>) -> usize
    ensures { result ≡ length (captured_in captured.now) }
{
    match captured {
        Some(shared) => shared.len(),
        None => 0,
    }
}

/// Puts so many of the names that were captured into scope, in place of those that were in it. Answers what was captured before.
#[inline(always)]
fn replace_captured(
    w: &mut Working,
    captured: Option<Arc<Vec<Noun>>>,
    older: usize,
) -> Option<Arc<Vec<Noun>>>
    requires { older ≤ length (captured_in captured) }
    ensures before { captured_in result ≡ captured_in w.old.captured }
    ensures captured { captured_in w.new.captured ≡ captured_in captured }
    ensures older { w.new.older ≡ older }
    ensures nouns { w.new.nouns ≡ w.old.nouns }
    ensures place { at w.new ≡ record (at w.old) { nouns = names_in (captured_in captured) older w.old.nouns.items } }
    ensures halt { w.new.halt ≡ w.old.halt }
{
    // Most methods captured nothing, and are called from where nothing is captured.
    if captured.is_none() && w.captured.is_none() {
        return None;
    }
    w.older = older;
    mem::replace(&mut w.captured, captured)
}

/// A frame with no names: one that a method before left, if there is one.
pub fn empty_frame(w: &mut Working) -> Vec<Local>
    ensures empty { result.items ≡ [] }
    ensures place { at w.new ≡ at w.old }
{
    match w.spare.pop() {
        Some(mut frame) => {
            let_go(&mut frame, 0);
            frame
        }
        None => Vec::new(w.alloc),
    }
}

/// Goes back to the caller's names, and keeps the method's frame for another one.
#[inline(always)]
pub fn leave_method(w: &mut Working, caller: Caller)
    ensures place { at w.new ≡ record (at w.old) { nouns = names_in (captured_in caller.captured) caller.older caller.nouns.items; own_scope = caller.own_scope } }
    ensures halt { w.new.halt ≡ w.old.halt }
{
    let mut frame = mem::replace(&mut w.nouns, caller.nouns);
    let _ = replace_captured(w, caller.captured, caller.older);
    w.own_scope = caller.own_scope;
    let_go(&mut frame, 0);
    // Where there is no memory to keep it, it is dropped.
    let _ = w.spare.push(frame);
}
