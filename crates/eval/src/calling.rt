// Calls and Escapes in the evaluation: a method's block runs in the turn, and so does an Escape's.
ghost use Rattle.std.specs.Prelude.{◌≡◌, ◌≤◌, ◌<◌, ◌+◌, ◌++◌, ◌∷◌, [], false};
ghost use Rattle.kernele.specs.Tree.{call, escape_tree};
ghost use Rattle.kernele.specs.declared.tree.Pattern.TheVariants as pattern;
ghost use Rattle.code.specs.Frames.{fits_all};
ghost use Rattle.eval_rules.specs.Fits.{fits_at, all_fit_at, frame_at, frame_behind};
ghost use Rattle.code.specs.View.{tree_of_code, trees_of_codes};
ghost use Rattle.values.specs.Data.{null, ejector as ejector_value};
ghost use Rattle.eval_rules.specs.At.{At};
ghost use Rattle.values.specs.View.{val_of};
ghost use Rattle.eval_rules.specs.Answered.{OnEnd};
ghost use Rattle.eval_rules.specs.Rules.{Ends, Runs, Items, Taking, inside, leaving};
ghost use Rattle.heap.specs.View.{nouns_of};
ghost use Rattle.eval_rules.specs.Locals.{captured_in, locals_after};
ghost use Rattle.eval_rules.specs.View.{at};
ghost use Rattle.eval_objects.specs.View.{OnTarget};
ghost use Rattle.eval.specs.Escaping.{Escapes, IsNewest};
ghost use Rattle.eval.specs.Leading.{Leads};
ghost use Rattle.eval_rules.specs.declared.working.TheConstants.{DEEPEST};

use crate::eval::{eval_args, eval_item, eval_items, eval_part};
use code::code::Code;
use eval_objects::calls::{call_target, enter_method, leave_method};
use eval_objects::nouns::bind_local;
use eval_quick::direct::{Entered, enter_at_hand};
use eval_quick::quick::quick_value;
use eval_quick::returns::{ejector_at_hand, returned};
use eval_rules::blocks::{enter, leave};
use eval_rules::end::Stop;
use eval_rules::entry::MethodEntry;
use eval_rules::escapes::{close_escape, eject, end_escape, open_escape};
use eval_rules::working::Working;
use heap::state::Binding;
use ids::names::EjId;
use ids::text::Text;
use std::sync::Arc;
use std::{mem, slice};
use values::value::Value;
use values::verb::Verb;

#[cycle(evaluate)]
pub(crate) fn eval_call(
    w: &mut Working,
    receiver: &Arc<Code>,
    verb: &Verb,
    args: &Arc<Vec<Code>>,
    level: u32,
    into: &mut Value,
) -> Result<(), Stop>
    requires level { level ≤ DEEPEST }
    requires fits { fits_at (at w.old) receiver.now.value × fits_all w.old.own_scope (frame_behind (at w.old) receiver.now.value) args.now.value.items }
    ensures { OnEnd result into.new w.new (Runs level (call (tree_of_code receiver.now.value) verb.now (trees_of_codes args.now.value.items)) (at w.old)) }
{
    match quick_value(w, receiver, verb, args, level) {
        Some(value) => {
            w.steps -= 2;
            *into = value;
            Ok(())
        }
        None => eval_any_call(w, receiver, verb, args, level, into),
    }
}

/// A call on anything. It stands apart, so that a call on integers needs little of the stack.
#[cycle(evaluate)]
#[inline(never)]
fn eval_any_call(
    w: &mut Working,
    receiver: &Arc<Code>,
    verb: &Verb,
    args: &Arc<Vec<Code>>,
    level: u32,
    into: &mut Value,
) -> Result<(), Stop>
    requires level { level ≤ DEEPEST }
    requires fits { fits_at (at w.old) receiver.now.value × fits_all w.old.own_scope (frame_behind (at w.old) receiver.now.value) args.now.value.items }
    ensures { OnEnd result into.new w.new (Runs level (call (tree_of_code receiver.now.value) verb.now (trees_of_codes args.now.value.items)) (at w.old)) }
{
    match enter_at_hand(w, receiver, verb, args, level)? {
        Some(entered) => {
            let Entered { body, caller } = entered;
            let answer = eval_items(w, &body, level + 1, into);
            leave_method(w, caller);
            answer
        }
        None => eval_other_call(w, receiver, verb, args, level, into),
    }
}

/// A call that enters no method at once. It stands apart, so that one that does needs little of the stack.
#[cycle(evaluate)]
#[inline(never)]
fn eval_other_call(
    w: &mut Working,
    receiver: &Arc<Code>,
    verb: &Verb,
    args: &Arc<Vec<Code>>,
    level: u32,
    into: &mut Value,
) -> Result<(), Stop>
    requires level { level ≤ DEEPEST }
    requires fits { fits_at (at w.old) receiver.now.value × fits_all w.old.own_scope (frame_behind (at w.old) receiver.now.value) args.now.value.items }
    ensures { OnEnd result into.new w.new (Runs level (call (tree_of_code receiver.now.value) verb.now (trees_of_codes args.now.value.items)) (at w.old)) }
{
    match ejector_at_hand(w, receiver, verb, args, level) {
        Some(ejector) => {
            w.steps -= 1;
            eval_part(w, &args[0], level + 1, into)?;
            let value = mem::replace(into, Value::Null);
            Err(eject(w, ejector, value))
        }
        None => eval_far_call(w, receiver, verb, args, level, into),
    }
}

/// A call whose parts are not all at hand.
#[cycle(evaluate)]
#[inline(never)]
fn eval_far_call(
    w: &mut Working,
    receiver: &Arc<Code>,
    verb: &Verb,
    args: &Arc<Vec<Code>>,
    level: u32,
    into: &mut Value,
) -> Result<(), Stop>
    requires level { level ≤ DEEPEST }
    requires fits { fits_at (at w.old) receiver.now.value × fits_all w.old.own_scope (frame_behind (at w.old) receiver.now.value) args.now.value.items }
    ensures { OnEnd result into.new w.new (Runs level (call (tree_of_code receiver.now.value) verb.now (trees_of_codes args.now.value.items)) (at w.old)) }
{
    let mut called = Value::Null;
    eval_part(w, receiver, level + 1, &mut called)?;
    let entry = eval_target(w, &mut called, verb, args, level + 1, into)?;
    match entry {
        Some(entry) => eval_method(w, entry, level + 1, into),
        None => Ok(()),
    }
}

/// What a call leads to, once its arguments are evaluated. One, which most calls have, needs no list.
#[cycle(evaluate)]
fn eval_target(
    w: &mut Working,
    receiver: &mut Value,
    verb: &Verb,
    args: &[Code],
    level: u32,
    into: &mut Value,
) -> Result<Option<MethodEntry>, Stop>
    requires level { level ≤ DEEPEST + 1 }
    requires fits { all_fit_at (at w.old) args.now }
    ensures { OnTarget result into.new w.new (Leads level (trees_of_codes args.now) (val_of receiver.old) verb.now (at w.old)) }
{
    if args.len() == 1 {
        let mut value = Value::Null;
        eval_part(w, &args[0], level, &mut value)?;
        return call_target(w, receiver, verb, slice::from_mut(&mut value), into);
    }
    let mut values = eval_args(w, args, level)?;
    call_target(w, receiver, verb, &mut values, into)
}

/// Evaluates a method's block with the names that it begins with.
#[cycle(evaluate)]
fn eval_method(
    w: &mut Working,
    entry: MethodEntry,
    level: u32,
    into: &mut Value,
) -> Result<(), Stop>
    requires { level ≤ DEEPEST + 1 }
    ensures { OnEnd result into.new w.new (λ o b. (d : At) × Items level null (trees_of_codes entry.body.value.items) (inside (locals_after (nouns_of (captured_in entry.captured)) entry.nouns.items) (at w.old)) o d
        × (b ≡ leaving (at w.old) d)) }
{
    let MethodEntry {
        captured,
        nouns,
        body,
    } = entry;
    let caller = enter_method(w, captured, nouns);
    let answer = eval_items(w, &body, level, into);
    leave_method(w, caller);
    answer
}

#[cycle(evaluate)]
pub(crate) fn eval_escape(
    w: &mut Working,
    name: &Text,
    body: &Arc<Vec<Code>>,
    level: u32,
    into: &mut Value,
) -> Result<(), Stop>
    requires level { level ≤ DEEPEST }
    requires fits { fits_all false (frame_at (at w.old) ++ name.now ∷ []) body.now.value.items }
    requires counted { w.old.ejectors + w.old.steps < u32.MAX }
    ensures { OnEnd result into.new w.new (Runs level (escape_tree name.now (trees_of_codes body.now.value.items)) (at w.old)) }
{
    let outer = w.opened.len();
    let ejector = open_escape(w)?;
    let answer = eval_naming(w, name, ejector, body, level + 1, into);
    close_escape(w, outer);
    answer
}

/// Evaluates an Escape's block, in whose own scope a name stands for its ejector, and ends the Escape.
#[cycle(evaluate)]
#[inline(always)]
fn eval_naming(
    w: &mut Working,
    name: &Text,
    ejector: EjId,
    items: &[Code],
    level: u32,
    into: &mut Value,
) -> Result<(), Stop>
    requires level { level ≤ DEEPEST + 1 }
    requires fits { fits_all false (frame_at (at w.old) ++ name.now ∷ []) items.now }
    requires newest { IsNewest ejector (at w.old) }
    ensures { OnEnd result into.new w.new (Escapes ejector (Taking level (pattern.Name name.now) (ejector_value ejector) (trees_of_codes items.now) (at w.old))) }
{
    let outer = enter(w);
    bind_local(w, name, Binding::Fixed(Value::Ejector(ejector)))?;
    let answer = eval_returning(w, ejector, items, level, into);
    leave(w, outer);
    answer
}

/// Evaluates the items of an Escape's block in order, and ends the Escape. What one of them returns is its value at once.
#[cycle(evaluate)]
#[inline(always)]
fn eval_returning(
    w: &mut Working,
    ejector: EjId,
    items: &[Code],
    level: u32,
    into: &mut Value,
) -> Result<(), Stop>
    requires level { level ≤ DEEPEST + 1 }
    requires fits { all_fit_at (at w.old) items.now }
    requires newest { IsNewest ejector (at w.old) }
    ensures { OnEnd result into.new w.new (Escapes ejector (Items level null (trees_of_codes items.now) (at w.old))) }
{
    *into = Value::Null;
    for item in items {
        if let Some(given) = returned(w, ejector, item, level) {
            w.steps -= 2;
            return eval_returned(w, ejector, given, level + 1, into);
        }
        match eval_item(w, item, level, into) {
            Ok(()) => {}
            Err(Stop::Memory) => return Err(Stop::Memory),
            Err(Stop::Halted) => return end_escape(w, ejector, into),
        }
    }
    Ok(())
}

/// Evaluates what is returned to an Escape, and ends the Escape.
#[cycle(evaluate)]
fn eval_returned(
    w: &mut Working,
    ejector: EjId,
    given: &Code,
    level: u32,
    into: &mut Value,
) -> Result<(), Stop>
    requires fits { fits_at (at w.old) given.now }
    ensures { OnEnd result into.new w.new (Escapes ejector (Ends level (tree_of_code given.now) (at w.old))) }
{
    match eval_part(w, given, level, into) {
        Ok(()) => Ok(()),
        Err(Stop::Memory) => Err(Stop::Memory),
        Err(Stop::Halted) => end_escape(w, ejector, into),
    }
}
