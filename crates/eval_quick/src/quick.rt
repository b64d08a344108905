// What values at hand make possible without a call of the evaluation: integers in literals and nouns, and any value of a noun.
// A noun is at hand where the cells that it stands in were touched before: then nothing more is touched.
ghost use Rattle.std.specs.Prelude.{◌≡◌, ◌≤◌, ◌-◌, IfOk, IfSome, OnOk, drop, length};
ghost use Rattle.kernele.specs.Tree.{call};
ghost use Rattle.code.specs.View.{tree_of_code, trees_of_codes};
ghost use Rattle.code.specs.Frames.{fits_all, place_in};
ghost use Rattle.values.specs.Data.{bool, int};
ghost use Rattle.values.specs.View.{val_of};
ghost use Rattle.heap.specs.State.{held, slot, slot_cell};
ghost use Rattle.heap.specs.View.{bind_of};
ghost use Rattle.eval_rules.specs.At.{At};
ghost use Rattle.eval_rules.specs.Fits.{all_fit_at, fits_at, frame_at, frame_behind};
ghost use Rattle.eval_objects.specs.Finding.{StandsAtHand};
ghost use Rattle.eval_quick.specs.Leaves.{AtHand, GivesAtHand, GoesOn, Leaf, Operands, RanOrNot};
ghost use Rattle.eval_rules.specs.Outcomes.{value as value_end};
ghost use Rattle.eval_rules.specs.Rules.{Ends, Runs, put};
ghost use Rattle.eval_rules.specs.View.{at};

use crate::growing::grow_variable;
use code::code::{Code, NounPlace};
use eval_objects::nouns::binding_at;
use eval_rules::working::{DEEPEST, Working};
use heap::state::Binding;
use ids::names::SlotId;
use ids::text::Text;
use std::alloc::AllocError;
use values::calls::call_integers;
use values::value::Value;
use values::verb::Verb;

/// An integer, and the slot that it is assigned to.
#[derive(Clone, Copy)]
pub struct Setting {
    pub slot: SlotId,
    pub integer: i64,
}

/// The value of a call with one argument, where both sides are integers at hand, the verb gives a value for them,
/// and there are steps for both.
pub fn quick_value(
    w: &Working,
    receiver: &Code,
    verb: &Verb,
    args: &[Code],
    level: u32,
) -> Option<Value>
    requires fits { fits_at (at w.now) receiver.now × fits_all w.now.own_scope (frame_behind (at w.now) receiver.now) args.now }
    ensures steps { IfSome result (λ v. 2 ≤ w.now.steps) }
    ensures runs { IfSome result (λ v. Runs level (call (tree_of_code receiver.now) verb.now (trees_of_codes args.now))
        (at w.now) (value_end (val_of v)) (record (at w.now) { left = w.now.steps - 2 })) }
{
    if w.steps < 2 || level >= DEEPEST {
        return None;
    }
    let (x, y) = operands(w, receiver, args)?;
    call_integers(x, verb, y)
}

/// Whether a condition holds that is a call on integers at hand, where there are steps for its three nodes.
#[inline(always)]
pub fn quick_truth(w: &Working, condition: &Code, level: u32) -> Option<bool>
    requires { fits_at (at w.now) condition.now }
    ensures steps { IfSome result (λ holds. 3 ≤ w.now.steps) }
    ensures ends { IfSome result (λ holds. Ends level (tree_of_code condition.now)
        (at w.now) (value_end (bool holds)) (record (at w.now) { left = w.now.steps - 3 })) }
{
    if w.steps < 3 || level >= DEEPEST {
        return None;
    }
    match called(w, condition) {
        Some(Value::Bool(holds)) => Some(holds),
        _ => None,
    }
}

/// What an assignment sets whose right side is a call on integers at hand, where there are steps for its four nodes.
#[inline(always)]
pub fn quick_setting(w: &Working, item: &Code, level: u32) -> Option<Setting>
    requires { fits_at (at w.now) item.now }
    ensures steps { IfSome result (λ s. 4 ≤ w.now.steps) }
    ensures ends { IfSome result (λ s. Ends level (tree_of_code item.now) (at w.now) (value_end (int s.integer))
        (record (put (slot_cell s.slot) (held (int s.integer)) (at w.now)) { left = w.now.steps - 4 })) }
{
    match item {
        Code::Assign(name, place, right) => {
            if w.steps < 4 || level >= DEEPEST - 1 {
                return None;
            }
            let Some(Value::Int(integer)) = called(w, right) else {
                return None;
            };
            let slot = slot_of(w, name, *place)?;
            Some(Setting { slot, integer })
        }
        _ => None,
    }
}

/// Assigns, in four steps, and puts the integer into a place.
#[inline(always)]
pub fn set(w: &mut Working, setting: Setting, into: &mut Value) -> Result<(), AllocError>
    requires { 4 ≤ w.old.steps }
    ensures value { OnOk result (val_of into.new ≡ int setting.integer) }
    ensures place { OnOk result (at w.new
        ≡ record (put (slot_cell setting.slot) (held (int setting.integer)) (at w.old)) { left = w.old.steps - 4 }) }
{
    w.draft
        .write_slot(setting.slot, Value::Int(setting.integer))?;
    w.steps -= 4;
    *into = Value::Int(setting.integer);
    Ok(())
}

/// Runs the items at the head of a block that assign what integers at hand give, or make longer what their variables hold.
/// Answers how many they are.
#[inline(always)]
pub fn run_settings(
    w: &mut Working,
    items: &[Code],
    level: u32,
    into: &mut Value,
) -> Result<usize, AllocError>
    requires { all_fit_at (at w.old) items.now }
    ensures within { IfOk result (λ n. n ≤ length items.now) }
    ensures runs { IfOk result (λ n. GoesOn level items.now n (at w.old) (at w.new)) }
    ensures fits { IfOk result (λ n. all_fit_at (at w.new) (drop n items.now)) }
{
    let mut done = 0;
    for item in items {
        let Some(setting) = quick_setting(w, item, level) else {
            return match item {
                Code::Assign(_, _, _) => run_from(w, items, done, level, into),
                _ => Ok(done),
            };
        };
        set(w, setting, into)?;
        done += 1;
    }
    Ok(done)
}

/// The same from an item on that assigns something else than what integers at hand give. It stands apart, so that a block
/// of such assignments alone costs little.
#[inline(never)]
fn run_from(
    w: &mut Working,
    items: &[Code],
    start: usize,
    level: u32,
    into: &mut Value,
) -> Result<usize, AllocError>
    requires within { start ≤ length items.now }
    requires fits { all_fit_at (at w.old) (drop start items.now) }
    ensures within { IfOk result (λ n. n ≤ length items.now) }
    ensures runs { IfOk result (λ n. (a : At) → GoesOn level items.now start a (at w.old) → GoesOn level items.now n a (at w.new)) }
    ensures fits { IfOk result (λ n. all_fit_at (at w.new) (drop n items.now)) }
{
    for place in start..items.len() {
        let ran = run_quickly(w, &items[place], level, into)?;
        if !ran {
            return Ok(place);
        }
    }
    Ok(items.len())
}

/// Runs an item that makes longer what its variable holds, or assigns what integers at hand give. Answers whether it did;
/// else nothing has changed.
#[inline(always)]
fn run_quickly(
    w: &mut Working,
    item: &Code,
    level: u32,
    into: &mut Value,
) -> Result<bool, AllocError>
    requires { fits_at (at w.old) item.now }
    ensures { IfOk result (λ ran. RanOrNot ran level (tree_of_code item.now) (at w.old) (at w.new)) }
{
    match quick_setting(w, item, level) {
        Some(setting) => {
            set(w, setting, into)?;
            Ok(true)
        }
        None => match item {
            Code::Assign(name, _, right) => grow_variable(w, name, right, level),
            _ => Ok(false),
        },
    }
}

/// The value of a call on integers at hand, if it gives one.
#[inline(always)]
pub(crate) fn called(w: &Working, e: &Code) -> Option<Value>
    requires { fits_at (at w.now) e.now }
    ensures { IfSome result (λ v. AtHand (at w.now) (tree_of_code e.now) 3 (val_of v)) }
{
    match e {
        Code::Call(receiver, verb, args) => {
            let (x, y) = operands(w, receiver, args)?;
            call_integers(x, verb, y)
        }
        _ => None,
    }
}

/// What a call is made on and its argument, where it has one argument and both are integers at hand.
#[inline(always)]
fn operands(w: &Working, receiver: &Code, args: &[Code]) -> Option<(i64, i64)>
    requires { fits_at (at w.now) receiver.now × fits_all w.now.own_scope (frame_behind (at w.now) receiver.now) args.now }
    ensures { IfSome result (λ p. Operands (at w.now) (tree_of_code receiver.now) (trees_of_codes args.now) p.0 p.1) }
{
    if args.len() != 1 {
        return None;
    }
    let x = integer_at(w, receiver)?;
    let y = integer_at(w, &args[0])?;
    Some((x, y))
}

/// The integer that a literal or a noun gives, if it gives one.
#[inline(always)]
fn integer_at(w: &Working, e: &Code) -> Option<i64>
    requires { fits_at (at w.now) e.now }
    ensures { IfSome result (λ n. Leaf (at w.now) (tree_of_code e.now) (int n)) }
{
    match e {
        Code::Int(n) => Some(*n),
        Code::Noun(name, place) => integer_of(w, name, *place),
        _ => None,
    }
}

/// What a name stands for, if that is in a scope or its top noun was touched before.
#[inline(always)]
pub(crate) fn peek<'a>(w: &'a Working, name: &Text, place: NounPlace) -> Option<&'a Binding>
    requires { place ≡ place_in (frame_at (at w.now)) name.now }
    ensures { IfSome result (λ b. StandsAtHand name.now (bind_of b.now) (at w.now)) }
{
    match place {
        NounPlace::Frame(i) => Some(binding_at(w, i)),
        NounPlace::Top => w.draft.peek_top(name),
    }
}

/// The slot that a name stands for, if it is found so.
#[inline(always)]
pub(crate) fn slot_of(w: &Working, name: &Text, place: NounPlace) -> Option<SlotId>
    requires { place ≡ place_in (frame_at (at w.now)) name.now }
    ensures { IfSome result (λ i. StandsAtHand name.now (slot i) (at w.now)) }
{
    match peek(w, name, place) {
        Some(Binding::Slot(slot)) => Some(*slot),
        _ => None,
    }
}

/// The integer that a noun stands for, if it stands for one and is found so.
#[inline(always)]
fn integer_of(w: &Working, name: &Text, place: NounPlace) -> Option<i64>
    requires { place ≡ place_in (frame_at (at w.now)) name.now }
    ensures { IfSome result (λ n. GivesAtHand name.now (int n) (at w.now)) }
{
    match peek(w, name, place) {
        Some(Binding::Fixed(Value::Int(n))) => Some(*n),
        Some(Binding::Slot(slot)) => match w.draft.peek_slot(*slot) {
            Some(Value::Int(n)) => Some(*n),
            _ => None,
        },
        _ => None,
    }
}

/// What a noun gives, if it is at hand.
#[inline(always)]
pub(crate) fn value_at_hand<'a>(w: &'a Working, name: &Text, place: NounPlace) -> Option<&'a Value>
    requires { place ≡ place_in (frame_at (at w.now)) name.now }
    ensures { IfSome result (λ v. GivesAtHand name.now (val_of v.now) (at w.now)) }
{
    match peek(w, name, place) {
        Some(Binding::Fixed(value)) => Some(value),
        Some(Binding::Slot(slot)) => w.draft.peek_slot(*slot),
        None => None,
    }
}

/// The value of a noun at hand, where there is a step for it.
#[inline(always)]
pub fn noun_at_hand<'a>(w: &'a Working, e: &Code, level: u32) -> Option<&'a Value>
    requires { fits_at (at w.now) e.now }
    ensures steps { IfSome result (λ v. 1 ≤ w.now.steps) }
    ensures ends { IfSome result (λ v. Ends level (tree_of_code e.now)
        (at w.now) (value_end (val_of v.now)) (record (at w.now) { left = w.now.steps - 1 })) }
{
    match e {
        Code::Noun(name, place) => {
            if w.steps == 0 || level > DEEPEST {
                return None;
            }
            value_at_hand(w, name, *place)
        }
        _ => None,
    }
}
