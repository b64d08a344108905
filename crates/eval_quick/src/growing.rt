// Lists and texts that a variable holds, made longer where they stand.
ghost use Rattle.std.specs.Prelude.{◌≡◌, IfOk, IfSome};
ghost use Rattle.kernele.specs.Tree.{assign, call, noun};
ghost use Rattle.code.specs.Frames.{fits_all};
ghost use Rattle.code.specs.View.{tree_of_code, trees_of_codes};
ghost use Rattle.values.specs.View.{val_of};
ghost use Rattle.heap.specs.State.{slot};
ghost use Rattle.eval_rules.specs.Fits.{fits_at, frame_behind};
ghost use Rattle.eval_rules.specs.View.{at};
ghost use Rattle.eval_objects.specs.Finding.{StandsAtHand};
ghost use Rattle.eval_quick.specs.Leaves.{Leaf, Lengthens, RanOrNot};

use crate::quick::{slot_of, value_at_hand};
use code::code::Code;
use eval_rules::working::{DEEPEST, Working};
use ids::names::SlotId;
use ids::text::Text;
use std::alloc::AllocError;
use values::texts::text_value;
use values::value::{Answer, Value};
use values::verb::Verb;

/// What makes a variable's value longer: its slot, the verb, and the argument.
#[derive(Drop)]
struct Growth<'a> {
    slot: SlotId,
    verb: &'a Verb,
    more: Value,
}

/// Runs an assignment that makes longer what its variable holds, by an argument at hand, where there are steps for its
/// four nodes. Answers whether it did; else nothing has changed.
#[inline(never)]
pub(crate) fn grow_variable(
    w: &mut Working,
    name: &Text,
    right: &Code,
    level: u32,
) -> Result<bool, AllocError>
    requires { fits_at (at w.old) right.now }
    ensures { IfOk result (λ grew. RanOrNot grew level (assign name.now (tree_of_code right.now)) (at w.old) (at w.new)) }
{
    if w.steps < 4 || level >= DEEPEST - 1 {
        return Ok(false);
    }
    let found = growth_of(w, name, right)?;
    let Some(growth) = found else {
        return Ok(false);
    };
    let grew = w.draft.grow_slot(growth.slot, growth.verb, &growth.more)?;
    if !grew {
        return Ok(false);
    }
    w.steps -= 4;
    Ok(true)
}

/// What the right side of an assignment to a variable makes longer, if that is what the variable holds.
fn growth_of<'a>(
    w: &Working,
    name: &Text,
    right: &'a Code,
) -> Result<Option<Growth<'a>>, AllocError>
    requires { fits_at (at w.now) right.now }
    ensures { IfOk result (λ o. IfSome o (λ g. Lengthens (at w.now) name.now (tree_of_code right.now) g.slot g.verb.now (val_of g.more))) }
{
    match right {
        Code::Call(receiver, verb, args) => growth_of_call(w, name, receiver, verb, args),
        _ => Ok(None),
    }
}

/// What a call makes longer, if that is what this variable holds and the only argument is at hand.
fn growth_of_call<'a>(
    w: &Working,
    name: &Text,
    receiver: &Code,
    verb: &'a Verb,
    args: &[Code],
) -> Result<Option<Growth<'a>>, AllocError>
    requires { fits_at (at w.now) receiver.now × fits_all w.now.own_scope (frame_behind (at w.now) receiver.now) args.now }
    ensures { IfOk result (λ o. IfSome o (λ g. Lengthens (at w.now) name.now (call (tree_of_code receiver.now) verb.now (trees_of_codes args.now)) g.slot g.verb.now (val_of g.more))) }
{
    if args.len() != 1 {
        return Ok(None);
    }
    let Some(slot) = slot_named(w, name, receiver) else {
        return Ok(None);
    };
    let given = leaf_value(w, &args[0])?;
    let Some(more) = given else {
        return Ok(None);
    };
    Ok(Some(Growth { slot, verb, more }))
}

/// The slot that a noun of this name stands for, if it is found so.
fn slot_named(w: &Working, name: &Text, e: &Code) -> Option<SlotId>
    requires { fits_at (at w.now) e.now }
    ensures { IfSome result (λ i. (tree_of_code e.now ≡ noun name.now) × StandsAtHand name.now (slot i) (at w.now)) }
{
    match e {
        Code::Noun(same, place) => {
            if *name == *same {
                slot_of(w, same, *place)
            } else {
                None
            }
        }
        _ => None,
    }
}

/// The value that a literal or a noun gives, shared, if it gives one.
fn leaf_value(w: &Working, e: &Code) -> Result<Option<Value>, AllocError>
    requires { fits_at (at w.now) e.now }
    ensures { IfOk result (λ o. IfSome o (λ v. Leaf (at w.now) (tree_of_code e.now) (val_of v))) }
{
    match e {
        Code::Null => Ok(Some(Value::Null)),
        Code::Bool(holds) => Ok(Some(Value::Bool(*holds))),
        Code::Int(n) => Ok(Some(Value::Int(*n))),
        Code::Text(text) => match text_value(w.alloc, text)? {
            Answer::Gives(value) => Ok(Some(value)),
            Answer::Throws(_) => Ok(None),
        },
        Code::Noun(name, place) => match value_at_hand(w, name, *place) {
            Some(value) => Ok(Some(value.share()?)),
            None => Ok(None),
        },
        _ => Ok(None),
    }
}
