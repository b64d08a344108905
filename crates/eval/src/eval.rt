// Evaluation: one small function for all constructs that have a right side alone, and one for each other; those that have
// blocks are in `control`, what becomes of a right side's value is in `right`.
ghost use Rattle.std.specs.Prelude.{◌+◌, ◌≡◌, ◌≤◌, Some};
ghost use Rattle.kernele.specs.Tree.{list_tree, same_tree};
ghost use Rattle.code.specs.Frames.{fits};
ghost use Rattle.code.specs.View.{tree_of_code, trees_of_codes};
ghost use Rattle.eval_rules.specs.Fits.{fits_at, all_fit_at, frame_behind};
ghost use Rattle.values.specs.Data.{null};
ghost use Rattle.eval_rules.specs.Answered.{OnAnswer, OnEnd};
ghost use Rattle.eval_rules.specs.Outcomes.{values, halted};
ghost use Rattle.eval_rules.specs.Rules.{Ends, Runs, Args, Items};
ghost use Rattle.eval_rules.specs.View.{at};
ghost use Rattle.values.specs.View.{vals_of};
ghost use Rattle.eval.specs.Sides.{right_side};

use crate::calling::{eval_call, eval_escape};
use crate::control::{eval_block, eval_for, eval_if, eval_try, eval_while};
use crate::right::take;
use crate::sending::{eval_send, eval_when, eval_when_catch};
use code::code::Code;
use eval_messages::promises::make_promise;
use eval_messages::references::give_same;
use eval_objects::nouns::read_noun;
use eval_objects::objects::define_object;
use eval_quick::quick::{noun_at_hand, quick_setting, set};
use eval_rules::end::{Abandon, Stop};
use eval_rules::halting::abandon;
use eval_rules::results::{give_list, give_text};
use eval_rules::working::{DEEPEST, Working};
use std::sync::Arc;
use values::value::Value;

/// Evaluates an expression at a level, and puts its value into a place.
#[cycle(evaluate)]
pub fn eval(w: &mut Working, e: &Code, level: u32, into: &mut Value) -> Result<(), Stop>
    requires fits { fits_at (at w.old) e.now }
    ensures { OnEnd result into.new w.new (Ends level (tree_of_code e.now) (at w.old)) }
{
    if w.steps == 0 {
        return Err(abandon(w, Abandon::Budget));
    }
    w.steps -= 1;
    if level > DEEPEST {
        return Err(abandon(w, Abandon::Depth));
    }
    match e {
        Code::Null => {
            *into = Value::Null;
            Ok(())
        }
        Code::Bool(b) => {
            *into = Value::Bool(*b);
            Ok(())
        }
        Code::Int(n) => {
            *into = Value::Int(*n);
            Ok(())
        }
        Code::Text(text) => give_text(w, text, into),
        Code::Noun(name, place) => read_noun(w, name, *place, into),
        Code::Def(_, right)
        | Code::Var(_, right)
        | Code::Assign(_, _, right)
        | Code::DefList(_, right)
        | Code::Primitive(_, right) => eval_right(w, e, right, level, into),
        Code::Call(receiver, verb, args) => eval_call(w, receiver, verb, args, level, into),
        Code::Send(receiver, verb, args) => eval_send(w, receiver, verb, args, level, into),
        Code::List(items) => eval_list(w, items, level, into),
        Code::Same(left, right) => eval_same(w, left, right, level, into),
        Code::Hide(body) => eval_block(w, body, level + 1, into),
        Code::If(condition, first, second) => eval_if(w, condition, first, second, level, into),
        Code::While(condition, body) => eval_while(w, condition, body, level, into),
        Code::For(pattern, list, body) => eval_for(w, pattern, list, body, level, into),
        Code::Try(body, pattern, handler) => eval_try(w, body, pattern, handler, level, into),
        Code::Object(pattern, captures, methods, index) => {
            define_object(w, pattern, captures, methods, index, into)
        }
        Code::Escape(name, body) => eval_escape(w, name, body, level, into),
        Code::When(value, captures, block) => eval_when(w, value, captures, block, level, into),
        Code::WhenCatch(value, captures, block, pattern, handler) => {
            eval_when_catch(w, value, captures, block, pattern, handler, level, into)
        }
        Code::NewPromise => make_promise(w, into),
    }
}

/// Evaluates a part of a construct. A noun at hand gives its value here.
#[cycle(evaluate)]
#[inline(always)]
pub(crate) fn eval_part(w: &mut Working, e: &Code, level: u32, into: &mut Value) -> Result<(), Stop>
    requires { fits_at (at w.old) e.now }
    ensures { OnEnd result into.new w.new (Ends level (tree_of_code e.now) (at w.old)) }
{
    match noun_at_hand(w, e, level) {
        Some(value) => {
            *into = value.share()?;
            w.steps -= 1;
            Ok(())
        }
        None => eval(w, e, level, into),
    }
}

/// Evaluates the right side of an expression that has one, and has the expression take its value.
#[cycle(evaluate)]
fn eval_right(
    w: &mut Working,
    e: &Code,
    right: &Arc<Code>,
    level: u32,
    into: &mut Value,
) -> Result<(), Stop>
    requires level { level ≤ DEEPEST }
    requires side { right_side e.now ≡ Some right.now.value }
    requires fits { fits_at (at w.old) e.now }
    ensures { OnEnd result into.new w.new (Runs level (tree_of_code e.now) (at w.old)) }
{
    eval(w, right, level + 1, into)?;
    take(w, e, into)
}

#[cycle(evaluate)]
fn eval_list(
    w: &mut Working,
    items: &Arc<Vec<Code>>,
    level: u32,
    into: &mut Value,
) -> Result<(), Stop>
    requires level { level ≤ DEEPEST }
    requires fits { all_fit_at (at w.old) items.now.value.items }
    ensures { OnEnd result into.new w.new (Runs level (list_tree (trees_of_codes items.now.value.items)) (at w.old)) }
{
    let values = eval_args(w, items, level + 1)?;
    give_list(w, values, into)
}

#[cycle(evaluate)]
fn eval_same(
    w: &mut Working,
    left: &Arc<Code>,
    right: &Arc<Code>,
    level: u32,
    into: &mut Value,
) -> Result<(), Stop>
    requires level { level ≤ DEEPEST }
    requires fits { fits_at (at w.old) left.now.value × fits w.old.own_scope (frame_behind (at w.old) left.now.value) right.now.value }
    ensures { OnEnd result into.new w.new (Runs level (same_tree (tree_of_code left.now.value) (tree_of_code right.now.value)) (at w.old)) }
{
    let mut first = Value::Null;
    eval(w, left, level + 1, &mut first)?;
    eval(w, right, level + 1, into)?;
    give_same(w, &first, into)
}

/// Evaluates arguments or items of a list from left to right.
#[cycle(evaluate)]
pub(crate) fn eval_args(w: &mut Working, args: &[Code], level: u32) -> Result<Vec<Value>, Stop>
    requires level { level ≤ DEEPEST + 1 }
    requires fits { all_fit_at (at w.old) args.now }
    ensures { OnAnswer result w.new (λ vs b. Args level (trees_of_codes args.now) (at w.old) (values (vals_of vs.items)) b)
        (λ h b. Args level (trees_of_codes args.now) (at w.old) (halted h) b) }
{
    let mut values = Vec::with_capacity(w.alloc, args.len())?;
    for arg in args {
        let mut value = Value::Null;
        eval_part(w, arg, level, &mut value)?;
        values.push(value)?;
    }
    Ok(values)
}

/// Evaluates the items of a block in order: the last one's value, or null.
#[cycle(evaluate)]
pub fn eval_items(w: &mut Working, items: &[Code], level: u32, into: &mut Value) -> Result<(), Stop>
    requires level { level ≤ DEEPEST + 1 }
    requires fits { all_fit_at (at w.old) items.now }
    ensures { OnEnd result into.new w.new (Items level null (trees_of_codes items.now) (at w.old)) }
{
    *into = Value::Null;
    for item in items {
        eval_item(w, item, level, into)?;
    }
    Ok(())
}

/// Evaluates an item of a block. One that assigns what integers at hand give needs no place for its right side.
#[cycle(evaluate)]
#[inline(always)]
pub(crate) fn eval_item(
    w: &mut Working,
    item: &Code,
    level: u32,
    into: &mut Value,
) -> Result<(), Stop>
    requires { fits_at (at w.old) item.now }
    ensures { OnEnd result into.new w.new (Ends level (tree_of_code item.now) (at w.old)) }
{
    match quick_setting(w, item, level) {
        Some(setting) => Ok(set(w, setting, into)?),
        None => eval_part(w, item, level, into),
    }
}
