// Control: the constructs that have blocks, each block in a scope of its own.
ghost use Rattle.std.specs.Prelude.{◌+◌, ◌≤◌, ◌++◌, false};
ghost use Rattle.kernele.specs.Tree.{if_tree, while_tree, for_tree, try_tree};
ghost use Rattle.code.specs.Frames.{fits_all, only_names};
ghost use Rattle.eval_rules.specs.Fits.{all_fit_at, fits_at, frame_at, frame_behind};
ghost use Rattle.kernele_scopes.specs.Scope.{name_of};
ghost use Rattle.code.specs.View.{tree_of_code, trees_of_codes};
ghost use Rattle.values.specs.Data.{null};
ghost use Rattle.values.specs.View.{val_of};
ghost use Rattle.eval_rules.specs.Answered.{OnEnd};
ghost use Rattle.eval_rules.specs.Rules.{Runs, Block, Items, Taking};
ghost use Rattle.eval_rules.specs.View.{at};
ghost use Rattle.eval.specs.Choosing.{Chooses};
ghost use Rattle.eval.specs.Unwanted.{OnSomeEnd};
ghost use Rattle.eval_rules.specs.declared.working.TheConstants.{DEEPEST};

use crate::eval::{eval, eval_items};
use code::code::Code;
use eval_messages::ends::take_end;
use eval_objects::nouns::match_pattern;
use eval_quick::quick::{quick_truth, run_settings};
use eval_rules::blocks::{count_names, enter, keep_names, leave};
use eval_rules::end::Stop;
use eval_rules::wanted::{caught, choose, items_of};
use eval_rules::working::Working;
use kernele::tree::Pattern;
use std::sync::Arc;
use values::value::Value;

#[cycle(evaluate)]
pub(crate) fn eval_if(
    w: &mut Working,
    condition: &Arc<Code>,
    first: &Arc<Vec<Code>>,
    second: &Arc<Vec<Code>>,
    level: u32,
    into: &mut Value,
) -> Result<(), Stop>
    requires level { level ≤ DEEPEST }
    requires fits { fits_at (at w.old) condition.now.value × fits_all false (frame_behind (at w.old) condition.now.value) first.now.value.items × fits_all false (frame_behind (at w.old) condition.now.value) second.now.value.items }
    ensures { OnEnd result into.new w.new (Runs level (if_tree (tree_of_code condition.now.value)
        (trees_of_codes first.now.value.items) (trees_of_codes second.now.value.items)) (at w.old)) }
{
    let holds = eval_condition(w, condition, level + 1, into)?;
    if holds {
        eval_block(w, first, level + 1, into)
    } else {
        eval_block(w, second, level + 1, into)
    }
}

#[cycle(evaluate)]
pub(crate) fn eval_while(
    w: &mut Working,
    condition: &Arc<Code>,
    body: &Arc<Vec<Code>>,
    level: u32,
    into: &mut Value,
) -> Result<(), Stop>
    requires level { level ≤ DEEPEST }
    requires fits { fits_at (at w.old) condition.now.value × fits_all false (frame_behind (at w.old) condition.now.value) body.now.value.items }
    ensures { OnEnd result into.new w.new (Runs level (while_tree (tree_of_code condition.now.value)
        (trees_of_codes body.now.value.items)) (at w.old)) }
{
    let names = count_names(w);
    'rounds: loop {
        let holds = eval_condition(w, condition, level + 1, into)?;
        if !holds {
            *into = Value::Null;
            return Ok(());
        }
        run_block(w, body, level + 1, into)?;
        // Names that the condition defined are not in scope at its next time.
        keep_names(w, names);
    }
}

/// Evaluates a block for each value of a list from the left, up to the first that halts it.
#[cycle(evaluate)]
pub(crate) fn eval_for(
    w: &mut Working,
    pattern: &Pattern,
    list: &Arc<Code>,
    body: &Arc<Vec<Code>>,
    level: u32,
    into: &mut Value,
) -> Result<(), Stop>
    requires level { level ≤ DEEPEST }
    requires fits { fits_at (at w.old) list.now.value × fits_all false (frame_behind (at w.old) list.now.value ++ only_names (name_of pattern.now)) body.now.value.items }
    ensures { OnEnd result into.new w.new (Runs level (for_tree pattern.now (tree_of_code list.now.value)
        (trees_of_codes body.now.value.items)) (at w.old)) }
{
    eval(w, list, level + 1, into)?;
    take_end(w, into)?;
    let values = items_of(w, into)?;
    for value in values.as_slice() {
        eval_taking(w, pattern, value, body, level + 1, into)?;
    }
    *into = Value::Null;
    Ok(())
}

#[cycle(evaluate)]
pub(crate) fn eval_try(
    w: &mut Working,
    body: &Arc<Vec<Code>>,
    pattern: &Pattern,
    handler: &Arc<Vec<Code>>,
    level: u32,
    into: &mut Value,
) -> Result<(), Stop>
    requires level { level ≤ DEEPEST }
    requires fits { fits_all false (frame_at (at w.old)) body.now.value.items × fits_all false (frame_at (at w.old) ++ only_names (name_of pattern.now)) handler.now.value.items }
    ensures { OnEnd result into.new w.new (Runs level (try_tree (trees_of_codes body.now.value.items) pattern.now
        (trees_of_codes handler.now.value.items)) (at w.old)) }
{
    match eval_block(w, body, level + 1, into) {
        Ok(()) => Ok(()),
        Err(Stop::Memory) => Err(Stop::Memory),
        Err(Stop::Halted) => match caught(w)? {
            Some(problem) => eval_taking(
                w,
                pattern,
                &Value::Text(problem),
                handler,
                level + 1,
                into,
            ),
            None => Err(Stop::Halted),
        },
    }
}

/// Evaluates a condition. One that compares integers at hand needs no place for its value.
#[cycle(evaluate)]
#[inline(always)]
fn eval_condition(
    w: &mut Working,
    condition: &Code,
    level: u32,
    into: &mut Value,
) -> Result<bool, Stop>
    requires level { level ≤ DEEPEST + 1 }
    requires fits { fits_at (at w.old) condition.now }
    ensures { Chooses result w.new level (tree_of_code condition.now) (at w.old) }
{
    match quick_truth(w, condition, level) {
        Some(truth) => {
            w.steps -= 3;
            Ok(truth)
        }
        None => eval_any_condition(w, condition, level, into),
    }
}

/// A condition of any kind. It stands apart, so that a comparison of integers is small enough to stand in its loop.
#[cycle(evaluate)]
#[inline(never)]
fn eval_any_condition(
    w: &mut Working,
    condition: &Code,
    level: u32,
    into: &mut Value,
) -> Result<bool, Stop>
    requires level { level ≤ DEEPEST + 1 }
    requires fits { fits_at (at w.old) condition.now }
    ensures { Chooses result w.new level (tree_of_code condition.now) (at w.old) }
{
    eval(w, condition, level, into)?;
    take_end(w, into)?;
    choose(w, into)
}

/// Evaluates a block whose value nobody wants, in a scope of its own.
#[cycle(evaluate)]
#[inline(always)]
fn run_block(w: &mut Working, items: &[Code], level: u32, into: &mut Value) -> Result<(), Stop>
    requires level { level ≤ DEEPEST + 1 }
    requires fits { fits_all false (frame_at (at w.old)) items.now }
    ensures { OnSomeEnd result w.new (Block level (trees_of_codes items.now) (at w.old)) }
{
    let outer = enter(w);
    let answer = run_items(w, items, level, into);
    leave(w, outer);
    answer
}

/// Evaluates items whose value nobody wants. For assignments of integers at hand at their head no call is made.
#[cycle(evaluate)]
#[inline(always)]
fn run_items(w: &mut Working, items: &[Code], level: u32, into: &mut Value) -> Result<(), Stop>
    requires level { level ≤ DEEPEST + 1 }
    requires fits { all_fit_at (at w.old) items.now }
    ensures { OnSomeEnd result w.new (Items level null (trees_of_codes items.now) (at w.old)) }
{
    let done = run_settings(w, items, level, into)?;
    if done == items.len() {
        return Ok(());
    }
    eval_items(w, &items[done..], level, into)
}

/// Evaluates a block, in a scope of its own.
#[cycle(evaluate)]
pub(crate) fn eval_block(
    w: &mut Working,
    items: &[Code],
    level: u32,
    into: &mut Value,
) -> Result<(), Stop>
    requires level { level ≤ DEEPEST + 1 }
    requires fits { fits_all false (frame_at (at w.old)) items.now }
    ensures { OnEnd result into.new w.new (Block level (trees_of_codes items.now) (at w.old)) }
{
    if items.is_empty() {
        *into = Value::Null;
        return Ok(());
    }
    let outer = enter(w);
    let answer = eval_items(w, items, level, into);
    leave(w, outer);
    answer
}

/// Evaluates a block in whose own scope a pattern takes a value first.
#[cycle(evaluate)]
pub(crate) fn eval_taking(
    w: &mut Working,
    pattern: &Pattern,
    value: &Value,
    items: &[Code],
    level: u32,
    into: &mut Value,
) -> Result<(), Stop>
    requires level { level ≤ DEEPEST + 1 }
    requires fits { fits_all false (frame_at (at w.old) ++ only_names (name_of pattern.now)) items.now }
    ensures { OnEnd result into.new w.new (Taking level pattern.now (val_of value.now) (trees_of_codes items.now) (at w.old)) }
{
    let outer = enter(w);
    match_pattern(w, pattern, value)?;
    let answer = eval_items(w, items, level, into);
    leave(w, outer);
    answer
}
