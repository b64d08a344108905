// Sends and whens in the evaluation.
ghost use Rattle.std.specs.Prelude.{◌≤◌, ◌<◌, ◌+◌};
ghost use Rattle.kernele.specs.Tree.{send, when_catch_tree, when_tree};
ghost use Rattle.code.specs.Frames.{fits_all};
ghost use Rattle.code.specs.View.{tree_of_code, trees_of_codes};
ghost use Rattle.eval_rules.specs.Answered.{OnEnd};
ghost use Rattle.eval_rules.specs.Fits.{WhenCatchFits, WhenFits, fits_at, frame_behind};
ghost use Rattle.eval_rules.specs.Rules.{Runs};
ghost use Rattle.eval_rules.specs.View.{at};
ghost use Rattle.eval_rules.specs.declared.working.TheConstants.{DEEPEST};

use crate::eval::{eval, eval_args, eval_part};
use code::code::{Capture, Code};
use eval_messages::outgoing::send_call;
use eval_objects::whens::define_when;
use eval_rules::end::Stop;
use eval_rules::working::Working;
use kernele::tree::Pattern;
use post::when::Handler;
use std::sync::Arc;
use values::value::Value;
use values::verb::Verb;

#[cycle(evaluate)]
pub(crate) fn eval_send(
    w: &mut Working,
    receiver: &Arc<Code>,
    verb: &Verb,
    args: &Arc<Vec<Code>>,
    level: u32,
    into: &mut Value,
) -> Result<(), Stop>
    requires level { level ≤ DEEPEST }
    requires fits { fits_at (at w.old) receiver.now.value × fits_all w.old.own_scope (frame_behind (at w.old) receiver.now.value) args.now.value.items }
    requires promised { w.old.out.promises + w.old.steps < u32.MAX }
    ensures { OnEnd result into.new w.new (Runs level (send (tree_of_code receiver.now.value) verb.now (trees_of_codes args.now.value.items)) (at w.old)) }
{
    let mut target = Value::Null;
    eval_part(w, receiver, level + 1, &mut target)?;
    let values = eval_args(w, args, level + 1)?;
    send_call(w, &target, verb, &values, into)
}

#[cycle(evaluate)]
pub(crate) fn eval_when(
    w: &mut Working,
    value: &Arc<Code>,
    captures: &Arc<Vec<Capture>>,
    block: &Arc<Vec<Code>>,
    level: u32,
    into: &mut Value,
) -> Result<(), Stop>
    requires level { level ≤ DEEPEST }
    requires fits { WhenFits (at w.old) value.now.value captures.now.value.items block.now.value.items }
    requires promised { w.old.out.promises + w.old.steps < u32.MAX }
    ensures { OnEnd result into.new w.new (Runs level (when_tree (tree_of_code value.now.value) (trees_of_codes block.now.value.items)) (at w.old)) }
{
    eval(w, value, level + 1, into)?;
    define_when(w, captures, block, None, into)
}

#[cycle(evaluate)]
pub(crate) fn eval_when_catch(
    w: &mut Working,
    value: &Arc<Code>,
    captures: &Arc<Vec<Capture>>,
    block: &Arc<Vec<Code>>,
    pattern: &Pattern,
    handler: &Arc<Vec<Code>>,
    level: u32,
    into: &mut Value,
) -> Result<(), Stop>
    requires level { level ≤ DEEPEST }
    requires fits { WhenCatchFits (at w.old) value.now.value captures.now.value.items block.now.value.items pattern.now handler.now.value.items }
    requires promised { w.old.out.promises + w.old.steps < u32.MAX }
    ensures { OnEnd result into.new w.new (Runs level (when_catch_tree (tree_of_code value.now.value) (trees_of_codes block.now.value.items) pattern.now (trees_of_codes handler.now.value.items)) (at w.old)) }
{
    eval(w, value, level + 1, into)?;
    let handler = Handler {
        pattern: pattern.share()?,
        block: Arc::try_clone(handler)?,
    };
    define_when(w, captures, block, Some(handler), into)
}
