// Calls whose receiver is an object at hand and whose arguments are at hand: the method is entered with no evaluation of these
// parts, and the arguments go straight into its names.
ghost use Rattle.std.specs.Prelude.{◌≡◌, ◌<◌, [], IfOk, IfSome, length};
ghost use Rattle.kernele.specs.Tree.{call};
ghost use Rattle.code.specs.View.{tree_of_code, trees_of_codes};
ghost use Rattle.code.specs.Frames.{fits_all};
ghost use Rattle.values.specs.View.{val_of};
ghost use Rattle.eval_rules.specs.Fits.{all_fit_at, fits_at, frame_behind};
ghost use Rattle.eval_rules.specs.View.{at};
ghost use Rattle.eval_quick.specs.Direct.{EnteredOrNot, IsReceiver, MeetsAtHand, NamesAtHand};
ghost use Rattle.eval_quick.specs.Leaves.{AtHand};

use crate::quick::{called, value_at_hand};
use code::code::Code;
use eval_messages::places::here;
use eval_objects::calls::{Caller, empty_frame, enter_method};
use eval_objects::objects::{find_method, name_value, share_captured};
use eval_rules::local::{Local, let_go};
use eval_rules::working::{DEEPEST, Working};
use heap::made::Made;
use heap::state::Noun;
use ids::names::ObjId;
use kernele::tree::Pattern;
use std::alloc::AllocError;
use std::sync::Arc;
use values::value::Value;
use values::verb::Verb;

/// A method that was entered: its block, and what its caller's names were.
#[derive(Drop)]
pub struct Entered {
    pub body: Arc<Vec<Code>>,
    pub caller: Caller,
}

/// What a call enters whose parts are at hand: how many steps are left behind these, what the object captured, and the block.
#[derive(Drop)]
struct Direct {
    left: u32,
    captured: Option<Arc<Vec<Noun>>>,
    body: Arc<Vec<Code>>,
}

/// A value at hand, and how many steps it takes to evaluate what gives it.
#[derive(Drop)]
struct Given {
    value: Value,
    steps: u32,
}

/// Enters the method that a call leads to whose receiver is an object at hand and whose arguments are at hand, where there are
/// steps for all of them; else nothing has changed.
#[inline(always)]
pub fn enter_at_hand(
    w: &mut Working,
    receiver: &Code,
    verb: &Verb,
    args: &[Code],
    level: u32,
) -> Result<Option<Entered>, AllocError>
    requires fits { fits_at (at w.old) receiver.now × fits_all w.old.own_scope (frame_behind (at w.old) receiver.now) args.now }
    ensures { IfOk result (λ e. EnteredOrNot e level (call (tree_of_code receiver.now) verb.now (trees_of_codes args.now)) (at w.old) (at w.new)) }
{
    if w.steps == 0 || level >= DEEPEST - 1 {
        return Ok(None);
    }
    let Some(id) = object_at_hand(w, receiver) else {
        return Ok(None);
    };
    let mut frame = empty_frame(w);
    let met = meet_at_hand(w, &mut frame, id, verb, args)?;
    match met {
        Some(direct) => {
            let Direct {
                left,
                captured,
                body,
            } = direct;
            w.steps = left;
            let caller = enter_method(w, captured, frame);
            Ok(Some(Entered { body, caller }))
        }
        None => {
            let_go(&mut frame, 0);
            // Where there is no memory to keep it, it is dropped.
            let _ = w.spare.push(frame);
            Ok(None)
        }
    }
}

/// The object of the vat that a noun gives, if it gives one and is found at hand.
#[inline(always)]
fn object_at_hand(w: &Working, e: &Code) -> Option<ObjId>
    requires { fits_at (at w.now) e.now }
    ensures { IfSome result (λ i. IsReceiver (at w.now) (tree_of_code e.now) i) }
{
    match e {
        Code::Noun(name, place) => match value_at_hand(w, name, *place) {
            Some(Value::Object(id)) => { if id.vat == here(w) { Some(*id) } else { None } }
            _ => None,
        },
        _ => None,
    }
}

/// What a call on an object enters that was touched before, where the arguments are at hand and there are steps for them and
/// for the object. A frame has the names that the method begins with then, and else some of them.
#[inline(always)]
fn meet_at_hand(
    w: &Working,
    frame: &mut Vec<Local>,
    id: ObjId,
    verb: &Verb,
    args: &[Code],
) -> Result<Option<Direct>, AllocError>
    requires empty { frame.old.items ≡ [] }
    requires some { 0 < w.now.steps }
    requires fits { all_fit_at (at w.now) args.now }
    ensures { IfOk result (λ d. IfSome d (λ direct. MeetsAtHand (at w.now) id verb.now args.now direct frame.new.items)) }
{
    let Some(Made::Plain(object)) = w.draft.peek_object(id) else {
        return Ok(None);
    };
    let Some(method) = find_method(object, verb, args.len())? else {
        return Ok(None);
    };
    let parameters = method.parameters.as_slice();
    let Some(left) = name_all(w, frame, &object.own, id, parameters, args, w.steps - 1)? else {
        return Ok(None);
    };
    Ok(Some(Direct {
        left,
        captured: share_captured(&object.captured)?,
        body: Arc::try_clone(&method.body)?,
    }))
}

/// Lets a pattern name an object, and parameters the arguments, where these are at hand and there are steps for them. Answers how
/// many steps are left; else the frame has some of the names.
#[inline(always)]
fn name_all(
    w: &Working,
    frame: &mut Vec<Local>,
    own: &Pattern,
    id: ObjId,
    parameters: &[Pattern],
    args: &[Code],
    steps: u32,
) -> Result<Option<u32>, AllocError>
    requires fits { all_fit_at (at w.now) args.now }
    requires count { length args.now ≡ length parameters.now }
    ensures { IfOk result (λ n. IfSome n (λ left. NamesAtHand (at w.now) args.now steps own.now id parameters.now frame.old.items frame.new.items left)) }
{
    let mut left = steps;
    let mut pattern = own;
    let mut value = Value::Object(id);
    let mut next = 0;
    // Names are added in one place, which is inlined then.
    'names: loop {
        name_value(frame, pattern, value)?;
        if next == args.len() {
            return Ok(Some(left));
        }
        let Some(given) = argument_at_hand(w, &args[next])? else {
            return Ok(None);
        };
        if given.steps > left {
            return Ok(None);
        }
        left -= given.steps;
        pattern = &parameters[next];
        value = given.value;
        next += 1;
    }
}

/// The value of an argument, if it is at hand: that of a noun, an integer, or a call on integers.
#[inline(always)]
fn argument_at_hand(w: &Working, arg: &Code) -> Result<Option<Given>, AllocError>
    requires { fits_at (at w.now) arg.now }
    ensures { IfOk result (λ g. IfSome g (λ given. AtHand (at w.now) (tree_of_code arg.now) given.steps (val_of given.value))) }
{
    match arg {
        Code::Noun(name, place) => match value_at_hand(w, name, *place) {
            Some(value) => Ok(Some(Given {
                value: value.share()?,
                steps: 1,
            })),
            None => Ok(None),
        },
        Code::Int(n) => Ok(Some(Given {
            value: Value::Int(*n),
            steps: 1,
        })),
        _ => match called(w, arg) {
            Some(value) => Ok(Some(Given { value, steps: 3 })),
            None => Ok(None),
        },
    }
}
