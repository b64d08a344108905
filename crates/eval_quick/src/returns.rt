// Values that an Escape's own ejector is given by an item of its block: they end the Escape with nothing on its way.
ghost use Rattle.std.specs.Prelude.{◌≡◌, ◌≤◌, IfSome, length};
ghost use Rattle.kernele.specs.Tree.{call};
ghost use Rattle.code.specs.View.{tree_of_code, trees_of_codes};
ghost use Rattle.code.specs.Frames.{fits_all, place_in};
ghost use Rattle.values.specs.Data.{ejector as ejector_value};
ghost use Rattle.eval_rules.specs.Fits.{all_fit_at, fits_at, frame_at, frame_behind};
ghost use Rattle.eval_rules.specs.View.{at};
ghost use Rattle.eval_quick.specs.Leaves.{GivesAtHand, Leaf, Returns, SendsTo};

use crate::quick::peek;
use code::code::{Code, NounPlace};
use eval_messages::places::here;
use eval_rules::working::{DEEPEST, Working};
use heap::state::Binding;
use ids::names::EjId;
use ids::text::Text;
use values::value::Value;
use values::verb::Verb;

/// What an item gives to this ejector, where it calls the ejector with that alone, the ejector is of the vat and at hand,
/// and there are steps for the call and for what it is made on.
pub fn returned<'a>(w: &Working, ejector: EjId, item: &'a Code, level: u32) -> Option<&'a Code>
    requires { fits_at (at w.now) item.now }
    ensures steps { IfSome result (λ arg. 2 ≤ w.now.steps) }
    ensures fits { IfSome result (λ arg. fits_at (at w.now) arg.now) }
    ensures returns { IfSome result (λ arg. Returns level (at w.now) ejector (tree_of_code item.now) (tree_of_code arg.now)) }
{
    match item {
        Code::Call(receiver, verb, args) => given(w, ejector, receiver, verb, args, level),
        _ => None,
    }
}

/// What a call gives to this ejector, under the same conditions.
#[inline(always)]
fn given<'a>(
    w: &Working,
    ejector: EjId,
    receiver: &Code,
    verb: &Verb,
    args: &'a [Code],
    level: u32,
) -> Option<&'a Code>
    requires { fits_at (at w.now) receiver.now × fits_all w.now.own_scope (frame_behind (at w.now) receiver.now) args.now }
    ensures steps { IfSome result (λ arg. 2 ≤ w.now.steps) }
    ensures fits { IfSome result (λ arg. fits_at (at w.now) arg.now) }
    ensures returns { IfSome result (λ arg. Returns level (at w.now) ejector
        (call (tree_of_code receiver.now) verb.now (trees_of_codes args.now)) (tree_of_code arg.now)) }
{
    if w.steps < 2 || level >= DEEPEST || args.len() != 1 {
        return None;
    }
    let called = ejector_at(w, receiver)?;
    if called.vat != here(w) {
        return None;
    }
    if ejector.cmp(&called).is_eq() && verb.text().as_str() == "run" {
        Some(&args[0])
    } else {
        None
    }
}

/// The ejector that a call gives one value, where the ejector is of the vat and at hand, and there is a step for what the call
/// is made on.
#[inline(always)]
pub fn ejector_at_hand(
    w: &Working,
    receiver: &Code,
    verb: &Verb,
    args: &[Code],
    level: u32,
) -> Option<EjId>
    requires fits { fits_at (at w.now) receiver.now × fits_all w.now.own_scope (frame_behind (at w.now) receiver.now) args.now }
    ensures steps { IfSome result (λ i. 1 ≤ w.now.steps) }
    ensures one { IfSome result (λ i. length args.now ≡ 1) }
    ensures fits { IfSome result (λ i. all_fit_at (at w.now) args.now) }
    ensures sends { IfSome result (λ i. SendsTo level (at w.now) i (tree_of_code receiver.now) verb.now (trees_of_codes args.now)) }
{
    if w.steps == 0 || level >= DEEPEST || args.len() != 1 {
        return None;
    }
    let called = ejector_at(w, receiver)?;
    if called.vat == here(w) && verb.text().as_str() == "run" {
        Some(called)
    } else {
        None
    }
}

/// The ejector that a noun gives, if it gives one and is found at hand.
#[inline(always)]
fn ejector_at(w: &Working, e: &Code) -> Option<EjId>
    requires { fits_at (at w.now) e.now }
    ensures { IfSome result (λ i. Leaf (at w.now) (tree_of_code e.now) (ejector_value i)) }
{
    match e {
        Code::Noun(name, place) => ejector_of(w, name, *place),
        _ => None,
    }
}

/// The ejector that a name is bound to, if it is bound to one and is found at hand.
#[inline(always)]
fn ejector_of(w: &Working, name: &Text, place: NounPlace) -> Option<EjId>
    requires { place ≡ place_in (frame_at (at w.now)) name.now }
    ensures { IfSome result (λ i. GivesAtHand name.now (ejector_value i) (at w.now)) }
{
    match peek(w, name, place) {
        Some(Binding::Fixed(Value::Ejector(ejector))) => Some(*ejector),
        _ => None,
    }
}
