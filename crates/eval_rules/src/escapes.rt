// Escapes: ejectors are made, end their Escape, and are spent behind it.
ghost use Rattle.std.specs.Prelude.{◌≡◌, ◌<◌, ◌+◌, IfOk, OnErr, take, true};
ghost use Rattle.std.specs.Option.{option_map};
ghost use Rattle.values.specs.View.{val_of, vals_of};
ghost use Rattle.eval_rules.specs.Answered.{OnEnd, OnStop};
ghost use Rattle.eval_rules.specs.Outcomes.{halt};
ghost use Rattle.eval_rules.specs.Rules.{next_ejector, escaping, escape_end as escape_end_of, is_open as is_open_of, ejects, given as given_of, ejector_end as ejector_end_of};
ghost use Rattle.eval_rules.specs.View.{at, halt_of, opened_of};

use crate::end::{Halt, Stop};
use crate::halting::throw_made;
use crate::results::no_such_method;
use crate::working::Working;
use ids::names::EjId;
use ids::text::Text;
use std::alloc::AllocError;
use values::value::Value;
use values::verb::Verb;

/// Makes the turn's next ejector and begins its Escape. Without memory nothing changes.
pub fn open_escape(w: &mut Working) -> Result<EjId, AllocError>
    requires { w.old.ejectors + w.old.steps < u32.MAX }
    ensures named { IfOk result (λ j. j ≡ next_ejector (at w.old)) }
    ensures place { IfOk result (λ j. at w.new ≡ escaping (at w.old)) }
    ensures err { OnErr result (at w.new ≡ at w.old) }
{
    let ejector = w.draft.ejector(w.ejectors);
    w.opened.push(ejector)?;
    w.ejectors += 1;
    Ok(ejector)
}

/// Ends the Escapes that were begun since there were so many: their ejectors are spent.
pub fn close_escape(w: &mut Working, outer: usize)
    ensures place { at w.new ≡ record (at w.old) { opened = opened_of (take outer w.old.opened.items) } }
    ensures halt { w.new.halt ≡ w.old.halt }
{
    w.opened.truncate(outer);
}

/// How an Escape ends whose block was halted: a value that its own ejector was given is its value.
pub fn end_escape(w: &mut Working, ejector: EjId, into: &mut Value) -> Result<(), Stop>
    ensures { OnEnd result into.new w.new (λ o b. (o ≡ escape_end_of ejector (halt (halt_of w.old.halt))) × (b ≡ at w.old)) }
{
    match &w.halt {
        Halt::Ejected(ejected, value) => {
            if ejector.cmp(ejected).is_eq() {
                *into = value.share()?;
                Ok(())
            } else {
                Err(Stop::Halted)
            }
        }
        Halt::Thrown(_) | Halt::Abandoned(_) => Err(Stop::Halted),
    }
}

/// What a call on an ejector gives.
pub fn call_ejector(
    w: &mut Working,
    ejector: EjId,
    verb: &Verb,
    args: &[Value],
    into: &mut Value,
) -> Result<(), Stop>
    ensures { OnEnd result into.new w.new (λ o b. (o
        ≡ ejector_end_of ejector (opened_of w.old.opened.items) verb.now (vals_of args.now)) × (b ≡ at w.old)) }
{
    if verb.text().as_str() != "run" {
        return no_such_method(w, verb, args, into);
    }
    match given(args)? {
        Some(value) => Err(eject(w, ejector, value)),
        None => no_such_method(w, verb, args, into),
    }
}

/// What an ejector is given: one value, or null.
fn given(args: &[Value]) -> Result<Option<Value>, AllocError>
    ensures { IfOk result (λ v. option_map val_of v ≡ given_of (vals_of args.now)) }
{
    if args.is_empty() {
        Ok(Some(Value::Null))
    } else if args.len() == 1 {
        Ok(Some(args[0].share()?))
    } else {
        Ok(None)
    }
}

/// Sends a value to the Escape of an ejector, if that is being evaluated.
pub fn eject(w: &mut Working, ejector: EjId, value: Value) -> Stop
    ensures stop { is_open_of ejector (opened_of w.old.opened.items) ≡ true → result ≡ Stop.Halted }
    ensures end { OnStop result w.new (λ h b. (halt h
        ≡ ejects (is_open_of ejector (opened_of w.old.opened.items)) ejector (val_of value)) × (b ≡ at w.old)) }
{
    if is_open(&w.opened, ejector) {
        w.halt = Halt::Ejected(ejector, value);
        Stop::Halted
    } else {
        let problem = Text::new(w.alloc, "ejector is spent");
        throw_made(w, problem)
    }
}

/// Whether an ejector's Escape is being evaluated.
fn is_open(opened: &Vec<EjId>, ejector: EjId) -> bool
    ensures { result ≡ is_open_of ejector (opened_of opened.now.items) }
{
    let mut rest = opened.as_slice();
    while let Some((newest, older)) = rest.split_last() {
        if newest.cmp(&ejector).is_eq() {
            return true;
        }
        rest = older;
    }
    false
}
