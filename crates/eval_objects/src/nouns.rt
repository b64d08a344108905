// Nouns: what they stand for, and how they are bound, declared and assigned.
ghost use Rattle.std.specs.Prelude.{◌≡◌, ◌<◌, IfOk, IfSome, OnOk, Some, false, length};
ghost use Rattle.std.specs.Option.{option_map};
ghost use Rattle.values.specs.Replies.{items_in};
ghost use Rattle.values.specs.View.{val_of, vals_of};
ghost use Rattle.kernele.specs.Tree.{Name};
ghost use Rattle.code.specs.Frames.{newest, place_in};
ghost use Rattle.eval_objects.specs.Making.{TakesParts};
ghost use Rattle.eval_rules.specs.Fits.{frame_at};
ghost use Rattle.heap.specs.State.{lookup, read, slot_cell};
ghost use Rattle.eval_rules.specs.Answered.{OnEnd, OnStop};
ghost use Rattle.eval_rules.specs.Outcomes.{thrown, value as value_end, halt as halt_end};
ghost use Rattle.eval_rules.specs.Rules.{binding as binding_of, matched, matched_all, taken, reached, seeking, noun_read, sought, sought_slot, held_end, undefined_noun};
ghost use Rattle.eval_rules.specs.Rules.{declared, declared_end, assigned, assigned_end};
ghost use Rattle.eval_rules.specs.Rules.{noun_end as noun_end_of};
ghost use Rattle.heap.specs.View.{bind_of};
ghost use Rattle.heap.specs.Drafts.{draft_of};
ghost use Rattle.eval_rules.specs.View.{at};

use code::code::NounPlace;
use eval_rules::end::{Abandon, Stop};
use eval_rules::halting::{abandon, throw_made};
use eval_rules::local::Local;
use eval_rules::wanted::mismatch;
use eval_rules::working::{MAX_SLOTS, Working};
use heap::state::Binding;
use ids::names::SlotId;
use ids::text::Text;
use kernele::tree::Pattern;
use std::alloc::{AllocError, Global};
use std::snapshot::Snapshot;
use values::value::Value;

/// Reads the value of a noun: a slot gives what it holds.
#[inline(always)]
pub fn read_noun(
    w: &mut Working,
    name: &Text,
    place: NounPlace,
    into: &mut Value,
) -> Result<(), Stop>
    requires { place ≡ place_in (frame_at (at w.old)) name.now }
    ensures { OnEnd result into.new w.new (λ o b. (o
        ≡ noun_end_of (draft_of w.old.draft) name.now (sought name.now (at w.old)))
        × (b ≡ noun_read name.now (at w.old))) }
{
    reach_name(w, name, place)?;
    match seek(w, name, place) {
        Some(Binding::Fixed(value)) => {
            *into = value.share()?;
            Ok(())
        }
        Some(Binding::Slot(slot)) => {
            let slot = *slot;
            read_slot(w, slot, name, into)
        }
        None => Err(undefined(w, name)),
    }
}

/// Reads what a slot holds.
fn read_slot(w: &mut Working, slot: SlotId, name: &Text, into: &mut Value) -> Result<(), Stop>
    ensures { OnEnd result into.new w.new (λ o b. (o
        ≡ held_end name.now (read (draft_of w.old.draft) (slot_cell slot)))
        × (b ≡ reached (slot_cell slot) (at w.old))) }
{
    w.draft.reach_slot(slot)?;
    match w.draft.read_slot(slot) {
        Some(value) => {
            *into = value.share()?;
            Ok(())
        }
        None => Err(undefined(w, name)),
    }
}

/// What a name throws that stands for nothing.
#[inline(never)]
pub(crate) fn undefined(w: &mut Working, name: &Text) -> Stop
    ensures { OnStop result w.new (λ h b. (halt_end h ≡ undefined_noun name.now) × (b ≡ at w.old)) }
{
    let problem = undefined_problem(w.alloc, name);
    throw_made(w, problem)
}

fn undefined_problem(alloc: Global, name: &Text) -> Result<Text, AllocError>
    ensures { IfOk result (λ t. halt_end (thrown t) ≡ undefined_noun name.now) }
{
    let mut problem = String::from_str(alloc, "undefined noun ")?;
    problem.push_str(name.as_str())?;
    Text::from_string(problem)
}

/// Reads the top noun's cell of a name that is in no scope.
#[inline(always)]
pub(crate) fn reach_name(w: &mut Working, name: &Text, place: NounPlace) -> Result<(), AllocError>
    requires { place ≡ place_in (frame_at (at w.old)) name.now }
    ensures { OnOk result (at w.new ≡ seeking name.now (at w.old)) }
{
    match place {
        NounPlace::Frame(_) => Ok(()),
        NounPlace::Top => w.draft.reach_top(name),
    }
}

/// What a name stands for: its newest meaning in the scopes, which is at its place, else the vat's top noun.
#[inline(always)]
pub(crate) fn seek<'a>(w: &'a Working, name: &Text, place: NounPlace) -> Option<&'a Binding>
    requires { place ≡ place_in (frame_at (at w.now)) name.now }
    ensures { option_map (λ b. bind_of b.now) result ≡ sought name.now (at w.now) }
{
    match place {
        NounPlace::Frame(i) => Some(binding_at(w, i)),
        NounPlace::Top => w.draft.top(name),
    }
}

/// What the name at this position stands for, counted from the oldest: those that were captured come first.
#[inline(always)]
pub fn binding_at<'a>(w: &'a Working, position: usize) -> &'a Binding
    requires { position < length (at w.now).nouns }
    ensures { (x : Name) → newest (frame_at (at w.now)) x ≡ Some position → lookup (at w.now).nouns x ≡ Some (bind_of result.now) }
{
    match &w.captured {
        Some(captured) => {
            if position < w.older {
                &captured[position].binding
            } else {
                &w.nouns[position - w.older].binding
            }
        }
        None => &w.nouns[position].binding,
    }
}

/// The slot that a name stands for.
fn seek_slot(w: &Working, name: &Text, place: NounPlace) -> Option<SlotId>
    requires { place ≡ place_in (frame_at (at w.now)) name.now }
    ensures { result ≡ sought_slot name.now (at w.now) }
{
    match seek(w, name, place) {
        Some(Binding::Slot(slot)) => Some(*slot),
        Some(Binding::Fixed(_)) | None => None,
    }
}

/// Binds what a pattern names.
pub fn match_pattern(w: &mut Working, pattern: &Pattern, value: &Value) -> Result<(), AllocError>
    ensures { OnOk result (at w.new ≡ matched pattern.now (val_of value.now) (at w.old)) }
{
    match pattern {
        Pattern::Name(name) => bind(w, name, Binding::Fixed(value.share()?)),
        Pattern::Ignore => Ok(()),
    }
}

/// Binds what a list of patterns names, where the value is a list of as many items.
pub fn bind_parts(w: &mut Working, patterns: &[Pattern], value: &Value) -> Result<(), Stop>
    ensures { OnEnd result value.now w.new (TakesParts patterns.now (val_of value.now) (value_end (val_of value.now)) (at w.old)) }
{
    match parts(patterns, value) {
        Some(values) => Ok(match_all(w, patterns, values)?),
        None => Err(mismatch(w, "wrong list", value)),
    }
}

/// The items of a list, where there are as many as patterns.
fn parts<'a>(patterns: &[Pattern], value: &'a Value) -> Option<&'a [Value]>
    ensures items { option_map (λ s. vals_of s.now) result ≡ taken patterns.now (items_in (val_of value.now)) }
    ensures count { IfSome result (λ s. length s.now ≡ length patterns.now) }
{
    match value.as_items() {
        Some(values) => {
            if values.len() == patterns.len() {
                Some(values)
            } else {
                None
            }
        }
        None => None,
    }
}

/// Binds what patterns name, from the left.
fn match_all(w: &mut Working, patterns: &[Pattern], values: &[Value]) -> Result<(), AllocError>
    requires { length values.now ≡ length patterns.now }
    ensures { OnOk result (at w.new ≡ matched_all patterns.now (vals_of values.now) (at w.old)) }
{
    for i in 0..patterns.len() {
        match_pattern(w, &patterns[i], &values[i])?;
    }
    Ok(())
}

/// Binds a name in the innermost scope.
pub fn bind(w: &mut Working, name: &Text, binding: Binding) -> Result<(), AllocError>
    ensures { OnOk result (at w.new ≡ binding_of name.now (bind_of binding) (at w.old)) }
{
    if w.own_scope {
        w.draft.bind_top(name.share()?, binding)
    } else {
        bind_local(w, name, binding)
    }
}

/// Binds a name in a scope that is not the script's own.
#[inline(always)]
pub fn bind_local(w: &mut Working, name: &Text, binding: Binding) -> Result<(), AllocError>
    requires { w.old.own_scope ≡ false }
    ensures { OnOk result (at w.new ≡ binding_of name.now (bind_of binding) (at w.old)) }
{
    let name = Snapshot::of(name);
    w.nouns.push(Local { name, binding })?;
    Ok(())
}

/// Makes a variable that holds this value, or abandons a turn that has made too many.
pub fn declare(w: &mut Working, name: &Text, value: &Value) -> Result<(), Stop>
    ensures { OnEnd result value.now w.new (λ o b. (o ≡ declared_end (value_end (val_of value.now)) (at w.old))
        × (b ≡ declared name.now (value_end (val_of value.now)) (at w.old))) }
{
    if w.draft.slot_count() >= MAX_SLOTS {
        return Err(abandon(w, Abandon::Size));
    }
    let slot = w.draft.new_slot(value.share()?)?;
    Ok(bind(w, name, Binding::Slot(slot))?)
}

/// Lets the slot that a name stands for hold this value. What stands for no slot is undefined here:
/// a program that assigns to a definition is refused before it runs.
pub fn assign(w: &mut Working, name: &Text, place: NounPlace, value: &Value) -> Result<(), Stop>
    requires { place ≡ place_in (frame_at (at w.old)) name.now }
    ensures { OnEnd result value.now w.new (λ o b. (o
        ≡ assigned_end name.now (value_end (val_of value.now)) (sought_slot name.now (at w.old)))
        × (b ≡ assigned name.now (value_end (val_of value.now)) (at w.old))) }
{
    reach_name(w, name, place)?;
    match seek_slot(w, name, place) {
        Some(slot) => {
            w.draft.write_slot(slot, value.share()?)?;
            Ok(())
        }
        None => Err(undefined(w, name)),
    }
}
