// The verbs of lists, and list literals.
ghost use Rattle.std.specs.Prelude.{◌≡◌, ◌+◌, ◌≤◌, IsTrue, IfOk, OnOk, option_map};
ghost use Rattle.values.specs.Data.{list};
ghost use Rattle.values.specs.Limits.{deepest, weights, within_limits};
ghost use Rattle.values.specs.Replies.{list_table, list_add as add_reply, list_with as with_reply, list_get as get_reply, list_size as size_reply, at_index, list_reply, joined, value_given};
ghost use Rattle.values.specs.View.{val_of, vals_of, reply_of};

use crate::limits::{MOST_ITEMS_DEPTH, MOST_ITEMS_WEIGHT, items_left};
use crate::replies::{no_method, sized, thrown, wrong_argument};
use crate::value::{Answer, Items, Value};
use crate::verb::{Verb, Word};
use std::alloc::{AllocError, Global};
use std::slice;
use std::sync::Arc;

/// A list literal, or the problem that it is too large.
pub fn list_value(alloc: Global, items: Vec<Value>) -> Result<Answer, AllocError>
    ensures { IfOk result (λ a. reply_of a ≡ list_reply (vals_of items.items)) }
{
    match Items::new(items) {
        Some(items) => Ok(Answer::Gives(Value::List(Arc::new(alloc, items)?))),
        None => thrown(alloc, "value too large"),
    }
}

/// A list of items; none, if it is too large.
pub fn list_within(alloc: Global, items: Vec<Value>) -> Result<Option<Value>, AllocError>
    ensures { IfOk result (λ o. option_map val_of o ≡ value_given (list_reply (vals_of items.items))) }
{
    match Items::new(items) {
        Some(items) => Ok(Some(Value::List(Arc::new(alloc, items)?))),
        None => Ok(None),
    }
}

/// What a verb of a list leads to.
#[inline(never)]
pub(crate) fn list_call(
    alloc: Global,
    items: &Items,
    verb: &Verb,
    arguments: &[Value],
) -> Result<Answer, AllocError>
    ensures { IfOk result (λ a. reply_of a ≡ list_table items.now verb.now (vals_of arguments.now)) }
{
    match arguments {
        [] => match verb.word() {
            Some(Word::Size) => list_size(alloc, items.as_slice()),
            _ => no_method(alloc, verb, 0),
        },
        [argument] => match verb.word() {
            Some(Word::Add) => list_add(alloc, items, argument),
            Some(Word::With) => list_with(alloc, items, argument),
            Some(Word::Get) => list_get(alloc, items.as_slice(), argument),
            _ => no_method(alloc, verb, 1),
        },
        _ => no_method(alloc, verb, arguments.len()),
    }
}

fn list_size(alloc: Global, items: &[Value]) -> Result<Answer, AllocError>
    ensures { IfOk result (λ a. reply_of a ≡ size_reply (vals_of items.now)) }
{
    sized(alloc, items.len())
}

fn list_add(alloc: Global, items: &Items, argument: &Value) -> Result<Answer, AllocError>
    ensures { IfOk result (λ a. reply_of a ≡ add_reply items.now (val_of argument.now)) }
{
    match argument.as_items() {
        Some(more) => joined_list(alloc, items, more),
        None => wrong_argument(alloc, argument),
    }
}

fn list_with(alloc: Global, items: &Items, argument: &Value) -> Result<Answer, AllocError>
    ensures { IfOk result (λ a. reply_of a ≡ with_reply items.now (val_of argument.now)) }
{
    joined_list(alloc, items, slice::from_ref(argument))
}

fn list_get(alloc: Global, items: &[Value], argument: &Value) -> Result<Answer, AllocError>
    ensures { IfOk result (λ a. reply_of a ≡ get_reply (vals_of items.now) (val_of argument.now)) }
{
    match argument.as_int() {
        Some(index) => match item_at(items, index) {
            Some(item) => Ok(Answer::Gives(item.share()?)),
            None => thrown(alloc, "index out of range"),
        },
        None => wrong_argument(alloc, argument),
    }
}

fn item_at(items: &[Value], index: i64) -> Option<&Value>
    ensures { option_map (λ v. val_of v.now) result ≡ at_index (vals_of items.now) index }
{
    items.get(usize::try_from(index).ok()?)
}

/// One list behind another, copied only where it is not too large.
fn joined_list(alloc: Global, first: &Items, second: &[Value]) -> Result<Answer, AllocError>
    ensures { IfOk result (λ a. reply_of a ≡ list_reply (joined first.now (vals_of second.now))) }
{
    if !fits_list(first, second) {
        return thrown(alloc, "value too large");
    }
    let mut both = first.copy(second.len())?;
    both.extend(second)?;
    Ok(Answer::Gives(Value::List(Arc::new(alloc, both)?)))
}

/// Whether a list of the first items and the second is not too large.
pub(crate) fn fits_list(first: &Items, second: &[Value]) -> bool
    ensures fits { result ≡ within_limits (list (joined first.now (vals_of second.now))) }
    ensures light { IsTrue result → weights first.now + weights (vals_of second.now) ≤ MOST_ITEMS_WEIGHT }
    ensures shallow { IsTrue result → deepest (vals_of second.now) ≤ MOST_ITEMS_DEPTH }
{
    items_left(second, MOST_ITEMS_DEPTH, MOST_ITEMS_WEIGHT - first.weight()).is_some()
}

/// Adds the same items, shared, at the end.
pub(crate) fn append(list: &mut Vec<Value>, items: &[Value]) -> Result<(), AllocError>
    ensures { OnOk result (vals_of list.new.items ≡ joined (vals_of list.old.items) (vals_of items.now)) }
{
    for item in items {
        list.push(item.share()?)?;
    }
    Ok(())
}
