// Lists and texts that a verb makes longer where they stand.
ghost use Rattle.std.specs.Prelude.{◌≡◌, ◌+◌, ◌≤◌, ◌++◌, ◌&&◌, is_some, option_map, IfOk, OnOk};
ghost use Rattle.values.specs.Data.{and_val, no_vals, list as as_list, text as as_text};
ghost use Rattle.values.specs.Growing.{adds_to, items_added as added_items, text_added as added_text, Grown, ListGrown, TextGrown};
ghost use Rattle.values.specs.Limits.{deepest, weights, within_limits};
ghost use Rattle.values.specs.Replies.{data_reply, joined, value_given};
ghost use Rattle.values.specs.View.{val_of, vals_of};
ghost use Rattle.values.specs.declared.limits.TheConstants.{MOST_ITEMS_DEPTH, MOST_ITEMS_WEIGHT};

use crate::lists::fits_list;
use crate::texts::fits_text;
use crate::value::{Items, Value};
use crate::verb::{Verb, Word};
use ids::text::Text;
use std::alloc::AllocError;
use std::slice;
use std::sync::Arc;

/// Lets a list or a text be what a verb with one argument gives for it, where that verb adds to it. Where nobody else
/// holds it nothing is copied. Answers whether it did; a value that did not grow is as it was. Where memory runs out
/// a part may have been added.
pub fn grow(held: &mut Value, verb: &Verb, more: &Value) -> Result<bool, AllocError>
    ensures grown { IfOk result (λ grew. Grown grew held.old (data_reply (val_of held.old) verb.now (and_val (val_of more.now) no_vals)) held.new) }
    ensures when { IfOk result (λ grew. grew ≡ (adds_to (val_of held.old) verb.now (val_of more.now) && is_some (value_given (data_reply (val_of held.old) verb.now (and_val (val_of more.now) no_vals))))) }
{
    match held {
        Value::List(items) => match items_added(verb, more) {
            Some(more) => grow_list(items, more),
            None => Ok(false),
        },
        Value::Text(text) => match text_added(verb, more) {
            Some(more) => grow_text(text, more),
            None => Ok(false),
        },
        Value::Null
        | Value::Bool(_)
        | Value::Int(_)
        | Value::Object(_)
        | Value::Ejector(_)
        | Value::Promise(_)
        | Value::Broken(_) => Ok(false),
    }
}

/// The items that a verb with one argument adds to a list, if it adds any.
fn items_added<'a>(verb: &Verb, more: &'a Value) -> Option<&'a [Value]>
    ensures { option_map (λ s. vals_of s.now) result ≡ added_items verb.now (val_of more.now) }
{
    match verb.word()? {
        Word::Add => more.as_items(),
        Word::With => Some(slice::from_ref(more)),
        _ => None,
    }
}

/// The text that a verb with one argument adds to a text, if it adds one.
fn text_added<'a>(verb: &Verb, more: &'a Value) -> Option<&'a str>
    ensures { option_map (λ s. s.now) result ≡ added_text verb.now (val_of more.now) }
{
    match verb.word()? {
        Word::Add => match more {
            Value::Text(more) => Some(more.as_str()),
            Value::Null
            | Value::Bool(_)
            | Value::Int(_)
            | Value::List(_)
            | Value::Object(_)
            | Value::Ejector(_)
            | Value::Promise(_)
            | Value::Broken(_) => None,
        },
        _ => None,
    }
}

/// Adds items at the end of a list, where it is not too large then.
fn grow_list(list: &mut Arc<Items>, more: &[Value]) -> Result<bool, AllocError>
    ensures grown { IfOk result (λ grew. ListGrown grew list.old (vals_of more.now) list.new) }
    ensures when { IfOk result (λ grew. grew ≡ within_limits (as_list (joined list.old.value (vals_of more.now)))) }
{
    if !fits_list(list, more) {
        return Ok(false);
    }
    match Arc::get_mut(list) {
        Some(own) => own.extend(more)?,
        None => grow_copy(list, more)?,
    }
    Ok(true)
}

/// The same in a copy.
fn grow_copy(list: &mut Arc<Items>, more: &[Value]) -> Result<(), AllocError>
    requires light { weights list.old.value + weights (vals_of more.now) ≤ MOST_ITEMS_WEIGHT }
    requires shallow { deepest (vals_of more.now) ≤ MOST_ITEMS_DEPTH }
    ensures { OnOk result (list.new.value ≡ joined list.old.value (vals_of more.now)) }
{
    let mut both = list.copy(more.len())?;
    both.extend(more)?;
    let alloc = both.allocator()?;
    *list = Arc::new(alloc, both)?;
    Ok(())
}

/// Adds a text at the end of another, where that is not too large then.
fn grow_text(text: &mut Text, more: &str) -> Result<bool, AllocError>
    ensures grown { IfOk result (λ grew. TextGrown grew text.old more.now text.new) }
    ensures when { IfOk result (λ grew. grew ≡ within_limits (as_text (text.old ++ more.now))) }
{
    if !fits_text(text.as_str(), more) {
        return Ok(false);
    }
    text.push_str(more)?;
    Ok(true)
}
