// Settled forms. What settles to itself is shared, and takes no room of its own.
ghost use Rattle.std.specs.Prelude.{◌≡◌, ◌++◌, ◌≤◌, IfOk, OnOk, option_map};
ghost use Rattle.refs.specs.Forms.{formed, gathered};
ghost use Rattle.refs.specs.Settling.{fitted, list_at, settle_at as settling_at, settle_end as end_settling, settling};
ghost use Rattle.values.specs.Data.{Val, and_val, list, no_vals};
ghost use Rattle.values.specs.Promises.{promise_of};
ghost use Rattle.values.specs.Replies.{items_in, joined, list_reply, value_given};
ghost use Rattle.values.specs.View.{val_of, vals_of};

use crate::ends::end_of;
use crate::resolve::Resolve;
use ids::names::PromId;
use std::alloc::{AllocError, Global};
use values::limits::{MOST_DEPTH, MOST_WEIGHT, item_weight, weight_left};
use values::lists::list_within;
use values::promises::has_promise;
use values::value::Value;

/// The settled form of a value.
#[derive(Drop)]
enum Form {
    /// The value itself.
    Itself,
    Other(Value),
}

impl Form {
    /// The form of this value.
    fn of<'a>(&'a self, value: &'a Value) -> &'a Value
        ensures { val_of result.now ≡ formed (val_of value.now) self.now }
    {
        match self {
            Form::Itself => value,
            Form::Other(other) => other,
        }
    }

    /// The form of this value, as a value of its own.
    fn into_value(self, value: &Value) -> Result<Value, AllocError>
        ensures { IfOk result (λ v. val_of v ≡ formed (val_of value.now) self) }
    {
        match self {
            Form::Itself => value.share(),
            Form::Other(other) => Ok(other),
        }
    }
}

/// The settled form of a value: its end, in lists item by item from the left; none, if it passes a limit of values. Each
/// promise of each walk is added to `through`, in order, until the first item that passes.
pub fn settle<R: Resolve>(
    map: &R,
    value: &Value,
    through: &mut Vec<PromId>,
) -> Result<Option<Value>, AllocError>
    ensures settled { IfOk result (λ o. option_map val_of o ≡ (settling (R.resolutions map.now) (val_of value.now)).settled) }
    ensures through { OnOk result (through.new.items ≡ through.old.items ++ (settling (R.resolutions map.now) (val_of value.now)).through) }
{
    let alloc = through.allocator().clone()?;
    let form = settle_at(alloc, map, value, MOST_DEPTH, MOST_WEIGHT, through)?;
    match form {
        Some(form) => Ok(Some(form.into_value(value)?)),
        None => Ok(None),
    }
}

/// The settled form of a value that may have this depth and weight.
#[cycle(settling)]
fn settle_at<R: Resolve>(
    alloc: Global,
    map: &R,
    value: &Value,
    depth: u32,
    left: u32,
    through: &mut Vec<PromId>,
) -> Result<Option<Form>, AllocError>
    requires shallow { depth ≤ MOST_DEPTH }
    requires light { left ≤ MOST_WEIGHT }
    ensures settled { IfOk result (λ o. option_map (formed (val_of value.now)) o ≡ (settling_at (R.resolutions map.now) depth left (val_of value.now)).settled) }
    ensures through { OnOk result (through.new.items ≡ through.old.items ++ (settling_at (R.resolutions map.now) depth left (val_of value.now)).through) }
{
    let end = end_of(map, value, through)?;
    let form = settle_end(alloc, map, &end, depth, left, through)?;
    Ok(by_end(value, end, form))
}

/// The settled form of an end that may have this depth and weight.
#[cycle(settling)]
fn settle_end<R: Resolve>(
    alloc: Global,
    map: &R,
    end: &Value,
    depth: u32,
    left: u32,
    through: &mut Vec<PromId>,
) -> Result<Option<Form>, AllocError>
    requires shallow { depth ≤ MOST_DEPTH }
    requires light { left ≤ MOST_WEIGHT }
    ensures settled { IfOk result (λ o. option_map (formed (val_of end.now)) o ≡ (end_settling (list_at (R.resolutions map.now) depth) left (val_of end.now) (items_in (val_of end.now))).settled) }
    ensures through { OnOk result (through.new.items ≡ through.old.items ++ (end_settling (list_at (R.resolutions map.now) depth) left (val_of end.now) (items_in (val_of end.now))).through) }
{
    if !has_promise(end) {
        return Ok(fitting(end, depth, left));
    }
    match end.as_items() {
        Some(items) => settle_list(alloc, map, items, depth, left, through),
        None => Ok(fitting(end, depth, left)),
    }
}

/// The settled form of a list that may have this depth and weight. Its own weight is taken first, then its items are
/// settled from the left, and each one's weight is taken from what is left for those behind it.
#[cycle(settling)]
fn settle_list<R: Resolve>(
    alloc: Global,
    map: &R,
    items: &[Value],
    depth: u32,
    left: u32,
    through: &mut Vec<PromId>,
) -> Result<Option<Form>, AllocError>
    requires shallow { depth ≤ MOST_DEPTH }
    requires light { left ≤ MOST_WEIGHT }
    ensures settled { IfOk result (λ o. option_map (formed (list (vals_of items.now))) o ≡ (list_at (R.resolutions map.now) depth left (vals_of items.now)).settled) }
    ensures through { OnOk result (through.new.items ≡ through.old.items ++ (list_at (R.resolutions map.now) depth left (vals_of items.now)).through) }
{
    if depth == 0 || left == 0 {
        return Ok(None);
    }
    let mut rest = left - 1;
    let mut row = None;
    for (index, item) in items.iter().enumerate() {
        match settle_at(alloc, map, item, depth - 1, rest, through)? {
            Some(form) => {
                rest -= item_weight(form.of(item));
                row = with_form(alloc, items.len(), &items[..index], item, form, row)?;
            }
            None => return Ok(None),
        }
    }
    match row {
        Some(row) => other_list(alloc, row),
        None => Ok(Some(Form::Itself)),
    }
}

/// One more settled item behind those before it. They are the list's own while each settles to itself, and stand in a
/// row of this room from the first one on that does not.
fn with_form(
    alloc: Global,
    room: usize,
    before: &[Value],
    item: &Value,
    form: Form,
    row: Option<Vec<Value>>,
) -> Result<Option<Vec<Value>>, AllocError>
    ensures { IfOk result (λ r. gathered (joined (vals_of before.now) (and_val (val_of item.now) no_vals)) (option_map (λ x. x.items) r) ≡ joined (gathered (vals_of before.now) (option_map (λ x. x.items) row)) (and_val (formed (val_of item.now) form) no_vals)) }
{
    let mut row = match (row, &form) {
        (Some(row), _) => row,
        (None, Form::Other(_)) => shared(alloc, room, before)?,
        (None, Form::Itself) => return Ok(None),
    };
    row.push(form.into_value(item)?)?;
    Ok(Some(row))
}

/// The same items, in a row of this room.
fn shared(alloc: Global, room: usize, items: &[Value]) -> Result<Vec<Value>, AllocError>
    ensures { IfOk result (λ r. vals_of r.items ≡ vals_of items.now) }
{
    let mut row = Vec::with_capacity(alloc, room)?;
    for item in items {
        row.push(item.share()?)?;
    }
    Ok(row)
}

/// The settled form of a list whose settled items are these; none, if they are too large.
fn other_list(alloc: Global, row: Vec<Value>) -> Result<Option<Form>, AllocError>
    ensures { IfOk result (λ o. (own : Val) → option_map (formed own) o ≡ value_given (list_reply (vals_of row.items))) }
{
    match list_within(alloc, row)? {
        Some(list) => Ok(Some(Form::Other(list))),
        None => Ok(None),
    }
}

/// The settled form of a value, by that of its end. What is no promise, and a promise that leads to no other value, is
/// its own end.
fn by_end(value: &Value, end: Value, form: Option<Form>) -> Option<Form>
    requires { promise_of (val_of value.now) ≡ promise_of (val_of end) → val_of value.now ≡ val_of end }
    ensures { option_map (formed (val_of value.now)) result ≡ option_map (formed (val_of end)) form }
{
    match form {
        Some(Form::Itself) if value.as_promise() != end.as_promise() => Some(Form::Other(end)),
        _ => form,
    }
}

/// The form of a value that may have this depth and weight, if it has no more: itself.
fn fitting(value: &Value, depth: u32, left: u32) -> Option<Form>
    ensures { option_map (formed (val_of value.now)) result ≡ fitted depth left (val_of value.now) }
{
    weight_left(value, depth, left)?;
    Some(Form::Itself)
}
