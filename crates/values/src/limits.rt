// How large a value may be.
ghost use Rattle.std.specs.Prelude.{◌≡◌, ◌+◌, ◌-◌, ◌≤◌, SomeIff};
ghost use Rattle.values.specs.Limits.{weight as weight_of, weights, list_depth, deepest, within_limits as within};
ghost use Rattle.values.specs.View.{val_of, vals_of};

use crate::value::{Items, Value};

/// The greatest weight of a value.
pub const MOST_WEIGHT: u32 = 65_536;

/// How deep lists may stand in a value.
pub const MOST_DEPTH: u32 = 64;

/// The weight that is left for the items of a list.
pub(crate) const MOST_ITEMS_WEIGHT: u32 = MOST_WEIGHT - 1;

/// How deep lists may stand in the items of a list.
pub(crate) const MOST_ITEMS_DEPTH: u32 = MOST_DEPTH - 1;

/// Whether a value is not too large.
pub fn is_within_limits(value: &Value) -> bool
    ensures { result ≡ within (val_of value.now) }
{
    weight_left(value, MOST_DEPTH, MOST_WEIGHT).is_some()
}

/// What a value leaves of a weight; none, if it weighs more or its lists stand deeper.
#[inline]
pub fn weight_left(value: &Value, depth: u32, weight: u32) -> Option<u32>
    ensures { SomeIff result ((weight_of (val_of value.now) ≤ weight) × (list_depth (val_of value.now) ≤ depth)) (weight - weight_of (val_of value.now)) }
{
    let left = weight.checked_sub(1)?;
    match value {
        Value::Null | Value::Bool(_) | Value::Int(_) => Some(left),
        Value::Object(_) | Value::Ejector(_) | Value::Promise(_) => Some(left),
        Value::Text(text) | Value::Broken(text) => left.checked_sub(u32::try_from(
            text.as_str().len(),
        ).ok()?),
        Value::List(items) => list_left(items, depth.checked_sub(1)?, left),
    }
}

/// What the items of a list leave of a weight; none, if they weigh more or their lists stand deeper.
fn list_left(items: &Items, depth: u32, weight: u32) -> Option<u32>
    ensures { SomeIff result ((weights items.now ≤ weight) × (deepest items.now ≤ depth)) (weight - weights items.now) }
{
    if items.depth() > depth {
        return None;
    }
    weight.checked_sub(items.weight())
}

/// What items leave of a weight; none, if they weigh more or their lists stand deeper.
pub(crate) fn items_left(items: &[Value], depth: u32, weight: u32) -> Option<u32>
    ensures { SomeIff result ((weights (vals_of items.now) ≤ weight) × (deepest (vals_of items.now) ≤ depth)) (weight - weights (vals_of items.now)) }
{
    let mut left = weight;
    for item in items {
        left = weight_left(item, depth, left)?;
    }
    Some(left)
}

/// What a value weighs that stands in a list.
pub fn item_weight(value: &Value) -> u32
    requires { weight_of (val_of value.now) ≤ MOST_ITEMS_WEIGHT }
    ensures { result ≡ weight_of (val_of value.now) }
{
    match value {
        Value::Null | Value::Bool(_) | Value::Int(_) => 1,
        Value::Object(_) | Value::Ejector(_) | Value::Promise(_) => 1,
        Value::Text(text) | Value::Broken(text) => text.as_str().len() as u32 + 1,
        Value::List(items) => items.weight() + 1,
    }
}

/// How deep lists stand in a value.
pub(crate) fn item_depth(value: &Value) -> u32
    ensures depth { result ≡ list_depth (val_of value.now) }
{
    match value {
        Value::List(items) => items.depth() + 1,
        Value::Null | Value::Bool(_) | Value::Int(_) | Value::Text(_) => 0,
        Value::Object(_) | Value::Ejector(_) | Value::Promise(_) | Value::Broken(_) => 0,
    }
}

/// How deep lists stand in items.
pub(crate) fn deepest_of(items: &[Value]) -> u32
    ensures { result ≡ deepest (vals_of items.now) }
{
    let mut depth = 0;
    for item in items {
        depth = depth.max(item_depth(item));
    }
    depth
}
