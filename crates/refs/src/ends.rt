// Where the walk of a value ends.
ghost use Rattle.std.specs.Prelude.{◌≡◌, ◌++◌, IfOk, IfSome, OnOk, OnSome, length, take};
ghost use Rattle.refs.specs.Walks.{came, followed, walked};
ghost use Rattle.values.specs.Data.{promise as as_promise};
ghost use Rattle.values.specs.View.{val_of};

use crate::resolve::Resolve;
use ids::names::PromId;
use std::alloc::AllocError;
use values::value::Value;

/// The end of a value, shared: while it is a promise that was resolved, what that was resolved to. A value whose walk
/// goes in a ring has no end, and is answered itself. Each promise of the walk is added to `through`, in order, the last
/// and unresolved one included. A value that is no promise takes no memory.
pub fn end_of<R: Resolve>(
    map: &R,
    value: &Value,
    through: &mut Vec<PromId>,
) -> Result<Value, AllocError>
    ensures end { IfOk result (λ e. val_of e ≡ followed (R.resolutions map.now) (val_of value.now)) }
    ensures through { OnOk result (through.new.items ≡ through.old.items ++ walked (R.resolutions map.now) (val_of value.now)) }
{
    match value.as_promise() {
        Some(promise) => follow(map, promise, through),
        None => value.share(),
    }
}

/// Whether a promise is among some.
fn is_among(promise: PromId, seen: &[PromId]) -> bool
    ensures { result ≡ came promise seen.now }
{
    seen.contains(&promise)
}

/// The end of a promise.
fn follow<R: Resolve>(
    map: &R,
    first: PromId,
    through: &mut Vec<PromId>,
) -> Result<Value, AllocError>
    ensures end { IfOk result (λ e. val_of e ≡ followed (R.resolutions map.now) (as_promise first)) }
    ensures through { OnOk result (through.new.items ≡ through.old.items ++ walked (R.resolutions map.now) (as_promise first)) }
{
    let start = through.len();
    match hurry(map, first, through)? {
        Some(end) => Ok(end),
        None => {
            through.truncate(start);
            watch(map, first, through)
        }
    }
}

/// The end of a promise, in the time of its walk. Now and then a promise is marked; where the walk comes back to the
/// last one that was, it goes in a ring, and is given up.
fn hurry<R: Resolve>(
    map: &R,
    first: PromId,
    through: &mut Vec<PromId>,
) -> Result<Option<Value>, AllocError>
    ensures end { IfOk result (λ o. IfSome o (λ e. val_of e ≡ followed (R.resolutions map.now) (as_promise first))) }
    ensures through { IfOk result (λ o. OnSome o (through.new.items ≡ through.old.items ++ walked (R.resolutions map.now) (as_promise first))) }
    ensures kept { OnOk result (take (length through.old.items) through.new.items ≡ through.old.items) }
{
    let mut promise = first;
    let mut mark = first;
    // No list of promises becomes so long, so that the loop is left before.
    for count in 0..u64::MAX {
        through.push(promise)?;
        match map.resolution(promise) {
            Some(value) => match value.as_promise() {
                Some(next) => promise = next,
                None => return Ok(Some(value.share()?)),
            },
            None => return Ok(Some(Value::Promise(promise))),
        }
        if promise == mark {
            return Ok(None);
        }
        // Twice as far each time, so that a ring is found in the time of its length.
        if count & (count + 1) == 0 {
            mark = promise;
        }
    }
    unreachable!()
}

/// The end of a promise, where each promise of the walk is looked up among those before it.
fn watch<R: Resolve>(map: &R, first: PromId, through: &mut Vec<PromId>) -> Result<Value, AllocError>
    ensures end { IfOk result (λ e. val_of e ≡ followed (R.resolutions map.now) (as_promise first)) }
    ensures through { OnOk result (through.new.items ≡ through.old.items ++ walked (R.resolutions map.now) (as_promise first)) }
{
    let start = through.len();
    let mut promise = first;
    // No list of promises becomes so long, so that the loop is left before.
    for _ in 0..u64::MAX {
        if is_among(promise, through.as_slice().split_at(start).1) {
            return Ok(Value::Promise(first));
        }
        through.push(promise)?;
        match map.resolution(promise) {
            Some(value) => match value.as_promise() {
                Some(next) => promise = next,
                None => return value.share(),
            },
            None => return Ok(Value::Promise(promise)),
        }
    }
    unreachable!()
}
