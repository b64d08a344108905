// Promises in values.
ghost use Rattle.std.specs.Prelude.{◌≡◌};
ghost use Rattle.values.specs.Promises.{promise_in, promises_in};
ghost use Rattle.values.specs.View.{val_of, vals_of};

use crate::value::Value;

/// Whether a promise stands in a value, at any depth. Lists keep it, so that nothing is walked.
#[inline]
pub fn has_promise(value: &Value) -> bool
    ensures { result ≡ promise_in (val_of value.now) }
{
    match value {
        Value::Promise(_) => true,
        Value::List(items) => items.promised(),
        Value::Null | Value::Bool(_) | Value::Int(_) | Value::Text(_) => false,
        Value::Object(_) | Value::Ejector(_) | Value::Broken(_) => false,
    }
}

/// Whether a promise stands in items.
pub(crate) fn have_promises(items: &[Value]) -> bool
    ensures { result ≡ promises_in (vals_of items.now) }
{
    for item in items {
        if has_promise(item) {
            return true;
        }
    }
    false
}
