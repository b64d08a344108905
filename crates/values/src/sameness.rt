// When two values are the same.
ghost use Rattle.std.specs.Prelude.{◌≡◌, IfOk};
ghost use Rattle.values.specs.Promises.{same_reply as reply_on};
ghost use Rattle.values.specs.Same.{same_as, same_items as same_vals};
ghost use Rattle.values.specs.View.{val_of, vals_of, reply_of};

use crate::promises::has_promise;
use crate::replies::{thrown, truth};
use crate::value::{Answer, Value};
use std::alloc::{AllocError, Global};

/// What `==` gives on two settled forms: whether they are the same. Where a promise stands in one of them, that is not
/// known yet.
pub fn same_reply(alloc: Global, a: &Value, b: &Value) -> Result<Answer, AllocError>
    ensures { IfOk result (λ r. reply_of r ≡ reply_on (val_of a.now) (val_of b.now)) }
{
    if has_promise(a) || has_promise(b) {
        return thrown(alloc, "not settled");
    }
    Ok(truth(same(a, b)))
}

/// Whether two values are the same: data by content, lists item by item, references by name, broken
/// values by problem.
#[cycle(sameness)]
pub fn same(a: &Value, b: &Value) -> bool
    ensures { result ≡ same_as (val_of a.now) (val_of b.now) }
{
    match (a, b) {
        (Value::Null, Value::Null) => true,
        (Value::Bool(x), Value::Bool(y)) => x == y,
        (Value::Int(x), Value::Int(y)) => x == y,
        (Value::Text(x), Value::Text(y)) => x == y,
        (Value::List(xs), Value::List(ys)) => same_items(xs.as_slice(), ys.as_slice()),
        (Value::Object(x), Value::Object(y)) => x == y,
        (Value::Ejector(x), Value::Ejector(y)) => x == y,
        (Value::Promise(x), Value::Promise(y)) => x == y,
        (Value::Broken(x), Value::Broken(y)) => x == y,
        _ => false,
    }
}

#[cycle(sameness)]
fn same_items(xs: &[Value], ys: &[Value]) -> bool
    ensures { result ≡ same_vals (vals_of xs.now) (vals_of ys.now) }
{
    if xs.len() != ys.len() {
        return false;
    }
    for (x, y) in xs.iter().zip(ys) {
        if !same(x, y) {
            return false;
        }
    }
    true
}
