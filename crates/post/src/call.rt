// Calls that are sent.
ghost use Rattle.std.specs.Prelude.{◌≡◌, ◌↔◌, IfOk, IsTrue};
ghost use Rattle.values.specs.View.{val_of, vals_of};
ghost use Rattle.post.specs.DeliveryView.{call_of};

use eorder::carried::Carried;
use std::alloc::{AllocError, Global};
use std::sync::Arc;
use values::sameness::same;
use values::value::Value;
use values::verb::Verb;

/// A call that was sent. Sharing it costs nothing that grows with it.
#[derive(Drop)]
pub struct Call {
    /// What it was sent on: the settled form of the receiver.
    pub target: Value,
    pub verb: Verb,
    /// The settled forms of its arguments.
    pub arguments: Arc<Vec<Value>>,
    /// The fences that travel with the references in the arguments.
    pub fences: Arc<Carried>,
}

impl Call {
    /// A call of a target, with these fences of the references in its arguments. Fails only for want of memory.
    pub fn new(
        alloc: Global,
        target: Value,
        verb: Verb,
        arguments: Vec<Value>,
        fences: Carried,
    ) -> Result<Call, AllocError>
        ensures { IfOk result (λ c. call_of c ≡ record { target = val_of target; verb = verb; arguments = vals_of arguments.items; fences = fences }) }
    {
        Ok(Call {
            target,
            verb,
            arguments: Arc::new(alloc, arguments)?,
            fences: Arc::new(alloc, fences)?,
        })
    }

    /// The same call, shared. Fails only for want of memory.
    pub fn share(&self) -> Result<Call, AllocError>
        ensures { IfOk result (λ c. call_of c ≡ call_of self.now) }
    {
        Ok(Call {
            target: self.target.share()?,
            verb: self.verb.share()?,
            arguments: Arc::try_clone(&self.arguments)?,
            fences: Arc::try_clone(&self.fences)?,
        })
    }

    /// Whether two calls are the same: target, verb, arguments, and the fences that travel with them.
    pub fn is_same(&self, other: &Call) -> bool
        ensures { IsTrue result ↔ (call_of self.now ≡ call_of other.now) }
    {
        same_value(&self.target, &other.target)
            && self.verb.text() == other.verb.text()
            && same_arguments(&self.arguments, &other.arguments)
            && self.fences.is_same(&other.fences)
    }
}

pub(crate) fn same_value(a: &Value, b: &Value) -> bool
    ensures { IsTrue result ↔ (val_of a.now ≡ val_of b.now) }
{
    same(a, b)
}

fn same_arguments(xs: &Arc<Vec<Value>>, ys: &Arc<Vec<Value>>) -> bool
    ensures { IsTrue result ↔ (vals_of xs.now.value.items ≡ vals_of ys.now.value.items) }
{
    if xs.len() != ys.len() {
        return false;
    }
    for (x, y) in xs.iter().zip(ys.iter()) {
        if !same(x, y) {
            return false;
        }
    }
    true
}
