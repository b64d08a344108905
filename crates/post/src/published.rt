// What promises are published as.
ghost use Rattle.std.specs.Prelude.{◌≡◌, ◌↔◌, IfOk, IsTrue};
ghost use Rattle.values.specs.View.{val_of};
ghost use Rattle.post.specs.MessageView.{published_of};

use crate::call::same_value;
use eorder::carried::Carried;
use std::alloc::{AllocError, Global};
use std::sync::Arc;
use values::value::Value;

/// What a promise was published as: a value, and the fences that travel with the references in it. Sharing it costs nothing that
/// grows with it.
pub struct Published {
    pub value: Value,
    pub fences: Arc<Carried>,
}

// By hand, so that what drops one elsewhere calls this and is not proved anew for all that it holds.
impl Drop for Published {
    fn drop(self) {
        let Published {
            value: _,
            fences: _,
        } = self;
    }
}

impl Published {
    /// This value, with the fences of the references in it. Fails only for want of memory.
    pub fn new(alloc: Global, value: Value, fences: Carried) -> Result<Published, AllocError>
        ensures { IfOk result (λ p. published_of p ≡ record { value = val_of value; fences = fences }) }
    {
        Ok(Published {
            value,
            fences: Arc::new(alloc, fences)?,
        })
    }

    /// Whether the same was published, with the same fences.
    pub fn is_same(&self, other: &Published) -> bool
        ensures { IsTrue result ↔ (published_of self.now ≡ published_of other.now) }
    {
        same_value(&self.value, &other.value) && self.fences.is_same(&other.fences)
    }

    /// The same, shared. Fails only for want of memory.
    pub fn share(&self) -> Result<Published, AllocError>
        ensures { IfOk result (λ p. published_of p ≡ published_of self.now) }
    {
        Ok(Published {
            value: self.value.share()?,
            fences: Arc::try_clone(&self.fences)?,
        })
    }
}

impl Clone for Published {
    ghost is_clone = { λ a b. published_of b ≡ published_of a };

    fn clone(&self) -> Result<Published, AllocError> {
        self.share()
    }
}
