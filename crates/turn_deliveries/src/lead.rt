// Where deliveries lead.
ghost use Rattle.std.specs.Prelude.{◌≡◌, ◌↔◌, IfOk, IsTrue};
ghost use Rattle.turn_deliveries.specs.Outcomes.{found_of};

use eorder::carried::Carried;
use std::alloc::AllocError;
use std::sync::Arc;
use values::sameness::same;
use values::value::Value;

/// Where a delivery leads: the end of its target, and the fences that were published with that.
#[derive(Drop)]
pub struct Lead {
    pub end: Value,
    pub fences: Arc<Carried>,
}

impl Lead {
    /// The same, shared. Fails only for want of memory.
    pub fn share(&self) -> Result<Lead, AllocError>
        ensures { IfOk result (λ l. found_of l ≡ found_of self.now) }
    {
        Ok(Lead {
            end: self.end.share()?,
            fences: Arc::try_clone(&self.fences)?,
        })
    }

    /// Whether both lead to the same end, with the same fences.
    pub fn is_same(&self, other: &Lead) -> bool
        ensures { IsTrue result ↔ (found_of self.now ≡ found_of other.now) }
    {
        same(&self.end, &other.end) && self.fences.is_same(&other.fences)
    }
}
