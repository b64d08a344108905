// What a turn leaves.
ghost use Rattle.std.specs.Prelude.{◌≡◌, IfOk};
ghost use Rattle.turn_deliveries.specs.Outcomes.{told_of};

use eval_rules::end::Abandon;
use eval_rules::outbox::Outbox;
use heap::reach::Footprint;
use ids::text::Text;
use std::alloc::AllocError;
use values::value::Value;

/// How a turn ended.
#[derive(Drop)]
pub enum TurnEnd {
    /// Its value, settled.
    Value(Value),
    /// A problem that nothing caught.
    Problem(Text),
    Abandoned(Abandon),
}

/// What a turn leaves.
#[derive(Drop)]
pub struct Outcome {
    /// What it found in each cell of the vat that it touched, and what it wrote there.
    pub footprint: Footprint,
    pub ended: TurnEnd,
    /// The steps left.
    pub steps: u32,
    /// The messages that it made, what promises it published, its own result among them, and notes for the log. An abandoned turn
    /// publishes its result alone.
    pub out: Outbox,
}

impl TurnEnd {
    /// The same end, whose value or problem is shared. Fails only for want of memory.
    pub fn share(&self) -> Result<TurnEnd, AllocError>
        ensures { IfOk result (λ e. told_of e ≡ told_of self.now) }
    {
        match self {
            TurnEnd::Value(value) => Ok(TurnEnd::Value(value.share()?)),
            TurnEnd::Problem(problem) => Ok(TurnEnd::Problem(problem.share()?)),
            TurnEnd::Abandoned(why) => Ok(TurnEnd::Abandoned(*why)),
        }
    }
}
