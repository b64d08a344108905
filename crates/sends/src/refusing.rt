// What is made, or why nothing is.
ghost use Rattle.std.specs.Prelude.{◌≡◌, IfOk};
ghost use Rattle.sends.specs.Making.{problem as as_problem};
ghost use Rattle.sends.specs.View.{refusal_of};

use ids::text::Text;
use std::alloc::{AllocError, Global};

/// Why nothing is made: a problem is thrown, or the turn is abandoned, since it would make too much.
#[derive(Drop)]
pub enum Refusal {
    Problem(Text),
    TurnTooLarge,
}

/// What is made, or why nothing is.
#[derive(Drop)]
pub enum Making<R> {
    Refused(Refusal),
    Makes(R),
}

/// A problem is thrown.
pub(crate) fn refuse(alloc: Global, problem: &str) -> Result<Refusal, AllocError>
    ensures { IfOk result (λ w. refusal_of w ≡ as_problem problem.now) }
{
    Ok(Refusal::Problem(Text::new(alloc, problem)?))
}
