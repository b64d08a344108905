// How evaluations stop: the reason is put into the turn, and the answer says only that there is one.
ghost use Rattle.std.specs.Prelude.{◌≡◌, IfOk, IsOkAnd};
ghost use Rattle.eval_rules.specs.Answered.{OnStop};
ghost use Rattle.eval_rules.specs.Outcomes.{thrown, abandoned};
ghost use Rattle.eval_rules.specs.View.{at, cause_of};

use crate::end::{Abandon, Halt, Stop};
use crate::working::Working;
use ids::text::Text;
use std::alloc::AllocError;

/// Throws a problem.
pub fn throw(w: &mut Working, problem: Text) -> Stop
    ensures stop { result ≡ Stop.Halted }
    ensures end { OnStop result w.new (λ h b. (h ≡ thrown problem) × (b ≡ at w.old)) }
{
    w.halt = Halt::Thrown(problem);
    Stop::Halted
}

/// Throws the problem that was made, if there was memory for it.
pub fn throw_made(w: &mut Working, made: Result<Text, AllocError>) -> Stop
    ensures stop { IfOk made (λ problem. result ≡ Stop.Halted) }
    ensures end { OnStop result w.new (λ h b. IsOkAnd made (λ problem. h ≡ thrown problem) × (b ≡ at w.old)) }
{
    match made {
        Ok(problem) => throw(w, problem),
        Err(AllocError) => Stop::Memory,
    }
}

/// Abandons the turn.
pub fn abandon(w: &mut Working, why: Abandon) -> Stop
    ensures stop { result ≡ Stop.Halted }
    ensures end { OnStop result w.new (λ h b. (h ≡ abandoned (cause_of why)) × (b ≡ at w.old)) }
{
    w.halt = Halt::Abandoned(why);
    Stop::Halted
}
