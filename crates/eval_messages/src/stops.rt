// Why nothing is made.
ghost use Rattle.std.specs.Prelude.{◌≡◌};
ghost use Rattle.eval_rules.specs.Answered.{OnStop};
ghost use Rattle.eval_rules.specs.Doings.{refusal_end};
ghost use Rattle.eval_rules.specs.Outcomes.{halt};
ghost use Rattle.eval_rules.specs.View.{at};
ghost use Rattle.sends.specs.View.{refusal_of};

use eval_rules::end::{Abandon, Stop};
use eval_rules::halting::{abandon, throw};
use eval_rules::working::Working;
use sends::refusing::Refusal;

/// Stops where nothing is made: with a problem, or by abandoning the turn.
pub(crate) fn refused(w: &mut Working, why: Refusal) -> Stop
    ensures { OnStop result w.new (λ h b. (halt h ≡ refusal_end (refusal_of why)) × (b ≡ at w.old)) }
{
    match why {
        Refusal::Problem(problem) => throw(w, problem),
        Refusal::TurnTooLarge => abandon(w, Abandon::Size),
    }
}
