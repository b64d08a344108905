// Where a turn stands.
ghost use Rattle.std.specs.Prelude.{◌≡◌};
ghost use Rattle.eval_rules.specs.View.{at};

use eval_rules::working::Working;
use ids::names::VatNo;

/// The vat of the turn.
#[inline(always)]
pub fn here(w: &Working) -> VatNo
    ensures { result ≡ (at w.now).vat }
{
    w.draft.ejector(0).vat
}
