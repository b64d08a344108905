// The earlier vats that a vat's script knows.
ghost use Rattle.std.specs.Prelude.{◌≡◌, ◌↔◌, IsTrue};

use ids::names::PromId;
use ids::text::Text;
use std::sync::Arc;

/// An earlier vat: its name in the script, and the promise for the result of its opening.
#[derive(PartialEq, Eq, Drop)]
pub struct Earlier {
    pub name: Text,
    pub opening: PromId,
}

/// Whether earlier vats are the same, in the same order.
pub(crate) fn same_earlier(xs: &Arc<Vec<Earlier>>, ys: &Arc<Vec<Earlier>>) -> bool
    ensures { IsTrue result ↔ (xs.now.value.items ≡ ys.now.value.items) }
{
    xs.as_slice() == ys.as_slice()
}
