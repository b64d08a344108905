// What may be done in a world, with all that printing it takes memory for.

use book_agenda::agenda::Step;
use ids::names::VatNo;
use ids::text::Text;
use std::collections::BTreeMap;

/// What may be done in a world, and the names of its vats.
#[derive(Drop)]
pub struct Choice {
    pub(crate) vats: BTreeMap<VatNo, Text>,
    pub(crate) steps: Vec<Step>,
}
