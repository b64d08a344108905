// A journal, with all that a listing of it takes memory for.
ghost use Rattle.std.specs.Prelude.{◌<◌, ◌^◌};

use ids::names::{EventName, VatNo};
use ids::text::Text;
use journal::entry::Entry;
use std::collections::BTreeMap;

/// An entry, and the events that are its causes.
#[derive(Drop)]
pub(crate) struct Row<'j> {
    pub(crate) entry: &'j Entry,
    pub(crate) causes: Vec<EventName>,
}

/// A journal, with all that a listing of it takes memory for.
#[derive(Drop)]
pub struct Listing<'j> {
    /// How many entries are settled.
    pub(crate) settled: usize,
    /// The names of the vats that were born.
    pub(crate) vats: BTreeMap<VatNo, Text>,
    /// The entries that are not settled.
    pub(crate) rows: Vec<Row<'j>>,
    // Positions can be counted.
    ghost few: { settled < 2 ^ 63 },
}

/// An entry that is not settled, with all that its line takes memory for.
#[derive(Drop)]
pub struct ListedEntry<'j> {
    /// Where it stands, counted from 1.
    pub(crate) position: usize,
    /// The names of the vats that were born.
    pub(crate) vats: BTreeMap<VatNo, Text>,
    pub(crate) row: Row<'j>,
}
