// The journal: what is kept of settled entries, and the entries behind them.
ghost use Rattle.std.specs.Prelude.{◌≡◌, ◌+◌, ◌<◌, true, length, map, Some, slice_get};
ghost use Rattle.std.specs.Option.{option_map};
ghost use Rattle.ids.specs.declared.cells.CellKey.{CellKey};
ghost use Rattle.journal_links.specs.Places.{place_of, ArePlaces};
ghost use Rattle.journal.specs.Items.{Item, item_of, number_of};
ghost use Rattle.journal.specs.Lines.{writer_of, wrote_cell};
ghost use Rattle.journal.specs.Links.{AreFollowers, AreHeirs, names_of, open_at};
ghost use Rattle.journal.specs.SettledView.{items_in};

use crate::entry::{Entry, writer_among};
use crate::settled::Settled;
use ids::cells::CellKey;
use ids::names::EventName;
use journal_links::followers::Followers;
use journal_links::heirs::Heirs;
use journal_links::places::Places;

/// A journal, the oldest entry first: settled entries, which can no longer be taken back, and those behind them. It knows where the
/// entry of each event stands, who followed it, and who wrote over what it left.
#[derive(Clone, Copy)]
pub struct Journal<'a> {
    pub settled: &'a [Settled],
    pub entries: &'a [Entry],
    pub places: &'a Places,
    pub followers: &'a Followers,
    pub heirs: &'a Heirs,
    pub ghost placed: { ∥ ArePlaces places.now (names_of (items_in settled.now entries.now)) ∥₁ },
    pub ghost followed: { ∥ AreFollowers followers.now (map item_of entries.now) ∥₁ },
    pub ghost inherited: { ∥ AreHeirs heirs.now (items_in settled.now entries.now) ∥₁ },
}

impl<'a> Journal<'a> {
    ghost use Rattle.journal.specs.Journals.{items_of, settled_item};

    /// How many entries there are.
    pub fn len(self) -> usize
        ensures { result ≡ length (items_of self.entry) }
    {
        self.settled.len() + self.entries.len()
    }

    /// Where the entry of an event stands, counted from the oldest, if there is one.
    pub fn place_of(self, event: EventName) -> Option<usize>
        ensures { result ≡ place_of self.entry.places.now event }
    {
        self.places.place_of(event)
    }

    /// The entry of an event, if it has one that is not settled.
    pub fn open_entry(self, event: EventName) -> Option<&'a Entry>
        ensures { option_map (λ e. item_of e.now) result ≡ open_at (map item_of self.entry.entries.now) (length self.entry.settled.now) (place_of self.entry.places.now event) }
    {
        match self.places.place_of(event) {
            Some(place) if place >= self.settled.len() => {
                self.entries.get(place - self.settled.len())
            }
            _ => None,
        }
    }

    /// The name of the event at a place, counted from the oldest.
    pub fn name_at(self, place: usize) -> EventName
        requires { place < length (items_of self) }
        ensures { slice_get (map (λ i. i.event.name) (items_of self.entry)) place ≡ Some result }
    {
        if place < self.settled.len() {
            return self.settled[place].name;
        }
        self.entries[place - self.settled.len()].event.name
    }

    /// The last writer of a cell when the event at a place was made, which wrote the cell if it is settled.
    pub fn writer_at(self, place: usize, key: &CellKey) -> Option<EventName>
        requires there { place < length (items_of self) }
        requires wrote { (i : Item) → slice_get (map settled_item self.settled.now) place ≡ Some i → wrote_cell i key.now ≡ true }
        ensures { (i : Item) → slice_get (items_of self.entry) place ≡ Some i → number_of result ≡ writer_of i key.now }
    {
        if place < self.settled.len() {
            return writer_among(&self.settled[place].written, key);
        }
        writer_among(&self.entries[place - self.settled.len()].touched, key)
    }
}
