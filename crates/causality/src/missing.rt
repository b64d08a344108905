// The first cause that a set misses for a redo, by the places that a journal keeps.
ghost use Rattle.std.specs.Prelude.{◌≡◌, ◌<◌, map, reverse, length, is_some};
ghost use Rattle.std.specs.Option.{option_and_then};
ghost use Rattle.journal.specs.Items.{item_of, last_of};
ghost use Rattle.journal.specs.Journals.{items_of};
ghost use Rattle.causality.specs.Causes.{passes_at};
ghost use Rattle.causality.specs.Journals.{IsJournal};
ghost use Rattle.causality.specs.Missing as model;
ghost use Rattle.causality.specs.Placed.{place_if, least_place};
ghost use Rattle.causality.specs.Walks.{stays};

use crate::names::NameSet;
use crate::parting::open_at;
use crate::selection::{Gap, lesser_place};
use ids::names::EventName;
use journal::entry::{Entry, Mark, Touched};
use journal::journal::Journal;

/// Whether an entry is live, or of the set.
pub(crate) fn stays(entry: &Entry, names: &NameSet) -> bool
    ensures { result ≡ stays names.now (item_of entry.now) }
{
    entry.mark == Mark::Live || names.has(entry.event.name)
}

/// Whether the entry at a place is live or of the set. What is settled is live.
fn stays_at(journal: Journal, names: &NameSet, place: usize) -> bool
    requires { place < length (items_of journal) }
    ensures { result ≡ passes_at (stays names.now) (items_of journal.entry) place }
{
    if place < journal.settled.len() {
        return true;
    }
    stays(&journal.entries[place - journal.settled.len()], names)
}

/// Where a writer stands, if it is neither live nor of the set.
fn absent_place(journal: Journal, names: &NameSet, writer: Option<EventName>) -> Option<usize>
    ensures { result ≡ model.absent_place journal.entry.places.now names.now (items_of journal.entry) writer }
{
    let name = writer?;
    let place = journal.place_of(name)?;
    if stays_at(journal, names, place) {
        None
    } else {
        Some(place)
    }
}

/// The oldest place that is met on the way back along the last writers of a touched cell, until one is live or of the set.
fn met_back(journal: Journal, names: &NameSet, cell: &Touched) -> Option<usize>
    requires { IsJournal (items_of journal) }
    ensures { result ≡ model.met_back (stays names.now) (last_of cell.now).0 (last_of cell.now).1 (reverse (items_of journal.entry)) }
{
    let mut oldest = None;
    let mut place = absent_place(journal, names, cell.writer);
    while let Some(here) = place {
        oldest = place;
        place = absent_place(journal, names, journal.writer_at(here, &cell.key));
    }
    oldest
}

/// The oldest place that is met so from the cells that an entry touched.
fn missed_place(journal: Journal, names: &NameSet, entry: &Entry) -> Option<usize>
    requires { IsJournal (items_of journal) }
    ensures { result ≡ model.missed_place names.now (items_of journal.entry) (item_of entry.now) }
{
    let mut oldest = None;
    for cell in &entry.touched {
        oldest = lesser_place(oldest, met_back(journal, names, cell));
    }
    oldest
}

/// The event at a place, if it is not settled, and the first that it misses.
fn missing_at(journal: Journal, names: &NameSet, place: usize) -> Option<Gap>
    requires { IsJournal (items_of journal) }
    ensures { result ≡ model.missing_at names.now (map item_of journal.entry.entries.now) (length journal.entry.settled.now) (items_of journal.entry) place }
{
    let entry = open_at(journal, place)?;
    let missed = missed_place(journal, names, entry)?;
    Some(Gap {
        event: entry.event.name,
        other: journal.name_at(missed),
    })
}

/// Where an event stands, if it misses one.
fn missing_place(journal: Journal, names: &NameSet, event: EventName) -> Option<usize>
    requires { IsJournal (items_of journal) }
    ensures { result ≡ place_if journal.entry.places.now (λ p. is_some (model.missing_at names.now (map item_of journal.entry.entries.now) (length journal.entry.settled.now) (items_of journal.entry) p)) event }
{
    let place = journal.place_of(event)?;
    missing_at(journal, names, place).is_some().then_some(place)
}

/// The first of a set that misses an event, and the first event that it misses.
pub(crate) fn first_missing(journal: Journal, names: &NameSet) -> Option<Gap>
    requires { IsJournal (items_of journal) }
    ensures { result ≡ option_and_then (model.missing_at names.now (map item_of journal.entry.entries.now) (length journal.entry.settled.now) (items_of journal.entry)) (least_place journal.entry.places.now (λ p. is_some (model.missing_at names.now (map item_of journal.entry.entries.now) (length journal.entry.settled.now) (items_of journal.entry) p)) names.now) }
{
    let given = names.given();
    let mut first = None;
    for name in given {
        first = lesser_place(first, missing_place(journal, names, *name));
    }
    let place = first?;
    missing_at(journal, names, place)
}
