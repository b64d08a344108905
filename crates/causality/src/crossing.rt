// The first crossing of a set that is to be redone, by the places and the lists that a journal keeps.
ghost use Rattle.std.specs.Prelude.{◌≡◌, ◌&&◌, ◌<◌, cond, map, length, None, Some, is_some};
ghost use Rattle.std.specs.List.{fold};
ghost use Rattle.std.specs.Option.{option_and_then};
ghost use Rattle.journal_links.specs.Followers.{followers_of};
ghost use Rattle.journal.specs.Items.{item_of, last_of};
ghost use Rattle.journal.specs.Journals.{items_of, settled_item};
ghost use Rattle.journal.specs.Links.{lister as lister_of, names_of};
ghost use Rattle.causality.specs.Causes.{passes_at};
ghost use Rattle.causality.specs.Crossing as model;
ghost use Rattle.causality.specs.Placed.{kept_if, lesser_place as lesser, place_if, least_place};
ghost use Rattle.causality.specs.Walks.{stays as stays_in};

use crate::missing::stays;
use crate::names::NameSet;
use crate::parting::open_at;
use crate::selection::{Gap, lesser_place};
use crate::versions::{found_so, settled_wrote_over, wrote, wrote_over};
use ids::names::EventName;
use journal::entry::{Entry, Touched};
use journal::journal::Journal;
use journal::linking::lister;
use journal::settled::Settled;

/// Whether an entry is in the way of another: it is live or of the set, it or the other is of the set, and it wrote a cell that had this
/// last writer.
fn hinders(entry: &Entry, names: &NameSet, cell: &Touched, other: &Entry) -> bool
    ensures { result ≡ model.hinders names.now (item_of entry.now) (last_of cell.now) (item_of other.now) }
{
    stays(other, names)
        && (names.has(entry.event.name) || names.has(other.event.name))
        && wrote_over(other, cell)
}

/// Whether a settled entry, which is live, is so.
fn settled_hinders(settled: &Settled, names: &NameSet, entry: &Entry, cell: &Touched) -> bool
    ensures { result ≡ model.hinders names.now (item_of entry.now) (last_of cell.now) (settled_item settled.now) }
{
    (names.has(entry.event.name) || names.has(settled.name)) && settled_wrote_over(settled, cell)
}

/// Whether the entry at a place is so.
fn hinders_there(
    journal: Journal,
    names: &NameSet,
    entry: &Entry,
    cell: &Touched,
    there: usize,
) -> bool
    requires { there < length (items_of journal) }
    ensures { result ≡ passes_at (model.hinders names.now (item_of entry.now) (last_of cell.now)) (items_of journal.entry) there }
{
    if there < journal.settled.len() {
        return settled_hinders(&journal.settled[there], names, entry, cell);
    }
    hinders(
        entry,
        names,
        cell,
        &journal.entries[there - journal.settled.len()],
    )
}

/// Whether the entry at a place is so, and stands before this one.
fn hinders_at(
    journal: Journal,
    names: &NameSet,
    place: usize,
    entry: &Entry,
    cell: &Touched,
    there: usize,
) -> bool
    requires { there < length (items_of journal) }
    ensures { result ≡ model.hinders_at names.now (items_of journal.entry) place (item_of entry.now) (last_of cell.now) there }
{
    there < place && hinders_there(journal, names, entry, cell, there)
}

/// Where an event stands, if it is so.
fn hinder_place(
    journal: Journal,
    names: &NameSet,
    place: usize,
    entry: &Entry,
    cell: &Touched,
    event: EventName,
) -> Option<usize>
    ensures { result ≡ place_if journal.entry.places.now (model.hinders_at names.now (items_of journal.entry) place (item_of entry.now) (last_of cell.now)) event }
{
    let there = journal.place_of(event)?;
    hinders_at(journal, names, place, entry, cell, there).then_some(there)
}

/// The first place of one that is so, among those that wrote over this version of a cell.
fn heir_place(
    journal: Journal,
    names: &NameSet,
    place: usize,
    entry: &Entry,
    cell: &Touched,
) -> Option<usize>
    ensures { result ≡ model.heir_place journal.entry.places.now journal.entry.heirs.now names.now (items_of journal.entry) place (item_of entry.now) (last_of cell.now) }
{
    let heirs = journal.heirs.of(lister(&cell.key, cell.writer));
    let mut first = None;
    for heir in heirs {
        first = lesser_place(
            first,
            hinder_place(journal, names, place, entry, cell, *heir),
        );
    }
    first
}

/// The first place of one that is in the way of an entry.
fn crossed_place(journal: Journal, names: &NameSet, place: usize, entry: &Entry) -> Option<usize>
    ensures { result ≡ model.crossed_place journal.entry.places.now journal.entry.heirs.now names.now (items_of journal.entry) place (item_of entry.now) }
{
    let mut first = None;
    for cell in &entry.touched {
        first = lesser_place(first, heir_place(journal, names, place, entry, cell));
    }
    first
}

/// The event at a place, if it is not settled, and the first that is in its way.
fn crossing_at(journal: Journal, names: &NameSet, place: usize) -> Option<Gap>
    ensures { result ≡ model.crossing_at journal.entry.places.now journal.entry.heirs.now names.now (map item_of journal.entry.entries.now) (length journal.entry.settled.now) (items_of journal.entry) place }
{
    let entry = open_at(journal, place)?;
    let crossed = crossed_place(journal, names, place, entry)?;
    Some(Gap {
        event: entry.event.name,
        other: journal.name_at(crossed),
    })
}

/// Whether an entry is live or of the set, and found a cell with this last writer.
fn is_finder(entry: &Entry, names: &NameSet, cell: &Touched) -> bool
    ensures { result ≡ (stays_in names.now (item_of entry.now) && model.found_so (last_of cell.now) (item_of entry.now)) }
{
    stays(entry, names) && found_so(entry, cell)
}

/// Where an event stands, if it is so, not settled, and stands behind a place.
fn behind_place(
    journal: Journal,
    names: &NameSet,
    place: usize,
    cell: &Touched,
    event: EventName,
) -> Option<usize>
    ensures { result ≡ place_if journal.entry.places.now (model.finds_at names.now (map item_of journal.entry.entries.now) (length journal.entry.settled.now) place (last_of cell.now)) event }
{
    let there = journal.place_of(event)?;
    if there <= place {
        return None;
    }
    let entry = journal.open_entry(event)?;
    is_finder(entry, names, cell).then_some(there)
}

/// The first place of one of these events that is so.
fn listed_place(
    journal: Journal,
    names: &NameSet,
    place: usize,
    cell: &Touched,
    events: &[EventName],
) -> Option<usize>
    ensures { result ≡ least_place journal.entry.places.now (model.finds_at names.now (map item_of journal.entry.entries.now) (length journal.entry.settled.now) place (last_of cell.now)) events.now }
{
    let mut first = None;
    for event in events {
        first = lesser_place(first, behind_place(journal, names, place, cell, *event));
    }
    first
}

/// The first place of one of all events that is so.
fn any_place(journal: Journal, names: &NameSet, place: usize, cell: &Touched) -> Option<usize>
    ensures { result ≡ least_place journal.entry.places.now (model.finds_at names.now (map item_of journal.entry.entries.now) (length journal.entry.settled.now) place (last_of cell.now)) (names_of (map item_of journal.entry.entries.now)) }
{
    let mut first = None;
    for entry in journal.entries {
        let event = entry.event.name;
        first = lesser_place(first, behind_place(journal, names, place, cell, event));
    }
    first
}

/// The first place behind another of one that is live or of the set, and found this version of a cell.
fn found_place(journal: Journal, names: &NameSet, place: usize, cell: &Touched) -> Option<usize>
    ensures { result ≡ model.listed_place journal.entry.places.now names.now (map item_of journal.entry.entries.now) (length journal.entry.settled.now) place (last_of cell.now) (followers_of journal.entry.followers.now (lister_of (last_of cell.now).0 (last_of cell.now).1)) }
{
    match journal.followers.of(lister(&cell.key, cell.writer)) {
        Some(followers) => listed_place(journal, names, place, cell, followers),
        // Where no list is kept any may have found it.
        None => any_place(journal, names, place, cell),
    }
}

/// The same, if an entry wrote the cell.
fn written_place(
    journal: Journal,
    names: &NameSet,
    place: usize,
    entry: &Entry,
    cell: &Touched,
) -> Option<usize>
    ensures { result ≡ cond (model.wrote_key (last_of cell.now).0 (item_of entry.now)) (model.listed_place journal.entry.places.now names.now (map item_of journal.entry.entries.now) (length journal.entry.settled.now) place (last_of cell.now) (followers_of journal.entry.followers.now (lister_of (last_of cell.now).0 (last_of cell.now).1))) None }
{
    if wrote(entry, &cell.key) {
        found_place(journal, names, place, cell)
    } else {
        None
    }
}

/// The first place behind an entry of one that is live or of the set, and found what the entry wrote over.
fn finder_place(journal: Journal, names: &NameSet, place: usize, entry: &Entry) -> Option<usize>
    ensures { result ≡ model.finder_place journal.entry.places.now journal.entry.followers.now names.now (map item_of journal.entry.entries.now) (length journal.entry.settled.now) place (item_of entry.now) }
{
    let mut first = None;
    for cell in &entry.touched {
        first = lesser_place(first, written_place(journal, names, place, entry, cell));
    }
    first
}

/// A place, if one is in the way of the entry there.
fn own_place(journal: Journal, names: &NameSet, place: usize) -> Option<usize>
    ensures { result ≡ kept_if (λ q. is_some (model.crossing_at journal.entry.places.now journal.entry.heirs.now names.now (map item_of journal.entry.entries.now) (length journal.entry.settled.now) (items_of journal.entry) q)) (Some place) }
{
    crossing_at(journal, names, place)
        .is_some()
        .then_some(place)
}

/// The first place where somebody crosses on account of an event: its own, or that of one behind it.
fn crossing_place(journal: Journal, names: &NameSet, event: EventName) -> Option<usize>
    ensures { result ≡ model.crossing_place journal.entry.places.now journal.entry.followers.now journal.entry.heirs.now names.now (map item_of journal.entry.entries.now) (length journal.entry.settled.now) (items_of journal.entry) event }
{
    let place = journal.place_of(event)?;
    let entry = journal.open_entry(event)?;
    let own = own_place(journal, names, place);
    lesser_place(own, finder_place(journal, names, place, entry))
}

/// Of what is live together with a set: the first event that crosses another on account of the set, and the first that is in its way.
pub(crate) fn first_crossed(journal: Journal, names: &NameSet) -> Option<Gap>
    ensures { result ≡ option_and_then (model.crossing_at journal.entry.places.now journal.entry.heirs.now names.now (map item_of journal.entry.entries.now) (length journal.entry.settled.now) (items_of journal.entry)) (fold lesser None (map (model.crossing_place journal.entry.places.now journal.entry.followers.now journal.entry.heirs.now names.now (map item_of journal.entry.entries.now) (length journal.entry.settled.now) (items_of journal.entry)) names.now)) }
{
    let given = names.given();
    let mut first = None;
    for name in given {
        first = lesser_place(first, crossing_place(journal, names, *name));
    }
    let place = first?;
    crossing_at(journal, names, place)
}
