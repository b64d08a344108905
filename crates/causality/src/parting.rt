// Who from outside a set came of a member.
ghost use Rattle.std.specs.Prelude.{◌≡◌, ◌&&◌, ◌||◌, ◌==◌, true, false, map, length, None, Some, is_some, IfOk, OnOk};
ghost use Rattle.std.specs.List.{list_any, AllByRecursion};
ghost use Rattle.std.specs.Option.{option_map, option_and_then};
ghost use Rattle.history.specs.Journal.{is_in};
ghost use Rattle.ids.specs.declared.names.EventName.{EventName};
ghost use Rattle.journal.specs.Items.{item_of};
ghost use Rattle.journal.specs.Journals.{items_of};
ghost use Rattle.journal.specs.Links.{open_at};
ghost use Rattle.causality.specs.Journals.{IsJournal};
ghost use Rattle.causality.specs.Names.{wrote_last};
ghost use Rattle.causality.specs.Parting.{parts_from, parts_at, parting, gap_at};
ghost use Rattle.causality.specs.Placed.{follows, is_outsider, place_if, least_place};
ghost use Rattle.causality.specs.Selections.{numbers};
ghost use Rattle.causality.specs.Walks.{is_of};

use crate::names::NameSet;
use crate::selection::{Gap, lesser_place};
use ids::names::EventName;
use journal::entry::{Entry, Mark, meets};
use journal::journal::Journal;
use std::alloc::{AllocError, Global};

/// Whether an event is live, not settled, and outside the set.
fn is_outsider(journal: Journal, names: &NameSet, event: EventName) -> bool
    ensures { result ≡ is_outsider names.now (map item_of journal.entry.entries.now) (length journal.entry.settled.now) journal.entry.places.now event }
{
    match journal.open_entry(event) {
        Some(entry) => entry.mark == Mark::Live && !names.has(entry.event.name),
        None => false,
    }
}

/// Adds an event, if it is live, not settled, and outside the set.
fn add_outsider(
    journal: Journal,
    names: &NameSet,
    event: EventName,
    outsiders: &mut Vec<EventName>,
) -> Result<(), AllocError>
    ensures { OnOk result ((e : EventName) → is_in (numbers outsiders.new.items) e.0 ≡ (((event.0 == e.0) && is_outsider names.now (map item_of journal.entry.entries.now) (length journal.entry.settled.now) journal.entry.places.now event) || is_in (numbers outsiders.old.items) e.0)) }
{
    if !is_outsider(journal, names, event) {
        return Ok(());
    }
    outsiders.push(event)?;
    Ok(())
}

/// Adds those of these events that are live, not settled, and outside the set.
fn add_listed(
    journal: Journal,
    names: &NameSet,
    events: &[EventName],
    outsiders: &mut Vec<EventName>,
) -> Result<(), AllocError>
    ensures { OnOk result ((e : EventName) → is_in (numbers outsiders.new.items) e.0 ≡ (is_in (numbers outsiders.old.items) e.0 || list_any (λ f. (f.0 == e.0) && is_outsider names.now (map item_of journal.entry.entries.now) (length journal.entry.settled.now) journal.entry.places.now f) events.now)) }
{
    for event in events {
        add_outsider(journal, names, *event, outsiders)?;
    }
    Ok(())
}

/// Adds all events that are live, not settled, and outside the set.
fn add_any(
    journal: Journal,
    names: &NameSet,
    outsiders: &mut Vec<EventName>,
) -> Result<(), AllocError>
    ensures { OnOk result ((e : EventName) → is_in (numbers outsiders.new.items) e.0 ≡ (is_in (numbers outsiders.old.items) e.0 || list_any (λ x. (x.event.name.0 == e.0) && is_outsider names.now (map item_of journal.entry.entries.now) (length journal.entry.settled.now) journal.entry.places.now x.event.name) journal.entry.entries.now)) }
{
    for entry in journal.entries {
        add_outsider(journal, names, entry.event.name, outsiders)?;
    }
    Ok(())
}

/// Adds live events outside the set that are not settled, among them all that follow an event.
fn add_followers(
    journal: Journal,
    names: &NameSet,
    event: EventName,
    outsiders: &mut Vec<EventName>,
) -> Result<(), AllocError>
    requires { IsJournal (items_of journal) }
    ensures kept { OnOk result ((e : EventName) → is_in (numbers outsiders.old.items) e.0 ≡ true → is_in (numbers outsiders.new.items) e.0 ≡ true) }
    ensures all { OnOk result (AllByRecursion (λ j. j.live ≡ true → is_of names.now j ≡ false → follows event.0 j ≡ true → is_of outsiders.new.items j ≡ true) (map item_of journal.entry.entries.now)) }
{
    match journal.followers.of(event) {
        Some(followers) => add_listed(journal, names, followers, outsiders),
        // Of an event with no list any may be a follower.
        None => add_any(journal, names, outsiders),
    }
}

/// Live events outside the set that are not settled, among them all that follow one of it.
pub(crate) fn outsiders(
    alloc: Global,
    journal: Journal,
    names: &NameSet,
) -> Result<Vec<EventName>, AllocError>
    requires { IsJournal (items_of journal) }
    ensures { IfOk result (λ all. AllByRecursion (λ j. j.live ≡ true → is_of names.now j ≡ false → wrote_last (numbers names.now) j ≡ true → is_of all.items j ≡ true) (map item_of journal.entry.entries.now)) }
{
    let given = names.given();
    let mut all = Vec::new(alloc);
    for name in given {
        add_followers(journal, names, *name, &mut all)?;
    }
    Ok(all)
}

/// Whether an entry is live and outside the set, and touched what another wrote.
fn parts_from(entry: &Entry, other: &Entry, names: &NameSet) -> bool
    ensures { result ≡ parts_from names.now (item_of entry.now) (item_of other.now) }
{
    other.mark == Mark::Live && !names.has(other.event.name) && meets(entry, other)
}

/// Where an event stands, if it does so and stands behind the place of the entry.
fn parting_place(
    journal: Journal,
    names: &NameSet,
    entry: &Entry,
    place: usize,
    event: EventName,
) -> Option<usize>
    ensures { result ≡ place_if journal.entry.places.now (parts_at names.now (map item_of journal.entry.entries.now) (length journal.entry.settled.now) (item_of entry.now) place) event }
{
    let other = journal.place_of(event)?;
    if other <= place {
        return None;
    }
    let behind = journal.open_entry(event)?;
    parts_from(entry, behind, names).then_some(other)
}

/// The first of these events that does so.
fn first_parting(
    journal: Journal,
    names: &NameSet,
    outsiders: &[EventName],
    entry: &Entry,
    place: usize,
) -> Option<EventName>
    ensures { result ≡ parting journal.entry.places.now outsiders.now names.now (map item_of journal.entry.entries.now) (length journal.entry.settled.now) (items_of journal.entry) (item_of entry.now) place }
{
    let mut first = None;
    for other in outsiders {
        first = lesser_place(first, parting_place(journal, names, entry, place, *other));
    }
    let there = first?;
    Some(journal.name_at(there))
}

/// The entry at a place, if it is not settled.
pub(crate) fn open_at(journal: Journal, place: usize) -> Option<&Entry>
    ensures { option_map (λ e. item_of e.now) result ≡ open_at (map item_of journal.entry.entries.now) (length journal.entry.settled.now) (Some place) }
{
    if place < journal.settled.len() {
        return None;
    }
    journal.entries.get(place - journal.settled.len())
}

/// The event at a place, if it is not settled, and the first of these events that came of it.
fn gap_at(journal: Journal, names: &NameSet, outsiders: &[EventName], place: usize) -> Option<Gap>
    ensures { result ≡ gap_at journal.entry.places.now outsiders.now names.now (map item_of journal.entry.entries.now) (length journal.entry.settled.now) (items_of journal.entry) place }
{
    let entry = open_at(journal, place)?;
    let other = first_parting(journal, names, outsiders, entry, place)?;
    Some(Gap {
        event: entry.event.name,
        other,
    })
}

/// Where an event stands, if one of these came of it.
fn gap_place(
    journal: Journal,
    names: &NameSet,
    outsiders: &[EventName],
    event: EventName,
) -> Option<usize>
    ensures { result ≡ place_if journal.entry.places.now (λ p. is_some (gap_at journal.entry.places.now outsiders.now names.now (map item_of journal.entry.entries.now) (length journal.entry.settled.now) (items_of journal.entry) p)) event }
{
    let place = journal.place_of(event)?;
    gap_at(journal, names, outsiders, place)
        .is_some()
        .then_some(place)
}

/// The first of a set of which one of these events came, and the first such event.
pub(crate) fn least_gap(journal: Journal, names: &NameSet, outsiders: &[EventName]) -> Option<Gap>
    ensures { result ≡ option_and_then (gap_at journal.entry.places.now outsiders.now names.now (map item_of journal.entry.entries.now) (length journal.entry.settled.now) (items_of journal.entry)) (least_place journal.entry.places.now (λ p. is_some (gap_at journal.entry.places.now outsiders.now names.now (map item_of journal.entry.entries.now) (length journal.entry.settled.now) (items_of journal.entry) p)) names.now) }
{
    let given = names.given();
    let mut first = None;
    for name in given {
        first = lesser_place(first, gap_place(journal, names, outsiders, *name));
    }
    let place = first?;
    gap_at(journal, names, outsiders, place)
}
