// What a set of events lacks for an undo or a redo.
ghost use Rattle.std.specs.Prelude.{◌≡◌, ◌≤◌, ◌<◌, ◌||◌, ℕ, All, length, Some, None, IfOk, OnOk};
ghost use Rattle.std.specs.List.{list_any};
ghost use Rattle.std.specs.List.Sorted.{IsStrictlySortedBy};
ghost use Rattle.std.specs.Ordering.{nat_cmp};
ghost use Rattle.history.specs.Chains.{is_name};
ghost use Rattle.journal_links.specs.Places.{place_of};
ghost use Rattle.journal.specs.Items.{item_of, is_live};
ghost use Rattle.journal.specs.Journals.{items_of};
ghost use Rattle.journal.specs.Lines.{lines_of};
ghost use Rattle.causality.specs.Causes.{has_place, passes_at};
ghost use Rattle.causality.specs.Journals.{IsJournal, NoneSettled};
ghost use Rattle.causality.specs.Placed.{is_marked, is_as, place_if, lesser_place, least_place, name_there};
ghost use Rattle.causality.specs.Selections as model;

use crate::crossing::first_crossed;
use crate::missing::first_missing;
use crate::names::NameSet;
use crate::parting::{least_gap, outsiders};
use ids::names::EventName;
use journal::entry::{Entry, Mark};
use journal::journal::Journal;
use std::alloc::{AllocError, Global};
use std::collections::BTreeSet;

/// An event, and another one that is in its way.
#[derive(Clone, Copy)]
pub struct Gap {
    pub event: EventName,
    pub other: EventName,
}

/// The lesser of a name and what was least before it.
fn lesser_of(name: EventName, least: Option<EventName>) -> EventName
    ensures { Some result ≡ model.lesser name least }
{
    match least {
        Some(other) => EventName(name.0.min(other.0)),
        None => name,
    }
}

/// The least of these names that the journal does not have.
pub fn least_missing(journal: Journal, names: &NameSet) -> Option<EventName>
    ensures { result ≡ model.least_missing names.now (lines_of (items_of journal.entry)) }
{
    let given = names.given();
    let mut missing = None;
    for name in given {
        if journal.place_of(*name).is_none() {
            missing = Some(lesser_of(*name, missing));
        }
    }
    missing
}

/// What is asked of an entry.
#[derive(Clone, Copy)]
enum Asked {
    Settled,
    Marked(Mark),
}

/// Whether this is the mark of what is live.
fn is_live(mark: Mark) -> bool
    ensures { result ≡ is_live mark }
{
    mark == Mark::Live
}

/// Whether the entry at a place has this mark. What is settled is live.
fn has_mark_at(journal: Journal, place: usize, mark: Mark) -> bool
    requires { place < length (items_of journal) }
    ensures { result ≡ passes_at (is_marked mark) (items_of journal.entry) place }
{
    if place < journal.settled.len() {
        return is_live(mark);
    }
    has_mark(&journal.entries[place - journal.settled.len()], mark)
}

/// Where an event stands, if its entry is as asked.
fn place_if(journal: Journal, event: EventName, asked: Asked) -> Option<usize>
    ensures { result ≡ place_if journal.entry.places.now (is_as asked (length journal.entry.settled.now) (items_of journal.entry)) event }
{
    let place = journal.place_of(event)?;
    let is_as = match asked {
        Asked::Settled => place < journal.settled.len(),
        Asked::Marked(mark) => has_mark_at(journal, place, mark),
    };
    if is_as { Some(place) } else { None }
}

/// The lesser of two places, where there are two.
pub(crate) fn lesser_place(first: Option<usize>, second: Option<usize>) -> Option<usize>
    ensures { result ≡ lesser_place first second }
{
    match (first, second) {
        (Some(place), Some(other)) => Some(place.min(other)),
        (Some(place), None) => Some(place),
        (None, _) => second,
    }
}

/// The first of a set whose entry is as asked.
fn first_asked(journal: Journal, names: &NameSet, asked: Asked) -> Option<EventName>
    ensures { result ≡ name_there (items_of journal.entry) (least_place journal.entry.places.now (is_as asked (length journal.entry.settled.now) (items_of journal.entry)) names.now) }
{
    let given = names.given();
    let mut first = None;
    for name in given {
        first = lesser_place(first, place_if(journal, *name, asked));
    }
    let place = first?;
    Some(journal.name_at(place))
}

/// The first of the set that is settled.
pub fn first_settled(journal: Journal, names: &NameSet) -> Option<EventName>
    requires { IsJournal (items_of journal) }
    ensures { result ≡ model.first_settled names.now (length journal.entry.settled.now) (lines_of (items_of journal.entry)) }
{
    first_asked(journal, names, Asked::Settled)
}

/// Whether an entry has this mark.
fn has_mark(entry: &Entry, mark: Mark) -> bool
    ensures { result ≡ is_marked mark (item_of entry.now) }
{
    entry.mark == mark
}

/// The first of the set that has this mark.
pub fn first_marked(journal: Journal, names: &NameSet, mark: Mark) -> Option<EventName>
    requires { IsJournal (items_of journal) }
    ensures { result ≡ model.first_marked mark names.now (lines_of (items_of journal.entry)) }
{
    first_asked(journal, names, Asked::Marked(mark))
}

/// Of a set that is in the journal and live: the first member of which a live event outside came, and the first such event.
pub fn first_gap(
    alloc: Global,
    journal: Journal,
    names: &NameSet,
) -> Result<Option<Gap>, AllocError>
    requires journal { IsJournal (items_of journal) }
    requires open { NoneSettled names.now journal }
    requires live { model.first_marked Mark.Undone names.now (lines_of (items_of journal)) ≡ None }
    ensures { IfOk result (λ gap. gap ≡ model.first_gap names.now (lines_of (items_of journal.entry))) }
{
    // The first event outside that came of a member follows a member.
    let outsiders = outsiders(alloc, journal, names)?;
    Ok(least_gap(journal, names, &outsiders))
}

/// Of what is live together with this set: the first member of which a cause is missing, and the first such cause.
pub fn first_missing_cause(journal: Journal, names: &NameSet) -> Option<Gap>
    requires journal { IsJournal (items_of journal) }
    requires open { NoneSettled names.now journal }
    ensures { result ≡ model.first_missing_cause names.now (lines_of (items_of journal.entry)) }
{
    // All causes of a live event are live.
    first_missing(journal, names)
}

/// Of what is live together with this set, of which no cause is missing: the first member that touches what an earlier one wrote that is
/// no cause of it, and the first such one.
pub fn first_crossing(journal: Journal, names: &NameSet) -> Option<Gap>
    requires journal { IsJournal (items_of journal) }
    requires open { NoneSettled names.now journal }
    requires whole { model.first_missing_cause names.now (lines_of (items_of journal)) ≡ None }
    ensures { result ≡ model.first_crossing names.now (lines_of (items_of journal.entry)) }
{
    // Where all last writers are there, who crosses another found what that one wrote over.
    first_crossed(journal, names)
}

/// Adds a place, where there is one.
pub(crate) fn add_place(
    places: &mut BTreeSet<usize>,
    place: Option<usize>,
) -> Result<(), AllocError>
    ensures { OnOk result ((q : ℕ) → has_place places.new.keys q ≡ (is_name place q || has_place places.old.keys q)) }
{
    if let Some(place) = place {
        places.insert(place)?;
    }
    Ok(())
}

/// Where the events of a set stand.
fn places_of(
    alloc: Global,
    journal: Journal,
    names: &NameSet,
) -> Result<BTreeSet<usize>, AllocError>
    ensures { IfOk result (λ set. (q : ℕ) → has_place set.keys q ≡ list_any (λ e. is_name (place_of journal.entry.places.now e) q) names.now) }
{
    let given = names.given();
    let mut places = BTreeSet::new(alloc);
    for name in given {
        add_place(&mut places, journal.place_of(*name))?;
    }
    Ok(places)
}

/// These places, ascending.
fn in_order(alloc: Global, places: &BTreeSet<usize>) -> Result<Vec<usize>, AllocError>
    ensures same { IfOk result (λ all. all.items ≡ places.now.keys) }
    ensures ascending { OnOk result (IsStrictlySortedBy nat_cmp places.now.keys) }
{
    let mut all = Vec::new(alloc);
    for place in places {
        all.push(*place)?;
    }
    Ok(all)
}

/// The positions of a set of which none is settled, ascending.
pub fn positions(alloc: Global, journal: Journal, names: &NameSet) -> Result<Vec<usize>, AllocError>
    requires journal { IsJournal (items_of journal) }
    requires open { NoneSettled names.now journal }
    ensures places { IfOk result (λ all. all.items ≡ model.places_from 0 names.now (lines_of (items_of journal.entry))) }
    ensures behind { IfOk result (λ all. All (λ p. length journal.entry.settled.now ≤ p) all.items) }
{
    let places = places_of(alloc, journal, names)?;
    Ok(in_order(alloc, &places)?)
}
