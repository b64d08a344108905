// What goes with an event that is undone.
ghost use Rattle.std.specs.Prelude.{◌≡◌, ◌&&◌, ◌||◌, ◌∷◌, ℕ, [], map, length, None, IfOk, OnOk};
ghost use Rattle.std.specs.List.{list_any};
ghost use Rattle.history.specs.Chains.{is_name};
ghost use Rattle.journal.specs.Items.{item_of};
ghost use Rattle.journal.specs.Journals.{items_of};
ghost use Rattle.journal.specs.Lines.{lines_of};
ghost use Rattle.journal.specs.declared.entry.Mark.TheVariants as mark;
ghost use Rattle.causality.specs.Causes.{has_place};
ghost use Rattle.causality.specs.Exact.{Cone};
ghost use Rattle.causality.specs.Journals.{IsJournal, NoneSettled};
ghost use Rattle.causality.specs.Placed.{follows, is_follower, place_if};
ghost use Rattle.causality.specs.Selections.{least_missing, first_marked};

use crate::selection::add_place;
use ids::names::EventName;
use journal::entry::{Entry, Mark};
use journal::journal::Journal;
use std::alloc::{AllocError, Global};
use std::collections::BTreeSet;

/// Whether an event was the last writer of a cell that an entry touched.
fn follows(entry: &Entry, event: EventName) -> bool
    ensures { result ≡ follows event.0 (item_of entry.now) }
{
    for cell in &entry.touched {
        if let Some(writer) = cell.writer
            && writer == event
        {
            return true;
        }
    }
    false
}

/// Whether an entry is live and follows an event.
fn is_follower(entry: &Entry, event: EventName) -> bool
    ensures { result ≡ ((item_of entry.now).live && follows event.0 (item_of entry.now)) }
{
    entry.mark == Mark::Live && follows(entry, event)
}

/// Where an event stands, if it is live, not settled, and follows another.
fn follower_place(journal: Journal, event: EventName, follower: EventName) -> Option<usize>
    ensures { result ≡ place_if journal.entry.places.now (is_follower event.0 (map item_of journal.entry.entries.now) (length journal.entry.settled.now)) follower }
{
    let place = journal.place_of(follower)?;
    let entry = journal.open_entry(follower)?;
    is_follower(entry, event).then_some(place)
}

/// Adds the places of those of these events that follow an event.
fn add_listed(
    journal: Journal,
    event: EventName,
    followers: &[EventName],
    places: &mut BTreeSet<usize>,
) -> Result<(), AllocError>
    ensures { OnOk result ((q : ℕ) → has_place places.new.keys q ≡ (has_place places.old.keys q || list_any (λ e. is_name (place_if journal.entry.places.now (is_follower event.0 (map item_of journal.entry.entries.now) (length journal.entry.settled.now)) e) q) followers.now)) }
{
    for follower in followers {
        add_place(places, follower_place(journal, event, *follower))?;
    }
    Ok(())
}

/// Adds the places of those of all events that follow an event.
fn add_any(
    journal: Journal,
    event: EventName,
    places: &mut BTreeSet<usize>,
) -> Result<(), AllocError>
    ensures { OnOk result ((q : ℕ) → has_place places.new.keys q ≡ (has_place places.old.keys q || list_any (λ x. is_name (place_if journal.entry.places.now (is_follower event.0 (map item_of journal.entry.entries.now) (length journal.entry.settled.now)) x.event.name) q) journal.entry.entries.now)) }
{
    for entry in journal.entries {
        let follower = entry.event.name;
        add_place(places, follower_place(journal, event, follower))?;
    }
    Ok(())
}

/// Adds the places of all live events that are not settled and follow an event.
fn add_followers(
    journal: Journal,
    event: EventName,
    places: &mut BTreeSet<usize>,
) -> Result<(), AllocError>
    requires { IsJournal (items_of journal) }
    ensures { OnOk result ((q : ℕ) → has_place places.new.keys q ≡ (has_place places.old.keys q || is_follower event.0 (map item_of journal.entry.entries.now) (length journal.entry.settled.now) q)) }
{
    match journal.followers.of(event) {
        Some(followers) => add_listed(journal, event, followers, places),
        // Of an event with no list any may be a follower.
        None => add_any(journal, event, places),
    }
}

/// An event that is live and not settled, and all live events that came of it, in the journal's order. Fails only for want of memory.
pub fn cone(alloc: Global, journal: Journal, root: EventName) -> Result<Vec<EventName>, AllocError>
    requires journal { IsJournal (items_of journal) }
    requires entered { least_missing (root ∷ []) (lines_of (items_of journal)) ≡ None }
    requires open { NoneSettled (root ∷ []) journal }
    requires live { first_marked mark.Undone (root ∷ []) (lines_of (items_of journal)) ≡ None }
    ensures { IfOk result (λ names. Cone (lines_of (items_of journal.entry)) root names.items) }
{
    let mut names = Vec::new(alloc);
    let mut waiting = BTreeSet::new(alloc);
    add_place(&mut waiting, journal.place_of(root))?;
    // What follows an event stands behind it, so whatever precedes the first that waits has joined, or never will.
    while let Some(place) = waiting.pop_first() {
        let name = journal.name_at(place);
        names.push(name)?;
        add_followers(journal, name, &mut waiting)?;
    }
    Ok(names)
}
