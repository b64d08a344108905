// The causes of entries.
ghost use Rattle.std.specs.List.{AllByRecursion};
ghost use Rattle.std.specs.List.Sorted.{IsStrictlySortedBy};
ghost use Rattle.std.specs.Ordering.{nat_cmp};
ghost use Rattle.std.specs.Prelude.{◌≡◌, ◌<◌, ◌||◌, ℕ, map, length, Some, IfOk, OnOk, slice_get};
ghost use Rattle.journal.specs.Items.{Item, item_of, last_of};
ghost use Rattle.journal.specs.Journals.{items_of};
ghost use Rattle.journal.specs.Lines.{causes_in};
ghost use Rattle.causality.specs.Journals.{IsJournal};
ghost use Rattle.causality.specs.Selections.{numbers};
ghost use Rattle.causality.specs.Causes.{IsWriter, writer_place, has_place, reached_at, number_at};

use ids::names::EventName;
use journal::entry::Touched;
use journal::journal::Journal;
use std::alloc::{AllocError, Global};
use std::collections::BTreeSet;

/// Where the entry of a writer stands, if there is one.
fn writer_place(journal: Journal, writer: Option<EventName>) -> Option<usize>
    ensures { result ≡ writer_place journal.entry.places.now writer }
{
    journal.place_of(writer?)
}

/// Collects the places of the entries that wrote a touched cell: of its last writer, of the last writer before that one, and so on.
fn follow(journal: Journal, cell: &Touched, places: &mut BTreeSet<usize>) -> Result<(), AllocError>
    requires journal { IsJournal (items_of journal) }
    requires wrote { IsWriter (items_of journal) (last_of cell.now).0 (last_of cell.now).1 }
    ensures { OnOk result ((q : ℕ) → has_place places.new.keys q ≡ (has_place places.old.keys q || reached_at (items_of journal.entry) (last_of cell.now).0 (last_of cell.now).1 q)) }
{
    let mut place = writer_place(journal, cell.writer);
    while let Some(here) = place {
        places.insert(here)?;
        place = writer_place(journal, journal.writer_at(here, &cell.key));
    }
    Ok(())
}

/// The names of the entries at these places.
fn names_at(
    alloc: Global,
    journal: Journal,
    places: &BTreeSet<usize>,
) -> Result<Vec<EventName>, AllocError>
    requires { AllByRecursion (λ p. p < length (items_of journal)) places.now.keys }
    ensures names { IfOk result (λ names. numbers names.items ≡ map (number_at (items_of journal.entry)) places.now.keys) }
    ensures ascending { OnOk result (IsStrictlySortedBy nat_cmp places.now.keys) }
{
    let mut names = Vec::new(alloc);
    for place in places {
        names.push(journal.name_at(*place))?;
    }
    Ok(names)
}

/// The names of all causes of the entry at a place behind the settled ones, in the journal's order. Fails only for want of memory.
pub fn causes(alloc: Global, journal: Journal, place: usize) -> Result<Vec<EventName>, AllocError>
    requires journal { IsJournal (items_of journal) }
    requires there { place < length journal.entries.now }
    ensures { IfOk result (λ names. (i : Item) → slice_get (map item_of journal.entry.entries.now) place ≡ Some i → numbers names.items ≡ causes_in (items_of journal.entry) i) }
{
    let mut places = BTreeSet::new(alloc);
    for cell in &journal.entries[place].touched {
        follow(journal, cell, &mut places)?;
    }
    names_at(alloc, journal, &places)
}
