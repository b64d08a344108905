// Why one event came of another.
ghost use Rattle.std.specs.Prelude.{◌≡◌, ◌+◌, ◌<◌, ◌≤◌, None, Some, length, option_copied, slice_get, OnOk, IfOk, IfErr};
ghost use Rattle.ids.specs.declared.cells.CellKey.{CellKey};
ghost use Rattle.journal.specs.Items.{item_of};
ghost use Rattle.journal.specs.Journals.{items_of};
ghost use Rattle.journal.specs.Lines.{lines_of};
ghost use Rattle.causality.specs.Journals.{IsJournal};
ghost use Rattle.stepper_questions.specs.Refusals.{Refuses, pair_refusal};
ghost use Rattle.stepper_questions.specs.TouchedView.{told_entries};
ghost use Rattle.stepper_questions.specs.Chains.{Step};
ghost use Rattle.stepper_questions.specs.Why.{Why, Crossing, Reason, ReasonBetween, is_by};
ghost use Rattle.stepper_questions.specs.WhyView.{crossed_in, reason_text, relation_text, AreLinks, IsLink, OpenChain, BothOpen};
ghost use Rattle.stepper_questions.specs.Writers.{first_cell};

use crate::cell::ToldCell;
use crate::chain::nearest_chain;
use crate::reason::{ChainLink, Relation, ToldReason};
use crate::standing::Standing;
use crate::touched::{Seen, touched_cells};
use crate::unanswered::Unanswered;
use ids::names::EventName;
use journal::entry::Entry;
use journal::journal::Journal;
use std::alloc::{AllocError, Global};
use std::collections::BTreeMap;

/// The first of these cells that an event wrote.
fn first_by(cells: &BTreeMap<ToldCell, Seen>, writer: EventName) -> Option<&ToldCell>
    ensures { option_copied result ≡ first_cell (is_by writer) (told_entries cells.now.entries) }
{
    for (cell, seen) in cells.iter() {
        if seen.writer == Some(writer) {
            return Some(cell);
        }
    }
    None
}

/// The first of the cells of a later entry that an earlier one touched too, and one of the two wrote.
fn first_crossed<'a>(
    earlier: &BTreeMap<ToldCell, Seen>,
    later: &'a BTreeMap<ToldCell, Seen>,
) -> Option<&'a ToldCell>
    ensures { option_copied result ≡ first_cell (crossed_in earlier.now.entries) (told_entries later.now.entries) }
{
    for (cell, seen) in later.iter() {
        if let Some(other) = earlier.get(cell)
            && (other.is_written || seen.is_written)
        {
            return Some(cell);
        }
    }
    None
}

/// The entry at a place, counted from the oldest of all, which is not settled.
fn open_entry(journal: Journal<'_>, place: usize) -> &Entry
    requires behind { length journal.settled.now ≤ place }
    requires there { place < length journal.settled.now + length journal.entries.now }
    ensures { slice_get (items_of journal.entry) place ≡ Some (item_of result.now) }
{
    let here = place - journal.settled.len();
    &journal.entries[here]
}

/// The step from one entry to another, of which it came. Fails only for want of memory.
fn link_of(alloc: Global, journal: Journal, from: usize, to: usize) -> Result<ChainLink, AllocError>
    requires journal { IsJournal (items_of journal) }
    requires behind { length journal.settled.now ≤ from }
    requires there { to < length journal.settled.now + length journal.entries.now }
    requires link { (k : CellKey) × Step (lines_of (items_of journal)) from k to }
    ensures { IfOk result (IsLink (lines_of (items_of journal.entry)) from to) }
{
    let earlier = open_entry(journal, from);
    let later = open_entry(journal, to);
    let cells = touched_cells(alloc, later)?;
    match first_by(&cells, earlier.event.name) {
        Some(cell) => Ok(ChainLink {
            from: earlier.event.name,
            to: later.event.name,
            cell: cell.share()?,
        }),
        None => unreachable!(),
    }
}

/// The steps along the places of a chain, the last one first, in their order. Fails only for want of memory.
fn links_along(
    alloc: Global,
    journal: Journal,
    places: &[usize],
) -> Result<Vec<ChainLink>, AllocError>
    requires journal { IsJournal (items_of journal) }
    requires chain { OpenChain (lines_of (items_of journal)) (length journal.settled.now) (length journal.settled.now + length journal.entries.now) places.now }
    ensures { IfOk result (λ links. AreLinks (lines_of (items_of journal.entry)) places.now links.items) }
{
    let mut links = Vec::new(alloc);
    let mut left = places.len() - 1;
    while left > 0 {
        links.push(link_of(alloc, journal, places[left], places[left - 1])?)?;
        left -= 1;
    }
    Ok(links)
}

/// Where two entries cross, or that they do not. Fails only for want of memory.
fn crossing_of(
    alloc: Global,
    journal: Journal,
    from: usize,
    to: usize,
) -> Result<Relation, AllocError>
    requires journal { IsJournal (items_of journal) }
    requires behind { length journal.settled.now ≤ from }
    requires order { from < to }
    requires there { to < length journal.settled.now + length journal.entries.now }
    ensures { IfOk result (λ relation. Crossing (lines_of (items_of journal.entry)) from to (relation_text relation)) }
{
    let earlier = open_entry(journal, from);
    let later = open_entry(journal, to);
    let mine = touched_cells(alloc, earlier)?;
    let others = touched_cells(alloc, later)?;
    match first_crossed(&mine, &others) {
        Some(cell) => Ok(Relation::Crossed(ChainLink {
            from: earlier.event.name,
            to: later.event.name,
            cell: cell.share()?,
        })),
        None => Ok(Relation::Neither),
    }
}

/// How a later entry came of an earlier one; the places are behind the settled ones. Fails only for want of memory.
fn relation_of(
    alloc: Global,
    journal: Journal,
    from: usize,
    to: usize,
) -> Result<Relation, AllocError>
    requires journal { IsJournal (items_of journal) }
    requires order { from < to }
    requires there { to < length journal.entries.now }
    ensures { IfOk result (λ relation. Reason (lines_of (items_of journal.entry)) (length journal.entry.settled.now + from) (length journal.entry.settled.now + to) (relation_text relation)) }
{
    let base = journal.settled.len();
    match nearest_chain(alloc, journal, from, to)? {
        Some(places) => {
            let links = links_along(alloc, journal, places.as_slice())?;
            Ok(Relation::Chained(links))
        }
        None => crossing_of(alloc, journal, base + from, base + to),
    }
}

/// The places of two entries behind the settled ones, or why there are none.
fn both_open(
    journal: Journal,
    event: EventName,
    other: EventName,
) -> Result<(usize, usize), Unanswered>
    ensures { BothOpen (length journal.entry.settled.now) (lines_of (items_of journal.entry)) event other result }
{
    match (Standing::of(journal, event), Standing::of(journal, other)) {
        (Standing::Absent, _) => Err(Unanswered::NoEvent(event)),
        (_, Standing::Absent) => Err(Unanswered::NoEvent(other)),
        (Standing::Settled, _) => Err(Unanswered::Settled(event)),
        (_, Standing::Settled) => Err(Unanswered::Settled(other)),
        (Standing::Open(place), Standing::Open(another)) => Ok((place, another)),
    }
}

/// How the later of two entries came of the earlier; the places are behind the settled ones. Fails only for want of memory.
fn relation_between(
    alloc: Global,
    journal: Journal,
    place: usize,
    other: usize,
) -> Result<Relation, AllocError>
    requires journal { IsJournal (items_of journal) }
    requires first { place < length journal.entries.now }
    requires second { other < length journal.entries.now }
    ensures { IfOk result (λ relation. ReasonBetween (lines_of (items_of journal.entry)) (length journal.entry.settled.now + place) (length journal.entry.settled.now + other) (relation_text relation)) }
{
    if place < other {
        relation_of(alloc, journal, place, other)
    } else if other < place {
        relation_of(alloc, journal, other, place)
    } else {
        Ok(Relation::Neither)
    }
}

/// Why the later of two events that are not settled came of the earlier: the nearest chain from one to the other, or where there is
/// none, the first cell at which they cross.
///
/// # Errors
/// One of the events is not in the journal, or settled; or memory ran out.
pub fn why(
    alloc: Global,
    journal: Journal,
    event: EventName,
    other: EventName,
) -> Result<ToldReason, Unanswered>
    requires { IsJournal (items_of journal) }
    ensures told { IfOk result (λ told. Why (lines_of (items_of journal.entry)) event other (reason_text told)) }
    ensures open { OnOk result (pair_refusal (length journal.entry.settled.now) (lines_of (items_of journal.entry)) event other ≡ None) }
    ensures refused { IfErr result (λ fault. Refuses fault (pair_refusal (length journal.entry.settled.now) (lines_of (items_of journal.entry)) event other)) }
{
    let (place, another) = both_open(journal, event, other)?;
    let relation = relation_between(alloc, journal, place, another)?;
    Ok(ToldReason {
        event,
        other,
        relation,
    })
}
