// The nearest chain from one entry to a later one.
ghost use Rattle.std.specs.Prelude.{◌≡◌, ◌+◌, ◌<◌, ℕ, Some, None, List, ◌∷◌, length, IfOk, OnOk};
ghost use Rattle.ids.specs.declared.names.EventName.{EventName};
ghost use Rattle.journal.specs.Items.{item_of, lasts_of, number_of};
ghost use Rattle.journal.specs.Journals.{items_of};
ghost use Rattle.journal.specs.Lines.{lines_of};
ghost use Rattle.causality.specs.Journals.{IsJournal};
ghost use Rattle.stepper_questions.specs.ChainView.{near_of, nearer, known_writer, best_of, reached_by, Back, Knows, NearestOrNone};
ghost use Rattle.stepper_questions.specs.declared.chain.Near.{Near};

use ids::names::EventName;
use journal::entry::{Entry, Touched};
use journal::journal::Journal;
use std::alloc::{AllocError, Global};
use std::collections::BTreeMap;

/// How an entry is reached: the end of the nearest chain to it.
#[derive(Clone, Copy)]
struct Near {
    event: EventName,
    /// Counted from the oldest of all entries.
    place: usize,
    steps: usize,
    /// The entry before it in the chain; none where the chain begins.
    before: Option<EventName>,
}

/// The one that is reached by fewer steps, or of two by as many the one that stands later.
fn nearer(a: Option<Near>, b: Option<Near>) -> Option<Near>
    ensures { result ≡ nearer a b }
{
    match (a, b) {
        (Some(x), Some(y)) => {
            if y.steps < x.steps || y.steps == x.steps && x.place < y.place {
                Some(y)
            } else {
                Some(x)
            }
        }
        (Some(x), None) => Some(x),
        (None, other) => other,
    }
}

/// How an entry is reached, if it is known.
fn known_of(known: &BTreeMap<EventName, Near>, event: EventName) -> Option<Near>
    ensures { result ≡ near_of known.now.entries event }
{
    known.get(&event).copied()
}

/// How a writer is reached, if there is one and it is known.
fn writer_of(known: &BTreeMap<EventName, Near>, writer: Option<EventName>) -> Option<Near>
    ensures { result ≡ known_writer (near_of known.now.entries) (number_of writer) }
{
    match writer {
        Some(event) => known_of(known, event),
        None => None,
    }
}

/// The nearest of the writers that are reached.
fn nearest_writer(known: &BTreeMap<EventName, Near>, touched: &[Touched]) -> Option<Near>
    ensures { result ≡ best_of (near_of known.now.entries) None (lasts_of touched.now) }
{
    let mut best = None;
    for cell in touched {
        best = nearer(best, writer_of(known, cell.writer));
    }
    best
}

/// Notes how an entry at a place is reached, if it is.
fn reach(
    known: &mut BTreeMap<EventName, Near>,
    entry: &Entry,
    place: usize,
) -> Result<(), AllocError>
    requires { (e : EventName) (x : Near) → near_of known.old.entries e ≡ Some x → x.steps < place }
    ensures { OnOk result ((e : EventName) → near_of known.new.entries e ≡ reached_by (item_of entry.now).event.name place (best_of (near_of known.old.entries) None (item_of entry.now).lasts) (near_of known.old.entries) e) }
{
    let event = entry.event.name;
    match nearest_writer(known, &entry.touched) {
        Some(near) => {
            let steps = near.steps + 1;
            let next = Near {
                event,
                place,
                steps,
                before: Some(near.event),
            };
            known.insert(event, next)?;
            Ok(())
        }
        None => Ok(()),
    }
}

/// All entries up to a place that are reached from an earlier one; the places are behind the settled ones.
fn reached(
    alloc: Global,
    journal: Journal,
    from: usize,
    to: usize,
) -> Result<BTreeMap<EventName, Near>, AllocError>
    requires journal { IsJournal (items_of journal) }
    requires order { from < to }
    requires there { to < length journal.entries.now }
    ensures { IfOk result (λ known. Knows (lines_of (items_of journal.entry)) (length journal.entry.settled.now + from) (length journal.entry.settled.now + to + 1) (near_of known.entries)) }
{
    let base = journal.settled.len();
    let event = journal.entries[from].event.name;
    let mut known = BTreeMap::new(alloc);
    let start = Near {
        event,
        place: base + from,
        steps: 0,
        before: None,
    };
    known.insert(event, start)?;
    for here in from + 1..to + 1 {
        reach(&mut known, &journal.entries[here], base + here)?;
    }
    Ok(known)
}

/// The entry before one that is reached; where that is not known, the same one.
fn step_back(known: &BTreeMap<EventName, Near>, near: Near) -> Near
    ensures { (y : Near) → near.before ≡ Some y.event → near_of known.now.entries y.event ≡ Some y → result ≡ y }
{
    match writer_of(known, near.before) {
        Some(earlier) => earlier,
        None => near,
    }
}

/// The places of the chain that ends here, the last one first. Fails only for want of memory.
fn places_back(
    alloc: Global,
    known: &BTreeMap<EventName, Near>,
    end: Near,
) -> Result<Vec<usize>, AllocError>
    ensures { IfOk result (λ places. (ps : List ℕ) → Back (near_of known.now.entries) end ps → length ps ≡ end.steps → places.items ≡ end.place ∷ ps) }
{
    let mut places = Vec::new(alloc);
    places.push(end.place)?;
    let mut near = end;
    for _step in 0..end.steps {
        near = step_back(known, near);
        places.push(near.place)?;
    }
    Ok(places)
}

/// The places of the nearest chain from one entry to a later one, the last one first, counted from the oldest of all entries; none
/// where there is no chain. The places of the two are behind the settled ones. Fails only for want of memory.
pub(crate) fn nearest_chain(
    alloc: Global,
    journal: Journal,
    from: usize,
    to: usize,
) -> Result<Option<Vec<usize>>, AllocError>
    requires journal { IsJournal (items_of journal) }
    requires order { from < to }
    requires there { to < length journal.entries.now }
    ensures { IfOk result (λ chain. NearestOrNone (lines_of (items_of journal.entry)) (length journal.entry.settled.now + from) (length journal.entry.settled.now + to) chain) }
{
    let known = reached(alloc, journal, from, to)?;
    let event = journal.entries[to].event.name;
    match known_of(&known, event) {
        Some(end) => Ok(Some(places_back(alloc, &known, end)?)),
        None => Ok(None),
    }
}
