// Whether events may be undone or redone, have a cone, change places or be settled: what is asked of a journal before each.
ghost use Rattle.std.specs.Prelude.{◌≡◌, ◌≢◌, ◌+◌, ◌<◌, ◌≤◌, true, not, [], ◌∷◌, None, IsSome, IfOk, IfErr, OnOk, length, map, take};
ghost use Rattle.std.specs.List.{AllByRecursion};
ghost use Rattle.journal.specs.Items.{item_of};
ghost use Rattle.journal.specs.Journals.{items_of};
ghost use Rattle.journal.specs.Lines.{lines_of};
ghost use Rattle.causality.specs.Journals.{IsJournal, NoneSettled};
ghost use Rattle.causality.specs.Walks.{first_item};
ghost use Rattle.book_refusals.specs.Checks.{StoodAt, missing_refusal, undone_refusal, live_refusal, undo_refusal, redo_refusal, cone_refusal, placed_refusal, closed_refusal, settle_refusal};
ghost use Rattle.book_refusals.specs.Fault.{told_by, Tells};
ghost use Rattle.book_refusals.specs.declared.fault.BookFault.TheVariants.{Memory};

use crate::fault::BookFault;
use causality::names::NameSet;
use causality::selection::{
    first_crossing, first_gap, first_marked, first_missing_cause, first_settled, least_missing,
};
use ids::names::EventName;
use journal::entry::{Entry, Mark};
use journal::journal::Journal;
use std::alloc::Global;

/// The events are in the journal.
pub fn check_entered(journal: Journal, names: &NameSet) -> Result<(), BookFault>
    ensures ok { OnOk result (missing_refusal names.now (lines_of (items_of journal.entry)) ≡ None) }
    ensures err { IfErr result (λ fault. Tells fault (missing_refusal names.now (lines_of (items_of journal.entry)))) }
{
    match least_missing(journal, names) {
        Some(name) => Err(BookFault::NoEvent(name)),
        None => Ok(()),
    }
}

/// The events are in the journal, and none is settled.
pub fn check_open(journal: Journal, names: &NameSet) -> Result<(), BookFault>
    requires { IsJournal (items_of journal) }
    ensures open { OnOk result (NoneSettled names.now journal.entry) }
    ensures ok { OnOk result (closed_refusal names.now (length journal.entry.settled.now) (lines_of (items_of journal.entry)) ≡ None) }
    ensures err { IfErr result (λ fault. Tells fault (closed_refusal names.now (length journal.entry.settled.now) (lines_of (items_of journal.entry)))) }
{
    check_entered(journal, names)?;
    match first_settled(journal, names) {
        Some(name) => Err(BookFault::Settled(name)),
        None => Ok(()),
    }
}

/// None of the events is undone.
pub fn check_live(journal: Journal, names: &NameSet) -> Result<(), BookFault>
    requires { IsJournal (items_of journal) }
    ensures ok { OnOk result (undone_refusal names.now (lines_of (items_of journal.entry)) ≡ None) }
    ensures err { IfErr result (λ fault. Tells fault (undone_refusal names.now (lines_of (items_of journal.entry)))) }
{
    match first_marked(journal, names, Mark::Undone) {
        Some(name) => Err(BookFault::NotLive(name)),
        None => Ok(()),
    }
}

/// None of the events is live.
pub fn check_undone(journal: Journal, names: &NameSet) -> Result<(), BookFault>
    requires { IsJournal (items_of journal) }
    ensures ok { OnOk result (live_refusal names.now (lines_of (items_of journal.entry)) ≡ None) }
    ensures err { IfErr result (λ fault. Tells fault (live_refusal names.now (lines_of (items_of journal.entry)))) }
{
    match first_marked(journal, names, Mark::Live) {
        Some(name) => Err(BookFault::IsLive(name)),
        None => Ok(()),
    }
}

/// The events may be undone: all are in the journal, not settled and live, and so are all live events that came of them.
pub fn check_undo(alloc: Global, journal: Journal, names: &NameSet) -> Result<(), BookFault>
    requires { IsJournal (items_of journal) }
    ensures open { OnOk result (NoneSettled names.now journal.entry) }
    ensures ok { OnOk result (undo_refusal (length journal.entry.settled.now) (lines_of (items_of journal.entry)) names.now ≡ None) }
    ensures err { IfErr result (λ fault. Tells fault (undo_refusal (length journal.entry.settled.now) (lines_of (items_of journal.entry)) names.now)) }
{
    check_open(journal, names)?;
    check_live(journal, names)?;
    match first_gap(alloc, journal, names)? {
        Some(gap) => Err(BookFault::NotClosed(gap.event, gap.other)),
        None => Ok(()),
    }
}

/// The events may be redone: all are in the journal, not settled and undone, no cause of them is missing, and none crosses another.
pub fn check_redo(journal: Journal, names: &NameSet) -> Result<(), BookFault>
    requires { IsJournal (items_of journal) }
    ensures open { OnOk result (NoneSettled names.now journal.entry) }
    ensures ok { OnOk result (redo_refusal (length journal.entry.settled.now) (lines_of (items_of journal.entry)) names.now ≡ None) }
    ensures err { IfErr result (λ fault. Tells fault (redo_refusal (length journal.entry.settled.now) (lines_of (items_of journal.entry)) names.now)) }
{
    check_open(journal, names)?;
    check_undone(journal, names)?;
    if let Some(gap) = first_missing_cause(journal, names) {
        return Err(BookFault::CauseMissing(gap.event, gap.other));
    }
    match first_crossing(journal, names) {
        Some(gap) => Err(BookFault::Crossed(gap.event, gap.other)),
        None => Ok(()),
    }
}

/// The event is in the journal, not settled, and live.
pub fn check_cone(alloc: Global, journal: Journal, root: EventName) -> Result<(), BookFault>
    requires { IsJournal (items_of journal) }
    ensures open { OnOk result (NoneSettled (root ∷ []) journal.entry) }
    ensures ok { OnOk result (cone_refusal (length journal.entry.settled.now) (lines_of (items_of journal.entry)) root ≡ None) }
    ensures err { IfErr result (λ fault. Tells fault (cone_refusal (length journal.entry.settled.now) (lines_of (items_of journal.entry)) root)) }
{
    let roots = [root];
    let names = NameSet::new(alloc, &roots)?;
    check_open(journal, &names)?;
    check_live(journal, &names)
}

/// The events of the entries at a position, counted from 1, and behind it, which are not settled, and live.
pub fn check_exchange(
    journal: Journal,
    position: usize,
) -> Result<(EventName, EventName), BookFault>
    ensures open { OnOk result (length journal.entry.settled.now < position) }
    ensures there { OnOk result (position < length (items_of journal.entry)) }
    ensures stood { IfOk result (λ r. StoodAt position (lines_of (items_of journal.entry)) r.0 r.1) }
    ensures ok { OnOk result (placed_refusal (length journal.entry.settled.now) (lines_of (items_of journal.entry)) position ≡ None) }
    ensures err { IfErr result (λ fault. Tells fault (placed_refusal (length journal.entry.settled.now) (lines_of (items_of journal.entry)) position)) }
    ensures without_memory { IfErr result (λ fault. fault ≢ Memory) }
    ensures told { IfErr result (λ fault. IsSome (told_by fault)) }
{
    if position == 0 || position > journal.len() {
        return Err(BookFault::NoPosition(position));
    }
    if position == journal.len() {
        return Err(BookFault::NoPosition(position + 1));
    }
    if position <= journal.settled.len() {
        return Err(BookFault::Settled(journal.name_at(position - 1)));
    }
    let place = position - journal.settled.len();
    let entry = &journal.entries[place - 1];
    let behind = &journal.entries[place];
    match (entry.mark, behind.mark) {
        (Mark::Undone, _) => Err(BookFault::NotLive(entry.event.name)),
        (_, Mark::Undone) => Err(BookFault::NotLive(behind.event.name)),
        (Mark::Live, Mark::Live) => Ok((entry.event.name, behind.event.name)),
    }
}

/// The first of these entries that is undone.
fn first_undone(entries: &[Entry]) -> Option<EventName>
    ensures { result ≡ first_item (λ i. not i.live) (map item_of entries.now) }
{
    for entry in entries {
        if entry.mark == Mark::Undone {
            return Some(entry.event.name);
        }
    }
    None
}

/// How many of the entries that are not settled stand up to a position, counted from 1, which may be settled: they are live.
pub fn check_settle(journal: Journal, position: usize) -> Result<usize, BookFault>
    ensures there { IfOk result (λ count. (length journal.entry.settled.now + count ≡ position) × (count ≤ length journal.entry.entries.now)) }
    ensures live { IfOk result (λ count. AllByRecursion (λ i. i.live ≡ true) (take count (map item_of journal.entry.entries.now))) }
    ensures ok { OnOk result (settle_refusal (length journal.entry.settled.now) (lines_of (items_of journal.entry)) position ≡ None) }
    ensures err { IfErr result (λ fault. Tells fault (settle_refusal (length journal.entry.settled.now) (lines_of (items_of journal.entry)) position)) }
{
    if position == 0 || position > journal.len() {
        return Err(BookFault::NoPosition(position));
    }
    if position <= journal.settled.len() {
        return Err(BookFault::Settled(journal.name_at(position - 1)));
    }
    let count = position - journal.settled.len();
    match first_undone(&journal.entries[..count]) {
        Some(name) => Err(BookFault::NotLive(name)),
        None => Ok(count),
    }
}
