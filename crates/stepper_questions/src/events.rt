// What is told of an event.
ghost use Rattle.std.specs.Prelude.{◌≡◌, None, length, OnOk, IfOk, IfErr};
ghost use Rattle.journal.specs.Items.{number_of};
ghost use Rattle.journal.specs.Journals.{items_of};
ghost use Rattle.journal.specs.Lines.{lines_of};
ghost use Rattle.causality.specs.Journals.{IsJournal};
ghost use Rattle.stepper_questions.specs.Events.{EventTold, told_line, told_lines, verb_text, writer_text};
ghost use Rattle.stepper_questions.specs.EventsView.{told_event_text};
ghost use Rattle.stepper_questions.specs.Refusals.{Refuses, event_refusal};
ghost use Rattle.stepper_questions.specs.TouchedView.{told_of, told_entries};
ghost use Rattle.stepper_questions.specs.WhyView.{IsOpen};
ghost use Rattle.stepper_streams.specs.Outlet.{Tells};

use crate::cell::ToldCell;
use crate::showing::put_cell;
use crate::standing::Standing;
use crate::touched::{Seen, touched_cells};
use crate::unanswered::Unanswered;
use ids::names::EventName;
use journal::journal::Journal;
use std::alloc::Global;
use std::collections::BTreeMap;
use std::io::Write;
use stepper_printing::gathering::listed_entry;
use stepper_printing::listing::put_entry;
use stepper_printing::names::put_event;
use stepper_printing::rows::ListedEntry;
use stepper_streams::outlet::Outlet;

/// An event, ready to be told: its line of the journal, and the cells that it touched, in order.
#[derive(Drop)]
pub struct ToldEvent<'j> {
    pub(crate) line: ListedEntry<'j>,
    pub(crate) cells: BTreeMap<ToldCell, Seen>,
}

/// The place of an event behind the settled ones, or why it has none.
fn open_place(journal: Journal, event: EventName) -> Result<usize, Unanswered>
    ensures { IsOpen (length journal.entry.settled.now) (lines_of (items_of journal.entry)) event result }
{
    match Standing::of(journal, event) {
        Standing::Absent => Err(Unanswered::NoEvent(event)),
        Standing::Settled => Err(Unanswered::Settled(event)),
        Standing::Open(place) => Ok(place),
    }
}

/// What is told of an event that is not settled: its line of the journal, and each cell that it touched, with the event that had
/// written the cell last when this one was entered.
///
/// # Errors
/// The event is not in the journal, or settled; or memory ran out.
pub fn event_told<'j>(
    alloc: Global,
    journal: Journal<'j>,
    event: EventName,
) -> Result<ToldEvent<'j>, Unanswered>
    requires { IsJournal (items_of journal) }
    ensures told { IfOk result (λ told. EventTold (lines_of (items_of journal.entry)) event (told_event_text told)) }
    ensures open { OnOk result (event_refusal (length journal.entry.settled.now) (lines_of (items_of journal.entry)) event ≡ None) }
    ensures refused { IfErr result (λ fault. Refuses fault (event_refusal (length journal.entry.settled.now) (lines_of (items_of journal.entry)) event)) }
{
    let place = open_place(journal, event)?;
    let cells = touched_cells(alloc, &journal.entries[place])?;
    let line = listed_entry(alloc, journal, place)?;
    Ok(ToldEvent { line, cells })
}

fn verb(is_written: bool) -> &'static str
    ensures { result.now ≡ verb_text is_written }
{
    if is_written { " wrote " } else { " read " }
}

fn put_writer<W: Write>(writer: Option<EventName>, out: &mut Outlet<W>)
    ensures { Tells W.contents out.old out.new (writer_text (number_of writer)) }
{
    match writer {
        Some(event) => put_event(event, out),
        None => out.put("-"),
    }
}

fn put_seen<W: Write>(cell: &ToldCell, seen: Seen, out: &mut Outlet<W>)
    ensures { Tells W.contents out.old out.new (told_line (cell.now, told_of seen)) }
{
    out.put(verb(seen.is_written));
    put_cell(cell, out);
    out.put(" ");
    put_writer(seen.writer, out);
    out.put("\n");
}

/// Puts cells with what an entry keeps of each, in their order.
fn put_cells<W: Write>(cells: &BTreeMap<ToldCell, Seen>, out: &mut Outlet<W>)
    ensures { Tells W.contents out.old out.new (told_lines (told_entries cells.now.entries)) }
{
    for (cell, seen) in cells.iter() {
        put_seen(cell, *seen, out);
    }
}

/// Puts what is told of an event.
pub fn put_told_event<W: Write>(told: &ToldEvent<'_>, out: &mut Outlet<W>)
    ensures { Tells W.contents out.old out.new (told_event_text told.now) }
{
    put_entry(&told.line, out);
    put_cells(&told.cells, out);
}
