// The log of a vat.
ghost use Rattle.std.specs.Prelude.{◌≡◌, ◌++◌, map, Some, IfOk, OnOk, string_bytes};
ghost use Rattle.eval_rules.specs.OutboxView.{note_of};
ghost use Rattle.journal.specs.Items.{item_of};
ghost use Rattle.journal.specs.Journals.{items_of, settled_item};
ghost use Rattle.book.specs.Books.{settled_lines, open_lines};
ghost use Rattle.book.specs.BookView.{book_of};
ghost use Rattle.serde_json.specs.View.{view};
ghost use Rattle.causewaylog.specs.Facts.{facts_of};
ghost use Rattle.causewaylog.specs.Live.{live_of};
ghost use Rattle.causewaylog.specs.Log.{log_text, records_from, records_behind};
ghost use Rattle.causewaylog.specs.Turns.{live_in, vat_called};

use crate::facts::{anchor, of_got, of_note};
use crate::turns::{got_by, settled_turns, vat_called};
use book::book::Book;
use eval_rules::outbox::Note;
use ids::names::{MsgId, VatNo};
use journal::journal::Journal;
use serde_json::Value;
use std::alloc::{AllocError, Global};

/// Adds the records of a turn: the message that it got, and then its notes.
fn add_turn(
    alloc: Global,
    records: &mut Vec<Value>,
    loop_name: &str,
    turn: usize,
    message: MsgId,
    notes: &[Note],
) -> Result<(), AllocError>
    ensures { OnOk result (map view records.new.items ≡ map view records.old.items ++ records_from loop_name.now turn 0 (facts_of (record { got = message; notes = map note_of notes.now }))) }
{
    let first = anchor(alloc, loop_name, turn, 0)?;
    records.push(of_got(alloc, first, message)?)?;
    for (index, note) in notes.iter().enumerate() {
        let next = anchor(alloc, loop_name, turn, index + 1)?;
        records.push(of_note(alloc, next, note)?)?;
    }
    Ok(())
}

/// The records of the live turns of a vat that are not settled. Turns are numbered from 1 in the journal's order, those that are settled
/// as well.
fn records_of(
    alloc: Global,
    journal: Journal,
    loop_name: &str,
    vat: VatNo,
) -> Result<Vec<Value>, AllocError>
    ensures { IfOk result (λ all. map view all.items ≡ records_behind loop_name.now (Some vat) (live_of (map settled_item journal.entry.settled.now)) (live_of (map item_of journal.entry.entries.now))) }
{
    let mut records = Vec::new(alloc);
    let mut turns = settled_turns(journal.settled, vat);
    for entry in journal.entries {
        if let Some(message) = got_by(entry, vat) {
            turns += 1;
            let notes = entry.notes.as_slice();
            add_turn(alloc, &mut records, loop_name, turns, message, notes)?;
        }
    }
    Ok(records)
}

/// The records of the live turns of the vat of this name that are not settled: none where there is no such vat.
fn records_called(
    alloc: Global,
    journal: Journal,
    loop_name: &str,
) -> Result<Vec<Value>, AllocError>
    ensures { IfOk result (λ all. map view all.items ≡ records_behind loop_name.now (vat_called loop_name.now (live_of (items_of journal.entry))) (live_of (map settled_item journal.entry.settled.now)) (live_of (map item_of journal.entry.entries.now))) }
{
    match vat_called(journal, loop_name) {
        Some(vat) => records_of(alloc, journal, loop_name, vat),
        None => Ok(Vec::new(alloc)),
    }
}

/// The log of the live turns of the vat of this name that are not settled, as a list of records in JSON: empty where there is no such
/// vat. Fails only for want of memory.
pub fn log_of(alloc: Global, book: &Book, loop_name: &str) -> Result<String, AllocError>
    ensures { IfOk result (λ text. string_bytes text ≡ log_text loop_name.now (live_in (settled_lines (book_of book.now))) (live_in (open_lines (book_of book.now)))) }
{
    let records = records_called(alloc, book.journal(), loop_name)?;
    Value::from(records).to_string(alloc)
}
