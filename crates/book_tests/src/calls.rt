// Calls of a book that are not refused, and what is there behind them.

use book::book::Book;
use ereader::read;
use ids::names::{EventName, MsgId};
use ids::text::Text;
use journal::entry::Mark;
use kernele::tree::Program;
use post::program::{Question, Script};
use std::process::Abort;
use turn_deliveries::outcome::TurnEnd;
use values::value::Value;

/// The budget of turns and tickets.
pub(crate) const BUDGET: u32 = 1000;

pub(crate) fn name(rt: &(impl Abort + AllocGlobal), text: &str) -> Text {
    Text::new(rt.alloc(), text).expect(rt, "no memory")
}

/// The program that a text spells.
pub(crate) fn program(rt: &(impl Abort + AllocGlobal), text: &str) -> Program {
    match read(rt.alloc(), text) {
        Ok(program) => program,
        Err(_) => panic!(rt; "no program: {text}"),
    }
}

/// The script that a text spells.
pub(crate) fn script(rt: &(impl Abort + AllocGlobal), text: &str) -> Script {
    Script::new(rt.alloc(), &program(rt, text)).expect(rt, "no memory")
}

/// The question that a text spells.
pub(crate) fn question(rt: &(impl Abort + AllocGlobal), text: &str) -> Question {
    Question::new(rt.alloc(), &program(rt, text)).expect(rt, "no memory")
}

/// The first message of an event.
pub(crate) fn message(event: u32) -> MsgId {
    MsgId {
        event: EventName(event),
        index: 0,
    }
}

/// Enters a birth, and its number is this.
pub(crate) fn birth(
    rt: &(impl Abort + AllocGlobal),
    book: &mut Book,
    vat: &str,
    script: &str,
    event: u32,
) {
    birth_behind(rt, book, vat, &[], script, event);
}

/// Enters a birth of a vat whose script sees these earlier ones, and its number is this.
pub(crate) fn birth_behind(
    rt: &(impl Abort + AllocGlobal),
    book: &mut Book,
    vat: &str,
    earlier: &[&str],
    script: &str,
    event: u32,
) {
    let mut names = Vec::new(rt.alloc());
    for other in earlier {
        names.push(name(rt, other)).expect(rt, "no memory");
    }
    match book.birth(&name(rt, vat), names, program(rt, script)) {
        Ok(born) => assert!(rt; born == EventName(event)),
        Err(fault) => panic!(rt; "birth: {fault}"),
    }
}

/// Enters an asked program, and its number is this.
pub(crate) fn ask(
    rt: &(impl Abort + AllocGlobal),
    book: &mut Book,
    vat: &str,
    text: &str,
    event: u32,
) {
    match book.ask(&name(rt, vat), program(rt, text)) {
        Ok(asked) => assert!(rt; asked == EventName(event)),
        Err(fault) => panic!(rt; "ask: {fault}"),
    }
}

/// Runs the turn of the first message of an event, and its number is this.
pub(crate) fn turn(
    rt: &(impl Abort + AllocGlobal),
    book: &mut Book,
    of: u32,
    event: u32,
) -> TurnEnd {
    match book.turn(message(of), BUDGET) {
        Ok(turned) => {
            assert!(rt; turned.event == EventName(event));
            turned.ended
        }
        Err(fault) => panic!(rt; "turn: {fault}"),
    }
}

/// Undoes one event.
pub(crate) fn undo(rt: &impl Abort, book: &mut Book, event: u32) {
    match book.undo(&[EventName(event)]) {
        Ok(count) => assert!(rt; count == 1),
        Err(fault) => panic!(rt; "undo: {fault}"),
    }
}

/// Redoes one event.
pub(crate) fn redo(rt: &impl Abort, book: &mut Book, event: u32) {
    match book.redo(&[EventName(event)]) {
        Ok(count) => assert!(rt; count == 1),
        Err(fault) => panic!(rt; "redo: {fault}"),
    }
}

/// Settles the entries up to a position.
pub(crate) fn settle(rt: &impl Abort, book: &mut Book, position: usize) {
    match book.settle(position) {
        Ok(()) => assert!(rt; book.journal().settled.len() == position),
        Err(fault) => panic!(rt; "settle: {fault}"),
    }
}

/// Behind what is settled the journal has just these events in this order, each live or undone.
pub(crate) fn expect_journal(rt: &impl Abort, book: &Book, wanted: &[(u32, Mark)]) {
    let entries = book.journal().entries;
    assert!(rt; entries.len() == wanted.len(), "not so many entries");
    for (entry, (event, mark)) in entries.iter().zip(wanted) {
        assert!(rt; entry.event.name == EventName(*event), "another event");
        assert!(rt; entry.mark == *mark, "another mark of e{event}");
    }
}

/// A turn ended with this integer.
pub(crate) fn expect_integer(rt: &impl Abort, ended: &TurnEnd, wanted: i64) {
    match ended {
        TurnEnd::Value(Value::Int(found)) => assert!(rt; *found == wanted),
        _ => rt.panic("no integer"),
    }
}
