// Books to begin with.

use bench::start::Begun;
use book::book::Book;
use ereader::read;
use ids::names::{EventName, MsgId, VatNo};
use ids::text::Text;
use kernele::tree::Program;
use std::process::Abort;

/// The budget of all turns.
pub(crate) const BUDGET: u32 = 1000;

pub(crate) fn name(rt: &(impl Abort + AllocGlobal), text: &str) -> Text {
    Text::new(rt.alloc(), text).expect(rt, "no memory")
}

/// The program that a text spells.
pub(crate) fn program(rt: &(impl Abort + AllocGlobal), text: &str) -> Program {
    match read(rt.alloc(), text) {
        Ok(program) => program,
        Err(_) => panic!(rt; "no program: {text}"),
    }
}

/// A message of an event, by its number.
pub(crate) fn message_of(event: u32, index: u32) -> MsgId {
    MsgId {
        event: EventName(event),
        index,
    }
}

/// The first message of an event.
pub(crate) fn message(event: u32) -> MsgId {
    message_of(event, 0)
}

pub(crate) fn vat(event: u32) -> VatNo {
    VatNo(EventName(event))
}

/// Enters a birth of a vat whose script sees these earlier ones, and its number is this.
pub(crate) fn birth(
    rt: &(impl Abort + AllocGlobal),
    book: &mut Book,
    vat: &str,
    earlier: &[&str],
    script: &str,
    event: u32,
) {
    let mut names = Vec::new(rt.alloc());
    for other in earlier {
        names.push(name(rt, other)).expect(rt, "no memory");
    }
    match book.birth(&name(rt, vat), names, program(rt, script)) {
        Ok(born) => assert!(rt; born == EventName(event)),
        Err(fault) => panic!(rt; "birth: {fault}"),
    }
}

/// Enters an asked program, and its number is this.
pub(crate) fn ask(
    rt: &(impl Abort + AllocGlobal),
    book: &mut Book,
    vat: &str,
    text: &str,
    event: u32,
) {
    match book.ask(&name(rt, vat), program(rt, text)) {
        Ok(asked) => assert!(rt; asked == EventName(event)),
        Err(fault) => panic!(rt; "ask: {fault}"),
    }
}

/// Runs the turn of a message, and its number is this.
pub(crate) fn turn(rt: &impl Abort, book: &mut Book, message: MsgId, event: u32) {
    match book.turn(message, BUDGET) {
        Ok(turned) => assert!(rt; turned.event == EventName(event)),
        Err(fault) => panic!(rt; "turn: {fault}"),
    }
}

/// A message arrives, and the number of that is this.
pub(crate) fn arrive(rt: &impl Abort, book: &mut Book, message: MsgId, event: u32) {
    match book.arrive(message) {
        Ok(arrived) => assert!(rt; arrived == EventName(event)),
        Err(fault) => panic!(rt; "arrive: {fault}"),
    }
}

/// The names of vats that are born one after another.
const NAMES: [&str; 4] = ["a", "b", "c", "d"];

/// One question of `1` to each of as many vats as this, at most four.
fn ask_each(rt: &(impl Abort + AllocGlobal), book: &mut Book, vats: u32) {
    let mut place = 0u32;
    for vat in NAMES {
        place = place.wrapping_add(1);
        if place <= vats {
            let event = vats.wrapping_mul(2).wrapping_add(place);
            ask(rt, book, vat, "1", event);
        }
    }
}

/// As many vats as this, at most four, which have run their empty scripts, with one question of `1` to each. The questions are the last events.
pub(crate) fn asked(rt: &(impl Abort + AllocGlobal), vats: u32) -> Book {
    assert!(rt; vats <= 4);
    let mut book = Book::new(rt.alloc());
    for (place, vat) in (1..=vats).zip(NAMES) {
        birth(rt, &mut book, vat, &[], "", place);
    }
    for place in 1..=vats {
        turn(rt, &mut book, message(place), vats + place);
    }
    ask_each(rt, &mut book, vats);
    book
}

/// A book with three vats, where an object was passed on and the messages to it waited for one another: its 14 events are all done.
pub(crate) fn passed_on(rt: &(impl Abort + AllocGlobal)) -> Book {
    let mut book = Book::new(rt.alloc());
    birth(
        rt,
        &mut book,
        "carol",
        &[],
        "def _ { method x() { 1 } method w() { 2 } }",
        1,
    );
    turn(rt, &mut book, message(1), 2);
    birth(
        rt,
        &mut book,
        "bob",
        &[],
        "def _ { method y(c) { c <- w() } }",
        3,
    );
    turn(rt, &mut book, message(3), 4);
    birth(rt, &mut book, "alice", &["carol", "bob"], "", 5);
    turn(rt, &mut book, message(5), 6);
    ask(rt, &mut book, "alice", "carol <- x(); bob <- y(carol)", 7);
    turn(rt, &mut book, message(7), 8);
    arrive(rt, &mut book, message_of(8, 1), 9);
    turn(rt, &mut book, message_of(8, 1), 10);
    arrive(rt, &mut book, message(10), 11);
    arrive(rt, &mut book, message(8), 12);
    turn(rt, &mut book, message(8), 13);
    turn(rt, &mut book, message(10), 14);
    book
}

/// What a Bench begins with, of this book.
pub(crate) fn begun(rt: &(impl Abort + AllocGlobal), book: Book) -> Begun {
    match Begun::new(rt.alloc(), book) {
        Ok(begun) => begun,
        Err(_) => rt.panic("no memory"),
    }
}
