// Messages between vats: they arrive, go on, have their turns, and vats learn what came of them.

use crate::calls::{BUDGET, ask, birth_behind, expect_integer, message, name, turn};
use book::book::Book;
use book_agenda::agenda::{Move, Step};
use book_refusals::fault::BookFault;
use ids::names::{EventName, MsgId, PromId, VatNo};
use std::process::Abort;

/// A book where `a`, the vat of e3, sent `b`, the vat of e1, a message: e6.m0 is on its way.
fn sent(rt: &(impl Abort + AllocGlobal)) -> Book {
    let mut book = Book::new(rt.alloc());
    birth_behind(rt, &mut book, "b", &[], "def _ { method six() { 6 } }", 1);
    turn(rt, &mut book, 1, 2);
    birth_behind(rt, &mut book, "a", &["b"], "", 3);
    turn(rt, &mut book, 3, 4);
    ask(rt, &mut book, "a", "b <- six()", 5);
    turn(rt, &mut book, 5, 6);
    book
}

/// What may be done next, if anything.
fn next(rt: &impl Abort, book: &mut Book) -> Option<Step> {
    book.next().expect(rt, "no memory")
}

/// A call was entered as this event.
fn expect_entered(rt: &impl Abort, entered: Result<EventName, BookFault>, wanted: u32) {
    match entered {
        Ok(event) => assert!(rt; event == EventName(wanted)),
        Err(fault) => panic!(rt; "e{wanted}: {fault}"),
    }
}

/// The promise that a vat may learn next.
fn learnable(rt: &impl Abort, book: &mut Book) -> PromId {
    match next(rt, book) {
        Some(Step::Move(Move::Learn(_, promise))) => promise,
        _ => rt.panic("nothing to learn"),
    }
}

#[test]
fn a_message_to_another_vat(rt: HostRuntime) {
    let mut book = sent(&rt);
    assert!(rt;
        matches!(next(&rt, &mut book), Some(Step::Move(Move::Arrive(name))) if name == message(6))
    );
    expect_entered(&rt, book.arrive(message(6)), 7);
    assert!(rt; matches!(next(&rt, &mut book), Some(Step::Turn(name)) if name == message(6)));
    expect_integer(&rt, &turn(&rt, &mut book, 6, 8), 6);
    // What the script of `b` came to, which `a` has in its scope, and what the message came to.
    for (of, wanted) in &[(1, 9), (6, 10)] {
        let promise = learnable(&rt, &mut book);
        assert!(rt; promise.event == EventName(*of));
        expect_entered(&rt, book.learn(&name(&rt, "a"), promise), *wanted);
    }
    assert!(rt; next(&rt, &mut book).is_none());
}

/// A promise is named by its event and its number as well.
#[test]
fn learning_by_a_promises_name(rt: HostRuntime) {
    let mut book = sent(&rt);
    let a = name(&rt, "a");
    let too_early = book.learn_named(&a, EventName(6), 0);
    assert!(rt; matches!(too_early, Err(BookFault::NothingToLearn)));
    expect_entered(&rt, book.arrive(message(6)), 7);
    turn(&rt, &mut book, 6, 8);
    let another = book.learn_named(&a, EventName(6), 1);
    assert!(rt; matches!(another, Err(BookFault::NothingToLearn)));
    let nobody = book.learn_named(&name(&rt, "c"), EventName(6), 0);
    assert!(rt; matches!(nobody, Err(BookFault::NoVat(_))));
    expect_entered(&rt, book.learn_named(&a, EventName(6), 0), 9);
    let again = book.learn_named(&a, EventName(6), 0);
    assert!(rt; matches!(again, Err(BookFault::NothingToLearn)));
}

/// All that may be done, told in order: messages by their names, then what vats can learn.
#[test]
fn what_may_be_done(rt: HostRuntime) {
    let mut book = sent(&rt);
    expect_entered(&rt, book.arrive(message(6)), 7);
    turn(&rt, &mut book, 6, 8);
    ask(&rt, &mut book, "a", "b <- six()", 9);
    let steps = book.enabled().expect(&rt, "no memory");
    assert!(rt; steps.len() == 3);
    assert!(rt; matches!(steps[0], Step::Turn(name) if name == message(9)));
    assert!(rt;
        matches!(steps[1], Step::Move(Move::Learn(_, promise)) if promise.event == EventName(1))
    );
    assert!(rt;
        matches!(steps[2], Step::Move(Move::Learn(_, promise)) if promise.event == EventName(6))
    );
}

/// Turns and learning of a vat of which a ticket is out are left out, and those of other vats are not.
#[test]
fn a_vat_that_is_out(rt: HostRuntime) {
    let mut book = sent(&rt);
    expect_entered(&rt, book.arrive(message(6)), 7);
    match book.checkout(message(6), BUDGET, 1) {
        Ok(ticket) => ticket.discard(),
        Err(fault) => panic!(rt; "checkout: {fault}"),
    }
    let steps = book.enabled().expect(&rt, "no memory");
    assert!(rt; steps.len() == 1);
    assert!(rt; matches!(steps[0], Step::Move(Move::Learn(vat, _)) if vat == VatNo(EventName(3))));
}

#[test]
fn refused_moves(rt: HostRuntime) {
    let mut book = sent(&rt);
    let unknown = MsgId {
        event: EventName(6),
        index: 1,
    };
    assert!(rt; matches!(book.arrive(unknown), Err(BookFault::NoMessage(name)) if name == unknown));
    assert!(rt;
        matches!(book.forward(unknown), Err(BookFault::NoMessage(name)) if name == unknown)
    );
    assert!(rt; matches!(book.forward(message(6)), Err(BookFault::NotThere)));
    expect_entered(&rt, book.arrive(message(6)), 7);
    assert!(rt; matches!(book.arrive(message(6)), Err(BookFault::NotThere)));
    assert!(rt; matches!(book.forward(message(6)), Err(BookFault::NotReady)));
}

/// What is sent to a promise waits at the sender, and goes on to where the promise leads.
#[test]
fn a_message_goes_on(rt: HostRuntime) {
    let mut book = Book::new(rt.alloc());
    birth_behind(&rt, &mut book, "c", &[], "def _ { method six() { 6 } }", 1);
    turn(&rt, &mut book, 1, 2);
    birth_behind(
        &rt,
        &mut book,
        "b",
        &["c"],
        "def _ { method it() { c } }",
        3,
    );
    turn(&rt, &mut book, 3, 4);
    birth_behind(&rt, &mut book, "a", &["b"], "", 5);
    turn(&rt, &mut book, 5, 6);
    ask(&rt, &mut book, "a", "(b <- it()) <- six()", 7);
    turn(&rt, &mut book, 7, 8);
    let second = MsgId {
        event: EventName(8),
        index: 1,
    };
    expect_entered(&rt, book.arrive(message(8)), 9);
    expect_entered(&rt, book.arrive(second), 10);
    turn(&rt, &mut book, 8, 11);
    expect_entered(&rt, book.forward(second), 12);
    expect_entered(&rt, book.arrive(second), 13);
    match book.turn(second, BUDGET) {
        Ok(turned) => expect_integer(&rt, &turned.ended, 6),
        Err(fault) => panic!(rt; "turn: {fault}"),
    }
}
