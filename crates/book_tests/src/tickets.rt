// Tickets that are out while events are undone and redone, and the answer of each call of a book.

use crate::calls::{
    BUDGET, ask, birth, expect_integer, expect_journal, message, redo, settle, turn, undo,
};
use book::book::Book;
use book_refusals::fault::BookFault;
use ids::names::EventName;
use journal::entry::Mark;
use std::process::Abort;
use turn::ticket::{Out, Ran, Ticket};

/// The seat that tickets are lent to.
const SEAT: u64 = 7;

/// A book with a vat `a` that has run its script `var n := 0` in e2, and two questions: e3 sets `n`, and e4 reads it.
pub(crate) fn asked(rt: &(impl Abort + AllocGlobal), first: &str) -> Book {
    let mut book = Book::new(rt.alloc());
    birth(rt, &mut book, "a", "var n := 0", 1);
    let _ended = turn(rt, &mut book, 1, 2);
    ask(rt, &mut book, "a", first, 3);
    ask(rt, &mut book, "a", "n", 4);
    book
}

/// The ticket of the first message of an event, whose number is this.
pub(crate) fn checkout(
    rt: &(impl Abort + AllocGlobal),
    book: &mut Book,
    of: u32,
    event: u32,
) -> Ticket<Out> {
    match book.checkout(message(of), BUDGET, SEAT) {
        Ok(ticket) => {
            if ticket.carried().event != EventName(event) {
                ticket.discard();
                return rt.panic("another number");
            }
            ticket
        }
        Err(fault) => panic!(rt; "checkout: {fault}"),
    }
}

/// Lets a ticket that is out go, by its number.
fn abandon(rt: &impl Abort, book: &mut Book, number: u32) {
    assert!(rt; book.abandon(EventName(number)).is_ok());
}

/// The same ticket, once its turn was run.
pub(crate) fn run(rt: &impl Abort, ticket: Ticket<Out>) -> Ticket<Ran> {
    match ticket.run() {
        Ok(ran) => ran,
        Err((ticket, _)) => {
            ticket.discard();
            rt.panic("no memory")
        }
    }
}

/// Commits a ticket that is not refused. Its turn has its number and its seat in the journal's last entry.
fn commit(rt: &impl Abort, book: &mut Book, ticket: Ticket<Ran>, event: u32) {
    match book.commit(ticket) {
        Ok(entered) => assert!(rt; entered == EventName(event)),
        Err((ticket, fault)) => {
            ticket.discard();
            panic!(rt; "commit: {fault}");
        }
    }
    match book.journal().entries.last() {
        Some(entry) => {
            assert!(rt; entry.event.name == EventName(event));
            assert!(rt; entry.seat == SEAT);
            assert!(rt; matches!(entry.mark, Mark::Live));
        }
        None => rt.panic("no entry"),
    }
}

/// Commits a ticket that is refused: it comes back, with why.
fn refuse(rt: &impl Abort, book: &mut Book, ticket: Ticket<Ran>) -> (Ticket<Ran>, BookFault) {
    match book.commit(ticket) {
        Ok(_) => rt.panic("accepted"),
        Err(back) => back,
    }
}

/// Commits a ticket that no such book lent, and spends it.
pub(crate) fn refuse_strange(rt: &impl Abort, book: &mut Book, ticket: Ticket<Ran>) {
    let (ticket, fault) = refuse(rt, book, ticket);
    ticket.discard();
    assert!(rt; matches!(fault, BookFault::NoTicket));
}

/// Commits a ticket whose vat is no longer as its turn found it. It comes back.
fn refuse_stale(rt: &impl Abort, book: &mut Book, ticket: Ticket<Ran>) -> Ticket<Ran> {
    let (ticket, fault) = refuse(rt, book, ticket);
    if !matches!(fault, BookFault::Stale) {
        ticket.discard();
        return rt.panic("another fault");
    }
    ticket
}

const BEGUN: [(u32, Mark); 4] = [
    (1, Mark::Live),
    (2, Mark::Live),
    (3, Mark::Live),
    (4, Mark::Live),
];

const UNOPENED: [(u32, Mark); 4] = [
    (1, Mark::Live),
    (2, Mark::Undone),
    (3, Mark::Live),
    (4, Mark::Live),
];

/// A turn that was run is entered, or its ticket let go where the vat is no longer as it was found.
#[test]
fn entered_and_let_go(rt: HostRuntime) {
    let mut book = asked(&rt, "n := 1");
    let ticket = checkout(&rt, &mut book, 3, 5);
    let ran = run(&rt, ticket);
    commit(&rt, &mut book, ran, 5);
    let ticket = checkout(&rt, &mut book, 4, 6);
    undo(&rt, &mut book, 5);
    let ran = run(&rt, ticket);
    let back = refuse_stale(&rt, &mut book, ran);
    assert!(rt; book.abandon(EventName(6)).is_ok());
    refuse_strange(&rt, &mut book, back);
    expect_integer(&rt, &turn(&rt, &mut book, 4, 7), 0);
}

/// The opening is undone while a ticket is out: the ticket is stale, and its number is not drawn again.
#[test]
fn undone_beneath_a_ticket(rt: HostRuntime) {
    let mut book = asked(&rt, "n := 1");
    let first = checkout(&rt, &mut book, 3, 5);
    let ran = run(&rt, first);
    undo(&rt, &mut book, 2);
    let back = refuse_stale(&rt, &mut book, ran);
    back.discard();
    expect_journal(&rt, &book, &UNOPENED);
    assert!(rt; book.abandon(EventName(5)).is_ok());
    redo(&rt, &mut book, 2);
    let second = checkout(&rt, &mut book, 3, 6);
    let ran = run(&rt, second);
    commit(&rt, &mut book, ran, 6);
    expect_integer(&rt, &turn(&rt, &mut book, 4, 7), 1);
}

/// The opening is undone and redone while a ticket is out: the ticket is as good as before.
#[test]
fn redone_beneath_a_ticket(rt: HostRuntime) {
    let mut book = asked(&rt, "n := 1");
    let ticket = checkout(&rt, &mut book, 3, 5);
    let ran = run(&rt, ticket);
    undo(&rt, &mut book, 2);
    expect_journal(&rt, &book, &UNOPENED);
    redo(&rt, &mut book, 2);
    expect_journal(&rt, &book, &BEGUN);
    commit(&rt, &mut book, ran, 5);
    assert!(rt; book.journal().len() == 5);
    expect_integer(&rt, &turn(&rt, &mut book, 4, 6), 1);
}

/// The opening is settled while a ticket is out: the ticket is as good as before, and its turn is numbered on.
#[test]
fn settled_beneath_a_ticket(rt: HostRuntime) {
    let mut book = asked(&rt, "n := 1");
    let ticket = checkout(&rt, &mut book, 3, 5);
    let ran = run(&rt, ticket);
    settle(&rt, &mut book, 3);
    expect_journal(&rt, &book, &[(4, Mark::Live)]);
    commit(&rt, &mut book, ran, 5);
    assert!(rt; book.journal().len() == 5);
    assert!(rt;
        matches!(
            book.undo(&[EventName(2)]),
            Err(BookFault::Settled(EventName(2)))
        )
    );
    assert!(rt; matches!(book.settle(2), Err(BookFault::Settled(EventName(2)))));
    assert!(rt; matches!(book.settle(6), Err(BookFault::NoPosition(6))));
    undo(&rt, &mut book, 5);
    assert!(rt; matches!(book.settle(5), Err(BookFault::NotLive(EventName(5)))));
    expect_integer(&rt, &turn(&rt, &mut book, 4, 6), 0);
}

/// The seat of a settled entry is counted still.
#[test]
fn settled_seats(rt: HostRuntime) {
    let mut book = asked(&rt, "n := 1");
    let ticket = checkout(&rt, &mut book, 3, 5);
    let ran = run(&rt, ticket);
    commit(&rt, &mut book, ran, 5);
    settle(&rt, &mut book, 5);
    expect_journal(&rt, &book, &[]);
    assert!(rt; book.greatest_seat() == SEAT);
}

/// A turn of another vat is undone while a ticket is out: that is nothing to it.
#[test]
fn undone_elsewhere(rt: HostRuntime) {
    let mut book = asked(&rt, "n := 1");
    birth(&rt, &mut book, "b", "var m := 5", 5);
    let _ended = turn(&rt, &mut book, 5, 6);
    let ticket = checkout(&rt, &mut book, 3, 7);
    let ran = run(&rt, ticket);
    undo(&rt, &mut book, 6);
    commit(&rt, &mut book, ran, 7);
    let mark = |place: usize| book.journal().entries.get(place).map(|entry| entry.mark);
    assert!(rt; matches!(mark(5), Some(Mark::Undone)));
    assert!(rt; matches!(mark(6), Some(Mark::Live)));
    assert!(rt; book.journal().len() == 7);
}

/// The message of a ticket is undone and redone: the ticket that came back is entered under its first name.
#[test]
fn undone_message(rt: HostRuntime) {
    let mut book = asked(&rt, "n := 1");
    let ticket = checkout(&rt, &mut book, 3, 5);
    let ran = run(&rt, ticket);
    undo(&rt, &mut book, 3);
    let back = refuse_stale(&rt, &mut book, ran);
    assert!(rt; book.journal().len() == 4);
    redo(&rt, &mut book, 3);
    expect_journal(&rt, &book, &BEGUN);
    commit(&rt, &mut book, back, 5);
    expect_integer(&rt, &turn(&rt, &mut book, 4, 6), 1);
}

/// One ticket of a vat is out at a time.
#[test]
fn one_ticket_of_a_vat(rt: HostRuntime) {
    let mut book = asked(&rt, "n := 1");
    let first = checkout(&rt, &mut book, 3, 5);
    first.discard();
    match book.checkout(message(4), BUDGET, SEAT) {
        Ok(second) => {
            second.discard();
            rt.panic("a second ticket")
        }
        Err(fault) => assert!(rt; matches!(fault, BookFault::VatOut)),
    }
    assert!(rt; matches!(book.turn(message(4), BUDGET), Err(BookFault::VatOut)));
    assert!(rt; book.abandon(EventName(5)).is_ok());
    assert!(rt; matches!(book.abandon(EventName(5)), Err(BookFault::NoTicket)));
    checkout(&rt, &mut book, 4, 6).discard();
    expect_journal(&rt, &book, &BEGUN);
}

/// A ticket is refused once its number was let go.
#[test]
fn a_ticket_that_was_let_go(rt: HostRuntime) {
    let mut book = asked(&rt, "n := 1");
    let ticket = checkout(&rt, &mut book, 3, 5);
    let ran = run(&rt, ticket);
    abandon(&rt, &mut book, 5);
    refuse_strange(&rt, &mut book, ran);
    checkout(&rt, &mut book, 3, 6).discard();
    expect_journal(&rt, &book, &BEGUN);
}

/// A book refuses the ticket of another one that goes by the same number.
#[test]
fn a_ticket_of_another_book(rt: HostRuntime) {
    let mut book = asked(&rt, "n := 1");
    let mut other = asked(&rt, "n := 2");
    checkout(&rt, &mut other, 3, 5).discard();
    abandon(&rt, &mut other, 5);
    checkout(&rt, &mut other, 3, 6).discard();
    checkout(&rt, &mut book, 3, 5).discard();
    abandon(&rt, &mut book, 5);
    let same_number = checkout(&rt, &mut book, 3, 6);
    let ran = run(&rt, same_number);
    refuse_strange(&rt, &mut other, ran);
    expect_journal(&rt, &book, &BEGUN);
    expect_journal(&rt, &other, &BEGUN);
}

/// The budget of a ticket is 1 to 1,000,000.
#[test]
fn budgets_of_tickets(rt: HostRuntime) {
    let mut book = asked(&rt, "n := 1");
    for budget in [0, 1_000_001] {
        match book.checkout(message(3), budget, SEAT) {
            Ok(ticket) => {
                ticket.discard();
                rt.panic("a bad budget")
            }
            Err(fault) => assert!(rt; matches!(fault, BookFault::BadBudget)),
        }
    }
    checkout(&rt, &mut book, 3, 5).discard();
}

/// Each call of a book, once, where memory is ample.
#[test]
fn each_call_of_a_book(rt: HostRuntime) {
    let mut book = Book::new(rt.alloc());
    assert!(rt; book.journal().entries.is_empty());
    birth(&rt, &mut book, "a", "var n := 0", 1);
    expect_integer(&rt, &turn(&rt, &mut book, 1, 2), 0);
    ask(&rt, &mut book, "a", "n := n + 1", 3);
    let ticket = checkout(&rt, &mut book, 3, 4);
    let ran = run(&rt, ticket);
    commit(&rt, &mut book, ran, 4);
    ask(&rt, &mut book, "a", "n", 5);
    expect_integer(&rt, &turn(&rt, &mut book, 5, 6), 1);
    match book.exchange(4) {
        Ok((first, second)) => assert!(rt; first == EventName(4) && second == EventName(5)),
        Err(fault) => panic!(rt; "exchange: {fault}"),
    }
    match book.cone(EventName(3)) {
        Ok(names) => {
            let wanted = [EventName(3), EventName(4), EventName(6)];
            assert!(rt; names.iter().eq(wanted.iter()));
            match book.undo(&names) {
                Ok(count) => assert!(rt; count == 3),
                Err(fault) => panic!(rt; "undo: {fault}"),
            }
            expect_journal(
                &rt,
                &book,
                &[
                    (1, Mark::Live),
                    (2, Mark::Live),
                    (3, Mark::Undone),
                    (5, Mark::Live),
                    (4, Mark::Undone),
                    (6, Mark::Undone),
                ],
            );
            match book.redo(&names) {
                Ok(count) => assert!(rt; count == 3),
                Err(fault) => panic!(rt; "redo: {fault}"),
            }
        }
        Err(fault) => panic!(rt; "cone: {fault}"),
    }
    settle(&rt, &mut book, 1);
    checkout_and_abandon(&rt, &mut book);
}

/// A ticket that is let go leaves the journal and the world as they are.
fn checkout_and_abandon(rt: &(impl Abort + AllocGlobal), book: &mut Book) {
    ask(rt, book, "a", "n := 9", 7);
    checkout(rt, book, 7, 8).discard();
    assert!(rt; book.abandon(EventName(8)).is_ok());
    assert!(rt; book.journal().len() == 7);
    ask(rt, book, "a", "n", 9);
    expect_integer(rt, &turn(rt, book, 9, 10), 1);
}
