// Calls of a book that no command makes.

use crate::calls::message;
use book::book::Book;
use book_refusals::fault::BookFault;

/// Of no events nothing is undone or redone.
#[test]
fn no_events(rt: HostRuntime) {
    let mut book = Book::new(rt.alloc());
    assert!(rt; book.undo(&[]).expect(&rt, "no refusal") == 0);
    assert!(rt; book.redo(&[]).expect(&rt, "no refusal") == 0);
}

/// A budget is 1 to 1,000,000, and is looked at first.
#[test]
fn bad_budgets(rt: HostRuntime) {
    let mut book = Book::new(rt.alloc());
    for budget in [0, 1_000_001] {
        assert!(rt; matches!(book.turn(message(1), budget), Err(BookFault::BadBudget)));
    }
    for budget in [1, 1_000_000] {
        assert!(rt; matches!(book.turn(message(1), budget), Err(BookFault::NoMessage(_))));
    }
}
