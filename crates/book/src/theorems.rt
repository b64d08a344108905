// What holds of books.
ghost use Rattle.book.specs.Calls.{RedoNextGivesBack};
ghost use Rattle.book.specs.Good.{IsGood, NamesVatsOnce, RedoNextIsAllowed, live_events};
ghost use Rattle.book.specs.Standing.{Apart};
ghost use Rattle.book.specs.BookView.{book_of};
ghost use Rattle.event_ordering.specs.Theorems.{InOrder};
ghost use Rattle.book.specs.Limits.{LimitsAreNumbers};

use crate::book::Book;

/// A redo of what was just undone gives back the former journal and world.
pub fn redo_next_gives_back()
    ensures { RedoNextGivesBack }
{}

/// A redo of what was just undone in a book is refused for want of memory alone.
pub fn redo_next_is_allowed(book: &Book)
    ensures { RedoNextIsAllowed (book_of book.now) }
{}

/// The journal of every book is good: names are apart and were drawn, causes are older entries, the live entries have their causes among
/// the live ones, and no others, the cells of the live ones are those of the plain run, and there are no more than a journal may have.
pub fn journals_are_good(book: &Book)
    ensures { IsGood (book_of book.now) }
{}

/// The live events of every book, also after an undo, a redo or an exchange, had their turns in the partial order of messages: each message
/// that comes before another one in it had its turn before that one.
pub fn turns_are_in_order(book: &Book)
    ensures { InOrder (live_events (book_of book.now)) (book_of book.now).world }
{}

/// No two names stand for one vat in the world of a book.
pub fn vats_have_one_name(book: &Book)
    ensures { NamesVatsOnce (book_of book.now).world }
{}

/// No two tickets of a book that are out have one number, or are of one vat.
pub fn tickets_are_apart(book: &Book)
    ensures { Apart (book_of book.now).out }
{}

/// An event is named by at most 4,294,967,295, a journal has at most 1,048,576 entries that are not settled, and a turn is given at most
/// 1,000,000 steps.
pub fn limits_are_numbers()
    ensures { LimitsAreNumbers }
{}
