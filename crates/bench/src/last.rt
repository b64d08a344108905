// The event that a book entered last.
ghost use Rattle.std.specs.Prelude.{◌≡◌, ◌<◌, List, [], ◌∷◌, ◌++◌, length};
ghost use Rattle.world_cells.specs.EventView.{event_of};
ghost use Rattle.book.specs.BookView.{book_of};
ghost use Rattle.book.specs.Entered.{Entered, entered_in};

use book::book::Book;
use std::snapshot::Snapshot;
use world_cells::event::Event;

/// The event of the last entry, for proofs alone.
pub(crate) fn last_event(book: &Book) -> Snapshot<Event>
    requires { (book_of book.now).settled < length (book_of book.now).journal }
    ensures { (before : List Entered) (e : Entered) → entered_in (book_of book.now).journal ≡ before ++ e ∷ [] → event_of result.value ≡ e.event }
{
    let entries = book.journal().entries;
    let last = &entries[entries.len() - 1];
    Snapshot::of(&last.event)
}
