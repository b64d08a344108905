// What is picked to be done next.
ghost use Rattle.std.specs.Prelude.{◌≡◌, IfOk, IfErr, OnErr};
ghost use Rattle.book.specs.BookView.{book_of};
ghost use Rattle.bench.specs.Author.{Picks, RefusesPick};

use book::book::Book;
use book::request::Request;
use book_agenda::agenda::Step;
use book_refusals::fault::BookFault;
use ids::names::EventName;
use turn::ticket::{Out, Ticket};

/// What a seat is given to do.
pub enum Pick {
    /// Nothing may be done.
    Nothing,
    /// It was done at once: a message arrived or went on, or a vat learnt something.
    Moved(EventName),
    /// A turn is to be run, and to be given then.
    Turn(Ticket<Out>),
}

/// Picks the first that may be done, for a seat. Fails for want of memory, or where the journal has no room or names are used up.
pub(crate) fn pick_first(book: &mut Book, budget: u32, seat: u64) -> Result<Pick, BookFault>
    ensures ok { IfOk result (λ p. Picks budget seat p (book_of book.old) (book_of book.new)) }
    ensures err { IfErr result (λ fault. RefusesPick budget (book_of book.old) fault) }
    ensures unchanged { OnErr result (book_of book.new ≡ book_of book.old) }
{
    let Some(step) = book.next()? else {
        return Ok(Pick::Nothing);
    };
    match step {
        Step::Move(what) => {
            let event = book.enter(Request::Move(what), seat)?;
            Ok(Pick::Moved(event))
        }
        Step::Turn(message) => {
            let ticket = book.checkout(message, budget, seat)?;
            Ok(Pick::Turn(ticket))
        }
    }
}
