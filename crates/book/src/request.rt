// What a book can be asked to enter.
ghost use Rattle.std.specs.Prelude.{◌≡◌, IfOk, IfErr, OnOk, OnErr};
ghost use Rattle.book_refusals.specs.Fault.{Tells};
ghost use Rattle.book.specs.Requests.{EntersRequest, request_refusal};

use crate::book::Book;
use book_agenda::agenda::Move;
use book_refusals::fault::BookFault;
use ids::names::EventName;
use ids::text::Text;
use kernele::tree::Program;

/// What can be asked to happen, as one event. A turn, which is run before it is entered, has calls of its own.
#[derive(Drop)]
pub enum Request {
    /// A new vat of this name, which knows earlier ones, with its script.
    Birth(Text, Vec<Text>, Program),
    /// A program for the vat of this name.
    Ask(Text, Program),
    /// A message arrives or goes on, or a vat learns something.
    Move(Move),
}

impl Book {
    ghost use Rattle.book.specs.BookView.{book_of, swaps_of};
    ghost use Rattle.book.specs.Counting.{CountsNew};

    /// Enters what is asked for, from a seat.
    ///
    /// # Errors
    /// Those of `birth_as`, `ask_as`, `arrive_as` or `forward_as`; where a vat learns, those of `learn_as` but `NoVat`.
    pub fn enter(&mut self, request: Request, seat: u64) -> Result<EventName, BookFault>
        ensures ok { IfOk result (λ e. EntersRequest request seat e (book_of self.old) (book_of self.new)) }
        ensures err { IfErr result (λ fault. Tells fault (request_refusal request (book_of self.old))) }
        ensures unchanged { OnErr result (book_of self.new ≡ book_of self.old) }
        ensures counted { OnOk result (CountsNew self.old self.new) }
        ensures none { OnErr result (swaps_of self.new ≡ swaps_of self.old) }
    {
        match request {
            Request::Birth(name, earlier, script) => self.birth_as(&name, earlier, script, seat),
            Request::Ask(name, program) => self.ask_as(&name, program, seat),
            Request::Move(Move::Arrive(message)) => self.arrive_as(message, seat),
            Request::Move(Move::Forward(message)) => self.forward_as(message, seat),
            Request::Move(Move::Learn(vat, promise)) => self.learn_at(vat, promise, seat),
        }
    }
}
