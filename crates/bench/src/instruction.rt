// What authors ask of a Bench, and what that does to a book.
ghost use Rattle.std.specs.Prelude.{◌≡◌, IfOk, IfErr, OnErr};
ghost use Rattle.book.specs.BookView.{book_of};
ghost use Rattle.bench.specs.Author.{Obeys, Refuses};

use bench_pact::Act;
use book::book::Book;
use book::request::Request;
use book_refusals::fault::BookFault;
use ids::names::EventName;

/// What an author asks of a Bench: that a request is entered, or the call of the book of that name.
#[derive(Drop)]
pub enum Instruction {
    Enter(Request),
    Abandon(EventName),
    Undo(Vec<EventName>),
    Redo(Vec<EventName>),
    Exchange(usize),
}

impl Instruction {
    ghost use Rattle.bench.specs.Author.{mark_of};

    /// What a seat notes of an instruction that enters no event, or that is refused.
    pub(crate) fn mark(&self) -> Act
        ensures { result ≡ mark_of self.now }
    {
        match self {
            Instruction::Abandon(number) => Act::Closes(*number),
            Instruction::Enter(_)
            | Instruction::Undo(_)
            | Instruction::Redo(_)
            | Instruction::Exchange(_) => Act::Nothing,
        }
    }
}

/// Does what is asked for, from a seat. Answers the name of a new event, where it enters one.
pub(crate) fn obey(
    book: &mut Book,
    instruction: Instruction,
    seat: u64,
) -> Result<Option<EventName>, BookFault>
    ensures ok { IfOk result (λ o. Obeys instruction seat o (book_of book.old) (book_of book.new)) }
    ensures err { IfErr result (λ fault. Refuses instruction (book_of book.old) fault) }
    ensures unchanged { OnErr result (book_of book.new ≡ book_of book.old) }
{
    match instruction {
        Instruction::Enter(request) => {
            let event = book.enter(request, seat)?;
            Ok(Some(event))
        }
        Instruction::Abandon(number) => {
            book.abandon(number)?;
            Ok(None)
        }
        Instruction::Undo(events) => {
            book.undo(&events)?;
            Ok(None)
        }
        Instruction::Redo(events) => {
            book.redo(&events)?;
            Ok(None)
        }
        Instruction::Exchange(position) => {
            book.exchange(position)?;
            Ok(None)
        }
    }
}
