// The book goes to a crew, and comes back.
use book::book::Book;
use book_refusals::fault::WorkFault;
use std::alloc::Global;

/// What the command `work` asks for.
#[derive(Clone, Copy)]
pub struct Order {
    /// The most steps of a turn.
    pub budget: u32,
    /// How many workers are to be started.
    pub workers: u32,
    /// The most turns that they may take.
    pub turns: u32,
}

/// Takes the book for `work`, and gives it back. It alone may wait.
pub trait Crew {
    ghost use Rattle.std.specs.Prelude.{◌≡◌, IfOk, IfErr};
    ghost use Rattle.book.specs.BookView.{book_of};
    ghost use Rattle.book_crew.specs.Work.{Worked, RefusesWork};

    /// What it takes for workers to start, which whoever has the crew shows: of threads, that they may share what starts them.
    ghost ready: { Type 0 } = { Unit {0} };

    /// Has workers do what may be done in a book, until so many turns were taken or nothing may be done. Answers the book, with how many
    /// of their turns were entered.
    ///
    /// # Errors
    /// `NoWorker` where none could be started, `Memory`, and `BadBudget` where a turn may not have so many steps. The book is as it was.
    fn work(&mut self, alloc: Global, book: Book, order: Order) -> (Book, Result<u64, WorkFault>)
        requires { Self.ready }
        ensures ok { IfOk result.1 (λ turns. Worked order.workers order.turns turns (book_of book) (book_of result.0)) }
        ensures err { IfErr result.1 (λ fault. RefusesWork order.budget fault × (book_of result.0 ≡ book_of book)) };
}

/// A crew of nobody: no worker can be started.
#[derive(Clone, Copy)]
pub struct Nobody;

impl Crew for Nobody {
    fn work(
        &mut self,
        _alloc: Global,
        book: Book,
        _order: Order,
    ) -> (Book, Result<u64, WorkFault>) {
        (book, Err(WorkFault::NoWorker))
    }
}
