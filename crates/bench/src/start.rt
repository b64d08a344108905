//! A book with the cell of a Bench that no type stands for yet.
ghost use Rattle.std.specs.Prelude.{◌≡◌, IfOk, IfErr};
ghost use Rattle.book.specs.BookView.{book_of};
ghost use Rattle.book.specs.Entered.{entered_in};
ghost use Rattle.book_crew.specs.Work.{IsGreatestSeat};

use crate::seat::Opening;
use crate::under_lock::SharedBook;
use bench_pact::{PactCell, PactToken, begin};
use book::book::Book;
use std::alloc::{AllocError, Global};
use std::marker::Model;
use std::sync::ledger::Blank;

/// What a Bench begins with: a book, a new cell, and the greatest seat of the book's entries and of its tickets that are out.
#[derive(Drop)]
pub struct Begun {
    cell: PactCell,
    keeper: PactToken,
    book: Book,
    before: u64,
}

impl Model for Begun {
    ghost use Rattle.std.specs.Prelude.{◌≡◌, []};
    ghost use Rattle.crossbeam_utils.specs.Seq.{cell_view};
    ghost use Rattle.book.specs.BookView.{book_of};
    ghost use Rattle.bench_pact.specs.Agree.{knower};
    ghost use Rattle.book_crew.specs.Work.{IsGreatestSeat};
    ghost use Rattle.bench.specs.SharedBookView.{Start, start_code};

    ghost Value = { Start };

    ghost coded = { start_code };

    ghost view = { λ o. record { table = o.cell.table.shared.table_id; book = o.book; before = o.before } };

    ghost invariant = { λ o. (o.keeper.table_id ≡ o.cell.table.shared.table_id) × (cell_view o.keeper ≡ knower []) × IsGreatestSeat o.before (book_of o.book) };
}

impl Begun {
    /// Fails only for want of memory, and then the book comes back.
    pub fn new(alloc: Global, book: Book) -> Result<Begun, (Book, AllocError)>
        ensures ok { IfOk result (λ o. (o.book ≡ book) × IsGreatestSeat o.before (book_of book)) }
        ensures err { IfErr result (λ e. e.0 ≡ book) }
    {
        let before = book.greatest_seat();
        match begin(alloc) {
            Ok((cell, keeper)) => Ok(Begun {
                cell,
                keeper,
                book,
                before,
            }),
            Err(error) => Err((book, error)),
        }
    }

    /// The cell, and the book that is to lie under the lock.
    pub fn into_shared<L: Opening>(
        self,
        budget: u32,
        blank: Blank,
        parts: u64,
    ) -> (PactCell, SharedBook<L>)
        requires ledger { (blank.name ≡ L.name) × (blank.parts ≡ L.parts) × (L.parts ≡ L.seats) × (parts ≡ L.seats) }
        requires book { (self.table ≡ L.table) × (entered_in (book_of self.book).journal ≡ L.began) × (self.before ≡ L.before) }
        ensures cell { result.0.table.shared.table_id ≡ L.table }
        ensures book { result.1.book ≡ self.book }
        ensures greatest { IsGreatestSeat L.before (book_of self.book) }
    {
        let Begun {
            cell,
            keeper,
            book,
            before,
        } = self;
        (
            cell,
            SharedBook::new(book, budget, keeper, before, blank, parts),
        )
    }
}
