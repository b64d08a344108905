//! What lies under the lock: the book, and what is known of the seats.
ghost use Rattle.std.specs.Prelude.{◌≡◌, ◌≢◌, ◌<◌, ◌≤◌, ◌+◌, ◌↔◌, [], All, IsTrue, IfOk, IfErr, IfSome, IfNone, Err, true, is_some, length, sum_by, vec_len};
ghost use Rattle.crossbeam_utils.specs.Seq.{cell_view};
ghost use Rattle.book_refusals.specs.declared.fault.BookFault.TheVariants.{NoTicket};
ghost use Rattle.book.specs.BookView.{book_of};
ghost use Rattle.book.specs.Calls.{Commits};
ghost use Rattle.desk.specs.Desks.{without};
ghost use Rattle.book.specs.TurnFaults.{TellsCommit};
ghost use Rattle.bench_pact.specs.declared.Act.TheVariants.{Closes};
ghost use Rattle.bench_pact.specs.Agree.{blank, knower};
ghost use Rattle.book.specs.Entered.{entered_in, IsAmong};
ghost use Rattle.bench.specs.SharedBook.{held, refused, left_by, has_seat, Answers, Returns};
ghost use Rattle.book_crew.specs.Work.{IsGreatestSeat};
ghost use Rattle.bench.specs.Author.{Obeys, Authored, Refuses, mark_of, turn_of, Picks, Picked, RefusesPick};

use crate::instruction::{Instruction, obey};
use crate::last::last_event;
use crate::pick::{Pick, pick_first};
use crate::seat::{Opening, Seat};
use bench_pact::{Act, PactCell, PactToken, add};
use book::book::Book;
use book_refusals::fault::BookFault;
use ids::names::EventName;
use std::marker::{Model, PhantomData};
use std::sync::Wait;
use std::sync::ledger::{Blank, Book as Entries, Share};
use turn::ticket::{Ran, Ticket};

/// The greatest number that a seat may have.
const LAST_SEAT: u64 = 4_294_967_295;

/// The book, with the token that knows what each seat did, and the ledger of what was entered.
#[derive(Drop)]
pub struct SharedBook<L: Opening> {
    book: Book,
    /// The most steps of a turn.
    budget: u32,
    keeper: PactToken,
    entries: Entries<L>,
    /// The parts of the ledger of seats that are still to be made, and how many these are.
    rest: Share<L>,
    left: u64,
    made: u64,
    /// The greatest seat from before.
    before: u64,
    of: PhantomData<L>,
}

impl<L: Opening> Model for SharedBook<L> {
    ghost use Rattle.std.specs.Prelude.{◌≡◌, ◌+◌, length};
    ghost use Rattle.crossbeam_utils.specs.Seq.{cell_view};
    ghost use Rattle.book.specs.BookView.{book_of};
    ghost use Rattle.bench.specs.SharedBook.{IsSharedBook};
    ghost use Rattle.bench.specs.SharedBookView.{SharedView, shared_code};

    ghost Value = { SharedView };

    ghost coded = { shared_code };

    ghost view = { λ d. record { book = d.book; budget = d.budget; made = d.made } };

    ghost invariant = { λ d. (d.keeper.table_id ≡ L.table) × (d.before ≡ L.before) × IsSharedBook (L.before + 1) d.made L.began (cell_view d.keeper) (book_of d.book) × (d.entries.total + length L.began ≡ length (book_of d.book).journal) × (d.rest.parts + d.made ≡ L.seats) × (d.rest.amount ≡ 0) × (d.left ≡ d.rest.parts) };
}

impl<L: Opening> SharedBook<L> {
    /// No seat is made yet. The ledger has a part for each that there may be.
    pub fn new(
        book: Book,
        budget: u32,
        keeper: PactToken,
        before: u64,
        blank: Blank,
        parts: u64,
    ) -> SharedBook<L>
        requires ledger { (blank.name ≡ L.name) × (blank.parts ≡ L.parts) × (L.parts ≡ L.seats) × (parts ≡ L.seats) }
        requires keeper { (keeper.table_id ≡ L.table) × (cell_view keeper ≡ knower []) }
        requires began { (entered_in (book_of book).journal ≡ L.began) × (before ≡ L.before) }
        requires greatest { IsGreatestSeat before (book_of book) }
        ensures { (result.book ≡ book) × (result.budget ≡ budget) × (result.made ≡ 0) }
    {
        let (entries, rest) = blank.open::<L>();
        SharedBook {
            book,
            budget,
            keeper,
            entries,
            rest,
            left: parts,
            made: 0,
            before,
            of: PhantomData,
        }
    }

    /// A new seat, with the next number; none just where numbers or the parts of the ledger are used up, and then nothing changes.
    pub fn seat<R: Wait>(&mut self, rt: &R, cell: &PactCell) -> Option<Seat<L>>
        requires { cell.now.table.shared.table_id ≡ L.table }
        ensures kept { (self.new.book ≡ self.old.book) × (self.new.budget ≡ self.old.budget) }
        ensures there { is_some result ≡ has_seat L.before self.old.made L.seats }
        ensures none { IfNone result (self.new ≡ self.old) }
        ensures seat { IfSome result (λ s. (s.number ≡ L.before + 1 + self.old.made) × (s.deeds ≡ blank) × (self.new.made ≡ self.old.made + 1)) }
    {
        if self.left == 0 || self.before >= LAST_SEAT || self.made >= LAST_SEAT - self.before {
            return None;
        }
        let number = self.before + 1 + self.made;
        let share = self.rest.split_off(1, 0);
        self.left -= 1;
        let token = add(rt, cell, &mut self.keeper);
        self.made += 1;
        Some(Seat::new(number, token, share))
    }

    /// Does what is asked for, for a seat. Answers the name of a new event, where it enters one.
    ///
    /// # Errors
    /// Those of the call of the book. A number that is abandoned is no longer open with the seat then either.
    pub fn author<R: Wait>(
        &mut self,
        rt: &R,
        cell: &PactCell,
        instruction: Instruction,
        seat: &mut Seat<L>,
    ) -> Result<Option<EventName>, BookFault>
        requires { cell.now.table.shared.table_id ≡ L.table }
        ensures ok { IfOk result (λ o. Obeys instruction seat.old.number o (book_of self.old.book) (book_of self.new.book) × Authored instruction seat.old o seat.new) }
        ensures err { IfErr result (λ fault. Refuses instruction (book_of self.old.book) fault × (seat.new ≡ held seat.old (mark_of instruction)) × (book_of self.new.book ≡ book_of self.old.book)) }
        ensures kept { (self.new.budget ≡ self.old.budget) × (self.new.made ≡ self.old.made) }
    {
        let mark = instruction.mark();
        match obey(&mut self.book, instruction, seat.number()) {
            Ok(Some(event)) => {
                let entered = last_event(&self.book);
                seat.note(
                    rt,
                    cell,
                    &mut self.keeper,
                    &mut self.entries,
                    &Act::Enters(entered),
                );
                Ok(Some(event))
            }
            Ok(None) => {
                seat.note(rt, cell, &mut self.keeper, &mut self.entries, &mark);
                Ok(None)
            }
            Err(fault) => {
                seat.note(rt, cell, &mut self.keeper, &mut self.entries, &mark);
                Err(fault)
            }
        }
    }

    /// Picks the first that may be done, for a seat.
    ///
    /// # Errors
    /// `Full`, `Memory`.
    pub fn checkout<R: Wait>(
        &mut self,
        rt: &R,
        cell: &PactCell,
        seat: &mut Seat<L>,
    ) -> Result<Pick, BookFault>
        requires { cell.now.table.shared.table_id ≡ L.table }
        ensures seated { (L.before < seat.old.number) × (seat.old.number ≤ L.before + L.seats) }
        ensures ok { IfOk result (λ p. Picks self.old.budget seat.old.number p (book_of self.old.book) (book_of self.new.book) × Picked p seat.old seat.new) }
        ensures err { IfErr result (λ fault. RefusesPick self.old.budget (book_of self.old.book) fault × (seat.new ≡ seat.old) × (book_of self.new.book ≡ book_of self.old.book)) }
        ensures kept { (self.new.budget ≡ self.old.budget) × (self.new.made ≡ self.old.made) }
    {
        match pick_first(&mut self.book, self.budget, seat.number())? {
            Pick::Nothing => Ok(Pick::Nothing),
            Pick::Moved(event) => {
                let moved = last_event(&self.book);
                seat.note(
                    rt,
                    cell,
                    &mut self.keeper,
                    &mut self.entries,
                    &Act::Enters(moved),
                );
                Ok(Pick::Moved(event))
            }
            Pick::Turn(ticket) => {
                let number = ticket.carried().event;
                seat.note(
                    rt,
                    cell,
                    &mut self.keeper,
                    &mut self.entries,
                    &Act::Opens(number),
                );
                Ok(Pick::Turn(ticket))
            }
        }
    }

    /// Enters the turn of a ticket that was run, with the seat that checked it out. A stale ticket is abandoned. What the ticket carries stays
    /// with the caller, who drops it once the lock is free.
    ///
    /// # Errors
    /// `NoTicket`, with another seat too, `Stale`, `Full`, `Memory`, tried in this order.
    pub fn give<R: Wait>(
        &mut self,
        rt: &R,
        cell: &PactCell,
        ticket: &Ticket<Ran>,
        seat: &mut Seat<L>,
    ) -> Result<EventName, BookFault>
        requires { cell.now.table.shared.table_id ≡ L.table }
        ensures seated { (L.before < seat.old.number) × (seat.old.number ≤ L.before + L.seats) }
        ensures ok { IfOk result (λ e. (e ≡ ticket.now.carried.event) × (ticket.now.carried.seat ≡ seat.old.number) × Commits ticket.now (book_of self.old.book) (book_of self.new.book) × Returns (turn_of ticket.now) seat.old seat.new) }
        ensures err { IfErr result (λ fault. (seat.new ≡ refused fault ticket.now.carried.event seat.old) × (ticket.now.carried.seat ≡ seat.old.number → TellsCommit fault (book_of self.old.book) ticket.now)) }
        ensures left { IfErr result (λ fault. book_of self.new.book ≡ left_by fault ticket.now.carried.event (book_of self.old.book)) }
        ensures strange { ticket.now.carried.seat ≢ seat.old.number → result ≡ Err NoTicket }
        ensures kept { (self.new.budget ≡ self.old.budget) × (self.new.made ≡ self.old.made) }
    {
        let ran = ticket.ran();
        let event = ran.carried.event;
        if ran.carried.seat != seat.number() {
            return Err(BookFault::NoTicket);
        }
        match self.book.enter_turn(ran) {
            Ok(()) => {
                let given = last_event(&self.book);
                seat.note(
                    rt,
                    cell,
                    &mut self.keeper,
                    &mut self.entries,
                    &Act::Gives(given),
                );
                Ok(event)
            }
            Err(fault) => {
                self.let_stale_go(rt, cell, event, &fault, seat);
                Err(fault)
            }
        }
    }

    /// Lets go of a ticket that is refused for being stale; after another fault nothing changes.
    fn let_stale_go<R: Wait>(
        &mut self,
        rt: &R,
        cell: &PactCell,
        number: EventName,
        fault: &BookFault,
        seat: &mut Seat<L>,
    )
        requires { cell.now.table.shared.table_id ≡ L.table }
        ensures seat { seat.new ≡ refused fault.now number seat.old }
        ensures left { book_of self.new.book ≡ left_by fault.now number (book_of self.old.book) }
        ensures kept { (self.new.budget ≡ self.old.budget) × (self.new.made ≡ self.old.made) }
    {
        match fault {
            BookFault::Stale => self.close_ticket(rt, cell, number, seat),
            _ => {}
        }
    }

    /// A ticket is no longer out, nor open with the seat. Nothing else changes.
    fn close_ticket<R: Wait>(
        &mut self,
        rt: &R,
        cell: &PactCell,
        number: EventName,
        seat: &mut Seat<L>,
    )
        requires { cell.now.table.shared.table_id ≡ L.table }
        ensures seat { seat.new ≡ held seat.old (Closes number) }
        ensures gone { book_of self.new.book ≡ record (book_of self.old.book) { out = without number (book_of self.old.book).out } }
        ensures kept { (self.new.budget ≡ self.old.budget) × (self.new.made ≡ self.old.made) }
    {
        let _ = self.book.abandon(number);
        seat.note(
            rt,
            cell,
            &mut self.keeper,
            &mut self.entries,
            &Act::Closes(number),
        );
    }

    /// A seat comes back, whose list is just the entries with its number. Its part of the ledger joins the others.
    fn take_back<R: Wait>(&mut self, rt: &R, cell: &PactCell, mut seat: Seat<L>, all: &mut Share<L>)
        requires { cell.now.table.shared.table_id ≡ L.table }
        ensures same { self.new ≡ self.old }
        ensures met { Answers seat.number seat.deeds (book_of self.old.book) }
        ensures share { (all.new.parts ≡ all.old.parts + 1) × (all.new.amount ≡ all.old.amount + length seat.deeds.events) }
    {
        seat.note(rt, cell, &mut self.keeper, &mut self.entries, &Act::Nothing);
        all.merge(seat.into_share());
    }

    /// The book, where no seat is to be handed in.
    pub fn into_book(self) -> Book
        ensures { result ≡ self.book }
    {
        let SharedBook {
            book,
            budget: _,
            keeper: _,
            entries: _,
            rest: _,
            left: _,
            made: _,
            before: _,
            of: _,
        } = self;
        book
    }

    /// Ends the work. Of each seat that is handed in, the entries with its number are just its list, each once, and its tickets out are open.
    pub fn close<R: Wait>(self, rt: &R, cell: &PactCell, seats: Vec<Seat<L>>) -> (Book, bool)
        requires cell { cell.now.table.shared.table_id ≡ L.table }
        requires ledger { L.parts ≡ L.seats }
        ensures book { result.0 ≡ self.book }
        ensures seats { All (λ s. Answers s.number s.deeds (book_of self.book)) seats.items }
        ensures still { IsAmong L.began (entered_in (book_of self.book).journal) }
        ensures whole { IsTrue result.1 ↔ (vec_len seats ≡ self.made) }
        ensures all { result.1 ≡ true → sum_by (λ s. length s.deeds.events) seats.items + length L.began ≡ length (book_of self.book).journal }
    {
        let mut shared = self;
        let count = seats.len() as u64;
        let mut all = shared.rest.empty();
        for seat in seats {
            shared.take_back(rt, cell, seat, &mut all);
        }
        let whole = count == shared.made;
        let SharedBook {
            book,
            budget: _,
            keeper: _,
            mut entries,
            rest,
            left: _,
            made: _,
            before: _,
            of: _,
        } = shared;
        all.merge(rest);
        entries.audit(&mut all);
        (book, whole)
    }
}
