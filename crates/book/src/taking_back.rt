// Undo, redo, exchange and settling, and what comes of an event.
ghost use Rattle.std.specs.Prelude.{◌≡◌, ◌≢◌, ◌≤◌, All, None, true, IsSome, IfOk, IfErr, OnOk, OnErr, length, filter};
ghost use Rattle.causality.specs.Exact.{Cone};
ghost use Rattle.causality.specs.Selections.{chosen, first_settled, places_from};
ghost use Rattle.undo.specs.CoreView.{items_of, ready_of};
ghost use Rattle.undo.specs.Written.{written_at};
ghost use Rattle.journal.specs.Items.{all_ready};
ghost use Rattle.book_refusals.specs.Checks.{StoodAt, undo_refusal, redo_refusal, cone_refusal, exchange_refusal, settle_refusal};
ghost use Rattle.book_refusals.specs.Fault.{told_by, Tells};
ghost use Rattle.book_refusals.specs.declared.fault.BookFault.TheVariants.{Memory};
ghost use Rattle.book.specs.Calls.{Undoes, Redoes, Exchanges, Settles, BaseGoesOn};

use crate::book::{Book, noted};
use book_refusals::checks::{check_cone, check_exchange, check_redo, check_settle, check_undo};
use book_refusals::fault::BookFault;
use causality::cone::cone;
use causality::names::NameSet;
use causality::selection::positions;
use ids::cells::CellKey;
use ids::names::EventName;
use std::alloc::AllocError;

impl Book {
    ghost use Rattle.book.specs.BookView.{book_of, swaps_of};
    ghost use Rattle.book.specs.Counting.{CountsChosen};

    /// The positions of a set of events of which none is settled, and the cells that they wrote; room is made for their exchange, so that it
    /// needs no memory. Nothing else changes. Fails only for want of memory.
    fn make_ready(&mut self, names: &NameSet) -> Result<(Vec<usize>, Vec<CellKey>), AllocError>
        requires { first_settled names.now (book_of self.old).settled (book_of self.old).journal ≡ None }
        ensures places { IfOk result (λ r. r.0.items ≡ places_from 0 names.now (book_of self.new).journal) }
        ensures behind { IfOk result (λ r. All (λ p. (book_of self.new).settled ≤ p) r.0.items) }
        ensures written { IfOk result (λ r. r.1.items ≡ written_at (items_of self.new.core) r.0.items) }
        ensures ready { IfOk result (λ r. all_ready (ready_of self.new.core) (items_of self.new.core) r.0.items ≡ true) }
        ensures unchanged { book_of self.new ≡ book_of self.old }
        ensures counted { swaps_of self.new ≡ swaps_of self.old }
    {
        let positions = positions(self.alloc, self.core.journal(), names)?;
        let written = self.core.written_at(self.alloc, &positions)?;
        self.core.prepare(self.alloc, &positions)?;
        Ok((positions, written))
    }

    /// Takes events back, with the world as if they had never been: nothing is run. Answers how many.
    ///
    /// # Errors
    /// `NoEvent`, `Settled`, `NotLive`, `NotClosed`, tried in this order; `Memory` at any time.
    pub fn undo(&mut self, events: &[EventName]) -> Result<usize, BookFault>
        ensures ok { IfOk result (λ count. (undo_refusal (book_of self.old).settled (book_of self.old).journal events.now ≡ None) × Undoes events.now (book_of self.old) (book_of self.new) × (count ≡ length (filter (chosen events.now) (book_of self.old).journal))) }
        ensures err { IfErr result (λ fault. Tells fault (undo_refusal (book_of self.old).settled (book_of self.old).journal events.now)) }
        ensures unchanged { OnErr result (book_of self.new ≡ book_of self.old) }
        ensures counted { OnOk result (CountsChosen events.now self.old self.new) }
        ensures none { OnErr result (swaps_of self.new ≡ swaps_of self.old) }
    {
        let names = NameSet::new(self.alloc, events)?;
        let journal = self.core.journal();
        check_undo(self.alloc, journal, &names)?;
        let (positions, written) = self.make_ready(&names)?;
        self.core.undo(&positions);
        self.agenda = noted(self.alloc, self.agenda.take(), self.core.world(), &written);
        Ok(positions.len())
    }

    /// Puts events that were undone back where they stand in the journal, also amid events that came since. Answers how many.
    ///
    /// # Errors
    /// `NoEvent`, `Settled`, `IsLive`, `CauseMissing`, `Crossed`, tried in this order; `Memory` at any time.
    pub fn redo(&mut self, events: &[EventName]) -> Result<usize, BookFault>
        ensures ok { IfOk result (λ count. (redo_refusal (book_of self.old).settled (book_of self.old).journal events.now ≡ None) × Redoes events.now (book_of self.old) (book_of self.new) × (count ≡ length (filter (chosen events.now) (book_of self.old).journal))) }
        ensures err { IfErr result (λ fault. Tells fault (redo_refusal (book_of self.old).settled (book_of self.old).journal events.now)) }
        ensures unchanged { OnErr result (book_of self.new ≡ book_of self.old) }
        ensures counted { OnOk result (CountsChosen events.now self.old self.new) }
        ensures none { OnErr result (swaps_of self.new ≡ swaps_of self.old) }
    {
        let names = NameSet::new(self.alloc, events)?;
        let journal = self.core.journal();
        check_redo(journal, &names)?;
        let (positions, written) = self.make_ready(&names)?;
        self.core.redo(&positions);
        self.agenda = noted(self.alloc, self.agenda.take(), self.core.world(), &written);
        Ok(positions.len())
    }

    /// Lets the live entry at a position, counted from 1, and the live one behind it change places. Answers their events, first the
    /// one that stood first.
    ///
    /// # Errors
    /// `NoPosition`, `Settled`, `NotLive`, `Dependent`, tried in this order. It takes no memory, so it never wants any.
    pub fn exchange(&mut self, position: usize) -> Result<(EventName, EventName), BookFault>
        ensures ok { IfOk result (λ r. (exchange_refusal (book_of self.old).settled (book_of self.old).journal position ≡ None) × Exchanges position (book_of self.old) (book_of self.new) × StoodAt position (book_of self.old).journal r.0 r.1) }
        ensures err { IfErr result (λ fault. Tells fault (exchange_refusal (book_of self.old).settled (book_of self.old).journal position)) }
        ensures without_memory { IfErr result (λ fault. fault ≢ Memory) }
        ensures told { IfErr result (λ fault. IsSome (told_by fault)) }
        ensures unchanged { OnErr result (book_of self.new ≡ book_of self.old) }
        ensures counted { swaps_of self.new ≡ swaps_of self.old }
    {
        let (first, second) = check_exchange(self.core.journal(), position)?;
        if self.core.exchange(position - 1) {
            Ok((first, second))
        } else {
            Err(BookFault::Dependent(first, second))
        }
    }

    /// Settles the entries up to a position, counted from 1: they can no longer be taken back, and the book keeps of each only what the
    /// causes of later events are found by. What is seen, the tickets that are out and the journal are as they were.
    ///
    /// # Errors
    /// `NoPosition`, `Settled`, `NotLive`, tried in this order; `Memory` at any time.
    pub fn settle(&mut self, position: usize) -> Result<(), BookFault>
        ensures ok { OnOk result ((settle_refusal (book_of self.old).settled (book_of self.old).journal position ≡ None) × Settles position (book_of self.old) (book_of self.new)) }
        ensures base { OnOk result (BaseGoesOn (book_of self.old) (book_of self.new)) }
        ensures err { IfErr result (λ fault. Tells fault (settle_refusal (book_of self.old).settled (book_of self.old).journal position)) }
        ensures unchanged { OnErr result (book_of self.new ≡ book_of self.old) }
        ensures counted { swaps_of self.new ≡ swaps_of self.old }
    {
        let count = check_settle(self.core.journal(), position)?;
        self.core.settle(self.alloc, count)?;
        Ok(())
    }

    /// An event and all that came of it, in the journal's order: the least set with it that may be undone.
    ///
    /// # Errors
    /// `NoEvent`, `Settled`, `NotLive`, tried in this order; `Memory` at any time.
    pub fn cone(&self, event: EventName) -> Result<Vec<EventName>, BookFault>
        ensures ok { IfOk result (λ names. (cone_refusal (book_of self.now).settled (book_of self.now).journal event ≡ None) × Cone (book_of self.now).journal event names.items) }
        ensures err { IfErr result (λ fault. Tells fault (cone_refusal (book_of self.now).settled (book_of self.now).journal event)) }
    {
        let journal = self.core.journal();
        check_cone(self.alloc, journal, event)?;
        Ok(cone(self.alloc, journal, event)?)
    }
}
