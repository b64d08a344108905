//! A seat, which one thread holds.
ghost use Rattle.std.specs.Prelude.{◌≡◌, [], ◌+◌, ◌^◌, ◌<◌, ◌≤◌, Some, length, slice_get, slice_set};
ghost use Rattle.crossbeam_utils.specs.Seq.{cell_view};
ghost use Rattle.bench_pact.specs.Agree.{blank, holder, knower, after, entered_by, IsKeeper};
ghost use Rattle.bench.specs.SharedBook.{IsFit, events_of, held};
ghost use Rattle.bench.specs.Seats.{turns_in};

use bench_pact::{Act, PactCell, PactToken, note};
use std::marker::{Brand, Model, PhantomData};
use std::sync::Wait;
use std::sync::ledger::{Book as Entries, Ledger, Share};

/// Stands for one Bench and the journal that it began with.
pub trait Opening: Ledger {
    ghost use Rattle.std.specs.Prelude.{ℕ, List};
    ghost use Rattle.atomic_table.specs.Seated.{TableId};
    ghost use Rattle.book.specs.Entered.{Entered};

    // The name of its cell.
    ghost table: { TableId };

    // What was entered before, and from which seats.
    ghost began: { List Entered };

    // The greatest seat of an entry or of a ticket that was out.
    ghost before: { ℕ };

    // How many seats there can be: the parts of the ledger.
    ghost seats: { ℕ };
}

impl Opening for Brand {
    ghost use Rattle.std.specs.Prelude.{[]};
    ghost use Rattle.bench_pact.specs.Agree.{no_table};

    ghost table = { no_table };

    ghost began = { [] };

    ghost before = { 0 };

    ghost seats = { 0 };
}

/// Who works at a Bench. Contracts see its number, the list of the events that were entered with it, and the numbers of the tickets that are
/// open with it: those that were checked out with it, less those that were given since, or were stale then, or that it abandoned.
#[derive(Drop)]
pub struct Seat<L: Opening> {
    number: u64,
    tally: u64,
    turns: u64,
    token: PactToken,
    share: Share<L>,
    of: PhantomData<L>,
}

impl<L: Opening> Model for Seat<L> {
    ghost use Rattle.std.specs.Prelude.{◌≡◌, ◌+◌, ◌<◌, []};
    ghost use Rattle.crossbeam_utils.specs.Seq.{cell_view};
    ghost use Rattle.bench.specs.SharedBook.{Held, held_code, IsSeat};

    ghost Value = { Held };

    ghost coded = { held_code };

    ghost view = { λ s. record { number = s.number; place = (cell_view s.token).place; deeds = (cell_view s.token).deeds } };

    ghost invariant = { λ s. (s.token.table_id ≡ L.table) × (s.token.me.1 ≡ []) × (s.share.parts ≡ 1) × (s.share.amount ≡ s.tally) × ((cell_view s.token).place < L.seats) × IsSeat (L.before + 1) s.number s.tally s.turns (cell_view s.token) };
}

impl<L: Opening> Seat<L> {
    /// A seat that has done nothing.
    pub(crate) fn new(number: u64, token: PactToken, share: Share<L>) -> Seat<L>
        requires token { (token.table_id ≡ L.table) × (token.me.1 ≡ []) × (cell_view token ≡ holder (cell_view token).place blank) }
        requires share { (share.parts ≡ 1) × (share.amount ≡ 0) }
        requires number { (number ≡ L.before + 1 + (cell_view token).place) × ((cell_view token).place < L.seats) }
        ensures { result ≡ record { number = number; place = (cell_view token).place; deeds = blank } }
    {
        Seat {
            number,
            tally: 0,
            turns: 0,
            token,
            share,
            of: PhantomData,
        }
    }

    /// Its number: seats are numbered as they are given out, from the first that was free before.
    pub fn number(&self) -> u64
        ensures is { result ≡ self.now.number }
        ensures there { (L.before < result) × (result ≤ L.before + L.seats) }
    {
        self.number
    }

    /// How many entries were appended with it, undone ones included.
    pub fn tally(&self) -> u64
        ensures { result ≡ length self.now.deeds.events }
    {
        self.tally
    }

    /// How many of these are turns.
    pub fn turns(&self) -> u64
        ensures { result ≡ turns_in (events_of self.now.deeds) }
    {
        self.turns
    }

    /// Its part of the ledger, with its tally.
    pub(crate) fn into_share(self) -> Share<L>
        ensures { (result.parts ≡ 1) × (result.amount ≡ length self.deeds.events) }
    {
        let Seat {
            number: _,
            tally: _,
            turns: _,
            token: _,
            share,
            of: _,
        } = self;
        share
    }

    /// Notes an act, at the shared book. Seat and book agreed on what the seat did before, so its list is no longer than a journal may be.
    pub(crate) fn note<R: Wait>(
        &mut self,
        rt: &R,
        cell: &PactCell,
        keeper: &mut PactToken,
        entries: &mut Entries<L>,
        act: &Act,
    )
        requires cell { (cell.now.table.shared.table_id ≡ L.table) × (keeper.old.table_id ≡ L.table) }
        requires view { IsKeeper (cell_view keeper.old) }
        requires fit { IsFit act.now }
        requires room { slice_get (cell_view keeper.old).all self.old.place ≡ Some self.old.deeds → length self.old.deeds.events + 1 < 2 ^ 64 }
        ensures agreed { (self.old.number ≡ L.before + 1 + self.old.place) × (slice_get (cell_view keeper.old).all self.old.place ≡ Some self.old.deeds) }
        ensures keeper { (keeper.new.table_id ≡ L.table) × (cell_view keeper.new ≡ knower (slice_set (cell_view keeper.old).all self.old.place (after act.now self.old.deeds))) }
        ensures seat { self.new ≡ held self.old act.now }
        ensures total { entries.new.total ≡ entries.old.total + entered_by act.now }
    {
        note(rt, cell, keeper, &mut self.token, act);
        if let Act::Enters(_) | Act::Gives(_) = act {
            entries.add(&mut self.share, 1);
            self.tally += 1;
        }
        if let Act::Gives(_) = act {
            self.turns += 1;
        }
    }
}
