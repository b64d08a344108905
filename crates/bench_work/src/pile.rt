//! The seats that came back, with the number of turns in their lists.
ghost use Rattle.std.specs.Prelude.{◌≡◌, ◌≤◌, [], All, IfOk, sum_by};
ghost use Rattle.bench.specs.Seats.{turns_in};
ghost use Rattle.bench.specs.SharedBook.{events_of};
ghost use Rattle.bench_work.specs.Seats.{AreWork};

use crate::work::{Free, Worked};
use bench::seat::{Opening, Seat};
use std::alloc::{AllocError, Global};
use std::marker::Model;

/// Seats with no open ticket.
#[derive(Drop)]
pub(crate) struct Pile<L: Opening> {
    seats: Vec<Seat<L>>,
    turns: u64,
}

impl<L: Opening> Model for Pile<L> {
    ghost use Rattle.std.specs.Prelude.{◌≡◌, List, [], All, sum_by};
    ghost use Rattle.bench.specs.Seats.{turns_in};
    ghost use Rattle.bench_work.specs.Seats.{AreWork};
    ghost use Rattle.std.specs.Coded.{coded_list};
    ghost use Rattle.bench.specs.SharedBook.{Held, held_code, events_of};

    ghost Value = { List Held };

    ghost coded = { coded_list held_code };

    ghost view = { λ p. p.seats.items };

    ghost invariant = { λ p. All (λ s. (s.deeds.tickets ≡ []) × AreWork (events_of s.deeds)) p.seats.items × (p.turns ≡ sum_by (λ s. turns_in (events_of s.deeds)) p.seats.items) };
}

impl<L: Opening> Pile<L> {
    /// An empty pile with room for so many seats. Fails only for want of memory.
    pub fn with_room(alloc: Global, room: usize) -> Result<Pile<L>, AllocError>
        ensures { IfOk result (λ p. p ≡ []) }
    {
        let seats = Vec::with_capacity(alloc, room)?;
        Ok(Pile { seats, turns: 0 })
    }

    /// There was room made for each seat. One for which there is none is let go, and `close` then answers false.
    pub fn add(&mut self, free: Free<L>) {
        let Free { seat } = free;
        let Some(turns) = self.turns.checked_add(seat.turns()) else {
            return;
        };
        if self.seats.push(seat).is_ok() {
            self.turns = turns;
        }
    }

    /// The seats, with the number of turns in their lists. Were these more than `most`, all would be let go.
    pub fn into_worked(self, most: u64) -> Worked<L>
        ensures open { All (λ s. (s.deeds.tickets ≡ []) × AreWork (events_of s.deeds)) result.seats.items }
        ensures turns { (result.turns ≡ sum_by (λ s. turns_in (events_of s.deeds)) result.seats.items) × (result.turns ≤ most) }
    {
        let Pile { mut seats, turns } = self;
        if turns <= most {
            return Worked { seats, turns };
        }
        seats.clear();
        Worked { seats, turns: 0 }
    }
}
