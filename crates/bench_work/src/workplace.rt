//! Where workers have their seats, and find what they do.
ghost use Rattle.std.specs.Prelude.{◌≡◌, IfOk, IfErr, IfSome};
ghost use Rattle.bench_pact.specs.Agree.{blank};
ghost use Rattle.bench_pact.specs.declared.Act.TheVariants.{Closes};
ghost use Rattle.bench.specs.Author.{Picked, turn_of};
ghost use Rattle.bench.specs.SharedBook.{events_of, held, refused, Returns};
ghost use Rattle.bench_work.specs.Seats.{AreWork};

use bench::pick::Pick;
use bench::seat::{Opening, Seat};
use book_refusals::fault::BookFault;
use ids::names::EventName;
use std::sync::Wait;
use turn::ticket::{Ran, Ticket};

/// A book under a lock, with a count of the turns that workers may still check out.
pub(crate) trait Workplace<L: Opening> {
    /// A new seat; none where there is none left.
    fn seat<R: Wait>(&self, rt: &R) -> Option<Seat<L>>
        ensures { IfSome result (λ s. s.deeds ≡ blank) };

    /// Picks the first that may be done, where turns are left to check out: it is done at once, but a turn is to be run and given. Its
    /// ticket is open with the seat.
    fn checkout<R: Wait>(&self, rt: &R, seat: &mut Seat<L>) -> Result<Pick, BookFault>
        ensures ok { IfOk result (λ p. Picked p seat.old seat.new) }
        ensures err { IfErr result (λ fault. seat.new ≡ seat.old) }
        ensures work { AreWork (events_of seat.old.deeds) → AreWork (events_of seat.new.deeds) };

    /// Enters the turn of a ticket that was run, with the seat that checked it out. A stale ticket is abandoned.
    fn give<R: Wait>(
        &self,
        rt: &R,
        ticket: Ticket<Ran>,
        seat: &mut Seat<L>,
    ) -> Result<EventName, (Ticket<Ran>, BookFault)>
        ensures ok { IfOk result (λ e. Returns (turn_of ticket) seat.old seat.new) }
        ensures err { IfErr result (λ r. (r.0 ≡ ticket) × (seat.new ≡ refused r.1 ticket.carried.event seat.old)) }
        ensures work { AreWork (events_of seat.old.deeds) → AreWork (events_of seat.new.deeds) };

    /// The ticket of this number is no longer out, nor open with the seat.
    fn abandon<R: Wait>(&self, rt: &R, number: EventName, seat: &mut Seat<L>)
        ensures closed { seat.new ≡ held seat.old (Closes number) }
        ensures work { AreWork (events_of seat.old.deeds) → AreWork (events_of seat.new.deeds) };
}
