// Where an event stands in a journal.
ghost use Rattle.std.specs.Prelude.{◌≡◌, ◌==◌, length};
ghost use Rattle.journal.specs.Journals.{items_of};
ghost use Rattle.journal.specs.Lines.{lines_of};
ghost use Rattle.stepper_questions.specs.Refusals.{place_of};

use ids::names::EventName;
use journal::journal::Journal;

/// Where an event stands in a journal.
#[derive(Clone, Copy)]
pub enum Standing {
    Absent,
    Settled,
    /// At this place behind the settled ones.
    Open(usize),
}

/// Whether this is the name of an event.
fn is_named(name: EventName, event: EventName) -> bool
    ensures { result ≡ (name.0 == event.0) }
{
    name == event
}

/// The place of an event, counted from the oldest of all.
fn place_of(journal: Journal, event: EventName) -> Option<usize>
    ensures { result ≡ place_of (lines_of (items_of journal.entry)) event }
{
    for place in 0..journal.len() {
        if is_named(journal.name_at(place), event) {
            return Some(place);
        }
    }
    None
}

impl Standing {
    ghost use Rattle.stepper_questions.specs.Refusals.{standing_at, standing_of};

    /// What a place is, where so many entries are settled.
    fn at(place: Option<usize>, settled: usize) -> Standing
        ensures { result ≡ standing_at settled place }
    {
        match place {
            Some(place) => {
                if place < settled {
                    Standing::Settled
                } else {
                    Standing::Open(place - settled)
                }
            }
            None => Standing::Absent,
        }
    }

    /// Where an event stands in a journal.
    pub(crate) fn of(journal: Journal, event: EventName) -> Standing
        ensures { result ≡ standing_of (length journal.entry.settled.now) (lines_of (items_of journal.entry)) event }
    {
        Standing::at(place_of(journal, event), journal.settled.len())
    }
}
