// Seats that entries were made from.
ghost use Rattle.std.specs.Prelude.{ℕ, ◌≤◌, All};
ghost use Rattle.journal.specs.Journals.{items_of};

use journal::journal::Journal;

/// The greatest seat of an entry; 0 where there is none.
pub(crate) fn greatest_seat(journal: Journal) -> u64
    ensures above { All (λ i. i.seat ≤ result) (items_of journal.entry) }
    ensures least { (n : ℕ) → All (λ i. i.seat ≤ n) (items_of journal.entry) → result ≤ n }
{
    let mut greatest = 0;
    for settled in journal.settled {
        if settled.seat > greatest {
            greatest = settled.seat;
        }
    }
    for entry in journal.entries {
        if entry.seat > greatest {
            greatest = entry.seat;
        }
    }
    greatest
}
