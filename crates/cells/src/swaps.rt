// How many exchanges were made.
ghost use Rattle.std.specs.Prelude.{◌≡◌, ◌+◌, ◌%◌, ◌^◌};

use std::marker::Model;

/// A count of exchanges, which only an exchange raises. It counts modulo 2^64.
#[derive(Drop)]
pub struct Swaps {
    count: u64,
}

impl Model for Swaps {
    ghost use Rattle.std.specs.Prelude.{ℕ};

    ghost Value = { ℕ };

    ghost view = { λ s. s.count };
}

impl Swaps {
    /// No exchange was made.
    pub fn none() -> Swaps
        ensures { result ≡ 0 }
    {
        Swaps { count: 0 }
    }

    /// One more was made.
    pub(crate) fn tick(&mut self)
        ensures { self.new ≡ (self.old + 1) % 2 ^ 64 }
    {
        self.count = self.count.wrapping_add(1);
    }
}
