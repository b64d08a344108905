// Why reading stops.
ghost use Rattle.std.specs.Prelude.{◌≡◌};
ghost use Rattle.ereader_signs.specs.declared.stop.ReadStop.TheVariants as stop;

use std::alloc::{AllocError, AllocFailed};

/// Why reading stopped, at the reader's place.
#[derive(Clone, Copy)]
pub enum ReadStop {
    Unexpected,
    Memory,
}

impl From<AllocError> for ReadStop {
    ghost from_gives = { λ _ e. e ≡ stop.Memory };

    fn from(_error: AllocError) -> Self {
        ReadStop::Memory
    }
}

impl<T: Drop> From<AllocFailed<T>> for ReadStop {
    ghost from_gives = { λ _ e. e ≡ stop.Memory };

    fn from(_error: AllocFailed<T>) -> Self {
        ReadStop::Memory
    }
}
