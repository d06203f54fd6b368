//! Why a reader goes no further.
ghost use Rattle.std.specs.Prelude.{◌≡◌};
ghost use Rattle.s2_outread.specs.declared.stops.Stop.TheVariants.{Memory};

use std::alloc::{AllocError, AllocFailed};

/// Why a reader goes no further.
#[derive(Debug, Drop)]
pub enum Stop {
    /// The bytes are no line of an output.
    Refused,
    /// There was no memory.
    Memory,
}

impl From<AllocError> for Stop {
    ghost from_gives = { λ _ e. e ≡ Memory };

    fn from(_e: AllocError) -> Stop {
        Stop::Memory
    }
}

impl<T: Drop> From<AllocFailed<T>> for Stop {
    ghost from_gives = { λ _ e. e ≡ Memory };

    fn from(_e: AllocFailed<T>) -> Stop {
        Stop::Memory
    }
}
