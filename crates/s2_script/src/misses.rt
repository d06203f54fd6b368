//! Why a line isn't read as an `INSERT`.
ghost use Rattle.std.specs.Prelude.{◌≡◌};
ghost use Rattle.s2_script.specs.declared.misses.Miss.TheVariants.{Memory};

use std::alloc::{AllocError, AllocFailed};

/// Why a line isn't read as an `INSERT`.
#[derive(Clone, Copy, Debug, PartialEq, Eq)]
pub enum Miss {
    /// It is another line, or none of the grammar.
    Other,
    /// There was no memory.
    Memory,
}

impl From<AllocError> for Miss {
    ghost from_gives = { λ _ e. e ≡ Memory };

    fn from(_e: AllocError) -> Miss {
        Miss::Memory
    }
}

impl<T: Drop> From<AllocFailed<T>> for Miss {
    ghost from_gives = { λ _ e. e ≡ Memory };

    fn from(_e: AllocFailed<T>) -> Miss {
        Miss::Memory
    }
}
