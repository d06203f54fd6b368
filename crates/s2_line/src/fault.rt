//! Why a line isn't read.
ghost use Rattle.std.specs.Prelude.{◌≡◌};
ghost use Rattle.s2_line.specs.declared.fault.Fault.TheVariants.{Memory};

use std::alloc::{AllocError, AllocFailed};

/// Why a line isn't read.
#[derive(Debug, Drop)]
pub enum Fault {
    /// The tokens are no line of the grammar.
    Syntax,
    /// There was no memory.
    Memory,
}

impl From<AllocError> for Fault {
    ghost from_gives = { λ _ e. e ≡ Memory };

    fn from(_e: AllocError) -> Fault {
        Fault::Memory
    }
}

impl<T: Drop> From<AllocFailed<T>> for Fault {
    ghost from_gives = { λ _ e. e ≡ Memory };

    fn from(_e: AllocFailed<T>) -> Fault {
        Fault::Memory
    }
}
