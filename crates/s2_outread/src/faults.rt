//! Why bytes are no output.
ghost use Rattle.std.specs.Prelude.{◌≡◌};
ghost use Rattle.s2_outread.specs.declared.faults.OutputFault.TheVariants.{Memory};

use std::alloc::{AllocError, AllocFailed};

/// Why no outcome was read.
#[derive(Clone, Copy, Debug, PartialEq, Eq)]
pub enum OutputFault {
    /// The bytes are no output; this is the first line, counted from 1, with which no output begins.
    Line(u64),
    /// There was no memory.
    Memory,
}

impl From<AllocError> for OutputFault {
    ghost from_gives = { λ _ e. e ≡ Memory };

    fn from(_e: AllocError) -> OutputFault {
        OutputFault::Memory
    }
}

impl<T: Drop> From<AllocFailed<T>> for OutputFault {
    ghost from_gives = { λ _ e. e ≡ Memory };

    fn from(_e: AllocFailed<T>) -> OutputFault {
        OutputFault::Memory
    }
}
