//! Why a script isn't read.
ghost use Rattle.std.specs.Prelude.{◌≡◌};
ghost use Rattle.s2_script.specs.declared.stops.Stop.TheVariants.{Memory};

use s2_judge::Kind;
use std::alloc::AllocError;

/// Why a script isn't read.
#[derive(Clone, Copy, Debug, PartialEq, Eq)]
pub enum Stop {
    /// The first line with a fault, counted from 1, and its kind; or line 0, where the whole is too long.
    Bad { line: u64, kind: Kind },
    /// There was no memory.
    Memory,
}

impl From<AllocError> for Stop {
    ghost from_gives = { λ _ e. e ≡ Memory };

    fn from(_e: AllocError) -> Stop {
        Stop::Memory
    }
}
