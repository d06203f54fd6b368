//! What the words ask for.
use std::alloc::AllocError;

/// What the program does with its input.
#[derive(Clone, Copy, Debug, PartialEq, Eq)]
pub enum Mode {
    /// Runs the lines of a script in their order.
    Drive,
    /// Says whether an output is legal for a script.
    Check,
}

/// What the words ask for.
#[derive(Debug, Drop)]
pub enum Asked {
    /// A run in a mode.
    Run(Mode),
    /// Help: the text of it.
    Help(String),
}

/// Why the words have no answer.
#[derive(Clone, Copy, Debug, PartialEq, Eq)]
pub enum WordsFault {
    /// They are none that the command takes.
    Usage,
    /// Want of memory.
    Memory,
}

impl From<AllocError> for WordsFault {
    ghost use Rattle.s2_words.specs.declared.modes.WordsFault.TheVariants.{Memory};
    ghost use Rattle.std.specs.Prelude.{◌≡◌};

    ghost from_gives = { λ _ fault. fault ≡ Memory };

    fn from(_: AllocError) -> WordsFault {
        WordsFault::Memory
    }
}
