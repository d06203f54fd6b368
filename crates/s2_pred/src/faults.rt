//! Why no predicate comes out.
use s2_value::Memory;

/// Why reading gave up.
#[derive(Clone, Copy, Debug, PartialEq, Eq)]
pub enum Fault {
    /// The tokens are no predicate.
    Syntax,
    /// Want of memory.
    Memory,
}

impl From<Memory> for Fault {
    ghost use Rattle.std.specs.Prelude.{◌≡◌};
    ghost use Rattle.s2_pred.specs.declared.faults.Fault.TheVariants.{Memory};

    ghost from_gives = { λ _ fault. fault ≡ Memory };

    fn from(_failed: Memory) -> Fault {
        Fault::Memory
    }
}
