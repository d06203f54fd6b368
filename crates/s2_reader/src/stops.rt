//! The fault that a stop is.
ghost use Rattle.std.specs.Prelude.{ℕ, List};
ghost use Rattle.s2_script.specs.Script.{IsBad, Reads};
ghost use Rattle.s2_reader.specs.Spelling.{IsFaultOf};

use crate::{ScriptErr, ScriptFault};
use s2_script::Stop;

/// The fault of a stop.
pub fn fault(stop: Stop) -> ScriptFault
    ensures { (bytes : List ℕ) → IsBad (Reads bytes) stop → IsFaultOf bytes result }
{
    match stop {
        Stop::Bad { line, kind } => ScriptFault::Bad(ScriptErr { line, what: kind }),
        Stop::Memory => ScriptFault::Memory,
    }
}
