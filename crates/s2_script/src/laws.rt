//! What holds of all scripts.
ghost use Rattle.std.specs.Prelude.{◌≡◌, ℕ, List};
ghost use Rattle.s2_script.specs.Script.{Outcome, Reads};

use s2_line::one_line;

/// Bytes have at most one outcome: what is known after them and their lines, or a faulty line and its kind.
pub fn one_outcome()
    ensures { (bytes : List ℕ) (a b : Outcome) → Reads bytes a → Reads bytes b → a ≡ b }
{
    one_line();
}
