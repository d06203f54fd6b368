//! What holds of all scripts.
ghost use Rattle.std.specs.Prelude.{◌≡◌, ℕ, List};
ghost use Rattle.s2_model.specs.declared.scripts.Script.{Script as AnyScript};
ghost use Rattle.s2_reader.specs.Spelling.{IsScriptText};

use s2_build::one_meaning;
use s2_script::one_outcome;

/// Bytes spell at most one script.
pub fn one_script()
    ensures { (bytes : List ℕ) (a b : AnyScript) → IsScriptText bytes a → IsScriptText bytes b → a ≡ b }
{
    one_outcome();
    one_meaning();
}
