//! What holds of all outputs.
ghost use Rattle.std.specs.Prelude.{◌≡◌, ℕ, List};
ghost use Rattle.s2_model.specs.declared.outcomes.Outcome.{Outcome as AnyOutcome};
ghost use Rattle.s2_model.specs.declared.scripts.Script.{Script as AnyScript};
ghost use Rattle.s2_model.specs.OutputText.{output_text};
ghost use Rattle.s2_outread.specs.Lines.{lines_text, outcome_lines};
ghost use Rattle.s2_outread.specs.Outputs.{IsTextOf};

/// The text of an outcome is that of its lines, one behind the other.
pub fn text_is_lines()
    ensures { (run : AnyOutcome) → lines_text (outcome_lines run) ≡ output_text run }
{}

/// Bytes are the text of at most one outcome.
pub fn one_outcome()
    ensures { (script other : AnyScript) (bytes : List ℕ) (a b : AnyOutcome) → IsTextOf script bytes a → IsTextOf other bytes b → a ≡ b }
{}
