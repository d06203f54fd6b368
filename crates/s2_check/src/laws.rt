//! What is read can be judged.
ghost use Rattle.s2_model.specs.declared.scripts.Script.{Script as AnyScript};
ghost use Rattle.s2_model.specs.declared.outcomes.Outcome.{Outcome as AnyOutcome};
ghost use Rattle.s2_resolve.specs.Suits.{IsBuiltScript};
ghost use Rattle.s2_outread.specs.Outputs.{IsOutput};
ghost use Rattle.s2_legal.specs.Faults.{IsWhole};
ghost use Rattle.s2_legal.specs.Built.{IsBuilt};

/// Each output of a script that was read has the shape, and the kinds of statements and entries, that are judged.
pub fn outputs_are_whole()
    ensures whole { (script : AnyScript) (run : AnyOutcome) → IsOutput script run → IsWhole script run }
    ensures built { (script : AnyScript) (run : AnyOutcome) → IsBuiltScript script → IsOutput script run → IsBuilt script run }
{}
