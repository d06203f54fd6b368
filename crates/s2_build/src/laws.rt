//! What holds of all lines.
ghost use Rattle.std.specs.Prelude.{◌≡◌, List};
ghost use Rattle.s2_pred.specs.Trees.{Tree};
ghost use Rattle.s2_line.specs.declared.forms.RawOf.{RawOf as AnyRawOf};
ghost use Rattle.s2_model.specs.declared.scripts.Script.{Script as AnyScript};
ghost use Rattle.s2_build.specs.Drafts.{Means};

/// Lines mean at most one script.
pub fn one_meaning()
    ensures { (lines : List (AnyRawOf Tree)) (a b : AnyScript) → Means lines a → Means lines b → a ≡ b }
{}
