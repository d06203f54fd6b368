//! What holds of all lines without a fault.
ghost use Rattle.std.specs.Prelude.{◌≡◌, List, None, Some};
ghost use Rattle.std.specs.List.{AllByRecursion};
ghost use Rattle.s2_token.specs.declared.types.Token.{Token};
ghost use Rattle.s2_line.specs.Words.{IsLine};
ghost use Rattle.s2_judge.specs.declared.known.Known.{Known};
ghost use Rattle.s2_judge.specs.Kinds.{Line, fault_of, known_after};
ghost use Rattle.s2_build.specs.Drafts.{Draft, drafted};
ghost use Rattle.s2_clean.specs.Clean.{IsCleanToken};
ghost use Rattle.s2_resolve.specs.Resolved.{Goes};

/// A line without a fault after lines that go with a draft means something: the draft has a next one, which goes with what is known then.
pub fn faultless_lines_resolve()
    ensures { (known : Known) (draft : Draft) (tokens : List Token) (line : Line) → Goes known draft → AllByRecursion IsCleanToken tokens → IsLine tokens line
        → fault_of known line ≡ None → (next : Draft) × (drafted draft line ≡ Some next) × Goes (known_after known line) next }
{}
