//! What holds of the tokens of all lines.
ghost use Rattle.std.specs.Prelude.{◌≡◌, ℕ, List, Some, true, false};
ghost use Rattle.std.specs.List.{AllByRecursion};
ghost use Rattle.std.specs.Str.{is_utf8};
ghost use Rattle.s2_token.specs.declared.types.Token.{Token};
ghost use Rattle.s2_token.specs.Lexing.{lexed};
ghost use Rattle.s2_clean.specs.Clean.{IsCleanToken, has_line_feed};

/// In the tokens of a line that is UTF-8 and has no line feed, each name is a word that is no keyword, and each text is UTF-8 without a line feed.
pub fn tokens_are_clean()
    ensures { (line : List ℕ) (tokens : List Token) → is_utf8 line ≡ true → has_line_feed line ≡ false → lexed line ≡ Some tokens
        → AllByRecursion IsCleanToken tokens }
{}
