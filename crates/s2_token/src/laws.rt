//! Laws on tokens.
ghost use Rattle.std.specs.Prelude.{◌≡◌, ℕ, List, Some};
ghost use Rattle.s2_token.specs.declared.types.Token.{Token};
ghost use Rattle.s2_token.specs.Lexing.{lexed};
ghost use Rattle.s2_token.specs.Spelling.{IsLexed};

/// A line is lexed as blanks and tokens in turn, where each token is the longest that is spelled at its place; and each line that is such is lexed so.
pub fn each_token_is_the_longest()
    ensures is { (line : List ℕ) (tokens : List Token) → lexed line ≡ Some tokens → IsLexed line tokens }
    ensures only { (line : List ℕ) (tokens : List Token) → IsLexed line tokens → lexed line ≡ Some tokens }
{}
