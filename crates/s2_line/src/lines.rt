//! Lines.
ghost use Rattle.std.specs.Prelude.{◌≡◌, List, IfOk, IsErrOf};
ghost use Rattle.s2_token.specs.declared.types.Token.{Token as AnyToken};
ghost use Rattle.s2_pred.specs.Trees.{Tree};
ghost use Rattle.s2_line.specs.declared.forms.RawOf.{RawOf as AnyRawOf};
ghost use Rattle.s2_line.specs.Words.{IsLine};
ghost use Rattle.s2_line.specs.Reading.{Gives, told_raw, raw_at, is_end, line_at};

use crate::fault::Fault;
use crate::forms::{Raw, RawOf};
use crate::held::{wheres_of, with_wheres};
use crate::predicates::predicate;
use crate::statements::stmt;
use crate::tables::{create, option};
use s2_pred::one_predicate;
use s2_token::{Keyword, Symbol, Token};
use std::alloc::Global;

/// A line at the front, and the tokens after it.
#[tactic(auto, unfolding(crate::specs::Reading::raw_at))]
fn raw(alloc: Global, tokens: &[Token]) -> Result<(RawOf<&[Token]>, &[Token]), Fault>
    ensures { Gives (λ x. (told_raw x.0, x.1.now)) result (raw_at tokens.now) }
{
    match tokens {
        [Token::Key(Keyword::Option), rest @ ..] => option(rest),
        [Token::Key(Keyword::Create), rest @ ..] => create(alloc, rest),
        [
            Token::Number(session),
            Token::Sign(Symbol::Colon),
            rest @ ..,
        ] => {
            let (stmt, rest) = stmt(alloc, rest)?;
            let line = RawOf::Session {
                session: *session,
                stmt,
            };
            Ok((line, rest))
        }
        _ => Err(Fault::Syntax),
    }
}

/// Whether nothing is left, or one `;`.
#[tactic(auto, unfolding(crate::specs::Reading::is_end))]
fn is_end(tokens: &[Token]) -> bool
    ensures { result ≡ is_end tokens.now }
{
    match tokens {
        [] => true,
        [Token::Sign(Symbol::Semicolon)] => true,
        _ => false,
    }
}

#[tactic(auto, unfolding(crate::specs::Reading::line_at))]
fn whole(alloc: Global, tokens: &[Token]) -> Result<RawOf<&[Token]>, Fault>
    ensures { Gives told_raw result (line_at tokens.now) }
{
    let (line, rest) = raw(alloc, tokens)?;
    if is_end(rest) {
        Ok(line)
    } else {
        Err(Fault::Syntax)
    }
}

/// Reads the line that the tokens are, all of them, maybe with one `;` at the end. Names stay as they are written, a sign
/// stands beside its number, and a predicate keeps its parentheses.
///
/// The time is near-linear in the tokens, and nothing recurses. Tokens that are no line of the grammar are `Syntax`.
pub fn line(alloc: Global, tokens: &[Token]) -> Result<Raw, Fault>
    // What is read is written so.
    ensures found { IfOk result (λ r. IsLine tokens.now r) }
    // What is refused is no line.
    ensures syntax { IsErrOf result Fault.Syntax → (r : AnyRawOf Tree) → IsLine tokens.now r → ⊥ }
    // No other line is written so.
    ensures only { IfOk result (λ r. (other : AnyRawOf Tree) → IsLine tokens.now other → other ≡ r) }
{
    let line = whole(alloc, tokens)?;
    let wheres = predicate(alloc, wheres_of(&line))?;
    Ok(with_wheres(line, wheres))
}

/// Tokens are at most one line.
pub fn one_line()
    ensures { (tokens : List AnyToken) (a b : AnyRawOf Tree) → IsLine tokens a → IsLine tokens b → a ≡ b }
{
    one_predicate();
}
