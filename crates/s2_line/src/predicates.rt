//! The tokens of a predicate, and the predicate that they are.
ghost use Rattle.std.specs.Prelude.{◌≡◌, ◌≤◌, Some, Option, IfOk, IsErrOf, length, take, drop};
ghost use Rattle.s2_pred.specs.Trees.{Tree};
ghost use Rattle.s2_line.specs.Reading.{is_stop, cut_at, wheres_at, told_wheres, IsWheres};

use crate::fault::Fault;
use crate::steps::after;
use s2_pred::{Written, pred};
use s2_token::{Keyword, Symbol, Token};
use std::alloc::Global;

fn is_stop(token: &Token) -> bool
    ensures { result ≡ is_stop token.now }
{
    matches!(
        token,
        Token::Key(Keyword::Order) | Token::Key(Keyword::Limit) | Token::Sign(Symbol::Semicolon)
    )
}

/// How many tokens stand before the first that ends a predicate.
#[tactic(auto, unfolding(crate::specs::Reading::cut_at))]
fn before_stop(tokens: &[Token]) -> usize
    ensures cut { cut_at tokens.now ≡ (take result tokens.now, drop result tokens.now) }
    ensures within { result ≤ length tokens.now }
{
    for (i, token) in tokens.iter().enumerate() {
        if is_stop(token) {
            return i;
        }
    }
    tokens.len()
}

/// What stands after `WHERE` up to the next `ORDER`, `LIMIT` or `;`, none of which stands in a predicate, and the tokens
/// from there on.
#[tactic(auto, unfolding(crate::specs::Reading::wheres_at))]
pub fn wheres(tokens: &[Token]) -> (Option<&[Token]>, &[Token])
    ensures { Some (told_wheres result.0, result.1.now) ≡ wheres_at tokens.now }
{
    match after(Keyword::Where, tokens) {
        Some(rest) => {
            let (inner, rest) = rest.split_at(before_stop(rest));
            (Some(inner), rest)
        }
        None => (None, tokens),
    }
}

/// The predicate that the tokens are, if there are some.
pub fn predicate(alloc: Global, wheres: Option<&[Token]>) -> Result<Option<Written>, Fault>
    ensures found { IfOk result (λ p. IsWheres (told_wheres wheres.entry) p) }
    ensures syntax { IsErrOf result Fault.Syntax → (p : Option Tree) → IsWheres (told_wheres wheres.entry) p → ⊥ }
    ensures only { IfOk result (λ p. (other : Option Tree) → IsWheres (told_wheres wheres.entry) other → other ≡ p) }
{
    let Some(tokens) = wheres else {
        return Ok(None);
    };
    match pred(alloc, tokens) {
        Ok(written) => Ok(Some(written)),
        Err(s2_pred::Fault::Syntax) => Err(Fault::Syntax),
        Err(s2_pred::Fault::Memory) => Err(Fault::Memory),
    }
}
