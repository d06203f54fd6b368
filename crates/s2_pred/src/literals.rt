//! Literals in tokens.
ghost use Rattle.std.specs.Prelude.{◌≡◌, ◌<◌, ◌++◌, ◌∷◌, None, length, IfOk, IfSome, IsNone, IsErrOf};
ghost use Rattle.s2_token.specs.declared.types.Token.TheVariants as token;
ghost use Rattle.s2_token.specs.declared.types.Symbol.TheVariants as symbol;
ghost use Rattle.s2_token.specs.Literals.{literal_words};
ghost use Rattle.s2_pred.specs.Trees.{list_words};
ghost use Rattle.s2_pred.specs.Reading.{literal_at, after_comma, after_close, closed, NoLiterals};

use crate::{Fault, LiteralList};
use s2_token::{Literal, Symbol, Token};
use s2_value::{Duplicate, Seq};
use std::alloc::Global;

/// The literal at the front, and what follows it.
pub(crate) fn literal(tokens: &[Token]) -> Result<(Literal, &[Token]), Fault>
    ensures found { IfOk result (λ p. tokens.now ≡ literal_words p.0 ++ p.1.now) }
    ensures syntax { IsErrOf result Fault.Syntax → literal_at tokens.now ≡ None }
{
    match tokens {
        [Token::Number(size), rest @ ..] => Ok((
            Literal::Number {
                negative: false,
                size: *size,
            },
            rest,
        )),
        [Token::Sign(Symbol::Minus), Token::Number(size), rest @ ..] => Ok((
            Literal::Number {
                negative: true,
                size: *size,
            },
            rest,
        )),
        [Token::Text(bytes), rest @ ..] => Ok((Literal::Text(bytes.copy()?), rest)),
        _ => Err(Fault::Syntax),
    }
}

fn comma(tokens: &[Token]) -> Option<&[Token]>
    ensures some { IfSome result (λ rest. tokens.now ≡ token.Sign symbol.Comma ∷ rest.now) }
    ensures none { IsNone result → after_comma tokens.now ≡ None }
{
    match tokens {
        [Token::Sign(Symbol::Comma), rest @ ..] => Some(rest),
        _ => None,
    }
}

fn close(tokens: &[Token]) -> Option<&[Token]>
    ensures some { IfSome result (λ rest. tokens.now ≡ closed rest.now) }
    ensures none { IsNone result → after_close tokens.now ≡ None }
{
    match tokens {
        [Token::Sign(Symbol::Close), rest @ ..] => Some(rest),
        _ => None,
    }
}

/// The literals at the front, up to `)`, and what follows that.
pub(crate) fn literals(alloc: Global, tokens: &[Token]) -> Result<(LiteralList, &[Token]), Fault>
    ensures some { IfOk result (λ p. 0 < length p.0) }
    ensures found { IfOk result (λ p. tokens.now ≡ list_words p.0 ++ closed p.1.now) }
    ensures syntax { IsErrOf result Fault.Syntax → NoLiterals tokens.now }
{
    let mut list = Seq::new(alloc);
    let (first, mut left) = literal(tokens)?;
    list.add(first)?;
    while let Some(rest) = comma(left) {
        let (next, after) = literal(rest)?;
        list.add(next)?;
        left = after;
    }
    match close(left) {
        Some(rest) => Ok((list, rest)),
        None => Err(Fault::Syntax),
    }
}
