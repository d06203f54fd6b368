//! The literal at the front of tokens.
ghost use Rattle.std.specs.Prelude.{◌≡◌, ◌++◌, List, IfOk, IfSome, IfNone};
ghost use Rattle.std.specs.Option.{option_map};
ghost use Rattle.s2_token.specs.declared.types.Literal.{Literal};
ghost use Rattle.s2_token.specs.declared.types.Token.{Token};
ghost use Rattle.s2_token.specs.Literals.{literal_at, literal_words};

use crate::{Literal, Symbol, Token};
use s2_value::{Duplicate, Memory};

#[tactic(auto, unfolding(crate::specs::Literals::literal_at))]
fn front(tokens: &[Token]) -> Result<Option<(Literal, &[Token])>, Memory>
    ensures { IfOk result (λ found. option_map (λ x. (x.0, x.1.now)) found ≡ literal_at tokens.now) }
{
    match tokens {
        [Token::Number(size), rest @ ..] => {
            let number = Literal::Number {
                negative: false,
                size: *size,
            };
            Ok(Some((number, rest)))
        }
        [Token::Text(bytes), rest @ ..] => Ok(Some((Literal::Text(bytes.copy()?), rest))),
        [Token::Sign(Symbol::Minus), Token::Number(size), rest @ ..] => {
            let number = Literal::Number {
                negative: true,
                size: *size,
            };
            Ok(Some((number, rest)))
        }
        _ => Ok(None),
    }
}

/// The literal that stands at the front of the tokens, and the tokens after it; `None` exactly where none stands there. The `Err` is want of memory.
pub fn literal(tokens: &[Token]) -> Result<Option<(Literal, &[Token])>, Memory>
    ensures found { IfOk result (λ found. IfSome found (λ x. tokens.now ≡ literal_words x.0 ++ x.1.now)) }
    ensures none { IfOk result (λ found. IfNone found ((other : Literal) (rest : List Token) → tokens.now ≡ literal_words other ++ rest → ⊥)) }
    ensures only { IfOk result (λ found. IfSome found (λ x. (other : Literal) (rest : List Token) → tokens.now ≡ literal_words other ++ rest → (other ≡ x.0) × (rest ≡ x.1.now))) }
    ensures gives { IfOk result (λ found. option_map (λ x. (x.0, x.1.now)) found ≡ literal_at tokens.now) }
{
    front(tokens)
}
