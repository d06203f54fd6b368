//! One token at the front.
ghost use Rattle.std.specs.Prelude.{◌≡◌};
ghost use Rattle.std.specs.Option.{option_copied};
ghost use Rattle.s2_line.specs.Reading.{Gives, comma_at, key_at, sign_at, name_at, number_at};

use crate::fault::Fault;
use s2_token::{Bytes, Keyword, Symbol, Token};
use s2_value::Duplicate;

/// The tokens after a comma at the front.
#[tactic(auto, unfolding(crate::specs::Reading::sign_at))]
pub fn comma(tokens: &[Token]) -> Option<&[Token]>
    ensures { option_copied result ≡ comma_at tokens.now }
{
    match tokens {
        [Token::Sign(Symbol::Comma), rest @ ..] => Some(rest),
        _ => None,
    }
}

/// The tokens after this keyword, if it stands at the front.
#[tactic(auto, unfolding(crate::specs::Reading::key_at))]
pub fn after(keyword: Keyword, tokens: &[Token]) -> Option<&[Token]>
    ensures { option_copied result ≡ key_at keyword tokens.now }
{
    match tokens {
        [Token::Key(first), rest @ ..] if *first == keyword => Some(rest),
        _ => None,
    }
}

/// The tokens after this keyword, which must stand at the front.
pub fn key(keyword: Keyword, tokens: &[Token]) -> Result<&[Token], Fault>
    ensures { Gives (λ rest. rest.now) result (key_at keyword tokens.now) }
{
    after(keyword, tokens).ok_or(Fault::Syntax)
}

/// The tokens after this symbol, which must stand at the front.
#[tactic(auto, unfolding(crate::specs::Reading::sign_at))]
pub fn sign(symbol: Symbol, tokens: &[Token]) -> Result<&[Token], Fault>
    ensures { Gives (λ rest. rest.now) result (sign_at symbol tokens.now) }
{
    match tokens {
        [Token::Sign(first), rest @ ..] if *first == symbol => Ok(rest),
        _ => Err(Fault::Syntax),
    }
}

/// The name at the front, and the tokens after it.
#[tactic(auto, unfolding(crate::specs::Reading::name_at))]
pub fn name(tokens: &[Token]) -> Result<(Bytes, &[Token]), Fault>
    ensures { Gives (λ x. (x.0, x.1.now)) result (name_at tokens.now) }
{
    match tokens {
        [Token::Name(bytes), rest @ ..] => Ok((bytes.copy()?, rest)),
        _ => Err(Fault::Syntax),
    }
}

/// The number at the front, and the tokens after it.
#[tactic(auto, unfolding(crate::specs::Reading::number_at))]
pub fn number(tokens: &[Token]) -> Result<(u64, &[Token]), Fault>
    ensures { Gives (λ x. (x.0, x.1.now)) result (number_at tokens.now) }
{
    match tokens {
        [Token::Number(value), rest @ ..] => Ok((*value, rest)),
        _ => Err(Fault::Syntax),
    }
}
