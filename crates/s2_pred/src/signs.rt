//! The signs of a predicate in tokens.
ghost use Rattle.std.specs.Prelude.{◌≡◌, ◌⊎◌, ◌++◌, [], ◌∷◌, None, IfOk, IfSome, IsErrOf, IsNone};
ghost use Rattle.s2_token.specs.declared.types.Keyword.TheVariants as key;
ghost use Rattle.s2_token.specs.declared.types.Symbol.TheVariants as symbol;
ghost use Rattle.s2_token.specs.declared.types.Token.TheVariants as token;
ghost use Rattle.s2_pred.specs.Trees.{IsTest, test_words, op_symbol};
ghost use Rattle.s2_pred.specs.Reading.{NoSign, NoTest, NoLiterals, IsSign, sign_words, symbol_op, key_sign, symbol_sign, after_in, symbol_at, literal_at};

use crate::literals::{literal, literals};
use crate::types::Sign;
use crate::{Fault, Test};
use s2_model::Op;
use s2_token::{Bytes, Keyword, Symbol, Token};
use s2_value::Duplicate;
use std::alloc::Global;

fn op(symbol: Symbol) -> Option<Op>
    ensures some { IfSome result (λ o. symbol ≡ op_symbol o) }
    ensures none { IsNone result → symbol_op symbol ≡ None }
{
    match symbol {
        Symbol::Equal => Some(Op::Eq),
        Symbol::NotEqual => Some(Op::Ne),
        Symbol::Less => Some(Op::Lt),
        Symbol::AtMost => Some(Op::Le),
        Symbol::Greater => Some(Op::Gt),
        Symbol::AtLeast => Some(Op::Ge),
        _ => None,
    }
}

fn word(key: Keyword) -> Option<Sign>
    ensures sign { IfSome result IsSign }
    ensures some { IfSome result (λ s. token.Key key ∷ [] ≡ sign_words s) }
    ensures none { IsNone result → key_sign key ≡ None }
{
    match key {
        Keyword::Not => Some(Sign::Not),
        Keyword::And => Some(Sign::And),
        Keyword::Or => Some(Sign::Or),
        _ => None,
    }
}

fn bracket(symbol: Symbol) -> Option<Sign>
    ensures sign { IfSome result IsSign }
    ensures some { IfSome result (λ s. token.Sign symbol ∷ [] ≡ sign_words s) }
    ensures none { IsNone result → symbol_sign symbol ≡ None }
{
    match symbol {
        Symbol::Open => Some(Sign::Open),
        Symbol::Close => Some(Sign::Close),
        _ => None,
    }
}

fn list_start(tokens: &[Token]) -> Option<&[Token]>
    ensures some { IfSome result (λ rest. tokens.now ≡ token.Key key.In ∷ token.Sign symbol.Open ∷ rest.now) }
    ensures none { IsNone result → after_in tokens.now ≡ None }
{
    match tokens {
        [
            Token::Key(Keyword::In),
            Token::Sign(Symbol::Open),
            rest @ ..,
        ] => Some(rest),
        _ => None,
    }
}

fn symbol(tokens: &[Token]) -> Option<(Symbol, &[Token])>
    ensures some { IfSome result (λ p. tokens.now ≡ token.Sign p.0 ∷ p.1.now) }
    ensures none { IsNone result → symbol_at tokens.now ≡ None }
{
    match tokens {
        [Token::Sign(symbol), rest @ ..] => Some((*symbol, rest)),
        _ => None,
    }
}

fn compare<'a>(
    name: &Bytes,
    symbol: Symbol,
    tokens: &'a [Token],
) -> Result<(Test, &'a [Token]), Fault>
    ensures whole { IfOk result (λ p. IsTest p.0) }
    ensures found { IfOk result (λ p. token.Name name.now ∷ token.Sign symbol ∷ tokens.now ≡ test_words p.0 ++ p.1.now) }
    ensures syntax { IsErrOf result Fault.Syntax → (symbol_op symbol ≡ None) ⊎ (literal_at tokens.now ≡ None) }
{
    match op(symbol) {
        Some(op) => {
            let (literal, rest) = literal(tokens)?;
            let column = name.copy()?;
            Ok((
                Test::Compare {
                    column,
                    op,
                    literal,
                },
                rest,
            ))
        }
        None => Err(Fault::Syntax),
    }
}

fn one_of<'a>(
    alloc: Global,
    name: &Bytes,
    tokens: &'a [Token],
) -> Result<(Test, &'a [Token]), Fault>
    ensures whole { IfOk result (λ p. IsTest p.0) }
    ensures found { IfOk result (λ p. token.Name name.now ∷ token.Key key.In ∷ token.Sign symbol.Open ∷ tokens.now ≡ test_words p.0 ++ p.1.now) }
    ensures syntax { IsErrOf result Fault.Syntax → NoLiterals tokens.now }
{
    let (literals, rest) = literals(alloc, tokens)?;
    let column = name.copy()?;
    Ok((Test::OneOf { column, literals }, rest))
}

fn test<'a>(alloc: Global, name: &Bytes, tokens: &'a [Token]) -> Result<(Test, &'a [Token]), Fault>
    ensures whole { IfOk result (λ p. IsTest p.0) }
    ensures found { IfOk result (λ p. token.Name name.now ∷ tokens.now ≡ test_words p.0 ++ p.1.now) }
    ensures syntax { IsErrOf result Fault.Syntax → NoTest (token.Name name.now ∷ tokens.now) }
{
    if let Some(rest) = list_start(tokens) {
        return one_of(alloc, name, rest);
    }
    match symbol(tokens) {
        Some((symbol, rest)) => compare(name, symbol, rest),
        None => Err(Fault::Syntax),
    }
}

fn named<'a>(alloc: Global, name: &Bytes, tokens: &'a [Token]) -> Result<(Sign, &'a [Token]), Fault>
    ensures whole { IfOk result (λ p. IsSign p.0) }
    ensures found { IfOk result (λ p. token.Name name.now ∷ tokens.now ≡ sign_words p.0 ++ p.1.now) }
    ensures syntax { IsErrOf result Fault.Syntax → NoSign (token.Name name.now ∷ tokens.now) }
{
    let (test, rest) = test(alloc, name, tokens)?;
    Ok((Sign::Test(test), rest))
}

/// The sign at the front, and what follows it.
pub(crate) fn sign(alloc: Global, tokens: &[Token]) -> Result<(Sign, &[Token]), Fault>
    ensures whole { IfOk result (λ p. IsSign p.0) }
    ensures found { IfOk result (λ p. tokens.now ≡ sign_words p.0 ++ p.1.now) }
    ensures syntax { IsErrOf result Fault.Syntax → NoSign tokens.now }
{
    match tokens {
        [Token::Name(name), rest @ ..] => named(alloc, name, rest),
        [Token::Key(key), rest @ ..] => match word(*key) {
            Some(sign) => Ok((sign, rest)),
            None => Err(Fault::Syntax),
        },
        [Token::Sign(symbol), rest @ ..] => match bracket(*symbol) {
            Some(sign) => Ok((sign, rest)),
            None => Err(Fault::Syntax),
        },
        [Token::Number(_), ..] => Err(Fault::Syntax),
        [Token::Text(_), ..] => Err(Fault::Syntax),
        [] => Err(Fault::Syntax),
    }
}
