//! `UPDATE` and `DELETE`.
ghost use Rattle.s2_line.specs.Reading.{Gives, told_stmt, signed_at, operator_at, sum_at, term_at, set_at, update_at, delete_at};

use crate::fault::Fault;
use crate::forms::{RawSet, RawStmtOf, RawTerm};
use crate::lists::{Rule, list};
use crate::predicates::wheres;
use crate::steps::{comma, key, name, sign};
use crate::tuples::literal;
use s2_token::{Bytes, Keyword, Symbol, Token};
use s2_value::Duplicate;
use std::alloc::Global;

/// A number with a sign or without, and the tokens after it.
#[tactic(auto, unfolding(crate::specs::Reading::signed_at))]
fn signed(tokens: &[Token]) -> Result<(bool, u64, &[Token]), Fault>
    ensures { Gives (λ x. ((x.0, x.1), x.2.now)) result (signed_at tokens.now) }
{
    match tokens {
        [Token::Sign(Symbol::Minus), Token::Number(size), rest @ ..] => Ok((true, *size, rest)),
        [Token::Number(size), rest @ ..] => Ok((false, *size, rest)),
        _ => Err(Fault::Syntax),
    }
}

/// What begins with a column's name: that column, or a sum.
#[tactic(auto, unfolding(crate::specs::Reading::sum_at, crate::specs::Reading::operator_at))]
fn sum(name: Bytes, tokens: &[Token]) -> Result<(RawTerm, &[Token]), Fault>
    ensures { Gives (λ x. (x.0, x.1.now)) result (sum_at name tokens.now) }
{
    let (minus, rest) = match tokens {
        [Token::Sign(Symbol::Plus), rest @ ..] => (false, rest),
        [Token::Sign(Symbol::Minus), rest @ ..] => (true, rest),
        _ => return Ok((RawTerm::Column(name), tokens)),
    };
    let (negative, size, rest) = signed(rest)?;
    let term = RawTerm::Sum {
        name,
        minus,
        negative,
        size,
    };
    Ok((term, rest))
}

#[tactic(auto, unfolding(crate::specs::Reading::term_at))]
fn term(tokens: &[Token]) -> Result<(RawTerm, &[Token]), Fault>
    ensures { Gives (λ x. (x.0, x.1.now)) result (term_at tokens.now) }
{
    match tokens {
        [Token::Name(bytes), rest @ ..] => sum(bytes.copy()?, rest),
        _ => {
            let (literal, rest) = literal(tokens)?;
            Ok((RawTerm::Literal(literal), rest))
        }
    }
}

#[tactic(auto, unfolding(crate::specs::Reading::set_at))]
fn set(tokens: &[Token]) -> Result<(RawSet, &[Token]), Fault>
    ensures { Gives (λ x. (x.0, x.1.now)) result (set_at tokens.now) }
{
    let (name, rest) = name(tokens)?;
    let (term, rest) = term(sign(Symbol::Equal, rest)?)?;
    Ok((RawSet { name, term }, rest))
}

/// What an `UPDATE` sets.
struct Sets;

impl Rule for Sets {
    type Out = RawSet;

    ghost at = { set_at };

    fn read(_alloc: Global, tokens: &[Token]) -> Result<(RawSet, &[Token]), Fault> {
        set(tokens)
    }

    fn next(tokens: &[Token]) -> Option<&[Token]> {
        comma(tokens)
    }
}

/// What stands after `UPDATE`, and the tokens after it.
#[tactic(auto, unfolding(crate::specs::Reading::update_at))]
pub fn update(alloc: Global, tokens: &[Token]) -> Result<(RawStmtOf<&[Token]>, &[Token]), Fault>
    ensures { Gives (λ x. (told_stmt x.0, x.1.now)) result (update_at tokens.now) }
{
    let (table, rest) = name(tokens)?;
    let (sets, rest) = list::<Sets>(alloc, key(Keyword::Set, rest)?)?;
    let (wheres, rest) = wheres(rest);
    let update = RawStmtOf::Update {
        table,
        sets,
        wheres,
    };
    Ok((update, rest))
}

/// What stands after `DELETE`, and the tokens after it.
#[tactic(auto, unfolding(crate::specs::Reading::delete_at))]
pub fn delete(tokens: &[Token]) -> Result<(RawStmtOf<&[Token]>, &[Token]), Fault>
    ensures { Gives (λ x. (told_stmt x.0, x.1.now)) result (delete_at tokens.now) }
{
    let (table, rest) = name(key(Keyword::From, tokens)?)?;
    let (wheres, rest) = wheres(rest);
    Ok((RawStmtOf::Delete { table, wheres }, rest))
}
