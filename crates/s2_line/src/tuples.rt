//! Literals, tuples and `INSERT`.
ghost use Rattle.s2_token.specs.Literals.{literal_at};
ghost use Rattle.s2_line.specs.Reading.{Gives, told_stmt, tuple_at, insert_at};

use crate::fault::Fault;
use crate::forms::{RawStmtOf, Tuple};
use crate::lists::{Rule, list};
use crate::steps::{comma, key, name, sign};
use s2_token::{Keyword, Literal, Symbol, Token};
use std::alloc::Global;

/// A literal at the front, and the tokens after it.
pub fn literal(tokens: &[Token]) -> Result<(Literal, &[Token]), Fault>
    ensures { Gives (λ x. (x.0, x.1.now)) result (literal_at tokens.now) }
{
    match s2_token::literal(tokens)? {
        Some(found) => Ok(found),
        None => Err(Fault::Syntax),
    }
}

/// The items of a tuple.
struct Literals;

impl Rule for Literals {
    type Out = Literal;

    ghost at = { literal_at };

    fn read(_alloc: Global, tokens: &[Token]) -> Result<(Literal, &[Token]), Fault> {
        literal(tokens)
    }

    fn next(tokens: &[Token]) -> Option<&[Token]> {
        comma(tokens)
    }
}

/// A tuple at the front, and the tokens after it.
#[tactic(auto, unfolding(crate::specs::Reading::tuple_at))]
fn tuple(alloc: Global, tokens: &[Token]) -> Result<(Tuple, &[Token]), Fault>
    ensures { Gives (λ x. (x.0, x.1.now)) result (tuple_at tokens.now) }
{
    let (literals, rest) = list::<Literals>(alloc, sign(Symbol::Open, tokens)?)?;
    Ok((literals, sign(Symbol::Close, rest)?))
}

/// The items of an `INSERT`.
struct Tuples;

impl Rule for Tuples {
    type Out = Tuple;

    ghost at = { tuple_at };

    fn read(alloc: Global, tokens: &[Token]) -> Result<(Tuple, &[Token]), Fault> {
        tuple(alloc, tokens)
    }

    fn next(tokens: &[Token]) -> Option<&[Token]> {
        comma(tokens)
    }
}

/// What stands after `INSERT`, and the tokens after it.
#[tactic(auto, unfolding(crate::specs::Reading::insert_at))]
pub fn insert(alloc: Global, tokens: &[Token]) -> Result<(RawStmtOf<&[Token]>, &[Token]), Fault>
    ensures { Gives (λ x. (told_stmt x.0, x.1.now)) result (insert_at tokens.now) }
{
    let (table, rest) = name(key(Keyword::Into, tokens)?)?;
    let (tuples, rest) = list::<Tuples>(alloc, key(Keyword::Values, rest)?)?;
    Ok((RawStmtOf::Insert { table, tuples }, rest))
}
