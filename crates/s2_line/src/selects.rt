//! `SELECT`.
ghost use Rattle.std.specs.Prelude.{◌≡◌, Some};
ghost use Rattle.s2_line.specs.Reading.{Gives, told_stmt, columns_at, direction_at, by_at, order_at, limit_at, measure_at, count_at, measured_at, agg_at, is_measured, aggregate_at, plain_at, select_at};

use crate::fault::Fault;
use crate::forms::{Direction, Measure, RawAgg, RawBy, RawItems, RawStmtOf};
use crate::lists::{Rule, list};
use crate::names::Names;
use crate::predicates::wheres;
use crate::steps::{after, comma, key, name, number, sign};
use s2_token::{Keyword, Symbol, Token};
use s2_value::Seq;
use std::alloc::Global;

/// `*` or names, and the tokens after them.
#[tactic(auto, unfolding(crate::specs::Reading::columns_at))]
fn columns(alloc: Global, tokens: &[Token]) -> Result<(RawItems, &[Token]), Fault>
    ensures { Gives (λ x. (x.0, x.1.now)) result (columns_at tokens.now) }
{
    match tokens {
        [Token::Sign(Symbol::Star), rest @ ..] => Ok((RawItems::Star, rest)),
        _ => {
            let (names, rest) = list::<Names>(alloc, tokens)?;
            Ok((RawItems::Columns(names), rest))
        }
    }
}

#[tactic(auto, unfolding(crate::specs::Reading::direction_at))]
fn direction(tokens: &[Token]) -> (Direction, &[Token])
    ensures { Some (result.0, result.1.now) ≡ direction_at tokens.now }
{
    match tokens {
        [Token::Key(Keyword::Asc), rest @ ..] => (Direction::Asc, rest),
        [Token::Key(Keyword::Desc), rest @ ..] => (Direction::Desc, rest),
        _ => (Direction::Plain, tokens),
    }
}

#[tactic(auto, unfolding(crate::specs::Reading::by_at))]
fn by(tokens: &[Token]) -> Result<(RawBy, &[Token]), Fault>
    ensures { Gives (λ x. (x.0, x.1.now)) result (by_at tokens.now) }
{
    let (name, rest) = name(tokens)?;
    let (direction, rest) = direction(rest);
    Ok((RawBy { name, direction }, rest))
}

/// The items of `ORDER BY`.
struct Orders;

impl Rule for Orders {
    type Out = RawBy;

    ghost at = { by_at };

    fn read(_alloc: Global, tokens: &[Token]) -> Result<(RawBy, &[Token]), Fault> {
        by(tokens)
    }

    fn next(tokens: &[Token]) -> Option<&[Token]> {
        comma(tokens)
    }
}

/// `ORDER BY` and its items, if they stand there, and the tokens after them.
#[tactic(auto, unfolding(crate::specs::Reading::order_at))]
fn order(alloc: Global, tokens: &[Token]) -> Result<(Seq<RawBy>, &[Token]), Fault>
    ensures { Gives (λ x. (x.0, x.1.now)) result (order_at tokens.now) }
{
    match after(Keyword::Order, tokens) {
        Some(rest) => list::<Orders>(alloc, key(Keyword::By, rest)?),
        None => Ok((Seq::new(alloc), tokens)),
    }
}

/// `LIMIT` and its number, if they stand there, and the tokens after them.
#[tactic(auto, unfolding(crate::specs::Reading::limit_at))]
fn limit(tokens: &[Token]) -> Result<(Option<u64>, &[Token]), Fault>
    ensures { Gives (λ x. (x.0, x.1.now)) result (limit_at tokens.now) }
{
    match after(Keyword::Limit, tokens) {
        Some(rest) => {
            let (count, rest) = number(rest)?;
            Ok((Some(count), rest))
        }
        None => Ok((None, tokens)),
    }
}

#[tactic(auto, unfolding(crate::specs::Reading::measure_at))]
fn measure(tokens: &[Token]) -> Result<(Measure, &[Token]), Fault>
    ensures { Gives (λ x. (x.0, x.1.now)) result (measure_at tokens.now) }
{
    match tokens {
        [Token::Key(Keyword::Sum), rest @ ..] => Ok((Measure::Sum, rest)),
        [Token::Key(Keyword::Min), rest @ ..] => Ok((Measure::Min, rest)),
        [Token::Key(Keyword::Max), rest @ ..] => Ok((Measure::Max, rest)),
        _ => Err(Fault::Syntax),
    }
}

/// What stands after `COUNT`, and the tokens after it.
#[tactic(auto, unfolding(crate::specs::Reading::count_at))]
fn count(tokens: &[Token]) -> Result<(RawAgg, &[Token]), Fault>
    ensures { Gives (λ x. (x.0, x.1.now)) result (count_at tokens.now) }
{
    match tokens {
        [
            Token::Sign(Symbol::Open),
            Token::Sign(Symbol::Star),
            Token::Sign(Symbol::Close),
            rest @ ..,
        ] => Ok((RawAgg::Count, rest)),
        _ => Err(Fault::Syntax),
    }
}

#[tactic(auto, unfolding(crate::specs::Reading::measured_at))]
fn measured(tokens: &[Token]) -> Result<(RawAgg, &[Token]), Fault>
    ensures { Gives (λ x. (x.0, x.1.now)) result (measured_at tokens.now) }
{
    let (measure, rest) = measure(tokens)?;
    let (name, rest) = name(sign(Symbol::Open, rest)?)?;
    let rest = sign(Symbol::Close, rest)?;
    Ok((RawAgg::Of { measure, name }, rest))
}

#[tactic(auto, unfolding(crate::specs::Reading::agg_at))]
fn aggregate_of(tokens: &[Token]) -> Result<(RawAgg, &[Token]), Fault>
    ensures { Gives (λ x. (x.0, x.1.now)) result (agg_at tokens.now) }
{
    match tokens {
        [Token::Key(Keyword::Count), rest @ ..] => count(rest),
        _ => measured(tokens),
    }
}

/// The aggregates of a `SELECT`.
struct Aggregates;

impl Rule for Aggregates {
    type Out = RawAgg;

    ghost at = { agg_at };

    fn read(_alloc: Global, tokens: &[Token]) -> Result<(RawAgg, &[Token]), Fault> {
        aggregate_of(tokens)
    }

    fn next(tokens: &[Token]) -> Option<&[Token]> {
        comma(tokens)
    }
}

/// Whether an aggregate begins here.
#[tactic(auto, unfolding(crate::specs::Reading::is_measured))]
fn is_measured(tokens: &[Token]) -> bool
    ensures { result ≡ is_measured tokens.now }
{
    match tokens {
        [Token::Key(Keyword::Count), ..] => true,
        [Token::Key(Keyword::Sum), ..] => true,
        [Token::Key(Keyword::Min), ..] => true,
        [Token::Key(Keyword::Max), ..] => true,
        _ => false,
    }
}

#[tactic(auto, unfolding(crate::specs::Reading::aggregate_at))]
fn aggregate(alloc: Global, tokens: &[Token]) -> Result<(RawStmtOf<&[Token]>, &[Token]), Fault>
    ensures { Gives (λ x. (told_stmt x.0, x.1.now)) result (aggregate_at tokens.now) }
{
    let (aggregates, rest) = list::<Aggregates>(alloc, tokens)?;
    let (table, rest) = name(key(Keyword::From, rest)?)?;
    let (wheres, rest) = wheres(rest);
    let aggregate = RawStmtOf::Aggregate {
        aggregates,
        table,
        wheres,
    };
    Ok((aggregate, rest))
}

#[tactic(auto, unfolding(crate::specs::Reading::plain_at))]
fn plain(alloc: Global, tokens: &[Token]) -> Result<(RawStmtOf<&[Token]>, &[Token]), Fault>
    ensures { Gives (λ x. (told_stmt x.0, x.1.now)) result (plain_at tokens.now) }
{
    let (items, rest) = columns(alloc, tokens)?;
    let (table, rest) = name(key(Keyword::From, rest)?)?;
    let (wheres, rest) = wheres(rest);
    let (order, rest) = order(alloc, rest)?;
    let (limit, rest) = limit(rest)?;
    let select = RawStmtOf::Select {
        items,
        table,
        wheres,
        order,
        limit,
    };
    Ok((select, rest))
}

/// What stands after `SELECT`, and the tokens after it.
#[tactic(auto, unfolding(crate::specs::Reading::select_at))]
pub fn select(alloc: Global, tokens: &[Token]) -> Result<(RawStmtOf<&[Token]>, &[Token]), Fault>
    ensures { Gives (λ x. (told_stmt x.0, x.1.now)) result (select_at tokens.now) }
{
    if is_measured(tokens) {
        aggregate(alloc, tokens)
    } else {
        plain(alloc, tokens)
    }
}
