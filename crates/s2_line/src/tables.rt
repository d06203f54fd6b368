//! Options and `CREATE TABLE`.
ghost use Rattle.std.specs.Prelude.{◌≡◌};
ghost use Rattle.std.specs.Option.{option_copied};
ghost use Rattle.s2_line.specs.Reading.{Gives, told_raw, option_at, kind_at, column_at, column_next_at, use_at, index_at, indexes_at, create_at};

use crate::fault::Fault;
use crate::forms::{KeyUse, RawColumn, RawKey, RawOf};
use crate::lists::{Rule, list};
use crate::names::Names;
use crate::steps::{comma, key, name, number, sign};
use s2_token::{Keyword, Symbol, Token};
use s2_value::{ColType, Seq};
use std::alloc::Global;

/// What stands after `OPTION`, and the tokens after it.
#[tactic(auto, unfolding(crate::specs::Reading::option_at))]
pub fn option(tokens: &[Token]) -> Result<(RawOf<&[Token]>, &[Token]), Fault>
    ensures { Gives (λ x. (told_raw x.0, x.1.now)) result (option_at tokens.now) }
{
    let (name, rest) = name(tokens)?;
    let (value, rest) = number(rest)?;
    Ok((RawOf::Option { name, value }, rest))
}

#[tactic(auto, unfolding(crate::specs::Reading::kind_at))]
fn kind(tokens: &[Token]) -> Result<(ColType, &[Token]), Fault>
    ensures { Gives (λ x. (x.0, x.1.now)) result (kind_at tokens.now) }
{
    match tokens {
        [Token::Key(Keyword::Int), rest @ ..] => Ok((ColType::Int, rest)),
        [Token::Key(Keyword::Text), rest @ ..] => Ok((ColType::Text, rest)),
        _ => Err(Fault::Syntax),
    }
}

#[tactic(auto, unfolding(crate::specs::Reading::column_at))]
fn column(tokens: &[Token]) -> Result<(RawColumn, &[Token]), Fault>
    ensures { Gives (λ x. (x.0, x.1.now)) result (column_at tokens.now) }
{
    let (name, rest) = name(tokens)?;
    let (kind, rest) = kind(rest)?;
    Ok((RawColumn { name, kind }, rest))
}

/// The tokens after a comma with a name behind it: a key may follow the last column in place of a name.
#[tactic(auto, unfolding(crate::specs::Reading::column_next_at))]
fn column_next(tokens: &[Token]) -> Option<&[Token]>
    ensures { option_copied result ≡ column_next_at tokens.now }
{
    match tokens {
        [Token::Sign(Symbol::Comma), rest @ ..] => match rest {
            [Token::Name(_), ..] => Some(rest),
            _ => None,
        },
        _ => None,
    }
}

/// The columns of a table.
struct Columns;

impl Rule for Columns {
    type Out = RawColumn;

    ghost at = { column_at };

    ghost goes_on = { column_next_at };

    fn read(_alloc: Global, tokens: &[Token]) -> Result<(RawColumn, &[Token]), Fault> {
        column(tokens)
    }

    fn next(tokens: &[Token]) -> Option<&[Token]> {
        column_next(tokens)
    }
}

#[tactic(auto, unfolding(crate::specs::Reading::use_at))]
fn purpose(tokens: &[Token]) -> Result<(KeyUse, &[Token]), Fault>
    ensures { Gives (λ x. (x.0, x.1.now)) result (use_at tokens.now) }
{
    match tokens {
        [Token::Key(Keyword::Key), rest @ ..] => Ok((KeyUse::Index, rest)),
        [
            Token::Key(Keyword::Unique),
            Token::Key(Keyword::Key),
            rest @ ..,
        ] => Ok((KeyUse::Unique, rest)),
        [
            Token::Key(Keyword::Sort),
            Token::Key(Keyword::Key),
            rest @ ..,
        ] => Ok((KeyUse::Sort, rest)),
        _ => Err(Fault::Syntax),
    }
}

#[tactic(auto, unfolding(crate::specs::Reading::index_at))]
fn index(alloc: Global, tokens: &[Token]) -> Result<(RawKey, &[Token]), Fault>
    ensures { Gives (λ x. (x.0, x.1.now)) result (index_at tokens.now) }
{
    let (purpose, rest) = purpose(tokens)?;
    let (columns, rest) = list::<Names>(alloc, sign(Symbol::Open, rest)?)?;
    let rest = sign(Symbol::Close, rest)?;
    Ok((RawKey { purpose, columns }, rest))
}

/// The keys of a table.
struct Keys;

impl Rule for Keys {
    type Out = RawKey;

    ghost at = { index_at };

    fn read(alloc: Global, tokens: &[Token]) -> Result<(RawKey, &[Token]), Fault> {
        index(alloc, tokens)
    }

    fn next(tokens: &[Token]) -> Option<&[Token]> {
        comma(tokens)
    }
}

/// The keys after the columns, if any, and the tokens after them.
#[tactic(auto, unfolding(crate::specs::Reading::indexes_at))]
fn indexes(alloc: Global, tokens: &[Token]) -> Result<(Seq<RawKey>, &[Token]), Fault>
    ensures { Gives (λ x. (x.0, x.1.now)) result (indexes_at tokens.now) }
{
    match comma(tokens) {
        Some(rest) => list::<Keys>(alloc, rest),
        None => Ok((Seq::new(alloc), tokens)),
    }
}

/// What stands after `CREATE`, and the tokens after it.
#[tactic(auto, unfolding(crate::specs::Reading::create_at))]
pub fn create(alloc: Global, tokens: &[Token]) -> Result<(RawOf<&[Token]>, &[Token]), Fault>
    ensures { Gives (λ x. (told_raw x.0, x.1.now)) result (create_at tokens.now) }
{
    let (table, rest) = name(key(Keyword::Table, tokens)?)?;
    let (columns, rest) = list::<Columns>(alloc, sign(Symbol::Open, rest)?)?;
    let (keys, rest) = indexes(alloc, rest)?;
    let rest = sign(Symbol::Close, rest)?;
    let table = RawOf::Create {
        table,
        columns,
        keys,
    };
    Ok((table, rest))
}
