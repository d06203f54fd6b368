//! The clauses of statements printed.
ghost use Rattle.std.specs.Prelude.{◌≡◌, ◌++◌, ◌∷◌, OnOk, map};
ghost use Rattle.s2_token.specs.declared.types.Token.TheVariants as token;
ghost use Rattle.s2_pred.specs.Trees.{words as tree_words};
ghost use Rattle.s2_pred.specs.Printing.{name_at};
ghost use Rattle.s2_line.specs.Words.{term_words, set_words, by_words, agg_words, order_words, limit_words, wheres_words, name_words, in_parentheses};
ghost use Rattle.s2_line.specs.declared.forms.RawAgg.TheVariants.{Count};
ghost use Rattle.s2_model.specs.Predicates.{predicate_of};
ghost use Rattle.s2_sqltext.specs.Printing.{where_line, sum_line, term_line, set_line, by_line, agg_line, is_every_row, WhereIsWritten};

use crate::lists::{Part, list};
use crate::parts::{column, value};
use s2_line::{RawAgg, RawBy, RawSet};
use s2_model::{Agg, Condition, Pred, SetExpr};
use s2_pred::{TokenList, print_pred};
use s2_token::{Keyword, Symbol, Token};
use s2_value::{Col, Memory};
use std::alloc::Global;

fn sum(
    alloc: Global,
    cols: &[Col],
    place: u8,
    minus: bool,
    number: i64,
    tokens: &mut TokenList,
) -> Result<(), Memory>
    ensures { OnOk result (tokens.new ≡ tokens.old ++ term_words (sum_line (name_at cols.now place) minus number)) }
{
    tokens.add(column(alloc, cols, place)?)?;
    let operator = if minus { Symbol::Minus } else { Symbol::Plus };
    tokens.add(Token::Sign(operator))?;
    if number < 0 {
        tokens.add(Token::Sign(Symbol::Minus))?;
    }
    tokens.add(Token::Number(number.unsigned_abs()))
}

fn term(alloc: Global, cols: &[Col], expr: &SetExpr, tokens: &mut TokenList) -> Result<(), Memory>
    ensures { OnOk result (tokens.new ≡ tokens.old ++ term_words (term_line cols.now expr.now)) }
{
    match expr {
        SetExpr::Given(given) => value(alloc, given, tokens),
        SetExpr::Column(place) => tokens.add(column(alloc, cols, *place)?),
        SetExpr::Plus(place, number) => sum(alloc, cols, *place, false, *number, tokens),
        SetExpr::Minus(place, number) => sum(alloc, cols, *place, true, *number, tokens),
    }
}

/// What an `UPDATE` sets.
pub struct Sets;

impl Part for Sets {
    type Item = (u8, SetExpr);

    type Raw = RawSet;

    ghost raw = { set_line };

    ghost words = { set_words };

    fn print(
        alloc: Global,
        cols: &[Col],
        item: &(u8, SetExpr),
        tokens: &mut TokenList,
    ) -> Result<(), Memory> {
        tokens.add(column(alloc, cols, item.0)?)?;
        tokens.add(Token::Sign(Symbol::Equal))?;
        term(alloc, cols, &item.1, tokens)
    }
}

/// The items of an `ORDER BY`.
pub struct Orders;

impl Part for Orders {
    type Item = (u8, bool);

    type Raw = RawBy;

    ghost raw = { by_line };

    ghost words = { by_words };

    fn print(
        alloc: Global,
        cols: &[Col],
        item: &(u8, bool),
        tokens: &mut TokenList,
    ) -> Result<(), Memory> {
        tokens.add(column(alloc, cols, item.0)?)?;
        if item.1 {
            tokens.add(Token::Key(Keyword::Desc))?;
        }
        Ok(())
    }
}

fn of_column(
    alloc: Global,
    cols: &[Col],
    measure: Keyword,
    place: u8,
    tokens: &mut TokenList,
) -> Result<(), Memory>
    ensures { OnOk result (tokens.new ≡ tokens.old ++ token.Key measure ∷ in_parentheses (name_words (name_at cols.now place))) }
{
    tokens.add(Token::Key(measure))?;
    tokens.add(Token::Sign(Symbol::Open))?;
    tokens.add(column(alloc, cols, place)?)?;
    tokens.add(Token::Sign(Symbol::Close))
}

fn count(tokens: &mut TokenList) -> Result<(), Memory>
    ensures { OnOk result (tokens.new ≡ tokens.old ++ agg_words Count) }
{
    tokens.add(Token::Key(Keyword::Count))?;
    tokens.add(Token::Sign(Symbol::Open))?;
    tokens.add(Token::Sign(Symbol::Star))?;
    tokens.add(Token::Sign(Symbol::Close))
}

/// The aggregates of a `SELECT`.
pub struct Aggregates;

impl Part for Aggregates {
    type Item = Agg;

    type Raw = RawAgg;

    ghost raw = { agg_line };

    ghost words = { agg_words };

    fn print(
        alloc: Global,
        cols: &[Col],
        item: &Agg,
        tokens: &mut TokenList,
    ) -> Result<(), Memory> {
        match item {
            Agg::Count => count(tokens),
            Agg::Sum(place) => of_column(alloc, cols, Keyword::Sum, *place, tokens),
            Agg::Min(place) => of_column(alloc, cols, Keyword::Min, *place, tokens),
            Agg::Max(place) => of_column(alloc, cols, Keyword::Max, *place, tokens),
        }
    }
}

fn is_every_row(condition: &Condition) -> bool
    ensures { result ≡ is_every_row condition.now }
{
    matches!(condition.pred(), Pred::All)
}

/// Adds `WHERE` and the words of a condition, and nothing for all rows.
pub fn wheres(
    alloc: Global,
    cols: &[Col],
    condition: &Condition,
    tokens: &mut TokenList,
) -> Result<(), Memory>
    requires { WhereIsWritten condition.now }
    ensures { OnOk result (tokens.new ≡ tokens.old ++ wheres_words tree_words (where_line cols.now condition.now)) }
{
    if is_every_row(condition) {
        return Ok(());
    }
    tokens.add(Token::Key(Keyword::Where))?;
    print_pred(alloc, cols, condition, tokens)
}

/// Adds the words of an `ORDER BY`, and nothing for an empty one.
pub fn order(
    alloc: Global,
    cols: &[Col],
    items: &[(u8, bool)],
    tokens: &mut TokenList,
) -> Result<(), Memory>
    ensures { OnOk result (tokens.new ≡ tokens.old ++ order_words (map (by_line cols.now) items.now)) }
{
    if items.is_empty() {
        return Ok(());
    }
    tokens.add(Token::Key(Keyword::Order))?;
    tokens.add(Token::Key(Keyword::By))?;
    list::<Orders>(alloc, cols, items, tokens)
}

/// Adds the words of a `LIMIT`, and nothing for none.
pub fn limit(most: Option<u64>, tokens: &mut TokenList) -> Result<(), Memory>
    ensures { OnOk result (tokens.new ≡ tokens.old ++ limit_words most) }
{
    match most {
        Some(most) => {
            tokens.add(Token::Key(Keyword::Limit))?;
            tokens.add(Token::Number(most))
        }
        None => Ok(()),
    }
}
