//! Statements printed.
ghost use Rattle.std.specs.Prelude.{◌≡◌, ◌++◌, ◌∷◌, [], OnOk, map};
ghost use Rattle.s2_token.specs.declared.types.Token.TheVariants as token;
ghost use Rattle.s2_token.specs.declared.types.Keyword.TheVariants as keyword;
ghost use Rattle.s2_pred.specs.Trees.{words as tree_words};
ghost use Rattle.s2_line.specs.Words.{stmt_spelled, wheres_words, order_words, limit_words};
ghost use Rattle.s2_model.specs.declared.statements.Stmt.TheVariants as made;
ghost use Rattle.s2_sqltext.specs.Printing.{where_line, by_line, select_line, stmt_line, StmtIsWritten, WhereIsWritten};

use crate::clauses::{Aggregates, Sets, limit, order, wheres};
use crate::lists::list;
use crate::parts::{Names, Rows, name};
use s2_model::{Condition, Items, Select, SetExpr, Stmt};
use s2_pred::TokenList;
use s2_token::{Keyword, Symbol, Token};
use s2_value::{Col, Memory, Row};
use std::alloc::Global;

fn insert(
    alloc: Global,
    table: &[u8],
    cols: &[Col],
    rows: &[Row],
    tokens: &mut TokenList,
) -> Result<(), Memory>
    ensures { OnOk result (tokens.new ≡ tokens.old ++ stmt_spelled tree_words (stmt_line table.now cols.now (made.Insert rows.now))) }
{
    tokens.add(Token::Key(Keyword::Insert))?;
    tokens.add(Token::Key(Keyword::Into))?;
    tokens.add(name(alloc, table)?)?;
    tokens.add(Token::Key(Keyword::Values))?;
    list::<Rows>(alloc, cols, rows, tokens)
}

fn update(
    alloc: Global,
    table: &[u8],
    cols: &[Col],
    sets: &[(u8, SetExpr)],
    pred: &Condition,
    tokens: &mut TokenList,
) -> Result<(), Memory>
    requires { WhereIsWritten pred.now }
    ensures { OnOk result (tokens.new ≡ tokens.old ++ stmt_spelled tree_words (stmt_line table.now cols.now (made.Update sets.now pred.now))) }
{
    tokens.add(Token::Key(Keyword::Update))?;
    tokens.add(name(alloc, table)?)?;
    tokens.add(Token::Key(Keyword::Set))?;
    list::<Sets>(alloc, cols, sets, tokens)?;
    wheres(alloc, cols, pred, tokens)
}

fn delete(
    alloc: Global,
    table: &[u8],
    cols: &[Col],
    pred: &Condition,
    tokens: &mut TokenList,
) -> Result<(), Memory>
    requires { WhereIsWritten pred.now }
    ensures { OnOk result (tokens.new ≡ tokens.old ++ stmt_spelled tree_words (stmt_line table.now cols.now (made.Delete pred.now))) }
{
    tokens.add(Token::Key(Keyword::Delete))?;
    tokens.add(Token::Key(Keyword::From))?;
    tokens.add(name(alloc, table)?)?;
    wheres(alloc, cols, pred, tokens)
}

/// `FROM`, the table and the condition.
fn rows_of(
    alloc: Global,
    table: &[u8],
    cols: &[Col],
    pred: &Condition,
    tokens: &mut TokenList,
) -> Result<(), Memory>
    requires { WhereIsWritten pred.now }
    ensures { OnOk result (tokens.new ≡ tokens.old ++ token.Key keyword.From ∷ token.Name table.now ∷ wheres_words tree_words (where_line cols.now pred.now)) }
{
    tokens.add(Token::Key(Keyword::From))?;
    tokens.add(name(alloc, table)?)?;
    wheres(alloc, cols, pred, tokens)
}

/// What stands behind the items of a `SELECT` without aggregates.
fn ordered_rows(
    alloc: Global,
    table: &[u8],
    cols: &[Col],
    select: &Select,
    tokens: &mut TokenList,
) -> Result<(), Memory>
    requires { WhereIsWritten select.now.pred }
    ensures { OnOk result (tokens.new ≡ tokens.old ++ token.Key keyword.From ∷ token.Name table.now ∷ (wheres_words tree_words (where_line cols.now select.now.pred) ++ (order_words (map (by_line cols.now) select.now.order) ++ limit_words select.now.limit))) }
{
    rows_of(alloc, table, cols, &select.pred, tokens)?;
    order(alloc, cols, select.order.as_slice(), tokens)?;
    limit(select.limit, tokens)
}

fn select(
    alloc: Global,
    table: &[u8],
    cols: &[Col],
    select: &Select,
    tokens: &mut TokenList,
) -> Result<(), Memory>
    requires { WhereIsWritten select.now.pred }
    ensures { OnOk result (tokens.new ≡ tokens.old ++ stmt_spelled tree_words (select_line table.now cols.now select.now)) }
{
    tokens.add(Token::Key(Keyword::Select))?;
    match &select.items {
        Items::Star => {
            tokens.add(Token::Sign(Symbol::Star))?;
            ordered_rows(alloc, table, cols, select, tokens)
        }
        Items::Columns(places) => {
            list::<Names>(alloc, cols, places.as_slice(), tokens)?;
            ordered_rows(alloc, table, cols, select, tokens)
        }
        Items::Aggs(aggs) => {
            list::<Aggregates>(alloc, cols, aggs.as_slice(), tokens)?;
            rows_of(alloc, table, cols, &select.pred, tokens)
        }
    }
}

fn keys(words: &[Keyword], tokens: &mut TokenList) -> Result<(), Memory>
    ensures { OnOk result (tokens.new ≡ tokens.old ++ map token.Key words.now) }
{
    let mut left = words;
    while let [word, rest @ ..] = left {
        tokens.add(Token::Key(*word))?;
        left = rest;
    }
    Ok(())
}

fn numbered(word: Keyword, number: u8, tokens: &mut TokenList) -> Result<(), Memory>
    ensures { OnOk result (tokens.new ≡ tokens.old ++ token.Key word ∷ token.Number number ∷ []) }
{
    tokens.add(Token::Key(word))?;
    tokens.add(Token::Number(u64::from(number)))
}

/// Adds the words of a statement over this table.
pub fn stmt(
    alloc: Global,
    table: &[u8],
    cols: &[Col],
    stmt: &Stmt,
    tokens: &mut TokenList,
) -> Result<(), Memory>
    requires { StmtIsWritten stmt.now }
    ensures { OnOk result (tokens.new ≡ tokens.old ++ stmt_spelled tree_words (stmt_line table.now cols.now stmt.now)) }
{
    match stmt {
        Stmt::Insert(rows) => insert(alloc, table, cols, rows.as_slice(), tokens),
        Stmt::Update(sets, pred) => update(alloc, table, cols, sets.as_slice(), pred, tokens),
        Stmt::Delete(pred) => delete(alloc, table, cols, pred, tokens),
        Stmt::Select(given) => select(alloc, table, cols, given.get(), tokens),
        Stmt::Begin => keys(&[Keyword::Begin], tokens),
        Stmt::BeginReadOnly => keys(&[Keyword::Begin, Keyword::Read, Keyword::Only], tokens),
        Stmt::Commit => keys(&[Keyword::Commit], tokens),
        Stmt::Rollback => keys(&[Keyword::Rollback], tokens),
        Stmt::Flush => keys(&[Keyword::Flush], tokens),
        Stmt::FlushBegin => keys(&[Keyword::Flush, Keyword::Begin], tokens),
        Stmt::FlushEnd => keys(&[Keyword::Flush, Keyword::End], tokens),
        Stmt::Merge => keys(&[Keyword::Merge], tokens),
        Stmt::MergeBegin => keys(&[Keyword::Merge, Keyword::Begin], tokens),
        Stmt::MergeEnd => keys(&[Keyword::Merge, Keyword::End], tokens),
        Stmt::Upload => keys(&[Keyword::Upload], tokens),
        Stmt::Evict => keys(&[Keyword::Evict], tokens),
        Stmt::Vacuum => keys(&[Keyword::Vacuum], tokens),
        Stmt::Mark(number) => numbered(Keyword::Mark, *number, tokens),
        Stmt::After(number) => numbered(Keyword::After, *number, tokens),
    }
}
