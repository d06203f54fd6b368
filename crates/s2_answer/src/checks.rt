//! Whether what a statement writes fits the table.
ghost use Rattle.std.specs.Prelude.{◌≡◌, ◌&&◌};
ghost use Rattle.std.specs.List.{list_all};
ghost use Rattle.s2_value.specs.Schemas.{fits};
ghost use Rattle.s2_answer.specs.Suits.{kind_at, is_kind, kind_of, has_kind, suits, suits_as, stmt_suits};

use s2_model::{SetExpr, Stmt};
use s2_value::{Col, ColType, Row, Schema, Value};

fn kind_at(cols: &[Col], column: u8) -> Option<ColType>
    ensures { result ≡ kind_at cols.now column }
{
    match cols.get(usize::from(column)) {
        Some(col) => Some(col.kind),
        None => None,
    }
}

fn is_kind(kind: ColType, found: Option<ColType>) -> bool
    ensures { result ≡ is_kind kind found }
{
    match (kind, found) {
        (ColType::Int, Some(ColType::Int)) => true,
        (ColType::Text, Some(ColType::Text)) => true,
        (ColType::Int, Some(ColType::Text)) => false,
        (ColType::Text, Some(ColType::Int)) => false,
        (ColType::Int, None) => false,
        (ColType::Text, None) => false,
    }
}

fn kind_of(value: &Value) -> ColType
    ensures { result ≡ kind_of value.now }
{
    match value {
        Value::Int(_) => ColType::Int,
        Value::Text(_) => ColType::Text,
    }
}

fn has_kind(cols: &[Col], column: u8, kind: Option<ColType>) -> bool
    ensures { result ≡ has_kind cols.now column kind }
{
    match kind {
        Some(kind) => is_kind(kind, kind_at(cols, column)),
        None => false,
    }
}

fn are_numbers(cols: &[Col], column: u8, other: u8) -> bool
    ensures { result ≡ (is_kind ColType.Int (kind_at cols.now column) && is_kind ColType.Int (kind_at cols.now other)) }
{
    is_kind(ColType::Int, kind_at(cols, column)) && is_kind(ColType::Int, kind_at(cols, other))
}

fn suits_as(cols: &[Col], column: u8, expr: &SetExpr) -> bool
    ensures { result ≡ suits_as cols.now column expr.now }
{
    match expr {
        SetExpr::Given(value) => is_kind(kind_of(value), kind_at(cols, column)),
        SetExpr::Column(other) => has_kind(cols, column, kind_at(cols, *other)),
        SetExpr::Plus(other, _) => are_numbers(cols, column, *other),
        SetExpr::Minus(other, _) => are_numbers(cols, column, *other),
    }
}

fn all_suit(cols: &[Col], sets: &[(u8, SetExpr)]) -> bool
    ensures { result ≡ list_all (suits cols.now) sets.now }
{
    for set in sets {
        if !suits_as(cols, set.0, &set.1) {
            return false;
        }
    }
    true
}

fn all_fit(schema: &Schema, rows: &[Row]) -> bool
    ensures { result ≡ list_all (fits schema.now) rows.now }
{
    for row in rows {
        if !schema.fits(row) {
            return false;
        }
    }
    true
}

/// Whether the statement is a write or a SELECT, and the rows that it inserts and what its columns are set to fit the table. It takes no memory, and goes once over the statement.
pub fn stmt_suits(schema: &Schema, stmt: &Stmt) -> bool
    ensures { result ≡ stmt_suits schema.now stmt.now }
{
    match stmt {
        Stmt::Insert(rows) => all_fit(schema, rows.as_slice()),
        Stmt::Update(sets, _) => all_suit(schema.cols.as_slice(), sets.as_slice()),
        Stmt::Delete(_) => true,
        Stmt::Select(_) => true,
        _ => false,
    }
}
