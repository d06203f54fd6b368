//! Values and columns of the wrong type, and tuples of the wrong length.
ghost use Rattle.std.specs.Prelude.{◌≡◌, not};
ghost use Rattle.std.specs.List.{list_any};
ghost use Rattle.s2_judge.specs.Kinds.{is_number_type, is_number, same, is_number_column, is_tuple_of, is_wrong_term, is_wrong_set, is_wrong_test, is_wrong_agg, has_wrong, is_wrong_in, is_wrong_type, test_column};

use crate::columns::column_of;
use crate::known::{Known, Table};
use crate::names::is_same;
use crate::statements::tests_of;
use s2_line::{Measure, Raw, RawAgg, RawColumn, RawOf, RawSet, RawStmt, RawStmtOf, RawTerm, Tuple};
use s2_pred::Test;
use s2_token::Literal;
use s2_value::ColType;

fn is_number_type(kind: ColType) -> bool
    ensures { result ≡ is_number_type kind }
{
    match kind {
        ColType::Int => true,
        ColType::Text => false,
    }
}

fn is_number(literal: &Literal) -> bool
    ensures { result ≡ is_number literal.now }
{
    match literal {
        Literal::Number { .. } => true,
        Literal::Text(_) => false,
    }
}

fn same(a: bool, b: bool) -> bool
    ensures { result ≡ same a b }
{
    if a { b } else { !b }
}

fn is_number_column(columns: &[RawColumn], name: &[u8]) -> bool
    ensures { result ≡ is_number_column columns.now name.now }
{
    let mut left = columns;
    while let [column, rest @ ..] = left {
        if is_same(column.name.as_slice(), name) {
            return is_number_type(column.kind);
        }
        left = rest;
    }
    false
}

/// Whether the literal can stand in the column.
fn suits(column: &RawColumn, literal: &Literal) -> bool
    ensures { result ≡ same (is_number_type column.now.kind) (is_number literal.now) }
{
    same(is_number_type(column.kind), is_number(literal))
}

fn is_tuple_of(columns: &[RawColumn], literals: &[Literal]) -> bool
    ensures { result ≡ is_tuple_of columns.now literals.now }
{
    let mut xs = literals;
    let mut left = columns;
    while let [column, later @ ..] = left {
        let [literal, rest @ ..] = xs else {
            return false;
        };
        if !suits(column, literal) {
            return false;
        }
        xs = rest;
        left = later;
    }
    xs.is_empty()
}

fn has_wrong_tuple(columns: &[RawColumn], tuples: &[Tuple]) -> bool
    ensures { result ≡ list_any (λ xs. not (is_tuple_of columns.now xs)) tuples.now }
{
    tuples
        .iter()
        .any(|tuple| !is_tuple_of(columns, tuple.as_slice()))
}

fn is_wrong_term(columns: &[RawColumn], number: bool, term: &RawTerm) -> bool
    ensures { result ≡ is_wrong_term columns.now number term.now }
{
    match term {
        RawTerm::Literal(literal) => !same(number, is_number(literal)),
        RawTerm::Column(name) => !same(number, is_number_column(columns, name.as_slice())),
        RawTerm::Sum { name, .. } => !(number && is_number_column(columns, name.as_slice())),
    }
}

fn is_wrong_set(columns: &[RawColumn], set: &RawSet) -> bool
    ensures { result ≡ is_wrong_set columns.now set.now }
{
    let number = is_number_column(columns, set.name.as_slice());
    is_wrong_term(columns, number, &set.term)
}

fn has_wrong_set(columns: &[RawColumn], sets: &[RawSet]) -> bool
    ensures { result ≡ list_any (is_wrong_set columns.now) sets.now }
{
    sets.iter().any(|set| is_wrong_set(columns, set))
}

fn has_other(number: bool, literals: &[Literal]) -> bool
    ensures { result ≡ list_any (λ x. not (same number (is_number x))) literals.now }
{
    literals
        .iter()
        .any(|literal| !same(number, is_number(literal)))
}

fn is_wrong_test(columns: &[RawColumn], test: &Test) -> bool
    ensures { result ≡ is_wrong_test columns.now test.now }
{
    let number = is_number_column(columns, column_of(test));
    match test {
        Test::Compare { literal, .. } => !same(number, is_number(literal)),
        Test::OneOf { literals, .. } => has_other(number, literals.as_slice()),
    }
}

fn has_wrong_test(columns: &[RawColumn], tests: &[Test]) -> bool
    ensures { result ≡ list_any (is_wrong_test columns.now) tests.now }
{
    tests.iter().any(|test| is_wrong_test(columns, test))
}

fn is_wrong_agg(columns: &[RawColumn], aggregate: &RawAgg) -> bool
    ensures { result ≡ is_wrong_agg columns.now aggregate.now }
{
    match aggregate {
        RawAgg::Of {
            measure: Measure::Sum,
            name,
        } => !is_number_column(columns, name.as_slice()),
        _ => false,
    }
}

fn has_wrong_agg(columns: &[RawColumn], aggregates: &[RawAgg]) -> bool
    ensures { result ≡ list_any (is_wrong_agg columns.now) aggregates.now }
{
    aggregates
        .iter()
        .any(|aggregate| is_wrong_agg(columns, aggregate))
}

fn has_wrong(columns: &[RawColumn], stmt: &RawStmt) -> bool
    ensures { result ≡ has_wrong columns.now stmt.now }
{
    match stmt {
        RawStmtOf::Insert { tuples, .. } => has_wrong_tuple(columns, tuples.as_slice()),
        RawStmtOf::Update { sets, .. } => has_wrong_set(columns, sets.as_slice()),
        RawStmtOf::Aggregate { aggregates, .. } => has_wrong_agg(columns, aggregates.as_slice()),
        _ => false,
    }
}

fn is_wrong_in(table: &Option<Table>, stmt: &RawStmt) -> bool
    ensures { result ≡ is_wrong_in table.now stmt.now }
{
    match table {
        Some(table) => {
            let columns = table.columns.as_slice();
            has_wrong(columns, stmt) || has_wrong_test(columns, tests_of(stmt))
        }
        None => false,
    }
}

/// Whether a value, a column or a sum of the line has the wrong type, or a tuple the wrong length.
pub fn is_wrong_type(known: &Known, line: &Raw) -> bool
    ensures { result ≡ is_wrong_type known.now line.now }
{
    match line {
        RawOf::Session { stmt, .. } => is_wrong_in(&known.table, stmt),
        _ => false,
    }
}
