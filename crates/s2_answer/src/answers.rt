//! What a SELECT answers over the rows of a table.
ghost use Rattle.std.specs.Prelude.{◌≡◌, ◌≤◌, ◌+ℤ◌, ◌∷◌, [], IfOk, true, length, fold, map};
ghost use Rattle.s2_model.specs.Table.{rises_above};
ghost use Rattle.s2_model.specs.Rows.{value_at, number_in};
ghost use Rattle.s2_model.specs.Answer.{kept, ordered, cell_of, shown, cut, column, lesser, greater, end_of, sum_of, aggregate, answer};
ghost use Rattle.s2_answer.specs.Found.{seen};

use crate::found::{compare_columns, first_matching, matching, sort};
use s2_model::{Agg, Cell, CellList, CellTable, ColPicks, Condition, Items, Select, number_at};
use s2_value::{Duplicate, Memory, Row, Seq, Value};
use std::alloc::Global;

fn cell_of(value: &Value) -> Result<Cell, Memory>
    ensures { IfOk result (λ c. c ≡ cell_of value.now) }
{
    match value {
        Value::Int(number) => Ok(Cell::Int(i128::from(*number))),
        Value::Text(text) => Ok(Cell::Text(text.copy()?)),
    }
}

fn all_cells(alloc: Global, row: &[Value]) -> Result<CellList, Memory>
    ensures { IfOk result (λ cells. cells ≡ map cell_of row.now) }
{
    let mut cells = Vec::with_capacity(alloc, row.len())?;
    for value in row {
        cells.push(cell_of(value)?)?;
    }
    Ok(Seq::from_vec(cells))
}

fn cell_at(row: &[Value], column: u8) -> Result<Cell, Memory>
    ensures { IfOk result (λ c. c ≡ cell_of (value_at row.now column)) }
{
    match row.get(usize::from(column)) {
        Some(value) => cell_of(value),
        None => Ok(Cell::Int(0)),
    }
}

fn shown(alloc: Global, columns: &[u8], row: &[Value]) -> Result<CellList, Memory>
    ensures { IfOk result (λ cells. cells ≡ shown columns.now row.now) }
{
    let mut cells = Vec::with_capacity(alloc, columns.len())?;
    for column in columns {
        cells.push(cell_at(row, *column)?)?;
    }
    Ok(Seq::from_vec(cells))
}

fn whole_rows(alloc: Global, found: &[&(u64, Row)]) -> Result<CellTable, Memory>
    ensures { IfOk result (λ t. t ≡ map (λ p. map cell_of p.1) (seen found.now)) }
{
    let mut answered = Vec::with_capacity(alloc, found.len())?;
    for row in found {
        answered.push(all_cells(alloc, row.1.as_slice())?)?;
    }
    Ok(Seq::from_vec(answered))
}

fn shown_rows(alloc: Global, columns: &ColPicks, found: &[&(u64, Row)]) -> Result<CellTable, Memory>
    ensures { IfOk result (λ t. t ≡ map (λ p. shown columns.now p.1) (seen found.now)) }
{
    let mut answered = Vec::with_capacity(alloc, found.len())?;
    for row in found {
        answered.push(shown(alloc, columns.as_slice(), row.1.as_slice())?)?;
    }
    Ok(Seq::from_vec(answered))
}

/// The rows of a SELECT in their order, at most so many.
fn chosen<'a>(
    alloc: Global,
    select: &Select,
    rows: &'a [(u64, Row)],
) -> Result<Vec<&'a (u64, Row)>, Memory>
    requires { rises_above 0 rows.now ≡ true }
    ensures { IfOk result (λ v. seen v.items ≡ cut select.now.limit (ordered select.now.order (kept select.now.pred rows.now))) }
{
    let order = select.order.as_slice();
    if order.is_empty() {
        return in_place(alloc, &select.pred, rows, select.limit);
    }
    let mut found = matching(alloc, &select.pred, rows)?;
    sort(order, &mut found)?;
    cut(&mut found, select.limit);
    Ok(found)
}

/// The rows that match as they stand, at most so many.
fn in_place<'a>(
    alloc: Global,
    pred: &Condition,
    rows: &'a [(u64, Row)],
    limit: Option<u64>,
) -> Result<Vec<&'a (u64, Row)>, Memory>
    ensures { IfOk result (λ v. seen v.items ≡ cut limit (kept pred.now rows.now)) }
{
    match limit {
        Some(most) => first_matching(alloc, pred, rows, most as usize),
        None => matching(alloc, pred, rows),
    }
}

fn cut(found: &mut Vec<&(u64, Row)>, limit: Option<u64>)
    ensures { seen found.new.items ≡ cut limit (seen found.old.items) }
{
    if let Some(most) = limit {
        found.truncate(most as usize);
    }
}

fn total(first: i64, rest: &[&(u64, Row)], place: u8) -> i128
    ensures { result ≡ fold (λ z v. z +ℤ number_in v) first (column place (seen rest.now)) }
{
    let mut sum = i128::from(first);
    for row in rest {
        sum += i128::from(number_at(row.1.as_slice(), place));
    }
    sum
}

fn sum_of(found: &[&(u64, Row)], place: u8) -> Cell
    ensures { result ≡ sum_of (column place (seen found.now)) }
{
    match found {
        [] => Cell::Nothing,
        [first, rest @ ..] => Cell::Int(total(number_at(first.1.as_slice(), place), rest, place)),
    }
}

fn least<'a>(first: &'a (u64, Row), rest: &[&'a (u64, Row)], place: u8) -> &'a (u64, Row)
    ensures { value_at result.now.1 place ≡ fold lesser (value_at first.now.1 place) (column place (seen rest.now)) }
{
    let mut best = first;
    for row in rest {
        if compare_columns(row.1.as_slice(), best.1.as_slice(), place).is_lt() {
            best = row;
        }
    }
    best
}

fn most<'a>(first: &'a (u64, Row), rest: &[&'a (u64, Row)], place: u8) -> &'a (u64, Row)
    ensures { value_at result.now.1 place ≡ fold greater (value_at first.now.1 place) (column place (seen rest.now)) }
{
    let mut best = first;
    for row in rest {
        if compare_columns(row.1.as_slice(), best.1.as_slice(), place).is_gt() {
            best = row;
        }
    }
    best
}

fn least_of(found: &[&(u64, Row)], place: u8) -> Result<Cell, Memory>
    ensures { IfOk result (λ c. c ≡ end_of lesser (column place (seen found.now))) }
{
    match found {
        [] => Ok(Cell::Nothing),
        [first, rest @ ..] => cell_at(least(first, rest, place).1.as_slice(), place),
    }
}

fn most_of(found: &[&(u64, Row)], place: u8) -> Result<Cell, Memory>
    ensures { IfOk result (λ c. c ≡ end_of greater (column place (seen found.now))) }
{
    match found {
        [] => Ok(Cell::Nothing),
        [first, rest @ ..] => cell_at(most(first, rest, place).1.as_slice(), place),
    }
}

fn aggregate(found: &[&(u64, Row)], agg: Agg) -> Result<Cell, Memory>
    ensures { IfOk result (λ c. c ≡ aggregate (seen found.now) agg) }
{
    match agg {
        Agg::Count => Ok(Cell::Int(found.len() as i128)),
        Agg::Sum(column) => Ok(sum_of(found, column)),
        Agg::Min(column) => least_of(found, column),
        Agg::Max(column) => most_of(found, column),
    }
}

fn aggregates(alloc: Global, found: &[&(u64, Row)], aggs: &[Agg]) -> Result<CellList, Memory>
    ensures { IfOk result (λ cells. cells ≡ map (aggregate (seen found.now)) aggs.now) }
{
    let mut cells = Vec::with_capacity(alloc, aggs.len())?;
    for agg in aggs {
        cells.push(aggregate(found, *agg)?)?;
    }
    Ok(Seq::from_vec(cells))
}

fn one_row(alloc: Global, cells: CellList) -> Result<CellTable, Memory>
    ensures { IfOk result (λ t. t ≡ cells ∷ []) }
{
    let mut answered = Vec::with_capacity(alloc, 1)?;
    answered.push(cells)?;
    Ok(Seq::from_vec(answered))
}

/// What a SELECT answers over a table by rising row number.
/// It tests each row once, but stops at LIMIT where there is no ORDER BY; it sorts once where there is one, and each aggregate goes over the rows that match. No row is copied but into the answer.
pub fn answer(alloc: Global, select: &Select, rows: &[(u64, Row)]) -> Result<CellTable, Memory>
    requires { rises_above 0 rows.now ≡ true }
    ensures { IfOk result (λ t. t ≡ answer select.now rows.now) }
{
    match &select.items {
        Items::Star => whole_rows(alloc, &chosen(alloc, select, rows)?),
        Items::Columns(columns) => shown_rows(alloc, columns, &chosen(alloc, select, rows)?),
        Items::Aggs(aggs) => {
            let found = matching(alloc, &select.pred, rows)?;
            one_row(alloc, aggregates(alloc, &found, aggs.as_slice())?)
        }
    }
}
