//! Predicates over rows, and rows after an UPDATE.
ghost use Rattle.std.specs.Prelude.{◌≡◌, ◌+ℤ◌, ◌-ℤ◌, IfOk, slice_set};
ghost use Rattle.std.specs.List.{list_any};
ghost use Rattle.std.specs.Ordering.{is_eq};
ghost use Rattle.s2_value.specs.Order.{value_cmp};
ghost use Rattle.s2_model.specs.Predicates.{predicate_of};
ghost use Rattle.s2_model.specs.Rows.{value_at, accepts, matches, in_range, number_in, set_value, set_columns, after};

use crate::{Condition, Op, Pred, SetExpr, SetList};
use s2_value::{Duplicate, Memory, Row, Seq, Value};
use std::alloc::Global;
use std::cmp::Ordering;

#[cfg(test)]
mod tests;

fn accepts(op: Op, order: Ordering) -> bool
    ensures { result ≡ accepts op order }
{
    match op {
        Op::Eq => order.is_eq(),
        Op::Ne => order.is_ne(),
        Op::Lt => order.is_lt(),
        Op::Le => order.is_le(),
        Op::Gt => order.is_gt(),
        Op::Ge => order.is_ge(),
    }
}

/// How the value of a column stands to a value. A column that the row doesn't have reads as the number 0.
pub fn compare_at(row: &[Value], column: u8, value: &Value) -> Ordering
    ensures { result ≡ value_cmp (value_at row.now column) value.now }
{
    match row.get(usize::from(column)) {
        Some(found) => found.cmp(value),
        None => Value::Int(0).cmp(value),
    }
}

fn is_one_of(row: &[Value], column: u8, values: &[Value]) -> bool
    ensures { result ≡ list_any (λ v. is_eq (value_cmp (value_at row.now column) v)) values.now }
{
    for value in values {
        if compare_at(row, column, value).is_eq() {
            return true;
        }
    }
    false
}

fn holds(pred: &Pred, row: &Row) -> bool
    ensures { result ≡ matches (predicate_of pred.now) row.now }
{
    match pred {
        Pred::All => true,
        Pred::Cmp(column, op, value) => accepts(*op, compare_at(row.as_slice(), *column, value)),
        Pred::OneOf(column, values) => is_one_of(row.as_slice(), *column, values.as_slice()),
        Pred::And(left, right) => holds(left, row) && holds(right, row),
        Pred::Or(left, right) => holds(left, row) || holds(right, row),
        Pred::Not(inner) => !holds(inner, row),
    }
}

/// Whether the predicate is true of the row. Values are compared in their order: numbers by size, texts by bytes, a number before a text.
/// A column that the row doesn't have reads as the number 0, so it answers for every row.
/// It takes no memory. It goes one call deeper for each nesting of AND, OR and NOT: a script has at most 64 comparisons in a predicate, and nests at most 16 deep.
pub fn matches(pred: &Condition, row: &Row) -> bool
    ensures { result ≡ matches pred.now row.now }
{
    holds(pred.pred(), row)
}

/// A copy of the value of a column. A column that the row doesn't have reads as the number 0. The `Err` is want of memory.
pub fn copy_at(row: &[Value], column: u8) -> Result<Value, Memory>
    ensures { IfOk result (λ v. v ≡ value_at row.now column) }
{
    match row.get(usize::from(column)) {
        Some(found) => found.copy(),
        None => Ok(Value::Int(0)),
    }
}

/// The number in a column. A text, and a column that the row doesn't have, read as 0.
pub fn number_at(row: &[Value], column: u8) -> i64
    ensures { result ≡ number_in (value_at row.now column) }
{
    match row.get(usize::from(column)) {
        Some(Value::Int(number)) => *number,
        Some(Value::Text(_)) => 0,
        None => 0,
    }
}

fn plus(number: i64, more: i64) -> Option<Value>
    ensures { result ≡ in_range (number +ℤ more) }
{
    match number.checked_add(more) {
        Some(sum) => Some(Value::Int(sum)),
        None => None,
    }
}

fn minus(number: i64, less: i64) -> Option<Value>
    ensures { result ≡ in_range (number -ℤ less) }
{
    match number.checked_sub(less) {
        Some(difference) => Some(Value::Int(difference)),
        None => None,
    }
}

fn set_value(expr: &SetExpr, row: &[Value]) -> Result<Option<Value>, Memory>
    ensures { IfOk result (λ v. v ≡ set_value expr.now row.now) }
{
    match expr {
        SetExpr::Given(value) => Ok(Some(value.copy()?)),
        SetExpr::Column(column) => Ok(Some(copy_at(row, *column)?)),
        SetExpr::Plus(column, more) => Ok(plus(number_at(row, *column), *more)),
        SetExpr::Minus(column, less) => Ok(minus(number_at(row, *column), *less)),
    }
}

fn replace(now: &mut Vec<Value>, column: u8, value: Value)
    ensures { now.new.items ≡ slice_set now.old.items column value }
{
    let place = usize::from(column);
    if place < now.len() {
        now[place] = value;
    }
}

fn set_columns(
    sets: &[(u8, SetExpr)],
    was: &[Value],
    now: Vec<Value>,
) -> Result<Option<Row>, Memory>
    ensures { IfOk result (λ r. r ≡ set_columns sets.now was.now now.items) }
{
    let mut now = now;
    for set in sets {
        match set_value(&set.1, was)? {
            Some(value) => replace(&mut now, set.0, value),
            None => return Ok(None),
        }
    }
    Ok(Some(Seq::from_vec(now)))
}

/// The row with each set column replaced, each computed from the row as it was; None exactly where a sum leaves 64 bits.
/// A column that the row doesn't have reads as the number 0 and stays unset. The `Err` is want of memory.
pub fn after(alloc: Global, sets: &SetList, row: &Row) -> Result<Option<Row>, Memory>
    ensures { IfOk result (λ r. r ≡ after sets.now row.now) }
{
    let now = row.copy()?;
    set_columns(sets.as_slice(), row.as_slice(), now.into_vec())
}
