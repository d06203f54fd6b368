//! Key values of rows, and who has them.
ghost use Rattle.std.specs.Prelude.{◌≡◌, ◌==◌, ◌&&◌, ◌||◌, IfOk, not};
ghost use Rattle.std.specs.List.{list_any};
ghost use Rattle.s2_value.specs.Order.{value_eq};
ghost use Rattle.s2_value.specs.Rows.{key_of};
ghost use Rattle.s2_model.specs.Table.{number_of, row_at};
ghost use Rattle.s2_model.specs.Rows.{value_at};
ghost use Rattle.s2_model.specs.Held.{has_key, some_has_key, put_has_key, has_value};
ghost use Rattle.s2_model.specs.Verdict.{has_other};

use s2_model::{Change, copy_at};
use s2_slow::{number_of, row_at};
use s2_value::{Key, Memory, Row, Seq, Value};
use std::alloc::Global;

/// The row's values at these columns. A column that the row doesn't have reads as the number 0.
pub fn key_of(alloc: Global, places: &[u8], row: &[Value]) -> Result<Key, Memory>
    ensures { IfOk result (λ v. v ≡ key_of places.now row.now) }
{
    let mut key = Vec::new(alloc);
    for place in places {
        key.push(copy_at(row, *place)?)?;
    }
    Ok(Seq::from_vec(key))
}

fn same_at(row: &[Value], column: u8, value: &Value) -> bool
    ensures { result ≡ value_eq (value_at row.now column) value.now }
{
    match row.get(usize::from(column)) {
        Some(found) => *found == *value,
        None => Value::Int(0) == *value,
    }
}

/// Whether the row has this value at the columns of the key.
fn has_key(places: &[u8], value: &[Value], row: &[Value]) -> bool
    ensures { result ≡ has_key places.now value.now row.now }
{
    let mut places = places;
    let mut value = value;
    while let [place, other_places @ ..] = places {
        let [one, others @ ..] = value else {
            return false;
        };
        if !same_at(row, *place, one) {
            return false;
        }
        places = other_places;
        value = others;
    }
    value.is_empty()
}

fn row_has_key(places: &[u8], value: &[Value], rows: &[(u64, Row)], number: u64) -> bool
    ensures { result ≡ some_has_key places.now value.now (row_at rows.now number) }
{
    match row_at(rows, number) {
        Some(row) => has_key(places, value, row.as_slice()),
        None => false,
    }
}

fn put_has_key(places: &[u8], value: &[Value], change: &Change) -> bool
    ensures { result ≡ put_has_key places.now value.now change.now }
{
    match change {
        Change::Put(_, row) => has_key(places, value, row.as_slice()),
        Change::Drop(_) => false,
    }
}

fn change_has_key(places: &[u8], value: &[Value], rows: &[(u64, Row)], change: &Change) -> bool
    ensures { result ≡ (some_has_key places.now value.now (row_at rows.now (number_of change.now)) || put_has_key places.now value.now change.now) }
{
    row_has_key(places, value, rows, number_of(change)) || put_has_key(places, value, change)
}

/// Whether one of the changed rows has the value of the key, as it stands in the table or as one of the changes puts it.
pub fn has_value(places: &[u8], rows: &[(u64, Row)], changes: &[Change], value: &[Value]) -> bool
    ensures { result ≡ has_value places.now rows.now changes.now value.now }
{
    changes
        .iter()
        .any(|change| change_has_key(places, value, rows, change))
}

fn is_other(places: &[u8], value: &[Value], number: u64, row: &(u64, Row)) -> bool
    ensures { result ≡ (not (row.now.0 == number) && has_key places.now value.now row.now.1) }
{
    row.0 != number && has_key(places, value, row.1.as_slice())
}

/// Whether a row of another number has the value of the key.
pub fn has_other(rows: &[(u64, Row)], places: &[u8], number: u64, value: &[Value]) -> bool
    ensures { result ≡ has_other rows.now places.now number value.now }
{
    rows.iter().any(|row| is_other(places, value, number, row))
}
