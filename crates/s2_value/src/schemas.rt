//! The schema of the table: its columns, keys and sort key.
ghost use Rattle.std.specs.Prelude.{◌≡◌, ◌<◌, ◌++◌, length, true, IfOk, slice_index_or, [], nat_le, nat_lt, ◌==◌};
ghost use Rattle.std.specs.List.{list_all};
ghost use Rattle.s2_value.specs.Columns.{is_schema, is_key, are_below, is_between};
ghost use Rattle.s2_value.specs.Rows.{fits_columns, is_of, key_of};

use crate::{ColList, ColType, Duplicate, Key, Memory, Name, Row, Seq, Value};
use std::alloc::Global;

/// A column: its name and its type.
#[derive(Debug, Drop)]
pub struct Col {
    /// The name.
    pub name: Name,
    /// The type of its values.
    pub kind: ColType,
}

/// The columns of a table.
pub type ColDefs = Seq<Col>;

/// Keys, each the list of its columns.
pub type KeyList = Seq<ColList>;

/// The schema of a table: 1 to 16 columns, at most 4 unique keys and 8 indexes of 1 to 4 columns each, and a sort key of at most 4 columns, which is empty where the table has none.
#[derive(Debug, Drop)]
pub struct Schema {
    /// The table's name.
    pub table: Name,
    /// The columns in order.
    pub cols: ColDefs,
    /// The unique keys in the order of their definition.
    pub uniques: KeyList,
    /// The indexes in the order of their definition.
    pub indexes: KeyList,
    /// The columns of the sort key, or none.
    pub sort: ColList,
    ghost within: { is_schema (length cols) uniques indexes sort ≡ true },
}

fn is_below(places: &[u8], columns: usize) -> bool
    ensures { result ≡ are_below columns places.now }
{
    places.iter().all(|p| usize::from(*p) < columns)
}

fn is_key_of(key: &ColList, columns: usize) -> bool
    ensures { result ≡ is_key columns key.now }
{
    let count = key.len();
    1 <= count && count <= 4 && is_below(key.as_slice(), columns)
}

fn are_keys_of(keys: &[ColList], columns: usize) -> bool
    ensures { result ≡ list_all (is_key columns) keys.now }
{
    for key in keys {
        if !is_key_of(key, columns) {
            return false;
        }
    }
    true
}

/// Whether the parts of a schema are within the limits of one.
pub fn are_within_limits(
    columns: usize,
    uniques: &[ColList],
    indexes: &[ColList],
    sort: &ColList,
) -> bool
    ensures { result ≡ is_schema columns uniques.now indexes.now sort.now }
{
    let counts = 1 <= columns && columns <= 16 && uniques.len() <= 4 && indexes.len() <= 8;
    counts
        && are_keys_of(uniques, columns)
        && are_keys_of(indexes, columns)
        && sort.len() <= 4
        && is_below(sort.as_slice(), columns)
}

fn is_of(kind: ColType, value: &Value) -> bool
    ensures { result ≡ is_of kind value.now }
{
    match (kind, value) {
        (ColType::Int, Value::Int(_)) => true,
        (ColType::Text, Value::Text(_)) => true,
        (ColType::Int, Value::Text(_)) => false,
        (ColType::Text, Value::Int(_)) => false,
    }
}

fn fits_columns(cols: &[Col], values: &[Value]) -> bool
    ensures { result ≡ fits_columns cols.now values.now }
{
    let mut cols = cols;
    let mut values = values;
    while let [col, other_cols @ ..] = cols {
        let [value, other_values @ ..] = values else {
            return false;
        };
        if !is_of(col.kind, value) {
            return false;
        }
        cols = other_cols;
        values = other_values;
    }
    values.is_empty()
}

fn key_of(alloc: Global, places: &[u8], row: &[Value]) -> Result<Key, Memory>
    requires { are_below (length row.now) places.now ≡ true }
    ensures { IfOk result (λ k. k ≡ key_of places.now row.now) }
{
    let mut key = Vec::with_capacity(alloc, places.len())?;
    for place in places {
        key.push(row[usize::from(*place)].copy()?)?;
    }
    Ok(Seq::from_vec(key))
}

impl Schema {
    ghost use Rattle.std.specs.Prelude.{◌≡◌, ◌<◌, true, length, IfOk, slice_index_or, []};
    ghost use Rattle.s2_value.specs.Schemas.{fits, key, keys_of};

    /// How many keys there are: unique keys, then indexes.
    pub fn keys(&self) -> usize
        ensures { result ≡ length (keys_of self.now) }
    {
        self.uniques.len() + self.indexes.len()
    }

    /// Whether the row has as many values as the table has columns, each of its column's type.
    pub fn fits(&self, row: &Row) -> bool
        ensures { result ≡ fits self.now row.now }
    {
        fits_columns(self.cols.as_slice(), row.as_slice())
    }

    /// The columns of key `j`: unique keys, then indexes, from 0.
    pub fn key_columns(&self, j: usize) -> &ColList
        requires { j < length (keys_of self.now) }
        ensures { result.now ≡ slice_index_or (keys_of self.now) j [] }
    {
        if j < self.uniques.len() {
            self.uniques.at(j)
        } else {
            self.indexes.at(j - self.uniques.len())
        }
    }

    /// The row's values at the columns of key `j`: unique keys, then indexes, from 0.
    pub fn key(&self, alloc: Global, j: usize, row: &Row) -> Result<Key, Memory>
        requires number { j < length (keys_of self.now) }
        requires fits { fits self.now row.now ≡ true }
        ensures { IfOk result (λ k. k ≡ key self.now j row.now) }
    {
        key_of(alloc, self.key_columns(j).as_slice(), row.as_slice())
    }
}
