//! A copy of a schema, and whether two are the same.
ghost use Rattle.std.specs.Prelude.{◌≡◌, nat_eq, IfOk};
ghost use Rattle.std.specs.Cmp.Lexicographic.{pointwise};
ghost use Rattle.s2_segment.specs.Same.{kind_eq, col_eq, schema_eq};

use s2_value::{Col, ColList, ColType, Duplicate, Memory, Schema, Seq};
use std::alloc::Global;

fn copy_column(column: &Col) -> Result<Col, Memory>
    ensures { IfOk result (λ same. same ≡ column.now) }
{
    let name = column.name.copy()?;
    Ok(Col {
        name,
        kind: column.kind,
    })
}

fn copy_columns(alloc: Global, columns: &[Col]) -> Result<Vec<Col>, Memory>
    ensures { IfOk result (λ same. same.items ≡ columns.now) }
{
    let mut same = Vec::with_capacity(alloc, columns.len())?;
    for column in columns {
        same.push(copy_column(column)?)?;
    }
    Ok(same)
}

/// A copy of the schema.
pub(crate) fn copy_schema(alloc: Global, schema: &Schema) -> Result<Schema, Memory>
    ensures { IfOk result (λ same. same ≡ schema.now) }
{
    let table = schema.table.copy()?;
    let cols = Seq::from_vec(copy_columns(alloc, schema.cols.as_slice())?);
    let uniques = schema.uniques.copy()?;
    let indexes = schema.indexes.copy()?;
    let sort = schema.sort.copy()?;
    Ok(Schema {
        table,
        cols,
        uniques,
        indexes,
        sort,
    })
}

/// Whether the bytes are the same.
pub(crate) fn are_same(bytes: &[u8], others: &[u8]) -> bool
    ensures { result ≡ pointwise nat_eq bytes.now others.now }
{
    bytes == others
}

fn is_same_kind(kind: ColType, other: ColType) -> bool
    ensures { result ≡ kind_eq kind other }
{
    match (kind, other) {
        (ColType::Int, ColType::Int) => true,
        (ColType::Text, ColType::Text) => true,
        (ColType::Int, ColType::Text) => false,
        (ColType::Text, ColType::Int) => false,
    }
}

fn is_same_column(col: &Col, other: &Col) -> bool
    ensures { result ≡ col_eq col.now other.now }
{
    if !are_same(col.name.bytes(), other.name.bytes()) {
        return false;
    }
    is_same_kind(col.kind, other.kind)
}

fn are_same_columns(cols: &[Col], others: &[Col]) -> bool
    ensures { result ≡ pointwise col_eq cols.now others.now }
{
    let mut left = cols;
    let mut right = others;
    while let [col, later @ ..] = left {
        let [other, rest @ ..] = right else {
            return false;
        };
        if !is_same_column(col, other) {
            return false;
        }
        left = later;
        right = rest;
    }
    right.is_empty()
}

fn are_same_keys(keys: &[ColList], others: &[ColList]) -> bool
    ensures { result ≡ pointwise (pointwise nat_eq) keys.now others.now }
{
    let mut left = keys;
    let mut right = others;
    while let [key, later @ ..] = left {
        let [other, rest @ ..] = right else {
            return false;
        };
        if !are_same(key.as_slice(), other.as_slice()) {
            return false;
        }
        left = later;
        right = rest;
    }
    right.is_empty()
}

/// Whether the schemas are the same.
pub(crate) fn is_same_schema(schema: &Schema, other: &Schema) -> bool
    ensures { result ≡ schema_eq schema.now other.now }
{
    if !are_same(schema.table.bytes(), other.table.bytes()) {
        return false;
    }
    if !are_same_columns(schema.cols.as_slice(), other.cols.as_slice()) {
        return false;
    }
    if !are_same_keys(schema.uniques.as_slice(), other.uniques.as_slice()) {
        return false;
    }
    if !are_same_keys(schema.indexes.as_slice(), other.indexes.as_slice()) {
        return false;
    }
    are_same(schema.sort.as_slice(), other.sort.as_slice())
}
