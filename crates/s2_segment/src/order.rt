//! Rows in file order, and the indexes of rows.
ghost use Rattle.std.specs.Prelude.{◌≡◌, ◌≤◌, ◌*◌, true, length, map, zip, nat_eq, IfOk};
ghost use Rattle.std.specs.List.{list_all};
ghost use Rattle.std.specs.Cmp.Lexicographic.{pointwise};
ghost use Rattle.s2_colbytes.specs.Numbers.{numbers};
ghost use Rattle.s2_value.specs.Columns.{are_below};
ghost use Rattle.s2_value.specs.Order.{row_cmp};
ghost use Rattle.s2_value.specs.Rows.{key_of};
ghost use Rattle.s2_value.specs.Schemas.{keys_of};
ghost use Rattle.s2_model.specs.Plan.{stands_before};
ghost use Rattle.s2_model.specs.Laws.{in_order_from, is_in_file_order};
ghost use Rattle.s2_segment.specs.Places.{seen, has_width};
ghost use Rattle.s2_segment.specs.Checks.{key_block, first_wrong, fault_of};

use crate::SegErr;
use crate::copies::are_same;
use crate::indexed::IndexBlock;
use s2_colbytes::u64_from;
use s2_segindex::build;
use s2_value::{ColList, Memory, Row, Schema, Value};
use std::alloc::Global;
use std::cmp::Ordering;

// The order of two rows by the values at these places.
fn cmp_at(places: &[u8], row: &[Value], other: &[Value]) -> Ordering
    requires row { are_below (length row.now) places.now ≡ true }
    requires other { are_below (length other.now) places.now ≡ true }
    ensures { result ≡ row_cmp (key_of places.now row.now) (key_of places.now other.now) }
{
    for place in places {
        let order = row[usize::from(*place)].cmp(&other[usize::from(*place)]);
        if order != Ordering::Equal {
            return order;
        }
    }
    Ordering::Equal
}

// Whether a row stands before another one: by sort key, then by row number.
fn stands_before(schema: &Schema, id: u64, row: &[Value], other_id: u64, other: &[Value]) -> bool
    requires row { are_below (length row.now) schema.now.sort ≡ true }
    requires other { are_below (length other.now) schema.now.sort ≡ true }
    ensures { result ≡ stands_before schema.now (id, row.now) (other_id, other.now) }
{
    let order = cmp_at(schema.sort.as_slice(), row, other);
    order.then(id.cmp(&other_id)) == Ordering::Less
}

// Whether these rows stand in order behind the first one.
fn are_in_order_from(schema: &Schema, id: u64, first: &Row, ids: &[u8], rows: &[Row]) -> bool
    requires whole { length ids.now ≡ 8 * length rows.now }
    requires first { are_below (length first.now) schema.now.sort ≡ true }
    requires rows { list_all (λ r. are_below (length r) schema.now.sort) rows.now ≡ true }
    ensures { result ≡ in_order_from schema.now (id, first.now) (zip (numbers 8 (length rows.now) ids.now) rows.now) }
{
    let mut before_id = id;
    let mut before = first;
    let mut ids = ids;
    let mut left = rows;
    while let [row, later @ ..] = left {
        let row_id = u64_from(ids, 0);
        if !stands_before(schema, before_id, before.as_slice(), row_id, row.as_slice()) {
            return false;
        }
        before_id = row_id;
        before = row;
        ids = ids.split_at(8).1;
        left = later;
    }
    true
}

/// Whether the rows stand in file order, each strictly before the next one.
pub(crate) fn are_in_order(schema: &Schema, ids: &[u8], rows: &[Row]) -> bool
    requires whole { length ids.now ≡ 8 * length rows.now }
    requires rows { list_all (has_width (length schema.now.cols)) rows.now ≡ true }
    ensures { result ≡ is_in_file_order schema.now (zip (numbers 8 (length rows.now) ids.now) rows.now) }
{
    let [first, later @ ..] = rows else {
        return true;
    };
    are_in_order_from(schema, u64_from(ids, 0), first, ids.split_at(8).1, later)
}

// Whether the index's block is that of the rows: where a look at its offsets doesn't tell it, the block of the rows is built.
fn is_right(
    alloc: Global,
    index: &IndexBlock<'_>,
    key: &ColList,
    rows: &[Row],
) -> Result<bool, Memory>
    requires few { length rows.now ≤ 8192 }
    requires key { length key.now ≤ 16 }
    requires columns { list_all (λ r. are_below (length r) key.now) rows.now ≡ true }
    ensures { IfOk result (λ b. b ≡ pointwise nat_eq index.now.bytes.now (key_block rows.now key.now)) }
{
    if index.is_matched(key.as_slice(), rows) {
        return Ok(true);
    }
    let block = build(alloc, rows, key)?;
    Ok(are_same(index.bytes, block.as_slice()))
}

// The first index whose block isn't that of the rows, from 0.
fn first_wrong(
    alloc: Global,
    schema: &Schema,
    indexes: &[IndexBlock<'_>],
    rows: &[Row],
) -> Result<Option<u8>, Memory>
    requires few { length rows.now ≤ 8192 }
    requires rows { list_all (has_width (length schema.now.cols)) rows.now ≡ true }
    requires keys { length indexes.now ≡ length (keys_of schema.now) }
    ensures { IfOk result (λ j. j ≡ first_wrong 0 (map seen indexes.now) (keys_of schema.now) rows.now) }
{
    for j in 0..indexes.len() {
        let right = is_right(alloc, &indexes[j], schema.key_columns(j), rows)?;
        if !right {
            return Ok(Some(j as u8));
        }
    }
    Ok(None)
}

/// What is wrong with rows and indexes together, if anything: the order of the rows, then the indexes.
pub(crate) fn find_fault(
    alloc: Global,
    schema: &Schema,
    ids: &[u8],
    rows: &[Row],
    indexes: &[IndexBlock<'_>],
) -> Result<Option<SegErr>, Memory>
    requires few { length rows.now ≤ 8192 }
    requires whole { length ids.now ≡ 8 * length rows.now }
    requires rows { list_all (has_width (length schema.now.cols)) rows.now ≡ true }
    requires keys { length indexes.now ≡ length (keys_of schema.now) }
    ensures { IfOk result (λ f. f ≡ fault_of schema.now (zip (numbers 8 (length rows.now) ids.now) rows.now) (map seen indexes.now) rows.now) }
{
    if !are_in_order(schema, ids, rows) {
        return Ok(Some(SegErr::Unordered));
    }
    match first_wrong(alloc, schema, indexes, rows)? {
        Some(j) => Ok(Some(SegErr::WrongIndex(j))),
        None => Ok(None),
    }
}
