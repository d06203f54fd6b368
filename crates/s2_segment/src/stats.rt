//! The least and the greatest value of each column.
ghost use Rattle.std.specs.Prelude.{◌≡◌, ◌≤◌, true, length, map, IfOk};
ghost use Rattle.std.specs.List.{list_all};
ghost use Rattle.s2_model.specs.Needed.{lesser, greater};
ghost use Rattle.s2_colenc.specs.Column.{values_of};
ghost use Rattle.s2_segment.specs.Places.{has_count};
ghost use Rattle.s2_segment.specs.Stats.{ends_of};

use crate::cells::Cells;
use s2_colenc::Column;
use s2_value::{Duplicate, Memory, Value};
use std::alloc::Global;
use std::cmp::Ordering;

// The lesser of two values.
fn lesser(least: Value, value: &Value) -> Result<Value, Memory>
    ensures { IfOk result (λ v. v ≡ lesser least value.now) }
{
    if value.cmp(&least) == Ordering::Less {
        value.copy()
    } else {
        Ok(least)
    }
}

// The greater of two values.
fn greater(greatest: Value, value: &Value) -> Result<Value, Memory>
    ensures { IfOk result (λ v. v ≡ greater greatest value.now) }
{
    if value.cmp(&greatest) == Ordering::Greater {
        value.copy()
    } else {
        Ok(greatest)
    }
}

// The least and the greatest of a column's `n` values.
fn ends_of(alloc: Global, cells: &Cells<'_, '_>, n: u32) -> Result<(Value, Value), Memory>
    requires some { 1 ≤ n }
    requires count { length (values_of cells.now.column.now) ≡ n }
    ensures { IfOk result (λ ends. ends ≡ ends_of (values_of cells.now.column.now)) }
{
    let mut least = cells.at(alloc, 0)?;
    let mut greatest = cells.at(alloc, 0)?;
    for i in 1..n {
        let value = cells.at(alloc, i)?;
        let low = lesser(least, &value)?;
        let high = greater(greatest, &value)?;
        least = low;
        greatest = high;
    }
    Ok((least, greatest))
}

/// The least and the greatest value of each of these columns of `n` values.
pub(crate) fn stats_of(
    alloc: Global,
    columns: &[Column<'_>],
    n: u32,
) -> Result<Vec<(Value, Value)>, Memory>
    requires some { 1 ≤ n }
    requires full { list_all (has_count n) columns.now ≡ true }
    ensures { IfOk result (λ stats. stats.items ≡ map (λ column. ends_of (values_of column)) columns.now) }
{
    let mut stats = Vec::with_capacity(alloc, columns.len())?;
    for column in columns {
        let cells = Cells::of(alloc, column)?;
        stats.push(ends_of(alloc, &cells, n)?)?;
    }
    Ok(stats)
}
