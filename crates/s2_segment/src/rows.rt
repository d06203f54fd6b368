//! The rows of columns.
ghost use Rattle.std.specs.Prelude.{◌≡◌, ◌<◌, true, length, map, IfOk};
ghost use Rattle.std.specs.List.{list_all};
ghost use Rattle.s2_colenc.specs.Column.{values_of};
ghost use Rattle.s2_segment.specs.Places.{has_count};
ghost use Rattle.s2_segment.specs.Cells.{bodies, has_at};
ghost use Rattle.s2_segment.specs.Rows.{rows_of, row_at};

use crate::cells::Cells;
use s2_colenc::Column;
use s2_value::{Memory, Row, Seq};
use std::alloc::Global;

// The cells of columns.
fn cells_of<'a, 'b>(alloc: Global, columns: &'b [Column<'a>]) -> Result<Vec<Cells<'a, 'b>>, Memory>
    ensures { IfOk result (λ cells. bodies cells.items ≡ columns.now) }
{
    let mut cells = Vec::with_capacity(alloc, columns.len())?;
    for column in columns {
        cells.push(Cells::of(alloc, column)?)?;
    }
    Ok(cells)
}

// Row `i`, from 0.
fn row_of(alloc: Global, cells: &[Cells<'_, '_>], i: u32) -> Result<Row, Memory>
    requires { list_all (has_at i) (bodies cells.now) ≡ true }
    ensures { IfOk result (λ row. row ≡ row_at (map values_of (bodies cells.now)) i) }
{
    let mut row = Vec::with_capacity(alloc, cells.len())?;
    for cell in cells {
        row.push(cell.at(alloc, i)?)?;
    }
    Ok(Seq::from_vec(row))
}

/// The rows of columns that have `n` values each.
pub(crate) fn rows_of(alloc: Global, columns: &[Column<'_>], n: u32) -> Result<Vec<Row>, Memory>
    requires { list_all (has_count n) columns.now ≡ true }
    ensures { IfOk result (λ rows. rows.items ≡ rows_of n (map values_of columns.now)) }
{
    let cells = cells_of(alloc, columns)?;
    let mut rows = Vec::with_capacity(alloc, n as usize)?;
    for i in 0..n {
        rows.push(row_of(alloc, cells.as_slice(), i)?)?;
    }
    Ok(rows)
}
