//! The columns of a file.
ghost use Rattle.std.specs.Prelude.{◌≡◌, ◌+◌, ◌<◌, ◌≤◌, true, length, IfOk, IsOk};
ghost use Rattle.std.specs.List.{list_all};
ghost use Rattle.s2_colenc.specs.Column.{column_at};
ghost use Rattle.s2_segindex.specs.Reading.{Gives};
ghost use Rattle.s2_segment.specs.Reading.{GivesOrMemory};
ghost use Rattle.s2_segment.specs.Parts.{one_column_at, columns_at};
ghost use Rattle.s2_segment.specs.Places.{has_count};

use crate::SegErr;
use crate::blocks::split_block;
use s2_colbytes::ColErr;
use s2_colenc::Column;
use s2_value::{Col, ColType};
use std::alloc::Global;

// The column that the block is. One that was judged before is not checked again.
fn column_in(kind: ColType, n: u32, judged: bool, block: &[u8]) -> Result<Column<'_>, ColErr>
    requires { judged ≡ true → IsOk (column_at kind n block.now) }
    ensures gives { Gives (λ x. x) result (column_at kind n block.now) }
    ensures count { IfOk result (λ x. has_count n x ≡ true) }
{
    if judged {
        return Ok(Column::again(kind, n, block));
    }
    let column = Column::read(kind, n, block)?;
    Ok(column)
}

// Column `c`, and the bytes after it.
#[tactic(auto, unfolding(crate::specs::Parts::one_column_at))]
fn read_column(
    kind: ColType,
    n: u32,
    c: u8,
    judged: bool,
    bytes: &[u8],
) -> Result<(Column<'_>, &[u8]), SegErr>
    requires { judged ≡ true → IsOk (one_column_at n c kind bytes.now) }
    ensures gives { Gives (λ x. (x.0, x.1.now)) result (one_column_at n c kind bytes.now) }
    ensures count { IfOk result (λ x. has_count n x.0 ≡ true) }
{
    let (block, rest) = split_block(bytes)?;
    match column_in(kind, n, judged, block) {
        Ok(column) => Ok((column, rest)),
        Err(err) => Err(SegErr::Column(c, err)),
    }
}

/// A column for each of these, and the bytes after them. What was judged before is not checked again.
pub(crate) fn read_columns<'a>(
    alloc: Global,
    cols: &[Col],
    n: u32,
    judged: bool,
    bytes: &'a [u8],
) -> Result<(Vec<Column<'a>>, &'a [u8]), SegErr>
    requires few { length cols.now ≤ 16 }
    requires judged { judged ≡ true → IsOk (columns_at n 0 cols.now bytes.now) }
    ensures gives { GivesOrMemory (λ x. (x.0.items, x.1.now)) result (columns_at n 0 cols.now bytes.now) }
    ensures counts { IfOk result (λ x. list_all (has_count n) x.0.items ≡ true) }
    ensures many { IfOk result (λ x. length x.0.items ≡ length cols.now) }
{
    let mut columns = Vec::with_capacity(alloc, cols.len())?;
    let mut rest = bytes;
    let mut c = 0u8;
    let mut left = cols;
    while let [col, later @ ..] = left {
        let (column, after) = read_column(col.kind, n, c, judged, rest)?;
        columns.push(column)?;
        rest = after;
        c += 1;
        left = later;
    }
    Ok((columns, rest))
}
