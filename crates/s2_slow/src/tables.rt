//! Tables under changes.
ghost use Rattle.std.specs.Prelude.{◌≡◌, ◌≤◌, ◌<◌, OnOk, [], length, nat_lt, slice_index_or};
ghost use Rattle.std.specs.List.{prefix_len};
ghost use Rattle.s2_model.specs.Table.{put_row, drop_row, apply_change, apply};

use s2_model::Change;
use s2_value::{Duplicate, Memory, Row};

/// The place of the first row whose number isn't below this one.
fn place_of(rows: &[(u64, Row)], number: u64) -> usize
    ensures place { result ≡ prefix_len (λ p. nat_lt p.0 number) rows.now }
    ensures within { result ≤ length rows.now }
    ensures below { result < length rows.now → number ≤ (slice_index_or rows.now result (number, [])).0 }
{
    for (place, row) in rows.iter().enumerate() {
        if row.0 >= number {
            return place;
        }
    }
    rows.len()
}

fn put_row(rows: &mut Vec<(u64, Row)>, number: u64, row: Row) -> Result<(), Memory>
    ensures { OnOk result (rows.new.items ≡ put_row number row rows.old.items) }
{
    let place = place_of(rows, number);
    if place < rows.len() && rows[place].0 == number {
        rows[place] = (number, row);
    } else {
        rows.insert(place, (number, row))?;
    }
    Ok(())
}

fn drop_row(rows: &mut Vec<(u64, Row)>, number: u64)
    ensures { rows.new.items ≡ drop_row number rows.old.items }
{
    rows.retain(|row| row.0 != number);
}

fn apply_change(rows: &mut Vec<(u64, Row)>, change: &Change) -> Result<(), Memory>
    ensures { OnOk result (rows.new.items ≡ apply_change rows.old.items change.now) }
{
    match change {
        Change::Put(number, row) => put_row(rows, *number, row.copy()?),
        Change::Drop(number) => {
            drop_row(rows, *number);
            Ok(())
        }
    }
}

/// Applies the changes in turn.
pub fn apply(rows: &mut Vec<(u64, Row)>, changes: &[Change]) -> Result<(), Memory>
    ensures { OnOk result (rows.new.items ≡ apply rows.old.items changes.now) }
{
    for change in changes {
        apply_change(rows, change)?;
    }
    Ok(())
}
