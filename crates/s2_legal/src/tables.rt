//! The rows of a table by number.
ghost use Rattle.std.specs.Prelude.{◌≡◌, IfOk, OnOk, is_some};
ghost use Rattle.s2_model.specs.Table.{row_at, drop_row, apply_change};
ghost use Rattle.s2_model.specs.Answer.{kept};

use s2_model::{Change, Condition, matches};
use s2_value::{Duplicate, Memory, Row};
use std::alloc::Global;
use std::collections::BTreeMap;

/// Rows by number.
pub(crate) type Rows = BTreeMap<u64, Row>;

#[tactic(auto, using(crate::proofs::MapRows::drop_entry))]
fn drop_row(rows: &mut Rows, number: u64)
    ensures { rows.new.entries ≡ drop_row number rows.old.entries }
{
    if rows.len() > 0 {
        rows.remove(&number);
    }
}

#[tactic(auto, using(crate::proofs::MapRows::put_entry))]
pub(crate) fn apply_change(rows: &mut Rows, change: Change) -> Result<(), Memory>
    ensures { OnOk result (rows.new.entries ≡ apply_change rows.old.entries change) }
{
    match change {
        Change::Put(number, row) => {
            rows.insert(number, row)?;
        }
        Change::Drop(number) => {
            drop_row(rows, number);
        }
    }
    Ok(())
}

/// Whether there is a row of this number.
#[tactic(auto, using(crate::proofs::MapRows::found_row))]
pub(crate) fn has_row(rows: &Rows, number: u64) -> bool
    ensures { result ≡ is_some (row_at rows.now.entries number) }
{
    rows.contains_key(&number)
}

/// Copies of the rows that match, by rising number.
pub(crate) fn kept_rows(
    alloc: Global,
    rows: &Rows,
    pred: &Condition,
) -> Result<Vec<(u64, Row)>, Memory>
    ensures { IfOk result (λ v. v.items ≡ kept pred.now rows.now.entries) }
{
    let mut kept = Vec::new(alloc);
    for (number, row) in rows.iter() {
        if matches(pred, row) {
            kept.push((*number, row.copy()?))?;
        }
    }
    Ok(kept)
}

/// Copies of all rows, by rising number.
pub(crate) fn all_rows(alloc: Global, rows: &Rows) -> Result<Vec<(u64, Row)>, Memory>
    ensures { IfOk result (λ v. v.items ≡ rows.now.entries) }
{
    let mut all = Vec::new(alloc);
    for (number, row) in rows.iter() {
        all.push((*number, row.copy()?))?;
    }
    Ok(all)
}
