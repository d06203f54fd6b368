//! What a write does to the rows that its actor sees.
ghost use Rattle.std.specs.Prelude.{◌≡◌, IfOk, suc, map, unwrap_or};
ghost use Rattle.s2_model.specs.Rows.{after};
ghost use Rattle.s2_model.specs.Answer.{kept};
ghost use Rattle.s2_model.specs.Verdict.{puts_from, matched, updated, changes};

use s2_model::{Change, Condition, SetList, Stmt, after};
use s2_slow::kept;
use s2_value::{Duplicate, Memory, Row};
use std::alloc::{AllocError, Global};

/// The next row number. Past 64 bits there is none: it answers as want of memory does.
fn number_after(number: u64) -> Result<u64, Memory>
    ensures { IfOk result (λ n. n ≡ suc number) }
{
    match number.checked_add(1) {
        Some(next) => Ok(next),
        None => Err(AllocError),
    }
}

fn inserted(alloc: Global, rows: &[Row], greatest: u64) -> Result<Vec<Change>, Memory>
    ensures { IfOk result (λ cs. cs.items ≡ puts_from (suc greatest) rows.now) }
{
    let mut changes = Vec::new(alloc);
    let mut number = greatest;
    let mut left = rows;
    while let [row, rest @ ..] = left {
        number = number_after(number)?;
        changes.push(Change::Put(number, row.copy()?))?;
        left = rest;
    }
    Ok(changes)
}

fn updated_row(alloc: Global, sets: &SetList, row: &Row) -> Result<Row, Memory>
    ensures { IfOk result (λ x. x ≡ unwrap_or (after sets.now row.now) row.now) }
{
    match after(alloc, sets, row)? {
        Some(changed) => Ok(changed),
        None => row.copy(),
    }
}

fn updated(alloc: Global, sets: &SetList, rows: &[(u64, Row)]) -> Result<Vec<Change>, Memory>
    ensures { IfOk result (λ cs. cs.items ≡ map (updated sets.now) rows.now) }
{
    let mut changes = Vec::new(alloc);
    for row in rows {
        changes.push(Change::Put(row.0, updated_row(alloc, sets, &row.1)?))?;
    }
    Ok(changes)
}

fn deleted(alloc: Global, rows: &[(u64, Row)]) -> Result<Vec<Change>, Memory>
    ensures { IfOk result (λ cs. cs.items ≡ map (λ p. Change.Drop p.0) rows.now) }
{
    let mut changes = Vec::new(alloc);
    for row in rows {
        changes.push(Change::Drop(row.0))?;
    }
    Ok(changes)
}

/// The rows that a write matches.
pub fn matched(alloc: Global, stmt: &Stmt, rows: &[(u64, Row)]) -> Result<Vec<(u64, Row)>, Memory>
    ensures { IfOk result (λ v. v.items ≡ matched stmt.now rows.now) }
{
    match stmt {
        Stmt::Update(_, pred) => kept(alloc, pred, rows),
        Stmt::Delete(pred) => kept(alloc, pred, rows),
        _ => Ok(Vec::new(alloc)),
    }
}

fn updates(
    alloc: Global,
    sets: &SetList,
    pred: &Condition,
    rows: &[(u64, Row)],
) -> Result<Vec<Change>, Memory>
    ensures { IfOk result (λ cs. cs.items ≡ map (updated sets.now) (kept pred.now rows.now)) }
{
    let matching = kept(alloc, pred, rows)?;
    updated(alloc, sets, &matching)
}

fn deletes(alloc: Global, pred: &Condition, rows: &[(u64, Row)]) -> Result<Vec<Change>, Memory>
    ensures { IfOk result (λ cs. cs.items ≡ map (λ p. Change.Drop p.0) (kept pred.now rows.now)) }
{
    let matching = kept(alloc, pred, rows)?;
    deleted(alloc, &matching)
}

/// The changes of a write to the rows that its actor sees, by rising row number; `greatest` is the greatest number so far.
pub fn changes(
    alloc: Global,
    stmt: &Stmt,
    rows: &[(u64, Row)],
    greatest: u64,
) -> Result<Vec<Change>, Memory>
    ensures { IfOk result (λ cs. cs.items ≡ changes stmt.now rows.now (suc greatest)) }
{
    match stmt {
        Stmt::Insert(inserts) => inserted(alloc, inserts.as_slice(), greatest),
        Stmt::Update(sets, pred) => updates(alloc, sets, pred, rows),
        Stmt::Delete(pred) => deletes(alloc, pred, rows),
        _ => Ok(Vec::new(alloc)),
    }
}
