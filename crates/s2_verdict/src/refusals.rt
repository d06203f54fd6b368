//! The refusals of a write, in their order.
ghost use Rattle.std.specs.Prelude.{◌≡◌, ◌≤◌, IfOk, Some, None, length, is_none, if◌then◌else◌};
ghost use Rattle.s2_model.specs.Rows.{after};
ghost use Rattle.s2_model.specs.Verdict.{first_some, out_of_range, has_other, duplicate_at, duplicate};
ghost use Rattle.s2_verdict.specs.Holders.{locked_in, locked_value_in_at, locked_value_in};

use crate::holders::{holder_in, value_holder_in};
use crate::keys::{has_other, key_of};
use s2_model::{Change, ChangeList, Refusal, SetList, Stmt, after};
use s2_value::{ColList, Memory, Row, Value};
use std::alloc::Global;

/// The first row that another holds.
pub fn locked(others: &[(u8, ChangeList)], rows: &[(u64, Row)]) -> Option<Refusal>
    ensures { result ≡ locked_in others.now rows.now }
{
    let mut left = rows;
    while let [row, rest @ ..] = left {
        if let Some(holder) = holder_in(others, row.0) {
            return Some(Refusal::Locked { row: row.0, holder });
        }
        left = rest;
    }
    None
}

fn is_out_of_range(alloc: Global, sets: &SetList, row: &Row) -> Result<bool, Memory>
    ensures { IfOk result (λ b. b ≡ is_none (after sets.now row.now)) }
{
    let changed = after(alloc, sets, row)?;
    Ok(changed.is_none())
}

fn first_out_of_range(
    alloc: Global,
    sets: &SetList,
    rows: &[(u64, Row)],
) -> Result<Option<Refusal>, Memory>
    ensures { IfOk result (λ r. r ≡ first_some (λ p. if is_none (after sets.now p.1) then Some (Refusal.OutOfRange p.0) else None) rows.now) }
{
    let mut left = rows;
    while let [row, rest @ ..] = left {
        if is_out_of_range(alloc, sets, &row.1)? {
            return Ok(Some(Refusal::OutOfRange { row: row.0 }));
        }
        left = rest;
    }
    Ok(None)
}

/// The first of the matched rows of which a sum leaves 64 bits.
pub fn out_of_range(
    alloc: Global,
    stmt: &Stmt,
    rows: &[(u64, Row)],
) -> Result<Option<Refusal>, Memory>
    ensures { IfOk result (λ r. r ≡ out_of_range stmt.now rows.now) }
{
    match stmt {
        Stmt::Update(sets, _) => first_out_of_range(alloc, sets, rows),
        _ => Ok(None),
    }
}

fn locked_value_at(
    alloc: Global,
    rows: &[(u64, Row)],
    others: &[(u8, ChangeList)],
    key: u8,
    places: &[u8],
    change: &Change,
) -> Result<Option<Refusal>, Memory>
    ensures { IfOk result (λ r. r ≡ locked_value_in_at rows.now others.now key places.now change.now) }
{
    match change {
        Change::Put(number, row) => {
            let value = key_of(alloc, places, row.as_slice())?;
            match value_holder_in(rows, others, places, value.as_slice()) {
                Some(holder) => Ok(Some(Refusal::LockedValue {
                    key,
                    row: *number,
                    holder,
                })),
                None => Ok(None),
            }
        }
        Change::Drop(_) => Ok(None),
    }
}

fn locked_value_of(
    alloc: Global,
    rows: &[(u64, Row)],
    others: &[(u8, ChangeList)],
    key: u8,
    places: &[u8],
    changes: &[Change],
) -> Result<Option<Refusal>, Memory>
    ensures { IfOk result (λ r. r ≡ first_some (locked_value_in_at rows.now others.now key places.now) changes.now) }
{
    let mut left = changes;
    while let [change, rest @ ..] = left {
        let found = locked_value_at(alloc, rows, others, key, places, change)?;
        if found.is_some() {
            return Ok(found);
        }
        left = rest;
    }
    Ok(None)
}

/// The first change that puts a key value which another holds, by key, then by row; `rows` is the content.
pub fn locked_value(
    alloc: Global,
    rows: &[(u64, Row)],
    others: &[(u8, ChangeList)],
    keys: &[ColList],
    changes: &[Change],
) -> Result<Option<Refusal>, Memory>
    requires { length keys.now ≤ 4 }
    ensures { IfOk result (λ r. r ≡ locked_value_in rows.now others.now keys.now changes.now) }
{
    let mut key = 1;
    let mut left = keys;
    while let [places, rest @ ..] = left {
        let found = locked_value_of(alloc, rows, others, key, places.as_slice(), changes)?;
        if found.is_some() {
            return Ok(found);
        }
        key += 1;
        left = rest;
    }
    Ok(None)
}

fn clash(
    rows: &[(u64, Row)],
    key: u8,
    places: &[u8],
    number: u64,
    value: &[Value],
) -> Option<Refusal>
    ensures { result ≡ (if has_other rows.now places.now number value.now then Some (Refusal.Duplicate key number) else None) }
{
    if has_other(rows, places, number, value) {
        Some(Refusal::Duplicate { key, row: number })
    } else {
        None
    }
}

fn duplicate_at(
    alloc: Global,
    rows: &[(u64, Row)],
    key: u8,
    places: &[u8],
    change: &Change,
) -> Result<Option<Refusal>, Memory>
    ensures { IfOk result (λ r. r ≡ duplicate_at rows.now key places.now change.now) }
{
    match change {
        Change::Put(number, row) => {
            let value = key_of(alloc, places, row.as_slice())?;
            Ok(clash(rows, key, places, *number, value.as_slice()))
        }
        Change::Drop(_) => Ok(None),
    }
}

fn duplicate_of(
    alloc: Global,
    rows: &[(u64, Row)],
    key: u8,
    places: &[u8],
    changes: &[Change],
) -> Result<Option<Refusal>, Memory>
    ensures { IfOk result (λ r. r ≡ first_some (duplicate_at rows.now key places.now) changes.now) }
{
    let mut left = changes;
    while let [change, rest @ ..] = left {
        let found = duplicate_at(alloc, rows, key, places, change)?;
        if found.is_some() {
            return Ok(found);
        }
        left = rest;
    }
    Ok(None)
}

/// The first changed row with the key value of another row, by key, then by row; `rows` is the view after the whole statement.
pub fn duplicate(
    alloc: Global,
    rows: &[(u64, Row)],
    keys: &[ColList],
    changes: &[Change],
) -> Result<Option<Refusal>, Memory>
    requires { length keys.now ≤ 4 }
    ensures { IfOk result (λ r. r ≡ duplicate rows.now keys.now changes.now) }
{
    let mut key = 1;
    let mut left = keys;
    while let [places, rest @ ..] = left {
        let found = duplicate_of(alloc, rows, key, places.as_slice(), changes)?;
        if found.is_some() {
            return Ok(found);
        }
        key += 1;
        left = rest;
    }
    Ok(None)
}
