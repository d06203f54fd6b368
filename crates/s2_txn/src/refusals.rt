//! Why a write is refused: what others hold.
ghost use Rattle.std.specs.Prelude.{◌≡◌, ◌<◌, IfOk, true, length, suc};
ghost use Rattle.std.specs.List.{list_all};
ghost use Rattle.s2_model.specs.Verdict.{other_holder, locked, other_value_holder, locked_value_at, locked_value, first_some};
ghost use Rattle.s2_model.specs.Fits.{put_fits};
ghost use Rattle.s2_state.specs.States.{history_of};
ghost use Rattle.s2_state.specs.Good.{Good};
ghost use Rattle.s2_uniquelock.specs.Locks.{without};
ghost use Rattle.s2_txn.specs.Refusals.{unique_at, writing_refusal};

use crate::opens::LAST_LENGTH;
use s2_model::{Change, Logged, Refusal};
use s2_state::State;
use s2_value::{Key, Memory, Row};
use std::alloc::Global;

/// Why the actor may write nothing now.
pub(crate) fn writing_refusal(s: &State, actor: u8) -> Option<Refusal>
    requires { actor < 17 }
    ensures { result ≡ writing_refusal (history_of s.now) actor }
{
    if s.pin_of(actor).is_some() {
        return Some(Refusal::ReadOnly);
    }
    if s.front() > LAST_LENGTH {
        return Some(Refusal::LogFull);
    }
    None
}

// The holder, if it is another actor.
fn without(actor: u8, holder: Option<u8>) -> Option<u8>
    ensures { result ≡ without actor holder }
{
    match holder {
        Some(other) if other != actor => Some(other),
        _ => None,
    }
}

// Who else holds the row.
fn other_holder(s: &State, actor: u8, id: u64) -> Option<u8>
    requires { Good s.now }
    ensures { result ≡ other_holder (history_of s.now) actor id }
{
    without(actor, s.locks.holder_of_row(id))
}

/// The first of the rows that another actor holds.
pub(crate) fn locked(s: &State, actor: u8, rows: &[(u64, Row)]) -> Option<Refusal>
    requires { Good s.now }
    ensures { result ≡ locked (history_of s.now) actor rows.now }
{
    let mut left = rows;
    while let [row, rest @ ..] = left {
        if let Some(holder) = other_holder(s, actor, row.0) {
            return Some(Refusal::Locked { row: row.0, holder });
        }
        left = rest;
    }
    None
}

// Who else holds the value of unique key `j`, from 0.
fn other_value_holder(s: &State, actor: u8, j: u8, key: &Key) -> Option<u8>
    requires good { Good s.now }
    requires number { j < length s.now.schema.uniques }
    ensures { result ≡ other_value_holder (history_of s.now) actor (unique_at s.now.schema j) key.now }
{
    without(actor, s.locks.holder_of_value(j, key))
}

// The refusal where another actor holds the value of unique key `j`, from 0, that the change puts.
fn locked_value_at(
    s: &State,
    alloc: Global,
    actor: u8,
    j: u8,
    change: &Change,
) -> Result<Option<Refusal>, Memory>
    requires good { Good s.now }
    requires number { j < length s.now.schema.uniques }
    requires fits { put_fits s.now.schema change.now ≡ true }
    ensures { IfOk result (λ r. r ≡ locked_value_at (history_of s.now) actor (suc j) (unique_at s.now.schema j) change.now) }
{
    let Change::Put(row, values) = change else {
        return Ok(None);
    };
    let key = s.schema.key(alloc, usize::from(j), values)?;
    match other_value_holder(s, actor, j, &key) {
        Some(holder) => Ok(Some(Refusal::LockedValue {
            key: j + 1,
            row: *row,
            holder,
        })),
        None => Ok(None),
    }
}

// The first of the changes that puts a value of unique key `j`, from 0, which another actor holds.
fn locked_value_in(
    s: &State,
    alloc: Global,
    actor: u8,
    j: u8,
    changes: &[Change],
) -> Result<Option<Refusal>, Memory>
    requires good { Good s.now }
    requires number { j < length s.now.schema.uniques }
    requires fits { list_all (put_fits s.now.schema) changes.now ≡ true }
    ensures { IfOk result (λ r. r ≡ first_some (locked_value_at (history_of s.now) actor (suc j) (unique_at s.now.schema j)) changes.now) }
{
    let mut left = changes;
    while let [change, rest @ ..] = left {
        if let Some(refusal) = locked_value_at(s, alloc, actor, j, change)? {
            return Ok(Some(refusal));
        }
        left = rest;
    }
    Ok(None)
}

/// The first of the changes that puts a value of a unique key which another actor holds: by key, then by row.
pub(crate) fn locked_value(
    s: &State,
    alloc: Global,
    actor: u8,
    changes: &[Change],
) -> Result<Option<Refusal>, Memory>
    requires good { Good s.now }
    requires fits { list_all (put_fits s.now.schema) changes.now ≡ true }
    ensures { IfOk result (λ r. r ≡ locked_value (history_of s.now) actor s.now.schema.uniques changes.now) }
{
    for j in 0..s.schema.uniques.len() {
        if let Some(refusal) = locked_value_in(s, alloc, actor, j as u8, changes)? {
            return Ok(Some(refusal));
        }
    }
    Ok(None)
}
