//! Versions in the row store.
ghost use Rattle.std.specs.Prelude.{◌≡◌, ◌++◌, None, Some, IfOk, OnOk, MatchOption, filter, not, if◌then◌else◌};
ghost use Rattle.s2_model.specs.Table.{number_of, touches, row_at};
ghost use Rattle.s2_model.specs.Placement.{contains_number, is_done, lives, set_at, end_version, ended, new_version, begun, copied};

use crate::placed::Version;
use s2_model::Change;
use s2_value::{Duplicate, Memory, Row};

/// A time that is set stays.
pub fn set_at(t: u64, was: Option<u64>) -> Option<u64>
    ensures { result ≡ set_at t was }
{
    match was {
        Some(time) => Some(time),
        None => Some(t),
    }
}

/// Whether a time is set and has come at `r`.
pub fn is_done(r: u64, time: Option<u64>) -> bool
    ensures { result ≡ is_done r time }
{
    match time {
        Some(t) => t <= r,
        None => false,
    }
}

/// Whether the number is one of these.
pub fn contains_number(numbers: &[u64], number: u64) -> bool
    ensures { result ≡ contains_number numbers.now number }
{
    numbers.iter().any(|other| *other == number)
}

/// The row number of a change.
pub fn number_of(change: &Change) -> u64
    ensures { result ≡ number_of change.now }
{
    match change {
        Change::Put(number, _) => *number,
        Change::Drop(number) => *number,
    }
}

/// Whether one of the changes is of this row.
pub fn touches(changes: &[Change], number: u64) -> bool
    ensures { result ≡ touches changes.now number }
{
    changes.iter().any(|change| number_of(change) == number)
}

fn end_if(t: u64, ends: bool, version: &mut Version)
    ensures { version.new ≡ (if ends then end_version t version.old else version.old) }
{
    if ends {
        version.stop = set_at(t, version.stop);
    }
}

/// The living versions of the changed rows end at `t`.
pub fn end_changed(t: u64, changes: &[Change], versions: &mut [Version])
    ensures { versions.new ≡ ended t (touches changes.now) versions.old }
{
    for version in versions.iter_mut() {
        end_if(t, touches(changes, version.id), version);
    }
}

/// The living versions of these rows end at `t`.
pub fn end_numbered(t: u64, numbers: &[u64], versions: &mut [Version])
    ensures { versions.new ≡ ended t (contains_number numbers.now) versions.old }
{
    for version in versions.iter_mut() {
        end_if(t, contains_number(numbers, version.id), version);
    }
}

/// Whether the row has a living version.
pub fn lives(versions: &[Version], number: u64) -> bool
    ensures { result ≡ lives versions.now number }
{
    versions
        .iter()
        .any(|version| version.id == number && version.stop.is_none())
}

/// A version of each changed row begins, as its last change puts it.
pub fn begin(t: u64, changes: &[Change], versions: &mut Vec<Version>) -> Result<(), Memory>
    ensures { OnOk result (versions.new.items ≡ versions.old.items ++ begun t changes.now) }
{
    let mut left = changes;
    while let [change, rest @ ..] = left {
        if let Change::Put(id, row) = change {
            if !touches(rest, *id) {
                versions.push(new_version(t, *id, row)?)?;
            }
        }
        left = rest;
    }
    Ok(())
}

fn new_version(t: u64, id: u64, row: &Row) -> Result<Version, Memory>
    ensures { IfOk result (λ v. v ≡ new_version t id row.now) }
{
    Ok(Version {
        id,
        row: row.copy()?,
        begin: t,
        stop: None,
    })
}

/// The row of this number, if there is one.
pub fn row_at(rows: &[(u64, Row)], number: u64) -> Option<&Row>
    ensures { MatchOption result (row_at rows.now number ≡ None) (λ row. row_at rows.now number ≡ Some row.now) }
{
    for row in rows {
        if row.0 == number {
            return Some(&row.1);
        }
    }
    None
}

/// A version of each of these rows begins, as the content has it.
pub fn begin_copies(
    t: u64,
    rows: &[(u64, Row)],
    ids: &[u64],
    versions: &mut Vec<Version>,
) -> Result<(), Memory>
    ensures { OnOk result (versions.new.items ≡ versions.old.items ++ copied t rows.now ids.now) }
{
    let mut left = ids;
    while let [id, rest @ ..] = left {
        if let Some(row) = row_at(rows, *id) {
            versions.push(new_version(t, *id, row)?)?;
        }
        left = rest;
    }
    Ok(())
}

/// Forgets the versions that have ended at or before this time.
pub fn forget_ended(horizon: u64, versions: &mut Vec<Version>)
    ensures { versions.new.items ≡ filter (λ v. not (is_done horizon v.stop)) versions.old.items }
{
    versions.retain(|version| !is_done(horizon, version.stop));
}
