//! The rows that a statement matches, and what a write changes.
ghost use Rattle.std.specs.Prelude.{◌≡◌, ◌<◌, ◌+◌, ◌^◌, ◌++◌, None, IfOk, IfSome, OnOk, filter, length, map};
ghost use Rattle.std.specs.Option.{option_copied};
ghost use Rattle.s2_model.specs.History.{view};
ghost use Rattle.s2_model.specs.Answer.{kept};
ghost use Rattle.s2_model.specs.Predicates.{predicate_of};
ghost use Rattle.s2_model.specs.Rows.{matches};
ghost use Rattle.s2_model.specs.Table.{row_at};
ghost use Rattle.s2_model.specs.Verdict.{puts_from};
ghost use Rattle.s2_rowstore.specs.Visible.{lent};
ghost use Rattle.s2_state.specs.States.{history_of};
ghost use Rattle.s2_state.specs.Good.{Good};
ghost use Rattle.s2_state.specs.Laws.{read_at};
ghost use Rattle.s2_txn.specs.Planning.{FixesColumn, FixesColumns, FixesKey, HasMatching, kept_row, numbered_row, rows_among, Updates};

use s2_model::{
    Change, ChangeList, Condition, Logged, Op, Pred, Refusal, RowList, SetList, after, matches,
};
use s2_state::State;
use s2_value::{Duplicate, Key, Memory, Row, Schema, Seq, TableRows, Value};
use std::alloc::Global;

// The rows that match.
fn keep_matching(pred: &Condition, rows: &mut Vec<(u64, Row)>)
    ensures { rows.new.items ≡ filter (λ p. matches pred.now p.1) rows.old.items }
{
    rows.retain(|row| matches(pred, &row.1));
}

// When the actor reads: at its pin, or else at the end of the history.
fn read_time(s: &State, actor: u8) -> u64
    requires { actor < 17 }
    ensures { result ≡ read_at (history_of s.now) actor }
{
    match s.pin_of(actor) {
        Some(pin) => pin,
        None => s.front(),
    }
}

// Copies of the rows that match.
fn copy_matching(
    alloc: Global,
    pred: &Condition,
    rows: &[(u64, &Row)],
) -> Result<Vec<(u64, Row)>, Memory>
    ensures { IfOk result (λ found. found.items ≡ kept pred.now (lent rows.now)) }
{
    let mut found = Vec::new(alloc);
    for (id, row) in rows {
        if matches(pred, row) {
            found.push((*id, row.copy()?))?;
        }
    }
    Ok(found)
}

// The rows of the actor's view that match, by a walk over all.
fn matching_view(s: &State, alloc: Global, actor: u8, pred: &Condition) -> Result<TableRows, Memory>
    requires actor { actor < 17 }
    requires good { Good s.now }
    ensures { IfOk result (λ rows. rows ≡ kept pred.now (view (history_of s.now) actor)) }
{
    let seen = s.rows.seen_rows(alloc, actor, read_time(s, actor))?;
    let rows = copy_matching(alloc, pred, seen.as_slice())?;
    Ok(Seq::from_vec(rows))
}

// The value to which the predicate fixes the column, by a comparison alone or under ANDs.
fn fixed_at<'a>(pred: &'a Pred, column: u8) -> Option<&'a Value>
    ensures { IfSome result (λ v. FixesColumn (predicate_of pred.now) column v.now) }
{
    match pred {
        Pred::Cmp(place, Op::Eq, value) => { if *place == column { Some(value) } else { None } }
        Pred::And(left, right) => match fixed_at(left, column) {
            Some(value) => Some(value),
            None => fixed_at(right, column),
        },
        _ => None,
    }
}

// The values to which the predicate fixes the columns of a key, or None where it doesn't fix each.
fn fixed_key(alloc: Global, pred: &Pred, columns: &[u8]) -> Result<Option<Key>, Memory>
    ensures { IfOk result (λ found. IfSome found (λ key. FixesColumns (predicate_of pred.now) columns.now key)) }
{
    let mut key = Vec::with_capacity(alloc, columns.len())?;
    for column in columns {
        match fixed_at(pred, *column) {
            Some(value) => key.push(value.copy()?)?,
            None => return Ok(None),
        }
    }
    Ok(Some(Seq::from_vec(key)))
}

// A key that the predicate fixes, by its number, unique keys first, with its values; None where it fixes no key.
fn find_key(alloc: Global, pred: &Pred, schema: &Schema) -> Result<Option<(usize, Key)>, Memory>
    ensures { IfOk result (λ found. IfSome found (λ p. FixesKey schema.now (predicate_of pred.now) p.0 p.1)) }
{
    for j in 0..schema.keys() {
        if let Some(key) = fixed_key(alloc, pred, schema.key_columns(j).as_slice())? {
            return Ok(Some((j, key)));
        }
    }
    Ok(None)
}

// The row of this number in the actor's view.
fn row_in_view(s: &State, actor: u8, id: u64) -> Option<&Row>
    requires actor { actor < 17 }
    requires good { Good s.now }
    ensures { option_copied result ≡ row_at (view (history_of s.now) actor) id }
{
    s.rows.visible_row(id, actor, read_time(s, actor))
}

// A copy of the row of this number, at the end, where the actor's view has one that matches.
fn add_matching(
    s: &State,
    rows: &mut Vec<(u64, Row)>,
    actor: u8,
    pred: &Condition,
    id: u64,
) -> Result<(), Memory>
    requires actor { actor < 17 }
    requires good { Good s.now }
    ensures { OnOk result (rows.new.items ≡ rows.old.items ++ numbered_row id (kept_row pred.now (row_at (view (history_of s.now) actor) id))) }
{
    if let Some(row) = row_in_view(s, actor, id) {
        if matches(pred, row) {
            rows.push((id, row.copy()?))?;
        }
    }
    Ok(())
}

// The rows of the actor's view of these numbers that match.
fn matching_among(
    s: &State,
    alloc: Global,
    actor: u8,
    pred: &Condition,
    ids: &[u64],
) -> Result<Vec<(u64, Row)>, Memory>
    requires actor { actor < 17 }
    requires good { Good s.now }
    ensures { IfOk result (λ rows. rows.items ≡ rows_among (λ n. kept_row pred.now (row_at (view (history_of s.now) actor) n)) ids.now) }
{
    let mut rows = Vec::new(alloc);
    for id in ids {
        add_matching(s, &mut rows, actor, pred, *id)?;
    }
    Ok(rows)
}

// The rows of the actor's view that match a predicate which fixes key `j`.
fn matching_key(
    s: &State,
    alloc: Global,
    actor: u8,
    pred: &Condition,
    j: usize,
    key: &Key,
) -> Result<TableRows, Memory>
    requires actor { actor < 17 }
    requires good { Good s.now }
    requires fixed { FixesKey s.now.schema pred.now j key.now }
    ensures { IfOk result (λ rows. rows ≡ filter (λ p. matches pred.now p.1) (view (history_of s.now) actor)) }
{
    let ids = s.rows.with_key(alloc, &s.schema, j, key)?;
    let rows = matching_among(s, alloc, actor, pred, ids.as_slice())?;
    Ok(Seq::from_vec(rows))
}

/// Rows by rising number, of which those that match are the rows of the actor's view that match. The actor is 1 to 16.
///
/// Where the predicate fixes each column of a key with `=`, alone or under ANDs, one look-up finds the rows that have it; else a walk goes over all rows of the view, and copies those that match.
pub fn candidates(
    s: &State,
    alloc: Global,
    actor: u8,
    pred: &Condition,
) -> Result<TableRows, Memory>
    requires actor { actor < 17 }
    requires good { Good s.now }
    ensures { IfOk result (λ rows. HasMatching pred.now (view (history_of s.now) actor) rows) }
{
    match find_key(alloc, pred.pred(), &s.schema)? {
        Some((j, key)) => matching_key(s, alloc, actor, pred, j, &key),
        None => matching_view(s, alloc, actor, pred),
    }
}

/// The rows of the actor's view that match, by rising row number.
pub(crate) fn matching(
    s: &State,
    alloc: Global,
    actor: u8,
    pred: &Condition,
) -> Result<TableRows, Memory>
    requires actor { actor < 17 }
    requires good { Good s.now }
    ensures { IfOk result (λ rows. rows ≡ filter (λ p. matches pred.now p.1) (view (history_of s.now) actor)) }
{
    let mut rows = candidates(s, alloc, actor, pred)?.into_vec();
    keep_matching(pred, &mut rows);
    Ok(Seq::from_vec(rows))
}

/// A Put of each row, which moves into it, under the numbers from `first` on.
pub(crate) fn puts(alloc: Global, rows: RowList, first: u64) -> Result<ChangeList, Memory>
    requires { first + length rows < 2 ^ 64 }
    ensures { IfOk result (λ cs. cs ≡ puts_from first rows) }
{
    let mut changes = Vec::with_capacity(alloc, rows.len())?;
    let mut number = first;
    let mut left = rows.into_vec().into_iter();
    while let Some(row) = left.next() {
        changes.push(Change::Put(number, row))?;
        number += 1;
    }
    Ok(Seq::from_vec(changes))
}

/// A Put of each row as the UPDATE leaves it, computed from the row as it is; or the refusal of the first of which a sum leaves 64 bits.
pub(crate) fn updates(
    alloc: Global,
    sets: &SetList,
    rows: &[(u64, Row)],
) -> Result<Result<ChangeList, Refusal>, Memory>
    ensures { IfOk result (λ r. Updates sets.now rows.now r) }
{
    let mut changes = Vec::with_capacity(alloc, rows.len())?;
    for row in rows {
        match after(alloc, sets, &row.1)? {
            Some(changed) => changes.push(Change::Put(row.0, changed))?,
            None => return Ok(Err(Refusal::OutOfRange { row: row.0 })),
        }
    }
    Ok(Ok(Seq::from_vec(changes)))
}

/// A Drop of each row.
pub(crate) fn drops(alloc: Global, rows: &[(u64, Row)]) -> Result<ChangeList, Memory>
    ensures { IfOk result (λ cs. cs ≡ map (λ p. Change.Drop p.0) rows.now) }
{
    let mut changes = Vec::with_capacity(alloc, rows.len())?;
    for row in rows {
        changes.push(Change::Drop(row.0))?;
    }
    Ok(Seq::from_vec(changes))
}
