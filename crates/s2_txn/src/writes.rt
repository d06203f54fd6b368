//! INSERT, UPDATE and DELETE.
ghost use Rattle.std.specs.Prelude.{◌≡◌, ◌≤◌, ◌<◌, [], IfOk, IfErr, OnErr, None, true, length, map, nat_lt};
ghost use Rattle.std.specs.List.{list_all};
ghost use Rattle.s2_value.specs.Schemas.{fits};
ghost use Rattle.s2_model.specs.declared.statements.Stmt.TheVariants as stmt;
ghost use Rattle.s2_model.specs.Table.{number_of};
ghost use Rattle.s2_model.specs.History.{is_running, pin_of};
ghost use Rattle.s2_model.specs.Verdict.{last_length, write_or};
ghost use Rattle.s2_model.specs.Fits.{WriteFits, put_fits, rise};
ghost use Rattle.s2_answer.specs.Suits.{suits, stmt_suits};
ghost use Rattle.s2_state.specs.States.{history_of};
ghost use Rattle.s2_state.specs.Good.{Good};
ghost use Rattle.s2_txn.specs.Looks.{IsLeft};
ghost use Rattle.s2_txn.specs.Refusals.{is_write, value_refusal, writing_refusal};
ghost use Rattle.s2_txn.specs.Says.{Says, SaysOrMemory, Carries, SameTable};

use crate::duplicates::duplicate;
use crate::planning::{drops, matching, puts, updates};
use crate::puts::put_changes;
use crate::refusals::{locked, locked_value, writing_refusal};
use s2_model::{Change, ChangeList, Condition, Refusal, Reply, RowList, SetList, Stmt};
use s2_state::State;
use s2_value::Memory;
use std::alloc::Global;

/// The most rows that a statement inserts, updates or deletes.
const MOST_ROWS: usize = 65_536;

// Why a unique key forbids the changes.
fn value_refusal(
    s: &State,
    alloc: Global,
    actor: u8,
    changes: &[Change],
) -> Result<Option<Refusal>, Memory>
    requires actor { (0 < actor) × (actor < 17) }
    requires good { Good s.now }
    requires unpinned { pin_of (history_of s.now) actor ≡ None }
    requires rising { rise (map number_of changes.now) ≡ true }
    requires fits { list_all (put_fits s.now.schema) changes.now ≡ true }
    ensures { IfOk result (λ r. r ≡ value_refusal s.now.schema (history_of s.now) actor changes.now) }
{
    if let Some(refusal) = locked_value(s, alloc, actor, changes)? {
        return Ok(Some(refusal));
    }
    duplicate(s, alloc, actor, changes)
}

// Writes the changes unless a unique key forbids it.
fn write_changes(
    s: &mut State,
    alloc: Global,
    actor: u8,
    changes: ChangeList,
) -> Result<Reply, Memory>
    requires actor { (0 < actor) × (actor < 17) }
    requires good { Good s.old }
    requires unpinned { pin_of (history_of s.old) actor ≡ None }
    requires short { length (history_of s.old) ≤ last_length }
    requires few { length changes ≤ 65536 }
    requires rising { rise (map number_of changes) ≡ true }
    requires fits { list_all (put_fits s.old.schema) changes ≡ true }
    requires may { value_refusal s.old.schema (history_of s.old) actor changes ≡ None → nat_lt 0 (length changes) ≡ true → WriteFits s.old.schema (history_of s.old) actor changes }
    ensures good { Good s.new }
    ensures table { SameTable s.old s.new }
    ensures carries { IfOk result (Carries (write_or (value_refusal s.old.schema (history_of s.old) actor changes) [] (is_running (history_of s.old) actor) changes) actor s.old s.new) }
    ensures memory { OnErr result (IsLeft s.old s.new) }
{
    if let Some(refusal) = value_refusal(s, alloc, actor, changes.as_slice())? {
        return Ok(Reply::Refused(refusal));
    }
    let count = changes.len() as u32;
    if count > 0 {
        put_changes(s, alloc, actor, changes)?;
    }
    Ok(Reply::Changed(count))
}

fn insert(s: &mut State, alloc: Global, actor: u8, rows: RowList) -> Result<Reply, Memory>
    requires actor { (0 < actor) × (actor < 17) }
    requires good { Good s.old }
    requires early { writing_refusal (history_of s.old) actor ≡ None }
    requires suits { list_all (fits s.old.schema) rows ≡ true }
    ensures good { Good s.new }
    ensures table { SameTable s.old s.new }
    ensures says { IfOk result (Says s.old s.new actor (stmt.Insert rows)) }
    ensures memory { OnErr result (IsLeft s.old s.new) }
{
    if rows.len() > MOST_ROWS {
        return Ok(Reply::Refused(Refusal::TooManyRows));
    }
    let changes = puts(alloc, rows, s.next_row())?;
    write_changes(s, alloc, actor, changes)
}

fn update(
    s: &mut State,
    alloc: Global,
    actor: u8,
    sets: &SetList,
    pred: &Condition,
) -> Result<Reply, Memory>
    requires actor { (0 < actor) × (actor < 17) }
    requires good { Good s.old }
    requires early { writing_refusal (history_of s.old) actor ≡ None }
    requires suits { list_all (suits s.old.schema.cols) sets.now ≡ true }
    ensures good { Good s.new }
    ensures table { SameTable s.old s.new }
    ensures says { IfOk result (Says s.old s.new actor (stmt.Update sets.now pred.now)) }
    ensures memory { OnErr result (IsLeft s.old s.new) }
{
    let rows = matching(s, alloc, actor, pred)?;
    if rows.len() > MOST_ROWS {
        return Ok(Reply::Refused(Refusal::TooManyRows));
    }
    if let Some(refusal) = locked(s, actor, rows.as_slice()) {
        return Ok(Reply::Refused(refusal));
    }
    match updates(alloc, sets, rows.as_slice())? {
        Ok(changes) => write_changes(s, alloc, actor, changes),
        Err(refusal) => Ok(Reply::Refused(refusal)),
    }
}

fn delete(s: &mut State, alloc: Global, actor: u8, pred: &Condition) -> Result<Reply, Memory>
    requires actor { (0 < actor) × (actor < 17) }
    requires good { Good s.old }
    requires early { writing_refusal (history_of s.old) actor ≡ None }
    ensures good { Good s.new }
    ensures table { SameTable s.old s.new }
    ensures says { IfOk result (Says s.old s.new actor (stmt.Delete pred.now)) }
    ensures memory { OnErr result (IsLeft s.old s.new) }
{
    let rows = matching(s, alloc, actor, pred)?;
    if rows.len() > MOST_ROWS {
        return Ok(Reply::Refused(Refusal::TooManyRows));
    }
    if let Some(refusal) = locked(s, actor, rows.as_slice()) {
        return Ok(Reply::Refused(refusal));
    }
    let changes = drops(alloc, rows.as_slice())?;
    write_changes(s, alloc, actor, changes)
}

// What the statement answers, where its actor may write.
fn settled(s: &mut State, alloc: Global, actor: u8, stmt: Stmt) -> Result<Reply, Memory>
    requires actor { (0 < actor) × (actor < 17) }
    requires good { Good s.old }
    requires early { writing_refusal (history_of s.old) actor ≡ None }
    requires write { is_write stmt ≡ true }
    requires suits { stmt_suits s.old.schema stmt ≡ true }
    ensures good { Good s.new }
    ensures table { SameTable s.old s.new }
    ensures says { IfOk result (Says s.old s.new actor stmt) }
    ensures memory { OnErr result (IsLeft s.old s.new) }
{
    match stmt {
        Stmt::Insert(rows) => insert(s, alloc, actor, rows),
        Stmt::Update(sets, pred) => update(s, alloc, actor, &sets, &pred),
        Stmt::Delete(pred) => delete(s, alloc, actor, &pred),
        _ => Ok(Reply::Nothing),
    }
}

/// INSERT, UPDATE or DELETE of the actor, 1 to 16: its changes are open writes inside a transaction, and are committed at once outside one.
///
/// The rows and values of the statement fit the table. The rows of an INSERT move into the history. Want of memory leaves everything as it was.
pub fn settle(s: &mut State, alloc: Global, actor: u8, stmt: Stmt) -> Reply
    requires actor { (0 < actor) × (actor < 17) }
    requires good { Good s.old }
    requires write { is_write stmt ≡ true }
    requires suits { stmt_suits s.old.schema stmt ≡ true }
    ensures good { Good s.new }
    ensures table { SameTable s.old s.new }
    ensures says { SaysOrMemory s.old s.new actor stmt result }
{
    if let Some(refusal) = writing_refusal(s, actor) {
        return Reply::Refused(refusal);
    }
    match settled(s, alloc, actor, stmt) {
        Ok(reply) => reply,
        Err(_) => Reply::Refused(Refusal::Memory),
    }
}
