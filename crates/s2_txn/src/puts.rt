//! A write: its changes become open writes, which the actor holds with their values.
ghost use Rattle.std.specs.Prelude.{◌≡◌, ◌≤◌, ◌<◌, ◌++◌, IfOk, OnOk, OnErr, true, All, length, map};
ghost use Rattle.std.specs.List.{list_all};
ghost use Rattle.std.specs.Option.{option_copied};
ghost use Rattle.s2_value.specs.Schemas.{fits};
ghost use Rattle.s2_model.specs.Table.{number_of, row_at};
ghost use Rattle.s2_model.specs.declared.entries.What.TheVariants as entry;
ghost use Rattle.s2_model.specs.History.{state, is_running, extended, ◌▷◌};
ghost use Rattle.s2_model.specs.Verdict.{last_length, entries_of};
ghost use Rattle.s2_model.specs.Fits.{WriteFits, put_fits};
ghost use Rattle.s2_state.specs.Slots.{put_by};
ghost use Rattle.s2_state.specs.States.{history_of, room_of};
ghost use Rattle.s2_state.specs.Takes.{AreFreeKeys};
ghost use Rattle.s2_state.specs.Good.{Good};
ghost use Rattle.s2_txn.specs.Items.{slot_of, items_from, row_items, change_items, all_items, option_fits};
ghost use Rattle.s2_txn.specs.Looks.{IsLeft};
ghost use Rattle.s2_txn.specs.Entries.{Writes};
ghost use Rattle.s2_txn.specs.Says.{SameTable};

use crate::ends::commit_writes;
use s2_model::{Change, ChangeList, Entry, Logged, What};
use s2_state::State;
use s2_value::{Duplicate, Key, Memory, Row, Schema};
use std::alloc::{AllocError, Global};

/// The entries of a write, and the end of each of sixteen open transactions.
const ROOM: u32 = 18;

/// The open writes of the changes, with the numbers of their rows and the values that they take, each with the number of its key.
#[derive(Drop)]
struct Parts {
    ids: Vec<u64>,
    values: Vec<(u8, Key)>,
    slots: Vec<(u64, Option<Row>)>,
}

// The number of the changed row.
fn number_of(change: &Change) -> u64
    ensures { result ≡ number_of change.now }
{
    match change {
        Change::Put(number, _) => *number,
        Change::Drop(number) => *number,
    }
}

// The row that the change puts.
fn put_by(change: &Change) -> Option<&Row>
    ensures { option_copied result ≡ put_by change.now }
{
    match change {
        Change::Put(_, row) => Some(row),
        Change::Drop(_) => None,
    }
}

fn numbers(alloc: Global, changes: &[Change]) -> Result<Vec<u64>, Memory>
    ensures { IfOk result (λ ids. ids.items ≡ map number_of changes.now) }
{
    let mut ids = Vec::with_capacity(alloc, changes.len())?;
    for change in changes {
        ids.push(number_of(change))?;
    }
    Ok(ids)
}

fn slot_of(change: &Change) -> Result<(u64, Option<Row>), Memory>
    ensures { IfOk result (λ p. p ≡ slot_of change.now) }
{
    match change {
        Change::Put(number, row) => Ok((*number, Some(row.copy()?))),
        Change::Drop(number) => Ok((*number, None)),
    }
}

fn slots(alloc: Global, changes: &[Change]) -> Result<Vec<(u64, Option<Row>)>, Memory>
    ensures { IfOk result (λ slots. slots.items ≡ map slot_of changes.now) }
{
    let mut slots = Vec::with_capacity(alloc, changes.len())?;
    for change in changes {
        slots.push(slot_of(change)?)?;
    }
    Ok(slots)
}

// The row as it stands in the table.
fn committed(s: &State, id: u64) -> Option<&Row>
    requires { Good s.now }
    ensures { option_copied result ≡ row_at (state (history_of s.now)) id }
{
    s.rows.visible_row(id, 0, s.front())
}

// Puts the row's value of each unique key, with the number of the key, at the end.
fn add_row_values(
    schema: &Schema,
    alloc: Global,
    row: &Row,
    values: &mut Vec<(u8, Key)>,
) -> Result<(), Memory>
    requires { fits schema.now row.now ≡ true }
    ensures { OnOk result (values.new.items ≡ values.old.items ++ items_from 0 schema.now.uniques row.now) }
{
    for j in 0..schema.uniques.len() {
        values.push((j as u8, schema.key(alloc, j, row)?))?;
    }
    Ok(())
}

fn add_values(
    schema: &Schema,
    alloc: Global,
    row: Option<&Row>,
    values: &mut Vec<(u8, Key)>,
) -> Result<(), Memory>
    requires { option_fits schema.now (option_copied row) ≡ true }
    ensures { OnOk result (values.new.items ≡ values.old.items ++ row_items schema.now.uniques (option_copied row.entry)) }
{
    match row {
        Some(row) => add_row_values(schema, alloc, row, values),
        None => Ok(()),
    }
}

// Puts the values of the changed row, as it stands in the table and as it is put, at the end.
fn add_change_values(
    s: &State,
    alloc: Global,
    change: &Change,
    values: &mut Vec<(u8, Key)>,
) -> Result<(), Memory>
    requires good { Good s.now }
    requires fits { put_fits s.now.schema change.now ≡ true }
    ensures { OnOk result (values.new.items ≡ values.old.items ++ change_items s.now.schema.uniques (state (history_of s.now)) change.now) }
{
    add_values(&s.schema, alloc, committed(s, number_of(change)), values)?;
    add_values(&s.schema, alloc, put_by(change), values)
}

fn values(s: &State, alloc: Global, changes: &[Change]) -> Result<Vec<(u8, Key)>, Memory>
    requires good { Good s.now }
    requires fits { list_all (put_fits s.now.schema) changes.now ≡ true }
    ensures { IfOk result (λ values. values.items ≡ all_items s.now.schema.uniques (state (history_of s.now)) changes.now) }
{
    let mut values = Vec::new(alloc);
    let mut left = changes;
    while let [change, rest @ ..] = left {
        add_change_values(s, alloc, change, &mut values)?;
        left = rest;
    }
    Ok(values)
}

// What the changes hand to the row store and to the lock table.
fn parts_of(s: &State, alloc: Global, changes: &[Change]) -> Result<Parts, Memory>
    requires good { Good s.now }
    requires fits { list_all (put_fits s.now.schema) changes.now ≡ true }
    ensures ids { IfOk result (λ parts. parts.ids.items ≡ map number_of changes.now) }
    ensures values { IfOk result (λ parts. parts.values.items ≡ all_items s.now.schema.uniques (state (history_of s.now)) changes.now) }
    ensures slots { IfOk result (λ parts. parts.slots.items ≡ map slot_of changes.now) }
{
    Ok(Parts {
        ids: numbers(alloc, changes)?,
        values: values(s, alloc, changes)?,
        slots: slots(alloc, changes)?,
    })
}

// How many rows or values there are, whichever are more.
fn count_of(parts: &Parts) -> Result<u32, Memory>
    ensures { IfOk result (λ n. (length parts.now.ids.items ≤ n) × (length parts.now.values.items ≤ n)) }
{
    match u32::try_from(parts.ids.len().max(parts.values.len())) {
        Ok(count) => Ok(count),
        Err(_) => Err(AllocError),
    }
}

// Makes room for holders, for the entries of the write, and for the end of each open transaction.
fn make_room(s: &mut State, count: u32) -> Result<(), Memory>
    ensures left { IsLeft s.old s.new }
    ensures room { OnOk result ((count ≤ s.new.locks.row_room) × ((count ≤ s.new.locks.value_room) × (18 ≤ room_of s.new))) }
{
    s.locks.spare(count)?;
    s.reserve(ROOM)
}

// What the changes hand over, with room for it.
fn ready(s: &mut State, alloc: Global, changes: &[Change]) -> Result<Parts, Memory>
    requires good { Good s.old }
    requires fits { list_all (put_fits s.old.schema) changes.now ≡ true }
    ensures left { IsLeft s.old s.new }
    ensures ids { IfOk result (λ parts. parts.ids.items ≡ map number_of changes.now) }
    ensures values { IfOk result (λ parts. parts.values.items ≡ all_items s.old.schema.uniques (state (history_of s.old)) changes.now) }
    ensures slots { IfOk result (λ parts. parts.slots.items ≡ map slot_of changes.now) }
    ensures room { IfOk result (λ parts. (length parts.ids.items ≤ s.new.locks.row_room) × ((length parts.values.items ≤ s.new.locks.value_room) × (18 ≤ room_of s.new))) }
{
    let parts = parts_of(s, alloc, changes)?;
    make_room(s, count_of(&parts)?)?;
    Ok(parts)
}

// The changes become open writes, and the actor holds their rows and values.
fn write(s: &mut State, alloc: Global, actor: u8, changes: ChangeList) -> Result<(), Memory>
    requires actor { (0 < actor) × (actor < 17) }
    requires good { Good s.old }
    requires fits { WriteFits s.old.schema (history_of s.old) actor changes }
    requires free { AreFreeKeys s.old.schema (history_of s.old) actor changes }
    ensures written { OnOk result (Writes actor changes s.old s.new × (17 ≤ room_of s.new)) }
    ensures memory { OnErr result (IsLeft s.old s.new) }
{
    let Parts { ids, values, slots } = ready(s, alloc, changes.as_slice())?;
    s.rows.put_slots(alloc, actor, slots)?;
    s.locks.take(actor, ids.as_slice(), values);
    s.append(Entry {
        actor,
        what: What::Write(changes),
    });
    Ok(())
}

// A write inside a transaction.
fn write_open(s: &mut State, alloc: Global, actor: u8, changes: ChangeList) -> Result<(), Memory>
    requires actor { (0 < actor) × (actor < 17) }
    requires good { Good s.old }
    requires short { length (history_of s.old) ≤ last_length }
    requires running { is_running (history_of s.old) actor ≡ true }
    requires fits { WriteFits s.old.schema (history_of s.old) actor changes }
    requires free { AreFreeKeys s.old.schema (history_of s.old) actor changes }
    ensures good { Good s.new }
    ensures table { SameTable s.old s.new }
    ensures written { OnOk result (history_of s.new ≡ history_of s.old ▷ record { actor = actor; what = entry.Write changes }) }
    ensures memory { OnErr result (IsLeft s.old s.new) }
{
    write(s, alloc, actor, changes)
}

// A write outside a transaction, which is committed with it.
fn write_at_once(s: &mut State, alloc: Global, actor: u8, changes: ChangeList) -> Result<(), Memory>
    requires actor { (0 < actor) × (actor < 17) }
    requires good { Good s.old }
    requires short { length (history_of s.old) ≤ last_length }
    requires fits { WriteFits s.old.schema (history_of s.old) actor changes }
    requires free { AreFreeKeys s.old.schema (history_of s.old) actor changes }
    ensures good { Good s.new }
    ensures table { SameTable s.old s.new }
    ensures written { OnOk result (history_of s.new ≡ history_of s.old ▷ record { actor = actor; what = entry.Write changes } ▷ record { actor = actor; what = entry.Commit }) }
    ensures memory { OnErr result (IsLeft s.old s.new) }
{
    write(s, alloc, actor, changes)?;
    commit_writes(s, actor);
    Ok(())
}

/// Writes the changes: as open writes inside a transaction, at once with their COMMIT outside one. Want of memory leaves everything as it was.
pub(crate) fn put_changes(
    s: &mut State,
    alloc: Global,
    actor: u8,
    changes: ChangeList,
) -> Result<(), Memory>
    requires actor { (0 < actor) × (actor < 17) }
    requires good { Good s.old }
    requires short { length (history_of s.old) ≤ last_length }
    requires fits { WriteFits s.old.schema (history_of s.old) actor changes }
    requires free { AreFreeKeys s.old.schema (history_of s.old) actor changes }
    ensures good { Good s.new }
    ensures table { SameTable s.old s.new }
    ensures written { OnOk result (history_of s.new ≡ extended actor (entries_of (is_running (history_of s.old) actor) changes) (history_of s.old)) }
    ensures memory { OnErr result (IsLeft s.old s.new) }
{
    if s.is_running(actor) {
        return write_open(s, alloc, actor, changes);
    }
    write_at_once(s, alloc, actor, changes)
}
