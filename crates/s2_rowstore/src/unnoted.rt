// Notes are taken back where no kept version and no open write of the row has the key any more.
ghost use Rattle.std.specs.Prelude.{◌≡◌, ◌<◌, ◌==◌, ℕ, true, false, not, None, Some, length, List};
ghost use Rattle.s2_value.specs.declared.values.Value.{Value as AnyValue};
ghost use Rattle.s2_value.specs.Schemas.{keys_of};
ghost use Rattle.s2_value.specs.Order.{row_cmp};
ghost use Rattle.std.specs.BTreeMap.{is_at};
ghost use Rattle.s2_rowstore.specs.Chains.{body, is_empty_body};
ghost use Rattle.s2_rowstore.specs.Keys.{noted_at};
ghost use Rattle.s2_rowstore.specs.Lines.{cut_body, left_by, undone};
ghost use Rattle.s2_rowstore.specs.Store.{KeepsBut};

use crate::chain::{Chain, Slot};
use crate::notes::{Notes, unnote};
use s2_value::{Key, Row, Schema, Seq, Value};
use std::mem;

// The value at a place of the row, and 0 in its stead.
fn lend_value(row: &mut [Value], place: usize) -> Value {
    match row.get_mut(place) {
        Some(value) => mem::replace(value, Value::Int(0)),
        None => Value::Int(0),
    }
}

// Puts the value at a place of the row.
fn restore_value(row: &mut [Value], place: usize, value: Value) {
    if let Some(own) = row.get_mut(place) {
        *own = value;
    }
}

// The key of the row at these places, of its own values and in the room of the spare.
fn lend_key(spare: &mut Vec<Value>, row: &mut [Value], places: &[u8]) -> Key {
    for place in places {
        let _ = spare.push(lend_value(row, usize::from(*place)));
    }
    let alloc = *spare.allocator();
    Seq::from_vec(mem::replace(spare, Vec::new(alloc)))
}

// Puts the values of the key at their places of the row, and leaves the room to the spare.
fn restore_key(spare: &mut Vec<Value>, row: &mut [Value], places: &[u8], key: Key) {
    *spare = key.into_vec();
    for place in places.iter().rev() {
        if let Some(value) = spare.pop() {
            restore_value(row, usize::from(*place), value);
        }
    }
}

// Takes back the note of the row number for a value of key `j`.
fn unnote_at(notes: &mut [Notes], j: usize, key: &Key, id: u64)
    requires { j < length notes.old }
    ensures { (i : ℕ) (q : List AnyValue) (n : ℕ) → noted_at notes.old i q n ≡ true → (i ≡ j → (id == n) ≡ true → is_at (row_cmp key.now) q ≡ false) → noted_at notes.new i q n ≡ true }
{
    unnote(&mut notes[j], key, id);
}

// Takes back the note for a value of key `j`, if what is left of the row hasn't that key.
fn unnote_key(
    notes: &mut [Notes],
    schema: &Schema,
    id: u64,
    chain: &Chain,
    h: Option<u64>,
    j: usize,
    key: &Key,
)
    requires number { j < length (keys_of schema.now) }
    requires count { length notes.old ≡ length (keys_of schema.now) }
    ensures { KeepsBut schema.now id (left_by h (body chain.now)) notes.old notes.new }
{
    let places = schema.key_columns(j).as_slice();
    if !chain.keeps_key(h, places, key.as_slice()) {
        unnote_at(notes, j, key, id);
    }
}

/// Takes back the notes for the keys of a row that went, as far as what is left hasn't them: the line, or with `h` what a cut at `h` leaves of it.
pub(crate) fn unnote_row(
    notes: &mut [Notes],
    spare: &mut Vec<Value>,
    schema: &Schema,
    id: u64,
    chain: &Chain,
    h: Option<u64>,
    row: Row,
)
    requires { length notes.old ≡ length (keys_of schema.now) }
    ensures { KeepsBut schema.now id (left_by h (body chain.now)) notes.old notes.new }
{
    let mut row = row.into_vec();
    for j in 0..notes.len() {
        let places = schema.key_columns(j).as_slice();
        let key = lend_key(spare, row.as_mut_slice(), places);
        unnote_key(notes, schema, id, chain, h, j, &key);
        restore_key(spare, row.as_mut_slice(), places, key);
    }
}

// The same for the version at place `i`, if it ended at or before `h`.
fn unnote_done(
    chain: &mut Chain,
    notes: &mut [Notes],
    spare: &mut Vec<Value>,
    schema: &Schema,
    id: u64,
    h: u64,
    i: usize,
)
    requires { length notes.old ≡ length (keys_of schema.now) }
    ensures same { cut_body h (body chain.new) ≡ cut_body h (body chain.old) }
    ensures notes { KeepsBut schema.now id (cut_body h (body chain.new)) notes.old notes.new }
{
    if let Some(row) = chain.lend_done(i, h) {
        unnote_row(notes, spare, schema, id, chain, Some(h), row);
    }
}

/// The same for each version that ended at or before `h`.
pub(crate) fn unnote_all_done(
    chain: &mut Chain,
    notes: &mut [Notes],
    spare: &mut Vec<Value>,
    schema: &Schema,
    id: u64,
    h: u64,
)
    requires { length notes.old ≡ length (keys_of schema.now) }
    ensures same { cut_body h (body chain.new) ≡ cut_body h (body chain.old) }
    ensures notes { KeepsBut schema.now id (cut_body h (body chain.old)) notes.old notes.new }
{
    for i in 0..chain.len() {
        unnote_done(chain, notes, spare, schema, id, h, i);
    }
}

/// Forgets the versions that ended at or before `h`, with their notes, and answers whether something is left.
pub(crate) fn cut_noted(
    chain: &mut Chain,
    notes: &mut [Notes],
    spare: &mut Vec<Value>,
    schema: &Schema,
    id: u64,
    h: u64,
) -> bool
    requires { length notes.old ≡ length (keys_of schema.now) }
    ensures after { body chain.new ≡ cut_body h (body chain.old) }
    ensures left { result ≡ not (is_empty_body (body chain.new)) }
    ensures notes { KeepsBut schema.now id (body chain.new) notes.old notes.new }
{
    unnote_all_done(chain, notes, spare, schema, id, h);
    chain.cut(h)
}

/// The actor's open write, if it has one, is forgotten, with its notes.
pub(crate) fn undo_noted(
    chain: &mut Chain,
    notes: &mut [Notes],
    spare: &mut Vec<Value>,
    schema: &Schema,
    id: u64,
    actor: u8,
)
    requires { length notes.old ≡ length (keys_of schema.now) }
    ensures after { body chain.new ≡ undone actor (body chain.old) }
    ensures notes { KeepsBut schema.now id (body chain.new) notes.old notes.new }
{
    if let Some(row) = chain.undo(actor) {
        unnote_row(notes, spare, schema, id, chain, None, row);
    }
}

/// Sets the open write, and takes back the notes of the one before it.
pub(crate) fn put_noted(
    chain: &mut Chain,
    notes: &mut [Notes],
    spare: &mut Vec<Value>,
    schema: &Schema,
    id: u64,
    slot: Slot,
)
    requires room { 0 < chain.old.room }
    requires count { length notes.old ≡ length (keys_of schema.now) }
    ensures after { body chain.new ≡ (chain.old.versions, Some slot) }
    ensures room { chain.new.room ≡ chain.old.room }
    ensures notes { KeepsBut schema.now id (body chain.new) notes.old notes.new }
{
    if let Some(row) = chain.put(slot) {
        unnote_row(notes, spare, schema, id, chain, None, row);
    }
}
