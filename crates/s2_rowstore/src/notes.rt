// Row numbers noted by the keys of their rows.
ghost use Rattle.std.specs.Prelude.{◌≡◌, ◌<◌, ◌==◌, ℕ, true, OnOk, List, slice_index_or, length, pos};
ghost use Rattle.s2_value.specs.declared.values.Value.{Value as AnyValue};
ghost use Rattle.s2_value.specs.declared.values.Value.TheVariants.{Int};
ghost use Rattle.s2_value.specs.Order.{value_eq};
ghost use Rattle.s2_rowstore.specs.Keys.{is_noted, row_has, noted_at, IsNotedRow, KeepsNotes, KeepsOthers};
ghost use Rattle.s2_value.specs.Schemas.{keys_of, fits};

use crate::ids::Ids;
use s2_value::{Key, Memory, Row, Schema, Value};
use std::alloc::Global;
use std::collections::BTreeMap;

/// The row numbers noted for each key.
pub(crate) type Notes = BTreeMap<Key, Ids>;

/// Notes the row number for the key.
pub(crate) fn note(notes: &mut Notes, alloc: Global, key: Key, id: u64) -> Result<(), Memory>
    ensures kept { (q : List AnyValue) (n : ℕ) → is_noted notes.old.entries q n ≡ true → is_noted notes.new.entries q n ≡ true }
    ensures added { OnOk result (is_noted notes.new.entries key id ≡ true) }
{
    if let Some(ids) = notes.get_mut(&key) {
        return ids.insert(alloc, id);
    }
    notes.insert(key, Ids::one(id))?;
    Ok(())
}

// Notes the row number for a value of key `j`.
fn note_at(notes: &mut [Notes], alloc: Global, j: usize, key: Key, id: u64) -> Result<(), Memory>
    requires { j < length notes.old }
    ensures kept { KeepsNotes notes.old notes.new }
    ensures added { OnOk result (noted_at notes.new j key id ≡ true) }
{
    note(&mut notes[j], alloc, key, id)
}

/// Notes the row number for each key of the row.
pub(crate) fn note_row(
    notes: &mut [Notes],
    alloc: Global,
    schema: &Schema,
    id: u64,
    row: &Row,
) -> Result<(), Memory>
    requires fits { fits schema.now row.now ≡ true }
    requires count { length notes.old ≡ length (keys_of schema.now) }
    ensures kept { KeepsNotes notes.old notes.new }
    ensures noted { OnOk result (IsNotedRow schema.now notes.new id row.now) }
{
    for j in 0..notes.len() {
        let key = schema.key(alloc, j, row)?;
        note_at(notes, alloc, j, key, id)?;
    }
    Ok(())
}

// Takes the row number out of those of the key, and answers whether no other is left.
fn drop_noted(notes: &mut Notes, key: &Key, id: u64) -> bool
    ensures kept { KeepsOthers key.now id notes.old.entries notes.new.entries }
    ensures none { result ≡ true → (n : ℕ) → is_noted notes.new.entries key.now n ≡ true → (id == n) ≡ true }
{
    match notes.get_mut(key) {
        Some(ids) => ids.remove(id),
        None => false,
    }
}

/// Takes back the note of the row number for the key.
pub(crate) fn unnote(notes: &mut Notes, key: &Key, id: u64)
    ensures { KeepsOthers key.now id notes.old.entries notes.new.entries }
{
    if drop_noted(notes, key, id) {
        let _ = notes.remove(key);
    }
}

// Whether the row has the value at a place. A row that ends before it has 0 there.
fn is_value(row: &[Value], place: usize, value: &Value) -> bool
    ensures { result ≡ value_eq (slice_index_or row.now place (Int (pos 0))) value.now }
{
    match row.get(place) {
        Some(own) => own == value,
        None => Value::Int(0) == *value,
    }
}

/// Whether the row has the key at these places.
pub(crate) fn row_has(places: &[u8], key: &[Value], row: &[Value]) -> bool
    ensures { result ≡ row_has places.now key.now row.now }
{
    let mut places = places;
    let mut key = key;
    while let [place, other_places @ ..] = places {
        let [value, other_values @ ..] = key else {
            return false;
        };
        if !is_value(row, usize::from(*place), value) {
            return false;
        }
        places = other_places;
        key = other_values;
    }
    key.is_empty()
}
