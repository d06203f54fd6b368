//! Row numbers by values of unique keys.
ghost use Rattle.std.specs.Prelude.{◌≡◌, ℕ, ◌<◌, ◌&&◌, ◌||◌, ◌==◌, [], ◌∷◌, ◌++◌, List, IfOk, OnOk, None, Some, cond, length, not, slice_set, true};
ghost use Rattle.std.specs.List.{slice_get};
ghost use Rattle.std.specs.Ordering.{nat_cmp};
ghost use Rattle.std.specs.BTreeMap.{get, is_at};
ghost use Rattle.std.specs.BTreeSet.{contains};
ghost use Rattle.s2_value.specs.Rows.{key_of};
ghost use Rattle.s2_model.specs.declared.entries.Change.{Change as AnyChange};
ghost use Rattle.s2_model.specs.Table.{Table, apply, apply_change, drop_row};
ghost use Rattle.s2_legal.specs.Keys.{KeyIndex as AnyIndex, KeyValue, key_value_cmp, numbers_at, stands, columns_of, NotesRow, DropsRow, NotesPuts, Finds, IsIndexed};
ghost use Rattle.s2_legal.specs.World.{open_of};

use crate::keys::key_of;
use crate::tables::{Rows, apply_change};
use s2_model::Change;
use s2_slow::number_of;
use s2_value::{ColList, Key, Memory, Row};
use std::alloc::Global;
use std::collections::{BTreeMap, BTreeSet};

/// How many actors a number of eight bits tells apart.
const ACTORS: usize = 256;

/// Row numbers by values of keys, each behind the key's number from 0.
pub(crate) type KeyIndex = BTreeMap<(usize, Key), BTreeSet<u64>>;

fn put_number(ids: &mut BTreeSet<u64>, id: u64) -> Result<(), Memory>
    ensures { OnOk result ((n : ℕ) → contains nat_cmp ids.new n ≡ ((id == n) || contains nat_cmp ids.old n)) }
{
    ids.insert(id)?;
    Ok(())
}

fn drop_number(ids: &mut BTreeSet<u64>, id: u64)
    ensures { (n : ℕ) → contains nat_cmp ids.new n ≡ (not (id == n) && contains nat_cmp ids.old n) }
{
    let _ = ids.remove(&id);
}

fn is_none(ids: &BTreeSet<u64>) -> bool
    ensures { result ≡ true → ids.now.keys ≡ [] }
{
    ids.is_empty()
}

// The numbers under the value, of which none is left there.
fn take(index: &mut KeyIndex, alloc: Global, value: &(usize, Key)) -> BTreeSet<u64>
    ensures numbers { result.keys ≡ numbers_at index.old value.now }
    ensures others { (q : KeyValue) → get key_value_cmp index.new q ≡ cond (is_at (key_value_cmp value.now) q) None (get key_value_cmp index.old q) }
{
    match index.remove(value) {
        Some(ids) => ids,
        None => BTreeSet::new(alloc),
    }
}

fn put_back(index: &mut KeyIndex, value: (usize, Key), ids: BTreeSet<u64>) -> Result<(), Memory>
    requires { numbers_at index.old value ≡ [] }
    ensures { OnOk result ((q : KeyValue) (n : ℕ) → stands index.new q n ≡ cond (is_at (key_value_cmp value) q) (contains nat_cmp ids n) (stands index.old q n)) }
{
    if is_none(&ids) {
        return Ok(());
    }
    index.insert(value, ids)?;
    Ok(())
}

fn note(index: &mut KeyIndex, alloc: Global, value: (usize, Key), id: u64) -> Result<(), Memory>
    ensures { OnOk result ((q : KeyValue) (n : ℕ) → stands index.new q n ≡ ((is_at (key_value_cmp value) q && (id == n)) || stands index.old q n)) }
{
    let mut ids = take(index, alloc, &value);
    put_number(&mut ids, id)?;
    put_back(index, value, ids)
}

fn unnote(index: &mut KeyIndex, alloc: Global, value: (usize, Key), id: u64) -> Result<(), Memory>
    ensures { OnOk result ((q : KeyValue) (n : ℕ) → stands index.new q n ≡ (not (is_at (key_value_cmp value) q && (id == n)) && stands index.old q n)) }
{
    let mut ids = take(index, alloc, &value);
    drop_number(&mut ids, id);
    put_back(index, value, ids)
}

/// The row's value of the key of this number.
pub(crate) fn value_of(
    alloc: Global,
    keys: &[ColList],
    j: usize,
    row: &Row,
) -> Result<(usize, Key), Memory>
    requires { j < length keys.now }
    ensures { IfOk result (λ v. v ≡ (j, key_of (columns_of keys.now j) row.now)) }
{
    let value = key_of(alloc, keys[j].as_slice(), row.as_slice())?;
    Ok((j, value))
}

/// Puts the row's number under its value of each key.
fn note_row(
    index: &mut KeyIndex,
    alloc: Global,
    keys: &[ColList],
    id: u64,
    row: &Row,
) -> Result<(), Memory>
    ensures { OnOk result (NotesRow keys.now id row.now index.old index.new) }
{
    for j in 0..keys.len() {
        let value = value_of(alloc, keys, j, row)?;
        note(index, alloc, value, id)?;
    }
    Ok(())
}

/// Takes the row's number from under its value of each key.
fn unnote_row(
    index: &mut KeyIndex,
    alloc: Global,
    keys: &[ColList],
    id: u64,
    row: &Row,
) -> Result<(), Memory>
    ensures { OnOk result (DropsRow keys.now id row.now index.old index.new) }
{
    for j in 0..keys.len() {
        let value = value_of(alloc, keys, j, row)?;
        unnote(index, alloc, value, id)?;
    }
    Ok(())
}

/// Puts the number of the row that the change puts under its values.
fn note_put(
    index: &mut KeyIndex,
    alloc: Global,
    keys: &[ColList],
    change: &Change,
) -> Result<(), Memory>
    ensures { OnOk result (NotesPuts keys.now (change.now ∷ []) index.old index.new) }
{
    match change {
        Change::Put(number, row) => note_row(index, alloc, keys, *number, row),
        Change::Drop(_) => Ok(()),
    }
}

/// The same for each of the changes. Each costs a look-up for each key.
pub(crate) fn note_puts(
    index: &mut KeyIndex,
    alloc: Global,
    keys: &[ColList],
    changes: &[Change],
) -> Result<(), Memory>
    ensures { OnOk result (NotesPuts keys.now changes.now index.old index.new) }
{
    for change in changes {
        note_put(index, alloc, keys, change)?;
    }
    Ok(())
}

// The row of this number is to go.
fn forget(
    index: &mut KeyIndex,
    alloc: Global,
    keys: &[ColList],
    rows: &Rows,
    number: u64,
) -> Result<(), Memory>
    ensures { OnOk result (Finds keys.now index.old rows.now.entries → Finds keys.now index.new (drop_row number rows.now.entries)) }
{
    match rows.get(&number) {
        Some(row) => unnote_row(index, alloc, keys, number, row),
        None => Ok(()),
    }
}

fn commit_change(
    rows: &mut Rows,
    index: &mut KeyIndex,
    alloc: Global,
    keys: &[ColList],
    change: Change,
) -> Result<(), Memory>
    ensures rows { OnOk result (rows.new.entries ≡ apply_change rows.old.entries change) }
    ensures found { OnOk result (Finds keys.now index.old rows.old.entries → Finds keys.now index.new rows.new.entries) }
{
    forget(index, alloc, keys, rows, number_of(&change))?;
    note_put(index, alloc, keys, &change)?;
    apply_change(rows, change)
}

/// The changes in turn, with the index of the rows.
fn commit_all(
    rows: &mut Rows,
    index: &mut KeyIndex,
    alloc: Global,
    keys: &[ColList],
    changes: Vec<Change>,
) -> Result<(), Memory>
    ensures rows { OnOk result (rows.new.entries ≡ apply rows.old.entries changes.items) }
    ensures found { OnOk result (Finds keys.now index.old rows.old.entries → Finds keys.now index.new rows.new.entries) }
{
    for change in changes {
        commit_change(rows, index, alloc, keys, change)?;
    }
    Ok(())
}

fn copied(alloc: Global, ids: &BTreeSet<u64>) -> Result<Vec<u64>, Memory>
    ensures { IfOk result (λ v. v.items ≡ ids.now.keys) }
{
    let mut numbers = Vec::new(alloc);
    for id in ids {
        numbers.push(*id)?;
    }
    Ok(numbers)
}

/// The numbers under the value. It costs a look-up.
pub(crate) fn numbers_at(
    alloc: Global,
    index: &KeyIndex,
    value: &(usize, Key),
) -> Result<Vec<u64>, Memory>
    ensures { IfOk result (λ v. v.items ≡ numbers_at index.now value.now) }
{
    match index.get(value) {
        Some(ids) => copied(alloc, ids),
        None => Ok(Vec::new(alloc)),
    }
}

/// An empty index for each actor.
pub(crate) fn no_puts(alloc: Global) -> Result<Vec<KeyIndex>, Memory>
    ensures actors { IfOk result (λ puts. length puts.items ≡ 256) }
    ensures none { IfOk result (λ puts. (k : ℕ) (p : AnyIndex) → slice_get puts.items k ≡ Some p → p.entries ≡ []) }
{
    let mut puts = Vec::with_capacity(alloc, ACTORS)?;
    for _i in 0..ACTORS {
        puts.push(BTreeMap::new(alloc))?;
    }
    Ok(puts)
}

/// The actor has no open writes any more.
pub(crate) fn list_none(puts: &mut Vec<KeyIndex>, alloc: Global, k: usize)
    requires { k < length puts.old.items }
    ensures { (keys : List (List ℕ)) (rows : Table) (ws : List (List AnyChange)) (index : AnyIndex) → k < length ws → IsIndexed keys rows ws index puts.old.items → IsIndexed keys rows (slice_set ws k []) index puts.new.items }
{
    puts[k] = BTreeMap::new(alloc);
}

/// The actor has these further open writes. Each costs a look-up for each key.
pub(crate) fn list_puts(
    puts: &mut Vec<KeyIndex>,
    alloc: Global,
    keys: &[ColList],
    k: usize,
    changes: &[Change],
) -> Result<(), Memory>
    requires { k < length puts.old.items }
    ensures { OnOk result ((rows : Table) (ws : List (List AnyChange)) (index : AnyIndex) → k < length ws → IsIndexed keys.now rows ws index puts.old.items → IsIndexed keys.now rows (slice_set ws k (open_of ws k ++ changes.now)) index puts.new.items) }
{
    note_puts(&mut puts[k], alloc, keys, changes)
}

/// The actor's open writes, which are these changes, become part of the content. Each costs a few look-ups for each key.
pub(crate) fn commit_puts(
    rows: &mut Rows,
    index: &mut KeyIndex,
    puts: &mut Vec<KeyIndex>,
    alloc: Global,
    keys: &[ColList],
    k: usize,
    changes: Vec<Change>,
) -> Result<(), Memory>
    requires { k < length puts.old.items }
    ensures rows { OnOk result (rows.new.entries ≡ apply rows.old.entries changes.items) }
    ensures indexed { OnOk result ((ws : List (List AnyChange)) → k < length ws → IsIndexed keys.now rows.old.entries ws index.old puts.old.items → IsIndexed keys.now rows.new.entries (slice_set ws k []) index.new puts.new.items) }
{
    list_none(puts, alloc, k);
    commit_all(rows, index, alloc, keys, changes)
}
