//! Unique key values that two rows would have after a write.
ghost use Rattle.std.specs.Prelude.{◌≡◌, ◌<◌, ◌≤◌, List, ◌||◌, ◌&&◌, not, true, suc, length, map, None, IfOk, OnOk, slice_index_or, pos};
ghost use Rattle.std.specs.List.{list_any, list_all};
ghost use Rattle.std.specs.Option.{option_copied};
ghost use Rattle.std.specs.BTreeSet.{contains};
ghost use Rattle.s2_value.specs.declared.values.Value.{Value as AnyValue};
ghost use Rattle.s2_value.specs.declared.values.Value.TheVariants.{Int};
ghost use Rattle.s2_value.specs.Order.{row_cmp, row_eq, value_eq};
ghost use Rattle.s2_value.specs.Rows.{key_of};
ghost use Rattle.s2_value.specs.Schemas.{fits};
ghost use Rattle.s2_model.specs.Table.{row_at, apply, touches, number_of};
ghost use Rattle.s2_model.specs.History.{pin_of, view};
ghost use Rattle.s2_model.specs.Held.{has_key, some_has_key, put_has_key};
ghost use Rattle.s2_model.specs.Fits.{rise, put_fits};
ghost use Rattle.s2_model.specs.Verdict.{first_some, duplicate_at, duplicate};
ghost use Rattle.s2_state.specs.States.{history_of};
ghost use Rattle.s2_state.specs.Good.{Good};
ghost use Rattle.s2_txn.specs.Duplicates.{unique_key, times_put, is_kept_value, is_shared, shared_at, HasTimes, Adds};

use s2_model::{Change, Logged, Refusal};
use s2_state::State;
use s2_value::{Key, Memory, Row, Schema, Value};
use std::alloc::Global;
use std::collections::BTreeSet;

// The values of a key that changes put.
#[derive(Drop)]
struct PutValues {
    // Those that some change puts.
    once: BTreeSet<Key>,
    // Those that two changes put.
    twice: BTreeSet<Key>,
}

// Puts the value into the set.
fn put_key(keys: &mut BTreeSet<Key>, key: Key) -> Result<(), Memory>
    ensures { OnOk result ((v : List AnyValue) → contains row_cmp keys.new v ≡ (row_eq key v || contains row_cmp keys.old v)) }
{
    keys.insert(key)?;
    Ok(())
}

impl PutValues {
    // No values.
    fn new(alloc: Global) -> PutValues
        ensures { HasTimes result (λ v. 0) }
    {
        PutValues {
            once: BTreeSet::new(alloc),
            twice: BTreeSet::new(alloc),
        }
    }

    // The value is put once more.
    fn add(&mut self, key: Key) -> Result<(), Memory>
        ensures { OnOk result (Adds (λ v. row_eq key v) self.old self.new) }
    {
        if self.once.contains(&key) {
            put_key(&mut self.twice, key)
        } else {
            put_key(&mut self.once, key)
        }
    }

    // The value of key `j` that the change puts, if it puts a row.
    fn add_change(
        &mut self,
        alloc: Global,
        schema: &Schema,
        j: usize,
        change: &Change,
    ) -> Result<(), Memory>
        requires number { j < length schema.now.uniques }
        requires fits { put_fits schema.now change.now ≡ true }
        ensures { OnOk result (Adds (λ v. put_has_key (unique_key schema.now j) v change.now) self.old self.new) }
    {
        match change {
            Change::Put(_, row) => self.add(unique_value(alloc, schema, j, row)?),
            Change::Drop(_) => Ok(()),
        }
    }
}

// The row's value of the unique key `j`, from 0.
fn unique_value(alloc: Global, schema: &Schema, j: usize, row: &Row) -> Result<Key, Memory>
    requires number { j < length schema.now.uniques }
    requires fits { fits schema.now row.now ≡ true }
    ensures { IfOk result (λ k. k ≡ key_of (unique_key schema.now j) row.now) }
{
    schema.key(alloc, j, row)
}

// The values of the unique key `j`, from 0, that the changes put.
fn put_values(
    alloc: Global,
    schema: &Schema,
    j: usize,
    changes: &[Change],
) -> Result<PutValues, Memory>
    requires number { j < length schema.now.uniques }
    requires fits { list_all (put_fits schema.now) changes.now ≡ true }
    ensures { IfOk result (λ puts. HasTimes puts (times_put (unique_key schema.now j) changes.now)) }
{
    let mut puts = PutValues::new(alloc);
    for change in changes {
        puts.add_change(alloc, schema, j, change)?;
    }
    Ok(puts)
}

// The row number of a change.
fn number_of(change: &Change) -> u64
    ensures { result ≡ number_of change.now }
{
    match change {
        Change::Put(number, _) => *number,
        Change::Drop(number) => *number,
    }
}

// Whether some of the changes is of the row.
fn touches(changes: &[Change], id: u64) -> bool
    requires { rise (map number_of changes.now) ≡ true }
    ensures { result ≡ touches changes.now id }
{
    changes
        .binary_search_by_key(&id, |change| number_of(change))
        .is_ok()
}

// Whether the row has the value at a place. A row that ends before it has 0 there.
fn is_value(row: &[Value], place: usize, value: &Value) -> bool
    ensures { result ≡ value_eq (slice_index_or row.now place (Int (pos 0))) value.now }
{
    match row.get(place) {
        Some(own) => own == value,
        None => Value::Int(0) == *value,
    }
}

// Whether the row has the key at these places.
fn has_key(places: &[u8], key: &[Value], row: &[Value]) -> bool
    ensures { result ≡ has_key places.now key.now row.now }
{
    let mut places = places;
    let mut key = key;
    while let [place, other_places @ ..] = places {
        let [value, other_values @ ..] = key else {
            return false;
        };
        if !is_value(row, usize::from(*place), value) {
            return false;
        }
        places = other_places;
        key = other_values;
    }
    key.is_empty()
}

// Whether there is a row and it has the value of the unique key `j`, from 0.
fn some_has_key(schema: &Schema, j: usize, key: &Key, row: Option<&Row>) -> bool
    requires { j < length schema.now.uniques }
    ensures { result ≡ some_has_key (unique_key schema.now j) key.now (option_copied row.entry) }
{
    match row {
        Some(row) => has_key(
            schema.uniques.at(j).as_slice(),
            key.as_slice(),
            row.as_slice(),
        ),
        None => false,
    }
}

// Whether the actor sees the row, and with this value of the unique key `j`, from 0.
fn sees_value(s: &State, actor: u8, j: usize, key: &Key, id: u64) -> bool
    requires good { Good s.now }
    requires unpinned { pin_of (history_of s.now) actor ≡ None }
    requires number { j < length s.now.schema.uniques }
    ensures { result ≡ some_has_key (unique_key s.now.schema j) key.now (row_at (view (history_of s.now) actor) id) }
{
    some_has_key(&s.schema, j, key, s.rows.visible_row(id, actor, s.front()))
}

// Whether the changes leave the row as it is, and the actor sees it with this value of the unique key `j`, from 0.
fn keeps_value(s: &State, actor: u8, changes: &[Change], j: usize, key: &Key, id: u64) -> bool
    requires good { Good s.now }
    requires unpinned { pin_of (history_of s.now) actor ≡ None }
    requires rising { rise (map number_of changes.now) ≡ true }
    requires number { j < length s.now.schema.uniques }
    ensures { result ≡ (not (touches changes.now id) && some_has_key (unique_key s.now.schema j) key.now (row_at (view (history_of s.now) actor) id)) }
{
    if touches(changes, id) {
        return false;
    }
    sees_value(s, actor, j, key, id)
}

// The same of some of the rows.
fn any_keeps_value(
    s: &State,
    actor: u8,
    changes: &[Change],
    j: usize,
    key: &Key,
    ids: &[u64],
) -> bool
    requires good { Good s.now }
    requires unpinned { pin_of (history_of s.now) actor ≡ None }
    requires rising { rise (map number_of changes.now) ≡ true }
    requires number { j < length s.now.schema.uniques }
    ensures { result ≡ list_any (λ id. not (touches changes.now id) && some_has_key (unique_key s.now.schema j) key.now (row_at (view (history_of s.now) actor) id)) ids.now }
{
    let mut left = ids;
    while let [id, rest @ ..] = left {
        if keeps_value(s, actor, changes, j, key, *id) {
            return true;
        }
        left = rest;
    }
    false
}

// Whether a row of the actor's view that the changes leave as it is has this value of the unique key `j`, from 0.
fn is_kept_value(
    s: &State,
    alloc: Global,
    actor: u8,
    changes: &[Change],
    j: usize,
    key: &Key,
) -> Result<bool, Memory>
    requires good { Good s.now }
    requires unpinned { pin_of (history_of s.now) actor ≡ None }
    requires rising { rise (map number_of changes.now) ≡ true }
    requires number { j < length s.now.schema.uniques }
    ensures { IfOk result (λ r. r ≡ is_kept_value (view (history_of s.now) actor) (unique_key s.now.schema j) changes.now key.now) }
{
    let ids = s.rows.with_key(alloc, &s.schema, j, key)?;
    Ok(any_keeps_value(s, actor, changes, j, key, ids.as_slice()))
}

// Whether the value, which one of the changes puts, stands at another row too after them.
fn is_shared(
    s: &State,
    alloc: Global,
    actor: u8,
    changes: &[Change],
    puts: &PutValues,
    j: usize,
    key: &Key,
) -> Result<bool, Memory>
    requires good { Good s.now }
    requires unpinned { pin_of (history_of s.now) actor ≡ None }
    requires rising { rise (map number_of changes.now) ≡ true }
    requires number { j < length s.now.schema.uniques }
    requires puts { HasTimes puts.now (times_put (unique_key s.now.schema j) changes.now) }
    ensures { IfOk result (λ r. r ≡ is_shared (view (history_of s.now) actor) (unique_key s.now.schema j) changes.now key.now) }
{
    if puts.twice.contains(key) {
        return Ok(true);
    }
    is_kept_value(s, alloc, actor, changes, j, key)
}

// The refusal of one of the changes for its value of the unique key `j`, from 0.
fn refusal_at(
    s: &State,
    alloc: Global,
    actor: u8,
    changes: &[Change],
    puts: &PutValues,
    j: usize,
    change: &Change,
) -> Result<Option<Refusal>, Memory>
    requires good { Good s.now }
    requires unpinned { pin_of (history_of s.now) actor ≡ None }
    requires rising { rise (map number_of changes.now) ≡ true }
    requires number { j < length s.now.schema.uniques }
    requires few { length s.now.schema.uniques ≤ 4 }
    requires fits { put_fits s.now.schema change.now ≡ true }
    requires puts { HasTimes puts.now (times_put (unique_key s.now.schema j) changes.now) }
    ensures { IfOk result (λ r. r ≡ shared_at (view (history_of s.now) actor) changes.now (suc j) (unique_key s.now.schema j) change.now) }
{
    let Change::Put(row, values) = change else {
        return Ok(None);
    };
    let value = unique_value(alloc, &s.schema, j, values)?;
    let shared = is_shared(s, alloc, actor, changes, puts, j, &value)?;
    if shared {
        return Ok(Some(Refusal::Duplicate {
            key: (j + 1) as u8,
            row: *row,
        }));
    }
    Ok(None)
}

// The first of the changes' refusals for their values of the unique key `j`, from 0.
fn first_refusal(
    s: &State,
    alloc: Global,
    actor: u8,
    changes: &[Change],
    puts: &PutValues,
    j: usize,
) -> Result<Option<Refusal>, Memory>
    requires good { Good s.now }
    requires unpinned { pin_of (history_of s.now) actor ≡ None }
    requires rising { rise (map number_of changes.now) ≡ true }
    requires number { j < length s.now.schema.uniques }
    requires few { length s.now.schema.uniques ≤ 4 }
    requires fits { list_all (put_fits s.now.schema) changes.now ≡ true }
    requires puts { HasTimes puts.now (times_put (unique_key s.now.schema j) changes.now) }
    ensures { IfOk result (λ r. r ≡ first_some (shared_at (view (history_of s.now) actor) changes.now (suc j) (unique_key s.now.schema j)) changes.now) }
{
    let mut left = changes;
    while let [change, rest @ ..] = left {
        let found = refusal_at(s, alloc, actor, changes, puts, j, change)?;
        if found.is_some() {
            return Ok(found);
        }
        left = rest;
    }
    Ok(None)
}

// The first of the changes that puts a value of the unique key `j`, from 0, which another row has after all of them.
fn duplicate_of_key(
    s: &State,
    alloc: Global,
    actor: u8,
    changes: &[Change],
    j: usize,
) -> Result<Option<Refusal>, Memory>
    requires good { Good s.now }
    requires unpinned { pin_of (history_of s.now) actor ≡ None }
    requires rising { rise (map number_of changes.now) ≡ true }
    requires number { j < length s.now.schema.uniques }
    requires few { length s.now.schema.uniques ≤ 4 }
    requires fits { list_all (put_fits s.now.schema) changes.now ≡ true }
    ensures { IfOk result (λ r. r ≡ first_some (duplicate_at (apply (view (history_of s.now) actor) changes.now) (suc j) (unique_key s.now.schema j)) changes.now) }
{
    let puts = put_values(alloc, &s.schema, j, changes)?;
    first_refusal(s, alloc, actor, changes, &puts, j)
}

// How many unique keys there are.
fn unique_keys(schema: &Schema) -> usize
    ensures count { result ≡ length schema.now.uniques }
    ensures few { result ≤ 4 }
{
    schema.uniques.len()
}

/// The refusal of the first of the changes that puts a value of a unique key which some other row of the actor's view has after the whole statement: by key, then by row number. The `Err` is want of memory.
///
/// Values are looked up in the row store, and in the sets of those that the changes put.
pub(crate) fn duplicate(
    s: &State,
    alloc: Global,
    actor: u8,
    changes: &[Change],
) -> Result<Option<Refusal>, Memory>
    requires good { Good s.now }
    requires unpinned { pin_of (history_of s.now) actor ≡ None }
    requires rising { rise (map number_of changes.now) ≡ true }
    requires fits { list_all (put_fits s.now.schema) changes.now ≡ true }
    ensures { IfOk result (λ r. r ≡ duplicate (apply (view (history_of s.now) actor) changes.now) s.now.schema.uniques changes.now) }
{
    let count = unique_keys(&s.schema);
    let mut j = 0;
    while j < count {
        let found = duplicate_of_key(s, alloc, actor, changes, j)?;
        if found.is_some() {
            return Ok(found);
        }
        j += 1;
    }
    Ok(None)
}
