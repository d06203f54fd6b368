//! Values of unique keys: whether another session holds one, and whether two rows would have one.
ghost use Rattle.std.specs.Prelude.{◌≡◌, ◌≤◌, ◌<◌, ◌||◌, ◌&&◌, ◌==◌, IfOk, IfSome, not, length, slice_index_or, suc, true, if◌then◌else◌, Some, None};
ghost use Rattle.std.specs.List.{list_any};
ghost use Rattle.s2_value.specs.Order.{value_eq};
ghost use Rattle.s2_value.specs.Rows.{key_of};
ghost use Rattle.s2_model.specs.Held.{has_key, some_has_key, put_has_key, has_value};
ghost use Rattle.s2_model.specs.Rows.{value_at};
ghost use Rattle.s2_model.specs.Table.{apply, rises_above, row_at, touches};
ghost use Rattle.s2_model.specs.Verdict.{duplicate, duplicate_at, first_some, has_other};
ghost use Rattle.s2_legal.specs.Keys.{IsIndexed, Finds, Lists, columns_of, numbers_at};
ghost use Rattle.s2_legal.specs.Knows.{IsKept};
ghost use Rattle.s2_legal.specs.Lasts.{has_after, last_of};
ghost use Rattle.s2_legal.specs.World.{open_of, view_in, holds_value_in, value_holder_in, locked_value_at_in, locked_value_in, duplicate_in, is_ruled_refusal};

use crate::index::{KeyIndex, note_puts, numbers_at, value_of};
use crate::opens::OpenWrites;
use crate::tables::Rows;
use crate::world::World;
use s2_model::{Change, Refusal, copy_at};
use s2_slow::sessions;
use s2_value::{ColList, Key, Memory, Row, Schema, Seq, Value};
use std::alloc::Global;
use std::collections::BTreeMap;

/// The row's values at these columns. A column that the row doesn't have reads as the number 0.
pub(crate) fn key_of(alloc: Global, places: &[u8], row: &[Value]) -> Result<Key, Memory>
    ensures { IfOk result (λ v. v ≡ key_of places.now row.now) }
{
    let mut key = Vec::new(alloc);
    for place in places {
        key.push(copy_at(row, *place)?)?;
    }
    Ok(Seq::from_vec(key))
}

fn same_at(row: &[Value], column: u8, value: &Value) -> bool
    ensures { result ≡ value_eq (value_at row.now column) value.now }
{
    match row.get(usize::from(column)) {
        Some(found) => *found == *value,
        None => Value::Int(0) == *value,
    }
}

/// Whether the row has this value at the columns of the key.
fn has_key(places: &[u8], value: &[Value], row: &[Value]) -> bool
    ensures { result ≡ has_key places.now value.now row.now }
{
    let mut places = places;
    let mut value = value;
    while let [place, other_places @ ..] = places {
        let [one, others @ ..] = value else {
            return false;
        };
        if !same_at(row, *place, one) {
            return false;
        }
        places = other_places;
        value = others;
    }
    value.is_empty()
}

/// Whether there is a row of this number with the value.
#[tactic(auto, using(crate::proofs::MapRows::found_at))]
pub(crate) fn row_has_key(places: &[u8], value: &[Value], rows: &Rows, number: u64) -> bool
    ensures { result ≡ some_has_key places.now value.now (row_at rows.now.entries number) }
{
    match rows.get(&number) {
        Some(row) => has_key(places, value, row.as_slice()),
        None => false,
    }
}

/// Whether the change puts a row with the value.
pub(crate) fn put_has_key(places: &[u8], value: &[Value], change: &Change) -> bool
    ensures { result ≡ put_has_key places.now value.now change.now }
{
    match change {
        Change::Put(_, row) => has_key(places, value, row.as_slice()),
        Change::Drop(_) => false,
    }
}

/// Whether one of the two holds.
fn either(a: bool, b: bool) -> bool
    ensures { result ≡ (a || b) }
{
    a || b
}

/// The columns of the key of this number, from 0.
fn columns(keys: &[ColList], j: usize) -> &[u8]
    requires { j < length keys.now }
    ensures { result.now ≡ columns_of keys.now j }
{
    keys[j].as_slice()
}

/// The actor's open writes.
fn writes_of(world: &World, k: u8) -> &OpenWrites
    requires { length world.now.writes.items ≡ 256 }
    ensures { result.now ≡ open_of world.now.writes.items k }
{
    &world.writes[usize::from(k)]
}

/// The index of the actor's open writes.
fn puts_of(world: &World, k: u8) -> &KeyIndex
    requires { length world.now.puts.items ≡ 256 }
    ensures within { k < length world.now.puts.items }
    ensures at { result.now ≡ slice_index_or world.now.puts.items k result.now }
{
    &world.puts[usize::from(k)]
}

/// Whether there is a number.
fn is_some_number(numbers: &[u64]) -> bool
    ensures { result ≡ list_any (λ n. true) numbers.now }
{
    numbers.iter().any(|_number| true)
}

/// Whether the row has the value and the open writes change it.
fn is_held_row(rows: &Rows, held: &OpenWrites, places: &[u8], value: &[Value], number: u64) -> bool
    ensures { result ≡ (some_has_key places.now value.now (row_at rows.now.entries number) && touches held.now number) }
{
    row_has_key(places, value, rows, number) && held.touches(number)
}

fn is_some_held(
    rows: &Rows,
    held: &OpenWrites,
    places: &[u8],
    value: &[Value],
    numbers: &[u64],
) -> bool
    ensures { result ≡ list_any (λ n. some_has_key places.now value.now (row_at rows.now.entries n) && touches held.now n) numbers.now }
{
    numbers
        .iter()
        .any(|number| is_held_row(rows, held, places, value, *number))
}

/// Whether an actor with these open writes holds the value.
fn holds(
    alloc: Global,
    keys: &[ColList],
    world: &World,
    held: &OpenWrites,
    puts: &KeyIndex,
    value: &(usize, Key),
) -> Result<bool, Memory>
    requires key { value.now.0 < length keys.now }
    requires found { Finds keys.now world.now.index world.now.rows.entries }
    requires listed { Lists keys.now puts.now held.now }
    ensures { IfOk result (λ b. b ≡ has_value (columns_of keys.now value.now.0) world.now.rows.entries held.now value.now.1) }
{
    let put = numbers_at(alloc, puts, value)?;
    let found = numbers_at(alloc, &world.index, value)?;
    let places = columns(keys, value.0);
    let key = value.1.as_slice();
    let is_put = is_some_number(&put);
    let is_held = is_some_held(&world.rows, held, places, key, &found);
    Ok(either(is_put, is_held))
}

/// Whether the actor holds the value.
fn holds_value(
    alloc: Global,
    keys: &[ColList],
    world: &World,
    actor: u8,
    value: &(usize, Key),
) -> Result<bool, Memory>
    requires key { value.now.0 < length keys.now }
    requires actors { length world.now.writes.items ≡ 256 }
    requires indexed { IsIndexed keys.now world.now.rows.entries world.now.writes.items world.now.index world.now.puts.items }
    ensures { IfOk result (λ b. b ≡ holds_value_in world.now.rows.entries world.now.writes.items actor (columns_of keys.now value.now.0) value.now.1) }
{
    let held = writes_of(world, actor);
    let puts = puts_of(world, actor);
    holds(alloc, keys, world, held, puts, value)
}

fn is_holder(
    alloc: Global,
    keys: &[ColList],
    world: &World,
    k: u8,
    other: u8,
    value: &(usize, Key),
) -> Result<bool, Memory>
    requires key { value.now.0 < length keys.now }
    requires actors { length world.now.writes.items ≡ 256 }
    requires indexed { IsIndexed keys.now world.now.rows.entries world.now.writes.items world.now.index world.now.puts.items }
    ensures { IfOk result (λ b. b ≡ (not (other == k) && holds_value_in world.now.rows.entries world.now.writes.items other (columns_of keys.now value.now.0) value.now.1)) }
{
    if other == k {
        return Ok(false);
    }
    holds_value(alloc, keys, world, other, value)
}

/// The least session but this one that holds the value.
fn value_holder(
    alloc: Global,
    keys: &[ColList],
    world: &World,
    k: u8,
    value: &(usize, Key),
) -> Result<Option<u8>, Memory>
    requires key { value.now.0 < length keys.now }
    requires actors { length world.now.writes.items ≡ 256 }
    requires indexed { IsIndexed keys.now world.now.rows.entries world.now.writes.items world.now.index world.now.puts.items }
    ensures { IfOk result (λ o. o ≡ value_holder_in world.now.rows.entries world.now.writes.items k (columns_of keys.now value.now.0) value.now.1) }
{
    let actors = sessions();
    let mut left = actors.as_slice();
    while let [other, rest @ ..] = left {
        if is_holder(alloc, keys, world, k, *other, value)? {
            return Ok(Some(*other));
        }
        left = rest;
    }
    Ok(None)
}

/// The number of a key from 1 on.
fn number_of_key(j: usize) -> u8
    requires { j < 4 }
    ensures { result ≡ suc j }
{
    j as u8 + 1
}

fn locked_value_at(
    alloc: Global,
    keys: &[ColList],
    world: &World,
    k: u8,
    j: usize,
    change: &Change,
) -> Result<Option<Refusal>, Memory>
    requires key { (j < length keys.now) × (j < 4) }
    requires actors { length world.now.writes.items ≡ 256 }
    requires indexed { IsIndexed keys.now world.now.rows.entries world.now.writes.items world.now.index world.now.puts.items }
    ensures first { IfOk result (λ r. r ≡ locked_value_at_in world.now.rows.entries world.now.writes.items k (suc j) (columns_of keys.now j) change.now) }
    ensures kind { IfOk result (λ o. IfSome o (λ r. is_ruled_refusal r ≡ true)) }
{
    match change {
        Change::Put(number, row) => {
            let value = value_of(alloc, keys, j, row)?;
            match value_holder(alloc, keys, world, k, &value)? {
                Some(holder) => Ok(Some(Refusal::LockedValue {
                    key: number_of_key(j),
                    row: *number,
                    holder,
                })),
                None => Ok(None),
            }
        }
        Change::Drop(_) => Ok(None),
    }
}

fn locked_value_of(
    alloc: Global,
    keys: &[ColList],
    world: &World,
    k: u8,
    j: usize,
    changes: &[Change],
) -> Result<Option<Refusal>, Memory>
    requires key { (j < length keys.now) × (j < 4) }
    requires actors { length world.now.writes.items ≡ 256 }
    requires indexed { IsIndexed keys.now world.now.rows.entries world.now.writes.items world.now.index world.now.puts.items }
    ensures first { IfOk result (λ r. r ≡ first_some (locked_value_at_in world.now.rows.entries world.now.writes.items k (suc j) (columns_of keys.now j)) changes.now) }
    ensures kind { IfOk result (λ o. IfSome o (λ r. is_ruled_refusal r ≡ true)) }
{
    let mut left = changes;
    while let [change, rest @ ..] = left {
        let found = locked_value_at(alloc, keys, world, k, j, change)?;
        if found.is_some() {
            return Ok(found);
        }
        left = rest;
    }
    Ok(None)
}

fn first_locked_value(
    alloc: Global,
    keys: &[ColList],
    world: &World,
    k: u8,
    changes: &[Change],
) -> Result<Option<Refusal>, Memory>
    requires count { length keys.now ≤ 4 }
    requires actors { length world.now.writes.items ≡ 256 }
    requires indexed { IsIndexed keys.now world.now.rows.entries world.now.writes.items world.now.index world.now.puts.items }
    ensures first { IfOk result (λ r. r ≡ locked_value_in world.now.rows.entries world.now.writes.items k keys.now changes.now) }
    ensures kind { IfOk result (λ o. IfSome o (λ r. is_ruled_refusal r ≡ true)) }
{
    for j in 0..keys.len() {
        if let Some(refusal) = locked_value_of(alloc, keys, world, k, j, changes)? {
            return Ok(Some(refusal));
        }
    }
    Ok(None)
}

/// The first change that puts a value of a unique key which another session holds: the least key, then the first change, then the least holder.
/// Each change costs a few look-ups for each key and session.
pub(crate) fn locked_value(
    alloc: Global,
    schema: &Schema,
    world: &World,
    k: u8,
    changes: &[Change],
) -> Result<Option<Refusal>, Memory>
    requires kept { IsKept schema.now world.now }
    ensures first { IfOk result (λ r. r ≡ locked_value_in world.now.rows.entries world.now.writes.items k schema.now.uniques changes.now) }
    ensures kind { IfOk result (λ o. IfSome o (λ r. is_ruled_refusal r ≡ true)) }
{
    first_locked_value(alloc, schema.uniques.as_slice(), world, k, changes)
}

/// Whether the row has the value after its last change, from whether it had it.
fn has_after(held: &OpenWrites, number: u64, places: &[u8], value: &[Value], had: bool) -> bool
    ensures { result ≡ has_after places.now value.now had (last_of held.now number) }
{
    match held.last(number) {
        Some(change) => put_has_key(places, value, change),
        None => had,
    }
}

/// Whether the actor would see the row with the value after the changes.
#[tactic(auto, using(crate::proofs::LastPuts::has_last))]
fn has_value_after(
    world: &World,
    k: u8,
    changes: &OpenWrites,
    places: &[u8],
    value: &[Value],
    number: u64,
) -> bool
    requires { length world.now.writes.items ≡ 256 }
    ensures { result ≡ some_has_key places.now value.now (row_at (apply (view_in world.now.rows.entries world.now.writes.items k) changes.now) number) }
{
    let had = row_has_key(places, value, &world.rows, number);
    let has = has_after(writes_of(world, k), number, places, value, had);
    has_after(changes, number, places, value, has)
}

fn is_other(
    world: &World,
    k: u8,
    changes: &OpenWrites,
    places: &[u8],
    value: &[Value],
    number: u64,
    other: u64,
) -> bool
    requires { length world.now.writes.items ≡ 256 }
    ensures { result ≡ (not (other == number) && some_has_key places.now value.now (row_at (apply (view_in world.now.rows.entries world.now.writes.items k) changes.now) other)) }
{
    other != number && has_value_after(world, k, changes, places, value, other)
}

fn is_some_other(
    world: &World,
    k: u8,
    changes: &OpenWrites,
    places: &[u8],
    value: &[Value],
    number: u64,
    others: &[u64],
) -> bool
    requires { length world.now.writes.items ≡ 256 }
    ensures { result ≡ list_any (λ m. not (m == number) && some_has_key places.now value.now (row_at (apply (view_in world.now.rows.entries world.now.writes.items k) changes.now) m)) others.now }
{
    let mut left = others;
    while let [other, rest @ ..] = left {
        if is_other(world, k, changes, places, value, number, *other) {
            return true;
        }
        left = rest;
    }
    false
}

/// Whether the actor would see a row of another number with the value after the changes, of which `more` has those that they put.
fn has_other(
    alloc: Global,
    keys: &[ColList],
    world: &World,
    k: u8,
    changes: &OpenWrites,
    more: &KeyIndex,
    number: u64,
    value: &(usize, Key),
) -> Result<bool, Memory>
    requires key { value.now.0 < length keys.now }
    requires actors { length world.now.writes.items ≡ 256 }
    requires indexed { IsIndexed keys.now world.now.rows.entries world.now.writes.items world.now.index world.now.puts.items }
    requires listed { Lists keys.now more.now changes.now }
    requires table { rises_above 0 (apply (view_in world.now.rows.entries world.now.writes.items k) changes.now) ≡ true }
    ensures { IfOk result (λ b. b ≡ has_other (apply (view_in world.now.rows.entries world.now.writes.items k) changes.now) (columns_of keys.now value.now.0) number value.now.1) }
{
    let found = numbers_at(alloc, &world.index, value)?;
    let puts = puts_of(world, k);
    let written = numbers_at(alloc, puts, value)?;
    let put = numbers_at(alloc, more, value)?;
    let places = columns(keys, value.0);
    let key = value.1.as_slice();
    let among_rows = is_some_other(world, k, changes, places, key, number, &found);
    let among_written = is_some_other(world, k, changes, places, key, number, &written);
    let among_put = is_some_other(world, k, changes, places, key, number, &put);
    let among_puts = either(among_written, among_put);
    Ok(either(among_rows, among_puts))
}

fn duplicate_at(
    alloc: Global,
    keys: &[ColList],
    world: &World,
    k: u8,
    after: &OpenWrites,
    more: &KeyIndex,
    j: usize,
    change: &Change,
) -> Result<Option<Refusal>, Memory>
    requires key { (j < length keys.now) × (j < 4) }
    requires actors { length world.now.writes.items ≡ 256 }
    requires indexed { IsIndexed keys.now world.now.rows.entries world.now.writes.items world.now.index world.now.puts.items }
    requires listed { Lists keys.now more.now after.now }
    requires table { rises_above 0 (apply (view_in world.now.rows.entries world.now.writes.items k) after.now) ≡ true }
    ensures first { IfOk result (λ r. r ≡ duplicate_at (apply (view_in world.now.rows.entries world.now.writes.items k) after.now) (suc j) (columns_of keys.now j) change.now) }
    ensures kind { IfOk result (λ o. IfSome o (λ r. is_ruled_refusal r ≡ true)) }
{
    match change {
        Change::Put(number, row) => {
            let value = value_of(alloc, keys, j, row)?;
            if has_other(alloc, keys, world, k, after, more, *number, &value)? {
                return Ok(Some(Refusal::Duplicate {
                    key: number_of_key(j),
                    row: *number,
                }));
            }
            Ok(None)
        }
        Change::Drop(_) => Ok(None),
    }
}

fn duplicate_of(
    alloc: Global,
    keys: &[ColList],
    world: &World,
    k: u8,
    after: &OpenWrites,
    more: &KeyIndex,
    j: usize,
) -> Result<Option<Refusal>, Memory>
    requires key { (j < length keys.now) × (j < 4) }
    requires actors { length world.now.writes.items ≡ 256 }
    requires indexed { IsIndexed keys.now world.now.rows.entries world.now.writes.items world.now.index world.now.puts.items }
    requires listed { Lists keys.now more.now after.now }
    requires table { rises_above 0 (apply (view_in world.now.rows.entries world.now.writes.items k) after.now) ≡ true }
    ensures first { IfOk result (λ r. r ≡ first_some (duplicate_at (apply (view_in world.now.rows.entries world.now.writes.items k) after.now) (suc j) (columns_of keys.now j)) after.now) }
    ensures kind { IfOk result (λ o. IfSome o (λ r. is_ruled_refusal r ≡ true)) }
{
    let mut left = after.as_slice();
    while let [change, rest @ ..] = left {
        let found = duplicate_at(alloc, keys, world, k, after, more, j, change)?;
        if found.is_some() {
            return Ok(found);
        }
        left = rest;
    }
    Ok(None)
}

fn first_duplicate(
    alloc: Global,
    keys: &[ColList],
    world: &World,
    k: u8,
    after: &OpenWrites,
    more: &KeyIndex,
) -> Result<Option<Refusal>, Memory>
    requires count { length keys.now ≤ 4 }
    requires actors { length world.now.writes.items ≡ 256 }
    requires indexed { IsIndexed keys.now world.now.rows.entries world.now.writes.items world.now.index world.now.puts.items }
    requires listed { Lists keys.now more.now after.now }
    requires table { rises_above 0 (apply (view_in world.now.rows.entries world.now.writes.items k) after.now) ≡ true }
    ensures first { IfOk result (λ r. r ≡ duplicate (apply (view_in world.now.rows.entries world.now.writes.items k) after.now) keys.now after.now) }
    ensures kind { IfOk result (λ o. IfSome o (λ r. is_ruled_refusal r ≡ true)) }
{
    for j in 0..keys.len() {
        if let Some(refusal) = duplicate_of(alloc, keys, world, k, after, more, j)? {
            return Ok(Some(refusal));
        }
    }
    Ok(None)
}

/// The changes with the place of the last one of each row.
fn changes_of(alloc: Global, changes: &[Change]) -> Result<OpenWrites, Memory>
    ensures { IfOk result (λ after. after ≡ changes.now) }
{
    let mut after = OpenWrites::new(alloc);
    after.extend(alloc, changes)?;
    Ok(after)
}

/// The numbers of the rows that the changes put, by their values.
fn index_of(alloc: Global, keys: &[ColList], changes: &[Change]) -> Result<KeyIndex, Memory>
    ensures { IfOk result (λ more. Lists keys.now more changes.now) }
{
    let mut more = BTreeMap::new(alloc);
    note_puts(&mut more, alloc, keys, changes)?;
    Ok(more)
}

/// The first change that puts a value of a unique key which another row has too after all the changes: the least key, then the first change.
/// Each change costs a few look-ups for each key.
pub(crate) fn duplicate(
    alloc: Global,
    schema: &Schema,
    world: &World,
    k: u8,
    changes: &[Change],
) -> Result<Option<Refusal>, Memory>
    requires kept { IsKept schema.now world.now }
    requires table { rises_above 0 (apply (view_in world.now.rows.entries world.now.writes.items k) changes.now) ≡ true }
    ensures first { IfOk result (λ r. r ≡ duplicate_in world.now.rows.entries world.now.writes.items k schema.now.uniques changes.now) }
    ensures kind { IfOk result (λ o. IfSome o (λ r. is_ruled_refusal r ≡ true)) }
{
    let keys = schema.uniques.as_slice();
    let after = changes_of(alloc, changes)?;
    let more = index_of(alloc, keys, changes)?;
    first_duplicate(alloc, keys, world, k, &after, &more)
}
