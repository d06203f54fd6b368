// One hold, and the two maps of holds.
ghost use Rattle.std.specs.Prelude.{All, vec_len, ◌≡◌, ℕ, ◌+◌, ◌<◌, ◌≤◌, List, length, ◌==◌, ◌&&◌, if◌then◌else◌, is_some};
ghost use Rattle.std.specs.List.{list_any};
ghost use Rattle.s2_value.specs.declared.values.Value.{Value as AnyValue};
ghost use Rattle.std.specs.HashMap.{spare};
ghost use Rattle.s2_uniquelock.specs.Holds.{nobody, holder_in, is_present, row_hold, value_hold, same_key, IsKnownRow, IsKnownValue, without_actor};
ghost use Rattle.std.specs.Prelude.{map, slice_index_or};

use s2_value::Key;
use std::collections::HashMap;
use std::hash::{BuildHasherDefault, DefaultHasher};

/// The number of actors that hold something, 1 to 16, and nobody.
pub(crate) const ACTORS: usize = 17;

/// The most unique keys of a schema.
pub(crate) const KEYS: usize = 4;

/// That an actor took something, and in which of its terms. A term ends where the actor frees all that it holds.
#[derive(Clone, Copy, Debug)]
pub(crate) struct Hold {
    pub(crate) actor: u8,
    pub(crate) term: u64,
}

/// The terms of the actors, by their numbers.
pub(crate) type Terms = [u64; ACTORS];

pub(crate) type RowMap = HashMap<u64, Hold>;

pub(crate) type ValueMap = HashMap<Key, [Hold; KEYS], BuildHasherDefault<DefaultHasher>>;

impl Hold {
    /// The hold, if it isn't the actor's.
    fn without(self, actor: u8) -> Hold
        ensures { result ≡ without_actor actor self }
    {
        if self.actor == actor { NOBODY } else { self }
    }

    /// Whether the hold is in force.
    fn is_present(&self, terms: &Terms) -> bool
        ensures { result ≡ is_present terms.now self.now }
    {
        self.actor > 0 && (self.actor as usize) < ACTORS && terms[self.actor as usize] == self.term
    }
}

pub(crate) const NOBODY: Hold = Hold { actor: 0, term: 0 };

/// The actor of the hold, if its term is the actor's present one.
pub(crate) fn holder(terms: &Terms, hold: Hold) -> Option<u8>
    requires { hold.actor < 17 }
    ensures { result ≡ holder_in terms.now hold }
{
    if hold.actor > 0 && terms[hold.actor as usize] == hold.term {
        Some(hold.actor)
    } else {
        None
    }
}

/// The hold on a row.
pub(crate) fn hold_of_row(rows: &RowMap, id: u64) -> Hold
    ensures { result ≡ row_hold rows.now.entries id }
{
    rows.get(&id).copied().unwrap_or(NOBODY)
}

/// The hold on a value of a key.
pub(crate) fn hold_of_value(values: &ValueMap, j: u8, key: &Key) -> Hold
    requires { j < 4 }
    ensures { result ≡ value_hold values.now.entries j key.now }
{
    match values.get(key) {
        Some(holds) => holds[j as usize],
        None => NOBODY,
    }
}

/// Puts the hold on each of the rows.
pub(crate) fn take_rows(rows: &mut RowMap, hold: Hold, ids: &[u64])
    requires { length ids.now ≤ spare rows.old }
    ensures holds { (n : ℕ) → row_hold rows.new.entries n
        ≡ (if list_any (λ id. id == n) ids.now then hold else row_hold rows.old.entries n) }
    ensures room { spare rows.old ≤ spare rows.new + length ids.now }
{
    for id in ids {
        let _ = rows.insert(*id, hold);
    }
}

// The holds on a key, one for each key number.
fn holds_of(values: &ValueMap, key: &Key) -> [Hold; KEYS]
    ensures { (i : ℕ) → slice_index_or result i nobody ≡ value_hold values.now.entries i key.now }
{
    match values.get(key) {
        Some(holds) => *holds,
        None => [NOBODY; KEYS],
    }
}

/// Puts the hold on a value of a key.
pub(crate) fn take_value(values: &mut ValueMap, hold: Hold, j: u8, key: Key)
    requires number { j < 4 }
    requires room { 0 < spare values.old }
    ensures holds { (i : ℕ) (q : List AnyValue) → value_hold values.new.entries i q
        ≡ (if (j == i) && same_key key q then hold else value_hold values.old.entries i q) }
    ensures room { spare values.old ≤ spare values.new + 1 }
{
    let mut holds = holds_of(values, &key);
    holds[j as usize] = hold;
    let _ = values.insert(key, holds);
}

/// Puts the hold on each of the values, which come with their keys' numbers.
pub(crate) fn take_values(values: &mut ValueMap, hold: Hold, keys: Vec<(u8, Key)>)
    requires numbers { All (λ p. p.0 < 4) keys.items }
    requires room { vec_len keys ≤ spare values.old }
    ensures holds { (i : ℕ) (q : List AnyValue) → value_hold values.new.entries i q
        ≡ (if list_any (λ p. (p.0 == i) && same_key p.1 q) keys.items then hold else value_hold values.old.entries i q) }
    ensures room { spare values.old ≤ spare values.new + vec_len keys }
{
    for (j, key) in keys {
        take_value(values, hold, j, key);
    }
}

/// Forgets the values that nobody holds any more.
pub(crate) fn sweep_values(values: &mut ValueMap, terms: &Terms)
    requires { IsKnownValue terms.now values.old.entries }
    ensures holders { (j : ℕ) (q : List AnyValue) → holder_in terms.now (value_hold values.new.entries j q) ≡ holder_in terms.now (value_hold values.old.entries j q) }
    ensures known { IsKnownValue terms.now values.new.entries }
    ensures room { spare values.old ≤ spare values.new }
{
    values.retain(|_, holds| any_present(holds, terms));
}

fn any_present(holds: &[Hold; KEYS], terms: &Terms) -> bool
    ensures { result ≡ list_any (is_present terms.now) holds.now }
{
    holds.iter().any(|hold| hold.is_present(terms))
}

/// Takes the actor's holds off the rows, whatever their terms.
pub(crate) fn clear_rows(rows: &mut RowMap, actor: u8)
    ensures holds { (n : ℕ) → row_hold rows.new.entries n ≡ without_actor actor (row_hold rows.old.entries n) }
    ensures room { spare rows.old ≤ spare rows.new }
{
    rows.retain(|_, hold| {
        *hold = hold.without(actor);
        true
    });
}

/// Takes the actor's holds off the values, whatever their terms.
pub(crate) fn clear_values(values: &mut ValueMap, actor: u8)
    ensures holds { (j : ℕ) (q : List AnyValue) → value_hold values.new.entries j q ≡ without_actor actor (value_hold values.old.entries j q) }
    ensures room { spare values.old ≤ spare values.new }
{
    values.retain(|_, holds| {
        *holds = all_without(*holds, actor);
        true
    });
}

fn all_without(holds: [Hold; KEYS], actor: u8) -> [Hold; KEYS]
    ensures { result ≡ map (without_actor actor) holds }
{
    let [first, second, third, fourth] = holds;
    [
        first.without(actor),
        second.without(actor),
        third.without(actor),
        fourth.without(actor),
    ]
}

/// Forgets the rows that nobody holds any more.
pub(crate) fn sweep_rows(rows: &mut RowMap, terms: &Terms)
    requires { IsKnownRow terms.now rows.old.entries }
    ensures holders { (n : ℕ) → holder_in terms.now (row_hold rows.new.entries n) ≡ holder_in terms.now (row_hold rows.old.entries n) }
    ensures known { IsKnownRow terms.now rows.new.entries }
    ensures room { spare rows.old ≤ spare rows.new }
{
    rows.retain(|_, hold| hold.is_present(terms));
}
