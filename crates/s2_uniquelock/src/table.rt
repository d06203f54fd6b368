// The table of holders.
ghost use Rattle.std.specs.Prelude.{◌≡◌, ℕ, ◌+◌, ◌<◌, ◌≤◌, List, None, Some, length, vec_len, true, All, OnOk, if◌then◌else◌};
ghost use Rattle.s2_value.specs.declared.values.Value.{Value as AnyValue};
ghost use Rattle.s2_uniquelock.specs.Locks.{row_holder, value_keeper, without, IsFreeFor, names_row, names_value};

use crate::hold::{
    ACTORS, Hold, RowMap, Terms, ValueMap, clear_rows, clear_values, hold_of_row, hold_of_value,
    holder, sweep_rows, sweep_values, take_rows, take_values,
};
use s2_value::{Key, Memory};
use std::alloc::Global;
use std::collections::HashMap;
use std::hash::BuildHasherDefault;
use std::marker::Model;

/// Who holds which rows, and which values of the unique keys, numbered from 0.
///
/// Contracts see it by look-ups, `row_holder` and `value_keeper`, and its room for more rows and values.
#[derive(Drop)]
pub struct LockTable {
    rows: RowMap,
    values: ValueMap,
    terms: Terms,
    // How many holds each actor took in its present term, and how many ended since the last sweep.
    taken: [u64; ACTORS],
    freed: u64,
}

impl Model for LockTable {
    ghost use Rattle.std.specs.HashMap.{spare};
    ghost use Rattle.s2_uniquelock.specs.Locks.{Locks, IsKept};

    ghost Value = { Locks };

    ghost view = { λ a. record { rows = a.rows.entries; values = a.values.entries; terms = a.terms; row_room = spare a.rows; value_room = spare a.values } };

    ghost invariant = { λ a. IsKept (record { rows = a.rows.entries; values = a.values.entries; terms = a.terms; row_room = spare a.rows; value_room = spare a.values }) };
}

impl LockTable {
    /// A table in which nobody holds anything.
    #[tactic(auto, unfolding(crate::specs::Locks::row_holder, crate::specs::Locks::value_keeper))]
    pub fn new(alloc: Global) -> LockTable
        ensures rows { (n : ℕ) → row_holder result n ≡ None }
        ensures values { (j : ℕ) (key : List AnyValue) → value_keeper result j key ≡ None }
    {
        LockTable {
            rows: HashMap::new(alloc),
            values: HashMap::with_hasher(alloc, BuildHasherDefault::new()),
            terms: [0; ACTORS],
            taken: [0; ACTORS],
            freed: 0,
        }
    }

    /// Who holds the row.
    #[tactic(auto, unfolding(crate::specs::Locks::row_holder))]
    pub fn holder_of_row(&self, id: u64) -> Option<u8>
        ensures { result ≡ row_holder self.now id }
    {
        holder(&self.terms, hold_of_row(&self.rows, id))
    }

    /// Who holds the value of key `j`.
    #[tactic(auto, unfolding(crate::specs::Locks::value_keeper))]
    pub fn holder_of_value(&self, j: u8, key: &Key) -> Option<u8>
        requires { j < 4 }
        ensures { result ≡ value_keeper self.now j key.now }
    {
        holder(&self.terms, hold_of_value(&self.values, j, key))
    }

    /// Makes room for `k` more rows and `k` more values.
    #[tactic(auto, unfolding(crate::specs::Locks::row_holder, crate::specs::Locks::value_keeper))]
    pub fn spare(&mut self, k: u32) -> Result<(), Memory>
        ensures room { OnOk result ((k ≤ self.new.row_room) × (k ≤ self.new.value_room)) }
        ensures kept { (self.old.row_room ≤ self.new.row_room) × (self.old.value_room ≤ self.new.value_room) }
        ensures rows { (n : ℕ) → row_holder self.new n ≡ row_holder self.old n }
        ensures values { (j : ℕ) (key : List AnyValue) → value_keeper self.new j key ≡ value_keeper self.old j key }
    {
        self.sweep();
        self.rows.reserve(k as usize)?;
        self.values.reserve(k as usize)
    }

    // Forgets what is free where it is a great part of the maps: this costs no more than what ended since the last time.
    #[tactic(auto, unfolding(crate::specs::Locks::row_holder, crate::specs::Locks::value_keeper))]
    fn sweep(&mut self)
        ensures kept { (self.old.row_room ≤ self.new.row_room) × (self.old.value_room ≤ self.new.value_room) }
        ensures rows { (n : ℕ) → row_holder self.new n ≡ row_holder self.old n }
        ensures values { (j : ℕ) (key : List AnyValue) → value_keeper self.new j key ≡ value_keeper self.old j key }
    {
        if self.freed < self.rows.capacity() as u64 / 2 + self.values.capacity() as u64 / 2 {
            return;
        }
        sweep_rows(&mut self.rows, &self.terms);
        sweep_values(&mut self.values, &self.terms);
        self.freed = 0;
    }

    /// The actor takes these rows and these values of keys. What it holds already it still holds once.
    #[tactic(auto, unfolding(crate::specs::Locks::row_holder, crate::specs::Locks::value_keeper))]
    pub fn take(&mut self, actor: u8, ids: &[u64], keys: Vec<(u8, Key)>)
        requires actor { (0 < actor) × (actor < 17) }
        requires numbers { All (λ p. p.0 < 4) keys.items }
        requires rows { (n : ℕ) → names_row ids.now n ≡ true → IsFreeFor actor (row_holder self.old n) }
        requires values { (j : ℕ) (key : List AnyValue) → names_value keys.items j key ≡ true → IsFreeFor actor (value_keeper self.old j key) }
        requires room { (length ids.now ≤ self.old.row_room) × (vec_len keys ≤ self.old.value_room) }
        ensures rows { (n : ℕ) → row_holder self.new n
            ≡ (if names_row ids.now n then Some actor else row_holder self.old n) }
        ensures values { (j : ℕ) (key : List AnyValue) → value_keeper self.new j key
            ≡ (if names_value keys.items j key then Some actor else value_keeper self.old j key) }
        ensures room { (self.old.row_room ≤ self.new.row_room + length ids.now) × (self.old.value_room ≤ self.new.value_room + vec_len keys) }
    {
        let hold = Hold {
            actor,
            term: self.terms[actor as usize],
        };
        let count = ids.len() as u64;
        self.taken[actor as usize] = self.taken[actor as usize]
            .saturating_add(count)
            .saturating_add(keys.len() as u64);
        take_rows(&mut self.rows, hold, ids);
        take_values(&mut self.values, hold, keys);
    }

    /// The actor holds nothing any more.
    #[tactic(auto, unfolding(crate::specs::Locks::row_holder, crate::specs::Locks::value_keeper))]
    pub fn free_all(&mut self, actor: u8)
        requires actor { (0 < actor) × (actor < 17) }
        ensures rows { (n : ℕ) → row_holder self.new n ≡ without actor (row_holder self.old n) }
        ensures values { (j : ℕ) (key : List AnyValue) → value_keeper self.new j key ≡ without actor (value_keeper self.old j key) }
        ensures room { (self.old.row_room ≤ self.new.row_room) × (self.old.value_room ≤ self.new.value_room) }
    {
        let place = actor as usize;
        self.freed = self.freed.saturating_add(self.taken[place]);
        self.taken[place] = 0;
        if self.terms[place] == u64::MAX {
            clear_rows(&mut self.rows, actor);
            clear_values(&mut self.values, actor);
        } else {
            self.terms[place] += 1;
        }
    }
}
