// The row store.
ghost use Rattle.std.specs.Prelude.{◌≡◌, ◌<◌, ◌≤◌, ℕ, ◌++◌, [], None, Some, OnOk, OnErr, IfOk, true, is_some, vec_len, length, List, if◌then◌else◌, ◌==◌};
ghost use Rattle.std.specs.Option.{option_copied, option_map};
ghost use Rattle.s2_rowstore.specs.Chains.{own, chain_after, slot_after, living_since, ended, begun, seen, kept};
ghost use Rattle.s2_rowstore.specs.Store.{chain, slot, rows_fit, changes_fit, slot_put, has_key, can_take};
ghost use Rattle.s2_rowstore.specs.Present.{AreFirst};
ghost use Rattle.s2_value.specs.Schemas.{keys_of};
ghost use Rattle.s2_rowstore.specs.Lines.{for_row, are_apart, names_row};
ghost use Rattle.s2_rowstore.specs.Visible.{are_rising, numbers, lent};

use crate::chain::{Slot, Version};
use crate::copies::copy_schema;
use crate::ends::Ends;
use crate::lines::{
    Lines, begin_all, boxed, commit_all, cut_rows, end_line, lent_rows, put_all, queue_all,
    row_since, rows_with_key, seen_row, undo_all, visible_rows,
};
use crate::notes::Notes;
use crate::numbers::Numbers;
use crate::present::{changed_rows, drop_absent, drop_all_absent, first_free, list_rows};
use crate::ready::{ready_changes, ready_rows};
use s2_value::{Key, Memory, Row, Schema, TableRows, Value};
use std::alloc::Global;
use std::collections::{BTreeMap, BTreeSet};
use std::marker::Model;

/// The number of actors, 1 to 16, and one place before them.
const ACTORS: usize = 17;

/// For each row number its versions by time, and one open write.
#[derive(Drop)]
pub struct Rowstore {
    schema: Schema,
    lines: Lines,
    // By each key of the schema, the numbers of the rows of which some version or open write has it. A write without memory may leave others.
    notes: Vec<Notes>,
    // Room for a key, so that notes are taken back without memory.
    spare: Vec<Value>,
    // By each actor, the numbers of the rows that it has an open write of.
    changed: Vec<BTreeSet<u64>>,
    // The numbers of the rows that have a living version or an open write.
    present: Numbers,
    // The versions that ended, by the time of their end.
    ends: Ends,
}

impl Model for Rowstore {
    ghost use Rattle.s2_rowstore.specs.Store.{Store, IsKept};

    ghost Value = { Store };

    ghost view = { λ s. record { schema = s.schema; lines = s.lines.entries } };

    ghost invariant = { λ s. IsKept s.schema s.notes.items s.changed.items s.present s.ends s.lines.entries };
}

fn no_notes(alloc: Global, count: usize) -> Result<Vec<Notes>, Memory>
    ensures { IfOk result (λ notes. vec_len notes ≡ count) }
{
    let mut notes = Vec::with_capacity(alloc, count)?;
    for _i in 0..count {
        notes.push(BTreeMap::new(alloc))?;
    }
    Ok(notes)
}

fn no_ids(alloc: Global) -> Result<Vec<BTreeSet<u64>>, Memory>
    ensures { IfOk result (λ ids. vec_len ids ≡ 17) }
{
    let mut ids = Vec::with_capacity(alloc, ACTORS)?;
    for _i in 0..ACTORS {
        ids.push(BTreeSet::new(alloc))?;
    }
    Ok(ids)
}

impl Rowstore {
    /// An empty store for rows of this schema.
    #[tactic(auto, unfolding(crate::specs::Store::chain, crate::specs::Store::slot))]
    pub fn new(alloc: Global, schema: &Schema) -> Result<Rowstore, Memory>
        ensures schema { IfOk result (λ s. s.schema ≡ schema.now) }
        ensures chains { IfOk result (λ s. (n : ℕ) → chain s n ≡ []) }
        ensures slots { IfOk result (λ s. (n : ℕ) → slot s n ≡ None) }
    {
        let notes = no_notes(alloc, schema.keys())?;
        let spare = Vec::with_capacity(alloc, schema.cols.len())?;
        let changed = no_ids(alloc)?;
        let schema = copy_schema(alloc, schema)?;
        Ok(Rowstore {
            schema,
            lines: BTreeMap::new(alloc),
            notes,
            spare,
            changed,
            present: Numbers::new(alloc),
            ends: Ends::new(alloc),
        })
    }

    /// When the living version of the row began, and none where it has none.
    #[tactic(auto, unfolding(crate::specs::Store::chain))]
    pub fn begun(&self, id: u64) -> Option<u64>
        ensures { result ≡ living_since (chain self.now id) }
    {
        row_since(&self.lines, id)
    }

    /// The row as the actor sees it at `r`: its own open write, or else the version at `r`.
    #[tactic(auto, unfolding(crate::specs::Store::chain, crate::specs::Store::slot))]
    pub fn visible_row(&self, id: u64, actor: u8, r: u64) -> Option<&Row>
        ensures { option_copied result ≡ seen actor r (chain self.now id, slot self.now id) }
    {
        seen_row(&self.lines, id, actor, r)
    }

    /// The actor's open writes take effect at `time`.
    #[tactic(auto, unfolding(crate::specs::Store::chain, crate::specs::Store::slot))]
    pub fn commit(&mut self, actor: u8, time: u64)
        requires { actor < 17 }
        ensures schema { self.new.schema ≡ self.old.schema }
        ensures chains { (n : ℕ) → chain self.new n ≡ chain_after time (own actor (slot self.old n)) (chain self.old n) }
        ensures slots { (n : ℕ) → slot self.new n ≡ slot_after actor (slot self.old n) }
    {
        let ids = &mut self.changed[actor as usize];
        commit_all(&mut self.lines, ids, actor, time);
        queue_all(&mut self.ends, &self.lines, ids, time);
        drop_all_absent(&mut self.present, &self.lines, ids);
        ids.clear();
    }

    /// The actor's open writes are forgotten.
    #[tactic(auto, unfolding(crate::specs::Store::chain, crate::specs::Store::slot))]
    pub fn undo(&mut self, actor: u8)
        requires { actor < 17 }
        ensures schema { self.new.schema ≡ self.old.schema }
        ensures chains { (n : ℕ) → chain self.new n ≡ chain self.old n }
        ensures slots { (n : ℕ) → slot self.new n ≡ slot_after actor (slot self.old n) }
    {
        let ids = &mut self.changed[actor as usize];
        let notes = self.notes.as_mut_slice();
        undo_all(
            &mut self.lines,
            notes,
            &mut self.spare,
            &self.schema,
            ids,
            actor,
        );
        drop_all_absent(&mut self.present, &self.lines, ids);
        ids.clear();
    }

    /// The row's living version ends at `time`.
    #[tactic(auto, unfolding(crate::specs::Store::chain, crate::specs::Store::slot))]
    pub fn end_at(&mut self, id: u64, time: u64)
        ensures schema { self.new.schema ≡ self.old.schema }
        ensures chains { (n : ℕ) → chain self.new n ≡ (if id == n then ended time (chain self.old n) else chain self.old n) }
        ensures slots { (n : ℕ) → slot self.new n ≡ slot self.old n }
    {
        end_line(&mut self.lines, id, time);
        self.ends.push(time, id);
        drop_absent(&mut self.present, &self.lines, id);
    }

    /// Begins a version of each of the rows at `time`.
    #[tactic(auto, unfolding(crate::specs::Store::chain, crate::specs::Store::slot))]
    pub fn place(&mut self, alloc: Global, rows: Vec<(u64, Row)>, time: u64) -> Result<(), Memory>
        requires fits { rows_fit self.old.schema rows.items ≡ true }
        requires apart { are_apart rows.items ≡ true }
        ensures schema { self.new.schema ≡ self.old.schema }
        ensures chains { OnOk result ((n : ℕ) → chain self.new n ≡ chain self.old n ++ begun time (for_row rows.items n)) }
        ensures slots { (n : ℕ) → slot self.new n ≡ slot self.old n }
        ensures memory { OnErr result ((n : ℕ) → chain self.new n ≡ chain self.old n) }
    {
        list_rows(
            &mut self.present,
            &mut self.ends,
            &self.changed,
            rows.as_slice(),
        )?;
        let notes = self.notes.as_mut_slice();
        ready_rows(&mut self.lines, notes, alloc, &self.schema, rows.as_slice())?;
        begin_all(&mut self.lines, rows, time);
        Ok(())
    }

    /// Sets the actor's open write of each of the rows: a row that is put, or none where the row is dropped.
    #[tactic(auto, unfolding(crate::specs::Store::chain, crate::specs::Store::slot))]
    pub fn put_slots(
        &mut self,
        alloc: Global,
        actor: u8,
        changes: Vec<(u64, Option<Row>)>,
    ) -> Result<(), Memory>
        requires actor { actor < 17 }
        requires fits { changes_fit self.old.schema changes.items ≡ true }
        requires apart { are_apart changes.items ≡ true }
        ensures schema { self.new.schema ≡ self.old.schema }
        ensures chains { (n : ℕ) → chain self.new n ≡ chain self.old n }
        ensures slots { OnOk result ((n : ℕ) → slot self.new n ≡ slot_put actor (for_row changes.items n) (slot self.old n)) }
        ensures memory { OnErr result ((n : ℕ) → slot self.new n ≡ slot self.old n) }
    {
        list_rows(
            &mut self.present,
            &mut self.ends,
            &self.changed,
            changes.as_slice(),
        )?;
        let ids = &mut self.changed[actor as usize];
        let notes = self.notes.as_mut_slice();
        ready_changes(
            &mut self.lines,
            notes,
            ids,
            alloc,
            &self.schema,
            changes.as_slice(),
        )?;
        let changes = boxed(alloc, changes)?;
        put_all(
            &mut self.lines,
            notes,
            &mut self.spare,
            &self.schema,
            actor,
            changes,
        );
        Ok(())
    }

    /// The rows as the actor sees them at `r`: its own open writes, or else the versions at `r`.
    #[tactic(auto, unfolding(crate::specs::Store::chain, crate::specs::Store::slot))]
    pub fn visible(&self, alloc: Global, actor: u8, r: u64) -> Result<TableRows, Memory>
        ensures rows { IfOk result (λ rows. (n : ℕ) → for_row rows n ≡ seen actor r (chain self.now n, slot self.now n)) }
        ensures rising { IfOk result (λ rows. are_rising (numbers rows) ≡ true) }
    {
        visible_rows(&self.lines, alloc, actor, r)
    }

    /// The rows as the actor sees them at `r`, lent: none is copied.
    #[tactic(auto, unfolding(crate::specs::Store::chain, crate::specs::Store::slot))]
    pub fn seen_rows(&self, alloc: Global, actor: u8, r: u64) -> Result<Vec<(u64, &Row)>, Memory>
        ensures rows { IfOk result (λ rows. (n : ℕ) → for_row (lent rows.items) n ≡ seen actor r (chain self.now n, slot self.now n)) }
        ensures rising { IfOk result (λ rows. are_rising (numbers (lent rows.items)) ≡ true) }
    {
        lent_rows(&self.lines, alloc, actor, r)
    }

    /// The numbers of the rows, rising, of which the actor has an open write.
    #[tactic(auto, unfolding(crate::specs::Store::chain, crate::specs::Store::slot))]
    pub fn changed(&self, alloc: Global, actor: u8) -> Result<Vec<u64>, Memory>
        requires { actor < 17 }
        ensures rows { IfOk result (λ ids. (n : ℕ) → names_row ids.items n ≡ is_some (own actor (slot self.now n))) }
        ensures rising { IfOk result (λ ids. are_rising ids.items ≡ true) }
    {
        changed_rows(&self.lines, alloc, &self.changed[actor as usize], actor)
    }

    /// The numbers, rising, of the first rows above `from` that have a living version which began by `r` and no open write, at most `most` of them.
    #[tactic(auto, unfolding(crate::specs::Store::can_take))]
    pub fn take_after(
        &self,
        alloc: Global,
        from: u64,
        r: u64,
        most: usize,
    ) -> Result<Vec<u64>, Memory>
        ensures { IfOk result (λ ids. AreFirst most (can_take self.now from r) ids.items) }
    {
        first_free(&self.lines, alloc, &self.present, from, r, most)
    }

    /// The numbers of the rows, rising, of which some kept version or open write has the key `j`: unique keys, then indexes, from 0.
    #[tactic(auto, unfolding(crate::specs::Store::has_key))]
    pub fn with_key(
        &self,
        alloc: Global,
        schema: &Schema,
        j: usize,
        key: &Key,
    ) -> Result<Vec<u64>, Memory>
        requires same { schema.now ≡ self.now.schema }
        requires number { j < length (keys_of self.now.schema) }
        ensures rows { IfOk result (λ ids. (n : ℕ) → names_row ids.items n ≡ has_key self.now j key.now n) }
        ensures rising { IfOk result (λ ids. are_rising ids.items ≡ true) }
    {
        let Some(ids) = self.notes[j].get(key) else {
            return Ok(Vec::new(alloc));
        };
        let places = schema.key_columns(j).as_slice();
        rows_with_key(&self.lines, alloc, ids, places, key.as_slice())
    }

    /// Forgets the versions that ended at or before `h`.
    #[tactic(auto, unfolding(crate::specs::Store::chain, crate::specs::Store::slot))]
    pub fn cut(&mut self, h: u64)
        ensures schema { self.new.schema ≡ self.old.schema }
        ensures chains { (n : ℕ) → chain self.new n ≡ kept h (chain self.old n) }
        ensures slots { (n : ℕ) → slot self.new n ≡ slot self.old n }
    {
        let notes = self.notes.as_mut_slice();
        cut_rows(
            &mut self.lines,
            &mut self.ends,
            notes,
            &mut self.spare,
            &self.schema,
            h,
        );
    }
}
