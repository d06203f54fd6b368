//! The content after a history, with each actor's open writes.
ghost use Rattle.std.specs.Prelude.{◌≡◌, ℕ, List, ◌<◌, ◌++◌, [], IfOk, OnOk, false, length, slice_set};
ghost use Rattle.s2_model.specs.History.{History, ◌▷◌, pending_after, greatest_in};
ghost use Rattle.s2_model.specs.Table.{apply};
ghost use Rattle.s2_model.specs.Answer.{kept};
ghost use Rattle.s2_model.specs.Held.{sessions};
ghost use Rattle.s2_legal.specs.Keys.{IsIndexed};
ghost use Rattle.s2_legal.specs.Knows.{IsKept, Knows};
ghost use Rattle.s2_legal.specs.World.{open_of, flag_of, view_in, sees_in, holder_in};

use crate::index::{KeyIndex, commit_puts, list_none, list_puts, no_puts};
use crate::opens::OpenWrites;
use crate::tables::{Rows, all_rows, has_row, kept_rows};
use s2_model::{Change, Condition, Entry, What};
use s2_slow::{apply, kept, number_of, sessions};
use s2_value::{ColList, Memory, Row, Schema};
use std::alloc::Global;
use std::collections::BTreeMap;
use std::mem;

/// How many actors a number of eight bits tells apart.
const ACTORS: usize = 256;

/// The content, the open writes of each actor, the greatest row number in any write, and of each actor whether it is in a transaction that writes and whether it reads at a pin.
/// Beside them the row numbers by values of the unique keys: those of the content, and of each actor those that its open writes put.
#[derive(Drop)]
pub struct World {
    pub rows: Rows,
    pub writes: Vec<OpenWrites>,
    pub greatest: u64,
    pub running: Vec<bool>,
    pub pinned: Vec<bool>,
    pub index: KeyIndex,
    pub puts: Vec<KeyIndex>,
}

fn no_writes(alloc: Global) -> Result<Vec<OpenWrites>, Memory>
    ensures actors { IfOk result (λ ws. length ws.items ≡ 256) }
    ensures none { IfOk result (λ ws. (k : ℕ) → open_of ws.items k ≡ []) }
{
    let mut writes = Vec::with_capacity(alloc, ACTORS)?;
    for _i in 0..ACTORS {
        writes.push(OpenWrites::new(alloc))?;
    }
    Ok(writes)
}

fn no_flags(alloc: Global) -> Result<Vec<bool>, Memory>
    ensures actors { IfOk result (λ flags. length flags.items ≡ 256) }
    ensures none { IfOk result (λ flags. (k : ℕ) → flag_of flags.items k ≡ false) }
{
    let mut flags = Vec::with_capacity(alloc, ACTORS)?;
    for _i in 0..ACTORS {
        flags.push(false)?;
    }
    Ok(flags)
}

fn greatest_in(changes: &[Change], was: u64) -> u64
    ensures { result ≡ greatest_in changes.now was }
{
    let mut greatest = was;
    let mut left = changes;
    while let [change, rest @ ..] = left {
        greatest = greatest.max(number_of(change));
        left = rest;
    }
    greatest
}

impl World {
    /// Before the first entry.
    #[tactic(auto, using(crate::proofs::Indexes::indexed_none))]
    pub(crate) fn new(alloc: Global, schema: &Schema) -> Result<World, Memory>
        ensures { IfOk result (λ w. Knows schema.now w []) }
    {
        Ok(World {
            rows: BTreeMap::new(alloc),
            writes: no_writes(alloc)?,
            greatest: 0,
            running: no_flags(alloc)?,
            pinned: no_flags(alloc)?,
            index: BTreeMap::new(alloc),
            puts: no_puts(alloc)?,
        })
    }

    /// Whether the actor is in a transaction that writes.
    pub(crate) fn is_running(&self, k: u8) -> bool
        requires { length self.now.running.items ≡ 256 }
        ensures { result ≡ flag_of self.now.running.items k }
    {
        self.running[usize::from(k)]
    }

    /// Whether the actor reads at a pin.
    pub(crate) fn is_pinned(&self, k: u8) -> bool
        requires { length self.now.pinned.items ≡ 256 }
        ensures { result ≡ flag_of self.now.pinned.items k }
    {
        self.pinned[usize::from(k)]
    }

    fn write(
        &mut self,
        alloc: Global,
        keys: &[ColList],
        k: usize,
        changes: &[Change],
    ) -> Result<(), Memory>
        requires writes { k < length self.old.writes.items }
        requires puts { k < length self.old.puts.items }
        ensures open_writes { OnOk result (self.new.writes.items ≡ slice_set self.old.writes.items k (open_of self.old.writes.items k ++ changes.now)) }
        ensures number { OnOk result (self.new.greatest ≡ greatest_in changes.now self.old.greatest) }
        ensures rows { OnOk result (self.new.rows.entries ≡ self.old.rows.entries) }
        ensures running { OnOk result (self.new.running.items ≡ self.old.running.items) }
        ensures pinned { OnOk result (self.new.pinned.items ≡ self.old.pinned.items) }
        ensures indexed { OnOk result (IsIndexed keys.now self.old.rows.entries self.old.writes.items self.old.index self.old.puts.items → IsIndexed keys.now self.new.rows.entries self.new.writes.items self.new.index self.new.puts.items) }
    {
        self.writes[k].extend(alloc, changes)?;
        list_puts(&mut self.puts, alloc, keys, k, changes)?;
        self.greatest = greatest_in(changes, self.greatest);
        Ok(())
    }

    fn commit(&mut self, alloc: Global, keys: &[ColList], k: usize) -> Result<(), Memory>
        requires writes { k < length self.old.writes.items }
        requires puts { k < length self.old.puts.items }
        ensures open_writes { OnOk result (self.new.writes.items ≡ slice_set self.old.writes.items k []) }
        ensures number { OnOk result (self.new.greatest ≡ self.old.greatest) }
        ensures rows { OnOk result (self.new.rows.entries ≡ apply self.old.rows.entries (open_of self.old.writes.items k)) }
        ensures running { OnOk result (self.new.running.items ≡ self.old.running.items) }
        ensures pinned { OnOk result (self.new.pinned.items ≡ self.old.pinned.items) }
        ensures indexed { OnOk result (IsIndexed keys.now self.old.rows.entries self.old.writes.items self.old.index self.old.puts.items → IsIndexed keys.now self.new.rows.entries self.new.writes.items self.new.index self.new.puts.items) }
    {
        let open = mem::replace(&mut self.writes[k], OpenWrites::new(alloc));
        commit_puts(
            &mut self.rows,
            &mut self.index,
            &mut self.puts,
            alloc,
            keys,
            k,
            open.into_changes(),
        )
    }

    fn forget(&mut self, alloc: Global, k: usize)
        requires writes { k < length self.old.writes.items }
        requires puts { k < length self.old.puts.items }
        ensures open_writes { self.new.writes.items ≡ slice_set self.old.writes.items k [] }
        ensures number { self.new.greatest ≡ self.old.greatest }
        ensures rows { self.new.rows.entries ≡ self.old.rows.entries }
        ensures running { self.new.running.items ≡ self.old.running.items }
        ensures pinned { self.new.pinned.items ≡ self.old.pinned.items }
        ensures indexed { (keys : List (List ℕ)) → IsIndexed keys self.old.rows.entries self.old.writes.items self.old.index self.old.puts.items → IsIndexed keys self.new.rows.entries self.new.writes.items self.new.index self.new.puts.items }
    {
        self.writes[k] = OpenWrites::new(alloc);
        list_none(&mut self.puts, alloc, k);
    }

    /// After one entry more. After want of memory the world is of no history.
    pub(crate) fn step(
        &mut self,
        alloc: Global,
        schema: &Schema,
        entry: &Entry,
    ) -> Result<(), Memory>
        requires { IsKept schema.now self.old }
        ensures { OnOk result ((H : History) → Knows schema.now self.old H → Knows schema.now self.new (H ▷ entry.now)) }
    {
        let keys = schema.uniques.as_slice();
        let k = usize::from(entry.actor);
        match &entry.what {
            What::Begin => {
                self.forget(alloc, k);
                self.running[k] = true;
            }
            What::Write(changes) => self.write(alloc, keys, k, changes.as_slice())?,
            What::Commit => {
                self.commit(alloc, keys, k)?;
                self.running[k] = false;
            }
            What::Rollback => {
                self.forget(alloc, k);
                self.running[k] = false;
            }
            What::Pin => self.pinned[k] = true,
            What::Unpin => self.pinned[k] = false,
            _ => {}
        }
        Ok(())
    }
}

/// The rows that match among those that the actor sees. Where the actor has no open writes, only these are copied.
pub(crate) fn matching(
    alloc: Global,
    world: &World,
    k: u8,
    pred: &Condition,
) -> Result<Vec<(u64, Row)>, Memory>
    requires { length world.now.writes.items ≡ 256 }
    ensures { IfOk result (λ v. v.items ≡ kept pred.now (view_in world.now.rows.entries world.now.writes.items k)) }
{
    let own = world.writes[usize::from(k)].as_slice();
    if own.len() == 0 {
        return kept_rows(alloc, &world.rows, pred);
    }
    let mut rows = all_rows(alloc, &world.rows)?;
    apply(&mut rows, own)?;
    kept(alloc, pred, &rows)
}

/// Whether the actor sees a row of this number.
#[tactic(auto, using(crate::proofs::Worlds::left_row))]
pub(crate) fn sees(world: &World, k: u8, number: u64) -> bool
    requires { length world.now.writes.items ≡ 256 }
    ensures { result ≡ sees_in world.now.rows.entries world.now.writes.items k number }
{
    let was = has_row(&world.rows, number);
    world.writes[usize::from(k)].is_left(number, was)
}

/// The least session but this one that holds the row.
pub(crate) fn holder(world: &World, k: u8, number: u64) -> Option<u8>
    requires { length world.now.writes.items ≡ 256 }
    ensures { result ≡ holder_in world.now.writes.items k number }
{
    let actors = sessions();
    let mut left = actors.as_slice();
    while let [other, rest @ ..] = left {
        if *other != k && world.writes[usize::from(*other)].touches(number) {
            return Some(*other);
        }
        left = rest;
    }
    None
}
