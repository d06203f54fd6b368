// The row numbers of one key: one number takes no set, since most keys have no second.
ghost use Rattle.std.specs.Prelude.{◌≡◌, ℕ, ◌∷◌, [], ◌==◌, true, false, OnOk, IfOk, Some};
ghost use Rattle.s2_rowstore.specs.Keys.{has_id};
ghost use Rattle.s2_rowstore.specs.Ids.{numbers_held};

use s2_value::Memory;
use std::alloc::Global;
use std::collections::BTreeSet;
use std::marker::Model;

/// The row numbers of one key, rising.
#[derive(Drop)]
pub(crate) struct Ids {
    held: Held,
}

/// One number, or a set of any number of them.
#[derive(Drop)]
pub(crate) enum Held {
    One(u64),
    Many(Box<BTreeSet<u64>>),
}

impl Model for Ids {
    ghost use Rattle.std.specs.Prelude.{List, ℕ};

    ghost Value = { List ℕ };

    ghost use Rattle.s2_rowstore.specs.Ids.{numbers_held};

    ghost view = { λ ids. numbers_held ids.held };
}

/// Puts the row number into the set.
pub(crate) fn put_id(ids: &mut BTreeSet<u64>, id: u64) -> Result<(), Memory>
    ensures kept { (n : ℕ) → has_id n (Some ids.old.keys) ≡ true → has_id n (Some ids.new.keys) ≡ true }
    ensures added { OnOk result (has_id id (Some ids.new.keys) ≡ true) }
{
    ids.insert(id)?;
    Ok(())
}

// Takes the row number out of the set, and answers whether none is left.
fn drop_id(ids: &mut BTreeSet<u64>, id: u64) -> bool
    ensures kept { (n : ℕ) → has_id n (Some ids.old.keys) ≡ true → (id == n) ≡ false → has_id n (Some ids.new.keys) ≡ true }
    ensures none { result ≡ true → ids.new.keys ≡ [] }
{
    let _ = ids.remove(&id);
    ids.is_empty()
}

// The set of two row numbers.
fn pair(alloc: Global, first: u64, second: u64) -> Result<BTreeSet<u64>, Memory>
    ensures first { IfOk result (λ ids. has_id first (Some ids.keys) ≡ true) }
    ensures second { IfOk result (λ ids. has_id second (Some ids.keys) ≡ true) }
{
    let mut ids = BTreeSet::new(alloc);
    put_id(&mut ids, first)?;
    put_id(&mut ids, second)?;
    Ok(ids)
}

// Puts the row number among these.
fn put_held(held: &mut Held, alloc: Global, id: u64) -> Result<(), Memory>
    ensures kept { (n : ℕ) → has_id n (Some (numbers_held held.old)) ≡ true → has_id n (Some (numbers_held held.new)) ≡ true }
    ensures added { OnOk result (has_id id (Some (numbers_held held.new)) ≡ true) }
{
    let only = match held {
        Held::One(only) => *only,
        Held::Many(ids) => return put_id(ids, id),
    };
    if only != id {
        *held = Held::Many(Box::new(alloc, pair(alloc, only, id)?)?);
    }
    Ok(())
}

// Takes the row number out of a set, and answers whether no other is left.
fn drop_held(held: &mut Held, id: u64) -> bool
    ensures kept { (n : ℕ) → has_id n (Some (numbers_held held.old)) ≡ true → (id == n) ≡ false → has_id n (Some (numbers_held held.new)) ≡ true }
    ensures none { result ≡ true → (n : ℕ) → has_id n (Some (numbers_held held.new)) ≡ true → (id == n) ≡ true }
{
    match held {
        Held::One(only) => *only == id,
        Held::Many(ids) => drop_id(ids, id),
    }
}

impl Ids {
    /// This row number alone.
    pub(crate) fn one(id: u64) -> Ids
        ensures { result ≡ id ∷ [] }
    {
        Ids {
            held: Held::One(id),
        }
    }

    /// One number, or the set of them.
    pub(crate) fn held(&self) -> &Held
        ensures { numbers_held result.now ≡ self.now }
    {
        &self.held
    }

    /// Puts the row number among these. Where there is no memory for it, those before it are left.
    pub(crate) fn insert(&mut self, alloc: Global, id: u64) -> Result<(), Memory>
        ensures kept { (n : ℕ) → has_id n (Some self.old) ≡ true → has_id n (Some self.new) ≡ true }
        ensures added { OnOk result (has_id id (Some self.new) ≡ true) }
    {
        put_held(&mut self.held, alloc, id)
    }

    /// Takes the row number out, and answers whether no other is left: whoever holds these is then to let go of them, and a number that stood alone is still here.
    pub(crate) fn remove(&mut self, id: u64) -> bool
        ensures kept { (n : ℕ) → has_id n (Some self.old) ≡ true → (id == n) ≡ false → has_id n (Some self.new) ≡ true }
        ensures none { result ≡ true → (n : ℕ) → has_id n (Some self.new) ≡ true → (id == n) ≡ true }
    {
        drop_held(&mut self.held, id)
    }
}
