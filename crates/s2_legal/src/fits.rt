//! Whether entries fit the history before them.
ghost use Rattle.std.specs.Prelude.{◌≡◌, ◌↔◌, ◌≤◌, ◌<◌, ◌||◌, ◌&&◌, ◌==◌, IsTrue, IfOk, MatchOption, not, true, suc, length, map, filter, take, nat_lt, nat_le};
ghost use Rattle.std.specs.List.{list_all};
ghost use Rattle.s2_model.specs.declared.scripts.Options.{Options};
ghost use Rattle.s2_model.specs.Table.{number_of};
ghost use Rattle.s2_model.specs.History.{history, is_session};
ghost use Rattle.s2_model.specs.Fits.{rise, put_fits, put_on_from, follows_write, is_write, Fits, AllFit};
ghost use Rattle.s2_legal.specs.Built.{is_built_what, are_built};
ghost use Rattle.s2_legal.specs.Faults.{IsFirstUnfit};
ghost use Rattle.s2_legal.specs.Lasts.{is_put};
ghost use Rattle.s2_legal.specs.Knows.{IsKept, Knows};
ghost use Rattle.s2_legal.specs.World.{flag_of, is_writable_in, write_fits_in};

use crate::world::{World, holder, sees};
use s2_model::{Change, Entry, What};
use s2_slow::number_of;
use s2_value::{Memory, Schema};
use std::alloc::Global;

/// The most changes of a WRITE.
const MOST_CHANGES: usize = 65_536;

fn is_session(k: u8) -> bool
    ensures { result ≡ is_session k }
{
    1 <= k && k <= 16
}

fn put_fits(schema: &Schema, change: &Change) -> bool
    ensures { result ≡ put_fits schema.now change.now }
{
    match change {
        Change::Put(_, row) => schema.fits(row),
        Change::Drop(_) => true,
    }
}

fn rows_fit(schema: &Schema, changes: &[Change]) -> bool
    ensures { result ≡ list_all (put_fits schema.now) changes.now }
{
    let mut left = changes;
    while let [change, rest @ ..] = left {
        if !put_fits(schema, change) {
            return false;
        }
        left = rest;
    }
    true
}

fn rise(changes: &[Change]) -> bool
    ensures { result ≡ rise (map number_of changes.now) }
{
    let [first, rest @ ..] = changes else {
        return true;
    };
    let mut last = number_of(first);
    let mut left = rest;
    while let [change, rest @ ..] = left {
        let number = number_of(change);
        if number <= last {
            return false;
        }
        last = number;
        left = rest;
    }
    true
}

/// Whether the row is new, or the actor sees it and nobody else holds it.
fn can_write(world: &World, k: u8, number: u64) -> bool
    requires { length world.now.writes.items ≡ 256 }
    ensures { result ≡ (nat_lt world.now.greatest number || is_writable_in world.now.rows.entries world.now.writes.items k number) }
{
    number > world.greatest || (sees(world, k, number) && holder(world, k, number).is_none())
}

fn all_writable(world: &World, k: u8, changes: &[Change]) -> bool
    requires { length world.now.writes.items ≡ 256 }
    ensures { result ≡ list_all (λ c. nat_lt world.now.greatest (number_of c) || is_writable_in world.now.rows.entries world.now.writes.items k (number_of c)) changes.now }
{
    let mut left = changes;
    while let [change, rest @ ..] = left {
        if !can_write(world, k, number_of(change)) {
            return false;
        }
        left = rest;
    }
    true
}

fn is_put_of(change: &Change, number: u64) -> bool
    ensures { result ≡ (is_put change.now && number_of change.now == number) }
{
    match change {
        Change::Put(other, _) => *other == number,
        Change::Drop(_) => false,
    }
}

/// Whether the changes of new rows are Puts whose numbers run on from the greatest.
fn run_on(greatest: u64, changes: &[Change]) -> bool
    ensures { result ≡ put_on_from (suc greatest) (filter (λ c. nat_le (suc greatest) (number_of c)) changes.now) }
{
    let mut last = greatest;
    let mut left = changes;
    while let [change, rest @ ..] = left {
        let number = number_of(change);
        if number > greatest {
            if number - 1 != last || !is_put_of(change, number) {
                return false;
            }
            last = number;
        }
        left = rest;
    }
    true
}

fn write_fits(schema: &Schema, world: &World, k: u8, changes: &[Change]) -> bool
    requires { IsKept schema.now world.now }
    ensures { result ≡ write_fits_in schema.now world.now.rows.entries world.now.writes.items world.now.greatest (flag_of world.now.pinned.items k) k changes.now }
{
    is_session(k)
        && !world.is_pinned(k)
        && changes.len() > 0
        && changes.len() <= MOST_CHANGES
        && rise(changes)
        && rows_fit(schema, changes)
        && all_writable(world, k, changes)
        && run_on(world.greatest, changes)
}

fn is_write(what: &What) -> bool
    ensures { result ≡ is_write what.now }
{
    match what {
        What::Write(_) => true,
        _ => false,
    }
}

/// Whether the entry before this place is a write of the actor.
fn follows_write(h: &[Entry], i: usize, k: u8) -> bool
    requires { i ≤ length h.now }
    ensures { result ≡ follows_write (history (take i h.now)) k }
{
    if i == 0 {
        return false;
    }
    let entry = &h[i - 1];
    entry.actor == k && is_write(&entry.what)
}

/// Whether a session may begin a transaction: it is in none.
fn may_begin(world: &World, k: u8) -> bool
    requires running { length world.now.running.items ≡ 256 }
    requires pinned { length world.now.pinned.items ≡ 256 }
    ensures { result ≡ (is_session k && not (flag_of world.now.running.items k) && not (flag_of world.now.pinned.items k)) }
{
    is_session(k) && !world.is_running(k) && !world.is_pinned(k)
}

/// Whether an entry fits the first `i` entries.
fn fits(schema: &Schema, world: &World, h: &[Entry], i: usize, entry: &Entry) -> bool
    requires kept { IsKept schema.now world.now }
    requires place { i ≤ length h.now }
    requires built { is_built_what entry.now.what ≡ true }
    ensures { (options : Options) → Knows schema.now world.now (history (take i h.now)) → are_built (history (take i h.now)) ≡ true → AllFit schema.now options (history (take i h.now)) → (IsTrue result ↔ Fits schema.now options (history (take i h.now)) entry.now) }
{
    let k = entry.actor;
    match &entry.what {
        What::Begin => may_begin(world, k),
        What::Write(changes) => write_fits(schema, world, k, changes.as_slice()),
        What::Commit => world.is_running(k) || follows_write(h, i, k),
        What::Rollback => world.is_running(k),
        What::Pin => may_begin(world, k),
        What::Unpin => world.is_pinned(k),
        _ => false,
    }
}

/// The first entry, counted from 1, that doesn't fit the history before it.
pub(crate) fn first_unfit(
    alloc: Global,
    schema: &Schema,
    h: &[Entry],
) -> Result<Option<u64>, Memory>
    requires { are_built h.now ≡ true }
    ensures { IfOk result (λ o. (options : Options) → MatchOption o (AllFit schema.now options (history h.now)) (λ n. IsFirstUnfit schema.now options (history h.now) n)) }
{
    let mut world = World::new(alloc, schema)?;
    for (i, entry) in h.iter().enumerate() {
        if !fits(schema, &world, h, i, entry) {
            return Ok(Some(i as u64 + 1));
        }
        world.step(alloc, schema, entry)?;
    }
    Ok(None)
}
