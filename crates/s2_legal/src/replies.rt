//! Whether a reply and the entries after it are right.
ghost use Rattle.std.specs.Prelude.{◌≡◌, ◌↔◌, ◌≤◌, ◌||◌, ◌==◌, IsTrue, IfOk, IfSome, OnOk, not, true, length, take};
ghost use Rattle.std.specs.List.{list_all};
ghost use Rattle.s2_model.specs.History.{history, own};
ghost use Rattle.s2_model.specs.Legal.{is_end};
ghost use Rattle.s2_legal.specs.Built.{is_built_stmt, is_built_what, are_built};
ghost use Rattle.s2_legal.specs.Knows.{Knows};
ghost use Rattle.s2_legal.specs.World.{AreTables, IsAtPin, PinIsLast, flag_of, is_ruled, is_ruled_refusal, is_memory, is_memory_refusal, IsStand, IsMade, IsEnd, IsNext};

use crate::same::{Same, all_same};
use crate::verdicts::verdict;
use crate::world::World;
use s2_model::{Entry, Refusal, Reply, Said, Stmt, What};
use s2_value::{Memory, Schema};
use std::alloc::Global;

fn same_refusal(a: &Refusal, b: &Refusal) -> bool
    requires { is_ruled_refusal a.now ≡ true }
    ensures { IsTrue result ↔ (a.now ≡ b.now) }
{
    match (a, b) {
        (Refusal::LogFull, Refusal::LogFull) => true,
        (Refusal::TooManyRows, Refusal::TooManyRows) => true,
        (Refusal::Locked { row: m, holder: j }, Refusal::Locked { row: n, holder: k }) => *m == *n
            && *j == *k,
        (Refusal::OutOfRange { row: m }, Refusal::OutOfRange { row: n }) => *m == *n,
        (
            Refusal::LockedValue {
                key: i,
                row: m,
                holder: h,
            },
            Refusal::LockedValue {
                key: j,
                row: n,
                holder: k,
            },
        ) => *i == *j && *m == *n && *h == *k,
        (Refusal::Duplicate { key: i, row: m }, Refusal::Duplicate { key: j, row: n }) => *i == *j
            && *m == *n,
        (Refusal::ReadOnly, Refusal::ReadOnly) => true,
        (Refusal::NoTransaction, Refusal::NoTransaction) => true,
        (Refusal::AlreadyOpen, Refusal::AlreadyOpen) => true,
        _ => false,
    }
}

/// Whether a reply that a verdict has is the other.
fn same_reply(a: &Reply, b: &Reply) -> bool
    requires { is_ruled a.now ≡ true }
    ensures { IsTrue result ↔ (a.now ≡ b.now) }
{
    match (a, b) {
        (Reply::Changed(m), Reply::Changed(n)) => *m == *n,
        (Reply::Done, Reply::Done) => true,
        (Reply::Rows(x), Reply::Rows(y)) => x.is_same(y),
        (Reply::Refused(r), Reply::Refused(s)) => same_refusal(r, s),
        _ => false,
    }
}

fn is_memory_refusal(refusal: &Refusal) -> bool
    ensures { result ≡ is_memory_refusal refusal.now }
{
    match refusal {
        Refusal::Memory => true,
        _ => false,
    }
}

fn is_memory(reply: &Reply) -> bool
    ensures { result ≡ is_memory reply.now }
{
    match reply {
        Reply::Refused(refusal) => is_memory_refusal(refusal),
        _ => false,
    }
}

fn is_end(stmt: &Stmt) -> bool
    ensures { result ≡ is_end stmt.now }
{
    match stmt {
        Stmt::Commit => true,
        Stmt::Rollback => true,
        _ => false,
    }
}

fn same_what(a: &What, b: &What) -> bool
    requires { is_built_what a.now ≡ true }
    ensures { IsTrue result ↔ (a.now ≡ b.now) }
{
    match (a, b) {
        (What::Write(changes), What::Write(others)) => all_same(
            changes.as_slice(),
            others.as_slice(),
        ),
        (What::Begin, What::Begin) => true,
        (What::Commit, What::Commit) => true,
        (What::Rollback, What::Rollback) => true,
        (What::Pin, What::Pin) => true,
        (What::Unpin, What::Unpin) => true,
        _ => false,
    }
}

fn is_entry_of(entry: &Entry, k: u8, what: &What) -> bool
    requires { is_built_what what.now ≡ true }
    ensures { IsTrue result ↔ (entry.now ≡ record { actor = k; what = what.now }) }
{
    entry.actor == k && same_what(what, &entry.what)
}

/// Where these entries of the actor end, if they stand directly after the first `r` entries.
fn stand(h: &[Entry], r: usize, k: u8, makes: &[What]) -> Option<usize>
    requires place { r ≤ length h.now }
    requires built { list_all is_built_what makes.now ≡ true }
    ensures end { IsStand (history h.now) r k makes.now result }
    ensures place { IfSome result (λ end. (r ≤ end) × (end ≤ length h.now)) }
{
    if h.len() - r < makes.len() {
        return None;
    }
    for (i, what) in makes.iter().enumerate() {
        if !is_entry_of(&h[r + i], k, what) {
            return None;
        }
    }
    Some(r + makes.len())
}

/// Where the entries of a reply at `r` end, if it is right. If the session then has a pin, it is there.
fn made(
    alloc: Global,
    schema: &Schema,
    world: &World,
    h: &[Entry],
    r: usize,
    k: u8,
    stmt: &Stmt,
    reply: &Reply,
) -> Result<Option<usize>, Memory>
    requires place { r ≤ length h.now }
    requires knows { Knows schema.now world.now (history (take r h.now)) }
    requires pin { IsAtPin (history (take r h.now)) k stmt.now }
    requires tables { AreTables (history h.now) }
    requires built { are_built (history h.now) ≡ true }
    requires stmt { is_built_stmt stmt.now ≡ true }
    ensures end { IfOk result (λ o. IsEnd (history h.now) r (IsMade schema.now (history h.now) k r stmt.now reply.now) o) }
    ensures place { IfOk result (λ o. IfSome o (λ end. (r ≤ end) × (end ≤ length h.now))) }
    ensures pin { IfOk result (λ o. IfSome o (λ end. PinIsLast (history (take end h.now)) k)) }
{
    let ruled = verdict(alloc, schema, world, r, k, stmt)?;
    if same_reply(&ruled.reply, reply) {
        return Ok(stand(h, r, k, &ruled.makes));
    }
    if is_memory(reply) && !is_end(stmt) {
        return Ok(Some(r));
    }
    Ok(None)
}

/// After the entries from one place to another.
pub(crate) fn advance(
    alloc: Global,
    schema: &Schema,
    world: &mut World,
    h: &[Entry],
    from: usize,
    to: usize,
) -> Result<(), Memory>
    requires order { from ≤ to }
    requires place { to ≤ length h.now }
    requires knows { Knows schema.now world.old (history (take from h.now)) }
    ensures { OnOk result (Knows schema.now world.new (history (take to h.now))) }
{
    for i in from..to {
        world.step(alloc, schema, &h[i])?;
    }
    Ok(())
}

/// Whether the actor made none of the entries from one place to another.
pub(crate) fn is_quiet(h: &[Entry], k: u8, from: usize, to: usize) -> bool
    requires order { from ≤ to }
    requires place { to ≤ length h.now }
    ensures { IsTrue result ↔ (own k (history (take to h.now)) ≡ own k (history (take from h.now))) }
{
    for i in from..to {
        if h[i].actor == k {
            return false;
        }
    }
    true
}

/// Whether a reply may stand at `r`: at the session's pin, and else anywhere from its last reply's end on.
fn may_stand(world: &World, k: u8, stmt: &Stmt, floor: usize, r: usize) -> bool
    requires { length world.now.pinned.items ≡ 256 }
    ensures { result ≡ (is_end stmt.now || not (flag_of world.now.pinned.items k) || r == floor) }
{
    is_end(stmt) || !world.is_pinned(k) || r == floor
}

/// Where the entries of a session's next reply end, if it is right. The world is that where its last reply's entries ended, and then that where these end.
/// A session that reads at a pin has its pin where its last reply's entries ended.
pub(crate) fn next_end(
    alloc: Global,
    schema: &Schema,
    world: &mut World,
    h: &[Entry],
    floor: usize,
    was: u64,
    k: u8,
    stmt: &Stmt,
    said: &Said,
) -> Result<Option<usize>, Memory>
    requires place { floor ≤ length h.now }
    requires knows { Knows schema.now world.old (history (take floor h.now)) }
    requires pin { PinIsLast (history (take floor h.now)) k }
    requires tables { AreTables (history h.now) }
    requires built { are_built (history h.now) ≡ true }
    requires stmt { is_built_stmt stmt.now ≡ true }
    ensures end { IfOk result (λ o. IsEnd (history h.now) said.now.r (IsNext schema.now (history h.now) k floor was stmt.now said.now) o) }
    ensures place { IfOk result (λ o. IfSome o (λ end. end ≤ length h.now)) }
    ensures knows { IfOk result (λ o. IfSome o (λ end. Knows schema.now world.new (history (take end h.now)))) }
    ensures pin { IfOk result (λ o. IfSome o (λ end. PinIsLast (history (take end h.now)) k)) }
{
    if said.r < floor as u64 || said.r > h.len() as u64 || said.faults < was {
        return Ok(None);
    }
    let r = said.r as usize;
    if !may_stand(world, k, stmt, floor, r) || !is_quiet(h, k, floor, r) {
        return Ok(None);
    }
    advance(alloc, schema, world, h, floor, r)?;
    let found = made(alloc, schema, world, h, r, k, stmt, &said.reply)?;
    if let Some(end) = found {
        advance(alloc, schema, world, h, r, end)?;
    }
    Ok(found)
}
