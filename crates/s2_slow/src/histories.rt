//! What a history says: open writes, content, and views.
ghost use Rattle.std.specs.Prelude.{◌≡◌, ◌≤◌, ◌++◌, IfOk, IfSome, OnOk, None, length};
ghost use Rattle.s2_model.specs.History.{history, upto, running_after, is_running, pending_after, pending, pin_after, pin_of, state_after, state, seen_at, view, greatest_in, greatest};
ghost use Rattle.s2_model.specs.Held.{sessions};

use crate::tables::apply;
use crate::versions::number_of;
use s2_model::{Change, ChangeList, Entry, What};
use s2_value::{Duplicate, Memory, Row, Seq, TableRows};
use std::alloc::Global;

fn add_all(changes: &mut Vec<Change>, more: &[Change]) -> Result<(), Memory>
    ensures { OnOk result (changes.new.items ≡ changes.old.items ++ more.now) }
{
    for change in more {
        changes.push(change.copy()?)?;
    }
    Ok(())
}

fn pending_after(what: &What, changes: &mut Vec<Change>) -> Result<(), Memory>
    ensures { OnOk result (changes.new.items ≡ pending_after what.now changes.old.items) }
{
    match what {
        What::Begin => changes.clear(),
        What::Commit => changes.clear(),
        What::Rollback => changes.clear(),
        What::Write(more) => add_all(changes, more.as_slice())?,
        _ => {}
    }
    Ok(())
}

/// The changes of the actor's writes since its last BEGIN, COMMIT or ROLLBACK, in order. The entries are a history, the oldest first.
#[tactic(auto, using(crate::proofs::SlowHistories::history_more))]
pub fn pending(alloc: Global, h: &[Entry], actor: u8) -> Result<ChangeList, Memory>
    ensures { IfOk result (λ cs. cs ≡ pending (history h.now) actor) }
{
    let mut changes = Vec::new(alloc);
    for entry in h {
        if entry.actor == actor {
            pending_after(&entry.what, &mut changes)?;
        }
    }
    Ok(Seq::from_vec(changes))
}

fn state_after(
    alloc: Global,
    before: &[Entry],
    entry: &Entry,
    rows: &mut Vec<(u64, Row)>,
) -> Result<(), Memory>
    ensures { OnOk result (rows.new.items ≡ state_after entry.now.what rows.old.items (pending (history before.now) entry.now.actor)) }
{
    if let What::Commit = &entry.what {
        let changes = pending(alloc, before, entry.actor)?;
        apply(rows, changes.as_slice())?;
    }
    Ok(())
}

/// The content after the entries, the oldest first.
#[tactic(auto, using(crate::proofs::SlowHistories::history_more))]
pub fn whole_state(alloc: Global, h: &[Entry]) -> Result<Vec<(u64, Row)>, Memory>
    ensures { IfOk result (λ rows. rows.items ≡ state (history h.now)) }
{
    let mut rows = Vec::new(alloc);
    for (i, entry) in h.iter().enumerate() {
        state_after(alloc, &h[..i], entry, &mut rows)?;
    }
    Ok(rows)
}

/// The content of the table after the first `r` entries: each COMMIT applies its actor's open writes. The entries are a history, the oldest first.
#[tactic(auto, using(crate::proofs::SlowHistories::upto_history))]
pub fn state(alloc: Global, h: &[Entry], r: usize) -> Result<TableRows, Memory>
    requires { r ≤ length h.now }
    ensures { IfOk result (λ rows. rows ≡ state (upto r (history h.now))) }
{
    Ok(Seq::from_vec(whole_state(alloc, &h[..r])?))
}

/// The timestamp of the actor's open PIN, if it has one.
#[tactic(auto, using(crate::proofs::SlowHistories::history_more))]
pub fn pin_of(h: &[Entry], actor: u8) -> Option<usize>
    ensures pin { result ≡ pin_of (history h.now) actor }
    ensures within { IfSome result (λ t. t ≤ length h.now) }
{
    let mut pin = None;
    for (i, entry) in h.iter().enumerate() {
        if entry.actor == actor {
            match &entry.what {
                What::Pin => pin = Some(i + 1),
                What::Unpin => pin = None,
                _ => {}
            }
        }
    }
    pin
}

fn running_after(what: &What, was: bool) -> bool
    ensures { result ≡ running_after what.now was }
{
    match what {
        What::Begin => true,
        What::Commit => false,
        What::Rollback => false,
        _ => was,
    }
}

/// Whether a transaction that writes is open: from its BEGIN to its COMMIT or ROLLBACK.
#[tactic(auto, using(crate::proofs::SlowHistories::history_more))]
pub fn is_running(h: &[Entry], actor: u8) -> bool
    ensures { result ≡ is_running (history h.now) actor }
{
    let mut running = false;
    for entry in h {
        if entry.actor == actor {
            running = running_after(&entry.what, running);
        }
    }
    running
}

fn open_view(alloc: Global, h: &[Entry], actor: u8) -> Result<Vec<(u64, Row)>, Memory>
    ensures { IfOk result (λ rows. rows.items ≡ seen_at None (history h.now) actor) }
{
    let mut rows = whole_state(alloc, h)?;
    let changes = pending(alloc, h, actor)?;
    apply(&mut rows, changes.as_slice())?;
    Ok(rows)
}

/// What the actor sees: the content at its open PIN, else the content with its own open writes applied. The entries are a history, the oldest first.
pub fn view(alloc: Global, h: &[Entry], actor: u8) -> Result<TableRows, Memory>
    ensures { IfOk result (λ rows. rows ≡ view (history h.now) actor) }
{
    match pin_of(h, actor) {
        Some(r) => state(alloc, h, r),
        None => Ok(Seq::from_vec(open_view(alloc, h, actor)?)),
    }
}

/// The sessions.
#[tactic(auto, unfolding(s2_model::specs::Held::sessions))]
pub fn sessions() -> [u8; 16]
    ensures { result ≡ sessions }
{
    [1, 2, 3, 4, 5, 6, 7, 8, 9, 10, 11, 12, 13, 14, 15, 16]
}

fn greatest_in(changes: &[Change], was: u64) -> u64
    ensures { result ≡ greatest_in changes.now was }
{
    let mut greatest = was;
    let mut left = changes;
    while let [change, rest @ ..] = left {
        greatest = greatest.max(number_of(change));
        left = rest;
    }
    greatest
}

/// The greatest row number in any WRITE, 0 where there is none.
#[tactic(auto, using(crate::proofs::SlowHistories::history_more))]
pub fn greatest(h: &[Entry]) -> u64
    ensures { result ≡ greatest (history h.now) }
{
    let mut most = 0;
    for entry in h {
        if let What::Write(changes) = &entry.what {
            most = greatest_in(changes.as_slice(), most);
        }
    }
    most
}
