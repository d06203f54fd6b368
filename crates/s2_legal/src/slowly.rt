//! The judge as a plain program: at each entry and each reply it folds the whole history before it. The tests compare the other one with it.
ghost use Rattle.std.specs.Prelude.{◌≡◌, ◌≤◌, length, true};

use crate::LegalAnswer;
use s2_model::{
    Change, Entry, Line, Outcome, Refusal, Reply, Said, Script, Stmt, Transcript, What,
};
use s2_slow::{
    greatest, is_running, number_of, pending, pin_of, placement, row_at, sessions, touches, view,
};
use s2_value::{Memory, Schema};
use s2_verdict::verdict;
use std::alloc::Global;

fn is_put(change: &Change) -> bool {
    matches!(change, Change::Put(_, _))
}

fn row_fits(schema: &Schema, change: &Change) -> bool {
    match change {
        Change::Put(_, row) => schema.fits(row),
        Change::Drop(_) => true,
    }
}

fn is_held(alloc: Global, h: &[Entry], k: u8, number: u64) -> Result<bool, Memory> {
    for other in sessions() {
        if other != k && touches(pending(alloc, h, other)?.as_slice(), number) {
            return Ok(true);
        }
    }
    Ok(false)
}

/// Whether the actor sees the row, no other holds it, and it is in the row store.
fn is_writable(alloc: Global, h: &[Entry], k: u8, number: u64) -> Result<bool, Memory> {
    let rows = view(alloc, h, k)?;
    let is_seen = row_at(rows.as_slice(), number).is_some();
    let note = placement(alloc, h)?;
    let is_stored = note.store.as_slice().contains(&number);
    Ok(is_seen && is_stored && !is_held(alloc, h, k, number)?)
}

fn changes_fit(
    alloc: Global,
    schema: &Schema,
    h: &[Entry],
    k: u8,
    changes: &[Change],
) -> Result<bool, Memory> {
    let most = greatest(h);
    let mut new = most;
    let mut last = None;
    for change in changes {
        let number = number_of(change);
        if last >= Some(number) || !row_fits(schema, change) {
            return Ok(false);
        }
        last = Some(number);
        if number <= most {
            if !is_writable(alloc, h, k, number)? {
                return Ok(false);
            }
        } else {
            if !is_put(change) || new.checked_add(1) != Some(number) {
                return Ok(false);
            }
            new = number;
        }
    }
    Ok(true)
}

fn is_unpinned(h: &[Entry], k: u8) -> bool {
    sessions().contains(&k) && pin_of(h, k).is_none()
}

fn follows_write(h: &[Entry], k: u8) -> bool {
    match h.last() {
        Some(entry) => entry.actor == k && matches!(&entry.what, What::Write(_)),
        None => false,
    }
}

fn may_begin(h: &[Entry], k: u8) -> bool {
    is_unpinned(h, k) && !is_running(h, k)
}

/// Whether the entry fits the history before it.
pub(crate) fn entry_fits(
    alloc: Global,
    schema: &Schema,
    h: &[Entry],
    entry: &Entry,
) -> Result<bool, Memory> {
    let k = entry.actor;
    match &entry.what {
        What::Write(changes) => {
            let count = changes.len();
            let is_right = 1 <= count && count <= 65_536 && is_unpinned(h, k);
            Ok(is_right && changes_fit(alloc, schema, h, k, changes.as_slice())?)
        }
        What::Begin => Ok(may_begin(h, k)),
        What::Commit => Ok(is_running(h, k) || follows_write(h, k)),
        What::Rollback => Ok(is_running(h, k)),
        What::Pin => Ok(may_begin(h, k)),
        What::Unpin => Ok(pin_of(h, k).is_some()),
        _ => Ok(false),
    }
}

fn first_unfit(alloc: Global, schema: &Schema, h: &[Entry]) -> Result<Option<u64>, Memory> {
    for (i, entry) in h.iter().enumerate() {
        if !entry_fits(alloc, schema, &h[..i], entry)? {
            return Ok(Some(i as u64 + 1));
        }
    }
    Ok(None)
}

fn same_reply(alloc: Global, a: &Reply, b: &Reply) -> Result<bool, Memory> {
    let first = format!(in alloc; "{:?}", a)?;
    let second = format!(in alloc; "{:?}", b)?;
    Ok(first == second)
}

fn same_entry(alloc: Global, a: &Entry, b: &Entry) -> Result<bool, Memory> {
    let first = format!(in alloc; "{:?}", a)?;
    let second = format!(in alloc; "{:?}", b)?;
    Ok(first == second)
}

fn begins_with(alloc: Global, after: &[Entry], made: &[Entry]) -> Result<bool, Memory> {
    for (i, entry) in made.iter().enumerate() {
        let Some(other) = after.get(i) else {
            return Ok(false);
        };
        if !same_entry(alloc, entry, other)? {
            return Ok(false);
        }
    }
    Ok(true)
}

fn count_own(h: &[Entry], k: u8) -> usize {
    h.iter().filter(|entry| entry.actor == k).count()
}

pub(crate) fn ends(stmt: &Stmt) -> bool {
    matches!(stmt, Stmt::Commit | Stmt::Rollback)
}

/// How many entries the reply made, if it is right.
fn made(
    alloc: Global,
    schema: &Schema,
    before: &[Entry],
    after: &[Entry],
    k: u8,
    stmt: &Stmt,
    reply: &Reply,
) -> Result<Option<usize>, Memory> {
    let ruling = verdict(alloc, schema, before, k, stmt)?;
    if same_reply(alloc, &ruling.reply, reply)? {
        let entries = ruling.entries.as_slice();
        return if begins_with(alloc, after, entries)? {
            Ok(Some(entries.len()))
        } else {
            Ok(None)
        };
    }
    if matches!(reply, Reply::Refused(Refusal::Memory)) && !ends(stmt) {
        return Ok(Some(0));
    }
    Ok(None)
}

/// Where the last reply's entries ended, how many entries the session made, and its last fault count.
#[derive(Clone, Copy)]
struct Stand {
    floor: u64,
    made: usize,
    faults: u64,
}

/// Whether the statement is read at this time: at the session's pin, or from its last reply's end on.
fn reads_at(h: &[Entry], k: u8, floor: u64, stmt: &Stmt, r: u64) -> bool {
    if floor > h.len() as u64 {
        return false;
    }
    match pin_of(&h[..floor as usize], k) {
        Some(t) if !ends(stmt) => r == t as u64,
        _ => floor <= r,
    }
}

/// The stand after a reply, if it is right.
fn next_stand(
    alloc: Global,
    schema: &Schema,
    h: &[Entry],
    k: u8,
    stand: Stand,
    stmt: &Stmt,
    said: &Said,
) -> Result<Option<Stand>, Memory> {
    if said.r > h.len() as u64 || said.faults < stand.faults {
        return Ok(None);
    }
    if !reads_at(h, k, stand.floor, stmt, said.r) {
        return Ok(None);
    }
    let (before, after) = h.split_at(said.r as usize);
    if count_own(before, k) != stand.made {
        return Ok(None);
    }
    match made(alloc, schema, before, after, k, stmt, &said.reply)? {
        Some(count) => Ok(Some(Stand {
            floor: said.r.saturating_add(count as u64),
            made: stand.made.saturating_add(count),
            faults: said.faults,
        })),
        None => Ok(None),
    }
}

fn stmt_at(lines: &[Line], k: u8, i: usize) -> Option<&Stmt> {
    let mut passed = 0usize;
    for line in lines {
        if line.session == k {
            if passed == i {
                return Some(&line.stmt);
            }
            passed = passed.saturating_add(1);
        }
    }
    None
}

fn transcript_at(transcripts: &[Transcript], k: u8) -> Option<&Transcript> {
    for transcript in transcripts {
        if transcript.session == k {
            return Some(transcript);
        }
    }
    None
}

fn first_wrong(
    alloc: Global,
    script: &Script,
    h: &[Entry],
    k: u8,
    said: &[Said],
    faults: u64,
) -> Result<Option<u64>, Memory> {
    let mut stand = Stand {
        floor: 0,
        made: 0,
        faults: 0,
    };
    for (i, next) in said.iter().enumerate() {
        let Some(stmt) = stmt_at(script.lines.as_slice(), k, i) else {
            return Ok(Some(i as u64 + 1));
        };
        match next_stand(alloc, &script.schema, h, k, stand, stmt, next)? {
            Some(after) => stand = after,
            None => return Ok(Some(i as u64 + 1)),
        }
    }
    if stand.faults > faults || count_own(h, k) != stand.made {
        return Ok(Some((said.len() as u64).saturating_add(1)));
    }
    Ok(None)
}

/// What the outcome is judged.
pub(crate) fn judge(alloc: Global, script: &Script, run: &Outcome) -> Result<LegalAnswer, Memory> {
    let h = run.history.as_slice();
    if let Some(entry) = first_unfit(alloc, &script.schema, h)? {
        return Ok(LegalAnswer::Entry(entry));
    }
    for k in 1..17u8 {
        let wrong = match transcript_at(run.transcripts.as_slice(), k) {
            Some(t) => first_wrong(alloc, script, h, k, t.said.as_slice(), t.faults)?,
            None => first_wrong(alloc, script, h, k, &[], 0)?,
        };
        if let Some(reply) = wrong {
            return Ok(LegalAnswer::Reply(k, reply));
        }
    }
    Ok(LegalAnswer::Legal)
}
