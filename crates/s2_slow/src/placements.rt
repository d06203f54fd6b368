//! Where rows lie after a history: one step for each kind of entry.
ghost use Rattle.std.specs.Prelude.{◌≡◌, IfOk, OnOk, suc, length};
ghost use Rattle.s2_model.specs.History.{history, state, pending};
ghost use Rattle.s2_model.specs.Placement.{contains_number, free_ids, ended, after_commit, after_move, after_flush, after_merge, after_upload, after_evict, after_vacuum, place_after, nothing_placed, placement};

use crate::histories::{pending, whole_state};
use crate::placed::{Placement, Segment, Version};
use crate::segments::{
    add_merged, drop_files, end_segments, flushed_segment, forget_dead, free_ids, mark_places,
    moved_ids, store_segments,
};
use crate::versions::{begin, begin_copies, end_changed, end_numbered, forget_ended};
use s2_model::{Change, Entry, FlushNote, MergeNote, What};
use s2_value::{Memory, Row};
use std::alloc::Global;

fn after_commit(t: u64, changes: &[Change], before: Placement) -> Result<Placement, Memory>
    ensures { IfOk result (λ p. p ≡ after_commit t changes.now before) }
{
    let mut versions = before.versions;
    end_changed(t, changes, &mut versions);
    begin(t, changes, &mut versions)?;
    Ok(Placement { versions, ..before })
}

fn after_move(
    alloc: Global,
    t: u64,
    places: &[(u32, u32)],
    rows: &[(u64, Row)],
    before: Placement,
) -> Result<Placement, Memory>
    ensures { IfOk result (λ p. p ≡ after_move t places.now rows.now before) }
{
    let mut versions = before.versions;
    let ids = moved_ids(alloc, places, &before.segments)?;
    begin_copies(t, rows, &ids, &mut versions)?;
    let segments = mark_places(alloc, t, places, before.segments)?;
    Ok(Placement {
        versions,
        segments,
        horizon: before.horizon,
    })
}

/// The living versions of the segment's unmarked rows end at `t`.
fn end_flushed(
    alloc: Global,
    t: u64,
    segment: &Segment,
    versions: &mut [Version],
) -> Result<(), Memory>
    ensures { OnOk result (versions.new ≡ ended t (contains_number (free_ids segment.now.spots)) versions.old) }
{
    let ids = free_ids(alloc, &segment.spots)?;
    end_numbered(t, &ids, versions);
    Ok(())
}

fn after_flush(
    alloc: Global,
    t: u64,
    note: &FlushNote,
    before: Placement,
) -> Result<Placement, Memory>
    ensures { IfOk result (λ p. p ≡ after_flush t note.now before) }
{
    let mut versions = before.versions;
    let mut segments = before.segments;
    let segment = flushed_segment(alloc, t, note)?;
    end_flushed(alloc, t, &segment, &mut versions)?;
    segments.push(segment)?;
    Ok(Placement {
        versions,
        segments,
        horizon: before.horizon,
    })
}

fn after_merge(
    alloc: Global,
    t: u64,
    note: &MergeNote,
    before: Placement,
) -> Result<Placement, Memory>
    ensures { IfOk result (λ p. p ≡ after_merge t note.now before) }
{
    let mut segments = before.segments;
    end_segments(t, note.olds.as_slice(), &mut segments);
    add_merged(alloc, t, note, &mut segments)?;
    Ok(Placement {
        versions: before.versions,
        segments,
        horizon: before.horizon,
    })
}

fn after_upload(number: u32, before: Placement) -> Placement
    ensures { result ≡ after_upload number before }
{
    let mut segments = before.segments;
    store_segments(number, &mut segments);
    Placement {
        versions: before.versions,
        segments,
        horizon: before.horizon,
    }
}

fn after_evict(numbers: &[u32], before: Placement) -> Placement
    ensures { result ≡ after_evict numbers.now before }
{
    let mut segments = before.segments;
    drop_files(numbers, &mut segments);
    Placement {
        versions: before.versions,
        segments,
        horizon: before.horizon,
    }
}

fn after_vacuum(horizon: u64, before: Placement) -> Placement
    ensures { result ≡ after_vacuum horizon before }
{
    let mut versions = before.versions;
    let mut segments = before.segments;
    forget_ended(horizon, &mut versions);
    forget_dead(horizon, &mut segments);
    Placement {
        versions,
        segments,
        horizon,
    }
}

fn after_open_writes(
    alloc: Global,
    h: &[Entry],
    actor: u8,
    before: Placement,
) -> Result<Placement, Memory>
    ensures { IfOk result (λ p. p ≡ after_commit (suc (length h.now)) (pending (history h.now) actor) before) }
{
    let changes = pending(alloc, h, actor)?;
    after_commit(h.len() as u64 + 1, changes.as_slice(), before)
}

fn after_moved(
    alloc: Global,
    h: &[Entry],
    places: &[(u32, u32)],
    before: Placement,
) -> Result<Placement, Memory>
    ensures { IfOk result (λ p. p ≡ after_move (suc (length h.now)) places.now (state (history h.now)) before) }
{
    let rows = whole_state(alloc, h)?;
    after_move(alloc, h.len() as u64 + 1, places, &rows, before)
}

/// The placement after an entry, `h` being the entries before it.
fn place_after(
    alloc: Global,
    h: &[Entry],
    entry: &Entry,
    before: Placement,
) -> Result<Placement, Memory>
    ensures { IfOk result (λ p. p ≡ place_after entry.now.what (suc (length h.now)) (state (history h.now)) (pending (history h.now) entry.now.actor) before) }
{
    let t = h.len() as u64 + 1;
    match &entry.what {
        What::Commit => after_open_writes(alloc, h, entry.actor, before),
        What::Move(places) => after_moved(alloc, h, places.as_slice(), before),
        What::Flush(note) => after_flush(alloc, t, note.get(), before),
        What::Merge(note) => after_merge(alloc, t, note.get(), before),
        What::Upload(number) => Ok(after_upload(*number, before)),
        What::Evict(numbers) => Ok(after_evict(numbers.as_slice(), before)),
        What::Vacuum(horizon) => Ok(after_vacuum(*horizon, before)),
        _ => Ok(before),
    }
}

fn nothing_placed(alloc: Global) -> Placement
    ensures { result ≡ nothing_placed }
{
    Placement {
        versions: Vec::new(alloc),
        segments: Vec::new(alloc),
        horizon: 0,
    }
}

/// The placement after the entries, the oldest first.
#[tactic(auto, using(crate::proofs::SlowHistories::history_more))]
pub fn placed(alloc: Global, h: &[Entry]) -> Result<Placement, Memory>
    ensures { IfOk result (λ p. p ≡ placement (history h.now)) }
{
    let mut placement = nothing_placed(alloc);
    for (i, entry) in h.iter().enumerate() {
        placement = place_after(alloc, &h[..i], entry, placement)?;
    }
    Ok(placement)
}
