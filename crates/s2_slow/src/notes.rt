//! A placement as a reader sees it: where the rows lie, without their values.
ghost use Rattle.std.specs.Prelude.{◌≡◌, ◌||◌, IfOk, filter, map};
ghost use Rattle.std.specs.List.{list_any, range_with_len};
ghost use Rattle.s2_model.specs.History.{history, greatest, pending};
ghost use Rattle.s2_model.specs.Held.{sessions};
ghost use Rattle.s2_model.specs.Placement.{lives, spot_ids};
ghost use Rattle.s2_model.specs.Fits.{puts};
ghost use Rattle.s2_model.specs.Notes.{marks_of, seg_note, open_pins, placement_note};
ghost use Rattle.s2_slow.specs.SlowNotes.{row_store, note_of};

use crate::histories::{greatest, pending, pin_of, sessions};
use crate::placed::{Placement, Segment, Spot, Version};
use crate::placements::placed;
use crate::versions::lives;
use s2_model::{Change, ChangeList, Entry, MarkList, PinList, PlacementNote, SegNote, SegNoteList};
use s2_value::{IdList, Memory, Seq};
use std::alloc::{AllocError, Global};

fn spot_ids(alloc: Global, spots: &[Spot]) -> Result<IdList, Memory>
    ensures { IfOk result (λ v. v ≡ spot_ids spots.now) }
{
    let mut ids = Vec::new(alloc);
    for spot in spots {
        ids.push(spot.id)?;
    }
    Ok(Seq::from_vec(ids))
}

/// An offset past 32 bits can't be noted: it answers as want of memory does.
pub fn offset_of(offset: usize) -> Result<u32, Memory>
    ensures { IfOk result (λ o. o ≡ offset) }
{
    match u32::try_from(offset) {
        Ok(narrow) => Ok(narrow),
        Err(_) => Err(AllocError),
    }
}

fn marks_of(alloc: Global, spots: &[Spot]) -> Result<MarkList, Memory>
    ensures { IfOk result (λ v. v ≡ marks_of spots.now) }
{
    let mut marks = Vec::new(alloc);
    let mut offset = 0;
    let mut left = spots;
    while let [spot, rest @ ..] = left {
        if let Some(t) = spot.mark {
            marks.push((t, offset_of(offset)?))?;
        }
        offset += 1;
        left = rest;
    }
    Ok(Seq::from_vec(marks))
}

fn seg_note(alloc: Global, segment: &Segment) -> Result<SegNote, Memory>
    ensures { IfOk result (λ note. note ≡ seg_note segment.now) }
{
    let rows = spot_ids(alloc, &segment.spots)?;
    let marks = marks_of(alloc, &segment.spots)?;
    Ok(SegNote {
        id: segment.number,
        rows,
        base: segment.base,
        born: segment.born,
        died: segment.died,
        marks,
        stored: segment.stored,
        local: segment.here,
    })
}

fn seg_notes(alloc: Global, segments: &[Segment]) -> Result<SegNoteList, Memory>
    ensures { IfOk result (λ notes. notes ≡ map seg_note segments.now) }
{
    let mut notes = Vec::new(alloc);
    for segment in segments {
        notes.push(seg_note(alloc, segment)?)?;
    }
    Ok(Seq::from_vec(notes))
}

/// The open writes of each session.
fn open_writes(alloc: Global, h: &[Entry]) -> Result<Vec<ChangeList>, Memory>
    ensures { IfOk result (λ v. v.items ≡ map (pending (history h.now)) sessions) }
{
    let mut writes = Vec::new(alloc);
    let actors = sessions();
    let mut left = actors.as_slice();
    while let [actor, rest @ ..] = left {
        writes.push(pending(alloc, h, *actor)?)?;
        left = rest;
    }
    Ok(writes)
}

fn puts(change: &Change, number: u64) -> bool
    ensures { result ≡ puts change.now number }
{
    match change {
        Change::Put(other, _) => *other == number,
        Change::Drop(_) => false,
    }
}

fn some_puts(changes: &[Change], number: u64) -> bool
    ensures { result ≡ list_any (λ c. puts c number) changes.now }
{
    changes.iter().any(|change| puts(change, number))
}

fn is_put(writes: &[ChangeList], number: u64) -> bool
    ensures { result ≡ list_any (λ cs. list_any (λ c. puts c number) cs) writes.now }
{
    writes
        .iter()
        .any(|changes| some_puts(changes.as_slice(), number))
}

fn is_row_stored(versions: &[Version], writes: &[ChangeList], number: u64) -> bool
    ensures { result ≡ (lives versions.now number || list_any (λ cs. list_any (λ c. puts c number) cs) writes.now) }
{
    lives(versions, number) || is_put(writes, number)
}

fn store(
    alloc: Global,
    versions: &[Version],
    writes: &[ChangeList],
    greatest: u64,
) -> Result<IdList, Memory>
    ensures { IfOk result (λ v. v ≡ filter (λ n. lives versions.now n || list_any (λ cs. list_any (λ c. puts c n) cs) writes.now) (range_with_len 1 greatest)) }
{
    let mut ids = Vec::new(alloc);
    for below in 0..greatest {
        if is_row_stored(versions, writes, below + 1) {
            ids.push(below + 1)?;
        }
    }
    Ok(Seq::from_vec(ids))
}

/// The open pins by rising session.
fn open_pins(alloc: Global, h: &[Entry]) -> Result<PinList, Memory>
    ensures { IfOk result (λ v. v ≡ open_pins (history h.now)) }
{
    let mut pins = Vec::new(alloc);
    let actors = sessions();
    let mut left = actors.as_slice();
    while let [actor, rest @ ..] = left {
        if let Some(t) = pin_of(h, *actor) {
            pins.push((*actor, t as u64))?;
        }
        left = rest;
    }
    Ok(Seq::from_vec(pins))
}

/// The numbers of the rows in the row store: those with a living version, and those that an open write puts.
fn row_store(alloc: Global, h: &[Entry], versions: &[Version]) -> Result<IdList, Memory>
    ensures { IfOk result (λ v. v ≡ row_store versions.now (history h.now)) }
{
    let writes = open_writes(alloc, h)?;
    let ids = store(alloc, versions, &writes, greatest(h))?;
    Ok(ids)
}

fn note_of(alloc: Global, h: &[Entry], placed: &Placement) -> Result<PlacementNote, Memory>
    ensures { IfOk result (λ note. note ≡ note_of placed.now (history h.now)) }
{
    let segs = seg_notes(alloc, &placed.segments)?;
    let store = row_store(alloc, h, &placed.versions)?;
    let pins = open_pins(alloc, h)?;
    Ok(PlacementNote {
        segs,
        store,
        horizon: placed.horizon,
        pins,
    })
}

/// Where the rows lie after the entries, the oldest first: the segments, the numbers of the rows in the row store, the horizon, and the open pins.
/// The `Err` is want of memory; it also comes where a row at an offset of 2^32 or more in its segment is marked, which no note can name.
pub fn placement(alloc: Global, h: &[Entry]) -> Result<PlacementNote, Memory>
    ensures { IfOk result (λ note. note ≡ placement_note (history h.now)) }
{
    let placed = placed(alloc, h)?;
    note_of(alloc, h, &placed)
}
