//! Segments and the places of their rows.
ghost use Rattle.std.specs.Prelude.{◌≡◌, ◌++◌, ◌==◌, IfOk, OnOk, None, Some, filter, map, not, if◌then◌else◌};
ghost use Rattle.s2_model.specs.Placement.{contains_number, contains_place, is_done, is_free, set_mark, mark_spots, mark_segment, marked, free_ids_at, free_ids, moved_ids, new_spots, new_segment, flushed_segment, merged_segments, end_segment, died_at, store_segment, drop_file};

use crate::placed::{Segment, Spot};
use crate::versions::{contains_number, is_done, set_at};
use s2_model::{FlushNote, MergeNote};
use s2_value::{IdList, Memory};
use std::alloc::Global;

/// Whether the number is one of these.
pub fn contains_segment(numbers: &[u32], number: u32) -> bool
    ensures { result ≡ contains_number numbers.now number }
{
    numbers.iter().any(|other| *other == number)
}

fn contains_offset(offsets: &[u32], offset: usize) -> bool
    ensures { result ≡ contains_number offsets.now offset }
{
    offsets.iter().any(|other| *other as usize == offset)
}

fn contains_place(places: &[(u32, u32)], number: u32, offset: usize) -> bool
    ensures { result ≡ contains_place places.now number offset }
{
    places
        .iter()
        .any(|place| place.0 == number && place.1 as usize == offset)
}

fn mark_if(t: u64, is_marked: bool, spot: &Spot) -> Spot
    ensures { result ≡ (if is_marked then set_mark t spot.now else spot.now) }
{
    Spot {
        id: spot.id,
        mark: if is_marked {
            set_at(t, spot.mark)
        } else {
            spot.mark
        },
    }
}

/// The places of a segment, with those at these places marked at `t`.
fn mark_spots(
    alloc: Global,
    t: u64,
    places: &[(u32, u32)],
    number: u32,
    spots: &[Spot],
) -> Result<Vec<Spot>, Memory>
    ensures { IfOk result (λ v. v.items ≡ mark_spots t (contains_place places.now number) 0 spots.now) }
{
    let mut marked = Vec::new(alloc);
    let mut offset = 0;
    let mut left = spots;
    while let [spot, rest @ ..] = left {
        marked.push(mark_if(t, contains_place(places, number, offset), spot))?;
        offset += 1;
        left = rest;
    }
    Ok(marked)
}

fn mark_segment(
    alloc: Global,
    t: u64,
    places: &[(u32, u32)],
    segment: Segment,
) -> Result<Segment, Memory>
    ensures { IfOk result (λ s. s ≡ mark_segment t places.now segment) }
{
    let spots = mark_spots(alloc, t, places, segment.number, &segment.spots)?;
    Ok(Segment { spots, ..segment })
}

/// These places are marked at `t`.
pub fn mark_places(
    alloc: Global,
    t: u64,
    places: &[(u32, u32)],
    segments: Vec<Segment>,
) -> Result<Vec<Segment>, Memory>
    ensures { IfOk result (λ v. v.items ≡ marked t places.now segments.items) }
{
    let mut marked = Vec::new(alloc);
    for segment in segments {
        marked.push(mark_segment(alloc, t, places, segment)?)?;
    }
    Ok(marked)
}

/// The rows of one segment's free places at these places.
fn add_free_ids_at(
    places: &[(u32, u32)],
    number: u32,
    spots: &[Spot],
    ids: &mut Vec<u64>,
) -> Result<(), Memory>
    ensures { OnOk result (ids.new.items ≡ ids.old.items ++ free_ids_at (contains_place places.now number) 0 spots.now) }
{
    let mut offset = 0;
    let mut left = spots;
    while let [spot, rest @ ..] = left {
        if contains_place(places, number, offset) && spot.mark.is_none() {
            ids.push(spot.id)?;
        }
        offset += 1;
        left = rest;
    }
    Ok(())
}

/// The rows at those of the places that are alive and unmarked.
pub fn moved_ids(
    alloc: Global,
    places: &[(u32, u32)],
    segments: &[Segment],
) -> Result<Vec<u64>, Memory>
    ensures { IfOk result (λ v. v.items ≡ moved_ids places.now segments.now) }
{
    let mut ids = Vec::new(alloc);
    let mut left = segments;
    while let [segment, rest @ ..] = left {
        if segment.died.is_none() {
            add_free_ids_at(places, segment.number, &segment.spots, &mut ids)?;
        }
        left = rest;
    }
    Ok(ids)
}

fn new_spot(t: u64, is_marked: bool, id: u64) -> Spot
    ensures { result ≡ record { id = id; mark = (if is_marked then Some t else None) } }
{
    Spot {
        id,
        mark: if is_marked { Some(t) } else { None },
    }
}

fn flushed_spots(alloc: Global, t: u64, offsets: &[u32], ids: &[u64]) -> Result<Vec<Spot>, Memory>
    ensures { IfOk result (λ v. v.items ≡ new_spots t (contains_number offsets.now) 0 ids.now) }
{
    let mut spots = Vec::new(alloc);
    let mut offset = 0;
    let mut left = ids;
    while let [id, rest @ ..] = left {
        spots.push(new_spot(t, contains_offset(offsets, offset), *id))?;
        offset += 1;
        left = rest;
    }
    Ok(spots)
}

fn merged_spots(
    alloc: Global,
    t: u64,
    places: &[(u32, u32)],
    number: u32,
    ids: &[u64],
) -> Result<Vec<Spot>, Memory>
    ensures { IfOk result (λ v. v.items ≡ new_spots t (contains_place places.now number) 0 ids.now) }
{
    let mut spots = Vec::new(alloc);
    let mut offset = 0;
    let mut left = ids;
    while let [id, rest @ ..] = left {
        spots.push(new_spot(t, contains_place(places, number, offset), *id))?;
        offset += 1;
        left = rest;
    }
    Ok(spots)
}

fn new_segment(t: u64, number: u32, base: u64, spots: Vec<Spot>) -> Segment
    ensures { result ≡ new_segment t number base spots.items }
{
    Segment {
        number,
        spots,
        base,
        born: t,
        died: None,
        stored: false,
        here: true,
    }
}

/// The segment that a flush makes.
pub fn flushed_segment(alloc: Global, t: u64, note: &FlushNote) -> Result<Segment, Memory>
    ensures { IfOk result (λ s. s ≡ flushed_segment t note.now) }
{
    let spots = flushed_spots(alloc, t, note.marked.as_slice(), note.rows.as_slice())?;
    Ok(new_segment(t, note.seg, note.base, spots))
}

fn merged_segment(
    alloc: Global,
    t: u64,
    note: &MergeNote,
    new: &(u32, IdList),
) -> Result<Segment, Memory>
    ensures { IfOk result (λ s. s ≡ new_segment t new.now.0 note.now.base (new_spots t (contains_place note.now.marked new.now.0) 0 new.now.1)) }
{
    let spots = merged_spots(alloc, t, note.marked.as_slice(), new.0, new.1.as_slice())?;
    Ok(new_segment(t, new.0, note.base, spots))
}

/// The segments that a merge makes come last.
pub fn add_merged(
    alloc: Global,
    t: u64,
    note: &MergeNote,
    segments: &mut Vec<Segment>,
) -> Result<(), Memory>
    ensures { OnOk result (segments.new.items ≡ segments.old.items ++ merged_segments t note.now) }
{
    for new in note.news.as_slice() {
        segments.push(merged_segment(alloc, t, note, new)?)?;
    }
    Ok(())
}

/// The rows of the unmarked places.
pub fn free_ids(alloc: Global, spots: &[Spot]) -> Result<Vec<u64>, Memory>
    ensures { IfOk result (λ v. v.items ≡ free_ids spots.now) }
{
    let mut ids = Vec::new(alloc);
    for spot in spots {
        if spot.mark.is_none() {
            ids.push(spot.id)?;
        }
    }
    Ok(ids)
}

fn end_if(t: u64, ends: bool, segment: &mut Segment)
    ensures { segment.new ≡ (if ends then end_segment t segment.old else segment.old) }
{
    if ends {
        segment.died = set_at(t, segment.died);
    }
}

/// The segments of these numbers die at `t`.
pub fn end_segments(t: u64, numbers: &[u32], segments: &mut [Segment])
    ensures { segments.new ≡ died_at t numbers.now segments.old }
{
    for segment in segments.iter_mut() {
        end_if(t, contains_segment(numbers, segment.number), segment);
    }
}

fn store_if(is_stored: bool, segment: &mut Segment)
    ensures { segment.new ≡ (if is_stored then store_segment segment.old else segment.old) }
{
    if is_stored {
        segment.stored = true;
    }
}

/// The file of the segment of this number is in the blob store.
pub fn store_segments(number: u32, segments: &mut [Segment])
    ensures { segments.new ≡ map (λ s. if s.number == number then store_segment s else s) segments.old }
{
    for segment in segments.iter_mut() {
        store_if(segment.number == number, segment);
    }
}

fn drop_file_if(is_dropped: bool, segment: &mut Segment)
    ensures { segment.new ≡ (if is_dropped then drop_file segment.old else segment.old) }
{
    if is_dropped {
        segment.here = false;
    }
}

/// The local files of these segments are dropped.
pub fn drop_files(numbers: &[u32], segments: &mut [Segment])
    ensures { segments.new ≡ map (λ s. if contains_number numbers.now s.number then drop_file s else s) segments.old }
{
    for segment in segments.iter_mut() {
        drop_file_if(contains_segment(numbers, segment.number), segment);
    }
}

/// Forgets the segments that have died at or before this time.
pub fn forget_dead(horizon: u64, segments: &mut Vec<Segment>)
    ensures { segments.new.items ≡ filter (λ s. not (is_done horizon s.died)) segments.old.items }
{
    segments.retain(|segment| !is_done(horizon, segment.died));
}
