//! The places in segments at which rows lie.
ghost use Rattle.std.specs.Prelude.{◌≡◌, ◌++◌, ◌&&◌, IfOk, OnOk, filter, map};
ghost use Rattle.std.specs.List.{enumerate_from};
ghost use Rattle.s2_model.specs.History.{history};
ghost use Rattle.s2_model.specs.Placement.{contains_number, is_free, placement};
ghost use Rattle.s2_model.specs.Verdict.{resting_places};

use crate::notes::offset_of;
use crate::placed::{Segment, Spot};
use crate::placements::placed;
use crate::versions::contains_number;
use s2_model::{Entry, PlaceList};
use s2_value::{Memory, Row, Seq};
use std::alloc::Global;

fn numbers_of(alloc: Global, rows: &[(u64, Row)]) -> Result<Vec<u64>, Memory>
    ensures { IfOk result (λ v. v.items ≡ map (λ p. p.0) rows.now) }
{
    let mut numbers = Vec::new(alloc);
    for row in rows {
        numbers.push(row.0)?;
    }
    Ok(numbers)
}

/// The unmarked places of one segment with rows of these numbers.
fn add_resting_in(
    numbers: &[u64],
    segment: u32,
    spots: &[Spot],
    places: &mut Vec<(u32, u32)>,
) -> Result<(), Memory>
    ensures { OnOk result (places.new.items ≡ places.old.items ++ map (λ p. (segment, p.0)) (filter (λ p. is_free p.1 && contains_number numbers.now p.1.id) (enumerate_from 0 spots.now))) }
{
    let mut offset = 0;
    let mut left = spots;
    while let [spot, rest @ ..] = left {
        if spot.mark.is_none() && contains_number(numbers, spot.id) {
            places.push((segment, offset_of(offset)?))?;
        }
        offset += 1;
        left = rest;
    }
    Ok(())
}

fn resting_places(
    alloc: Global,
    segments: &[Segment],
    numbers: &[u64],
) -> Result<Vec<(u32, u32)>, Memory>
    ensures { IfOk result (λ v. v.items ≡ resting_places segments.now numbers.now) }
{
    let mut places = Vec::new(alloc);
    let mut left = segments;
    while let [segment, rest @ ..] = left {
        if segment.died.is_none() {
            add_resting_in(numbers, segment.number, &segment.spots, &mut places)?;
        }
        left = rest;
    }
    Ok(places)
}

/// The unmarked places in living segments at which these rows lie, by segment, then by offset, after the entries, the oldest first.
/// The `Err` is want of memory; it also comes where a row lies at an offset of 2^32 or more, which no place can name.
pub fn resting(alloc: Global, h: &[Entry], rows: &[(u64, Row)]) -> Result<PlaceList, Memory>
    ensures { IfOk result (λ v. v ≡ resting_places (placement (history h.now)).segments (map (λ p. p.0) rows.now)) }
{
    let placed = placed(alloc, h)?;
    let numbers = numbers_of(alloc, rows)?;
    let places = resting_places(alloc, &placed.segments, &numbers)?;
    Ok(Seq::from_vec(places))
}
