//! The groups of an index block, each checked in turn.
ghost use Rattle.std.specs.Prelude.{◌≡◌, ◌+◌, ◌*◌, ◌≤◌, ◌==◌, length, drop, true, None};
ghost use Rattle.std.specs.Option.{option_map, option_copied};
ghost use Rattle.byteorder.specs.Endian.{little_number};
ghost use Rattle.s2_colbytes.specs.Numbers.{numbers};
ghost use Rattle.s2_segindex.specs.Reading.{Gives, rest_of};
ghost use Rattle.s2_segindex.specs.Groups.{is_above};
ghost use Rattle.s2_segindex.specs.Blocks.{are_between, are_offsets, offsets_at, group_at, groups_at};
ghost use Rattle.s2_segindex.specs.Places.{key_in};

use crate::IndexErr;
use crate::keys::{cmp_keys, split_front, split_key, split_u16};
use s2_colbytes::u32_at;
use s2_value::ColType;
use std::cmp::Ordering;

// The first number of two bytes, and the bytes after it.
fn next_u16(bytes: &[u8]) -> (u16, &[u8])
    requires { 2 ≤ length bytes.now }
    ensures first { result.0 ≡ little_number 2 bytes.now }
    ensures later { result.1.now ≡ drop 2 bytes.now }
{
    (s2_colbytes::u16_at(bytes, 0), bytes.split_at(2).1)
}

// The first number of four bytes, and the bytes after it.
fn next_u32(bytes: &[u8]) -> (u32, &[u8])
    requires { 4 ≤ length bytes.now }
    ensures first { result.0 ≡ little_number 4 bytes.now }
    ensures later { result.1.now ≡ drop 4 bytes.now }
{
    (u32_at(bytes, 0), bytes.split_at(4).1)
}

// Whether the numbers rise strictly, the first at least `low`, all below `n`.
#[tactic(auto, using(crate::proofs::Steps::numbers_step))]
fn are_between(low: u32, n: u32, count: usize, bytes: &[u8]) -> bool
    requires { length bytes.now ≡ 2 * count }
    ensures { result ≡ are_between low n (numbers 2 count bytes.now) }
{
    let mut low = low;
    let mut left = count;
    let mut rest = bytes;
    while left > 0 {
        let (offset, later) = next_u16(rest);
        let offset = u32::from(offset);
        if offset < low || offset >= n {
            return false;
        }
        low = offset + 1;
        rest = later;
        left -= 1;
    }
    true
}

// Whether there is at least one number, they rise strictly, and all are below `n`.
#[tactic(auto, using(crate::proofs::Steps::count_numbers))]
fn are_offsets(n: u32, count: usize, bytes: &[u8]) -> bool
    requires { length bytes.now ≡ 2 * count }
    ensures { result ≡ are_offsets n (numbers 2 count bytes.now) }
{
    count > 0 && are_between(0, n, count, bytes)
}

// The bytes after a group's offsets: `Short` of their number and of them, `BadOffset`.
#[tactic(auto, unfolding(crate::specs::Blocks::offsets_at))]
fn split_offsets(n: u32, bytes: &[u8]) -> Result<&[u8], IndexErr>
    ensures { Gives (λ x. x.now) result (rest_of (offsets_at n bytes.now)) }
{
    let (count, rest) = split_u16(bytes)?;
    let (offsets, rest) = split_front(rest, 2 * u64::from(count))?;
    if !are_offsets(n, usize::from(count), offsets) {
        return Err(IndexErr::BadOffset);
    }
    Ok(rest)
}

// Whether the key is above the one before it.
fn is_above(width: usize, before: Option<&[u8]>, bytes: &[u8]) -> bool
    ensures { result ≡ is_above (option_map (key_in width) (option_copied before.entry)) (key_in width bytes.now) }
{
    match before {
        None => true,
        Some(before) => cmp_keys(width, before, bytes) == Ordering::Less,
    }
}

// The bytes after a group that stands at its start: the faults of its key, `Unsorted`, then those of its offsets.
#[tactic(auto, using(crate::proofs::InPlace::group_goes, crate::proofs::InPlace::group_stops))]
fn split_placed<'a>(
    kinds: &[ColType],
    n: u32,
    before: Option<&[u8]>,
    bytes: &'a [u8],
) -> Result<&'a [u8], IndexErr>
    ensures { Gives (λ x. x.now) result (rest_of (group_at kinds.now n true (option_map (key_in (length kinds.now)) (option_copied before.entry)) bytes.now)) }
{
    let rest = split_key(kinds, bytes)?;
    if !is_above(kinds.len(), before, bytes) {
        return Err(IndexErr::Unsorted);
    }
    split_offsets(n, rest)
}

// The bytes after a group: `BadStart`, then its other faults.
#[tactic(auto, unfolding(crate::specs::Blocks::group_at))]
fn split_group<'a>(
    kinds: &[ColType],
    n: u32,
    placed: bool,
    before: Option<&[u8]>,
    bytes: &'a [u8],
) -> Result<&'a [u8], IndexErr>
    ensures { Gives (λ x. x.now) result (rest_of (group_at kinds.now n placed (option_map (key_in (length kinds.now)) (option_copied before.entry)) bytes.now)) }
{
    if placed {
        split_placed(kinds, n, before, bytes)
    } else {
        Err(IndexErr::BadStart)
    }
}

// Whether the bytes that are left begin at the start.
fn stands_at(start: u32, left: usize, total: usize) -> bool
    ensures { result ≡ (start + left == total) }
{
    left <= total && start as usize == total - left
}

/// The bytes after the groups that stand at these starts, the block having `total` bytes.
#[tactic(auto, using(crate::proofs::Steps::numbers_step, crate::proofs::InPlace::groups_go, crate::proofs::InPlace::groups_stop))]
pub(crate) fn split_groups<'a>(
    kinds: &[ColType],
    n: u32,
    total: usize,
    count: u32,
    starts: &[u8],
    bytes: &'a [u8],
) -> Result<&'a [u8], IndexErr>
    requires { length starts.now ≡ 4 * count }
    ensures { Gives (λ x. x.now) result (rest_of (groups_at kinds.now n total (numbers 4 count starts.now) None bytes.now)) }
{
    let mut before = None;
    let mut left = count;
    let mut starts = starts;
    let mut rest = bytes;
    while left > 0 {
        let (start, later) = next_u32(starts);
        let here = rest;
        rest = split_group(kinds, n, stands_at(start, here.len(), total), before, here)?;
        before = Some(here);
        starts = later;
        left -= 1;
    }
    Ok(rest)
}
