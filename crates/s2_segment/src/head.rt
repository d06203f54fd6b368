//! The head of a file, and the row numbers.
ghost use Rattle.std.specs.Prelude.{◌≡◌, ◌*◌, ◌≤◌, ◌<◌, true, nat_lt, length, IfOk, IsOk};
ghost use Rattle.std.specs.List.{list_all};
ghost use Rattle.byteorder.specs.Endian.{little_number};
ghost use Rattle.s2_colbytes.specs.Numbers.{numbers};
ghost use Rattle.s2_value.specs.Columns.{are_distinct};
ghost use Rattle.s2_segindex.specs.Reading.{Gives};
ghost use Rattle.s2_segment.specs.Reading.{GivesOrMemory};
ghost use Rattle.s2_segment.specs.Parts.{has_magic, has_shape, count_in, head_at, are_ids, ids_at};

use crate::SegErr;
use crate::blocks::split_front;
use s2_colbytes::{u32_at, u64_from};
use s2_value::{Memory, Schema};
use std::alloc::Global;
use std::collections::BTreeSet;

/// The first bytes of each file.
pub(crate) const MAGIC: [u8; 4] = *b"S2SG";

/// The most rows of a file.
pub(crate) const MOST_ROWS: u32 = 8192;

// Whether the head begins as that of a file.
fn has_magic(head: &[u8]) -> bool
    requires { 4 ≤ length head.now }
    ensures { result ≡ has_magic head.now }
{
    head.split_at(4).0 == MAGIC.as_slice()
}

// Whether the head has as many columns and keys as the schema.
fn has_shape(schema: &Schema, head: &[u8]) -> bool
    requires { 7 ≤ length head.now }
    ensures { result ≡ has_shape schema.now head.now }
{
    usize::from(head[5]) == schema.cols.len() && usize::from(head[6]) == schema.keys()
}

// How many rows the head has.
fn count_in(head: &[u8]) -> u32
    requires { length head.now ≡ 11 }
    ensures { result ≡ count_in head.now }
{
    u32_at(head.split_at(7).1, 0)
}

/// How many rows there are, and the bytes after the head.
#[tactic(auto, unfolding(crate::specs::Parts::head_at))]
pub(crate) fn split_head<'a>(schema: &Schema, bytes: &'a [u8]) -> Result<(u32, &'a [u8]), SegErr>
    ensures gives { Gives (λ x. (x.0, x.1.now)) result (head_at schema.now bytes.now) }
    ensures some { IfOk result (λ x. 1 ≤ x.0) }
    ensures few { IfOk result (λ x. x.0 ≤ 8192) }
{
    let (head, rest) = split_front(bytes, 11)?;
    if !has_magic(head) {
        return Err(SegErr::BadMagic);
    }
    if head[4] != 1 {
        return Err(SegErr::BadVersion);
    }
    if !has_shape(schema, head) {
        return Err(SegErr::BadShape);
    }
    let count = count_in(head);
    if count < 1 || count > MOST_ROWS {
        return Err(SegErr::BadCount);
    }
    Ok((count, rest))
}

// Whether no row number is 0.
#[tactic(auto, using(s2_segindex::proofs::Steps::numbers_step))]
fn are_positive(ids: &[u8], count: usize) -> bool
    requires { length ids.now ≡ 8 * count }
    ensures { result ≡ list_all (λ i. nat_lt 0 i) (numbers 8 count ids.now) }
{
    let mut left = count;
    let mut rest = ids;
    while left > 0 {
        if u64_from(rest, 0) == 0 {
            return false;
        }
        rest = rest.split_at(8).1;
        left -= 1;
    }
    true
}

// Whether no row number stands twice: each is looked for among those after it.
fn are_distinct(alloc: Global, ids: &[u8], count: usize) -> Result<bool, Memory>
    requires { length ids.now ≡ 8 * count }
    ensures { IfOk result (λ b. b ≡ are_distinct (numbers 8 count ids.now)) }
{
    let mut later = BTreeSet::new(alloc);
    let mut left = count;
    while left > 0 {
        left -= 1;
        if !later.insert(u64_from(ids, 8 * left))? {
            return Ok(false);
        }
    }
    Ok(true)
}

/// Whether row numbers are positive and distinct.
pub(crate) fn are_ids(alloc: Global, ids: &[u8], count: usize) -> Result<bool, Memory>
    requires { length ids.now ≡ 8 * count }
    ensures { IfOk result (λ b. b ≡ are_ids (numbers 8 count ids.now)) }
{
    if !are_positive(ids, count) {
        return Ok(false);
    }
    are_distinct(alloc, ids, count)
}

// Whether row numbers are positive and distinct, as those that were judged before are known to be.
fn are_right(alloc: Global, ids: &[u8], count: usize, judged: bool) -> Result<bool, Memory>
    requires whole { length ids.now ≡ 8 * count }
    requires judged { judged ≡ true → are_ids (numbers 8 count ids.now) ≡ true }
    ensures { IfOk result (λ b. b ≡ are_ids (numbers 8 count ids.now)) }
{
    if judged {
        return Ok(true);
    }
    are_ids(alloc, ids, count)
}

/// The bytes of `n` row numbers, and the bytes after them. What was judged before is not checked again.
#[tactic(auto, unfolding(crate::specs::Parts::ids_at))]
pub(crate) fn split_ids(
    alloc: Global,
    n: u32,
    judged: bool,
    bytes: &[u8],
) -> Result<(&[u8], &[u8]), SegErr>
    requires { judged ≡ true → IsOk (ids_at n bytes.now) }
    ensures gives { GivesOrMemory (λ x. (numbers 8 n x.0.now, x.1.now)) result (ids_at n bytes.now) }
    ensures whole { IfOk result (λ x. length x.0.now ≡ 8 * n) }
{
    let (ids, rest) = split_front(bytes, 8 * u64::from(n))?;
    if !are_right(alloc, ids, n as usize, judged)? {
        return Err(SegErr::BadRows);
    }
    Ok((ids, rest))
}
