//! A key is sought among the groups of an index block.
ghost use Rattle.std.specs.Prelude.{◌≡◌, ◌+◌, ◌*◌, ◌<◌, ◌≤◌, length, take, drop, slice_index, true};
ghost use Rattle.std.specs.Option.{option_copied};
ghost use Rattle.byteorder.specs.Endian.{little_number};
ghost use Rattle.s2_segindex.specs.Groups.{offsets_at_key};
ghost use Rattle.s2_segindex.specs.Places.{IsIndex, starts_in, after_key, groups_in, has_offsets, offset_bytes};

use crate::keys::{after_key, cmp_key};
use s2_colbytes::{u16_at, u32_at};
use s2_value::Value;
use std::cmp::Ordering;

/// How many groups an index block says that it has.
pub fn count_of(bytes: &[u8]) -> usize
    requires { 4 ≤ length bytes.now }
    ensures { result ≡ little_number 4 bytes.now }
{
    u32_at(bytes, 0) as usize
}

// Where group `i` begins.
fn start_of(bytes: &[u8], i: usize) -> usize
    requires whole { 4 + 4 * little_number 4 bytes.now ≤ length bytes.now }
    requires within { i < little_number 4 bytes.now }
    ensures { result ≡ slice_index (starts_in bytes.now) i }
{
    u32_at(bytes, i + 1) as usize
}

/// The bytes of an index block of keys of `width` values from group `i` on: its key, then how many offsets it has, then
/// those. It takes constant time.
pub fn group_from(width: usize, bytes: &[u8], i: usize) -> &[u8]
    requires index { IsIndex width bytes.now }
    requires within { i < little_number 4 bytes.now }
    ensures place { result.now ≡ drop (slice_index (starts_in bytes.now) i) bytes.now }
    ensures whole { has_offsets (after_key width result.now) ≡ true }
{
    bytes.split_at(start_of(bytes, i)).1
}

// The bytes of the offsets at the front, behind how many they are.
fn offsets_of(bytes: &[u8]) -> &[u8]
    requires { has_offsets bytes.now ≡ true }
    ensures { result.now ≡ take (2 * little_number 2 bytes.now) (drop 2 bytes.now) }
{
    let count = usize::from(u16_at(bytes, 0));
    bytes.split_at(2).1.split_at(2 * count).0
}

/// The bytes of the key's offsets, where a group has the key.
pub(crate) fn find<'a>(width: usize, bytes: &'a [u8], key: &[Value]) -> Option<&'a [u8]>
    requires { IsIndex width bytes.now }
    ensures { option_copied result ≡ offset_bytes (offsets_at_key key.now (groups_in width bytes.now)) }
{
    let mut low = 0;
    let mut high = count_of(bytes);
    while low < high {
        let mid = low + (high - low) / 2;
        let group = group_from(width, bytes, mid);
        match cmp_key(key, width, group) {
            Ordering::Less => high = mid,
            Ordering::Greater => low = mid + 1,
            Ordering::Equal => return Some(offsets_of(after_key(width, group))),
        }
    }
    None
}
