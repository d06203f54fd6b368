//! Whether an index block is that of rows, by a look at each of its offsets.
ghost use Rattle.std.specs.Prelude.{◌≡◌, ◌*◌, ◌≤◌, true, length, IfSome};
ghost use Rattle.std.specs.List.{list_all};
ghost use Rattle.std.specs.Ordering.{is_eq};
ghost use Rattle.s2_colbytes.specs.Numbers.{numbers};
ghost use Rattle.s2_value.specs.Columns.{are_below};
ghost use Rattle.s2_value.specs.Order.{row_cmp};
ghost use Rattle.s2_value.specs.Rows.{key_of};
ghost use Rattle.s2_segindex.specs.Places.{key_in, after_key, group_in, groups_in, has_offsets, IsIndex};
ghost use Rattle.s2_segment.specs.Matched.{has_key, is_matched, AreMatched};

use s2_colbytes::u16_at;
use s2_segindex::{after_key, after_value, cmp_value, count_of, group_from};
use s2_value::{Row, Value};
use std::cmp::Ordering;

// Whether the row's values at the places are those at the front of the bytes.
fn has_key(places: &[u8], row: &[Value], bytes: &[u8]) -> bool
    requires { are_below (length row.now) places.now ≡ true }
    ensures { result ≡ is_eq (row_cmp (key_of places.now row.now) (key_in (length places.now) bytes.now)) }
{
    let mut left = places;
    let mut rest = bytes;
    while let [place, later @ ..] = left {
        if cmp_value(&row[usize::from(*place)], rest) != Ordering::Equal {
            return false;
        }
        rest = after_value(rest);
        left = later;
    }
    true
}

// Whether each offset is of a row that has the key at the front of the group.
#[tactic(auto, using(s2_segindex::proofs::Steps::numbers_step))]
fn have_key(places: &[u8], rows: &[Row], group: &[u8], count: usize, offsets: &[u8]) -> bool
    requires whole { 2 * count ≤ length offsets.now }
    requires rows { list_all (λ r. are_below (length r) places.now) rows.now ≡ true }
    ensures { result ≡ list_all (has_key rows.now places.now (key_in (length places.now) group.now)) (numbers 2 count offsets.now) }
{
    let mut left = count;
    let mut rest = offsets;
    while left > 0 {
        let offset = usize::from(u16_at(rest, 0));
        if offset >= rows.len() || !has_key(places, rows[offset].as_slice(), group) {
            return false;
        }
        rest = rest.split_at(2).1;
        left -= 1;
    }
    true
}

// How many offsets a group has, where each is of a row that has its key.
fn count_matched(places: &[u8], rows: &[Row], group: &[u8]) -> Option<usize>
    requires whole { has_offsets (after_key (length places.now) group.now) ≡ true }
    requires rows { list_all (λ r. are_below (length r) places.now) rows.now ≡ true }
    ensures matched { IfSome result (λ count. is_matched rows.now places.now (group_in (length places.now) group.now) ≡ true) }
    ensures count { IfSome result (λ count. count ≡ length (group_in (length places.now) group.now).1) }
{
    let rest = after_key(places.len(), group);
    let count = usize::from(u16_at(rest, 0));
    let offsets = rest.split_at(2).1;
    if have_key(places, rows, group, count, offsets) {
        Some(count)
    } else {
        None
    }
}

/// Whether the groups of an index have as many offsets as there are rows, each of a row that has its group's key: then
/// they are the groups of the rows. It takes no memory.
pub(crate) fn are_matched(places: &[u8], rows: &[Row], bytes: &[u8]) -> bool
    requires index { IsIndex (length places.now) bytes.now }
    requires rows { list_all (λ r. are_below (length r) places.now) rows.now ≡ true }
    ensures { result ≡ true → AreMatched rows.now places.now (groups_in (length places.now) bytes.now) }
{
    let mut left = rows.len();
    for i in 0..count_of(bytes) {
        match count_matched(places, rows, group_from(places.len(), bytes, i)) {
            Some(count) if count <= left => left -= count,
            _ => return false,
        }
    }
    left == 0
}
