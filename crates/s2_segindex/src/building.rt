//! The index block of rows is written.
ghost use Rattle.std.specs.Prelude.{◌≡◌, ◌+◌, ◌*◌, ◌≤◌, ◌<◌, ◌++◌, ℕ, List, true, length, map, vec_len, vec_capacity, IfOk, OnOk};
ghost use Rattle.std.specs.List.{list_all, flat_map};
ghost use Rattle.byteorder.specs.Endian.{little_bytes};
ghost use Rattle.s2_colbytes.specs.Numbers.{spelled};
ghost use Rattle.s2_value.specs.declared.values.Value.TheVariants.{Int, Text};
ghost use Rattle.s2_value.specs.Bytes.{value_bytes, key_bytes};
ghost use Rattle.s2_value.specs.Columns.{are_below};
ghost use Rattle.s2_value.specs.Rows.{key_of};
ghost use Rattle.s2_segindex.specs.Groups.{groups_of};
ghost use Rattle.s2_segindex.specs.Spells.{group_bytes, starts_from, block_of, is_small};

use crate::collecting::{Groups, collect};
use s2_colbytes::{put, put_i64, put_u16, put_u32};
use s2_value::{ColList, Key, Memory, Row, Seq, Txt, Value};
use std::alloc::Global;

// A key and its offsets.
type Group = (Key, Seq<u16>);

// Puts the number at the end, behind its tag.
fn write_int(number: i64, out: &mut Vec<u8>) -> Result<(), Memory>
    ensures items { OnOk result (out.new.items ≡ out.old.items ++ value_bytes (Int number)) }
    ensures size { OnOk result (vec_len out.new ≤ vec_len out.old + 257) }
{
    out.reserve(9)?;
    put(out, &[1]);
    put_i64(out, number);
    Ok(())
}

// Puts the text at the end, behind its tag and its length.
fn write_text(text: &Txt, out: &mut Vec<u8>) -> Result<(), Memory>
    ensures items { OnOk result (out.new.items ≡ out.old.items ++ value_bytes (Text text.now)) }
    ensures size { OnOk result (vec_len out.new ≤ vec_len out.old + 257) }
{
    let bytes = text.bytes();
    out.reserve(2 + bytes.len())?;
    put(out, &[2, bytes.len() as u8]);
    put(out, bytes);
    Ok(())
}

// Puts the value's bytes at the end.
fn write_value(value: &Value, out: &mut Vec<u8>) -> Result<(), Memory>
    ensures items { OnOk result (out.new.items ≡ out.old.items ++ value_bytes value.now) }
    ensures size { OnOk result (vec_len out.new ≤ vec_len out.old + 257) }
{
    match value {
        Value::Int(number) => write_int(*number, out),
        Value::Text(text) => write_text(text, out),
    }
}

// Puts the key's bytes at the end.
fn write_key(key: &[Value], out: &mut Vec<u8>) -> Result<(), Memory>
    ensures items { OnOk result (out.new.items ≡ out.old.items ++ key_bytes key.now) }
    ensures size { OnOk result (vec_len out.new ≤ vec_len out.old + 257 * length key.now) }
{
    for value in key {
        write_value(value, out)?;
    }
    Ok(())
}

// Puts the numbers at the end, for which there is room.
fn put_numbers(numbers: &[u16], out: &mut Vec<u8>)
    requires { vec_len out.old + 2 * length numbers.now ≤ vec_capacity out.old }
    ensures items { out.new.items ≡ out.old.items ++ spelled 2 numbers.now }
    ensures size { vec_len out.new ≡ vec_len out.old + 2 * length numbers.now }
{
    for number in numbers {
        put_u16(out, *number);
    }
}

// Puts the offsets at the end, behind how many they are.
fn write_offsets(offsets: &[u16], out: &mut Vec<u8>) -> Result<(), Memory>
    requires { length offsets.now ≤ 8192 }
    ensures items { OnOk result (out.new.items ≡ out.old.items ++ (little_bytes 2 (length offsets.now) ++ spelled 2 offsets.now)) }
    ensures size { OnOk result (vec_len out.new ≤ vec_len out.old + 16386) }
{
    out.reserve(2 + 2 * offsets.len())?;
    put_u16(out, offsets.len() as u16);
    put_numbers(offsets, out);
    Ok(())
}

// Puts the group's bytes at the end.
fn write_group(group: &Group, out: &mut Vec<u8>) -> Result<(), Memory>
    requires { is_small group.now ≡ true }
    ensures items { OnOk result (out.new.items ≡ out.old.items ++ group_bytes group.now) }
    ensures size { OnOk result (vec_len out.new ≤ vec_len out.old + 20498) }
{
    write_key(group.0.as_slice(), out)?;
    write_offsets(group.1.as_slice(), out)
}

// Puts where a group stands at the end.
fn write_start(place: u32, out: &mut Vec<u8>) -> Result<(), Memory>
    ensures { OnOk result (out.new.items ≡ out.old.items ++ little_bytes 4 place) }
{
    out.reserve(4)?;
    put_u32(out, place);
    Ok(())
}

// Puts the groups at the end of one, and where each stands at the end of the other. The first stands at the place.
fn write_groups(
    groups: &[Group],
    place: u32,
    starts: &mut Vec<u8>,
    body: &mut Vec<u8>,
) -> Result<(), Memory>
    requires few { length groups.now ≤ 8192 }
    requires small { list_all is_small groups.now ≡ true }
    requires place { place ≤ 32772 }
    requires empty { vec_len body.old ≡ 0 }
    ensures starts { OnOk result (starts.new.items ≡ starts.old.items ++ spelled 4 (starts_from place groups.now)) }
    ensures body { OnOk result (body.new.items ≡ flat_map group_bytes groups.now) }
{
    for group in groups {
        write_start(place + body.len() as u32, starts)?;
        write_group(group, body)?;
    }
    Ok(())
}

// The groups of the map, by rising key.
fn listed(alloc: Global, groups: Groups) -> Result<Vec<Group>, Memory>
    ensures { IfOk result (λ list. list.items ≡ groups.entries) }
{
    groups.into_iter().collect(alloc)
}

// The block of the groups.
#[tactic(auto, unfolding(crate::specs::Spells::block_of))]
fn write_block(alloc: Global, groups: &[Group]) -> Result<Vec<u8>, Memory>
    requires few { length groups.now ≤ 8192 }
    requires small { list_all is_small groups.now ≡ true }
    ensures { IfOk result (λ out. out.items ≡ block_of groups.now) }
{
    let mut starts = Vec::new(alloc);
    let mut body = Vec::new(alloc);
    let count = groups.len() as u32;
    write_groups(groups, 4 + 4 * count, &mut starts, &mut body)?;
    let mut out = Vec::with_capacity(alloc, 4)?;
    put_u32(&mut out, count);
    out.extend_from_slice(starts.as_slice())?;
    out.extend_from_slice(body.as_slice())?;
    Ok(out)
}

/// The index block of the rows by the values at these columns: the distinct keys, rising, each with the offsets of the
/// rows that have it. The keys stand in an ordered map, so that no row is compared with all others.
pub fn build(alloc: Global, rows: &[Row], cols: &ColList) -> Result<Vec<u8>, Memory>
    requires few { length rows.now ≤ 8192 }
    requires key { length cols.now ≤ 16 }
    requires columns { list_all (λ r. are_below (length r) cols.now) rows.now ≡ true }
    ensures { IfOk result (λ out. out.items ≡ block_of (groups_of (map (key_of cols.now) rows.now))) }
{
    let groups = collect(alloc, rows, cols.as_slice())?;
    let list = listed(alloc, groups)?;
    write_block(alloc, list.as_slice())
}
