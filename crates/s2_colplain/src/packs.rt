//! Numbers are packed: their distances from the least one, in as many bits as the greatest distance needs.
ghost use Rattle.std.specs.Prelude.{◌≡◌, ℕ, ◌+◌, ◌-◌, ◌*◌, ◌/◌, ◌^◌, ◌<◌, ◌≤◌, ◌++◌, length, pos, slice_index_or, vec_len, vec_capacity, OnOk, OnErr};
ghost use Rattle.s2_colbytes.specs.Numbers.{bytes_of};
ghost use Rattle.s2_colplain.specs.Packed.{rank, of_rank, least_rank, greatest_rank, spread, digits, packed_len, field_bytes, packed_ints};

use crate::ints::put_int;
use s2_colbytes::put;
use s2_value::Memory;

const HALF: u64 = 1 << 63;

// How far the number is above the least one.
#[inline]
fn rank_of(val: &i64) -> u64
    ensures { result ≡ rank val.now }
{
    let number = *val;
    number.cast_unsigned().wrapping_add(HALF)
}

// The number of a rank.
fn of_rank(rank: u64) -> i64
    ensures { result ≡ of_rank rank }
{
    if rank < HALF {
        rank.cast_signed() - i64::MAX - 1
    } else {
        (rank - HALF).cast_signed()
    }
}

fn least_rank(vals: &[i64]) -> u64
    ensures { result ≡ least_rank vals.now }
{
    let mut least = u64::MAX;
    for val in vals {
        least = least.min(rank_of(val));
    }
    least
}

fn greatest_rank(vals: &[i64]) -> u64
    ensures { result ≡ greatest_rank vals.now }
{
    let mut greatest = 0;
    for val in vals {
        greatest = greatest.max(rank_of(val));
    }
    greatest
}

// Puts the lowest 64 bits, for which there is room.
fn put_word(word: u128, out: &mut Vec<u8>)
    requires { vec_len out.old + 8 ≤ vec_capacity out.old }
    ensures items { out.new.items ≡ out.old.items ++ bytes_of 8 word }
    ensures len { vec_len out.new ≡ vec_len out.old + 8 }
    ensures room { vec_capacity out.old ≤ vec_capacity out.new }
{
    let low = (word & u128::from(u64::MAX)) as u64;
    put(out, &low.to_le_bytes());
}

// Puts the lowest bits in as few bytes as have them, for which there is room.
fn put_last(word: u128, filled: u32, out: &mut Vec<u8>)
    requires few { filled ≤ 64 }
    requires room { vec_len out.old + (filled + 7) / 8 ≤ vec_capacity out.old }
    ensures { out.new.items ≡ out.old.items ++ bytes_of ((filled + 7) / 8) word }
{
    let low = (word & u128::from(u64::MAX)) as u64;
    put(out, &low.to_le_bytes()[..filled.div_ceil(8) as usize]);
}

// Sets the field above the bits that wait, and puts the lowest 64 once there are as many. The bits that wait then, and how
// many they are.
#[inline]
fn push_field(word: u128, filled: u32, field: u64, width: u32, out: &mut Vec<u8>) -> (u128, u32)
    requires few { filled < 64 }
    requires waits { word < 2 ^ filled }
    requires narrow { width ≤ 63 }
    requires fits { field < 2 ^ width }
    requires room { 64 ≤ filled + width → vec_len out.old + 8 ≤ vec_capacity out.old }
    ensures word_waits { filled + width < 64 → result.0 ≡ word + field * 2 ^ filled }
    ensures bits_wait { filled + width < 64 → result.1 ≡ filled + width }
    ensures out_waits { filled + width < 64 → out.new.items ≡ out.old.items }
    ensures len_waits { filled + width < 64 → vec_len out.new ≡ vec_len out.old }
    ensures word_left { 64 ≤ filled + width → result.0 ≡ (word + field * 2 ^ filled) / 2 ^ 64 }
    ensures bits_left { 64 ≤ filled + width → result.1 ≡ filled + width - 64 }
    ensures out_word { 64 ≤ filled + width → out.new.items ≡ out.old.items ++ bytes_of 8 (word + field * 2 ^ filled) }
    ensures len_word { 64 ≤ filled + width → vec_len out.new ≡ vec_len out.old + 8 }
    ensures capacity { vec_capacity out.old ≤ vec_capacity out.new }
{
    let all = word + (u128::from(field) << filled);
    let bits = filled + width;
    if bits < 64 {
        return (all, bits);
    }
    put_word(all, out);
    (all >> 64, bits - 64)
}

// Puts the distances from the base in as many bits each, for which there is room.
fn put_fields(vals: &[i64], base: u64, width: u32, out: &mut Vec<u8>)
    requires narrow { width ≤ 63 }
    requires above { (i : ℕ) → i < length vals.now → base ≤ rank (slice_index_or vals.now i (pos 0)) }
    requires fit { (i : ℕ) → i < length vals.now → rank (slice_index_or vals.now i (pos 0)) < base + 2 ^ width }
    requires room { vec_len out.old + packed_len width (length vals.now) ≤ vec_capacity out.old }
    ensures { out.new.items ≡ out.old.items ++ field_bytes base width vals.now }
{
    let mut word = 0;
    let mut filled = 0;
    for val in vals {
        let field = rank_of(val) - base;
        (word, filled) = push_field(word, filled, field, width, out);
    }
    put_last(word, filled, out);
}

// How many bytes as many fields take.
fn bytes_for(fields: usize, width: u32) -> usize
    requires narrow { width ≤ 63 }
    requires few { fields < 2 ^ 60 }
    ensures { result ≡ packed_len width fields }
{
    let bits = fields as u128 * u128::from(width);
    bits.div_ceil(8) as usize
}

/// Puts the numbers at the end of `out`: the least one as base, as width the number of binary digits of greatest less
/// least, and the distances from the base; unused bits are 0. Want of memory leaves `out` as it was.
pub fn write_packed(vals: &[i64], out: &mut Vec<u8>) -> Result<(), Memory>
    requires some { 0 < length vals.now }
    requires near { spread vals.now < 2 ^ 63 }
    ensures ok { OnOk result (out.new.items ≡ out.old.items ++ packed_ints vals.now) }
    ensures err { OnErr result (out.new.items ≡ out.old.items) }
{
    let base = least_rank(vals);
    let width = 64 - (greatest_rank(vals) - base).leading_zeros();
    out.reserve(9 + bytes_for(vals.len(), width))?;
    let least = of_rank(base);
    put_int(&least, out);
    put(out, &[width as u8]);
    put_fields(vals, base, width, out);
    Ok(())
}
