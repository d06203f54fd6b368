//! How long each form of a column block is, before any of it is written.
ghost use Rattle.std.specs.Prelude.{◌≡◌, ◌+◌, ◌*◌, ◌<◌, ◌≤◌, length, map, Some, None};
ghost use Rattle.s2_colplain.specs.Packed.{rank, least_rank, greatest_rank, spread, digits, packed_len};
ghost use Rattle.s2_colenc.specs.Written.{runs_of};
ghost use Rattle.std.specs.List.{AllByRecursion};
ghost use Rattle.s2_colenc.specs.Spells.{IsValue};
ghost use Rattle.s2_colenc.specs.Sizes.{entry_size, entries_size, runs_size, leading, shorter, with_packed, choice, packed_size};

use crate::Form;
use s2_value::Value;

const HALF: u64 = 1 << 63;

// How long a value is in a plain body.
fn entry_size(val: &Value) -> usize
    ensures size { result ≡ entry_size val.now }
    ensures small { result ≤ 259 }
    ensures value { IsValue val.now }
{
    match val {
        Value::Int(number) => {
            let _number = *number;
            8
        }
        Value::Text(text) => 4 + text.bytes().len(),
    }
}

/// How long values are in a plain body.
pub fn entries_size(vals: &[Value]) -> usize
    requires { length vals.now ≤ 8192 }
    ensures size { result ≡ entries_size vals.now }
    ensures small { result ≤ 259 * length vals.now }
    ensures values { AllByRecursion IsValue vals.now }
{
    let mut total = 0;
    for val in vals {
        total += entry_size(val);
    }
    total
}

/// How many values at the front are `first`.
pub fn leading(first: &Value, vals: &[Value]) -> usize
    ensures count { result ≡ leading first.now vals.now }
    ensures within { result ≤ length vals.now }
{
    let mut count = 0;
    for val in vals {
        if first != val {
            return count;
        }
        count += 1;
    }
    count
}

/// How long the lengths and values of the longest runs are.
pub fn runs_size(vals: &[Value]) -> usize
    requires { length vals.now ≤ 8192 }
    ensures size { result ≡ runs_size vals.now }
    ensures small { result ≤ 261 * length vals.now }
{
    let mut total = 0;
    let mut left = vals;
    while let [first, later @ ..] = left {
        total += 2 + entry_size(first);
        left = later.split_at(leading(first, later)).1;
    }
    total
}

// How far the number is above the least one.
#[inline]
fn rank_of(val: &i64) -> u64
    ensures { result ≡ rank val.now }
{
    let number = *val;
    number.cast_unsigned().wrapping_add(HALF)
}

fn least_rank(vals: &[i64]) -> u64
    ensures { result ≡ least_rank vals.now }
{
    let mut least = u64::MAX;
    for val in vals {
        least = least.min(rank_of(val));
    }
    least
}

fn greatest_rank(vals: &[i64]) -> u64
    ensures { result ≡ greatest_rank vals.now }
{
    let mut greatest = 0;
    for val in vals {
        greatest = greatest.max(rank_of(val));
    }
    greatest
}

// How many bytes as many fields take.
fn bytes_for(fields: usize, width: u32) -> usize
    requires narrow { width ≤ 64 }
    requires few { fields ≤ 8192 }
    ensures { result ≡ packed_len width fields }
{
    (fields * width as usize).div_ceil(8)
}

/// How long the block of packed numbers is, where they may be packed: where greatest less least is below 2^63.
pub fn packed_size(vals: &[i64]) -> Option<usize>
    requires some { 0 < length vals.now }
    requires few { length vals.now ≤ 8192 }
    ensures { result ≡ packed_size vals.now }
{
    let spread = greatest_rank(vals) - least_rank(vals);
    if spread >= HALF {
        return None;
    }
    Some(10 + bytes_for(vals.len(), 64 - spread.leading_zeros()))
}

fn shorter(best: (Form, usize), next: (Form, usize)) -> (Form, usize)
    ensures { result ≡ shorter best next }
{
    if next.1 < best.1 { next } else { best }
}

fn with_packed(best: (Form, usize), packed: Option<usize>) -> (Form, usize)
    ensures { result ≡ with_packed best packed }
{
    match packed {
        Some(size) => shorter(best, (Form::PackedInt, size)),
        None => best,
    }
}

/// The first of the shortest forms, by rising tag, and its length.
pub fn choice(
    plain: Form,
    size: usize,
    packed: Option<usize>,
    dictionary: usize,
    runs: usize,
) -> (Form, usize)
    ensures { result ≡ choice plain size packed dictionary runs }
{
    let best = with_packed((plain, size), packed);
    let best = shorter(best, (Form::Dictionary, dictionary));
    shorter(best, (Form::Runs, runs))
}
