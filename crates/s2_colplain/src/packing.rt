//! Packed numbers: a base, a width, and for each number its distance from the base in as many bits.
ghost use Rattle.std.specs.Prelude.{◌≡◌, ◌+◌, ◌-◌, ◌*◌, ◌^◌, ◌<◌, ◌≤◌, ◌||◌, false, true, length, take, drop, pos, ◌+ℤ◌, slice_index_or, IfOk, IsOk, FitsSigned};
ghost use Rattle.std.specs.Int.{w64};
ghost use Rattle.std.specs.List.{list_any};
ghost use Rattle.s2_colbytes.specs.Reading.{Gives, to_the_end};
ghost use Rattle.s2_colbytes.specs.Numbers.{number_of};
ghost use Rattle.s2_colplain.specs.Packed.{head_at, packed_at, packed_len, field, unpacked, is_over};

use s2_colbytes::{ColErr, end, i64_at, split_front, u64_from};
use std::marker::Model;

/// Packed numbers, read in place. In contracts it is the list of the numbers.
#[derive(Debug, Drop)]
pub struct Packed<'a> {
    count: u32,
    base: i64,
    width: u32,
    bytes: &'a [u8],
}

impl<'a> Model for Packed<'a> {
    ghost use Rattle.std.specs.Prelude.{◌≡◌, ◌*◌, List, ℤ, length};
    ghost use Rattle.s2_colplain.specs.Packed.{unpacked, IsPacked};

    ghost Value = { List ℤ };

    ghost view = { λ p. unpacked p.base p.width p.count p.bytes.now };

    ghost invariant = { λ p. IsPacked p.base p.width p.count p.bytes.now };
}

// Up to nine bytes from byte `at` on, as a number.
#[inline]
fn word_from(bytes: &[u8], at: usize) -> u128
    requires { at ≤ length bytes.now }
    ensures { result ≡ number_of (take 9 (drop at bytes.now)) }
{
    if bytes.len() - at >= 9 {
        u128::from(u64_from(bytes, at)) + (u128::from(bytes[at + 8]) << 64)
    } else {
        last_word(&bytes[at..])
    }
}

// The number that at most eight bytes are.
fn last_word(bytes: &[u8]) -> u128
    requires { length bytes.now ≤ 8 }
    ensures value { result ≡ number_of bytes.now }
    ensures small { result < 2 ^ 64 }
{
    match bytes {
        [] => 0,
        [first, rest @ ..] => u128::from(*first) + 256 * last_word(rest),
    }
}

// A field by the nine bytes that it stands in, of which the last may lack some.
#[cold]
#[inline(never)]
fn wide_field(bytes: &[u8], width: u32, i: u32) -> u64
    requires narrow { width ≤ 63 }
    requires within { width * (i + 1) ≤ 8 * length bytes.now }
    ensures value { result ≡ field width i (number_of bytes.now) }
    ensures small { result < 2 ^ width }
{
    let bit = u64::from(width) * u64::from(i);
    let word = word_from(bytes, (bit / 8) as usize) >> (bit % 8);
    (word & ((1u128 << width) - 1)) as u64
}

// The number in the `width` bits from bit `width * i` on. Eight bytes hold a field of at most 57 bits, whichever bit it begins at.
#[inline]
fn field(bytes: &[u8], width: u32, i: u32) -> u64
    requires narrow { width ≤ 63 }
    requires within { width * (i + 1) ≤ 8 * length bytes.now }
    ensures value { result ≡ field width i (number_of bytes.now) }
    ensures small { result < 2 ^ width }
{
    let bit = u64::from(width) * u64::from(i);
    let at = (bit / 8) as usize;
    if width <= 57 {
        if at + 8 <= bytes.len() {
            return (u64_from(bytes, at) >> (bit % 8)) & ((1u64 << width) - 1);
        }
    }
    wide_field(bytes, width, i)
}

// Whether the base plus a field is above the greatest number.
#[inline]
fn is_over(base: i64, field: u64) -> bool
    requires { field < 2 ^ 63 }
    ensures { result ≡ is_over (base +ℤ pos field) }
{
    base > 0 && field > (i64::MAX - base) as u64
}

// Whether the base plus some field is above the greatest number.
fn has_over(base: i64, width: u32, count: u32, bytes: &[u8]) -> bool
    requires narrow { width ≤ 63 }
    requires whole { count * width ≤ 8 * length bytes.now }
    ensures { result ≡ list_any is_over (unpacked base width count bytes.now) }
{
    if !is_over(base, (1u64 << width) - 1) {
        return false;
    }
    for i in 0..count {
        if is_over(base, field(bytes, width, i)) {
            return true;
        }
    }
    false
}

// Whether the base plus some field is above the greatest number. Of what was judged before none is.
fn is_wrong(base: i64, width: u32, count: u32, bytes: &[u8], judged: bool) -> bool
    requires narrow { width ≤ 63 }
    requires whole { count * width ≤ 8 * length bytes.now }
    requires judged { judged ≡ true → list_any is_over (unpacked base width count bytes.now) ≡ false }
    ensures { result ≡ list_any is_over (unpacked base width count bytes.now) }
{
    if judged {
        return false;
    }
    has_over(base, width, count, bytes)
}

// The base, the width and the bytes after them.
#[tactic(auto, unfolding(crate::specs::Packed::head_at))]
fn split_head(bytes: &[u8]) -> Result<(i64, u32, &[u8]), ColErr>
    ensures gives { Gives (λ x. (x.0, x.1, x.2.now)) result (head_at bytes.now) }
    ensures number { IfOk result (λ x. FitsSigned w64 x.0) }
    ensures narrow { IfOk result (λ x. x.1 ≤ 63) }
{
    let (head, rest) = split_front(bytes, 9)?;
    let width = u32::from(head[8]);
    if width > 63 {
        return Err(ColErr::BadWidth);
    }
    Ok((i64_at(head, 0), width, rest))
}

impl<'a> Packed<'a> {
    /// The `n` numbers at the front of the bytes, and the bytes after them: `Short` of base and width, `BadWidth`,
    /// `Short`, `Overflow`. It takes time for the bytes that are there, whatever `n` is. Of what was judged before no
    /// number is looked at again, so that takes constant time.
    #[tactic(auto, unfolding(crate::specs::Packed::packed_at))]
    pub fn read_front(
        n: u32,
        judged: bool,
        bytes: &'a [u8],
    ) -> Result<(Packed<'a>, &'a [u8]), ColErr>
        requires { judged ≡ true → IsOk (packed_at n bytes.now) }
        ensures { Gives (λ x. (x.0, x.1.now)) result (packed_at n bytes.now) }
    {
        let (base, width, rest) = split_head(bytes)?;
        let (body, rest) = split_front(rest, (u64::from(n) * u64::from(width)).div_ceil(8))?;
        if is_wrong(base, width, n, body, judged) {
            return Err(ColErr::Overflow);
        }
        Ok((
            Packed {
                count: n,
                base,
                width,
                bytes: body,
            },
            rest,
        ))
    }

    /// The `n` numbers that all the bytes are: as `read_front`, then `Trailing`.
    pub fn read(n: u32, bytes: &'a [u8]) -> Result<Packed<'a>, ColErr>
        ensures { Gives (λ x. x) result (to_the_end (packed_at n bytes.now)) }
    {
        let (column, rest) = Packed::read_front(n, false, bytes)?;
        end(column, rest)
    }

    /// How many numbers there are.
    pub fn len(&self) -> u32
        ensures { result ≡ length self.now }
    {
        self.count
    }

    /// Number `i`, from 0. It takes constant time.
    #[inline]
    pub fn at(&self, i: u32) -> i64
        requires { i < length self.now }
        ensures { result ≡ slice_index_or self.now i (pos 0) }
    {
        self.base + field(self.bytes, self.width, i) as i64
    }
}
