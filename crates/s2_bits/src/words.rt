//! Words of 64 bits that keep truth values, the lowest bit first.

ghost use Rattle.std.specs.Prelude.{◌≡◌, ℕ, ◌+◌, ◌-◌, ◌*◌, ◌^◌, ◌<◌, ◌≤◌, ◌++◌, ◌==◌, ◌&&◌, ◌||◌, true, not, if◌then◌else◌, OnOk, length, filter, count_ones, slice_index};
ghost use Rattle.std.specs.List.{range_with_len, sum_by};
ghost use Rattle.s2_bits.specs.Bits.{is_set_at, places_in};

use crate::Memory;

pub fn is_set(words: &[u64], i: usize) -> bool
    requires { i < 64 * length words.now }
    ensures { result ≡ is_set_at words.now i }
{
    (words[i / 64] >> (i % 64)) & 1 == 1
}

pub fn set(words: &mut [u64], i: usize)
    requires { i < 64 * length words.old }
    ensures { (k : ℕ) → is_set_at words.new k ≡ (if k == i then true else is_set_at words.old k) }
{
    words[i / 64] |= 1 << (i % 64);
}

pub fn or(words: &mut [u64], others: &[u64])
    requires { length words.old ≡ length others.now }
    ensures { (k : ℕ) → is_set_at words.new k ≡ is_set_at words.old k || is_set_at others.now k }
{
    for i in 0..words.len() {
        words[i] |= others[i];
    }
}

pub fn and_not(words: &mut [u64], others: &[u64])
    requires { length words.old ≡ length others.now }
    ensures { (k : ℕ) → is_set_at words.new k ≡ is_set_at words.old k && not (is_set_at others.now k) }
{
    for i in 0..words.len() {
        words[i] &= !others[i];
    }
}

// How many bits are set.
pub fn count(words: &[u64]) -> u64
    requires { length words.now ≤ 2 ^ 32 }
    ensures value { result ≡ sum_by count_ones words.now }
    ensures words_fit { (k : ℕ) → slice_index words.now k < 2 ^ 64 }
{
    let mut total = 0u64;
    for word in words {
        total += u64::from(word.count_ones());
    }
    total
}

// Appends the places of the bits that are set, rising.
pub fn push_places(words: &[u64], places: &mut Vec<u32>) -> Result<(), Memory>
    requires { 64 * length words.now ≤ 2 ^ 32 }
    ensures { OnOk result (places.new.items
        ≡ places.old.items ++ filter (is_set_at words.now) (range_with_len 0 (64 * length words.now))) }
{
    for i in 0..words.len() {
        push_ones(words[i], 64 * i as u32, places)?;
    }
    Ok(())
}

// Appends `base` plus the number of each bit that is set in the word.
fn push_ones(word: u64, base: u32, places: &mut Vec<u32>) -> Result<(), Memory>
    requires { base + 64 ≤ 2 ^ 32 }
    ensures { OnOk result (places.new.items
        ≡ places.old.items ++ places_in base word) }
{
    let mut rest = word;
    while rest != 0 {
        let bit = rest.trailing_zeros();
        places.push(base + bit)?;
        rest &= !(1 << bit);
    }
    Ok(())
}
