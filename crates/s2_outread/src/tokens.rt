//! Words, numbers and texts at the front of bytes.
ghost use Rattle.std.specs.Prelude.{◌≡◌, ◌≤◌, ◌<◌, ℤ, Some, None, length, IfOk, if◌then◌else◌};
ghost use Rattle.std.specs.List.{prefix_len};
ghost use Rattle.std.specs.Option.{option_copied};
ghost use Rattle.s2_token.specs.Lexing.{quoted_at};
ghost use Rattle.s2_value.specs.Text.{is_txt};
ghost use Rattle.s2_outread.specs.Reading.{Gives, after, is_number_byte, number_of, number_at, natural_of, natural_at, below_at, int_of, int_at, begins, text_at};

use crate::stops::Stop;
use itoa::Buffer;
use s2_value::{Txt, TxtErr};
use std::alloc::Global;

/// The bytes after a word, where they begin with it.
#[tactic(auto, unfolding(crate::specs::Reading::after))]
pub fn after<'a>(word: &[u8], bytes: &'a [u8]) -> Option<&'a [u8]>
    ensures { option_copied result ≡ after word.now bytes.entry.now }
{
    bytes.strip_prefix(word)
}

/// The bytes after a word that they must begin with.
pub fn past<'a>(word: &[u8], bytes: &'a [u8]) -> Result<&'a [u8], Stop>
    ensures { Gives (λ rest. rest.now) result (after word.now bytes.entry.now) }
{
    after(word, bytes).ok_or(Stop::Refused)
}

fn is_number_byte(b: u8) -> bool
    ensures { result ≡ is_number_byte b }
{
    b'0' <= b && b <= b'9' || b == b'-'
}

fn number_len(bytes: &[u8]) -> usize
    ensures value { result ≡ prefix_len is_number_byte bytes.now }
    ensures within { result ≤ length bytes.now }
{
    for (i, b) in bytes.iter().enumerate() {
        if !is_number_byte(*b) {
            return i;
        }
    }
    bytes.len()
}

/// The number of 128 bits that is written so in decimal.
fn number_of(digits: &[u8]) -> Option<i128>
    ensures { result ≡ number_of digits.now }
{
    let Ok(text) = std::str::from_utf8(digits) else {
        return None;
    };
    let Ok(number) = text.parse::<i128>() else {
        return None;
    };
    if Buffer::new().format(number).as_bytes() == digits {
        Some(number)
    } else {
        None
    }
}

/// A number of 128 bits, and the bytes after it.
#[tactic(auto, unfolding(crate::specs::Reading::number_at))]
pub fn number(bytes: &[u8]) -> Result<(i128, &[u8]), Stop>
    ensures { Gives (λ x. (x.0, x.1.now)) result (number_at bytes.now) }
{
    let (digits, rest) = bytes.split_at(number_len(bytes));
    let number = number_of(digits).ok_or(Stop::Refused)?;
    Ok((number, rest))
}

#[tactic(auto, unfolding(crate::specs::Reading::natural_of))]
fn natural_of(number: i128) -> Option<u64>
    ensures { result ≡ natural_of number }
{
    u64::try_from(number).ok()
}

#[tactic(auto, unfolding(crate::specs::Reading::int_of))]
fn int_of(number: i128) -> Option<i64>
    ensures { result ≡ int_of number }
{
    i64::try_from(number).ok()
}

/// A number of 64 bits without a sign, and the bytes after it.
#[tactic(auto, unfolding(crate::specs::Reading::natural_at))]
pub fn natural(bytes: &[u8]) -> Result<(u64, &[u8]), Stop>
    ensures { Gives (λ x. (x.0, x.1.now)) result (natural_at bytes.now) }
{
    let (number, rest) = number(bytes)?;
    let natural = natural_of(number).ok_or(Stop::Refused)?;
    Ok((natural, rest))
}

/// A number below a limit, and the bytes after it.
#[tactic(auto, unfolding(crate::specs::Reading::below_at))]
pub fn below(limit: u64, bytes: &[u8]) -> Result<(u64, &[u8]), Stop>
    ensures read { Gives (λ x. (x.0, x.1.now)) result (below_at limit bytes.now) }
    ensures below { IfOk result (λ x. x.0 < limit) }
{
    let (natural, rest) = natural(bytes)?;
    if natural < limit {
        Ok((natural, rest))
    } else {
        Err(Stop::Refused)
    }
}

/// A number of 64 bits, and the bytes after it.
#[tactic(auto, unfolding(crate::specs::Reading::int_at))]
pub fn int(bytes: &[u8]) -> Result<(i64, &[u8]), Stop>
    ensures { Gives (λ x. (x.0, x.1.now)) result (int_at bytes.now) }
{
    let (number, rest) = number(bytes)?;
    let int = int_of(number).ok_or(Stop::Refused)?;
    Ok((int, rest))
}

/// Whether this byte stands at the front.
pub fn begins(byte: u8, bytes: &[u8]) -> bool
    ensures { result ≡ begins byte bytes.now }
{
    match bytes {
        [first, ..] => *first == byte,
        [] => false,
    }
}

/// What stands up to the closing quote, with two quotes read as one, and the bytes after that quote.
#[tactic(auto, unfolding(s2_token::specs::Lexing::quoted_at))]
fn quoted(alloc: Global, bytes: &[u8]) -> Result<(Vec<u8>, &[u8]), Stop>
    ensures { Gives (λ x. (x.0.items, x.1.now)) result (quoted_at bytes.now) }
{
    let mut text = Vec::new(alloc);
    let mut rest = bytes;
    while let [byte, later @ ..] = rest {
        rest = later;
        if *byte == b'\'' {
            match later {
                [b'\'', others @ ..] => rest = others,
                _ => return Ok((text, later)),
            }
        }
        text.push(*byte)?;
    }
    Err(Stop::Refused)
}

fn text_of(alloc: Global, bytes: &[u8]) -> Result<Txt, Stop>
    ensures { Gives (λ t. t) result (if is_txt bytes.now then Some bytes.now else None) }
{
    match Txt::new(alloc, bytes) {
        Ok(text) => Ok(text),
        Err(TxtErr::Memory) => Err(Stop::Memory),
        Err(TxtErr::TooLong) => Err(Stop::Refused),
        Err(TxtErr::NotText) => Err(Stop::Refused),
    }
}

/// A text, and the bytes after it.
#[tactic(auto, unfolding(crate::specs::Reading::text_at))]
pub fn text(alloc: Global, bytes: &[u8]) -> Result<(Txt, &[u8]), Stop>
    ensures { Gives (λ x. (x.0, x.1.now)) result (text_at bytes.now) }
{
    let rest = past(b"'", bytes)?;
    let (quoted, rest) = quoted(alloc, rest)?;
    let text = text_of(alloc, quoted.as_slice())?;
    Ok((text, rest))
}
