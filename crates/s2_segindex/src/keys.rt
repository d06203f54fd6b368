//! The keys of an index block, read in place.
ghost use Rattle.std.specs.Prelude.{◌≡◌, ◌+◌, ◌*◌, ◌<◌, ◌≤◌, ℕ, List, true, length, take, drop, IfOk};
ghost use Rattle.std.specs.Ordering.{nat_cmp};
ghost use Rattle.std.specs.Cmp.Lexicographic.{slice_cmp};
ghost use Rattle.byteorder.specs.Endian.{little_number};
ghost use Rattle.s2_value.specs.Order.{value_cmp, row_cmp};
ghost use Rattle.s2_segindex.specs.Reading.{Gives, rest_of, front_or, number_or};
ghost use Rattle.s2_segindex.specs.Blocks.{tag_of, body_at, value_at, key_at};
ghost use Rattle.s2_segindex.specs.Places.{number_in, text_in, after_text, value_in, after_value, key_in, after_key};

use crate::IndexErr;
use byteorder::{ByteOrder, LittleEndian};
use s2_value::{ColType, Value, are_text_bytes};
use std::cmp::Ordering;

/// The first `count` bytes, and those after them.
pub(crate) fn split_front(bytes: &[u8], count: u64) -> Result<(&[u8], &[u8]), IndexErr>
    ensures { Gives (λ x. (x.0.now, x.1.now)) result (front_or IndexErr.Short count bytes.now) }
{
    if (bytes.len() as u64) < count {
        return Err(IndexErr::Short);
    }
    Ok(bytes.split_at(count as usize))
}

/// The number in the first two bytes, and the bytes after them.
pub(crate) fn split_u16(bytes: &[u8]) -> Result<(u16, &[u8]), IndexErr>
    ensures { Gives (λ x. (x.0, x.1.now)) result (number_or IndexErr.Short 2 bytes.now) }
{
    if bytes.len() < 2 {
        return Err(IndexErr::Short);
    }
    let (front, rest) = bytes.split_at(2);
    Ok((LittleEndian::read_u16(front), rest))
}

/// The number in the first four bytes, and the bytes after them.
pub(crate) fn split_u32(bytes: &[u8]) -> Result<(u32, &[u8]), IndexErr>
    ensures { Gives (λ x. (x.0, x.1.now)) result (number_or IndexErr.Short 4 bytes.now) }
{
    if bytes.len() < 4 {
        return Err(IndexErr::Short);
    }
    let (front, rest) = bytes.split_at(4);
    Ok((LittleEndian::read_u32(front), rest))
}

// The byte before a value of the type.
fn tag_of(kind: ColType) -> u8
    ensures { result ≡ tag_of kind }
{
    match kind {
        ColType::Int => 1,
        ColType::Text => 2,
    }
}

// The bytes after a number.
#[tactic(auto, unfolding(crate::specs::Blocks::body_at))]
fn split_number(bytes: &[u8]) -> Result<&[u8], IndexErr>
    ensures { Gives (λ x. x.now) result (rest_of (body_at ColType.Int bytes.now)) }
{
    let (_, rest) = split_front(bytes, 8)?;
    Ok(rest)
}

// The bytes after a text, which stands behind its length.
#[tactic(auto, unfolding(crate::specs::Blocks::body_at))]
fn split_text(bytes: &[u8]) -> Result<&[u8], IndexErr>
    ensures { Gives (λ x. x.now) result (rest_of (body_at ColType.Text bytes.now)) }
{
    let [len, bytes @ ..] = bytes else {
        return Err(IndexErr::Short);
    };
    let (text, rest) = split_front(bytes, u64::from(*len))?;
    if !are_text_bytes(text) {
        return Err(IndexErr::BadKey);
    }
    Ok(rest)
}

// The bytes after what stands behind a value's tag.
fn split_body(kind: ColType, bytes: &[u8]) -> Result<&[u8], IndexErr>
    ensures { Gives (λ x. x.now) result (rest_of (body_at kind bytes.now)) }
{
    match kind {
        ColType::Int => split_number(bytes),
        ColType::Text => split_text(bytes),
    }
}

// The bytes after a value of the type.
#[tactic(auto, unfolding(crate::specs::Blocks::value_at))]
fn split_value(kind: ColType, bytes: &[u8]) -> Result<&[u8], IndexErr>
    ensures { Gives (λ x. x.now) result (rest_of (value_at kind bytes.now)) }
{
    let [tag, bytes @ ..] = bytes else {
        return Err(IndexErr::Short);
    };
    if *tag != tag_of(kind) {
        return Err(IndexErr::BadKey);
    }
    split_body(kind, bytes)
}

/// The bytes after a key of these types: the faults of each value in turn.
pub(crate) fn split_key<'a>(kinds: &[ColType], bytes: &'a [u8]) -> Result<&'a [u8], IndexErr>
    ensures { Gives (λ x. x.now) result (rest_of (key_at kinds.now bytes.now)) }
{
    let mut kinds = kinds;
    let mut rest = bytes;
    while let [kind, later @ ..] = kinds {
        rest = split_value(*kind, rest)?;
        kinds = later;
    }
    Ok(rest)
}

// The number at the front, 0 where it isn't whole.
fn number_in(bytes: &[u8]) -> i64
    ensures { result ≡ number_in bytes.now }
{
    if bytes.len() < 8 {
        return 0;
    }
    s2_colbytes::i64_at(bytes, 0)
}

// The first bytes, as many as there are.
fn first_of(bytes: &[u8], count: usize) -> &[u8]
    ensures { result.now ≡ take count bytes.now }
{
    if bytes.len() < count {
        return bytes;
    }
    bytes.split_at(count).0
}

// The bytes after the first ones.
fn after_first(bytes: &[u8], count: usize) -> &[u8]
    ensures { result.now ≡ drop count bytes.now }
{
    if bytes.len() < count {
        return &[];
    }
    bytes.split_at(count).1
}

// The text at the front.
fn text_in(bytes: &[u8]) -> &[u8]
    ensures { result.now ≡ text_in bytes.now }
{
    match bytes {
        [] => &[],
        [len, bytes @ ..] => first_of(bytes, usize::from(*len)),
    }
}

// The bytes after the text at the front.
fn after_text(bytes: &[u8]) -> &[u8]
    ensures { result.now ≡ after_text bytes.now }
{
    match bytes {
        [] => &[],
        [len, bytes @ ..] => after_first(bytes, usize::from(*len)),
    }
}

/// The bytes after the value at the front; none where it isn't whole.
pub fn after_value(bytes: &[u8]) -> &[u8]
    ensures { result.now ≡ after_value bytes.now }
{
    match bytes {
        [] => &[],
        [1, bytes @ ..] => after_first(bytes, 8),
        [_, bytes @ ..] => after_text(bytes),
    }
}

/// The bytes after a key of `width` values at the front; none where it isn't whole.
#[tactic(auto, using(crate::proofs::Steps::after_step))]
pub fn after_key(width: usize, bytes: &[u8]) -> &[u8]
    ensures { result.now ≡ after_key width bytes.now }
{
    let mut left = width;
    let mut rest = bytes;
    while left > 0 {
        rest = after_value(rest);
        left -= 1;
    }
    rest
}

/// A value against the one at the front of the bytes, in the order of values: numbers before texts.
pub fn cmp_value(value: &Value, bytes: &[u8]) -> Ordering
    ensures { result ≡ value_cmp value.now (value_in bytes.now) }
{
    match (value, bytes) {
        (Value::Int(x), []) => x.cmp(&0),
        (Value::Int(x), [1, bytes @ ..]) => x.cmp(&number_in(bytes)),
        (Value::Int(_), [_, ..]) => Ordering::Less,
        (Value::Text(_), []) => Ordering::Greater,
        (Value::Text(_), [1, ..]) => Ordering::Greater,
        (Value::Text(x), [_, bytes @ ..]) => x.bytes().cmp(&text_in(bytes)),
    }
}

/// A key against the one of `width` values at the front of the bytes.
#[tactic(auto, using(crate::proofs::Steps::key_step))]
pub(crate) fn cmp_key(key: &[Value], width: usize, bytes: &[u8]) -> Ordering
    ensures { result ≡ row_cmp key.now (key_in width bytes.now) }
{
    let mut left = width;
    let mut rest = bytes;
    for value in key {
        if left == 0 {
            return Ordering::Greater;
        }
        match cmp_value(value, rest) {
            Ordering::Less => return Ordering::Less,
            Ordering::Greater => return Ordering::Greater,
            Ordering::Equal => {}
        }
        rest = after_value(rest);
        left -= 1;
    }
    if left == 0 {
        Ordering::Equal
    } else {
        Ordering::Less
    }
}

// The values at the front of the bytes, one against the other.
fn cmp_values(bytes: &[u8], others: &[u8]) -> Ordering
    ensures { result ≡ value_cmp (value_in bytes.now) (value_in others.now) }
{
    match (bytes, others) {
        ([], []) => Ordering::Equal,
        ([], [1, others @ ..]) => 0.cmp(&number_in(others)),
        ([1, bytes @ ..], []) => number_in(bytes).cmp(&0),
        ([1, bytes @ ..], [1, others @ ..]) => number_in(bytes).cmp(&number_in(others)),
        ([], [_, ..]) | ([1, ..], [_, ..]) => Ordering::Less,
        ([_, ..], []) | ([_, ..], [1, ..]) => Ordering::Greater,
        ([_, bytes @ ..], [_, others @ ..]) => text_in(bytes).cmp(&text_in(others)),
    }
}

/// Keys of `width` values at the front of the bytes, one against the other.
#[tactic(auto, using(crate::proofs::Steps::key_step))]
pub(crate) fn cmp_keys(width: usize, bytes: &[u8], others: &[u8]) -> Ordering
    ensures { result ≡ row_cmp (key_in width bytes.now) (key_in width others.now) }
{
    let mut left = width;
    let mut bytes = bytes;
    let mut others = others;
    while left > 0 {
        match cmp_values(bytes, others) {
            Ordering::Less => return Ordering::Less,
            Ordering::Greater => return Ordering::Greater,
            Ordering::Equal => {}
        }
        bytes = after_value(bytes);
        others = after_value(others);
        left -= 1;
    }
    Ordering::Equal
}
