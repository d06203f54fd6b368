//! Numbers of a fixed width in bytes, the lowest byte first, and what can be wrong with a column's bytes.
#![tactic(auto)]

ghost use Rattle.std.specs.Prelude.{◌≡◌, ◌+◌, ◌*◌, ◌≤◌, ◌++◌, IfOk, length, drop, vec_len, vec_capacity};
ghost use Rattle.byteorder.specs.Endian.{little_number, little_bytes};
ghost use Rattle.s2_colbytes.specs.Reading.{Gives, front_at, number_at, alone};
ghost use Rattle.s2_colbytes.specs.Numbers.{signed, int_bytes};

use byteorder::{ByteOrder, LittleEndian};
use thiserror::Error;

/// Why bytes are no column of as many values, the first fault in the order of reading.
#[derive(Clone, Copy, Debug, PartialEq, Eq, Error)]
pub enum ColErr {
    /// A part of the body isn't whole.
    #[error("the column's bytes end too early")]
    Short,
    /// A packed column's width is above 63.
    #[error("a packed width is above 63")]
    BadWidth,
    /// An end stands below the one before, or a text has more than 255 bytes.
    #[error("a text's length is out of range")]
    BadLength,
    /// A text isn't UTF-8 or has a line feed.
    #[error("a text is not UTF-8 or has a line feed")]
    NotText,
    /// Bytes stand after the body.
    #[error("bytes stand after the column")]
    Trailing,
    /// A code isn't below the number of values in the dictionary.
    #[error("a code names no value")]
    BadCode,
    /// A run's length is 0.
    #[error("a run is empty")]
    EmptyRun,
    /// The base plus a packed number is above 2^63-1.
    #[error("a packed number is above 2^63-1")]
    Overflow,
    /// The runs' lengths don't sum to the number of values.
    #[error("the runs' lengths do not sum to the number of values")]
    BadRuns,
    /// The tag is above 4, or of a form of the other type.
    #[error("the tag is no form of the column's type")]
    BadTag,
}

/// The first `count` bytes, and those after them.
pub fn split_front(bytes: &[u8], count: u64) -> Result<(&[u8], &[u8]), ColErr>
    ensures gives { Gives (λ x. (x.0.now, x.1.now)) result (front_at count bytes.now) }
    ensures whole { IfOk result (λ x. length x.0.now ≡ count) }
{
    if (bytes.len() as u64) < count {
        return Err(ColErr::Short);
    }
    Ok(bytes.split_at(count as usize))
}

/// The number in the first four bytes, and the bytes after them.
pub fn split_u32(bytes: &[u8]) -> Result<(u32, &[u8]), ColErr>
    ensures { Gives (λ x. (x.0, x.1.now)) result (number_at 4 bytes.now) }
{
    if bytes.len() < 4 {
        return Err(ColErr::Short);
    }
    let (front, rest) = bytes.split_at(4);
    Ok((LittleEndian::read_u32(front), rest))
}

/// The value, where no byte is left after it.
pub fn end<T: Drop>(value: T, rest: &[u8]) -> Result<T, ColErr>
    ensures { Gives (λ x. x) result (alone (value, rest.now)) }
{
    match rest {
        [] => Ok(value),
        [_, ..] => Err(ColErr::Trailing),
    }
}

/// Number `i` of two bytes, from 0.
#[inline]
pub fn u16_at(bytes: &[u8], i: usize) -> u16
    requires { 2 * i + 2 ≤ length bytes.now }
    ensures { result ≡ little_number 2 (drop (2 * i) bytes.now) }
{
    LittleEndian::read_u16(&bytes[2 * i..])
}

/// Number `i` of four bytes, from 0.
#[inline]
pub fn u32_at(bytes: &[u8], i: usize) -> u32
    requires { 4 * i + 4 ≤ length bytes.now }
    ensures { result ≡ little_number 4 (drop (4 * i) bytes.now) }
{
    LittleEndian::read_u32(&bytes[4 * i..])
}

/// Signed number `i` of eight bytes, from 0.
#[inline]
pub fn i64_at(bytes: &[u8], i: usize) -> i64
    requires { 8 * i + 8 ≤ length bytes.now }
    ensures { result ≡ signed (little_number 8 (drop (8 * i) bytes.now)) }
{
    u64_from(bytes, 8 * i).cast_signed()
}

/// The number in the eight bytes from byte `at` on.
#[inline]
pub fn u64_from(bytes: &[u8], at: usize) -> u64
    requires { at + 8 ≤ length bytes.now }
    ensures { result ≡ little_number 8 (drop at bytes.now) }
{
    LittleEndian::read_u64(&bytes[at..])
}

/// Puts bytes at the end, for which there is room.
pub fn put(out: &mut Vec<u8>, piece: &[u8])
    requires { vec_len out.old + length piece.now ≤ vec_capacity out.old }
    ensures items { out.new.items ≡ out.old.items ++ piece.now }
    ensures len { vec_len out.new ≡ vec_len out.old + length piece.now }
    ensures room { vec_capacity out.old ≤ vec_capacity out.new }
{
    let done = out.extend_from_slice(piece);
    prove!(done.is_ok());
}

/// Puts the two bytes of a number at the end, for which there is room.
pub fn put_u16(out: &mut Vec<u8>, number: u16)
    requires { vec_len out.old + 2 ≤ vec_capacity out.old }
    ensures items { out.new.items ≡ out.old.items ++ little_bytes 2 number }
    ensures len { vec_len out.new ≡ vec_len out.old + 2 }
    ensures room { vec_capacity out.old ≤ vec_capacity out.new }
{
    let mut bytes = [0; 2];
    LittleEndian::write_u16(&mut bytes, number);
    put(out, &bytes);
}

/// Puts the four bytes of a number at the end, for which there is room.
pub fn put_u32(out: &mut Vec<u8>, number: u32)
    requires { vec_len out.old + 4 ≤ vec_capacity out.old }
    ensures items { out.new.items ≡ out.old.items ++ little_bytes 4 number }
    ensures len { vec_len out.new ≡ vec_len out.old + 4 }
    ensures room { vec_capacity out.old ≤ vec_capacity out.new }
{
    let mut bytes = [0; 4];
    LittleEndian::write_u32(&mut bytes, number);
    put(out, &bytes);
}

/// Puts the eight bytes of a number at the end, for which there is room.
pub fn put_i64(out: &mut Vec<u8>, number: i64)
    requires { vec_len out.old + 8 ≤ vec_capacity out.old }
    ensures items { out.new.items ≡ out.old.items ++ int_bytes number }
    ensures len { vec_len out.new ≡ vec_len out.old + 8 }
    ensures room { vec_capacity out.old ≤ vec_capacity out.new }
{
    let mut bytes = [0; 8];
    LittleEndian::write_i64(&mut bytes, number);
    put(out, &bytes);
}

#[cfg(test)]
mod tests {
    use super::*;
    use std::test::Fail;

    #[test]
    fn numbers_are_written_and_read(rt: HostRuntime) -> Result<(), Fail> {
        let mut out = Vec::with_capacity(rt.alloc(), 16)?;
        assert!(rt; out.len() + 16 <= out.capacity());
        put_u32(&mut out, 0x0403_0201);
        put_i64(&mut out, -2);
        put_u16(&mut out, 0x0201);
        assert_eq!(rt;
            out.as_slice(),
            [1, 2, 3, 4, 254, 255, 255, 255, 255, 255, 255, 255, 1, 2].as_slice()
        );
        let (number, rest) = split_u32(&out).ok().ok_or("short")?;
        assert_eq!(rt; (number, rest.len()), (0x0403_0201, 10));
        assert!(rt; split_u32(&out[..3]).is_err());
        assert!(rt; split_front(&out, 15).is_err());
        assert_eq!(rt; end(7u8, &out[..1]).err(), Some(ColErr::Trailing));
        assert_eq!(rt; end(7u8, &out[..0]).ok(), Some(7));
        Ok(())
    }
}
