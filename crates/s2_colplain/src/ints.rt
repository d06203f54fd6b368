//! Plain numbers: eight bytes each.
ghost use Rattle.std.specs.Prelude.{◌≡◌, ◌+◌, ◌*◌, ◌<◌, ◌≤◌, ◌++◌, length, pos, slice_index_or, vec_len, vec_capacity, OnOk, OnErr};
ghost use Rattle.s2_colbytes.specs.Reading.{Gives, to_the_end};
ghost use Rattle.s2_colbytes.specs.Numbers.{int_bytes};
ghost use Rattle.s2_colplain.specs.Ints.{ints_at, plain_ints};

use s2_colbytes::{ColErr, end, i64_at, put_i64, split_front};
use s2_value::Memory;
use std::marker::Model;

/// Plain numbers, read in place. In contracts it is the list of the numbers.
#[derive(Debug, Drop)]
pub struct PlainInt<'a> {
    count: u32,
    bytes: &'a [u8],
}

impl<'a> Model for PlainInt<'a> {
    ghost use Rattle.std.specs.Prelude.{◌≡◌, ◌*◌, List, ℤ, length};
    ghost use Rattle.s2_colbytes.specs.Numbers.{int_bytes};
    ghost use Rattle.s2_colplain.specs.Ints.{ints_in};

    ghost Value = { List ℤ };

    ghost view = { λ p. ints_in p.count p.bytes.now };

    ghost invariant = { λ p. length p.bytes.now ≡ 8 * p.count };
}

impl<'a> PlainInt<'a> {
    /// The `n` numbers at the front of the bytes, and the bytes after them: `Short` where they aren't whole.
    #[tactic(auto, unfolding(crate::specs::Ints::ints_at))]
    pub fn read_front(n: u32, bytes: &'a [u8]) -> Result<(PlainInt<'a>, &'a [u8]), ColErr>
        ensures { Gives (λ x. (x.0, x.1.now)) result (ints_at n bytes.now) }
    {
        let (body, rest) = split_front(bytes, 8 * u64::from(n))?;
        Ok((
            PlainInt {
                count: n,
                bytes: body,
            },
            rest,
        ))
    }

    /// The `n` numbers that all the bytes are: `Short`, then `Trailing`.
    pub fn read(n: u32, bytes: &'a [u8]) -> Result<PlainInt<'a>, ColErr>
        ensures { Gives (λ x. x) result (to_the_end (ints_at n bytes.now)) }
    {
        let (column, rest) = PlainInt::read_front(n, bytes)?;
        end(column, rest)
    }

    /// How many numbers there are.
    pub fn len(&self) -> u32
        ensures { result ≡ length self.now }
    {
        self.count
    }

    /// Number `i`, from 0. It takes constant time.
    #[inline]
    pub fn at(&self, i: u32) -> i64
        requires { i < length self.now }
        ensures { result ≡ slice_index_or self.now i (pos 0) }
    {
        i64_at(self.bytes, i as usize)
    }
}

// Puts the number at the end, for which there is room.
pub fn put_int(val: &i64, out: &mut Vec<u8>)
    requires { vec_len out.old + 8 ≤ vec_capacity out.old }
    ensures items { out.new.items ≡ out.old.items ++ int_bytes val.now }
    ensures len { vec_len out.new ≡ vec_len out.old + 8 }
    ensures room { vec_capacity out.old ≤ vec_capacity out.new }
{
    let number = *val;
    put_i64(out, number);
}

// Puts the numbers at the end, for which there is room.
fn put_ints(vals: &[i64], out: &mut Vec<u8>)
    requires { vec_len out.old + 8 * length vals.now ≤ vec_capacity out.old }
    ensures { out.new.items ≡ out.old.items ++ plain_ints vals.now }
{
    for val in vals {
        put_int(val, out);
    }
}

/// Puts the numbers at the end of `out`. Want of memory leaves `out` as it was.
pub fn write_plain_int(vals: &[i64], out: &mut Vec<u8>) -> Result<(), Memory>
    ensures ok { OnOk result (out.new.items ≡ out.old.items ++ plain_ints vals.now) }
    ensures err { OnErr result (out.new.items ≡ out.old.items) }
{
    out.reserve(8 * vals.len())?;
    put_ints(vals, out);
    Ok(())
}
