//! Codes: for each value its place in a dictionary, in two bytes.
ghost use Rattle.std.specs.Prelude.{◌≡◌, ◌*◌, ◌<◌, false, true, length, slice_index, IsOk};
ghost use Rattle.s2_colbytes.specs.Reading.{Gives, to_the_end};
ghost use Rattle.s2_colbytes.specs.Numbers.{numbers};
ghost use Rattle.s2_colruns.specs.Codes.{codes_at, has_bad_code};

use s2_colbytes::{ColErr, end, split_front, u16_at};
use std::marker::Model;

/// Codes, read in place. In contracts it is the list of the codes.
#[derive(Debug, Drop)]
pub struct Codes<'a> {
    count: u32,
    bytes: &'a [u8],
}

impl<'a> Model for Codes<'a> {
    ghost use Rattle.std.specs.Prelude.{◌≡◌, ◌*◌, List, ℕ, length};
    ghost use Rattle.s2_colbytes.specs.Numbers.{numbers};

    ghost Value = { List ℕ };

    ghost view = { λ c. numbers 2 c.count c.bytes.now };

    ghost invariant = { λ c. length c.bytes.now ≡ 2 * c.count };
}

// Whether some code isn't below `d`.
fn has_bad_code(bytes: &[u8], count: u32, d: u32) -> bool
    requires { length bytes.now ≡ 2 * count }
    ensures { result ≡ has_bad_code d (numbers 2 count bytes.now) }
{
    for i in 0..count {
        if u32::from(u16_at(bytes, i as usize)) >= d {
            return true;
        }
    }
    false
}

// Whether some code isn't below `d`. Of those that were judged before each is.
fn is_wrong(bytes: &[u8], count: u32, d: u32, judged: bool) -> bool
    requires whole { length bytes.now ≡ 2 * count }
    requires judged { judged ≡ true → has_bad_code d (numbers 2 count bytes.now) ≡ false }
    ensures { result ≡ has_bad_code d (numbers 2 count bytes.now) }
{
    if judged {
        return false;
    }
    has_bad_code(bytes, count, d)
}

impl<'a> Codes<'a> {
    /// The `n` codes below `d` at the front of the bytes, and the bytes after them: `Short`, `BadCode`. Of what was
    /// judged before no code is looked at again, so that takes constant time.
    #[tactic(auto, unfolding(crate::specs::Codes::codes_at))]
    pub fn read_front(
        n: u32,
        d: u32,
        judged: bool,
        bytes: &'a [u8],
    ) -> Result<(Codes<'a>, &'a [u8]), ColErr>
        requires { judged ≡ true → IsOk (codes_at n d bytes.now) }
        ensures { Gives (λ x. (x.0, x.1.now)) result (codes_at n d bytes.now) }
    {
        let (body, rest) = split_front(bytes, 2 * u64::from(n))?;
        if is_wrong(body, n, d, judged) {
            return Err(ColErr::BadCode);
        }
        Ok((
            Codes {
                count: n,
                bytes: body,
            },
            rest,
        ))
    }

    /// The `n` codes below `d` that all the bytes are: `Short`, `BadCode`, `Trailing`.
    pub fn read(n: u32, d: u32, bytes: &'a [u8]) -> Result<Codes<'a>, ColErr>
        ensures { Gives (λ x. x) result (to_the_end (codes_at n d bytes.now)) }
    {
        let (codes, rest) = Codes::read_front(n, d, false, bytes)?;
        end(codes, rest)
    }

    /// How many codes there are.
    pub fn len(&self) -> u32
        ensures { result ≡ length self.now }
    {
        self.count
    }

    /// Code `i`, from 0. It takes constant time.
    #[inline]
    pub fn at(&self, i: u32) -> u16
        requires { i < length self.now }
        ensures { result ≡ slice_index self.now i }
    {
        u16_at(self.bytes, i as usize)
    }
}
