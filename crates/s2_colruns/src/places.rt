//! Run lengths: how often each of the runs' values stands, in two bytes.
ghost use Rattle.std.specs.Prelude.{◌≡◌, ◌*◌, ◌<◌, false, true, nat_eq, length, slice_index, sum, IsOk};
ghost use Rattle.s2_colbytes.specs.Reading.{Gives, to_the_end};
ghost use Rattle.s2_colbytes.specs.Numbers.{numbers};
ghost use Rattle.s2_colruns.specs.Runs.{lens_at, has_empty};

use s2_colbytes::{ColErr, end, split_front, u16_at};
use std::marker::Model;

/// Run lengths, read in place. In contracts it is the list of the lengths.
#[derive(Debug, Drop)]
pub struct RunLens<'a> {
    count: u32,
    bytes: &'a [u8],
}

impl<'a> Model for RunLens<'a> {
    ghost use Rattle.std.specs.Prelude.{◌≡◌, ◌*◌, List, ℕ, length};
    ghost use Rattle.s2_colbytes.specs.Numbers.{numbers};

    ghost Value = { List ℕ };

    ghost view = { λ r. numbers 2 r.count r.bytes.now };

    ghost invariant = { λ r. length r.bytes.now ≡ 2 * r.count };
}

// Whether some run is empty.
fn has_empty(bytes: &[u8], count: u32) -> bool
    requires { length bytes.now ≡ 2 * count }
    ensures { result ≡ has_empty (numbers 2 count bytes.now) }
{
    for i in 0..count {
        if u16_at(bytes, i as usize) == 0 {
            return true;
        }
    }
    false
}

// How many values the runs have.
fn total(bytes: &[u8], count: u32) -> u64
    requires { length bytes.now ≡ 2 * count }
    ensures { result ≡ sum (numbers 2 count bytes.now) }
{
    let mut total = 0;
    for i in 0..count {
        total += u64::from(u16_at(bytes, i as usize));
    }
    total
}

// Whether some run is empty. Of those that were judged before none is.
fn has_wrong(bytes: &[u8], count: u32, judged: bool) -> bool
    requires whole { length bytes.now ≡ 2 * count }
    requires judged { judged ≡ true → has_empty (numbers 2 count bytes.now) ≡ false }
    ensures { result ≡ has_empty (numbers 2 count bytes.now) }
{
    if judged {
        return false;
    }
    has_empty(bytes, count)
}

// Whether the runs have `n` values. Those that were judged before have.
fn have_values(bytes: &[u8], count: u32, n: u32, judged: bool) -> bool
    requires whole { length bytes.now ≡ 2 * count }
    requires judged { judged ≡ true → nat_eq (sum (numbers 2 count bytes.now)) n ≡ true }
    ensures { result ≡ nat_eq (sum (numbers 2 count bytes.now)) n }
{
    if judged {
        return true;
    }
    total(bytes, count) == u64::from(n)
}

impl<'a> RunLens<'a> {
    /// The lengths of `m` runs of `n` values at the front of the bytes, and the bytes after them: `Short`, `EmptyRun`,
    /// `BadRuns`. Of what was judged before no length is looked at again, so that takes constant time.
    #[tactic(auto, unfolding(crate::specs::Runs::lens_at))]
    pub fn read_front(
        n: u32,
        m: u32,
        judged: bool,
        bytes: &'a [u8],
    ) -> Result<(RunLens<'a>, &'a [u8]), ColErr>
        requires { judged ≡ true → IsOk (lens_at n m bytes.now) }
        ensures { Gives (λ x. (x.0, x.1.now)) result (lens_at n m bytes.now) }
    {
        let (body, rest) = split_front(bytes, 2 * u64::from(m))?;
        if has_wrong(body, m, judged) {
            return Err(ColErr::EmptyRun);
        }
        if !have_values(body, m, n, judged) {
            return Err(ColErr::BadRuns);
        }
        Ok((
            RunLens {
                count: m,
                bytes: body,
            },
            rest,
        ))
    }

    /// The lengths of `m` runs of `n` values that all the bytes are: as `read_front`, then `Trailing`.
    pub fn read(n: u32, m: u32, bytes: &'a [u8]) -> Result<RunLens<'a>, ColErr>
        ensures { Gives (λ x. x) result (to_the_end (lens_at n m bytes.now)) }
    {
        let (lens, rest) = RunLens::read_front(n, m, false, bytes)?;
        end(lens, rest)
    }

    /// How many runs there are.
    pub fn count(&self) -> u32
        ensures { result ≡ length self.now }
    {
        self.count
    }

    /// The length of run `i`, from 0. It takes constant time.
    #[inline]
    pub fn at(&self, i: u32) -> u16
        requires { i < length self.now }
        ensures { result ≡ slice_index self.now i }
    {
        u16_at(self.bytes, i as usize)
    }
}
