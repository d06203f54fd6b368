//! An index block, read in place.
ghost use Rattle.std.specs.Prelude.{◌≡◌};
ghost use Rattle.std.specs.Option.{option_copied};
ghost use Rattle.s2_segindex.specs.Reading.{Gives, rest_of};
ghost use Rattle.s2_segindex.specs.Groups.{offsets_at_key};
ghost use Rattle.s2_segindex.specs.Blocks.{parts_at, index_at};
ghost use Rattle.s2_segindex.specs.Places.{offset_bytes, groups_in, IsIndex};

use crate::IndexErr;
use crate::groups::split_groups;
use crate::keys::{split_front, split_u32};
use crate::search::find;
use s2_value::{ColType, Key};
use std::marker::Model;

/// An index block, read in place. In contracts it is the list of its groups, each a key with the offsets of its rows.
#[derive(Debug, Drop)]
pub struct Index<'a> {
    width: usize,
    bytes: &'a [u8],
}

impl<'a> Model for Index<'a> {
    ghost use Rattle.std.specs.Prelude.{List};
    ghost use Rattle.s2_segindex.specs.Groups.{Group};
    ghost use Rattle.s2_segindex.specs.Places.{groups_in, IsIndex};

    ghost Value = { List Group };

    ghost view = { λ x. groups_in x.width x.bytes.now };

    ghost invariant = { λ x. IsIndex x.width x.bytes.now };
}

// The bytes after the groups.
#[tactic(auto, unfolding(crate::specs::Blocks::parts_at))]
fn split_parts<'a>(kinds: &[ColType], n: u32, bytes: &'a [u8]) -> Result<&'a [u8], IndexErr>
    ensures { Gives (λ x. x.now) result (rest_of (parts_at kinds.now n bytes.now)) }
{
    let (count, rest) = split_u32(bytes)?;
    let (starts, rest) = split_front(rest, 4 * u64::from(count))?;
    split_groups(kinds, n, bytes.len(), count, starts, rest)
}

impl<'a> Index<'a> {
    /// The index block that all the bytes are, of keys of these types in a file of `n` rows: the faults of each group in
    /// turn, then `Trailing`. It takes no memory, and time for the bytes that are there, whatever their counts say.
    #[tactic(auto, using(crate::proofs::Stands::index_stops))]
    pub fn read(kinds: &[ColType], n: u32, bytes: &'a [u8]) -> Result<Index<'a>, IndexErr>
        ensures { Gives (λ x. x) result (index_at kinds.now n bytes.now) }
    {
        let rest = split_parts(kinds, n, bytes)?;
        match rest {
            [] => Ok(Index {
                width: kinds.len(),
                bytes,
            }),
            [_, ..] => Err(IndexErr::Trailing),
        }
    }

    /// The index of keys of `width` columns in a block that was read before, without its checks. It takes constant time.
    pub fn again(width: usize, bytes: &'a [u8]) -> Index<'a>
        requires { IsIndex width bytes.now }
        ensures { result ≡ groups_in width bytes.now }
    {
        Index { width, bytes }
    }

    /// The offsets of the rows with this key, each in two bytes, the lowest first; None exactly where no group has the
    /// key. It takes no memory, and a comparison of keys for each halving of the groups.
    pub fn postings(&self, key: &Key) -> Option<&'a [u8]>
        ensures { option_copied result ≡ offset_bytes (offsets_at_key key.now self.now) }
    {
        find(self.width, self.bytes, key.as_slice())
    }
}
