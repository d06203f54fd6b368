//! Lists of one kind of item.
ghost use Rattle.std.specs.Prelude.{◌≡◌, ℕ, List, Option};
ghost use Rattle.std.specs.Option.{option_copied};
ghost use Rattle.s2_outread.specs.Reading.{Gives, comma_at, list_at, tuple_at};

use crate::stops::Stop;
use crate::tokens::{after, begins, past};
use s2_value::Seq;
use std::alloc::Global;

/// What stands in a list.
pub trait Item: Sized + Drop {
    /// What is read at the front of bytes: an item, and the bytes after it.
    ghost at: { List ℕ → Option (Self × List ℕ) };

    /// The item at the front, and the bytes after it.
    fn read(alloc: Global, bytes: &[u8]) -> Result<(Self, &[u8]), Stop>
        ensures { Gives (λ x. (x.0, x.1.now)) result (at bytes.now) };
}

/// The bytes of the next item, where one follows.
#[tactic(auto, unfolding(crate::specs::Reading::comma_at))]
fn next(bytes: &[u8]) -> Option<&[u8]>
    ensures { option_copied result ≡ comma_at bytes.now }
{
    after(b", ", bytes)
}

/// One or more items with a comma and a space between each two, and the bytes after them.
#[tactic(auto, unfolding(crate::specs::Reading::items_at))]
pub fn list<T: Item>(alloc: Global, bytes: &[u8]) -> Result<(Seq<T>, &[u8]), Stop>
    ensures { Gives (λ x. (x.0, x.1.now)) result (list_at T.at bytes.now) }
{
    let mut items = Vec::new(alloc);
    let mut left = bytes;
    for _byte in bytes {
        let (item, rest) = T::read(alloc, left)?;
        items.push(item)?;
        match next(rest) {
            Some(later) => left = later,
            None => return Ok((Seq::from_vec(items), rest)),
        }
    }
    Err(Stop::Refused)
}

/// Items between parentheses, and the bytes after them.
#[tactic(auto, unfolding(crate::specs::Reading::tuple_at))]
pub fn tuple<T: Item>(alloc: Global, bytes: &[u8]) -> Result<(Seq<T>, &[u8]), Stop>
    ensures { Gives (λ x. (x.0, x.1.now)) result (tuple_at T.at bytes.now) }
{
    let rest = past(b"(", bytes)?;
    let (items, rest) = if begins(b')', rest) {
        (Seq::new(alloc), rest)
    } else {
        list::<T>(alloc, rest)?
    };
    Ok((items, past(b")", rest)?))
}
