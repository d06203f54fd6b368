//! Parts of a fixed length, and blocks behind their length.
ghost use Rattle.std.specs.Prelude.{◌≡◌, IfOk, length};
ghost use Rattle.s2_segindex.specs.Reading.{Gives, front_or, number_or, alone_or};
ghost use Rattle.s2_segment.specs.Parts.{block_at};

use crate::SegErr;
use s2_colbytes::u32_at;

/// The first `count` bytes, and those after them.
pub(crate) fn split_front(bytes: &[u8], count: u64) -> Result<(&[u8], &[u8]), SegErr>
    ensures gives { Gives (λ x. (x.0.now, x.1.now)) result (front_or SegErr.Short count bytes.now) }
    ensures whole { IfOk result (λ x. length x.0.now ≡ count) }
{
    if (bytes.len() as u64) < count {
        return Err(SegErr::Short);
    }
    Ok(bytes.split_at(count as usize))
}

// The number in the first four bytes, and the bytes after them.
fn split_u32(bytes: &[u8]) -> Result<(u32, &[u8]), SegErr>
    ensures { Gives (λ x. (x.0, x.1.now)) result (number_or SegErr.Short 4 bytes.now) }
{
    if bytes.len() < 4 {
        return Err(SegErr::Short);
    }
    Ok((u32_at(bytes, 0), bytes.split_at(4).1))
}

/// The block at the front, behind its length, and the bytes after it.
#[tactic(auto, unfolding(crate::specs::Parts::block_at))]
pub(crate) fn split_block(bytes: &[u8]) -> Result<(&[u8], &[u8]), SegErr>
    ensures { Gives (λ x. (x.0.now, x.1.now)) result (block_at bytes.now) }
{
    let (size, rest) = split_u32(bytes)?;
    let (block, rest) = split_front(rest, u64::from(size))?;
    Ok((block, rest))
}

/// The value, where no byte is left after it.
pub(crate) fn end<T: Drop>(value: T, rest: &[u8]) -> Result<T, SegErr>
    ensures { Gives (λ x. x) result (alone_or SegErr.Trailing value rest.now) }
{
    match rest {
        [] => Ok(value),
        [_, ..] => Err(SegErr::Trailing),
    }
}
