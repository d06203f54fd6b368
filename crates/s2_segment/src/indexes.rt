//! The index blocks of a file.
ghost use Rattle.std.specs.Prelude.{◌≡◌, ◌+◌, ◌<◌, ◌≤◌, true, length, map, IfOk, IsOk};
ghost use Rattle.std.specs.List.{list_all};
ghost use Rattle.s2_value.specs.Columns.{are_below};
ghost use Rattle.s2_value.specs.Schemas.{keys_of};
ghost use Rattle.s2_segindex.specs.Reading.{Gives};
ghost use Rattle.s2_segindex.specs.Blocks.{index_at};
ghost use Rattle.s2_segment.specs.Reading.{GivesOrMemory};
ghost use Rattle.s2_segment.specs.Parts.{kinds_of, one_index_at, indexes_at};
ghost use Rattle.s2_segment.specs.Places.{seen};

use crate::SegErr;
use crate::blocks::split_block;
use crate::indexed::IndexBlock;
use s2_segindex::{Index, IndexErr};
use s2_value::{Col, ColType, Memory, Schema};
use std::alloc::Global;

// The types of a key's columns.
fn kinds_of(alloc: Global, cols: &[Col], key: &[u8]) -> Result<Vec<ColType>, Memory>
    requires { are_below (length cols.now) key.now ≡ true }
    ensures { IfOk result (λ kinds. kinds.items ≡ kinds_of cols.now key.now) }
{
    let mut kinds = Vec::with_capacity(alloc, key.len())?;
    for place in key {
        kinds.push(cols[usize::from(*place)].kind)?;
    }
    Ok(kinds)
}

// The index that the block is. One that was judged before is not checked again.
fn index_in<'a>(
    kinds: &[ColType],
    n: u32,
    judged: bool,
    block: &'a [u8],
) -> Result<Index<'a>, IndexErr>
    requires { judged ≡ true → IsOk (index_at kinds.now n block.now) }
    ensures { Gives (λ x. x) result (index_at kinds.now n block.now) }
{
    if judged {
        return Ok(Index::again(kinds.len(), block));
    }
    Index::read(kinds, n, block)
}

// Index `j`, of a key with columns of these types, and the bytes after it.
#[tactic(auto, unfolding(crate::specs::Parts::one_index_at))]
fn read_index<'a>(
    kinds: &[ColType],
    n: u32,
    j: u8,
    judged: bool,
    bytes: &'a [u8],
) -> Result<(IndexBlock<'a>, &'a [u8]), SegErr>
    requires { judged ≡ true → IsOk (one_index_at n j kinds.now bytes.now) }
    ensures { Gives (λ x. (seen x.0, x.1.now)) result (one_index_at n j kinds.now bytes.now) }
{
    let (block, rest) = split_block(bytes)?;
    match index_in(kinds, n, judged, block) {
        Ok(index) => Ok((
            IndexBlock {
                index,
                bytes: block,
                width: kinds.len(),
                count: n,
            },
            rest,
        )),
        Err(err) => Err(SegErr::Index(j, err)),
    }
}

/// The index blocks of the schema's keys, and the bytes after them. What was judged before is not checked again.
pub(crate) fn read_indexes<'a>(
    alloc: Global,
    schema: &Schema,
    n: u32,
    judged: bool,
    bytes: &'a [u8],
) -> Result<(Vec<IndexBlock<'a>>, &'a [u8]), SegErr>
    requires { judged ≡ true → IsOk (indexes_at n 0 schema.now.cols (keys_of schema.now) bytes.now) }
    ensures many { IfOk result (λ x. length x.0.items ≡ length (keys_of schema.now)) }
    ensures gives { GivesOrMemory (λ x. (map seen x.0.items, x.1.now)) result (indexes_at n 0 schema.now.cols (keys_of schema.now) bytes.now) }
{
    let mut indexes = Vec::with_capacity(alloc, schema.keys())?;
    let mut rest = bytes;
    for j in 0..schema.keys() {
        let places = schema.key_columns(j).as_slice();
        let kinds = kinds_of(alloc, schema.cols.as_slice(), places)?;
        let (index, after) = read_index(kinds.as_slice(), n, j as u8, judged, rest)?;
        indexes.push(index)?;
        rest = after;
    }
    Ok((indexes, rest))
}
