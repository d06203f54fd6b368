//! A segment file that owns its bytes.
ghost use Rattle.std.specs.Prelude.{◌≡◌, ◌<◌, ◌+◌, ◌*◌, ◌/◌, ℕ, List, Ok, length, drop, IfOk};
ghost use Rattle.std.specs.Bool.{Decides};
ghost use Rattle.s2_colbytes.specs.Numbers.{numbers, IsBytes};
ghost use Rattle.s2_value.specs.Schemas.{keys_of};
ghost use Rattle.s2_segindex.specs.Reading.{Gives};
ghost use Rattle.s2_segindex.specs.Groups.{offsets_at_key};
ghost use Rattle.s2_segindex.specs.Places.{groups_in, offset_bytes, IsIndex};
ghost use Rattle.s2_segment.specs.Reading.{GivesOrMemory};
ghost use Rattle.s2_segment.specs.Checks.{file_at};
ghost use Rattle.s2_segment.specs.Skips.{after_blocks, block_after, listed};
ghost use Rattle.s2_segment.specs.Spells.{Spells};
ghost use Rattle.s2_segment.specs.Owned.{FileOf, content_in, judged, rows_at};

use crate::blocks::split_block;
use crate::copies::{copy_schema, is_same_schema};
use crate::view::{read_parts, read_with_rows};
use crate::{SegErr, View};
use s2_colbytes::{u16_at, u64_from};
use s2_model::RowFile;
use s2_segindex::Index;
use s2_value::{Duplicate, Key, Memory, Row, Schema};
use std::alloc::{AllocError, Global};
use std::marker::Model;

/// A segment file that owns its bytes, judged once, when it is made. In contracts it is its schema and its bytes; `content_in` are its rows with their numbers.
#[derive(Debug, Drop)]
pub struct File {
    schema: Schema,
    bytes: Vec<u8>,
    rows: Vec<Row>,
}

impl Model for File {
    ghost use Rattle.s2_segment.specs.Owned.{FileOf, IsFile, kept};

    ghost Value = { FileOf };

    ghost view = { λ f. kept f.schema f.bytes.items };

    ghost invariant = { λ f. IsFile f.schema f.bytes.items f.rows.items };
}

// The rows of the file that the bytes are.
fn read_rows(alloc: Global, schema: &Schema, bytes: &[u8]) -> Result<Vec<Row>, SegErr>
    ensures gives { GivesOrMemory (λ rows. rows.items) result (rows_at schema.now bytes.now) }
    ensures narrow { IfOk result (λ rows. IsBytes bytes.now) }
{
    let (_view, rows) = read_with_rows(alloc, schema, bytes)?;
    Ok(rows)
}

// The bytes after so many blocks.
#[tactic(auto, using(crate::proofs::Skips::skip_step))]
fn skip_blocks(count: usize, bytes: &[u8]) -> Result<&[u8], SegErr>
    ensures { Gives (λ rest. rest.now) result (after_blocks count bytes.now) }
{
    let mut left = count;
    let mut rest = bytes;
    while left > 0 {
        rest = split_block(rest)?.1;
        left -= 1;
    }
    Ok(rest)
}

// The block after so many columns and so many indexes.
fn find_block(columns: usize, indexes: usize, bytes: &[u8]) -> Result<&[u8], SegErr>
    ensures { Gives (λ block. block.now) result (block_after columns indexes bytes.now) }
{
    let rest = skip_blocks(columns, bytes)?;
    let rest = skip_blocks(indexes, rest)?;
    let (block, _rest) = split_block(rest)?;
    Ok(block)
}

// Numbers of two bytes.
fn list_numbers(alloc: Global, bytes: &[u8]) -> Result<Vec<u32>, Memory>
    ensures { IfOk result (λ list. list.items ≡ numbers 2 (length bytes.now / 2) bytes.now) }
{
    let count = bytes.len() / 2;
    let mut list = Vec::with_capacity(alloc, count)?;
    for i in 0..count {
        list.push(u32::from(u16_at(bytes, i)))?;
    }
    Ok(list)
}

// The offsets of a key in an index block with keys of so many columns.
fn list_offsets(alloc: Global, width: usize, block: &[u8], key: &Key) -> Result<Vec<u32>, Memory>
    requires { IsIndex width block.now }
    ensures { IfOk result (λ list. list.items ≡ listed (offset_bytes (offsets_at_key key.now (groups_in width block.now)))) }
{
    match Index::again(width, block).postings(key) {
        Some(bytes) => list_numbers(alloc, bytes),
        None => Ok(Vec::new(alloc)),
    }
}

impl File {
    /// The file of this table that the bytes are: the faults of `SegErr` in the order of reading. It takes the time of `View::read`.
    pub fn of(alloc: Global, schema: &Schema, bytes: Vec<u8>) -> Result<File, SegErr>
        ensures gives { GivesOrMemory (λ file. file) result (judged schema.now bytes.items) }
        ensures schema { IfOk result (λ file. file.schema ≡ schema.now) }
        ensures bytes { IfOk result (λ file. file.bytes ≡ bytes.items) }
    {
        let rows = read_rows(alloc, schema, bytes.as_slice())?;
        let same = copy_schema(alloc, schema)?;
        Ok(File {
            schema: same,
            bytes,
            rows,
        })
    }

    /// Whether this is the file's schema.
    pub fn suits(&self, schema: &Schema) -> bool
        ensures { Decides result (schema.now ≡ self.now.schema) }
    {
        is_same_schema(schema, &self.schema)
    }

    /// The bytes.
    pub fn bytes(&self) -> &[u8]
        ensures same { result.now ≡ self.now.bytes }
        ensures read { judged self.now.schema self.now.bytes ≡ Ok self.now }
        ensures spell { Spells self.now.schema (content_in self.now) self.now.bytes }
    {
        self.bytes.as_slice()
    }

    /// What stands in the file. It takes a step for each column and each index: no value, row number, offset or row is looked at again.
    pub fn view(&self, alloc: Global, schema: &Schema) -> Result<View<'_>, Memory>
        requires { schema.now ≡ self.now.schema }
        ensures same { IfOk result (λ view. file_at self.now.schema self.now.bytes ≡ Ok view) }
        ensures columns { IfOk result (λ view. length view.columns ≡ length schema.now.cols) }
        ensures indexes { IfOk result (λ view. length view.indexes ≡ length (keys_of schema.now)) }
    {
        match read_parts(alloc, schema, true, self.bytes.as_slice()) {
            Ok(view) => Ok(view),
            Err(_) => Err(AllocError),
        }
    }

    // The bytes from the columns on.
    fn blocks(&self) -> &[u8]
        ensures { result.now ≡ drop (11 + 8 * length (content_in self.now)) self.now.bytes }
    {
        let count = self.rows.len();
        self.bytes.as_slice().split_at(11 + 8 * count).1
    }
}

impl RowFile for File {
    ghost schema = { λ f. f.schema };

    ghost content = { content_in };

    fn rows(&self) -> u32 {
        self.rows.len() as u32
    }

    fn rowid(&self, i: u32) -> u64 {
        u64_from(self.bytes.as_slice(), 11 + 8 * i as usize)
    }

    fn row(&self, i: u32) -> Result<Row, Memory> {
        self.rows[i as usize].copy()
    }

    fn offsets(&self, j: u8, key: &Key) -> Result<Vec<u32>, Memory> {
        let alloc = *self.bytes.allocator();
        let j = usize::from(j);
        let Ok(block) = find_block(self.schema.cols.len(), j, self.blocks()) else {
            return Err(AllocError);
        };
        list_offsets(alloc, self.schema.key_columns(j).len(), block, key)
    }
}
