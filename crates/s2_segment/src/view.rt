//! A segment file, read in place.
ghost use Rattle.std.specs.Prelude.{◌≡◌, ◌<◌, [], true, length, slice_index_or, IfOk, IsOk};
ghost use Rattle.s2_value.specs.Schemas.{keys_of};
ghost use Rattle.s2_segment.specs.Reading.{GivesOrMemory};
ghost use Rattle.s2_segment.specs.Parts.{parts_at};
ghost use Rattle.s2_segment.specs.Checks.{file_at, fault_in, rows_in};
ghost use Rattle.s2_segment.specs.Stats.{stats_of};

use crate::SegErr;
use crate::blocks::end;
use crate::columns::read_columns;
use crate::head::{split_head, split_ids};
use crate::indexed::IndexBlock;
use crate::indexes::read_indexes;
use crate::order::find_fault;
use crate::rows::rows_of;
use crate::stats::stats_of;
use s2_colbytes::u64_from;
use s2_colenc::Column;
use s2_segindex::Index;
use s2_value::{Memory, Row, Schema, Value};
use std::alloc::Global;
use std::marker::Model;

/// A segment file, read in place. In contracts it is what stands in the file; `content_of` are its rows with their numbers.
#[derive(Debug, Drop)]
pub struct View<'a> {
    count: u32,
    ids: &'a [u8],
    columns: Vec<Column<'a>>,
    indexes: Vec<IndexBlock<'a>>,
}

impl<'a> Model for View<'a> {
    ghost use Rattle.std.specs.Prelude.{map};
    ghost use Rattle.s2_colbytes.specs.Numbers.{numbers};
    ghost use Rattle.s2_segment.specs.Parts.{Parts};
    ghost use Rattle.s2_segment.specs.Places.{seen, IsView};

    ghost Value = { Parts };

    ghost view = { λ v. record { ids = numbers 8 v.count v.ids.now; columns = v.columns.items; indexes = map seen v.indexes.items } };

    ghost invariant = { λ v. IsView v.count v.ids.now v.columns.items };
}

/// The parts of a file, not yet checked together. Of a file that was judged before the head, the lengths and the tags of the columns are checked again, and no value, row number or offset.
#[tactic(auto, unfolding(crate::specs::Parts::parts_at))]
pub(crate) fn read_parts<'a>(
    alloc: Global,
    schema: &Schema,
    judged: bool,
    bytes: &'a [u8],
) -> Result<View<'a>, SegErr>
    requires { judged ≡ true → IsOk (parts_at schema.now bytes.now) }
    ensures gives { GivesOrMemory (λ v. v) result (parts_at schema.now bytes.now) }
    ensures columns { IfOk result (λ v. length v.columns ≡ length schema.now.cols) }
    ensures indexes { IfOk result (λ v. length v.indexes ≡ length (keys_of schema.now)) }
{
    let (count, rest) = split_head(schema, bytes)?;
    let (ids, rest) = split_ids(alloc, count, judged, rest)?;
    let (columns, rest) = read_columns(alloc, schema.cols.as_slice(), count, judged, rest)?;
    let (indexes, rest) = read_indexes(alloc, schema, count, judged, rest)?;
    let view = View {
        count,
        ids,
        columns,
        indexes,
    };
    end(view, rest)
}

// The rows of a view.
fn all_rows(alloc: Global, view: &View<'_>) -> Result<Vec<Row>, Memory>
    ensures { IfOk result (λ rows. rows.items ≡ rows_in view.now) }
{
    rows_of(alloc, view.columns.as_slice(), view.count)
}

// What is wrong with the parts together, if anything.
fn find_in(
    alloc: Global,
    schema: &Schema,
    view: &View<'_>,
    rows: &[Row],
) -> Result<Option<SegErr>, Memory>
    requires columns { length view.now.columns ≡ length schema.now.cols }
    requires indexes { length view.now.indexes ≡ length (keys_of schema.now) }
    requires rows { rows.now ≡ rows_in view.now }
    ensures { IfOk result (λ f. f ≡ fault_in schema.now view.now) }
{
    find_fault(alloc, schema, view.ids, rows, view.indexes.as_slice())
}

/// The file of this table that all the bytes are, and its rows.
#[tactic(auto, unfolding(crate::specs::Checks::file_at))]
pub(crate) fn read_with_rows<'a>(
    alloc: Global,
    schema: &Schema,
    bytes: &'a [u8],
) -> Result<(View<'a>, Vec<Row>), SegErr>
    ensures gives { GivesOrMemory (λ x. x.0) result (file_at schema.now bytes.now) }
    ensures rows { IfOk result (λ x. x.1.items ≡ rows_in x.0) }
    ensures columns { IfOk result (λ x. length x.0.columns ≡ length schema.now.cols) }
    ensures indexes { IfOk result (λ x. length x.0.indexes ≡ length (keys_of schema.now)) }
{
    let view = read_parts(alloc, schema, false, bytes)?;
    let rows = all_rows(alloc, &view)?;
    match find_in(alloc, schema, &view, rows.as_slice())? {
        Some(err) => Err(err),
        None => Ok((view, rows)),
    }
}

impl<'a> View<'a> {
    /// The file of this table that all the bytes are: the faults of `SegErr` in the order of reading. It takes time for
    /// the bytes that are there and the rows that they spell, whatever their counts say.
    pub fn read(alloc: Global, schema: &Schema, bytes: &'a [u8]) -> Result<View<'a>, SegErr>
        ensures gives { GivesOrMemory (λ v. v) result (file_at schema.now bytes.now) }
        ensures columns { IfOk result (λ v. length v.columns ≡ length schema.now.cols) }
        ensures indexes { IfOk result (λ v. length v.indexes ≡ length (keys_of schema.now)) }
    {
        let (view, _rows) = read_with_rows(alloc, schema, bytes)?;
        Ok(view)
    }

    /// How many rows there are.
    pub fn rows(&self) -> u32
        ensures { result ≡ length self.now.ids }
    {
        self.count
    }

    /// The number of row `i`, from 0.
    pub fn rowid(&self, i: u32) -> u64
        requires { i < length self.now.ids }
        ensures { result ≡ slice_index_or self.now.ids i 0 }
    {
        u64_from(self.ids, 8 * i as usize)
    }

    /// Column `c`, from 0.
    pub fn column(&self, c: usize) -> &Column<'a>
        requires { c < length self.now.columns }
        ensures { result.now ≡ slice_index_or self.now.columns c result.now }
    {
        &self.columns[c]
    }

    /// Index `j`, from 0 over unique keys and then indexes.
    pub fn index(&self, j: usize) -> &Index<'a>
        requires { j < length self.now.indexes }
        ensures { result.now ≡ (slice_index_or self.now.indexes j (result.now, [])).0 }
    {
        &self.indexes[j].index
    }

    /// The least and the greatest value of each column.
    pub fn stats(&self, alloc: Global) -> Result<Vec<(Value, Value)>, Memory>
        ensures { IfOk result (λ stats. stats.items ≡ stats_of self.now) }
    {
        stats_of(alloc, self.columns.as_slice(), self.count)
    }
}
