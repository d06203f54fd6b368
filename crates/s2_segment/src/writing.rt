//! A segment file is written.
ghost use Rattle.std.specs.Prelude.{◌≡◌, ◌+◌, ◌*◌, ◌<◌, ◌≤◌, ◌++◌, true, length, map, vec_len, vec_capacity, IfOk, OnOk};
ghost use Rattle.std.specs.List.{list_all, flat_map, AllByRecursion};
ghost use Rattle.byteorder.specs.Endian.{little_bytes};
ghost use Rattle.s2_colbytes.specs.Numbers.{spelled};
ghost use Rattle.s2_value.specs.Rows.{is_of, fits_columns};
ghost use Rattle.s2_value.specs.Schemas.{keys_of};
ghost use Rattle.s2_model.specs.Files.{row_numbers, rows_of_file, rows_fit};
ghost use Rattle.s2_model.specs.Laws.{is_in_file_order};
ghost use Rattle.s2_colenc.specs.Spells as column_block;
ghost use Rattle.s2_segment.specs.Rows.{column, columns_of};
ghost use Rattle.s2_segment.specs.Parts.{are_ids};
ghost use Rattle.s2_segment.specs.Places.{has_width};
ghost use Rattle.s2_segment.specs.Spells.{head_of, framed, IsShort, AreColumns, key_blocks, Spells};
ghost use Rattle.s2_segment.specs.Written.{is_narrow};

use crate::head::{MAGIC, are_ids};
use crate::order::are_in_order;
use byteorder::{ByteOrder, LittleEndian};
use s2_colbytes::{put, put_u32};
use s2_colenc::write_column;
use s2_segindex::build;
use s2_value::{Col, ColType, Duplicate, Memory, Row, Schema, Seq, Value};
use std::alloc::{AllocError, Global};

// Puts the head at the end.
fn write_head(schema: &Schema, count: usize, out: &mut Vec<u8>) -> Result<(), Memory>
    requires { count ≤ 8192 }
    ensures { OnOk result (out.new.items ≡ out.old.items ++ head_of schema.now count) }
{
    out.reserve(11)?;
    put(out, MAGIC.as_slice());
    put(out, &[1, schema.cols.len() as u8, schema.keys() as u8]);
    put_u32(out, count as u32);
    Ok(())
}

// Puts the eight bytes of a number at the end, for which there is room.
fn put_u64(out: &mut Vec<u8>, number: u64)
    requires { vec_len out.old + 8 ≤ vec_capacity out.old }
    ensures items { out.new.items ≡ out.old.items ++ little_bytes 8 number }
    ensures len { vec_len out.new ≡ vec_len out.old + 8 }
    ensures room { vec_capacity out.old ≤ vec_capacity out.new }
{
    let mut bytes = [0; 8];
    LittleEndian::write_u64(&mut bytes, number);
    put(out, &bytes);
}

// Puts the row numbers at the end, for which there is room.
fn put_ids(rows: &[(u64, Row)], out: &mut Vec<u8>)
    requires { vec_len out.old + 8 * length rows.now ≤ vec_capacity out.old }
    ensures items { out.new.items ≡ out.old.items ++ spelled 8 (row_numbers rows.now) }
    ensures narrow { list_all is_narrow (row_numbers rows.now) ≡ true }
{
    for row in rows {
        put_u64(out, row.0);
    }
}

// Puts the row numbers at the end.
fn write_ids(rows: &[(u64, Row)], out: &mut Vec<u8>) -> Result<(), Memory>
    requires { length rows.now ≤ 8192 }
    ensures items { OnOk result (out.new.items ≡ out.old.items ++ spelled 8 (row_numbers rows.now)) }
    ensures narrow { OnOk result (list_all is_narrow (row_numbers rows.now) ≡ true) }
{
    out.reserve(8 * rows.len())?;
    put_ids(rows, out);
    Ok(())
}

// The values of column `c`.
fn column_of(alloc: Global, rows: &[(u64, Row)], c: usize, w: usize) -> Result<Vec<Value>, Memory>
    requires wide { list_all (has_width w) (rows_of_file rows.now) ≡ true }
    requires within { c < w }
    ensures { IfOk result (λ vals. vals.items ≡ column c (rows_of_file rows.now)) }
{
    let mut vals = Vec::with_capacity(alloc, rows.len())?;
    for row in rows {
        vals.push(row.1.at(c).copy()?)?;
    }
    Ok(vals)
}

// The block, where its length fits in four bytes.
fn short_block(block: Vec<u8>) -> Result<Seq<u8>, Memory>
    ensures same { IfOk result (λ b. b ≡ block.items) }
    ensures short { IfOk result (λ b. IsShort b) }
{
    if block.len() > u32::MAX as usize {
        return Err(AllocError);
    }
    Ok(Seq::from_vec(block))
}

// The block of column `c`.
fn block_of(
    alloc: Global,
    kind: ColType,
    rows: &[(u64, Row)],
    c: usize,
    w: usize,
) -> Result<Seq<u8>, Memory>
    requires some { 1 ≤ length rows.now }
    requires few { length rows.now ≤ 8192 }
    requires wide { list_all (has_width w) (rows_of_file rows.now) ≡ true }
    requires within { c < w }
    requires kind { list_all (is_of kind) (column c (rows_of_file rows.now)) ≡ true }
    ensures spells { IfOk result (λ b. column_block.Spells kind (column c (rows_of_file rows.now)) b) }
    ensures short { IfOk result (λ b. IsShort b) }
{
    let vals = column_of(alloc, rows, c, w)?;
    let block = write_column(alloc, kind, vals.as_slice())?;
    let block = short_block(block)?;
    Ok(block)
}

// The blocks of the columns.
fn column_blocks(alloc: Global, cols: &[Col], rows: &[(u64, Row)]) -> Result<Vec<Seq<u8>>, Memory>
    requires some { 1 ≤ length rows.now }
    requires few { length rows.now ≤ 8192 }
    requires fit { list_all (fits_columns cols.now) (rows_of_file rows.now) ≡ true }
    ensures { IfOk result (λ blocks. AreColumns cols.now (columns_of (length cols.now) (rows_of_file rows.now)) blocks.items) }
{
    let mut blocks = Vec::with_capacity(alloc, cols.len())?;
    for (c, col) in cols.iter().enumerate() {
        blocks.push(block_of(alloc, col.kind, rows, c, cols.len())?)?;
    }
    Ok(blocks)
}

// The rows without their numbers.
fn bare_rows(alloc: Global, rows: &[(u64, Row)]) -> Result<Vec<Row>, Memory>
    ensures { IfOk result (λ bare. bare.items ≡ rows_of_file rows.now) }
{
    let mut bare = Vec::with_capacity(alloc, rows.len())?;
    for row in rows {
        bare.push(row.1.copy()?)?;
    }
    Ok(bare)
}

// The index blocks of the rows.
fn index_blocks(alloc: Global, schema: &Schema, rows: &[Row]) -> Result<Vec<Seq<u8>>, Memory>
    requires few { length rows.now ≤ 8192 }
    requires rows { list_all (has_width (length schema.now.cols)) rows.now ≡ true }
    ensures are { IfOk result (λ blocks. blocks.items ≡ key_blocks schema.now rows.now) }
    ensures short { IfOk result (λ blocks. AllByRecursion IsShort blocks.items) }
{
    let mut blocks = Vec::with_capacity(alloc, schema.keys())?;
    for j in 0..schema.keys() {
        let block = build(alloc, rows, schema.key_columns(j))?;
        blocks.push(short_block(block)?)?;
    }
    Ok(blocks)
}

// Puts the block at the end, behind its length.
fn write_block(block: &[u8], out: &mut Vec<u8>) -> Result<(), Memory>
    requires { IsShort block.now }
    ensures { OnOk result (out.new.items ≡ out.old.items ++ framed block.now) }
{
    out.reserve(4 + block.len())?;
    put_u32(out, block.len() as u32);
    put(out, block);
    Ok(())
}

// Puts the blocks at the end, each behind its length.
fn write_blocks(blocks: &[Seq<u8>], out: &mut Vec<u8>) -> Result<(), Memory>
    requires { AllByRecursion IsShort blocks.now }
    ensures { OnOk result (out.new.items ≡ out.old.items ++ flat_map framed blocks.now) }
{
    for block in blocks {
        write_block(block.as_slice(), out)?;
    }
    Ok(())
}

/// Whether each row fits the schema.
pub fn all_fit(schema: &Schema, rows: &[(u64, Row)]) -> bool
    ensures { result ≡ rows_fit schema.now rows.now }
{
    for row in rows {
        if !schema.fits(&row.1) {
            return false;
        }
    }
    true
}

/// Whether the row numbers are positive and distinct.
pub fn are_numbered(alloc: Global, rows: &[(u64, Row)]) -> Result<bool, Memory>
    requires { length rows.now ≤ 8192 }
    ensures { IfOk result (λ b. b ≡ are_ids (row_numbers rows.now)) }
{
    let mut ids = Vec::new(alloc);
    write_ids(rows, &mut ids)?;
    let right = are_ids(alloc, ids.as_slice(), rows.len())?;
    Ok(right)
}

/// Whether the rows stand in file order: by sort key and then by number, each strictly before the next one.
pub fn are_ordered(alloc: Global, schema: &Schema, rows: &[(u64, Row)]) -> Result<bool, Memory>
    requires few { length rows.now ≤ 8192 }
    requires fit { rows_fit schema.now rows.now ≡ true }
    ensures { IfOk result (λ b. b ≡ is_in_file_order schema.now rows.now) }
{
    let mut ids = Vec::new(alloc);
    write_ids(rows, &mut ids)?;
    let bare = bare_rows(alloc, rows)?;
    Ok(are_in_order(schema, ids.as_slice(), bare.as_slice()))
}

/// The file of these rows: 1 to 8,192 that fit the schema, with distinct positive numbers, by sort key and then by number (`all_fit`, `are_numbered` and `are_ordered` test it).
/// Each column is as `write_column` writes it; no clause says in which form. A block that is too long for its length word counts as want of memory.
pub fn write(alloc: Global, schema: &Schema, rows: &[(u64, Row)]) -> Result<Vec<u8>, Memory>
    requires some { 1 ≤ length rows.now }
    requires few { length rows.now ≤ 8192 }
    requires fit { rows_fit schema.now rows.now ≡ true }
    requires ids { are_ids (row_numbers rows.now) ≡ true }
    requires order { is_in_file_order schema.now rows.now ≡ true }
    ensures { IfOk result (λ out. Spells schema.now rows.now out.items) }
{
    let columns = column_blocks(alloc, schema.cols.as_slice(), rows)?;
    let bare = bare_rows(alloc, rows)?;
    let indexes = index_blocks(alloc, schema, bare.as_slice())?;
    let mut out = Vec::new(alloc);
    write_head(schema, rows.len(), &mut out)?;
    write_ids(rows, &mut out)?;
    write_blocks(columns.as_slice(), &mut out)?;
    write_blocks(indexes.as_slice(), &mut out)?;
    Ok(out)
}
