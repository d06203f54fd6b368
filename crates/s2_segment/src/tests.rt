//! Tables of files and their faults, and a file of 8,192 orders.
ghost use Rattle.std.specs.Prelude.{◌≡◌, IfOk};

use super::*;
use crate::bed::{
    ORDERS, number, numbers_table, order, orders, orders_table, text, text_value, written,
};
use s2_colbytes::ColErr;
use s2_colenc::Body;
use s2_model::RowFile;
use s2_segindex::IndexErr;
use s2_value::{Key, Schema, Value};
use std::alloc::Global;
use std::test::Fail;

// The table (id INT), row number 1 is (5).
const ONE_ROW: [u8; 32] = [
    83, 50, 83, 71, 1, 1, 0, 1, 0, 0, 0, 1, 0, 0, 0, 0, 0, 0, 0, 9, 0, 0, 0, 0, 5, 0, 0, 0, 0, 0,
    0, 0,
];

// The table (id INT, UNIQUE KEY (id)), row numbers 1 and 2 are both (5).
const TWO_ROWS: [u8; 68] = [
    83, 50, 83, 71, 1, 1, 1, 2, 0, 0, 0, // the head
    1, 0, 0, 0, 0, 0, 0, 0, 2, 0, 0, 0, 0, 0, 0, 0, // the row numbers
    10, 0, 0, 0, 1, 5, 0, 0, 0, 0, 0, 0, 0, 0, // the column
    23, 0, 0, 0, 1, 0, 0, 0, 8, 0, 0, 0, 1, 5, 0, 0, 0, 0, 0, 0, 0, 2, 0, 0, 0, 1, 0, // the index
];

// What is wrong with the bytes, if anything.
fn fault(alloc: Global, schema: &Schema, bytes: &[u8]) -> Option<SegErr> {
    View::read(alloc, schema, bytes).err()
}

// What is wrong with the bytes once some of them are others, if anything.
fn fault_with(
    alloc: Global,
    schema: &Schema,
    bytes: &[u8],
    others: &[(usize, u8)],
) -> Result<Option<SegErr>, Fail> {
    let mut changed = Vec::new(alloc);
    changed.extend_from_slice(bytes)?;
    for (place, byte) in others {
        *changed.get_mut(*place).ok_or("no such place")? = *byte;
    }
    Ok(fault(alloc, schema, changed.as_slice()))
}

#[test]
fn vectors_are_written(rt: HostRuntime) -> Result<(), Fail> {
    let alloc = rt.alloc();
    let one = written(
        alloc,
        &numbers_table(alloc, &[])?,
        &[(1, number(alloc, 5)?)],
    )?;
    assert_eq!(rt; one.as_slice(), ONE_ROW.as_slice());
    let rows = [(1, number(alloc, 5)?), (2, number(alloc, 5)?)];
    let two = written(alloc, &numbers_table(alloc, &[&[0]])?, &rows)?;
    assert_eq!(rt; two.as_slice(), TWO_ROWS.as_slice());
    Ok(())
}

#[test]
fn cut_files_are_short(rt: HostRuntime) -> Result<(), Fail> {
    let alloc = rt.alloc();
    let schema = numbers_table(alloc, &[])?;
    assert_eq!(rt; fault(alloc, &schema, &ONE_ROW), None);
    for len in 0..32usize {
        assert_eq!(rt;
            fault(alloc, &schema, &ONE_ROW[..len]),
            Some(SegErr::Short),
            "{len}"
        );
    }
    Ok(())
}

#[test]
fn trailing_bytes_are_refused(rt: HostRuntime) -> Result<(), Fail> {
    let alloc = rt.alloc();
    let mut longer = Vec::new(alloc);
    longer.extend_from_slice(&ONE_ROW)?;
    longer.push(0)?;
    let schema = numbers_table(alloc, &[])?;
    assert_eq!(rt;
        fault(alloc, &schema, longer.as_slice()),
        Some(SegErr::Trailing)
    );
    Ok(())
}

// The file of one row with some bytes that are others.
#[test]
fn faults_of_one_row(rt: HostRuntime) -> Result<(), Fail> {
    let alloc = rt.alloc();
    let schema = numbers_table(alloc, &[])?;
    let cases = [
        ("another magic", &[(0, 0)][..], SegErr::BadMagic),
        ("file-bad-version", &[(4, 3)][..], SegErr::BadVersion),
        ("two columns", &[(5, 2)][..], SegErr::BadShape),
        ("one key", &[(6, 1)][..], SegErr::BadShape),
        ("file-no-rows", &[(7, 0)][..], SegErr::BadCount),
        ("8,193 rows", &[(8, 32)][..], SegErr::BadCount),
        ("8,192 rows", &[(7, 0), (8, 32)][..], SegErr::Short),
        ("file-row-zero", &[(11, 0)][..], SegErr::BadRows),
        ("a long column", &[(22, 255)][..], SegErr::Short),
        (
            "a column's tag",
            &[(23, 5)][..],
            SegErr::Column(0, ColErr::BadTag),
        ),
        (
            "version before shape",
            &[(4, 3), (5, 2)][..],
            SegErr::BadVersion,
        ),
        (
            "rows before columns",
            &[(11, 0), (23, 5)][..],
            SegErr::BadRows,
        ),
    ];
    for (name, others, want) in cases {
        assert_eq!(rt;
            fault_with(alloc, &schema, &ONE_ROW, others)?,
            Some(want),
            "{name}"
        );
    }
    Ok(())
}

// The file of two rows with some bytes that are others.
#[test]
fn faults_of_two_rows(rt: HostRuntime) -> Result<(), Fail> {
    let alloc = rt.alloc();
    let schema = numbers_table(alloc, &[&[0]])?;
    assert_eq!(rt; fault(alloc, &schema, &TWO_ROWS), None);
    let offset = SegErr::Index(0, IndexErr::BadOffset);
    let start = SegErr::Index(0, IndexErr::BadStart);
    let cases = [
        ("a row number twice", &[(19, 1)][..], SegErr::BadRows),
        ("falling row numbers", &[(11, 3)][..], SegErr::Unordered),
        ("index-bad-offset", &[(66, 0)][..], offset),
        ("index-bad-start", &[(49, 9)][..], start),
        ("another key", &[(54, 6)][..], SegErr::WrongIndex(0)),
        ("another column", &[(32, 6)][..], SegErr::WrongIndex(0)),
        (
            "order before index",
            &[(11, 3), (54, 6)][..],
            SegErr::Unordered,
        ),
        ("an offset before order", &[(11, 3), (66, 0)][..], offset),
    ];
    for (name, others, want) in cases {
        assert_eq!(rt;
            fault_with(alloc, &schema, &TWO_ROWS, others)?,
            Some(want),
            "{name}"
        );
    }
    Ok(())
}

// The file of all orders.
fn orders_file(alloc: Global, schema: &Schema) -> Result<File, Fail>
    ensures { IfOk result (λ file. file.schema ≡ schema.now) }
{
    let bytes = written(alloc, schema, orders(alloc)?.as_slice())?;
    match File::of(alloc, schema, bytes) {
        Ok(file) => Ok(file),
        Err(_) => Err(Fail::from("refused")),
    }
}

// Whether the file has the orders, by sort key and with falling numbers.
fn has_orders(alloc: Global, file: &File) -> Result<bool, Fail> {
    for i in 0..file.rows() {
        let same = file.row(i)? == order(alloc, i)?;
        if !same || file.rowid(i) != u64::from(ORDERS.saturating_sub(i)) {
            return Ok(false);
        }
    }
    Ok(file.rows() == ORDERS)
}

// The offsets of the orders with a value of key `j`.
fn found(schema: &Schema, file: &File, j: u8, key: &Key) -> Result<Vec<u32>, Fail>
    requires { schema.now ≡ file.now.schema }
{
    if usize::from(j) >= schema.keys() {
        return Err(Fail::from("no such key"));
    }
    Ok(file.offsets(j, key)?)
}

// Whether the places are those of the order with the id 1000, the sixteen with the sku 17, and none with a sku that is cut short.
fn are_found(alloc: Global, schema: &Schema, file: &File) -> Result<[bool; 3], Fail>
    requires { schema.now ≡ file.now.schema }
{
    let one = found(schema, file, 0, &number(alloc, 1000)?)?;
    let many = found(schema, file, 1, &text(alloc, b"sku-017")?)?;
    let none = found(schema, file, 1, &text(alloc, b"sku-01")?)?;
    let ends = many.len() == 16 && many.first() == Some(&272) && many.last() == Some(&287);
    Ok([one.as_slice() == [7809].as_slice(), ends, none.is_empty()])
}

// Whether the indexes of a view have the order with the id 1000, and no sku past the last one.
fn are_indexed(alloc: Global, schema: &Schema, file: &File) -> Result<[bool; 2], Fail>
    requires { schema.now ≡ file.now.schema }
{
    if schema.keys() < 2 {
        return Err(Fail::from("no such key"));
    }
    let view = file.view(alloc, schema)?;
    let one = view.index(0).postings(&number(alloc, 1000)?);
    let none = view.index(1).postings(&text(alloc, b"sku-512")?);
    Ok([one == Some(&[129, 30][..]), none.is_none()])
}

// Whether a column's least and greatest are these.
fn are_ends(ends: Option<&(Value, Value)>, least: &Value, greatest: &Value) -> bool {
    match ends {
        Some(ends) => ends.0 == *least && ends.1 == *greatest,
        None => false,
    }
}

// Whether the ends of the ids, the skus and the cents are those of the orders.
fn have_ends(alloc: Global, stats: &[(Value, Value)]) -> Result<[bool; 3], Fail> {
    let (zero, last, most) = (Value::Int(0), Value::Int(8191), Value::Int(9999));
    let first_sku = text_value(alloc, b"sku-000")?;
    let last_sku = text_value(alloc, b"sku-511")?;
    Ok([
        are_ends(stats.first(), &zero, &last),
        are_ends(stats.get(1), &first_sku, &last_sku),
        are_ends(stats.get(3), &zero, &most),
    ])
}

// A file of 8,192 rows is written, and read back.
#[test]
fn orders_are_read_back(rt: HostRuntime) -> Result<(), Fail> {
    let alloc = rt.alloc();
    let schema = orders_table(alloc)?;
    let file = orders_file(alloc, &schema)?;
    assert!(rt; has_orders(alloc, &file)?);
    assert!(rt; file.suits(&schema));
    assert!(rt; !file.suits(&numbers_table(alloc, &[])?));
    Ok(())
}

#[test]
fn orders_are_found_by_key(rt: HostRuntime) -> Result<(), Fail> {
    let alloc = rt.alloc();
    let schema = orders_table(alloc)?;
    let file = orders_file(alloc, &schema)?;
    assert_eq!(rt; are_found(alloc, &schema, &file)?, [true, true, true]);
    assert_eq!(rt; are_indexed(alloc, &schema, &file)?, [true, true]);
    Ok(())
}

// What a view of that file shows.
#[test]
fn orders_are_seen(rt: HostRuntime) -> Result<(), Fail> {
    let alloc = rt.alloc();
    let schema = orders_table(alloc)?;
    assert_eq!(rt; schema.cols.len(), 4);
    let file = orders_file(alloc, &schema)?;
    let view = file.view(alloc, &schema)?;
    assert_eq!(rt; view.rows(), 8192);
    assert_eq!(rt; view.rowid(8191), 1);
    assert!(rt; matches!(view.column(0).body(), Body::Packed(_)));
    assert!(rt; matches!(view.column(1).body(), Body::Runs(..)));
    Ok(())
}

#[test]
fn orders_have_ends(rt: HostRuntime) -> Result<(), Fail> {
    let alloc = rt.alloc();
    let schema = orders_table(alloc)?;
    let file = orders_file(alloc, &schema)?;
    let stats = file.view(alloc, &schema)?.stats(alloc)?;
    assert_eq!(rt; have_ends(alloc, stats.as_slice())?, [true, true, true]);
    Ok(())
}
