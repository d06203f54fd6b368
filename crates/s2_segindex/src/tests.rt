use super::*;
use s2_value::{ColList, ColType, Key, Row, Seq, Txt, Value};
use std::alloc::Global;
use std::test::Fail;

const ONE_GROUP: [u8; 23] = [
    1, 0, 0, 0, 8, 0, 0, 0, 1, 5, 0, 0, 0, 0, 0, 0, 0, 2, 0, 0, 0, 1, 0,
];

const BAD_OFFSET: [u8; 23] = [
    1, 0, 0, 0, 8, 0, 0, 0, 1, 5, 0, 0, 0, 0, 0, 0, 0, 2, 0, 0, 0, 0, 0,
];

const BAD_START: [u8; 23] = [
    1, 0, 0, 0, 9, 0, 0, 0, 1, 5, 0, 0, 0, 0, 0, 0, 0, 2, 0, 0, 0, 1, 0,
];

// The texts 'b' and 'ab', each of one row.
const TEXTS: [u8; 27] = [
    2, 0, 0, 0, 12, 0, 0, 0, 20, 0, 0, 0, 2, 2, 97, 98, 1, 0, 1, 0, 2, 1, 98, 1, 0, 0, 0,
];

// The texts 'b' and 'a'.
const FALLING: [u8; 26] = [
    2, 0, 0, 0, 12, 0, 0, 0, 19, 0, 0, 0, 2, 1, 98, 1, 0, 0, 0, 2, 1, 97, 1, 0, 1, 0,
];

// A row of one number.
fn row(alloc: Global, number: i64) -> Result<Row, Fail> {
    let mut row = Seq::new(alloc);
    row.add(Value::Int(number))?;
    Ok(row)
}

fn texts(alloc: Global, bytes: &[u8]) -> Result<Key, Fail> {
    let mut key = Seq::new(alloc);
    key.add(Value::Text(Txt::new(alloc, bytes).ok().ok_or("no text")?))?;
    Ok(key)
}

// What is wrong with each block, if anything.
#[test]
fn blocks_are_read(rt: HostRuntime) {
    let int = ColType::Int;
    let text = ColType::Text;
    let cases = [
        ("index-one-group", int, 2, &ONE_GROUP[..], None),
        (
            "index-bad-offset",
            int,
            2,
            &BAD_OFFSET[..],
            Some(IndexErr::BadOffset),
        ),
        (
            "index-bad-start",
            int,
            2,
            &BAD_START[..],
            Some(IndexErr::BadStart),
        ),
        (
            "an offset of no row",
            int,
            1,
            &ONE_GROUP[..],
            Some(IndexErr::BadOffset),
        ),
        ("cut", int, 2, &ONE_GROUP[..22], Some(IndexErr::Short)),
        (
            "a key of the other type",
            text,
            2,
            &ONE_GROUP[..],
            Some(IndexErr::BadKey),
        ),
        (
            "no groups, and a byte",
            int,
            2,
            &[0, 0, 0, 0, 7][..],
            Some(IndexErr::Trailing),
        ),
        (
            "many groups of few bytes",
            int,
            8192,
            &[255, 255, 255, 255, 8][..],
            Some(IndexErr::Short),
        ),
        ("two texts", text, 2, &TEXTS[..], None),
        (
            "texts that fall",
            text,
            2,
            &FALLING[..],
            Some(IndexErr::Unsorted),
        ),
    ];
    for (name, kind, n, bytes, want) in cases {
        assert_eq!(rt; Index::read(&[kind], n, bytes).err(), want, "{name}");
    }
}

#[test]
fn postings_are_found(rt: HostRuntime) -> Result<(), Fail> {
    let index = Index::read(&[ColType::Int], 2, &ONE_GROUP)
        .ok()
        .ok_or("refused")?;
    assert_eq!(rt;
        index.postings(&row(rt.alloc(), 5)?),
        Some(&ONE_GROUP[19..])
    );
    assert_eq!(rt; index.postings(&row(rt.alloc(), 4)?), None);
    assert_eq!(rt; index.postings(&row(rt.alloc(), 6)?), None);
    let index = Index::read(&[ColType::Text], 2, &TEXTS)
        .ok()
        .ok_or("refused")?;
    assert_eq!(rt;
        index.postings(&texts(rt.alloc(), b"ab")?),
        Some(&TEXTS[18..20])
    );
    assert_eq!(rt;
        index.postings(&texts(rt.alloc(), b"b")?),
        Some(&TEXTS[25..])
    );
    assert_eq!(rt; index.postings(&texts(rt.alloc(), b"a")?), None);
    Ok(())
}

#[test]
fn a_block_is_built(rt: HostRuntime) -> Result<(), Fail> {
    let alloc = rt.alloc();
    let rows = [row(alloc, 5)?, row(alloc, 5)?];
    assert_eq!(rt; rows[0].len(), 1);
    assert_eq!(rt; rows[1].len(), 1);
    let mut cols = ColList::new(alloc);
    cols.push(0).ok().ok_or("no memory")?;
    let block = build(alloc, &rows, &cols)?;
    assert_eq!(rt; block.as_slice(), ONE_GROUP.as_slice());
    Ok(())
}
