//! Worked values: what no clause says.
use crate::{
    Col, ColList, ColType, Duplicate, Key, Name, Row, Schema, Seq, Txt, TxtErr, Value,
    are_within_limits, key_hash, print_row,
};
use std::alloc::Global;
use std::cmp::Ordering;
use std::test::Fail;

fn text(alloc: Global, bytes: &[u8]) -> Result<Value, Fail> {
    Ok(Value::Text(Txt::new(alloc, bytes)?))
}

fn pair(first: Value, second: Value, alloc: Global) -> Result<Row, Fail> {
    let mut row = Seq::new(alloc);
    row.add(first)?;
    row.add(second)?;
    Ok(row)
}

#[test]
fn texts_are_judged(rt: HostRuntime) -> Result<(), Fail> {
    let alloc = rt.alloc();
    let long = vec![in alloc; b'x'; 256]?;
    let most = &long.as_slice()[..255];
    assert_eq!(rt; Txt::new(alloc, most)?.bytes().len(), 255);
    let table: [(&[u8], TxtErr); 4] = [
        (long.as_slice(), TxtErr::TooLong),
        (&[0xff], TxtErr::NotText),
        (b"a\nb", TxtErr::NotText),
        (&[0xc3, 0x28], TxtErr::NotText),
    ];
    for (bytes, want) in table {
        assert_eq!(rt; Txt::new(alloc, bytes).err(), Some(want), "at {bytes:?}");
    }
    Ok(())
}

#[test]
fn rows_are_written(rt: HostRuntime) -> Result<(), Fail> {
    let alloc = rt.alloc();
    let table: [(i64, &[u8], &[u8]); 4] = [
        (7, b"ab", b"(7, 'ab')"),
        (-5, b"it's", b"(-5, 'it''s')"),
        (i64::MIN, b"", b"(-9223372036854775808, '')"),
        (i64::MAX, b"''", b"(9223372036854775807, '''''')"),
    ];
    for (number, bytes, want) in table {
        let row = pair(Value::Int(number), text(alloc, bytes)?, alloc)?;
        let mut out = vec![in alloc; b'>']?;
        print_row(&row, &mut out)?;
        assert_eq!(rt; out.as_slice().split_first(), Some((&b'>', want)));
    }
    let mut out = Vec::new(alloc);
    print_row(&Seq::new(alloc), &mut out)?;
    assert_eq!(rt; out.as_slice(), b"()".as_slice());
    Ok(())
}

// The expected numbers were computed by another program from the definition of the hash.
#[test]
fn keys_are_hashed(rt: HostRuntime) -> Result<(), Fail> {
    let alloc = rt.alloc();
    let mut five: Key = Seq::new(alloc);
    five.add(Value::Int(5))?;
    let mut ab: Key = Seq::new(alloc);
    ab.add(text(alloc, b"ab")?)?;
    let both = pair(Value::Int(-1), text(alloc, b"")?, alloc)?;
    assert_eq!(rt; key_hash(0, &five), 8164627670693866527);
    assert_eq!(rt; key_hash(1, &five), 5310404737019236530);
    assert_eq!(rt; key_hash(0, &ab), 10532223842814245320);
    assert_eq!(rt; key_hash(2, &both), 1917442749439348598);
    Ok(())
}

#[test]
fn values_are_ordered(rt: HostRuntime) -> Result<(), Fail> {
    let alloc = rt.alloc();
    let low = pair(Value::Int(-1), text(alloc, b"b")?, alloc)?;
    let high = pair(Value::Int(-1), text(alloc, b"ba")?, alloc)?;
    assert_eq!(rt; low.cmp(&high), Ordering::Less);
    assert_eq!(rt; high.copy()?.cmp(&high), Ordering::Equal);
    assert!(rt; text(alloc, b"Z")? < text(alloc, b"a")?);
    assert!(rt; Value::Int(i64::MAX) < text(alloc, b"")?);
    Ok(())
}

fn orders(alloc: Global) -> Result<Schema, Fail> {
    let mut cols = Seq::new(alloc);
    cols.add(Col {
        name: Name::new(alloc, b"id")?,
        kind: ColType::Int,
    })?;
    cols.add(Col {
        name: Name::new(alloc, b"sku")?,
        kind: ColType::Text,
    })?;
    let mut id = ColList::new(alloc);
    let _ = id.push(0);
    let mut uniques = Seq::new(alloc);
    uniques.add(id)?;
    let indexes = Seq::new(alloc);
    let sort = ColList::new(alloc);
    if !are_within_limits(cols.len(), uniques.as_slice(), indexes.as_slice(), &sort) {
        return Err(Fail::from("limits"));
    }
    Ok(Schema {
        table: Name::new(alloc, b"orders")?,
        cols,
        uniques,
        indexes,
        sort,
    })
}

#[test]
fn rows_fit_a_schema(rt: HostRuntime) -> Result<(), Fail> {
    let alloc = rt.alloc();
    let schema = orders(alloc)?;
    let row = pair(Value::Int(7), text(alloc, b"pen")?, alloc)?;
    let turned = pair(text(alloc, b"pen")?, Value::Int(7), alloc)?;
    assert!(rt; !schema.fits(&turned));
    assert!(rt; !schema.fits(&Seq::new(alloc)));
    assert!(rt; schema.fits(&row));
    assert_eq!(rt; schema.keys(), 1);
    let key = schema.key(alloc, 0, &row)?;
    assert_eq!(rt; key.len(), 1);
    assert!(rt; *key.at(0) == Value::Int(7));
    Ok(())
}
