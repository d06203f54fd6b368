//! Tables and files for tests.
use crate::{all_fit, are_numbered, are_ordered, write};
use s2_value::{
    Col, ColList, ColType, Key, Name, Row, Schema, Seq, Txt, Value, are_within_limits,
    contains_place,
};
use std::alloc::Global;
use std::test::Fail;

/// The rows of the table of orders.
pub(crate) const ORDERS: u32 = 8192;

fn columns(alloc: Global, cols: &[(u8, ColType)]) -> Result<Seq<Col>, Fail> {
    let mut list = Seq::new(alloc);
    for (letter, kind) in cols {
        list.add(Col {
            name: Name::new(alloc, &[*letter])?,
            kind: *kind,
        })?;
    }
    Ok(list)
}

/// A list of column places.
pub(crate) fn places(alloc: Global, places: &[u8]) -> Result<ColList, Fail> {
    let mut list = ColList::new(alloc);
    for place in places {
        if contains_place(list.as_slice(), *place) {
            return Err(Fail::from("a place twice"));
        }
        list.push(*place).ok().ok_or("no memory")?;
    }
    Ok(list)
}

fn keys(alloc: Global, keys: &[&[u8]]) -> Result<Seq<ColList>, Fail> {
    let mut list = Seq::new(alloc);
    for key in keys {
        list.add(places(alloc, key)?)?;
    }
    Ok(list)
}

fn schema(
    alloc: Global,
    cols: &[(u8, ColType)],
    uniques: &[&[u8]],
    indexes: &[&[u8]],
    sort: &[u8],
) -> Result<Schema, Fail> {
    let cols = columns(alloc, cols)?;
    let (uniques, indexes) = (keys(alloc, uniques)?, keys(alloc, indexes)?);
    let sort = places(alloc, sort)?;
    if !are_within_limits(cols.len(), uniques.as_slice(), indexes.as_slice(), &sort) {
        return Err(Fail::from("limits"));
    }
    Ok(Schema {
        table: Name::new(alloc, b"t")?,
        cols,
        uniques,
        indexes,
        sort,
    })
}

/// The table of a number, with these unique keys.
pub(crate) fn numbers_table(alloc: Global, uniques: &[&[u8]]) -> Result<Schema, Fail> {
    schema(alloc, &[(b'i', ColType::Int)], uniques, &[], &[])
}

/// The table of orders: id, sku, status and cents; unique by id, indexed by sku, sorted by sku and id.
pub(crate) fn orders_table(alloc: Global) -> Result<Schema, Fail> {
    let cols = [
        (b'i', ColType::Int),
        (b'k', ColType::Text),
        (b's', ColType::Text),
        (b'c', ColType::Int),
    ];
    schema(alloc, &cols, &[&[0]], &[&[1]], &[1, 0])
}

/// A number alone.
pub(crate) fn number(alloc: Global, number: i64) -> Result<Row, Fail> {
    let mut row = Seq::new(alloc);
    row.add(Value::Int(number))?;
    Ok(row)
}

/// A text.
pub(crate) fn text_value(alloc: Global, bytes: &[u8]) -> Result<Value, Fail> {
    let text = Txt::new(alloc, bytes).ok().ok_or("no text")?;
    Ok(Value::Text(text))
}

/// A text alone.
pub(crate) fn text(alloc: Global, bytes: &[u8]) -> Result<Key, Fail> {
    let mut key = Seq::new(alloc);
    key.add(text_value(alloc, bytes)?)?;
    Ok(key)
}

fn digit(number: u32) -> u8 {
    (number % 10 + 48) as u8
}

fn sku(alloc: Global, number: u32) -> Result<Value, Fail> {
    let digits = [digit(number / 100), digit(number / 10), digit(number)];
    let name = [b's', b'k', b'u', b'-', digits[0], digits[1], digits[2]];
    text_value(alloc, &name)
}

fn status(alloc: Global, i: u32) -> Result<Value, Fail> {
    if i % 8 == 7 {
        text_value(alloc, b"paid")
    } else {
        text_value(alloc, b"new")
    }
}

/// Order `i` by sort key: sixteen of each of 512 skus, every eighth of them paid. Its id counts over the skus first.
pub(crate) fn order(alloc: Global, i: u32) -> Result<Row, Fail> {
    let mut row = Seq::new(alloc);
    row.add(Value::Int(i64::from(i % 16 * 512 + i / 16)))?;
    row.add(sku(alloc, i / 16)?)?;
    row.add(status(alloc, i)?)?;
    row.add(Value::Int(i64::from(i) * 37 % 10000))?;
    Ok(row)
}

/// All orders by sort key, with falling row numbers from 8,192 to 1.
pub(crate) fn orders(alloc: Global) -> Result<Vec<(u64, Row)>, Fail> {
    let mut rows = Vec::with_capacity(alloc, ORDERS as usize)?;
    for i in 0..ORDERS {
        rows.push((u64::from(ORDERS - i), order(alloc, i)?))?;
    }
    Ok(rows)
}

/// The file of the rows, where they are 1 to 8,192 that can stand in one.
pub(crate) fn written(
    alloc: Global,
    schema: &Schema,
    rows: &[(u64, Row)],
) -> Result<Vec<u8>, Fail> {
    if rows.is_empty() || rows.len() > 8192 || !all_fit(schema, rows) {
        return Err(Fail::from("rows that don't fit"));
    }
    if !are_numbered(alloc, rows)? || !are_ordered(alloc, schema, rows)? {
        return Err(Fail::from("rows out of order"));
    }
    Ok(write(alloc, schema, rows)?)
}
