ghost use Rattle.std.specs.Prelude.{◌≡◌, ◌<◌, ◌≤◌, true, length};
ghost use Rattle.std.specs.List.{list_all};
ghost use Rattle.s2_value.specs.Rows.{is_of};

use super::*;
use crate::sizes::{entries_size, packed_size, runs_size};
use s2_colbytes::ColErr;
use s2_value::{ColType, Memory, Txt, Value};
use std::alloc::Global;
use std::test::Fail;

const INT: ColType = ColType::Int;

const TEXT: ColType = ColType::Text;

const PLAIN: [u8; 9] = [0, 5, 0, 0, 0, 0, 0, 0, 0];

const PACKED: [u8; 11] = [1, 7, 0, 0, 0, 0, 0, 0, 0, 1, 4];

const RUNS: [u8; 12] = [4, 1, 0, 0, 0, 3, 0, 1, 0, 0, 0, 97];

// Whether the values' block is this one.
fn is_written(alloc: Global, kind: ColType, vals: &[Value], want: &[u8]) -> Result<bool, Memory>
    requires some { 0 < length vals.now }
    requires few { length vals.now ≤ 8192 }
    requires kind { list_all (is_of kind) vals.now ≡ true }
{
    let block = write_column(alloc, kind, vals)?;
    Ok(block.as_slice() == want)
}

fn text(alloc: Global, bytes: &[u8]) -> Result<Txt, Fail> {
    let text = Txt::new(alloc, bytes).ok().ok_or("no text")?;
    Ok(text)
}

// The vectors of blocks that are read: what is wrong with each, if anything.
#[test]
fn vectors_are_read(rt: HostRuntime) {
    let cases = [
        ("plain-int", INT, 1, &PLAIN[..], None),
        ("packed-int", INT, 3, &PACKED[..], None),
        ("runs-text", TEXT, 3, &RUNS[..], None),
        ("plain-int-short", INT, 1, &PLAIN[..8], Some(ColErr::Short)),
        (
            "plain-int-trailing",
            INT,
            1,
            &[0, 5, 0, 0, 0, 0, 0, 0, 0, 0][..],
            Some(ColErr::Trailing),
        ),
        (
            "runs-empty-run",
            INT,
            1,
            &[
                4, 2, 0, 0, 0, 0, 0, 1, 0, 5, 0, 0, 0, 0, 0, 0, 0, 5, 0, 0, 0, 0, 0, 0, 0,
            ][..],
            Some(ColErr::EmptyRun),
        ),
        (
            "dictionary-bad-code",
            INT,
            1,
            &[3, 1, 0, 0, 0, 5, 0, 0, 0, 0, 0, 0, 0, 1, 0][..],
            Some(ColErr::BadCode),
        ),
        (
            "packed-bad-width",
            INT,
            1,
            &[1, 0, 0, 0, 0, 0, 0, 0, 0, 64][..],
            Some(ColErr::BadWidth),
        ),
        (
            "packed-overflow",
            INT,
            1,
            &[1, 255, 255, 255, 255, 255, 255, 255, 127, 1, 1][..],
            Some(ColErr::Overflow),
        ),
        (
            "text-not-utf8",
            TEXT,
            1,
            &[2, 1, 0, 0, 0, 255][..],
            Some(ColErr::NotText),
        ),
        (
            "text-bad-length",
            TEXT,
            2,
            &[2, 2, 0, 0, 0, 1, 0, 0, 0, 97, 98][..],
            Some(ColErr::BadLength),
        ),
        (
            "runs-bad-sum",
            INT,
            2,
            &[4, 1, 0, 0, 0, 1, 0, 5, 0, 0, 0, 0, 0, 0, 0][..],
            Some(ColErr::BadRuns),
        ),
        (
            "int-form-for-text",
            TEXT,
            1,
            &PLAIN[..],
            Some(ColErr::BadTag),
        ),
        ("no tag", INT, 1, &[][..], Some(ColErr::Short)),
        ("a tag above 4", INT, 1, &[5][..], Some(ColErr::BadTag)),
    ];
    for (name, kind, n, bytes, want) in cases {
        assert_eq!(rt; Column::read(kind, n, bytes).err(), want, "{name}");
    }
}

// The vectors of blocks that are written, and one of width 0.
#[test]
fn vectors_of_numbers_are_written(rt: HostRuntime) -> Result<(), Fail> {
    let alloc = rt.alloc();
    assert!(rt; is_written(alloc, INT, &[Value::Int(5)], &PLAIN)?);
    assert!(rt;
        is_written(
            alloc,
            INT,
            &[Value::Int(7), Value::Int(7), Value::Int(8)],
            &PACKED
        )?
    );
    let fives = [1, 5, 0, 0, 0, 0, 0, 0, 0, 0];
    assert!(rt; is_written(alloc, INT, &[Value::Int(5), Value::Int(5)], &fives)?);
    Ok(())
}

#[test]
fn vectors_of_texts_are_written(rt: HostRuntime) -> Result<(), Fail> {
    let alloc = rt.alloc();
    let vals = [
        Value::Text(text(alloc, b"a")?),
        Value::Text(text(alloc, b"a")?),
        Value::Text(text(alloc, b"a")?),
    ];
    assert!(rt; is_written(alloc, TEXT, &vals, &RUNS)?);
    Ok(())
}

// The lengths of the forms: plain, packed, dictionary, runs.
#[test]
fn sizes_of_numbers(rt: HostRuntime) {
    let vals = [Value::Int(7), Value::Int(7), Value::Int(8)];
    let dict = [Value::Int(7), Value::Int(8)];
    assert_eq!(rt; 1 + entries_size(&vals), 25);
    assert_eq!(rt; packed_size(&[7, 7, 8]), Some(11));
    assert_eq!(rt; 5 + entries_size(&dict) + 6, 27);
    assert_eq!(rt; 5 + runs_size(&vals), 25);
}

#[test]
fn sizes_of_equal_numbers(rt: HostRuntime) {
    let vals = [Value::Int(5), Value::Int(5)];
    assert_eq!(rt; 1 + entries_size(&vals), 17);
    assert_eq!(rt; packed_size(&[5, 5]), Some(10));
    assert_eq!(rt; 5 + entries_size(&[Value::Int(5)]) + 4, 17);
    assert_eq!(rt; 5 + runs_size(&vals), 15);
    assert_eq!(rt; packed_size(&[i64::MIN, i64::MAX]), None);
}

#[test]
fn sizes_of_texts(rt: HostRuntime) -> Result<(), Fail> {
    let dict = [Value::Text(text(rt.alloc(), b"a")?)];
    let vals = [
        Value::Text(text(rt.alloc(), b"a")?),
        Value::Text(text(rt.alloc(), b"a")?),
        Value::Text(text(rt.alloc(), b"a")?),
    ];
    assert_eq!(rt; 1 + entries_size(&vals), 16);
    assert_eq!(rt; 5 + entries_size(&dict) + 6, 16);
    assert_eq!(rt; 5 + runs_size(&vals), 12);
    Ok(())
}

#[test]
fn numbers_stand_by_place(rt: HostRuntime) -> Result<(), Fail> {
    let plain = Column::read(INT, 1, &PLAIN).ok().ok_or("refused")?;
    assert_eq!(rt; plain.at(rt.alloc(), 0)?, Value::Int(5));
    let packed = Column::read(INT, 3, &PACKED).ok().ok_or("refused")?;
    assert_eq!(rt; packed.at(rt.alloc(), 1)?, Value::Int(7));
    assert_eq!(rt; packed.at(rt.alloc(), 2)?, Value::Int(8));
    assert_eq!(rt; packed.form(), Form::PackedInt);
    assert!(rt; packed.entries().is_none());
    Ok(())
}

#[test]
fn texts_stand_by_place(rt: HostRuntime) -> Result<(), Fail> {
    let bytes = [2, 1, 0, 0, 0, 3, 0, 0, 0, 97, 98, 99];
    let plain = Column::read(TEXT, 2, &bytes).ok().ok_or("refused")?;
    assert_eq!(rt;
        plain.at(rt.alloc(), 1)?,
        Value::Text(text(rt.alloc(), b"bc")?)
    );
    assert_eq!(rt; plain.form(), Form::PlainText);
    Ok(())
}

#[test]
fn runs_stand_by_place(rt: HostRuntime) -> Result<(), Fail> {
    let bytes = [
        4, 2, 0, 0, 0, 2, 0, 1, 0, 5, 0, 0, 0, 0, 0, 0, 0, 6, 0, 0, 0, 0, 0, 0, 0,
    ];
    let runs = Column::read(INT, 3, &bytes).ok().ok_or("refused")?;
    assert_eq!(rt; runs.at(rt.alloc(), 1)?, Value::Int(5));
    assert_eq!(rt; runs.at(rt.alloc(), 2)?, Value::Int(6));
    assert!(rt; runs.codes().is_none());
    let lens = runs.runs().ok_or("no runs")?;
    assert_eq!(rt; lens.count(), 2);
    Ok(())
}

#[test]
fn dictionaries_stand_by_place(rt: HostRuntime) -> Result<(), Fail> {
    let bytes = [
        3, 2, 0, 0, 0, 1, 0, 0, 0, 3, 0, 0, 0, 97, 98, 99, 1, 0, 0, 0, 1, 0,
    ];
    let column = Column::read(TEXT, 3, &bytes).ok().ok_or("refused")?;
    assert_eq!(rt;
        column.at(rt.alloc(), 2)?,
        Value::Text(text(rt.alloc(), b"bc")?)
    );
    assert!(rt; column.runs().is_none());
    let codes = column.codes().ok_or("no codes")?;
    assert_eq!(rt; codes.len(), 3);
    let dict = column.entries().ok_or("no dictionary")?;
    assert_eq!(rt; dict.len(), 2);
    Ok(())
}
