//! Whole scripts, and scripts with one fault.
use crate::inserts::insert;
use crate::{Lines, Stop, read_lines};
use s2_judge::Kind;
use std::alloc::Global;
use std::test::Fail;

const SCRIPT: &str =
    "\n  -- options\nOPTION fanout 4\r\n\t\ncreate table t (a INT, b TEXT);\n1: INSERT INTO t VALUES (1, 'it''s')\n1: SELECT * FROM t\r";

#[test]
fn a_script(rt: HostRuntime) -> Result<(), Fail> {
    let read = read_lines(rt.alloc(), SCRIPT.as_bytes())?;
    assert_eq!(rt; read.next, 8);
    assert_eq!(rt; read.lines.len(), 4);
    assert_eq!(rt; read.known.options.len(), 1);
    assert!(rt; read.known.table.is_some());
    Ok(())
}

fn told(found: Result<Lines, Stop>) -> Option<(u64, Kind)> {
    match found {
        Ok(_read) => None,
        Err(Stop::Bad { line, kind }) => Some((line, kind)),
        Err(Stop::Memory) => None,
    }
}

const BAD: [(&[u8], u64, Kind); 12] = [
    (b"", 1, Kind::Misplaced),
    (b"\n", 2, Kind::Misplaced),
    (b"OPTION fanout 4", 2, Kind::Misplaced),
    (b"--\xff\n\xff", 2, Kind::NotUtf8),
    (b"\xff$", 1, Kind::NotUtf8),
    (b"COMMIT $", 1, Kind::BadToken),
    (b"'open", 1, Kind::BadToken),
    (b"COMMIT 99999999999999999999", 1, Kind::Syntax),
    (b"\r\n1: COMMIT", 2, Kind::Misplaced),
    (b"CREATE TABLE t (a INT)\r\r\n", 1, Kind::BadToken),
    (
        b"CREATE TABLE t (a INT)\n1: DELETE FROM t\n1: FLUSH END",
        3,
        Kind::JobOrder,
    ),
    (
        b"OPTION cache 4\nOPTION cache 4\nCREATE TABLE t (a INT)",
        2,
        Kind::OptionValue,
    ),
];

#[test]
fn scripts_with_a_fault(rt: HostRuntime) -> Result<(), Fail> {
    for (bytes, line, kind) in BAD {
        let found = told(read_lines(rt.alloc(), bytes));
        assert_eq!(rt; found, Some((line, kind)), "at {bytes:?}");
    }
    Ok(())
}

fn blanks(alloc: Global, count: usize) -> Result<Vec<u8>, Fail> {
    let mut bytes = Vec::new(alloc);
    for _ in 0..count {
        bytes.push(b'\n')?;
    }
    Ok(bytes)
}

#[test]
fn a_million_lines(rt: HostRuntime) -> Result<(), Fail> {
    let bytes = blanks(rt.alloc(), 1_000_000)?;
    let found = told(read_lines(rt.alloc(), &bytes));
    assert_eq!(rt; found, Some((1_000_001, Kind::Misplaced)));
    Ok(())
}

#[test]
fn a_script_too_long(rt: HostRuntime) -> Result<(), Fail> {
    let bytes = blanks(rt.alloc(), 16_777_217)?;
    let found = told(read_lines(rt.alloc(), &bytes));
    assert_eq!(rt; found, Some((0, Kind::TooLong)));
    Ok(())
}

const INSERTS: [&[u8]; 4] = [
    b"1: INSERT INTO t VALUES (1)",
    b" 2 :insert\tinto t values(- 1,'it''s' ) , ( 2, '' ) ; ",
    b"99999999999999999999: INSERT INTO t VALUES (1, 2), (3);",
    b"1: INSERT INTO t VALUES (1), (2), (3), (-4);",
];

const OTHERS: [&[u8]; 6] = [
    b"1: INSERT INTO t VALUES",
    b"1: INSERT INTO t VALUES (1),",
    b"1: INSERT INTO t VALUES (1) ; ;",
    b"1: INSERT INTO t VALUES ()",
    b"1: INSERT INTO t VALUES (1) $",
    b"1: DELETE FROM t",
];

#[test]
fn inserts_read_without_a_list_of_tokens(rt: HostRuntime) -> Result<(), Fail> {
    for bytes in INSERTS {
        assert!(rt; insert(rt.alloc(), bytes).is_ok(), "at {bytes:?}");
    }
    for bytes in OTHERS {
        assert!(rt; insert(rt.alloc(), bytes).is_err(), "at {bytes:?}");
    }
    Ok(())
}
