//! A short run read, and read with one fault.
use crate::{OutputFault, read_output};
use s2_histproof::print_output;
use s2_model::{Line, Options, Script, Stmt};
use s2_value::{Col, ColList, ColType, Name, Schema, Seq};
use std::alloc::Global;
use std::test::Fail;

const SHORT: &[u8] = b"SESSION 1 2 0
0 0 OK 1
2 0 ROWS 1
(7, 'ab')
HISTORY 2
1 WRITE PUT 1 (7, 'ab')
1 COMMIT
END
";

/// A script with a line of each of these sessions.
fn script(alloc: Global, sessions: &[u8]) -> Result<Script, Fail> {
    let mut cols = Seq::new(alloc);
    cols.add(Col {
        name: Name::new(alloc, b"id")?,
        kind: ColType::Int,
    })?;
    let mut lines = Seq::new(alloc);
    for session in sessions {
        lines.add(Line {
            session: *session,
            stmt: Stmt::Commit,
        })?;
    }
    Ok(Script {
        options: Options::new(),
        schema: Schema {
            table: Name::new(alloc, b"t")?,
            cols,
            uniques: Seq::new(alloc),
            indexes: Seq::new(alloc),
            sort: ColList::new(alloc),
        },
        lines,
    })
}

#[test]
fn a_run_is_read(rt: HostRuntime) -> Result<(), Fail> {
    let script = script(rt.alloc(), &[1, 1])?;
    let run = read_output(rt.alloc(), &script, SHORT)?;
    let text = print_output(rt.alloc(), &run)?;
    assert_eq!(rt; text.as_slice(), SHORT);
    Ok(())
}

fn told<T: Drop>(found: Result<T, OutputFault>) -> u64 {
    match found {
        Ok(_run) => 0,
        Err(OutputFault::Line(line)) => line,
        Err(OutputFault::Memory) => 999,
    }
}

/// The short run with this line in place of one of its lines, counted from 1.
fn changed(alloc: Global, place: usize, line: &[u8]) -> Result<Vec<u8>, Fail> {
    let mut bytes = Vec::new(alloc);
    let mut at: usize = 1;
    for byte in SHORT {
        if at != place {
            bytes.push(*byte)?;
        } else if *byte == b'\n' {
            bytes.extend_from_slice(line)?;
            bytes.push(b'\n')?;
        }
        if *byte == b'\n' && at < 100 {
            at += 1;
        }
    }
    Ok(bytes)
}

/// A line, what stands in its place, and the line at which the reading then stops; 0 where it doesn't.
type Case = (usize, &'static [u8], u64);

const CHANGES: &[Case] = &[
    (1, b"SESSION 01 2 0", 1),
    (1, b"SESSION 2 2 0", 1),
    (1, b"SESSION 1 3 0", 1),
    (1, b"SESSION 1 2 18446744073709551615", 0),
    (1, b"SESSION 1 2 18446744073709551616", 1),
    (2, b"0 0 OK 01", 2),
    (2, b"0 0 OK 4294967296", 2),
    (2, b"0 0 NOTHING", 2),
    (2, b"0 0 ERROR 10 ReadFault 1", 2),
    (2, b"0 0 ERROR 7 OutOfRange 3", 0),
    (2, b"0 0 ERROR 13 Memory ", 2),
    (3, b"2 0 ROWS 0", 4),
    (3, b"2 0 ROWS 2", 5),
    (3, b"2 0 ROWS 18446744073709551615", 5),
    (3, b"2 0 ROWS 18446744073709551616", 3),
    (3, b"2 0 ERROR 4 LogFull", 4),
    (4, b"(7, 'a''b')", 0),
    (4, b"(7, 'a'b')", 4),
    (4, b"(NULL, -170141183460469231731687303715884105728)", 0),
    (4, b"()", 0),
    (4, b"(-0)", 4),
    (4, b"(7,'ab')", 4),
    (4, b"(7, 'a\nb')", 4),
    (4, b"('\xff')", 4),
    (5, b"HISTORY 3", 8),
    (5, b"HISTORY 1", 7),
    (6, b"0 WRITE PUT 1 (7), DROP 2", 0),
    (6, b"17 COMMIT", 0),
    (6, b"256 COMMIT", 6),
    (6, b"1 UPLOAD 1", 6),
    (6, b"1 WRITE PUT 1 (9223372036854775808)", 6),
    (6, b"1 WRITE", 6),
    (8, b"END ", 8),
    (8, b"END\nEND", 9),
];

/// The forms of transactions and of unique keys.
const FORMS: &[Case] = &[
    (2, b"0 0 OK", 0),
    (2, b"0 0 OK ", 2),
    (2, b"0 0 OK -1", 2),
    (2, b"0 0 ERROR 1 NoTransaction", 0),
    (2, b"0 0 ERROR 01 NoTransaction", 2),
    (2, b"0 0 ERROR 1", 2),
    (2, b"0 0 ERROR 2 AlreadyOpen", 0),
    (2, b"0 0 ERROR 3 ReadOnly", 0),
    (2, b"0 0 ERROR 2 ReadOnly", 2),
    (2, b"0 0 ERROR 3 ReadOnly 1", 2),
    (2, b"0 0 ERROR 6 Locked 18446744073709551615 255", 0),
    (2, b"0 0 ERROR 6 Locked 18446744073709551616 1", 2),
    (2, b"0 0 ERROR 6 Locked 1 256", 2),
    (2, b"0 0 ERROR 6 Locked 1", 2),
    (2, b"0 0 ERROR 6 Locked 1 2 3", 2),
    (2, b"0 0 ERROR 8 Locked 1 2", 2),
    (2, b"0 0 ERROR 7 OutOfRange", 2),
    (2, b"0 0 ERROR 8 LockedValue 255 18446744073709551615 0", 0),
    (2, b"0 0 ERROR 8 LockedValue 256 1 1", 2),
    (2, b"0 0 ERROR 8 LockedValue 1 18446744073709551616 1", 2),
    (2, b"0 0 ERROR 8 LockedValue 1 2 256", 2),
    (2, b"0 0 ERROR 8 LockedValue 1 2", 2),
    (2, b"0 0 ERROR 6 LockedValue 1 2 1", 2),
    (2, b"0 0 ERROR 9 Duplicate 255 18446744073709551615", 0),
    (2, b"0 0 ERROR 9 Duplicate 256 2", 2),
    (2, b"0 0 ERROR 9 Duplicate 1 18446744073709551616", 2),
    (2, b"0 0 ERROR 9 Duplicate 1", 2),
    (2, b"0 0 ERROR 13 Memory", 0),
    (2, b"0 0 ERROR 14 NotYet", 2),
    (6, b"1 BEGIN", 0),
    (6, b"1 ROLLBACK", 0),
    (6, b"1 PIN", 0),
    (6, b"255 UNPIN", 0),
    (6, b"256 PIN", 6),
    (6, b"1 PIN 3", 6),
    (6, b"1 UNPIN ", 6),
    (6, b"1 ROLL", 6),
    (6, b"1 begin", 6),
];

#[test]
fn runs_with_one_change(rt: HostRuntime) -> Result<(), Fail> {
    let script = script(rt.alloc(), &[1, 1])?;
    for cases in [CHANGES, FORMS] {
        for (place, line, stops) in cases {
            let bytes = changed(rt.alloc(), *place, line)?;
            let found = told(read_output(rt.alloc(), &script, &bytes));
            assert_eq!(rt; found, *stops, "at {line:?}");
        }
    }
    Ok(())
}

#[test]
fn runs_that_end_too_early(rt: HostRuntime) -> Result<(), Fail> {
    let script = script(rt.alloc(), &[1, 1])?;
    let short = &SHORT[..SHORT.len() - 1];
    assert_eq!(rt; told(read_output(rt.alloc(), &script, short)), 8);
    let shorter = &SHORT[..SHORT.len() - 4];
    assert_eq!(rt; told(read_output(rt.alloc(), &script, shorter)), 8);
    assert_eq!(rt; told(read_output(rt.alloc(), &script, b"")), 1);
    Ok(())
}
