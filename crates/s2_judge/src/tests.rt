//! Lines with each kind of fault, and lines with two.
use crate::{Kind, Known, fault_of};
use s2_line::{Raw, line};
use s2_token::tokens;
use std::alloc::Global;
use std::test::Fail;

fn raw(alloc: Global, text: &[u8]) -> Result<Raw, Fail> {
    let tokens = tokens(alloc, text)?;
    Ok(line(alloc, tokens.as_slice())?)
}

fn known_after(alloc: Global, lines: &[&str]) -> Result<Known, Fail> {
    let mut known = Known::new(alloc);
    for text in lines {
        let line = raw(alloc, text.as_bytes())?;
        known.after(alloc, &line)?;
    }
    Ok(known)
}

fn fault(alloc: Global, known: &Known, text: &[u8]) -> Result<Option<Kind>, Fail> {
    let line = raw(alloc, text)?;
    Ok(fault_of(alloc, known, &line)?)
}

const OPTIONS: [&str; 1] = ["OPTION fanout 4"];

const AT_FIRST: [(&str, Option<Kind>); 27] = [
    ("OPTION cache 9223372036854775808", Some(Kind::LiteralRange)),
    ("18446744073709551616: COMMIT", Some(Kind::LiteralRange)),
    ("1: MARK 9223372036854775808", Some(Kind::LiteralRange)),
    ("1: COMMIT", Some(Kind::Misplaced)),
    ("OPTION fanout 4", Some(Kind::OptionValue)),
    ("OPTION Cache 4", Some(Kind::OptionValue)),
    ("OPTION cache 33", Some(Kind::OptionValue)),
    ("OPTION cache 0", Some(Kind::OptionValue)),
    ("OPTION workers 2", Some(Kind::OptionValue)),
    ("OPTION segment_rows 8193", Some(Kind::OptionValue)),
    ("OPTION flush_rows 65537", Some(Kind::OptionValue)),
    ("OPTION flush_rows 65536", None),
    ("OPTION segment_rows 8192", None),
    ("OPTION workers 0", None),
    (
        "OPTION a23456789012345678901234567890123 1",
        Some(Kind::OptionValue),
    ),
    (
        "CREATE TABLE a23456789012345678901234567890123 (a INT)",
        Some(Kind::Limit),
    ),
    (
        "CREATE TABLE a2345678901234567890123456789012 (a INT)",
        None,
    ),
    (
        "CREATE TABLE t (a INT, KEY (a, a, a, a, b))",
        Some(Kind::Limit),
    ),
    (
        "CREATE TABLE t (a INT, SORT KEY (a), SORT KEY (b))",
        Some(Kind::Limit),
    ),
    ("CREATE TABLE t (a INT, KEY (b))", Some(Kind::UnknownName)),
    (
        "CREATE TABLE t (a INT, a INT, KEY (b))",
        Some(Kind::UnknownName),
    ),
    ("CREATE TABLE t (a INT, a TEXT)", Some(Kind::RepeatedName)),
    (
        "CREATE TABLE t (a INT, UNIQUE KEY (a, a))",
        Some(Kind::RepeatedName),
    ),
    (
        "CREATE TABLE t (a INT, UNIQUE KEY (b))",
        Some(Kind::UnknownName),
    ),
    (
        "CREATE TABLE t (a INT, UNIQUE KEY (a), UNIQUE KEY (a), UNIQUE KEY (a), UNIQUE KEY (a), UNIQUE KEY (b))",
        Some(Kind::Limit),
    ),
    (
        "CREATE TABLE t (a INT, b TEXT, UNIQUE KEY (a), UNIQUE KEY (a), UNIQUE KEY (b, a), UNIQUE KEY (a, b))",
        None,
    ),
    (
        "CREATE TABLE t (a INT, b TEXT, KEY (b, a), SORT KEY (a))",
        None,
    ),
];

#[test]
fn before_the_table(rt: HostRuntime) -> Result<(), Fail> {
    let known = known_after(rt.alloc(), &OPTIONS)?;
    for (text, kind) in AT_FIRST {
        let found = fault(rt.alloc(), &known, text.as_bytes())?;
        assert_eq!(rt; found, kind, "at {text:?}");
    }
    Ok(())
}

const TABLE: [&str; 4] = [
    "OPTION fanout 4",
    "CREATE TABLE t (a INT, b TEXT)",
    "2: FLUSH BEGIN",
    "3: MERGE BEGIN",
];

const LATER: [(&str, Option<Kind>); 45] = [
    (
        "1: INSERT INTO t VALUES (9223372036854775808, 'x')",
        Some(Kind::LiteralRange),
    ),
    (
        "1: INSERT INTO t VALUES (9223372036854775807, 'x'), (-9223372036854775808, '')",
        None,
    ),
    (
        "1: UPDATE t SET a = a - 9223372036854775808",
        Some(Kind::LiteralRange),
    ),
    (
        "1: SELECT * FROM t WHERE a = 1 LIMIT 9223372036854775808",
        Some(Kind::LiteralRange),
    ),
    ("OPTION cache 4", Some(Kind::Misplaced)),
    ("OPTION fanout 99", Some(Kind::Misplaced)),
    ("CREATE TABLE t (a INT, a INT)", Some(Kind::Misplaced)),
    ("17: DELETE FROM u", Some(Kind::Limit)),
    ("0: COMMIT", Some(Kind::Limit)),
    ("1: MARK 17", Some(Kind::Limit)),
    ("1: AFTER 0", Some(Kind::Limit)),
    (
        "1: SELECT a,a,a,a,a,a,a,a,a,a,a,a,a,a,a,a,a FROM t",
        Some(Kind::Limit),
    ),
    (
        "1: SELECT a,a,a,a,a,a,a,a,a,a,a,a,a,a,a,a FROM t ORDER BY a, a",
        None,
    ),
    (
        "1: DELETE FROM t WHERE NOT NOT NOT NOT NOT NOT NOT NOT ((((((((( a = 1 )))))))))",
        Some(Kind::Limit),
    ),
    (
        "1: DELETE FROM t WHERE NOT NOT NOT NOT NOT NOT NOT NOT (((((((( a = 1 ))))))))",
        None,
    ),
    ("1: DELETE FROM u", Some(Kind::UnknownName)),
    ("1: DELETE FROM t WHERE c = 1", Some(Kind::UnknownName)),
    ("1: SELECT a FROM t ORDER BY c", Some(Kind::UnknownName)),
    ("1: SELECT MIN(c) FROM t", Some(Kind::UnknownName)),
    ("1: UPDATE t SET a = c + 1", Some(Kind::UnknownName)),
    ("1: UPDATE t SET c = 1, c = 2", Some(Kind::UnknownName)),
    ("1: UPDATE t SET a = 'x', a = 'x'", Some(Kind::RepeatedName)),
    ("1: INSERT INTO t VALUES (1)", Some(Kind::WrongType)),
    ("1: INSERT INTO t VALUES (1, 'x', 2)", Some(Kind::WrongType)),
    ("1: INSERT INTO t VALUES ('x', 'y')", Some(Kind::WrongType)),
    ("1: UPDATE t SET b = 1", Some(Kind::WrongType)),
    ("1: UPDATE t SET b = a", Some(Kind::WrongType)),
    ("1: UPDATE t SET b = a + 1", Some(Kind::WrongType)),
    ("1: UPDATE t SET a = b + 1", Some(Kind::WrongType)),
    ("1: UPDATE t SET a = a + -1, b = b", None),
    ("1: SELECT SUM(b) FROM t", Some(Kind::WrongType)),
    ("1: SELECT SUM(a), MAX(b), COUNT(*) FROM t", None),
    (
        "1: DELETE FROM t WHERE a = 1 AND a IN (1, 'x')",
        Some(Kind::WrongType),
    ),
    ("4: INSERT INTO t VALUES (1)", Some(Kind::WrongType)),
    ("1: FLUSH END", Some(Kind::JobOrder)),
    ("2: MERGE END", Some(Kind::JobOrder)),
    ("2: FLUSH", Some(Kind::JobOrder)),
    ("2: FLUSH END", Some(Kind::NotBuilt)),
    ("3: MERGE END", Some(Kind::NotBuilt)),
    ("16: SELECT * FROM t", None),
    ("2: BEGIN", None),
    ("3: BEGIN READ ONLY", None),
    ("4: COMMIT", None),
    ("1: ROLLBACK", None),
    ("1: VACUUM", Some(Kind::NotBuilt)),
];

#[test]
fn after_the_table(rt: HostRuntime) -> Result<(), Fail> {
    let known = known_after(rt.alloc(), &TABLE)?;
    for (text, kind) in LATER {
        let found = fault(rt.alloc(), &known, text.as_bytes())?;
        assert_eq!(rt; found, kind, "at {text:?}");
    }
    Ok(())
}

/// A line that inserts this number and a text of so many bytes.
fn insert(alloc: Global, number: &str, length: usize) -> Result<Vec<u8>, Fail> {
    let mut text = Vec::from_slice(alloc, b"1: INSERT INTO t VALUES (")?;
    text.extend_from_slice(number.as_bytes())?;
    text.extend_from_slice(b", '")?;
    for _ in 0..length {
        text.push(b'x')?;
    }
    text.extend_from_slice(b"')")?;
    Ok(text)
}

const TEXTS: [(&str, usize, Option<Kind>); 3] = [
    ("1", 255, None),
    ("1", 256, Some(Kind::LiteralLong)),
    ("9223372036854775808", 256, Some(Kind::LiteralRange)),
];

#[test]
fn long_texts(rt: HostRuntime) -> Result<(), Fail> {
    let known = known_after(rt.alloc(), &TABLE)?;
    for (number, length, kind) in TEXTS {
        let text = insert(rt.alloc(), number, length)?;
        let found = fault(rt.alloc(), &known, &text)?;
        assert_eq!(rt; found, kind, "at {length}");
    }
    Ok(())
}

#[test]
fn a_long_text_before_the_table(rt: HostRuntime) -> Result<(), Fail> {
    let known = Known::new(rt.alloc());
    let text = insert(rt.alloc(), "1", 256)?;
    let found = fault(rt.alloc(), &known, &text)?;
    assert_eq!(rt; found, Some(Kind::LiteralLong));
    Ok(())
}

/// A line with an IN of so many values.
fn delete(alloc: Global, values: usize) -> Result<Vec<u8>, Fail> {
    let mut text = Vec::from_slice(alloc, b"1: DELETE FROM t WHERE a IN (0")?;
    for _ in 1..values {
        text.extend_from_slice(b", 0")?;
    }
    text.push(b')')?;
    Ok(text)
}

#[test]
fn comparisons_are_limited(rt: HostRuntime) -> Result<(), Fail> {
    let known = known_after(rt.alloc(), &TABLE)?;
    for (values, kind) in [(64, None), (65, Some(Kind::Limit))] {
        let text = delete(rt.alloc(), values)?;
        let found = fault(rt.alloc(), &known, &text)?;
        assert_eq!(rt; found, kind, "at {values}");
    }
    Ok(())
}

/// A line that sets a column very often.
fn update(alloc: Global, times: usize) -> Result<Vec<u8>, Fail> {
    let mut text = Vec::from_slice(alloc, b"1: UPDATE t SET a = 0")?;
    for _ in 0..times {
        text.extend_from_slice(b", b = ''")?;
    }
    Ok(text)
}

#[test]
fn a_long_list_of_sets(rt: HostRuntime) -> Result<(), Fail> {
    let known = known_after(rt.alloc(), &TABLE)?;
    let text = update(rt.alloc(), 100_000)?;
    let found = fault(rt.alloc(), &known, &text)?;
    assert_eq!(rt; found, Some(Kind::RepeatedName));
    Ok(())
}
