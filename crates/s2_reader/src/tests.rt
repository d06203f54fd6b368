//! A script of many forms, and scripts with one fault each.
use crate::{ScriptErr, ScriptFault, ScriptKind, read_script};
use s2_model::Script;
use std::alloc::Global;
use std::test::Fail;

const SCRIPT: &str =
    "\n-- first\nOption fanout 8;\ncreate table t (a INT, b text, KEY (a), sort key (b, a), unique key(b,a), UNIQUE KEY (a))\r\n1:\tinsert into t values (1, 'it''s'), (-2, '')\n1: UPDATE t SET a = a + -1 WHERE a != 1 AND NOT (b = 'x' OR a IN (1, 2))\n1: DELETE FROM t WHERE a <= 3;\n1: SELECT b, a FROM t ORDER BY a DESC, b LIMIT 3\n1: SELECT COUNT(*), SUM(a) FROM t\n16: begin\n2: BEGIN READ ONLY;\n16: ROLLBACK\n2 : Commit";

#[test]
fn a_script(rt: HostRuntime) -> Result<(), Fail> {
    let script = read_script(rt.alloc(), SCRIPT.as_bytes())?;
    assert_eq!(rt; script.lines.len(), 9);
    assert_eq!(rt; script.options.fanout, 8);
    assert_eq!(rt; script.schema.cols.len(), 2);
    assert_eq!(rt; script.schema.uniques.len(), 2);
    assert_eq!(rt; script.schema.indexes.len(), 1);
    assert_eq!(rt; script.schema.sort.len(), 2);
    Ok(())
}

fn told(found: Result<Script, ScriptFault>) -> Option<(u64, ScriptKind)> {
    match found {
        Ok(_script) => None,
        Err(ScriptFault::Bad(ScriptErr { line, what })) => Some((line, what)),
        Err(ScriptFault::Memory) => None,
    }
}

/// Stands for 256 letters in the scripts below.
const LONG: u8 = b'@';

fn written(alloc: Global, script: &[u8]) -> Result<Vec<u8>, Fail> {
    let mut bytes = Vec::new(alloc);
    for b in script {
        let times = if *b == LONG { 256 } else { 1 };
        for _ in 0..times {
            bytes.push(if *b == LONG { b'x' } else { *b })?;
        }
    }
    Ok(bytes)
}

/// One fault each, in the order of the kinds.
const BAD: [(&[u8], u64, ScriptKind); 13] = [
    (b"\n1: SELECT \xff", 2, ScriptKind::NotUtf8),
    (
        b"CREATE TABLE t (a INT)\n1: COMMIT '",
        2,
        ScriptKind::BadToken,
    ),
    (b"CREATE t", 1, ScriptKind::Syntax),
    (
        b"OPTION cache 9223372036854775808",
        1,
        ScriptKind::LiteralRange,
    ),
    (
        b"CREATE TABLE t (a TEXT)\n1: INSERT INTO t VALUES ('@')",
        2,
        ScriptKind::LiteralLong,
    ),
    (b"", 1, ScriptKind::Misplaced),
    (b"OPTION fanout 1", 1, ScriptKind::OptionValue),
    (b"CREATE TABLE t (a INT)\n17: COMMIT", 2, ScriptKind::Limit),
    (
        b"CREATE TABLE t (a INT)\n1: DELETE FROM u",
        2,
        ScriptKind::UnknownName,
    ),
    (
        b"CREATE TABLE t (a INT, a INT)",
        1,
        ScriptKind::RepeatedName,
    ),
    (
        b"CREATE TABLE t (a INT)\n1: INSERT INTO t VALUES ('x')",
        2,
        ScriptKind::WrongType,
    ),
    (
        b"CREATE TABLE t (a INT)\n1: FLUSH END",
        2,
        ScriptKind::JobOrder,
    ),
    (
        b"CREATE TABLE t (a INT, UNIQUE KEY (a))\n2: BEGIN\n2: FLUSH",
        3,
        ScriptKind::NotBuilt,
    ),
];

#[test]
fn scripts_with_a_fault(rt: HostRuntime) -> Result<(), Fail> {
    for (script, line, kind) in BAD {
        let bytes = written(rt.alloc(), script)?;
        let found = told(read_script(rt.alloc(), &bytes));
        assert_eq!(rt; found, Some((line, kind)), "at {script:?}");
    }
    Ok(())
}

/// A line to which a kind and the next one apply: the lesser is told. There is none for a value of the wrong type and a step
/// of a job, since the lines of jobs have no values.
const BOTH: [(&[u8], u64, ScriptKind); 11] = [
    (b"\xff", 1, ScriptKind::NotUtf8),
    (b"CREATE CREATE $", 1, ScriptKind::BadToken),
    (
        b"OPTION cache cache 9223372036854775808",
        1,
        ScriptKind::Syntax,
    ),
    (
        b"CREATE TABLE t (a INT, b TEXT)\n1: INSERT INTO t VALUES (-9223372036854775809, '@')",
        2,
        ScriptKind::LiteralRange,
    ),
    (b"1: INSERT INTO t VALUES ('@')", 1, ScriptKind::LiteralLong),
    (
        b"CREATE TABLE t (a INT)\nOPTION depth 1",
        2,
        ScriptKind::Misplaced,
    ),
    (
        b"OPTION a23456789012345678901234567890123 1",
        1,
        ScriptKind::OptionValue,
    ),
    (
        b"CREATE TABLE t (a INT)\n0: DELETE FROM u",
        2,
        ScriptKind::Limit,
    ),
    (
        b"CREATE TABLE t (a INT)\n1: UPDATE t SET b = 1, b = 2",
        2,
        ScriptKind::UnknownName,
    ),
    (
        b"CREATE TABLE t (a INT)\n1: UPDATE t SET a = 'x', a = 'x'",
        2,
        ScriptKind::RepeatedName,
    ),
    (
        b"CREATE TABLE t (a INT)\n1: MERGE END",
        2,
        ScriptKind::JobOrder,
    ),
];

#[test]
fn lines_with_two_faults(rt: HostRuntime) -> Result<(), Fail> {
    for (script, line, kind) in BOTH {
        let bytes = written(rt.alloc(), script)?;
        let found = told(read_script(rt.alloc(), &bytes));
        assert_eq!(rt; found, Some((line, kind)), "at {script:?}");
    }
    Ok(())
}
