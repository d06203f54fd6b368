//! Lines that are read and lines that aren't.
use crate::{Fault, line};
use s2_token::tokens;
use std::alloc::Global;
use std::test::Fail;

fn is_read(alloc: Global, text: &str) -> Result<bool, Fail> {
    let tokens = tokens(alloc, text.as_bytes())?;
    match line(alloc, tokens.as_slice()) {
        Ok(_read) => Ok(true),
        Err(Fault::Syntax) => Ok(false),
        Err(Fault::Memory) => Err(Fail::new("memory")),
    }
}

const LINES: [&str; 36] = [
    "OPTION fanout 8",
    "option Fanout 99999999999999999999;",
    "CREATE TABLE t (a INT)",
    "CREATE TABLE t (a INT, b TEXT, KEY (a), UNIQUE KEY (b, a), SORT KEY (b));",
    "create table t (a int, sort key (a), sort key (a))",
    "1: INSERT INTO t VALUES (1)",
    "1: INSERT INTO t VALUES (-1, 'it''s'), ('', 0, 0), (5);",
    "0: DELETE FROM t",
    "17: DELETE FROM t WHERE a = 1",
    "1: UPDATE t SET a = 1",
    "1: UPDATE t SET a = -1, b = 'x', c = d WHERE NOT a = 1;",
    "1: UPDATE t SET a = b + 1, a = b - 1, a = b + -1, a = b - - 1 WHERE a IN (1, -2)",
    "1: SELECT * FROM t",
    "1: SELECT a, b, a FROM t WHERE (a = 1 OR b <> 'x') AND c >= -3 ORDER BY a, b ASC, c DESC LIMIT 5;",
    "1: SELECT a FROM t ORDER BY a",
    "1: SELECT a FROM t LIMIT 0",
    "1: SELECT a FROM t WHERE a < 1 LIMIT 3",
    "1: SELECT COUNT(*) FROM t",
    "1: SELECT SUM(a), MIN(b), MAX(c), COUNT ( * ) FROM t WHERE a != 1;",
    "1: BEGIN",
    "1: BEGIN READ ONLY;",
    "1: COMMIT",
    "1: ROLLBACK;",
    "1: FLUSH",
    "1: FLUSH BEGIN",
    "1: FLUSH END;",
    "1: MERGE",
    "1: MERGE BEGIN;",
    "1: MERGE END",
    "1: UPLOAD",
    "1: EVICT",
    "1: VACUUM;",
    "1: MARK 3",
    "1: AFTER 3;",
    "00: MARK 0",
    "1:COMMIT;",
];

#[test]
fn lines_are_read(rt: HostRuntime) -> Result<(), Fail> {
    for text in LINES {
        assert!(rt; is_read(rt.alloc(), text)?, "at {text:?}");
    }
    Ok(())
}

const OTHERS: [&str; 44] = [
    "",
    ";",
    "COMMIT",
    "1 COMMIT",
    "-1: COMMIT",
    "1: COMMIT;;",
    "1: COMMIT COMMIT",
    "OPTION fanout",
    "OPTION fanout -8",
    "OPTION 8 8",
    "CREATE TABLE t ()",
    "CREATE TABLE t (a)",
    "CREATE TABLE t (KEY (a))",
    "CREATE TABLE t (a INT, KEY (a), b INT)",
    "CREATE TABLE t (a INT, KEY ())",
    "CREATE TABLE t (a INT, UNIQUE (a))",
    "CREATE TABLE t (a INT,)",
    "CREATE TABLE t (a INT) t",
    "1: INSERT INTO t VALUES",
    "1: INSERT INTO t VALUES ()",
    "1: INSERT INTO t VALUES (1),",
    "1: INSERT INTO t VALUES (1) (2)",
    "1: INSERT INTO t VALUES (a)",
    "1: INSERT INTO t VALUES (- -1)",
    "1: INSERT INTO t VALUES (-'a')",
    "1: INSERT INTO select VALUES (1)",
    "1: UPDATE t SET a = 1 + 1",
    "1: UPDATE t SET a = b + 'x'",
    "1: UPDATE t SET a = b * 2",
    "1: UPDATE t SET WHERE a = 1",
    "1: DELETE FROM t WHERE a = 1 ORDER BY a",
    "1: DELETE FROM t WHERE",
    "1: DELETE FROM t WHERE a = 1 b = 2",
    "1: UPDATE t SET a = 1 WHERE (a = 1",
    "1: SELECT a FROM t WHERE ORDER BY a",
    "1: DELETE t",
    "1: SELECT *, a FROM t",
    "1: SELECT COUNT(*), a FROM t",
    "1: SELECT COUNT(a) FROM t",
    "1: SELECT COUNT(*) FROM t LIMIT 1",
    "1: SELECT SUM(a) FROM t ORDER BY a",
    "1: SELECT a FROM t LIMIT 1 ORDER BY a",
    "1: BEGIN READ",
    "1: FLUSH COMMIT",
];

#[test]
fn others_are_not(rt: HostRuntime) -> Result<(), Fail> {
    for text in OTHERS {
        assert!(rt; !is_read(rt.alloc(), text)?, "at {text:?}");
    }
    Ok(())
}
