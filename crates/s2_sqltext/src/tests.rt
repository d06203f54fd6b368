//! Scripts of many forms, read, printed and read again; what is printed was written down by hand.
use crate::{
    ScriptErr, ScriptFault, ScriptKind, print_script, read_script, spelled_scripts_are_written,
};
use std::alloc::Global;
use std::test::Fail;

const DEFAULTS: &str =
    "OPTION segment_rows 4096\nOPTION flush_rows 1024\nOPTION fanout 4\nOPTION cache 16\nOPTION workers 1\n";

const SCRIPTS: [(&[u8], &str); 6] = [
    (
        b"\n \t-- \xff\xfe\nCreate taBLE t ( a INT,b text , SORT KEY (b,a), key(a), KEY (b , a) ) ;\r\n1:\tinsert into t values(1,'it''s'),(-2 , ''),( -0,'a\tb'), (007, ';--')\n\n1: INSERT INTO t VALUES (-9223372036854775808, ''''), (9223372036854775807, 'Z')",
        "CREATE TABLE t (a INT, b TEXT, KEY (a), KEY (b, a), SORT KEY (b, a))\n1: INSERT INTO t VALUES (1, 'it''s'), (-2, ''), (0, 'a\tb'), (7, ';--')\n1: INSERT INTO t VALUES (-9223372036854775808, ''''), (9223372036854775807, 'Z')\n",
    ),
    (
        b"CREATE TABLE _t9 (a INT, b INT)\n1: UPDATE _t9 SET a=b - -5,b = a+3 where a!=1\r\n1: update _t9 set b = -4;\n1: UPDATE _t9 SET a = b, b = a - 0 WHERE NOT (NOT (a IN (1,-2, 3)))\n1: delete from _t9 ;",
        "CREATE TABLE _t9 (a INT, b INT)\n1: UPDATE _t9 SET a = b - -5, b = a + 3 WHERE a <> 1\n1: UPDATE _t9 SET b = -4\n1: UPDATE _t9 SET a = b, b = a - 0 WHERE NOT NOT a IN (1, -2, 3)\n1: DELETE FROM _t9\n",
    ),
    (
        b"CREATE TABLE t (a INT, b TEXT)\n1: SELECT * FROM t;\n1: select b,a , b FROM t WHERE a>=1 ORDER BY a asc , b DESC LIMIT 0\n1: SELECT a FROM t LIMIT 9223372036854775807\n1: SELECT COUNT ( * ),sum(a), Min(b), MAX (a) FROM t\n1: SELECT MAX(b) FROM t WHERE b > 'x'\n",
        "CREATE TABLE t (a INT, b TEXT)\n1: SELECT * FROM t\n1: SELECT b, a, b FROM t WHERE a >= 1 ORDER BY a, b DESC LIMIT 0\n1: SELECT a FROM t LIMIT 9223372036854775807\n1: SELECT COUNT(*), SUM(a), MIN(b), MAX(a) FROM t\n1: SELECT MAX(b) FROM t WHERE b > 'x'\n",
    ),
    (
        b"CREATE TABLE t (a INT, b INT)\n1: DELETE FROM t WHERE ((a = 1) AND (b < 2)) AND a > 3\n1: DELETE FROM t WHERE a = 1 AND (b <= 2 AND a > 3)\n1: DELETE FROM t WHERE (a = 1 OR b = 2) AND (a >= 3 OR b = 4)\n1: DELETE FROM t WHERE a < 1 OR (b = 2 OR a = 3)\n1: DELETE FROM t WHERE (a < 1 OR b = 2) OR (a = 3)\n1: DELETE FROM t WHERE (a = 1 AND b = 2) OR (a = 3 AND b = 4)\n1: DELETE FROM t WHERE (NOT (a = 1)) AND NOT (a = 2 AND b = 3)\n1: DELETE FROM t WHERE NOT ((a = 2 OR b = 3))\n",
        "CREATE TABLE t (a INT, b INT)\n1: DELETE FROM t WHERE a = 1 AND b < 2 AND a > 3\n1: DELETE FROM t WHERE a = 1 AND (b <= 2 AND a > 3)\n1: DELETE FROM t WHERE (a = 1 OR b = 2) AND (a >= 3 OR b = 4)\n1: DELETE FROM t WHERE a < 1 OR (b = 2 OR a = 3)\n1: DELETE FROM t WHERE a < 1 OR b = 2 OR a = 3\n1: DELETE FROM t WHERE a = 1 AND b = 2 OR a = 3 AND b = 4\n1: DELETE FROM t WHERE NOT a = 1 AND NOT (a = 2 AND b = 3)\n1: DELETE FROM t WHERE NOT (a = 2 OR b = 3)\n",
    ),
    (
        b"CREATE TABLE t (a TEXT, KEY (a))",
        "CREATE TABLE t (a TEXT, KEY (a))\n",
    ),
    (
        b"CREATE TABLE t (a INT, b TEXT, KEY (b), unique  key(b,a), SORT KEY (a), Unique Key ( a ) )\n 2 : begin\n16: BEGIN Read only ;\n2:insert into t values (1,'x')\r\n016: commit\n2: Rollback;\n1: COMMIT",
        "CREATE TABLE t (a INT, b TEXT, UNIQUE KEY (b, a), UNIQUE KEY (a), KEY (b), SORT KEY (a))\n2: BEGIN\n16: BEGIN READ ONLY\n2: INSERT INTO t VALUES (1, 'x')\n16: COMMIT\n2: ROLLBACK\n1: COMMIT\n",
    ),
];

fn printed(alloc: Global, bytes: &[u8]) -> Result<Vec<u8>, ScriptFault> {
    spelled_scripts_are_written();
    let script = read_script(alloc, bytes)?;
    match print_script(alloc, &script) {
        Ok(text) => Ok(text),
        Err(_) => Err(ScriptFault::Memory),
    }
}

#[test]
fn scripts_are_printed_and_read_again(rt: HostRuntime) -> Result<(), Fail> {
    for (bytes, lines) in SCRIPTS {
        let text = printed(rt.alloc(), bytes)?;
        let mut expected = Vec::from_slice(rt.alloc(), DEFAULTS.as_bytes())?;
        expected.extend_from_slice(lines.as_bytes())?;
        assert_eq!(rt; text, expected, "at {lines}");
        let again = printed(rt.alloc(), text.as_slice())?;
        assert_eq!(rt; again, text, "again at {lines}");
    }
    Ok(())
}

const OPTIONS: &[u8] =
    b"option workers 0\nOPTION cache 32;\nOPTION fanout 2\nOPTION flush_rows 65536\n-- one more\nOPTION segment_rows 1\r\nCREATE TABLE t (a INT)\n";

const PRINTED_OPTIONS: &str =
    "OPTION segment_rows 1\nOPTION flush_rows 65536\nOPTION fanout 2\nOPTION cache 32\nOPTION workers 0\nCREATE TABLE t (a INT)\n";

#[test]
fn options_stand_in_their_order(rt: HostRuntime) -> Result<(), Fail> {
    let text = printed(rt.alloc(), OPTIONS)?;
    assert_eq!(rt; text.as_slice(), PRINTED_OPTIONS.as_bytes());
    Ok(())
}

#[test]
fn a_fault_is_named(rt: HostRuntime) -> Result<(), Fail> {
    let found = match read_script(
        rt.alloc(),
        b"CREATE TABLE t (a INT)\n1: DELETE FROM t WHERE c = 1",
    ) {
        Ok(_script) => None,
        Err(fault) => Some(fault),
    };
    let wanted = ScriptErr {
        line: 2,
        what: ScriptKind::UnknownName,
    };
    assert_eq!(rt; found, Some(ScriptFault::Bad(wanted)));
    Ok(())
}
