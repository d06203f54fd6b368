//! Inputs split at their first mark, and edited outputs judged.
use crate::Checked::{BadScript, Entry, Legal, NotOutput, Reply};
use crate::{Checked, check_call, split};
use s2_judge::Kind;
use std::alloc::Global;
use std::test::Fail;

#[test]
fn inputs_split(rt: HostRuntime) -> Result<(), Fail> {
    let cases: [(&[u8], &[u8], &[u8]); 6] = [
        (b"a\n==OUTPUT==\nb\nc", b"a\n", b"b\nc"),
        (b"==OUTPUT==\n==OUTPUT==\n", b"", b"==OUTPUT==\n"),
        (b"a\n==OUTPUT==", b"a\n", b""),
        (
            b"a==OUTPUT==\n==OUTPUT==\r\n",
            b"a==OUTPUT==\n==OUTPUT==\r\n",
            b"",
        ),
        (b"a\n ==OUTPUT==\nb", b"a\n ==OUTPUT==\nb", b""),
        (b"", b"", b""),
    ];
    for (text, script, output) in cases {
        let parts = split(text);
        assert_eq!(rt; parts.0, script);
        assert_eq!(rt; parts.1, output);
    }
    Ok(())
}

/// A text that stands once, and what is put in its place.
type Edit = (&'static str, &'static str);

/// What an input with these edits is answered.
type Case = (&'static [Edit], Checked);

/// Two rows are inserted, and one of them is changed and deleted.
const ROWS: &str = "CREATE TABLE t (id INT, name TEXT);
1: INSERT INTO t VALUES (7, 'ab'), (8, 'cd');
1: SELECT * FROM t ORDER BY id DESC;
1: UPDATE t SET id = id + 1 WHERE name = 'ab';
1: SELECT * FROM t ORDER BY id DESC LIMIT 2;
1: DELETE FROM t WHERE name = 'ab';
1: SELECT COUNT(*), SUM(id), MIN(name) FROM t;
==OUTPUT==
SESSION 1 6 0
0 0 OK 2
2 0 ROWS 2
(8, 'cd')
(7, 'ab')
2 0 OK 1
4 0 ROWS 2
(8, 'ab')
(8, 'cd')
4 0 OK 1
6 0 ROWS 1
(1, 8, 'cd')
HISTORY 6
1 WRITE PUT 1 (7, 'ab'), PUT 2 (8, 'cd')
1 COMMIT
1 WRITE PUT 1 (8, 'ab')
1 COMMIT
1 WRITE DROP 1
1 COMMIT
END
";

const ROW_CASES: &[Case] = &[
    (&[], Legal),
    // Counts, refusals and rows that the history doesn't bear out.
    (&[("0 0 OK 2", "0 0 OK 1")], Reply(1, 1)),
    (&[("0 0 OK 2", "0 0 ROWS 0")], Reply(1, 1)),
    (&[("2 0 OK 1", "2 0 OK 2")], Reply(1, 3)),
    (&[("2 0 OK 1", "2 0 ERROR 4 LogFull")], Reply(1, 3)),
    (&[("2 0 OK 1", "2 0 ERROR 5 TooManyRows")], Reply(1, 3)),
    (&[("2 0 OK 1", "2 0 ERROR 7 OutOfRange 1")], Reply(1, 3)),
    (&[("(8, 'cd')\n(7,", "(9, 'cd')\n(7,")], Reply(1, 2)),
    (&[("2 0 ROWS 2\n(8, 'cd')", "2 0 ROWS 1")], Reply(1, 2)),
    (&[("(1, 8, 'cd')", "(1, 9, 'cd')")], Reply(1, 6)),
    (&[("(1, 8, 'cd')", "(1, 8, NULL)")], Reply(1, 6)),
    (&[("(1, 8, 'cd')", "(1, 8)")], Reply(1, 6)),
    (&[("6 0 ROWS 1\n(1, 8, 'cd')", "6 0 ROWS 0")], Reply(1, 6)),
    // The order of the rows, and of rows that are equal there.
    (
        &[("(8, 'cd')\n(7, 'ab')", "(7, 'ab')\n(8, 'cd')")],
        Reply(1, 2),
    ),
    (
        &[("(8, 'ab')\n(8, 'cd')", "(8, 'cd')\n(8, 'ab')")],
        Reply(1, 4),
    ),
    // Timestamps: before the end of the last reply, behind entries of the session that no reply made yet, and after the history.
    (&[("2 0 ROWS 2", "0 0 ROWS 2")], Reply(1, 2)),
    (&[("2 0 ROWS 2", "1 0 ROWS 2")], Reply(1, 2)),
    (&[("2 0 ROWS 2", "3 0 ROWS 2")], Reply(1, 2)),
    (&[("2 0 OK 1", "1 0 OK 1")], Reply(1, 3)),
    (&[("2 0 OK 1", "4 0 OK 1")], Reply(1, 3)),
    (&[("4 0 ROWS 2", "6 0 ROWS 2")], Reply(1, 4)),
    (&[("6 0 ROWS 1", "5 0 ROWS 1")], Reply(1, 6)),
    (&[("6 0 ROWS 1", "7 0 ROWS 1")], Reply(1, 6)),
    // Fault counts never fall, and the final one isn't below the last.
    (&[("SESSION 1 6 0", "SESSION 1 6 5")], Legal),
    (&[("2 0 OK 1", "2 3 OK 1")], Reply(1, 4)),
    (&[("6 0 ROWS 1", "6 3 ROWS 1")], Reply(1, 7)),
    (
        &[
            ("6 0 ROWS 1", "6 3 ROWS 1"),
            ("SESSION 1 6 0", "SESSION 1 6 3"),
        ],
        Legal,
    ),
    // Want of memory, where nothing was done; the entries of a reply may not be left.
    (
        &[("6 0 ROWS 1\n(1, 8, 'cd')", "6 0 ERROR 13 Memory")],
        Legal,
    ),
    (
        &[("4 0 ROWS 2\n(8, 'ab')\n(8, 'cd')", "4 0 ERROR 13 Memory")],
        Legal,
    ),
    (&[("4 0 OK 1", "4 0 ERROR 13 Memory")], Reply(1, 6)),
    // Entries that don't fit: row numbers, rows, actors, and commits.
    (&[("PUT 2 (8, 'cd')", "PUT 3 (8, 'cd')")], Entry(1)),
    (&[("PUT 2 (8, 'cd')", "PUT 1 (8, 'cd')")], Entry(1)),
    (&[("PUT 2 (8, 'cd')", "DROP 2")], Entry(1)),
    (&[("(7, 'ab'), PUT", "('ab', 7), PUT")], Entry(1)),
    (&[("PUT 1 (8, 'ab')", "PUT 1 (8)")], Entry(3)),
    (&[("PUT 1 (8, 'ab')", "PUT 2 (8, 'ab')")], Reply(1, 3)),
    (&[("PUT 1 (8, 'ab')", "PUT 1 (7, 'ab')")], Reply(1, 3)),
    (&[("WRITE DROP 1", "WRITE DROP 3")], Entry(5)),
    (&[("WRITE DROP 1", "WRITE DROP 2")], Reply(1, 5)),
    (&[("WRITE DROP 1", "WRITE PUT 3 (9, 'x')")], Reply(1, 5)),
    (&[("1 WRITE DROP 1", "17 WRITE DROP 1")], Entry(5)),
    (&[("1 WRITE DROP 1", "0 WRITE DROP 1")], Entry(5)),
    (&[("1 WRITE DROP 1", "2 WRITE DROP 1")], Entry(6)),
    (
        &[
            ("HISTORY 6", "HISTORY 7"),
            ("1 COMMIT\nEND", "1 COMMIT\n1 COMMIT\nEND"),
        ],
        Entry(7),
    ),
    (
        &[
            ("HISTORY 6", "HISTORY 5"),
            ("1 COMMIT\n1 WRITE DROP 1", "1 WRITE DROP 1"),
        ],
        Reply(1, 3),
    ),
    // A write of another session: it holds its row, and no reply made it.
    (
        &[
            ("HISTORY 6", "HISTORY 7"),
            (
                "1 WRITE PUT 1 (8",
                "2 WRITE PUT 1 (9, 'x')\n1 WRITE PUT 1 (8",
            ),
        ],
        Entry(4),
    ),
    (
        &[(
            "1 WRITE PUT 1 (8, 'ab')\n1 COMMIT",
            "2 WRITE PUT 1 (8, 'ab')\n2 COMMIT",
        )],
        Reply(1, 3),
    ),
    (
        &[
            ("HISTORY 6", "HISTORY 7"),
            ("1 COMMIT\nEND", "1 COMMIT\n1 WRITE DROP 2\nEND"),
        ],
        Reply(1, 7),
    ),
    (
        &[
            ("HISTORY 6", "HISTORY 7"),
            ("1 COMMIT\nEND", "1 COMMIT\n16 WRITE DROP 2\nEND"),
        ],
        Reply(16, 1),
    ),
    // Lines that no output has there.
    (&[("SESSION 1 6 0", "SESSION 1 5 0")], NotOutput(1)),
    (&[("SESSION 1 6 0", "SESSION 2 6 0")], NotOutput(1)),
    (&[("SESSION 1 6 0", "SESSION 1 6 0\r")], NotOutput(1)),
    (&[("0 0 OK 2", "00 0 OK 2")], NotOutput(2)),
    (&[("4 0 ROWS 2", "4 0 ROWS 3")], NotOutput(10)),
    (&[("(7, 'ab'), PUT", "(7, 'ab') PUT")], NotOutput(14)),
    (&[("HISTORY 6", "HISTORY 5")], NotOutput(19)),
    (&[("HISTORY 6", "HISTORY 7")], NotOutput(20)),
    (&[("END\n", "END")], NotOutput(20)),
    (&[("END\n", "")], NotOutput(20)),
    (&[("END\n", "END\nx")], NotOutput(21)),
    // The script comes first.
    (
        &[
            ("SELECT COUNT(*), SUM(id)", "SELECT COUNT(*), SUM(name)"),
            ("END\n", ""),
        ],
        BadScript(7, Kind::WrongType),
    ),
    (&[("==OUTPUT==\n", "")], BadScript(8, Kind::Syntax)),
];

/// A sum that leaves 64 bits is refused, and one over rows doesn't leave its 128.
const SUMS: &str = "CREATE TABLE t (id INT);
1: INSERT INTO t VALUES (9223372036854775807);
1: UPDATE t SET id = id + 1;
1: INSERT INTO t VALUES (1);
1: SELECT SUM(id) FROM t;
==OUTPUT==
SESSION 1 4 0
0 0 OK 1
2 0 ERROR 7 OutOfRange 1
2 0 OK 1
4 0 ROWS 1
(9223372036854775808)
HISTORY 4
1 WRITE PUT 1 (9223372036854775807)
1 COMMIT
1 WRITE PUT 2 (1)
1 COMMIT
END
";

const SUM_CASES: &[Case] = &[
    (&[], Legal),
    (&[("OutOfRange 1", "OutOfRange 2")], Reply(1, 2)),
    (&[("ERROR 7 OutOfRange 1", "OK 1")], Reply(1, 2)),
    (&[("ERROR 7 OutOfRange 1", "ERROR 13 Memory")], Legal),
    (&[("2 0 ERROR", "1 0 ERROR")], Reply(1, 2)),
    (&[("2 0 ERROR", "3 0 ERROR")], Reply(1, 2)),
    (
        &[("(9223372036854775808)", "(-9223372036854775808)")],
        Reply(1, 4),
    ),
    (&[("PUT 2 (1)", "PUT 2 (2)")], Reply(1, 3)),
    (&[("PUT 2 (1)", "PUT 1 (1)")], Reply(1, 3)),
];

/// A row with a unique key value is deleted in a transaction while another session inserts the value.
const HELD: &str = "CREATE TABLE t (id INT, UNIQUE KEY (id));
1: INSERT INTO t VALUES (1);
1: BEGIN;
1: DELETE FROM t WHERE id = 1;
2: INSERT INTO t VALUES (1);
1: COMMIT;
2: INSERT INTO t VALUES (1);
==OUTPUT==
SESSION 1 4 0
0 0 OK 1
2 0 OK
3 0 OK 1
4 0 OK
SESSION 2 2 0
4 0 ERROR 8 LockedValue 1 2 1
5 0 OK 1
HISTORY 7
1 WRITE PUT 1 (1)
1 COMMIT
1 BEGIN
1 WRITE DROP 1
1 COMMIT
2 WRITE PUT 2 (1)
2 COMMIT
END
";

const HELD_CASES: &[Case] = &[
    (&[], Legal),
    // The key, the row and the holder of a value that another holds.
    (&[("LockedValue 1 2 1", "LockedValue 2 2 1")], Reply(2, 1)),
    (&[("LockedValue 1 2 1", "LockedValue 1 1 1")], Reply(2, 1)),
    (&[("LockedValue 1 2 1", "LockedValue 1 2 2")], Reply(2, 1)),
    (&[("8 LockedValue 1 2 1", "9 Duplicate 1 2")], Reply(2, 1)),
    (&[("8 LockedValue 1 2 1", "6 Locked 1 1")], Reply(2, 1)),
    (
        &[("4 0 ERROR 8 LockedValue 1 2 1", "4 0 ERROR 13 Memory")],
        Legal,
    ),
    // The same statement before the value was held, and after that.
    (&[("4 0 ERROR 8", "3 0 ERROR 8")], Reply(2, 1)),
    (
        &[("4 0 ERROR 8 LockedValue 1 2 1", "3 0 ERROR 9 Duplicate 1 2")],
        Legal,
    ),
    (&[("4 0 ERROR 8", "5 0 ERROR 8")], Reply(2, 1)),
    // The transaction rolled back.
    (
        &[
            ("1: COMMIT", "1: ROLLBACK"),
            ("1 WRITE DROP 1\n1 COMMIT", "1 WRITE DROP 1\n1 ROLLBACK"),
            ("HISTORY 7", "HISTORY 5"),
            ("2 WRITE PUT 2 (1)\n2 COMMIT\n", ""),
            ("5 0 OK 1", "5 0 ERROR 9 Duplicate 1 2"),
        ],
        Legal,
    ),
    (
        &[
            ("1: COMMIT", "1: ROLLBACK"),
            ("1 WRITE DROP 1\n1 COMMIT", "1 WRITE DROP 1\n1 ROLLBACK"),
            ("HISTORY 7", "HISTORY 5"),
            ("2 WRITE PUT 2 (1)\n2 COMMIT\n", ""),
            ("5 0 OK 1", "5 0 ERROR 9 Duplicate 1 1"),
        ],
        Reply(2, 2),
    ),
    (
        &[
            ("1: COMMIT", "1: ROLLBACK"),
            ("1 WRITE DROP 1\n1 COMMIT", "1 WRITE DROP 1\n1 ROLLBACK"),
            ("HISTORY 7", "HISTORY 5"),
            ("2 WRITE PUT 2 (1)\n2 COMMIT\n", ""),
            ("5 0 OK 1", "5 0 ERROR 9 Duplicate 2 2"),
        ],
        Reply(2, 2),
    ),
    // What opens and ends a transaction: no count, no refusal, and no want of memory at its end.
    (&[("2 0 OK", "2 0 OK 0")], Reply(1, 2)),
    (&[("3 0 OK 1", "3 0 OK")], Reply(1, 3)),
    (&[("2 0 OK", "2 0 ERROR 2 AlreadyOpen")], Reply(1, 2)),
    (&[("2 0 OK", "2 0 ERROR 13 Memory")], Reply(1, 3)),
    (&[("4 0 OK", "4 0 ERROR 13 Memory")], Reply(1, 4)),
    (&[("4 0 OK", "4 0 ERROR 1 NoTransaction")], Reply(1, 4)),
    // Entries that don't fit, and entries that no reply made.
    (
        &[
            ("HISTORY 7", "HISTORY 8"),
            ("1 WRITE DROP 1\n", "1 WRITE DROP 1\n2 WRITE PUT 1 (1)\n"),
        ],
        Entry(5),
    ),
    (
        &[
            ("HISTORY 7", "HISTORY 8"),
            ("1 WRITE DROP 1\n", "1 BEGIN\n1 WRITE DROP 1\n"),
        ],
        Entry(4),
    ),
    (
        &[
            ("HISTORY 7", "HISTORY 8"),
            ("1 WRITE DROP 1\n", "1 PIN\n1 WRITE DROP 1\n"),
        ],
        Entry(4),
    ),
    (
        &[
            ("HISTORY 7", "HISTORY 8"),
            (
                "1 WRITE DROP 1\n1 COMMIT",
                "1 WRITE DROP 1\n1 COMMIT\n1 COMMIT",
            ),
        ],
        Entry(6),
    ),
    (&[("1 BEGIN", "17 BEGIN")], Entry(3)),
    (&[("1 BEGIN", "0 BEGIN")], Entry(3)),
    (&[("1 BEGIN", "2 BEGIN")], Reply(1, 2)),
    (
        &[("HISTORY 7", "HISTORY 6"), ("2 COMMIT\n", "")],
        Reply(2, 2),
    ),
];

/// A unique key whose values move on all at once.
const SHIFT: &str = "CREATE TABLE t (id INT, UNIQUE KEY (id));
1: INSERT INTO t VALUES (1), (2), (3);
1: UPDATE t SET id = id + 1;
1: INSERT INTO t VALUES (9223372036854775807);
1: UPDATE t SET id = id + 1;
1: SELECT * FROM t;
==OUTPUT==
SESSION 1 5 0
0 0 OK 3
2 0 OK 3
4 0 OK 1
6 0 ERROR 7 OutOfRange 4
6 0 ROWS 4
(2)
(3)
(4)
(9223372036854775807)
HISTORY 6
1 WRITE PUT 1 (1), PUT 2 (2), PUT 3 (3)
1 COMMIT
1 WRITE PUT 1 (2), PUT 2 (3), PUT 3 (4)
1 COMMIT
1 WRITE PUT 4 (9223372036854775807)
1 COMMIT
END
";

const SHIFT_CASES: &[Case] = &[
    (&[], Legal),
    (&[("2 0 OK 3", "2 0 ERROR 9 Duplicate 1 1")], Reply(1, 2)),
    (
        &[("PUT 2 (3), PUT 3 (4)", "PUT 2 (4), PUT 3 (3)")],
        Reply(1, 2),
    ),
    (
        &[("VALUES (9223372036854775807)", "VALUES (4)")],
        Reply(1, 3),
    ),
    (&[("4 0 OK 1", "4 0 ERROR 9 Duplicate 1 4")], Reply(1, 3)),
    (&[("OutOfRange 4", "OutOfRange 1")], Reply(1, 4)),
    (&[("7 OutOfRange 4", "9 Duplicate 1 1")], Reply(1, 4)),
    (&[("(2)\n(3)\n(4)", "(3)\n(2)\n(4)")], Reply(1, 5)),
];

/// What is refused outside a transaction, in one, and in one that only reads.
const REFUSALS: &str = "CREATE TABLE t (id INT);
1: COMMIT;
1: BEGIN;
1: BEGIN;
1: ROLLBACK;
1: BEGIN READ ONLY;
1: INSERT INTO t VALUES (1);
1: COMMIT;
==OUTPUT==
SESSION 1 7 0
0 0 ERROR 1 NoTransaction
0 0 OK
1 0 ERROR 2 AlreadyOpen
1 0 OK
2 0 OK
3 0 ERROR 3 ReadOnly
3 0 OK
HISTORY 4
1 BEGIN
1 ROLLBACK
1 PIN
1 UNPIN
END
";

const REFUSAL_CASES: &[Case] = &[
    (&[], Legal),
    // Refusals that don't apply, and such as do and aren't given.
    (&[("0 0 ERROR 1 NoTransaction", "0 0 OK")], Reply(1, 1)),
    (&[("1 NoTransaction", "13 Memory")], Reply(1, 1)),
    (&[("1 0 ERROR 2 AlreadyOpen", "1 0 OK")], Reply(1, 3)),
    (&[("2 AlreadyOpen", "4 LogFull")], Reply(1, 3)),
    (&[("2 AlreadyOpen", "13 Memory")], Legal),
    (&[("1 0 OK", "1 0 ERROR 13 Memory")], Reply(1, 4)),
    (&[("3 ReadOnly", "5 TooManyRows")], Reply(1, 6)),
    (&[("3 ReadOnly", "13 Memory")], Legal),
    (&[("3 0 ERROR 3 ReadOnly", "3 0 OK 1")], Reply(1, 6)),
    // Timestamps: that of the pin, and of the end.
    (&[("3 0 ERROR 3", "4 0 ERROR 3")], Reply(1, 6)),
    (&[("3 0 ERROR 3", "2 0 ERROR 3")], Reply(1, 6)),
    (&[("3 0 OK", "4 0 OK")], Reply(1, 7)),
    (&[("3 0 OK", "2 0 OK")], Reply(1, 7)),
    // Entries left out, doubled and exchanged.
    (
        &[("HISTORY 4", "HISTORY 3"), ("1 ROLLBACK\n", "")],
        Entry(2),
    ),
    (&[("1 ROLLBACK", "1 COMMIT")], Reply(1, 4)),
    (
        &[("HISTORY 4", "HISTORY 3"), ("1 UNPIN\n", "")],
        Reply(1, 7),
    ),
    (&[("1 UNPIN", "1 ROLLBACK")], Entry(4)),
    (&[("1 PIN", "1 BEGIN")], Entry(4)),
    (
        &[("HISTORY 4", "HISTORY 5"), ("1 PIN\n", "1 PIN\n1 PIN\n")],
        Entry(4),
    ),
    (
        &[
            ("HISTORY 4", "HISTORY 5"),
            ("1 PIN\n", "1 PIN\n1 WRITE PUT 1 (1)\n"),
        ],
        Entry(4),
    ),
    (
        &[
            ("HISTORY 4", "HISTORY 5"),
            ("1 UNPIN\n", "1 UNPIN\n17 PIN\n"),
        ],
        Entry(5),
    ),
    (
        &[
            ("HISTORY 4", "HISTORY 5"),
            ("1 UNPIN\n", "1 UNPIN\n2 BEGIN\n"),
        ],
        Reply(2, 1),
    ),
    (
        &[
            ("HISTORY 4", "HISTORY 5"),
            ("1 UNPIN\n", "1 UNPIN\n1 BEGIN\n"),
        ],
        Reply(1, 8),
    ),
];

/// A transaction that only reads, while another session deletes all rows.
const PINNED: &str = "CREATE TABLE t (id INT);
1: INSERT INTO t VALUES (1), (2);
2: BEGIN READ ONLY;
1: DELETE FROM t;
2: SELECT * FROM t;
2: COMMIT;
2: SELECT COUNT(*) FROM t;
==OUTPUT==
SESSION 1 2 0
0 0 OK 2
3 0 OK 2
SESSION 2 4 0
2 0 OK
3 0 ROWS 2
(1)
(2)
5 0 OK
6 0 ROWS 1
(0)
HISTORY 6
1 WRITE PUT 1 (1), PUT 2 (2)
1 COMMIT
2 PIN
1 WRITE DROP 1, DROP 2
1 COMMIT
2 UNPIN
END
";

const PINNED_CASES: &[Case] = &[
    (&[], Legal),
    // The newest rows, and a timestamp off the pin.
    (&[("3 0 ROWS 2\n(1)\n(2)", "3 0 ROWS 0")], Reply(2, 2)),
    (&[("3 0 ROWS 2\n(1)\n(2)", "5 0 ROWS 0")], Reply(2, 2)),
    (&[("3 0 ROWS 2", "5 0 ROWS 2")], Reply(2, 2)),
    (&[("3 0 ROWS 2", "2 0 ROWS 2")], Reply(2, 2)),
    (&[("3 0 ROWS 2\n(1)\n(2)", "3 0 ERROR 13 Memory")], Legal),
    (
        &[("3 0 ROWS 2\n(1)\n(2)", "5 0 ERROR 13 Memory")],
        Reply(2, 2),
    ),
    // The end of the pin, and what is read after it.
    (&[("5 0 OK", "3 0 OK")], Reply(2, 3)),
    (&[("5 0 OK", "5 0 ERROR 1 NoTransaction")], Reply(2, 3)),
    (&[("5 0 OK", "5 0 ERROR 13 Memory")], Reply(2, 3)),
    (&[("6 0 ROWS 1\n(0)", "6 0 ROWS 1\n(2)")], Reply(2, 4)),
    (&[("6 0 ROWS 1\n(0)", "3 0 ROWS 1\n(2)")], Reply(2, 4)),
    // Other statements, and entries that don't fit.
    (&[("2: BEGIN READ ONLY", "2: BEGIN")], Reply(2, 1)),
    (
        &[("2 PIN", "2 BEGIN"), ("2 UNPIN", "2 COMMIT")],
        Reply(2, 1),
    ),
    (&[("2: COMMIT", "2: ROLLBACK")], Legal),
    (&[("2 UNPIN", "2 COMMIT")], Entry(6)),
    (
        &[
            ("HISTORY 6", "HISTORY 7"),
            ("2 UNPIN", "2 WRITE PUT 3 (3)\n2 UNPIN"),
        ],
        Entry(6),
    ),
];

/// A row that is changed in a transaction, while another session changes and reads it.
const LOCKED: &str = "CREATE TABLE t (id INT, v INT);
1: INSERT INTO t VALUES (1, 10);
1: BEGIN;
1: UPDATE t SET v = 11;
2: UPDATE t SET v = 12;
2: SELECT v FROM t;
1: SELECT v FROM t;
1: ROLLBACK;
2: UPDATE t SET v = v + 2;
==OUTPUT==
SESSION 1 5 0
0 0 OK 1
2 0 OK
3 0 OK 1
4 0 ROWS 1
(11)
4 0 OK
SESSION 2 3 0
4 0 ERROR 6 Locked 1 1
4 0 ROWS 1
(10)
5 0 OK 1
HISTORY 7
1 WRITE PUT 1 (1, 10)
1 COMMIT
1 BEGIN
1 WRITE PUT 1 (1, 11)
1 ROLLBACK
2 WRITE PUT 1 (1, 12)
2 COMMIT
END
";

const LOCKED_CASES: &[Case] = &[
    (&[], Legal),
    // The row that is held and its holder.
    (&[("Locked 1 1", "Locked 1 2")], Reply(2, 1)),
    (&[("Locked 1 1", "Locked 2 1")], Reply(2, 1)),
    (&[("4 0 ERROR 6", "3 0 ERROR 6")], Reply(2, 1)),
    (&[("4 0 ERROR 6", "5 0 ERROR 6")], Reply(2, 1)),
    (&[("4 0 ERROR 6 Locked 1 1", "4 0 OK 1")], Reply(2, 1)),
    (&[("6 Locked 1 1", "3 ReadOnly")], Reply(2, 1)),
    (&[("6 Locked 1 1", "13 Memory")], Legal),
    // Each session sees its own open writes alone.
    (&[("(11)", "(10)")], Reply(1, 4)),
    (&[("(10)", "(11)")], Reply(2, 2)),
    (&[("4 0 ROWS 1\n(11)", "3 0 ROWS 1\n(11)")], Reply(1, 4)),
    (&[("4 0 ROWS 1\n(11)", "5 0 ROWS 1\n(11)")], Reply(1, 4)),
    // The end of the transaction left out, and another one.
    (
        &[("HISTORY 7", "HISTORY 6"), ("1 ROLLBACK\n", "")],
        Entry(5),
    ),
    (&[("1 ROLLBACK", "1 COMMIT")], Reply(1, 5)),
    (
        &[("1: ROLLBACK", "1: COMMIT"), ("1 ROLLBACK", "1 COMMIT")],
        Reply(2, 3),
    ),
    (
        &[
            ("1: ROLLBACK", "1: COMMIT"),
            ("1 ROLLBACK", "1 COMMIT"),
            ("PUT 1 (1, 12)", "PUT 1 (1, 13)"),
        ],
        Legal,
    ),
    (&[("4 0 OK", "4 0 ERROR 13 Memory")], Reply(1, 5)),
];

/// The input with the text put in place of the other, which is to stand in it once.
fn edited(alloc: Global, input: &str, edit: Edit) -> Result<String, Fail> {
    let Some((front, rest)) = input.split_once(edit.0) else {
        return Err(Fail::new(edit.0));
    };
    if rest.contains(edit.0) {
        return Err(Fail::new(edit.0));
    }
    Ok(format!(in alloc; "{front}{}{rest}", edit.1)?)
}

fn checked(alloc: Global, input: &str, edits: &[Edit]) -> Result<Checked, Fail> {
    let mut text = String::from_str(alloc, input)?;
    for edit in edits {
        text = edited(alloc, &text, *edit)?;
    }
    Ok(check_call(alloc, text.as_bytes())?)
}

#[test]
fn edited_outputs_are_judged(rt: HostRuntime) -> Result<(), Fail> {
    let alloc = rt.alloc();
    let inputs = [
        (ROWS, ROW_CASES),
        (SUMS, SUM_CASES),
        (HELD, HELD_CASES),
        (SHIFT, SHIFT_CASES),
        (REFUSALS, REFUSAL_CASES),
        (PINNED, PINNED_CASES),
        (LOCKED, LOCKED_CASES),
    ];
    for (input, cases) in inputs {
        for (edits, answer) in cases {
            assert_eq!(rt; checked(alloc, input, edits)?, *answer, "{:?}", edits);
        }
    }
    Ok(())
}
