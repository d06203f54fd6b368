//! Whole runs over memory: worked scripts, and streams that fail at chosen calls.
ghost use Rattle.std.specs.Prelude.{◌≤◌, ◌<◌, ◌≡◌, Some, length};

use crate::s2table;
use s2_outside::{Failed, MemSink, MemSource, Sink};
use std::alloc::{AllocError, Global};
use std::test::Fail;

const SCRIPT: &[u8] =
    b"CREATE TABLE t (id INT, name TEXT);\n1: INSERT INTO t VALUES (7, 'ab');\n1: SELECT * FROM t;\n";

const OUTPUT: &[u8] =
    b"SESSION 1 2 0\n0 0 OK 1\n2 0 ROWS 1\n(7, 'ab')\nHISTORY 2\n1 WRITE PUT 1 (7, 'ab')\n1 COMMIT\nEND\n";

const EXTREMES: &[u8] =
    b"CREATE TABLE t (a INT, b TEXT)\n1: INSERT INTO t VALUES (-9223372036854775808, '');\n1: INSERT INTO t VALUES (9223372036854775807, 'it''s')\n1: SELECT * FROM t\n";

const EXTREMES_OUTPUT: &[u8] =
    b"SESSION 1 3 0\n0 0 OK 1\n2 0 OK 1\n4 0 ROWS 2\n(-9223372036854775808, '')\n(9223372036854775807, 'it''s')\nHISTORY 4\n1 WRITE PUT 1 (-9223372036854775808, '')\n1 COMMIT\n1 WRITE PUT 2 (9223372036854775807, 'it''s')\n1 COMMIT\nEND\n";

const TABLE: &[u8] = b"CREATE TABLE t (id INT);\n";

// Session 2 wants the value that session 1's open DELETE holds, and again after the COMMIT.
const HELD: &[u8] =
    b"CREATE TABLE t (id INT, UNIQUE KEY (id));\n1: INSERT INTO t VALUES (1);\n1: BEGIN;\n1: DELETE FROM t WHERE id = 1;\n2: INSERT INTO t VALUES (1);\n1: COMMIT;\n2: INSERT INTO t VALUES (1);\n";

const HELD_OUTPUT: &[u8] =
    b"SESSION 1 4 0\n0 0 OK 1\n2 0 OK\n3 0 OK 1\n4 0 OK\nSESSION 2 2 0\n4 0 ERROR 8 LockedValue 1 2 1\n5 0 OK 1\nHISTORY 7\n1 WRITE PUT 1 (1)\n1 COMMIT\n1 BEGIN\n1 WRITE DROP 1\n1 COMMIT\n2 WRITE PUT 2 (1)\n2 COMMIT\nEND\n";

const HISTORY: &[u8] = b"HISTORY 2\n1 WRITE PUT 1 (7, 'ab')\n1 COMMIT\nEND\n";

/// Takes one byte a call.
#[derive(Drop)]
struct Trickle {
    sink: MemSink,
}

impl Sink for Trickle {
    ghost taken = { λ s. Some s.sink.taken };

    ghost faults = { λ s. s.sink.calls.faults };

    fn write(&mut self, piece: &[u8]) -> Result<usize, Failed> {
        let (first, _) = piece.split_at(piece.len().min(1));
        self.sink.write(first)
    }
}

fn words_of(alloc: Global, words: &[&str]) -> Result<Vec<String>, AllocError> {
    let mut owned = Vec::new(alloc);
    for word in words {
        owned.push(String::from_str(alloc, word)?)?;
    }
    Ok(owned)
}

fn run(
    alloc: Global,
    words: &[&str],
    input: &[u8],
    reads: &[u64],
    writes: &[u64],
    sink: &mut MemSink,
) -> Result<u8, AllocError> {
    let words = words_of(alloc, words)?;
    let mut src = MemSource::new(
        Vec::from_slice(alloc, input)?,
        Vec::from_slice(alloc, reads)?,
    );
    *sink = MemSink::new(alloc, Vec::from_slice(alloc, writes)?);
    Ok(s2table(alloc, words.as_slice(), &mut src, sink))
}

const LITERAL_LONG: &[u8] =
    b"CREATE TABLE t (a TEXT);\n1: INSERT INTO t VALUES ('xxxxxxxxxxxxxxxxxxxxxxxxxxxxxxxxxxxxxxxxxxxxxxxxxxxxxxxxxxxxxxxxxxxxxxxxxxxxxxxxxxxxxxxxxxxxxxxxxxxxxxxxxxxxxxxxxxxxxxxxxxxxxxxxxxxxxxxxxxxxxxxxxxxxxxxxxxxxxxxxxxxxxxxxxxxxxxxxxxxxxxxxxxxxxxxxxxxxxxxxxxxxxxxxxxxxxxxxxxxxxxxxxxxxxxxxxxxxxxxxxxxxxxxxxxxxxxxx');\n";

const DRIVE: &[&str] = &["--mode", "drive"];

#[test]
fn runs_end_so(rt: HostRuntime) -> Result<(), Fail> {
    let alloc = rt.alloc();
    let cases: [(&[&str], &[u8], &[u64], &[u64], u8, &[u8]); 15] = [
        (&[], SCRIPT, &[], &[], 0, OUTPUT),
        (DRIVE, SCRIPT, &[], &[], 0, OUTPUT),
        (DRIVE, EXTREMES, &[], &[], 0, EXTREMES_OUTPUT),
        (DRIVE, TABLE, &[], &[], 0, b"HISTORY 0\nEND\n"),
        (DRIVE, HELD, &[], &[], 0, HELD_OUTPUT),
        (&["--mode", "fly"], SCRIPT, &[], &[], 2, b"usage error\n"),
        (&["--mode"], SCRIPT, &[], &[], 2, b"usage error\n"),
        (
            DRIVE,
            b"",
            &[],
            &[],
            3,
            b"script error: line 1: Misplaced\n",
        ),
        (
            DRIVE,
            LITERAL_LONG,
            &[],
            &[],
            3,
            b"script error: line 2: LiteralLong\n",
        ),
        (DRIVE, SCRIPT, &[1], &[], 4, b"source fault\n"),
        (DRIVE, SCRIPT, &[2], &[], 4, b"source fault\n"),
        (DRIVE, SCRIPT, &[], &[1], 5, b""),
        (
            DRIVE,
            SCRIPT,
            &[],
            &[2],
            5,
            b"SESSION 1 2 0\n0 0 OK 1\n2 0 ROWS 1\n(7, 'ab')\n",
        ),
        (&["--mode", "fly"], SCRIPT, &[], &[1], 5, b""),
        (
            DRIVE,
            b"CREATE TABLE t (id INT)\n1: FLUSH",
            &[],
            &[],
            3,
            b"script error: line 2: NotBuilt\n",
        ),
    ];
    for (words, input, reads, writes, status, text) in cases {
        let mut sink = MemSink::new(alloc, Vec::new(alloc));
        assert_eq!(rt; run(alloc, words, input, reads, writes, &mut sink)?, status);
        assert_eq!(rt; sink.bytes(), text);
    }
    Ok(())
}

const CHECK: &[&str] = &["--mode", "check"];

/// The script, the mark, and these lines.
fn with_output(alloc: Global, lines: &[&[u8]]) -> Result<Vec<u8>, AllocError> {
    let mut input = Vec::from_slice(alloc, SCRIPT)?;
    input.extend_from_slice(b"==OUTPUT==\n")?;
    for line in lines {
        input.extend_from_slice(line)?;
    }
    Ok(input)
}

#[test]
fn outputs_are_judged(rt: HostRuntime) -> Result<(), Fail> {
    let alloc = rt.alloc();
    let cases: [(&[&[u8]], u8, &[u8]); 4] = [
        (&[OUTPUT], 0, b"legal\n"),
        (
            &[b"SESSION 1 2 0\n0 0 OK 2\n2 0 ROWS 1\n(7, 'ab')\n", HISTORY],
            7,
            b"not legal: session 1 reply 1\n",
        ),
        (
            &[
                b"SESSION 1 2 0\n0 0 OK 1\n2 0 ROWS 1\n(7, 'ab')\n",
                b"HISTORY 3\n1 WRITE PUT 1 (7, 'ab')\n1 COMMIT\n1 COMMIT\nEND\n",
            ],
            7,
            b"not legal: entry 3\n",
        ),
        (
            &[
                b"SESSION 1 2 0\n0 0 OK 1\n2 0 ROWS 1\n(7, 'ab')\n",
                b"HISTORY 2\n1 WRITE PUT 1 (7, 'ab')\n1 COMMIT\n",
            ],
            7,
            b"not an output: line 8\n",
        ),
    ];
    for (lines, status, text) in cases {
        let input = with_output(alloc, lines)?;
        let mut sink = MemSink::new(alloc, Vec::new(alloc));
        let found = run(alloc, CHECK, input.as_slice(), &[], &[], &mut sink)?;
        assert_eq!(rt; found, status);
        assert_eq!(rt; sink.bytes(), text);
    }
    Ok(())
}

#[test]
fn a_front_is_written_before_a_fault(rt: HostRuntime) -> Result<(), Fail> {
    let alloc = rt.alloc();
    let mut src = MemSource::new(Vec::from_slice(alloc, SCRIPT)?, Vec::new(alloc));
    let mut out = Trickle {
        sink: MemSink::new(alloc, Vec::from_slice(alloc, &[2])?),
    };
    let words = Vec::new(alloc);
    assert_eq!(rt; s2table(alloc, words.as_slice(), &mut src, &mut out), 5);
    assert_eq!(rt; out.sink.bytes(), b"S".as_slice());
    Ok(())
}

const LONG_LINE: &[u8] =
    b"1: INSERT INTO t VALUES ('xxxxxxxxxxxxxxxxxxxxxxxxxxxxxxxxxxxxxxxxxxxxxxxxxxxxxxxxxxxxxxxxxxxxxxxxxxxxxxxxxxxxxxxxxxxxxxxxxxxxxxxxxxxxxxxxxxxxxxxxxxxxxxxxxxxxxxxxxxxxxxxxxxxxxxxxxxxxxxxxxxxxxxxxxxxxxxxxxxxxxxxxxxxxxxxxxxxxxxxx');\n";

/// A script whose history is longer than two pieces.
fn long_script(alloc: Global) -> Result<Vec<u8>, AllocError> {
    let mut script = Vec::from_slice(alloc, b"CREATE TABLE t (name TEXT);\n".as_slice())?;
    for _ in 0..700usize {
        script.extend_from_slice(LONG_LINE)?;
    }
    Ok(script)
}

#[test]
fn a_text_of_many_pieces_is_legal(rt: HostRuntime) -> Result<(), Fail> {
    let alloc = rt.alloc();
    let script = long_script(alloc)?;
    let mut sink = MemSink::new(alloc, Vec::new(alloc));
    let status = run(alloc, DRIVE, script.as_slice(), &[], &[], &mut sink)?;
    assert_eq!(rt; status, 0);
    let mut input = script;
    input.extend_from_slice(b"==OUTPUT==\n")?;
    input.extend_from_slice(sink.bytes())?;
    let mut verdict = MemSink::new(alloc, Vec::new(alloc));
    let status = run(alloc, CHECK, input.as_slice(), &[], &[], &mut verdict)?;
    assert_eq!(rt; status, 0);
    assert_eq!(rt; verdict.bytes(), b"legal\n".as_slice());
    Ok(())
}
