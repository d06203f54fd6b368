//! Worked outcomes and their mutations.
use crate::slowly::judge;
use crate::{LegalAnswer, is_built, is_whole, legal};
use s2_model::{
    Cell, CellTable, Change, ChangeList, Condition, Entry, EntryList, Items, Line, LineList, Op,
    Options, Outcome, Pred, Refusal, Reply, RowList, Said, SaidList, Script, Select, SetExpr, Stmt,
    Transcript, TranscriptList, What,
};
use s2_value::{Col, ColList, ColType, Name, Row, Schema, Seq, Value, are_within_limits};
use sqlite_items::Boxed;
use std::alloc::Global;
use std::test::Fail;

#[derive(Clone, Copy, Debug)]
pub(crate) enum Asked {
    Insert(i64),
    AddOne,
    DeleteId(i64),
    All,
    Begin,
    ReadOnly,
    Commit,
    Rollback,
}

#[derive(Clone, Copy, Debug)]
enum Step {
    Put(&'static [(u64, i64)]),
    Drop(&'static [u64]),
    Begin,
    Commit,
    Rollback,
    Pin,
    Unpin,
}

#[derive(Clone, Copy, Debug)]
enum Told {
    Changed(u32),
    Done,
    Rows(&'static [i64]),
    Locked(u64, u8),
    LockedValue(u64, u8),
    Duplicate(u64),
    ReadOnly,
    NoTransaction,
    AlreadyOpen,
    Memory,
}

use Asked::{AddOne, All, DeleteId, Insert};
use LegalAnswer::{Legal, Reply as Wrong};
use Step::{Commit, Put};
use Told::{Changed, Done, Locked, Memory, Rows};

type Lines = &'static [(u8, Asked)];

type Entries = &'static [(u8, Step)];

type Replies = &'static [(u64, u64, Told)];

type Sessions = &'static [(u8, u64, Replies)];

fn column(alloc: Global, uniques: Seq<ColList>) -> Result<Schema, Fail> {
    let mut cols = Seq::new(alloc);
    cols.add(Col {
        name: Name::new(alloc, b"id")?,
        kind: ColType::Int,
    })?;
    let indexes = Seq::new(alloc);
    let sort = ColList::new(alloc);
    if !are_within_limits(cols.len(), uniques.as_slice(), indexes.as_slice(), &sort) {
        return Err(Fail::from("limits"));
    }
    Ok(Schema {
        table: Name::new(alloc, b"t")?,
        cols,
        uniques,
        indexes,
        sort,
    })
}

pub(crate) fn one_column(alloc: Global) -> Result<Schema, Fail> {
    column(alloc, Seq::new(alloc))
}

/// The column is a unique key.
pub(crate) fn one_key(alloc: Global) -> Result<Schema, Fail> {
    let mut key = ColList::new(alloc);
    if key.push(0).is_err() {
        return Err(Fail::from("memory"));
    }
    let mut uniques = Seq::new(alloc);
    uniques.add(key)?;
    column(alloc, uniques)
}

fn row_of(alloc: Global, id: i64) -> Result<Row, Fail> {
    let mut row = Seq::new(alloc);
    row.add(Value::Int(id))?;
    Ok(row)
}

fn insert(alloc: Global, id: i64) -> Result<Stmt, Fail> {
    let mut rows: RowList = Seq::new(alloc);
    rows.add(row_of(alloc, id)?)?;
    Ok(Stmt::Insert(rows))
}

fn add_one(alloc: Global) -> Result<Stmt, Fail> {
    let mut sets = Seq::new(alloc);
    sets.add((0, SetExpr::Plus(0, 1)))?;
    Ok(Stmt::Update(sets, Condition::new(alloc, Pred::All)?))
}

fn delete_id(alloc: Global, id: i64) -> Result<Stmt, Fail> {
    let pred = Pred::Cmp(0, Op::Eq, Value::Int(id));
    Ok(Stmt::Delete(Condition::new(alloc, pred)?))
}

fn select_all(alloc: Global) -> Result<Stmt, Fail> {
    let select = Select {
        items: Items::Star,
        pred: Condition::new(alloc, Pred::All)?,
        order: Seq::new(alloc),
        limit: None,
    };
    Ok(Stmt::Select(Boxed::new(alloc, select)?))
}

pub(crate) fn stmt_of(alloc: Global, asked: Asked) -> Result<Stmt, Fail> {
    match asked {
        Insert(id) => insert(alloc, id),
        AddOne => add_one(alloc),
        DeleteId(id) => delete_id(alloc, id),
        All => select_all(alloc),
        Asked::Begin => Ok(Stmt::Begin),
        Asked::ReadOnly => Ok(Stmt::BeginReadOnly),
        Asked::Commit => Ok(Stmt::Commit),
        Asked::Rollback => Ok(Stmt::Rollback),
    }
}

fn script_of(alloc: Global, schema: Schema, lines: Lines) -> Result<Script, Fail> {
    let mut list: LineList = Seq::new(alloc);
    for (session, asked) in lines {
        list.add(Line {
            session: *session,
            stmt: stmt_of(alloc, *asked)?,
        })?;
    }
    Ok(Script {
        options: Options::new(),
        schema,
        lines: list,
    })
}

pub(crate) fn puts_of(alloc: Global, puts: &[(u64, i64)]) -> Result<ChangeList, Fail> {
    let mut changes = Seq::new(alloc);
    for (number, id) in puts {
        changes.add(Change::Put(*number, row_of(alloc, *id)?))?;
    }
    Ok(changes)
}

fn drops_of(alloc: Global, numbers: &[u64]) -> Result<ChangeList, Fail> {
    let mut changes = Seq::new(alloc);
    for number in numbers {
        changes.add(Change::Drop(*number))?;
    }
    Ok(changes)
}

fn what_of(alloc: Global, step: Step) -> Result<What, Fail> {
    match step {
        Put(puts) => Ok(What::Write(puts_of(alloc, puts)?)),
        Step::Drop(numbers) => Ok(What::Write(drops_of(alloc, numbers)?)),
        Step::Begin => Ok(What::Begin),
        Commit => Ok(What::Commit),
        Step::Rollback => Ok(What::Rollback),
        Step::Pin => Ok(What::Pin),
        Step::Unpin => Ok(What::Unpin),
    }
}

fn history_of(alloc: Global, entries: Entries) -> Result<EntryList, Fail> {
    let mut history = Seq::new(alloc);
    for (actor, step) in entries {
        history.add(Entry {
            actor: *actor,
            what: what_of(alloc, *step)?,
        })?;
    }
    Ok(history)
}

fn rows_of(alloc: Global, ids: &[i64]) -> Result<CellTable, Fail> {
    let mut rows = Seq::new(alloc);
    for id in ids {
        let mut cells = Seq::new(alloc);
        cells.add(Cell::Int(i128::from(*id)))?;
        rows.add(cells)?;
    }
    Ok(rows)
}

fn refused(refusal: Refusal) -> Result<Reply, Fail> {
    Ok(Reply::Refused(refusal))
}

fn reply_of(alloc: Global, told: Told) -> Result<Reply, Fail> {
    match told {
        Changed(count) => Ok(Reply::Changed(count)),
        Done => Ok(Reply::Done),
        Rows(ids) => Ok(Reply::Rows(rows_of(alloc, ids)?)),
        Locked(row, holder) => refused(Refusal::Locked { row, holder }),
        Told::LockedValue(row, holder) => refused(Refusal::LockedValue {
            key: 1,
            row,
            holder,
        }),
        Told::Duplicate(row) => refused(Refusal::Duplicate { key: 1, row }),
        Told::ReadOnly => refused(Refusal::ReadOnly),
        Told::NoTransaction => refused(Refusal::NoTransaction),
        Told::AlreadyOpen => refused(Refusal::AlreadyOpen),
        Memory => refused(Refusal::Memory),
    }
}

fn said_of(alloc: Global, replies: Replies) -> Result<SaidList, Fail> {
    let mut said = Seq::new(alloc);
    for (r, faults, told) in replies {
        said.add(Said {
            r: *r,
            faults: *faults,
            reply: reply_of(alloc, *told)?,
        })?;
    }
    Ok(said)
}

fn transcripts_of(alloc: Global, sessions: Sessions) -> Result<TranscriptList, Fail> {
    let mut transcripts = Seq::new(alloc);
    for (session, faults, replies) in sessions {
        transcripts.add(Transcript {
            session: *session,
            faults: *faults,
            said: said_of(alloc, *replies)?,
        })?;
    }
    Ok(transcripts)
}

/// What both judges answer.
fn answer(alloc: Global, script: &Script, run: &Outcome) -> Result<LegalAnswer, Fail> {
    if !is_whole(script, run) || !is_built(script, run) {
        return Err(Fail::from("shape"));
    }
    let answer = legal(alloc, script, run)?;
    if judge(alloc, script, run)? != answer {
        return Err(Fail::from("the judges differ"));
    }
    Ok(answer)
}

fn judged_by(
    alloc: Global,
    schema: Schema,
    lines: Lines,
    entries: Entries,
    sessions: Sessions,
) -> Result<LegalAnswer, Fail> {
    let script = script_of(alloc, schema, lines)?;
    let run = Outcome {
        history: history_of(alloc, entries)?,
        transcripts: transcripts_of(alloc, sessions)?,
    };
    answer(alloc, &script, &run)
}

fn judged(
    alloc: Global,
    lines: Lines,
    entries: Entries,
    sessions: Sessions,
) -> Result<LegalAnswer, Fail> {
    judged_by(alloc, one_column(alloc)?, lines, entries, sessions)
}

const LINES: Lines = &[
    (1, Insert(7)),
    (1, All),
    (1, AddOne),
    (1, All),
    (1, DeleteId(8)),
    (1, All),
];

const ENTRIES: Entries = &[
    (1, Put(&[(1, 7)])),
    (1, Commit),
    (1, Put(&[(1, 8)])),
    (1, Commit),
    (1, Step::Drop(&[1])),
    (1, Commit),
];

const REPLIES: Replies = &[
    (0, 0, Changed(1)),
    (2, 0, Rows(&[7])),
    (2, 0, Changed(1)),
    (4, 0, Rows(&[8])),
    (4, 0, Changed(1)),
    (6, 0, Rows(&[])),
];

const OTHER: Replies = &[
    (0, 0, Changed(1)),
    (2, 0, Rows(&[7])),
    (2, 0, Changed(1)),
    (4, 0, Rows(&[7])),
    (4, 0, Changed(1)),
    (6, 0, Rows(&[])),
];

const FALLS: Replies = &[
    (0, 0, Changed(1)),
    (0, 0, Rows(&[])),
    (2, 0, Changed(1)),
    (4, 0, Rows(&[8])),
    (4, 0, Changed(1)),
    (6, 0, Rows(&[])),
];

const PAST: Replies = &[
    (0, 0, Changed(1)),
    (4, 0, Rows(&[8])),
    (4, 0, Changed(1)),
    (4, 0, Rows(&[8])),
    (4, 0, Changed(1)),
    (6, 0, Rows(&[])),
];

const COUNTS: Replies = &[
    (0, 0, Changed(1)),
    (2, 0, Rows(&[7])),
    (2, 0, Changed(1)),
    (4, 0, Rows(&[8])),
    (4, 0, Changed(1)),
    (6, 3, Rows(&[])),
];

const INSERT: Lines = &[(1, Insert(7)), (1, All)];

const SAID: Sessions = &[(1, 0, &[(0, 0, Changed(1)), (2, 0, Rows(&[7]))])];

const NONE: Entries = &[];

const ONCE: Entries = &[(1, Put(&[(1, 7)])), (1, Commit)];

const TWO: Sessions = &[(1, 0, &[(0, 0, Changed(2)), (2, 0, Rows(&[7]))])];

const DOUBLED: Entries = &[(1, Put(&[(1, 7)])), (1, Commit), (1, Commit)];

const SKIPPED: Entries = &[(1, Put(&[(2, 7)])), (1, Commit)];

const MORE: Entries = &[
    (1, Put(&[(1, 7)])),
    (1, Commit),
    (1, Put(&[(2, 9)])),
    (1, Commit),
];

const OTHERS: Entries = &[
    (1, Put(&[(1, 7)])),
    (1, Commit),
    (3, Put(&[(2, 9)])),
    (3, Commit),
];

const REFUSED: Sessions = &[(1, 0, &[(0, 0, Memory), (0, 0, Rows(&[]))])];

const BOTH: Lines = &[(1, Insert(7)), (2, All)];

const EARLY: Sessions = &[(1, 0, &[(0, 0, Changed(1))]), (2, 0, &[(1, 0, Rows(&[]))])];

const LATE: Sessions = &[(1, 0, &[(0, 0, Changed(1))]), (2, 0, &[(2, 0, Rows(&[]))])];

const UPDATES: Lines = &[(1, Insert(7)), (1, AddOne)];

const HELD: Entries = &[(1, Put(&[(1, 7)])), (1, Commit), (2, Put(&[(1, 9)]))];

const LOCKED: Sessions = &[(1, 0, &[(0, 0, Changed(1)), (3, 0, Locked(1, 2))])];

const UNLOCKED: Sessions = &[(1, 0, &[(0, 0, Changed(1)), (2, 0, Locked(1, 2))])];

const NO_ONE: Lines = &[(1, Asked::Commit)];

const NO_TRANSACTION: Sessions = &[(1, 0, &[(0, 0, Told::NoTransaction)])];

const DONE: Sessions = &[(1, 0, &[(0, 0, Done)])];

const NO_MEMORY: Sessions = &[(1, 0, &[(0, 0, Memory)])];

const BEGINS: Lines = &[(1, Asked::Begin)];

const OPENS: Entries = &[(1, Step::Begin)];

const READER: Lines = &[
    (1, Asked::ReadOnly),
    (2, Insert(7)),
    (1, All),
    (1, Asked::Commit),
    (1, All),
];

const PINNED: Entries = &[
    (1, Step::Pin),
    (2, Put(&[(1, 7)])),
    (2, Commit),
    (1, Step::Unpin),
];

const WRITER: Replies = &[(1, 0, Changed(1))];

const AT_THE_PIN: Sessions = &[
    (
        1,
        0,
        &[
            (0, 0, Done),
            (1, 0, Rows(&[])),
            (3, 0, Done),
            (4, 0, Rows(&[7])),
        ],
    ),
    (2, 0, WRITER),
];

const NEW_ROWS: Sessions = &[
    (
        1,
        0,
        &[
            (0, 0, Done),
            (3, 0, Rows(&[7])),
            (3, 0, Done),
            (4, 0, Rows(&[7])),
        ],
    ),
    (2, 0, WRITER),
];

const NEW_ROWS_EARLY: Sessions = &[
    (
        1,
        0,
        &[
            (0, 0, Done),
            (1, 0, Rows(&[7])),
            (3, 0, Done),
            (4, 0, Rows(&[7])),
        ],
    ),
    (2, 0, WRITER),
];

const OLD_ROWS_LATE: Sessions = &[
    (
        1,
        0,
        &[
            (0, 0, Done),
            (3, 0, Rows(&[])),
            (3, 0, Done),
            (4, 0, Rows(&[7])),
        ],
    ),
    (2, 0, WRITER),
];

const STILL_OLD: Sessions = &[
    (
        1,
        0,
        &[
            (0, 0, Done),
            (1, 0, Rows(&[])),
            (3, 0, Done),
            (4, 0, Rows(&[])),
        ],
    ),
    (2, 0, WRITER),
];

const AT_PIN: Lines = &[
    (1, Asked::ReadOnly),
    (1, Insert(7)),
    (1, Asked::Begin),
    (1, Asked::Rollback),
    (1, Asked::Rollback),
];

const READS: Entries = &[(1, Step::Pin), (1, Step::Unpin)];

const REFUSED_AT_PIN: Sessions = &[(
    1,
    0,
    &[
        (0, 0, Done),
        (1, 0, Told::ReadOnly),
        (1, 0, Told::AlreadyOpen),
        (1, 0, Done),
        (2, 0, Told::NoTransaction),
    ],
)];

const NO_MEMORY_AT_END: Sessions = &[(
    1,
    0,
    &[
        (0, 0, Done),
        (1, 0, Told::ReadOnly),
        (1, 0, Told::AlreadyOpen),
        (1, 0, Memory),
        (2, 0, Told::NoTransaction),
    ],
)];

const COMMITS: Lines = &[
    (1, Asked::Begin),
    (1, Insert(7)),
    (1, All),
    (2, All),
    (1, Asked::Commit),
    (1, All),
];

const COMMITTED: Entries = &[(1, Step::Begin), (1, Put(&[(1, 7)])), (1, Commit)];

const SEEN: Sessions = &[
    (
        1,
        0,
        &[
            (0, 0, Done),
            (1, 0, Changed(1)),
            (2, 0, Rows(&[7])),
            (2, 0, Done),
            (3, 0, Rows(&[7])),
        ],
    ),
    (2, 0, &[(2, 0, Rows(&[]))]),
];

const SEEN_EARLY: Sessions = &[
    (
        1,
        0,
        &[
            (0, 0, Done),
            (1, 0, Changed(1)),
            (2, 0, Rows(&[7])),
            (2, 0, Done),
            (3, 0, Rows(&[7])),
        ],
    ),
    (2, 0, &[(2, 0, Rows(&[7]))]),
];

const ROLLS_BACK: Lines = &[
    (1, Asked::Begin),
    (1, Insert(7)),
    (1, Asked::Rollback),
    (1, All),
    (1, Insert(8)),
];

const ROLLED_BACK: Entries = &[
    (1, Step::Begin),
    (1, Put(&[(1, 7)])),
    (1, Step::Rollback),
    (1, Put(&[(2, 8)])),
    (1, Commit),
];

const GONE: Sessions = &[(
    1,
    0,
    &[
        (0, 0, Done),
        (1, 0, Changed(1)),
        (2, 0, Done),
        (3, 0, Rows(&[])),
        (3, 0, Changed(1)),
    ],
)];

const KEPT: Sessions = &[(
    1,
    0,
    &[
        (0, 0, Done),
        (1, 0, Changed(1)),
        (2, 0, Done),
        (3, 0, Rows(&[7])),
        (3, 0, Changed(1)),
    ],
)];

const SAME_VALUE: Lines = &[
    (1, Asked::Begin),
    (1, Insert(7)),
    (2, Insert(7)),
    (1, Asked::Commit),
    (2, Insert(7)),
];

const FIRST: Replies = &[(0, 0, Done), (1, 0, Changed(1)), (2, 0, Done)];

const HELD_THEN_THERE: Sessions = &[
    (1, 0, FIRST),
    (
        2,
        0,
        &[(2, 0, Told::LockedValue(2, 1)), (3, 0, Told::Duplicate(2))],
    ),
];

const THERE_EARLY: Sessions = &[
    (1, 0, FIRST),
    (
        2,
        0,
        &[(2, 0, Told::Duplicate(2)), (3, 0, Told::Duplicate(2))],
    ),
];

const HELD_LATE: Sessions = &[
    (1, 0, FIRST),
    (
        2,
        0,
        &[
            (2, 0, Told::LockedValue(2, 1)),
            (3, 0, Told::LockedValue(2, 1)),
        ],
    ),
];

const SAME_TWICE: Lines = &[(1, Insert(7)), (1, Insert(7))];

const TWICE: Entries = &[
    (1, Put(&[(1, 7)])),
    (1, Commit),
    (1, Put(&[(2, 7)])),
    (1, Commit),
];

const TAKEN: Sessions = &[(1, 0, &[(0, 0, Changed(1)), (2, 0, Changed(1))])];

fn with_reply(alloc: Global, replies: Replies) -> Result<LegalAnswer, Fail> {
    let script = script_of(alloc, one_column(alloc)?, LINES)?;
    let mut transcripts = Seq::new(alloc);
    transcripts.add(Transcript {
        session: 1,
        faults: 2,
        said: said_of(alloc, replies)?,
    })?;
    let run = Outcome {
        history: history_of(alloc, ENTRIES)?,
        transcripts,
    };
    answer(alloc, &script, &run)
}

#[test]
fn one_session(rt: HostRuntime) -> Result<(), Fail> {
    assert_eq!(rt; with_reply(rt.alloc(), REPLIES)?, Legal);
    // The second SELECT shows another value.
    assert_eq!(rt; with_reply(rt.alloc(), OTHER)?, Wrong(1, 4));
    // The timestamp falls.
    assert_eq!(rt; with_reply(rt.alloc(), FALLS)?, Wrong(1, 2));
    // The timestamp lies behind an entry of the session that no reply made.
    assert_eq!(rt; with_reply(rt.alloc(), PAST)?, Wrong(1, 2));
    // The last fault count is above the final one.
    assert_eq!(rt; with_reply(rt.alloc(), COUNTS)?, Wrong(1, 7));
    Ok(())
}

#[test]
fn entries(rt: HostRuntime) -> Result<(), Fail> {
    assert_eq!(rt; judged(rt.alloc(), INSERT, ONCE, SAID)?, Legal);
    // Two rows told, one inserted.
    assert_eq!(rt; judged(rt.alloc(), INSERT, ONCE, TWO)?, Wrong(1, 1));
    // A commit that follows no write.
    assert_eq!(rt;
        judged(rt.alloc(), INSERT, DOUBLED, SAID)?,
        LegalAnswer::Entry(3)
    );
    // A row number is skipped.
    assert_eq!(rt;
        judged(rt.alloc(), INSERT, SKIPPED, SAID)?,
        LegalAnswer::Entry(1)
    );
    // A further write that no reply made.
    assert_eq!(rt; judged(rt.alloc(), INSERT, MORE, SAID)?, Wrong(1, 3));
    // The same of a session without a line.
    assert_eq!(rt; judged(rt.alloc(), INSERT, OTHERS, SAID)?, Wrong(3, 1));
    // No memory, and nothing done.
    assert_eq!(rt; judged(rt.alloc(), INSERT, NONE, REFUSED)?, Legal);
    Ok(())
}

#[test]
fn two_sessions(rt: HostRuntime) -> Result<(), Fail> {
    // The other session reads between the write and its commit.
    assert_eq!(rt; judged(rt.alloc(), BOTH, ONCE, EARLY)?, Legal);
    assert_eq!(rt; judged(rt.alloc(), BOTH, ONCE, LATE)?, Wrong(2, 1));
    // A write that isn't committed holds its row.
    assert_eq!(rt; judged(rt.alloc(), UPDATES, HELD, LOCKED)?, Wrong(2, 1));
    assert_eq!(rt; judged(rt.alloc(), UPDATES, HELD, UNLOCKED)?, Wrong(1, 2));
    Ok(())
}

#[test]
fn no_transaction(rt: HostRuntime) -> Result<(), Fail> {
    assert_eq!(rt; judged(rt.alloc(), NO_ONE, NONE, NO_TRANSACTION)?, Legal);
    assert_eq!(rt; judged(rt.alloc(), NO_ONE, NONE, DONE)?, Wrong(1, 1));
    // A COMMIT never wants memory, and a BEGIN may.
    assert_eq!(rt; judged(rt.alloc(), NO_ONE, NONE, NO_MEMORY)?, Wrong(1, 1));
    assert_eq!(rt; judged(rt.alloc(), BEGINS, NONE, NO_MEMORY)?, Legal);
    assert_eq!(rt; judged(rt.alloc(), BEGINS, OPENS, DONE)?, Legal);
    // The BEGIN has no entry.
    assert_eq!(rt; judged(rt.alloc(), BEGINS, NONE, DONE)?, Wrong(1, 1));
    Ok(())
}

#[test]
fn at_a_pin(rt: HostRuntime) -> Result<(), Fail> {
    assert_eq!(rt; judged(rt.alloc(), READER, PINNED, AT_THE_PIN)?, Legal);
    // What another committed after the pin.
    assert_eq!(rt; judged(rt.alloc(), READER, PINNED, NEW_ROWS)?, Wrong(1, 2));
    assert_eq!(rt;
        judged(rt.alloc(), READER, PINNED, NEW_ROWS_EARLY)?,
        Wrong(1, 2)
    );
    // The old rows, but not at the pin.
    assert_eq!(rt;
        judged(rt.alloc(), READER, PINNED, OLD_ROWS_LATE)?,
        Wrong(1, 2)
    );
    // The old rows after the end of the transaction.
    assert_eq!(rt; judged(rt.alloc(), READER, PINNED, STILL_OLD)?, Wrong(1, 4));
    assert_eq!(rt; judged(rt.alloc(), AT_PIN, READS, REFUSED_AT_PIN)?, Legal);
    // A ROLLBACK never wants memory.
    assert_eq!(rt;
        judged(rt.alloc(), AT_PIN, READS, NO_MEMORY_AT_END)?,
        Wrong(1, 4)
    );
    Ok(())
}

#[test]
fn transactions(rt: HostRuntime) -> Result<(), Fail> {
    assert_eq!(rt; judged(rt.alloc(), COMMITS, COMMITTED, SEEN)?, Legal);
    // Another sees a row before its COMMIT.
    assert_eq!(rt;
        judged(rt.alloc(), COMMITS, COMMITTED, SEEN_EARLY)?,
        Wrong(2, 1)
    );
    assert_eq!(rt; judged(rt.alloc(), ROLLS_BACK, ROLLED_BACK, GONE)?, Legal);
    // A row that was rolled back is there.
    assert_eq!(rt;
        judged(rt.alloc(), ROLLS_BACK, ROLLED_BACK, KEPT)?,
        Wrong(1, 4)
    );
    Ok(())
}

fn keyed(alloc: Global, entries: Entries, sessions: Sessions) -> Result<LegalAnswer, Fail> {
    judged_by(alloc, one_key(alloc)?, SAME_VALUE, entries, sessions)
}

#[test]
fn unique_keys(rt: HostRuntime) -> Result<(), Fail> {
    // Before the COMMIT another holds the value, and after it the row is there.
    assert_eq!(rt; keyed(rt.alloc(), COMMITTED, HELD_THEN_THERE)?, Legal);
    assert_eq!(rt; keyed(rt.alloc(), COMMITTED, THERE_EARLY)?, Wrong(2, 1));
    assert_eq!(rt; keyed(rt.alloc(), COMMITTED, HELD_LATE)?, Wrong(2, 2));
    // Without a key both rows are taken, and with one the second isn't.
    assert_eq!(rt; judged(rt.alloc(), SAME_TWICE, TWICE, TAKEN)?, Legal);
    assert_eq!(rt;
        judged_by(rt.alloc(), one_key(rt.alloc())?, SAME_TWICE, TWICE, TAKEN)?,
        Wrong(1, 2)
    );
    Ok(())
}
