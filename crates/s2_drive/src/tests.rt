//! Sessions in turn: the worked rows on transactions and unique keys.
use crate::{are_taken, drive_call};
use s2_histproof::print_output;
use s2_model::{
    Agg, Condition, Items, Line, Op, Options, Outcome, Pred, Refusal, Reply, Script, Select,
    SetExpr, Stmt,
};
use s2_value::{Col, ColList, ColType, Name, Schema, Seq, Value, are_within_limits};
use sqlite_items::Boxed;
use std::alloc::Global;
use std::test::Fail;

// The table (id INT), with a unique key on id or without.
fn schema(alloc: Global, is_keyed: bool) -> Result<Schema, Fail> {
    let mut cols = Seq::new(alloc);
    cols.add(Col {
        name: Name::new(alloc, b"id")?,
        kind: ColType::Int,
    })?;
    let (mut uniques, indexes, sort) = (Seq::new(alloc), Seq::new(alloc), ColList::new(alloc));
    if is_keyed {
        let mut key = ColList::new(alloc);
        if key.push(0).is_err() {
            return Err(Fail::from("memory"));
        }
        uniques.add(key)?;
    }
    if !are_within_limits(cols.len(), uniques.as_slice(), indexes.as_slice(), &sort) {
        return Err(Fail::from("limits"));
    }
    Ok(Schema {
        table: Name::new(alloc, b"t")?,
        cols,
        uniques,
        indexes,
        sort,
    })
}

// INSERT INTO t VALUES (id), ..
fn insert(alloc: Global, ids: &[i64]) -> Result<Stmt, Fail> {
    let mut rows = Seq::new(alloc);
    for id in ids {
        let mut row = Seq::new(alloc);
        row.add(Value::Int(*id))?;
        rows.add(row)?;
    }
    Ok(Stmt::Insert(rows))
}

// DELETE FROM t WHERE id = ..
fn delete(alloc: Global, id: i64) -> Result<Stmt, Fail> {
    let pred = Pred::Cmp(0, Op::Eq, Value::Int(id));
    Ok(Stmt::Delete(Condition::new(alloc, pred)?))
}

// UPDATE t SET id = id + 1
fn shift(alloc: Global) -> Result<Stmt, Fail> {
    let mut sets = Seq::new(alloc);
    sets.add((0, SetExpr::Plus(0, 1)))?;
    Ok(Stmt::Update(sets, Condition::new(alloc, Pred::All)?))
}

fn select(alloc: Global, items: Items) -> Result<Stmt, Fail> {
    let select = Select {
        items,
        pred: Condition::new(alloc, Pred::All)?,
        order: Seq::new(alloc),
        limit: None,
    };
    Ok(Stmt::Select(Boxed::new(alloc, select)?))
}

// SELECT COUNT(*) FROM t
fn count(alloc: Global) -> Result<Stmt, Fail> {
    let mut aggs = Seq::new(alloc);
    aggs.add(Agg::Count)?;
    select(alloc, Items::Aggs(aggs))
}

fn add(lines: &mut Seq<Line>, session: u8, stmt: Stmt) -> Result<(), Fail> {
    lines.add(Line { session, stmt })?;
    Ok(())
}

fn run(alloc: Global, schema: Schema, lines: Seq<Line>) -> Result<Outcome, Fail> {
    if !are_taken(&schema, lines.as_slice()) {
        return Err(Fail::from("the lines are taken"));
    }
    Ok(drive_call(
        alloc,
        Script {
            options: Options::new(),
            schema,
            lines,
        },
    )?)
}

// Session 1 reads at its pin, the timestamp of its BEGIN READ ONLY, and ends its transaction at the end of the history.
const IN_TURN: &str =
    "SESSION 1 4 0\n1 0 OK\n2 0 ROWS 1\n(0)\n3 0 OK\n4 0 ERROR 1 NoTransaction\nSESSION 2 3 0\n0 0 OK\n2 0 ERROR 2 AlreadyOpen\n2 0 OK\nHISTORY 4\n2 BEGIN\n1 PIN\n2 ROLLBACK\n1 UNPIN\nEND\n";

fn in_turn(alloc: Global) -> Result<Outcome, Fail> {
    let mut lines = Seq::new(alloc);
    add(&mut lines, 2, Stmt::Begin)?;
    add(&mut lines, 1, Stmt::BeginReadOnly)?;
    add(&mut lines, 2, Stmt::Begin)?;
    add(&mut lines, 2, Stmt::Rollback)?;
    add(&mut lines, 1, count(alloc)?)?;
    add(&mut lines, 1, Stmt::Commit)?;
    add(&mut lines, 1, Stmt::Commit)?;
    run(alloc, schema(alloc, false)?, lines)
}

// Session 2 wants the value that session 1's open DELETE holds, and again after the COMMIT or ROLLBACK.
const HELD: &str =
    "SESSION 1 4 0\n0 0 OK 1\n2 0 OK\n3 0 OK 1\n4 0 OK\nSESSION 2 2 0\n4 0 ERROR 8 LockedValue 1 2 1\n5 0 OK 1\nHISTORY 7\n1 WRITE PUT 1 (1)\n1 COMMIT\n1 BEGIN\n1 WRITE DROP 1\n1 COMMIT\n2 WRITE PUT 2 (1)\n2 COMMIT\nEND\n";

const FREED: &str =
    "SESSION 1 4 0\n0 0 OK 1\n2 0 OK\n3 0 OK 1\n4 0 OK\nSESSION 2 2 0\n4 0 ERROR 8 LockedValue 1 2 1\n5 0 ERROR 9 Duplicate 1 2\nHISTORY 5\n1 WRITE PUT 1 (1)\n1 COMMIT\n1 BEGIN\n1 WRITE DROP 1\n1 ROLLBACK\nEND\n";

fn held_value(alloc: Global, end: Stmt) -> Result<Outcome, Fail> {
    let mut lines = Seq::new(alloc);
    add(&mut lines, 1, insert(alloc, &[1])?)?;
    add(&mut lines, 1, Stmt::Begin)?;
    add(&mut lines, 1, delete(alloc, 1)?)?;
    add(&mut lines, 2, insert(alloc, &[1])?)?;
    add(&mut lines, 1, end)?;
    add(&mut lines, 2, insert(alloc, &[1])?)?;
    run(alloc, schema(alloc, true)?, lines)
}

// Each id takes its neighbour's value, in one statement.
const SHIFTED: &str =
    "SESSION 1 5 0\n0 0 OK 3\n2 0 OK 3\n4 0 OK 1\n6 0 ERROR 7 OutOfRange 4\n6 0 ROWS 4\n(2)\n(3)\n(4)\n(9223372036854775807)\nHISTORY 6\n1 WRITE PUT 1 (1), PUT 2 (2), PUT 3 (3)\n1 COMMIT\n1 WRITE PUT 1 (2), PUT 2 (3), PUT 3 (4)\n1 COMMIT\n1 WRITE PUT 4 (9223372036854775807)\n1 COMMIT\nEND\n";

fn shifted(alloc: Global) -> Result<Outcome, Fail> {
    let mut lines = Seq::new(alloc);
    add(&mut lines, 1, insert(alloc, &[1, 2, 3])?)?;
    add(&mut lines, 1, shift(alloc)?)?;
    add(&mut lines, 1, insert(alloc, &[i64::MAX])?)?;
    add(&mut lines, 1, shift(alloc)?)?;
    add(&mut lines, 1, select(alloc, Items::Star)?)?;
    run(alloc, schema(alloc, true)?, lines)
}

// COMMIT, BEGIN, BEGIN, ROLLBACK, BEGIN READ ONLY, INSERT, COMMIT.
const REFUSED: &str =
    "SESSION 1 7 0\n0 0 ERROR 1 NoTransaction\n0 0 OK\n1 0 ERROR 2 AlreadyOpen\n1 0 OK\n2 0 OK\n3 0 ERROR 3 ReadOnly\n3 0 OK\nHISTORY 4\n1 BEGIN\n1 ROLLBACK\n1 PIN\n1 UNPIN\nEND\n";

fn refused(alloc: Global) -> Result<Outcome, Fail> {
    let mut lines = Seq::new(alloc);
    add(&mut lines, 1, Stmt::Commit)?;
    add(&mut lines, 1, Stmt::Begin)?;
    add(&mut lines, 1, Stmt::Begin)?;
    add(&mut lines, 1, Stmt::Rollback)?;
    add(&mut lines, 1, Stmt::BeginReadOnly)?;
    add(&mut lines, 1, insert(alloc, &[1])?)?;
    add(&mut lines, 1, Stmt::Commit)?;
    run(alloc, schema(alloc, false)?, lines)
}

#[test]
fn sessions_in_turn(rt: HostRuntime) -> Result<(), Fail> {
    let alloc = rt.alloc();
    for (outcome, expected) in [
        (in_turn(alloc)?, IN_TURN),
        (held_value(alloc, Stmt::Commit)?, HELD),
        (held_value(alloc, Stmt::Rollback)?, FREED),
        (shifted(alloc)?, SHIFTED),
        (refused(alloc)?, REFUSED),
    ] {
        let text = print_output(alloc, &outcome)?;
        assert_eq!(rt; text.as_slice(), expected.as_bytes());
    }
    Ok(())
}

// INSERT of the numbers below this one.
fn insert_below(alloc: Global, count: i64) -> Result<Stmt, Fail> {
    let mut ids = Vec::new(alloc);
    for id in 0..count {
        ids.push(id)?;
    }
    insert(alloc, ids.as_slice())
}

// How many rows the only reply says were changed, and nothing where it says that they are too many.
fn changed(outcome: &Outcome) -> Result<Option<u32>, Fail> {
    let [transcript] = outcome.transcripts.as_slice() else {
        return Err(Fail::from("one session"));
    };
    let [said] = transcript.said.as_slice() else {
        return Err(Fail::from("one reply"));
    };
    match &said.reply {
        Reply::Changed(count) => Ok(Some(*count)),
        Reply::Refused(Refusal::TooManyRows) => Ok(None),
        _ => Err(Fail::from("another reply")),
    }
}

#[test]
fn too_many_rows_are_refused(rt: HostRuntime) -> Result<(), Fail> {
    let alloc = rt.alloc();
    for (count, told) in [(65_536, Some(65_536)), (65_537, None)] {
        let mut lines = Seq::new(alloc);
        add(&mut lines, 1, insert_below(alloc, count)?)?;
        let outcome = run(alloc, schema(alloc, false)?, lines)?;
        assert_eq!(rt; changed(&outcome)?, told);
    }
    Ok(())
}
