//! The refusals of transactions: where none or one is open, and where the log is full.
ghost use Rattle.std.specs.Prelude.{◌<◌};
ghost use Rattle.s2_state.specs.Good.{Good};

use crate::{begin, begin_read_only, commit, rollback, settle};
use s2_answer::stmt_suits;
use s2_model::{Logged, Options, Refusal, Reply, Stmt};
use s2_state::State;
use s2_value::{Col, ColList, ColType, Name, Schema, Seq, Value, are_within_limits};
use std::alloc::Global;
use std::test::Fail;

fn schema(alloc: Global) -> Result<Schema, Fail> {
    let mut cols = Seq::new(alloc);
    cols.add(Col {
        name: Name::new(alloc, b"id")?,
        kind: ColType::Int,
    })?;
    let (uniques, indexes, sort) = (Seq::new(alloc), Seq::new(alloc), ColList::new(alloc));
    if !are_within_limits(cols.len(), uniques.as_slice(), indexes.as_slice(), &sort) {
        return Err(Fail::from("limits"));
    }
    Ok(Schema {
        table: Name::new(alloc, b"t")?,
        cols,
        uniques,
        indexes,
        sort,
    })
}

fn is_done(reply: Reply) -> bool {
    matches!(reply, Reply::Done)
}

fn is_not_open(reply: Reply) -> bool {
    matches!(reply, Reply::Refused(Refusal::NoTransaction))
}

fn is_open(reply: Reply) -> bool {
    matches!(reply, Reply::Refused(Refusal::AlreadyOpen))
}

fn is_full(reply: Reply) -> bool {
    matches!(reply, Reply::Refused(Refusal::LogFull))
}

fn is_changed(reply: Reply) -> bool {
    matches!(reply, Reply::Changed(1))
}

// COMMIT, BEGIN, BEGIN, ROLLBACK, BEGIN READ ONLY, BEGIN, COMMIT.
#[test]
fn refuses_what_is_not_open(rt: HostRuntime) -> Result<(), Fail> {
    let alloc = rt.alloc();
    let mut s = State::new(alloc, schema(alloc)?, Options::new())?;
    assert!(rt; is_not_open(commit(&mut s, 1)));
    assert!(rt; is_done(begin(&mut s, 1)));
    assert!(rt; is_open(begin(&mut s, 1)));
    assert!(rt; is_done(rollback(&mut s, 1)));
    assert!(rt; is_done(begin_read_only(&mut s, 1)));
    assert!(rt; is_open(begin(&mut s, 1)));
    assert_eq!(rt; s.front(), 3);
    assert!(rt; is_done(commit(&mut s, 1)));
    assert_eq!(rt; s.front(), 4);
    Ok(())
}

// INSERT INTO t VALUES (1)
fn insert(s: &mut State, alloc: Global, actor: u8) -> Result<Reply, Fail>
    requires actor { (0 < actor) × (actor < 17) }
    requires good { Good s.old }
    ensures { Good s.new }
{
    let mut row = Seq::new(alloc);
    row.add(Value::Int(1))?;
    let mut rows = Seq::new(alloc);
    rows.add(row)?;
    let stmt = Stmt::Insert(rows);
    if !stmt_suits(&s.schema, &stmt) {
        return Err(Fail::from("the row fits"));
    }
    Ok(settle(s, alloc, actor, stmt))
}

// BEGIN and COMMIT of session 1, so many times.
fn fill(s: &mut State, times: u32) -> bool
    requires { Good s.old }
    ensures { Good s.new }
{
    for _i in 0..times {
        if !is_done(begin(s, 1)) {
            return false;
        }
        if !is_done(commit(s, 1)) {
            return false;
        }
    }
    true
}

// A BEGIN is the last statement that may add entries. What is open then can still be ended, and nothing else be written.
#[test]
fn full_log_takes_ends_alone(rt: HostRuntime) -> Result<(), Fail> {
    let alloc = rt.alloc();
    let mut s = State::new(alloc, schema(alloc)?, Options::new())?;
    assert!(rt; fill(&mut s, 2_097_118));
    assert!(rt; is_done(begin_read_only(&mut s, 2)));
    assert!(rt; is_done(begin(&mut s, 3)));
    assert!(rt; is_changed(insert(&mut s, alloc, 3)?));
    assert!(rt; is_done(begin(&mut s, 4)));
    assert_eq!(rt; s.front(), 4_194_240);
    assert!(rt; is_done(begin(&mut s, 5)));
    assert!(rt; is_full(begin(&mut s, 1)));
    assert!(rt; is_full(begin_read_only(&mut s, 1)));
    assert!(rt; is_full(insert(&mut s, alloc, 1)?));
    assert!(rt; is_full(insert(&mut s, alloc, 3)?));
    assert_eq!(rt; s.front(), 4_194_241);
    assert!(rt; is_done(commit(&mut s, 2)));
    assert!(rt; is_done(commit(&mut s, 3)));
    assert!(rt; is_done(rollback(&mut s, 4)));
    assert!(rt; is_done(commit(&mut s, 5)));
    assert_eq!(rt; s.front(), 4_194_245);
    Ok(())
}
