//! Worked rows: each statement's reply and the entries that it makes.
use crate::verdict;
use s2_model::{
    Condition, Entry, FlushNote, Items, Op, Pred, Refusal, Reply, RowList, Select, SetExpr, Stmt,
    What,
};
use s2_value::{Col, ColList, ColType, KeyList, Name, Schema, Seq, Value, are_within_limits};
use sqlite_items::Boxed;
use std::alloc::Global;
use std::test::Fail;

#[derive(Clone, Copy, Debug)]
enum Asked {
    Insert(&'static [i64]),
    AddOne,
    DeleteId(i64),
    Select,
    Begin,
    BeginReadOnly,
    Commit,
    Rollback,
}

use Asked::{AddOne, Begin, BeginReadOnly, Commit, DeleteId, Insert, Rollback};

fn one_key(alloc: Global) -> Result<KeyList, Fail> {
    let mut id = ColList::new(alloc);
    let _ = id.push(0);
    let mut uniques = Seq::new(alloc);
    uniques.add(id)?;
    Ok(uniques)
}

fn one_column(alloc: Global) -> Result<Schema, Fail> {
    let mut cols = Seq::new(alloc);
    cols.add(Col {
        name: Name::new(alloc, b"id")?,
        kind: ColType::Int,
    })?;
    let uniques = one_key(alloc)?;
    let indexes = Seq::new(alloc);
    let sort = ColList::new(alloc);
    if !are_within_limits(cols.len(), uniques.as_slice(), indexes.as_slice(), &sort) {
        return Err(Fail::from("limits"));
    }
    Ok(Schema {
        table: Name::new(alloc, b"t")?,
        cols,
        uniques,
        indexes,
        sort,
    })
}

fn rows_of(alloc: Global, ids: &[i64]) -> Result<RowList, Fail> {
    let mut rows = Seq::new(alloc);
    for id in ids {
        let mut row = Seq::new(alloc);
        row.add(Value::Int(*id))?;
        rows.add(row)?;
    }
    Ok(rows)
}

fn add_one(alloc: Global) -> Result<Stmt, Fail> {
    let mut sets = Seq::new(alloc);
    sets.add((0, SetExpr::Plus(0, 1)))?;
    Ok(Stmt::Update(sets, Condition::new(alloc, Pred::All)?))
}

fn delete_id(alloc: Global, id: i64) -> Result<Stmt, Fail> {
    let pred = Pred::Cmp(0, Op::Eq, Value::Int(id));
    Ok(Stmt::Delete(Condition::new(alloc, pred)?))
}

fn select_all(alloc: Global) -> Result<Stmt, Fail> {
    let select = Select {
        items: Items::Star,
        pred: Condition::new(alloc, Pred::All)?,
        order: Seq::new(alloc),
        limit: None,
    };
    Ok(Stmt::Select(Boxed::new(alloc, select)?))
}

fn stmt_of(alloc: Global, asked: Asked) -> Result<Stmt, Fail> {
    match asked {
        Insert(ids) => Ok(Stmt::Insert(rows_of(alloc, ids)?)),
        AddOne => add_one(alloc),
        DeleteId(id) => delete_id(alloc, id),
        Asked::Select => select_all(alloc),
        Begin => Ok(Stmt::Begin),
        BeginReadOnly => Ok(Stmt::BeginReadOnly),
        Commit => Ok(Stmt::Commit),
        Rollback => Ok(Stmt::Rollback),
    }
}

fn tell_refusal(text: &mut String, refusal: &Refusal) -> Result<(), Fail> {
    match refusal {
        Refusal::NoTransaction => write!(text, "NoTransaction")?,
        Refusal::AlreadyOpen => write!(text, "AlreadyOpen")?,
        Refusal::ReadOnly => write!(text, "ReadOnly")?,
        Refusal::Locked { row, holder } => write!(text, "Locked {row} {holder}")?,
        Refusal::OutOfRange { row } => write!(text, "OutOfRange {row}")?,
        Refusal::LockedValue { key, row, holder } => {
            write!(text, "LockedValue {key} {row} {holder}")?;
        }
        Refusal::Duplicate { key, row } => write!(text, "Duplicate {key} {row}")?,
        _ => write!(text, "another")?,
    }
    Ok(())
}

fn tell_reply(text: &mut String, reply: &Reply) -> Result<(), Fail> {
    match reply {
        Reply::Changed(count) => write!(text, "OK {count}")?,
        Reply::Done => write!(text, "OK")?,
        Reply::Rows(rows) => write!(text, "ROWS {}", rows.len())?,
        Reply::Refused(refusal) => tell_refusal(text, refusal)?,
        _ => write!(text, "another")?,
    }
    Ok(())
}

fn name_of(what: &What) -> &'static str {
    match what {
        What::Begin => "BEGIN",
        What::Write(_) => "WRITE",
        What::Commit => "COMMIT",
        What::Rollback => "ROLLBACK",
        What::Pin => "PIN",
        What::Unpin => "UNPIN",
        What::Move(_) => "MOVE",
        _ => "another",
    }
}

fn tell_entries(text: &mut String, entries: &[Entry]) -> Result<(), Fail> {
    for entry in entries {
        let name = name_of(&entry.what);
        write!(text, " {} {name}", entry.actor)?;
    }
    Ok(())
}

// Asks one statement, puts its entries to the history, and tells the reply and the entries.
fn tell(
    alloc: Global,
    schema: &Schema,
    history: &mut Vec<Entry>,
    actor: u8,
    asked: Asked,
) -> Result<String, Fail> {
    let stmt = stmt_of(alloc, asked)?;
    let ruling = verdict(alloc, schema, history.as_slice(), actor, &stmt)?;
    let mut text = String::new(alloc);
    tell_reply(&mut text, &ruling.reply)?;
    let entries = ruling.entries.into_vec();
    tell_entries(&mut text, &entries)?;
    for entry in entries {
        history.push(entry)?;
    }
    Ok(text)
}

// The place, from 1, of the first statement that isn't answered so; 0 where there is none.
fn differs(alloc: Global, asks: &[(u8, Asked, &'static str)]) -> Result<usize, Fail> {
    let schema = one_column(alloc)?;
    let mut history = Vec::new(alloc);
    for (i, ask) in asks.iter().enumerate() {
        let text = tell(alloc, &schema, &mut history, ask.0, ask.1)?;
        if text.as_str() != ask.2 {
            return Ok(i + 1);
        }
    }
    Ok(0)
}

const TRANSACTION_REFUSALS: [(u8, Asked, &str); 7] = [
    (1, Commit, "NoTransaction"),
    (1, Begin, "OK 1 BEGIN"),
    (1, Begin, "AlreadyOpen"),
    (1, Rollback, "OK 1 ROLLBACK"),
    (1, BeginReadOnly, "OK 1 PIN"),
    (1, Insert(&[1]), "ReadOnly"),
    (1, Commit, "OK 1 UNPIN"),
];

#[test]
fn transactions_refuse(rt: HostRuntime) -> Result<(), Fail> {
    assert_eq!(rt; differs(rt.alloc(), &TRANSACTION_REFUSALS)?, 0);
    Ok(())
}

const HELD_UNIQUE_VALUE: [(u8, Asked, &str); 6] = [
    (1, Insert(&[1]), "OK 1 1 WRITE 1 COMMIT"),
    (1, Begin, "OK 1 BEGIN"),
    (1, DeleteId(1), "OK 1 1 WRITE"),
    (2, Insert(&[1]), "LockedValue 1 2 1"),
    (1, Commit, "OK 1 COMMIT"),
    (2, Insert(&[1]), "OK 1 2 WRITE 2 COMMIT"),
];

#[test]
fn held_values_are_locked(rt: HostRuntime) -> Result<(), Fail> {
    assert_eq!(rt; differs(rt.alloc(), &HELD_UNIQUE_VALUE)?, 0);
    Ok(())
}

const RELEASED_UNIQUE_VALUE: [(u8, Asked, &str); 6] = [
    (1, Insert(&[1]), "OK 1 1 WRITE 1 COMMIT"),
    (1, Begin, "OK 1 BEGIN"),
    (1, DeleteId(1), "OK 1 1 WRITE"),
    (2, Insert(&[1]), "LockedValue 1 2 1"),
    (1, Rollback, "OK 1 ROLLBACK"),
    (2, Insert(&[1]), "Duplicate 1 2"),
];

#[test]
fn released_values_are_there_again(rt: HostRuntime) -> Result<(), Fail> {
    assert_eq!(rt; differs(rt.alloc(), &RELEASED_UNIQUE_VALUE)?, 0);
    Ok(())
}

const SHIFT_ALL_IDS: [(u8, Asked, &str); 5] = [
    (1, Insert(&[1, 2, 3]), "OK 3 1 WRITE 1 COMMIT"),
    (1, AddOne, "OK 3 1 WRITE 1 COMMIT"),
    (1, Insert(&[9223372036854775807]), "OK 1 1 WRITE 1 COMMIT"),
    (1, AddOne, "OutOfRange 4"),
    (1, Asked::Select, "ROWS 4"),
];

#[test]
fn all_ids_shift(rt: HostRuntime) -> Result<(), Fail> {
    assert_eq!(rt; differs(rt.alloc(), &SHIFT_ALL_IDS)?, 0);
    Ok(())
}

// A flush of row 1, which the first two entries made.
fn flush_of_one(alloc: Global) -> Result<Entry, Fail> {
    let mut rows = Seq::new(alloc);
    rows.add(1)?;
    let note = FlushNote {
        seg: 1,
        base: 2,
        rows,
        marked: Seq::new(alloc),
    };
    Ok(Entry {
        actor: 1,
        what: What::Flush(Boxed::new(alloc, note)?),
    })
}

#[test]
fn writes_move_rows(rt: HostRuntime) -> Result<(), Fail> {
    let alloc = rt.alloc();
    let schema = one_column(alloc)?;
    let mut history = Vec::new(alloc);
    let first = tell(alloc, &schema, &mut history, 1, Insert(&[1]))?;
    assert!(rt; first.as_str() == "OK 1 1 WRITE 1 COMMIT");
    history.push(flush_of_one(alloc)?)?;
    let second = tell(alloc, &schema, &mut history, 1, DeleteId(1))?;
    assert!(rt; second.as_str() == "OK 1 1 MOVE 1 WRITE 1 COMMIT");
    Ok(())
}
