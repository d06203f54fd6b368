//! Each call once, with ample memory.
ghost use Rattle.std.specs.Prelude.{◌≡◌, IfOk, length, [], ◌∷◌};
ghost use Rattle.s2_model.specs.declared.entries.Change.TheVariants as change;

use crate::State;
use s2_model::{Change, ChangeList, Entry, Logged, Options, What};
use s2_value::{Col, ColList, ColType, Memory, Name, Row, Schema, Seq, Value, are_within_limits};
use std::alloc::Global;
use std::test::Fail;

fn schema(alloc: Global) -> Result<Schema, Fail> {
    let mut cols = Seq::new(alloc);
    cols.add(Col {
        name: Name::new(alloc, b"id")?,
        kind: ColType::Int,
    })?;
    let (uniques, indexes, sort) = (Seq::new(alloc), Seq::new(alloc), ColList::new(alloc));
    if !are_within_limits(cols.len(), uniques.as_slice(), indexes.as_slice(), &sort) {
        return Err(Fail::from("limits"));
    }
    Ok(Schema {
        table: Name::new(alloc, b"t")?,
        cols,
        uniques,
        indexes,
        sort,
    })
}

fn row(alloc: Global, number: i64) -> Result<Row, Memory> {
    let mut row = Seq::new(alloc);
    row.add(Value::Int(number))?;
    Ok(row)
}

// A write of two rows, the greater number first.
fn write(alloc: Global) -> Result<ChangeList, Memory>
    ensures { IfOk result (λ cs. length cs ≡ 2) }
{
    let mut changes = Seq::new(alloc);
    changes.add(Change::Put(7, row(alloc, 70)?))?;
    changes.add(Change::Drop(5))?;
    Ok(changes)
}

fn entry(actor: u8, what: What) -> Entry {
    Entry { actor, what }
}

#[test]
fn begins_empty(rt: HostRuntime) -> Result<(), Fail> {
    let alloc = rt.alloc();
    let s = State::new(alloc, schema(alloc)?, Options::new())?;
    assert_eq!(rt; s.front(), 0);
    assert_eq!(rt; s.next_row(), 1);
    assert_eq!(rt; s.pin_of(1), None);
    let seen = s.snapshot(alloc, 1, 0)?;
    assert_eq!(rt; seen.r, 0);
    assert_eq!(rt; seen.rows.len(), 0);
    Ok(())
}

// A transaction that writes beside one that reads, each ended.
#[test]
fn keeps_what_is_open(rt: HostRuntime) -> Result<(), Fail> {
    let alloc = rt.alloc();
    let mut s = State::new(alloc, schema(alloc)?, Options::new())?;
    s.reserve(5)?;
    s.append(entry(2, What::Begin));
    s.append(entry(2, What::Write(write(alloc)?)));
    s.append(entry(3, What::Pin));
    assert!(rt; s.is_running(2));
    assert!(rt; !s.is_running(3));
    assert_eq!(rt; s.pin_of(3), Some(3));
    s.append(entry(2, What::Rollback));
    s.append(entry(3, What::Unpin));
    assert!(rt; !s.is_running(2));
    assert_eq!(rt; s.pin_of(3), None);
    assert_eq!(rt; s.into_log().len(), 5);
    Ok(())
}
