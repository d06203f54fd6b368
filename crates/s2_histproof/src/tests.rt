//! Texts of whole outcomes: a short run, and one with each kind of entry, reply and refusal.
use super::{Memory, Outcome, Said, Transcript, print_output};
use s2_model::{
    Cell, CellList, Change, Entry, EntryList, FlushNote, MergeNote, Refusal, Reply, SaidList, What,
};
use s2_value::{Digest, Row, Seq, Txt, Value};
use sqlite_items::Boxed;
use std::alloc::Global;
use std::test::Fail;

const SHORT: &[u8] = b"SESSION 1 2 0
0 0 OK 1
2 0 ROWS 1
(7, 'ab')
HISTORY 2
1 WRITE PUT 1 (7, 'ab')
1 COMMIT
END
";

const LONG: &[u8] = b"SESSION 2 12 3
0 0 OK 65536
1 0 OK
2 0 ROWS 2
(NULL, -170141183460469231731687303715884105728)
('it''s')
3 0 ROWS 0
4 0 BEGUN
5 0 FLUSHED 4294967295
6 0 MERGED 3 4
7 0 UPLOADED 5
8 0 EVICTED 2
9 1 VACUUMED 18446744073709551615
10 1 NOTHING
11 3 LATE 9
SESSION 16 16 18446744073709551615
0 0 ERROR 1 NoTransaction
0 0 ERROR 2 AlreadyOpen
0 0 ERROR 3 ReadOnly
0 0 ERROR 4 LogFull
0 0 ERROR 5 TooManyRows
0 0 ERROR 6 Locked 10 2
0 0 ERROR 7 OutOfRange 11
0 0 ERROR 8 LockedValue 1 12 3
0 0 ERROR 9 Duplicate 2 13
0 0 ERROR 10 ReadFault 14
0 0 ERROR 11 WriteFault 15
0 0 ERROR 12 Overtaken 6 16
0 0 ERROR 13 Memory
0 0 ERROR 14 NotYet
0 0 ERROR 15 Damaged 7 0000000000000000000000000000000000000000000000000000000000000000 afafafafafafafafafafafafafafafafafafafafafafafafafafafafafafafaf
0 0 ERROR 16 Unreadable 8
HISTORY 13
1 BEGIN
1 WRITE PUT 4 (-5, ''''), DROP 5, PUT 18446744073709551615 (0, '')
1 COMMIT
2 ROLLBACK
3 PIN
3 UNPIN
4 MOVE 1:0 2:17
17 FLUSH 3 BASE 6 ROWS 9 4 MARKED 0 2
17 FLUSH 4 BASE 7 ROWS 8 MARKED
18 MERGE BASE 8 FROM 1 2 TO 5 ROWS 4 9 TO 6 ROWS 8 MARKED 5:1 6:0
19 UPLOAD 5
19 EVICT 5 6
17 VACUUM 12
END
";

fn row(alloc: Global, number: i64, text: &[u8]) -> Result<Row, Fail> {
    let mut row = Seq::new(alloc);
    row.add(Value::Int(number))?;
    row.add(Value::Text(Txt::new(alloc, text)?))?;
    Ok(row)
}

fn list<T: Copy>(alloc: Global, items: &[T]) -> Result<Seq<T>, Memory> {
    Ok(Seq::from_vec(Vec::from_slice(alloc, items)?))
}

fn say(said: &mut SaidList, r: u64, faults: u64, reply: Reply) -> Result<(), Memory> {
    said.add(Said { r, faults, reply })
}

fn refuse(said: &mut SaidList, refusal: Refusal) -> Result<(), Memory> {
    say(said, 0, 0, Reply::Refused(refusal))
}

fn enter(entries: &mut EntryList, actor: u8, what: What) -> Result<(), Memory> {
    entries.add(Entry { actor, what })
}

fn cells(alloc: Global, first: Cell, second: Cell) -> Result<CellList, Memory> {
    let mut cells = Seq::new(alloc);
    cells.add(first)?;
    cells.add(second)?;
    Ok(cells)
}

fn short_run(alloc: Global) -> Result<Outcome, Fail> {
    let mut rows = Seq::new(alloc);
    rows.add(cells(alloc, Cell::Int(7), Cell::Text(Txt::new(alloc, b"ab")?))?)?;
    let mut said = Seq::new(alloc);
    say(&mut said, 0, 0, Reply::Changed(1))?;
    say(&mut said, 2, 0, Reply::Rows(rows))?;
    let mut transcripts = Seq::new(alloc);
    transcripts.add(Transcript {
        session: 1,
        faults: 0,
        said,
    })?;
    let mut changes = Seq::new(alloc);
    changes.add(Change::Put(1, row(alloc, 7, b"ab")?))?;
    let mut history = Seq::new(alloc);
    enter(&mut history, 1, What::Write(changes))?;
    enter(&mut history, 1, What::Commit)?;
    Ok(Outcome {
        history,
        transcripts,
    })
}

fn answer(alloc: Global) -> Result<Reply, Fail> {
    let mut one = Seq::new(alloc);
    one.add(Cell::Text(Txt::new(alloc, b"it's")?))?;
    let mut rows = Seq::new(alloc);
    rows.add(cells(alloc, Cell::Nothing, Cell::Int(i128::MIN))?)?;
    rows.add(one)?;
    Ok(Reply::Rows(rows))
}

fn replies(alloc: Global) -> Result<SaidList, Fail> {
    let mut said = Seq::new(alloc);
    say(&mut said, 0, 0, Reply::Changed(65536))?;
    say(&mut said, 1, 0, Reply::Done)?;
    say(&mut said, 2, 0, answer(alloc)?)?;
    say(&mut said, 3, 0, Reply::Rows(Seq::new(alloc)))?;
    say(&mut said, 4, 0, Reply::Begun)?;
    say(&mut said, 5, 0, Reply::Flushed(u32::MAX))?;
    Ok(said)
}

fn more_replies(alloc: Global, said: &mut SaidList) -> Result<(), Memory> {
    say(said, 6, 0, Reply::Merged(list(alloc, &[3, 4])?))?;
    say(said, 7, 0, Reply::Uploaded(5))?;
    say(said, 8, 0, Reply::Evicted(2))?;
    say(said, 9, 1, Reply::Vacuumed(u64::MAX))?;
    say(said, 10, 1, Reply::Nothing)?;
    say(said, 11, 3, Reply::Late(9))
}

fn refusals(said: &mut SaidList) -> Result<(), Memory> {
    refuse(said, Refusal::NoTransaction)?;
    refuse(said, Refusal::AlreadyOpen)?;
    refuse(said, Refusal::ReadOnly)?;
    refuse(said, Refusal::LogFull)?;
    refuse(said, Refusal::TooManyRows)?;
    refuse(said, Refusal::Locked { row: 10, holder: 2 })?;
    refuse(said, Refusal::OutOfRange { row: 11 })?;
    refuse(
        said,
        Refusal::LockedValue {
            key: 1,
            row: 12,
            holder: 3,
        },
    )
}

fn more_refusals(alloc: Global, said: &mut SaidList) -> Result<(), Memory> {
    let kept = Boxed::new(alloc, Digest::new([0; 32]))?;
    let found = Boxed::new(alloc, Digest::new([0xaf; 32]))?;
    refuse(said, Refusal::Duplicate { key: 2, row: 13 })?;
    refuse(said, Refusal::ReadFault { count: 14 })?;
    refuse(said, Refusal::WriteFault { count: 15 })?;
    refuse(said, Refusal::Overtaken { seg: 6, base: 16 })?;
    refuse(said, Refusal::Memory)?;
    refuse(said, Refusal::NotYet)?;
    refuse(
        said,
        Refusal::Damaged {
            seg: 7,
            kept,
            found,
        },
    )?;
    refuse(said, Refusal::Unreadable { seg: 8 })
}

fn logical_entries(alloc: Global, history: &mut EntryList) -> Result<(), Fail> {
    let mut changes = Seq::new(alloc);
    changes.add(Change::Put(4, row(alloc, -5, b"'")?))?;
    changes.add(Change::Drop(5))?;
    changes.add(Change::Put(u64::MAX, row(alloc, 0, b"")?))?;
    enter(history, 1, What::Begin)?;
    enter(history, 1, What::Write(changes))?;
    enter(history, 1, What::Commit)?;
    enter(history, 2, What::Rollback)?;
    enter(history, 3, What::Pin)?;
    enter(history, 3, What::Unpin)?;
    Ok(())
}

fn flush(alloc: Global, seg: u32, base: u64, rows: &[u64], marked: &[u32]) -> Result<What, Memory> {
    let rows = list(alloc, rows)?;
    let marked = list(alloc, marked)?;
    let note = FlushNote {
        seg,
        base,
        rows,
        marked,
    };
    Ok(What::Flush(Boxed::new(alloc, note)?))
}

fn merge(alloc: Global) -> Result<What, Memory> {
    let olds = list(alloc, &[1, 2])?;
    let marked = list(alloc, &[(5, 1), (6, 0)])?;
    let mut news = Seq::new(alloc);
    news.add((5, list(alloc, &[4, 9])?))?;
    news.add((6, list(alloc, &[8])?))?;
    let note = MergeNote {
        base: 8,
        olds,
        news,
        marked,
    };
    Ok(What::Merge(Boxed::new(alloc, note)?))
}

fn physical_entries(alloc: Global, history: &mut EntryList) -> Result<(), Memory> {
    enter(history, 4, What::Move(list(alloc, &[(1, 0), (2, 17)])?))?;
    enter(history, 17, flush(alloc, 3, 6, &[9, 4], &[0, 2])?)?;
    enter(history, 17, flush(alloc, 4, 7, &[8], &[])?)?;
    enter(history, 18, merge(alloc)?)?;
    enter(history, 19, What::Upload(5))?;
    enter(history, 19, What::Evict(list(alloc, &[5, 6])?))?;
    enter(history, 17, What::Vacuum(12))
}

fn long_run(alloc: Global) -> Result<Outcome, Fail> {
    let mut answered = replies(alloc)?;
    more_replies(alloc, &mut answered)?;
    let mut refused = Seq::new(alloc);
    refusals(&mut refused)?;
    more_refusals(alloc, &mut refused)?;
    let mut transcripts = Seq::new(alloc);
    transcripts.add(Transcript {
        session: 2,
        faults: 3,
        said: answered,
    })?;
    transcripts.add(Transcript {
        session: 16,
        faults: u64::MAX,
        said: refused,
    })?;
    let mut history = Seq::new(alloc);
    logical_entries(alloc, &mut history)?;
    physical_entries(alloc, &mut history)?;
    Ok(Outcome {
        history,
        transcripts,
    })
}

#[test]
fn prints_each_kind(rt: HostRuntime) -> Result<(), Fail> {
    let run = long_run(rt.alloc())?;
    let text = print_output(rt.alloc(), &run)?;
    assert_eq!(rt; text.as_slice(), LONG);
    Ok(())
}

#[test]
fn prints_a_short_run(rt: HostRuntime) -> Result<(), Fail> {
    let run = short_run(rt.alloc())?;
    let text = print_output(rt.alloc(), &run)?;
    assert_eq!(rt; text.as_slice(), SHORT);
    Ok(())
}
