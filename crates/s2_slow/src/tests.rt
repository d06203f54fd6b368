//! Worked histories: their placements entry by entry, and what their actors see.
use crate::{answer, answer_of, pending, placement, state, view};
use s2_model::{
    Agg, Cell, CellTable, Change, ChangeList, Condition, Entry, EntryList, FlushNote, Items,
    MarkList, MergeNote, Pred, Select, What,
};
use s2_value::{Col, ColList, ColType, Name, Row, Schema, Seq, Txt, Value, are_within_limits};
use sqlite_items::Boxed;
use std::alloc::Global;
use std::test::Fail;

#[derive(Clone, Copy, Debug)]
enum Step {
    Begin,
    Commit,
    Rollback,
    Pin,
    Unpin,
    Put(&'static [(u64, i64, &'static str)]),
    Drop(&'static [u64]),
    Move(&'static [(u32, u32)]),
    Flush(u32, u64, &'static [u64], &'static [u32]),
    Merge(u64, &'static [u32], &'static [(u32, &'static [u64])], &'static [(u32, u32)]),
    Vacuum(u64),
}

use Step::{Begin, Commit, Flush, Merge, Move, Pin, Put, Rollback, Unpin, Vacuum};

// A move races a merge.
const MOVE_RACES_MERGE: [(u8, Step); 10] = [
    (1, Put(&[(1, 2, "b")])),
    (1, Commit),
    (1, Flush(1, 2, &[1], &[])),
    (1, Put(&[(2, 1, "a")])),
    (1, Commit),
    (1, Flush(2, 5, &[2], &[])),
    (2, Move(&[(1, 0)])),
    (2, Put(&[(1, 2, "z")])),
    (2, Commit),
    (1, Merge(6, &[1, 2], &[(3, &[2, 1])], &[(3, 1)])),
];

// A flush races an update.
const FLUSH_RACES_UPDATE: [(u8, Step); 6] = [
    (1, Put(&[(1, 1, "a"), (2, 2, "b")])),
    (1, Commit),
    (2, Begin),
    (2, Put(&[(1, 1, "x")])),
    (1, Flush(1, 2, &[1, 2], &[0])),
    (2, Rollback),
];

// A pin reads what a merge and a vacuum would forget.
const PIN_READS_OLD: [(u8, Step); 13] = [
    (1, Put(&[(1, 1, "")])),
    (1, Commit),
    (1, Flush(1, 2, &[1], &[])),
    (1, Put(&[(2, 2, "")])),
    (1, Commit),
    (1, Flush(2, 5, &[2], &[])),
    (2, Pin),
    (1, Move(&[(1, 0), (2, 0)])),
    (1, Step::Drop(&[1, 2])),
    (1, Commit),
    (1, Merge(10, &[1, 2], &[], &[])),
    (1, Vacuum(7)),
    (2, Unpin),
];

fn row_of(alloc: Global, number: i64, word: &str) -> Result<Row, Fail> {
    let mut row = Seq::new(alloc);
    row.add(Value::Int(number))?;
    row.add(Value::Text(Txt::new(alloc, word.as_bytes())?))?;
    Ok(row)
}

fn puts_of(alloc: Global, puts: &[(u64, i64, &'static str)]) -> Result<ChangeList, Fail> {
    let mut changes = Seq::new(alloc);
    for (id, number, word) in puts {
        changes.add(Change::Put(*id, row_of(alloc, *number, *word)?))?;
    }
    Ok(changes)
}

fn drops_of(alloc: Global, ids: &[u64]) -> Result<ChangeList, Fail> {
    let mut changes = Seq::new(alloc);
    for id in ids {
        changes.add(Change::Drop(*id))?;
    }
    Ok(changes)
}

fn list_of<T: Copy + std::ops::Drop>(alloc: Global, items: &[T]) -> Result<Seq<T>, Fail> {
    let mut list = Seq::new(alloc);
    for item in items {
        list.add(*item)?;
    }
    Ok(list)
}

fn flush_of(
    alloc: Global,
    seg: u32,
    base: u64,
    rows: &[u64],
    marked: &[u32],
) -> Result<What, Fail> {
    let rows = list_of(alloc, rows)?;
    let marked = list_of(alloc, marked)?;
    let note = FlushNote {
        seg,
        base,
        rows,
        marked,
    };
    Ok(What::Flush(Boxed::new(alloc, note)?))
}

fn merge_of(
    alloc: Global,
    base: u64,
    olds: &[u32],
    segments: &[(u32, &'static [u64])],
    marked: &[(u32, u32)],
) -> Result<What, Fail> {
    let olds = list_of(alloc, olds)?;
    let marked = list_of(alloc, marked)?;
    let mut news = Seq::new(alloc);
    for (number, ids) in segments {
        news.add((*number, list_of(alloc, *ids)?))?;
    }
    let note = MergeNote {
        base,
        olds,
        news,
        marked,
    };
    Ok(What::Merge(Boxed::new(alloc, note)?))
}

fn what_of(alloc: Global, step: Step) -> Result<What, Fail> {
    match step {
        Begin => Ok(What::Begin),
        Commit => Ok(What::Commit),
        Rollback => Ok(What::Rollback),
        Pin => Ok(What::Pin),
        Unpin => Ok(What::Unpin),
        Put(puts) => Ok(What::Write(puts_of(alloc, puts)?)),
        Step::Drop(ids) => Ok(What::Write(drops_of(alloc, ids)?)),
        Move(places) => Ok(What::Move(list_of(alloc, places)?)),
        Flush(seg, base, rows, marked) => flush_of(alloc, seg, base, rows, marked),
        Merge(base, olds, news, marked) => merge_of(alloc, base, olds, news, marked),
        Vacuum(horizon) => Ok(What::Vacuum(horizon)),
    }
}

fn history_of(alloc: Global, steps: &[(u8, Step)]) -> Result<EntryList, Fail> {
    let mut entries = Seq::new(alloc);
    for (actor, step) in steps {
        let what = what_of(alloc, *step)?;
        entries.add(Entry {
            actor: *actor,
            what,
        })?;
    }
    Ok(entries)
}

fn tell_marks(text: &mut String, marks: &MarkList) -> Result<(), Fail> {
    for (time, offset) in marks.as_slice() {
        write!(text, "!{time}:{offset} ")?;
    }
    Ok(())
}

// Each segment with its death and its marks, the rows in the row store, the horizon, and the pins.
fn told(alloc: Global, h: &[Entry]) -> Result<String, Fail> {
    let note = placement(alloc, h)?;
    let mut text = String::new(alloc);
    for seg in note.segs.as_slice() {
        write!(text, "{} born {} ", seg.id, seg.born)?;
        if let Some(died) = seg.died {
            write!(text, "died {died} ")?;
        }
        tell_marks(&mut text, &seg.marks)?;
    }
    write!(text, "|")?;
    for id in note.store.as_slice() {
        write!(text, " {id}")?;
    }
    write!(text, " | {}", note.horizon)?;
    for (actor, time) in note.pins.as_slice() {
        write!(text, " {actor} at {time}")?;
    }
    Ok(text)
}

// The number of the first prefix that isn't told so.
fn differs(alloc: Global, steps: &[(u8, Step)], wants: &[&'static str]) -> Result<usize, Fail> {
    let entries = history_of(alloc, steps)?;
    for (i, want) in wants.iter().enumerate() {
        if i >= entries.len() {
            return Ok(i + 1);
        }
        let text = told(alloc, &entries.as_slice()[..i + 1])?;
        if text.as_str() != *want {
            return Ok(i + 1);
        }
    }
    Ok(0)
}

#[test]
fn moves_race_merges(rt: HostRuntime) -> Result<(), Fail> {
    let wants = [
        "| 1 | 0",
        "| 1 | 0",
        "1 born 3 | | 0",
        "1 born 3 | 2 | 0",
        "1 born 3 | 2 | 0",
        "1 born 3 2 born 6 | | 0",
        "1 born 3 !7:0 2 born 6 | 1 | 0",
        "1 born 3 !7:0 2 born 6 | 1 | 0",
        "1 born 3 !7:0 2 born 6 | 1 | 0",
        "1 born 3 died 10 !7:0 2 born 6 died 10 3 born 10 !10:1 | 1 | 0",
    ];
    assert_eq!(rt; differs(rt.alloc(), &MOVE_RACES_MERGE, &wants)?, 0);
    Ok(())
}

#[test]
fn flushes_race_updates(rt: HostRuntime) -> Result<(), Fail> {
    let wants = [
        "| 1 2 | 0",
        "| 1 2 | 0",
        "| 1 2 | 0",
        "| 1 2 | 0",
        "1 born 5 !5:0 | 1 | 0",
        "1 born 5 !5:0 | 1 | 0",
    ];
    assert_eq!(rt; differs(rt.alloc(), &FLUSH_RACES_UPDATE, &wants)?, 0);
    Ok(())
}

#[test]
fn pins_keep_old_rows(rt: HostRuntime) -> Result<(), Fail> {
    let wants = [
        "| 1 | 0",
        "| 1 | 0",
        "1 born 3 | | 0",
        "1 born 3 | 2 | 0",
        "1 born 3 | 2 | 0",
        "1 born 3 2 born 6 | | 0",
        "1 born 3 2 born 6 | | 0 2 at 7",
        "1 born 3 !8:0 2 born 6 !8:0 | 1 2 | 0 2 at 7",
        "1 born 3 !8:0 2 born 6 !8:0 | 1 2 | 0 2 at 7",
        "1 born 3 !8:0 2 born 6 !8:0 | | 0 2 at 7",
        "1 born 3 died 11 !8:0 2 born 6 died 11 !8:0 | | 0 2 at 7",
        "1 born 3 died 11 !8:0 2 born 6 died 11 !8:0 | | 7 2 at 7",
        "1 born 3 died 11 !8:0 2 born 6 died 11 !8:0 | | 7",
    ];
    assert_eq!(rt; differs(rt.alloc(), &PIN_READS_OLD, &wants)?, 0);
    Ok(())
}

// The numbers of the rows, as one text.
fn ids_of(alloc: Global, rows: &[(u64, Row)]) -> Result<String, Fail> {
    let mut text = String::new(alloc);
    for row in rows {
        write!(text, "{} ", row.0)?;
    }
    Ok(text)
}

#[test]
fn a_pin_is_seen_at_its_time(rt: HostRuntime) -> Result<(), Fail> {
    let entries = history_of(rt.alloc(), &PIN_READS_OLD)?;
    let h = entries.as_slice();
    assert!(rt; h.len() == 13);
    let before = view(rt.alloc(), &h[..12], 2)?;
    assert!(rt; ids_of(rt.alloc(), before.as_slice())?.as_str() == "1 2 ");
    let after = view(rt.alloc(), h, 2)?;
    assert!(rt; after.len() == 0);
    let old = state(rt.alloc(), h, 4)?;
    assert!(rt; ids_of(rt.alloc(), old.as_slice())?.as_str() == "1 ");
    Ok(())
}

#[test]
fn open_writes_are_pending(rt: HostRuntime) -> Result<(), Fail> {
    let entries = history_of(rt.alloc(), &FLUSH_RACES_UPDATE)?;
    let h = entries.as_slice();
    assert!(rt; h.len() == 6);
    assert!(rt; pending(rt.alloc(), &h[..5], 2)?.len() == 1);
    assert!(rt; pending(rt.alloc(), &h[..5], 1)?.len() == 0);
    assert!(rt; pending(rt.alloc(), h, 2)?.len() == 0);
    Ok(())
}

fn two_columns(alloc: Global) -> Result<Schema, Fail> {
    let mut cols = Seq::new(alloc);
    cols.add(Col {
        name: Name::new(alloc, b"id")?,
        kind: ColType::Int,
    })?;
    cols.add(Col {
        name: Name::new(alloc, b"v")?,
        kind: ColType::Text,
    })?;
    let uniques = Seq::new(alloc);
    let indexes = Seq::new(alloc);
    let sort = ColList::new(alloc);
    if !are_within_limits(cols.len(), uniques.as_slice(), indexes.as_slice(), &sort) {
        return Err(Fail::from("limits"));
    }
    Ok(Schema {
        table: Name::new(alloc, b"t")?,
        cols,
        uniques,
        indexes,
        sort,
    })
}

fn aggregates(alloc: Global, aggs: &[Agg]) -> Result<Select, Fail> {
    let aggs = list_of(alloc, aggs)?;
    Ok(Select {
        items: Items::Aggs(aggs),
        pred: Condition::new(alloc, Pred::All)?,
        order: Seq::new(alloc),
        limit: None,
    })
}

// The cells of the first row of an answer, as one text.
fn first_row(alloc: Global, cells: &CellTable) -> Result<String, Fail> {
    let mut text = String::new(alloc);
    if let Some(row) = cells.as_slice().first() {
        for cell in row.as_slice() {
            match cell {
                Cell::Nothing => write!(text, "NULL ")?,
                Cell::Int(number) => write!(text, "{number} ")?,
                Cell::Text(_) => write!(text, "a text ")?,
            }
        }
    }
    Ok(text)
}

#[test]
fn no_rows_are_answered(rt: HostRuntime) -> Result<(), Fail> {
    let alloc = rt.alloc();
    let schema = two_columns(alloc)?;
    let select = aggregates(alloc, &[Agg::Min(0), Agg::Count])?;
    let cells = answer(alloc, &schema, &select, &Seq::new(alloc))?;
    assert!(rt; first_row(alloc, &cells)?.as_str() == "NULL 0 ");
    Ok(())
}

#[test]
fn rows_are_answered(rt: HostRuntime) -> Result<(), Fail> {
    let alloc = rt.alloc();
    let entries = history_of(alloc, &MOVE_RACES_MERGE)?;
    let rows = view(alloc, entries.as_slice(), 2)?;
    let select = aggregates(alloc, &[Agg::Min(0), Agg::Max(0), Agg::Sum(0), Agg::Count])?;
    let cells = answer_of(alloc, &select, &rows)?;
    assert!(rt; first_row(alloc, &cells)?.as_str() == "1 2 3 2 ");
    Ok(())
}
