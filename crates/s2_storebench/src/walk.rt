// A walk of two writers through puts, commits, an undo, moves and a cut.
use crate::bed::{Bed, Pair, Writer};
use s2_value::{Row, TableRows, Value};
use std::alloc::Global;

/// A step of the walk.
#[derive(Clone, Copy)]
enum Step {
    Put {
        writer: Writer,
        id: u64,
        pair: Option<Pair>,
    },
    Commit {
        writer: Writer,
        time: u64,
    },
    Undo {
        writer: Writer,
    },
    Place {
        id: u64,
        pair: Pair,
        time: u64,
    },
    End {
        id: u64,
        time: u64,
    },
}

fn put(writer: Writer, id: u64, a: i64, b: i64) -> Step {
    Step::Put {
        writer,
        id,
        pair: Some(Pair { a, b }),
    }
}

fn take(bed: &mut Bed, alloc: Global, step: Step) -> anyhow::Result<()> {
    match step {
        Step::Put { writer, id, pair } => bed.put(alloc, writer, id, pair)?,
        Step::Commit { writer, time } => bed.commit(writer, time),
        Step::Undo { writer } => bed.undo(writer),
        Step::Place { id, pair, time } => bed.place(alloc, id, pair, time)?,
        Step::End { id, time } => bed.end_at(id, time),
    }
    Ok(())
}

// The first writer puts rows 1 and 2. The second changes row 1, and takes that back.
fn puts() -> [Step; 5] {
    let first = Writer::First;
    let second = Writer::Second;
    [
        put(first, 1, 10, 5),
        put(first, 2, 20, 5),
        Step::Commit {
            writer: first,
            time: 2,
        },
        put(second, 1, 11, 5),
        Step::Undo { writer: second },
    ]
}

// The second writer changes row 1 and drops row 2. Row 1 moves out, row 7 moves in, and the first writer changes it.
fn moves() -> [Step; 6] {
    let first = Writer::First;
    let second = Writer::Second;
    [
        put(second, 1, 12, 6),
        Step::Put {
            writer: second,
            id: 2,
            pair: None,
        },
        Step::Commit {
            writer: second,
            time: 5,
        },
        Step::End { id: 1, time: 7 },
        Step::Place {
            id: 7,
            pair: Pair { a: 70, b: 6 },
            time: 8,
        },
        put(first, 7, 71, 6),
    ]
}

fn take_all(bed: &mut Bed, alloc: Global, steps: &[Step]) -> anyhow::Result<()> {
    for step in steps {
        take(bed, alloc, *step)?;
    }
    Ok(())
}

// The number in a column of a row, and 0 where there is none.
fn number_at(row: &[Value], place: usize) -> i64 {
    match row.get(place) {
        Some(Value::Int(n)) => *n,
        _ => 0,
    }
}

fn show_pair(rt: &HostRuntime, id: u64, row: &Row) -> anyhow::Result<()> {
    let row = row.as_slice();
    print!(rt; " {id}=({}, {})", number_at(row, 0), number_at(row, 1))?;
    Ok(())
}

fn show_rows(rt: &HostRuntime, rows: &TableRows) -> anyhow::Result<()> {
    for (id, row) in rows.as_slice() {
        show_pair(rt, *id, row)?;
    }
    println!(rt;)?;
    Ok(())
}

fn show_lent(rt: &HostRuntime, bed: &Bed, actor: u8, r: u64) -> anyhow::Result<()> {
    print!(rt; "lent to actor {actor} at {r}:")?;
    let rows = bed.seen_rows(rt.alloc(), actor, r)?;
    for (id, row) in rows.as_slice() {
        show_pair(rt, *id, row)?;
    }
    println!(rt;)?;
    Ok(())
}

fn show_at(rt: &HostRuntime, bed: &Bed, actor: u8, r: u64) -> anyhow::Result<()> {
    print!(rt; "actor {actor} at {r}:")?;
    show_rows(rt, &bed.visible(rt.alloc(), actor, r)?)
}

// The rows that nobody's open write changes, at five times.
fn show_times(rt: &HostRuntime, bed: &Bed) -> anyhow::Result<()> {
    for r in [1, 2, 5, 7, 8] {
        show_at(rt, bed, 17, r)?;
    }
    Ok(())
}

fn show_key(rt: &HostRuntime, bed: &Bed, j: usize, n: i64) -> anyhow::Result<()> {
    let ids = bed.with_key(rt.alloc(), j, n)?;
    println!(rt; "key {j} of {n}: {:?}", ids.as_slice())?;
    Ok(())
}

fn show_keys(rt: &HostRuntime, bed: &Bed) -> anyhow::Result<()> {
    for n in [10, 11, 12, 71] {
        show_key(rt, bed, 0, n)?;
    }
    show_key(rt, bed, 1, 5)?;
    show_key(rt, bed, 1, 6)
}

fn show_row(rt: &HostRuntime, bed: &Bed, id: u64, actor: u8, r: u64) -> anyhow::Result<()> {
    let begun = bed.begun(id);
    match bed.row(id, actor, r) {
        Some(row) => {
            let a = number_at(row.as_slice(), 0);
            println!(rt; "row {id} for actor {actor} at {r}: {a}, begun {begun:?}")?;
        }
        None => println!(rt; "row {id} for actor {actor} at {r}: none, begun {begun:?}")?,
    }
    Ok(())
}

fn show_changed(rt: &HostRuntime, bed: &Bed, writer: Writer) -> anyhow::Result<()> {
    let ids = bed.changed(rt.alloc(), writer)?;
    println!(rt; "changed by actor {}: {:?}", writer.actor(), ids.as_slice())?;
    Ok(())
}

fn show_taken(rt: &HostRuntime, bed: &Bed, from: u64, r: u64, most: usize) -> anyhow::Result<()> {
    let ids = bed.take_after(rt.alloc(), from, r, most)?;
    println!(rt; "{most} above {from} at {r}: {:?}", ids.as_slice())?;
    Ok(())
}

// Row 7 has an open write, so that it can't be taken.
fn show_open(rt: &HostRuntime, bed: &Bed) -> anyhow::Result<()> {
    show_changed(rt, bed, Writer::First)?;
    show_changed(rt, bed, Writer::Second)?;
    show_taken(rt, bed, 0, 8, 9)
}

// Rows 1 and 2 stand since 2.
fn show_free(rt: &HostRuntime, bed: &Bed) -> anyhow::Result<()> {
    show_taken(rt, bed, 0, 1, 9)?;
    show_taken(rt, bed, 0, 2, 9)?;
    show_taken(rt, bed, 0, 2, 1)?;
    show_taken(rt, bed, 1, 2, 9)
}

// What is there before a cut and after it.
fn show_all(rt: &HostRuntime, bed: &Bed) -> anyhow::Result<()> {
    show_times(rt, bed)?;
    show_at(rt, bed, 1, 8)?;
    show_lent(rt, bed, 1, 8)?;
    show_keys(rt, bed)
}

fn walk(rt: &HostRuntime, bed: &mut Bed) -> anyhow::Result<()> {
    take_all(bed, rt.alloc(), &puts())?;
    show_row(rt, bed, 1, 2, 3)?;
    show_free(rt, bed)?;
    take_all(bed, rt.alloc(), &moves())?;
    show_open(rt, bed)?;
    show_all(rt, bed)?;
    bed.cut(5);
    println!(rt; "cut at 5")?;
    show_all(rt, bed)?;
    show_row(rt, bed, 1, 17, 8)?;
    show_row(rt, bed, 7, 1, 8)
}

/// Walks, and writes what is seen at five times before a cut at 5, and after it.
pub(crate) fn show(rt: &HostRuntime) -> anyhow::Result<()> {
    let mut bed = Bed::new(rt.alloc())?;
    walk(rt, &mut bed)
}
