// Nanoseconds a call, at growing numbers of rows.
use crate::bed::{Bed, Pair, Writer, number};
use s2_value::Key;
use std::alloc::Global;
use std::collections::BTreeMap;
use std::time::{CpuClock, Duration};

/// How many calls are timed together: at every size as many, so that each row of a store is touched in each of them.
const CALLS: u64 = 100_000;

/// How many rows are placed in a store that has the size already.
const MORE: u64 = 1_000;

/// After so many changes the versions that ended are cut.
const CUT: u64 = 1_000;

/// In which order the rows of a store are touched: all of them, or a few.
#[derive(Clone, Copy)]
enum Order {
    /// By rising number, as a scan and a script of inserts go.
    Rising,
    /// In no order, so that a row is seldom near the one before it.
    Scattered,
    /// Twenty rows far apart, over and over, so that what they need stays in the processor's caches whatever the size of the store.
    Few,
}

impl Order {
    fn name(self) -> &'static str {
        match self {
            Order::Rising => "by rising number",
            Order::Scattered => "in no order",
            Order::Few => "of which twenty are touched",
        }
    }

    // The i-th of the row numbers 1 to `rows`.
    fn row(self, i: u64, rows: u64) -> u64 {
        if rows == 0 {
            return 1;
        }
        match self {
            Order::Rising => i % rows + 1,
            Order::Scattered => i.wrapping_mul(7_919) % rows + 1,
            Order::Few => (i % 20).wrapping_mul(7_919) % rows + 1,
        }
    }
}

// The pair of row `id`: a number of its own under the unique key, and one of many rows' under the index.
fn pair(id: u64) -> Pair {
    let a = (id % 1_000_000) as i64;
    Pair { a, b: a / 10 }
}

// Places the rows of these numbers, one a call.
fn place(bed: &mut Bed, alloc: Global, from: u64, to: u64) -> anyhow::Result<()> {
    for id in from..to {
        bed.place(alloc, id, pair(id), 1)?;
    }
    Ok(())
}

// Changes rows, each in a write and a commit of its own, and cuts the versions that ended now and then. The time of the last commit.
#[inline(never)]
fn change(bed: &mut Bed, alloc: Global, order: Order, rows: u64, from: u64) -> anyhow::Result<u64> {
    let mut time = from;
    for i in 0..CALLS {
        let id = order.row(i, rows);
        time = time.saturating_add(1);
        bed.put(alloc, Writer::First, id, Some(pair(id)))?;
        bed.commit(Writer::First, time);
        if i % CUT == 0 {
            bed.cut(time);
        }
    }
    Ok(time)
}

// Looks rows up, and counts those that there are.
#[inline(never)]
fn look_up(bed: &Bed, order: Order, rows: u64) -> u64 {
    let mut found = 0u64;
    for i in 0..CALLS {
        if bed.row(order.row(i, rows), 17, u64::MAX).is_some() {
            found = found.saturating_add(1);
        }
    }
    found
}

// Looks keys up, and counts the rows that have them.
#[inline(never)]
fn by_key(bed: &Bed, alloc: Global, order: Order, rows: u64) -> anyhow::Result<u64> {
    let mut found = 0u64;
    for i in 0..CALLS {
        let ids = bed.with_key(alloc, 0, pair(order.row(i, rows)).a)?;
        found = found.saturating_add(ids.len() as u64);
    }
    Ok(found)
}

// Writes the nanoseconds of a call since `start`.
fn line(
    rt: &HostRuntime,
    call: &str,
    order: Order,
    rows: u64,
    start: Duration,
    calls: u64,
) -> anyhow::Result<()> {
    let spent = rt.thread_cpu_time()?.saturating_sub(start).as_nanos();
    let nanos = spent.checked_div(u128::from(calls)).unwrap_or(0);
    println!(rt; "{rows} rows {}: {call}: {nanos} ns", order.name())?;
    Ok(())
}

#[inline(never)]
fn time_place(rt: &HostRuntime, bed: &mut Bed, rows: u64) -> anyhow::Result<()> {
    let from = rows.saturating_add(1);
    let start = rt.thread_cpu_time()?;
    place(bed, rt.alloc(), from, from.saturating_add(MORE))?;
    line(rt, "place", Order::Rising, rows, start, MORE)
}

fn time_change(
    rt: &HostRuntime,
    bed: &mut Bed,
    order: Order,
    rows: u64,
    from: u64,
) -> anyhow::Result<u64> {
    let start = rt.thread_cpu_time()?;
    let time = change(bed, rt.alloc(), order, rows, from)?;
    line(rt, "put_slots and commit", order, rows, start, CALLS)?;
    Ok(time)
}

fn time_look_up(rt: &HostRuntime, bed: &Bed, order: Order, rows: u64) -> anyhow::Result<()> {
    let start = rt.thread_cpu_time()?;
    let seen = look_up(bed, order, rows);
    line(rt, "visible_row", order, rows, start, CALLS)?;
    println!(rt; "{seen} rows seen")?;
    Ok(())
}

fn time_by_key(rt: &HostRuntime, bed: &Bed, order: Order, rows: u64) -> anyhow::Result<()> {
    let start = rt.thread_cpu_time()?;
    let named = by_key(bed, rt.alloc(), order, rows)?;
    line(rt, "with_key", order, rows, start, CALLS)?;
    println!(rt; "{named} rows named")?;
    Ok(())
}

fn time_order(
    rt: &HostRuntime,
    bed: &mut Bed,
    order: Order,
    rows: u64,
    from: u64,
) -> anyhow::Result<u64> {
    let time = time_change(rt, bed, order, rows, from)?;
    time_look_up(rt, bed, order, rows)?;
    time_by_key(rt, bed, order, rows)?;
    Ok(time)
}

/// Writes the figures for so many rows.
pub(crate) fn at_size(rt: &HostRuntime, rows: u64) -> anyhow::Result<()> {
    let mut bed = Bed::new(rt.alloc())?;
    place(&mut bed, rt.alloc(), 1, rows.saturating_add(1))?;
    time_place(rt, &mut bed, rows)?;
    let time = time_order(rt, &mut bed, Order::Rising, rows, 1)?;
    let time = time_order(rt, &mut bed, Order::Scattered, rows, time)?;
    time_order(rt, &mut bed, Order::Few, rows, time)?;
    Ok(())
}

// A plain ordered map of so many numbers, and one of as many keys.
fn plain_maps(
    alloc: Global,
    rows: u64,
) -> anyhow::Result<(BTreeMap<u64, u64>, BTreeMap<Key, u64>)> {
    let mut numbers = BTreeMap::new(alloc);
    let mut keys = BTreeMap::new(alloc);
    for id in 1..rows.saturating_add(1) {
        numbers.insert(id, id)?;
        keys.insert(number(alloc, pair(id).a)?, id)?;
    }
    Ok((numbers, keys))
}

#[inline(never)]
fn look_up_number(numbers: &BTreeMap<u64, u64>, order: Order, rows: u64) -> u64 {
    let mut found = 0u64;
    for i in 0..CALLS {
        if numbers.contains_key(&order.row(i, rows)) {
            found = found.saturating_add(1);
        }
    }
    found
}

#[inline(never)]
fn look_up_key(
    keys: &BTreeMap<Key, u64>,
    alloc: Global,
    order: Order,
    rows: u64,
) -> anyhow::Result<u64> {
    let mut found = 0u64;
    for i in 0..CALLS {
        if keys.contains_key(&number(alloc, pair(order.row(i, rows)).a)?) {
            found = found.saturating_add(1);
        }
    }
    Ok(found)
}

fn time_plain(
    rt: &HostRuntime,
    numbers: &BTreeMap<u64, u64>,
    keys: &BTreeMap<Key, u64>,
    order: Order,
    rows: u64,
) -> anyhow::Result<()> {
    let start = rt.thread_cpu_time()?;
    let seen = look_up_number(numbers, order, rows);
    line(rt, "a plain map's number", order, rows, start, CALLS)?;
    let start = rt.thread_cpu_time()?;
    let named = look_up_key(keys, rt.alloc(), order, rows)?;
    line(rt, "a plain map's key", order, rows, start, CALLS)?;
    println!(rt; "{seen} rows seen, {named} rows named")?;
    Ok(())
}

fn plain_at_size(rt: &HostRuntime, rows: u64) -> anyhow::Result<()> {
    let (numbers, keys) = plain_maps(rt.alloc(), rows)?;
    for order in [Order::Rising, Order::Scattered, Order::Few] {
        time_plain(rt, &numbers, &keys, order, rows)?;
    }
    Ok(())
}

/// Writes the figures for 1,000, 10,000 and 100,000 rows, and beside them those of plain ordered maps.
pub(crate) fn show(rt: &HostRuntime) -> anyhow::Result<()> {
    for rows in [1_000, 10_000, 100_000] {
        at_size(rt, rows)?;
        plain_at_size(rt, rows)?;
    }
    Ok(())
}
