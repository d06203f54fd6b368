//! Statements.
ghost use Rattle.std.specs.Prelude.{◌≡◌, ◌≤◌, [], length, if◌then◌else◌};
ghost use Rattle.s2_line.specs.declared.forms.RawStmtOf.TheVariants as raw;
ghost use Rattle.s2_build.specs.Each.{Gives, each as all_of};
ghost use Rattle.s2_build.specs.Statements.{row_of, flush_of, merge_of, mark_of, stmt_of};
ghost use Rattle.s2_build.specs.Drafts.{IsShallow, AreShallow};

use crate::conditions::condition;
use crate::each::{Values, each};
use crate::selects::{Aggregates, Order, items};
use crate::sets::Sets;
use s2_line::{Phase, RawAgg, RawBy, RawItems, RawSet, RawStmt, RawStmtOf, Tuple};
use s2_model::{Items, Select, Stmt};
use s2_pred::{Unbuilt, Written};
use s2_value::{Col, Row, Seq};
use sqlite_items::Boxed;
use std::alloc::Global;

/// The row that a tuple means.
fn row(alloc: Global, tuple: Tuple) -> Result<Row, Unbuilt>
    ensures { Gives (λ x. x) result (row_of tuple) }
{
    each::<Values>(alloc, &[], tuple.as_slice())
}

/// The rows that tuples mean. Each tuple is let go as soon as its row is made, so that the rows take up the memory of the tuples.
fn rows(alloc: Global, tuples: Seq<Tuple>) -> Result<Seq<Row>, Unbuilt>
    ensures { Gives (λ x. x) result (all_of row_of tuples) }
{
    let mut rows = Seq::from_vec(Vec::with_capacity(alloc, tuples.len())?);
    let mut left = tuples.into_vec().into_iter();
    while let Some(tuple) = left.next() {
        let row = row(alloc, tuple)?;
        rows.add(row)?;
    }
    Ok(rows)
}

fn insert(alloc: Global, tuples: Seq<Tuple>) -> Result<Stmt, Unbuilt>
    ensures { Gives (λ x. x) result (stmt_of [] (raw.Insert [] tuples)) }
{
    Ok(Stmt::Insert(rows(alloc, tuples)?))
}

fn update(
    alloc: Global,
    cols: &[Col],
    sets: &[RawSet],
    wheres: &Option<Written>,
) -> Result<Stmt, Unbuilt>
    requires columns { length cols.now ≤ 16 }
    requires shallow { IsShallow wheres.now }
    ensures { Gives (λ x. x) result (stmt_of cols.now (raw.Update [] sets.now wheres.now)) }
{
    let sets = each::<Sets>(alloc, cols, sets)?;
    let pred = condition(alloc, cols, wheres)?;
    Ok(Stmt::Update(sets, pred))
}

fn delete(alloc: Global, cols: &[Col], wheres: &Option<Written>) -> Result<Stmt, Unbuilt>
    requires columns { length cols.now ≤ 16 }
    requires shallow { IsShallow wheres.now }
    ensures { Gives (λ x. x) result (stmt_of cols.now (raw.Delete [] wheres.now)) }
{
    Ok(Stmt::Delete(condition(alloc, cols, wheres)?))
}

fn select(
    alloc: Global,
    cols: &[Col],
    shown: &RawItems,
    wheres: &Option<Written>,
    order: &[RawBy],
    limit: Option<u64>,
) -> Result<Stmt, Unbuilt>
    requires columns { length cols.now ≤ 16 }
    requires shallow { IsShallow wheres.now }
    ensures { Gives (λ x. x) result (stmt_of cols.now (raw.Select shown.now [] wheres.now order.now limit)) }
{
    let items = items(alloc, cols, shown)?;
    let pred = condition(alloc, cols, wheres)?;
    let order = each::<Order>(alloc, cols, order)?;
    Ok(Stmt::Select(Boxed::new(
        alloc,
        Select {
            items,
            pred,
            order,
            limit,
        },
    )?))
}

fn aggregate(
    alloc: Global,
    cols: &[Col],
    aggregates: &[RawAgg],
    wheres: &Option<Written>,
) -> Result<Stmt, Unbuilt>
    requires columns { length cols.now ≤ 16 }
    requires shallow { IsShallow wheres.now }
    ensures { Gives (λ x. x) result (stmt_of cols.now (raw.Aggregate aggregates.now [] wheres.now)) }
{
    let aggregates = each::<Aggregates>(alloc, cols, aggregates)?;
    let pred = condition(alloc, cols, wheres)?;
    Ok(Stmt::Select(Boxed::new(
        alloc,
        Select {
            items: Items::Aggs(aggregates),
            pred,
            order: Seq::new(alloc),
            limit: None,
        },
    )?))
}

fn flush(step: Phase) -> Stmt
    ensures { result ≡ flush_of step }
{
    match step {
        Phase::Whole => Stmt::Flush,
        Phase::Begin => Stmt::FlushBegin,
        Phase::End => Stmt::FlushEnd,
    }
}

fn merge(step: Phase) -> Stmt
    ensures { result ≡ merge_of step }
{
    match step {
        Phase::Whole => Stmt::Merge,
        Phase::Begin => Stmt::MergeBegin,
        Phase::End => Stmt::MergeEnd,
    }
}

fn mark(n: u64) -> Result<u8, Unbuilt>
    ensures { Gives (λ x. x) result (mark_of n) }
{
    if 1 <= n && n <= 16 {
        Ok(n as u8)
    } else {
        Err(Unbuilt::Unresolved)
    }
}

fn begin(read_only: bool) -> Stmt
    ensures { result ≡ (if read_only then Stmt.BeginReadOnly else Stmt.Begin) }
{
    if read_only {
        Stmt::BeginReadOnly
    } else {
        Stmt::Begin
    }
}

/// The statement that is written.
pub fn stmt(alloc: Global, cols: &[Col], stmt: RawStmt) -> Result<Stmt, Unbuilt>
    requires columns { length cols.now ≤ 16 }
    requires shallow { AreShallow stmt }
    ensures { Gives (λ x. x) result (stmt_of cols.now stmt) }
{
    match stmt {
        RawStmtOf::Insert { tuples, .. } => insert(alloc, tuples),
        RawStmtOf::Update { sets, wheres, .. } => update(alloc, cols, sets.as_slice(), &wheres),
        RawStmtOf::Delete { wheres, .. } => delete(alloc, cols, &wheres),
        RawStmtOf::Select {
            items,
            wheres,
            order,
            limit,
            ..
        } => select(alloc, cols, &items, &wheres, order.as_slice(), limit),
        RawStmtOf::Aggregate {
            aggregates,
            wheres,
            ..
        } => aggregate(alloc, cols, aggregates.as_slice(), &wheres),
        RawStmtOf::Begin { read_only } => Ok(begin(read_only)),
        RawStmtOf::Commit => Ok(Stmt::Commit),
        RawStmtOf::Rollback => Ok(Stmt::Rollback),
        RawStmtOf::Flush(step) => Ok(flush(step)),
        RawStmtOf::Merge(step) => Ok(merge(step)),
        RawStmtOf::Upload => Ok(Stmt::Upload),
        RawStmtOf::Evict => Ok(Stmt::Evict),
        RawStmtOf::Vacuum => Ok(Stmt::Vacuum),
        RawStmtOf::Mark(n) => Ok(Stmt::Mark(mark(n)?)),
        RawStmtOf::After(n) => Ok(Stmt::After(mark(n)?)),
    }
}
