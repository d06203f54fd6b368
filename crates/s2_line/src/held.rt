//! The predicate of a line, taken out and put in.
ghost use Rattle.std.specs.Prelude.{◌≡◌};
ghost use Rattle.s2_line.specs.Reading.{stmt_wheres, stmt_with, raw_wheres, raw_with};

use crate::forms::{RawOf, RawStmtOf};

fn stmt_wheres<W: Copy>(stmt: &RawStmtOf<W>) -> Option<W>
    ensures { result ≡ stmt_wheres stmt.now }
{
    match stmt {
        RawStmtOf::Update { wheres, .. } => *wheres,
        RawStmtOf::Delete { wheres, .. } => *wheres,
        RawStmtOf::Select { wheres, .. } => *wheres,
        RawStmtOf::Aggregate { wheres, .. } => *wheres,
        _ => None,
    }
}

fn stmt_with<V: Drop, W: Drop>(stmt: RawStmtOf<V>, held: Option<W>) -> RawStmtOf<W>
    ensures { result ≡ stmt_with held stmt }
{
    match stmt {
        RawStmtOf::Insert { table, tuples } => RawStmtOf::Insert { table, tuples },
        RawStmtOf::Update { table, sets, .. } => RawStmtOf::Update {
            table,
            sets,
            wheres: held,
        },
        RawStmtOf::Delete { table, .. } => RawStmtOf::Delete {
            table,
            wheres: held,
        },
        RawStmtOf::Select {
            items,
            table,
            order,
            limit,
            ..
        } => RawStmtOf::Select {
            items,
            table,
            wheres: held,
            order,
            limit,
        },
        RawStmtOf::Aggregate {
            aggregates,
            table,
            ..
        } => RawStmtOf::Aggregate {
            aggregates,
            table,
            wheres: held,
        },
        RawStmtOf::Begin { read_only } => RawStmtOf::Begin { read_only },
        RawStmtOf::Commit => RawStmtOf::Commit,
        RawStmtOf::Rollback => RawStmtOf::Rollback,
        RawStmtOf::Flush(phase) => RawStmtOf::Flush(phase),
        RawStmtOf::Merge(phase) => RawStmtOf::Merge(phase),
        RawStmtOf::Upload => RawStmtOf::Upload,
        RawStmtOf::Evict => RawStmtOf::Evict,
        RawStmtOf::Vacuum => RawStmtOf::Vacuum,
        RawStmtOf::Mark(mark) => RawStmtOf::Mark(mark),
        RawStmtOf::After(mark) => RawStmtOf::After(mark),
    }
}

/// A line's predicate.
pub fn wheres_of<W: Copy>(line: &RawOf<W>) -> Option<W>
    ensures { result ≡ raw_wheres line.now }
{
    match line {
        RawOf::Session { stmt, .. } => stmt_wheres(stmt),
        _ => None,
    }
}

/// The same line with this predicate, if its form has one.
pub fn with_wheres<V: Drop, W: Drop>(line: RawOf<V>, held: Option<W>) -> RawOf<W>
    ensures { result ≡ raw_with held line }
{
    match line {
        RawOf::Option { name, value } => RawOf::Option { name, value },
        RawOf::Create {
            table,
            columns,
            keys,
        } => RawOf::Create {
            table,
            columns,
            keys,
        },
        RawOf::Session { session, stmt } => RawOf::Session {
            session,
            stmt: stmt_with(stmt, held),
        },
    }
}
