//! Parts of a statement.
ghost use Rattle.std.specs.Prelude.{◌≡◌};
ghost use Rattle.std.specs.Option.{option_copied};
ghost use Rattle.s2_judge.specs.Kinds.{tests_of, table_of, wheres_of};

use s2_line::{RawStmt, RawStmtOf};
use s2_pred::{Test, Written};
use s2_token::Bytes;

/// The predicate.
pub fn wheres_of(stmt: &RawStmt) -> Option<&Written>
    ensures { option_copied result ≡ wheres_of stmt.now }
{
    match stmt {
        RawStmtOf::Update { wheres, .. } => wheres.as_ref(),
        RawStmtOf::Delete { wheres, .. } => wheres.as_ref(),
        RawStmtOf::Select { wheres, .. } => wheres.as_ref(),
        RawStmtOf::Aggregate { wheres, .. } => wheres.as_ref(),
        _ => None,
    }
}

/// The tests of the predicate.
pub fn tests_of(stmt: &RawStmt) -> &[Test]
    ensures { result.now ≡ tests_of stmt.now }
{
    match wheres_of(stmt) {
        Some(written) => written.tests(),
        None => &[],
    }
}

/// The table that it names.
pub fn table_of(stmt: &RawStmt) -> Option<&Bytes>
    ensures { option_copied result ≡ table_of stmt.now }
{
    match stmt {
        RawStmtOf::Insert { table, .. } => Some(table),
        RawStmtOf::Update { table, .. } => Some(table),
        RawStmtOf::Delete { table, .. } => Some(table),
        RawStmtOf::Select { table, .. } => Some(table),
        RawStmtOf::Aggregate { table, .. } => Some(table),
        _ => None,
    }
}
