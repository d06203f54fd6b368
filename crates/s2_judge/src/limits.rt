//! More or larger than a limit allows.
ghost use Rattle.std.specs.Prelude.{◌≡◌, ◌||◌, IfOk, filter, length, nat_lt};
ghost use Rattle.std.specs.List.{list_any};
ghost use Rattle.std.specs.Option.{option_copied};
ghost use Rattle.s2_pred.specs.Measures.{nesting, comparisons};
ghost use Rattle.s2_judge.specs.Kinds.{table_of, wheres_of, columns_of, is_long_name, has_more, is_unique, is_index, is_sort, is_large_table, has_long_name, is_no_session, is_large_tree, is_large_stmt, has_long_table, is_limit, item_columns};

use crate::columns::{NameQuestion, in_columns, in_names};
use crate::options::is_within;
use crate::statements::{table_of, wheres_of};
use s2_line::{KeyUse, Raw, RawColumn, RawItems, RawKey, RawOf, RawStmt, RawStmtOf};
use s2_pred::Written;
use s2_token::Bytes;
use s2_value::Memory;
use std::alloc::Global;

fn is_long_name(name: &[u8]) -> bool
    ensures { result ≡ is_long_name name.now }
{
    32 < name.len()
}

/// Whether a name is too long.
struct LongName;

impl NameQuestion for LongName {
    ghost answer = { λ _ name. is_long_name name };

    fn ask(&self, name: &[u8]) -> bool {
        is_long_name(name)
    }
}

fn is_unique(key: &RawKey) -> bool
    ensures { result ≡ is_unique key.now.purpose }
{
    match key.purpose {
        KeyUse::Unique => true,
        _ => false,
    }
}

fn is_index(key: &RawKey) -> bool
    ensures { result ≡ is_index key.now.purpose }
{
    match key.purpose {
        KeyUse::Index => true,
        _ => false,
    }
}

fn is_sort(key: &RawKey) -> bool
    ensures { result ≡ is_sort key.now.purpose }
{
    match key.purpose {
        KeyUse::Sort => true,
        _ => false,
    }
}

fn unique_keys(keys: &[RawKey]) -> usize
    ensures { result ≡ length (filter (λ k. is_unique k.purpose) keys.now) }
{
    keys.iter().filter(|key| is_unique(*key)).count()
}

fn indexes(keys: &[RawKey]) -> usize
    ensures { result ≡ length (filter (λ k. is_index k.purpose) keys.now) }
{
    keys.iter().filter(|key| is_index(*key)).count()
}

fn sort_keys(keys: &[RawKey]) -> usize
    ensures { result ≡ length (filter (λ k. is_sort k.purpose) keys.now) }
{
    keys.iter().filter(|key| is_sort(*key)).count()
}

fn has_large_key(keys: &[RawKey]) -> bool
    ensures { result ≡ list_any (λ k. has_more 4 k.columns) keys.now }
{
    keys.iter().any(|key| 4 < key.columns.len())
}

fn is_large_table(columns: &[RawColumn], keys: &[RawKey]) -> bool
    ensures { result ≡ is_large_table columns.now keys.now }
{
    16 < columns.len()
        || 4 < unique_keys(keys)
        || 8 < indexes(keys)
        || 1 < sort_keys(keys)
        || has_large_key(keys)
}

fn has_long_column(columns: &[RawColumn]) -> bool
    ensures { result ≡ list_any (λ c. is_long_name c.name) columns.now }
{
    columns
        .iter()
        .any(|column| is_long_name(column.name.as_slice()))
}

fn has_long_key(keys: &[RawKey]) -> bool
    ensures { result ≡ list_any (λ k. list_any is_long_name k.columns) keys.now }
{
    keys.iter()
        .any(|key| in_names(&LongName, key.columns.as_slice()))
}

fn has_long_name(table: &[u8], columns: &[RawColumn], keys: &[RawKey]) -> bool
    ensures { result ≡ has_long_name table.now columns.now keys.now }
{
    is_long_name(table) || has_long_column(columns) || has_long_key(keys)
}

fn is_no_session(k: u64) -> bool
    ensures { result ≡ is_no_session k }
{
    !is_within(1, 16, k)
}

#[tactic(auto, using(crate::proofs::Walks::over_min))]
fn has_many_comparisons(written: &Written) -> bool
    ensures { result ≡ nat_lt 64 (comparisons written.now) }
{
    64 < written.comparisons()
}

#[tactic(auto, using(crate::proofs::Walks::over_min))]
fn is_deep(alloc: Global, written: &Written) -> Result<bool, Memory>
    ensures { IfOk result (λ b. b ≡ nat_lt 16 (nesting written.now)) }
{
    let nesting = written.nesting(alloc)?;
    Ok(16 < nesting)
}

fn is_large_tree(alloc: Global, wheres: Option<&Written>) -> Result<bool, Memory>
    ensures { IfOk result (λ b. b ≡ is_large_tree (option_copied wheres.entry)) }
{
    match wheres {
        None => Ok(false),
        Some(written) => {
            if has_many_comparisons(written) {
                Ok(true)
            } else {
                is_deep(alloc, written)
            }
        }
    }
}

fn count_items(items: &RawItems) -> usize
    ensures { result ≡ length (item_columns items.now) }
{
    match items {
        RawItems::Star => 0,
        RawItems::Columns(names) => names.len(),
    }
}

fn is_large_stmt(stmt: &RawStmt) -> bool
    ensures { result ≡ is_large_stmt stmt.now }
{
    match stmt {
        RawStmtOf::Select { items, order, .. } => 16 < count_items(items) || 16 < order.len(),
        RawStmtOf::Aggregate { aggregates, .. } => 16 < aggregates.len(),
        RawStmtOf::Mark(n) => is_no_session(*n),
        RawStmtOf::After(n) => is_no_session(*n),
        _ => false,
    }
}

fn has_long_table(table: Option<&Bytes>) -> bool
    ensures { result ≡ has_long_table (option_copied table.entry) }
{
    match table {
        None => false,
        Some(table) => is_long_name(table.as_slice()),
    }
}

fn is_large_session(alloc: Global, session: u64, stmt: &RawStmt) -> Result<bool, Memory>
    ensures { IfOk result (λ b. b ≡ (is_no_session session || has_long_table (table_of stmt.now) || list_any is_long_name (columns_of stmt.now) || is_large_stmt stmt.now || is_large_tree (wheres_of stmt.now))) }
{
    if is_no_session(session) {
        Ok(true)
    } else if has_long_table(table_of(stmt)) {
        Ok(true)
    } else if in_columns(&LongName, stmt) {
        Ok(true)
    } else if is_large_stmt(stmt) {
        Ok(true)
    } else {
        is_large_tree(alloc, wheres_of(stmt))
    }
}

/// Whether the line has more or larger than a limit allows. It fails only for want of memory.
pub fn is_limit(alloc: Global, line: &Raw) -> Result<bool, Memory>
    ensures { IfOk result (λ b. b ≡ is_limit line.now) }
{
    match line {
        RawOf::Option { name, .. } => Ok(is_long_name(name.as_slice())),
        RawOf::Create {
            table,
            columns,
            keys,
        } => {
            let (columns, keys) = (columns.as_slice(), keys.as_slice());
            Ok(has_long_name(table.as_slice(), columns, keys) || is_large_table(columns, keys))
        }
        RawOf::Session { session, stmt } => is_large_session(alloc, *session, stmt),
    }
}
