//! Names, columns and tables.
ghost use Rattle.std.specs.Prelude.{◌≡◌, not};
ghost use Rattle.std.specs.List.{list_any};
ghost use Rattle.std.specs.Option.{option_copied};
ghost use Rattle.std.specs.Str.{bytes_eq};
ghost use Rattle.s2_judge.specs.Kinds.{has_column, is_other_table, is_unknown_in, is_unknown_name};

use crate::columns::{NameQuestion, in_columns, in_names};
use crate::known::{Known, Table};
use crate::statements::table_of;
use s2_line::{Raw, RawColumn, RawKey, RawOf, RawStmt};
use s2_token::Bytes;

/// Whether two names are one.
pub fn is_same(a: &[u8], b: &[u8]) -> bool
    ensures { result ≡ bytes_eq a.now b.now }
{
    a == b
}

fn has_column(columns: &[RawColumn], name: &[u8]) -> bool
    ensures { result ≡ has_column columns.now name.now }
{
    columns
        .iter()
        .any(|column| is_same(column.name.as_slice(), name))
}

/// Whether a name is none of these columns.
#[derive(Clone, Copy)]
struct Unknown<'a> {
    columns: &'a [RawColumn],
}

impl<'a> NameQuestion for Unknown<'a> {
    ghost answer = { λ u name. not (has_column u.columns.now name) };

    fn ask(&self, name: &[u8]) -> bool {
        !has_column(self.columns, name)
    }
}

fn is_other_table(table: &Table, name: Option<&Bytes>) -> bool
    ensures { result ≡ is_other_table table.now (option_copied name.entry) }
{
    match name {
        Some(name) => !is_same(table.name.as_slice(), name.as_slice()),
        None => false,
    }
}

fn is_unknown_in(table: &Option<Table>, stmt: &RawStmt) -> bool
    ensures { result ≡ is_unknown_in table.now stmt.now }
{
    match table {
        Some(table) => {
            let question = Unknown {
                columns: table.columns.as_slice(),
            };
            is_other_table(table, table_of(stmt)) || in_columns(&question, stmt)
        }
        None => false,
    }
}

fn is_unknown_key(columns: &[RawColumn], key: &RawKey) -> bool
    ensures { result ≡ list_any (λ name. not (has_column columns.now name)) key.now.columns }
{
    let question = Unknown { columns };
    in_names(&question, key.columns.as_slice())
}

fn has_unknown_key(columns: &[RawColumn], keys: &[RawKey]) -> bool
    ensures { result ≡ list_any (λ k. list_any (λ name. not (has_column columns.now name)) k.columns) keys.now }
{
    keys.iter().any(|key| is_unknown_key(columns, key))
}

/// Whether the line names another table, or no column of the table.
pub fn is_unknown_name(known: &Known, line: &Raw) -> bool
    ensures { result ≡ is_unknown_name known.now line.now }
{
    match line {
        RawOf::Option { .. } => false,
        RawOf::Create { columns, keys, .. } => {
            has_unknown_key(columns.as_slice(), keys.as_slice())
        }
        RawOf::Session { stmt, .. } => is_unknown_in(&known.table, stmt),
    }
}
