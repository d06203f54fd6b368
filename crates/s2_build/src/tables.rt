//! `CREATE TABLE`.
ghost use Rattle.std.specs.Prelude.{◌≡◌, ◌≤◌, ◌∷◌, ◌++◌, [], Some, None, length, if◌then◌else◌};
ghost use Rattle.s2_value.specs.Columns.{has_place};
ghost use Rattle.s2_build.specs.Each.{Gives};
ghost use Rattle.s2_build.specs.Tables.{parts_of, name_of, col_of, key_on, key_of, same_use, keys_for, first_key, keyed, created, within_limits};

use crate::each::{Part, column, each};
use s2_line::{KeyUse, RawColumn, RawKey};
use s2_pred::Unbuilt;
use s2_token::Bytes;
use s2_value::{
    Col, ColDefs, ColList, Duplicate, KeyList, Name, Schema, Seq, are_within_limits, contains_place,
};
use std::alloc::Global;

fn name(alloc: Global, bytes: &[u8]) -> Result<Name, Unbuilt>
    ensures { Gives (λ x. x) result (name_of bytes.now) }
{
    if 1 <= bytes.len() && bytes.len() <= 32 {
        Ok(Name::new(alloc, bytes)?)
    } else {
        Err(Unbuilt::Unresolved)
    }
}

/// The columns of a table.
struct Defs;

impl Part for Defs {
    type From = RawColumn;

    type Made = Col;

    ghost meaning = { λ _ c. col_of c };

    fn make(alloc: Global, _cols: &[Col], from: &RawColumn) -> Result<Col, Unbuilt> {
        let name = name(alloc, from.name.as_slice())?;
        Ok(Col {
            name,
            kind: from.kind,
        })
    }
}

fn pushed(list: &mut ColList, place: u8) -> Result<(), Unbuilt>
    ensures { Gives (λ _. list.new) result (if has_place place list.old then None else Some (list.old ++ place ∷ [])) }
{
    if contains_place(list.as_slice(), place) {
        return Err(Unbuilt::Unresolved);
    }
    match list.push(place) {
        Ok(()) => Ok(()),
        Err(_place) => Err(Unbuilt::Memory),
    }
}

/// The columns of a key.
fn key(alloc: Global, cols: &[Col], names: &[Bytes]) -> Result<ColList, Unbuilt>
    requires { length cols.now ≤ 16 }
    ensures { Gives (λ x. x) result (key_on cols.now [] names.now) }
{
    let mut list = ColList::new(alloc);
    let mut left = names;
    while let [name, rest @ ..] = left {
        let place = column(cols, name.as_slice())?;
        pushed(&mut list, place)?;
        left = rest;
    }
    Ok(list)
}

fn same_use(a: KeyUse, b: KeyUse) -> bool
    ensures { result ≡ same_use a b }
{
    match (a, b) {
        (KeyUse::Index, KeyUse::Index) => true,
        (KeyUse::Unique, KeyUse::Unique) => true,
        (KeyUse::Sort, KeyUse::Sort) => true,
        _ => false,
    }
}

/// The keys for a use.
fn keys(alloc: Global, purpose: KeyUse, cols: &[Col], keys: &[RawKey]) -> Result<KeyList, Unbuilt>
    requires { length cols.now ≤ 16 }
    ensures { Gives (λ x. x) result (keys_for purpose cols.now keys.now) }
{
    let mut list = Seq::new(alloc);
    let mut left = keys;
    while let [raw, rest @ ..] = left {
        if same_use(purpose, raw.purpose) {
            let made = key(alloc, cols, raw.columns.as_slice())?;
            list.add(made)?;
        }
        left = rest;
    }
    Ok(list)
}

fn first_key(alloc: Global, keys: &KeyList) -> Result<ColList, Unbuilt>
    ensures { Gives (λ x. x) result (Some (first_key keys.now)) }
{
    match keys.as_slice() {
        [first, ..] => Ok(first.copy()?),
        [] => Ok(ColList::new(alloc)),
    }
}

/// The schema of these parts, where they are within its limits.
fn within_limits(
    table: Name,
    cols: ColDefs,
    uniques: KeyList,
    indexes: KeyList,
    sort: ColList,
) -> Result<Schema, Unbuilt>
    ensures { Gives parts_of result (within_limits (record { table = table; cols = cols; uniques = uniques; indexes = indexes; sort = sort })) }
{
    if are_within_limits(cols.len(), uniques.as_slice(), indexes.as_slice(), &sort) {
        Ok(Schema {
            table,
            cols,
            uniques,
            indexes,
            sort,
        })
    } else {
        Err(Unbuilt::Unresolved)
    }
}

fn keyed(alloc: Global, table: Name, cols: ColDefs, raw: &[RawKey]) -> Result<Schema, Unbuilt>
    requires { length cols ≤ 16 }
    ensures { Gives parts_of result (keyed table cols raw.now) }
{
    let uniques = keys(alloc, KeyUse::Unique, cols.as_slice(), raw)?;
    let indexes = keys(alloc, KeyUse::Index, cols.as_slice(), raw)?;
    let sorts = keys(alloc, KeyUse::Sort, cols.as_slice(), raw)?;
    let sort = first_key(alloc, &sorts)?;
    within_limits(table, cols, uniques, indexes, sort)
}

/// The schema of a table.
pub fn schema(
    alloc: Global,
    table: &[u8],
    columns: &[RawColumn],
    keys: &[RawKey],
) -> Result<Schema, Unbuilt>
    ensures { Gives parts_of result (created table.now columns.now keys.now) }
{
    let table = name(alloc, table)?;
    let cols = each::<Defs>(alloc, &[], columns)?;
    if 1 <= cols.len() && cols.len() <= 16 {
        keyed(alloc, table, cols, keys)
    } else {
        Err(Unbuilt::Unresolved)
    }
}
