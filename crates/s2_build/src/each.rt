//! What is made of each item of a list.
ghost use Rattle.std.specs.Prelude.{◌≤◌, List, Option, length};
ghost use Rattle.s2_value.specs.declared.schemas.Col.{Col as AnyCol};
ghost use Rattle.s2_pred.specs.Meaning.{place_of, number_of, value_of};
ghost use Rattle.s2_build.specs.Each.{Gives, each};

use s2_pred::Unbuilt;
use s2_token::{Bytes, Literal};
use s2_value::{Col, Seq, Value};
use std::alloc::Global;

/// What the items of a list mean over the columns of a table.
pub trait Part {
    /// An item as it is written.
    type From;

    /// What it means.
    type Made: Drop;

    /// Its meaning.
    ghost meaning: { List AnyCol → Self.From → Option Self.Made };

    /// Makes its meaning.
    fn make(alloc: Global, cols: &[Col], from: &Self::From) -> Result<Self::Made, Unbuilt>
        requires { length cols.now ≤ 16 }
        ensures { Gives (λ x. x) result (meaning cols.now from.now) };
}

/// The meanings of all items.
pub fn each<P: Part>(
    alloc: Global,
    cols: &[Col],
    items: &[P::From],
) -> Result<Seq<P::Made>, Unbuilt>
    requires { length cols.now ≤ 16 }
    ensures { Gives (λ x. x) result (each (P.meaning cols.now) items.now) }
{
    let mut list = Seq::from_vec(Vec::with_capacity(alloc, items.len())?);
    let mut left = items;
    while let [item, rest @ ..] = left {
        let made = P::make(alloc, cols, item)?;
        list.add(made)?;
        left = rest;
    }
    Ok(list)
}

/// The place of a column of this name.
pub fn column(cols: &[Col], name: &[u8]) -> Result<u8, Unbuilt>
    requires { length cols.now ≤ 16 }
    ensures { Gives (λ x. x) result (place_of cols.now name.now) }
{
    match s2_pred::place(cols, name) {
        Some(place) => Ok(place),
        None => Err(Unbuilt::Unresolved),
    }
}

/// The value of a literal.
pub fn literal(alloc: Global, literal: &Literal) -> Result<Value, Unbuilt>
    ensures { Gives (λ x. x) result (value_of literal.now) }
{
    s2_pred::value(alloc, literal)
}

/// The number of this size and sign.
pub fn number(negative: bool, size: u64) -> Result<i64, Unbuilt>
    ensures { Gives (λ x. x) result (number_of negative size) }
{
    match s2_pred::number(negative, size) {
        Some(number) => Ok(number),
        None => Err(Unbuilt::Unresolved),
    }
}

/// The columns of a list of names.
pub struct Columns;

impl Part for Columns {
    type From = Bytes;

    type Made = u8;

    ghost meaning = { place_of };

    fn make(_alloc: Global, cols: &[Col], from: &Bytes) -> Result<u8, Unbuilt> {
        column(cols, from.as_slice())
    }
}

/// The values of a list of literals.
pub struct Values;

impl Part for Values {
    type From = Literal;

    type Made = Value;

    ghost meaning = { λ _ x. value_of x };

    fn make(alloc: Global, _cols: &[Col], from: &Literal) -> Result<Value, Unbuilt> {
        literal(alloc, from)
    }
}
