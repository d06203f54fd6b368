//! Predicates over rows.
use s2_value::{Value, ValueList};

/// A comparison.
#[derive(Clone, Copy, Debug, PartialEq, Eq)]
pub enum Op {
    /// Equal.
    Eq,
    /// Not equal.
    Ne,
    /// Less.
    Lt,
    /// Less or equal.
    Le,
    /// Greater.
    Gt,
    /// Greater or equal.
    Ge,
}

/// A predicate over a row. Columns are named by their places, from 0.
#[derive(Debug, Drop)]
pub enum Pred {
    /// Every row.
    All,
    /// The column's value stands in this relation to the value.
    Cmp(u8, Op, Value),
    /// The column's value is one of these.
    OneOf(u8, ValueList),
    /// Both.
    And(Box<Pred>, Box<Pred>),
    /// One of the two, or both.
    Or(Box<Pred>, Box<Pred>),
    /// Not this.
    Not(Box<Pred>),
}
