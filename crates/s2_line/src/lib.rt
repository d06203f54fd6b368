//! The lines of a script as they are written: read from tokens, their names unresolved.
#![tactic(auto)]

mod changes;
mod fault;
mod forms;
mod held;
mod lines;
mod lists;
mod names;
mod predicates;
mod selects;
mod statements;
mod steps;
mod tables;
#[cfg(test)]
mod tests;
mod tuples;

pub use fault::Fault;
pub use forms::{
    Direction, KeyUse, Measure, Phase, Raw, RawAgg, RawBy, RawColumn, RawItems, RawKey, RawOf,
    RawSet, RawStmt, RawStmtOf, RawTerm, Tuple,
};
pub use lines::{line, one_line};
