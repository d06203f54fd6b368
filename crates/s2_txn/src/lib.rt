//! Transactions on the state: each call answers the verdict at the history before it, and appends exactly the verdict's entries.
#![tactic(auto)]

mod duplicates;
mod ends;
mod opens;
mod planning;
mod puts;
mod refusals;
#[cfg(test)]
mod tests;
mod writes;

pub use ends::{commit, rollback};
pub use opens::{begin, begin_read_only};
pub use planning::candidates;
pub use writes::settle;
