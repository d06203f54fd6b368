//! What is wrong with a line of a script: the kinds of fault in their order.
#![tactic(auto)]

mod columns;
mod faults;
mod jobs;
mod kinds;
mod known;
mod limits;
mod literals;
mod names;
mod options;
mod ranges;
mod repeats;
mod statements;
#[cfg(test)]
mod tests;
mod types;

pub use faults::fault_of;
pub use kinds::Kind;
pub use known::{Job, Known, Table};
