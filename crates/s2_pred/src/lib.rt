//! Predicates as they are written: read from tokens, judged and printed.
#![tactic(auto)]

mod building;
mod faults;
mod literals;
mod measures;
mod printing;
mod reading;
mod signs;
mod stacks;
#[cfg(test)]
mod tests;
mod types;
mod values;
mod written;
mod yard;

pub use faults::Fault;
pub use printing::{TokenList, print_pred, printed_reads_back};
pub use reading::{no_end_inside, one_predicate, pred};
pub use types::{Join, LiteralList, Test};
pub use values::{Unbuilt, number, place, value};
pub use written::Written;
