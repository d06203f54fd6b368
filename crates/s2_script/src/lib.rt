//! Scripts: their bytes as lines, each judged after the lines before it.
#![tactic(auto)]

mod bytes;
mod inserts;
mod judging;
mod laws;
mod misses;
mod reading;
mod stops;
#[cfg(test)]
mod tests;
mod verdicts;

pub use bytes::{cut, without_return};
pub use judging::judge;
pub use laws::one_outcome;
pub use reading::{Lines, read_lines};
pub use stops::Stop;
pub use verdicts::Verdict;
