//! The text of what a run gives: replies, entries, sessions and the whole outcome.
#![tactic(auto)]

mod entries;
mod outcomes;
mod pieces;
mod refusals;
mod replies;
#[cfg(test)]
mod tests;

pub use outcomes::{
    print_cells, print_entry, print_history, print_output, print_said, print_transcripts,
};
pub use s2_model::{Outcome, Said, Transcript};
pub use s2_value::Memory;
