//! The state of the engine: the rows and who holds them, with the history that they follow from.
//!
//! The parts are changed one by one by the crates above, each change with its entry in the log. A state is good where its
//! parts are what its history says. The log has room for the end of each open transaction, so that such an end needs no memory.
#![tactic(auto)]

mod journal;
mod laws;
mod stand;
mod states;
#[cfg(test)]
mod tests;

pub use laws::{good_states_are_sound, good_states_show_rows, good_views_are_distinct};
pub use states::{Snapshot, State};
