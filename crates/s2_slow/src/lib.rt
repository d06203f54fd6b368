//! The slow forms: the definitions as plain programs. They fold the whole history at each call; the engine calls none of them, and is compared with them.
#![tactic(auto)]

mod answers;
mod histories;
mod moves;
mod notes;
mod placed;
mod placements;
mod segments;
mod tables;
#[cfg(test)]
mod tests;
mod versions;

pub use answers::{answer, answer_of, kept};
pub use histories::{greatest, is_running, pending, pin_of, sessions, state, view, whole_state};
pub use moves::resting;
pub use notes::placement;
pub use tables::apply;
pub use versions::{number_of, row_at, touches};
