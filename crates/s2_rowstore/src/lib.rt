//! The row store: for each row its versions by time, and one open write.
#![tactic(auto)]

mod chain;
mod copies;
mod ends;
mod ids;
mod laws;
mod lines;
mod notes;
mod numbers;
mod present;
mod ready;
mod store;
mod unnoted;
mod versions;

pub use chain::{Slot, Version};
pub use laws::rising_lists_are_one;
pub use store::Rowstore;
