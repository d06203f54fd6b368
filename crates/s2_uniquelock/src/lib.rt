//! Who holds which rows and which unique key values.
//!
//! An open transaction holds the rows of its open writes and the unique key values of these rows. A row and a value have
//! one holder at most. Taking and freeing need no memory: the room is taken before.
#![tactic(auto)]

mod hold;
mod table;
#[cfg(test)]
mod tests;

pub use table::LockTable;
