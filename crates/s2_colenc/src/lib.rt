//! Column blocks: read in place, and written in the shortest of their forms.
#![tactic(auto)]

mod blocks;
mod columns;
mod forms;
mod laws;
mod sizes;
mod views;
mod writing;

pub use blocks::write_column;
pub use columns::Column;
pub use forms::Form;
pub use laws::{
    one_block_spells_one_list, read_blocks_are_spelled, shortest_blocks_are_one,
    spelled_blocks_are_read, written_blocks_are_read, written_blocks_are_spelled,
};
pub use views::{Body, Entries};

#[cfg(test)]
mod tests;
