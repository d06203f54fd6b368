//! The inverted index of a segment: the distinct keys of its rows, each with the offsets of the rows that have it.
#![tactic(auto)]

mod building;
mod collecting;
mod faults;
mod groups;
mod index;
mod keys;
mod laws;
mod search;

pub use building::build;
pub use faults::IndexErr;
pub use index::Index;
pub use keys::{after_key, after_value, cmp_value};
pub use laws::{
    built_blocks_are_spelled, groups_have_all_places, groups_rise, one_block_spells_one_list,
    read_blocks_are_spelled, spelled_blocks_are_read,
};
pub use search::{count_of, group_from};

#[cfg(test)]
mod tests;
