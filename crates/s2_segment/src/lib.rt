//! Segment files: rows in column blocks and index blocks, written, and read in place.
#![tactic(auto)]

mod blocks;
mod cells;
mod columns;
mod copies;
mod faults;
mod head;
mod indexed;
mod indexes;
mod laws;
mod matching;
mod order;
mod owned;
mod rows;
mod stats;
mod view;
mod writing;

pub use faults::SegErr;
pub use laws::{
    indexes_are_of_the_rows, one_file_spells_one_list, read_files_are_spelled,
    spelled_files_are_read, stats_are_of_the_rows,
};
pub use owned::File;
pub use view::View;
pub use writing::{all_fit, are_numbered, are_ordered, write};

#[cfg(test)]
mod bed;
#[cfg(test)]
mod tests;
