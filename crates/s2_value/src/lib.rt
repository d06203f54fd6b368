//! Values, rows, keys and the schema of one table, with their order, their hash and their text.
#![tactic(auto)]

mod columns;
mod hashing;
mod held;
mod laws;
mod lists;
mod names;
mod order;
mod printing;
mod schemas;
#[cfg(test)]
mod tests;
mod texts;
mod values;

pub use columns::{ColList, contains_place};
pub use hashing::key_hash;
pub use laws::{equal_rows_are_one, equal_values_are_one, rows_are_ordered, values_are_ordered};
pub use lists::{Duplicate, Seq};
pub use names::{Digest, Name};
pub use printing::{print_row, print_text};
pub use schemas::{Col, ColDefs, KeyList, Schema, are_within_limits};
pub use texts::{Txt, TxtErr, are_text_bytes};
pub use values::{ColType, Value};

/// Want of memory.
pub type Memory = std::alloc::AllocError;

/// A row: a value for each column.
pub type Row = Seq<Value>;

/// The values of a row at the columns of a key.
pub type Key = Seq<Value>;

/// Values.
pub type ValueList = Seq<Value>;

/// Row numbers.
pub type IdList = Seq<u64>;

/// Segment numbers.
pub type SegList = Seq<u32>;

/// Places in a segment, counted from 0.
pub type OffsetList = Seq<u32>;

/// Rows with their numbers.
pub type TableRows = Seq<(u64, Row)>;
