//! The lines of an output.
use s2_model::{CellList, Entry, Said};

/// A line of an output.
#[derive(Debug, Drop)]
pub enum OutputLine {
    /// A session begins: its number, how many replies it has, and its last fault count.
    Session {
        session: u8,
        count: u64,
        faults: u64,
    },
    /// A reply that has one line.
    Said(Said),
    /// A reply with rows: its timestamp, its fault count, and how many rows follow.
    Rows {
        r: u64,
        faults: u64,
        count: u64,
    },
    /// A row of an answer.
    Row(CellList),
    /// The history begins: how many entries follow.
    History(u64),
    /// An entry.
    Entry(Entry),
    /// The end.
    End,
}
