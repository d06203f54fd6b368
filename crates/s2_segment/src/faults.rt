//! What can be wrong with a segment file.
ghost use Rattle.std.specs.Prelude.{◌≡◌};
ghost use Rattle.s2_segment.specs.declared.faults.SegErr.TheVariants as fault;

use s2_colbytes::ColErr;
use s2_segindex::IndexErr;
use std::alloc::{AllocError, AllocFailed};
use thiserror::Error;

/// Why bytes are no segment file of a table, the first fault in the order of reading. `Memory` may come at any point.
#[derive(Clone, Copy, Debug, PartialEq, Eq, Error)]
pub enum SegErr {
    /// A part of the file isn't whole.
    #[error("the file ends too early")]
    Short,
    /// The file doesn't begin with "S2SG".
    #[error("the file is no segment file")]
    BadMagic,
    /// The version isn't 1.
    #[error("the file has an unknown version")]
    BadVersion,
    /// The file has other numbers of columns or keys than the schema.
    #[error("the file is of a table of another shape")]
    BadShape,
    /// The number of rows isn't from 1 to 8,192.
    #[error("the number of rows is out of range")]
    BadCount,
    /// A row number is 0 or stands twice.
    #[error("a row number is 0 or stands twice")]
    BadRows,
    /// The column, counted from 0, has a fault.
    #[error("column {0}: {1}")]
    Column(u8, ColErr),
    /// The index, counted from 0 over unique keys and then indexes, has a fault.
    #[error("index {0}: {1}")]
    Index(u8, IndexErr),
    /// Bytes stand after the last part.
    #[error("bytes stand after the file")]
    Trailing,
    /// A row doesn't stand after the one before it.
    #[error("the rows are out of order")]
    Unordered,
    /// The index, counted as above, isn't that of the rows.
    #[error("index {0} is not that of the rows")]
    WrongIndex(u8),
    /// No memory for reading.
    #[error("out of memory")]
    Memory,
}

impl From<AllocError> for SegErr {
    ghost from_gives = { λ _ e. e ≡ fault.Memory };

    fn from(_err: AllocError) -> SegErr {
        SegErr::Memory
    }
}

impl<T: Drop> From<AllocFailed<T>> for SegErr {
    ghost from_gives = { λ _ e. e ≡ fault.Memory };

    fn from(_err: AllocFailed<T>) -> SegErr {
        SegErr::Memory
    }
}
