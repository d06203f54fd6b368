//! Replies.
use s2_value::{Digest, SegList, Seq, Txt};
use sqlite_items::Boxed;

/// A value of an answer.
#[derive(Debug, Drop)]
pub enum Cell {
    /// An aggregate without a value.
    Nothing,
    /// A number of up to 128 bits.
    Int(i128),
    /// A text.
    Text(Txt),
}

/// One row of an answer.
pub type CellList = Seq<Cell>;

/// The rows of an answer.
pub type CellTable = Seq<CellList>;

/// Why a statement is refused.
#[derive(Debug, Drop)]
pub enum Refusal {
    /// COMMIT or ROLLBACK without an open transaction.
    NoTransaction,
    /// BEGIN inside a transaction.
    AlreadyOpen,
    /// A statement that a read-only transaction doesn't take.
    ReadOnly,
    /// The history has no room for more.
    LogFull,
    /// More than 65,536 rows inserted, matched or deleted.
    TooManyRows,
    /// A row that the statement matches is held by another.
    Locked {
        row: u64,
        holder: u8,
    },
    /// A sum leaves 64 bits.
    OutOfRange {
        row: u64,
    },
    /// A key value of a changed row is held by another.
    LockedValue {
        key: u8,
        row: u64,
        holder: u8,
    },
    /// A changed row has the unique key value of another row.
    Duplicate {
        key: u8,
        row: u64,
    },
    /// A needed file could not be read.
    ReadFault {
        count: u64,
    },
    /// A file could not be written.
    WriteFault {
        count: u64,
    },
    /// An input of a merge has died since its base.
    Overtaken {
        seg: u32,
        base: u64,
    },
    /// No memory.
    Memory,
    /// The mark isn't set yet.
    NotYet,
    /// The file that was read isn't the one that was put.
    Damaged {
        seg: u32,
        kept: Boxed<Digest>,
        found: Boxed<Digest>,
    },
    /// The bytes that were read are no file of the segment.
    Unreadable {
        seg: u32,
    },
}

/// What a statement answers.
#[derive(Debug, Drop)]
pub enum Reply {
    /// How many rows were inserted, matched or deleted.
    Changed(u32),
    /// It is done.
    Done,
    /// The rows that were asked for.
    Rows(CellTable),
    /// A job has begun.
    Begun,
    /// A flush made this segment.
    Flushed(u32),
    /// A merge made these segments.
    Merged(SegList),
    /// This segment was uploaded.
    Uploaded(u32),
    /// So many local files were dropped.
    Evicted(u32),
    /// What stood before this timestamp is forgotten.
    Vacuumed(u64),
    /// There was nothing to do.
    Nothing,
    /// The job came too late: its base, or its segment.
    Late(u64),
    /// The statement was refused.
    Refused(Refusal),
}
