//! The entries of the history.
use s2_value::{Duplicate, IdList, Memory, OffsetList, Row, SegList, Seq};
use sqlite_items::Boxed;

/// What a write does with one row number.
#[derive(Debug, Drop)]
pub enum Change {
    /// The row of this number is now this one.
    Put(u64, Row),
    /// There is no row of this number any more.
    Drop(u64),
}

impl Duplicate for Change {
    fn copy(&self) -> Result<Self, Memory> {
        match self {
            Change::Put(number, row) => Ok(Change::Put(*number, row.copy()?)),
            Change::Drop(number) => Ok(Change::Drop(*number)),
        }
    }
}

/// The changes of one write, by rising row number.
pub type ChangeList = Seq<Change>;

/// Places of rows in segments, each a segment number and an offset from 0.
pub type PlaceList = Seq<(u32, u32)>;

/// New segments, each its number and its row numbers in file order.
pub type NewSegList = Seq<(u32, IdList)>;

/// A flush: a new segment made of rows of the row store.
#[derive(Debug, Drop)]
pub struct FlushNote {
    /// The segment's number.
    pub seg: u32,
    /// The timestamp at which its rows were read.
    pub base: u64,
    /// Its row numbers in file order.
    pub rows: IdList,
    /// The offsets of the rows that are marked deleted from its birth.
    pub marked: OffsetList,
}

/// A merge: new segments made of the rows of old ones.
#[derive(Debug, Drop)]
pub struct MergeNote {
    /// The timestamp at which the rows were read.
    pub base: u64,
    /// The segments that it replaces.
    pub olds: SegList,
    /// The segments that it makes.
    pub news: NewSegList,
    /// The places that are marked deleted from their birth.
    pub marked: PlaceList,
}

/// The twelve kinds of entry.
#[derive(Debug, Drop)]
pub enum What {
    /// A transaction begins.
    Begin,
    /// Open writes.
    Write(ChangeList),
    /// The actor's open writes take effect.
    Commit,
    /// The actor's open writes are dropped.
    Rollback,
    /// A read-only transaction begins: its reads are at this entry's timestamp.
    Pin,
    /// A read-only transaction ends.
    Unpin,
    /// Rows at these places move into the row store; the places are marked.
    Move(PlaceList),
    /// A segment is made of rows of the row store.
    Flush(Boxed<FlushNote>),
    /// Segments are replaced by new ones.
    Merge(Boxed<MergeNote>),
    /// The segment's file is in the blob store.
    Upload(u32),
    /// The local files of these segments are dropped.
    Evict(SegList),
    /// What no timestamp from this one on needs is forgotten.
    Vacuum(u64),
}

/// One entry of the history: who made it, and what it is. Sessions are the actors 1 to 16; 17 flushes, 18 merges, 19 uploads.
#[derive(Debug, Drop)]
pub struct Entry {
    /// The actor's number.
    pub actor: u8,
    /// What the entry is.
    pub what: What,
}

/// Entries, the oldest first.
pub type EntryList = Seq<Entry>;
