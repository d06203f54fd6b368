//! Statements.
use crate::Condition;
use s2_value::{Row, Seq, Value};
use sqlite_items::Boxed;

/// What a column is set to, computed from the row as it was.
#[derive(Debug, Drop)]
pub enum SetExpr {
    /// This value.
    Given(Value),
    /// The value of this column.
    Column(u8),
    /// The number of this column plus a number.
    Plus(u8, i64),
    /// The number of this column less a number.
    Minus(u8, i64),
}

/// The columns that an UPDATE sets, each with what it is set to.
pub type SetList = Seq<(u8, SetExpr)>;

/// An aggregate over the rows that match.
#[derive(Clone, Copy, Debug, PartialEq, Eq)]
pub enum Agg {
    /// How many rows there are.
    Count,
    /// The sum of the numbers of this column, in 128 bits.
    Sum(u8),
    /// The least value of this column.
    Min(u8),
    /// The greatest value of this column.
    Max(u8),
}

/// Aggregates.
pub type AggList = Seq<Agg>;

/// Column places, from 0, in the order in which they are shown.
pub type ColPicks = Seq<u8>;

/// What a SELECT shows.
#[derive(Debug, Drop)]
pub enum Items {
    /// All columns.
    Star,
    /// These columns.
    Columns(ColPicks),
    /// One row of these aggregates.
    Aggs(AggList),
}

/// Columns to order by, each with whether its order is turned.
pub type OrderList = Seq<(u8, bool)>;

/// A SELECT.
#[derive(Debug, Drop)]
pub struct Select {
    /// What it shows.
    pub items: Items,
    /// Which rows.
    pub pred: Condition,
    /// In which order; ties, and all rows where there is none, go by row number.
    pub order: OrderList,
    /// At most how many rows.
    pub limit: Option<u64>,
}

/// Rows.
pub type RowList = Seq<Row>;

/// A statement.
#[derive(Debug, Drop)]
pub enum Stmt {
    /// Inserts these rows.
    Insert(RowList),
    /// Sets columns of the rows that match.
    Update(SetList, Condition),
    /// Deletes the rows that match.
    Delete(Condition),
    /// Reads.
    Select(Boxed<Select>),
    /// Begins a transaction.
    Begin,
    /// Begins a read-only transaction.
    BeginReadOnly,
    /// Ends a transaction; its writes take effect.
    Commit,
    /// Ends a transaction; its writes are dropped.
    Rollback,
    /// Makes a segment of rows of the row store.
    Flush,
    /// The first step of a flush.
    FlushBegin,
    /// The last step of a flush.
    FlushEnd,
    /// Merges runs of segments.
    Merge,
    /// The first step of a merge.
    MergeBegin,
    /// The last step of a merge.
    MergeEnd,
    /// Uploads a segment's file to the blob store.
    Upload,
    /// Drops local files of stored segments.
    Evict,
    /// Forgets what no open reader needs.
    Vacuum,
    /// Sets this mark, 1 to 16.
    Mark(u8),
    /// Waits for this mark, 1 to 16.
    After(u8),
}
