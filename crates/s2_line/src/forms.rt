//! Lines as they are written, with names that nothing is known of yet.
use s2_pred::Written;
use s2_token::{Bytes, Literal};
use s2_value::{ColType, Seq};

/// A line as it is written. In contracts `raw_words` is its spelling, without a last `;`.
pub type Raw = RawOf<Written>;

/// A statement as it is written.
pub type RawStmt = RawStmtOf<Written>;

/// A line whose predicates are held as `W`.
#[derive(Debug, Drop)]
pub enum RawOf<W> {
    /// `OPTION name value`
    Option {
        name: Bytes,
        value: u64,
    },
    /// `CREATE TABLE table (columns, keys)`
    Create {
        table: Bytes,
        columns: Seq<RawColumn>,
        keys: Seq<RawKey>,
    },
    /// `session: stmt`
    Session {
        session: u64,
        stmt: RawStmtOf<W>,
    },
}

/// A column's definition.
#[derive(Debug, Drop)]
pub struct RawColumn {
    /// Its name.
    pub name: Bytes,
    /// `INT` or `TEXT`.
    pub kind: ColType,
}

/// What a key is for.
#[derive(Clone, Copy, Debug, PartialEq, Eq)]
pub enum KeyUse {
    /// `KEY`
    Index,
    /// `UNIQUE KEY`
    Unique,
    /// `SORT KEY`
    Sort,
}

/// A key's definition.
#[derive(Debug, Drop)]
pub struct RawKey {
    /// What it is for.
    pub purpose: KeyUse,
    /// The names of its columns.
    pub columns: Seq<Bytes>,
}

/// A tuple of an `INSERT`.
pub type Tuple = Seq<Literal>;

/// A statement whose predicate is held as `W`.
#[derive(Debug, Drop)]
pub enum RawStmtOf<W> {
    /// `INSERT INTO table VALUES tuples`
    Insert {
        table: Bytes,
        tuples: Seq<Tuple>,
    },
    /// `UPDATE table SET sets WHERE wheres`
    Update {
        table: Bytes,
        sets: Seq<RawSet>,
        wheres: Option<W>,
    },
    /// `DELETE FROM table WHERE wheres`
    Delete {
        table: Bytes,
        wheres: Option<W>,
    },
    /// `SELECT items FROM table WHERE wheres ORDER BY order LIMIT limit`; an empty `order` isn't written.
    Select {
        items: RawItems,
        table: Bytes,
        wheres: Option<W>,
        order: Seq<RawBy>,
        limit: Option<u64>,
    },
    /// `SELECT aggregates FROM table WHERE wheres`
    Aggregate {
        aggregates: Seq<RawAgg>,
        table: Bytes,
        wheres: Option<W>,
    },
    /// `BEGIN` or `BEGIN READ ONLY`
    Begin {
        read_only: bool,
    },
    /// `COMMIT`
    Commit,
    /// `ROLLBACK`
    Rollback,
    /// `FLUSH`, `FLUSH BEGIN` or `FLUSH END`
    Flush(Phase),
    /// `MERGE`, `MERGE BEGIN` or `MERGE END`
    Merge(Phase),
    /// `UPLOAD`
    Upload,
    /// `EVICT`
    Evict,
    /// `VACUUM`
    Vacuum,
    /// `MARK number`
    Mark(u64),
    /// `AFTER number`
    After(u64),
}

/// What a `SET` puts into a column.
#[derive(Debug, Drop)]
pub enum RawTerm {
    /// A literal.
    Literal(Literal),
    /// A column's value.
    Column(Bytes),
    /// A column's value plus, or with `minus` less, a number.
    Sum {
        name: Bytes,
        minus: bool,
        negative: bool,
        size: u64,
    },
}

/// `name = term`
#[derive(Debug, Drop)]
pub struct RawSet {
    /// The column.
    pub name: Bytes,
    /// What it becomes.
    pub term: RawTerm,
}

/// What a `SELECT` without aggregates gives.
#[derive(Debug, Drop)]
pub enum RawItems {
    /// `*`
    Star,
    /// These columns.
    Columns(Seq<Bytes>),
}

/// How a direction is written.
#[derive(Clone, Copy, Debug, PartialEq, Eq)]
pub enum Direction {
    /// Not at all: rising.
    Plain,
    /// `ASC`
    Asc,
    /// `DESC`
    Desc,
}

/// An item of `ORDER BY`.
#[derive(Debug, Drop)]
pub struct RawBy {
    /// The column.
    pub name: Bytes,
    /// Its direction.
    pub direction: Direction,
}

/// Which aggregate of a column.
#[derive(Clone, Copy, Debug, PartialEq, Eq)]
pub enum Measure {
    /// `SUM`
    Sum,
    /// `MIN`
    Min,
    /// `MAX`
    Max,
}

/// An aggregate.
#[derive(Debug, Drop)]
pub enum RawAgg {
    /// `COUNT(*)`
    Count,
    /// `SUM`, `MIN` or `MAX` of a column.
    Of { measure: Measure, name: Bytes },
}

/// A job as a whole, or only its begin or end.
#[derive(Clone, Copy, Debug, PartialEq, Eq)]
pub enum Phase {
    /// The whole job.
    Whole,
    /// `BEGIN`
    Begin,
    /// `END`
    End,
}
