//! Tokens and literals.
use s2_value::Seq;

/// Bytes of a name or a text.
pub type Bytes = Seq<u8>;

/// A word of the language, which no name may be. The last nine are kept for later.
#[derive(Clone, Copy, Debug, PartialEq, Eq)]
pub enum Keyword {
    Create,
    Table,
    Int,
    Text,
    Unique,
    Key,
    Sort,
    Option,
    Insert,
    Into,
    Values,
    Update,
    Set,
    Where,
    Delete,
    From,
    Select,
    Order,
    By,
    Asc,
    Desc,
    Limit,
    Count,
    Sum,
    Min,
    Max,
    And,
    Or,
    Not,
    In,
    Begin,
    Read,
    Only,
    Commit,
    Rollback,
    Flush,
    End,
    Merge,
    Upload,
    Evict,
    Vacuum,
    Mark,
    After,
    Null,
    Is,
    Group,
    Ignore,
    Replace,
    On,
    Duplicate,
    Draft,
    Settle,
}

/// A symbol.
#[derive(Clone, Copy, Debug, PartialEq, Eq)]
pub enum Symbol {
    /// `(`
    Open,
    /// `)`
    Close,
    /// `,`
    Comma,
    /// `;`
    Semicolon,
    /// `:`
    Colon,
    /// `=`
    Equal,
    /// `<>`, and `!=` too
    NotEqual,
    /// `<`
    Less,
    /// `<=`
    AtMost,
    /// `>`
    Greater,
    /// `>=`
    AtLeast,
    /// `+`
    Plus,
    /// `-`
    Minus,
    /// `*`
    Star,
}

/// A token of a line.
#[derive(Debug, Drop)]
pub enum Token {
    /// A keyword, in any case.
    Key(Keyword),
    /// A word that is no keyword, byte for byte.
    Name(Bytes),
    /// A number without a sign; from 2^64 - 1 on it is 2^64 - 1.
    Number(u64),
    /// A text without its quotes, each doubled quote as one.
    Text(Bytes),
    /// A symbol.
    Sign(Symbol),
}

/// A literal as it is written.
#[derive(Debug, Drop)]
pub enum Literal {
    /// A number with `-` before it or not.
    Number { negative: bool, size: u64 },
    /// A text.
    Text(Bytes),
}
