//! The kinds of fault.

/// What is wrong with a line, in the order in which it is looked for.
#[derive(Clone, Copy, Debug, PartialEq, Eq)]
pub enum Kind {
    /// The script has more bytes than a script may have.
    TooLong,
    /// The line isn't UTF-8.
    NotUtf8,
    /// At some place no token begins.
    BadToken,
    /// The tokens are no line of the grammar.
    Syntax,
    /// A number is outside 64 bits.
    LiteralRange,
    /// A text has more than 255 bytes.
    LiteralLong,
    /// The line stands at the wrong place.
    Misplaced,
    /// An unknown option, one given twice, or a value outside its limits.
    OptionValue,
    /// More or larger than a limit allows.
    Limit,
    /// Another table, or no column of the table.
    UnknownName,
    /// A name stands twice where it may stand once.
    RepeatedName,
    /// A value or a column of the wrong type, or too few or too many values.
    WrongType,
    /// A step of a job at the wrong place.
    JobOrder,
    /// A form of line that isn't built.
    NotBuilt,
}
