//! What can be wrong with an index block.
use thiserror::Error;

/// Why bytes are no index block, the first fault in the order of reading.
#[derive(Clone, Copy, Debug, PartialEq, Eq, Error)]
pub enum IndexErr {
    /// The number of groups, the starts or a part of a group isn't whole.
    #[error("the index ends too early")]
    Short,
    /// A start isn't where its group stands.
    #[error("a start is not where its group stands")]
    BadStart,
    /// The bytes of a key aren't of its columns' types.
    #[error("a key is not of its columns' types")]
    BadKey,
    /// A key isn't above the one before it.
    #[error("the keys do not rise")]
    Unsorted,
    /// A group has no offsets, or they don't rise, or one isn't below the number of rows.
    #[error("the offsets of a key are out of order or out of range")]
    BadOffset,
    /// Bytes stand after the last group.
    #[error("bytes stand after the index")]
    Trailing,
}
