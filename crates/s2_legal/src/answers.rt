//! What the judge answers.

/// Whether an outcome is legal, and else its first fault: the entries come first, then the sessions by rising number with their replies in order.
#[derive(Clone, Copy, Debug, PartialEq, Eq)]
pub enum LegalAnswer {
    /// It is that of a legal run.
    Legal,
    /// The entry of this number, counted from 1, is the first that doesn't fit the history before it.
    Entry(u64),
    /// The reply of this session with this number, counted from 1, is the first that the history doesn't bear out.
    /// Behind its last reply the session's end counts as one more: its final fault count is below its last one, or an entry of its number is left that no reply made.
    Reply(u8, u64),
}
