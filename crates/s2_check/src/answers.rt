//! What the checker answers.
use s2_judge::Kind;

/// What the checker answers to an input.
#[derive(Clone, Copy, Debug, PartialEq, Eq)]
pub enum Checked {
    /// The output is legal for the script.
    Legal,
    /// This entry of the history, counted from 1, is the first that doesn't fit the history before it.
    Entry(u64),
    /// This reply of this session, counted from 1, is the first fault of the replies. The number after the last reply stands for
    /// a final fault count below the last one, or an entry of the session that no reply made.
    Reply(u8, u64),
    /// This line of the output, counted from 1, is the first that no output of the script has there.
    NotOutput(u64),
    /// The script has its first fault in this line, counted from 1, or is too long, at line 0.
    BadScript(u64, Kind),
}
