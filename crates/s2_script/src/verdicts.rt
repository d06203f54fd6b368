//! The verdict on a line.
use s2_judge::Kind;
use s2_line::Raw;

/// The verdict on a line.
#[derive(Debug, Drop)]
pub enum Verdict {
    /// The line is empty.
    Nothing,
    /// It has this fault, the first that applies.
    Faulty(Kind),
    /// It has none.
    Fine(Raw),
}
