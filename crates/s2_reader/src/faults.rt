//! Why bytes are no script.
use s2_judge::Kind;

/// The first fault of a script: its line, counted from 1, and its kind. Line 0 is the script as a whole.
#[derive(Clone, Copy, Debug, PartialEq, Eq)]
pub struct ScriptErr {
    /// The line, from 1; 0 for the whole script.
    pub line: u64,
    /// What is wrong with it, the first kind that applies.
    pub what: Kind,
}

/// Why no script was read.
#[derive(Clone, Copy, Debug, PartialEq, Eq)]
pub enum ScriptFault {
    /// The bytes spell no script.
    Bad(ScriptErr),
    /// There was no memory.
    Memory,
}
