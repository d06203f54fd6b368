//! Scripts.
ghost use Rattle.std.specs.Prelude.{◌≡◌, true};
ghost use Rattle.s2_model.specs.Limits.{are_options};

use crate::Stmt;
use s2_value::{Schema, Seq};

/// The options of a run, each within its limits.
#[derive(Clone, Copy, Debug, PartialEq, Eq)]
pub struct Options {
    /// The most rows of a segment: 1 to 8,192; 4,096 where it isn't given.
    pub segment_rows: u32,
    /// The rows of a run of the lowest tier: 1 to 65,536; 1,024 where it isn't given.
    pub flush_rows: u32,
    /// How many runs of a tier are merged: 2 to 16; 4 where it isn't given.
    pub fanout: u32,
    /// How many files are kept in the cache: 1 to 32; 16 where it isn't given.
    pub cache: u32,
    /// Whether the workers run beside the sessions.
    pub workers: bool,
    ghost within: { are_options segment_rows flush_rows fanout cache ≡ true },
}

impl Options {
    ghost use Rattle.std.specs.Prelude.{◌≡◌};
    ghost use Rattle.s2_model.specs.Defaults.{default_options};

    /// The options that hold where none is given.
    pub fn new() -> Options
        ensures { result ≡ default_options }
    {
        Options {
            segment_rows: 4096,
            flush_rows: 1024,
            fanout: 4,
            cache: 16,
            workers: true,
        }
    }
}

/// One line of a script: a statement of a session, 1 to 16.
#[derive(Debug, Drop)]
pub struct Line {
    /// The session's number.
    pub session: u8,
    /// The statement.
    pub stmt: Stmt,
}

/// Lines in order.
pub type LineList = Seq<Line>;

/// A script: options, a table, and the statements of the sessions in order.
#[derive(Debug, Drop)]
pub struct Script {
    /// The options.
    pub options: Options,
    /// The table.
    pub schema: Schema,
    /// The statements.
    pub lines: LineList,
}
