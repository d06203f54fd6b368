//! How a run of the program ends.
use crate::Text;
use s2_check::Checked;
use s2_judge::Kind;

/// The ways in which a run of the program can end.
#[derive(Drop)]
pub enum Ending {
    /// The words are none that the program takes.
    Usage,
    /// The words ask for help: the text of it.
    Help(String),
    /// The source failed.
    SourceFault,
    /// The input is no script: its first faulty line, counted from 1, with its first fault, or line 0 where it is too long.
    NoScript(u64, Kind),
    /// There was no memory.
    NoMemory,
    /// The script was run: the text of its outcome.
    Output(Text),
    /// The input was checked.
    Judged(Checked),
}
