//! Outputs read line by line.
ghost use Rattle.std.specs.Prelude.{◌≡◌, ℕ, IfOk, IfErr};
ghost use Rattle.s2_model.specs.declared.outcomes.Outcome.{Outcome as AnyOutcome};
ghost use Rattle.s2_outread.specs.Expected.{told, at_first};
ghost use Rattle.s2_outread.specs.Lines.{sessions_of};
ghost use Rattle.s2_outread.specs.Outputs.{IsTextOf, IsFault};
ghost use Rattle.s2_outread.specs.Reading.{Gives, one_at};
ghost use Rattle.s2_outread.specs.Taking.{AreAll, IsStopped};

use crate::expected::{Expected, after};
use crate::faults::OutputFault;
use crate::forms::OutputLine;
use crate::lines::line;
use crate::parts::outcome_of;
use crate::sessions::sessions_of;
use crate::stops::Stop;
use s2_model::{Outcome, Script};
use std::alloc::Global;

/// A line that may come next, what is to come after it, and the bytes after it.
#[tactic(auto, unfolding(crate::specs::Reading::one_at))]
fn one<'a, 'b>(
    alloc: Global,
    expected: Expected<'a>,
    bytes: &'b [u8],
) -> Result<(OutputLine, Expected<'a>, &'b [u8]), Stop>
    ensures { Gives (λ x. (x.0, told x.1, x.2.now)) result (one_at (told expected.entry) bytes.entry.now) }
{
    let (line, rest) = line(alloc, bytes)?;
    let next = after(expected, &line).ok_or(Stop::Refused)?;
    Ok((line, next, rest))
}

fn all(alloc: Global, sessions: &[(u8, u64)], bytes: &[u8]) -> Result<Vec<OutputLine>, OutputFault>
    ensures read { IfOk result (λ lines. AreAll (at_first sessions.now) bytes.now lines.items) }
    ensures stopped { IfErr result (λ fault. IsStopped (at_first sessions.now) bytes.now fault) }
{
    let mut lines = Vec::new(alloc);
    let mut expected = Expected::Replies {
        sessions,
        replies: 0,
        rows: 0,
    };
    let mut left = bytes;
    while !left.is_empty() {
        match one(alloc, expected, left) {
            Ok((line, next, rest)) => {
                lines.push(line)?;
                expected = next;
                left = rest;
            }
            Err(Stop::Refused) => return Err(OutputFault::Line(lines.len() as u64 + 1)),
            Err(Stop::Memory) => return Err(OutputFault::Memory),
        }
    }
    match expected {
        Expected::Nothing => Ok(lines),
        _ => Err(OutputFault::Line(lines.len() as u64 + 1)),
    }
}

/// The outcome whose text these bytes are, where it is one of the script: a transcript of each session with a line,
/// with as many replies as the session has lines. The replies are those of `INSERT`, `UPDATE`, `DELETE`, `SELECT`, `BEGIN`,
/// `COMMIT` and `ROLLBACK`, the entries `BEGIN`, `WRITE`, `COMMIT`, `ROLLBACK`, `PIN` and `UNPIN`; whether they fit the
/// script and the history isn't looked at.
///
/// Else the first line, counted from 1, with which no such text goes on; it is the line after the last one where the text
/// ends too early. Bytes after the last line feed count as a line, and such a line fits nowhere.
///
/// The time and the memory are near-linear in the bytes and in the lines of the script.
pub fn read_output(alloc: Global, script: &Script, bytes: &[u8]) -> Result<Outcome, OutputFault>
    // The bytes are the outcome's text.
    ensures read { IfOk result (λ run. IsTextOf script.now bytes.now run) }
    // They are no other outcome's.
    ensures only { IfOk result (λ run. (other : AnyOutcome) → IsTextOf script.now bytes.now other → other ≡ run) }
    // They are no outcome's, and this is the first line with which no text goes on.
    ensures fault { IfErr result (λ fault. IsFault script.now bytes.now fault) }
{
    let sessions = sessions_of(alloc, script.lines.as_slice())?;
    let lines = all(alloc, sessions.as_slice(), bytes)?;
    Ok(outcome_of(alloc, lines)?)
}
