//! The judge.
ghost use Rattle.std.specs.Prelude.{◌≡◌, [], IfOk, MatchOption, true};
ghost use Rattle.s2_model.specs.History.{history, is_session};
ghost use Rattle.s2_legal.specs.Built.{IsBuilt};
ghost use Rattle.s2_legal.specs.World.{AreTables};
ghost use Rattle.s2_legal.specs.Faults.{IsWhole, transcript_of, Judged, IsFaultOf};

use crate::answers::LegalAnswer;
use crate::fits::first_unfit;
use crate::sessions::first_wrong;
use s2_model::{Outcome, Script, Transcript};
use s2_value::Memory;
use std::alloc::Global;

/// The session's transcript, if it has one.
fn transcript_of(transcripts: &[Transcript], k: u8) -> Option<&Transcript>
    ensures { MatchOption result (transcript_of k transcripts.now ≡ record { session = k; faults = 0; said = [] }) (λ t. transcript_of k transcripts.now ≡ t.now) }
{
    let mut left = transcripts;
    while let [transcript, rest @ ..] = left {
        if transcript.session == k {
            return Some(transcript);
        }
        left = rest;
    }
    None
}

/// The first wrong step of one session.
fn fault_of(alloc: Global, script: &Script, run: &Outcome, k: u8) -> Result<Option<u64>, Memory>
    requires whole { IsWhole script.now run.now }
    requires built { IsBuilt script.now run.now }
    requires tables { AreTables (history run.now.history) }
    requires session { is_session k ≡ true }
    ensures { IfOk result (IsFaultOf script.now run.now k) }
{
    let schema = &script.schema;
    let lines = script.lines.as_slice();
    let h = run.history.as_slice();
    match transcript_of(run.transcripts.as_slice(), k) {
        Some(t) => first_wrong(alloc, schema, lines, h, k, t.said.as_slice(), t.faults),
        None => first_wrong(alloc, schema, lines, h, k, &[], 0),
    }
}

/// Whether the outcome is that of a legal run of the script, and else the first fault: first the entries by whether each fits the history before it,
/// then the sessions by rising number with their replies in order, where each session's end counts as one more.
/// Its condition is that the transcripts are, by rising number, those of the sessions with a line, each with as many replies as lines,
/// and that entries and statements are of the built kinds. The `Err` is want of memory.
/// It goes once over the history, and once more for each session with a line. A change in an entry costs look-ups of its row in the table and among the open writes of each session;
/// an INSERT costs the rows that it inserts, an UPDATE, DELETE or SELECT the rows of the table, and a SELECT with an order sorts once the rows that it finds. Each row that is put costs
/// for each unique key a few look-ups among the rows that have its value, and one among the open writes of each session.
pub fn legal(alloc: Global, script: &Script, run: &Outcome) -> Result<LegalAnswer, Memory>
    requires whole { IsWhole script.now run.now }
    requires built { IsBuilt script.now run.now }
    ensures { IfOk result (Judged script.now run.now) }
{
    if let Some(entry) = first_unfit(alloc, &script.schema, run.history.as_slice())? {
        return Ok(LegalAnswer::Entry(entry));
    }
    for k in 1..17u8 {
        if let Some(reply) = fault_of(alloc, script, run, k)? {
            return Ok(LegalAnswer::Reply(k, reply));
        }
    }
    Ok(LegalAnswer::Legal)
}
