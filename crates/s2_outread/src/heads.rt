//! Replies, and the lines that begin with a word.
ghost use Rattle.s2_outread.specs.Reading.{Gives, answer_at, reply_at, session_at, history_at};

use crate::forms::OutputLine;
use crate::refusals::refusal;
use crate::stops::Stop;
use crate::tokens::{after, below, natural, past};
use s2_model::{Reply, Said};

/// A reply that has one line. These are the kinds of reply that are read.
#[tactic(auto, unfolding(crate::specs::Reading::answer_at))]
fn answer(bytes: &[u8]) -> Result<Reply, Stop>
    ensures { Gives (λ x. x) result (answer_at bytes.now) }
{
    if let Some(rest) = after(b"OK ", bytes) {
        return Ok(Reply::Changed(below(4294967296, rest)?.0 as u32));
    }
    if let Some(_) = after(b"OK\n", bytes) {
        return Ok(Reply::Done);
    }
    Ok(Reply::Refused(refusal(past(b"ERROR ", bytes)?)?))
}

/// A reply after its timestamp and its fault count.
#[tactic(auto, unfolding(crate::specs::Reading::reply_at))]
pub fn reply(r: u64, faults: u64, bytes: &[u8]) -> Result<OutputLine, Stop>
    ensures { Gives (λ x. x) result (reply_at r faults bytes.now) }
{
    if let Some(rest) = after(b"ROWS ", bytes) {
        let (count, _) = natural(rest)?;
        return Ok(OutputLine::Rows { r, faults, count });
    }
    let reply = answer(bytes)?;
    Ok(OutputLine::Said(Said { r, faults, reply }))
}

/// The line of a session after its first word.
#[tactic(auto, unfolding(crate::specs::Reading::session_at))]
pub fn session(bytes: &[u8]) -> Result<OutputLine, Stop>
    ensures { Gives (λ x. x) result (session_at bytes.now) }
{
    let (session, rest) = below(256, bytes)?;
    let (count, rest) = natural(past(b" ", rest)?)?;
    let (faults, _) = natural(past(b" ", rest)?)?;
    Ok(OutputLine::Session {
        session: session as u8,
        count,
        faults,
    })
}

/// The line of the history after its first word.
#[tactic(auto, unfolding(crate::specs::Reading::history_at))]
pub fn history(bytes: &[u8]) -> Result<OutputLine, Stop>
    ensures { Gives (λ x. x) result (history_at bytes.now) }
{
    let (count, _) = natural(bytes)?;
    Ok(OutputLine::History(count))
}
