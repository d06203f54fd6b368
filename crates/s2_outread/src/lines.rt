//! One line: read, and compared with how it is written.
ghost use Rattle.s2_outread.specs.Reading.{Gives, entry_at, numbered_at, typed_at, line_at};

use crate::changes::what;
use crate::forms::OutputLine;
use crate::heads::{history, reply, session};
use crate::lists::tuple;
use crate::printing::print_line;
use crate::stops::Stop;
use crate::tokens::{after, natural, past};
use s2_model::{Cell, Entry};
use std::alloc::Global;

#[tactic(auto, unfolding(crate::specs::Reading::entry_at))]
fn entry(alloc: Global, actor: u64, bytes: &[u8]) -> Result<OutputLine, Stop>
    ensures { Gives (λ x. x) result (entry_at actor bytes.now) }
{
    if actor > 255 {
        return Err(Stop::Refused);
    }
    let what = what(alloc, bytes)?;
    Ok(OutputLine::Entry(Entry {
        actor: actor as u8,
        what,
    }))
}

/// A line that begins with a number: a reply where a second one follows, else an entry.
#[tactic(auto, unfolding(crate::specs::Reading::numbered_at))]
fn numbered(alloc: Global, bytes: &[u8]) -> Result<OutputLine, Stop>
    ensures { Gives (λ x. x) result (numbered_at bytes.now) }
{
    let (first, rest) = natural(bytes)?;
    let rest = past(b" ", rest)?;
    match natural(rest) {
        Ok((faults, rest)) => reply(first, faults, past(b" ", rest)?),
        Err(Stop::Refused) => entry(alloc, first, rest),
        Err(Stop::Memory) => Err(Stop::Memory),
    }
}

/// The line at the front, read without regard to how it must be written.
#[tactic(auto, unfolding(crate::specs::Reading::typed_at))]
fn typed(alloc: Global, bytes: &[u8]) -> Result<OutputLine, Stop>
    ensures { Gives (λ x. x) result (typed_at bytes.now) }
{
    if let Some(_) = after(b"(", bytes) {
        return Ok(OutputLine::Row(tuple::<Cell>(alloc, bytes)?.0));
    }
    if let Some(rest) = after(b"SESSION ", bytes) {
        return session(rest);
    }
    if let Some(rest) = after(b"HISTORY ", bytes) {
        return history(rest);
    }
    if let Some(_) = after(b"END", bytes) {
        return Ok(OutputLine::End);
    }
    numbered(alloc, bytes)
}

/// The line at the front, and the bytes after it: it is written just so.
#[tactic(auto, unfolding(crate::specs::Reading::line_at))]
pub fn line(alloc: Global, bytes: &[u8]) -> Result<(OutputLine, &[u8]), Stop>
    ensures { Gives (λ x. (x.0, x.1.now)) result (line_at bytes.now) }
{
    let line = typed(alloc, bytes)?;
    let mut text = Vec::new(alloc);
    print_line(&line, &mut text)?;
    let rest = past(text.as_slice(), bytes)?;
    Ok((line, rest))
}
