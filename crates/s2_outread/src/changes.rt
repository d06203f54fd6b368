//! Changes, and what an entry does.
ghost use Rattle.s2_outread.specs.Reading.{Gives, put_at, change_at, changes_at, word_at, what_at};

use crate::lists::{Item, list, tuple};
use crate::stops::Stop;
use crate::tokens::{after, natural, past};
use s2_model::{Change, ChangeList, What};
use s2_value::{Seq, Value};
use std::alloc::Global;

#[tactic(auto, unfolding(crate::specs::Reading::put_at))]
fn put(alloc: Global, bytes: &[u8]) -> Result<(Change, &[u8]), Stop>
    ensures { Gives (λ x. (x.0, x.1.now)) result (put_at bytes.now) }
{
    let (id, rest) = natural(bytes)?;
    let (row, rest) = tuple::<Value>(alloc, past(b" ", rest)?)?;
    Ok((Change::Put(id, row), rest))
}

impl Item for Change {
    ghost at = { change_at };

    #[tactic(auto, unfolding(crate::specs::Reading::change_at))]
    fn read(alloc: Global, bytes: &[u8]) -> Result<(Change, &[u8]), Stop> {
        match after(b"PUT ", bytes) {
            Some(rest) => put(alloc, rest),
            None => {
                let (id, rest) = natural(past(b"DROP ", bytes)?)?;
                Ok((Change::Drop(id), rest))
            }
        }
    }
}

#[tactic(auto, unfolding(crate::specs::Reading::changes_at))]
fn changes(alloc: Global, bytes: &[u8]) -> Result<ChangeList, Stop>
    ensures { Gives (λ x. x) result (changes_at bytes.now) }
{
    match after(b"\n", bytes) {
        Some(_) => Ok(Seq::new(alloc)),
        None => Ok(list::<Change>(alloc, bytes)?.0),
    }
}

/// What an entry does that is a word alone.
#[tactic(auto, unfolding(crate::specs::Reading::word_at))]
fn word(bytes: &[u8]) -> Result<What, Stop>
    ensures { Gives (λ x. x) result (word_at bytes.now) }
{
    if let Some(_) = after(b"COMMIT\n", bytes) {
        return Ok(What::Commit);
    }
    if let Some(_) = after(b"BEGIN\n", bytes) {
        return Ok(What::Begin);
    }
    if let Some(_) = after(b"ROLLBACK\n", bytes) {
        return Ok(What::Rollback);
    }
    if let Some(_) = after(b"PIN\n", bytes) {
        return Ok(What::Pin);
    }
    if let Some(_) = after(b"UNPIN\n", bytes) {
        return Ok(What::Unpin);
    }
    Err(Stop::Refused)
}

/// What an entry does. These are the kinds of entry that are read.
#[tactic(auto, unfolding(crate::specs::Reading::what_at))]
pub fn what(alloc: Global, bytes: &[u8]) -> Result<What, Stop>
    ensures { Gives (λ x. x) result (what_at bytes.now) }
{
    match after(b"WRITE ", bytes) {
        Some(rest) => Ok(What::Write(changes(alloc, rest)?)),
        None => word(bytes),
    }
}
