//! Refusals: their numbers, names and fields.
ghost use Rattle.s2_outread.specs.Reading.{Gives, short_at, held_at, locked_at, out_of_range_at, locked_value_at, duplicate_at, numbered_refusal, refusal_at};

use crate::stops::Stop;
use crate::tokens::{below, natural, past};
use s2_model::Refusal;

/// A number below 256 that another follows, and the bytes from that one on.
#[tactic(auto, unfolding(crate::specs::Reading::short_at))]
fn short(bytes: &[u8]) -> Result<(u8, &[u8]), Stop>
    ensures { Gives (λ x. (x.0, x.1.now)) result (short_at bytes.now) }
{
    let (number, rest) = below(256, bytes)?;
    Ok((number as u8, past(b" ", rest)?))
}

/// A row and its holder.
#[tactic(auto, unfolding(crate::specs::Reading::held_at))]
fn held(bytes: &[u8]) -> Result<(u64, u8), Stop>
    ensures { Gives (λ x. x) result (held_at bytes.now) }
{
    let (row, rest) = natural(bytes)?;
    let (holder, _) = below(256, past(b" ", rest)?)?;
    Ok((row, holder as u8))
}

#[tactic(auto, unfolding(crate::specs::Reading::locked_at))]
fn locked(bytes: &[u8]) -> Result<Refusal, Stop>
    ensures { Gives (λ x. x) result (locked_at bytes.now) }
{
    let (row, holder) = held(past(b" Locked ", bytes)?)?;
    Ok(Refusal::Locked { row, holder })
}

#[tactic(auto, unfolding(crate::specs::Reading::out_of_range_at))]
fn out_of_range(bytes: &[u8]) -> Result<Refusal, Stop>
    ensures { Gives (λ x. x) result (out_of_range_at bytes.now) }
{
    let (row, _) = natural(past(b" OutOfRange ", bytes)?)?;
    Ok(Refusal::OutOfRange { row })
}

#[tactic(auto, unfolding(crate::specs::Reading::locked_value_at))]
fn locked_value(bytes: &[u8]) -> Result<Refusal, Stop>
    ensures { Gives (λ x. x) result (locked_value_at bytes.now) }
{
    let (key, rest) = short(past(b" LockedValue ", bytes)?)?;
    let (row, holder) = held(rest)?;
    Ok(Refusal::LockedValue { key, row, holder })
}

#[tactic(auto, unfolding(crate::specs::Reading::duplicate_at))]
fn duplicate(bytes: &[u8]) -> Result<Refusal, Stop>
    ensures { Gives (λ x. x) result (duplicate_at bytes.now) }
{
    let (key, rest) = short(past(b" Duplicate ", bytes)?)?;
    let (row, _) = natural(rest)?;
    Ok(Refusal::Duplicate { key, row })
}

/// The refusal of a number, by what stands after the number. These are the kinds of refusal that are read.
#[tactic(auto, unfolding(crate::specs::Reading::numbered_refusal))]
fn numbered(code: u64, rest: &[u8]) -> Result<Refusal, Stop>
    ensures { Gives (λ x. x) result (numbered_refusal code rest.now) }
{
    match code {
        1 => Ok(Refusal::NoTransaction),
        2 => Ok(Refusal::AlreadyOpen),
        3 => Ok(Refusal::ReadOnly),
        4 => Ok(Refusal::LogFull),
        5 => Ok(Refusal::TooManyRows),
        6 => locked(rest),
        7 => out_of_range(rest),
        8 => locked_value(rest),
        9 => duplicate(rest),
        13 => Ok(Refusal::Memory),
        _ => Err(Stop::Refused),
    }
}

/// A refusal, read without regard to how its name must be written.
#[tactic(auto, unfolding(crate::specs::Reading::refusal_at))]
pub fn refusal(bytes: &[u8]) -> Result<Refusal, Stop>
    ensures { Gives (λ x. x) result (refusal_at bytes.now) }
{
    let (code, rest) = natural(bytes)?;
    numbered(code, rest)
}
