//! How a refusal is written: its number, its name and its fields.
ghost use Rattle.std.specs.Prelude.{codes, ◌≡◌, ◌++◌, OnOk};
ghost use Rattle.s2_model.specs.OutputText.{field, refusal_text, digest_field};

use crate::pieces::{put, put_digest, put_pair, put_word};
use s2_model::Refusal;
use s2_value::{Digest, Memory};

/// Writes a refusal: its number, its name and its fields.
pub(crate) fn put_refusal(out: &mut Vec<u8>, refusal: &Refusal) -> Result<(), Memory>
    ensures { OnOk result (out.new.items ≡ out.old.items ++ refusal_text refusal.now) }
{
    match refusal {
        Refusal::NoTransaction => put(out, b"1 NoTransaction"),
        Refusal::AlreadyOpen => put(out, b"2 AlreadyOpen"),
        Refusal::ReadOnly => put(out, b"3 ReadOnly"),
        Refusal::LogFull => put(out, b"4 LogFull"),
        Refusal::TooManyRows => put(out, b"5 TooManyRows"),
        Refusal::Locked { row, holder } => put_two(out, b"6 Locked", *row, u64::from(*holder)),
        Refusal::OutOfRange { row } => put_word(out, b"7 OutOfRange", *row),
        Refusal::LockedValue { key, row, holder } => {
            put_locked_value(out, u64::from(*key), *row, u64::from(*holder))
        }
        Refusal::Duplicate { key, row } => put_two(out, b"9 Duplicate", u64::from(*key), *row),
        Refusal::ReadFault { count } => put_word(out, b"10 ReadFault", *count),
        Refusal::WriteFault { count } => put_word(out, b"11 WriteFault", *count),
        Refusal::Overtaken { seg, base } => put_two(out, b"12 Overtaken", u64::from(*seg), *base),
        Refusal::Memory => put(out, b"13 Memory"),
        Refusal::NotYet => put(out, b"14 NotYet"),
        Refusal::Damaged { seg, kept, found } => put_damaged(out, *seg, kept.get(), found.get()),
        Refusal::Unreadable { seg } => put_word(out, b"16 Unreadable", u64::from(*seg)),
    }
}

fn put_two(out: &mut Vec<u8>, word: &[u8], first: u64, second: u64) -> Result<(), Memory>
    ensures { OnOk result (out.new.items ≡ out.old.items ++ (word.now ++ (field first ++ field second))) }
{
    put(out, word)?;
    put_pair(out, first, second)
}

fn put_locked_value(out: &mut Vec<u8>, key: u64, row: u64, holder: u64) -> Result<(), Memory>
    ensures { OnOk result (out.new.items ≡ out.old.items ++ (codes "8 LockedValue" ++ (field key ++ (field row ++ field holder)))) }
{
    put_word(out, b"8 LockedValue", key)?;
    put_pair(out, row, holder)
}

fn put_damaged(out: &mut Vec<u8>, seg: u32, kept: &Digest, found: &Digest) -> Result<(), Memory>
    ensures { OnOk result (out.new.items ≡ out.old.items ++ (codes "15 Damaged" ++ (field seg ++ (digest_field kept.now ++ digest_field found.now)))) }
{
    put_word(out, b"15 Damaged", u64::from(seg))?;
    put_digest(out, kept)?;
    put_digest(out, found)
}
