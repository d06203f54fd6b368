//! One line judged.
ghost use Rattle.std.specs.Prelude.{◌≡◌, false, true, IfOk};
ghost use Rattle.std.specs.Str.{is_utf8};
ghost use Rattle.s2_script.specs.Lines.{is_empty};
ghost use Rattle.s2_script.specs.Script.{IsTold, Judged};

use crate::bytes::{is_empty, is_text};
use crate::inserts::insert;
use crate::misses::Miss;
use crate::verdicts::Verdict;
use s2_judge::{Kind, Known, fault_of};
use s2_line::{Raw, line};
use s2_token::tokens;
use s2_value::Memory;
use std::alloc::{AllocError, Global};

/// The verdict by what is known, on a line of the grammar.
fn told(alloc: Global, known: &Known, raw: Raw) -> Result<Verdict, Memory>
    ensures { IfOk result (λ verdict. IsTold known.now raw verdict) }
{
    match fault_of(alloc, known, &raw)? {
        Some(kind) => Ok(Verdict::Faulty(kind)),
        None => Ok(Verdict::Fine(raw)),
    }
}

/// The verdict on a line of text that isn't empty, by the list of its tokens.
fn by_tokens(alloc: Global, known: &Known, bytes: &[u8]) -> Result<Verdict, Memory>
    requires filled { is_empty bytes.now ≡ false }
    requires text { is_utf8 bytes.now ≡ true }
    ensures { IfOk result (λ verdict. Judged known.now bytes.now verdict) }
{
    match tokens(alloc, bytes) {
        Err(s2_token::Fault::BadToken) => Ok(Verdict::Faulty(Kind::BadToken)),
        Err(s2_token::Fault::Memory) => Err(AllocError),
        Ok(tokens) => match line(alloc, tokens.as_slice()) {
            Err(s2_line::Fault::Syntax) => Ok(Verdict::Faulty(Kind::Syntax)),
            Err(s2_line::Fault::Memory) => Err(AllocError),
            Ok(raw) => told(alloc, known, raw),
        },
    }
}

/// The verdict on a line without its end, after lines that said what is known. It fails only for want of memory.
pub fn judge(alloc: Global, known: &Known, bytes: &[u8]) -> Result<Verdict, Memory>
    ensures { IfOk result (λ verdict. Judged known.now bytes.now verdict) }
{
    if is_empty(bytes) {
        return Ok(Verdict::Nothing);
    }
    if !is_text(bytes) {
        return Ok(Verdict::Faulty(Kind::NotUtf8));
    }
    match insert(alloc, bytes) {
        Ok(raw) => told(alloc, known, raw),
        Err(Miss::Other) => by_tokens(alloc, known, bytes),
        Err(Miss::Memory) => Err(AllocError),
    }
}
