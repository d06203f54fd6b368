//! A whole input read, and a whole text written.
ghost use Rattle.std.specs.Prelude.{◌≡◌, ◌<◌, ◌≤◌, ℕ, List, Option, Some, [], take, length, vec_len, IfOk, OnOk, OnErr, IsErrOf, MatchBool};
ghost use Rattle.std.specs.Io.KnownBytes.{Appends, Consumes, IsAtEnd};
ghost use Rattle.s2_outside.specs.Told.{Told};
ghost use Rattle.s2_outside.specs.Count.{Rose};

use super::Memory;
use super::sinks::Sink;
use super::sources::{Failed, Source};
use std::alloc::Global;
use std::fmt;

/// Why an input wasn't read whole.
#[derive(Clone, Copy, Debug, PartialEq, Eq)]
pub enum ReadStop {
    /// A call of the source failed.
    Failed,
    /// More bytes came than the limit allows.
    TooLong,
    /// There was no memory for the input.
    Memory,
}

impl fmt::Display for ReadStop {
    fn fmt<W: fmt::Write>(&self, f: &mut fmt::Formatter<W>) -> fmt::Result {
        match self {
            ReadStop::Failed => write!(f, "the source failed"),
            ReadStop::TooLong => write!(f, "the input is too long"),
            ReadStop::Memory => write!(f, "out of memory"),
        }
    }
}

impl std::error::Error for ReadStop {}

impl From<Failed> for ReadStop {
    ghost use Rattle.s2_outside.specs.declared.streams.ReadStop.TheVariants.{Failed};

    ghost from_gives = { λ _ stop. stop ≡ Failed };

    fn from(_fault: Failed) -> ReadStop {
        ReadStop::Failed
    }
}

impl From<Memory> for ReadStop {
    ghost use Rattle.s2_outside.specs.declared.streams.ReadStop.TheVariants.{Memory};

    ghost from_gives = { λ _ stop. stop ≡ Memory };

    fn from(_want: Memory) -> ReadStop {
        ReadStop::Memory
    }
}

/// How many bytes one read asks for.
const PIECE: usize = 65_536;

/// Reads the source to its end, or until more than `limit` bytes have come. After an `Err` a front
/// of the input is gone.
pub fn read_all<S: Source>(alloc: Global, src: &mut S, limit: usize) -> Result<Vec<u8>, ReadStop>
    ensures whole { IfOk result (λ text. Told (S.left src.old) (λ input. text.items ≡ input)) }
    ensures end { OnOk result (Told (S.left src.old) (λ _. S.left src.new ≡ Some [])) }
    ensures within { IfOk result (λ text. vec_len text ≤ limit) }

    ensures too_long { IsErrOf result ReadStop.TooLong
        → Told (S.left src.old) (λ input. limit < length input) }
    ensures failed { IsErrOf result ReadStop.Failed → Rose (S.faults src.old) (S.faults src.new) }
    ensures later { S.faults src.old ≤ S.faults src.new }
{
    let mut room = room_for_piece(alloc)?;
    let piece = room.as_mut_slice();
    let mut text = Vec::new(alloc);
    while read_piece(src, piece, &mut text)? {
        if text.len() > limit {
            return Err(ReadStop::TooLong);
        }
    }
    Ok(text)
}

/// A buffer for one read.
fn room_for_piece(alloc: Global) -> Result<Vec<u8>, Memory>
    ensures { IfOk result (λ room. 0 < vec_len room) }
{
    vec![in alloc; 0u8; PIECE]
}

/// One read, whose bytes go to the end of the text. Tells whether any came.
fn read_piece<S: Source>(
    src: &mut S,
    piece: &mut [u8],
    text: &mut Vec<u8>,
) -> Result<bool, ReadStop>
    requires { 0 < length piece.old }
    // What came so far and what is left are still the whole input.
    ensures joined { OnOk result ((first : Option (List ℕ)) → Consumes first (S.left src.old) text.old.items
        → Consumes first (S.left src.new) text.new.items) }
    ensures came { IfOk result (λ more. MatchBool more (vec_len text.old < vec_len text.new)
        ((text.new.items ≡ text.old.items) × IsAtEnd (S.left src.new))) }

    ensures too_long { IsErrOf result ReadStop.TooLong → ⊥ }
    ensures failed { IsErrOf result ReadStop.Failed → Rose (S.faults src.old) (S.faults src.new) }
    ensures later { S.faults src.old ≤ S.faults src.new }
{
    let n = src.read(piece)?;
    let (front, _) = piece.split_at(n);
    text.extend_from_slice(front)?;
    Ok(n > 0)
}

/// Writes all of the bytes. A fault leaves a front of them written.
pub fn write_all<W: Sink>(out: &mut W, bytes: &[u8]) -> Result<(), Failed>
    ensures whole { OnOk result (Appends (W.taken out.old) (W.taken out.new) bytes.now) }
    ensures front { OnErr result ((n : ℕ) × (n < length bytes.now)
        × Appends (W.taken out.old) (W.taken out.new) (take n bytes.now)) }
    ensures failed { OnErr result (Rose (W.faults out.old) (W.faults out.new)) }
    ensures later { W.faults out.old ≤ W.faults out.new }
{
    let mut done = 0;
    while done < bytes.len() {
        let (_, rest) = bytes.split_at(done);
        done += write_piece(out, rest)?;
    }
    Ok(())
}

/// One write, which takes something or fails.
fn write_piece<W: Sink>(out: &mut W, rest: &[u8]) -> Result<usize, Failed>
    requires { 0 < length rest.now }
    ensures some { IfOk result (λ n. 0 < n) }
    ensures within { IfOk result (λ n. n ≤ length rest.now) }
    ensures took { IfOk result (λ n. Appends (W.taken out.old) (W.taken out.new) (take n rest.now)) }
    ensures failed { OnErr result (Rose (W.faults out.old) (W.faults out.new)) }
    ensures kept { OnErr result (Appends (W.taken out.old) (W.taken out.new) []) }
    ensures later { W.faults out.old ≤ W.faults out.new }
{
    match out.write(rest)? {
        0 => Err(Failed),
        n => Ok(n),
    }
}
