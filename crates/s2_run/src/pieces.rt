//! A text in pieces of memory, and how it is written.
ghost use Rattle.std.specs.Prelude.{◌≡◌, ◌++◌, ◌<◌, ◌≤◌, ℕ, [], length, take, IfOk, OnOk, OnErr};
ghost use Rattle.std.specs.List.{flat_map};
ghost use Rattle.std.specs.Io.KnownBytes.{Appends};
ghost use Rattle.s2_outside.specs.Count.{Rose};
ghost use Rattle.s2_model.specs.OutputText.{entry_text};

use s2_histproof::print_entry;
use s2_model::Entry;
use s2_outside::{Failed, Sink, write_all};
use s2_value::{Memory, Seq};
use std::alloc::Global;
use std::marker::Model;
use std::mem;

/// How many bytes a piece has room for when it is made. So small a block is mostly found in memory that was let go before.
const PIECE: usize = 65_536;

/// How many bytes make a piece full, which leaves room for a last line in it.
const FULL: usize = 61_440;

/// A text in pieces. In contracts it is the list of its bytes, those of all pieces one after another.
///
/// It grows a piece at a time, so it wants no large block of memory, and what is there already stays where it is.
#[derive(Drop)]
pub struct Text {
    pieces: Vec<Seq<u8>>,
    last: Vec<u8>,
}

impl Model for Text {
    ghost use Rattle.std.specs.Prelude.{ℕ, List, ◌++◌};
    ghost use Rattle.std.specs.List.{flat_map};

    ghost Value = { List ℕ };

    ghost view = { λ t. flat_map (λ piece. piece) t.pieces.items ++ t.last.items };
}

impl Text {
    /// The empty text, with room for a piece. The `Err` is want of memory.
    pub fn new(alloc: Global) -> Result<Text, Memory>
        ensures { IfOk result (λ text. text ≡ []) }
    {
        Ok(Text::from_vec(Vec::with_capacity(alloc, PIECE)?))
    }

    /// A text of one piece, which has these bytes. It takes no memory.
    pub fn from_vec(bytes: Vec<u8>) -> Text
        ensures { result ≡ bytes.items }
    {
        let alloc = *bytes.allocator();
        Text {
            pieces: Vec::new(alloc),
            last: bytes,
        }
    }

    /// Adds these bytes at the end. The `Err` is want of memory.
    pub fn put(&mut self, bytes: &[u8]) -> Result<(), Memory>
        ensures { OnOk result (self.new ≡ self.old ++ bytes.now) }
    {
        self.last.extend_from_slice(bytes)?;
        Ok(())
    }

    /// Adds the line of an entry, after its actor. The `Err` is want of memory.
    pub fn put_entry(&mut self, entry: &Entry) -> Result<(), Memory>
        ensures { OnOk result (self.new ≡ self.old ++ entry_text entry.now) }
    {
        self.turn()?;
        print_entry(entry, &mut self.last)?;
        Ok(())
    }

    // Begins a new piece where the last one is full.
    fn turn(&mut self) -> Result<(), Memory>
        ensures { OnOk result (self.new ≡ self.old) }
    {
        if self.last.len() < FULL {
            return Ok(());
        }
        let alloc = *self.last.allocator();
        self.follow(Vec::with_capacity(alloc, PIECE)?)
    }

    // Adds a piece at the end.
    fn follow(&mut self, next: Vec<u8>) -> Result<(), Memory>
        ensures { OnOk result (self.new ≡ self.old ++ next.items) }
    {
        let full = mem::replace(&mut self.last, next);
        self.pieces.push(Seq::from_vec(full))?;
        Ok(())
    }

    /// Moves the pieces of the other text behind its own; no byte of them is copied. The `Err` is want of memory.
    pub fn append(&mut self, other: Text) -> Result<(), Memory>
        ensures { OnOk result (self.new ≡ self.old ++ other) }
    {
        let Text { mut pieces, last } = other;
        let own = mem::replace(&mut self.last, last);
        self.pieces.push(Seq::from_vec(own))?;
        self.pieces.append(&mut pieces)?;
        Ok(())
    }
}

fn write_pieces<W: Sink>(out: &mut W, pieces: &[Seq<u8>]) -> Result<(), Failed>
    ensures whole { OnOk result (Appends (W.taken out.old) (W.taken out.new) (flat_map (λ piece. piece) pieces.now)) }
    ensures front { OnErr result ((n : ℕ) × (n < length (flat_map (λ piece. piece) pieces.now))
        × Appends (W.taken out.old) (W.taken out.new) (take n (flat_map (λ piece. piece) pieces.now))) }
    ensures failed { OnErr result (Rose (W.faults out.old) (W.faults out.new)) }
    ensures later { W.faults out.old ≤ W.faults out.new }
{
    for piece in pieces {
        write_all(out, piece.as_slice())?;
    }
    Ok(())
}

/// Writes the pieces of the text in turn. A fault leaves a front of the text written.
pub(crate) fn write_text<W: Sink>(out: &mut W, text: &Text) -> Result<(), Failed>
    ensures whole { OnOk result (Appends (W.taken out.old) (W.taken out.new) text.now) }
    ensures front { OnErr result ((n : ℕ) × (n < length text.now)
        × Appends (W.taken out.old) (W.taken out.new) (take n text.now)) }
    ensures failed { OnErr result (Rose (W.faults out.old) (W.faults out.new)) }
    ensures later { W.faults out.old ≤ W.faults out.new }
{
    write_pieces(out, text.pieces.as_slice())?;
    write_all(out, text.last.as_slice())?;
    Ok(())
}
