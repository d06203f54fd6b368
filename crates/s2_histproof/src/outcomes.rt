//! How an outcome is written: what each session said, the history, and the end.
ghost use Rattle.std.specs.Prelude.{◌≡◌, ◌++◌, OnOk, IfOk, codes};
ghost use Rattle.std.specs.List.{flat_map};
ghost use Rattle.s2_model.specs.OutputText.{entry_text, said_text, table_line, transcript_text, history_text, output_text};

use crate::pieces::{Printed, put, put_each, put_field, put_number, put_pair, put_word};
use crate::replies::put_reply;
use s2_model::{CellList, Entry, EntryList, Outcome, Said, Transcript, TranscriptList};
use s2_value::Memory;
use std::alloc::Global;

/// A reply stands after its timestamp and its fault count.
impl Printed for Said {
    ghost text = { said_text };

    fn put(&self, out: &mut Vec<u8>) -> Result<(), Memory> {
        put_number(out, self.r)?;
        put_field(out, self.faults)?;
        put(out, b" ")?;
        put_reply(out, &self.reply)
    }
}

/// A session's number, how many replies it has and its last fault count; then its replies.
impl Printed for Transcript {
    ghost text = { transcript_text };

    fn put(&self, out: &mut Vec<u8>) -> Result<(), Memory> {
        put_word(out, b"SESSION", u64::from(self.session))?;
        put_pair(out, self.said.len() as u64, self.faults)?;
        put(out, b"\n")?;
        put_each(out, self.said.as_slice())
    }
}

/// Adds the line of a reply, after its timestamp and its fault count; an answer's rows follow, a line each. The `Err` is want of memory.
pub fn print_said(said: &Said, out: &mut Vec<u8>) -> Result<(), Memory>
    ensures { OnOk result (out.new.items ≡ out.old.items ++ said_text said.now) }
{
    said.put(out)
}

/// Adds the line of one row of an answer. The `Err` is want of memory.
pub fn print_cells(cells: &CellList, out: &mut Vec<u8>) -> Result<(), Memory>
    ensures { OnOk result (out.new.items ≡ out.old.items ++ table_line cells.now) }
{
    cells.put(out)
}

/// Adds the line of an entry, after its actor. The `Err` is want of memory.
pub fn print_entry(entry: &Entry, out: &mut Vec<u8>) -> Result<(), Memory>
    ensures { OnOk result (out.new.items ≡ out.old.items ++ entry_text entry.now) }
{
    entry.put(out)
}

/// Adds the text of the sessions: for each `SESSION`, its number, how many statements it has and its last fault count,
/// then its replies, each after its timestamp and its fault count; an answer's rows follow their reply, a line each.
/// The `Err` is want of memory.
pub fn print_transcripts(transcripts: &TranscriptList, out: &mut Vec<u8>) -> Result<(), Memory>
    ensures { OnOk result (out.new.items ≡ out.old.items ++ flat_map transcript_text transcripts.now) }
{
    put_each(out, transcripts.as_slice())
}

/// Adds the text of the history: `HISTORY`, how many entries there are, and a line for each with its actor; then `END`.
/// The `Err` is want of memory.
pub fn print_history(history: &EntryList, out: &mut Vec<u8>) -> Result<(), Memory>
    ensures { OnOk result (out.new.items ≡ out.old.items ++ (history_text history.now ++ codes "END\n")) }
{
    put_history(out, history.as_slice())?;
    put(out, b"END\n")
}

/// The text of an outcome: of its sessions, and then of its history. Each line ends with a line feed. The `Err` is want of memory.
pub fn print_output(alloc: Global, run: &Outcome) -> Result<Vec<u8>, Memory>
    ensures { IfOk result (λ text. text.items ≡ output_text run.now) }
{
    let mut out = Vec::new(alloc);
    print_transcripts(&run.transcripts, &mut out)?;
    print_history(&run.history, &mut out)?;
    Ok(out)
}

fn put_history(out: &mut Vec<u8>, entries: &[Entry]) -> Result<(), Memory>
    ensures { OnOk result (out.new.items ≡ out.old.items ++ history_text entries.now) }
{
    put_word(out, b"HISTORY", entries.len() as u64)?;
    put(out, b"\n")?;
    put_each(out, entries)
}
