//! The text of a run's outcome, which takes up the memory of what it tells.
ghost use Rattle.std.specs.Prelude.{◌≡◌, ◌++◌, IfOk, OnOk, codes};
ghost use Rattle.std.specs.List.{flat_map};
ghost use Rattle.s2_model.specs.OutputText.{field, entry_text, transcript_text, history_text, output_text};

use crate::Text;
use itoa::Buffer;
use s2_histproof::print_transcripts;
use s2_model::{EntryList, Outcome, TranscriptList};
use s2_value::Memory;
use std::alloc::Global;

// The line before the entries, which says how many there are.
fn heading(alloc: Global, entries: u64) -> Result<Text, Memory>
    ensures { IfOk result (λ text. text ≡ codes "HISTORY" ++ (field entries ++ codes "\n")) }
{
    let mut text = Text::new(alloc)?;
    text.put(b"HISTORY ")?;
    text.put(Buffer::new().format(entries).as_bytes())?;
    text.put(b"\n")?;
    Ok(text)
}

// Each entry is let go as soon as its line is there, so that later pieces take up its memory.
fn put_entries(text: &mut Text, history: EntryList) -> Result<(), Memory>
    ensures { OnOk result (text.new ≡ text.old ++ flat_map entry_text history) }
{
    let mut left = history.into_vec().into_iter();
    while let Some(entry) = left.next() {
        text.put_entry(&entry)?;
    }
    Ok(())
}

fn history_text(alloc: Global, history: EntryList) -> Result<Text, Memory>
    ensures { IfOk result (λ text. text ≡ history_text history ++ codes "END\n") }
{
    let mut text = heading(alloc, history.len() as u64)?;
    put_entries(&mut text, history)?;
    text.put(b"END\n")?;
    Ok(text)
}

fn transcripts_text(alloc: Global, transcripts: TranscriptList) -> Result<Text, Memory>
    ensures { IfOk result (λ text. text ≡ flat_map transcript_text transcripts) }
{
    let mut text = Vec::new(alloc);
    print_transcripts(&transcripts, &mut text)?;
    Ok(Text::from_vec(text))
}

/// The text of an outcome: of its sessions, and then of its history. The `Err` is want of memory.
///
/// The history is printed first, and let go meanwhile; its text then comes behind that of the sessions.
pub(crate) fn output_text(alloc: Global, outcome: Outcome) -> Result<Text, Memory>
    ensures { IfOk result (λ text. text ≡ output_text outcome) }
{
    let Outcome {
        history,
        transcripts,
    } = outcome;
    let end = history_text(alloc, history)?;
    let mut text = transcripts_text(alloc, transcripts)?;
    text.append(end)?;
    Ok(text)
}
