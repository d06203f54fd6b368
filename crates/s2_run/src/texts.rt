//! What is written at each ending, and its status.
ghost use Rattle.std.specs.Prelude.{◌≡◌, ◌++◌, IfOk, OnOk};
ghost use Rattle.std.specs.Fmt.{decimal};
ghost use Rattle.s2_run.specs.Texts.{text_of, status_of, checked_text, checked_status, line_text, script_error, entry_text, reply_text, output_error};

use crate::kinds::kind_name;
use crate::{Ending, Text};
use itoa::Buffer;
use s2_check::Checked;
use s2_judge::Kind;
use s2_value::Memory;
use std::alloc::Global;

fn put_number(text: &mut Vec<u8>, number: u64) -> Result<(), Memory>
    ensures { OnOk result (text.new.items ≡ text.old.items ++ decimal number) }
{
    text.extend_from_slice(Buffer::new().format(number).as_bytes())
}

fn line_text(alloc: Global, words: &[u8]) -> Result<Vec<u8>, Memory>
    ensures { IfOk result (λ text. text.items ≡ line_text words.now) }
{
    let mut text = Vec::from_slice(alloc, words)?;
    text.push(b'\n')?;
    Ok(text)
}

fn script_error(alloc: Global, line: u64, kind: Kind) -> Result<Vec<u8>, Memory>
    ensures { IfOk result (λ text. text.items ≡ script_error line kind) }
{
    let mut text = Vec::from_slice(alloc, b"script error: line ".as_slice())?;
    put_number(&mut text, line)?;
    text.extend_from_slice(b": ")?;
    text.extend_from_slice(kind_name(kind))?;
    text.push(b'\n')?;
    Ok(text)
}

fn entry_text(alloc: Global, entry: u64) -> Result<Vec<u8>, Memory>
    ensures { IfOk result (λ text. text.items ≡ entry_text entry) }
{
    let mut text = Vec::from_slice(alloc, b"not legal: entry ".as_slice())?;
    put_number(&mut text, entry)?;
    text.push(b'\n')?;
    Ok(text)
}

fn reply_text(alloc: Global, session: u8, reply: u64) -> Result<Vec<u8>, Memory>
    ensures { IfOk result (λ text. text.items ≡ reply_text session reply) }
{
    let mut text = Vec::from_slice(alloc, b"not legal: session ".as_slice())?;
    put_number(&mut text, u64::from(session))?;
    text.extend_from_slice(b" reply ")?;
    put_number(&mut text, reply)?;
    text.push(b'\n')?;
    Ok(text)
}

fn output_error(alloc: Global, line: u64) -> Result<Vec<u8>, Memory>
    ensures { IfOk result (λ text. text.items ≡ output_error line) }
{
    let mut text = Vec::from_slice(alloc, b"not an output: line ".as_slice())?;
    put_number(&mut text, line)?;
    text.push(b'\n')?;
    Ok(text)
}

fn checked_text(alloc: Global, checked: Checked) -> Result<Vec<u8>, Memory>
    ensures { IfOk result (λ text. text.items ≡ checked_text checked) }
{
    match checked {
        Checked::Legal => line_text(alloc, b"legal"),
        Checked::Entry(entry) => entry_text(alloc, entry),
        Checked::Reply(session, reply) => reply_text(alloc, session, reply),
        Checked::NotOutput(line) => output_error(alloc, line),
        Checked::BadScript(line, kind) => script_error(alloc, line, kind),
    }
}

/// The text that is written at this ending. The `Err` is want of memory.
pub fn text_of(alloc: Global, ending: Ending) -> Result<Text, Memory>
    ensures { IfOk result (λ text. text ≡ text_of ending) }
{
    match ending {
        Ending::Usage => Ok(Text::from_vec(line_text(alloc, b"usage error")?)),
        Ending::Help(help) => Ok(Text::from_vec(help.into_bytes())),
        Ending::SourceFault => Ok(Text::from_vec(line_text(alloc, b"source fault")?)),
        Ending::NoScript(line, kind) => Ok(Text::from_vec(script_error(alloc, line, kind)?)),
        Ending::NoMemory => Ok(Text::from_vec(Vec::new(alloc))),
        Ending::Output(text) => Ok(text),
        Ending::Judged(checked) => Ok(Text::from_vec(checked_text(alloc, checked)?)),
    }
}

fn checked_status(checked: Checked) -> u8
    ensures { result ≡ checked_status checked }
{
    match checked {
        Checked::Legal => 0,
        Checked::Entry(_) => 7,
        Checked::Reply(_, _) => 7,
        Checked::NotOutput(_) => 7,
        Checked::BadScript(_, _) => 3,
    }
}

/// The status of this ending, unless there is no memory for its text or the sink fails.
pub fn status_of(ending: &Ending) -> u8
    ensures { result ≡ status_of ending.now }
{
    match ending {
        Ending::Usage => 2,
        Ending::Help(_) => 0,
        Ending::SourceFault => 4,
        Ending::NoScript(_, _) => 3,
        Ending::NoMemory => 6,
        Ending::Output(_) => 0,
        Ending::Judged(checked) => checked_status(*checked),
    }
}
