//! The top call.
ghost use Rattle.std.specs.Prelude.{◌≡◌, ◌⊎◌, map, IfOk, IfSome};
ghost use Rattle.std.specs.String.{string_bytes};
ghost use Rattle.s2_outside.specs.Told.{Told};
ghost use Rattle.s2_outside.specs.Count.{Rose};
ghost use Rattle.s2_words.specs.declared.modes.Mode.TheVariants as mode;
ghost use Rattle.s2_words.specs.Words.{IsUsage, AsksMode};
ghost use Rattle.s2_resolve.specs.Suits.{IsBuiltScript};
ghost use Rattle.s2_run.specs.Texts.{text_of, status_of, refusal_ending};
ghost use Rattle.s2_run.specs.Top.{most_bytes, Answered, Reads, Comes, Writes, Closes, Ends, Headline, Settles, IsTextOf};

use crate::outputs::output_text;
use crate::pieces::write_text;
use crate::texts::{status_of, text_of};
use crate::{Ending, Text};
use s2_check::check_call;
use s2_drive::drive_call;
use s2_judge::Kind;
use s2_model::Script;
use s2_outside::{ReadStop, Sink, Source, read_all};
use s2_reader::{ScriptFault, read_script};
use s2_value::Memory;
use s2_words::{Asked, Mode, WordsFault, words as asked_by};
use std::alloc::Global;

/// The status of a run whose sink failed.
const SINK_FAULT: u8 = 5;

/// The status of a run without memory.
const NO_MEMORY: u8 = 6;

fn most_bytes(mode: Mode) -> usize
    ensures { result ≡ most_bytes mode }
{
    match mode {
        Mode::Drive => 16_777_216,
        Mode::Check => 268_435_456,
    }
}

fn run_script(alloc: Global, script: Script) -> Result<Text, Memory>
    requires { IsBuiltScript script }
    ensures { IfOk result (λ text. IsTextOf script text) }
{
    let outcome = drive_call(alloc, script)?;
    let text = output_text(alloc, outcome)?;
    Ok(text)
}

fn refused(fault: ScriptFault) -> Ending
    ensures { result ≡ refusal_ending fault }
{
    match fault {
        ScriptFault::Bad(first) => Ending::NoScript(first.line, first.what),
        ScriptFault::Memory => Ending::NoMemory,
    }
}

fn drive_text(alloc: Global, text: Vec<u8>) -> Ending
    ensures { Answered mode.Drive text.items result }
{
    let script = read_script(alloc, text.as_slice());
    drop(text);
    match script {
        Err(fault) => refused(fault),
        Ok(script) => match run_script(alloc, script) {
            Ok(text) => Ending::Output(text),
            Err(_) => Ending::NoMemory,
        },
    }
}

fn check_text(alloc: Global, text: Vec<u8>) -> Ending
    ensures { Answered mode.Check text.items result }
{
    match check_call(alloc, text.as_slice()) {
        Ok(checked) => Ending::Judged(checked),
        Err(_) => Ending::NoMemory,
    }
}

fn answer(alloc: Global, mode: Mode, text: Vec<u8>) -> Ending
    ensures { Answered mode text.items result }
{
    match mode {
        Mode::Drive => drive_text(alloc, text),
        Mode::Check => check_text(alloc, text),
    }
}

fn run_source<S: Source>(alloc: Global, mode: Mode, src: &mut S) -> Ending
    ensures { Reads mode (S.left src.old) (Rose (S.faults src.old) (S.faults src.new)) result }
{
    match read_all(alloc, src, most_bytes(mode)) {
        Ok(text) => answer(alloc, mode, text),
        Err(ReadStop::Failed) => Ending::SourceFault,
        Err(ReadStop::TooLong) => Ending::NoScript(0, Kind::TooLong),
        Err(ReadStop::Memory) => Ending::NoMemory,
    }
}

fn finish<S: Source>(alloc: Global, words: &[String], src: &mut S) -> Ending
    ensures { Comes (map string_bytes words.now) (S.left src.old) (Rose (S.faults src.old) (S.faults src.new)) result }
{
    match asked_by(alloc, words) {
        Ok(Asked::Run(mode)) => run_source(alloc, mode, src),
        Ok(Asked::Help(help)) => Ending::Help(help),
        Err(WordsFault::Usage) => Ending::Usage,
        Err(WordsFault::Memory) => Ending::NoMemory,
    }
}

fn write<W: Sink>(out: &mut W, text: &Text, status: u8) -> u8
    ensures { Writes (W.taken out.old) (W.taken out.new) (Rose (W.faults out.old) (W.faults out.new)) text.now status result }
{
    match write_text(out, text) {
        Ok(()) => status,
        Err(_) => SINK_FAULT,
    }
}

fn end<W: Sink>(alloc: Global, out: &mut W, ending: Ending) -> u8
    ensures { Closes (W.taken out.old) (W.taken out.new) (Rose (W.faults out.old) (W.faults out.new)) ending result }
{
    let status = status_of(&ending);
    match text_of(alloc, ending) {
        Ok(text) => write(out, &text, status),
        Err(_) => write(out, &Text::from_vec(Vec::new(alloc)), NO_MEMORY),
    }
}

/// Reads the input, runs it as a script or judges it, and writes the answer.
///
/// `words` are those behind the program's name. In mode `drive`, which is asked for by no words too, the input is a script of at most
/// 16,777,216 bytes, and its lines are run in their order. In mode `check` the input is a script, a line `==OUTPUT==` and an output,
/// at most 268,435,456 bytes, and the output is judged. The status is
/// 0 where the output, `legal` or the help was written; 2 for words that are refused; 3 where the input is no script; 4 where the source failed;
/// 5 where the sink failed, after a front of the text; 6 where there was no memory; 7 where the output isn't legal, or no output.
/// Each status but 5 and 6 has its own text.
pub fn s2table<S: Source, W: Sink>(alloc: Global, words: &[String], src: &mut S, out: &mut W) -> u8
    // How a run ends, and what each ending means.
    ensures ends { Ends (map string_bytes words.now) (S.left src.old) (Rose (S.faults src.old) (S.faults src.new))
        (W.taken out.old) (W.taken out.new) (Rose (W.faults out.old) (W.faults out.new)) result }

    // In mode drive the bytes read spell one script, the bytes written are the text of its run, and the run is right.
    ensures headline { result ≡ 0 → AsksMode mode.Drive (map string_bytes words.now) → Headline (S.left src.old) (W.taken out.old) (W.taken out.new) }

    // Each status has its cause, and each cause its status.
    ensures usage { (result ≡ 2) → IsUsage (map string_bytes words.now) }
    ensures refused { IsUsage (map string_bytes words.now) → (result ≡ 2) ⊎ (result ≡ 5) ⊎ (result ≡ 6) }
    ensures source { result ≡ 4 → Rose (S.faults src.old) (S.faults src.new) }
    ensures sink { result ≡ 5 → Rose (W.faults out.old) (W.faults out.new) }

    // Where neither the source nor the sink failed, a script is run, and what is no script is refused, or there was no memory.
    ensures complete { AsksMode mode.Drive (map string_bytes words.now) → (Rose (S.faults src.old) (S.faults src.new) → ⊥)
        → (Rose (W.faults out.old) (W.faults out.new) → ⊥)
        → IfSome (S.left src.old) (λ bytes. Settles bytes result) }
{
    let ending = finish(alloc, words, src);
    end(alloc, out, ending)
}
