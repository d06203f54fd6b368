//! Scripts read line by line.
ghost use Rattle.std.specs.Prelude.{◌≡◌, ◌≢◌, ◌≤◌, ◌<◌, ◌+◌, ◌^◌, ℕ, List, None, false, length, is_some, IsTrue, OnOk, IfOk, IfErr};
ghost use Rattle.s2_model.specs.declared.scripts.Script.{Script as AnyScript};
ghost use Rattle.s2_judge.specs.Kinds.{no_lines};
ghost use Rattle.s2_judge.specs.declared.kinds.Kind.TheVariants.{Misplaced};
ghost use Rattle.s2_script.specs.declared.stops.Stop.TheVariants.{Bad};
ghost use Rattle.s2_script.specs.Lines.{lines_of};
ghost use Rattle.s2_script.specs.Script.{Runs, IsBad};
ghost use Rattle.s2_build.specs.Builders.{draft};
ghost use Rattle.s2_build.specs.Drafts.{draft_of, start, IsShallowLine};
ghost use Rattle.s2_clean.specs.Clean.{has_line_feed};
ghost use Rattle.s2_resolve.specs.Suits.{IsBuiltScript};
ghost use Rattle.s2_resolve.specs.Resolved.{Goes};
ghost use Rattle.s2_reader.specs.Spelling.{IsScriptText, IsFaultOf};
ghost use Rattle.s2_reader.specs.Steps.{Advances, IsNext, IsStop, IsReadFrom, CanGo};

use crate::ScriptFault;
use crate::laws::one_script;
use crate::stops::fault;
use s2_build::{Builder, Unbuilt};
use s2_judge::{Kind, Known};
use s2_line::Raw;
use s2_model::Script;
use s2_script::{Stop, Verdict, cut, judge, one_outcome, without_return};
use s2_value::Memory;
use std::alloc::{AllocError, Global};

/// What the lines so far have said and made.
#[derive(Drop)]
struct Reader {
    known: Known,
    builder: Builder,
    next: u64,
}

impl Reader {
    fn new(alloc: Global) -> Reader
        ensures known { result.known ≡ no_lines }
        ensures builder { draft result.builder ≡ start }
        ensures next { result.next ≡ 1 }
    {
        Reader {
            known: Known::new(alloc),
            builder: Builder::new(alloc),
            next: 1,
        }
    }

    /// Adds a line without a fault.
    fn keep(&mut self, alloc: Global, raw: Raw) -> Result<(), Memory>
        requires room { self.old.next < 2 ^ 63 }
        requires shallow { IsShallowLine raw }
        requires goes { CanGo self.old.known (draft self.old.builder) raw Goes }
        ensures step { OnOk result (Advances self.old.known (draft self.old.builder) (Verdict.Fine raw) self.new.known (draft self.new.builder)) }
        ensures next { OnOk result (self.new.next ≡ self.old.next + 1) }
    {
        self.known.after(alloc, &raw)?;
        match self.builder.take(alloc, raw) {
            Ok(()) => {}
            Err(Unbuilt::Memory) => return Err(AllocError),
            Err(Unbuilt::Unresolved) => unreachable!(),
        }
        self.next += 1;
        Ok(())
    }

    /// Reads one more line.
    fn take(&mut self, alloc: Global, line: &[u8]) -> Result<(), Stop>
        requires room { self.old.next < 2 ^ 63 }
        requires goes { Goes self.old.known (draft self.old.builder) }
        requires inside { has_line_feed line.now ≡ false }
        ensures step { OnOk result (IsNext self.old.known (draft self.old.builder) line.now self.new.known (draft self.new.builder)) }
        ensures next { OnOk result (self.new.next ≡ self.old.next + 1) }
        ensures stop { IfErr result (λ e. IsStop self.old.next self.old.known line.now e) }
    {
        match judge(alloc, &self.known, without_return(line))? {
            Verdict::Nothing => {
                self.next += 1;
                Ok(())
            }
            Verdict::Faulty(kind) => Err(Stop::Bad {
                line: self.next,
                kind,
            }),
            Verdict::Fine(raw) => Ok(self.keep(alloc, raw)?),
        }
    }

    /// The script, where a line created the table.
    fn finish(self) -> Result<Script, Stop>
        requires goes { Goes self.known (draft self.builder) }
        ensures ended { IfOk result (λ s. (draft self.builder ≡ draft_of s) × IsTrue (is_some self.known.table)) }
        ensures built { IfOk result (λ s. IsBuiltScript s) }
        ensures bad { IfErr result (λ e. (e ≡ Bad self.next Misplaced) × (self.known.table ≡ None)) }
    {
        let Reader {
            known: _,
            builder,
            next,
        } = self;
        match builder.finish() {
            Some(script) => Ok(script),
            None => Err(Stop::Bad {
                line: next,
                kind: Kind::Misplaced,
            }),
        }
    }
}

fn read_all(alloc: Global, bytes: &[u8]) -> Result<Script, Stop>
    requires short { length bytes.now ≤ 16777216 }
    ensures read { IfOk result (λ s. IsReadFrom bytes.now s) }
    ensures built { IfOk result (λ s. IsBuiltScript s) }
    ensures bad { IfErr result (λ e. IsBad (Runs 1 no_lines (lines_of bytes.now)) e) }
{
    let mut reader = Reader::new(alloc);
    let mut left = bytes;
    while !left.is_empty() {
        let (line, rest) = cut(left);
        reader.take(alloc, line)?;
        left = rest;
    }
    reader.finish()
}

fn read(alloc: Global, bytes: &[u8]) -> Result<Script, ScriptFault>
    ensures found { IfOk result (λ s. IsScriptText bytes.now s) }
    ensures built { IfOk result (λ s. IsBuiltScript s) }
    ensures bad { IfErr result (λ e. IsFaultOf bytes.now e) }
{
    if bytes.len() > 16_777_216 {
        return Err(fault(Stop::Bad {
            line: 0,
            kind: Kind::TooLong,
        }));
    }
    match read_all(alloc, bytes) {
        Ok(script) => Ok(script),
        Err(stop) => Err(fault(stop)),
    }
}

/// The script that the bytes spell; else the first line that has a fault, counted from 1, and the first kind of fault
/// that applies to it, where a text of more than 16,777,216 bytes is `TooLong` at line 0. The `Err` may also be want of
/// memory. The time is near-linear in the bytes.
pub fn read_script(alloc: Global, bytes: &[u8]) -> Result<Script, ScriptFault>
    // What is read is spelled so.
    ensures found { IfOk result (λ s. IsScriptText bytes.now s) }
    // No other script is spelled so.
    ensures only { IfOk result (λ s. (other : AnyScript) → IsScriptText bytes.now other → other ≡ s) }
    // What is refused has this fault, and is spelled by no script.
    ensures bad { IfErr result (λ e. IsFaultOf bytes.now e) }
    ensures refused { IfErr result (λ e. e ≢ ScriptFault.Memory → (other : AnyScript) → IsScriptText bytes.now other → ⊥) }
    // What is read suits its table.
    ensures built { IfOk result (λ s. IsBuiltScript s) }
{
    one_outcome();
    one_script();
    read(alloc, bytes)
}
