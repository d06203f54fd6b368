//! The lines of a script, read one after the other.
ghost use Rattle.std.specs.Prelude.{◌≡◌, ◌≤◌, ◌<◌, ◌+◌, ◌^◌, None, Ok, length, is_some, IsTrue, OnOk, IfOk, IfErr};
ghost use Rattle.s2_judge.specs.Kinds.{no_lines};
ghost use Rattle.s2_judge.specs.declared.kinds.Kind.TheVariants.{Misplaced};
ghost use Rattle.s2_script.specs.declared.stops.Stop.TheVariants.{Bad};
ghost use Rattle.s2_script.specs.Lines.{lines_of};
ghost use Rattle.s2_script.specs.Script.{Runs, Reads, IsBad};
ghost use Rattle.s2_script.specs.Steps.{at_first, kept, IsStep, Stops};

use crate::bytes::{cut, without_return};
use crate::judging::judge;
use crate::stops::Stop;
use crate::verdicts::Verdict;
use s2_judge::{Kind, Known};
use s2_line::Raw;
use s2_value::{Memory, Seq};
use std::alloc::Global;

/// The lines of a script that were read, none with a fault.
#[derive(Debug, Drop)]
pub struct Lines {
    /// What they have said.
    pub known: Known,
    /// Those that aren't empty.
    pub lines: Seq<Raw>,
    /// The number of the line after them.
    pub(crate) next: u64,
}

impl Lines {
    fn new(alloc: Global) -> Lines
        ensures { result ≡ at_first }
    {
        Lines {
            known: Known::new(alloc),
            lines: Seq::new(alloc),
            next: 1,
        }
    }

    fn keep(&mut self, alloc: Global, raw: Raw) -> Result<(), Memory>
        requires room { self.old.next < 2 ^ 63 }
        ensures { OnOk result (self.new ≡ kept self.old raw) }
    {
        self.known.after(alloc, &raw)?;
        self.lines.add(raw)?;
        self.next += 1;
        Ok(())
    }

    /// Reads one more line.
    fn take(&mut self, alloc: Global, line: &[u8]) -> Result<(), Stop>
        requires room { self.old.next < 2 ^ 63 }
        ensures step { OnOk result (IsStep self.old line.now self.new) }
        ensures next { OnOk result (self.new.next ≡ self.old.next + 1) }
        ensures stop { IfErr result (λ e. Stops self.old line.now e) }
    {
        match judge(alloc, &self.known, without_return(line))? {
            Verdict::Nothing => {
                self.next += 1;
                Ok(())
            }
            Verdict::Faulty(kind) => Err(Stop::Bad {
                line: self.next,
                kind,
            }),
            Verdict::Fine(raw) => Ok(self.keep(alloc, raw)?),
        }
    }

    /// The lines, where one of them creates the table.
    fn finish(self) -> Result<Lines, Stop>
        ensures ended { IfOk result (λ lines. (lines ≡ self) × IsTrue (is_some self.known.table)) }
        ensures bad { IfErr result (λ e. (e ≡ Bad self.next Misplaced) × (self.known.table ≡ None)) }
    {
        if self.known.table.is_some() {
            Ok(self)
        } else {
            Err(Stop::Bad {
                line: self.next,
                kind: Kind::Misplaced,
            })
        }
    }
}

fn read_all(alloc: Global, bytes: &[u8]) -> Result<Lines, Stop>
    requires short { length bytes.now ≤ 16777216 }
    ensures read { IfOk result (λ s. Runs 1 no_lines (lines_of bytes.now) (Ok (s.known, s.lines))) }
    ensures bad { IfErr result (λ e. IsBad (Runs 1 no_lines (lines_of bytes.now)) e) }
{
    let mut lines = Lines::new(alloc);
    let mut left = bytes;
    while !left.is_empty() {
        let (line, rest) = cut(left);
        lines.take(alloc, line)?;
        left = rest;
    }
    lines.finish()
}

/// The lines of a script of these bytes, each judged after those before it; the `Err` is the first line with a fault,
/// or want of memory. The time is near-linear in the bytes.
pub fn read_lines(alloc: Global, bytes: &[u8]) -> Result<Lines, Stop>
    ensures read { IfOk result (λ s. Reads bytes.now (Ok (s.known, s.lines))) }
    ensures bad { IfErr result (λ e. IsBad (Reads bytes.now) e) }
{
    if bytes.len() > 16_777_216 {
        return Err(Stop::Bad {
            line: 0,
            kind: Kind::TooLong,
        });
    }
    read_all(alloc, bytes)
}
