//! An input is checked: its script, its output, and whether the output is legal.
ghost use Rattle.std.specs.Prelude.{IfOk};
ghost use Rattle.s2_resolve.specs.Suits.{IsBuiltScript};
ghost use Rattle.s2_outread.specs.Outputs.{IsTextOf};
ghost use Rattle.s2_check.specs.Checking.{IsChecked, IsAnswer};

use crate::{Checked, split};
use s2_legal::{LegalAnswer, legal};
use s2_model::{Outcome, Script};
use s2_outread::{OutputFault, read_output};
use s2_reader::{ScriptFault, read_script};
use s2_value::Memory;
use std::alloc::{AllocError, Global};

fn check_outcome(
    alloc: Global,
    script: &Script,
    output: &[u8],
    run: &Outcome,
) -> Result<Checked, Memory>
    requires built { IsBuiltScript script.now }
    requires text { IsTextOf script.now output.now run.now }
    ensures { IfOk result (IsAnswer script.now output.now) }
{
    match legal(alloc, script, run)? {
        LegalAnswer::Legal => Ok(Checked::Legal),
        LegalAnswer::Entry(entry) => Ok(Checked::Entry(entry)),
        LegalAnswer::Reply(session, reply) => Ok(Checked::Reply(session, reply)),
    }
}

fn check_output(alloc: Global, script: &Script, output: &[u8]) -> Result<Checked, Memory>
    requires built { IsBuiltScript script.now }
    ensures { IfOk result (IsAnswer script.now output.now) }
{
    match read_output(alloc, script, output) {
        Ok(run) => check_outcome(alloc, script, output, &run),
        Err(OutputFault::Line(line)) => Ok(Checked::NotOutput(line)),
        Err(OutputFault::Memory) => Err(AllocError),
    }
}

/// Checks an input: a script, a line `==OUTPUT==` and an output. A bad script is answered first, then an output that is none, then
/// what isn't legal. It takes the time of reading the input and of running its statements. The `Err` is want of memory.
pub fn check_call(alloc: Global, text: &[u8]) -> Result<Checked, Memory>
    ensures { IfOk result (IsChecked text.now) }
{
    let (script, output) = split(text);
    match read_script(alloc, script) {
        Ok(script) => check_output(alloc, &script, output),
        Err(ScriptFault::Bad(fault)) => Ok(Checked::BadScript(fault.line, fault.what)),
        Err(ScriptFault::Memory) => Err(AllocError),
    }
}
