//! What holds of all scripts.
ghost use Rattle.std.specs.Prelude.{◌≤◌, ℕ, List, length};
ghost use Rattle.s2_model.specs.declared.scripts.Script.{Script as AnyScript};
ghost use Rattle.s2_reader.specs.Spelling.{IsScriptText};
ghost use Rattle.s2_sqltext.specs.Printing.{script_text, IsWrittenScript};

use s2_pred::printed_reads_back;

/// A script that some bytes spell is spelled by its printed text, where that is within a script's limit of 16,777,216
/// bytes. Since bytes spell at most one script, it is what is read of that text.
pub fn printed_script_reads_back()
    ensures { (bytes : List ℕ) (script : AnyScript) → IsScriptText bytes script → length (script_text script) ≤ 16777216 → IsScriptText (script_text script) script }
{
    printed_reads_back();
}

/// A script that some bytes spell can be printed.
pub fn spelled_scripts_are_written()
    ensures { (bytes : List ℕ) (script : AnyScript) → IsScriptText bytes script → IsWrittenScript script }
{
    printed_reads_back();
}
