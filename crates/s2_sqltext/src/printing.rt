//! Scripts printed.
ghost use Rattle.std.specs.Prelude.{◌≡◌, IfOk};
ghost use Rattle.s2_sqltext.specs.Printing.{script_text, IsWrittenScript};

use crate::lines::{create, options, sessions};
use s2_model::Script;
use s2_value::Memory;
use std::alloc::Global;

/// The text of a script: its five options, its table and its statements, each on a line that ends with a line feed.
/// Keywords are upper case, `DESC` is written and `ASC` isn't, and parentheses stand only where the grammar would group
/// otherwise. Read again it is the same script, unless it is longer than a script may be.
///
/// No part of a predicate may be all rows, which has no words; a predicate as a whole may. The time is linear in the
/// text. The `Err` is want of memory.
pub fn print_script(alloc: Global, script: &Script) -> Result<Vec<u8>, Memory>
    requires { IsWrittenScript script.now }
    ensures { IfOk result (λ text. text.items ≡ script_text script.now) }
{
    let mut out = Vec::new(alloc);
    options(alloc, &script.options, &mut out)?;
    create(alloc, &script.schema, &mut out)?;
    sessions(
        alloc,
        script.schema.table.bytes(),
        script.schema.cols.as_slice(),
        script.lines.as_slice(),
        &mut out,
    )?;
    Ok(out)
}
