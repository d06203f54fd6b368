//! How a line is written.
ghost use Rattle.std.specs.Prelude.{codes, ◌≡◌, ◌++◌, OnOk};
ghost use Rattle.std.specs.Fmt.{decimal};
ghost use Rattle.s2_model.specs.OutputText.{field};
ghost use Rattle.s2_outread.specs.Lines.{line_text};

use crate::forms::OutputLine;
use itoa::Buffer;
use s2_histproof::{print_cells, print_entry, print_said};
use s2_value::Memory;

fn put(out: &mut Vec<u8>, piece: &[u8]) -> Result<(), Memory>
    ensures { OnOk result (out.new.items ≡ out.old.items ++ piece.now) }
{
    out.extend_from_slice(piece)
}

fn put_number(out: &mut Vec<u8>, number: u64) -> Result<(), Memory>
    ensures { OnOk result (out.new.items ≡ out.old.items ++ decimal number) }
{
    put(out, Buffer::new().format(number).as_bytes())
}

fn put_field(out: &mut Vec<u8>, number: u64) -> Result<(), Memory>
    ensures { OnOk result (out.new.items ≡ out.old.items ++ field number) }
{
    put(out, b" ")?;
    put_number(out, number)
}

fn put_last(out: &mut Vec<u8>, number: u64) -> Result<(), Memory>
    ensures { OnOk result (out.new.items ≡ out.old.items ++ (field number ++ codes "\n")) }
{
    put_field(out, number)?;
    put(out, b"\n")
}

fn put_session(out: &mut Vec<u8>, session: u8, count: u64, faults: u64) -> Result<(), Memory>
    ensures { OnOk result (out.new.items ≡ out.old.items ++ (codes "SESSION" ++ (field session ++ (field count ++ (field faults ++ codes "\n"))))) }
{
    put(out, b"SESSION")?;
    put_field(out, u64::from(session))?;
    put_field(out, count)?;
    put_last(out, faults)
}

fn put_rows(out: &mut Vec<u8>, r: u64, faults: u64, count: u64) -> Result<(), Memory>
    ensures { OnOk result (out.new.items ≡ out.old.items ++ (decimal r ++ (field faults ++ (codes " ROWS" ++ (field count ++ codes "\n"))))) }
{
    put_number(out, r)?;
    put_field(out, faults)?;
    put(out, b" ROWS")?;
    put_last(out, count)
}

fn put_history(out: &mut Vec<u8>, count: u64) -> Result<(), Memory>
    ensures { OnOk result (out.new.items ≡ out.old.items ++ (codes "HISTORY" ++ (field count ++ codes "\n"))) }
{
    put(out, b"HISTORY")?;
    put_last(out, count)
}

/// Writes a line with its line feed.
pub fn print_line(line: &OutputLine, out: &mut Vec<u8>) -> Result<(), Memory>
    ensures { OnOk result (out.new.items ≡ out.old.items ++ line_text line.now) }
{
    match line {
        OutputLine::Session {
            session,
            count,
            faults,
        } => put_session(out, *session, *count, *faults),
        OutputLine::Said(said) => print_said(said, out),
        OutputLine::Rows { r, faults, count } => put_rows(out, *r, *faults, *count),
        OutputLine::Row(cells) => print_cells(cells, out),
        OutputLine::History(count) => put_history(out, *count),
        OutputLine::Entry(entry) => print_entry(entry, out),
        OutputLine::End => put(out, b"END\n"),
    }
}
