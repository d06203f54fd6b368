//! How a reply is written: a word with its numbers, and the rows of an answer below it.
ghost use Rattle.std.specs.Prelude.{codes, ◌≡◌, ◌++◌, OnOk, length};
ghost use Rattle.std.specs.List.{flat_map};
ghost use Rattle.s2_model.specs.OutputText.{field, fields, cell_text, cells_text, table_line, reply_text, refusal_text};

use crate::pieces::{Printed, put, put_each, put_list, put_separated, put_word};
use crate::refusals::put_refusal;
use itoa::Buffer;
use s2_model::{Cell, CellList, Refusal, Reply};
use s2_value::{Memory, print_text};

impl Printed for Cell {
    ghost text = { cell_text };

    fn put(&self, out: &mut Vec<u8>) -> Result<(), Memory> {
        match self {
            Cell::Nothing => put(out, b"NULL"),
            Cell::Int(number) => put(out, Buffer::new().format(*number).as_bytes()),
            Cell::Text(text) => print_text(text.bytes(), out),
        }
    }
}

/// A row of an answer is a line.
impl Printed for CellList {
    ghost text = { table_line };

    fn put(&self, out: &mut Vec<u8>) -> Result<(), Memory> {
        put_cells(out, self.as_slice())?;
        put(out, b"\n")
    }
}

/// Writes a reply with its line feed, and the lines of its rows.
pub(crate) fn put_reply(out: &mut Vec<u8>, reply: &Reply) -> Result<(), Memory>
    ensures { OnOk result (out.new.items ≡ out.old.items ++ reply_text reply.now) }
{
    match reply {
        Reply::Changed(count) => put_line(out, b"OK", u64::from(*count)),
        Reply::Done => put(out, b"OK\n"),
        Reply::Rows(rows) => put_table(out, rows.as_slice()),
        Reply::Begun => put(out, b"BEGUN\n"),
        Reply::Flushed(seg) => put_line(out, b"FLUSHED", u64::from(*seg)),
        Reply::Merged(segs) => put_merged(out, segs.as_slice()),
        Reply::Uploaded(seg) => put_line(out, b"UPLOADED", u64::from(*seg)),
        Reply::Evicted(count) => put_line(out, b"EVICTED", u64::from(*count)),
        Reply::Vacuumed(horizon) => put_line(out, b"VACUUMED", *horizon),
        Reply::Nothing => put(out, b"NOTHING\n"),
        Reply::Late(number) => put_line(out, b"LATE", *number),
        Reply::Refused(refusal) => put_error(out, refusal),
    }
}

fn put_cells(out: &mut Vec<u8>, cells: &[Cell]) -> Result<(), Memory>
    ensures { OnOk result (out.new.items ≡ out.old.items ++ cells_text cells.now) }
{
    put(out, b"(")?;
    put_separated(out, cells)?;
    put(out, b")")
}

fn put_line(out: &mut Vec<u8>, word: &[u8], number: u64) -> Result<(), Memory>
    ensures { OnOk result (out.new.items ≡ out.old.items ++ (word.now ++ (field number ++ codes "\n"))) }
{
    put_word(out, word, number)?;
    put(out, b"\n")
}

fn put_table(out: &mut Vec<u8>, rows: &[CellList]) -> Result<(), Memory>
    ensures { OnOk result (out.new.items ≡ out.old.items ++ (codes "ROWS" ++ (field (length rows.now) ++ (codes "\n" ++ flat_map table_line rows.now)))) }
{
    put_line(out, b"ROWS", rows.len() as u64)?;
    put_each(out, rows)
}

fn put_merged(out: &mut Vec<u8>, segs: &[u32]) -> Result<(), Memory>
    ensures { OnOk result (out.new.items ≡ out.old.items ++ (codes "MERGED" ++ (fields segs.now ++ codes "\n"))) }
{
    put_list(out, b"MERGED", segs)?;
    put(out, b"\n")
}

fn put_error(out: &mut Vec<u8>, refusal: &Refusal) -> Result<(), Memory>
    ensures { OnOk result (out.new.items ≡ out.old.items ++ (codes "ERROR " ++ (refusal_text refusal.now ++ codes "\n"))) }
{
    put(out, b"ERROR ")?;
    put_refusal(out, refusal)?;
    put(out, b"\n")
}
