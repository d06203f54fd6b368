//! How an entry is written: its actor, its kind and the fields of that kind.
ghost use Rattle.std.specs.Prelude.{codes, ◌≡◌, ◌++◌, OnOk};
ghost use Rattle.std.specs.List.{flat_map};
ghost use Rattle.s2_value.specs.RowText.{row_text, separated};
ghost use Rattle.s2_model.specs.OutputText.{field, fields, place_field, change_text, new_segment_text, flush_text, merge_text, what_text, entry_text};

use crate::pieces::{
    Printed, put, put_each, put_field, put_list, put_number, put_separated, put_word,
};
use s2_model::{Change, Entry, FlushNote, MergeNote, What};
use s2_value::{IdList, Memory, Row, print_row};

/// A place stands after a space, with a colon between segment and offset.
impl Printed for (u32, u32) {
    ghost text = { place_field };

    fn put(&self, out: &mut Vec<u8>) -> Result<(), Memory> {
        put_field(out, u64::from(self.0))?;
        put(out, b":")?;
        put_number(out, u64::from(self.1))
    }
}

/// A new segment of a merge: its number and its row numbers.
impl Printed for (u32, IdList) {
    ghost text = { new_segment_text };

    fn put(&self, out: &mut Vec<u8>) -> Result<(), Memory> {
        put_word(out, b" TO", u64::from(self.0))?;
        put_list(out, b" ROWS", self.1.as_slice())
    }
}

impl Printed for Change {
    ghost text = { change_text };

    fn put(&self, out: &mut Vec<u8>) -> Result<(), Memory> {
        match self {
            Change::Put(id, row) => put_new_row(out, *id, row),
            Change::Drop(id) => put_word(out, b"DROP", *id),
        }
    }
}

/// An entry is a line: its actor, then what it is.
impl Printed for Entry {
    ghost text = { entry_text };

    fn put(&self, out: &mut Vec<u8>) -> Result<(), Memory> {
        put_number(out, u64::from(self.actor))?;
        put(out, b" ")?;
        put_what(out, &self.what)?;
        put(out, b"\n")
    }
}

fn put_what(out: &mut Vec<u8>, what: &What) -> Result<(), Memory>
    ensures { OnOk result (out.new.items ≡ out.old.items ++ what_text what.now) }
{
    match what {
        What::Begin => put(out, b"BEGIN"),
        What::Write(changes) => put_write(out, changes.as_slice()),
        What::Commit => put(out, b"COMMIT"),
        What::Rollback => put(out, b"ROLLBACK"),
        What::Pin => put(out, b"PIN"),
        What::Unpin => put(out, b"UNPIN"),
        What::Move(places) => put_list(out, b"MOVE", places.as_slice()),
        What::Flush(flush) => put_flush(out, flush.get()),
        What::Merge(merge) => put_merge(out, merge.get()),
        What::Upload(seg) => put_word(out, b"UPLOAD", u64::from(*seg)),
        What::Evict(segs) => put_list(out, b"EVICT", segs.as_slice()),
        What::Vacuum(horizon) => put_word(out, b"VACUUM", *horizon),
    }
}

fn put_write(out: &mut Vec<u8>, changes: &[Change]) -> Result<(), Memory>
    ensures { OnOk result (out.new.items ≡ out.old.items ++ (codes "WRITE " ++ separated (codes ", ") change_text changes.now)) }
{
    put(out, b"WRITE ")?;
    put_separated(out, changes)
}

fn put_new_row(out: &mut Vec<u8>, id: u64, row: &Row) -> Result<(), Memory>
    ensures { OnOk result (out.new.items ≡ out.old.items ++ (codes "PUT" ++ (field id ++ (codes " " ++ row_text row.now)))) }
{
    put_word(out, b"PUT", id)?;
    put(out, b" ")?;
    print_row(row, out)
}

fn put_flush(out: &mut Vec<u8>, flush: &FlushNote) -> Result<(), Memory>
    ensures { OnOk result (out.new.items ≡ out.old.items ++ flush_text flush.now) }
{
    put_word(out, b"FLUSH", u64::from(flush.seg))?;
    put_word(out, b" BASE", flush.base)?;
    put_list(out, b" ROWS", flush.rows.as_slice())?;
    put_list(out, b" MARKED", flush.marked.as_slice())
}

fn put_merge(out: &mut Vec<u8>, merge: &MergeNote) -> Result<(), Memory>
    ensures { OnOk result (out.new.items ≡ out.old.items ++ merge_text merge.now) }
{
    put_word(out, b"MERGE BASE", merge.base)?;
    put_segments(out, merge)
}

fn put_segments(out: &mut Vec<u8>, merge: &MergeNote) -> Result<(), Memory>
    ensures { OnOk result (out.new.items ≡ out.old.items ++ (codes " FROM" ++ (fields merge.now.olds ++ (flat_map new_segment_text merge.now.news ++ (codes " MARKED" ++ flat_map place_field merge.now.marked))))) }
{
    put_list(out, b" FROM", merge.olds.as_slice())?;
    put_each(out, merge.news.as_slice())?;
    put_list(out, b" MARKED", merge.marked.as_slice())
}
