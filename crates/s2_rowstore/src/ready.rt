// What a write needs is made ready before anything is changed: room for versions, and notes of keys.
ghost use Rattle.std.specs.Prelude.{◌≡◌, ◌<◌, ◌≤◌, ℕ, None, Some, OnOk, true, nat_lt, All, length, List};
ghost use Rattle.std.specs.Option.{option_copied, ForSome};
ghost use Rattle.s2_value.specs.declared.values.Value.{Value as AnyValue};
ghost use Rattle.s2_value.specs.Schemas.{keys_of, fits};
ghost use Rattle.s2_rowstore.specs.Lines.{line_at, body_at, names_row};
ghost use Rattle.s2_rowstore.specs.Keys.{IsNotedRow, KeepsNotes};
ghost use Rattle.s2_rowstore.specs.Store.{rows_fit, changes_fit};
ghost use Rattle.s2_rowstore.specs.Prepared.{IsReady, IsReadyChange, SameBodies, KeepsRoom};

use crate::lines::{Lines, reserve_line};
use crate::notes::{Notes, note_row};
use crate::present::add_id;
use s2_value::{Memory, Row, Schema};
use std::alloc::Global;
use std::collections::BTreeSet;

// Makes room for so many more versions of a row, and notes the keys of the row that is to come.
fn ready_line(
    lines: &mut Lines,
    notes: &mut [Notes],
    alloc: Global,
    schema: &Schema,
    id: u64,
    row: Option<&Row>,
    more: usize,
) -> Result<(), Memory>
    requires fits { (r : List AnyValue) → option_copied row ≡ Some r → fits schema.now r ≡ true }
    requires count { length notes.old ≡ length (keys_of schema.now) }
    ensures same { SameBodies lines.old.entries lines.new.entries }
    ensures kept { KeepsRoom lines.old.entries lines.new.entries }
    ensures notes { KeepsNotes notes.old notes.new }
    ensures room { OnOk result (more ≤ (line_at lines.new.entries id).room) }
    ensures noted { OnOk result ((r : List AnyValue) → option_copied row.entry ≡ Some r → IsNotedRow schema.now notes.new id r) }
{
    if let Some(row) = row {
        note_row(notes, alloc, schema, id, row)?;
    }
    reserve_line(lines, alloc, id, more)
}

/// Makes ready for a version of each of the rows, with room for that of an open write besides.
pub(crate) fn ready_rows(
    lines: &mut Lines,
    notes: &mut [Notes],
    alloc: Global,
    schema: &Schema,
    rows: &[(u64, Row)],
) -> Result<(), Memory>
    requires fits { rows_fit schema.now rows.now ≡ true }
    requires count { length notes.old ≡ length (keys_of schema.now) }
    ensures same { SameBodies lines.old.entries lines.new.entries }
    ensures notes { KeepsNotes notes.old notes.new }
    ensures ready { OnOk result (All (IsReady schema.now notes.new lines.new.entries) rows.now) }
{
    for (id, row) in rows {
        ready_line(lines, notes, alloc, schema, *id, Some(row), 2)?;
    }
    Ok(())
}

/// Makes ready for an open write of each of the rows.
pub(crate) fn ready_changes(
    lines: &mut Lines,
    notes: &mut [Notes],
    ids: &mut BTreeSet<u64>,
    alloc: Global,
    schema: &Schema,
    changes: &[(u64, Option<Row>)],
) -> Result<(), Memory>
    requires fits { changes_fit schema.now changes.now ≡ true }
    requires count { length notes.old ≡ length (keys_of schema.now) }
    ensures same { SameBodies lines.old.entries lines.new.entries }
    ensures notes { KeepsNotes notes.old notes.new }
    ensures ids { (n : ℕ) → names_row ids.old.keys n ≡ true → names_row ids.new.keys n ≡ true }
    ensures ready { OnOk result (All (IsReadyChange schema.now notes.new lines.new.entries ids.new.keys) changes.now) }
{
    for (id, change) in changes {
        ready_line(lines, notes, alloc, schema, *id, change.as_ref(), 1)?;
        add_id(ids, *id)?;
    }
    Ok(())
}
