//! The rows are put together by key.
ghost use Rattle.std.specs.Prelude.{◌≡◌, ◌≤◌, ◌<◌, ◌++◌, ◌∷◌, [], true, List, length, map, IfOk, OnOk, Some, if◌then◌else◌};
ghost use Rattle.std.specs.List.{list_all};
ghost use Rattle.std.specs.Option.{unwrap_or};
ghost use Rattle.std.specs.BTreeMap.{IsOrdered};
ghost use Rattle.s2_value.specs.declared.values.Value.{Value as AnyValue};
ghost use Rattle.s2_value.specs.Columns.{are_below};
ghost use Rattle.s2_value.specs.Order.{row_eq, row_cmp};
ghost use Rattle.s2_value.specs.Rows.{key_of};
ghost use Rattle.s2_segindex.specs.Groups.{offsets_at_key, groups_of};

use s2_value::{Duplicate, Key, Memory, Row, Seq, Value};
use std::alloc::Global;
use std::collections::BTreeMap;

/// The offsets of each key.
pub(crate) type Groups = BTreeMap<Key, Seq<u16>>;

// The values of a row at the columns of a key.
fn key_of(alloc: Global, places: &[u8], row: &[Value]) -> Result<Key, Memory>
    requires { are_below (length row.now) places.now ≡ true }
    ensures { IfOk result (λ k. k ≡ key_of places.now row.now) }
{
    let mut key = Vec::with_capacity(alloc, places.len())?;
    for place in places {
        key.push(row[usize::from(*place)].copy()?)?;
    }
    Ok(Seq::from_vec(key))
}

// Puts the offset behind those of its key.
fn note(groups: &mut Groups, alloc: Global, key: Key, offset: u16) -> Result<(), Memory>
    ensures noted { OnOk result ((q : List AnyValue) → offsets_at_key q groups.new.entries ≡ (if row_eq key q then Some (unwrap_or (offsets_at_key q groups.old.entries) [] ++ offset ∷ []) else offsets_at_key q groups.old.entries)) }
    ensures ordered { OnOk result (IsOrdered row_cmp groups.new) }
{
    if let Some(offsets) = groups.get_mut(&key) {
        return offsets.add(offset);
    }
    let mut offsets = Seq::new(alloc);
    offsets.add(offset)?;
    groups.insert(key, offsets)?;
    Ok(())
}

/// The rows' keys, each with the offsets of its rows.
pub(crate) fn collect(alloc: Global, rows: &[Row], places: &[u8]) -> Result<Groups, Memory>
    requires few { length rows.now ≤ 8192 }
    requires columns { list_all (λ r. are_below (length r) places.now) rows.now ≡ true }
    ensures { IfOk result (λ g. g.entries ≡ groups_of (map (key_of places.now) rows.now)) }
{
    let mut groups = BTreeMap::new(alloc);
    for (i, row) in rows.iter().enumerate() {
        let key = key_of(alloc, places, row.as_slice())?;
        note(&mut groups, alloc, key, i as u16)?;
    }
    Ok(groups)
}
