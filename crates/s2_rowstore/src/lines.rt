// The lines of all rows, by row number.
ghost use Rattle.std.specs.Prelude.{◌≡◌, ◌<◌, ◌≤◌, ℕ, ◌++◌, ◌-◌, ◌∷◌, [], None, Some, OnOk, OnErr, is_some, not, false, true, vec_len, length, ◌==◌, if◌then◌else◌};
ghost use Rattle.std.specs.Option.{option_copied, option_map};
ghost use Rattle.s2_rowstore.specs.Chains.{body, is_empty_body, own, seen, living_since, ended, begun, kept};
ghost use Rattle.std.specs.Prelude.{IfOk, IfSome};
ghost use Rattle.std.specs.List.{filter};
ghost use Rattle.s2_rowstore.specs.Keys.{body_has};
ghost use Rattle.std.specs.Ordering.{nat_cmp};
ghost use Rattle.std.specs.List.Sorted.{IsStrictlySortedBy};
ghost use Rattle.s2_rowstore.specs.Visible.{visible_in, numbers, lent};
ghost use Rattle.s2_rowstore.specs.Lines.{line_at, body_at, for_row, names_row, are_apart, have_room, with_begun, with_slot, committed, undone, cut_body};
ghost use Rattle.s2_rowstore.specs.Ends.{AreQueued, KeepsPairs, has_end, has_pair};
ghost use Rattle.s2_rowstore.specs.Store.{KeepsBut, KeepsHad};
ghost use Rattle.s2_value.specs.Schemas.{keys_of};

use crate::chain::{Chain, Slot};
use crate::ends::Ends;
use crate::ids::{Held, Ids};
use crate::notes::Notes;
use crate::unnoted::{cut_noted, put_noted, undo_noted, unnote_all_done};
use s2_value::{Duplicate, Memory, Row, Schema, Seq, TableRows, Value};
use sqlite_items::Boxed;
use std::alloc::Global;
use std::collections::{BTreeMap, BTreeSet};
use std::ops::Bound;

pub(crate) type Lines = BTreeMap<u64, Chain>;

/// The row as the actor sees it at r.
pub(crate) fn seen_row(lines: &Lines, id: u64, actor: u8, r: u64) -> Option<&Row>
    ensures { option_copied result ≡ seen actor r (body_at lines.now.entries id) }
{
    lines.get(&id)?.seen(actor, r)
}

/// When the row's living version began.
pub(crate) fn row_since(lines: &Lines, id: u64) -> Option<u64>
    ensures { result ≡ living_since (body_at lines.now.entries id).0 }
{
    lines.get(&id)?.living_since()
}

/// Makes room for so many more versions of the row.
pub(crate) fn reserve_line(
    lines: &mut Lines,
    alloc: Global,
    id: u64,
    more: usize,
) -> Result<(), Memory>
    ensures same { (n : ℕ) → body_at lines.new.entries n ≡ body_at lines.old.entries n }
    ensures room { OnOk result (more ≤ (line_at lines.new.entries id).room) }
    ensures kept { (n : ℕ) → (line_at lines.old.entries n).room ≤ (line_at lines.new.entries n).room }
{
    if let Some(chain) = lines.get_mut(&id) {
        return chain.reserve(more);
    }
    let mut chain = Chain::new(alloc)?;
    chain.reserve(more)?;
    lines.insert(id, chain)?;
    Ok(())
}

/// Begins a version of the row.
pub(crate) fn begin_line(lines: &mut Lines, id: u64, row: Row, time: u64)
    requires { 1 < (line_at lines.old.entries id).room }
    ensures same { (n : ℕ) → body_at lines.new.entries n ≡ (if id == n then with_begun time (Some row) (body_at lines.old.entries n) else body_at lines.old.entries n) }
    ensures room { (n : ℕ) → (id == n) ≡ false → (line_at lines.new.entries n).room ≡ (line_at lines.old.entries n).room }
{
    if let Some(chain) = lines.get_mut(&id) {
        chain.begin(row, time);
    }
}

/// Sets the open write of the row, and takes back the notes of the one before it.
pub(crate) fn put_line(
    lines: &mut Lines,
    notes: &mut [Notes],
    spare: &mut Vec<Value>,
    schema: &Schema,
    id: u64,
    slot: Slot,
)
    requires room { 0 < (line_at lines.old.entries id).room }
    requires count { length notes.old ≡ length (keys_of schema.now) }
    ensures same { (n : ℕ) → body_at lines.new.entries n ≡ (if id == n then ((body_at lines.old.entries n).0, Some slot) else body_at lines.old.entries n) }
    ensures room { (n : ℕ) → (line_at lines.new.entries n).room ≡ (line_at lines.old.entries n).room }
    ensures notes { KeepsBut schema.now id (body_at lines.new.entries id) notes.old notes.new }
{
    if let Some(chain) = lines.get_mut(&id) {
        put_noted(chain, notes, spare, schema, id, slot);
    }
}

/// The actor's open write of the row takes effect.
pub(crate) fn commit_line(lines: &mut Lines, id: u64, actor: u8, time: u64)
    ensures { (n : ℕ) → body_at lines.new.entries n ≡ (if id == n then committed actor time (body_at lines.old.entries n) else body_at lines.old.entries n) }
{
    if let Some(chain) = lines.get_mut(&id) {
        chain.commit(actor, time);
    }
}

// Whether a version of the row ended at `time`.
fn ended_at(lines: &Lines, id: u64, time: u64) -> bool
    ensures { result ≡ has_end time (body_at lines.now.entries id).0 }
{
    match lines.get(&id) {
        Some(chain) => chain.ended_at(time),
        None => false,
    }
}

// Puts a pair behind the others, if a version of the row ended at `time`.
fn queue_ended(ends: &mut Ends, lines: &Lines, id: u64, time: u64)
    ensures kept { KeepsPairs ends.old ends.new }
    ensures added { ends.new.whole ≡ true → has_end time (body_at lines.now.entries id).0 ≡ true → has_pair ends.new.queue time id ≡ true }
{
    if ended_at(lines, id, time) {
        ends.push(time, id);
    }
}

/// Puts a pair behind the others for each of the rows of which a version ended at `time`.
pub(crate) fn queue_all(ends: &mut Ends, lines: &Lines, ids: &BTreeSet<u64>, time: u64)
    ensures kept { KeepsPairs ends.old ends.new }
    ensures added { ends.new.whole ≡ true → (n : ℕ) → names_row ids.now.keys n ≡ true → has_end time (body_at lines.now.entries n).0 ≡ true → has_pair ends.new.queue time n ≡ true }
{
    for id in ids {
        queue_ended(ends, lines, *id, time);
    }
}

/// The actor's open write of the row is forgotten, with its notes.
pub(crate) fn undo_line(
    lines: &mut Lines,
    notes: &mut [Notes],
    spare: &mut Vec<Value>,
    schema: &Schema,
    id: u64,
    actor: u8,
)
    requires { length notes.old ≡ length (keys_of schema.now) }
    ensures after { (n : ℕ) → body_at lines.new.entries n ≡ (if id == n then undone actor (body_at lines.old.entries n) else body_at lines.old.entries n) }
    ensures notes { KeepsBut schema.now id (body_at lines.new.entries id) notes.old notes.new }
{
    if let Some(chain) = lines.get_mut(&id) {
        undo_noted(chain, notes, spare, schema, id, actor);
    }
}

/// The row's living version ends.
pub(crate) fn end_line(lines: &mut Lines, id: u64, time: u64)
    ensures { (n : ℕ) → body_at lines.new.entries n ≡ (if id == n then (ended time (body_at lines.old.entries n).0, (body_at lines.old.entries n).1) else body_at lines.old.entries n) }
{
    if let Some(chain) = lines.get_mut(&id) {
        chain.end(time);
    }
}

/// Begins a version of each of the rows.
pub(crate) fn begin_all(lines: &mut Lines, rows: Vec<(u64, Row)>, time: u64)
    requires apart { are_apart rows.items ≡ true }
    requires room { have_room 1 lines.old.entries rows.items ≡ true }
    ensures { (n : ℕ) → body_at lines.new.entries n ≡ with_begun time (for_row rows.items n) (body_at lines.old.entries n) }
{
    for (id, row) in rows {
        begin_line(lines, id, row, time);
    }
}

/// The changes with their rows on the heap.
pub(crate) fn boxed(
    alloc: Global,
    changes: Vec<(u64, Option<Row>)>,
) -> Result<Vec<(u64, Boxed<Option<Row>>)>, Memory>
    ensures { IfOk result (λ boxes. boxes.items ≡ changes.items) }
{
    let mut boxes = Vec::with_capacity(alloc, changes.len())?;
    for (id, change) in changes {
        boxes.push((id, Boxed::new(alloc, change)?))?;
    }
    Ok(boxes)
}

/// Sets the actor's open write of each of the rows, and takes back the notes of those before them.
pub(crate) fn put_all(
    lines: &mut Lines,
    notes: &mut [Notes],
    spare: &mut Vec<Value>,
    schema: &Schema,
    actor: u8,
    changes: Vec<(u64, Boxed<Option<Row>>)>,
)
    requires apart { are_apart changes.items ≡ true }
    requires room { have_room 0 lines.old.entries changes.items ≡ true }
    requires count { length notes.old ≡ length (keys_of schema.now) }
    ensures after { (n : ℕ) → body_at lines.new.entries n ≡ with_slot actor (for_row changes.items n) (body_at lines.old.entries n) }
    ensures notes { KeepsHad schema.now (λ n. with_slot actor (for_row changes.items n) (body_at lines.old.entries n)) notes.old notes.new }
{
    for (id, change) in changes {
        let slot = Slot {
            holder: actor,
            change,
        };
        put_line(lines, notes, spare, schema, id, slot);
    }
}

/// The actor's open writes take effect: all of them, since these are its rows.
pub(crate) fn commit_all(lines: &mut Lines, ids: &BTreeSet<u64>, actor: u8, time: u64)
    requires { (n : ℕ) → is_some (own actor (body_at lines.old.entries n).1) ≡ true → names_row ids.now.keys n ≡ true }
    ensures { (n : ℕ) → body_at lines.new.entries n ≡ committed actor time (body_at lines.old.entries n) }
{
    commit_each(lines, ids, actor, time);
}

/// The actor's open writes are forgotten, with their notes: all of them, since these are its rows.
pub(crate) fn undo_all(
    lines: &mut Lines,
    notes: &mut [Notes],
    spare: &mut Vec<Value>,
    schema: &Schema,
    ids: &BTreeSet<u64>,
    actor: u8,
)
    requires count { length notes.old ≡ length (keys_of schema.now) }
    requires listed { (n : ℕ) → is_some (own actor (body_at lines.old.entries n).1) ≡ true → names_row ids.now.keys n ≡ true }
    ensures after { (n : ℕ) → body_at lines.new.entries n ≡ undone actor (body_at lines.old.entries n) }
    ensures notes { KeepsHad schema.now (body_at lines.new.entries) notes.old notes.new }
{
    undo_each(lines, notes, spare, schema, ids, actor);
}

// The actor's open writes of these rows take effect.
fn commit_each(lines: &mut Lines, ids: &BTreeSet<u64>, actor: u8, time: u64)
    ensures { (n : ℕ) → body_at lines.new.entries n ≡ (if names_row ids.now.keys n then committed actor time (body_at lines.old.entries n) else body_at lines.old.entries n) }
{
    for id in ids {
        commit_line(lines, *id, actor, time);
    }
}

// The actor's open writes of these rows are forgotten, with their notes.
fn undo_each(
    lines: &mut Lines,
    notes: &mut [Notes],
    spare: &mut Vec<Value>,
    schema: &Schema,
    ids: &BTreeSet<u64>,
    actor: u8,
)
    requires { length notes.old ≡ length (keys_of schema.now) }
    ensures after { (n : ℕ) → body_at lines.new.entries n ≡ (if names_row ids.now.keys n then undone actor (body_at lines.old.entries n) else body_at lines.old.entries n) }
    ensures notes { KeepsHad schema.now (body_at lines.new.entries) notes.old notes.new }
{
    for id in ids {
        undo_line(lines, notes, spare, schema, *id, actor);
    }
}

/// The rows as the actor sees them at r, by row number.
pub(crate) fn visible_rows(
    lines: &Lines,
    alloc: Global,
    actor: u8,
    r: u64,
) -> Result<TableRows, Memory>
    ensures rows { IfOk result (λ rows. rows ≡ visible_in actor r lines.now.entries) }
    ensures ordered { IsStrictlySortedBy nat_cmp (numbers lines.now.entries) }
{
    let mut rows = Seq::new(alloc);
    for (id, chain) in lines {
        if let Some(row) = chain.seen(actor, r) {
            rows.add((*id, row.copy()?))?;
        }
    }
    Ok(rows)
}

/// The same rows, lent: none is copied.
pub(crate) fn lent_rows(
    lines: &Lines,
    alloc: Global,
    actor: u8,
    r: u64,
) -> Result<Vec<(u64, &Row)>, Memory>
    ensures rows { IfOk result (λ rows. lent rows.items ≡ visible_in actor r lines.now.entries) }
    ensures ordered { IsStrictlySortedBy nat_cmp (numbers lines.now.entries) }
{
    let mut rows = Vec::new(alloc);
    for (id, chain) in lines {
        if let Some(row) = chain.seen(actor, r) {
            rows.push((*id, row))?;
        }
    }
    Ok(rows)
}

// Whether some version or open write of the row has the key at these places.
fn row_has_key(lines: &Lines, id: u64, places: &[u8], key: &[Value]) -> bool
    ensures { result ≡ body_has places.now key.now (body_at lines.now.entries id) }
{
    match lines.get(&id) {
        Some(chain) => chain.has_key(places, key),
        None => false,
    }
}

// Those of the rows of which some version or open write has the key at these places.
fn many_with_key(
    lines: &Lines,
    alloc: Global,
    ids: &BTreeSet<u64>,
    places: &[u8],
    key: &[Value],
) -> Result<Vec<u64>, Memory>
    ensures rows { IfOk result (λ found. found.items ≡ filter (λ n. body_has places.now key.now (body_at lines.now.entries n)) ids.now.keys) }
    ensures ordered { IsStrictlySortedBy nat_cmp ids.now.keys }
{
    let mut found = Vec::new(alloc);
    for id in ids {
        if row_has_key(lines, *id, places, key) {
            found.push(*id)?;
        }
    }
    Ok(found)
}

// The same for one row.
fn one_with_key(
    lines: &Lines,
    alloc: Global,
    id: u64,
    places: &[u8],
    key: &[Value],
) -> Result<Vec<u64>, Memory>
    ensures { IfOk result (λ found. found.items ≡ filter (λ n. body_has places.now key.now (body_at lines.now.entries n)) (id ∷ [])) }
{
    let mut found = Vec::new(alloc);
    if row_has_key(lines, id, places, key) {
        found.push(id)?;
    }
    Ok(found)
}

/// Those of the rows noted for a key of which some version or open write has it at these places.
pub(crate) fn rows_with_key(
    lines: &Lines,
    alloc: Global,
    ids: &Ids,
    places: &[u8],
    key: &[Value],
) -> Result<Vec<u64>, Memory>
    ensures rows { IfOk result (λ found. found.items ≡ filter (λ n. body_has places.now key.now (body_at lines.now.entries n)) ids.now) }
    ensures ordered { IsStrictlySortedBy nat_cmp ids.now }
{
    match ids.held() {
        Held::One(id) => one_with_key(lines, alloc, *id, places, key),
        Held::Many(ids) => many_with_key(lines, alloc, ids, places, key),
    }
}

// The first row that isn't below `from`.
fn next_id(lines: &Lines, from: u64) -> Option<u64>
    ensures { IfSome result (λ id. from ≤ id) }
{
    let (id, _) = lines
        .range((Bound::Included(from), Bound::Unbounded))
        .next()?;
    if *id < from {
        return None;
    }
    Some(*id)
}

// Takes back the notes of the row's versions that ended at or before `h`: they are to be forgotten.
fn unnote_line(
    lines: &mut Lines,
    notes: &mut [Notes],
    spare: &mut Vec<Value>,
    schema: &Schema,
    id: u64,
    h: u64,
)
    requires { length notes.old ≡ length (keys_of schema.now) }
    ensures same { (n : ℕ) → cut_body h (body_at lines.new.entries n) ≡ cut_body h (body_at lines.old.entries n) }
    ensures notes { KeepsBut schema.now id (cut_body h (body_at lines.old.entries id)) notes.old notes.new }
{
    if let Some(chain) = lines.get_mut(&id) {
        unnote_all_done(chain, notes, spare, schema, id, h);
    }
}

// The same for all rows.
fn unnote_lines(
    lines: &mut Lines,
    notes: &mut [Notes],
    spare: &mut Vec<Value>,
    schema: &Schema,
    h: u64,
)
    requires { length notes.old ≡ length (keys_of schema.now) }
    ensures same { (n : ℕ) → cut_body h (body_at lines.new.entries n) ≡ cut_body h (body_at lines.old.entries n) }
    ensures notes { KeepsHad schema.now (λ n. cut_body h (body_at lines.old.entries n)) notes.old notes.new }
{
    let mut from = 0;
    while let Some(id) = next_id(lines, from) {
        unnote_line(lines, notes, spare, schema, id, h);
        if id == u64::MAX {
            return;
        }
        from = id + 1;
    }
}

// Forgets the versions that ended at or before `h`, with their notes, by a walk over all rows.
fn cut_all(lines: &mut Lines, notes: &mut [Notes], spare: &mut Vec<Value>, schema: &Schema, h: u64)
    requires { length notes.old ≡ length (keys_of schema.now) }
    ensures cut { (n : ℕ) → body_at lines.new.entries n ≡ cut_body h (body_at lines.old.entries n) }
    ensures notes { KeepsHad schema.now (body_at lines.new.entries) notes.old notes.new }
{
    unnote_lines(lines, notes, spare, schema, h);
    cut_lines(lines, h);
}

// Forgets the versions that ended at or before `h`, and the rows of which nothing is left, by a walk over all rows.
fn cut_lines(lines: &mut Lines, h: u64)
    ensures { (n : ℕ) → body_at lines.new.entries n ≡ (kept h (body_at lines.old.entries n).0, (body_at lines.old.entries n).1) }
{
    lines.retain(|_, chain| chain.cut(h));
}

// Forgets the versions of the row that ended at or before `h`, with their notes, and answers whether something is left.
fn cut_chain(
    lines: &mut Lines,
    notes: &mut [Notes],
    spare: &mut Vec<Value>,
    schema: &Schema,
    id: u64,
    h: u64,
) -> bool
    requires { length notes.old ≡ length (keys_of schema.now) }
    ensures after { (n : ℕ) → body_at lines.new.entries n ≡ (if id == n then cut_body h (body_at lines.old.entries n) else body_at lines.old.entries n) }
    ensures left { result ≡ not (is_empty_body (body_at lines.new.entries id)) }
    ensures notes { KeepsBut schema.now id (body_at lines.new.entries id) notes.old notes.new }
{
    match lines.get_mut(&id) {
        Some(chain) => cut_noted(chain, notes, spare, schema, id, h),
        None => false,
    }
}

// Forgets a row of which nothing is left.
fn drop_line(lines: &mut Lines, id: u64)
    requires { is_empty_body (body_at lines.old.entries id) ≡ true }
    ensures { (n : ℕ) → body_at lines.new.entries n ≡ body_at lines.old.entries n }
{
    let _ = lines.remove(&id);
}

// Forgets the versions of the row that ended at or before `h`, with their notes, and the row where nothing is left.
fn cut_line(
    lines: &mut Lines,
    notes: &mut [Notes],
    spare: &mut Vec<Value>,
    schema: &Schema,
    id: u64,
    h: u64,
)
    requires { length notes.old ≡ length (keys_of schema.now) }
    ensures after { (n : ℕ) → body_at lines.new.entries n ≡ (if id == n then cut_body h (body_at lines.old.entries n) else body_at lines.old.entries n) }
    ensures notes { KeepsBut schema.now id (body_at lines.new.entries id) notes.old notes.new }
{
    if !cut_chain(lines, notes, spare, schema, id, h) {
        drop_line(lines, id);
    }
}

// Forgets the versions that ended at or before `h`, with their notes, where each is queued.
fn cut_ended(
    lines: &mut Lines,
    ends: &mut Ends,
    notes: &mut [Notes],
    spare: &mut Vec<Value>,
    schema: &Schema,
    h: u64,
)
    requires count { length notes.old ≡ length (keys_of schema.now) }
    requires whole { ends.old.whole ≡ true }
    requires queued { AreQueued ends.old lines.old.entries }
    ensures cut { (n : ℕ) → body_at lines.new.entries n ≡ cut_body h (body_at lines.old.entries n) }
    ensures queued { AreQueued ends.new lines.new.entries }
    ensures notes { KeepsHad schema.now (body_at lines.new.entries) notes.old notes.new }
{
    while let Some(id) = ends.pop(h) {
        cut_line(lines, notes, spare, schema, id, h);
    }
}

/// Forgets the versions that ended at or before `h`, with their notes: those of the queue, and where it isn't whole, by a walk over all rows.
pub(crate) fn cut_rows(
    lines: &mut Lines,
    ends: &mut Ends,
    notes: &mut [Notes],
    spare: &mut Vec<Value>,
    schema: &Schema,
    h: u64,
)
    requires count { length notes.old ≡ length (keys_of schema.now) }
    requires queued { AreQueued ends.old lines.old.entries }
    ensures cut { (n : ℕ) → body_at lines.new.entries n ≡ cut_body h (body_at lines.old.entries n) }
    ensures queued { AreQueued ends.new lines.new.entries }
    ensures notes { KeepsHad schema.now (body_at lines.new.entries) notes.old notes.new }
{
    if ends.is_whole() {
        cut_ended(lines, ends, notes, spare, schema, h);
    } else {
        cut_all(lines, notes, spare, schema, h);
    }
}
