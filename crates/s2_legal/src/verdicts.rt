//! The verdict on a statement.
ghost use Rattle.std.specs.Prelude.{◌≡◌, ◌≤◌, ◌||◌, [], ◌∷◌, IfOk, IfSome, true, suc, length, map, is_none, unwrap_or, if◌then◌else◌, Some, None};
ghost use Rattle.std.specs.List.{list_all};
ghost use Rattle.std.specs.Option.{option_or};
ghost use Rattle.s2_model.specs.Table.{apply, rises_above};
ghost use Rattle.s2_model.specs.Rows.{after};
ghost use Rattle.s2_model.specs.Answer.{answer, kept};
ghost use Rattle.s2_model.specs.History.{History};
ghost use Rattle.s2_model.specs.Verdict.{first_some, out_of_range, puts_from, matched, updated, entries_of, written, says, makes, verdict};
ghost use Rattle.s2_legal.specs.Built.{is_built_stmt, is_built_what, are_built};
ghost use Rattle.s2_legal.specs.Knows.{IsKept, Knows};
ghost use Rattle.s2_legal.specs.World.{IsAtPin, flag_of, seen_in, view_in, locked_in, locked_value_in, duplicate_in, changes_from, write_in, is_ruled, is_ruled_refusal};
ghost use Rattle.s2_legal.specs.Rulings.{begin_in, end_in, later_refusal_in, open_write_in, write_ruling_in};

use crate::keys::{duplicate, locked_value};
use crate::tables::kept_rows;
use crate::world::{World, holder, matching};
use s2_answer::answer;
use s2_model::{Change, Condition, Refusal, Reply, Select, SetList, Stmt, What, after};
use s2_value::{Duplicate, Memory, Row, Schema, Seq};
use std::alloc::{AllocError, Global};

/// The last length of a history at which a statement that appends is taken.
const LAST_LENGTH: usize = 4_194_240;

/// The most rows that a statement inserts, updates or deletes.
const MOST_ROWS: usize = 65_536;

/// A reply, and the entries that are made with it.
#[derive(Drop)]
pub(crate) struct Ruled {
    pub reply: Reply,
    pub makes: Vec<What>,
}

fn says(alloc: Global, reply: Reply) -> Ruled
    ensures reply { result.reply ≡ reply }
    ensures makes { result.makes.items ≡ [] }
{
    Ruled {
        reply,
        makes: Vec::new(alloc),
    }
}

fn refused(alloc: Global, refusal: Refusal) -> Ruled
    ensures reply { result.reply ≡ Reply.Refused refusal }
    ensures makes { result.makes.items ≡ [] }
{
    says(alloc, Reply::Refused(refusal))
}

/// The first row that another holds.
fn locked(world: &World, k: u8, rows: &[(u64, Row)]) -> Option<Refusal>
    requires { length world.now.writes.items ≡ 256 }
    ensures first { result ≡ locked_in world.now.writes.items k rows.now }
    ensures kind { IfSome result (λ r. is_ruled_refusal r ≡ true) }
{
    let mut left = rows;
    while let [row, rest @ ..] = left {
        if let Some(holder) = holder(world, k, row.0) {
            return Some(Refusal::Locked { row: row.0, holder });
        }
        left = rest;
    }
    None
}

fn is_out_of_range(alloc: Global, sets: &SetList, row: &Row) -> Result<bool, Memory>
    ensures { IfOk result (λ b. b ≡ is_none (after sets.now row.now)) }
{
    let changed = after(alloc, sets, row)?;
    Ok(changed.is_none())
}

fn first_out_of_range(
    alloc: Global,
    sets: &SetList,
    rows: &[(u64, Row)],
) -> Result<Option<Refusal>, Memory>
    ensures first { IfOk result (λ r. r ≡ first_some (λ p. if is_none (after sets.now p.1) then Some (Refusal.OutOfRange p.0) else None) rows.now) }
    ensures kind { IfOk result (λ o. IfSome o (λ r. is_ruled_refusal r ≡ true)) }
{
    let mut left = rows;
    while let [row, rest @ ..] = left {
        if is_out_of_range(alloc, sets, &row.1)? {
            return Ok(Some(Refusal::OutOfRange { row: row.0 }));
        }
        left = rest;
    }
    Ok(None)
}

/// The first of the matched rows of which a sum leaves 64 bits.
fn out_of_range(alloc: Global, stmt: &Stmt, rows: &[(u64, Row)]) -> Result<Option<Refusal>, Memory>
    ensures first { IfOk result (λ r. r ≡ out_of_range stmt.now rows.now) }
    ensures kind { IfOk result (λ o. IfSome o (λ r. is_ruled_refusal r ≡ true)) }
{
    match stmt {
        Stmt::Update(sets, _) => first_out_of_range(alloc, sets, rows),
        _ => Ok(None),
    }
}

/// The next row number. Past 64 bits there is none: it answers as want of memory does.
fn number_after(number: u64) -> Result<u64, Memory>
    ensures { IfOk result (λ n. n ≡ suc number) }
{
    match number.checked_add(1) {
        Some(next) => Ok(next),
        None => Err(AllocError),
    }
}

fn inserted(alloc: Global, rows: &[Row], greatest: u64) -> Result<Vec<Change>, Memory>
    ensures { IfOk result (λ cs. cs.items ≡ puts_from (suc greatest) rows.now) }
{
    let mut changes = Vec::new(alloc);
    let mut number = greatest;
    let mut left = rows;
    while let [row, rest @ ..] = left {
        number = number_after(number)?;
        changes.push(Change::Put(number, row.copy()?))?;
        left = rest;
    }
    Ok(changes)
}

fn updated_row(alloc: Global, sets: &SetList, row: &Row) -> Result<Row, Memory>
    ensures { IfOk result (λ x. x ≡ unwrap_or (after sets.now row.now) row.now) }
{
    match after(alloc, sets, row)? {
        Some(changed) => Ok(changed),
        None => row.copy(),
    }
}

fn updated(alloc: Global, sets: &SetList, rows: &[(u64, Row)]) -> Result<Vec<Change>, Memory>
    ensures { IfOk result (λ cs. cs.items ≡ map (updated sets.now) rows.now) }
{
    let mut changes = Vec::new(alloc);
    for row in rows {
        changes.push(Change::Put(row.0, updated_row(alloc, sets, &row.1)?))?;
    }
    Ok(changes)
}

fn deleted(alloc: Global, rows: &[(u64, Row)]) -> Result<Vec<Change>, Memory>
    ensures { IfOk result (λ cs. cs.items ≡ map (λ p. Change.Drop p.0) rows.now) }
{
    let mut changes = Vec::new(alloc);
    for row in rows {
        changes.push(Change::Drop(row.0))?;
    }
    Ok(changes)
}

/// The rows that a write matches among those that the actor sees.
fn matched(alloc: Global, world: &World, k: u8, stmt: &Stmt) -> Result<Vec<(u64, Row)>, Memory>
    requires { length world.now.writes.items ≡ 256 }
    ensures { IfOk result (λ v. v.items ≡ matched stmt.now (view_in world.now.rows.entries world.now.writes.items k)) }
{
    match stmt {
        Stmt::Update(_, pred) => matching(alloc, world, k, pred),
        Stmt::Delete(pred) => matching(alloc, world, k, pred),
        _ => Ok(Vec::new(alloc)),
    }
}

/// The changes of a write that matches these rows.
fn changes(
    alloc: Global,
    greatest: u64,
    stmt: &Stmt,
    rows: &[(u64, Row)],
) -> Result<Vec<Change>, Memory>
    ensures { IfOk result (λ cs. cs.items ≡ changes_from stmt.now rows.now (suc greatest)) }
{
    match stmt {
        Stmt::Insert(inserts) => inserted(alloc, inserts.as_slice(), greatest),
        Stmt::Update(sets, _) => updated(alloc, sets, rows),
        Stmt::Delete(_) => deleted(alloc, rows),
        _ => Ok(Vec::new(alloc)),
    }
}

/// The entries of a write, which is committed at once where its actor isn't in a transaction.
fn entries_of(alloc: Global, running: bool, changes: Vec<Change>) -> Result<Vec<What>, Memory>
    ensures makes { IfOk result (λ v. v.items ≡ entries_of running changes.items) }
    ensures entries { IfOk result (λ v. list_all is_built_what v.items ≡ true) }
{
    let mut makes = Vec::new(alloc);
    makes.push(What::Write(Seq::from_vec(changes)))?;
    if !running {
        makes.push(What::Commit)?;
    }
    Ok(makes)
}

/// A write without a refusal.
fn written(alloc: Global, running: bool, changes: Vec<Change>) -> Result<Ruled, Memory>
    requires { length changes.items ≤ 65536 }
    ensures rules { IfOk result (λ r. written [] running changes.items ≡ makes r.reply r.makes.items) }
    ensures kind { IfOk result (λ r. is_ruled r.reply ≡ true) }
    ensures entries { IfOk result (λ r. list_all is_built_what r.makes.items ≡ true) }
{
    let count = changes.len() as u32;
    if count == 0 {
        return Ok(says(alloc, Reply::Changed(0)));
    }
    let makes = entries_of(alloc, running, changes)?;
    let reply = Reply::Changed(count);
    Ok(Ruled { reply, makes })
}

/// The first refusal by rows: one that another holds, then one of which a sum leaves 64 bits.
fn row_refusal(
    alloc: Global,
    world: &World,
    k: u8,
    stmt: &Stmt,
    rows: &[(u64, Row)],
) -> Result<Option<Refusal>, Memory>
    requires { length world.now.writes.items ≡ 256 }
    ensures first { IfOk result (λ r. r ≡ option_or (locked_in world.now.writes.items k rows.now) (out_of_range stmt.now rows.now)) }
    ensures kind { IfOk result (λ o. IfSome o (λ r. is_ruled_refusal r ≡ true)) }
{
    if let Some(refusal) = locked(world, k, rows) {
        return Ok(Some(refusal));
    }
    out_of_range(alloc, stmt, rows)
}

/// The first refusal by keys: a value that another holds, then one that another row has.
fn key_refusal(
    alloc: Global,
    schema: &Schema,
    world: &World,
    k: u8,
    changes: &[Change],
) -> Result<Option<Refusal>, Memory>
    requires kept { IsKept schema.now world.now }
    requires table { rises_above 0 (apply (view_in world.now.rows.entries world.now.writes.items k) changes.now) ≡ true }
    ensures first { IfOk result (λ r. r ≡ option_or (locked_value_in world.now.rows.entries world.now.writes.items k schema.now.uniques changes.now) (duplicate_in world.now.rows.entries world.now.writes.items k schema.now.uniques changes.now)) }
    ensures kind { IfOk result (λ o. IfSome o (λ r. is_ruled_refusal r ≡ true)) }
{
    if let Some(refusal) = locked_value(alloc, schema, world, k, changes)? {
        return Ok(Some(refusal));
    }
    duplicate(alloc, schema, world, k, changes)
}

/// The first refusal of a write of few enough rows.
fn later_refusal(
    alloc: Global,
    schema: &Schema,
    world: &World,
    k: u8,
    stmt: &Stmt,
    rows: &[(u64, Row)],
    changes: &[Change],
) -> Result<Option<Refusal>, Memory>
    requires kept { IsKept schema.now world.now }
    requires table { rises_above 0 (apply (view_in world.now.rows.entries world.now.writes.items k) changes.now) ≡ true }
    ensures first { IfOk result (λ r. r ≡ later_refusal_in schema.now.uniques world.now.rows.entries world.now.writes.items k stmt.now rows.now changes.now) }
    ensures kind { IfOk result (λ o. IfSome o (λ r. is_ruled_refusal r ≡ true)) }
{
    if let Some(refusal) = row_refusal(alloc, world, k, stmt, rows)? {
        return Ok(Some(refusal));
    }
    key_refusal(alloc, schema, world, k, changes)
}

/// What a write of these rows and changes answers outside a pin, where the history has room.
fn write(
    alloc: Global,
    schema: &Schema,
    world: &World,
    k: u8,
    stmt: &Stmt,
    rows: &[(u64, Row)],
    changes: Vec<Change>,
) -> Result<Ruled, Memory>
    requires kept { IsKept schema.now world.now }
    requires table { rises_above 0 (apply (view_in world.now.rows.entries world.now.writes.items k) changes.items) ≡ true }
    ensures rules { IfOk result (λ r. write_in schema.now.uniques world.now.rows.entries world.now.writes.items (flag_of world.now.running.items k) k stmt.now rows.now changes.items ≡ makes r.reply r.makes.items) }
    ensures kind { IfOk result (λ r. is_ruled r.reply ≡ true) }
    ensures entries { IfOk result (λ r. list_all is_built_what r.makes.items ≡ true) }
{
    if changes.len() > MOST_ROWS {
        return Ok(refused(alloc, Refusal::TooManyRows));
    }
    match later_refusal(alloc, schema, world, k, stmt, rows, &changes)? {
        Some(refusal) => Ok(refused(alloc, refusal)),
        None => written(alloc, world.is_running(k), changes),
    }
}

/// What a write answers outside a pin, where the history has room.
fn open_write(
    alloc: Global,
    schema: &Schema,
    world: &World,
    k: u8,
    stmt: &Stmt,
) -> Result<Ruled, Memory>
    requires kept { IsKept schema.now world.now }
    requires rising { rises_above 0 (view_in world.now.rows.entries world.now.writes.items k) ≡ true }
    ensures rules { IfOk result (λ r. open_write_in schema.now.uniques world.now k stmt.now ≡ makes r.reply r.makes.items) }
    ensures kind { IfOk result (λ r. is_ruled r.reply ≡ true) }
    ensures entries { IfOk result (λ r. list_all is_built_what r.makes.items ≡ true) }
{
    let rows = matched(alloc, world, k, stmt)?;
    let changes = changes(alloc, world.greatest, stmt, &rows)?;
    write(alloc, schema, world, k, stmt, &rows, changes)
}

fn write_ruling(
    alloc: Global,
    schema: &Schema,
    world: &World,
    count: usize,
    k: u8,
    stmt: &Stmt,
) -> Result<Ruled, Memory>
    requires kept { IsKept schema.now world.now }
    requires rising { rises_above 0 (seen_in (flag_of world.now.pinned.items k) world.now.rows.entries world.now.writes.items k) ≡ true }
    ensures rules { IfOk result (λ r. write_ruling_in schema.now.uniques world.now count k stmt.now ≡ makes r.reply r.makes.items) }
    ensures kind { IfOk result (λ r. is_ruled r.reply ≡ true) }
    ensures entries { IfOk result (λ r. list_all is_built_what r.makes.items ≡ true) }
{
    if world.is_pinned(k) {
        return Ok(refused(alloc, Refusal::ReadOnly));
    }
    if count > LAST_LENGTH {
        return Ok(refused(alloc, Refusal::LogFull));
    }
    open_write(alloc, schema, world, k, stmt)
}

fn done(alloc: Global, what: What) -> Result<Ruled, Memory>
    ensures reply { IfOk result (λ r. r.reply ≡ Reply.Done) }
    ensures makes { IfOk result (λ r. r.makes.items ≡ what ∷ []) }
{
    let mut makes = Vec::new(alloc);
    makes.push(what)?;
    let reply = Reply::Done;
    Ok(Ruled { reply, makes })
}

fn begin_ruling(
    alloc: Global,
    world: &World,
    count: usize,
    k: u8,
    read_only: bool,
) -> Result<Ruled, Memory>
    requires running { length world.now.running.items ≡ 256 }
    requires pinned { length world.now.pinned.items ≡ 256 }
    ensures rules { IfOk result (λ r. begin_in (flag_of world.now.running.items k || flag_of world.now.pinned.items k) count (if read_only then What.Pin else What.Begin) ≡ makes r.reply r.makes.items) }
    ensures kind { IfOk result (λ r. is_ruled r.reply ≡ true) }
    ensures entries { IfOk result (λ r. list_all is_built_what r.makes.items ≡ true) }
{
    if world.is_running(k) || world.is_pinned(k) {
        return Ok(refused(alloc, Refusal::AlreadyOpen));
    }
    if count > LAST_LENGTH {
        return Ok(refused(alloc, Refusal::LogFull));
    }
    let what = if read_only { What::Pin } else { What::Begin };
    done(alloc, what)
}

fn end_ruling(alloc: Global, world: &World, k: u8, keeps: bool) -> Result<Ruled, Memory>
    requires running { length world.now.running.items ≡ 256 }
    requires pinned { length world.now.pinned.items ≡ 256 }
    ensures rules { IfOk result (λ r. end_in (flag_of world.now.pinned.items k) (flag_of world.now.running.items k) (if keeps then What.Commit else What.Rollback) ≡ makes r.reply r.makes.items) }
    ensures kind { IfOk result (λ r. is_ruled r.reply ≡ true) }
    ensures entries { IfOk result (λ r. list_all is_built_what r.makes.items ≡ true) }
{
    if world.is_pinned(k) {
        return done(alloc, What::Unpin);
    }
    if !world.is_running(k) {
        return Ok(refused(alloc, Refusal::NoTransaction));
    }
    let what = if keeps { What::Commit } else { What::Rollback };
    done(alloc, what)
}

/// The rows that match among those that the session sees: at a pin the content alone.
fn seen(alloc: Global, world: &World, k: u8, pred: &Condition) -> Result<Vec<(u64, Row)>, Memory>
    requires actors { length world.now.writes.items ≡ 256 }
    requires pinned { length world.now.pinned.items ≡ 256 }
    ensures { IfOk result (λ v. v.items ≡ kept pred.now (seen_in (flag_of world.now.pinned.items k) world.now.rows.entries world.now.writes.items k)) }
{
    if world.is_pinned(k) {
        return kept_rows(alloc, &world.rows, pred);
    }
    matching(alloc, world, k, pred)
}

#[tactic(auto, using(crate::proofs::Worlds::answer_kept, crate::proofs::Rising::rising_kept))]
fn read(alloc: Global, world: &World, k: u8, select: &Select) -> Result<Ruled, Memory>
    requires actors { length world.now.writes.items ≡ 256 }
    requires pinned { length world.now.pinned.items ≡ 256 }
    requires rising { rises_above 0 (seen_in (flag_of world.now.pinned.items k) world.now.rows.entries world.now.writes.items k) ≡ true }
    ensures rules { IfOk result (λ r. says (Reply.Rows (answer select.now (seen_in (flag_of world.now.pinned.items k) world.now.rows.entries world.now.writes.items k))) ≡ makes r.reply r.makes.items) }
    ensures kind { IfOk result (λ r. is_ruled r.reply ≡ true) }
    ensures entries { IfOk result (λ r. list_all is_built_what r.makes.items ≡ true) }
{
    let rows = seen(alloc, world, k, &select.pred)?;
    let cells = answer(alloc, select, &rows)?;
    Ok(says(alloc, Reply::Rows(cells)))
}

/// What a session's statement answers after a history of this length, and the entries that it then makes. At a pin the history is to end there.
/// The `Err` is want of memory; it also comes where an inserted row would have a number past 64 bits.
pub(crate) fn verdict(
    alloc: Global,
    schema: &Schema,
    world: &World,
    count: usize,
    k: u8,
    stmt: &Stmt,
) -> Result<Ruled, Memory>
    requires kept { IsKept schema.now world.now }
    requires rising { rises_above 0 (seen_in (flag_of world.now.pinned.items k) world.now.rows.entries world.now.writes.items k) ≡ true }
    requires built { is_built_stmt stmt.now ≡ true }
    ensures rules { IfOk result (λ r. (H : History) → Knows schema.now world.now H → are_built H ≡ true → IsAtPin H k stmt.now → count ≡ length H → verdict schema.now H k stmt.now ≡ makes r.reply r.makes.items) }
    ensures kind { IfOk result (λ r. is_ruled r.reply ≡ true) }
    ensures entries { IfOk result (λ r. list_all is_built_what r.makes.items ≡ true) }
{
    match stmt {
        Stmt::Select(select) => read(alloc, world, k, select.get()),
        Stmt::Begin => begin_ruling(alloc, world, count, k, false),
        Stmt::BeginReadOnly => begin_ruling(alloc, world, count, k, true),
        Stmt::Commit => end_ruling(alloc, world, k, true),
        Stmt::Rollback => end_ruling(alloc, world, k, false),
        _ => write_ruling(alloc, schema, world, count, k, stmt),
    }
}
