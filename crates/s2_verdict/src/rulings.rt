//! The verdict on a statement.
ghost use Rattle.std.specs.Prelude.{◌≡◌, ◌≤◌, ◌++◌, ◌∷◌, [], IfOk, length, if◌then◌else◌};
ghost use Rattle.std.specs.Option.{option_or};
ghost use Rattle.s2_model.specs.Table.{apply};
ghost use Rattle.s2_model.specs.History.{history, is_running, is_open, state, view};
ghost use Rattle.s2_model.specs.Answer.{answer};
ghost use Rattle.s2_model.specs.Verdict.{out_of_range, duplicate, says, refused, makes, moves, entries_of, written, end_verdict, begin_verdict, write_verdict, verdict};
ghost use Rattle.s2_verdict.specs.Holders.{locked_in, locked_value_in};
ghost use Rattle.s2_verdict.specs.Rulings.{made_by, ruling, later_refusal, open_write};

use crate::changes::{changes, matched};
use crate::holders::others;
use crate::refusals::{duplicate, locked, locked_value, out_of_range};
use s2_model::{Change, ChangeList, Entry, EntryList, Refusal, Reply, Ruling, Select, Stmt, What};
use s2_slow::{answer_of, apply, greatest, is_running, pin_of, resting, view, whole_state};
use s2_value::{ColList, Memory, Row, Schema, Seq};
use std::alloc::Global;

/// The last length of a history at which a statement that appends is taken.
const LAST_LENGTH: usize = 4_194_240;

/// The most rows that a statement inserts, updates or deletes.
const MOST_ROWS: usize = 65_536;

fn says(alloc: Global, actor: u8, reply: Reply) -> Ruling
    ensures { result ≡ ruling actor (says reply) }
{
    Ruling {
        reply,
        entries: Seq::new(alloc),
    }
}

fn refused(alloc: Global, actor: u8, refusal: Refusal) -> Ruling
    ensures { result ≡ ruling actor (refused refusal) }
{
    says(alloc, actor, Reply::Refused(refusal))
}

fn one_entry(alloc: Global, actor: u8, what: What) -> Result<EntryList, Memory>
    ensures { IfOk result (λ es. es ≡ made_by actor (what ∷ [])) }
{
    let mut entries = Seq::new(alloc);
    entries.add(Entry { actor, what })?;
    Ok(entries)
}

/// The MOVE of the matched rows that lie in a segment, if any.
#[tactic(auto, using(crate::proofs::SlowMoves::moves_of_some, crate::proofs::SlowMoves::move_of_some))]
fn moved(alloc: Global, h: &[Entry], actor: u8, rows: &[(u64, Row)]) -> Result<EntryList, Memory>
    ensures { IfOk result (λ es. es ≡ made_by actor (moves (history h.now) rows.now)) }
{
    if rows.is_empty() {
        return Ok(Seq::new(alloc));
    }
    let places = resting(alloc, h, rows)?;
    if places.len() == 0 {
        return Ok(Seq::new(alloc));
    }
    one_entry(alloc, actor, What::Move(places))
}

/// The WRITE, which is committed at once where its actor isn't in a transaction.
fn write_entries(
    alloc: Global,
    running: bool,
    actor: u8,
    changes: ChangeList,
) -> Result<EntryList, Memory>
    ensures { IfOk result (λ es. es ≡ made_by actor (entries_of running changes)) }
{
    let mut entries = one_entry(alloc, actor, What::Write(changes))?;
    if !running {
        entries.add(Entry {
            actor,
            what: What::Commit,
        })?;
    }
    Ok(entries)
}

fn joined(first: EntryList, more: EntryList) -> Result<EntryList, Memory>
    ensures { IfOk result (λ es. es ≡ first ++ more) }
{
    let mut entries = first;
    for entry in more.into_vec() {
        entries.add(entry)?;
    }
    Ok(entries)
}

/// A write without a refusal; `rows` are those that it matches.
#[tactic(auto, using(crate::proofs::SlowMoves::made_by_both))]
fn written(
    alloc: Global,
    h: &[Entry],
    actor: u8,
    rows: &[(u64, Row)],
    changes: ChangeList,
) -> Result<Ruling, Memory>
    requires { length changes ≤ 65536 }
    ensures { IfOk result (λ r. r ≡ ruling actor (written (moves (history h.now) rows.now) (is_running (history h.now) actor) changes)) }
{
    let count = changes.len() as u32;
    if count == 0 {
        return Ok(says(alloc, actor, Reply::Changed(0)));
    }
    let first = moved(alloc, h, actor, rows)?;
    let more = write_entries(alloc, is_running(h, actor), actor, changes)?;
    let entries = joined(first, more)?;
    Ok(Ruling {
        reply: Reply::Changed(count),
        entries,
    })
}

/// The unique keys, at most four.
fn uniques(schema: &Schema) -> &[ColList]
    ensures keys { result.now ≡ schema.now.uniques }
    ensures few { length result.now ≤ 4 }
{
    schema.uniques.as_slice()
}

/// The first refusal by rows: one that another holds, then one of which a sum leaves 64 bits.
fn row_refusal(
    alloc: Global,
    others: &[(u8, ChangeList)],
    stmt: &Stmt,
    rows: &[(u64, Row)],
) -> Result<Option<Refusal>, Memory>
    ensures { IfOk result (λ r. r ≡ option_or (locked_in others.now rows.now) (out_of_range stmt.now rows.now)) }
{
    let held = locked(others, rows);
    if held.is_some() {
        return Ok(held);
    }
    out_of_range(alloc, stmt, rows)
}

/// The first refusal by keys: a value that another holds, then one that another row has; `rows` is what the actor sees.
fn key_refusal(
    alloc: Global,
    h: &[Entry],
    others: &[(u8, ChangeList)],
    keys: &[ColList],
    rows: Vec<(u64, Row)>,
    changes: &[Change],
) -> Result<Option<Refusal>, Memory>
    requires { length keys.now ≤ 4 }
    ensures { IfOk result (λ r. r ≡ option_or (locked_value_in (state (history h.now)) others.now keys.now changes.now) (duplicate (apply rows.items changes.now) keys.now changes.now)) }
{
    let content = whole_state(alloc, h)?;
    let held = locked_value(alloc, &content, others, keys, changes)?;
    if held.is_some() {
        return Ok(held);
    }
    let mut rows = rows;
    apply(&mut rows, changes)?;
    duplicate(alloc, &rows, keys, changes)
}

/// The first refusal of a write of few enough rows; `rows` is what its actor sees.
fn later_refusal(
    alloc: Global,
    schema: &Schema,
    h: &[Entry],
    actor: u8,
    stmt: &Stmt,
    rows: Vec<(u64, Row)>,
    changes: &[Change],
) -> Result<Option<Refusal>, Memory>
    ensures { IfOk result (λ r. r ≡ later_refusal schema.now (history h.now) actor stmt.now rows.items changes.now) }
{
    let matching = matched(alloc, stmt, &rows)?;
    let others = others(alloc, h, actor)?;
    let by_row = row_refusal(alloc, &others, stmt, &matching)?;
    if by_row.is_some() {
        return Ok(by_row);
    }
    let by_key = key_refusal(alloc, h, &others, uniques(schema), rows, changes)?;
    Ok(by_key)
}

fn open_write(
    alloc: Global,
    schema: &Schema,
    h: &[Entry],
    actor: u8,
    stmt: &Stmt,
) -> Result<Ruling, Memory>
    ensures { IfOk result (λ r. r ≡ ruling actor (open_write schema.now (history h.now) actor stmt.now)) }
{
    let rows = view(alloc, h, actor)?;
    let changes = changes(alloc, stmt, rows.as_slice(), greatest(h))?;
    if changes.len() > MOST_ROWS {
        return Ok(refused(alloc, actor, Refusal::TooManyRows));
    }
    let matching = matched(alloc, stmt, rows.as_slice())?;
    match later_refusal(alloc, schema, h, actor, stmt, rows.into_vec(), &changes)? {
        Some(refusal) => Ok(refused(alloc, actor, refusal)),
        None => written(alloc, h, actor, &matching, Seq::from_vec(changes)),
    }
}

fn write_ruling(
    alloc: Global,
    schema: &Schema,
    h: &[Entry],
    actor: u8,
    stmt: &Stmt,
) -> Result<Ruling, Memory>
    ensures { IfOk result (λ r. r ≡ ruling actor (write_verdict schema.now (history h.now) actor stmt.now)) }
{
    if pin_of(h, actor).is_some() {
        return Ok(refused(alloc, actor, Refusal::ReadOnly));
    }
    if h.len() > LAST_LENGTH {
        return Ok(refused(alloc, actor, Refusal::LogFull));
    }
    open_write(alloc, schema, h, actor, stmt)
}

fn done(alloc: Global, actor: u8, what: What) -> Result<Ruling, Memory>
    ensures { IfOk result (λ r. r ≡ ruling actor (makes Reply.Done (what ∷ []))) }
{
    let entries = one_entry(alloc, actor, what)?;
    Ok(Ruling {
        reply: Reply::Done,
        entries,
    })
}

fn is_open(h: &[Entry], actor: u8) -> bool
    ensures { result ≡ is_open (history h.now) actor }
{
    is_running(h, actor) || pin_of(h, actor).is_some()
}

fn begin_ruling(alloc: Global, h: &[Entry], actor: u8, read_only: bool) -> Result<Ruling, Memory>
    ensures { IfOk result (λ r. r ≡ ruling actor (begin_verdict (history h.now) actor (if read_only then What.Pin else What.Begin))) }
{
    if is_open(h, actor) {
        return Ok(refused(alloc, actor, Refusal::AlreadyOpen));
    }
    if h.len() > LAST_LENGTH {
        return Ok(refused(alloc, actor, Refusal::LogFull));
    }
    let what = if read_only { What::Pin } else { What::Begin };
    done(alloc, actor, what)
}

fn end_ruling(alloc: Global, h: &[Entry], actor: u8, keeps: bool) -> Result<Ruling, Memory>
    ensures { IfOk result (λ r. r ≡ ruling actor (end_verdict (history h.now) actor (if keeps then What.Commit else What.Rollback))) }
{
    if pin_of(h, actor).is_some() {
        return done(alloc, actor, What::Unpin);
    }
    if !is_running(h, actor) {
        return Ok(refused(alloc, actor, Refusal::NoTransaction));
    }
    let what = if keeps { What::Commit } else { What::Rollback };
    done(alloc, actor, what)
}

fn read(alloc: Global, h: &[Entry], actor: u8, select: &Select) -> Result<Ruling, Memory>
    ensures { IfOk result (λ r. r ≡ ruling actor (says (Reply.Rows (answer select.now (view (history h.now) actor))))) }
{
    let rows = view(alloc, h, actor)?;
    let cells = answer_of(alloc, select, &rows)?;
    Ok(says(alloc, actor, Reply::Rows(cells)))
}

/// What a session's statement answers after these entries, the oldest first, and the entries that it then makes.
/// A statement of upkeep or of marks has no verdict: it answers `Nothing` and makes no entry.
/// The `Err` is want of memory; it also comes where an inserted row would have a number past 64 bits.
pub fn verdict(
    alloc: Global,
    schema: &Schema,
    h: &[Entry],
    actor: u8,
    stmt: &Stmt,
) -> Result<Ruling, Memory>
    ensures { IfOk result (λ r. r ≡ ruling actor (verdict schema.now (history h.now) actor stmt.now)) }
{
    match stmt {
        Stmt::Insert(_) => write_ruling(alloc, schema, h, actor, stmt),
        Stmt::Update(_, _) => write_ruling(alloc, schema, h, actor, stmt),
        Stmt::Delete(_) => write_ruling(alloc, schema, h, actor, stmt),
        Stmt::Select(select) => read(alloc, h, actor, select.get()),
        Stmt::Begin => begin_ruling(alloc, h, actor, false),
        Stmt::BeginReadOnly => begin_ruling(alloc, h, actor, true),
        Stmt::Commit => end_ruling(alloc, h, actor, true),
        Stmt::Rollback => end_ruling(alloc, h, actor, false),
        _ => Ok(says(alloc, actor, Reply::Nothing)),
    }
}
