//! BEGIN and BEGIN READ ONLY.
ghost use Rattle.std.specs.Prelude.{◌≡◌, ◌≤◌, ◌<◌, ◌∷◌, OnOk, OnErr, None, Some, true, false, length};
ghost use Rattle.s2_model.specs.declared.statements.Stmt.TheVariants as stmt;
ghost use Rattle.s2_model.specs.declared.entries.What.TheVariants as entry;
ghost use Rattle.s2_model.specs.History.{is_open, ◌▷◌};
ghost use Rattle.s2_state.specs.States.{history_of, room_of, SameParts};
ghost use Rattle.s2_state.specs.Good.{Good};
ghost use Rattle.s2_txn.specs.Opening.{opening_refusal};
ghost use Rattle.s2_txn.specs.Says.{Says, SaysOrMemory};

use s2_model::{Entry, Logged, Refusal, Reply, What};
use s2_state::State;
use s2_value::Memory;

/// The longest history to which a statement may still add entries that can be refused.
pub(crate) const LAST_LENGTH: u64 = 4_194_240;

/// An entry that opens a transaction, and the end of each of sixteen.
const ROOM: u32 = 17;

// Whether the actor has a transaction open.
fn is_open(s: &State, actor: u8) -> bool
    requires { actor < 17 }
    ensures { result ≡ is_open (history_of s.now) actor }
{
    s.is_running(actor) || s.pin_of(actor).is_some()
}

// Why the actor may open no transaction.
fn opening_refusal(s: &State, actor: u8) -> Option<Refusal>
    requires { actor < 17 }
    ensures { result ≡ opening_refusal (history_of s.now) actor }
{
    if is_open(s, actor) {
        return Some(Refusal::AlreadyOpen);
    }
    if s.front() > LAST_LENGTH {
        return Some(Refusal::LogFull);
    }
    None
}

// Appends the entry, and leaves room for the end of each open transaction.
fn start(s: &mut State, entry: Entry) -> Result<(), Memory>
    ensures parts { SameParts s.old s.new }
    ensures started { OnOk result ((history_of s.new ≡ history_of s.old ▷ entry) × (16 ≤ room_of s.new)) }
    ensures memory { OnErr result ((history_of s.new ≡ history_of s.old) × (room_of s.old ≤ room_of s.new)) }
{
    s.reserve(ROOM)?;
    s.append(entry);
    Ok(())
}

// A transaction that writes begins.
fn start_writing(s: &mut State, actor: u8) -> Result<(), Memory>
    requires actor { (0 < actor) × (actor < 17) }
    requires good { Good s.old }
    requires free { opening_refusal (history_of s.old) actor ≡ None }
    ensures good { Good s.new }
    ensures parts { SameParts s.old s.new }
    ensures started { OnOk result (history_of s.new ≡ history_of s.old ▷ record { actor = actor; what = entry.Begin }) }
    ensures memory { OnErr result (history_of s.new ≡ history_of s.old) }
{
    start(
        s,
        Entry {
            actor,
            what: What::Begin,
        },
    )
}

// A transaction that reads begins.
fn start_reading(s: &mut State, actor: u8) -> Result<(), Memory>
    requires actor { (0 < actor) × (actor < 17) }
    requires good { Good s.old }
    requires free { opening_refusal (history_of s.old) actor ≡ None }
    ensures good { Good s.new }
    ensures parts { SameParts s.old s.new }
    ensures started { OnOk result (history_of s.new ≡ history_of s.old ▷ record { actor = actor; what = entry.Pin }) }
    ensures memory { OnErr result (history_of s.new ≡ history_of s.old) }
{
    start(
        s,
        Entry {
            actor,
            what: What::Pin,
        },
    )
}

/// BEGIN: opens a transaction that writes, unless the actor, 1 to 16, has one open or the log is full.
///
/// The room for its end is taken here. Want of memory leaves everything as it was.
pub fn begin(s: &mut State, actor: u8) -> Reply
    requires actor { (0 < actor) × (actor < 17) }
    requires good { Good s.old }
    ensures good { Good s.new }
    ensures says { SaysOrMemory s.old s.new actor stmt.Begin result }
    ensures parts { SameParts s.old s.new }
{
    if let Some(refusal) = opening_refusal(s, actor) {
        return Reply::Refused(refusal);
    }
    match start_writing(s, actor) {
        Ok(()) => Reply::Done,
        Err(_) => Reply::Refused(Refusal::Memory),
    }
}

/// BEGIN READ ONLY: opens a transaction that reads at this timestamp, unless the actor, 1 to 16, has one open or the log is full.
///
/// The room for its end is taken here. Want of memory leaves everything as it was.
pub fn begin_read_only(s: &mut State, actor: u8) -> Reply
    requires actor { (0 < actor) × (actor < 17) }
    requires good { Good s.old }
    ensures good { Good s.new }
    ensures says { SaysOrMemory s.old s.new actor stmt.BeginReadOnly result }
    ensures parts { SameParts s.old s.new }
{
    if let Some(refusal) = opening_refusal(s, actor) {
        return Reply::Refused(refusal);
    }
    match start_reading(s, actor) {
        Ok(()) => Reply::Done,
        Err(_) => Reply::Refused(Refusal::Memory),
    }
}
