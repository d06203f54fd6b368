//! COMMIT and ROLLBACK.
ghost use Rattle.std.specs.Prelude.{◌≡◌, ◌≤◌, ◌<◌, ◌∷◌, ◌+◌, ◌^◌, ℕ, true, is_some, length};
ghost use Rattle.s2_model.specs.declared.statements.Stmt.TheVariants as stmt;
ghost use Rattle.s2_model.specs.declared.entries.What.TheVariants as entry;
ghost use Rattle.s2_model.specs.History.{is_running, pin_of, ◌▷◌};
ghost use Rattle.s2_rowstore.specs.Store.{chain};
ghost use Rattle.s2_state.specs.States.{history_of, room_of, SameParts};
ghost use Rattle.s2_state.specs.Ends.{Frees};
ghost use Rattle.s2_state.specs.Good.{Good};
ghost use Rattle.s2_txn.specs.Entries.{Commits, RollsBack};
ghost use Rattle.s2_txn.specs.Says.{Says, SameTable};

use s2_model::{Entry, Logged, Refusal, Reply, What};
use s2_rowstore::Rowstore;
use s2_state::State;
use s2_uniquelock::LockTable;

/// The actor's open writes take effect, and it holds nothing any more.
pub(crate) fn commit_writes(s: &mut State, actor: u8)
    requires actor { (0 < actor) × (actor < 17) }
    requires room { 0 < room_of s.old }
    requires short { length (history_of s.old) < 2 ^ 63 }
    ensures { Commits actor s.old s.new }
{
    let time = s.front() + 1;
    s.rows.commit(actor, time);
    s.locks.free_all(actor);
    s.append(Entry {
        actor,
        what: What::Commit,
    });
}

// The actor's open writes are gone from the rows, which stay as committed, and it holds nothing any more.
fn forget(rows: &mut Rowstore, held: &mut LockTable, actor: u8)
    requires { (0 < actor) × (actor < 17) }
    ensures frees { Frees actor rows.old rows.new held.old held.new }
    ensures chains { (n : ℕ) → chain rows.new n ≡ chain rows.old n }
{
    rows.undo(actor);
    held.free_all(actor);
}

// The actor's open writes are forgotten, and it holds nothing any more.
fn undo_writes(s: &mut State, actor: u8)
    requires actor { (0 < actor) × (actor < 17) }
    requires room { 0 < room_of s.old }
    ensures { RollsBack actor s.old s.new }
{
    forget(&mut s.rows, &mut s.locks, actor);
    s.append(Entry {
        actor,
        what: What::Rollback,
    });
}

// The transaction that writes is committed.
fn end_by_commit(s: &mut State, actor: u8)
    requires actor { (0 < actor) × (actor < 17) }
    requires good { Good s.old }
    requires running { is_running (history_of s.old) actor ≡ true }
    ensures good { Good s.new }
    ensures table { SameTable s.old s.new }
    ensures history { history_of s.new ≡ history_of s.old ▷ record { actor = actor; what = entry.Commit } }
{
    commit_writes(s, actor);
}

// The transaction that writes is rolled back.
fn end_by_rollback(s: &mut State, actor: u8)
    requires actor { (0 < actor) × (actor < 17) }
    requires good { Good s.old }
    requires running { is_running (history_of s.old) actor ≡ true }
    ensures good { Good s.new }
    ensures table { SameTable s.old s.new }
    ensures history { history_of s.new ≡ history_of s.old ▷ record { actor = actor; what = entry.Rollback } }
{
    undo_writes(s, actor);
}

// The transaction that reads is over.
fn unpin(s: &mut State, actor: u8)
    requires actor { (0 < actor) × (actor < 17) }
    requires good { Good s.old }
    requires pinned { is_some (pin_of (history_of s.old) actor) ≡ true }
    ensures good { Good s.new }
    ensures table { SameTable s.old s.new }
    ensures history { history_of s.new ≡ history_of s.old ▷ record { actor = actor; what = entry.Unpin } }
{
    s.append(Entry {
        actor,
        what: What::Unpin,
    });
}

/// COMMIT: ends the open transaction of the actor, 1 to 16; its writes take effect. It takes no memory, and the full log doesn't refuse it.
pub fn commit(s: &mut State, actor: u8) -> Reply
    requires actor { (0 < actor) × (actor < 17) }
    requires good { Good s.old }
    ensures good { Good s.new }
    ensures says { Says s.old s.new actor stmt.Commit result }
    ensures table { SameTable s.old s.new }
{
    if s.pin_of(actor).is_some() {
        unpin(s, actor);
        return Reply::Done;
    }
    if !s.is_running(actor) {
        return Reply::Refused(Refusal::NoTransaction);
    }
    end_by_commit(s, actor);
    Reply::Done
}

/// ROLLBACK: ends the open transaction of the actor, 1 to 16; its writes are forgotten. It takes no memory, and the full log doesn't refuse it.
pub fn rollback(s: &mut State, actor: u8) -> Reply
    requires actor { (0 < actor) × (actor < 17) }
    requires good { Good s.old }
    ensures good { Good s.new }
    ensures says { Says s.old s.new actor stmt.Rollback result }
    ensures table { SameTable s.old s.new }
{
    if s.pin_of(actor).is_some() {
        unpin(s, actor);
        return Reply::Done;
    }
    if !s.is_running(actor) {
        return Reply::Refused(Refusal::NoTransaction);
    }
    end_by_rollback(s, actor);
    Reply::Done
}
