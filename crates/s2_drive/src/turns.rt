//! The turn of a line.
ghost use Rattle.std.specs.Prelude.{◌≡◌, ◌<◌, ◌≤◌, true, false, length, IfOk};
ghost use Rattle.s2_model.specs.Answer.{answer};
ghost use Rattle.s2_model.specs.History.{view};
ghost use Rattle.s2_model.specs.declared.statements.Stmt.TheVariants as stmt;
ghost use Rattle.s2_model.specs.Legal.{is_end};
ghost use Rattle.s2_state.specs.States.{history_of};
ghost use Rattle.s2_state.specs.Good.{Good};
ghost use Rattle.s2_txn.specs.Refusals.{is_write};
ghost use Rattle.s2_txn.specs.Says.{SaysOrMemory, SameTable};
ghost use Rattle.s2_drive.specs.Runs.{is_taken_stmt, is_taken};
ghost use Rattle.s2_drive.specs.Turns.{read_time, Told, TakesTurn};

use s2_answer::answer;
use s2_model::{Line, Logged, Refusal, Reply, Said, Select, Stmt};
use s2_state::State;
use s2_txn::{begin, begin_read_only, candidates, commit, rollback, settle};
use s2_value::Memory;
use std::alloc::Global;

fn is_end(stmt: &Stmt) -> bool
    ensures { result ≡ is_end stmt.now }
{
    match stmt {
        Stmt::Commit | Stmt::Rollback => true,
        _ => false,
    }
}

/// When the statement reads: at its session's pin, unless it ends the transaction, else at the end of the history.
fn read_time(state: &State, session: u8, stmt: &Stmt) -> u64
    requires { session < 17 }
    ensures { result ≡ read_time (history_of state.now) session stmt.now }
{
    if is_end(stmt) {
        return state.front();
    }
    match state.pin_of(session) {
        Some(pin) => pin,
        None => state.front(),
    }
}

/// What the SELECT answers over the rows that the session sees.
fn select(alloc: Global, state: &State, session: u8, select: &Select) -> Result<Reply, Memory>
    requires session { session < 17 }
    requires good { Good state.now }
    ensures { IfOk result (λ reply. reply ≡ Reply.Rows (answer select.now (view (history_of state.now) session))) }
{
    let rows = candidates(state, alloc, session, &select.pred)?;
    Ok(Reply::Rows(answer(alloc, select, rows.as_slice())?))
}

fn is_write(stmt: &Stmt) -> bool
    ensures { result ≡ is_write stmt.now }
{
    match stmt {
        Stmt::Insert(_) => true,
        Stmt::Update(_, _) => true,
        Stmt::Delete(_) => true,
        _ => false,
    }
}

/// What the session answers to a statement that writes no rows.
fn reply_only(alloc: Global, state: &mut State, session: u8, stmt: &Stmt) -> Reply
    requires session { (0 < session) × (session < 17) }
    requires good { Good state.old }
    requires taken { is_taken_stmt state.old.schema stmt.now ≡ true }
    requires reads { is_write stmt.now ≡ false }
    ensures good { Good state.new }
    ensures table { SameTable state.old state.new }
    ensures told { Told state.old.schema session stmt.now result (history_of state.old) (history_of state.new) }
{
    match stmt {
        Stmt::Select(wanted) => match select(alloc, state, session, wanted.get()) {
            Ok(reply) => reply,
            Err(_) => Reply::Refused(Refusal::Memory),
        },
        Stmt::Begin => begin(state, session),
        Stmt::BeginReadOnly => begin_read_only(state, session),
        Stmt::Commit => commit(state, session),
        Stmt::Rollback => rollback(state, session),
        _ => Reply::Nothing,
    }
}

/// What the session answers. A reply that needs memory which isn't there is a refusal, and nothing is changed then.
fn reply(alloc: Global, state: &mut State, session: u8, stmt: Stmt) -> Reply
    requires session { (0 < session) × (session < 17) }
    requires good { Good state.old }
    requires taken { is_taken_stmt state.old.schema stmt ≡ true }
    ensures good { Good state.new }
    ensures table { SameTable state.old state.new }
    ensures told { Told state.old.schema session stmt result (history_of state.old) (history_of state.new) }
{
    if is_write(&stmt) {
        settle(state, alloc, session, stmt)
    } else {
        reply_only(alloc, state, session, &stmt)
    }
}

/// The line's statement is answered, at the end of the history so far or at its session's pin, and done.
pub fn turn(alloc: Global, state: &mut State, line: Line) -> Said
    requires good { Good state.old }
    requires taken { is_taken state.old.schema line ≡ true }
    ensures good { Good state.new }
    ensures table { SameTable state.old state.new }
    ensures turn { TakesTurn state.old.schema line result (history_of state.old) (history_of state.new) }
{
    let Line { session, stmt } = line;
    let r = read_time(state, session, &stmt);
    Said {
        r,
        faults: 0,
        reply: reply(alloc, state, session, stmt),
    }
}
