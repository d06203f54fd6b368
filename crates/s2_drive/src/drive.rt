//! A run of a script's lines in their order.
ghost use Rattle.std.specs.Prelude.{◌≡◌, [], IfOk, OnOk, true, vec_len};
ghost use Rattle.std.specs.List.{list_all};
ghost use Rattle.s2_model.specs.Driven.{IsRightRun};
ghost use Rattle.s2_state.specs.States.{history_of};
ghost use Rattle.s2_state.specs.Good.{Good};
ghost use Rattle.s2_txn.specs.Says.{SameTable};
ghost use Rattle.s2_drive.specs.Runs.{is_taken};
ghost use Rattle.s2_drive.specs.Dealt.{Deals, RunsTo};

use crate::laws::runs_in_order_are_right;
use crate::lines::take_line;
use crate::replies::{no_replies, put, transcripts};
use crate::turns::turn;
use s2_model::{Line, LineList, Options, Outcome, SaidList, Script};
use s2_state::State;
use s2_value::{Memory, Schema};
use std::alloc::Global;

/// Answers a line, and adds the reply to those of its session.
fn run_line(
    alloc: Global,
    state: &mut State,
    replies: &mut Vec<SaidList>,
    line: Line,
) -> Result<(), Memory>
    requires good { Good state.old }
    requires taken { is_taken state.old.schema line ≡ true }
    requires sessions { vec_len replies.old ≡ 16 }
    ensures good { Good state.new }
    ensures table { SameTable state.old state.new }
    ensures sessions { vec_len replies.new ≡ 16 }
    ensures turn { OnOk result (Deals state.old.schema line (history_of state.old) (history_of state.new) replies.old.items replies.new.items) }
{
    let session = line.session;
    let said = turn(alloc, state, line);
    put(replies, session, said)
}

fn run_lines(alloc: Global, state: &mut State, lines: LineList) -> Result<Vec<SaidList>, Memory>
    requires good { Good state.old }
    requires empty { history_of state.old ≡ [] }
    requires taken { list_all (is_taken state.old.schema) lines ≡ true }
    ensures good { Good state.new }
    ensures table { SameTable state.old state.new }
    ensures sessions { IfOk result (λ replies. vec_len replies ≡ 16) }
    ensures run { IfOk result (λ replies. RunsTo state.old.schema lines (history_of state.new) replies.items) }
{
    let mut replies = no_replies(alloc, lines.as_slice())?;
    let mut left = lines.into_vec();
    left.reverse();
    while let Some(line) = take_line(&mut left) {
        run_line(alloc, state, &mut replies, line)?;
    }
    Ok(replies)
}

// The state of the empty history. Most lines make two entries; room for these is taken at once, as far as there is memory, so that the history isn't moved as it grows.
fn start(alloc: Global, schema: Schema, options: Options, lines: usize) -> Result<State, Memory>
    ensures good { IfOk result (λ s. Good s) }
    ensures empty { IfOk result (λ s. history_of s ≡ []) }
    ensures schema { IfOk result (λ s. s.schema ≡ schema) }
    ensures options { IfOk result (λ s. s.options ≡ options) }
{
    let mut state = State::new(alloc, schema, options)?;
    let entries = u32::try_from(lines.saturating_mul(2)).unwrap_or(0);
    let _ = state.reserve(entries);
    Ok(state)
}

/// Runs the lines of a script in their order: any sessions, with their transactions. The outcome is the history, and a transcript for each session that has a line.
/// A SELECT, an UPDATE or a DELETE takes the time of all rows of the store, but where its condition fixes a key it looks up the rows that have it. An INSERT takes
/// the time of its rows, with a few look-ups for each unique key. COMMIT and ROLLBACK take the time of what their transaction changed. The `Err` is want of memory.
pub fn drive_call(alloc: Global, script: Script) -> Result<Outcome, Memory>
    requires { list_all (is_taken script.schema) script.lines ≡ true }
    ensures { IfOk result (λ run. IsRightRun script run) }
{
    runs_in_order_are_right();
    let Script {
        options,
        schema,
        lines,
    } = script;
    let mut state = start(alloc, schema, options, lines.len())?;
    let replies = run_lines(alloc, &mut state, lines)?;
    let transcripts = transcripts(alloc, replies)?;
    Ok(Outcome {
        history: state.into_log(),
        transcripts,
    })
}
