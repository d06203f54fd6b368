//! What an outcome must be like to be judged.
ghost use Rattle.std.specs.Prelude.{◌≡◌, ◌↔◌, IsTrue, ◌≤◌, length};
ghost use Rattle.std.specs.List.{list_all};
ghost use Rattle.s2_model.specs.Legal.{stmts_of};
ghost use Rattle.s2_legal.specs.Built.{IsBuilt, is_built_what, is_built_stmt, are_built};
ghost use Rattle.s2_legal.specs.Faults.{IsWhole};

use s2_model::{Entry, Line, Outcome, Script, Stmt, Transcript, What};

fn is_built_what(what: &What) -> bool
    ensures { result ≡ is_built_what what.now }
{
    match what {
        What::Begin => true,
        What::Write(_) => true,
        What::Commit => true,
        What::Rollback => true,
        What::Pin => true,
        What::Unpin => true,
        _ => false,
    }
}

fn is_built_stmt(stmt: &Stmt) -> bool
    ensures { result ≡ is_built_stmt stmt.now }
{
    match stmt {
        Stmt::Insert(_) => true,
        Stmt::Update(_, _) => true,
        Stmt::Delete(_) => true,
        Stmt::Select(_) => true,
        Stmt::Begin => true,
        Stmt::BeginReadOnly => true,
        Stmt::Commit => true,
        Stmt::Rollback => true,
        _ => false,
    }
}

fn are_built(entries: &[Entry]) -> bool
    ensures { result ≡ are_built entries.now }
{
    entries.iter().all(|entry| is_built_what(&entry.what))
}

fn are_built_lines(lines: &[Line]) -> bool
    ensures { result ≡ list_all (λ l. is_built_stmt l.stmt) lines.now }
{
    lines.iter().all(|line| is_built_stmt(&line.stmt))
}

/// Whether the outcome is of the built kinds: each entry is a write, or opens or ends a transaction, and each statement is an INSERT, UPDATE, DELETE or SELECT, or opens or ends a transaction.
/// It takes no memory, and goes once over the script and the history.
pub fn is_built(script: &Script, run: &Outcome) -> bool
    ensures { IsTrue result ↔ IsBuilt script.now run.now }
{
    are_built(run.history.as_slice()) && are_built_lines(script.lines.as_slice())
}

fn count_lines(lines: &[Line], k: u8) -> usize
    ensures count { result ≡ length (stmts_of k lines.now) }
    ensures within { result ≤ length lines.now }
{
    let mut count = 0;
    let mut left = lines;
    while let [line, rest @ ..] = left {
        if line.session == k {
            count += 1;
        }
        left = rest;
    }
    count
}

fn is_of(transcript: &Transcript, k: u8, count: usize) -> bool
    ensures { IsTrue result ↔ ((transcript.now.session ≡ k) × (length transcript.now.said ≡ count)) }
{
    transcript.session == k && transcript.said.len() == count
}

/// Whether the transcripts are, by rising number, those of the sessions with a line, each with as many replies as lines.
/// It takes no memory, and goes once over the lines for each of the sixteen sessions.
pub fn is_whole(script: &Script, run: &Outcome) -> bool
    ensures { IsTrue result ↔ IsWhole script.now run.now }
{
    let lines = script.lines.as_slice();
    let transcripts = run.transcripts.as_slice();
    let mut taken = 0;
    for k in 1..17u8 {
        let count = count_lines(lines, k);
        if count > 0 {
            if taken >= transcripts.len() || !is_of(&transcripts[taken], k, count) {
                return false;
            }
            taken += 1;
        }
    }
    taken == transcripts.len()
}
