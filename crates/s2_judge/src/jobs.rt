//! The steps of jobs, and the forms that are built.
ghost use Rattle.std.specs.Prelude.{◌≡◌};
ghost use Rattle.s2_judge.specs.Kinds.{job_of, is_flushing, is_merging, is_idle, is_out_of_order, is_job_order, job_after, is_built_stmt, is_not_built};

use crate::known::{Job, Known};
use s2_line::{Phase, Raw, RawOf, RawStmt, RawStmtOf};

/// The job that a session has begun.
pub fn job_of(jobs: &[Job], session: u64) -> Job
    ensures { result ≡ job_of jobs.now session }
{
    match jobs.get(session as usize) {
        Some(job) => *job,
        None => Job::Idle,
    }
}

fn is_flushing(job: Job) -> bool
    ensures { result ≡ is_flushing job }
{
    match job {
        Job::Flushing => true,
        _ => false,
    }
}

fn is_merging(job: Job) -> bool
    ensures { result ≡ is_merging job }
{
    match job {
        Job::Merging => true,
        _ => false,
    }
}

fn is_idle(job: Job) -> bool
    ensures { result ≡ is_idle job }
{
    match job {
        Job::Idle => true,
        _ => false,
    }
}

fn is_out_of_order(begun: Job, stmt: &RawStmt) -> bool
    ensures { result ≡ is_out_of_order begun stmt.now }
{
    match stmt {
        RawStmtOf::Flush(Phase::End) => !is_flushing(begun),
        RawStmtOf::Merge(Phase::End) => !is_merging(begun),
        RawStmtOf::Flush(_) => !is_idle(begun),
        RawStmtOf::Merge(_) => !is_idle(begun),
        _ => false,
    }
}

/// Whether the line is a step of a job at the wrong place.
pub fn is_job_order(known: &Known, line: &Raw) -> bool
    ensures { result ≡ is_job_order known.now line.now }
{
    match line {
        RawOf::Session { session, stmt } => { is_out_of_order(job_of(&known.jobs, *session), stmt) }
        _ => false,
    }
}

/// The session's job after a statement.
pub fn job_after(stmt: &RawStmt, was: Job) -> Job
    ensures { result ≡ job_after stmt.now was }
{
    match stmt {
        RawStmtOf::Flush(Phase::Begin) => Job::Flushing,
        RawStmtOf::Merge(Phase::Begin) => Job::Merging,
        RawStmtOf::Flush(Phase::End) => Job::Idle,
        RawStmtOf::Merge(Phase::End) => Job::Idle,
        _ => was,
    }
}

fn is_built_stmt(stmt: &RawStmt) -> bool
    ensures { result ≡ is_built_stmt stmt.now }
{
    match stmt {
        RawStmtOf::Insert { .. } => true,
        RawStmtOf::Update { .. } => true,
        RawStmtOf::Delete { .. } => true,
        RawStmtOf::Select { .. } => true,
        RawStmtOf::Aggregate { .. } => true,
        RawStmtOf::Begin { .. } => true,
        RawStmtOf::Commit => true,
        RawStmtOf::Rollback => true,
        _ => false,
    }
}

/// Whether the line is of a form that isn't built.
pub fn is_not_built(line: &Raw) -> bool
    ensures { result ≡ is_not_built line.now }
{
    match line {
        RawOf::Session { stmt, .. } => !is_built_stmt(stmt),
        _ => false,
    }
}
