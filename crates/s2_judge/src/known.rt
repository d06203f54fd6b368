//! What the lines before a line have said.
ghost use Rattle.std.specs.Prelude.{◌≡◌, IfOk, OnOk, OnErr, slice_set};
ghost use Rattle.s2_judge.specs.Kinds.{no_lines, known_after};

use crate::jobs::{job_after, job_of};
use s2_line::{Raw, RawColumn, RawOf};
use s2_token::Bytes;
use s2_value::{Duplicate, Memory, Seq};
use std::alloc::Global;

/// The table of a script.
#[derive(Debug, Drop)]
pub struct Table {
    /// Its name.
    pub name: Bytes,
    /// Its columns.
    pub columns: Seq<RawColumn>,
}

/// What job a session has begun.
#[derive(Clone, Copy, Debug, PartialEq, Eq)]
pub enum Job {
    /// None, or one that is over.
    Idle,
    /// A flush.
    Flushing,
    /// A merge.
    Merging,
}

/// What the lines before a line have said, all of them without a fault.
#[derive(Debug, Drop)]
pub struct Known {
    /// The names of the options that were given.
    pub options: Seq<Bytes>,
    /// The table, once it is created.
    pub table: Option<Table>,
    /// The job of each session by its number, from 0 to 16.
    pub jobs: [Job; 17],
}

fn copies(alloc: Global, columns: &[RawColumn]) -> Result<Seq<RawColumn>, Memory>
    ensures { IfOk result (λ same. same ≡ columns.now) }
{
    let mut same = Vec::with_capacity(alloc, columns.len())?;
    for column in columns {
        let name = column.name.copy()?;
        same.push(RawColumn {
            name,
            kind: column.kind,
        })?;
    }
    Ok(Seq::from_vec(same))
}

fn set_job(jobs: &mut [Job], session: u64, job: Job)
    ensures { jobs.new ≡ slice_set jobs.old session job }
{
    let place = session as usize;
    if place < jobs.len() {
        jobs[place] = job;
    }
}

impl Known {
    /// What is known before the first line: no option, no table, and each session's job is over.
    pub fn new(alloc: Global) -> Known
        ensures { result ≡ no_lines }
    {
        Known {
            options: Seq::new(alloc),
            table: None,
            jobs: [Job::Idle; 17],
        }
    }

    /// Adds what a line without a fault says. The `Err` is want of memory, and what is known then stays.
    pub fn after(&mut self, alloc: Global, line: &Raw) -> Result<(), Memory>
        ensures ok { OnOk result (self.new ≡ known_after self.old line.now) }
        ensures err { OnErr result (self.new ≡ self.old) }
    {
        match line {
            RawOf::Option { name, .. } => self.options.add(name.copy()?),
            RawOf::Create { table, columns, .. } => {
                let name = table.copy()?;
                let columns = copies(alloc, columns.as_slice())?;
                self.table = Some(Table { name, columns });
                Ok(())
            }
            RawOf::Session { session, stmt } => {
                let job = job_after(stmt, job_of(&self.jobs, *session));
                set_job(&mut self.jobs, *session, job);
                Ok(())
            }
        }
    }
}
