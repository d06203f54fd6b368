//! The values of a column by their place, those of runs too in constant time.
ghost use Rattle.std.specs.Prelude.{◌≡◌, ◌<◌, ◌++◌, length, replicate, slice_index_or, IfOk, OnOk};
ghost use Rattle.s2_colenc.specs.Column.{values_of};
ghost use Rattle.s2_segment.specs.Runs.{runs_from, places_of};

use s2_colenc::{Body, Column};
use s2_colruns::RunLens;
use s2_value::{Memory, Value};
use std::alloc::Global;

/// A column, and the run of each value where it has runs.
#[derive(Debug, Drop)]
pub(crate) struct Cells<'a, 'b> {
    column: &'b Column<'a>,
    runs: Vec<u32>,
    ghost placed: { runs.items ≡ places_of column.now },
}

// Puts the number at the end as often.
fn push_often(out: &mut Vec<u32>, number: u32, times: u16) -> Result<(), Memory>
    ensures { OnOk result (out.new.items ≡ out.old.items ++ replicate times number) }
{
    for _ in 0..times {
        out.push(number)?;
    }
    Ok(())
}

// The run of each value.
fn runs_of(alloc: Global, lens: &RunLens<'_>) -> Result<Vec<u32>, Memory>
    ensures { IfOk result (λ runs. runs.items ≡ runs_from 0 lens.now) }
{
    let mut runs = Vec::new(alloc);
    for run in 0..lens.count() {
        push_often(&mut runs, run, lens.at(run))?;
    }
    Ok(runs)
}

// The run of each value of a column of runs, else nothing.
fn places_of(alloc: Global, column: &Column<'_>) -> Result<Vec<u32>, Memory>
    ensures { IfOk result (λ runs. runs.items ≡ places_of column.now) }
{
    match column.body() {
        Body::Runs(lens, _) => runs_of(alloc, lens),
        _ => Ok(Vec::new(alloc)),
    }
}

impl<'a, 'b> Cells<'a, 'b> {
    /// The cells of a column.
    pub(crate) fn of(alloc: Global, column: &'b Column<'a>) -> Result<Cells<'a, 'b>, Memory>
        ensures { IfOk result (λ x. x.column.now ≡ column.now) }
    {
        let runs = places_of(alloc, column)?;
        Ok(Cells { column, runs })
    }

    /// Value `i`, from 0, in constant time.
    pub(crate) fn at(&self, alloc: Global, i: u32) -> Result<Value, Memory>
        requires { i < length (values_of self.now.column.now) }
        ensures { IfOk result (λ v. v ≡ slice_index_or (values_of self.now.column.now) i v) }
    {
        match self.column.body() {
            Body::Runs(_, vals) => vals.at(alloc, self.runs[i as usize]),
            _ => self.column.at(alloc, i),
        }
    }
}
