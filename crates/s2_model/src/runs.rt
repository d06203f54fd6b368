//! Laws on runs.
ghost use Rattle.s2_model.specs.Driven.{SimpleRunsAreRight};

/// Where INSERT and SELECT statements of session 1 alone are answered in turn, each at the end of the history before it by its verdict, the outcome is legal, and each reply's timestamp is the number of entries of the lines before it.
pub fn simple_runs_are_right()
    ensures { SimpleRunsAreRight }
{}
