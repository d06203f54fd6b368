//! The law on runs in the order of the lines.
ghost use Rattle.s2_drive.specs.Runs.{RunsInOrderAreRight};

/// Where the lines of any sessions, whose statements have verdicts, are answered in turn, each at the end of the history before it or at its
/// session's pin, and the history that this makes fits, the outcome with the replies of each session is legal, and is that of a run in order.
pub fn runs_in_order_are_right()
    ensures { RunsInOrderAreRight }
{}
