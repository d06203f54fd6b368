//! The law on answers.
ghost use Rattle.s2_legal.specs.Faults.{JudgedOnce};

/// Where the transcripts are those of the sessions with a line, each with as many replies as lines, at most one answer is right.
pub fn judged_once()
    ensures { JudgedOnce }
{}
