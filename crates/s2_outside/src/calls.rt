//! The calls of an object in memory: which of them fail, and how many did.
ghost use Rattle.std.specs.Prelude.{◌≡◌, ◌↔◌, ◌≤◌, IsTrue};
ghost use Rattle.s2_outside.specs.Calls.{IsNextToFail, after_call, no_calls};

use std::marker::Model;

/// The numbers, from 1, of the calls that are to fail, and the counts of calls and of faults. Both
/// counts stand still at `u64::MAX`.
#[derive(Debug, Drop)]
pub struct Calls {
    fails: Vec<u64>,
    made: u64,
    faults: u64,
}

impl Model for Calls {
    ghost use Rattle.s2_outside.specs.Calls.{CallLog};

    ghost Value = { CallLog };

    ghost view = { λ c. record { fails = c.fails.items; made = c.made; faults = c.faults } };
}

impl Calls {
    pub fn new(fails: Vec<u64>) -> Calls
        ensures { result ≡ no_calls fails.items }
    {
        Calls {
            fails,
            made: 0,
            faults: 0,
        }
    }

    /// Whether the next call is one that is to fail.
    pub fn next_fails(&self) -> bool
        ensures { IsTrue result ↔ IsNextToFail self.now }
    {
        self.fails.contains(&self.made.saturating_add(1))
    }

    /// Counts a call, and a fault where it failed.
    pub fn count(&mut self, failed: bool)
        ensures after { self.new ≡ after_call self.old failed }
        ensures later { self.old.faults ≤ self.new.faults }
    {
        self.made = self.made.saturating_add(1);
        self.faults = self.faults.saturating_add(u64::from(failed));
    }
}
