// The rows with a version that ended, by the time of its end, so that a cut visits no others.
ghost use Rattle.std.specs.Prelude.{◌≡◌, ◌<◌, ◌≤◌, ℕ, ◌∷◌, ◌++◌, [], None, true, false, nat_le, not, IfSome, OnOk};
ghost use Rattle.std.specs.List.{list_all};
ghost use Rattle.s2_rowstore.specs.Ends.{are_by, has_pair, KeepsPairs};

use s2_value::Memory;
use std::alloc::Global;
use std::collections::VecDeque;
use std::marker::Model;

/// Pairs of a time and a row, by time. Where times fell, or there was no room, not every end is among them.
#[derive(Drop)]
pub(crate) struct Ends {
    queue: VecDeque<(u64, u64)>,
    last: u64,
    whole: bool,
}

impl Model for Ends {
    ghost use Rattle.std.specs.Prelude.{◌≡◌, true};
    ghost use Rattle.s2_rowstore.specs.Ends.{Ends, are_in_time, are_by};

    ghost Value = { Ends };

    ghost view = { λ e. record { whole = e.whole; queue = e.queue.items } };

    ghost invariant = { λ e. (are_in_time e.queue.items ≡ true) × (are_by e.last e.queue.items ≡ true) };
}

impl Ends {
    /// No pair.
    pub(crate) fn new(alloc: Global) -> Ends
        ensures { result.whole ≡ true }
    {
        Ends {
            queue: VecDeque::new(alloc),
            last: 0,
            whole: true,
        }
    }

    /// Whether each end is among the pairs.
    pub(crate) fn is_whole(&self) -> bool
        ensures { result ≡ self.now.whole }
    {
        self.whole
    }

    /// Makes room for so many more pairs.
    pub(crate) fn reserve(&mut self, more: usize) -> Result<(), Memory>
        ensures { self.new ≡ self.old }
    {
        if self.queue.capacity() - self.queue.len() >= more {
            return Ok(());
        }
        // A quarter more than there is, so that growth costs each pair a few moves, and little room stands empty.
        let larger = self
            .queue
            .capacity()
            .saturating_add(self.queue.capacity() / 4);
        self.queue
            .reserve_exact(more.max(larger.saturating_sub(self.queue.len())))
    }

    /// Puts the pair behind the others.
    pub(crate) fn push(&mut self, time: u64, id: u64)
        ensures kept { KeepsPairs self.old self.new }
        ensures added { self.new.whole ≡ true → has_pair self.new.queue time id ≡ true }
    {
        if self.last > time || self.queue.len() >= self.queue.capacity() {
            self.whole = false;
            return;
        }
        if self.queue.push_back((time, id)).is_err() {
            self.whole = false;
            return;
        }
        self.last = time;
    }

    /// Takes the first pair out, if its time isn't above `h`, and answers its row.
    pub(crate) fn pop(&mut self, h: u64) -> Option<u64>
        ensures whole { self.new.whole ≡ self.old.whole }
        ensures some { IfSome result (λ id. (t : ℕ) × (t ≤ h) × (self.old.queue ≡ (t, id) ∷ self.new.queue)) }
        ensures kept { result ≡ None → KeepsPairs self.old self.new }
        ensures none { result ≡ None → list_all (λ p. not (nat_le p.0 h)) self.new.queue ≡ true }
    {
        let (time, _) = self.queue.front()?;
        if *time > h {
            return None;
        }
        let (_, id) = self.queue.pop_front()?;
        Some(id)
    }
}
