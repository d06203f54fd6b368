//! The log of a state, with what is asked of it kept beside its entries.
ghost use Rattle.std.specs.Prelude.{◌≡◌, ◌≤◌, ◌<◌, ℕ, ◌+◌, ◌^◌, ◌∷◌, [], None, OnOk, length, reverse, take, false};
ghost use Rattle.s2_model.specs.History.{greatest_in, greatest_after, next, is_running, pin_of};
ghost use Rattle.s2_model.specs.Table.{number_of};

use crate::stand::{ACTORS, IDLE, Stand, note};
use s2_model::{Change, Entry, EntryList, What};
use s2_value::{Memory, Seq};
use std::alloc::Global;
use std::marker::Model;

/// The history of a state as it grows. In contracts it is the list of its entries, the newest first, and the room for more.
#[derive(Drop)]
pub(crate) struct Journal {
    entries: Vec<Entry>,
    // The greatest row number of all writes, 0 without one.
    top: u64,
    // What each actor has open, by its number.
    stands: [Stand; ACTORS],
}

impl Model for Journal {
    ghost use Rattle.std.specs.Prelude.{◌-◌, reverse, vec_len, vec_capacity};
    ghost use Rattle.s2_state.specs.Journals.{Kept, IsKept};

    ghost Value = { Kept };

    ghost view = { λ j. record { entries = reverse j.entries.items; room = vec_capacity j.entries - vec_len j.entries } };

    ghost invariant = { λ j. IsKept j.entries.items j.top j.stands };
}

fn number_of(change: &Change) -> u64
    ensures { result ≡ number_of change.now }
{
    match change {
        Change::Put(number, _) => *number,
        Change::Drop(number) => *number,
    }
}

// The greatest of the changes' row numbers, or what it was before.
fn greatest_in(changes: &[Change], was: u64) -> u64
    ensures { result ≡ greatest_in changes.now was }
{
    let mut top = was;
    for change in changes {
        top = top.max(number_of(change));
    }
    top
}

fn greatest_after(what: &What, was: u64) -> u64
    ensures { result ≡ greatest_after what.now was }
{
    match what {
        What::Write(changes) => greatest_in(changes.as_slice(), was),
        _ => was,
    }
}

impl Journal {
    /// The empty history. It takes no memory.
    pub(crate) fn new(alloc: Global) -> Journal
        ensures { result.entries ≡ [] }
    {
        Journal {
            entries: Vec::new(alloc),
            top: 0,
            stands: [IDLE; ACTORS],
        }
    }

    /// Makes room for so many more entries. The history stays, also after want of memory, and the room doesn't fall.
    pub(crate) fn reserve(&mut self, more: u32) -> Result<(), Memory>
        ensures entries { self.new.entries ≡ self.old.entries }
        ensures room { OnOk result (more ≤ self.new.room) }
        ensures kept { self.old.room ≤ self.new.room }
    {
        let more = more as usize;
        if self.entries.capacity() - self.entries.len() >= more {
            return Ok(());
        }
        // An eighth more than there is, so that growth costs each entry a few moves, and little room stands empty.
        self.entries
            .reserve_exact(more.max(self.entries.capacity() / 8))
    }

    /// Puts an entry at the end.
    pub(crate) fn append(&mut self, entry: Entry)
        requires { 0 < self.old.room }
        ensures entries { self.new.entries ≡ entry ∷ self.old.entries }
        ensures room { self.old.room ≤ self.new.room + 1 }
    {
        let time = self.entries.len() as u64 + 1;
        self.top = greatest_after(&entry.what, self.top);
        note(&mut self.stands, entry.actor, &entry.what, time);
        let _ = self.entries.push(entry);
    }

    /// How many entries there are.
    pub(crate) fn len(&self) -> u64
        ensures { result ≡ length self.now.entries }
    {
        self.entries.len() as u64
    }

    /// The next free row number.
    pub(crate) fn next_row(&self) -> u64
        requires { next self.now.entries < 2 ^ 64 }
        ensures { result ≡ next self.now.entries }
    {
        self.top + 1
    }

    /// Whether the actor has a transaction open that writes.
    pub(crate) fn is_running(&self, actor: u8) -> bool
        requires { actor < 17 }
        ensures { result ≡ is_running self.now.entries actor }
    {
        self.stands[actor as usize].running
    }

    /// The timestamp of the actor's pin.
    pub(crate) fn pin_of(&self, actor: u8) -> Option<u64>
        requires { actor < 17 }
        ensures { result ≡ pin_of self.now.entries actor }
    {
        self.stands[actor as usize].pin
    }

    /// The entries, the oldest first. It takes no memory.
    pub(crate) fn into_entries(self) -> EntryList
        ensures { reverse result ≡ self.entries }
    {
        Seq::from_vec(self.entries)
    }
}
