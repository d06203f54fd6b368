// The versions of one row, and its open write.
ghost use Rattle.std.specs.Prelude.{IfOk, ◌≡◌, ◌<◌, ◌≤◌, ◌++◌, [], None, Some, OnOk, not, length};
ghost use Rattle.std.specs.Option.{option_copied, option_map};
ghost use Rattle.s2_rowstore.specs.Keys.{body_has};
ghost use Rattle.s2_rowstore.specs.Lines.{cut_body, left_by};
ghost use Rattle.s2_rowstore.specs.Ends.{has_end};
ghost use Rattle.s2_rowstore.specs.Present.{is_present, is_free};
ghost use Rattle.s2_rowstore.specs.Chains.{body, living_since, ended, begun, own, chain_after, slot_after, seen, kept, is_empty_body};

use crate::versions::{
    Versions, any_ended_at, any_has, any_kept_has, commit_first, end_version, holder, is_kept,
    lend_row, living_since, put_slot, seen, slot_has, undo_slot,
};
use s2_value::{Memory, Row, Seq, Value};
use sqlite_items::Boxed;
use std::alloc::Global;
use std::default::MadeWith;
use std::marker::Model;
use std::slice;

/// A version of a row: the row, when it began, and when it ended.
#[derive(Debug, Drop)]
pub struct Version {
    pub row: Row,
    pub begin: u64,
    pub stop: Option<u64>,
}

/// A blank version, for a place that none stands in.
impl MadeWith<Global> for Version {
    fn made_with(alloc: Global) -> Version {
        Version {
            row: Seq::new(alloc),
            begin: 0,
            stop: None,
        }
    }
}

/// The open write of a row: whose it is, and the row that it puts, or none where it drops the row. Few rows have one, so its row stands on the heap.
#[derive(Debug, Drop)]
pub struct Slot {
    pub holder: u8,
    pub change: Boxed<Option<Row>>,
}

/// No version and perhaps the open write that is to be the first one, one version and no open write, or any other line. Most rows have one version for long, so it takes room for no more.
#[derive(Debug, Drop)]
enum Held {
    New(Option<Slot>),
    One(Version),
    Many(Box<Versions>),
}

/// The versions of one row in the order of their beginning, and its open write, on the heap: so the map of all rows stays small.
#[derive(Debug, Drop)]
pub struct Chain {
    held: Box<Held>,
}

impl Model for Chain {
    ghost use Rattle.s2_rowstore.specs.Chains.{Line};

    ghost Value = { Line };

    ghost use Rattle.s2_rowstore.specs.Held.{line_held};

    ghost view = { λ c. line_held c.held.value };
}

impl Chain {
    /// No version and no open write.
    pub(crate) fn new(alloc: Global) -> Result<Chain, Memory>
        ensures { IfOk result (λ chain. body chain ≡ ([], None)) }
    {
        Ok(Chain {
            held: Box::new(alloc, Held::New(None))?,
        })
    }

    // The versions.
    fn versions(&self) -> &[Version]
        ensures { result.now ≡ self.now.versions }
    {
        match &*self.held {
            Held::New(_) => &[],
            Held::One(version) => slice::from_ref(version),
            Held::Many(many) => many.versions(),
        }
    }

    // The open write.
    fn slot(&self) -> Option<&Slot>
        ensures { option_copied result ≡ self.now.slot }
    {
        match &*self.held {
            Held::New(slot) => slot.as_ref(),
            Held::One(_) => None,
            Held::Many(many) => many.slot(),
        }
    }

    // One version and no open write take no more room than they need.
    fn settle(&mut self)
        ensures { body self.new ≡ body self.old }
    {
        let Held::Many(many) = &mut *self.held else {
            return;
        };
        if let Some(version) = many.take_only() {
            *self.held = Held::One(version);
        }
    }

    /// Makes room for so many more versions. The first one has room from the start.
    pub(crate) fn reserve(&mut self, more: usize) -> Result<(), Memory>
        ensures same { body self.new ≡ body self.old }
        ensures room { OnOk result (more ≤ self.new.room) }
        ensures kept { self.old.room ≤ self.new.room }
    {
        let alloc = *Box::allocator(&self.held);
        match &mut *self.held {
            Held::New(slot) => {
                if more > 1 {
                    *self.held = Held::Many(Versions::with_slot(alloc, slot, more)?);
                }
            }
            Held::One(version) => {
                if more > 0 {
                    *self.held = Held::Many(Versions::with(alloc, version, more)?);
                }
            }
            Held::Many(many) => return many.reserve(more),
        }
        Ok(())
    }

    /// The row as the actor sees it at r.
    pub(crate) fn seen(&self, actor: u8, r: u64) -> Option<&Row>
        ensures { option_copied result ≡ seen actor r (body self.now) }
    {
        seen(self.slot(), self.versions(), actor, r)
    }

    /// When the living version began.
    pub(crate) fn living_since(&self) -> Option<u64>
        ensures { result ≡ living_since self.now.versions }
    {
        living_since(self.versions())
    }

    /// Who has an open write of the row.
    pub(crate) fn holder(&self) -> Option<u8>
        ensures { result ≡ option_map (λ s. s.holder) self.now.slot }
    {
        holder(self.slot())
    }

    /// Sets the open write, and hands out the row of the one before it.
    pub(crate) fn put(&mut self, slot: Slot) -> Option<Row>
        requires { 0 < self.old.room }
        ensures same { body self.new ≡ (self.old.versions, Some slot) }
        ensures room { self.new.room ≡ self.old.room }
    {
        match &mut *self.held {
            Held::New(before) => put_slot(before, slot),
            Held::One(_) => None,
            Held::Many(many) => many.put(slot),
        }
    }

    /// The actor's open write, if it has one, takes effect at `time`.
    pub(crate) fn commit(&mut self, actor: u8, time: u64)
        ensures { body self.new ≡ (chain_after time (own actor self.old.slot) self.old.versions, slot_after actor self.old.slot) }
    {
        match &mut *self.held {
            Held::New(slot) => {
                if let Some(version) = commit_first(slot, actor, time) {
                    *self.held = Held::One(version);
                }
            }
            Held::One(_) => {}
            Held::Many(many) => many.commit(actor, time),
        }
        self.settle();
    }

    /// The actor's open write, if it has one, is forgotten, and its row handed out.
    pub(crate) fn undo(&mut self, actor: u8) -> Option<Row>
        ensures { body self.new ≡ (self.old.versions, slot_after actor self.old.slot) }
    {
        let gone = self.forget_write(actor);
        self.settle();
        gone
    }

    // The actor's open write, if it has one, is forgotten, and its row handed out.
    fn forget_write(&mut self, actor: u8) -> Option<Row>
        ensures { body self.new ≡ (self.old.versions, slot_after actor self.old.slot) }
    {
        match &mut *self.held {
            Held::New(slot) => undo_slot(slot, actor),
            Held::One(_) => None,
            Held::Many(many) => many.undo(actor),
        }
    }

    /// The living version ends at `time`.
    pub(crate) fn end(&mut self, time: u64)
        ensures { body self.new ≡ (ended time self.old.versions, self.old.slot) }
    {
        match &mut *self.held {
            Held::New(_) => {}
            Held::One(version) => end_version(version, time),
            Held::Many(many) => many.end(time),
        }
    }

    /// Forgets the versions that ended at or before `h`, and answers whether something is left.
    pub(crate) fn cut(&mut self, h: u64) -> bool
        ensures after { body self.new ≡ (kept h self.old.versions, self.old.slot) }
        ensures left { result ≡ not (is_empty_body (body self.new)) }
    {
        self.forget(h);
        self.settle();
        !self.is_empty()
    }

    // Forgets the versions that ended at or before `h`.
    fn forget(&mut self, h: u64)
        ensures { body self.new ≡ (kept h self.old.versions, self.old.slot) }
    {
        match &mut *self.held {
            Held::New(_) => {}
            Held::One(version) => {
                if !is_kept(version, h) {
                    *self.held = Held::New(None);
                }
            }
            Held::Many(many) => many.forget(h),
        }
    }

    // Whether there is neither a version nor an open write.
    fn is_empty(&self) -> bool
        ensures { result ≡ is_empty_body (body self.now) }
    {
        self.versions().is_empty() && self.slot().is_none()
    }

    /// Whether a version ended at `time`.
    pub(crate) fn ended_at(&self, time: u64) -> bool
        ensures { result ≡ has_end time self.now.versions }
    {
        any_ended_at(self.versions(), time)
    }

    /// How many versions there are.
    pub(crate) fn len(&self) -> usize
        ensures { result ≡ length self.now.versions }
    {
        self.versions().len()
    }

    /// Hands out the row of the version at place `i`, if it ended at or before `h`: such a version is to be forgotten.
    pub(crate) fn lend_done(&mut self, i: usize, h: u64) -> Option<Row>
        ensures { cut_body h (body self.new) ≡ cut_body h (body self.old) }
    {
        let alloc = *Box::allocator(&self.held);
        match &mut *self.held {
            Held::One(version) if i == 0 => lend_row(alloc, version, h),
            Held::Many(many) => many.lend_done(i, h),
            _ => None,
        }
    }

    /// The same where of the versions only those count that a cut at `h` keeps, or all.
    pub(crate) fn keeps_key(&self, h: Option<u64>, places: &[u8], key: &[Value]) -> bool
        ensures { result ≡ body_has places.now key.now (left_by h (body self.now)) }
    {
        match h {
            Some(h) => self.kept_has(h, places, key),
            None => self.has_key(places, key),
        }
    }

    // The same where a cut at `h` is to come.
    fn kept_has(&self, h: u64, places: &[u8], key: &[Value]) -> bool
        ensures { result ≡ body_has places.now key.now (cut_body h (body self.now)) }
    {
        any_kept_has(self.versions(), h, places, key) || slot_has(self.slot(), places, key)
    }

    /// Whether some version or the open write has the key at these places.
    pub(crate) fn has_key(&self, places: &[u8], key: &[Value]) -> bool
        ensures { result ≡ body_has places.now key.now (body self.now) }
    {
        any_has(self.versions(), places, key) || slot_has(self.slot(), places, key)
    }

    /// Whether there is a living version or an open write.
    pub(crate) fn is_present(&self) -> bool
        ensures { result ≡ is_present (body self.now) }
    {
        self.living_since().is_some() || self.slot().is_some()
    }

    /// Whether there is a living version that began by `r`, and no open write.
    pub(crate) fn is_free(&self, r: u64) -> bool
        ensures { result ≡ is_free r (body self.now) }
    {
        match self.living_since() {
            Some(begin) => begin <= r && self.slot().is_none(),
            None => false,
        }
    }

    /// Begins a version at `time`.
    pub(crate) fn begin(&mut self, row: Row, time: u64)
        requires { 1 < self.old.room }
        ensures { body self.new ≡ (self.old.versions ++ begun time (Some row), self.old.slot) }
    {
        if let Held::Many(many) = &mut *self.held {
            many.begin(row, time);
        }
        self.settle();
    }
}
