// The versions of one row in time, and what becomes of its open write.
ghost use Rattle.std.specs.Prelude.{◌≡◌, ◌<◌, ◌≤◌, ◌++◌, ◌∷◌, ◌-◌, ◌&&◌, [], None, Some, OnOk, OnErr, IfOk, IfSome, IfNone, is_some, not, true, length};
ghost use Rattle.std.specs.Option.{option_copied, option_map, option_to_list};
ghost use Rattle.std.specs.List.{list_any};
ghost use Rattle.s2_rowstore.specs.Keys.{row_has, slot_has};
ghost use Rattle.s2_rowstore.specs.Lines.{cut_body};
ghost use Rattle.s2_rowstore.specs.Ends.{is_end, has_end};
ghost use Rattle.s2_rowstore.specs.Chains.{body, row_at, is_visible, living_since, ended, begun, own, chain_after, slot_after, seen, end_version, kept, is_done};

use crate::chain::{Slot, Version};
use crate::notes::row_has;
use s2_value::{Memory, Row, Seq, Value};
use smallvec::SmallVec;
use std::alloc::{AllocError, Global};
use std::default::MadeWith;
use std::marker::Model;
use std::mem;

/// The versions of one row in the order of their beginning, and its open write. Few rows have more than two versions, and two stand in place.
#[derive(Debug, Drop)]
pub(crate) struct Versions {
    versions: SmallVec<Version, 2>,
    slot: Option<Slot>,
}

impl Model for Versions {
    ghost use Rattle.std.specs.Prelude.{◌≡◌, ◌<◌, ◌-◌, true, is_some};
    ghost use Rattle.smallvec.specs.SmallVec.{small_vec_len};
    ghost use Rattle.s2_rowstore.specs.Chains.{Line};

    ghost Value = { Line };

    ghost view = { λ c. record { versions = c.versions.items; slot = c.slot; room = c.versions.capacity - small_vec_len c.versions } };

    ghost invariant = { λ c. is_some c.slot ≡ true → small_vec_len c.versions < c.versions.capacity };
}

/// The version ends, if it is living.
pub(crate) fn end_version(version: &mut Version, time: u64)
    ensures { version.new ≡ end_version time version.old }
{
    if version.stop.is_none() {
        version.stop = Some(time);
    }
}

// Ends the living version.
fn end_living(versions: &mut [Version], time: u64)
    ensures { versions.new ≡ ended time versions.old }
{
    for version in versions.iter_mut() {
        end_version(version, time);
    }
}

// Whether the version had begun by `r` and was not over.
fn is_visible(version: &Version, r: u64) -> bool
    ensures { result ≡ is_visible r version.now }
{
    let done = match version.stop {
        Some(stop) => stop <= r,
        None => false,
    };
    version.begin <= r && !done
}

fn row_at(versions: &[Version], r: u64) -> Option<&Row>
    ensures { option_copied result ≡ row_at r versions.now }
{
    let mut left = versions;
    while let [version, later @ ..] = left {
        if is_visible(version, r) {
            return Some(&version.row);
        }
        left = later;
    }
    None
}

/// When the living version began.
pub(crate) fn living_since(versions: &[Version]) -> Option<u64>
    ensures { result ≡ living_since versions.now }
{
    let mut left = versions;
    while let [version, later @ ..] = left {
        if version.stop.is_none() {
            return Some(version.begin);
        }
        left = later;
    }
    None
}

fn is_end(version: &Version, time: u64) -> bool
    ensures { result ≡ is_end time version.now.stop }
{
    match version.stop {
        Some(stop) => stop == time,
        None => false,
    }
}

/// Whether one of the versions ended at `time`.
pub(crate) fn any_ended_at(versions: &[Version], time: u64) -> bool
    ensures { result ≡ has_end time versions.now }
{
    let mut left = versions;
    while let [version, later @ ..] = left {
        if is_end(version, time) {
            return true;
        }
        left = later;
    }
    false
}

/// Whether one of the versions has the key at these places.
pub(crate) fn any_has(versions: &[Version], places: &[u8], key: &[Value]) -> bool
    ensures { result ≡ list_any (λ v. row_has places.now key.now v.row) versions.now }
{
    let mut left = versions;
    while let [version, later @ ..] = left {
        if row_has(places, key, version.row.as_slice()) {
            return true;
        }
        left = later;
    }
    false
}

/// Whether a cut at `h` keeps the version.
pub(crate) fn is_kept(version: &Version, h: u64) -> bool
    ensures { result ≡ not (is_done h version.now.stop) }
{
    match version.stop {
        Some(stop) => stop > h,
        None => true,
    }
}

fn is_kept_with(version: &Version, h: u64, places: &[u8], key: &[Value]) -> bool
    ensures { result ≡ (not (is_done h version.now.stop) && row_has places.now key.now version.now.row) }
{
    is_kept(version, h) && row_has(places, key, version.row.as_slice())
}

fn any_kept_with(versions: &[Version], h: u64, places: &[u8], key: &[Value]) -> bool
    ensures { result ≡ list_any (λ v. not (is_done h v.stop) && row_has places.now key.now v.row) versions.now }
{
    let mut left = versions;
    while let [version, later @ ..] = left {
        if is_kept_with(version, h, places, key) {
            return true;
        }
        left = later;
    }
    false
}

/// Whether one of the versions that a cut at `h` keeps has the key at these places.
pub(crate) fn any_kept_has(versions: &[Version], h: u64, places: &[u8], key: &[Value]) -> bool
    ensures { result ≡ list_any (λ v. row_has places.now key.now v.row) (kept h versions.now) }
{
    any_kept_with(versions, h, places, key)
}

/// Hands out the row of a version that ended at or before `h`.
pub(crate) fn lend_row(alloc: Global, version: &mut Version, h: u64) -> Option<Row>
    ensures stop { version.new.stop ≡ version.old.stop }
    ensures kept { not (is_done h version.old.stop) ≡ true → version.new ≡ version.old }
{
    if is_kept(version, h) {
        return None;
    }
    Some(mem::replace(&mut version.row, Seq::new(alloc)))
}

// Hands out the row of the version at place `i`, if it ended at or before `h`.
fn lend_done(alloc: Global, versions: &mut [Version], i: usize, h: u64) -> Option<Row>
    requires { i < length versions.old }
    ensures { kept h versions.new ≡ kept h versions.old }
{
    lend_row(alloc, &mut versions[i], h)
}

/// The row as the actor sees it at r, with this open write.
pub(crate) fn seen<'a>(
    slot: Option<&'a Slot>,
    versions: &'a [Version],
    actor: u8,
    r: u64,
) -> Option<&'a Row>
    ensures { option_copied result ≡ seen actor r (versions.now, option_copied slot.entry) }
{
    match slot {
        Some(slot) if slot.holder == actor => slot.change.get().as_ref(),
        _ => row_at(versions, r),
    }
}

/// Who has the open write.
pub(crate) fn holder(slot: Option<&Slot>) -> Option<u8>
    ensures { result ≡ option_map (λ s. s.holder) (option_copied slot.entry) }
{
    match slot {
        Some(slot) => Some(slot.holder),
        None => None,
    }
}

/// Sets the open write, and hands out the row of the one before it.
pub(crate) fn put_slot(slot: &mut Option<Slot>, later: Slot) -> Option<Row>
    ensures { slot.new ≡ Some later }
{
    let before = slot.take();
    *slot = Some(later);
    row_of(before)
}

/// The actor's open write, if this is one, is forgotten, and its row handed out.
pub(crate) fn undo_slot(slot: &mut Option<Slot>, actor: u8) -> Option<Row>
    ensures { slot.new ≡ slot_after actor slot.old }
{
    if holder(slot.as_ref()) != Some(actor) {
        return None;
    }
    let gone = slot.take();
    row_of(gone)
}

/// The actor's open write, if this is one, takes effect at `time` where no version stands: so the first version begins.
pub(crate) fn commit_first(slot: &mut Option<Slot>, actor: u8, time: u64) -> Option<Version>
    ensures after { slot.new ≡ slot_after actor slot.old }
    ensures begun { option_to_list result ≡ chain_after time (own actor slot.old) [] }
{
    if holder(slot.as_ref()) != Some(actor) {
        return None;
    }
    let Some(done) = slot.take() else {
        return None;
    };
    match done.change.into_inner() {
        Some(row) => Some(Version {
            row,
            begin: time,
            stop: None,
        }),
        None => None,
    }
}

/// Whether the open write puts a row with the key at these places.
pub(crate) fn slot_has(slot: Option<&Slot>, places: &[u8], key: &[Value]) -> bool
    ensures { result ≡ slot_has places.now key.now (option_copied slot.entry) }
{
    let Some(slot) = slot else {
        return false;
    };
    match slot.change.get() {
        Some(row) => row_has(places, key, row.as_slice()),
        None => false,
    }
}

// The row that an open write puts.
fn row_of(slot: Option<Slot>) -> Option<Row> {
    match slot {
        Some(slot) => slot.change.into_inner(),
        None => None,
    }
}

impl Versions {
    /// No version and no open write.
    pub(crate) fn new(alloc: Global) -> Versions
        ensures { body result ≡ ([], None) }
    {
        Versions {
            versions: SmallVec::new(alloc),
            slot: None,
        }
    }

    /// No version, and the open write, which moves here, with room for so many. Where there is no memory for it, it stays.
    pub(crate) fn with_slot(
        alloc: Global,
        slot: &mut Option<Slot>,
        more: usize,
    ) -> Result<Box<Versions>, Memory>
        requires { 0 < more }
        ensures ok { IfOk result (λ many. body many.value ≡ ([], slot.old)) }
        ensures room { IfOk result (λ many. more ≤ many.value.room) }
        ensures err { OnErr result (slot.new ≡ slot.old) }
    {
        let mut many = Box::new(alloc, Versions::new(alloc))?;
        many.reserve(more)?;
        many.take_slot(slot);
        Ok(many)
    }

    // The open write moves here.
    fn take_slot(&mut self, slot: &mut Option<Slot>)
        requires { 0 < self.old.room }
        ensures same { body self.new ≡ (self.old.versions, slot.old) }
        ensures room { self.new.room ≡ self.old.room }
    {
        self.slot = slot.take();
    }

    /// The version of which a blank one takes the place, with room for so many more. Where there is no memory for it, it stays.
    pub(crate) fn with(
        alloc: Global,
        version: &mut Version,
        more: usize,
    ) -> Result<Box<Versions>, Memory>
        ensures ok { IfOk result (λ many. body many.value ≡ (version.old ∷ [], None)) }
        ensures room { IfOk result (λ many. more ≤ many.value.room) }
        ensures err { OnErr result (version.new ≡ version.old) }
    {
        let mut many = Box::new(alloc, Versions::new(alloc))?;
        many.reserve(more.checked_add(1).ok_or(AllocError)?)?;
        many.push(mem::replace(version, Version::made_with(alloc)));
        Ok(many)
    }

    // Puts a version behind the others.
    fn push(&mut self, version: Version)
        requires room { 0 < self.old.room }
        requires free { self.old.slot ≡ None }
        ensures same { body self.new ≡ (self.old.versions ++ version ∷ [], None) }
        ensures room { self.new.room ≡ self.old.room - 1 }
    {
        self.versions.push_reserved(version);
    }

    /// Makes room for so many more versions.
    pub(crate) fn reserve(&mut self, more: usize) -> Result<(), Memory>
        ensures same { body self.new ≡ body self.old }
        ensures room { OnOk result (more ≤ self.new.room) }
        ensures kept { self.old.room ≤ self.new.room }
    {
        self.versions.reserve(more)
    }

    /// The versions.
    pub(crate) fn versions(&self) -> &[Version]
        ensures { result.now ≡ self.now.versions }
    {
        self.versions.as_slice()
    }

    /// The open write.
    pub(crate) fn slot(&self) -> Option<&Slot>
        ensures { option_copied result ≡ self.now.slot }
    {
        self.slot.as_ref()
    }

    /// Sets the open write, and hands out the row of the one before it.
    pub(crate) fn put(&mut self, slot: Slot) -> Option<Row>
        requires { 0 < self.old.room }
        ensures same { body self.new ≡ (self.old.versions, Some slot) }
        ensures room { self.new.room ≡ self.old.room }
    {
        put_slot(&mut self.slot, slot)
    }

    /// The actor's open write, if it has one, takes effect at `time`.
    pub(crate) fn commit(&mut self, actor: u8, time: u64)
        ensures { body self.new ≡ (chain_after time (own actor self.old.slot) self.old.versions, slot_after actor self.old.slot) }
    {
        if holder(self.slot()) != Some(actor) {
            return;
        }
        let Some(slot) = self.slot.take() else {
            return;
        };
        end_living(self.versions.as_mut_slice(), time);
        if let Some(row) = slot.change.into_inner() {
            self.versions.push_reserved(Version {
                row,
                begin: time,
                stop: None,
            });
        }
    }

    /// The actor's open write, if it has one, is forgotten, and its row handed out.
    pub(crate) fn undo(&mut self, actor: u8) -> Option<Row>
        ensures { body self.new ≡ (self.old.versions, slot_after actor self.old.slot) }
    {
        undo_slot(&mut self.slot, actor)
    }

    /// The living version ends at `time`.
    pub(crate) fn end(&mut self, time: u64)
        ensures { body self.new ≡ (ended time self.old.versions, self.old.slot) }
    {
        end_living(self.versions.as_mut_slice(), time);
    }

    /// Forgets the versions that ended at or before `h`.
    pub(crate) fn forget(&mut self, h: u64)
        ensures { body self.new ≡ (kept h self.old.versions, self.old.slot) }
    {
        self.versions.retain(|version| is_kept(version, h));
    }

    /// Hands out the row of the version at place `i`, if it ended at or before `h`: such a version is to be forgotten.
    pub(crate) fn lend_done(&mut self, i: usize, h: u64) -> Option<Row>
        ensures { cut_body h (body self.new) ≡ cut_body h (body self.old) }
    {
        if i >= self.versions.len() {
            return None;
        }
        let alloc = *self.versions.allocator();
        lend_done(alloc, self.versions.as_mut_slice(), i, h)
    }

    /// Begins a version at `time`. Without an open write the row needs no room for another.
    pub(crate) fn begin(&mut self, row: Row, time: u64)
        requires { 1 < self.old.room }
        ensures { body self.new ≡ (self.old.versions ++ begun time (Some row), self.old.slot) }
    {
        self.versions.push_reserved(Version {
            row,
            begin: time,
            stop: None,
        });
        if self.slot.is_none() {
            self.versions.shrink_to_fit();
        }
    }

    /// Hands out the only version, where there is no other and no open write.
    pub(crate) fn take_only(&mut self) -> Option<Version>
        ensures only { IfSome result (λ version. body self.old ≡ (version ∷ [], None)) }
        ensures same { IfNone result (body self.new ≡ body self.old) }
    {
        if self.slot.is_some() || self.versions.len() != 1 {
            return None;
        }
        self.versions.pop()
    }
}
