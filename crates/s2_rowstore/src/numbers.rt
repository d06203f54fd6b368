// Row numbers, by the blocks of sixteen in which they stand: most are dense, and so take few bytes each.
ghost use Rattle.std.specs.Prelude.{◌≡◌, ℕ, ◌/◌, ◌%◌, ◌==◌, true, false, OnOk, slice_index_or};
ghost use Rattle.s2_rowstore.specs.Numbers.{is_among};

use s2_value::Memory;
use std::alloc::Global;
use std::collections::BTreeMap;
use std::marker::Model;

/// For each block its sixteen flags, by the number of the block.
pub(crate) type Blocks = BTreeMap<u64, [bool; 16]>;

/// A set of row numbers.
#[derive(Drop)]
pub(crate) struct Numbers {
    // A block without a number is not among these.
    blocks: Blocks,
    // How many numbers there are: a hint for what room is needed.
    count: usize,
}

impl Model for Numbers {
    ghost use Rattle.std.specs.Prelude.{List, ℕ, Bool};

    ghost Value = { List (ℕ × List Bool) };

    ghost view = { λ s. s.blocks.entries };
}

// Sets the number's flag, and answers whether it was not set.
fn set_flag(flags: &mut [bool; 16], id: u64) -> bool
    ensures kept { (i : ℕ) → slice_index_or flags.old i false ≡ true → slice_index_or flags.new i false ≡ true }
    ensures added { slice_index_or flags.new (id % 16) false ≡ true }
{
    let place = (id % 16) as usize;
    let is_new = !flags[place];
    flags[place] = true;
    is_new
}

// Takes the number's flag away, and answers whether it was set.
fn clear_flag(flags: &mut [bool; 16], id: u64) -> bool
    ensures { (i : ℕ) → slice_index_or flags.old i false ≡ true → (id % 16 == i) ≡ false → slice_index_or flags.new i false ≡ true }
{
    let place = (id % 16) as usize;
    let was_set = flags[place];
    flags[place] = false;
    was_set
}

// Whether no flag is set.
fn is_bare(flags: &[bool; 16]) -> bool
    ensures { result ≡ true → (i : ℕ) → slice_index_or flags.now i false ≡ false }
{
    for flag in flags {
        if *flag {
            return false;
        }
    }
    true
}

// Puts the number among the others, and answers whether it is a new one.
fn add_number(blocks: &mut Blocks, id: u64) -> Result<bool, Memory>
    ensures kept { (n : ℕ) → is_among blocks.old.entries n ≡ true → is_among blocks.new.entries n ≡ true }
    ensures added { OnOk result (is_among blocks.new.entries id ≡ true) }
{
    if let Some(flags) = blocks.get_mut(&(id / 16)) {
        return Ok(set_flag(flags, id));
    }
    let mut flags = [false; 16];
    let _ = set_flag(&mut flags, id);
    blocks.insert(id / 16, flags)?;
    Ok(true)
}

// Takes the number out of its block, and answers whether the block has no other.
fn clear_number(blocks: &mut Blocks, count: &mut usize, id: u64) -> bool
    ensures kept { (n : ℕ) → is_among blocks.old.entries n ≡ true → (id == n) ≡ false → is_among blocks.new.entries n ≡ true }
    ensures none { result ≡ true → (n : ℕ) → is_among blocks.new.entries n ≡ true → (id / 16 == n / 16) ≡ false }
{
    match blocks.get_mut(&(id / 16)) {
        Some(flags) => {
            if clear_flag(flags, id) {
                *count = count.saturating_sub(1);
            }
            is_bare(flags)
        }
        None => false,
    }
}

// The same, and a block without a number goes.
fn remove_number(blocks: &mut Blocks, count: &mut usize, id: u64)
    ensures { (n : ℕ) → is_among blocks.old.entries n ≡ true → (id == n) ≡ false → is_among blocks.new.entries n ≡ true }
{
    if clear_number(blocks, count, id) {
        let _ = blocks.remove(&(id / 16));
    }
}

impl Numbers {
    /// No number.
    pub(crate) fn new(alloc: Global) -> Numbers {
        Numbers {
            blocks: BTreeMap::new(alloc),
            count: 0,
        }
    }

    /// How many numbers there are, as a hint.
    pub(crate) fn len(&self) -> usize {
        self.count
    }

    /// The numbers, by their blocks.
    pub(crate) fn blocks(&self) -> &Blocks
        ensures { result.now.entries ≡ self.now }
    {
        &self.blocks
    }

    /// Puts the number among these. Where there is no memory for it, those before it are left.
    pub(crate) fn insert(&mut self, id: u64) -> Result<(), Memory>
        ensures kept { (n : ℕ) → is_among self.old n ≡ true → is_among self.new n ≡ true }
        ensures added { OnOk result (is_among self.new id ≡ true) }
    {
        if add_number(&mut self.blocks, id)? {
            self.count = self.count.saturating_add(1);
        }
        Ok(())
    }

    /// Takes the number out, if it is among these.
    pub(crate) fn remove(&mut self, id: u64)
        ensures { (n : ℕ) → is_among self.old n ≡ true → (id == n) ≡ false → is_among self.new n ≡ true }
    {
        remove_number(&mut self.blocks, &mut self.count, id);
    }
}
