//! One generic list for all list types of the engine: contracts see its items.
ghost use Rattle.std.specs.Prelude.{◌≡◌, ◌<◌, ◌++◌, ◌∷◌, [], length, IfOk, IfErr, OnOk, OnErr, slice_index_or};
ghost use Rattle.std.specs.Cmp.{on_equiv, on_total, on_po, on_per};
ghost use Rattle.std.specs.Cmp.Lexicographic.{pointwise, slice_cmp, slice_partial_cmp, lists_per, lists_equiv, lists_po, lists_total, lists_agrees, lists_ties};
ghost use Rattle.std.specs.Hash as fed;
ghost use Rattle.std.specs.Hash.{on_Alike, items_Alike};

use crate::Memory;
use std::alloc::Global;
use std::cmp::Ordering;
use std::hash::{Hash, Hasher};
use std::marker::Model;

/// A list of items, each pushed at its end. In contracts it is the list itself.
#[derive(Debug, Drop)]
pub struct Seq<T> {
    items: Vec<T>,
}

impl<T> Model for Seq<T> {
    ghost use Rattle.std.specs.Prelude.{List};
    ghost use Rattle.std.specs.Coded.{coded_list};

    ghost Value = { List T };

    ghost coded = { coded_list T.code };

    ghost view = { λ s. s.items.items };
}

/// Values that can be copied where there is memory for it.
pub trait Duplicate: Sized {
    /// An equal value, or want of memory.
    fn copy(&self) -> Result<Self, Memory>
        ensures { IfOk result (λ same. same ≡ self.now) };
}

impl<T> Seq<T> {
    /// The empty list. It takes no memory.
    pub fn new(alloc: Global) -> Seq<T>
        ensures { result ≡ [] }
    {
        Seq {
            items: Vec::new(alloc),
        }
    }

    /// Puts an item at the end. The `Err` is want of memory: it hands the item back, and the list stays.
    pub fn push(&mut self, item: T) -> Result<(), T>
        ensures ok { OnOk result (self.new ≡ self.old ++ item ∷ []) }
        ensures err { OnErr result (self.new ≡ self.old) }
        ensures back { IfErr result (λ same. same ≡ item) }
    {
        match self.items.push(item) {
            Ok(()) => Ok(()),
            Err(failed) => Err(failed.value),
        }
    }

    /// Puts an item at the end, or lets it go where there is no memory for it; the list then stays.
    pub fn add(&mut self, item: T) -> Result<(), Memory>
    where
        T: Drop,
        ensures ok { OnOk result (self.new ≡ self.old ++ item ∷ []) }
        ensures err { OnErr result (self.new ≡ self.old) }
    {
        self.items.push(item)?;
        Ok(())
    }

    /// The item at place `i`, counted from 0.
    pub fn at(&self, i: usize) -> &T
        requires { i < length self.now }
        ensures { result.now ≡ slice_index_or self.now i result.now }
    {
        &self.items[i]
    }

    /// How many items there are.
    pub fn len(&self) -> usize
        ensures { result ≡ length self.now }
    {
        self.items.len()
    }

    /// The items as a slice.
    pub fn as_slice(&self) -> &[T]
        ensures { result.now ≡ self.now }
    {
        self.items.as_slice()
    }

    /// A list of these items. It takes no memory.
    pub fn from_vec(items: Vec<T>) -> Seq<T>
        ensures { result ≡ items.items }
    {
        Seq { items }
    }

    /// The items as a vector. It takes no memory.
    pub fn into_vec(self) -> Vec<T>
        ensures { result.items ≡ self }
    {
        self.items
    }
}

fn copies<T: Duplicate + Drop>(alloc: Global, items: &[T]) -> Result<Vec<T>, Memory>
    ensures { IfOk result (λ same. same.items ≡ items.now) }
{
    let mut same = Vec::with_capacity(alloc, items.len())?;
    for item in items {
        same.push(item.copy()?)?;
    }
    Ok(same)
}

impl<T: Duplicate + Drop> Duplicate for Seq<T> {
    fn copy(&self) -> Result<Self, Memory> {
        let alloc = *self.items.allocator();
        Ok(Seq {
            items: copies(alloc, self.items.as_slice())?,
        })
    }
}

fn equal<T: PartialEq>(a: &[T], b: &[T]) -> bool
    ensures { result ≡ pointwise T.eq a.now b.now }
{
    a == b
}

fn order<T: Ord>(a: &[T], b: &[T]) -> Ordering
    ensures { result ≡ slice_cmp T.cmp a.now b.now }
{
    a.cmp(&b)
}

fn partial_order<T: PartialOrd>(a: &[T], b: &[T]) -> Option<Ordering>
    ensures { result ≡ slice_partial_cmp T.partial_cmp a.now b.now }
{
    a.partial_cmp(&b)
}

impl<T: PartialEq> PartialEq for Seq<T> {
    ghost eq = { λ a b. pointwise T.eq a b };

    ghost laws = { lists_per T.laws };

    fn eq(&self, other: &Self) -> bool {
        equal(self.as_slice(), other.as_slice())
    }
}

impl<T: Eq> Eq for Seq<T> {
    ghost laws = { lists_equiv T.Eq.laws };
}

impl<T: PartialOrd> PartialOrd for Seq<T> {
    ghost partial_cmp = { λ a b. slice_partial_cmp T.partial_cmp a b };

    ghost laws = { lists_po T.PartialOrd.laws };

    fn partial_cmp(&self, other: &Self) -> Option<Ordering> {
        partial_order(self.as_slice(), other.as_slice())
    }
}

impl<T: Ord> Ord for Seq<T> {
    ghost cmp = { λ a b. slice_cmp T.cmp a b };

    ghost total = { lists_total T.total };

    ghost matches_partial_cmp = { λ a b. lists_agrees T.matches_partial_cmp a b };

    ghost matches_eq = { λ a b. lists_ties T.cmp T.matches_eq a b };

    fn cmp(&self, other: &Self) -> Ordering {
        order(self.as_slice(), other.as_slice())
    }
}

impl<T: Hash> Hash for Seq<T> {
    ghost hash_input = { λ s. fed.slice T.hash_input s };

    ghost respects_eq = { (items_Alike (record { fed = T.respects_eq })).fed };

    fn hash<H: Hasher>(&self, state: &mut H) {
        self.as_slice().hash(state);
    }
}

impl Duplicate for u8 {
    fn copy(&self) -> Result<Self, Memory> {
        Ok(*self)
    }
}

impl Duplicate for u32 {
    fn copy(&self) -> Result<Self, Memory> {
        Ok(*self)
    }
}

impl Duplicate for u64 {
    fn copy(&self) -> Result<Self, Memory> {
        Ok(*self)
    }
}

impl Duplicate for bool {
    fn copy(&self) -> Result<Self, Memory> {
        Ok(*self)
    }
}

impl<A: Duplicate + Drop, B: Duplicate> Duplicate for (A, B) {
    fn copy(&self) -> Result<Self, Memory> {
        let first = self.0.copy()?;
        let second = self.1.copy()?;
        Ok((first, second))
    }
}
