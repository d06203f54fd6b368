//! Lists of distinct column places.
ghost use Rattle.std.specs.Prelude.{◌≡◌, ◌<◌, ◌++◌, ◌∷◌, [], length, IfOk, IfErr, OnOk, OnErr, slice_index, true, false};
ghost use Rattle.std.specs.Prelude.{ℕ, List};
ghost use Rattle.s2_value.specs.Columns.{has_place};

use crate::{Duplicate, Memory};
use std::alloc::Global;
use std::marker::Model;

/// A list of distinct column places, counted from 0. In contracts it is the list itself.
#[derive(Debug, Drop)]
pub struct ColList {
    places: Vec<u8>,
}

impl Model for ColList {
    ghost use Rattle.std.specs.Prelude.{List, ℕ, ◌≡◌, true};
    ghost use Rattle.s2_value.specs.Columns.{are_distinct};

    ghost Value = { List ℕ };

    ghost view = { λ c. c.places.items };

    ghost invariant = { λ c. are_distinct c.places.items ≡ true };
}

/// Whether the place is among these.
pub fn contains_place(places: &[u8], place: u8) -> bool
    ensures { result ≡ has_place place places.now }
{
    places.iter().any(|p| *p == place)
}

impl ColList {
    /// The empty list. It takes no memory.
    pub fn new(alloc: Global) -> ColList
        ensures { result ≡ [] }
    {
        ColList {
            places: Vec::new(alloc),
        }
    }

    /// Puts a place at the end that isn't there yet. The `Err` is want of memory, and the list stays.
    pub fn push(&mut self, place: u8) -> Result<(), u8>
        requires { has_place place self.old ≡ false }
        ensures ok { OnOk result (self.new ≡ self.old ++ place ∷ []) }
        ensures err { OnErr result (self.new ≡ self.old) }
        ensures back { IfErr result (λ same. same ≡ place) }
    {
        match self.places.push(place) {
            Ok(()) => Ok(()),
            Err(failed) => Err(failed.value),
        }
    }

    /// The place at `i`, counted from 0.
    pub fn at(&self, i: usize) -> u8
        requires { i < length self.now }
        ensures { result ≡ slice_index self.now i }
    {
        self.places[i]
    }

    /// How many places there are.
    pub fn len(&self) -> usize
        ensures { result ≡ length self.now }
    {
        self.places.len()
    }

    /// The places as a slice.
    pub fn as_slice(&self) -> &[u8]
        ensures { result.now ≡ self.now }
    {
        self.places.as_slice()
    }
}

impl Duplicate for ColList {
    fn copy(&self) -> Result<Self, Memory> {
        let alloc = *self.places.allocator();
        Ok(ColList {
            places: Vec::from_slice(alloc, self.places.as_slice())?,
        })
    }
}
