// The bytes of a text: a few stand in place, more on the heap.
ghost use Rattle.std.specs.Prelude.{◌≡◌, ◌≤◌, length, IfOk};

use crate::{Duplicate, Memory};
use std::alloc::Global;
use std::marker::Model;

/// The most bytes that stand in place.
const HERE: usize = 14;

/// Where the bytes are.
#[derive(Debug, Drop)]
enum Held {
    /// In place: how many there are, and room for the most.
    Here(u8, [u8; HERE]),
    /// On the heap.
    There(Box<Vec<u8>>),
}

/// A list of bytes. In contracts it is the list itself.
#[derive(Debug, Drop)]
pub(crate) struct Bytes {
    held: Held,
}

impl Model for Bytes {
    ghost use Rattle.std.specs.Prelude.{List, ℕ, ◌≡◌, true};
    ghost use Rattle.s2_value.specs.Held.{bytes_held, is_held};

    ghost Value = { List ℕ };

    ghost view = { λ b. bytes_held b.held };

    ghost invariant = { λ b. is_held b.held ≡ true };
}

// The bytes in place.
fn here(bytes: &[u8]) -> Bytes
    requires { length bytes.now ≤ 14 }
    ensures { result ≡ bytes.now }
{
    let mut room = [0; HERE];
    room.split_at_mut(bytes.len()).0.copy_from_slice(bytes);
    Bytes {
        held: Held::Here(bytes.len() as u8, room),
    }
}

// The bytes on the heap.
fn there(alloc: Global, bytes: &[u8]) -> Result<Bytes, Memory>
    ensures { IfOk result (λ b. b ≡ bytes.now) }
{
    let bytes = Vec::from_slice(alloc, bytes)?;
    Ok(Bytes {
        held: Held::There(Box::new(alloc, bytes)?),
    })
}

impl Bytes {
    /// A list of these bytes. It takes no memory where they are few.
    pub(crate) fn new(alloc: Global, bytes: &[u8]) -> Result<Bytes, Memory>
        ensures { IfOk result (λ b. b ≡ bytes.now) }
    {
        if bytes.len() <= HERE {
            Ok(here(bytes))
        } else {
            there(alloc, bytes)
        }
    }

    /// The bytes as a slice.
    pub(crate) fn as_slice(&self) -> &[u8]
        ensures { result.now ≡ self.now }
    {
        match &self.held {
            Held::Here(len, room) => room.split_at(usize::from(*len)).0,
            Held::There(bytes) => bytes.as_slice(),
        }
    }
}

impl Duplicate for Bytes {
    fn copy(&self) -> Result<Self, Memory> {
        match &self.held {
            Held::Here(len, room) => Ok(Bytes {
                held: Held::Here(*len, *room),
            }),
            Held::There(bytes) => there(*bytes.allocator(), bytes.as_slice()),
        }
    }
}
