//! Names of tables and columns, and digests.
ghost use Rattle.std.specs.Prelude.{◌≡◌, ◌≤◌, length, IfOk};

use crate::{Duplicate, Memory};
use std::alloc::Global;
use std::marker::Model;

/// A name of a table or a column: 1 to 32 bytes. In contracts it is the list of its bytes.
#[derive(Debug, Drop)]
pub struct Name {
    bytes: Vec<u8>,
}

impl Model for Name {
    ghost use Rattle.std.specs.Prelude.{List, ℕ};
    ghost use Rattle.s2_value.specs.Names.{IsName};

    ghost Value = { List ℕ };

    ghost view = { λ n. n.bytes.items };

    ghost invariant = { λ n. IsName n.bytes.items };
}

impl Name {
    /// The name of these bytes.
    pub fn new(alloc: Global, bytes: &[u8]) -> Result<Name, Memory>
        requires some { 1 ≤ length bytes.now }
        requires few { length bytes.now ≤ 32 }
        ensures { IfOk result (λ n. n ≡ bytes.now) }
    {
        Ok(Name {
            bytes: Vec::from_slice(alloc, bytes)?,
        })
    }

    /// The bytes of the name.
    pub fn bytes(&self) -> &[u8]
        ensures same { result.now ≡ self.now }
        ensures some { 1 ≤ length self.now }
        ensures few { length self.now ≤ 32 }
    {
        self.bytes.as_slice()
    }
}

impl Duplicate for Name {
    fn copy(&self) -> Result<Self, Memory> {
        let alloc = *self.bytes.allocator();
        Ok(Name {
            bytes: Vec::from_slice(alloc, self.bytes.as_slice())?,
        })
    }
}

/// A SHA-256 digest: 32 bytes. In contracts it is the list of its bytes.
#[derive(Clone, Copy, Debug)]
pub struct Digest {
    bytes: [u8; 32],
}

impl Model for Digest {
    ghost use Rattle.std.specs.Prelude.{List, ℕ};

    ghost Value = { List ℕ };

    ghost view = { λ d. d.bytes };

    ghost inverse = { λ d. record { bytes = d } };
}

impl Digest {
    /// The digest of these bytes.
    pub fn new(bytes: [u8; 32]) -> Digest
        ensures { result ≡ bytes }
    {
        Digest { bytes }
    }

    /// The bytes of the digest.
    pub fn bytes(&self) -> &[u8]
        ensures { result.now ≡ self.now }
    {
        &self.bytes
    }
}
