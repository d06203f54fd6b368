//! Texts: UTF-8 of at most 255 bytes without a line feed.
ghost use Rattle.std.specs.Prelude.{◌≡◌, ◌<◌, ◌↔◌, ◌^◌, true, false, ℕ, length, IfOk, IsErrOf, nat_le, IsTrue, Some};
ghost use Rattle.std.specs.Ordering.{nat_cmp};
ghost use Rattle.std.specs.Cmp.{partial_equiv_from_equiv};
ghost use Rattle.std.specs.Cmp.Lexicographic.{pointwise, slice_cmp, nat_list_eq_equiv, nat_list_cmp_total, texts_ties, texts_po};
ghost use Rattle.std.specs.Bool.{◌==◌};
ghost use Rattle.std.specs.List.{list_any};
ghost use Rattle.std.specs.Str.{is_utf8};
ghost use Rattle.std.specs.Hash as fed;
ghost use Rattle.std.specs.Cmp.Rules.{hashing};
ghost use Rattle.std.proofs.Common.{rules, refl};
ghost use Rattle.s2_value.specs.Text.{is_txt, is_text_bytes};

use crate::held::Bytes;
use crate::{Duplicate, Memory};
use std::alloc::Global;
use std::cmp::Ordering;
use std::hash::{Hash, Hasher};
use std::marker::Model;

/// The most bytes that a text may have.
pub const MOST_TEXT_BYTES: usize = 255;

/// A text of a row: UTF-8 of at most 255 bytes without the byte 0x0A. In contracts it is the list of its bytes.
#[derive(Debug, Drop)]
pub struct Txt {
    bytes: Bytes,
}

impl Model for Txt {
    ghost use Rattle.std.specs.Prelude.{List, ℕ, ◌≡◌, true};
    ghost use Rattle.s2_value.specs.Text.{is_txt};

    ghost Value = { List ℕ };

    ghost view = { λ t. t.bytes };

    ghost invariant = { λ t. is_txt t.bytes ≡ true };
}

/// Why bytes are no text.
#[derive(Clone, Copy, Debug, PartialEq, Eq)]
pub enum TxtErr {
    /// More than 255 bytes.
    TooLong,
    /// Not UTF-8, or with a line feed.
    NotText,
    /// No memory for the bytes.
    Memory,
}

impl Txt {
    /// The text of these bytes: `TooLong` past 255 bytes, else `NotText` where they aren't UTF-8 or have a line feed.
    pub fn new(alloc: Global, bytes: &[u8]) -> Result<Txt, TxtErr>
        ensures text { IfOk result (λ t. (t ≡ bytes.now) × (is_txt bytes.now ≡ true)) }
        ensures too_long { IsErrOf result TxtErr.TooLong ↔ (255 < length bytes.now) }
        ensures not_text { IsErrOf result TxtErr.NotText ↔ ((nat_le (length bytes.now) 255 ≡ true) × (is_text_bytes bytes.now ≡ false)) }
    {
        if bytes.len() > MOST_TEXT_BYTES {
            return Err(TxtErr::TooLong);
        }
        if !are_text_bytes(bytes) {
            return Err(TxtErr::NotText);
        }
        match Bytes::new(alloc, bytes) {
            Ok(bytes) => Ok(Txt { bytes }),
            Err(_) => Err(TxtErr::Memory),
        }
    }

    /// The bytes of the text.
    pub fn bytes(&self) -> &[u8]
        ensures same { result.now ≡ self.now }
        ensures text { is_txt self.now ≡ true }
    {
        self.bytes.as_slice()
    }
}

/// Whether the bytes are UTF-8 without a line feed.
pub fn are_text_bytes(bytes: &[u8]) -> bool
    ensures { result ≡ is_text_bytes bytes.now }
{
    is_valid_utf8(bytes) && !has_line_feed(bytes)
}

fn is_valid_utf8(bytes: &[u8]) -> bool
    ensures { result ≡ is_utf8 bytes.now }
{
    std::str::from_utf8(bytes).is_ok()
}

fn has_line_feed(bytes: &[u8]) -> bool
    ensures { result ≡ list_any (λ b. b == 10) bytes.now }
{
    bytes.iter().any(|b| *b == 0x0a)
}

impl Duplicate for Txt {
    fn copy(&self) -> Result<Self, Memory> {
        Ok(Txt {
            bytes: self.bytes.copy()?,
        })
    }
}

impl PartialEq for Txt {
    ghost eq = { pointwise ◌==◌ };

    ghost laws = { partial_equiv_from_equiv nat_list_eq_equiv };

    fn eq(&self, other: &Txt) -> bool {
        self.bytes() == other.bytes()
    }
}

impl Eq for Txt {
    ghost laws = { nat_list_eq_equiv };
}

impl PartialOrd for Txt {
    ghost partial_cmp = { λ a b. Some (slice_cmp nat_cmp a b) };

    ghost laws = { texts_po };

    fn partial_cmp(&self, other: &Txt) -> Option<Ordering> {
        Some(self.cmp(other))
    }
}

impl Ord for Txt {
    ghost cmp = { slice_cmp nat_cmp };

    ghost total = { nat_list_cmp_total };

    ghost matches_partial_cmp = { λ a b. refl };

    ghost matches_eq = { texts_ties };

    fn cmp(&self, other: &Txt) -> Ordering {
        self.bytes().cmp(&other.bytes())
    }
}

impl Hash for Txt {
    ghost hash_input = { λ t. fed.slice fed.u8 t };

    ghost respects_eq = { Prim.search (hashing, rules) };

    fn hash<H: Hasher>(&self, state: &mut H) {
        self.bytes().hash(state);
    }
}
