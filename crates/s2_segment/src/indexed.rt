//! An index with its block.
ghost use Rattle.std.specs.Prelude.{◌≡◌, true, length};
ghost use Rattle.std.specs.List.{list_all};
ghost use Rattle.s2_value.specs.Columns.{are_below};
ghost use Rattle.s2_segment.specs.Checks.{key_block};
ghost use Rattle.s2_segment.specs.Matched.{IsBlock};

use crate::matching::are_matched;
use s2_segindex::Index;
use s2_value::Row;

/// An index, the bytes of its block, and of how many columns its keys and of how many rows its offsets are.
#[derive(Debug, Drop)]
pub(crate) struct IndexBlock<'a> {
    pub(crate) index: Index<'a>,
    pub(crate) bytes: &'a [u8],
    pub(crate) width: usize,
    pub(crate) count: u32,
    ghost block: { IsBlock width count bytes.now },
}

impl<'a> IndexBlock<'a> {
    /// Whether a look at each offset tells that the block is that of the rows by the values at these places. It takes no
    /// memory.
    pub(crate) fn is_matched(&self, places: &[u8], rows: &[Row]) -> bool
        requires { list_all (λ r. are_below (length r) places.now) rows.now ≡ true }
        ensures { result ≡ true → self.now.bytes.now ≡ key_block rows.now places.now }
    {
        if self.width != places.len() {
            return false;
        }
        are_matched(places, rows, self.bytes)
    }
}
