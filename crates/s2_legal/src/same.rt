//! Whether two values are one.
ghost use Rattle.std.specs.Prelude.{◌≡◌, ◌↔◌, IsTrue};

use s2_model::{Cell, Change};
use s2_value::{Row, Seq};

/// Values of which it can be told whether two are one.
pub trait Same {
    /// Whether this is the other.
    fn is_same(&self, other: &Self) -> bool
        ensures { IsTrue result ↔ (self.now ≡ other.now) };
}

pub(crate) fn all_same<T: Same>(a: &[T], b: &[T]) -> bool
    ensures { IsTrue result ↔ (a.now ≡ b.now) }
{
    if a.len() != b.len() {
        return false;
    }
    for (i, x) in a.iter().enumerate() {
        if !x.is_same(&b[i]) {
            return false;
        }
    }
    true
}

impl<T: Same> Same for Seq<T> {
    fn is_same(&self, other: &Self) -> bool {
        all_same(self.as_slice(), other.as_slice())
    }
}

impl Same for Cell {
    fn is_same(&self, other: &Self) -> bool {
        match (self, other) {
            (Cell::Nothing, Cell::Nothing) => true,
            (Cell::Int(x), Cell::Int(y)) => *x == *y,
            (Cell::Text(x), Cell::Text(y)) => x.bytes() == y.bytes(),
            _ => false,
        }
    }
}

fn same_row(a: &Row, b: &Row) -> bool
    ensures { IsTrue result ↔ (a.now ≡ b.now) }
{
    a == b
}

impl Same for Change {
    fn is_same(&self, other: &Self) -> bool {
        match (self, other) {
            (Change::Put(m, x), Change::Put(n, y)) => *m == *n && same_row(x, y),
            (Change::Drop(m), Change::Drop(n)) => *m == *n,
            _ => false,
        }
    }
}
