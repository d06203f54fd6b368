//! A predicate as it is written.
ghost use Rattle.std.specs.Prelude.{◌≡◌, ◌≤◌, None, Some, length, min, IfOk, IsErrOf};
ghost use Rattle.s2_pred.specs.Postfix.{tests};
ghost use Rattle.s2_pred.specs.Measures.{most, nesting, comparisons};
ghost use Rattle.s2_pred.specs.Meaning.{meaning};

use crate::building::build;
use crate::measures::{comparisons_of, height_of};
use crate::{Join, Test, Unbuilt};
use s2_model::Condition;
use s2_value::{Col, Memory, Seq};
use std::alloc::Global;
use std::marker::Model;

/// A predicate as it is written, its parentheses kept, in postfix form: however deep it nests, it is read, judged and
/// let go in a few walks over two lists. In contracts it is its tree.
#[derive(Debug, Drop)]
pub struct Written {
    pub(crate) joins: Seq<Join>,
    pub(crate) tests: Seq<Test>,
}

impl Model for Written {
    ghost use Rattle.s2_pred.specs.Trees.{Tree};
    ghost use Rattle.s2_pred.specs.TreeCode.{tree_code};

    ghost Value = { Tree };

    ghost coded = { tree_code };

    ghost use Rattle.s2_pred.specs.Postfix.{tree_of, IsPostfix};

    ghost view = { λ s. tree_of s.joins s.tests };

    ghost invariant = { λ s. IsPostfix s.joins s.tests };
}

impl Written {
    /// The tests in order of standing.
    pub fn tests(&self) -> &[Test]
        ensures { result.now ≡ tests self.now }
    {
        self.tests.as_slice()
    }

    /// How many NOTs and written parentheses are open at once at most, or 2^64 - 1 where they are more. Those of an IN
    /// don't count. It fails only for want of memory.
    pub fn nesting(&self, alloc: Global) -> Result<u64, Memory>
        ensures { IfOk result (λ n. n ≡ min (nesting self.now) most) }
    {
        height_of(alloc, self.joins.as_slice())
    }

    /// How many comparisons there are, or 2^64 - 1 where they are more. An IN has one for each of its values.
    pub fn comparisons(&self) -> u64
        ensures { result ≡ min (comparisons self.now) most }
    {
        comparisons_of(self.tests.as_slice())
    }

    /// The predicate over these columns: names by their places, literals by their values, without parentheses.
    /// `Unresolved` comes exactly where a name is no column's or a literal is no value. A predicate within the limits
    /// on nesting and comparisons is asked for, since what is built is as deep as its tree.
    pub fn build(&self, alloc: Global, cols: &[Col]) -> Result<Condition, Unbuilt>
        requires columns { length cols.now ≤ 16 }
        requires shallow { nesting self.now ≤ 16 }
        requires few { comparisons self.now ≤ 64 }
        ensures built { IfOk result (λ pred. meaning cols.now self.now ≡ Some pred) }
        ensures unresolved { IsErrOf result Unbuilt.Unresolved → meaning cols.now self.now ≡ None }
    {
        build(alloc, cols, self.joins.as_slice(), self.tests.as_slice())
    }
}
