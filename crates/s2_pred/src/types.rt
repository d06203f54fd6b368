//! Tests, and how they are joined.
use s2_model::Op;
use s2_token::{Bytes, Literal};
use s2_value::Seq;

/// Literals in order.
pub type LiteralList = Seq<Literal>;

/// A test of one column.
#[derive(Debug, Drop)]
pub enum Test {
    /// The column's value stands in this relation to the literal.
    Compare {
        column: Bytes,
        op: Op,
        literal: Literal,
    },
    /// The column's value is one of these.
    OneOf {
        column: Bytes,
        literals: LiteralList,
    },
}

/// One step of a predicate in postfix form: what it makes of the trees made before it.
#[derive(Clone, Copy, Debug, PartialEq, Eq)]
pub enum Join {
    /// The next test.
    Test,
    /// NOT of the last tree.
    Not,
    /// Parentheses round the last tree.
    Paren,
    /// AND of the last two trees.
    And,
    /// OR of the last two trees.
    Or,
}

/// A sign of a predicate: a whole test, a word between tests, or a parenthesis.
#[derive(Debug, Drop)]
pub(crate) enum Sign {
    /// A test.
    Test(Test),
    /// NOT
    Not,
    /// AND
    And,
    /// OR
    Or,
    /// `(`
    Open,
    /// `)`
    Close,
}
