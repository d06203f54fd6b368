//! The reader of predicates.
ghost use Rattle.std.specs.Prelude.{◌≡◌, false, IfOk, IsErrOf};
ghost use Rattle.std.specs.List.{list_any};
ghost use Rattle.s2_pred.specs.Ends.{is_end};
ghost use Rattle.s2_pred.specs.Trees.{Tree, IsGrouped, words, IsPredicate};

use crate::signs::sign;
use crate::yard::Yard;
use crate::{Fault, Written};
use s2_token::Token;
use std::alloc::Global;

/// The predicate that the tokens are, all of them. `Syntax` comes exactly where they are none.
pub fn pred(alloc: Global, tokens: &[Token]) -> Result<Written, Fault>
    ensures found { IfOk result (IsPredicate tokens.now) }
    ensures only { IfOk result (λ tree. (other : Tree) → IsPredicate tokens.now other → other ≡ tree) }
    ensures syntax { IsErrOf result Fault.Syntax → (tree : Tree) → IsPredicate tokens.now tree → ⊥ }
{
    let mut yard = Yard::new(alloc);
    let mut left = tokens;
    while !left.is_empty() {
        let (sign, rest) = sign(alloc, left)?;
        yard.take(sign)?;
        left = rest;
    }
    let (joins, tests) = yard.finish()?;
    Ok(Written { joins, tests })
}

/// Tokens are the words of one predicate at most.
pub fn one_predicate()
    ensures { (p q : Tree) → IsGrouped p → IsGrouped q → words p ≡ words q → p ≡ q }
{}

/// No token of a predicate is ORDER, LIMIT or a semicolon, so what stands between WHERE and the first of these is all that a
/// predicate there can be.
pub fn no_end_inside()
    ensures { (tree : Tree) → list_any is_end (words tree) ≡ false }
{}
