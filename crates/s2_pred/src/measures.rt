//! Counts over the postfix form.
ghost use Rattle.std.specs.Prelude.{◌≡◌, [], min, max, OnOk, IfOk};
ghost use Rattle.s2_pred.specs.Measures.{most, raised, merged, height, heights, first_height, test_comparisons, all_comparisons};

use crate::stacks::Stack;
use crate::{Join, Test};
use s2_value::Memory;
use std::alloc::Global;

fn raise(stack: &mut Stack<u64>) -> Result<(), Memory>
    ensures { OnOk result (stack.new ≡ raised stack.old) }
{
    match stack.pop() {
        Some(top) => stack.push(top.saturating_add(1)),
        None => Ok(()),
    }
}

fn higher(a: u64, b: u64) -> u64
    ensures { result ≡ max a b }
{
    if a < b { b } else { a }
}

fn merge(stack: &mut Stack<u64>) -> Result<(), Memory>
    ensures { OnOk result (stack.new ≡ merged stack.old) }
{
    match stack.pop() {
        Some(right) => match stack.pop() {
            Some(left) => stack.push(higher(left, right)),
            None => stack.push(right),
        },
        None => Ok(()),
    }
}

fn add_height(stack: &mut Stack<u64>, join: Join) -> Result<(), Memory>
    ensures { OnOk result (stack.new ≡ height join stack.old) }
{
    match join {
        Join::Test => stack.push(0),
        Join::Not => raise(stack),
        Join::Paren => raise(stack),
        Join::And => merge(stack),
        Join::Or => merge(stack),
    }
}

/// The height of the tree that the joins make.
pub(crate) fn height_of(alloc: Global, joins: &[Join]) -> Result<u64, Memory>
    ensures { IfOk result (λ h. h ≡ first_height (heights joins.now [])) }
{
    let mut stack = Stack::new(alloc);
    for join in joins {
        add_height(&mut stack, *join)?;
    }
    Ok(stack.pop().unwrap_or(0))
}

fn comparisons_in(test: &Test) -> u64
    ensures { result ≡ test_comparisons test.now }
{
    match test {
        Test::Compare { .. } => 1,
        Test::OneOf { literals, .. } => literals.len() as u64,
    }
}

/// How many comparisons the tests have.
pub(crate) fn comparisons_of(tests: &[Test]) -> u64
    ensures { result ≡ min (all_comparisons tests.now) most }
{
    let mut total: u64 = 0;
    for test in tests {
        total = total.saturating_add(comparisons_in(test));
    }
    total
}
