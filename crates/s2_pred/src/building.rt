//! Predicates over places and values, built from written ones.
ghost use Rattle.std.specs.Prelude.{◌≡◌, ◌≤◌, [], None, Some, length, map, OnOk, IfOk, IsErrOf};
ghost use Rattle.s2_model.specs.Predicates.{Predicate, predicate_of, all_of, any_of};
ghost use Rattle.s2_pred.specs.Meaning.{test_meaning};
ghost use Rattle.s2_pred.specs.Building.{Building, built, built_on, one_built, two_built, outcome, first_built};

use crate::stacks::Stack;
use crate::values::{Unbuilt, place, value, values};
use crate::{Join, LiteralList, Test};
use s2_model::{Condition, Op, Pred};
use s2_token::{Bytes, Literal};
use s2_value::{Col, Memory};
use std::alloc::Global;

fn compared(
    alloc: Global,
    cols: &[Col],
    column: &Bytes,
    op: Op,
    literal: &Literal,
) -> Result<Pred, Unbuilt>
    requires { length cols.now ≤ 16 }
    ensures ok { IfOk result (λ p. test_meaning cols.now (Test.Compare column.now op literal.now) ≡ Some (predicate_of p)) }
    ensures unresolved { IsErrOf result Unbuilt.Unresolved → test_meaning cols.now (Test.Compare column.now op literal.now) ≡ None }
{
    match place(cols, column.as_slice()) {
        Some(place) => {
            let value = value(alloc, literal)?;
            Ok(Pred::Cmp(place, op, value))
        }
        None => Err(Unbuilt::Unresolved),
    }
}

fn one_of(
    alloc: Global,
    cols: &[Col],
    column: &Bytes,
    literals: &LiteralList,
) -> Result<Pred, Unbuilt>
    requires { length cols.now ≤ 16 }
    ensures ok { IfOk result (λ p. test_meaning cols.now (Test.OneOf column.now literals.now) ≡ Some (predicate_of p)) }
    ensures unresolved { IsErrOf result Unbuilt.Unresolved → test_meaning cols.now (Test.OneOf column.now literals.now) ≡ None }
{
    match place(cols, column.as_slice()) {
        Some(place) => {
            let values = values(alloc, literals.as_slice())?;
            Ok(Pred::OneOf(place, values))
        }
        None => Err(Unbuilt::Unresolved),
    }
}

fn test_pred(alloc: Global, cols: &[Col], test: &Test) -> Result<Pred, Unbuilt>
    requires { length cols.now ≤ 16 }
    ensures ok { IfOk result (λ p. test_meaning cols.now test.now ≡ Some (predicate_of p)) }
    ensures unresolved { IsErrOf result Unbuilt.Unresolved → test_meaning cols.now test.now ≡ None }
{
    match test {
        Test::Compare {
            column,
            op,
            literal,
        } => compared(alloc, cols, column, *op, literal),
        Test::OneOf { column, literals } => one_of(alloc, cols, column, literals),
    }
}

fn negate(alloc: Global, made: &mut Stack<Pred>) -> Result<(), Memory>
    ensures { OnOk result (map predicate_of made.new ≡ one_built (map predicate_of made.old)) }
{
    match made.pop() {
        Some(pred) => {
            let inner = Box::new(alloc, pred)?;
            made.push(Pred::Not(inner))
        }
        None => Ok(()),
    }
}

fn both(alloc: Global, left: Pred, right: Pred) -> Result<Pred, Memory>
    ensures { IfOk result (λ p. predicate_of p ≡ all_of (predicate_of left) (predicate_of right)) }
{
    let left = Box::new(alloc, left)?;
    let right = Box::new(alloc, right)?;
    Ok(Pred::And(left, right))
}

fn either(alloc: Global, left: Pred, right: Pred) -> Result<Pred, Memory>
    ensures { IfOk result (λ p. predicate_of p ≡ any_of (predicate_of left) (predicate_of right)) }
{
    let left = Box::new(alloc, left)?;
    let right = Box::new(alloc, right)?;
    Ok(Pred::Or(left, right))
}

fn join_both(alloc: Global, made: &mut Stack<Pred>) -> Result<(), Memory>
    ensures { OnOk result (map predicate_of made.new ≡ two_built all_of (map predicate_of made.old)) }
{
    match made.pop() {
        Some(right) => match made.pop() {
            Some(left) => made.push(both(alloc, left, right)?),
            None => made.push(right),
        },
        None => Ok(()),
    }
}

fn join_either(alloc: Global, made: &mut Stack<Pred>) -> Result<(), Memory>
    ensures { OnOk result (map predicate_of made.new ≡ two_built any_of (map predicate_of made.old)) }
{
    match made.pop() {
        Some(right) => match made.pop() {
            Some(left) => made.push(either(alloc, left, right)?),
            None => made.push(right),
        },
        None => Ok(()),
    }
}

fn add_test<'a>(
    alloc: Global,
    cols: &[Col],
    made: &mut Stack<Pred>,
    left: &'a [Test],
) -> Result<&'a [Test], Unbuilt>
    requires { length cols.now ≤ 16 }
    ensures ok { IfOk result (λ rest. built cols.now Join.Test (record { built = map predicate_of made.old; left = left.now }) ≡ Some (record { built = map predicate_of made.new; left = rest.now })) }
    ensures unresolved { IsErrOf result Unbuilt.Unresolved → built cols.now Join.Test (record { built = map predicate_of made.old; left = left.now }) ≡ None }
{
    match left {
        [test, rest @ ..] => {
            made.push(test_pred(alloc, cols, test)?)?;
            Ok(rest)
        }
        [] => Ok(left),
    }
}

fn add_join<'a>(
    alloc: Global,
    cols: &[Col],
    join: Join,
    made: &mut Stack<Pred>,
    left: &'a [Test],
) -> Result<&'a [Test], Unbuilt>
    requires { length cols.now ≤ 16 }
    ensures ok { IfOk result (λ rest. built cols.now join (record { built = map predicate_of made.old; left = left.now }) ≡ Some (record { built = map predicate_of made.new; left = rest.now })) }
    ensures unresolved { IsErrOf result Unbuilt.Unresolved → built cols.now join (record { built = map predicate_of made.old; left = left.now }) ≡ None }
{
    match join {
        Join::Test => add_test(alloc, cols, made, left),
        Join::Not => {
            negate(alloc, made)?;
            Ok(left)
        }
        Join::Paren => Ok(left),
        Join::And => {
            join_both(alloc, made)?;
            Ok(left)
        }
        Join::Or => {
            join_either(alloc, made)?;
            Ok(left)
        }
    }
}

#[tactic(auto, using(crate::proofs::BuildLaws::none_stays))]
fn build_all(
    alloc: Global,
    cols: &[Col],
    joins: &[Join],
    tests: &[Test],
) -> Result<Stack<Pred>, Unbuilt>
    requires { length cols.now ≤ 16 }
    ensures ok { IfOk result (λ made. outcome (built_on cols.now joins.now (Some (record { built = []; left = tests.now }))) ≡ Some (first_built (map predicate_of made))) }
    ensures unresolved { IsErrOf result Unbuilt.Unresolved → outcome (built_on cols.now joins.now (Some (record { built = []; left = tests.now }))) ≡ None }
{
    let mut made = Stack::new(alloc);
    let mut left = tests;
    let mut todo = joins;
    while let [join, rest @ ..] = todo {
        left = add_join(alloc, cols, *join, &mut made, left)?;
        todo = rest;
    }
    Ok(made)
}

fn build_pred(alloc: Global, cols: &[Col], joins: &[Join], tests: &[Test]) -> Result<Pred, Unbuilt>
    requires { length cols.now ≤ 16 }
    ensures ok { IfOk result (λ p. outcome (built_on cols.now joins.now (Some (record { built = []; left = tests.now }))) ≡ Some (predicate_of p)) }
    ensures unresolved { IsErrOf result Unbuilt.Unresolved → outcome (built_on cols.now joins.now (Some (record { built = []; left = tests.now }))) ≡ None }
{
    let mut made = build_all(alloc, cols, joins, tests)?;
    match made.pop() {
        Some(pred) => Ok(pred),
        None => Ok(Pred::All),
    }
}

/// The condition of a postfix form.
pub(crate) fn build(
    alloc: Global,
    cols: &[Col],
    joins: &[Join],
    tests: &[Test],
) -> Result<Condition, Unbuilt>
    requires { length cols.now ≤ 16 }
    ensures ok { IfOk result (λ p. outcome (built_on cols.now joins.now (Some (record { built = []; left = tests.now }))) ≡ Some p) }
    ensures unresolved { IsErrOf result Unbuilt.Unresolved → outcome (built_on cols.now joins.now (Some (record { built = []; left = tests.now }))) ≡ None }
{
    let pred = build_pred(alloc, cols, joins, tests)?;
    Ok(Condition::new(alloc, pred)?)
}
