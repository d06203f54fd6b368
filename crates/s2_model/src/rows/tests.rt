//! Predicates over rows, and sums at both ends of 64 bits.
use super::{after, matches};
use crate::{Condition, Op, Pred, SetExpr, SetList};
use s2_value::{Row, Seq, Txt, Value, ValueList};
use std::alloc::Global;
use std::test::Fail;

#[derive(Clone, Copy, Debug)]
enum Given {
    Number(i64),
    Word(&'static str),
}

use Given::{Number, Word};

fn value_of(alloc: Global, given: Given) -> Result<Value, Fail> {
    match given {
        Number(number) => Ok(Value::Int(number)),
        Word(word) => Ok(Value::Text(Txt::new(alloc, word.as_bytes())?)),
    }
}

fn values_of(alloc: Global, given: &[Given]) -> Result<ValueList, Fail> {
    let mut values = Seq::new(alloc);
    for one in given {
        values.add(value_of(alloc, *one)?)?;
    }
    Ok(values)
}

fn holds(alloc: Global, left: Given, op: Op, right: Given) -> Result<bool, Fail> {
    let row = values_of(alloc, &[left])?;
    let pred = Condition::new(alloc, Pred::Cmp(0, op, value_of(alloc, right)?))?;
    Ok(matches(&pred, &row))
}

#[test]
fn operators_compare(rt: HostRuntime) -> Result<(), Fail> {
    let ops = [Op::Eq, Op::Ne, Op::Lt, Op::Le, Op::Gt, Op::Ge];
    let below = [false, true, true, true, false, false];
    let same = [true, false, false, true, false, true];
    let above = [false, true, false, false, true, true];
    let cases = [
        (Number(-2), Number(1), below),
        (Number(1), Number(1), same),
        (Number(1), Number(-2), above),
        (Word("a"), Word("ab"), below),
        (Word("ab"), Word("ab"), same),
        (Word("b"), Word("ab"), above),
        (Number(9), Word(""), below),
        (Word(""), Number(9), above),
    ];
    for (left, right, wants) in cases {
        for (op, want) in ops.iter().zip(wants.iter()) {
            assert_eq!(rt;
                holds(rt.alloc(), left, *op, right)?,
                *want,
                "{left:?} {op:?} {right:?}"
            );
        }
    }
    Ok(())
}

#[test]
fn lists_of_values(rt: HostRuntime) -> Result<(), Fail> {
    let alloc = rt.alloc();
    let listed = values_of(alloc, &[Number(2), Word("b"), Number(4)])?;
    let some = Condition::new(alloc, Pred::OneOf(0, listed))?;
    let none = Condition::new(alloc, Pred::OneOf(0, Seq::new(alloc)))?;
    let all = Condition::new(alloc, Pred::All)?;
    let cases = [
        (Number(2), true),
        (Number(3), false),
        (Number(4), true),
        (Word("b"), true),
        (Word("2"), false),
    ];
    for (given, want) in cases {
        let row = values_of(rt.alloc(), &[given])?;
        assert_eq!(rt; matches(&some, &row), want, "{given:?}");
        assert!(rt; !matches(&none, &row));
        assert!(rt; matches(&all, &row));
    }
    Ok(())
}

fn number_is(op: Op, number: i64) -> Pred {
    Pred::Cmp(0, op, Value::Int(number))
}

/// From 2 to 3, or above 4.
fn nest(alloc: Global) -> Result<Pred, Fail> {
    let low = Box::new(alloc, number_is(Op::Gt, 1))?;
    let high = Box::new(alloc, number_is(Op::Lt, 4))?;
    let between = Box::new(alloc, Pred::And(low, high))?;
    let small = Box::new(alloc, number_is(Op::Le, 4))?;
    let above = Box::new(alloc, Pred::Not(small))?;
    Ok(Pred::Or(between, above))
}

#[test]
fn nests(rt: HostRuntime) -> Result<(), Fail> {
    let pred = Condition::new(rt.alloc(), nest(rt.alloc())?)?;
    let wants = [false, false, true, true, false, true];
    for (number, want) in wants.iter().enumerate() {
        let row = values_of(rt.alloc(), &[Number(number as i64)])?;
        assert_eq!(rt; matches(&pred, &row), *want, "{number}");
    }
    Ok(())
}

fn is_sum(alloc: Global, number: i64, expr: SetExpr, want: Option<i64>) -> Result<bool, Fail> {
    let row = values_of(alloc, &[Number(number)])?;
    let mut sets = SetList::new(alloc);
    sets.add((0, expr))?;
    let want = match want {
        Some(sum) => Some(values_of(alloc, &[Number(sum)])?),
        None => None,
    };
    Ok(after(alloc, &sets, &row)? == want)
}

#[test]
fn sums_leave_64_bits(rt: HostRuntime) -> Result<(), Fail> {
    let (least, most) = (i64::MIN, i64::MAX);
    let pluses = [
        (most - 1, 1, Some(most)),
        (most, 1, None),
        (least + 1, -1, Some(least)),
        (least, -1, None),
        (most, least, Some(-1)),
    ];
    for (number, more, want) in pluses {
        assert!(rt;
            is_sum(rt.alloc(), number, SetExpr::Plus(0, more), want)?,
            "{number} + {more}"
        );
    }
    let minuses = [
        (least + 1, 1, Some(least)),
        (least, 1, None),
        (most - 1, -1, Some(most)),
        (most, -1, None),
        (-1, least, Some(most)),
        (0, least, None),
    ];
    for (number, less, want) in minuses {
        assert!(rt;
            is_sum(rt.alloc(), number, SetExpr::Minus(0, less), want)?,
            "{number} - {less}"
        );
    }
    Ok(())
}

fn row_of(alloc: Global, first: i64, second: i64, third: Given) -> Result<Row, Fail> {
    values_of(alloc, &[Number(first), Number(second), third])
}

#[test]
fn columns_are_set_from_the_row_as_it_was(rt: HostRuntime) -> Result<(), Fail> {
    let row = row_of(rt.alloc(), 1, 2, Word("x"))?;
    let mut sets = SetList::new(rt.alloc());
    sets.add((0, SetExpr::Column(1)))?;
    sets.add((1, SetExpr::Plus(0, 10)))?;
    sets.add((2, SetExpr::Given(value_of(rt.alloc(), Word("y"))?)))?;
    let want = row_of(rt.alloc(), 2, 11, Word("y"))?;
    assert_eq!(rt; after(rt.alloc(), &sets, &row)?, Some(want));
    sets.add((1, SetExpr::Minus(1, i64::MIN)))?;
    assert_eq!(rt; after(rt.alloc(), &sets, &row)?, None);
    Ok(())
}
