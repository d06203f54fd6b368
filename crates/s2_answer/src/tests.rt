//! Worked answers.
ghost use Rattle.std.specs.Prelude.{◌≡◌, IfOk, true};
ghost use Rattle.s2_model.specs.Table.{rises_above};

use crate::answer;
use s2_model::{Agg, Cell, Condition, Items, Op, Pred, Select};
use s2_value::{Row, Seq, Txt, Value};
use std::alloc::Global;
use std::test::Fail;

#[derive(Clone, Copy, Debug)]
enum Asked {
    /// All rows but those of this number, at most so many.
    Others(i64, u64),
    /// By falling text, then by rising number, at most so many.
    ByText(u64),
    /// MIN, COUNT, SUM and MAX of the number.
    Ends,
}

use Asked::{ByText, Ends, Others};

fn row(alloc: Global, number: i64, name: &str) -> Result<Row, Fail> {
    let mut row = Seq::new(alloc);
    row.add(Value::Int(number))?;
    match Txt::new(alloc, name.as_bytes()) {
        Ok(text) => row.add(Value::Text(text))?,
        Err(_) => return Err(Fail::from("text")),
    }
    Ok(row)
}

fn by_text(alloc: Global) -> Result<Seq<(u8, bool)>, Fail> {
    let mut order = Seq::new(alloc);
    order.add((1, true))?;
    order.add((0, false))?;
    Ok(order)
}

fn ends(alloc: Global) -> Result<Items, Fail> {
    let mut aggs = Seq::new(alloc);
    aggs.add(Agg::Min(0))?;
    aggs.add(Agg::Count)?;
    aggs.add(Agg::Sum(0))?;
    aggs.add(Agg::Max(0))?;
    Ok(Items::Aggs(aggs))
}

fn select_of(alloc: Global, asked: Asked) -> Result<Select, Fail> {
    let (items, pred, order, limit) = match asked {
        Others(number, most) => {
            let other = Pred::Cmp(0, Op::Ne, Value::Int(number));
            (Items::Star, other, Seq::new(alloc), Some(most))
        }
        ByText(most) => (Items::Star, Pred::All, by_text(alloc)?, Some(most)),
        Ends => (ends(alloc)?, Pred::All, Seq::new(alloc), None),
    };
    Ok(Select {
        items,
        pred: Condition::new(alloc, pred)?,
        order,
        limit,
    })
}

fn tell_cell(told: &mut String, cell: &Cell) -> Result<(), Fail> {
    match cell {
        Cell::Nothing => write!(told, " NULL")?,
        Cell::Int(number) => write!(told, " {number}")?,
        Cell::Text(text) => {
            told.push_str(" ")?;
            for byte in text.bytes() {
                told.push(char::from(*byte))?;
            }
        }
    }
    Ok(())
}

fn tell(alloc: Global, rows: &[Seq<Cell>]) -> Result<String, Fail> {
    let mut told = String::new(alloc);
    for row in rows {
        told.push_str(" |")?;
        for cell in row.as_slice() {
            tell_cell(&mut told, cell)?;
        }
    }
    Ok(told)
}

// A table of four rows.
fn table(alloc: Global) -> Result<[(u64, Row); 4], Fail>
    ensures { IfOk result (λ rows. rises_above 0 rows ≡ true) }
{
    let first = row(alloc, 8, "ab")?;
    let second = row(alloc, 4, "b")?;
    let third = row(alloc, 3, "a")?;
    let last = row(alloc, -9223372036854775808, "b")?;
    Ok([(1, first), (2, second), (3, third), (5, last)])
}

fn is_told(alloc: Global, asked: Asked, rows: &[(u64, Row)], told: &str) -> Result<bool, Fail>
    requires { rises_above 0 rows.now ≡ true }
{
    let answered = answer(alloc, &select_of(alloc, asked)?, rows)?;
    Ok(tell(alloc, answered.as_slice())?.as_str() == told)
}

#[test]
fn selects_are_answered(rt: HostRuntime) -> Result<(), Fail> {
    let alloc = rt.alloc();
    assert!(rt; is_told(alloc, Ends, &[], " | NULL 0 NULL NULL")?);
    let rows = table(alloc)?;
    assert!(rt;
        is_told(
            alloc,
            ByText(3),
            &rows,
            " | -9223372036854775808 b | 4 b | 8 ab"
        )?
    );
    assert!(rt; is_told(alloc, Others(8, 2), &rows, " | 4 b | 3 a")?);
    assert!(rt;
        is_told(
            alloc,
            Ends,
            &rows,
            " | -9223372036854775808 4 -9223372036854775793 8"
        )?
    );
    Ok(())
}
