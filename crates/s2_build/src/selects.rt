//! What a `SELECT` shows, and in which order.
ghost use Rattle.std.specs.Prelude.{◌≡◌, ◌≤◌, length};
ghost use Rattle.s2_build.specs.Each.{Gives};
ghost use Rattle.s2_build.specs.Statements.{items_of, is_turned, by_of, measured, agg_of};

use crate::each::{Columns, Part, column, each};
use s2_line::{Direction, Measure, RawAgg, RawBy, RawItems};
use s2_model::{Agg, Items};
use s2_pred::Unbuilt;
use s2_value::Col;
use std::alloc::Global;

/// The columns that are shown.
pub fn items(alloc: Global, cols: &[Col], items: &RawItems) -> Result<Items, Unbuilt>
    requires { length cols.now ≤ 16 }
    ensures { Gives (λ x. x) result (items_of cols.now items.now) }
{
    match items {
        RawItems::Star => Ok(Items::Star),
        RawItems::Columns(names) => Ok(Items::Columns(each::<Columns>(
            alloc,
            cols,
            names.as_slice(),
        )?)),
    }
}

fn is_turned(direction: Direction) -> bool
    ensures { result ≡ is_turned direction }
{
    match direction {
        Direction::Desc => true,
        _ => false,
    }
}

/// The columns to order by.
pub struct Order;

impl Part for Order {
    type From = RawBy;

    type Made = (u8, bool);

    ghost meaning = { by_of };

    fn make(_alloc: Global, cols: &[Col], from: &RawBy) -> Result<(u8, bool), Unbuilt> {
        let place = column(cols, from.name.as_slice())?;
        Ok((place, is_turned(from.direction)))
    }
}

fn measured(measure: Measure, place: u8) -> Agg
    ensures { result ≡ measured measure place }
{
    match measure {
        Measure::Sum => Agg::Sum(place),
        Measure::Min => Agg::Min(place),
        Measure::Max => Agg::Max(place),
    }
}

/// Aggregates.
pub struct Aggregates;

impl Part for Aggregates {
    type From = RawAgg;

    type Made = Agg;

    ghost meaning = { agg_of };

    fn make(_alloc: Global, cols: &[Col], from: &RawAgg) -> Result<Agg, Unbuilt> {
        match from {
            RawAgg::Count => Ok(Agg::Count),
            RawAgg::Of { measure, name } => {
                let place = column(cols, name.as_slice())?;
                Ok(measured(*measure, place))
            }
        }
    }
}
