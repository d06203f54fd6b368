//! What an `UPDATE` sets.
ghost use Rattle.std.specs.Prelude.{◌≤◌, length};
ghost use Rattle.s2_build.specs.Each.{Gives};
ghost use Rattle.s2_build.specs.Statements.{term_of, set_of};

use crate::each::{Part, column, literal, number};
use s2_line::{RawSet, RawTerm};
use s2_model::SetExpr;
use s2_pred::Unbuilt;
use s2_value::Col;
use std::alloc::Global;

fn term(alloc: Global, cols: &[Col], term: &RawTerm) -> Result<SetExpr, Unbuilt>
    requires { length cols.now ≤ 16 }
    ensures { Gives (λ x. x) result (term_of cols.now term.now) }
{
    match term {
        RawTerm::Literal(given) => Ok(SetExpr::Given(literal(alloc, given)?)),
        RawTerm::Column(name) => Ok(SetExpr::Column(column(cols, name.as_slice())?)),
        RawTerm::Sum {
            name,
            minus,
            negative,
            size,
        } => {
            let place = column(cols, name.as_slice())?;
            let number = number(*negative, *size)?;
            if *minus {
                Ok(SetExpr::Minus(place, number))
            } else {
                Ok(SetExpr::Plus(place, number))
            }
        }
    }
}

fn set(alloc: Global, cols: &[Col], set: &RawSet) -> Result<(u8, SetExpr), Unbuilt>
    requires { length cols.now ≤ 16 }
    ensures { Gives (λ x. x) result (set_of cols.now set.now) }
{
    let place = column(cols, set.name.as_slice())?;
    let expr = term(alloc, cols, &set.term)?;
    Ok((place, expr))
}

/// The columns that are set.
pub struct Sets;

impl Part for Sets {
    type From = RawSet;

    type Made = (u8, SetExpr);

    ghost meaning = { set_of };

    fn make(alloc: Global, cols: &[Col], from: &RawSet) -> Result<(u8, SetExpr), Unbuilt> {
        set(alloc, cols, from)
    }
}
