//! Conditions.
ghost use Rattle.std.specs.Prelude.{◌≤◌, length};
ghost use Rattle.s2_build.specs.Each.{Gives};
ghost use Rattle.s2_build.specs.Statements.{where_of};
ghost use Rattle.s2_build.specs.Drafts.{IsShallow};

use s2_model::{Condition, Pred};
use s2_pred::{Unbuilt, Written};
use s2_value::Col;
use std::alloc::Global;

/// The condition of a statement, which is every row where none is written.
pub fn condition(
    alloc: Global,
    cols: &[Col],
    wheres: &Option<Written>,
) -> Result<Condition, Unbuilt>
    requires columns { length cols.now ≤ 16 }
    requires shallow { IsShallow wheres.now }
    ensures { Gives (λ x. x) result (where_of cols.now wheres.now) }
{
    match wheres {
        Some(written) => written.build(alloc, cols),
        None => Ok(Condition::new(alloc, Pred::All)?),
    }
}
