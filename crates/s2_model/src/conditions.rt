//! The predicate of a statement.
ghost use Rattle.std.specs.Prelude.{◌≡◌, IfOk};
ghost use Rattle.s2_model.specs.Predicates.{predicate_of};

use crate::Pred;
use s2_value::Memory;
use std::alloc::Global;
use std::marker::Model;

/// The predicate of a statement, in memory of its own. In contracts it is the predicate's tree, wherever its nodes lie.
#[derive(Debug, Drop)]
pub struct Condition {
    pred: Box<Pred>,
}

impl Model for Condition {
    ghost use Rattle.s2_model.specs.Predicates.{Predicate, predicate_of, predicate_code};

    ghost Value = { Predicate };

    ghost coded = { predicate_code };

    ghost view = { λ c. predicate_of c.pred.value };
}

impl Condition {
    /// The condition of this predicate. The `Err` is want of memory.
    pub fn new(alloc: Global, pred: Pred) -> Result<Condition, Memory>
        ensures { IfOk result (λ c. c ≡ predicate_of pred) }
    {
        Ok(Condition {
            pred: Box::new(alloc, pred)?,
        })
    }

    /// The predicate.
    pub fn pred(&self) -> &Pred
        ensures { predicate_of result.now ≡ self.now }
    {
        &self.pred
    }
}
