//! The order of values: numbers by size, texts by bytes, a number before a text.
ghost use Rattle.std.specs.Prelude.{◌≡◌, Some, false};
ghost use Rattle.std.specs.Ordering.{int_eq, int_cmp, nat_cmp};
ghost use Rattle.std.specs.Cmp.{partial_equiv_from_equiv};
ghost use Rattle.std.proofs.Common.{refl};
ghost use Rattle.std.specs.Hash as fed;
ghost use Rattle.s2_value.specs.Order.{value_cmp, value_eq, value_cmp_total, value_eq_equiv, value_po, value_ties, hash_writes, hash_respects};

use crate::Value;
use std::cmp::Ordering;
use std::hash::{Hash, Hasher};

impl PartialEq for Value {
    ghost eq = { value_eq };

    ghost laws = { partial_equiv_from_equiv value_eq_equiv };

    fn eq(&self, other: &Value) -> bool {
        match (self, other) {
            (Value::Int(x), Value::Int(y)) => x == y,
            (Value::Text(x), Value::Text(y)) => x == y,
            (Value::Int(_), Value::Text(_)) => false,
            (Value::Text(_), Value::Int(_)) => false,
        }
    }
}

impl Eq for Value {
    ghost laws = { value_eq_equiv };
}

impl PartialOrd for Value {
    ghost partial_cmp = { λ x y. Some (value_cmp x y) };

    ghost laws = { value_po };

    fn partial_cmp(&self, other: &Value) -> Option<Ordering> {
        Some(self.cmp(other))
    }
}

impl Ord for Value {
    ghost cmp = { value_cmp };

    ghost total = { value_cmp_total };

    ghost matches_partial_cmp = { λ x y. refl };

    ghost matches_eq = { value_ties };

    fn cmp(&self, other: &Value) -> Ordering {
        match (self, other) {
            (Value::Int(x), Value::Int(y)) => x.cmp(y),
            (Value::Text(x), Value::Text(y)) => x.cmp(y),
            (Value::Int(_), Value::Text(_)) => Ordering::Less,
            (Value::Text(_), Value::Int(_)) => Ordering::Greater,
        }
    }
}

impl Hash for Value {
    ghost hash_input = { hash_writes };

    ghost respects_eq = { hash_respects };

    fn hash<H: Hasher>(&self, state: &mut H) {
        match self {
            Value::Int(x) => x.hash(state),
            Value::Text(x) => x.hash(state),
        }
    }
}
