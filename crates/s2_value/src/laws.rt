//! The laws of the order, as theorems that callers may rest on.
ghost use Rattle.std.specs.Prelude.{◌≡◌, true, List};
ghost use Rattle.std.specs.Cmp.{IsTotalOrder};
ghost use Rattle.std.specs.declared.cmp.Ordering.TheVariants.{Equal};
ghost use Rattle.s2_value.specs.declared.values.Value.{Value as AnyValue};
ghost use Rattle.s2_value.specs.Order.{value_cmp, row_cmp};

/// Values have a total order.
pub fn values_are_ordered()
    ensures { IsTotalOrder value_cmp }
{}

/// Rows and keys have a total order.
pub fn rows_are_ordered()
    ensures { IsTotalOrder row_cmp }
{}

/// Values that the order finds equal are one value.
pub fn equal_values_are_one()
    ensures { (x y : AnyValue) → value_cmp x y ≡ Equal → x ≡ y }
{}

/// Rows and keys that the order finds equal are one.
pub fn equal_rows_are_one()
    ensures { (x y : List AnyValue) → row_cmp x y ≡ Equal → x ≡ y }
{}
