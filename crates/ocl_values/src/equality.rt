ghost use Rattle.std.specs.Prelude.{◌≡◌, ◌↔◌, true, false};
ghost use Rattle.std.specs.declared.cmp.Ordering.TheVariants.{Equal};
ghost use Rattle.ocl_values.specs.Logic.{is_invalid, same_value};
ghost use Rattle.ocl_values.specs.Order.{by_rank, value_cmp};
ghost use Rattle.ocl_values.specs.Shape.{IsWellMade};

use crate::Value;
use std::cmp::Ordering;

/// `a = b`. Null equals null and nothing else.
pub fn same(a: &Value, b: &Value) -> Value
    ensures value { result ≡ same_value a.now b.now }
    ensures equal { (result ≡ Value.Bool true) ↔ ((a.now ≡ b.now) × (is_invalid a.now ≡ false)) }
    ensures well_made { IsWellMade result }
{
    if a.is_invalid() || b.is_invalid() {
        Value::Invalid
    } else {
        Value::Bool(a.cmp(b).is_eq())
    }
}

/// How two values are ordered, as `Ord` has it: null, invalid, false, true, integers, Strings by
/// bytes, enumeration values, objects by number, collections by kind and then element by element, a
/// proper prefix first.
pub fn order(a: &Value, b: &Value) -> Ordering
    ensures derived { result ≡ value_cmp a.now b.now }
    ensures ranked { result ≡ by_rank value_cmp a.now b.now }
    ensures exact { (result ≡ Equal) ↔ (a.now ≡ b.now) }
{
    a.cmp(b)
}
