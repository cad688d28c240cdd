ghost use Rattle.std.specs.Prelude.{◌≡◌, IfOk, IsSorted};
ghost use Rattle.ocl_values.specs.Order.{value_cmp};
ghost use Rattle.ocl_values.specs.Shape.{IsWellMade};
ghost use Rattle.ocl_values.specs.declared.value.Value.TheVariants.{Coll};
ghost use Rattle.ocl_collections.specs.Membership.{count, excludes_all, includes, includes_all};

use ocl_values::{Kind, Value};
use std::alloc::{AllocError, Global};
use use_orders::{contains, contains_all, contains_anywhere, contains_none};

// Whether a value is among the elements of a collection of the kind.
pub(crate) fn includes(kind: Kind, items: &[Value], x: &Value) -> bool
    requires { IsWellMade (Coll kind items.now) }
    ensures { result ≡ includes items.now x.now }
{
    match kind {
        Kind::Set => contains(items, x),
        Kind::Bag => contains(items, x),
        _ => contains_anywhere(items, x),
    }
}

// How often a value is among the elements of a collection of the kind.
pub(crate) fn count(kind: Kind, items: &[Value], x: &Value) -> usize
    requires { IsWellMade (Coll kind items.now) }
    ensures { result ≡ count items.now x.now }
{
    match kind {
        Kind::Set => use_orders::count(items, x),
        Kind::Bag => use_orders::count(items, x),
        _ => use_orders::count_anywhere(items, x),
    }
}

// Whether all of some values are among elements in order.
fn all_within(items: &[Value], others: &[Value]) -> bool
    requires { IsSorted value_cmp items.now }
    ensures { result ≡ includes_all items.now others.now }
{
    'seek: for y in others {
        if !contains(items, y) {
            return false;
        }
    }
    true
}

// Whether none of some values is among elements in order.
fn none_within(items: &[Value], others: &[Value]) -> bool
    requires { IsSorted value_cmp items.now }
    ensures { result ≡ excludes_all items.now others.now }
{
    'seek: for y in others {
        if contains(items, y) {
            return false;
        }
    }
    true
}

// Whether all of some values are among the elements of a collection of the kind.
pub(crate) fn includes_all(
    alloc: Global,
    kind: Kind,
    items: &[Value],
    others: &[Value],
) -> Result<bool, AllocError>
    requires { IsWellMade (Coll kind items.now) }
    ensures { IfOk result (λ b. b ≡ includes_all items.now others.now) }
{
    match kind {
        Kind::Set => Ok(all_within(items, others)),
        Kind::Bag => Ok(all_within(items, others)),
        _ => contains_all(alloc, items, others),
    }
}

// Whether none of some values is among the elements of a collection of the kind.
pub(crate) fn excludes_all(
    alloc: Global,
    kind: Kind,
    items: &[Value],
    others: &[Value],
) -> Result<bool, AllocError>
    requires { IsWellMade (Coll kind items.now) }
    ensures { IfOk result (λ b. b ≡ excludes_all items.now others.now) }
{
    match kind {
        Kind::Set => Ok(none_within(items, others)),
        Kind::Bag => Ok(none_within(items, others)),
        _ => contains_none(alloc, items, others),
    }
}
