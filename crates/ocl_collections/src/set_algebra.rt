ghost use Rattle.std.specs.Prelude.{◌≡◌, ◌++◌, IfOk, Some};
ghost use Rattle.ocl_values.specs.Shape.{canonical, IsWellMade};
ghost use Rattle.ocl_values.specs.declared.value.Value.TheVariants.{Coll};
ghost use Rattle.ocl_collections.specs.SetAlgebra.{difference, intersection, symmetric_difference, union, union_kind};

use crate::making::collection;
use ocl_values::{Kind, Value};
use std::alloc::{AllocError, Global};
use use_orders::{append_copies, common, copied, join, keep_first, symmetric, within, without};

// The kind of a union.
fn union_kind(kind: Kind, other: Kind) -> Option<Kind>
    ensures { result ≡ union_kind kind other }
{
    match (kind, other) {
        (Kind::Set, Kind::Set) => Some(Kind::Set),
        (Kind::Set | Kind::Bag, Kind::Set | Kind::Bag) => Some(Kind::Bag),
        (Kind::OrderedSet, Kind::OrderedSet) => Some(Kind::OrderedSet),
        (Kind::Sequence, Kind::Sequence) => Some(Kind::Sequence),
        _ => None,
    }
}

// The elements of two lists, one after the other.
fn concatenated(alloc: Global, items: &[Value], others: &[Value]) -> Result<Vec<Value>, AllocError>
    ensures { IfOk result (λ v. v.items ≡ items.now ++ others.now) }
{
    let mut all = copied(alloc, items)?;
    append_copies(alloc, others, 0, &mut all)?;
    Ok(all)
}

// The elements of two collections, as the kind of their union keeps them.
fn united(
    alloc: Global,
    joined: Kind,
    kind: Kind,
    items: &[Value],
    other: Kind,
    others: &[Value],
) -> Result<Vec<Value>, AllocError>
    requires both { union_kind kind other ≡ Some joined }
    requires first { IsWellMade (Coll kind items.now) }
    requires second { IsWellMade (Coll other others.now) }
    ensures { IfOk result (λ v. v.items ≡ canonical joined (items.now ++ others.now)) }
{
    match joined {
        Kind::Set => use_orders::union(alloc, items, others),
        Kind::OrderedSet => keep_first(alloc, concatenated(alloc, items, others)?),
        Kind::Bag => join(alloc, items, others),
        Kind::Sequence => concatenated(alloc, items, others),
    }
}

pub(crate) fn union(
    alloc: Global,
    kind: Kind,
    items: &[Value],
    other: Kind,
    others: &[Value],
) -> Result<Value, AllocError>
    requires first { IsWellMade (Coll kind items.now) }
    requires second { IsWellMade (Coll other others.now) }
    ensures { IfOk result (λ v. v ≡ union kind items.now other others.now) }
{
    match union_kind(kind, other) {
        Some(joined) => {
            let all = united(alloc, joined, kind, items, other, others)?;
            Ok(collection(joined, all))
        }
        None => Ok(Value::Invalid),
    }
}

pub(crate) fn intersection(
    alloc: Global,
    kind: Kind,
    items: &[Value],
    other: Kind,
    others: &[Value],
) -> Result<Value, AllocError>
    requires first { IsWellMade (Coll kind items.now) }
    requires second { IsWellMade (Coll other others.now) }
    ensures { IfOk result (λ v. v ≡ intersection kind items.now other others.now) }
{
    match (kind, other) {
        (Kind::Set, Kind::Set) => Ok(collection(Kind::Set, within(alloc, items, others)?)),
        (Kind::Set, Kind::Bag) => Ok(collection(Kind::Set, within(alloc, items, others)?)),
        (Kind::Bag, Kind::Set) => Ok(collection(Kind::Set, within(alloc, others, items)?)),
        (Kind::Bag, Kind::Bag) => Ok(collection(Kind::Bag, common(alloc, items, others)?)),
        _ => Ok(Value::Invalid),
    }
}

pub(crate) fn difference(
    alloc: Global,
    kind: Kind,
    items: &[Value],
    other: Kind,
    others: &[Value],
) -> Result<Value, AllocError>
    requires first { IsWellMade (Coll kind items.now) }
    requires second { IsWellMade (Coll other others.now) }
    ensures { IfOk result (λ v. v ≡ difference kind items.now other others.now) }
{
    match (kind, other) {
        (Kind::Set, Kind::Set) => Ok(collection(Kind::Set, without(alloc, items, others)?)),
        _ => Ok(Value::Invalid),
    }
}

pub(crate) fn symmetric_difference(
    alloc: Global,
    kind: Kind,
    items: &[Value],
    other: Kind,
    others: &[Value],
) -> Result<Value, AllocError>
    requires first { IsWellMade (Coll kind items.now) }
    requires second { IsWellMade (Coll other others.now) }
    ensures { IfOk result (λ v. v ≡ symmetric_difference kind items.now other others.now) }
{
    match (kind, other) {
        (Kind::Set, Kind::Set) => Ok(collection(Kind::Set, symmetric(alloc, items, others)?)),
        _ => Ok(Value::Invalid),
    }
}
