ghost use Rattle.std.specs.Prelude.{◌≡◌, All, IfOk};
ghost use Rattle.ocl_values.specs.Shape.{IsWellMade};
ghost use Rattle.ocl_values.specs.declared.value.Value.TheVariants.{Coll};
ghost use Rattle.ocl_collections.specs.Arguments.{with_collection, with_integer};
ghost use Rattle.ocl_collections.specs.Positions.{at};
ghost use Rattle.ocl_collections.specs.Operations.{coll_op_value, of_collection, of_none, of_one, of_pair, of_two};

use crate::CollOp;
use crate::adding::{excluding, including};
use crate::conversion::converted;
use crate::flattening::flattened;
use crate::making::any_invalid;
use crate::membership::{count, excludes_all, includes, includes_all};
use crate::positions::{
    append, at, first, index_of, insert_at, last, prepend, reversed, sub_ordered_set, sub_sequence,
};
use crate::set_algebra::{difference, intersection, symmetric_difference, union};
use crate::sums::{joined_by, sum};
use ocl_values::{IntOp, Kind, Value};
use std::alloc::{AllocError, Global};
use use_orders::copied;

// An operation without an argument.
pub(crate) fn of_none(
    alloc: Global,
    op: CollOp,
    kind: Kind,
    items: &[Value],
) -> Result<Value, AllocError>
    requires { IsWellMade (Coll kind items.now) }
    ensures { IfOk result (λ v. v ≡ of_none op kind items.now) }
{
    match op {
        CollOp::Size => Ok(Value::Int(items.len() as i128)),
        CollOp::IsEmpty => Ok(Value::Bool(items.is_empty())),
        CollOp::NotEmpty => Ok(Value::Bool(!items.is_empty())),
        CollOp::First => first(alloc, kind, items),
        CollOp::Last => last(alloc, kind, items),
        CollOp::Reverse => Ok(reversed(kind, copied(alloc, items)?)),
        CollOp::Sum => Ok(sum(items)),
        CollOp::Max => Ok(joined_by(IntOp::Max, items)),
        CollOp::Min => Ok(joined_by(IntOp::Min, items)),
        CollOp::AsSet => converted(alloc, kind, Kind::Set, copied(alloc, items)?),
        CollOp::AsBag => converted(alloc, kind, Kind::Bag, copied(alloc, items)?),
        CollOp::AsSequence => converted(alloc, kind, Kind::Sequence, copied(alloc, items)?),
        CollOp::AsOrderedSet => converted(alloc, kind, Kind::OrderedSet, copied(alloc, items)?),
        CollOp::Flatten => flattened(alloc, kind, items),
        _ => Ok(Value::Invalid),
    }
}

// An operation of two collections.
fn of_pair(
    alloc: Global,
    op: CollOp,
    kind: Kind,
    items: &[Value],
    other: Kind,
    others: &[Value],
) -> Result<Value, AllocError>
    requires first { IsWellMade (Coll kind items.now) }
    requires second { IsWellMade (Coll other others.now) }
    ensures { IfOk result (λ v. v ≡ of_pair op kind items.now other others.now) }
{
    match op {
        CollOp::IncludesAll => Ok(Value::Bool(includes_all(alloc, kind, items, others)?)),
        CollOp::ExcludesAll => Ok(Value::Bool(excludes_all(alloc, kind, items, others)?)),
        CollOp::Union => union(alloc, kind, items, other, others),
        CollOp::Intersection => intersection(alloc, kind, items, other, others),
        CollOp::Minus => difference(alloc, kind, items, other, others),
        CollOp::SymmetricDifference => symmetric_difference(alloc, kind, items, other, others),
        _ => Ok(Value::Invalid),
    }
}

// An operation of a collection and what should be a collection.
fn with_collection(
    alloc: Global,
    op: CollOp,
    kind: Kind,
    items: &[Value],
    argument: &Value,
) -> Result<Value, AllocError>
    requires first { IsWellMade (Coll kind items.now) }
    requires second { IsWellMade argument.now }
    ensures { IfOk result (λ v. v ≡ with_collection argument.now (of_pair op kind items.now)) }
{
    match argument {
        Value::Coll(other, others) => of_pair(alloc, op, kind, items, *other, others.as_slice()),
        _ => Ok(Value::Invalid),
    }
}

// The element at a place, where the place is an integer.
fn at_place(alloc: Global, kind: Kind, items: &[Value], place: &Value) -> Result<Value, AllocError>
    ensures { IfOk result (λ v. v ≡ with_integer place.now (at kind items.now)) }
{
    match place {
        Value::Int(i) => at(alloc, kind, items, *i),
        _ => Ok(Value::Invalid),
    }
}

// An operation of one argument.
pub(crate) fn of_one(
    alloc: Global,
    op: CollOp,
    kind: Kind,
    items: &[Value],
    x: &Value,
) -> Result<Value, AllocError>
    requires first { IsWellMade (Coll kind items.now) }
    requires second { IsWellMade x.now }
    ensures { IfOk result (λ v. v ≡ of_one op kind items.now x.now) }
{
    match op {
        CollOp::Includes => Ok(Value::Bool(includes(kind, items, x))),
        CollOp::Excludes => Ok(Value::Bool(!includes(kind, items, x))),
        CollOp::Count => Ok(Value::Int(count(kind, items, x) as i128)),
        CollOp::Including => including(alloc, kind, items, x),
        CollOp::Excluding => excluding(alloc, kind, items, x),
        CollOp::Append => append(alloc, kind, items, x),
        CollOp::Prepend => prepend(alloc, kind, items, x),
        CollOp::IndexOf => Ok(index_of(kind, items, x)),
        CollOp::At => at_place(alloc, kind, items, x),
        _ => with_collection(alloc, op, kind, items, x),
    }
}

// An operation of two arguments.
fn of_two(
    alloc: Global,
    op: CollOp,
    kind: Kind,
    items: &[Value],
    x: &Value,
    y: &Value,
) -> Result<Value, AllocError>
    requires source { IsWellMade (Coll kind items.now) }
    requires second { IsWellMade y.now }
    ensures { IfOk result (λ v. v ≡ of_two op kind items.now x.now y.now) }
{
    match (op, x, y) {
        (CollOp::InsertAt, Value::Int(i), _) => insert_at(alloc, kind, items, *i, y),
        (CollOp::SubSequence, Value::Int(l), Value::Int(u)) => {
            sub_sequence(alloc, kind, items, *l, *u)
        }
        (CollOp::SubOrderedSet, Value::Int(l), Value::Int(u)) => {
            sub_ordered_set(alloc, kind, items, *l, *u)
        }
        _ => Ok(Value::Invalid),
    }
}

// An operation of a collection, by the number of its arguments.
pub(crate) fn of_collection(
    alloc: Global,
    op: CollOp,
    kind: Kind,
    items: &[Value],
    args: &[Value],
) -> Result<Value, AllocError>
    requires source { IsWellMade (Coll kind items.now) }
    requires arguments { All IsWellMade args.now }
    ensures { IfOk result (λ v. v ≡ of_collection op args.now kind items.now) }
{
    match args {
        [] => of_none(alloc, op, kind, items),
        [x] => of_one(alloc, op, kind, items, x),
        [x, y] => of_two(alloc, op, kind, items, x, y),
        _ => Ok(Value::Invalid),
    }
}

/// An operation of a collection and its arguments. A source that is no collection, an argument that
/// is invalid, one that is null where an integer or a collection is wanted, and arguments of another
/// number or kind make the result invalid.
pub fn apply(alloc: Global, op: CollOp, source: &Value, args: &[Value]) -> Result<Value, AllocError>
    requires source { IsWellMade source.now }
    requires arguments { All IsWellMade args.now }
    ensures value { IfOk result (λ v. v ≡ coll_op_value op source.now args.now) }
    ensures well_made { IfOk result IsWellMade }
{
    if any_invalid(args) {
        return Ok(Value::Invalid);
    }
    match source {
        Value::Coll(kind, items) => of_collection(alloc, op, *kind, items.as_slice(), args),
        _ => Ok(Value::Invalid),
    }
}
