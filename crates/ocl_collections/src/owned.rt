ghost use Rattle.std.specs.Prelude.{◌≡◌, All, IfOk};
ghost use Rattle.ocl_values.specs.Shape.{IsWellMade};
ghost use Rattle.ocl_values.specs.declared.value.Value.TheVariants.{Coll};
ghost use Rattle.ocl_collections.specs.declared.op.CollOp.TheVariants.{Append};
ghost use Rattle.ocl_collections.specs.Operations.{coll_op_value, of_collection, of_none, of_one};

use crate::CollOp;
use crate::adding::put_element;
use crate::conversion::converted;
use crate::flattening::flatten;
use crate::making::any_invalid;
use crate::operations::{of_collection, of_none, of_one};
use crate::positions::reversed;
use ocl_values::{Kind, Value};
use std::alloc::{AllocError, Global};

// An operation without an argument, which moves the elements where it gives them all.
fn owned_of_none(
    alloc: Global,
    op: CollOp,
    kind: Kind,
    items: Vec<Value>,
) -> Result<Value, AllocError>
    requires { IsWellMade (Coll kind items.items) }
    ensures { IfOk result (λ v. v ≡ of_none op kind items.items) }
{
    match op {
        CollOp::Reverse => Ok(reversed(kind, items)),
        CollOp::AsSet => converted(alloc, kind, Kind::Set, items),
        CollOp::AsBag => converted(alloc, kind, Kind::Bag, items),
        CollOp::AsSequence => converted(alloc, kind, Kind::Sequence, items),
        CollOp::AsOrderedSet => converted(alloc, kind, Kind::OrderedSet, items),
        CollOp::Flatten => flatten(alloc, kind, items),
        _ => of_none(alloc, op, kind, items.as_slice()),
    }
}

// `append`, in place where the elements are a Sequence.
fn owned_append(
    alloc: Global,
    kind: Kind,
    items: Vec<Value>,
    x: &Value,
) -> Result<Value, AllocError>
    requires source { IsWellMade (Coll kind items.items) }
    requires argument { IsWellMade x.now }
    ensures { IfOk result (λ v. v ≡ of_one Append kind items.items x.now) }
{
    match kind {
        Kind::Sequence => put_element(alloc, kind, items, x),
        _ => of_one(alloc, CollOp::Append, kind, items.as_slice(), x),
    }
}

// An operation of one argument, which is added in place where that is all.
fn owned_of_one(
    alloc: Global,
    op: CollOp,
    kind: Kind,
    items: Vec<Value>,
    x: &Value,
) -> Result<Value, AllocError>
    requires source { IsWellMade (Coll kind items.items) }
    requires argument { IsWellMade x.now }
    ensures { IfOk result (λ v. v ≡ of_one op kind items.items x.now) }
{
    match op {
        CollOp::Including => put_element(alloc, kind, items, x),
        CollOp::Append => owned_append(alloc, kind, items, x),
        _ => of_one(alloc, op, kind, items.as_slice(), x),
    }
}

fn owned_of_collection(
    alloc: Global,
    op: CollOp,
    kind: Kind,
    items: Vec<Value>,
    args: &[Value],
) -> Result<Value, AllocError>
    requires source { IsWellMade (Coll kind items.items) }
    requires arguments { All IsWellMade args.now }
    ensures { IfOk result (λ v. v ≡ of_collection op args.now kind items.items) }
{
    match args {
        [] => owned_of_none(alloc, op, kind, items),
        [x] => owned_of_one(alloc, op, kind, items, x),
        _ => of_collection(alloc, op, kind, items.as_slice(), args),
    }
}

/// As `apply`, of a source that is given away. Conversions, `reverse` and `flatten` move its
/// elements, and `including` and a Sequence's `append` add one in place.
pub fn apply_owned(
    alloc: Global,
    op: CollOp,
    source: Value,
    args: &[Value],
) -> Result<Value, AllocError>
    requires source { IsWellMade source }
    requires arguments { All IsWellMade args.now }
    ensures value { IfOk result (λ v. v ≡ coll_op_value op source args.now) }
    ensures well_made { IfOk result IsWellMade }
{
    if any_invalid(args) {
        return Ok(Value::Invalid);
    }
    match source {
        Value::Coll(kind, items) => owned_of_collection(alloc, op, kind, items.into_vec(), args),
        _ => Ok(Value::Invalid),
    }
}
