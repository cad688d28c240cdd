ghost use Rattle.std.specs.Prelude.{◌≡◌, IfOk, length};
ghost use Rattle.use_orders.specs.Canon.{selected};
ghost use Rattle.ocl_values.specs.Shape.{canon, IsWellMade};
ghost use Rattle.ocl_values.specs.declared.value.Value.TheVariants.{Coll};

use crate::making::collection;
use ocl_values::{Kind, Value};
use std::alloc::{AllocError, Global};

/// The elements of a collection beside which `true` stands, as a collection of its kind. They stand
/// as they stood, so that nothing is sorted or looked through again (`select`, and `reject` by the
/// contrary flags; OCL 2.3.1, 11.9.1).
pub fn select(
    alloc: Global,
    kind: Kind,
    items: Vec<Value>,
    flags: &[bool],
) -> Result<Value, AllocError>
    requires source { IsWellMade (Coll kind items.items) }
    requires beside { length flags.now ≡ length items.items }
    ensures value { IfOk result (λ v. v ≡ canon kind (selected items.items flags.now)) }
    ensures well_made { IfOk result IsWellMade }
{
    Ok(collection(kind, use_orders::select(alloc, items, flags)?))
}

/// As `select`, with copies of the elements.
pub fn copy_selected(
    alloc: Global,
    kind: Kind,
    items: &[Value],
    flags: &[bool],
) -> Result<Value, AllocError>
    requires source { IsWellMade (Coll kind items.now) }
    requires beside { length flags.now ≡ length items.now }
    ensures value { IfOk result (λ v. v ≡ canon kind (selected items.now flags.now)) }
    ensures well_made { IfOk result IsWellMade }
{
    Ok(collection(kind, use_orders::copy_selected(alloc, items, flags)?))
}
