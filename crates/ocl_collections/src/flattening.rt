ghost use Rattle.std.specs.Prelude.{◌≡◌, ◌++◌, [], All, IfOk, OnOk};
ghost use Rattle.ocl_values.specs.Shape.{canon, IsWellMade};
ghost use Rattle.ocl_values.specs.declared.value.Value.TheVariants.{Coll};
ghost use Rattle.ocl_collections.specs.declared.op.CollOp.TheVariants.{Flatten};
ghost use Rattle.ocl_collections.specs.Flattening.{all_leaves, flattened, leaves};
ghost use Rattle.ocl_collections.specs.Operations.{coll_op_value};

use crate::making::{are_unfit, canonical, collection};
use ocl_values::{Kind, Value};
use std::alloc::{AllocError, Global};

// Puts copies of the leaves of a value at the end of `out`.
#[cycle(leaves)]
fn append_leaves(alloc: Global, v: &Value, out: &mut Vec<Value>) -> Result<(), AllocError>
    ensures { OnOk result (out.new.items ≡ out.old.items ++ leaves v.now) }
{
    match v {
        Value::Coll(_, items) => append_all_leaves(alloc, items.as_slice(), out),
        _ => {
            out.push(v.try_copy(alloc)?)?;
            Ok(())
        }
    }
}

#[cycle(leaves)]
fn append_all_leaves(alloc: Global, all: &[Value], out: &mut Vec<Value>) -> Result<(), AllocError>
    ensures { OnOk result (out.new.items ≡ out.old.items ++ all_leaves all.now) }
{
    'each: for v in all {
        append_leaves(alloc, v, out)?;
    }
    Ok(())
}

// Moves the leaves of a value to the end of `out`.
#[cycle(moves)]
fn move_leaves(v: Value, out: &mut Vec<Value>) -> Result<(), AllocError>
    ensures { OnOk result (out.new.items ≡ out.old.items ++ leaves v) }
{
    match v {
        Value::Coll(_, items) => move_all_leaves(items.into_vec(), out),
        leaf => {
            out.push(leaf)?;
            Ok(())
        }
    }
}

#[cycle(moves)]
fn move_all_leaves(all: Vec<Value>, out: &mut Vec<Value>) -> Result<(), AllocError>
    ensures { OnOk result (out.new.items ≡ out.old.items ++ all_leaves all.items) }
{
    'each: for v in all {
        move_leaves(v, out)?;
    }
    Ok(())
}

// The leaves of elements that a collection holds, by reference.
pub(crate) fn flattened(alloc: Global, kind: Kind, items: &[Value]) -> Result<Value, AllocError>
    requires { IsWellMade (Coll kind items.now) }
    ensures { IfOk result (λ v. v ≡ flattened kind items.now) }
{
    let mut out = Vec::new(alloc);
    append_all_leaves(alloc, items, &mut out)?;
    Ok(collection(kind, canonical(alloc, kind, out)?))
}

/// `flatten()` of the collection that `make` makes of the items, and so `collect` where the items
/// are what its bodies gave. The elements move; none is copied.
pub fn flatten(alloc: Global, kind: Kind, items: Vec<Value>) -> Result<Value, AllocError>
    requires { All IsWellMade items.items }
    ensures value { IfOk result (λ v. v ≡ coll_op_value Flatten (canon kind items.items) []) }
    ensures well_made { IfOk result IsWellMade }
{
    if are_unfit(items.as_slice()) {
        return Ok(Value::Invalid);
    }
    let mut leaves = Vec::new(alloc);
    move_all_leaves(items, &mut leaves)?;
    Ok(collection(kind, canonical(alloc, kind, leaves)?))
}
