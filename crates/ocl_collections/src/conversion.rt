ghost use Rattle.std.specs.Prelude.{◌≡◌, IfOk, List, true};
ghost use Rattle.ocl_values.specs.Shape.{canon, canonical, IsWellMade};
ghost use Rattle.ocl_values.specs.declared.value.Value.{Value};
ghost use Rattle.ocl_values.specs.declared.value.Value.TheVariants.{Coll};

use crate::making::{canonical, collection};
use ocl_values::{Kind, Value};
use std::alloc::{AllocError, Global};

// Whether elements as one kind keeps them are as another does.
fn stay(from: Kind, to: Kind) -> bool
    ensures { (xs : List Value) → result ≡ true → canonical from xs ≡ xs → canonical to xs ≡ xs }
{
    match (from, to) {
        (Kind::Set, _) | (_, Kind::Sequence) => true,
        (Kind::OrderedSet, Kind::OrderedSet) | (Kind::Bag, Kind::Bag) => true,
        _ => false,
    }
}

// The elements of a collection as a collection of another kind.
pub(crate) fn converted(
    alloc: Global,
    from: Kind,
    to: Kind,
    items: Vec<Value>,
) -> Result<Value, AllocError>
    requires { IsWellMade (Coll from items.items) }
    ensures { IfOk result (λ v. v ≡ canon to items.items) }
{
    if stay(from, to) {
        return Ok(collection(to, items));
    }
    Ok(collection(to, canonical(alloc, to, items)?))
}
