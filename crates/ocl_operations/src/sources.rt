ghost use Rattle.std.specs.Prelude.{◌≡◌, [], ◌∷◌, IfOk};
ghost use Rattle.ocl_values.specs.Shape.{canon, IsWellMade};
ghost use Rattle.ocl_values.specs.declared.value.Kind.TheVariants.{Set};
ghost use Rattle.ocl_operations.specs.Sources.{as_source};

use ocl_collections::make;
use ocl_values::{Kind, Value};
use std::alloc::{AllocError, Global};

/// The Set of one value.
fn singleton(alloc: Global, value: Value) -> Result<Value, AllocError>
    requires { IsWellMade value }
    ensures value { IfOk result (λ v. v ≡ canon Set (value ∷ [])) }
    ensures well_made { IfOk result IsWellMade }
{
    let mut items = Vec::new(alloc);
    items.push(value)?;
    make(alloc, Kind::Set, items)
}

/// A value as the source of an operation of collections: a collection is itself, null is the empty
/// Set, and any other value but invalid is the Set of it (OCL 2.3.1, 7.5.3).
pub fn as_source(alloc: Global, value: Value) -> Result<Value, AllocError>
    requires { IsWellMade value }
    ensures value { IfOk result (λ v. v ≡ as_source value) }
    ensures well_made { IfOk result IsWellMade }
{
    match value {
        Value::Null => make(alloc, Kind::Set, Vec::new(alloc)),
        Value::Invalid => Ok(Value::Invalid),
        Value::Coll(kind, items) => Ok(Value::Coll(kind, items)),
        other => singleton(alloc, other),
    }
}
