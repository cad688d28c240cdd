ghost use Rattle.std.specs.Prelude.{◌≡◌, ◌≤◌, IfOk};
ghost use Rattle.ocl_values.specs.Shape.{IsWellMade, size_of};
ghost use Rattle.object_references.specs.References.{all_without, is_object, without_object};

use ocl_collections::make;
use ocl_values::{ObjNo, Value};
use std::alloc::{AllocError, Global};

/// Whether a value is an object of a number.
fn is_object(value: &Value, object: ObjNo) -> bool
    ensures { result ≡ is_object object value.now }
{
    matches!(value, Value::Obj(own) if *own == object)
}

/// A value without an object: null in its place; from collections, at any depth, it is taken out, and
/// they are canonical again. It is never larger.
#[cycle(without)]
pub fn without_object(alloc: Global, value: &Value, object: ObjNo) -> Result<Value, AllocError>
    ensures value { IfOk result (λ v. v ≡ without_object object value.now) }
    ensures well_made { IsWellMade value.now → IfOk result IsWellMade }
    ensures no_larger { IfOk result (λ v. size_of v ≤ size_of value.now) }
{
    match value {
        Value::Obj(own) if *own == object => Ok(Value::Null),
        Value::Coll(kind, items) => {
            let items = all_without(alloc, items.as_slice(), object)?;
            make(alloc, *kind, items)
        }
        _ => value.try_copy(alloc),
    }
}

/// Those of some values that are not the object, each without it.
#[cycle(without)]
fn all_without(alloc: Global, values: &[Value], object: ObjNo) -> Result<Vec<Value>, AllocError>
    ensures { IfOk result (λ v. v.items ≡ all_without object values.now) }
{
    let mut rest = Vec::with_capacity(alloc, values.len())?;
    'values: for value in values {
        if !is_object(value, object) {
            rest.push(without_object(alloc, value, object)?)?;
        }
    }
    Ok(rest)
}
