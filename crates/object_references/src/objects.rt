ghost use Rattle.std.specs.Prelude.{◌≡◌, ◌++◌, nat_eq, IfOk, OnOk};
ghost use Rattle.std.specs.List.{list_any};
ghost use Rattle.object_references.specs.References.{all_references, references, refers_to};

use ocl_values::{ObjNo, Value};
use std::alloc::{AllocError, Global};

/// Adds the objects that a value refers to, each as often as it is there.
#[cycle(references)]
pub fn add_references(value: &Value, found: &mut Vec<ObjNo>) -> Result<(), AllocError>
    ensures { OnOk result (found.new.items ≡ found.old.items ++ references value.now) }
{
    match value {
        Value::Obj(object) => {
            found.push(*object)?;
            Ok(())
        }
        Value::Coll(_, items) => add_all_references(items.as_slice(), found),
        _ => Ok(()),
    }
}

#[cycle(references)]
fn add_all_references(values: &[Value], found: &mut Vec<ObjNo>) -> Result<(), AllocError>
    ensures { OnOk result (found.new.items ≡ found.old.items ++ all_references values.now) }
{
    'values: for value in values {
        add_references(value, found)?;
    }
    Ok(())
}

/// The objects that a value refers to, each as often as it is there. It takes no memory where there
/// is none.
pub fn references(alloc: Global, value: &Value) -> Result<Vec<ObjNo>, AllocError>
    ensures { IfOk result (λ v. v.items ≡ references value.now) }
{
    let mut found = Vec::new(alloc);
    add_references(value, &mut found)?;
    Ok(found)
}

/// Whether a value refers to an object.
#[cycle(refers)]
pub fn refers_to(value: &Value, object: ObjNo) -> bool
    ensures { result ≡ refers_to value.now object }
{
    match value {
        Value::Obj(own) => *own == object,
        Value::Coll(_, items) => any_refers_to(items.as_slice(), object),
        _ => false,
    }
}

#[cycle(refers)]
fn any_refers_to(values: &[Value], object: ObjNo) -> bool
    ensures { result ≡ list_any (nat_eq object) (all_references values.now) }
{
    'values: for value in values {
        if refers_to(value, object) {
            return true;
        }
    }
    false
}
