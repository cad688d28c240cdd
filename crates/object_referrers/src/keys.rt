ghost use Rattle.std.specs.Prelude.{◌≡◌, ◌++◌, map, IfOk, OnOk};
ghost use Rattle.object_references.specs.References.{references};
ghost use Rattle.object_referrers.specs.Places.{slot_keys, slots_keys, variable_keys};

use crate::{SlotKey, VariableKey};
use class_model::AttrNo;
use object_references::references;
use ocl_values::{ObjNo, Text, Value};
use std::alloc::{AllocError, Global};

/// Adds a key for each object that the value of a slot refers to.
pub(crate) fn add_slot_keys(
    alloc: Global,
    object: ObjNo,
    attr: AttrNo,
    value: &Value,
    keys: &mut Vec<SlotKey>,
) -> Result<(), AllocError>
    ensures { OnOk result (keys.new.items ≡ keys.old.items ++ slot_keys object attr value.now) }
{
    let found = references(alloc, value)?;
    'found: for held in found.as_slice() {
        keys.push((*held, (object, attr)))?;
    }
    Ok(())
}

/// A key for each object that the value of a slot refers to.
pub(crate) fn slot_keys(
    alloc: Global,
    object: ObjNo,
    attr: AttrNo,
    value: &Value,
) -> Result<Vec<SlotKey>, AllocError>
    ensures { IfOk result (λ v. v.items ≡ slot_keys object attr value.now) }
{
    let mut keys = Vec::new(alloc);
    add_slot_keys(alloc, object, attr, value, &mut keys)?;
    Ok(keys)
}

/// A key for each object that the slots of an object refer to.
pub(crate) fn slots_keys(
    alloc: Global,
    object: ObjNo,
    attrs: &[AttrNo],
    values: &[Value],
) -> Result<Vec<SlotKey>, AllocError>
    ensures { IfOk result (λ v. v.items ≡ slots_keys object attrs.now values.now) }
{
    let mut keys = Vec::new(alloc);
    let count = attrs.len().min(values.len());
    'slots: for i in 0..count {
        add_slot_keys(alloc, object, attrs[i], &values[i], &mut keys)?;
    }
    Ok(keys)
}

/// A key for each object that the value of a variable refers to.
pub(crate) fn variable_keys(
    alloc: Global,
    name: &Text,
    value: &Value,
) -> Result<Vec<VariableKey>, AllocError>
    ensures { IfOk result (λ v. v.items ≡ variable_keys name.now value.now) }
{
    let found = references(alloc, value)?;
    let mut keys = Vec::new(alloc);
    'found: for held in found.as_slice() {
        keys.push((*held, Text::copy_of(alloc, name.as_str())?))?;
    }
    Ok(keys)
}
