ghost use Rattle.std.specs.Prelude.{◌≡◌, IfOk};
ghost use Rattle.object_state.specs.Changes.{object_of, with_slot};

use crate::{Layout, ObjectChange};
use class_model::{AttrNo, ClassNo, OclType};
use ocl_values::{Text, Value};
use std::alloc::{AllocError, Global};
use std::mem;
use use_lists::Items;
use use_orders::copied;

/// An object (OCL 2.3.1, A.1.2.1): its name, its class and its values.
#[derive(Debug, Drop, PartialEq, Eq)]
pub struct Object {
    pub name: Text,
    pub class: ClassNo,
    /// One value for each stored attribute of the class, in the order of its attributes.
    pub slots: Items<Value>,
}

/// A variable of the shell.
#[derive(Debug, Drop, PartialEq, Eq)]
pub struct Variable {
    pub of_type: OclType,
    pub value: Value,
}

/// Equal values.
fn copy_values(alloc: Global, values: &Items<Value>) -> Result<Items<Value>, AllocError>
    ensures { IfOk result (λ items. items ≡ values.now) }
{
    Ok(Items::from_vec(copied(alloc, values.as_slice())?))
}

impl Variable {
    /// An equal variable.
    pub fn try_copy(&self, alloc: Global) -> Result<Variable, AllocError>
        ensures { IfOk result (λ v. v ≡ self.now) }
    {
        Ok(Variable {
            of_type: self.of_type.try_copy(alloc)?,
            value: self.value.try_copy(alloc)?,
        })
    }
}

/// The object that a change brings.
pub fn object_of(alloc: Global, new: &ObjectChange) -> Result<Object, AllocError>
    ensures { IfOk result (λ x. x ≡ object_of new.now) }
{
    Ok(Object {
        name: Text::copy_of(alloc, new.name.as_str())?,
        class: new.class,
        slots: copy_values(alloc, &new.slots)?,
    })
}

/// Stores a value in an object, where it has the attribute.
pub fn set_slot(alloc: Global, layout: &Layout, object: &mut Object, attr: AttrNo, value: Value)
    ensures { object.new ≡ with_slot layout.now object.old attr value }
{
    if let Some(place) = layout.place(object.class, attr) {
        let slots = mem::replace(&mut object.slots, Items::new(alloc));
        let mut slots = slots.into_vec();
        if place < slots.len() {
            slots[place] = value;
        }
        object.slots = Items::from_vec(slots);
    }
}
