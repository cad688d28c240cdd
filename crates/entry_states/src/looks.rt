ghost use Rattle.std.specs.Prelude.{◌≡◌, true, IfOk};
ghost use Rattle.object_state.specs.declared.cell.Look.TheVariants as a_look;
ghost use Rattle.object_state.specs.Looks.{class_look, items_look, value_look};
ghost use Rattle.entry_states.specs.Overlays.{is_class_look, is_extent_look, is_items_look, is_value_look};

use class_model::ClassNo;
use object_state::Look;
use ocl_values::Value;
use std::alloc::{AllocError, Global};
use use_lists::Items;
use use_orders::copied;

/// Equal values.
pub(crate) fn copy_values(alloc: Global, values: &Items<Value>) -> Result<Items<Value>, AllocError>
    ensures { IfOk result (λ items. items ≡ values.now) }
{
    Ok(Items::from_vec(copied(alloc, values.as_slice())?))
}

/// An equal look.
pub(crate) fn copy_look(alloc: Global, look: &Look) -> Result<Look, AllocError>
    ensures { IfOk result (λ copy. copy ≡ look.now) }
{
    Ok(match look {
        Look::Absent => Look::Absent,
        Look::Class(class) => Look::Class(*class),
        Look::Value(value) => Look::Value(value.try_copy(alloc)?),
        Look::Items(items) => Look::Items(copy_values(alloc, items)?),
    })
}

/// The class that a look shows.
pub(crate) fn class_in(look: &Look) -> Option<ClassNo>
    requires { is_class_look look.now ≡ true }
    ensures { class_look result ≡ look.now }
{
    match look {
        Look::Absent => None,
        Look::Class(class) => Some(*class),
        _ => unreachable!(),
    }
}

/// The value that a look shows.
pub(crate) fn value_in(alloc: Global, look: &Look) -> Result<Option<Value>, AllocError>
    requires { is_value_look look.now ≡ true }
    ensures { IfOk result (λ value. value_look value ≡ look.now) }
{
    match look {
        Look::Absent => Ok(None),
        Look::Value(value) => Ok(Some(value.try_copy(alloc)?)),
        _ => unreachable!(),
    }
}

/// The objects at an end that a look shows.
pub(crate) fn items_in(alloc: Global, look: &Look) -> Result<Option<Items<Value>>, AllocError>
    requires { is_items_look look.now ≡ true }
    ensures { IfOk result (λ items. items_look items ≡ look.now) }
{
    match look {
        Look::Absent => Ok(None),
        Look::Items(items) => Ok(Some(copy_values(alloc, items)?)),
        _ => unreachable!(),
    }
}

/// The objects of a class that a look shows.
pub(crate) fn extent_in(alloc: Global, look: &Look) -> Result<Items<Value>, AllocError>
    requires { is_extent_look look.now ≡ true }
    ensures { IfOk result (λ items. a_look.Items items ≡ look.now) }
{
    match look {
        Look::Items(items) => Ok(copy_values(alloc, items)?),
        _ => unreachable!(),
    }
}
