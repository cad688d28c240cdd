ghost use Rattle.std.specs.Prelude.{◌≡◌, [], Some, IfOk};
ghost use Rattle.ocl_values.specs.Shape.{IsWellMade};
ghost use Rattle.object_state.specs.declared.change.Change.TheVariants.{Bind, Remove, SetSlot, Unlink};
ghost use Rattle.object_state.specs.Faults.{OldPartsAgree};
ghost use Rattle.object_state.specs.Looks.{value_of};
ghost use Rattle.object_state.specs.State.{link, object, variable};
ghost use Rattle.object_referrers.specs.Referring.{links_of};
ghost use Rattle.soil_changes.specs.Joining.{unlinking};
ghost use Rattle.soil_changes.specs.Destroying.{removal};

use class_model::{AssocNo, AttrNo};
use object_referrers::ReferrerStore;
use object_state::{Change, LinkChange, Object, ObjectChange, StateReader, Variable};
use ocl_values::{ObjNo, Text, Value};
use std::alloc::{AllocError, Global};
use use_lists::Items;
use use_orders::copied;

/// The value of an attribute of a live object.
pub(crate) fn value_of(
    alloc: Global,
    store: &ReferrerStore,
    number: ObjNo,
    attr: AttrNo,
) -> Result<Option<Value>, AllocError>
    ensures value { IfOk result (λ v. v ≡ value_of store.now.layout store.now.state number attr) }
{
    match store.object(number) {
        None => Ok(None),
        Some(live) => match store.layout().slot(live, attr) {
            None => Ok(None),
            Some(value) => Ok(Some(value.try_copy(alloc)?)),
        },
    }
}

/// A copy of the variable of a name.
pub(crate) fn variable_of(
    alloc: Global,
    store: &ReferrerStore,
    name: &Text,
) -> Result<Option<Variable>, AllocError>
    ensures { IfOk result (λ v. v ≡ variable store.now.state name.now) }
{
    match store.variable(name.as_str()) {
        None => Ok(None),
        Some(variable) => Ok(Some(variable.try_copy(alloc)?)),
    }
}

/// An attribute's old value gives way to another.
pub(crate) fn setting(
    store: &ReferrerStore,
    number: ObjNo,
    attr: AttrNo,
    old: Value,
    new: Value,
) -> Change
    requires there { value_of store.now.layout store.now.state number attr ≡ Some old }
    requires well_made { IsWellMade new }
    ensures change { result ≡ SetSlot number attr old new }
    ensures agrees { OldPartsAgree store.now.layout store.now.state result }
{
    store.state_is_valid();
    Change::SetSlot {
        object: number,
        attr,
        old,
        new,
    }
}

/// A variable is bound anew, or for the first time.
pub(crate) fn binding(
    alloc: Global,
    store: &ReferrerStore,
    name: &Text,
    new: Variable,
) -> Result<Change, AllocError>
    requires { IsWellMade new.value }
    ensures change { IfOk result (λ c. c ≡ Bind name.now (variable store.now.state name.now) new) }
    ensures agrees { IfOk result (λ c. OldPartsAgree store.now.layout store.now.state c) }
{
    let old = variable_of(alloc, store, name)?;
    Ok(Change::Bind {
        name: Text::copy_of(alloc, name.as_str())?,
        old,
        new,
    })
}

/// A link that is there goes; the counter stays.
pub(crate) fn unlinking(
    store: &ReferrerStore,
    assoc: AssocNo,
    first: ObjNo,
    second: ObjNo,
    stamp: u32,
) -> Change
    requires { link store.now.state (assoc, stamp) ≡ Some (first, second) }
    ensures change { result ≡ Unlink (unlinking store.now.state assoc first second stamp) }
    ensures agrees { OldPartsAgree store.now.layout store.now.state result }
{
    store.state_is_valid();
    let counter = store.counters().1;
    Change::Unlink(LinkChange {
        assoc,
        first,
        second,
        stamp,
        before: counter,
        after: counter,
    })
}

/// A live object goes; the counter stays.
fn removal_of(
    alloc: Global,
    store: &ReferrerStore,
    number: ObjNo,
    live: &Object,
) -> Result<Change, AllocError>
    ensures { IfOk result (λ c. c ≡ Remove (removal store.now.state number live.now)) }
{
    let counter = store.counters().0;
    Ok(Change::Remove(ObjectChange {
        object: number,
        name: Text::copy_of(alloc, live.name.as_str())?,
        class: live.class,
        slots: Items::from_vec(copied(alloc, live.slots.as_slice())?),
        before: counter,
        after: counter,
    }))
}

/// A live object that has no link goes; the counter stays.
pub(crate) fn removal(
    alloc: Global,
    store: &ReferrerStore,
    number: ObjNo,
    live: &Object,
) -> Result<Change, AllocError>
    requires live { object store.now.state number ≡ Some live.now }
    requires unlinked { links_of store.now.state number ≡ [] }
    ensures change { IfOk result (λ c. c ≡ Remove (removal store.now.state number live.now)) }
    ensures agrees { IfOk result (λ c. OldPartsAgree store.now.layout store.now.state c) }
{
    store.state_is_valid();
    let change = removal_of(alloc, store, number, live)?;
    Ok(change)
}
