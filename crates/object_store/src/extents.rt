ghost use Rattle.std.specs.Prelude.{◌≡◌, ℕ, true, false, filter, IfOk, OnOk, OnErr, map, nat_eq};
ghost use Rattle.std.specs.List.{list_any};
ghost use Rattle.std.specs.List.Sorted.{IsStrictlySortedBy};
ghost use Rattle.std.specs.Map.{keys_of};
ghost use Rattle.ocl_values.specs.declared.value.Value.TheVariants.{Obj};
ghost use Rattle.object_state.specs.State.{link_cmp};
ghost use Rattle.object_store.specs.Indexes.{Marks, has_pair, is_one};

use crate::pair_map::PairMap;
use class_model::ClassNo;
use ocl_values::{ObjNo, Value};
use std::alloc::{AllocError, Global};

/// The objects of each class and its descendants.
pub(crate) type Extents = PairMap<()>;

/// Puts an object into the extent of a class.
fn put_one(
    alloc: Global,
    extents: &mut Extents,
    class: ClassNo,
    object: ObjNo,
) -> Result<(), AllocError>
    requires { IsStrictlySortedBy link_cmp (keys_of extents.old) }
    ensures ordered { IsStrictlySortedBy link_cmp (keys_of extents.new) }
    ensures ok { OnOk result (Marks true (class, object) (keys_of extents.old) (keys_of extents.new)) }
    ensures err { OnErr result (extents.new ≡ extents.old) }
{
    if extents.get(class, object).is_some() {
        return Ok(());
    }
    extents.insert(alloc, class, object, ())
}

/// Takes an object out of the extent of a class.
fn take_one(extents: &mut Extents, class: ClassNo, object: ObjNo)
    requires { IsStrictlySortedBy link_cmp (keys_of extents.old) }
    ensures ordered { IsStrictlySortedBy link_cmp (keys_of extents.new) }
    ensures taken { Marks false (class, object) (keys_of extents.old) (keys_of extents.new) }
{
    extents.remove(class, object);
}

/// Takes an object out of the extents of some classes.
pub(crate) fn take_extents(extents: &mut Extents, classes: &[ClassNo], object: ObjNo)
    requires { IsStrictlySortedBy link_cmp (keys_of extents.old) }
    ensures ordered { IsStrictlySortedBy link_cmp (keys_of extents.new) }
    ensures others { (c o : ℕ) → is_one classes.now object c o ≡ false → has_pair (keys_of extents.new) c o ≡ has_pair (keys_of extents.old) c o }
    ensures gone { (c : ℕ) → list_any (nat_eq c) classes.now ≡ true → has_pair (keys_of extents.new) c object ≡ false }
{
    'classes: for class in classes {
        take_one(extents, *class, object);
    }
}

/// Puts an object into the extents of some classes, until there is no memory.
fn put_some(
    alloc: Global,
    extents: &mut Extents,
    classes: &[ClassNo],
    object: ObjNo,
) -> Result<(), AllocError>
    requires { IsStrictlySortedBy link_cmp (keys_of extents.old) }
    ensures ordered { IsStrictlySortedBy link_cmp (keys_of extents.new) }
    ensures others { (c o : ℕ) → is_one classes.now object c o ≡ false → has_pair (keys_of extents.new) c o ≡ has_pair (keys_of extents.old) c o }
    ensures ok { OnOk result ((c : ℕ) → list_any (nat_eq c) classes.now ≡ true → has_pair (keys_of extents.new) c object ≡ true) }
{
    'classes: for class in classes {
        put_one(alloc, extents, *class, object)?;
    }
    Ok(())
}

/// Puts an object into the extents of some classes, or takes it out of all of them.
pub(crate) fn put_extents(
    alloc: Global,
    extents: &mut Extents,
    classes: &[ClassNo],
    object: ObjNo,
) -> Result<(), AllocError>
    requires ordered { IsStrictlySortedBy link_cmp (keys_of extents.old) }
    ensures ordered { IsStrictlySortedBy link_cmp (keys_of extents.new) }
    ensures others { (c o : ℕ) → is_one classes.now object c o ≡ false → has_pair (keys_of extents.new) c o ≡ has_pair (keys_of extents.old) c o }
    ensures ok { OnOk result ((c : ℕ) → list_any (nat_eq c) classes.now ≡ true → has_pair (keys_of extents.new) c object ≡ true) }
    ensures err { OnErr result ((c : ℕ) → list_any (nat_eq c) classes.now ≡ true → has_pair (keys_of extents.new) c object ≡ false) }
{
    match put_some(alloc, extents, classes, object) {
        Ok(()) => Ok(()),
        Err(refused) => {
            take_extents(extents, classes, object);
            Err(refused)
        }
    }
}

/// Objects as values.
fn values_of(alloc: Global, numbers: &[ObjNo]) -> Result<Vec<Value>, AllocError>
    ensures { IfOk result (λ v. v.items ≡ map Obj numbers.now) }
{
    numbers
        .iter()
        .map(|number| Value::Obj(*number))
        .collect(alloc)
}

/// The objects of a class and its descendants, by number.
pub(crate) fn objects_of(
    alloc: Global,
    extents: &Extents,
    class: ClassNo,
) -> Result<Vec<Value>, AllocError>
    ensures { IfOk result (λ v. v.items ≡ map (λ k. Obj k.1) (filter (λ k. nat_eq k.0 class) (keys_of extents.now))) }
{
    let numbers = extents.seconds(alloc, class)?;
    values_of(alloc, numbers.as_slice())
}
