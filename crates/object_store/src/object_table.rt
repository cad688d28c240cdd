ghost use Rattle.std.specs.Prelude.{◌≡◌, ◌<◌, ◌^◌, List, ℕ, [], true, false, IfOk, OnOk, OnErr, None, Some, length, map, nat_eq};
ghost use Rattle.std.specs.BTreeMap.{insert_entry, is_at};
ghost use Rattle.std.specs.HashMap.{get_by_text};
ghost use Rattle.std.specs.List.{list_any};
ghost use Rattle.std.specs.List.Sorted.{IsStrictlySortedBy};
ghost use Rattle.std.specs.Map.{keys_of, remove_entry, set_value, update};
ghost use Rattle.std.specs.Option.{option_copied, option_map_or};
ghost use Rattle.std.specs.Ordering.{nat_cmp};
ghost use Rattle.std.specs.Str.{bytes_eq};
ghost use Rattle.ocl_values.specs.declared.value.Value.TheVariants.{Obj};
ghost use Rattle.object_state.specs.Changes.{object_of, with_slot};
ghost use Rattle.object_state.specs.Layouts.{ancestors};
ghost use Rattle.object_state.specs.State.{link_cmp};
ghost use Rattle.object_store.specs.Indexes.{extent_in, has_pair, is_one, named_in, object_in};

use crate::extents::{Extents, objects_of, put_extents, take_extents};
use crate::names::{Numbers, put_name, take_name};
use crate::number_map::NumberMap;
use crate::pair_map::PairMap;
use class_model::{AttrNo, ClassNo};
use object_state::{Layout, Object, ObjectChange, object_of};
use ocl_values::{ObjNo, Value};
use std::alloc::{AllocError, Global};
use std::collections::HashMap;
use std::marker::Model;

/// Objects by number. Contracts see the list of them in that order, and the layout.
#[derive(Drop)]
pub(crate) struct ObjectTable {
    layout: Layout,
    objects: NumberMap<Object>,
    /// The objects of names.
    names: Numbers,
    extents: Extents,
}

impl Model for ObjectTable {
    ghost use Rattle.std.specs.Coded.{codes};
    ghost use Rattle.std.specs.HashMap.{get_by_text};
    ghost use Rattle.std.specs.Map.{keys_of};
    ghost use Rattle.ocl_values.specs.contracts.value.Value as values;
    ghost use Rattle.object_store.specs.Indexes.{Objects, ObjectsAreTied};

    ghost Value = { Objects };

    ghost coded = { Prim.hlevel (codes, values.the_row.coded) };

    ghost view = { λ t. record { layout = t.layout; objects = t.objects } };

    ghost invariant = { λ t. ObjectsAreTied t.layout t.objects (get_by_text t.names) (keys_of t.extents) };
}

/// Puts an object into the indexes, or into none.
fn put_indexes(
    alloc: Global,
    layout: &Layout,
    names: &mut Numbers,
    extents: &mut Extents,
    new: &ObjectChange,
) -> Result<(), AllocError>
    requires ordered { IsStrictlySortedBy link_cmp (keys_of extents.old) }
    requires fresh { get_by_text names.old new.now.name ≡ None }
    requires free { (c : ℕ) → has_pair (keys_of extents.old) c new.now.object ≡ false }
    ensures ordered { IsStrictlySortedBy link_cmp (keys_of extents.new) }
    ensures others { (c o : ℕ) → is_one (ancestors layout.now new.now.class) new.now.object c o ≡ false
        → has_pair (keys_of extents.new) c o ≡ has_pair (keys_of extents.old) c o }
    ensures small { OnOk result (new.now.object < 2 ^ 32) }
    ensures named { OnOk result ((n : List ℕ) → get_by_text names.new n ≡ update bytes_eq (get_by_text names.old) new.now.name (Some new.now.object) n) }
    ensures there { OnOk result ((c : ℕ) → list_any (nat_eq c) (ancestors layout.now new.now.class) ≡ true
        → has_pair (keys_of extents.new) c new.now.object ≡ true) }
    ensures no_name { OnErr result ((n : List ℕ) → get_by_text names.new n ≡ get_by_text names.old n) }
    ensures gone { OnErr result ((c : ℕ) → list_any (nat_eq c) (ancestors layout.now new.now.class) ≡ true
        → has_pair (keys_of extents.new) c new.now.object ≡ false) }
{
    put_name(alloc, names, new.name.as_str(), new.object)?;
    match put_extents(alloc, extents, layout.ancestors(new.class), new.object) {
        Ok(()) => Ok(()),
        Err(refused) => {
            take_name(names, new.name.as_str());
            Err(refused)
        }
    }
}

impl ObjectTable {
    pub(crate) fn new(alloc: Global, layout: Layout) -> ObjectTable
        ensures layout { result.layout ≡ layout }
        ensures objects { result.objects ≡ [] }
    {
        ObjectTable {
            layout,
            objects: NumberMap::new(alloc),
            names: HashMap::new(alloc),
            extents: PairMap::new(alloc),
        }
    }

    pub(crate) fn layout(&self) -> &Layout
        ensures { result.now ≡ self.now.layout }
    {
        &self.layout
    }

    pub(crate) fn len(&self) -> usize
        ensures { result ≡ length self.now.objects }
    {
        self.objects.len()
    }

    /// The object of a number.
    pub(crate) fn get(&self, number: ObjNo) -> Option<&Object>
        ensures { option_copied result ≡ object_in self.now.objects number }
    {
        self.objects.get(number)
    }

    /// The number of the object of a name.
    pub(crate) fn named(&self, name: &str) -> Option<ObjNo>
        ensures { result ≡ named_in self.now.objects name.now }
    {
        self.names.get(name).copied()
    }

    /// The numbers of all objects, in their order.
    pub(crate) fn numbers(&self, alloc: Global) -> Result<Vec<ObjNo>, AllocError>
        ensures { IfOk result (λ v. v.items ≡ keys_of self.now.objects) }
    {
        self.objects.numbers(alloc)
    }

    /// The objects of a class and its descendants, by number.
    pub(crate) fn of_class(&self, alloc: Global, class: ClassNo) -> Result<Vec<Value>, AllocError>
        ensures { IfOk result (λ v. v.items ≡ map Obj (extent_in self.now.layout self.now.objects class)) }
    {
        objects_of(alloc, &self.extents, class)
    }

    /// Puts the object of a change in, whose number and name are free. After `AllocError` the
    /// objects are as they were.
    pub(crate) fn insert(&mut self, alloc: Global, new: &ObjectChange) -> Result<(), AllocError>
        requires free { object_in self.old.objects new.now.object ≡ None }
        requires fresh { named_in self.old.objects new.now.name ≡ None }
        ensures ok { OnOk result (self.new ≡ record self.old { objects = insert_entry nat_cmp self.old.objects new.now.object (object_of new.now) }) }
        ensures err { OnErr result (self.new ≡ self.old) }
    {
        let object = object_of(alloc, new)?;
        self.objects.insert(alloc, new.object, object)?;
        match put_indexes(alloc, &self.layout, &mut self.names, &mut self.extents, new) {
            Ok(()) => Ok(()),
            Err(refused) => {
                self.objects.remove(new.object);
                Err(refused)
            }
        }
    }

    /// Takes the object of a change out.
    pub(crate) fn remove(&mut self, old: &ObjectChange)
        requires { object_in self.old.objects old.now.object ≡ Some (object_of old.now) }
        ensures { self.new ≡ record self.old { objects = remove_entry (is_at (nat_cmp old.now.object)) self.old.objects } }
    {
        self.objects.remove(old.object);
        take_name(&mut self.names, old.name.as_str());
        take_extents(
            &mut self.extents,
            self.layout.ancestors(old.class),
            old.object,
        );
    }

    /// Stores a value in the object of a number, where it is live and has the attribute.
    pub(crate) fn set_slot(&mut self, alloc: Global, number: ObjNo, attr: AttrNo, value: Value)
        ensures { self.new ≡ record self.old {
          objects = option_map_or (λ x. set_value (is_at (nat_cmp number)) self.old.objects (with_slot self.old.layout x attr value))
              (object_in self.old.objects number) self.old.objects;
        } }
    {
        self.objects
            .set_slot(alloc, &self.layout, number, attr, value);
    }
}
