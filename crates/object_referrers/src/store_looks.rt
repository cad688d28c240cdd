ghost use Rattle.std.specs.Prelude.{◌≡◌, ◌++◌, ◌≤◌, ◌^◌, [], IfOk, OnOk, filter, length, map, nat_eq};
ghost use Rattle.std.specs.BTreeSet.{keys_between};
ghost use Rattle.std.specs.List.{take_while};
ghost use Rattle.std.specs.List.Sorted.{IsStrictlySortedBy};
ghost use Rattle.std.specs.declared.ops.Bound.TheVariants.{Included, Unbounded};
ghost use Rattle.object_state.specs.Looks.{has_at};
ghost use Rattle.object_referrers.specs.Gathered.{links_among};
ghost use Rattle.object_referrers.specs.Places.{slot_key_cmp, variable_key_cmp};
ghost use Rattle.object_referrers.specs.Referring.{links_of, name_refers_to, place_refers_to, slots_referring_to, variables_referring_to};

use crate::{Link, ReferrerStore, SlotKey, VariableKey};
use class_model::{AssocNo, AttrNo, ClassNo, End};
use object_references::refers_to;
use object_state::{Layout, Object, StateReader, Variable};
use object_store::Store;
use ocl_values::{ObjNo, Text, Value};
use std::alloc::{AllocError, Global};
use std::collections::BTreeSet;
use use_lists::Items;
use use_orders::set;

/// Whether the value of a slot refers to an object.
fn slot_refers_to(store: &Store, slot: (ObjNo, AttrNo), object: ObjNo) -> bool
    ensures { result ≡ place_refers_to store.now.layout store.now.state object slot }
{
    match store.object(slot.0) {
        None => false,
        Some(live) => match store.layout().slot(live, slot.1) {
            None => false,
            Some(value) => refers_to(value, object),
        },
    }
}

/// The slots that an index tells of an object and whose values refer to it.
fn slots_at(
    alloc: Global,
    store: &Store,
    index: &BTreeSet<SlotKey>,
    object: ObjNo,
) -> Result<Vec<(ObjNo, AttrNo)>, AllocError>
    ensures ordered { IsStrictlySortedBy slot_key_cmp index.now.keys }
    ensures slots { IfOk result (λ v. v.items ≡ map (λ k. k.1) (filter (λ k. place_refers_to store.now.layout store.now.state object k.1)
        (take_while (λ k. nat_eq k.0 object) (keys_between slot_key_cmp (Included (object, (0, 0))) Unbounded index.now)))) }
{
    let first: SlotKey = (object, (0, 0));
    index
        .range(first..)
        .take_while(|key| key.0 == object)
        .filter(|key| slot_refers_to(store, key.1, object))
        .map(|key| key.1)
        .collect(alloc)
}

/// Adds the links of an association that have an object at an end.
fn add_links_at(
    alloc: Global,
    store: &Store,
    assoc: AssocNo,
    end: End,
    object: ObjNo,
    found: &mut Vec<Link>,
) -> Result<(), AllocError>
    ensures { OnOk result (found.new.items ≡ found.old.items ++ filter (has_at assoc end object) store.now.state.links) }
{
    let links = store.links_at(alloc, assoc, end, object)?;
    'links: for link in links {
        found.push(link)?;
    }
    Ok(())
}

/// The links of so many associations that have an object at an end. One that has it at both is there
/// twice.
fn links_among(
    alloc: Global,
    store: &Store,
    assocs: usize,
    object: ObjNo,
) -> Result<Vec<Link>, AllocError>
    requires { assocs ≤ 2 ^ 32 }
    ensures { IfOk result (λ v. v.items ≡ links_among store.now.state.links object assocs) }
{
    let mut found = Vec::new(alloc);
    'assocs: for assoc in 0..assocs {
        add_links_at(
            alloc,
            store,
            assoc as AssocNo,
            End::First,
            object,
            &mut found,
        )?;
        add_links_at(
            alloc,
            store,
            assoc as AssocNo,
            End::Second,
            object,
            &mut found,
        )?;
    }
    Ok(found)
}

/// The keys that an index tells of an object.
fn keys_at<'a>(
    alloc: Global,
    index: &'a BTreeSet<VariableKey>,
    first: &'a VariableKey,
) -> Result<Vec<&'a VariableKey>, AllocError>
    ensures ordered { IsStrictlySortedBy variable_key_cmp index.now.keys }
    ensures keys { IfOk result (λ v. map (λ k. k.now) v.items ≡ take_while (λ k. nat_eq k.0 first.now.0) (keys_between variable_key_cmp (Included first.now) Unbounded index.now)) }
{
    index
        .range(first..)
        .take_while(|key| key.0 == first.0)
        .collect(alloc)
}

/// Whether the value of a variable refers to an object.
fn name_refers_to(store: &Store, name: &Text, object: ObjNo) -> bool
    ensures { result ≡ name_refers_to store.now.state object name.now }
{
    match store.variable(name.as_str()) {
        None => false,
        Some(variable) => refers_to(&variable.value, object),
    }
}

/// The names in some keys whose variables' values refer to an object.
fn referring(
    alloc: Global,
    store: &Store,
    keys: &[&VariableKey],
    object: ObjNo,
) -> Result<Vec<Text>, AllocError>
    ensures { IfOk result (λ v. v.items ≡ filter (name_refers_to store.now.state object) (map (λ k. k.now.1) keys.now)) }
{
    let mut names = Vec::new(alloc);
    'keys: for key in keys {
        if name_refers_to(store, &key.1, object) {
            names.push(Text::copy_of(alloc, key.1.as_str())?)?;
        }
    }
    Ok(names)
}

/// The names that an index tells of an object and whose variables' values refer to it.
fn names_at(
    alloc: Global,
    store: &Store,
    index: &BTreeSet<VariableKey>,
    object: ObjNo,
) -> Result<Vec<Text>, AllocError>
    ensures ordered { IsStrictlySortedBy variable_key_cmp index.now.keys }
    ensures names { IfOk result (λ v. v.items ≡ map (λ k. k.1) (filter (λ k. name_refers_to store.now.state object k.1)
        (take_while (λ k. nat_eq k.0 object) (keys_between variable_key_cmp (Included (object, [])) Unbounded index.now)))) }
{
    let first: VariableKey = (object, Text::from_string(String::new(alloc)));
    let keys = keys_at(alloc, index, &first)?;
    referring(alloc, store, keys.as_slice(), object)
}

impl ReferrerStore {
    /// The links of an object, by association and stamp: of each its association and stamp, and the
    /// objects that it joins.
    pub fn links_of(&self, alloc: Global, object: ObjNo) -> Result<Vec<Link>, AllocError>
        requires { length self.now.layout.assocs ≤ 2 ^ 32 }
        ensures { IfOk result (λ v. v.items ≡ links_of self.now.state object) }
    {
        self.store.state_is_valid();
        let assocs = self.store.layout().assocs.len();
        let found = links_among(alloc, &self.store, assocs, object)?;
        set(found)
    }

    /// The names of the variables whose values refer to an object, in their order.
    pub fn variables_referring_to(
        &self,
        alloc: Global,
        object: ObjNo,
    ) -> Result<Vec<Text>, AllocError>
        ensures { IfOk result (λ v. v.items ≡ variables_referring_to self.now.state object) }
    {
        self.store.state_is_valid();
        names_at(alloc, &self.store, &self.referrers.variables, object)
    }

    /// The slots whose values refer to an object, by object and attribute.
    pub fn slots_referring_to(
        &self,
        alloc: Global,
        object: ObjNo,
    ) -> Result<Vec<(ObjNo, AttrNo)>, AllocError>
        ensures { IfOk result (λ v. v.items ≡ slots_referring_to self.now.layout self.now.state object) }
    {
        self.store.state_is_valid();
        slots_at(alloc, &self.store, &self.referrers.slots, object)
    }
}

impl StateReader for ReferrerStore {
    ghost held = { λ s. s };

    fn state_is_valid(&self) {
        self.store.state_is_valid();
    }

    fn layout(&self) -> &Layout {
        self.store.layout()
    }

    fn object(&self, number: ObjNo) -> Option<&Object> {
        self.store.object(number)
    }

    fn object_named(&self, name: &str) -> Option<ObjNo> {
        self.store.object_named(name)
    }

    fn variable(&self, name: &str) -> Option<&Variable> {
        self.store.variable(name)
    }

    fn stamp(&self, assoc: AssocNo, first: ObjNo, second: ObjNo) -> Option<u32> {
        self.store.stamp(assoc, first, second)
    }

    fn object_count(&self) -> usize {
        self.store.object_count()
    }

    fn link_count(&self) -> usize {
        self.store.link_count()
    }

    fn weight(&self) -> u64 {
        self.store.weight()
    }

    fn counters(&self) -> (u32, u32) {
        self.store.counters()
    }

    fn joined(
        &self,
        alloc: Global,
        assoc: AssocNo,
        end: End,
        object: ObjNo,
    ) -> Result<Items<Value>, AllocError> {
        self.store.joined(alloc, assoc, end, object)
    }

    fn objects_of(&self, alloc: Global, class: ClassNo) -> Result<Items<Value>, AllocError> {
        self.store.objects_of(alloc, class)
    }

    fn objects(&self, alloc: Global) -> Result<Items<ObjNo>, AllocError> {
        self.store.objects(alloc)
    }

    fn links(&self, alloc: Global, assoc: AssocNo) -> Result<Items<(ObjNo, ObjNo)>, AllocError> {
        self.store.links(alloc, assoc)
    }

    fn variables(&self, alloc: Global) -> Result<Items<(Text, Variable)>, AllocError> {
        self.store.variables(alloc)
    }
}
