ghost use Rattle.std.specs.Prelude.{◌≡◌, IfOk, IsSorted, OnOk};
ghost use Rattle.std.specs.FinMap.{IsAntisymmetric};
ghost use Rattle.use_orders.specs.Canon.{without};
ghost use Rattle.object_state.specs.Layouts.{attrs};
ghost use Rattle.object_referrers.specs.Places.{Forgets, TellsMore, held_keys, slot_key_cmp, slots_brought, slots_keys, slots_left, variable_key_cmp, variables_brought, variables_left};

use crate::keys::{slot_keys, slots_keys, variable_keys};
use crate::{SlotKey, VariableKey};
use object_state::{Change, Layout, ObjectChange, Variable};
use ocl_values::Text;
use std::alloc::{AllocError, Global};
use std::collections::BTreeSet;
use use_orders::{contains, set};

/// Where values may refer to an object: each place whose value does is told, and after want of memory
/// perhaps others too.
#[derive(Drop)]
pub(crate) struct Referrers {
    pub(crate) slots: BTreeSet<SlotKey>,
    pub(crate) variables: BTreeSet<VariableKey>,
}

/// What is to be forgotten once a change was carried out.
#[derive(Drop)]
pub(crate) struct Leaving {
    slots: Vec<SlotKey>,
    variables: Vec<VariableKey>,
}

/// Those of some keys that are not among others.
fn only_in<K: Ord + Drop>(alloc: Global, old: Vec<K>, new: &[K]) -> Result<Vec<K>, AllocError>
    requires sorted { IsSorted K.cmp new.now }
    ensures { IfOk result (λ v. v.items ≡ without K.cmp old.items new.now) }
{
    let mut left = Vec::new(alloc);
    'old: for key in old {
        if !contains(new, &key) {
            left.push(key)?;
        }
    }
    Ok(left)
}

fn put_all<K: Ord + Drop>(index: &mut BTreeSet<K>, keys: Vec<K>) -> Result<(), AllocError>
    ensures stay { TellsMore K.cmp index.old.keys index.new.keys }
    ensures put { OnOk result (TellsMore K.cmp keys.items index.new.keys) }
{
    'keys: for key in keys {
        index.insert(key)?;
    }
    Ok(())
}

fn take_all<K: Ord + Drop>(index: &mut BTreeSet<K>, keys: Vec<K>)
    ensures { Forgets K.cmp keys.items index.old.keys index.new.keys }
{
    'keys: for key in keys {
        index.remove(&key);
    }
}

/// Puts the keys of a new value in, and gives those of the old one that go.
fn replaced<K: Ord + Drop>(
    alloc: Global,
    index: &mut BTreeSet<K>,
    old: Vec<K>,
    new: Vec<K>,
) -> Result<Vec<K>, AllocError>
    requires exact { IsAntisymmetric K.cmp }
    ensures stay { TellsMore K.cmp index.old.keys index.new.keys }
    ensures put { OnOk result (TellsMore K.cmp new.items index.new.keys) }
    ensures left { IfOk result (λ v. v.items ≡ without K.cmp old.items new.items) }
{
    let new = set(new)?;
    let left = only_in(alloc, old, new.as_slice())?;
    put_all(index, new)?;
    Ok(left)
}

/// The keys of what a variable held, if it was there.
fn held_keys(
    alloc: Global,
    name: &Text,
    old: &Option<Variable>,
) -> Result<Vec<VariableKey>, AllocError>
    ensures { IfOk result (λ v. v.items ≡ held_keys name.now old.now) }
{
    match old {
        None => Ok(Vec::new(alloc)),
        Some(variable) => variable_keys(alloc, name, &variable.value),
    }
}

/// The keys of an object that comes or goes.
fn object_keys(
    alloc: Global,
    layout: &Layout,
    change: &ObjectChange,
) -> Result<Vec<SlotKey>, AllocError>
    ensures { IfOk result (λ v. v.items ≡ slots_keys change.now.object (attrs layout.now change.now.class) change.now.slots) }
{
    let attrs = layout.attrs(change.class);
    slots_keys(alloc, change.object, attrs, change.slots.as_slice())
}

/// Tells of the slots that a change brings, and gives what is to be forgotten of others afterwards.
fn prepare_slots(
    alloc: Global,
    index: &mut BTreeSet<SlotKey>,
    layout: &Layout,
    change: &Change,
) -> Result<Vec<SlotKey>, AllocError>
    ensures stay { TellsMore slot_key_cmp index.old.keys index.new.keys }
    ensures brought { OnOk result (TellsMore slot_key_cmp (slots_brought layout.now change.now) index.new.keys) }
    ensures left { IfOk result (λ v. v.items ≡ slots_left layout.now change.now) }
{
    match change {
        Change::Create(new) => {
            let keys = object_keys(alloc, layout, new)?;
            put_all(index, keys)?;
            Ok(Vec::new(alloc))
        }
        Change::Remove(old) => object_keys(alloc, layout, old),
        Change::SetSlot {
            object,
            attr,
            old,
            new,
        } => {
            let old = slot_keys(alloc, *object, *attr, old)?;
            let new = slot_keys(alloc, *object, *attr, new)?;
            replaced(alloc, index, old, new)
        }
        _ => Ok(Vec::new(alloc)),
    }
}

/// The same of variables.
fn prepare_variables(
    alloc: Global,
    index: &mut BTreeSet<VariableKey>,
    change: &Change,
) -> Result<Vec<VariableKey>, AllocError>
    ensures stay { TellsMore variable_key_cmp index.old.keys index.new.keys }
    ensures brought { OnOk result (TellsMore variable_key_cmp (variables_brought change.now) index.new.keys) }
    ensures left { IfOk result (λ v. v.items ≡ variables_left change.now) }
{
    match change {
        Change::Bind { name, old, new } => {
            let old = held_keys(alloc, name, old)?;
            let new = variable_keys(alloc, name, &new.value)?;
            replaced(alloc, index, old, new)
        }
        Change::Unbind { name, old } => variable_keys(alloc, name, &old.value),
        _ => Ok(Vec::new(alloc)),
    }
}

impl Referrers {
    pub(crate) fn new(alloc: Global) -> Referrers {
        Referrers {
            slots: BTreeSet::new(alloc),
            variables: BTreeSet::new(alloc),
        }
    }

    /// Tells of what a change brings, before it is carried out, and gives what is to be forgotten
    /// afterwards.
    pub(crate) fn prepare(
        &mut self,
        alloc: Global,
        layout: &Layout,
        change: &Change,
    ) -> Result<Leaving, AllocError>
        ensures slots_stay { TellsMore slot_key_cmp self.old.slots.keys self.new.slots.keys }
        ensures variables_stay { TellsMore variable_key_cmp self.old.variables.keys self.new.variables.keys }
        ensures slots_brought { OnOk result (TellsMore slot_key_cmp (slots_brought layout.now change.now) self.new.slots.keys) }
        ensures variables_brought { OnOk result (TellsMore variable_key_cmp (variables_brought change.now) self.new.variables.keys) }
        ensures slots_left { IfOk result (λ v. v.slots.items ≡ slots_left layout.now change.now) }
        ensures variables_left { IfOk result (λ v. v.variables.items ≡ variables_left change.now) }
    {
        let slots = prepare_slots(alloc, &mut self.slots, layout, change)?;
        let variables = prepare_variables(alloc, &mut self.variables, change)?;
        Ok(Leaving { slots, variables })
    }

    /// Forgets what went.
    pub(crate) fn forget(&mut self, leaving: Leaving)
        ensures slots { Forgets slot_key_cmp leaving.slots.items self.old.slots.keys self.new.slots.keys }
        ensures variables { Forgets variable_key_cmp leaving.variables.items self.old.variables.keys self.new.variables.keys }
    {
        take_all(&mut self.slots, leaving.slots);
        take_all(&mut self.variables, leaving.variables);
    }
}
