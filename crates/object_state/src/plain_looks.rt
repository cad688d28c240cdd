ghost use Rattle.std.specs.Prelude.{◌≡◌, IfOk, filter, find, map, nat_eq};
ghost use Rattle.std.specs.BTreeMap.{is_at};
ghost use Rattle.std.specs.Option.{option_copied, option_map};
ghost use Rattle.ocl_values.specs.declared.value.Value.TheVariants.{Obj};
ghost use Rattle.object_state.specs.Layouts.{is_a};
ghost use Rattle.object_state.specs.Looks.{end_of, has_at};
ghost use Rattle.object_state.specs.State.{text_cmp};

use crate::looks::{end_of, has_at};
use crate::weights::{objects_weight, variables_weight};
use crate::{Layout, LinkKey, Object, PlainStore, StateReader, Variable};
use class_model::{AssocNo, ClassNo, End};
use ocl_values::{ObjNo, Text, Value};
use std::alloc::{AllocError, Global};
use use_lists::Items;

/// The variable of a name.
fn variable_in<'a>(variables: &'a [(Text, Variable)], name: &str) -> Option<&'a Variable>
    ensures { option_copied result ≡ option_map (λ e. e.1) (find (λ e. is_at (text_cmp name.now) e.0) variables.now) }
{
    variables
        .iter()
        .find(|entry| name.cmp(entry.0.as_str()).is_eq())
        .map(|entry| &entry.1)
}

/// The objects at one end of the links of an association that have an object at the other.
fn joined_in(
    alloc: Global,
    links: &[(LinkKey, (ObjNo, ObjNo))],
    assoc: AssocNo,
    from: End,
    object: ObjNo,
    to: End,
) -> Result<Items<Value>, AllocError>
    ensures { IfOk result (λ items. items ≡ map (λ entry. Obj (end_of entry.1 to)) (filter (has_at assoc from object) links.now)) }
{
    let mut items = Items::new(alloc);
    'links: for entry in links {
        if has_at(assoc, from, object, entry) {
            items.push(Value::Obj(end_of(entry.1, to)))?;
        }
    }
    Ok(items)
}

/// The objects of a class and its descendants.
fn objects_in(
    alloc: Global,
    objects: &[(ObjNo, Object)],
    layout: &Layout,
    class: ClassNo,
) -> Result<Vec<Value>, AllocError>
    ensures { IfOk result (λ v. v.items ≡ map (λ entry. Obj entry.0) (filter (λ entry. is_a layout.now entry.1.class class) objects.now)) }
{
    objects
        .iter()
        .filter(|entry| layout.is_a(entry.1.class, class))
        .map(|entry| Value::Obj(entry.0))
        .collect(alloc)
}

/// The numbers of some objects.
fn numbers_of(alloc: Global, objects: &[(ObjNo, Object)]) -> Result<Items<ObjNo>, AllocError>
    ensures { IfOk result (λ numbers. numbers ≡ map (λ e. e.0) objects.now) }
{
    let mut numbers = Items::new(alloc);
    'objects: for entry in objects {
        numbers.push(entry.0)?;
    }
    Ok(numbers)
}

/// The pairs that an association links.
fn pairs_in(
    alloc: Global,
    links: &[(LinkKey, (ObjNo, ObjNo))],
    assoc: AssocNo,
) -> Result<Vec<(ObjNo, ObjNo)>, AllocError>
    ensures { IfOk result (λ v. v.items ≡ map (λ e. e.1) (filter (λ e. nat_eq e.0.0 assoc) links.now)) }
{
    links
        .iter()
        .filter(|entry| entry.0.0 == assoc)
        .map(|entry| entry.1)
        .collect(alloc)
}

/// Copies of some variables.
fn copies_of(
    alloc: Global,
    variables: &[(Text, Variable)],
) -> Result<Items<(Text, Variable)>, AllocError>
    ensures { IfOk result (λ items. items ≡ variables.now) }
{
    let mut copies = Items::new(alloc);
    'variables: for entry in variables {
        let name = Text::copy_of(alloc, entry.0.as_str())?;
        copies.push((name, entry.1.try_copy(alloc)?))?;
    }
    Ok(copies)
}

impl StateReader for PlainStore {
    ghost held = { λ s. s };

    fn state_is_valid(&self) {
        let _ = &self.layout;
    }

    fn layout(&self) -> &Layout {
        &self.layout
    }

    fn object(&self, object: ObjNo) -> Option<&Object> {
        self.objects.get(&object)
    }

    fn object_named(&self, name: &str) -> Option<ObjNo> {
        self.objects
            .as_slice()
            .iter()
            .find(|entry| entry.1.name.as_str() == name)
            .map(|entry| entry.0)
    }

    fn variable(&self, name: &str) -> Option<&Variable> {
        variable_in(self.variables.as_slice(), name)
    }

    fn stamp(&self, assoc: AssocNo, first: ObjNo, second: ObjNo) -> Option<u32> {
        self.links
            .as_slice()
            .iter()
            .find(|entry| entry.0.0 == assoc && entry.1.0 == first && entry.1.1 == second)
            .map(|entry| entry.0.1)
    }

    fn object_count(&self) -> usize {
        self.objects.len()
    }

    fn link_count(&self) -> usize {
        self.links.len()
    }

    fn weight(&self) -> u64 {
        objects_weight(self.objects.as_slice())
            + variables_weight(self.variables.as_slice())
            + self.links.len() as u64
    }

    fn counters(&self) -> (u32, u32) {
        (self.next_object, self.next_stamp)
    }

    fn joined(
        &self,
        alloc: Global,
        assoc: AssocNo,
        end: End,
        object: ObjNo,
    ) -> Result<Items<Value>, AllocError> {
        let from = end.opposite();
        let items = joined_in(alloc, self.links.as_slice(), assoc, from, object, end)?;
        Ok(items)
    }

    fn objects_of(&self, alloc: Global, class: ClassNo) -> Result<Items<Value>, AllocError> {
        let items = objects_in(alloc, self.objects.as_slice(), &self.layout, class)?;
        Ok(Items::from_vec(items))
    }

    fn objects(&self, alloc: Global) -> Result<Items<ObjNo>, AllocError> {
        let numbers = numbers_of(alloc, self.objects.as_slice())?;
        Ok(numbers)
    }

    fn links(&self, alloc: Global, assoc: AssocNo) -> Result<Items<(ObjNo, ObjNo)>, AllocError> {
        let pairs = pairs_in(alloc, self.links.as_slice(), assoc)?;
        Ok(Items::from_vec(pairs))
    }

    fn variables(&self, alloc: Global) -> Result<Items<(Text, Variable)>, AllocError> {
        let copies = copies_of(alloc, self.variables.as_slice())?;
        Ok(copies)
    }
}
