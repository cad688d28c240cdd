ghost use Rattle.std.specs.Prelude.{◌≡◌, IfOk};

use crate::Store;
use crate::text_map::TextMap;
use class_model::{AssocNo, ClassNo, End};
use object_state::{Layout, Object, StateReader, Variable};
use ocl_values::{ObjNo, Text, Value};
use std::alloc::{AllocError, Global};
use use_lists::Items;

/// Copies of the variables, in the order of their names.
fn copies_of(
    alloc: Global,
    variables: &TextMap<Variable>,
) -> Result<Items<(Text, Variable)>, AllocError>
    ensures { IfOk result (λ items. items ≡ variables.now) }
{
    let mut copies = Items::new(alloc);
    'variables: for (text, variable) in variables.values.iter() {
        let name = Text::copy_of(alloc, text.as_str())?;
        copies.push((name, variable.try_copy(alloc)?))?;
    }
    Ok(copies)
}

impl StateReader for Store {
    ghost held = { λ s. s };

    fn state_is_valid(&self) {
        let _ = &self.weight;
    }

    fn layout(&self) -> &Layout {
        self.objects.layout()
    }

    fn object(&self, number: ObjNo) -> Option<&Object> {
        self.objects.get(number)
    }

    fn object_named(&self, name: &str) -> Option<ObjNo> {
        self.objects.named(name)
    }

    fn variable(&self, name: &str) -> Option<&Variable> {
        self.variables.get(name)
    }

    fn stamp(&self, assoc: AssocNo, first: ObjNo, second: ObjNo) -> Option<u32> {
        self.links.stamp(assoc, first, second)
    }

    fn object_count(&self) -> usize {
        self.objects.len()
    }

    fn link_count(&self) -> usize {
        self.links.len()
    }

    fn weight(&self) -> u64 {
        self.weight
    }

    fn counters(&self) -> (u32, u32) {
        (self.next_object, self.next_stamp)
    }

    fn joined(
        &self,
        alloc: Global,
        assoc: AssocNo,
        end: End,
        object: ObjNo,
    ) -> Result<Items<Value>, AllocError> {
        let items = self.links.joined(alloc, assoc, end, object)?;
        Ok(Items::from_vec(items))
    }

    fn objects_of(&self, alloc: Global, class: ClassNo) -> Result<Items<Value>, AllocError> {
        let items = self.objects.of_class(alloc, class)?;
        Ok(Items::from_vec(items))
    }

    fn objects(&self, alloc: Global) -> Result<Items<ObjNo>, AllocError> {
        let numbers = self.objects.numbers(alloc)?;
        Ok(Items::from_vec(numbers))
    }

    fn links(&self, alloc: Global, assoc: AssocNo) -> Result<Items<(ObjNo, ObjNo)>, AllocError> {
        let pairs = self.links.pairs(alloc, assoc)?;
        Ok(Items::from_vec(pairs))
    }

    fn variables(&self, alloc: Global) -> Result<Items<(Text, Variable)>, AllocError> {
        copies_of(alloc, &self.variables)
    }
}
