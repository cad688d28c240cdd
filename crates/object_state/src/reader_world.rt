use crate::looks::{class_of, items_at, value_of};
use crate::{StateReader, World};
use class_model::{AssocNo, AttrNo, ClassNo, End};
use ocl_values::{ObjNo, Value};
use std::alloc::{AllocError, Global};
use std::sync::ledger::Ledger;
use use_lists::Items;
use use_steps::Steps;

/// An evaluation looks at the state that a store holds.
impl<L: Ledger, S: StateReader> World<L> for S {
    ghost use Rattle.object_state.specs.Looks.{look};

    ghost picture = { λ s cell. look (S.held s).layout (S.held s).state cell };

    fn kind(&self, object: ObjNo, steps: &mut Steps<L>) -> Option<ClassNo> {
        steps.tick();
        class_of(self, object)
    }

    fn slot(
        &self,
        alloc: Global,
        object: ObjNo,
        attr: AttrNo,
        steps: &mut Steps<L>,
    ) -> Result<Option<Value>, AllocError> {
        steps.tick();
        self.state_is_valid();
        let value = value_of(alloc, self, object, attr)?;
        Ok(value)
    }

    fn nav(
        &self,
        alloc: Global,
        assoc: AssocNo,
        end: End,
        object: ObjNo,
        steps: &mut Steps<L>,
    ) -> Result<Option<Items<Value>>, AllocError> {
        steps.tick();
        self.state_is_valid();
        let items = items_at(alloc, self, assoc, end, object)?;
        Ok(items)
    }

    fn extent(
        &self,
        alloc: Global,
        class: ClassNo,
        steps: &mut Steps<L>,
    ) -> Result<Items<Value>, AllocError> {
        steps.tick();
        self.state_is_valid();
        let items = self.objects_of(alloc, class)?;
        Ok(items)
    }
}
