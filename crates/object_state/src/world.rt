ghost use Rattle.std.specs.Prelude.{◌≡◌, ◌+◌, IfOk};
ghost use Rattle.object_state.specs.declared.cell.Cell.TheVariants.{Kind, Slot, Nav, Extent};
ghost use Rattle.object_state.specs.declared.cell.Look.TheVariants as look;
ghost use Rattle.object_state.specs.Looks.{IsWellMadeLook, class_look, items_look, value_look};

use class_model::{AssocNo, AttrNo, ClassNo, End};
use ocl_values::{ObjNo, Value};
use std::alloc::{AllocError, Global};
use std::sync::ledger::Ledger;
use use_lists::Items;
use use_steps::Steps;

/// What an evaluation looks at. Each call counts one step, whatever it answers.
pub trait World<L: Ledger> {
    ghost use Rattle.object_state.specs.declared.cell.Cell.{Cell};
    ghost use Rattle.object_state.specs.declared.cell.Look.{Look};

    /// What each cell holds.
    ghost picture: { Self → Cell → Look };

    /// The class of an object.
    fn kind(&self, object: ObjNo, steps: &mut Steps<L>) -> Option<ClassNo>
        ensures seen { class_look result ≡ picture self.now (Kind object) }
        ensures counted { steps.new ≡ steps.old + 1 };

    /// The value of an attribute of an object.
    fn slot(
        &self,
        alloc: Global,
        object: ObjNo,
        attr: AttrNo,
        steps: &mut Steps<L>,
    ) -> Result<Option<Value>, AllocError>
        ensures seen { IfOk result (λ value. value_look value ≡ picture self.now (Slot object attr)) }
        ensures well_made { IfOk result (λ value. IsWellMadeLook (value_look value)) }
        ensures counted { steps.new ≡ steps.old + 1 };

    /// The objects at an end of an object.
    fn nav(
        &self,
        alloc: Global,
        assoc: AssocNo,
        end: End,
        object: ObjNo,
        steps: &mut Steps<L>,
    ) -> Result<Option<Items<Value>>, AllocError>
        ensures seen { IfOk result (λ items. items_look items ≡ picture self.now (Nav assoc end object)) }
        ensures well_made { IfOk result (λ items. IsWellMadeLook (items_look items)) }
        ensures counted { steps.new ≡ steps.old + 1 };

    /// The live objects of a class and its descendants.
    fn extent(
        &self,
        alloc: Global,
        class: ClassNo,
        steps: &mut Steps<L>,
    ) -> Result<Items<Value>, AllocError>
        ensures seen { IfOk result (λ items. look.Items items ≡ picture self.now (Extent class)) }
        ensures well_made { IfOk result (λ items. IsWellMadeLook (look.Items items)) }
        ensures counted { steps.new ≡ steps.old + 1 };
}
