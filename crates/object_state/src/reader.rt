ghost use Rattle.std.specs.Prelude.{◌≡◌, length, map, IfOk};
ghost use Rattle.std.specs.Option.{option_copied, option_map};
ghost use Rattle.std.specs.Result.{result_err};
ghost use Rattle.ocl_values.specs.declared.value.Value.TheVariants.{Obj};
ghost use Rattle.object_state.specs.Faults.{OldPartsAgree, fault};
ghost use Rattle.object_state.specs.Looks.{extent, joined, linked_pairs, look, object_numbers};
ghost use Rattle.object_state.specs.State.{object, object_named, stamp_of, variable};
ghost use Rattle.object_state.specs.Valid.{IsValid};
ghost use Rattle.object_state.specs.Weights.{weight};

use crate::fitting::fault;
use crate::looks::look_at;
use crate::{Cell, Change, Layout, Look, Object, StoreFault, Variable};
use class_model::{AssocNo, ClassNo, End};
use ocl_values::{ObjNo, Text, Value};
use std::alloc::{AllocError, Global};
use use_lists::Items;

/// What both stores tell of their state without counting a step.
pub trait StateReader {
    ghost use Rattle.object_state.specs.State.{Diagram};

    /// The state that it holds, with its layout.
    ghost held: { Self → Diagram };

    /// A law: the state is valid.
    fn state_is_valid(&self)
        ensures { IsValid (held self.now).layout (held self.now).state };

    fn layout(&self) -> &Layout
        ensures { result.now ≡ (held self.now).layout };

    /// The object of a number.
    fn object(&self, number: ObjNo) -> Option<&Object>
        ensures { option_copied result ≡ object (held self.now).state number };

    /// The number of the live object of a name.
    fn object_named(&self, name: &str) -> Option<ObjNo>
        ensures { result ≡ object_named (held self.now).state name.now };

    /// The variable of a name.
    fn variable(&self, name: &str) -> Option<&Variable>
        ensures { option_copied result ≡ variable (held self.now).state name.now };

    /// The stamp of the link of two objects.
    fn stamp(&self, assoc: AssocNo, first: ObjNo, second: ObjNo) -> Option<u32>
        ensures { result ≡ stamp_of (held self.now).state assoc first second };

    /// How many objects are live.
    fn object_count(&self) -> usize
        ensures { result ≡ length (held self.now).state.objects };

    /// How many links there are.
    fn link_count(&self) -> usize
        ensures { result ≡ length (held self.now).state.links };

    /// What the state weighs.
    fn weight(&self) -> u64
        ensures { result ≡ weight (held self.now).state };

    /// The numbers of the next object and of the next link's stamp.
    fn counters(&self) -> (u32, u32)
        ensures { result ≡ ((held self.now).state.next_object, (held self.now).state.next_stamp) };

    /// The objects that links of an association join at an end to an object, by stamps.
    fn joined(
        &self,
        alloc: Global,
        assoc: AssocNo,
        end: End,
        from: ObjNo,
    ) -> Result<Items<Value>, AllocError>
        ensures { IfOk result (λ items. items ≡ map Obj (joined (held self.now).state assoc end from)) };

    /// The live objects of a class and its descendants, by number.
    fn objects_of(&self, alloc: Global, class: ClassNo) -> Result<Items<Value>, AllocError>
        ensures { IfOk result (λ items. items ≡ map Obj (extent (held self.now).layout (held self.now).state class)) };

    /// The numbers of the live objects, in their order.
    fn objects(&self, alloc: Global) -> Result<Items<ObjNo>, AllocError>
        ensures { IfOk result (λ items. items ≡ object_numbers (held self.now).state) };

    /// The pairs that an association links, by stamps.
    fn links(&self, alloc: Global, assoc: AssocNo) -> Result<Items<(ObjNo, ObjNo)>, AllocError>
        ensures { IfOk result (λ items. items ≡ linked_pairs (held self.now).state assoc) };

    /// Copies of the variables, in the order of their names.
    fn variables(&self, alloc: Global) -> Result<Items<(Text, Variable)>, AllocError>
        ensures { IfOk result (λ items. items ≡ (held self.now).state.variables) };

    /// The name of a live object.
    final fn name_of(&self, number: ObjNo) -> Option<&str>
        ensures { option_copied result ≡ option_map (λ x. x.name) (object (held self.now).state number) }
    {
        match self.object(number) {
            None => None,
            Some(live) => Some(live.name.as_str()),
        }
    }

    /// Whether a change fits the state, which its old parts agree with; else its first fault.
    final fn fits(&self, change: &Change) -> Result<(), StoreFault>
        requires { OldPartsAgree (held self.now).layout (held self.now).state change.now }
        ensures { result_err result ≡ fault (held self.now).layout (held self.now).state change.now }
    {
        self.state_is_valid();
        match fault(self, change) {
            None => Ok(()),
            Some(found) => Err(found),
        }
    }

    /// What a cell holds.
    final fn look(&self, alloc: Global, cell: &Cell) -> Result<Look, AllocError>
        ensures { IfOk result (λ seen. seen ≡ look (held self.now).layout (held self.now).state cell.now) }
    {
        look_at(alloc, self, cell)
    }
}
