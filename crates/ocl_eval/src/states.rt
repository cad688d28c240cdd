ghost use Rattle.std.specs.Prelude.{◌≡◌, ◌+◌, IfOk};
ghost use Rattle.object_state.specs.declared.cell.Cell.TheVariants.{Kind, Slot, Nav, Extent};
ghost use Rattle.object_state.specs.declared.cell.Look.TheVariants as look;
ghost use Rattle.object_state.specs.Looks.{IsWellMadeLook, class_look, items_look, value_look};
ghost use Rattle.ocl_eval.specs.Scenes.{seen};

use class_model::{AssocNo, AttrNo, ClassNo, End};
use object_state::World;
use ocl_core::When;
use ocl_values::{ObjNo, Value};
use std::alloc::{AllocError, Global};
use std::sync::ledger::Ledger;
use use_lists::Items;
use use_steps::Steps;

/// The state now and the state at entry, and a counter of steps. Each look counts one step.
pub(crate) trait States<S> {
    ghost use Rattle.std.specs.Prelude.{ℕ};
    ghost use Rattle.object_state.specs.declared.cell.Cell.{Cell};
    ghost use Rattle.object_state.specs.declared.cell.Look.{Look};

    /// What each cell holds now.
    ghost now: { Self → Cell → Look };

    /// What each cell held at entry.
    ghost pre: { Self → Cell → Look };

    /// How many steps were counted.
    ghost count: { S → ℕ };

    /// Counts so many steps.
    fn tick_by(&self, number: u64, steps: &mut S)
        ensures { count steps.new ≡ count steps.old + number };

    /// The class of an object.
    fn kind(&self, when: When, object: ObjNo, steps: &mut S) -> Option<ClassNo>
        ensures seen { class_look result ≡ seen (now self.now) (pre self.now) when (Kind object) }
        ensures counted { count steps.new ≡ count steps.old + 1 };

    /// The value of an attribute of an object.
    fn slot(
        &self,
        alloc: Global,
        when: When,
        object: ObjNo,
        attr: AttrNo,
        steps: &mut S,
    ) -> Result<Option<Value>, AllocError>
        ensures seen { IfOk result (λ value. value_look value ≡ seen (now self.now) (pre self.now) when (Slot object attr)) }
        ensures well_made { IfOk result (λ value. IsWellMadeLook (value_look value)) }
        ensures counted { count steps.new ≡ count steps.old + 1 };

    /// The objects at an end of an object.
    fn nav(
        &self,
        alloc: Global,
        when: When,
        assoc: AssocNo,
        end: End,
        object: ObjNo,
        steps: &mut S,
    ) -> Result<Option<Items<Value>>, AllocError>
        ensures seen { IfOk result (λ items. items_look items ≡ seen (now self.now) (pre self.now) when (Nav assoc end object)) }
        ensures well_made { IfOk result (λ items. IsWellMadeLook (items_look items)) }
        ensures counted { count steps.new ≡ count steps.old + 1 };

    /// The live objects of a class and its descendants.
    fn extent(
        &self,
        alloc: Global,
        when: When,
        class: ClassNo,
        steps: &mut S,
    ) -> Result<Items<Value>, AllocError>
        ensures seen { IfOk result (λ items. look.Items items ≡ seen (now self.now) (pre self.now) when (Extent class)) }
        ensures well_made { IfOk result (λ items. IsWellMadeLook (look.Items items)) }
        ensures counted { count steps.new ≡ count steps.old + 1 };
}

/// Two worlds that count with the same counter.
#[derive(Drop)]
pub(crate) struct TwoWorlds<'a, W, P> {
    pub(crate) now: &'a W,
    pub(crate) pre: &'a P,
}

impl<L: Ledger, W: World<L>, P: World<L>> States<Steps<L>> for TwoWorlds<'_, W, P> {
    ghost now = { λ s. W.picture s.now.now };

    ghost pre = { λ s. P.picture s.pre.now };

    ghost count = { λ steps. steps };

    fn tick_by(&self, number: u64, steps: &mut Steps<L>) {
        steps.tick_by(number);
    }

    fn kind(&self, when: When, object: ObjNo, steps: &mut Steps<L>) -> Option<ClassNo> {
        match when {
            When::Now => self.now.kind(object, steps),
            When::Pre => self.pre.kind(object, steps),
        }
    }

    fn slot(
        &self,
        alloc: Global,
        when: When,
        object: ObjNo,
        attr: AttrNo,
        steps: &mut Steps<L>,
    ) -> Result<Option<Value>, AllocError> {
        match when {
            When::Now => self.now.slot(alloc, object, attr, steps),
            When::Pre => self.pre.slot(alloc, object, attr, steps),
        }
    }

    fn nav(
        &self,
        alloc: Global,
        when: When,
        assoc: AssocNo,
        end: End,
        object: ObjNo,
        steps: &mut Steps<L>,
    ) -> Result<Option<Items<Value>>, AllocError> {
        match when {
            When::Now => self.now.nav(alloc, assoc, end, object, steps),
            When::Pre => self.pre.nav(alloc, assoc, end, object, steps),
        }
    }

    fn extent(
        &self,
        alloc: Global,
        when: When,
        class: ClassNo,
        steps: &mut Steps<L>,
    ) -> Result<Items<Value>, AllocError> {
        match when {
            When::Now => self.now.extent(alloc, class, steps),
            When::Pre => self.pre.extent(alloc, class, steps),
        }
    }
}
