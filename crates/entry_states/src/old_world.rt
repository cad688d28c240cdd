ghost use Rattle.std.specs.Prelude.{◌≡◌, ◌<◌, ◌-◌, Some, length, slice_get};
ghost use Rattle.std.specs.Option.{option_map};
ghost use Rattle.object_state.specs.Looks.{look};
ghost use Rattle.entry_states.specs.Frames.{entered, shown};

use crate::Frames;
use crate::looks::{class_in, extent_in, items_in, value_in};
use class_model::{AssocNo, AttrNo, ClassNo, End};
use object_state::{Cell, StateReader, World};
use ocl_values::{ObjNo, Value};
use std::alloc::{AllocError, Global};
use std::sync::ledger::Ledger;
use use_lists::Items;
use use_steps::Steps;

/// What there was when a frame was entered that is still open.
#[derive(Drop)]
pub struct OldWorld<'a, S> {
    now: &'a S,
    frames: &'a Frames,
    level: u32,
    ghost is_open: { level < length frames.now },
}

impl<'a, S: StateReader> OldWorld<'a, S> {
    /// The level of the frame is counted from 0 at the bottom.
    pub fn new(now: &'a S, frames: &'a Frames, level: u32) -> OldWorld<'a, S>
        requires { level < length frames.now }
        ensures now { result.now.now ≡ now.now }
        ensures frames { result.frames.now ≡ frames.now }
        ensures level { result.level ≡ level }
        ensures picture { option_map (λ e. e.1) (slice_get (entered frames.now (look (S.held now.now).layout (S.held now.now).state)) (length frames.now - 1 - level))
            ≡ Some (shown frames.now (length frames.now - level) (look (S.held now.now).layout (S.held now.now).state)) }
    {
        OldWorld { now, frames, level }
    }
}

/// An evaluation looks at the state at entry.
impl<'a, L: Ledger, S: StateReader> World<L> for OldWorld<'a, S> {
    ghost picture = { λ w. shown w.frames.now (length w.frames.now - w.level) (look (S.held w.now.now).layout (S.held w.now.now).state) };

    fn kind(&self, object: ObjNo, steps: &mut Steps<L>) -> Option<ClassNo> {
        match self.frames.saved(self.level, &Cell::Kind(object)) {
            None => self.now.kind(object, steps),
            Some(old) => {
                steps.tick();
                class_in(old)
            }
        }
    }

    fn slot(
        &self,
        alloc: Global,
        object: ObjNo,
        attr: AttrNo,
        steps: &mut Steps<L>,
    ) -> Result<Option<Value>, AllocError> {
        match self.frames.saved(self.level, &Cell::Slot(object, attr)) {
            None => self.now.slot(alloc, object, attr, steps),
            Some(old) => {
                steps.tick();
                value_in(alloc, old)
            }
        }
    }

    fn nav(
        &self,
        alloc: Global,
        assoc: AssocNo,
        end: End,
        object: ObjNo,
        steps: &mut Steps<L>,
    ) -> Result<Option<Items<Value>>, AllocError> {
        match self
            .frames
            .saved(self.level, &Cell::Nav(assoc, end, object))
        {
            None => self.now.nav(alloc, assoc, end, object, steps),
            Some(old) => {
                steps.tick();
                items_in(alloc, old)
            }
        }
    }

    fn extent(
        &self,
        alloc: Global,
        class: ClassNo,
        steps: &mut Steps<L>,
    ) -> Result<Items<Value>, AllocError> {
        match self.frames.saved(self.level, &Cell::Extent(class)) {
            None => self.now.extent(alloc, class, steps),
            Some(old) => {
                steps.tick();
                extent_in(alloc, old)
            }
        }
    }
}
