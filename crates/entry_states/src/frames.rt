ghost use Rattle.std.specs.Prelude.{◌≡◌, [], ◌∷◌, ◌<◌, ◌-◌, ◌≤◌, ◌^◌, length, slice_get, drop, OnOk, OnErr, IfOk, IfSome, MatchOption};
ghost use Rattle.std.specs.Option.{option_copied};
ghost use Rattle.object_state.specs.Changes.{apply};
ghost use Rattle.object_state.specs.Faults.{Fits};
ghost use Rattle.object_state.specs.Looks.{look};
ghost use Rattle.entry_states.specs.Frames.{Grown, IsCoveredByTop, TopHas, altered_by, entered, left, noted, saved_within};
ghost use Rattle.entry_states.specs.Overlays.{CanHold, Picture, laid_over, with_looks};

use crate::{Frame, Overlay};
use object_state::{Cell, Cells, Change, Layout, Look, StateReader, touched};
use std::alloc::{AllocError, Global};
use std::marker::Model;

/// The frames that are open. Contracts see the top one first.
#[derive(Debug, Drop)]
pub struct Frames {
    frames: Vec<Frame>,
}

impl Model for Frames {
    ghost use Rattle.std.specs.Prelude.{◌<◌, ◌^◌, List, length, reverse};
    ghost use Rattle.std.specs.Coded.{codes};
    ghost use Rattle.ocl_values.specs.contracts.value.Value as values;
    ghost use Rattle.entry_states.specs.declared.frame.Frame.{Frame};

    ghost Value = { List Frame };

    ghost coded = { Prim.hlevel (codes, values.the_row.coded) };

    ghost view = { λ f. reverse f.frames.items };

    ghost invariant = { λ f. length f.frames.items < 2 ^ 32 };
}

/// The cells that a change alters.
fn altered_by(alloc: Global, layout: &Layout, change: &Change) -> Result<Cells, AllocError>
    requires { length layout.now.assocs < 2 ^ 32 }
    ensures { IfOk result (λ cells. cells ≡ altered_by layout.now change.now) }
{
    let mut cells = Cells::new(alloc);
    touched(layout, change, &mut cells)?;
    Ok(cells)
}

/// Saves what the cells hold that a change is to alter.
fn note_change<S: StateReader>(
    alloc: Global,
    store: &S,
    change: &Change,
    overlay: &mut Overlay,
) -> Result<(), AllocError>
    requires { length (S.held store.now).layout.assocs < 2 ^ 32 }
    ensures { OnOk result (overlay.new ≡ with_looks overlay.old (altered_by (S.held store.now).layout change.now) (look (S.held store.now).layout (S.held store.now).state)) }
{
    let cells = altered_by(alloc, store.layout(), change)?;
    overlay.note(alloc, store, &cells)
}

impl Frames {
    pub fn new(alloc: Global) -> Frames
        ensures { result ≡ [] }
    {
        Frames {
            frames: Vec::new(alloc),
        }
    }

    /// How many frames are open.
    pub fn depth(&self) -> u32
        ensures { result ≡ length self.now }
    {
        self.frames.len() as u32
    }

    pub fn top(&self) -> Option<&Frame>
        ensures { option_copied result ≡ slice_get self.now 0 }
    {
        self.frames.last()
    }

    /// The frame at a level, counted from 0 at the bottom.
    pub fn frame_at(&self, level: u32) -> Option<&Frame>
        ensures { MatchOption result (length self.now ≤ level) (λ f. slice_get self.now (length self.now - 1 - level) ≡ Some f.now) }
    {
        self.frames.get(level as usize)
    }

    /// The frame at a level where one is.
    fn at(&self, level: u32) -> &Frame
        requires { level < length self.now }
        ensures { slice_get self.now (length self.now - 1 - level) ≡ Some result.now }
    {
        &self.frames[level as usize]
    }

    /// What was saved of a cell by the frames from a level on, as the lowest of them has it.
    pub(crate) fn saved(&self, level: u32, cell: &Cell) -> Option<&Look>
        requires { level < length self.now }
        ensures saved { option_copied result ≡ saved_within self.now (length self.now - level) cell.now }
        ensures can_hold { IfSome result (λ old. CanHold cell.now old.now) }
    {
        let mut found = None;
        let mut i = self.depth();
        'down: while i > level {
            i -= 1;
            found = self.at(i).overlay.get(cell).or(found);
        }
        found
    }

    /// Makes a frame the top one.
    pub fn push(&mut self, frame: Frame) -> Result<(), AllocError>
        requires { length self.old < 2 ^ 32 - 1 }
        ensures ok { OnOk result (self.new ≡ frame ∷ self.old) }
        ensures keeps { OnOk result ((q : Picture) → IsCoveredByTop self.old frame.overlay q → entered self.new q ≡ (frame.call, laid_over frame.overlay q) ∷ entered self.old q) }
        ensures err { OnErr result (self.new ≡ self.old) }
    {
        self.frames.push(frame)?;
        Ok(())
    }

    /// Takes the top frame out, as if its call had never been entered.
    pub fn pop(&mut self) -> Option<Frame>
        ensures taken { MatchOption result ((self.old ≡ []) × (self.new ≡ [])) (λ f. self.old ≡ f ∷ self.new) }
        ensures keeps { IfSome result (λ f. (q : Picture) → laid_over f.overlay q ≡ q → entered self.old q ≡ (f.call, q) ∷ entered self.new q) }
    {
        self.frames.pop()
    }

    /// Takes the top frame out, as when its call returns. What it saved is then saved in the frame
    /// below, where there is one.
    pub fn leave_top(&mut self, alloc: Global) -> Result<Option<Frame>, AllocError>
        ensures frame { IfOk result (λ f. f ≡ slice_get self.old 0) }
        ensures stay { OnOk result (self.new ≡ left self.old) }
        ensures keeps { OnOk result ((q : Picture) → entered self.new q ≡ drop 1 (entered self.old q)) }
        ensures grown { OnOk result (Grown (drop 1 self.old) self.new) }
        ensures has { IfOk result (λ f. IfSome f (λ f. TopHas self.new f.overlay)) }
    {
        let Some(top) = self.frames.pop() else {
            return Ok(None);
        };
        let Some(below) = self.frames.last_mut() else {
            return Ok(Some(top));
        };
        top.overlay.merge_copy_into(alloc, &mut below.overlay)?;
        Ok(Some(top))
    }

    /// Saves in the top frame what the cells hold that a change is to alter. It is called before the
    /// change is carried out.
    pub fn note<S: StateReader>(
        &mut self,
        alloc: Global,
        store: &S,
        change: &Change,
    ) -> Result<(), AllocError>
        requires few { length (S.held store.now).layout.assocs < 2 ^ 32 }
        requires fits { Fits (S.held store.now).layout (S.held store.now).state change.now }
        ensures noted { OnOk result (self.new ≡ noted self.old (altered_by (S.held store.now).layout change.now) (look (S.held store.now).layout (S.held store.now).state)) }
        ensures keeps { OnOk result (entered self.new (look (S.held store.now).layout (apply (S.held store.now).layout (S.held store.now).state change.now))
            ≡ entered self.old (look (S.held store.now).layout (S.held store.now).state)) }
        ensures grown { OnOk result (Grown self.old self.new) }
    {
        store.state_is_valid();
        let Some(top) = self.frames.last_mut() else {
            return Ok(());
        };
        note_change(alloc, store, change, &mut top.overlay)?;
        Ok(())
    }
}
