ghost use Rattle.std.specs.Prelude.{◌≡◌, [], OnOk, OnErr, IfOk, IfSome};
ghost use Rattle.std.specs.List.Sorted.{IsStrictlySortedBy};
ghost use Rattle.std.specs.Map.{keys_of};
ghost use Rattle.std.specs.Option.{is_some, option_copied};
ghost use Rattle.object_state.specs.Looks.{look};
ghost use Rattle.object_state.specs.Touched.{cell_cmp};
ghost use Rattle.entry_states.specs.Overlays.{CanHold, merged, saved_of, with_looks, with_saved};

use crate::looks::copy_look;
use object_state::{Cell, Cells, Look, StateReader};
use std::alloc::{AllocError, Global};
use std::collections::BTreeMap;
use std::marker::Model;

/// What some cells held before they were altered. Of each cell, what was saved first is kept.
#[derive(Debug, Drop)]
pub struct Overlay {
    looks: BTreeMap<Cell, Look>,
}

impl Model for Overlay {
    ghost use Rattle.std.specs.Prelude.{List};
    ghost use Rattle.std.specs.Coded.{codes};
    ghost use Rattle.ocl_values.specs.contracts.value.Value as values;
    ghost use Rattle.object_state.specs.declared.cell.Cell.{Cell};
    ghost use Rattle.object_state.specs.declared.cell.Look.{Look};
    ghost use Rattle.entry_states.specs.Overlays.{CanBeHeld};

    ghost Value = { List (Cell × Look) };

    ghost coded = { Prim.hlevel (codes, values.the_row.coded) };

    ghost view = { λ o. o.looks.entries };

    ghost invariant = { λ o. CanBeHeld o.looks.entries };
}

impl Overlay {
    pub fn new(alloc: Global) -> Overlay
        ensures { result ≡ [] }
    {
        Overlay {
            looks: BTreeMap::new(alloc),
        }
    }

    /// What was saved of a cell.
    pub(crate) fn get(&self, cell: &Cell) -> Option<&Look>
        ensures saved { option_copied result ≡ saved_of self.now cell.now }
        ensures can_hold { IfSome result (λ old. CanHold cell.now old.now) }
    {
        self.looks.get(cell)
    }

    fn has(&self, cell: &Cell) -> bool
        ensures { result ≡ is_some (saved_of self.now cell.now) }
    {
        self.looks.contains_key(cell)
    }

    /// Saves what a cell held, unless something is saved of it.
    pub fn save(&mut self, cell: Cell, old: Look) -> Result<(), AllocError>
        requires { CanHold cell old }
        ensures ok { OnOk result (self.new ≡ with_saved self.old cell old) }
        ensures err { OnErr result (self.new ≡ self.old) }
    {
        if !self.has(&cell) {
            self.looks.insert(cell, old)?;
        }
        Ok(())
    }

    /// Saves in another overlay what it lacks.
    pub fn merge_into(self, parent: &mut Overlay) -> Result<(), AllocError>
        ensures { OnOk result (parent.new ≡ merged parent.old self) }
    {
        let Overlay { looks } = self;
        'merge: for (cell, old) in looks {
            parent.save(cell, old)?;
        }
        Ok(())
    }

    /// Saves in another overlay copies of what it lacks.
    pub(crate) fn merge_copy_into(
        &self,
        alloc: Global,
        parent: &mut Overlay,
    ) -> Result<(), AllocError>
        ensures merged { OnOk result (parent.new ≡ merged parent.old self.now) }
        ensures ordered { IsStrictlySortedBy cell_cmp (keys_of self.now) }
    {
        'merge: for (cell, old) in self.looks.iter() {
            if !parent.has(cell) {
                parent.save(*cell, copy_look(alloc, old)?)?;
            }
        }
        Ok(())
    }

    /// An equal overlay.
    pub fn try_copy(&self, alloc: Global) -> Result<Overlay, AllocError>
        ensures { IfOk result (λ o. o ≡ self.now) }
    {
        let mut copy = Overlay::new(alloc);
        self.merge_copy_into(alloc, &mut copy)?;
        Ok(copy)
    }

    /// Saves what a cell holds, unless something is saved of it.
    fn note_cell<S: StateReader>(
        &mut self,
        alloc: Global,
        store: &S,
        cell: &Cell,
    ) -> Result<(), AllocError>
        ensures { OnOk result (self.new ≡ with_saved self.old cell.now (look (S.held store.now).layout (S.held store.now).state cell.now)) }
    {
        store.state_is_valid();
        if self.has(cell) {
            return Ok(());
        }
        let held = store.look(alloc, cell)?;
        self.save(*cell, held)
    }

    /// Saves what some cells hold, but for those of which something is saved.
    pub(crate) fn note<S: StateReader>(
        &mut self,
        alloc: Global,
        store: &S,
        cells: &Cells,
    ) -> Result<(), AllocError>
        ensures { OnOk result (self.new ≡ with_looks self.old cells.now (look (S.held store.now).layout (S.held store.now).state)) }
    {
        'note: for cell in cells.iter() {
            self.note_cell(alloc, store, cell)?;
        }
        Ok(())
    }
}
