ghost use Rattle.std.specs.Prelude.{◌≡◌, [], OnOk, OnErr};
ghost use Rattle.std.specs.BTreeSet.{insert_key};
ghost use Rattle.object_state.specs.Touched.{cell_cmp, has_cell};

use crate::Cell;
use std::alloc::{AllocError, Global};
use std::collections::BTreeSet;
use std::collections::btree_set::Iter;
use std::marker::Model;

/// A set of cells. Contracts see the list of them in the order of cells.
#[derive(Debug, Drop)]
pub struct Cells {
    cells: BTreeSet<Cell>,
}

impl Model for Cells {
    ghost use Rattle.std.specs.Prelude.{List};
    ghost use Rattle.object_state.specs.declared.cell.Cell.{Cell};

    ghost Value = { List Cell };

    ghost view = { λ c. c.cells.keys };
}

impl Cells {
    pub fn new(alloc: Global) -> Cells
        ensures { result ≡ [] }
    {
        Cells {
            cells: BTreeSet::new(alloc),
        }
    }

    pub fn add(&mut self, cell: Cell) -> Result<(), AllocError>
        ensures ok { OnOk result (self.new ≡ insert_key cell_cmp self.old cell) }
        ensures err { OnErr result (self.new ≡ self.old) }
    {
        self.cells.insert(cell)?;
        Ok(())
    }

    pub fn has(&self, cell: &Cell) -> bool
        ensures { result ≡ has_cell self.now cell.now }
    {
        self.cells.contains(cell)
    }

    /// The cells in their order.
    pub fn iter(&self) -> Iter<'_, Cell>
        ensures { result ≡ self.now }
    {
        self.cells.iter()
    }
}
