ghost use Rattle.std.specs.Prelude.{◌≡◌, ◌<◌, ◌≤◌, ◌^◌, ◌+◌, ◌++◌, IfOk, OnOk, Option, None, Some, is_some, true, slice_get, slice_set};
ghost use Rattle.std.specs.Map.{keys_of};
ghost use Rattle.std.specs.Option.{option_copied, option_map};
ghost use Rattle.object_state.specs.Changes.{with_slot};
ghost use Rattle.object_state.specs.declared.objects.Object.{Object};
ghost use Rattle.object_store.specs.Cells.{cell_in, entries, values_in};
ghost use Rattle.object_store.specs.Pages.{empty_cells, page_cells};

use class_model::AttrNo;
use object_state::{Layout, Object, set_slot};
use ocl_values::Value;
use std::alloc::{AllocError, Global};
use std::marker::Model;
use std::mem;

/// How many cells a page has.
pub(crate) const PAGE: usize = 64;

/// Cells for values whose numbers have one quotient. Contracts see the list of them.
#[derive(Drop)]
pub(crate) struct Page<V> {
    cells: Vec<Option<V>>,
    count: usize,
}

impl<V> Model for Page<V> {
    ghost use Rattle.std.specs.Prelude.{List, Option};
    ghost use Rattle.std.specs.Coded.{coded_list, coded_option};
    ghost use Rattle.object_store.specs.Pages.{IsPage};

    ghost Value = { List (Option V) };

    ghost coded = { coded_list (coded_option V.code) };

    ghost view = { λ p. p.cells.items };

    ghost invariant = { λ p. IsPage p.cells.items p.count };
}

/// Puts another value into a cell that has one, and gives that one.
fn replace_in<V: Drop>(cell: &mut Option<V>, value: V) -> V
    requires { is_some cell.old ≡ true }
    ensures new { cell.new ≡ Some value }
    ensures held { cell.old ≡ Some result }
{
    match cell {
        Some(held) => mem::replace(held, value),
        None => unreachable!(),
    }
}

/// Cells without values.
fn no_cells<V: Drop>(alloc: Global) -> Result<Vec<Option<V>>, AllocError>
    ensures { IfOk result (λ v. v.items ≡ empty_cells 64) }
{
    let mut cells = Vec::with_capacity(alloc, PAGE)?;
    let mut left = PAGE;
    'cells: while left > 0 {
        cells.push(None)?;
        left -= 1;
    }
    Ok(cells)
}

impl<V: Drop> Page<V> {
    pub(crate) fn new(alloc: Global) -> Result<Page<V>, AllocError>
        ensures { IfOk result (λ p. p ≡ empty_cells 64) }
    {
        let cells = no_cells(alloc)?;
        Ok(Page { cells, count: 0 })
    }

    /// Whether no value is left in it.
    pub(crate) fn is_empty(&self) -> bool
        ensures { result ≡ true → self.now ≡ page_cells None }
    {
        if self.count > 0 {
            return false;
        }
        true
    }

    pub(crate) fn get(&self, cell: usize) -> Option<&V>
        requires { cell < 64 }
        ensures { option_copied result ≡ cell_in (slice_get self.now cell) }
    {
        self.cells[cell].as_ref()
    }

    pub(crate) fn put(&mut self, cell: usize, value: V)
        requires within { cell < 64 }
        requires free { cell_in (slice_get self.old cell) ≡ None }
        ensures { self.new ≡ slice_set self.old cell (Some value) }
    {
        self.cells[cell] = Some(value);
        self.count += 1;
    }

    /// Puts another value into a cell that has one, and gives that one.
    pub(crate) fn replace(&mut self, cell: usize, value: V) -> V
        requires within { cell < 64 }
        requires there { is_some (cell_in (slice_get self.old cell)) ≡ true }
        ensures cells { self.new ≡ slice_set self.old cell (Some value) }
        ensures held { cell_in (slice_get self.old cell) ≡ Some result }
    {
        replace_in(&mut self.cells[cell], value)
    }

    fn has(&self, cell: usize) -> bool
        requires { cell < 64 }
        ensures { result ≡ is_some (cell_in (slice_get self.now cell)) }
    {
        self.cells[cell].is_some()
    }

    pub(crate) fn clear(&mut self, cell: usize)
        requires { cell < 64 }
        ensures { self.new ≡ slice_set self.old cell None }
    {
        if self.has(cell) {
            self.cells[cell] = None;
            self.count -= 1;
        }
    }

    /// Adds the numbers of the values, where the first cell has a number.
    pub(crate) fn add_numbers(&self, first: u32, found: &mut Vec<u32>) -> Result<(), AllocError>
        requires { first + 64 ≤ 2 ^ 32 }
        ensures { OnOk result (found.new.items ≡ found.old.items ++ keys_of (entries first self.now)) }
    {
        let mut rest = self.cells.as_slice();
        let mut number = u64::from(first);
        'cells: while let [cell, more @ ..] = rest {
            if cell.is_some() {
                found.push(number as u32)?;
            }
            number += 1;
            rest = more;
        }
        Ok(())
    }
}

impl<V: Copy> Page<V> {
    /// Adds the values, in the order of their cells.
    pub(crate) fn add_values(&self, found: &mut Vec<V>) -> Result<(), AllocError>
        ensures { OnOk result (found.new.items ≡ found.old.items ++ values_in self.now) }
    {
        let mut rest = self.cells.as_slice();
        'cells: while let [cell, more @ ..] = rest {
            if let Some(value) = cell {
                found.push(*value)?;
            }
            rest = more;
        }
        Ok(())
    }
}

/// Stores a value in the object of a cell, where there is one and it has the attribute.
fn set_slot_in(
    alloc: Global,
    layout: &Layout,
    cell: &mut Option<Object>,
    attr: AttrNo,
    value: Value,
)
    ensures { cell.new ≡ option_map (λ x. with_slot layout.now x attr value) cell.old }
{
    if let Some(object) = cell {
        set_slot(alloc, layout, object, attr, value);
    }
}

impl Page<Object> {
    /// Stores a value in the object of a cell, where there is one and it has the attribute.
    pub(crate) fn set_slot(
        &mut self,
        alloc: Global,
        layout: &Layout,
        cell: usize,
        attr: AttrNo,
        value: Value,
    )
        requires { cell < 64 }
        ensures { (c : Option Object) → slice_get self.old cell ≡ Some c → self.new ≡ slice_set self.old cell (option_map (λ x. with_slot layout.now x attr value) c) }
    {
        set_slot_in(alloc, layout, &mut self.cells[cell], attr, value);
    }
}
