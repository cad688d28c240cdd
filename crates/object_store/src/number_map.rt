ghost use Rattle.std.specs.Prelude.{◌≡◌, ◌<◌, ◌≤◌, ◌^◌, ◌+◌, ◌*◌, [], ◌∷◌, ◌++◌, drop, IfOk, OnOk, OnErr, Option, None, Some, is_some, true, length, map, slice_get, slice_set};
ghost use Rattle.std.specs.BTreeMap.{insert_entry, is_at};
ghost use Rattle.std.specs.Map.{keys_of, lookup, remove_entry, set_value};
ghost use Rattle.std.specs.Option.{option_copied, option_map, option_map_or};
ghost use Rattle.std.specs.Ordering.{nat_cmp};
ghost use Rattle.object_state.specs.Changes.{with_slot};
ghost use Rattle.object_state.specs.declared.objects.Object.{Object};
ghost use Rattle.object_store.specs.Cells.{cell_in, entries, values_in};
ghost use Rattle.object_store.specs.Indexes.{object_in};
ghost use Rattle.object_store.specs.Pages.{AreWhole, all_cells, empty_cells, page_cells};

use crate::page::{PAGE, Page};
use class_model::AttrNo;
use object_state::{Layout, Object};
use ocl_values::{ObjNo, Value};
use std::alloc::{AllocError, Global};
use std::marker::Model;

/// Values by numbers that are given one after the other: a look takes the same time for any number of
/// them. A page without values is given back. Contracts see the list of its entries in the order of the
/// numbers.
#[derive(Drop)]
pub(crate) struct NumberMap<V> {
    pages: Vec<Option<Page<V>>>,
    count: usize,
}

impl<V> Model for NumberMap<V> {
    ghost use Rattle.std.specs.Prelude.{List, ℕ};
    ghost use Rattle.std.specs.Coded.{coded_list, coded×, coded_ℕ};
    ghost use Rattle.object_store.specs.Cells.{entries};
    ghost use Rattle.object_store.specs.Pages.{ArePaged, all_cells};

    ghost Value = { List (ℕ × V) };

    ghost coded = { coded_list (coded× coded_ℕ V.code) };

    ghost view = { λ m. entries 0 (all_cells m.pages.items) };

    ghost invariant = { λ m. ArePaged m.pages.items m.count };
}

/// The page of a number, and its cell there.
fn place(number: u32) -> (usize, usize)
    ensures whole { number ≡ result.0 * 64 + result.1 }
    ensures small { result.1 < 64 }
    ensures few { result.0 < 2 ^ 26 }
{
    (number as usize / PAGE, number as usize % PAGE)
}

/// Adds places for pages until there is one.
fn grow<V: Drop>(pages: &mut Vec<Option<Page<V>>>, page: usize) -> Result<(), AllocError>
    requires few { page < 2 ^ 26 }
    requires long { length pages.old.items ≤ 2 ^ 26 }
    requires whole { AreWhole pages.old.items }
    ensures same { entries 0 (all_cells pages.new.items) ≡ entries 0 (all_cells pages.old.items) }
    ensures there { OnOk result (page < length pages.new.items) }
    ensures long { length pages.new.items ≤ 2 ^ 26 }
    ensures whole { AreWhole pages.new.items }
{
    'grow: while pages.len() <= page {
        pages.push(None)?;
    }
    Ok(())
}

/// The page at a place, which is made if there is none.
fn make<V: Drop>(alloc: Global, page: &mut Option<Page<V>>) -> Result<(), AllocError>
    ensures same { page_cells page.new ≡ page_cells page.old }
    ensures there { OnOk result (is_some page.new ≡ true) }
{
    if page.is_none() {
        *page = Some(Page::new(alloc)?);
    }
    Ok(())
}

/// Adds the numbers of the values of a page, where its first cell has a number.
fn add_numbers<V: Drop>(
    page: &Option<Page<V>>,
    first: u32,
    found: &mut Vec<u32>,
) -> Result<(), AllocError>
    requires { first + 64 ≤ 2 ^ 32 }
    ensures { OnOk result (found.new.items ≡ found.old.items ++ keys_of (entries first (page_cells page.now))) }
{
    match page {
        Some(page) => page.add_numbers(first, found),
        None => Ok(()),
    }
}

fn page_at<V>(pages: &[Option<Page<V>>], page: usize) -> &Option<Page<V>>
    requires { page < length pages.now }
    ensures { drop page pages.now ≡ result.now ∷ drop (page + 1) pages.now }
{
    &pages[page]
}

/// The numbers of the values of pages, in their order.
fn all_numbers<V: Drop>(alloc: Global, pages: &[Option<Page<V>>]) -> Result<Vec<u32>, AllocError>
    requires whole { AreWhole pages.now }
    requires few { length pages.now ≤ 2 ^ 26 }
    ensures { IfOk result (λ v. v.items ≡ keys_of (entries 0 (all_cells pages.now))) }
{
    let mut found = Vec::new(alloc);
    let mut page = 0;
    'pages: while page < pages.len() {
        add_numbers(page_at(pages, page), (page * PAGE) as u32, &mut found)?;
        page += 1;
    }
    Ok(found)
}

/// Adds the values of a page.
fn add_values<V: Copy>(page: &Option<Page<V>>, found: &mut Vec<V>) -> Result<(), AllocError>
    ensures { OnOk result (found.new.items ≡ found.old.items ++ values_in (page_cells page.now)) }
{
    match page {
        Some(page) => page.add_values(found),
        None => Ok(()),
    }
}

/// The values of pages, in the order of their numbers.
fn all_values<V: Copy>(alloc: Global, pages: &[Option<Page<V>>]) -> Result<Vec<V>, AllocError>
    ensures { IfOk result (λ v. v.items ≡ values_in (all_cells pages.now)) }
{
    let mut found = Vec::new(alloc);
    let mut page = 0;
    'pages: while page < pages.len() {
        add_values(page_at(pages, page), &mut found)?;
        page += 1;
    }
    Ok(found)
}

/// Puts a value into a cell of a page that is there.
fn put<V: Drop>(page: &mut Option<Page<V>>, cell: usize, value: V)
    requires there { is_some page.old ≡ true }
    requires within { cell < 64 }
    requires free { cell_in (slice_get (page_cells page.old) cell) ≡ None }
    ensures { page_cells page.new ≡ slice_set (page_cells page.old) cell (Some value) }
{
    match page {
        Some(page) => page.put(cell, value),
        None => unreachable!(),
    }
}

/// Puts a value into a cell of a page, which is made if there is none.
fn fill<V: Drop>(
    alloc: Global,
    page: &mut Option<Page<V>>,
    cell: usize,
    value: V,
) -> Result<(), AllocError>
    requires within { cell < 64 }
    requires free { cell_in (slice_get (page_cells page.old) cell) ≡ None }
    ensures ok { OnOk result (page_cells page.new ≡ slice_set (page_cells page.old) cell (Some value)) }
    ensures err { OnErr result (page_cells page.new ≡ page_cells page.old) }
{
    make(alloc, page)?;
    put(page, cell, value);
    Ok(())
}

/// Puts another value into a cell of a page that has one, and gives that one.
fn replace_at<V: Drop>(page: &mut Option<Page<V>>, cell: usize, value: V) -> V
    requires within { cell < 64 }
    requires there { is_some (cell_in (slice_get (page_cells page.old) cell)) ≡ true }
    ensures cells { page_cells page.new ≡ slice_set (page_cells page.old) cell (Some value) }
    ensures held { cell_in (slice_get (page_cells page.old) cell) ≡ Some result }
{
    match page {
        Some(page) => page.replace(cell, value),
        None => unreachable!(),
    }
}

/// Clears a cell of a page, and tells whether no value is left in it.
fn clear_cell<V: Drop>(page: &mut Option<Page<V>>, cell: usize) -> bool
    requires { cell < 64 }
    ensures cells { page_cells page.new ≡ slice_set (page_cells page.old) cell None }
    ensures empty { result ≡ true → page_cells page.new ≡ empty_cells 64 }
{
    match page {
        Some(page) => {
            page.clear(cell);
            page.is_empty()
        }
        None => true,
    }
}

/// Clears a cell of a page, and gives the page back where no value is left in it.
fn clear<V: Drop>(page: &mut Option<Page<V>>, cell: usize)
    requires { cell < 64 }
    ensures { page_cells page.new ≡ slice_set (page_cells page.old) cell None }
{
    if clear_cell(page, cell) {
        *page = None;
    }
}

impl<V: Drop> NumberMap<V> {
    pub(crate) fn new(alloc: Global) -> NumberMap<V>
        ensures { result ≡ [] }
    {
        NumberMap {
            pages: Vec::new(alloc),
            count: 0,
        }
    }

    pub(crate) fn len(&self) -> usize
        ensures { result ≡ length self.now }
    {
        self.count
    }

    /// The value of a number.
    pub(crate) fn get(&self, number: u32) -> Option<&V>
        ensures { option_copied result ≡ lookup (is_at (nat_cmp number)) self.now }
    {
        let (page, cell) = place(number);
        match self.pages.get(page) {
            None => None,
            Some(page) => match page {
                None => None,
                Some(page) => page.get(cell),
            },
        }
    }

    /// The numbers, in their order.
    pub(crate) fn numbers(&self, alloc: Global) -> Result<Vec<u32>, AllocError>
        ensures { IfOk result (λ v. v.items ≡ keys_of self.now) }
    {
        all_numbers(alloc, self.pages.as_slice())
    }

    /// Puts a value at a number that has none.
    pub(crate) fn insert(&mut self, alloc: Global, number: u32, value: V) -> Result<(), AllocError>
        requires { lookup (is_at (nat_cmp number)) self.old ≡ None }
        ensures ok { OnOk result (self.new ≡ insert_entry nat_cmp self.old number value) }
        ensures err { OnErr result (self.new ≡ self.old) }
    {
        let (page, cell) = place(number);
        grow(&mut self.pages, page)?;
        fill(alloc, &mut self.pages[page], cell, value)?;
        self.count += 1;
        Ok(())
    }

    /// Puts another value at a number that has one, and gives that one.
    pub(crate) fn replace(&mut self, number: u32, value: V) -> V
        requires { is_some (lookup (is_at (nat_cmp number)) self.old) ≡ true }
        ensures map { self.new ≡ set_value (is_at (nat_cmp number)) self.old value }
        ensures held { lookup (is_at (nat_cmp number)) self.old ≡ Some result }
    {
        let (page, cell) = place(number);
        replace_at(&mut self.pages[page], cell, value)
    }

    /// Takes the value of a number out, if it has one.
    pub(crate) fn remove(&mut self, number: u32)
        ensures map { self.new ≡ remove_entry (is_at (nat_cmp number)) self.old }
        ensures gone { lookup (is_at (nat_cmp number)) self.new ≡ None }
    {
        let (page, cell) = place(number);
        if self.has(number) {
            clear(&mut self.pages[page], cell);
            self.count -= 1;
        }
    }

    fn has(&self, number: u32) -> bool
        ensures { result ≡ is_some (lookup (is_at (nat_cmp number)) self.now) }
    {
        self.get(number).is_some()
    }
}

/// Stores a value in the object of a cell of a page, where there is one and it has the attribute.
fn set_slot_at(
    alloc: Global,
    layout: &Layout,
    page: &mut Option<Page<Object>>,
    cell: usize,
    attr: AttrNo,
    value: Value,
)
    requires { cell < 64 }
    ensures { (c : Option Object) → slice_get (page_cells page.old) cell ≡ Some c → page_cells page.new ≡ slice_set (page_cells page.old) cell (option_map
        (λ x. with_slot layout.now x attr value) c) }
{
    if let Some(page) = page {
        page.set_slot(alloc, layout, cell, attr, value);
    }
}

impl<V: Copy> NumberMap<V> {
    /// The values, in the order of their numbers.
    pub(crate) fn values(&self, alloc: Global) -> Result<Vec<V>, AllocError>
        ensures { IfOk result (λ v. v.items ≡ map (λ e. e.1) self.now) }
    {
        all_values(alloc, self.pages.as_slice())
    }
}

impl NumberMap<Object> {
    /// Stores a value in the object of a number, where it is live and has the attribute.
    pub(crate) fn set_slot(
        &mut self,
        alloc: Global,
        layout: &Layout,
        number: ObjNo,
        attr: AttrNo,
        value: Value,
    )
        ensures { self.new ≡ option_map_or (λ x. set_value (is_at (nat_cmp number)) self.old (with_slot layout.now x attr value)) (object_in
            self.old number) self.old }
    {
        let (page, cell) = place(number);
        if let Some(page) = self.pages.get_mut(page) {
            set_slot_at(alloc, layout, page, cell, attr, value);
        }
    }
}
