ghost use Rattle.std.specs.Prelude.{◌≡◌, ◌++◌, [], ℕ, List, None, IfOk, OnOk, filter, length, map, nat_lt, slice_get, slice_index_or};
ghost use Rattle.std.specs.Option.{option_copied};
ghost use Rattle.std.specs.List.{cons_option, filter_map, list_all};
ghost use Rattle.class_rules.specs.Ancestors.{above, ancestor_numbers, ancestors, class_numbered, number_at, parent_numbers, properly_above};
ghost use Rattle.class_rules.specs.Numbering.{numbering, parent_places, row_at};

use crate::ancestors::{ancestors, row_at};
use crate::numbering::numbering;
use crate::numbers::numbers_of;
use crate::places::parent_places;
use class_decls::{ClassDecl, Decls};
use std::alloc::{AllocError, Global};
use std::marker::Model;
use use_lists::Items;

/// The classes of declarations by number. Numbers start at 0; the next one goes to the first class in
/// the text that has none and whose parents all have one, so a class on a cycle has none.
#[derive(Drop)]
pub struct Hierarchy<'a> {
    decls: &'a Decls,
    order: Vec<usize>,
    numbers: Vec<Option<usize>>,
    parents: Vec<Items<usize>>,
}

impl<'a> Model for Hierarchy<'a> {
    ghost use Rattle.class_decls.specs.declared.decls.Decls.{Decls};
    ghost use Rattle.class_rules.specs.Ancestors.{IsHierarchyOf};

    ghost Value = { Decls };

    ghost view = { λ h. h.decls.now };

    ghost invariant = { λ h. IsHierarchyOf h.decls.now h.order.items h.numbers.items h.parents.items };
}

/// The numbers of the classes at some places.
fn numbers_at(
    alloc: Global,
    numbers: &[Option<usize>],
    places: &[usize],
) -> Result<Vec<usize>, AllocError>
    ensures { IfOk result (λ v. v.items ≡ filter_map (λ p. slice_index_or numbers.now p None) places.now) }
{
    let mut found = Vec::new(alloc);
    'places: for place in places {
        add_number(number_of(numbers, *place), &mut found)?;
    }
    Ok(found)
}

fn number_of(numbers: &[Option<usize>], place: usize) -> Option<usize>
    ensures { result ≡ slice_index_or numbers.now place None }
{
    match numbers.get(place) {
        None => None,
        Some(number) => *number,
    }
}

fn add_number(number: Option<usize>, found: &mut Vec<usize>) -> Result<(), AllocError>
    ensures { OnOk result (found.new.items ≡ found.old.items ++ cons_option number []) }
{
    match number {
        None => Ok(()),
        Some(number) => {
            found.push(number)?;
            Ok(())
        }
    }
}

fn parents_by_number(
    alloc: Global,
    places: &[Items<usize>],
    order: &[usize],
    numbers: &[Option<usize>],
) -> Result<Vec<Items<usize>>, AllocError>
    ensures { IfOk result (λ v. v.items ≡ map (λ i. filter_map (λ p. slice_index_or numbers.now p None) (row_at places.now i)) order.now) }
{
    let mut parents = Vec::new(alloc);
    'order: for place in order {
        let row = numbers_at(alloc, numbers, row_at(places, *place))?;
        parents.push(Items::from_vec(row))?;
    }
    Ok(parents)
}

fn add_class<'a>(
    class: Option<&'a ClassDecl>,
    found: &mut Vec<&'a ClassDecl>,
) -> Result<(), AllocError>
    ensures { OnOk result (map (λ c. c.now) found.new.items ≡ map (λ c. c.now) found.old.items ++ cons_option (option_copied class.entry) []) }
{
    match class {
        None => Ok(()),
        Some(class) => {
            found.push(class)?;
            Ok(())
        }
    }
}

/// The numbers below another.
fn numbers_below(alloc: Global, numbers: &[usize], most: usize) -> Result<Vec<usize>, AllocError>
    ensures { IfOk result (λ v. v.items ≡ filter (λ c. nat_lt c most) numbers.now) }
{
    numbers
        .iter()
        .copied()
        .filter(|number| *number < most)
        .collect(alloc)
}

impl<'a> Hierarchy<'a> {
    /// The classes of declarations by number.
    pub fn of(alloc: Global, decls: &'a Decls) -> Result<Hierarchy<'a>, AllocError>
        ensures { IfOk result (λ h. h ≡ decls.now) }
    {
        let places = parent_places(alloc, decls)?;
        let hierarchy = Hierarchy::of_places(alloc, decls, places.as_slice())?;
        Ok(hierarchy)
    }

    /// The same, where the parents of each class stand at these places.
    pub(crate) fn of_places(
        alloc: Global,
        decls: &'a Decls,
        places: &[Items<usize>],
    ) -> Result<Hierarchy<'a>, AllocError>
        requires { places.now ≡ parent_places decls.now }
        ensures { IfOk result (λ h. h ≡ decls.now) }
    {
        let order = numbering(alloc, places)?;
        let numbers = numbers_of(alloc, order.as_slice(), places.len())?;
        let parents = parents_by_number(alloc, places, order.as_slice(), numbers.as_slice())?;
        Ok(Hierarchy {
            decls,
            order,
            numbers,
            parents,
        })
    }

    /// The declarations.
    pub fn decls(&self) -> &'a Decls
        ensures { result.now ≡ self.now }
    {
        self.decls
    }

    /// Where the class of each number stands among the classes.
    pub fn order(&self) -> &[usize]
        ensures { result.now ≡ numbering (parent_places self.now) }
    {
        self.order.as_slice()
    }

    /// The number of the class at a place.
    pub fn number(&self, place: usize) -> Option<usize>
        ensures { result ≡ number_at self.now place }
    {
        number_of(self.numbers.as_slice(), place)
    }

    /// The numbers of the direct parents of a class, in the order of the text.
    pub fn parents(&self, number: usize) -> &[usize]
        ensures { result.now ≡ row_at (parent_numbers self.now) number }
    {
        row_at(self.parents.as_slice(), number)
    }

    /// Whether no class has two parents.
    pub(crate) fn inherits_singly(&self) -> bool
        ensures { result ≡ list_all (λ row. nat_lt (length row) 2) (parent_numbers self.now) }
    {
        self.parents.iter().all(|row| row.len() < 2)
    }

    /// The numbers of a class and of its ancestors, in ascending order.
    pub fn ancestors(&self, alloc: Global, number: usize) -> Result<Vec<usize>, AllocError>
        ensures { IfOk result (λ v. v.items ≡ ancestors (parent_numbers self.now) number) }
    {
        ancestors(alloc, self.parents.as_slice(), number)
    }

    /// The class of a number.
    pub fn class(&self, number: usize) -> Option<&'a ClassDecl>
        ensures { option_copied result ≡ class_numbered self.now number }
    {
        let place = self.order.get(number)?;
        self.decls.classes.get(*place)
    }

    /// The numbers of the class at a place and of its ancestors.
    pub(crate) fn ancestor_numbers(
        &self,
        alloc: Global,
        place: usize,
    ) -> Result<Vec<usize>, AllocError>
        ensures { IfOk result (λ v. v.items ≡ ancestor_numbers self.now place) }
    {
        match self.number(place) {
            None => Ok(Vec::new(alloc)),
            Some(number) => self.ancestors(alloc, number),
        }
    }

    /// The classes of some numbers.
    pub(crate) fn classes(
        &self,
        alloc: Global,
        numbers: &[usize],
    ) -> Result<Vec<&'a ClassDecl>, AllocError>
        ensures { IfOk result (λ v. map (λ c. c.now) v.items ≡ filter_map (class_numbered self.now) numbers.now) }
    {
        let mut found = Vec::new(alloc);
        'numbers: for number in numbers {
            add_class(self.class(*number), &mut found)?;
        }
        Ok(found)
    }

    /// The class at a place and its ancestors.
    pub(crate) fn above(
        &self,
        alloc: Global,
        place: usize,
    ) -> Result<Vec<&'a ClassDecl>, AllocError>
        ensures { IfOk result (λ v. map (λ c. c.now) v.items ≡ above self.now place) }
    {
        let numbers = self.ancestor_numbers(alloc, place)?;
        let classes = self.classes(alloc, numbers.as_slice())?;
        Ok(classes)
    }

    /// The ancestors of the class at a place, without the class itself.
    pub(crate) fn properly_above(
        &self,
        alloc: Global,
        place: usize,
    ) -> Result<Vec<&'a ClassDecl>, AllocError>
        ensures { IfOk result (λ v. map (λ c. c.now) v.items ≡ properly_above self.now place) }
    {
        let numbers = self.ancestor_numbers(alloc, place)?;
        let own = self.number(place).unwrap_or(0);
        let proper = numbers_below(alloc, numbers.as_slice(), own)?;
        let classes = self.classes(alloc, proper.as_slice())?;
        Ok(classes)
    }
}
