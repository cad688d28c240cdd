ghost use Rattle.std.specs.Prelude.{◌≡◌, ◌<◌, ◌≤◌, ◌^◌, ◌||◌, ℕ, [], ◌∷◌, ◌++◌, nat_eq, if◌then◌else◌, IfOk, OnOk, filter, length, map};
ghost use Rattle.std.specs.List.{list_any, range_with_len};
ghost use Rattle.class_rules.specs.Ancestors.{IsDownward};
ghost use Rattle.class_model.specs.Indexes.{IsTable, above, flag, flag_in};

use crate::lists::push_if;
use crate::{Class, ClassNo};
use std::alloc::{AllocError, Global};
use use_lists::Items;

/// The flag at a place, and none past the end.
fn flag_at(flags: &[bool], at: ClassNo) -> bool
    ensures { result ≡ flag_in flags.now at }
{
    match flags.get(at as usize) {
        None => false,
        Some(flag) => *flag,
    }
}

/// The flag in a row of a table, and none past its ends.
fn flag(rows: &[Items<bool>], class: ClassNo, other: ClassNo) -> bool
    ensures { result ≡ flag rows.now class other }
{
    match rows.get(class as usize) {
        None => false,
        Some(row) => flag_at(row.as_slice(), other),
    }
}

/// Whether a class is another, or the table says that it inherits from it.
pub(crate) fn is_above(rows: &[Items<bool>], class: ClassNo, other: ClassNo) -> bool
    ensures { result ≡ above rows.now class other }
{
    other == class || flag(rows, class, other)
}

/// Whether one of some classes is another or inherits from it.
fn is_above_any(rows: &[Items<bool>], classes: &[ClassNo], other: ClassNo) -> bool
    ensures { result ≡ list_any (λ p. above rows.now p other) classes.now }
{
    classes.iter().any(|class| is_above(rows, *class, other))
}

/// Whether a class is another, or has a parent that inherits from it.
fn inherits(rows: &[Items<bool>], parents: &[ClassNo], class: ClassNo, other: ClassNo) -> bool
    ensures { result ≡ (nat_eq other class || list_any (λ p. above rows.now p other) parents.now) }
{
    other == class || is_above_any(rows, parents, other)
}

/// Which of so many classes a class is or inherits from, given the rows of its parents.
fn row(
    alloc: Global,
    rows: &[Items<bool>],
    parents: &[ClassNo],
    class: ClassNo,
    count: u32,
) -> Result<Items<bool>, AllocError>
    ensures { IfOk result (λ row. row ≡ map (λ d. nat_eq d class || list_any (λ p. above rows.now p d) parents.now) (range_with_len 0 count)) }
{
    let mut flags = Vec::new(alloc);
    'classes: for other in 0..count {
        flags.push(inherits(rows, parents, class, other))?;
    }
    Ok(Items::from_vec(flags))
}

/// Which classes each class inherits from, as a row of flags for each.
pub(crate) fn table(alloc: Global, classes: &[Class]) -> Result<Items<Items<bool>>, AllocError>
    requires small { length classes.now < 2 ^ 32 }
    requires downward { IsDownward (map (λ c. c.parents) classes.now) }
    ensures { IfOk result (λ rows. IsTable (map (λ c. c.parents) classes.now) rows) }
{
    let mut rows = Items::new(alloc);
    'classes: for (i, class) in classes.iter().enumerate() {
        let parents = class.parents.as_slice();
        let flags = row(
            alloc,
            rows.as_slice(),
            parents,
            i as u32,
            classes.len() as u32,
        )?;
        rows.push(flags)?;
    }
    Ok(rows)
}

/// The classes that a class is or inherits from, of so many.
pub(crate) fn classes_above(
    alloc: Global,
    rows: &[Items<bool>],
    class: ClassNo,
    count: u32,
) -> Result<Items<ClassNo>, AllocError>
    ensures { IfOk result (λ v. v ≡ filter (above rows.now class) (range_with_len 0 count)) }
{
    let mut classes = Vec::new(alloc);
    'classes: for other in 0..count {
        push_if(&mut classes, is_above(rows, class, other), other)?;
    }
    Ok(Items::from_vec(classes))
}
