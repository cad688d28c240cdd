ghost use Rattle.std.specs.Prelude.{◌≡◌, ◌<◌, ◌≤◌, ◌^◌, ◌&&◌, ℕ, List, IfOk, OnOk, Some, length};
ghost use Rattle.std.specs.HashMap.{get_by_text};
ghost use Rattle.std.specs.List.{position_from};
ghost use Rattle.std.specs.Option.{option_and_then, option_or};
ghost use Rattle.class_decls.specs.Texts.{first_numbered, same_text};
ghost use Rattle.class_model.specs.Features.{end_seen, numbers_of};
ghost use Rattle.class_model.specs.Indexes.{IsIndexOf, IsTable, above};
ghost use Rattle.class_model.specs.Inheritance.{parents_of};
ghost use Rattle.class_model.specs.InRange.{IsInRange};

use crate::by_name::{ByName, add_first_if};
use crate::inheritance::{classes_above, is_above};
use crate::lists::push_if;
use crate::operations::{chosen_operations, listed_operations};
use crate::{AssocNo, Association, AttrNo, Attribute, ClassNo, DerNo, End, ObjectModel, OpNo};
use std::alloc::{AllocError, Global};
use std::collections::HashMap;
use use_lists::Items;

/// What a class has, its own and what it inherits, by number and by name.
#[derive(Drop)]
pub(crate) struct ClassIndex {
    pub(crate) ancestors: Items<ClassNo>,
    pub(crate) attrs: Items<AttrNo>,
    pub(crate) derived: Items<DerNo>,
    pub(crate) ops: Items<OpNo>,
    pub(crate) attrs_by_name: ByName<AttrNo>,
    pub(crate) derived_by_name: ByName<DerNo>,
    pub(crate) roles_by_name: ByName<(AssocNo, End)>,
    pub(crate) ops_by_name: ByName<OpNo>,
}

/// The attributes that a class has.
fn attributes(
    alloc: Global,
    attrs: &[Attribute],
    rows: &[Items<bool>],
    class: ClassNo,
) -> Result<Items<u32>, AllocError>
    requires { length attrs.now ≤ 2 ^ 32 }
    ensures { IfOk result (λ v. v ≡ numbers_of (λ a. above rows.now class a.class) attrs.now) }
{
    let mut numbers = Vec::new(alloc);
    'attrs: for (i, attr) in attrs.iter().enumerate() {
        push_if(&mut numbers, is_above(rows, class, attr.class), i as u32)?;
    }
    Ok(Items::from_vec(numbers))
}

/// The same by name.
fn attributes_by_name(
    alloc: Global,
    attrs: &[Attribute],
    rows: &[Items<bool>],
    class: ClassNo,
) -> Result<ByName<u32>, AllocError>
    requires { length attrs.now ≤ 2 ^ 32 }
    ensures { IfOk result (λ m. (t : List ℕ) → get_by_text m t ≡ position_from (λ a. above rows.now class a.class && same_text a.name t) 0 attrs.now) }
{
    let mut map = HashMap::new(alloc);
    'attrs: for (i, attr) in attrs.iter().enumerate() {
        let holds = is_above(rows, class, attr.class);
        add_first_if(alloc, &mut map, holds, attr.name.as_str(), i as u32)?;
    }
    Ok(map)
}

/// Adds the roles that a class sees in an association.
fn add_roles(
    alloc: Global,
    map: &mut ByName<(AssocNo, End)>,
    rows: &[Items<bool>],
    class: ClassNo,
    number: AssocNo,
    assoc: &Association,
) -> Result<(), AllocError>
    ensures { OnOk result ((t : List ℕ) → get_by_text map.new t ≡ option_or (get_by_text map.old t) (option_and_then (λ e. Some (number, e)) (end_seen
        (above rows.now class) t assoc.now))) }
{
    let at_first = is_above(rows, class, assoc.second.class);
    let first = assoc.first.role.as_str();
    add_first_if(alloc, map, at_first, first, (number, End::First))?;
    let at_second = is_above(rows, class, assoc.first.class);
    let second = assoc.second.role.as_str();
    add_first_if(alloc, map, at_second, second, (number, End::Second))
}

/// The roles that a class sees, by name.
fn roles_by_name(
    alloc: Global,
    assocs: &[Association],
    rows: &[Items<bool>],
    class: ClassNo,
) -> Result<ByName<(AssocNo, End)>, AllocError>
    requires { length assocs.now ≤ 2 ^ 32 }
    ensures { IfOk result (λ m. (t : List ℕ) → get_by_text m t ≡ first_numbered (λ number a. option_and_then (λ e. Some (number, e)) (end_seen
        (above rows.now class) t a)) 0 assocs.now) }
{
    let mut map = HashMap::new(alloc);
    'assocs: for (i, assoc) in assocs.iter().enumerate() {
        add_roles(alloc, &mut map, rows, class, i as u32, assoc)?;
    }
    Ok(map)
}

/// What a class has.
pub(crate) fn class_index(
    alloc: Global,
    model: &ObjectModel,
    rows: &[Items<bool>],
    class: ClassNo,
) -> Result<ClassIndex, AllocError>
    requires table { IsTable (parents_of model.now) rows.now }
    requires class { class < length model.now.classes }
    requires in_range { IsInRange model.now }
    ensures { IfOk result (λ index. IsIndexOf model.now class index) }
{
    let attrs = model.attrs.as_slice();
    let derived = model.derived.as_slice();
    let ops = model.ops.as_slice();
    Ok(ClassIndex {
        ancestors: classes_above(alloc, rows, class, model.classes.len() as u32)?,
        attrs: attributes(alloc, attrs, rows, class)?,
        derived: attributes(alloc, derived, rows, class)?,
        ops: listed_operations(alloc, ops, rows, class)?,
        attrs_by_name: attributes_by_name(alloc, attrs, rows, class)?,
        derived_by_name: attributes_by_name(alloc, derived, rows, class)?,
        roles_by_name: roles_by_name(alloc, model.assocs.as_slice(), rows, class)?,
        ops_by_name: chosen_operations(alloc, ops, rows, class)?,
    })
}
