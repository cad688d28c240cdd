ghost use Rattle.std.specs.Prelude.{◌≡◌, ◌≤◌, ◌^◌, ◌&&◌, ℕ, List, not, true, false, Some, None, IfOk, OnOk, if◌then◌else◌, find, fold, length, nat_eq};
ghost use Rattle.std.specs.HashMap.{get_by_text};
ghost use Rattle.std.specs.List.{list_all, position_from};
ghost use Rattle.std.specs.Option.{option_and_then, option_map_or};
ghost use Rattle.class_decls.specs.Texts.{same_text};
ghost use Rattle.class_model.specs.Features.{chosen_by, class_at, declares, listed_by, numbers_of};
ghost use Rattle.class_model.specs.Indexes.{above, greater_by, latest};

use crate::by_name::{ByName, add_first_if, put, stands_for};
use crate::inheritance::is_above;
use crate::lists::push_if;
use crate::{ClassNo, OpNo, Operation};
use std::alloc::{AllocError, Global};
use std::collections::HashMap;
use use_lists::Items;

/// The first declaration of each operation of a class.
fn first_declarations(
    alloc: Global,
    ops: &[Operation],
    rows: &[Items<bool>],
    class: ClassNo,
) -> Result<ByName<OpNo>, AllocError>
    requires { length ops.now ≤ 2 ^ 32 }
    ensures { IfOk result (λ m. (t : List ℕ) → get_by_text m t ≡ position_from (declares (above rows.now class) t) 0 ops.now) }
{
    let mut map = HashMap::new(alloc);
    'ops: for (i, op) in ops.iter().enumerate() {
        let holds = is_above(rows, class, op.class);
        add_first_if(alloc, &mut map, holds, op.name.as_str(), i as u32)?;
    }
    Ok(map)
}

fn is_listed(
    first: &ByName<OpNo>,
    rows: &[Items<bool>],
    class: ClassNo,
    op: &Operation,
    number: OpNo,
) -> bool
    ensures { result ≡ (above rows.now class op.now.class && option_map_or (nat_eq number) (get_by_text first.now op.now.name) false) }
{
    is_above(rows, class, op.class) && stands_for(first, op.name.as_str(), number)
}

/// The operations of a class, each at its first declaration.
pub(crate) fn listed_operations(
    alloc: Global,
    ops: &[Operation],
    rows: &[Items<bool>],
    class: ClassNo,
) -> Result<Items<OpNo>, AllocError>
    requires { length ops.now ≤ 2 ^ 32 }
    ensures { IfOk result (λ v. v ≡ listed_by (above rows.now class) ops.now) }
{
    let first = first_declarations(alloc, ops, rows, class)?;
    let mut numbers = Vec::new(alloc);
    'ops: for (i, op) in ops.iter().enumerate() {
        let holds = is_listed(&first, rows, class, op, i as u32);
        push_if(&mut numbers, holds, i as u32)?;
    }
    Ok(Items::from_vec(numbers))
}

/// The class of a declaration.
fn class_at(ops: &[Operation], number: OpNo) -> ClassNo
    ensures { result ≡ class_at ops.now number }
{
    match ops.get(number as usize) {
        None => 0,
        Some(op) => op.class,
    }
}

/// The declaration whose class has the greater number.
fn later(ops: &[Operation], best: Option<OpNo>, number: OpNo) -> OpNo
    ensures { result ≡ greater_by (class_at ops.now) best number }
{
    match best {
        None => number,
        Some(best) => {
            if class_at(ops, best) < class_at(ops, number) {
                number
            } else {
                best
            }
        }
    }
}

fn add_later(
    alloc: Global,
    map: &mut ByName<OpNo>,
    ops: &[Operation],
    name: &str,
    number: OpNo,
) -> Result<(), AllocError>
    ensures { OnOk result ((t : List ℕ) → get_by_text map.new t ≡ (if same_text name.now t then Some (greater_by (class_at ops.now)
        (get_by_text map.old t) number) else get_by_text map.old t)) }
{
    let best = map.get(name).copied();
    put(alloc, map, name, later(ops, best, number))
}

fn add_later_if(
    alloc: Global,
    map: &mut ByName<OpNo>,
    ops: &[Operation],
    holds: bool,
    name: &str,
    number: OpNo,
) -> Result<(), AllocError>
    ensures { OnOk result ((t : List ℕ) → get_by_text map.new t ≡ (if holds && same_text name.now t then Some (greater_by (class_at ops.now)
        (get_by_text map.old t) number) else get_by_text map.old t)) }
{
    if !holds {
        return Ok(());
    }
    add_later(alloc, map, ops, name, number)
}

/// For each operation of a class, its first declaration in the class of the greatest number.
fn latest_declarations(
    alloc: Global,
    ops: &[Operation],
    rows: &[Items<bool>],
    class: ClassNo,
) -> Result<ByName<OpNo>, AllocError>
    requires { length ops.now ≤ 2 ^ 32 }
    ensures { IfOk result (λ m. (t : List ℕ) → get_by_text m t ≡ latest ops.now (numbers_of (declares (above rows.now class) t) ops.now)) }
{
    let mut map = HashMap::new(alloc);
    'ops: for (i, op) in ops.iter().enumerate() {
        let holds = is_above(rows, class, op.class);
        add_later_if(alloc, &mut map, ops, holds, op.name.as_str(), i as u32)?;
    }
    Ok(map)
}

/// Whether the declaration that stands under a name is in a class that does not inherit from
/// another.
fn misses(map: &ByName<OpNo>, ops: &[Operation], rows: &[Items<bool>], op: &Operation) -> bool
    ensures { result ≡ option_map_or (λ best. not (above rows.now (class_at ops.now best) op.now.class)) (get_by_text map.now op.now.name) false }
{
    match map.get(op.name.as_str()) {
        None => false,
        Some(best) => !is_above(rows, class_at(ops, *best), op.class),
    }
}

/// Whether what stands under the name of a declaration of a class does not override it.
fn is_missed(
    map: &ByName<OpNo>,
    ops: &[Operation],
    rows: &[Items<bool>],
    class: ClassNo,
    op: &Operation,
) -> bool
    ensures { result ≡ (above rows.now class op.now.class && option_map_or (λ best. not (above rows.now (class_at ops.now best) op.now.class))
        (get_by_text map.now op.now.name) false) }
{
    is_above(rows, class, op.class) && misses(map, ops, rows, op)
}

fn remove_if(map: &mut ByName<OpNo>, holds: bool, name: &str)
    ensures { (t : List ℕ) → get_by_text map.new t ≡ (if holds && same_text name.now t then None else get_by_text map.old t) }
{
    if holds {
        let _ = map.remove(name);
    }
}

/// Removes the declarations that do not override all others of their names.
fn keep_overriding(map: &mut ByName<OpNo>, ops: &[Operation], rows: &[Items<bool>], class: ClassNo)
    ensures { (t : List ℕ) → get_by_text map.new t ≡ option_and_then (λ best. if list_all (λ p. above rows.now (class_at ops.now best) (class_at ops.now p))
        (numbers_of (declares (above rows.now class) t) ops.now) then Some best else None) (get_by_text map.old t) }
{
    'ops: for op in ops {
        let holds = is_missed(map, ops, rows, class, op);
        remove_if(map, holds, op.name.as_str());
    }
}

/// For each operation of a class, the declaration that overrides all others.
pub(crate) fn chosen_operations(
    alloc: Global,
    ops: &[Operation],
    rows: &[Items<bool>],
    class: ClassNo,
) -> Result<ByName<OpNo>, AllocError>
    requires small { length ops.now ≤ 2 ^ 32 }
    requires downward { (c d : ℕ) → above rows.now c d ≡ true → d ≤ c }
    ensures { IfOk result (λ m. (t : List ℕ) → get_by_text m t ≡ chosen_by (above rows.now) ops.now (numbers_of (declares (above rows.now class) t) ops.now)) }
{
    let mut map = latest_declarations(alloc, ops, rows, class)?;
    keep_overriding(&mut map, ops, rows, class);
    Ok(map)
}
