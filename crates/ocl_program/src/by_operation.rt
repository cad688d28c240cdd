ghost use Rattle.std.specs.Prelude.{◌≡◌, ◌<◌, ◌≤◌, ◌^◌, ◌++◌, ◌∷◌, [], ℕ, List, All, IfOk, OnOk, Some, None, cond, if◌then◌else◌, length, map, nat_eq, unwrap_or};
ghost use Rattle.std.specs.HashMap.{get_by_text};
ghost use Rattle.std.specs.List.{flat_map, range_with_len};
ghost use Rattle.class_decls.specs.Texts.{same_text};
ghost use Rattle.class_model.specs.Inheritance.{is_a};
ghost use Rattle.ocl_program.specs.ContractRows.{declared, row_at};
ghost use Rattle.ocl_program.specs.Programs.{AreRows, contracts_for};

use class_model::{ByName, ClassModel, ClassNo, OpNo, Operation};
use ocl_core::{Contract, ContractNo, ProgramParts};
use std::alloc::{AllocError, Global};
use std::collections::HashMap;
use use_lists::Items;

/// For each of so many operations no contract yet.
fn no_rows(alloc: Global, count: usize) -> Result<Vec<Items<ContractNo>>, AllocError>
    ensures size { IfOk result (λ v. length v.items ≡ count) }
    ensures empty { IfOk result (λ v. (o : ℕ) → row_at v.items o ≡ []) }
{
    let mut rows = Vec::new(alloc);
    'rows: for _op in 0..count {
        rows.push(Items::new(alloc))?;
    }
    Ok(rows)
}

/// A contract more of a declaration.
fn add_contract(
    rows: &mut Vec<Items<ContractNo>>,
    op: OpNo,
    number: ContractNo,
) -> Result<(), AllocError>
    requires { op < length rows.old.items }
    ensures size { OnOk result (length rows.new.items ≡ length rows.old.items) }
    ensures rows { OnOk result ((o : ℕ) → row_at rows.new.items o ≡ row_at rows.old.items o ++ (if nat_eq op o then number ∷ [] else [])) }
{
    rows[op as usize].push(number)?;
    Ok(())
}

/// The contracts that are written for each declaration.
fn own_contracts(
    alloc: Global,
    contracts: &[Contract],
    count: usize,
) -> Result<Vec<Items<ContractNo>>, AllocError>
    requires few { length contracts.now < 2 ^ 32 }
    requires owners { All (λ c. c.op < count) contracts.now }
    ensures { IfOk result (λ v. (o : ℕ) → row_at v.items o ≡ contracts_for contracts.now o) }
{
    let mut rows = no_rows(alloc, count)?;
    'contracts: for (i, contract) in contracts.iter().enumerate() {
        add_contract(&mut rows, contract.op, i as u32)?;
    }
    Ok(rows)
}

/// A name stands for these declarations from now on.
fn put(
    alloc: Global,
    map: &mut ByName<Items<(ClassNo, OpNo)>>,
    name: &str,
    declared: Items<(ClassNo, OpNo)>,
) -> Result<(), AllocError>
    ensures { OnOk result ((t : List ℕ) → unwrap_or (get_by_text map.new t) [] ≡ (if same_text name.now t then declared else unwrap_or (get_by_text map.old t) [])) }
{
    let key = String::from_str(alloc, name)?;
    map.insert(key, declared)?;
    Ok(())
}

/// The declarations that a name stands for; it stands for none from now on.
fn take(
    alloc: Global,
    map: &mut ByName<Items<(ClassNo, OpNo)>>,
    name: &str,
) -> Items<(ClassNo, OpNo)>
    ensures taken { result ≡ unwrap_or (get_by_text map.old name.now) [] }
    ensures left { (t : List ℕ) → unwrap_or (get_by_text map.new t) [] ≡ (if same_text name.now t then [] else unwrap_or (get_by_text map.old t) []) }
{
    match map.remove(name) {
        Some(declared) => declared,
        None => Items::new(alloc),
    }
}

/// A declaration more of a name.
fn add_declaration(
    alloc: Global,
    map: &mut ByName<Items<(ClassNo, OpNo)>>,
    op: &Operation,
    number: OpNo,
) -> Result<(), AllocError>
    ensures { OnOk result ((t : List ℕ) → unwrap_or (get_by_text map.new t) []
        ≡ unwrap_or (get_by_text map.old t) [] ++ (if same_text op.now.name t then (op.now.class, number) ∷ [] else [])) }
{
    let name = op.name.as_str();
    let mut declared = take(alloc, map, name);
    declared.push((op.class, number))?;
    put(alloc, map, name, declared)
}

/// The declarations of each name, each with the class that it is of.
fn declarations_by_name(
    alloc: Global,
    ops: &[Operation],
) -> Result<ByName<Items<(ClassNo, OpNo)>>, AllocError>
    requires { length ops.now ≤ 2 ^ 32 }
    ensures { IfOk result (λ m. (t : List ℕ) → unwrap_or (get_by_text m t) [] ≡ declared t ops.now) }
{
    let mut map = HashMap::new(alloc);
    'ops: for (i, op) in ops.iter().enumerate() {
        add_declaration(alloc, &mut map, op, i as u32)?;
    }
    Ok(map)
}

/// Adds some numbers where a condition holds.
fn add_if(row: &mut Vec<ContractNo>, holds: bool, more: &[ContractNo]) -> Result<(), AllocError>
    ensures { OnOk result (row.new.items ≡ row.old.items ++ (if holds then more.now else [])) }
{
    if !holds {
        return Ok(());
    }
    row.extend_from_slice(more)
}

/// The contracts of those of some declarations from whose classes a class inherits.
fn contracts_among(
    alloc: Global,
    model: &ClassModel,
    own: &[Items<ContractNo>],
    class: ClassNo,
    declared: &[(ClassNo, OpNo)],
) -> Result<Items<ContractNo>, AllocError>
    ensures { IfOk result (λ r. r ≡ flat_map (λ d. if is_a model.now class d.0 then row_at own.now d.1 else []) declared.now) }
{
    let mut row = Vec::new(alloc);
    'declared: for found in declared {
        add_if(&mut row, model.is_a(class, found.0), row_at(own, found.1))?;
    }
    Ok(Items::from_vec(row))
}

/// The list at a place, and none past the end.
pub(crate) fn row_at(rows: &[Items<ContractNo>], i: u32) -> &[ContractNo]
    ensures { result.now ≡ row_at rows.now i }
{
    match rows.get(i as usize) {
        Some(row) => row.as_slice(),
        None => &[],
    }
}

/// The declarations of a name.
fn declared_as<'a>(map: &'a ByName<Items<(ClassNo, OpNo)>>, name: &str) -> &'a [(ClassNo, OpNo)]
    ensures { result.now ≡ unwrap_or (get_by_text map.now name.now) [] }
{
    match map.get(name) {
        Some(declared) => declared.as_slice(),
        None => &[],
    }
}

/// The contracts of each operation.
pub(crate) fn contract_rows(
    alloc: Global,
    parts: &ProgramParts,
) -> Result<Items<Items<ContractNo>>, AllocError>
    requires few { length parts.now.contracts < 2 ^ 32 }
    requires owners { All (λ c. c.op < length parts.now.model.ops) parts.now.contracts }
    ensures { IfOk result (λ rows. AreRows parts.now rows) }
{
    let model = &parts.model;
    model.has_numbers_in_range();
    let ops = model.as_model().ops.as_slice();
    let own = own_contracts(alloc, parts.contracts.as_slice(), ops.len())?;
    let by_name = declarations_by_name(alloc, ops)?;
    let mut rows = Vec::new(alloc);
    'ops: for op in ops {
        let declared = declared_as(&by_name, op.name.as_str());
        let row = contracts_among(alloc, model, own.as_slice(), op.class, declared)?;
        rows.push(row)?;
    }
    Ok(Items::from_vec(rows))
}
