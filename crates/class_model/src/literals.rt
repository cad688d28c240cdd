ghost use Rattle.std.specs.Prelude.{◌≡◌, ◌<◌, ◌≤◌, ◌^◌, ◌&&◌, ℕ, List, Some, None, IfOk, OnOk, All, if◌then◌else◌, is_some, length};
ghost use Rattle.std.specs.HashMap.{get_by_text};
ghost use Rattle.std.specs.List.{position_from};
ghost use Rattle.std.specs.Option.{option_and_then};
ghost use Rattle.class_decls.specs.Texts.{same_text};
ghost use Rattle.class_model.specs.Features.{literals_in};
ghost use Rattle.class_model.specs.Indexes.{AreLiteralTables, one_more, one_or_several};

use crate::by_name::{ByName, numbers_by_name, put, stands_for};
use crate::{EnumNo, Enumeration, LitNo};
use ocl_values::Text;
use std::alloc::{AllocError, Global};
use std::collections::HashMap;

/// The literal of a name where one enumeration alone has it, and nothing where several do.
pub(crate) type OnlyLiterals = ByName<Option<(EnumNo, LitNo)>>;

/// The literals of each enumeration by name.
pub(crate) fn literals_by_name(
    alloc: Global,
    enums: &[Enumeration],
) -> Result<Vec<ByName<LitNo>>, AllocError>
    requires { All (λ e. length e.literals ≤ 2 ^ 32) enums.now }
    ensures { IfOk result (λ v. AreLiteralTables enums.now v.items) }
{
    let mut tables = Vec::new(alloc);
    'enums: for enumeration in enums {
        let table = numbers_by_name(alloc, enumeration.literals.as_slice())?;
        tables.push(table)?;
    }
    Ok(tables)
}

/// A literal where its name stands for none yet, and nothing where it does.
fn first_only(map: &OnlyLiterals, name: &str, literal: (EnumNo, LitNo)) -> Option<(EnumNo, LitNo)>
    ensures { result ≡ (if is_some (get_by_text map.now name.now) then None else Some literal) }
{
    if map.contains_key(name) {
        None
    } else {
        Some(literal)
    }
}

fn add_literal_if(
    alloc: Global,
    map: &mut OnlyLiterals,
    holds: bool,
    name: &str,
    literal: (EnumNo, LitNo),
) -> Result<(), AllocError>
    ensures { OnOk result ((t : List ℕ) → get_by_text map.new t ≡ one_more (get_by_text map.old t) (if holds
        && same_text name.now t then Some literal else None)) }
{
    if !holds {
        return Ok(());
    }
    let value = first_only(map, name, literal);
    put(alloc, map, name, value)
}

fn add_literals(
    alloc: Global,
    map: &mut OnlyLiterals,
    table: &ByName<LitNo>,
    number: EnumNo,
    literals: &[Text],
) -> Result<(), AllocError>
    requires small { length literals.now ≤ 2 ^ 32 }
    requires table { (t : List ℕ) → get_by_text table.now t ≡ position_from (λ x. same_text x t) 0 literals.now }
    ensures { OnOk result ((t : List ℕ) → get_by_text map.new t ≡ one_more (get_by_text map.old t) (option_and_then (λ l. Some (number, l)) (position_from
        (λ x. same_text x t) 0 literals.now))) }
{
    'literals: for (i, literal) in literals.iter().enumerate() {
        let name = literal.as_str();
        let holds = stands_for(table, name, i as u32);
        add_literal_if(alloc, map, holds, name, (number, i as u32))?;
    }
    Ok(())
}

/// The literals that one enumeration alone has.
pub(crate) fn only_literals(
    alloc: Global,
    enums: &[Enumeration],
    tables: &[ByName<LitNo>],
) -> Result<OnlyLiterals, AllocError>
    requires tables { AreLiteralTables enums.now tables.now }
    requires small { length enums.now ≤ 2 ^ 32 }
    requires few { All (λ e. length e.literals ≤ 2 ^ 32) enums.now }
    ensures { IfOk result (λ m. (t : List ℕ) → get_by_text m t ≡ one_or_several (literals_in enums.now t)) }
{
    let mut map = HashMap::new(alloc);
    'enums: for (i, enumeration) in enums.iter().enumerate() {
        let literals = enumeration.literals.as_slice();
        add_literals(alloc, &mut map, &tables[i], i as u32, literals)?;
    }
    Ok(map)
}
