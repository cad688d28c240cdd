ghost use Rattle.std.specs.Prelude.{◌≡◌, ◌++◌, IfOk, OnOk, map};
ghost use Rattle.std.specs.List.{list_all};
ghost use Rattle.class_decls.specs.Different.{all_differ, names_differ, param_texts, type_texts};
ghost use Rattle.class_decls.specs.Names.{heads};

use crate::name_set::NameSet;
use crate::names::{BOUND_NAMES, PLAIN_TYPES};
use crate::{CondDecl, Decls, EnumDecl, Named, OpDecl};
use std::alloc::{AllocError, Global};

/// Whether no two of some texts are the same.
fn all_differ(alloc: Global, texts: &[&str]) -> Result<bool, AllocError>
    ensures { IfOk result (λ b. b ≡ all_differ (map (λ t. t.now) texts.now)) }
{
    let mut met = NameSet::new(alloc);
    'texts: for text in texts {
        let new = met.add(text)?;
        if !new {
            return Ok(false);
        }
    }
    Ok(true)
}

/// Adds the texts of some names.
fn add_given<'a>(names: &[&'a str], texts: &mut Vec<&'a str>) -> Result<(), AllocError>
    ensures { OnOk result (map (λ t. t.now) texts.new.items ≡ map (λ t. t.now) texts.old.items ++ map (λ t. t.now) names.now) }
{
    'names: for name in names {
        texts.push(*name)?;
    }
    Ok(())
}

/// Adds the texts of the names of what is declared.
fn add_declared<'a, T: Named>(items: &'a [T], texts: &mut Vec<&'a str>) -> Result<(), AllocError>
    ensures { OnOk result (map (λ t. t.now) texts.new.items ≡ map (λ t. t.now) texts.old.items ++ map (λ x. (T.name_of x).text) items.now) }
{
    'items: for item in items {
        texts.push(item.name().text.as_str())?;
    }
    Ok(())
}

fn types_differ(alloc: Global, decls: &Decls) -> Result<bool, AllocError>
    ensures { IfOk result (λ b. b ≡ all_differ (type_texts decls.now)) }
{
    let mut texts = Vec::new(alloc);
    add_given(&PLAIN_TYPES, &mut texts)?;
    add_declared(decls.enums.as_slice(), &mut texts)?;
    add_declared(decls.classes.as_slice(), &mut texts)?;
    add_declared(decls.assocs.as_slice(), &mut texts)?;
    all_differ(alloc, texts.as_slice())
}

fn literals_of_one_differ(alloc: Global, declared: &EnumDecl) -> Result<bool, AllocError>
    ensures { IfOk result (λ b. b ≡ all_differ (map (λ l. l.text) declared.now.literals)) }
{
    let mut texts = Vec::new(alloc);
    add_declared(declared.literals.as_slice(), &mut texts)?;
    all_differ(alloc, texts.as_slice())
}

fn literals_differ(alloc: Global, enums: &[EnumDecl]) -> Result<bool, AllocError>
    ensures { IfOk result (λ b. b ≡ list_all (λ e. all_differ (map (λ l. l.text) e.literals)) enums.now) }
{
    'enums: for declared in enums {
        let differ = literals_of_one_differ(alloc, declared)?;
        if !differ {
            return Ok(false);
        }
    }
    Ok(true)
}

fn params_of_one_differ(alloc: Global, head: &OpDecl) -> Result<bool, AllocError>
    ensures { IfOk result (λ b. b ≡ all_differ (param_texts head.now)) }
{
    let mut texts = Vec::new(alloc);
    add_given(&BOUND_NAMES, &mut texts)?;
    add_declared(head.params.as_slice(), &mut texts)?;
    all_differ(alloc, texts.as_slice())
}

fn params_differ(alloc: Global, heads: &[&OpDecl]) -> Result<bool, AllocError>
    ensures { IfOk result (λ b. b ≡ list_all (λ h. all_differ (param_texts h.now)) heads.now) }
{
    'heads: for head in heads {
        let differ = params_of_one_differ(alloc, head)?;
        if !differ {
            return Ok(false);
        }
    }
    Ok(true)
}

fn conds_differ(alloc: Global, conds: &[CondDecl]) -> Result<bool, AllocError>
    ensures { IfOk result (λ b. b ≡ all_differ (map (λ c. c.name.text) conds.now)) }
{
    let mut texts = Vec::new(alloc);
    'conds: for cond in conds {
        texts.push(cond.name.text.as_str())?;
    }
    all_differ(alloc, texts.as_slice())
}

/// Whether the names of each kind are told apart by their texts alone. Then none is declared twice;
/// conditions of different contexts may still share one.
pub(crate) fn names_differ(
    alloc: Global,
    decls: &Decls,
    ops: &[&OpDecl],
) -> Result<bool, AllocError>
    requires { map (λ h. h.now) ops.now ≡ heads decls.now }
    ensures { IfOk result (λ b. b ≡ names_differ decls.now) }
{
    let types = types_differ(alloc, decls)?;
    if !types {
        return Ok(false);
    }
    let literals = literals_differ(alloc, decls.enums.as_slice())?;
    if !literals {
        return Ok(false);
    }
    let params = params_differ(alloc, ops)?;
    if !params {
        return Ok(false);
    }
    conds_differ(alloc, decls.conds.as_slice())
}
