ghost use Rattle.std.specs.Prelude.{◌≡◌, [], ◌∷◌, ◌++◌, ℕ, List, if◌then◌else◌, IfOk, OnOk, map};
ghost use Rattle.std.specs.List.{list_all, position_from};
ghost use Rattle.class_rules.specs.Agreeing.{all_ops, bodies_agree, is_as_first, is_query, is_soil, names_with, signatures_agree};
ghost use Rattle.class_rules.specs.Numbering.{place_in};
ghost use Rattle.class_decls.specs.Texts.{same_text};

use crate::clash::same_signature;
use crate::places::{Places, add_place, place_of};
use class_decls::{BodyKind, ClassDecl, Name, OpDecl};
use ocl_values::Text;
use std::alloc::{AllocError, Global};
use std::collections::HashMap;
use use_orders::contains_none;

fn add_ops<'a>(ops: &'a [OpDecl], found: &mut Vec<&'a OpDecl>) -> Result<(), AllocError>
    ensures { OnOk result (map (λ op. op.now) found.new.items ≡ map (λ op. op.now) found.old.items ++ ops.now) }
{
    'ops: for op in ops {
        found.push(op)?;
    }
    Ok(())
}

/// All operations that classes declare.
fn all_ops<'a>(alloc: Global, classes: &'a [ClassDecl]) -> Result<Vec<&'a OpDecl>, AllocError>
    ensures { IfOk result (λ v. map (λ op. op.now) v.items ≡ all_ops classes.now) }
{
    let mut found = Vec::new(alloc);
    'classes: for class in classes {
        add_ops(class.ops.as_slice(), &mut found)?;
    }
    Ok(found)
}

/// Where the first operation of each name stands.
fn first_places<'a>(alloc: Global, ops: &[&'a OpDecl]) -> Result<Places<'a>, AllocError>
    ensures { IfOk result (λ m. (t : List ℕ) → place_in m t ≡ position_from (λ op. same_text op.name.text t) 0 (map (λ op. op.now) ops.now)) }
{
    let mut places = HashMap::new(alloc);
    'ops: for (i, op) in ops.iter().enumerate() {
        add_place(&mut places, op.name.text.as_str(), i)?;
    }
    Ok(places)
}

/// Whether an operation has the signature of the first of its name.
fn is_as_first(ops: &[&OpDecl], places: &Places<'_>, op: &OpDecl) -> bool
    requires { (t : List ℕ) → place_in places.now t ≡ position_from (λ op. same_text op.name.text t) 0 (map (λ op. op.now) ops.now) }
    ensures { result ≡ is_as_first (map (λ op. op.now) ops.now) op.now }
{
    match place_of(places, &op.name.text) {
        None => false,
        Some(place) => match ops.get(place) {
            None => false,
            Some(first) => same_signature(first, op),
        },
    }
}

fn all_as_first(all: &[&OpDecl], places: &Places<'_>, ops: &[&OpDecl]) -> bool
    requires { (t : List ℕ) → place_in places.now t ≡ position_from (λ op. same_text op.name.text t) 0 (map (λ op. op.now) all.now) }
    ensures { result ≡ list_all (is_as_first (map (λ op. op.now) all.now)) (map (λ op. op.now) ops.now) }
{
    'ops: for op in ops {
        if !is_as_first(all, places, op) {
            return false;
        }
    }
    true
}

/// Whether all operations of one name have the same signature.
pub(crate) fn signatures_agree(alloc: Global, classes: &[ClassDecl]) -> Result<bool, AllocError>
    ensures { IfOk result (λ b. b ≡ signatures_agree (all_ops classes.now)) }
{
    let ops = all_ops(alloc, classes)?;
    let places = first_places(alloc, ops.as_slice())?;
    Ok(all_as_first(ops.as_slice(), &places, ops.as_slice()))
}

fn is_query(body: BodyKind) -> bool
    ensures { result ≡ is_query body }
{
    matches!(body, BodyKind::Query)
}

fn is_soil(body: BodyKind) -> bool
    ensures { result ≡ is_soil body }
{
    matches!(body, BodyKind::Soil)
}

/// Adds a name, if it is wanted.
fn add_name(
    alloc: Global,
    wanted: bool,
    name: &Name,
    texts: &mut Vec<Text>,
) -> Result<(), AllocError>
    ensures { OnOk result (texts.new.items ≡ texts.old.items ++ (if wanted then name.now.text ∷ [] else [])) }
{
    if wanted {
        let text = Text::copy_of(alloc, name.text.as_str())?;
        texts.push(text)?;
    }
    Ok(())
}

/// The names of the operations that are queries.
fn query_names(alloc: Global, ops: &[&OpDecl]) -> Result<Vec<Text>, AllocError>
    ensures { IfOk result (λ v. v.items ≡ names_with is_query (map (λ op. op.now) ops.now)) }
{
    let mut texts = Vec::new(alloc);
    'ops: for op in ops {
        add_name(alloc, is_query(op.body), &op.name, &mut texts)?;
    }
    Ok(texts)
}

/// The names of the operations that have statements.
fn soil_names(alloc: Global, ops: &[&OpDecl]) -> Result<Vec<Text>, AllocError>
    ensures { IfOk result (λ v. v.items ≡ names_with is_soil (map (λ op. op.now) ops.now)) }
{
    let mut texts = Vec::new(alloc);
    'ops: for op in ops {
        add_name(alloc, is_soil(op.body), &op.name, &mut texts)?;
    }
    Ok(texts)
}

/// Whether no name is that of a query and of an operation with statements.
pub(crate) fn bodies_agree(alloc: Global, classes: &[ClassDecl]) -> Result<bool, AllocError>
    ensures { IfOk result (λ b. b ≡ bodies_agree (all_ops classes.now)) }
{
    let ops = all_ops(alloc, classes)?;
    let queries = query_names(alloc, ops.as_slice())?;
    let soils = soil_names(alloc, ops.as_slice())?;
    let agree = contains_none(alloc, queries.as_slice(), soils.as_slice())?;
    Ok(agree)
}
