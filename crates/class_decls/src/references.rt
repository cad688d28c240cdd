ghost use Rattle.std.specs.Prelude.{◌≡◌, List, ℕ, IfOk, OnOk, [], ◌∷◌, ◌++◌, map};
ghost use Rattle.class_decls.specs.Entries.{first_of};
ghost use Rattle.class_decls.specs.References.{attr_types, class_references, end_classes, head_types, is_class, is_type};
ghost use Rattle.class_decls.specs.References.{places_outside, type_references, unknown_type};
ghost use Rattle.class_decls.specs.Texts.{has_text};
ghost use Rattle.std.specs.List.{flat_map};

use crate::name_set::NameSet;
use crate::names::{PLAIN_TYPES, heads};
use crate::repeats::earlier;
use crate::{AssocDecl, ClassDecl, CondDecl, Decls, Name, OpDecl};
use std::alloc::{AllocError, Global};
use use_text::Place;

/// The names of classes.
fn class_names<'a>(alloc: Global, decls: &'a Decls) -> Result<NameSet<'a>, AllocError>
    ensures { IfOk result (λ s. (t : List ℕ) → has_text s t ≡ is_class decls.now t) }
{
    let mut names = NameSet::new(alloc);
    names.add_names(decls.classes.as_slice())?;
    Ok(names)
}

/// The names of types.
fn type_names<'a>(alloc: Global, decls: &'a Decls) -> Result<NameSet<'a>, AllocError>
    ensures { IfOk result (λ s. (t : List ℕ) → has_text s t ≡ is_type decls.now t) }
{
    let mut names = NameSet::new(alloc);
    names.add_texts(&PLAIN_TYPES)?;
    names.add_names(decls.enums.as_slice())?;
    names.add_names(decls.classes.as_slice())?;
    Ok(names)
}

/// The first place of those of names that are not known and of one more.
fn first_outside(known: &NameSet<'_>, names: &[&Name], more: Option<Place>) -> Option<Place>
    ensures { result ≡ first_of more (places_outside (has_text known.now) (map (λ n. n.now) names.now)) }
{
    let mut first = more;
    let mut i = names.len();
    'names: while i > 0 {
        i -= 1;
        let name = names[i];
        if !known.contains(&name.text) {
            first = Some(earlier(name.place, first));
        }
    }
    first
}

fn add_names<'a>(names: &'a [Name], found: &mut Vec<&'a Name>) -> Result<(), AllocError>
    ensures { OnOk result (map (λ n. n.now) found.new.items ≡ map (λ n. n.now) found.old.items ++ names.now) }
{
    'names: for name in names {
        found.push(name)?;
    }
    Ok(())
}

fn add_parents<'a>(classes: &'a [ClassDecl], found: &mut Vec<&'a Name>) -> Result<(), AllocError>
    ensures { OnOk result (map (λ n. n.now) found.new.items ≡ map (λ n. n.now) found.old.items ++ flat_map (λ c. c.parents) classes.now) }
{
    'classes: for class in classes {
        add_names(class.parents.as_slice(), found)?;
    }
    Ok(())
}

fn add_ends<'a>(assocs: &'a [AssocDecl], found: &mut Vec<&'a Name>) -> Result<(), AllocError>
    ensures { OnOk result (map (λ n. n.now) found.new.items ≡ map (λ n. n.now) found.old.items ++ flat_map end_classes assocs.now) }
{
    'assocs: for assoc in assocs {
        found.push(&assoc.first.class)?;
        found.push(&assoc.second.class)?;
    }
    Ok(())
}

fn add_contexts<'a>(conds: &'a [CondDecl], found: &mut Vec<&'a Name>) -> Result<(), AllocError>
    ensures { OnOk result (map (λ n. n.now) found.new.items ≡ map (λ n. n.now) found.old.items ++ map (λ c. c.class) conds.now) }
{
    'conds: for cond in conds {
        found.push(&cond.class)?;
    }
    Ok(())
}

/// The names that have to be those of classes.
fn class_references<'a>(alloc: Global, decls: &'a Decls) -> Result<Vec<&'a Name>, AllocError>
    ensures { IfOk result (λ v. map (λ n. n.now) v.items ≡ class_references decls.now) }
{
    let mut found = Vec::new(alloc);
    add_parents(decls.classes.as_slice(), &mut found)?;
    add_ends(decls.assocs.as_slice(), &mut found)?;
    add_contexts(decls.conds.as_slice(), &mut found)?;
    Ok(found)
}

fn add_attr_types<'a>(class: &'a ClassDecl, found: &mut Vec<&'a Name>) -> Result<(), AllocError>
    ensures { OnOk result (map (λ n. n.now) found.new.items ≡ map (λ n. n.now) found.old.items ++ attr_types class.now) }
{
    'attrs: for attr in class.attrs.as_slice() {
        found.push(&attr.of_type.name)?;
    }
    Ok(())
}

fn add_param_types<'a>(head: &'a OpDecl, found: &mut Vec<&'a Name>) -> Result<(), AllocError>
    ensures { OnOk result (map (λ n. n.now) found.new.items ≡ map (λ n. n.now) found.old.items ++ map (λ p. p.of_type.name) head.now.params) }
{
    'params: for param in head.params.as_slice() {
        found.push(&param.of_type.name)?;
    }
    Ok(())
}

fn add_head_types<'a>(head: &'a OpDecl, found: &mut Vec<&'a Name>) -> Result<(), AllocError>
    ensures { OnOk result (map (λ n. n.now) found.new.items ≡ map (λ n. n.now) found.old.items ++ head_types head.now) }
{
    add_param_types(head, found)?;
    match &head.result_type {
        None => Ok(()),
        Some(of_type) => {
            found.push(&of_type.name)?;
            Ok(())
        }
    }
}

fn add_class_types<'a>(
    classes: &'a [ClassDecl],
    found: &mut Vec<&'a Name>,
) -> Result<(), AllocError>
    ensures { OnOk result (map (λ n. n.now) found.new.items ≡ map (λ n. n.now) found.old.items ++ flat_map attr_types classes.now) }
{
    'classes: for class in classes {
        add_attr_types(class, found)?;
    }
    Ok(())
}

fn add_types_of_heads<'a>(heads: &[&'a OpDecl], found: &mut Vec<&'a Name>) -> Result<(), AllocError>
    ensures { OnOk result (map (λ n. n.now) found.new.items ≡ map (λ n. n.now) found.old.items ++ flat_map (λ h. head_types h.now) heads.now) }
{
    'heads: for head in heads {
        add_head_types(head, found)?;
    }
    Ok(())
}

/// The names that have to be those of types.
fn type_references<'a>(alloc: Global, decls: &'a Decls) -> Result<Vec<&'a Name>, AllocError>
    ensures { IfOk result (λ v. map (λ n. n.now) v.items ≡ type_references decls.now) }
{
    let heads = heads(alloc, decls)?;
    let mut found = Vec::new(alloc);
    add_class_types(decls.classes.as_slice(), &mut found)?;
    add_types_of_heads(heads.as_slice(), &mut found)?;
    Ok(found)
}

/// M2: the first name that is wanted to be that of a class or a type, and is none.
pub fn unknown_type(alloc: Global, decls: &Decls) -> Result<Option<Place>, AllocError>
    ensures { IfOk result (λ place. place ≡ unknown_type decls.now) }
{
    let of_classes = class_references(alloc, decls)?;
    let of_types = type_references(alloc, decls)?;
    if of_classes.is_empty() && of_types.is_empty() {
        return Ok(None);
    }
    let classes = class_names(alloc, decls)?;
    let types = type_names(alloc, decls)?;
    let first = first_outside(&types, of_types.as_slice(), None);
    Ok(first_outside(&classes, of_classes.as_slice(), first))
}
