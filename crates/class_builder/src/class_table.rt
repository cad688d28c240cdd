ghost use Rattle.std.specs.Prelude.{◌≡◌, ◌++◌, ◌<◌, ◌^◌, [], All, IfOk, OnOk, length, map, slice_get};
ghost use Rattle.std.specs.List.{cons_option, enumerate_from, filter_map};
ghost use Rattle.std.specs.Option.{option_copied};
ghost use Rattle.class_rules.specs.Ancestors.{parent_numbers};
ghost use Rattle.class_builder.specs.Models.{class_by, enumeration, ordered};

use class_decls::{ClassDecl, EnumDecl, Name};
use class_model::{Class, ClassNo, Enumeration};
use class_rules::Hierarchy;
use ocl_values::Text;
use std::alloc::{AllocError, Global};
use use_lists::Items;

fn add_class<'a>(
    class: Option<&'a ClassDecl>,
    found: &mut Vec<&'a ClassDecl>,
) -> Result<(), AllocError>
    ensures { OnOk result (map (λ c. c.now) found.new.items ≡ map (λ c. c.now) found.old.items ++ cons_option (option_copied class.entry) []) }
{
    match class {
        None => Ok(()),
        Some(class) => {
            found.push(class)?;
            Ok(())
        }
    }
}

fn classes_at<'a>(
    alloc: Global,
    classes: &'a Items<ClassDecl>,
    places: &[usize],
) -> Result<Vec<&'a ClassDecl>, AllocError>
    ensures { IfOk result (λ v. map (λ c. c.now) v.items ≡ filter_map (slice_get classes.now) places.now) }
{
    let mut found = Vec::new(alloc);
    'places: for place in places {
        add_class(classes.get(*place), &mut found)?;
    }
    Ok(found)
}

/// The classes by number.
pub(crate) fn ordered<'a>(
    alloc: Global,
    hierarchy: &Hierarchy<'a>,
) -> Result<Vec<&'a ClassDecl>, AllocError>
    ensures { IfOk result (λ v. map (λ c. c.now) v.items ≡ ordered hierarchy.now) }
{
    let decls = hierarchy.decls();
    let classes = classes_at(alloc, &decls.classes, hierarchy.order())?;
    Ok(classes)
}

fn class_numbers(alloc: Global, numbers: &[usize]) -> Result<Items<ClassNo>, AllocError>
    requires { All (λ n. n < 2 ^ 32) numbers.now }
    ensures { IfOk result (λ v. v ≡ numbers.now) }
{
    let mut found = Vec::new(alloc);
    'numbers: for number in numbers {
        found.push(*number as u32)?;
    }
    Ok(Items::from_vec(found))
}

/// The class of a number.
fn class(alloc: Global, parents: &[usize], decl: &ClassDecl) -> Result<Class, AllocError>
    requires { All (λ n. n < 2 ^ 32) parents.now }
    ensures { IfOk result (λ c. c ≡ record { name = decl.now.name.text; is_abstract = decl.now.is_abstract; parents = parents.now }) }
{
    Ok(Class {
        name: Text::copy_of(alloc, decl.name.text.as_str())?,
        is_abstract: decl.is_abstract,
        parents: class_numbers(alloc, parents)?,
    })
}

/// The classes by number, each with the numbers of its parents.
pub(crate) fn classes(
    alloc: Global,
    hierarchy: &Hierarchy<'_>,
    decls: &[&ClassDecl],
) -> Result<Items<Class>, AllocError>
    requires small { length decls.now < 2 ^ 32 }
    ensures { IfOk result (λ v. v ≡ map (λ p. class_by (parent_numbers hierarchy.now) p.0 p.1.now) (enumerate_from 0 decls.now)) }
{
    let mut classes = Vec::new(alloc);
    'decls: for (i, decl) in decls.iter().enumerate() {
        classes.push(class(alloc, hierarchy.parents(i), decl)?)?;
    }
    Ok(Items::from_vec(classes))
}

fn texts(alloc: Global, names: &[Name]) -> Result<Items<Text>, AllocError>
    ensures { IfOk result (λ v. v ≡ map (λ n. n.text) names.now) }
{
    let mut texts = Vec::new(alloc);
    'names: for name in names {
        texts.push(Text::copy_of(alloc, name.text.as_str())?)?;
    }
    Ok(Items::from_vec(texts))
}

fn enumeration(alloc: Global, decl: &EnumDecl) -> Result<Enumeration, AllocError>
    ensures { IfOk result (λ e. e ≡ enumeration decl.now) }
{
    Ok(Enumeration {
        name: Text::copy_of(alloc, decl.name.text.as_str())?,
        literals: texts(alloc, decl.literals.as_slice())?,
    })
}

/// The enumerations, in the order of the text.
pub(crate) fn enumerations(
    alloc: Global,
    decls: &[EnumDecl],
) -> Result<Items<Enumeration>, AllocError>
    ensures { IfOk result (λ v. v ≡ map enumeration decls.now) }
{
    let mut enums = Vec::new(alloc);
    'decls: for decl in decls {
        enums.push(enumeration(alloc, decl)?)?;
    }
    Ok(Items::from_vec(enums))
}
