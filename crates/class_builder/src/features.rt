ghost use Rattle.std.specs.Prelude.{◌≡◌, ◌++◌, ◌<◌, ◌^◌, [], ◌∷◌, IfOk, OnOk, Some, filter, if◌then◌else◌, length, map, not};
ghost use Rattle.std.specs.Option.{option_map};
ghost use Rattle.class_decls.specs.Names.{numbered};
ghost use Rattle.class_builder.specs.Models.{attribute, derived_in, operation, operations_in, parameter, stored_in};
ghost use Rattle.class_builder.specs.Tables.{type_in};

use crate::type_names::{TypeNames, type_of};
use class_decls::{AttrDecl, ClassDecl, OpDecl, ParamDecl, TypeDecl};
use class_model::{Attribute, ClassNo, OclType, Operation, Parameter};
use ocl_values::Text;
use std::alloc::{AllocError, Global};
use use_lists::Items;

fn attribute(
    alloc: Global,
    names: &TypeNames,
    class: ClassNo,
    decl: &AttrDecl,
) -> Result<Attribute, AllocError>
    ensures { IfOk result (λ a. a ≡ attribute (type_in names.now) class decl.now) }
{
    Ok(Attribute {
        name: Text::copy_of(alloc, decl.name.text.as_str())?,
        of_type: type_of(alloc, names, &decl.of_type)?,
        class,
    })
}

fn add_attribute(
    alloc: Global,
    names: &TypeNames,
    class: ClassNo,
    decl: &AttrDecl,
    attrs: &mut Vec<Attribute>,
) -> Result<(), AllocError>
    ensures { OnOk result (attrs.new.items ≡ attrs.old.items ++ attribute (type_in names.now) class decl.now ∷ []) }
{
    attrs.push(attribute(alloc, names, class, decl)?)?;
    Ok(())
}

fn add_attribute_if(
    alloc: Global,
    names: &TypeNames,
    class: ClassNo,
    decl: &AttrDecl,
    holds: bool,
    attrs: &mut Vec<Attribute>,
) -> Result<(), AllocError>
    ensures { OnOk result (attrs.new.items ≡ attrs.old.items ++ (if holds then attribute (type_in names.now) class decl.now ∷ [] else [])) }
{
    if !holds {
        return Ok(());
    }
    add_attribute(alloc, names, class, decl, attrs)
}

/// Adds the stored attributes of a class.
fn add_stored(
    alloc: Global,
    names: &TypeNames,
    class: ClassNo,
    decls: &[AttrDecl],
    attrs: &mut Vec<Attribute>,
) -> Result<(), AllocError>
    ensures { OnOk result (attrs.new.items ≡ attrs.old.items ++ map (attribute (type_in names.now) class) (filter (λ a. not a.is_derived) decls.now)) }
{
    'decls: for decl in decls {
        add_attribute_if(alloc, names, class, decl, !decl.is_derived, attrs)?;
    }
    Ok(())
}

/// Adds the derived attributes of a class.
fn add_derived(
    alloc: Global,
    names: &TypeNames,
    class: ClassNo,
    decls: &[AttrDecl],
    attrs: &mut Vec<Attribute>,
) -> Result<(), AllocError>
    ensures { OnOk result (attrs.new.items ≡ attrs.old.items ++ map (attribute (type_in names.now) class) (filter (λ a. a.is_derived) decls.now)) }
{
    'decls: for decl in decls {
        add_attribute_if(alloc, names, class, decl, decl.is_derived, attrs)?;
    }
    Ok(())
}

/// The stored attributes, class by class.
pub(crate) fn stored_attributes(
    alloc: Global,
    names: &TypeNames,
    classes: &[&ClassDecl],
) -> Result<Items<Attribute>, AllocError>
    requires { length classes.now < 2 ^ 32 }
    ensures { IfOk result (λ v. v ≡ numbered (λ c d. stored_in (type_in names.now) c d.now) classes.now) }
{
    let mut attrs = Vec::new(alloc);
    'classes: for (i, class) in classes.iter().enumerate() {
        add_stored(alloc, names, i as u32, class.attrs.as_slice(), &mut attrs)?;
    }
    Ok(Items::from_vec(attrs))
}

/// The derived attributes, class by class.
pub(crate) fn derived_attributes(
    alloc: Global,
    names: &TypeNames,
    classes: &[&ClassDecl],
) -> Result<Items<Attribute>, AllocError>
    requires { length classes.now < 2 ^ 32 }
    ensures { IfOk result (λ v. v ≡ numbered (λ c d. derived_in (type_in names.now) c d.now) classes.now) }
{
    let mut attrs = Vec::new(alloc);
    'classes: for (i, class) in classes.iter().enumerate() {
        add_derived(alloc, names, i as u32, class.attrs.as_slice(), &mut attrs)?;
    }
    Ok(Items::from_vec(attrs))
}

fn parameter(alloc: Global, names: &TypeNames, decl: &ParamDecl) -> Result<Parameter, AllocError>
    ensures { IfOk result (λ p. p ≡ parameter (type_in names.now) decl.now) }
{
    Ok(Parameter {
        name: Text::copy_of(alloc, decl.name.text.as_str())?,
        of_type: type_of(alloc, names, &decl.of_type)?,
    })
}

fn parameters(
    alloc: Global,
    names: &TypeNames,
    decls: &[ParamDecl],
) -> Result<Items<Parameter>, AllocError>
    ensures { IfOk result (λ v. v ≡ map (parameter (type_in names.now)) decls.now) }
{
    let mut params = Vec::new(alloc);
    'decls: for decl in decls {
        params.push(parameter(alloc, names, decl)?)?;
    }
    Ok(Items::from_vec(params))
}

fn result_type(
    alloc: Global,
    names: &TypeNames,
    decl: &Option<TypeDecl>,
) -> Result<Option<OclType>, AllocError>
    ensures { IfOk result (λ t. t ≡ option_map (type_in names.now) decl.now) }
{
    match decl {
        None => Ok(None),
        Some(decl) => Ok(Some(type_of(alloc, names, decl)?)),
    }
}

fn operation(
    alloc: Global,
    names: &TypeNames,
    class: ClassNo,
    decl: &OpDecl,
) -> Result<Operation, AllocError>
    ensures { IfOk result (λ o. o ≡ operation (type_in names.now) class decl.now) }
{
    Ok(Operation {
        name: Text::copy_of(alloc, decl.name.text.as_str())?,
        params: parameters(alloc, names, decl.params.as_slice())?,
        result_type: result_type(alloc, names, &decl.result_type)?,
        class,
        body: decl.body,
    })
}

/// Adds the operations of a class.
fn add_operations(
    alloc: Global,
    names: &TypeNames,
    class: ClassNo,
    decls: &[OpDecl],
    ops: &mut Vec<Operation>,
) -> Result<(), AllocError>
    ensures { OnOk result (ops.new.items ≡ ops.old.items ++ map (operation (type_in names.now) class) decls.now) }
{
    'decls: for decl in decls {
        ops.push(operation(alloc, names, class, decl)?)?;
    }
    Ok(())
}

/// The operations, class by class.
pub(crate) fn operations(
    alloc: Global,
    names: &TypeNames,
    classes: &[&ClassDecl],
) -> Result<Items<Operation>, AllocError>
    requires { length classes.now < 2 ^ 32 }
    ensures { IfOk result (λ v. v ≡ numbered (λ c d. operations_in (type_in names.now) c d.now) classes.now) }
{
    let mut ops = Vec::new(alloc);
    'classes: for (i, class) in classes.iter().enumerate() {
        add_operations(alloc, names, i as u32, class.ops.as_slice(), &mut ops)?;
    }
    Ok(Items::from_vec(ops))
}
