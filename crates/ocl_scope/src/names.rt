ghost use Rattle.std.specs.Prelude.{◌≡◌, IfOk};
ghost use Rattle.std.specs.Option.{option_copied};
ghost use Rattle.ocl_rules.specs.Typings.{Tells};
ghost use Rattle.ocl_scope.specs.Environments.{variable_named};
ghost use Rattle.ocl_scope.specs.Names.{bare, declared_if, declared_type, finds_value, in_collections, plain_named, property_of_implicit, type_named, type_or_fault, type_wanted, value_of_name, variable};

use crate::features::{implicit_with_property, property};
use crate::{Environment, Variable};
use class_decls::{Name, TypeDecl};
use class_model::{ClassModel, OclType};
use ocl_core::Expr;
use ocl_rules::{TypeFault, Typed, breaks_n, breaks_t};
use ocl_values::Kind;
use std::alloc::{AllocError, Global};
use use_lists::Boxed;

fn plain_named(name: &str) -> Option<OclType>
    ensures { result ≡ plain_named name.now }
{
    match name {
        "Boolean" => Some(OclType::Bool),
        "Integer" => Some(OclType::Int),
        "String" => Some(OclType::Str),
        "OclAny" => Some(OclType::Any),
        "OclVoid" => Some(OclType::Void),
        _ => None,
    }
}

/// The type of a name.
pub fn type_named(model: &ClassModel, name: &str) -> Option<OclType>
    ensures { result ≡ type_named model.now name.now }
{
    if let Some(plain) = plain_named(name) {
        return Some(plain);
    }
    if let Some(number) = model.enum_by_name(name) {
        return Some(OclType::Enum(number));
    }
    match model.class_by_name(name) {
        None => None,
        Some(number) => Some(OclType::Class(number)),
    }
}

/// Whether a name stands for a value: a variable, or what an implicit one has.
pub fn finds_value(model: &ClassModel, env: &Environment, name: &str) -> bool
    ensures { result ≡ finds_value model.now env.now name.now }
{
    env.variable_named(name).is_some() || implicit_with_property(model, env, name).is_some()
}

/// The type of a name where a type is wanted.
pub fn type_wanted(model: &ClassModel, env: &Environment, name: &Name) -> Result<OclType, TypeFault>
    ensures { Tells (type_wanted model.now env.now name.now) result }
{
    match type_named(model, name.text.as_str()) {
        Some(of_type) => Ok(of_type),
        None => {
            if finds_value(model, env, name.text.as_str()) {
                Err(breaks_t(8, name.place))
            } else {
                Err(breaks_n(1, name.place))
            }
        }
    }
}

/// A type in collections of these kinds, from the outside in.
fn in_collections(alloc: Global, kinds: &[Kind], of_type: OclType) -> Result<OclType, AllocError>
    ensures { IfOk result (λ t. t ≡ in_collections kinds.now of_type) }
{
    let mut nested = of_type;
    let mut i = kinds.len();
    'kinds: while i > 0 {
        i -= 1;
        nested = OclType::Coll(kinds[i], Boxed::new(alloc, nested)?);
    }
    Ok(nested)
}

/// A type as it is written.
pub fn declared_type(
    alloc: Global,
    model: &ClassModel,
    env: &Environment,
    written: &TypeDecl,
) -> Result<OclType, TypeFault>
    ensures { Tells (declared_type model.now env.now written.now) result }
{
    let of_type = type_wanted(model, env, &written.name)?;
    Ok(in_collections(alloc, written.kinds.as_slice(), of_type)?)
}

/// The type that is written, if one is.
pub fn declared_if(
    alloc: Global,
    model: &ClassModel,
    env: &Environment,
    written: &Option<TypeDecl>,
) -> Result<Option<OclType>, TypeFault>
    ensures { Tells (declared_if model.now env.now written.now) result }
{
    match written {
        None => Ok(None),
        Some(written) => Ok(Some(declared_type(alloc, model, env, written)?)),
    }
}

/// A variable as an expression.
pub(crate) fn variable(alloc: Global, found: &Variable) -> Result<Typed, AllocError>
    ensures { IfOk result (λ t. t ≡ variable found.now) }
{
    Ok(Typed {
        expr: Expr::Local(found.number),
        of_type: found.of_type.try_copy(alloc)?,
    })
}

fn property_of_implicit(
    alloc: Global,
    model: &ClassModel,
    is_post: bool,
    name: &Name,
    is_before: bool,
    implicit: Option<&Variable>,
) -> Result<Typed, TypeFault>
    ensures { Tells (property_of_implicit model.now is_post name.now is_before (option_copied implicit.entry)) result }
{
    match implicit {
        None => Err(breaks_n(1, name.place)),
        Some(found) => {
            let source = variable(alloc, found)?;
            property(alloc, model, is_post, name, is_before, source)
        }
    }
}

fn value_of_name(
    alloc: Global,
    model: &ClassModel,
    is_post: bool,
    env: &Environment,
    name: &Name,
    is_before: bool,
) -> Result<Typed, TypeFault>
    ensures { Tells (value_of_name model.now is_post env.now name.now is_before (variable_named env.now name.now.text)) result }
{
    match env.variable_named(name.text.as_str()) {
        None => {
            let implicit = implicit_with_property(model, env, name.text.as_str());
            property_of_implicit(alloc, model, is_post, name, is_before, implicit)
        }
        Some(found) => {
            if is_before {
                return Err(breaks_t(9, name.place));
            }
            Ok(variable(alloc, found)?)
        }
    }
}

/// A name without arguments (OCL 2.3.1, 7.5.9): a variable, or a property of the innermost implicit
/// variable that has it.
pub fn bare(
    alloc: Global,
    model: &ClassModel,
    is_post: bool,
    env: &Environment,
    name: &Name,
    is_before: bool,
) -> Result<Typed, TypeFault>
    ensures { Tells (bare model.now is_post env.now name.now is_before) result }
{
    if type_named(model, name.text.as_str()).is_some() {
        return Err(breaks_t(8, name.place));
    }
    value_of_name(alloc, model, is_post, env, name, is_before)
}
