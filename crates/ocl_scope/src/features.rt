ghost use Rattle.std.specs.Prelude.{◌≡◌, ◌<◌, ◌≤◌, IfSome, None, length, true};
ghost use Rattle.std.specs.Option.{option_copied};
ghost use Rattle.class_model.specs.Features.{operation};
ghost use Rattle.class_model.specs.InRange.{IsTypeOf};
ghost use Rattle.class_model.specs.declared.types.OclType.TheVariants as T;
ghost use Rattle.ocl_rules.specs.Properties.{feature_of_class, has_property, operation_of_type, property_rule};
ghost use Rattle.ocl_rules.specs.Typings.{Tells};
ghost use Rattle.ocl_scope.specs.Names.{gives_property, implicit_with_property};

use crate::{Environment, Variable};
use class_decls::Name;
use class_model::{ClassModel, ClassNo, OclType, OpNo};
use ocl_rules::{TypeFault, Typed, breaks_n};
use std::alloc::Global;

/// A class that the model does not have has nothing under a name: a law, which costs nothing.
fn has_nothing(model: &ClassModel, class: ClassNo, name: &str)
    requires { length model.now.classes ≤ class }
    ensures feature { feature_of_class model.now class name.now ≡ None }
    ensures operation { operation model.now class name.now ≡ None }
{
    model.has_numbers_in_range();
}

fn class_has_property(model: &ClassModel, class: ClassNo, name: &str) -> bool
    ensures value { result ≡ has_property model.now (T.Class class) name.now }
    ensures known { result ≡ true → class < length model.now.classes }
{
    if class < model.class_count() {
        return ocl_rules::has_property(model, &OclType::Class(class), name);
    }
    has_nothing(model, class, name);
    false
}

/// Whether a value of a type has something under a name, without arguments.
pub(crate) fn has_property(model: &ClassModel, of_type: &OclType, name: &str) -> bool
    ensures value { result ≡ has_property model.now of_type.now name.now }
    ensures known { result ≡ true → IsTypeOf model.now of_type.now }
{
    match of_type {
        OclType::Class(class) => class_has_property(model, *class, name),
        _ => false,
    }
}

fn operation_of_class(model: &ClassModel, class: ClassNo, name: &str) -> Option<OpNo>
    ensures value { result ≡ operation model.now class name.now }
    ensures within { IfSome result (λ op. op < length model.now.ops) }
{
    if class < model.class_count() {
        return model.op(class, name);
    }
    has_nothing(model, class, name);
    None
}

/// The operation of a name that objects of a type have.
pub(crate) fn operation_of_type(model: &ClassModel, of_type: &OclType, name: &str) -> Option<OpNo>
    ensures value { result ≡ operation_of_type model.now of_type.now name.now }
    ensures within { IfSome result (λ op. op < length model.now.ops) }
{
    match of_type {
        OclType::Class(class) => operation_of_class(model, *class, name),
        _ => None,
    }
}

/// A name without arguments behind a dot, where the source is no collection.
pub fn property(
    alloc: Global,
    model: &ClassModel,
    is_post: bool,
    name: &Name,
    is_before: bool,
    source: Typed,
) -> Result<Typed, TypeFault>
    ensures { Tells (property_rule model.now name.now.place is_post is_before name.now.text source) result }
{
    if has_property(model, &source.of_type, name.text.as_str()) {
        ocl_rules::property_rule(
            alloc,
            model,
            name.place,
            is_post,
            is_before,
            name.text.as_str(),
            source,
        )
    } else {
        Err(breaks_n(2, name.place))
    }
}

fn gives_property(model: &ClassModel, name: &str, variable: &Variable) -> bool
    ensures { result ≡ gives_property model.now name.now variable.now }
{
    variable.is_implicit && has_property(model, &variable.of_type, name)
}

/// The innermost implicit variable that has something under a name, without arguments.
#[tactic(auto, using(crate::proofs::Scopes::last_found, crate::proofs::Scopes::last_passed))]
pub(crate) fn implicit_with_property<'e>(
    model: &ClassModel,
    env: &'e Environment,
    name: &str,
) -> Option<&'e Variable>
    ensures { option_copied result ≡ implicit_with_property model.now env.now name.now }
{
    let variables = env.variables();
    let mut i = variables.len();
    'variables: while i > 0 {
        i -= 1;
        if gives_property(model, name, &variables[i]) {
            return Some(&variables[i]);
        }
    }
    None
}
