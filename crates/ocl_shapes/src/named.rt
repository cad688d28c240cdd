ghost use Rattle.std.specs.Prelude.{◌≡◌};
ghost use Rattle.ocl_rules.specs.Typings.{Tells};
ghost use Rattle.ocl_shapes.specs.Named.{named_by, type_found};

use class_decls::Name;
use class_model::{ClassModel, OclType};
use ocl_rules::{TypeFault, Typed, breaks_n, breaks_t};
use ocl_scope::{
    Environment, Given, TypeArgument, bare, finds_value, implicit_call, qualified, type_named,
};
use std::alloc::Global;
use use_lists::Boxed;

/// A name where a type is wanted, by the type of that name.
pub fn type_found(
    model: &ClassModel,
    env: &Environment,
    name: &Name,
    found: Option<OclType>,
) -> Result<TypeArgument, TypeFault>
    ensures { Tells (type_found model.now env.now name.now found) result }
{
    match found {
        Some(of_type) => Ok(TypeArgument::OfType(of_type)),
        None => {
            if finds_value(model, env, name.text.as_str()) {
                Ok(TypeArgument::NoType(name.place))
            } else {
                Err(breaks_n(1, name.place))
            }
        }
    }
}

/// A name with what stands behind it.
pub fn named_by(
    alloc: Global,
    model: &ClassModel,
    is_post: bool,
    env: &Environment,
    name: &Name,
    is_before: bool,
    literal: &Option<Boxed<Name>>,
    given: Option<Given>,
) -> Result<Typed, TypeFault>
    ensures { Tells (named_by model.now is_post env.now name.now is_before literal.now given) result }
{
    if let Some(literal) = literal {
        return qualified(model, env, name, literal.get(), is_before, given.is_some());
    }
    match given {
        None => bare(alloc, model, is_post, env, name, is_before),
        Some(given) => {
            if type_named(model, name.text.as_str()).is_some() {
                return Err(breaks_t(8, name.place));
            }
            implicit_call(alloc, model, is_post, env, name, is_before, given)
        }
    }
}
