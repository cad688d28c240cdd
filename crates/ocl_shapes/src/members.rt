ghost use Rattle.std.specs.Prelude.{◌≡◌, ◌+◌, ◌<◌, ◌≤◌, ◌^◌, true};
ghost use Rattle.ocl_rules.specs.Forms.{levels, max_levels};
ghost use Rattle.ocl_rules.specs.Typings.{Tells};
ghost use Rattle.ocl_scope.specs.Calls.{is_collection};
ghost use Rattle.ocl_shapes.specs.Members.{called, property, property_of};

use crate::elements::is_collection;
use class_decls::Name;
use class_model::ClassModel;
use ocl_rules::{TypeFault, Typed};
use ocl_scope::{Environment, Given, call_rule, collected, hidden_element};
use std::alloc::Global;

/// A property of each element of a collection.
#[tactic(auto, using(crate::proofs::Nested::nested))]
fn property_of_elements(
    alloc: Global,
    model: &ClassModel,
    is_post: bool,
    env: &Environment,
    name: &Name,
    is_before: bool,
    source: Typed,
) -> Result<Typed, TypeFault>
    requires shallow { levels source.of_type ≤ max_levels }
    requires nested { is_collection source.of_type ≡ true }
    requires room { env.now.size + 256 < 2 ^ 32 }
    ensures { Tells (property_of model.now is_post env.now name.now is_before source true) result }
{
    let number = env.size();
    let Typed { expr, of_type } = source;
    let inner = hidden_element(alloc, &of_type, number)?;
    let read = ocl_scope::property(alloc, model, is_post, name, is_before, inner)?;
    Ok(collected(alloc, &of_type, expr, number, read)?)
}

/// A property of a value, or of each element of a collection.
#[tactic(auto, unfolding(crate::specs::Members::property))]
pub fn property(
    alloc: Global,
    model: &ClassModel,
    is_post: bool,
    env: &Environment,
    name: &Name,
    is_before: bool,
    source: Typed,
) -> Result<Typed, TypeFault>
    requires shallow { levels source.of_type ≤ max_levels }
    requires room { env.now.size + 256 < 2 ^ 32 }
    ensures { Tells (property model.now is_post env.now name.now is_before source) result }
{
    if is_collection(&source.of_type) {
        property_of_elements(alloc, model, is_post, env, name, is_before, source)
    } else {
        ocl_scope::property(alloc, model, is_post, name, is_before, source)
    }
}

/// A call of each element of a collection, where its arguments are typed.
#[tactic(auto, using(crate::proofs::Nested::nested))]
fn called_of_elements(
    alloc: Global,
    model: &ClassModel,
    is_post: bool,
    env: &Environment,
    name: &Name,
    is_before: bool,
    source: Typed,
    given: Given,
) -> Result<Typed, TypeFault>
    requires shallow { levels source.of_type ≤ max_levels }
    requires nested { is_collection source.of_type ≡ true }
    requires room { env.now.size + 256 < 2 ^ 32 }
    ensures { Tells (called model.now is_post env.now name.now is_before source true given) result }
{
    let number = env.size();
    let Typed { expr, of_type } = source;
    let inner = hidden_element(alloc, &of_type, number)?;
    let read = call_rule(alloc, model, is_post, name, is_before, inner, given)?;
    Ok(collected(alloc, &of_type, expr, number, read)?)
}

/// A call of a value or of each element of a collection, where its arguments are typed.
pub fn called(
    alloc: Global,
    model: &ClassModel,
    is_post: bool,
    env: &Environment,
    name: &Name,
    is_before: bool,
    source: Typed,
    of_elements: bool,
    given: Given,
) -> Result<Typed, TypeFault>
    requires shallow { levels source.of_type ≤ max_levels }
    requires nested { of_elements ≡ true → is_collection source.of_type ≡ true }
    requires room { env.now.size + 256 < 2 ^ 32 }
    ensures { Tells (called model.now is_post env.now name.now is_before source of_elements given) result }
{
    if of_elements {
        called_of_elements(alloc, model, is_post, env, name, is_before, source, given)
    } else {
        call_rule(alloc, model, is_post, name, is_before, source, given)
    }
}
