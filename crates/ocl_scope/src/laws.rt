ghost use Rattle.std.specs.Prelude.{◌≡◌, [], ◌∷◌, ◌+◌, ◌<◌, Contains, MatchResult};
ghost use Rattle.class_model.specs.InRange.{IsTypeOf};
ghost use Rattle.ocl_rules.specs.Forms.{levels};
ghost use Rattle.ocl_scope.specs.Calls.{call_rule, implicit_call};
ghost use Rattle.ocl_scope.specs.Collected.{collected, hidden_element};
ghost use Rattle.ocl_scope.specs.Environments.{back_to, no_variables, scope_of, with_values, with_variable};
ghost use Rattle.ocl_scope.specs.Literals.{literal_type, only_literal_rule, qualified};
ghost use Rattle.ocl_scope.specs.Names.{bare, declared_type, type_wanted};
ghost use Rattle.ocl_scope.specs.Ranges.{IsEnvironmentOf, IsGivenAmong, IsTypedAmong, places_of};
ghost use Rattle.ocl_rules.specs.Properties.{property_rule};

use crate::{Environment, Given};
use class_decls::{Name, TypeDecl};
use class_model::{ClassModel, OclType};
use ocl_rules::Typed;
use ocl_values::{Text, Value};

// Laws of names and calls: what they give is one of the model and of the environment, and what is
// refused is refused where it is written. The functions do nothing; what they ensure is the law.

/// What is pushed keeps the variables among the values.
pub fn environments_keep_their_variables(
    model: &ClassModel,
    env: &Environment,
    name: &Option<Text>,
    of_type: &OclType,
    is_implicit: bool,
    count: u32,
)
    requires env { IsEnvironmentOf model.now env.now }
    requires of_type { IsTypeOf model.now of_type.now }
    ensures empty { IsEnvironmentOf model.now no_variables }
    ensures variable { IsEnvironmentOf model.now (with_variable env.now name.now of_type.now is_implicit) }
    ensures values { IsEnvironmentOf model.now (with_values env.now count) }
{}

/// To leave is to take back what was pushed.
pub fn what_was_pushed_is_left(
    env: &Environment,
    name: &Option<Text>,
    of_type: &OclType,
    is_implicit: bool,
    count: u32,
)
    ensures variable { back_to (with_variable env.now name.now of_type.now is_implicit) (scope_of env.now) ≡ env.now }
    ensures values { back_to (with_values env.now count) (scope_of env.now) ≡ env.now }
{}

/// A name where a type is wanted.
pub fn types_are_the_models(model: &ClassModel, env: &Environment, name: &Name)
    ensures { MatchResult (type_wanted model.now env.now name.now) (IsTypeOf model.now) (λ r. r.place ≡ name.now.place) }
{}

/// A type as it is written.
pub fn declared_types_are_the_models(model: &ClassModel, env: &Environment, written: &TypeDecl)
    ensures { MatchResult (declared_type model.now env.now written.now) (IsTypeOf model.now) (λ r. r.place ≡ written.now.name.place) }
{}

/// A name without arguments.
pub fn names_are_in_range(
    model: &ClassModel,
    is_post: bool,
    env: &Environment,
    name: &Name,
    is_before: bool,
)
    requires { IsEnvironmentOf model.now env.now }
    ensures { MatchResult (bare model.now is_post env.now name.now is_before) (IsTypedAmong model.now env.now.size) (λ r. r.place ≡ name.now.place) }
{
    model.has_numbers_in_range();
}

/// A name without arguments behind a dot.
pub fn properties_are_in_range(
    model: &ClassModel,
    is_post: bool,
    name: &Name,
    is_before: bool,
    source: &Typed,
    size: u32,
)
    requires { IsTypedAmong model.now size source.now }
    ensures { MatchResult (property_rule model.now name.now.place is_post is_before name.now.text source.now)
        (IsTypedAmong model.now size) (λ r. r.place ≡ name.now.place) }
{
    model.has_numbers_in_range();
}

/// A call of an operation of a value that is no collection.
pub fn calls_are_in_range(
    model: &ClassModel,
    is_post: bool,
    name: &Name,
    is_before: bool,
    source: &Typed,
    given: &Given,
    size: u32,
)
    requires source { IsTypedAmong model.now size source.now }
    requires given { IsGivenAmong model.now size given.now }
    ensures { MatchResult (call_rule model.now is_post name.now is_before source.now given.now)
        (IsTypedAmong model.now size) (λ r. Contains (places_of name.now given.now) r.place) }
{
    model.has_numbers_in_range();
}

/// A call without a source.
pub fn implicit_calls_are_in_range(
    model: &ClassModel,
    is_post: bool,
    env: &Environment,
    name: &Name,
    is_before: bool,
    given: &Given,
)
    requires env { IsEnvironmentOf model.now env.now }
    requires given { IsGivenAmong model.now env.now.size given.now }
    ensures { MatchResult (implicit_call model.now is_post env.now name.now is_before given.now)
        (IsTypedAmong model.now env.now.size) (λ r. Contains (places_of name.now given.now) r.place) }
{
    model.has_numbers_in_range();
}

/// `#a`.
pub fn literals_are_in_range(model: &ClassModel, name: &Name, size: u32)
    ensures { MatchResult (only_literal_rule model.now name.now) (IsTypedAmong model.now size) (λ r. r.place ≡ name.now.place) }
{}

/// `E::a`. What is refused is refused at one of both names.
pub fn qualified_literals_are_in_range(
    model: &ClassModel,
    env: &Environment,
    name: &Name,
    literal: &Name,
    is_before: bool,
    is_called: bool,
    size: u32,
)
    ensures { MatchResult (qualified model.now env.now name.now literal.now is_before is_called)
        (IsTypedAmong model.now size) (λ r. Contains (name.now.place ∷ literal.now.place ∷ []) r.place) }
{}

/// The innermost element of a collection is the last value that the levels of the collection add.
pub fn hidden_elements_are_in_range(model: &ClassModel, of_type: &OclType, size: u32)
    requires of_type { IsTypeOf model.now of_type.now }
    requires nested { 0 < levels of_type.now }
    ensures { IsTypedAmong model.now (size + levels of_type.now) (hidden_element of_type.now size) }
{}

/// What is read of it is collected.
pub fn collected_values_are_in_range(model: &ClassModel, source: &Typed, read: &Typed, size: u32)
    requires source { IsTypedAmong model.now size source.now }
    requires read { IsTypedAmong model.now (size + levels source.now.of_type) read.now }
    ensures { IsTypedAmong model.now size (collected source.now.of_type source.now.expr size read.now) }
{}
