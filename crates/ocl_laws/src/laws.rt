ghost use Rattle.std.specs.Prelude.{◌≡◌, IfErr, IfOk};
ghost use Rattle.std.specs.Prelude.{ℕ, List, false};
ghost use Rattle.use_syntax.specs.Reading.{read_command, read_model};
ghost use Rattle.ocl_core.specs.Trees.{ReadsNow};
ghost use Rattle.ocl_rules.specs.Typings.{Tells};
ghost use Rattle.ocl_scope.specs.Ranges.{IsEnvironmentOf, IsTypedAmong};
ghost use Rattle.ocl_types.specs.Walk.{type_expr};
ghost use Rattle.ocl_syntax.specs.Expressions.{written};
ghost use Rattle.ocl_syntax.specs.Standing.{IsTokenPlaceOrZero, StandsIn};
ghost use Rattle.ocl_laws.specs.Refused.{ReadIsRefusedInText};
ghost use Rattle.ocl_laws.specs.Told.{HasMemory};

use class_model::ClassModel;
use ocl_rules::{TypeFault, Typed};
use ocl_scope::Environment;
use ocl_syntax::{Written, places_are_those_of_tokens, places_in_texts_are_those_of_tokens};
use use_decls::Lexed;
use use_nodes::NodeRef;

// Laws of the type of every expression. The functions do nothing; what they ensure is the law.

/// Two answers that tell the type of one expression are one, where memory sufficed.
pub fn typings_are_told_once(
    model: &ClassModel,
    is_post: bool,
    env: &Environment,
    written: &Written,
    first: &Result<Typed, TypeFault>,
    second: &Result<Typed, TypeFault>,
)
    requires first { Tells (type_expr model.now is_post env.now written.now) first.now }
    requires second { Tells (type_expr model.now is_post env.now written.now) second.now }
    requires first_had_memory { HasMemory first.now }
    requires second_had_memory { HasMemory second.now }
    ensures { first.now ≡ second.now }
{}

/// An expression is refused at a place that stands in it.
pub fn refusals_stand_in_expressions(
    model: &ClassModel,
    is_post: bool,
    env: &Environment,
    written: &Written,
)
    ensures { IfErr (type_expr model.now is_post env.now written.now) (λ r. StandsIn r.place written.now) }
{}

/// What an expression is given, a checked expression and its type, is of the model: each class,
/// enumeration and other number in them is the model's, and each entry that is read is one of the
/// environment, or of those that the expression itself adds.
pub fn types_are_in_range(model: &ClassModel, is_post: bool, env: &Environment, written: &Written)
    requires { IsEnvironmentOf model.now env.now }
    ensures { IfOk (type_expr model.now is_post env.now written.now) (IsTypedAmong model.now env.now.size) }
{
    model.has_numbers_in_range();
}

/// What an expression outside a postcondition is given reads the present state alone: no `@pre` and
/// no `oclIsNew` stands in it.
pub fn types_read_the_present_state(model: &ClassModel, env: &Environment, written: &Written)
    ensures { IfOk (type_expr model.now false env.now written.now) (λ x. ReadsNow x.expr) }
{}

/// An expression that is written at a node is refused at the place of a token of the text, or at 0:0,
/// which is told where the tree lacks a part or nests more than 1,000 forms.
pub fn refusals_stand_at_tokens(
    model: &ClassModel,
    is_post: bool,
    env: &Environment,
    lexed: &Lexed<'_>,
    node: &NodeRef<'_>,
)
    ensures { IfErr (type_expr model.now is_post env.now (written lexed.now node.now)) (λ r. IsTokenPlaceOrZero lexed.now.tokens r.place) }
{
    places_are_those_of_tokens(lexed, node);
}

/// An expression of a text that was read, a model's or a command's, is refused at the place of a token
/// of the text, and never at 0:0.
pub fn refusals_in_texts_stand_at_tokens(model: &ClassModel, is_post: bool, env: &Environment)
    ensures model { (text : List ℕ) → ReadIsRefusedInText model.now is_post env.now text (read_model text) }
    ensures command { (first_line : ℕ) (text : List ℕ) → ReadIsRefusedInText model.now is_post env.now text (read_command first_line text) }
{
    places_in_texts_are_those_of_tokens();
}
