ghost use Rattle.std.specs.Prelude.{◌≡◌, ◌<◌, ◌^◌, All, IfOk, IfSome, length};
ghost use Rattle.use_syntax.specs.Language.{language};
ghost use Rattle.use_text.specs.Tokens.{IsWithin};
ghost use Rattle.class_model.specs.InRange.{IsTypeOf};
ghost use Rattle.ocl_core.specs.Trees.{IsSound};
ghost use Rattle.ocl_scope.specs.Ranges.{IsEnvironmentOf};

use class_model::{ClassModel, OclType};
use grammar_core::Grammar;
use ocl_core::Expr;
use ocl_laws::types_are_in_range;
use ocl_rules::{TypeFault, Typed};
use ocl_scope::{Environment, environments_keep_their_variables};
use ocl_syntax::{Written, written};
use ocl_types::type_expr;
use ocl_values::Text;
use std::alloc::{AllocError, Global};
use use_decls::Lexed;
use use_nodes::{CommandNode, NodeRef, QueryNode};
use use_syntax::{Parsed, read_command};

fn query_read(alloc: Global, g: &Grammar, text: &str) -> Result<Option<Parsed>, AllocError>
    requires { g.now ≡ language }
    ensures { IfOk result (λ o. IfSome o (λ p. All (IsWithin (length p.text)) p.tokens)) }
{
    if text.len() > 10_000 {
        return Ok(None);
    }
    match read_command(alloc, g, text.as_bytes(), 1) {
        Ok(parsed) => Ok(Some(parsed)),
        Err(_) => Ok(None),
    }
}

/// The expression that a command asks for.
fn asked<'a>(root: &NodeRef<'a>) -> Option<NodeRef<'a>> {
    let command = CommandNode::of(root)?;
    let query = QueryNode::of(&command.form?)?;
    Some(query.expression)
}

fn written_of(alloc: Global, g: &Grammar, text: &str) -> Result<Option<Written>, AllocError>
    requires { g.now ≡ language }
{
    match query_read(alloc, g, text)? {
        None => Ok(None),
        Some(parsed) => match asked(&NodeRef::root(&parsed.tree)) {
            None => Ok(None),
            Some(node) => Ok(Some(written(alloc, &Lexed::of(&parsed), &node)?)),
        },
    }
}

fn class_type(model: &ClassModel, name: &str) -> OclType
    ensures { IsTypeOf model.now result }
{
    match model.class_by_name(name) {
        None => OclType::Any,
        Some(class) => {
            if class < model.class_count() {
                OclType::Class(class)
            } else {
                OclType::Any
            }
        }
    }
}

/// No name.
fn no_names(alloc: Global, model: &ClassModel) -> Environment
    ensures { IsEnvironmentOf model.now result }
{
    let _ = model;
    Environment::new(alloc)
}

fn pushed(
    model: &ClassModel,
    mut names: Environment,
    name: Option<Text>,
    of_type: OclType,
) -> Result<Environment, AllocError>
    requires size { names.size < 1000 }
    requires names { IsEnvironmentOf model.now names }
    requires of_type { IsTypeOf model.now of_type }
    ensures { IfOk result (IsEnvironmentOf model.now) }
{
    environments_keep_their_variables(model, &names, &name, &of_type, false, 0);
    names.push(name, of_type, false)?;
    Ok(names)
}

/// One name more.
fn with(
    alloc: Global,
    model: &ClassModel,
    names: Environment,
    name: &str,
    of_type: OclType,
) -> Result<Environment, AllocError>
    requires names { IsEnvironmentOf model.now names }
    requires of_type { IsTypeOf model.now of_type }
    ensures { IfOk result (IsEnvironmentOf model.now) }
{
    if names.size() >= 1_000 {
        return Ok(names);
    }
    let name = Text::copy_of(alloc, name)?;
    pushed(model, names, Some(name), of_type)
}

/// The names of the values of `eval_outcomes::environment`, in their order.
fn names(alloc: Global, model: &ClassModel) -> Result<Environment, AllocError>
    ensures { IfOk result (IsEnvironmentOf model.now) }
{
    let all = no_names(alloc, model);
    let all = with(alloc, model, all, "ada", class_type(model, "Person"))?;
    let all = with(alloc, model, all, "bob", class_type(model, "Person"))?;
    let all = with(alloc, model, all, "cy", class_type(model, "Person"))?;
    let all = with(alloc, model, all, "dora", class_type(model, "Person"))?;
    let all = with(alloc, model, all, "gone", class_type(model, "Person"))?;
    let all = with(alloc, model, all, "nobody", class_type(model, "Person"))?;
    let all = with(alloc, model, all, "t", class_type(model, "Team"))?;
    let all = with(alloc, model, all, "u", class_type(model, "Team"))?;
    let all = with(alloc, model, all, "filler", OclType::Str)?;
    with(alloc, model, all, "tail", OclType::Str)
}

fn typed_as_written(
    alloc: Global,
    model: &ClassModel,
    is_post: bool,
    mut names: Environment,
    written: &Written,
) -> Result<Typed, TypeFault>
    requires size { names.size < 2 ^ 31 }
    requires names { IsEnvironmentOf model.now names }
    ensures { IfOk result (λ t. IsSound t.expr) }
{
    types_are_in_range(model, is_post, &names, written);
    type_expr(alloc, model, is_post, &mut names, written)
}

/// The expression of a typed one.
fn expression_of(
    alloc: Global,
    model: &ClassModel,
    is_post: bool,
    names: Environment,
    written: &Written,
) -> Option<Expr>
    requires size { names.size < 2 ^ 31 }
    requires names { IsEnvironmentOf model.now names }
    ensures { IfSome result IsSound }
{
    match typed_as_written(alloc, model, is_post, names, written) {
        Ok(typed) => Some(typed.expr),
        Err(_) => None,
    }
}

fn expression_in(
    alloc: Global,
    model: &ClassModel,
    is_post: bool,
    names: Environment,
    written: &Written,
) -> Option<Expr>
    requires { IsEnvironmentOf model.now names }
    ensures { IfSome result IsSound }
{
    if names.size() > 1_000 {
        return None;
    }
    expression_of(alloc, model, is_post, names, written)
}

/// The expression that a text asks for, in a postcondition or not.
pub(crate) fn expression(
    alloc: Global,
    g: &Grammar,
    model: &ClassModel,
    is_post: bool,
    text: &str,
) -> Result<Option<Expr>, AllocError>
    requires { g.now ≡ language }
    ensures { IfOk result (λ o. IfSome o IsSound) }
{
    match written_of(alloc, g, text)? {
        None => Ok(None),
        Some(written) => {
            let names = names(alloc, model)?;
            Ok(expression_in(alloc, model, is_post, names, &written))
        }
    }
}
