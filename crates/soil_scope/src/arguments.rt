ghost use Rattle.std.specs.Prelude.{◌≡◌, ◌<◌, ◌^◌, ◌++◌, IfOk, OnOk};
ghost use Rattle.std.specs.List.{filter_map};
ghost use Rattle.std.specs.Option.{option_copied, option_map};
ghost use Rattle.ocl_rules.specs.Typings.{Tells};
ghost use Rattle.ocl_scope.specs.Names.{declared_if};
ghost use Rattle.ocl_shapes.specs.Combining.{if_there};
ghost use Rattle.ocl_syntax.specs.Expressions.{written};
ghost use Rattle.ocl_types.specs.Nodes.{behind};
ghost use Rattle.soil_scope.specs.Arguments.{accumulator_at, accumulator_of, argument_value, arguments_of, body_at, item_at, now_in, values, written_arguments};
ghost use Rattle.soil_scope.specs.Expressions.{type_of};
ghost use Rattle.soil_scope.specs.Scenes.{scene};
ghost use Rattle.use_nodes.specs.ExpressionNodes.{item_node};

use crate::Setting;
use crate::expressions::type_of;
use class_decls::TypeDecl;
use class_model::OclType;
use ocl_rules::{TypeFault, Typed};
use ocl_scope::{Environment, declared_type};
use ocl_shapes::{expression_of, start_of, written_type};
use ocl_syntax::{Argument, Written, written};
use std::alloc::{AllocError, Global};
use use_decls::{Lexed, push_some, type_if};
use use_lists::{Boxed, Items};
use use_nodes::{ArgsNode, ItemNode, NodeRef, Parts};

/// The type that is written behind an argument, if one is.
fn declared(
    setting: &Setting<'_>,
    env: &Environment,
    of_type: Option<&TypeDecl>,
) -> Result<Option<OclType>, TypeFault>
    ensures { Tells (declared_if setting.now.model.now env.now (option_copied of_type.entry)) result }
{
    match of_type {
        None => Ok(None),
        Some(of_type) => {
            let of_type = declared_type(setting.alloc, setting.model, env, of_type)?;
            Ok(Some(of_type))
        }
    }
}

/// The type of an expression that may be left out.
fn typed_if(
    setting: &Setting<'_>,
    env: &mut Environment,
    expression: Option<&Written>,
) -> Result<Option<Typed>, TypeFault>
    requires { env.old.size < 2 ^ 31 }
    ensures value { Tells (if_there (type_of (scene setting.now) env.old) (option_copied expression.entry)) result }
    ensures environment { env.new ≡ env.old }
{
    match expression {
        None => Ok(None),
        Some(expression) => {
            let typed = type_of(setting, env, expression)?;
            Ok(Some(typed))
        }
    }
}

/// Behind what is written first in an argument, its type is looked up and its start is typed.
#[tactic(auto, unfolding(ocl_types::specs::Nodes::behind))]
fn behind(
    setting: &Setting<'_>,
    env: &mut Environment,
    argument: &Argument,
) -> Result<Option<Typed>, TypeFault>
    requires { env.old.size < 2 ^ 31 }
    ensures value { Tells (behind (now_in (scene setting.now)) (type_of (scene setting.now)) env.old argument.now) result }
    ensures environment { env.new ≡ env.old }
{
    let _ = declared(setting, env, written_type(argument))?;
    typed_if(setting, env, start_of(argument))
}

#[tactic(auto, unfolding(crate::specs::Arguments::argument_value, ocl_types::specs::Nodes::argument_value))]
fn argument_value(
    setting: &Setting<'_>,
    env: &mut Environment,
    argument: &Argument,
) -> Result<Typed, TypeFault>
    requires { env.old.size < 2 ^ 31 }
    ensures value { Tells (argument_value (scene setting.now) env.old argument.now) result }
    ensures environment { env.new ≡ env.old }
{
    let value = type_of(setting, env, expression_of(argument))?;
    let _ = behind(setting, env, argument)?;
    Ok(value)
}

/// The arguments of a call of an operation of the model, typed in the order of the text.
pub fn values(
    setting: &Setting<'_>,
    env: &mut Environment,
    arguments: &[Argument],
) -> Result<Items<Typed>, TypeFault>
    requires { env.old.size < 2 ^ 31 }
    ensures value { Tells (values (scene setting.now) env.old arguments.now) result }
    ensures environment { env.new ≡ env.old }
{
    let mut done = Items::new(setting.alloc);
    let mut rest = arguments;
    'arguments: while let [argument, more @ ..] = rest {
        let value = argument_value(setting, env, argument)?;
        done.push(value)?;
        rest = more;
    }
    Ok(done)
}

/// An expression that may be left out, as it is written.
fn written_if(
    alloc: Global,
    lexed: &Lexed<'_>,
    node: &Option<NodeRef<'_>>,
) -> Result<Option<Boxed<Written>>, AllocError>
    ensures { IfOk result (λ e. e ≡ option_map (written lexed.now) node.now) }
{
    match node {
        None => Ok(None),
        Some(node) => Ok(Some(Boxed::new(alloc, written(alloc, lexed, node)?)?)),
    }
}

/// An argument before `;`.
fn item(
    alloc: Global,
    lexed: &Lexed<'_>,
    node: &NodeRef<'_>,
) -> Result<Option<Argument>, AllocError>
    ensures { IfOk result (λ a. a ≡ item_at lexed.now node.now) }
{
    match ItemNode::of(node) {
        None => Ok(None),
        Some(item) => Ok(Some(Argument::Item(
            written(alloc, lexed, &item.expression)?,
            type_if(alloc, lexed, &item.of_type)?,
            written_if(alloc, lexed, &item.start)?,
        ))),
    }
}

fn add_items(
    alloc: Global,
    lexed: &Lexed<'_>,
    nodes: Parts<'_>,
    arguments: &mut Vec<Argument>,
) -> Result<(), AllocError>
    ensures { OnOk result (arguments.new.items ≡ arguments.old.items ++ filter_map (item_at lexed.now) nodes.entry) }
{
    'items: for node in nodes {
        let argument = item(alloc, lexed, &node)?;
        push_some(argument, arguments)?;
    }
    Ok(())
}

/// What stands behind `;`.
fn accumulator(
    alloc: Global,
    lexed: &Lexed<'_>,
    node: &NodeRef<'_>,
) -> Result<Option<Argument>, AllocError>
    ensures { IfOk result (λ a. a ≡ option_map (accumulator_of lexed.now) (item_node node.now)) }
{
    match ItemNode::of(node) {
        None => Ok(None),
        Some(item) => Ok(Some(Argument::Accumulator(
            written(alloc, lexed, &item.expression)?,
            type_if(alloc, lexed, &item.of_type)?,
            written_if(alloc, lexed, &item.start)?,
        ))),
    }
}

fn accumulator_if(
    alloc: Global,
    lexed: &Lexed<'_>,
    node: &Option<NodeRef<'_>>,
) -> Result<Option<Argument>, AllocError>
    ensures { IfOk result (λ a. a ≡ accumulator_at lexed.now node.now) }
{
    match node {
        None => Ok(None),
        Some(node) => accumulator(alloc, lexed, node),
    }
}

/// What stands behind `|`.
fn body_if(
    alloc: Global,
    lexed: &Lexed<'_>,
    node: &Option<NodeRef<'_>>,
) -> Result<Option<Argument>, AllocError>
    ensures { IfOk result (λ a. a ≡ body_at lexed.now node.now) }
{
    match node {
        None => Ok(None),
        Some(node) => Ok(Some(Argument::Body(written(alloc, lexed, node)?))),
    }
}

#[tactic(auto, using(crate::proofs::Stepwise::two_more))]
fn arguments_of(
    alloc: Global,
    lexed: &Lexed<'_>,
    args: ArgsNode<'_>,
) -> Result<Items<Argument>, AllocError>
    ensures { IfOk result (λ all. all ≡ arguments_of lexed.now args.entry) }
{
    let ArgsNode {
        items,
        accumulator,
        body,
    } = args;
    let mut arguments = Vec::new(alloc);
    add_items(alloc, lexed, items, &mut arguments)?;
    push_some(accumulator_if(alloc, lexed, &accumulator)?, &mut arguments)?;
    push_some(body_if(alloc, lexed, &body)?, &mut arguments)?;
    Ok(Items::from_vec(arguments))
}

/// What stands between parentheses that are no part of an expression, in the order of the text.
#[tactic(auto, unfolding(crate::specs::Arguments::written_arguments))]
pub fn written_arguments(
    alloc: Global,
    lexed: &Lexed<'_>,
    node: &NodeRef<'_>,
) -> Result<Items<Argument>, AllocError>
    ensures { IfOk result (λ all. all ≡ written_arguments lexed.now node.now) }
{
    match ArgsNode::of(node) {
        None => Ok(Items::new(alloc)),
        Some(args) => arguments_of(alloc, lexed, args),
    }
}
