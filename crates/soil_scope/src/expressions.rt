ghost use Rattle.std.specs.Prelude.{◌≡◌, ◌<◌, ◌^◌, false};
ghost use Rattle.std.specs.Option.{option_copied};
ghost use Rattle.ocl_rules.specs.Typings.{Tells};
ghost use Rattle.ocl_shapes.specs.Combining.{if_there};
ghost use Rattle.soil_scope.specs.Expressions.{expression_at, type_of};
ghost use Rattle.soil_scope.specs.Scenes.{scene};

use crate::Setting;
use ocl_rules::{TypeFault, Typed};
use ocl_scope::Environment;
use ocl_syntax::{Written, written};
use ocl_types::type_expr;
use use_nodes::NodeRef;
use use_text::Place;

/// A checked expression with its type, and the place of its first token.
#[derive(Drop)]
pub struct Placed {
    pub typed: Typed,
    pub place: Place,
}

/// The type of an expression that stands in a statement.
#[tactic(auto, unfolding(crate::specs::Expressions::type_of))]
pub fn type_of(
    setting: &Setting<'_>,
    env: &mut Environment,
    expression: &Written,
) -> Result<Typed, TypeFault>
    requires { env.old.size < 2 ^ 31 }
    ensures value { Tells (type_of (scene setting.now) env.old expression.now) result }
    ensures environment { env.new ≡ env.old }
{
    type_expr(setting.alloc, setting.model, false, env, expression)
}

/// The expression at a node of the text, typed (OCL 2.3.1, clause 8). Only a postcondition reads the
/// state at entry.
#[tactic(auto, unfolding(crate::specs::Expressions::expression_at))]
pub fn expression_at(
    setting: &Setting<'_>,
    env: &mut Environment,
    is_post: bool,
    node: &NodeRef<'_>,
) -> Result<Placed, TypeFault>
    requires { env.old.size < 2 ^ 31 }
    ensures value { Tells (expression_at (scene setting.now) is_post env.old node.now) result }
    ensures environment { env.new ≡ env.old }
{
    let expression = written(setting.alloc, setting.lexed, node)?;
    let place = expression.first_place();
    let typed = type_expr(setting.alloc, setting.model, is_post, env, &expression)?;
    Ok(Placed { typed, place })
}

/// An expression that may be left out.
pub fn expression_if(
    setting: &Setting<'_>,
    env: &mut Environment,
    node: Option<&NodeRef<'_>>,
) -> Result<Option<Placed>, TypeFault>
    requires room { env.old.size < 2 ^ 31 }
    ensures value { Tells (if_there (expression_at (scene setting.now) false env.old) (option_copied node.entry)) result }
    ensures environment { env.new ≡ env.old }
{
    match node {
        None => Ok(None),
        Some(node) => {
            let placed = expression_at(setting, env, false, node)?;
            Ok(Some(placed))
        }
    }
}
