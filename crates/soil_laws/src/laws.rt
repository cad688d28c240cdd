ghost use Rattle.std.specs.Prelude.{IfOk};
ghost use Rattle.ocl_program.specs.Bodies.{IsBodyOf};
ghost use Rattle.ocl_scope.specs.Ranges.{IsEnvironmentOf};
ghost use Rattle.soil_scope.specs.Scenes.{scene};
ghost use Rattle.soil_types.specs.Walk.{body_statements, command_statements};

use soil_scope::{Setting, Variables};
use use_nodes::NodeRef;

// Laws of the statements that are checked. The functions do nothing; what they ensure is the law.

/// The statements that are given for a command are of the model, where the variables that they see are:
/// each class, attribute, association, operation and type in them is the model's, and each expression may
/// be evaluated over the present state.
pub fn command_statements_are_in_range(
    setting: &Setting<'_>,
    variables: &Variables,
    block: &NodeRef<'_>,
)
    requires { IsEnvironmentOf setting.now.model.now variables.now.environment }
    ensures { IfOk (command_statements (scene setting.now) variables.now block.now) (IsBodyOf setting.now.model.now) }
{
    setting.model.has_numbers_in_range();
}

/// So are those that are given for an operation's body.
pub fn body_statements_are_in_range(
    setting: &Setting<'_>,
    variables: &Variables,
    block: &NodeRef<'_>,
)
    requires { IsEnvironmentOf setting.now.model.now variables.now.environment }
    ensures { IfOk (body_statements (scene setting.now) variables.now block.now) (IsBodyOf setting.now.model.now) }
{
    setting.model.has_numbers_in_range();
}
