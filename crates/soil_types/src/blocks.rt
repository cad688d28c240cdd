ghost use Rattle.std.specs.Prelude.{◌≡◌, false, true};
ghost use Rattle.ocl_rules.specs.Typings.{Tells};
ghost use Rattle.soil_scope.specs.Scenes.{Leaves, scene};
ghost use Rattle.soil_types.specs.Parts.{block_at};
ghost use Rattle.soil_types.specs.Walk.{body_statements, checked, command_statements};

use crate::Level;
use crate::forms::Forms;
use crate::objects::place_of;
use ocl_core::Stmt;
use ocl_rules::{TypeFault, breaks_t};
use soil_scope::{Setting, Variables};
use use_lists::Items;
use use_nodes::NodeRef;

/// How many blocks may nest: more than in any text that is read.
const MAX_NESTING: u32 = 256;

/// The statements of a block in another. What it adds to the variables is taken back in every case.
pub(crate) fn block_in(
    level: &Level<'_>,
    variables: &mut Variables,
    node: &NodeRef<'_>,
) -> Result<Items<Stmt>, TypeFault>
    ensures { Leaves (block_at level.now variables.old node.now) result variables.new }
{
    if level.nesting == 0 {
        return Err(breaks_t(16, place_of(level.setting, node)));
    }
    let inner = Forms {
        level: Level {
            setting: level.setting,
            nesting: level.nesting - 1,
        },
        is_outermost: false,
        block_of: block_in,
    };
    let reach = variables.reach();
    let done = inner.statements(variables, node);
    variables.leave(reach);
    done
}

fn checked(
    setting: &Setting<'_>,
    is_outermost: bool,
    mut variables: Variables,
    block: &NodeRef<'_>,
) -> Result<Items<Stmt>, TypeFault>
    ensures { Tells (checked (scene setting.now) is_outermost variables block.now) result }
{
    let outer = Forms {
        level: Level {
            setting,
            nesting: MAX_NESTING,
        },
        is_outermost,
        block_of: block_in,
    };
    outer.statements(&mut variables, block)
}

/// The statements of a command, checked, or the first rule that they break, with its place. The variables
/// are those that it sees: a value for each name of the shell, then those of the open operation.
pub fn command_statements(
    setting: &Setting<'_>,
    variables: Variables,
    block: &NodeRef<'_>,
) -> Result<Items<Stmt>, TypeFault>
    ensures { Tells (command_statements (scene setting.now) variables block.now) result }
{
    checked(setting, true, variables, block)
}

/// The statements of an operation's body, checked, or the first rule that they break, with its place. The
/// variables are `self`, the parameters and, where the operation has a result, `result`.
pub fn body_statements(
    setting: &Setting<'_>,
    variables: Variables,
    block: &NodeRef<'_>,
) -> Result<Items<Stmt>, TypeFault>
    ensures { Tells (body_statements (scene setting.now) variables block.now) result }
{
    checked(setting, false, variables, block)
}
