ghost use Rattle.std.specs.Prelude.{◌≡◌, ◌<◌, ◌^◌, IfOk};
ghost use Rattle.ocl_rules.specs.Typings.{Tells};
ghost use Rattle.ocl_types.specs.Parts.{HasRoom, IsShallow, part_in};
ghost use Rattle.ocl_types.specs.Walk.{type_expr};

use crate::{Node, Setting};
use class_model::ClassModel;
use ocl_rules::{TypeFault, Typed, breaks_t};
use ocl_scope::Environment;
use ocl_syntax::Written;
use std::alloc::Global;

/// How many written nodes may nest, parentheses included.
const MAX_NESTING: u32 = 512;

/// The type of an expression in a setting.
pub(crate) fn type_in(
    setting: &Setting<'_>,
    env: &mut Environment,
    written: &Written,
) -> Result<Typed, TypeFault>
    requires room { HasRoom 0 setting.now.nesting env.old }
    ensures value { Tells (part_in setting.now env.old written.now) result }
    ensures shallow { IfOk result IsShallow }
    ensures environment { env.new ≡ env.old }
{
    if setting.nesting == 0 {
        return Err(breaks_t(16, written.place()));
    }
    let node = Node {
        setting: Setting {
            alloc: setting.alloc,
            model: setting.model,
            is_post: setting.is_post,
            nesting: setting.nesting - 1,
        },
        type_of: type_in,
    };
    node.leveled(env, written)
}

/// The type of an expression where these names are bound, and the checked expression (OCL 2.3.1,
/// clause 8), or the first rule that it breaks, with its place. What is bound inside it is taken back
/// in every case.
pub fn type_expr(
    alloc: Global,
    model: &ClassModel,
    is_post: bool,
    environment: &mut Environment,
    written: &Written,
) -> Result<Typed, TypeFault>
    requires { environment.old.size < 2 ^ 31 }
    ensures value { Tells (type_expr model.now is_post environment.old written.now) result }
    ensures environment { environment.new ≡ environment.old }
{
    let setting = Setting {
        alloc,
        model,
        is_post,
        nesting: MAX_NESTING,
    };
    type_in(&setting, environment, written)
}
