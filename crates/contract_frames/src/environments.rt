ghost use Rattle.std.specs.Prelude.{◌≡◌, ◌++◌, All, IfOk, OnOk};
ghost use Rattle.std.specs.Option.{option_copied};
ghost use Rattle.ocl_values.specs.Shape.{IsWellMade};
ghost use Rattle.contract_frames.specs.Judging.{bound_after, bound_before, result_if};
ghost use Rattle.contract_frames.specs.Entering.{IsCall};

use class_model::OclType;
use entry_states::Call;
use ocl_eval::Env;
use ocl_program::Program;
use ocl_values::Value;
use std::alloc::{AllocError, Global};
use use_lists::Items;
use use_orders::copied;

/// What is bound before a call: the receiver and the arguments.
pub fn bound_before(alloc: Global, call: &Call) -> Result<Env, AllocError>
    requires { All IsWellMade call.now.args }
    ensures { IfOk result (λ env. env ≡ bound_before call.now) }
{
    let mut values = Vec::new(alloc);
    values.push(Value::Obj(call.receiver))?;
    let mut args = copied(alloc, call.args.as_slice())?;
    values.append(&mut args)?;
    Ok(Env::new(Items::from_vec(values)))
}

/// Binds the value that a call gave, where its operation has a result.
fn bind_result(
    alloc: Global,
    result_type: Option<&OclType>,
    given: &Value,
    env: &mut Env,
) -> Result<(), AllocError>
    requires { IsWellMade given.now }
    ensures { OnOk result (env.new ≡ env.old ++ result_if (option_copied result_type.entry) given.now) }
{
    match result_type {
        None => Ok(()),
        Some(_) => env.push(given.try_copy(alloc)?),
    }
}

/// What is bound after a call: the receiver, the arguments, and where the operation has a result the
/// value that the call gave.
pub(crate) fn bound_after(
    alloc: Global,
    program: &Program,
    call: &Call,
    given: &Value,
) -> Result<Env, AllocError>
    requires call { IsCall program.now call.now }
    requires given { IsWellMade given.now }
    ensures { IfOk result (λ env. env ≡ bound_after program.now.model call.now given.now) }
{
    let mut env = bound_before(alloc, call)?;
    bind_result(alloc, program.model().op_result(call.op), given, &mut env)?;
    Ok(env)
}
