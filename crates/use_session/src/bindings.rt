ghost use Rattle.std.specs.Prelude.{◌≡◌, ◌<◌, ◌++◌, All, IfOk, OnOk, length, map};
ghost use Rattle.std.specs.Option.{option_copied};
ghost use Rattle.ocl_values.specs.Shape.{IsWellMade};
ghost use Rattle.ocl_core.specs.declared.program.ProgramParts.{ProgramParts};
ghost use Rattle.entry_states.specs.Frames.{entered};
ghost use Rattle.entry_states.specs.Overlays.{Picture};
ghost use Rattle.contract_frames.specs.Entering.{TopIsCall};
ghost use Rattle.contract_frames.specs.Judging.{bound_before};
ghost use Rattle.use_session.specs.Frames.{bindings_of, bound_by, params_of, top_bindings};

use class_model::{ClassModel, OclType, OpNo, Parameter};
use entry_states::{Call, Frames};
use ocl_program::Program;
use ocl_values::{Text, Value};
use soil_check::Bindings;
use std::alloc::{AllocError, Global};
use use_lists::Items;
use use_orders::copied;

/// The receiver and the arguments of a call.
fn values_of(alloc: Global, call: &Call) -> Result<Vec<Value>, AllocError>
    ensures { IfOk result (λ vs. vs.items ≡ bound_before call.now) }
{
    let mut values = Vec::new(alloc);
    values.push(Value::Obj(call.receiver))?;
    let mut args = copied(alloc, call.args.as_slice())?;
    values.append(&mut args)?;
    Ok(values)
}

/// The values that the top call binds.
pub(crate) fn bound_values(alloc: Global, frames: &Frames) -> Result<Vec<Value>, AllocError>
    ensures values { IfOk result (λ vs. (q : Picture) → vs.items ≡ bound_by (entered frames.now q)) }
    ensures well_made { IfOk result (λ vs. (p : ProgramParts) → TopIsCall p frames.now → All IsWellMade vs.items) }
{
    match frames.top() {
        None => Ok(Vec::new(alloc)),
        Some(top) => values_of(alloc, &top.call),
    }
}

/// Adds the parameters of an operation with their types.
fn add_params(
    alloc: Global,
    params: &[Parameter],
    names: &mut Items<(Text, OclType)>,
) -> Result<(), AllocError>
    ensures { OnOk result (names.new ≡ names.old ++ map (λ p. (p.name, p.of_type)) params.now) }
{
    'params: for param in params {
        let name = Text::copy_of(alloc, param.name.as_str())?;
        names.push((name, param.of_type.try_copy(alloc)?))?;
    }
    Ok(())
}

fn copy_type(alloc: Global, of_type: Option<&OclType>) -> Result<Option<OclType>, AllocError>
    ensures { IfOk result (λ t. t ≡ option_copied of_type.entry) }
{
    match of_type {
        None => Ok(None),
        Some(of_type) => Ok(Some(of_type.try_copy(alloc)?)),
    }
}

/// What a call of an operation binds: `self`, of the class that declares it, and its parameters.
fn bindings_of(alloc: Global, model: &ClassModel, op: OpNo) -> Result<Bindings, AllocError>
    requires { op < length model.now.ops }
    ensures { IfOk result (λ b. b ≡ bindings_of model.now op) }
{
    let mut names = Items::new(alloc);
    names.push((
        Text::copy_of(alloc, "self")?,
        OclType::Class(model.op_class(op)),
    ))?;
    add_params(alloc, model.op_params(op), &mut names)?;
    let result_type = copy_type(alloc, model.op_result(op))?;
    Ok(Bindings { names, result_type })
}

/// What the top call binds.
pub(crate) fn top_bindings(
    alloc: Global,
    program: &Program,
    frames: &Frames,
) -> Result<Option<Bindings>, AllocError>
    requires { TopIsCall program.now frames.now }
    ensures { IfOk result (λ b. (q : Picture) → b ≡ top_bindings program.now.model (entered frames.now q)) }
{
    match frames.top() {
        None => Ok(None),
        Some(top) => Ok(Some(bindings_of(alloc, program.model(), top.call.op)?)),
    }
}
