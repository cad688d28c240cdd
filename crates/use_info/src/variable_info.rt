ghost use Rattle.std.specs.Prelude.{◌≡◌, ◌++◌, OnOk};
ghost use Rattle.use_info.specs.Variables.{variable_line, variables_info};

use crate::lines::append;
use crate::names::append_value;
use crate::types::append_type;
use class_model::ClassModel;
use object_state::{StateReader, Variable};
use std::alloc::{AllocError, Global};

/// Appends the line of a variable.
fn append_variable<S: StateReader>(
    alloc: Global,
    model: &ClassModel,
    state: &S,
    name: &str,
    variable: &Variable,
    out: &mut Vec<u8>,
) -> Result<(), AllocError>
    ensures { OnOk result (out.new.items ≡ out.old.items ++ variable_line model.now (S.held state.now).state (name.now, variable.now)) }
{
    append(name, out)?;
    append(" : ", out)?;
    append_type(model, &variable.of_type, out)?;
    append(" = ", out)?;
    append_value(alloc, model, state, &variable.value, out)?;
    append("\n", out)
}

/// Appends what `info vars` writes: the variables by name, or that there are none.
pub fn append_variables<S: StateReader>(
    alloc: Global,
    model: &ClassModel,
    state: &S,
    out: &mut Vec<u8>,
) -> Result<(), AllocError>
    ensures { OnOk result (out.new.items ≡ out.old.items ++ variables_info model.now (S.held state.now).state) }
{
    let variables = state.variables(alloc)?;
    if variables.is_empty() {
        return append("no variables\n", out);
    }
    'variables: for (name, variable) in variables.as_slice() {
        append_variable(alloc, model, state, name.as_str(), variable, out)?;
    }
    Ok(())
}
