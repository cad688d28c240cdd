ghost use Rattle.std.specs.Prelude.{◌≡◌, ◌++◌, OnOk};
ghost use Rattle.use_info.specs.Models.{model_info};

use crate::lines::{append, append_count};
use ocl_program::Program;
use std::alloc::AllocError;

/// Appends what `info model` writes: the model's name, and how many things of each sort it declares.
pub fn append_model(program: &Program, out: &mut Vec<u8>) -> Result<(), AllocError>
    ensures { OnOk result (out.new.items ≡ out.old.items ++ model_info program.now) }
{
    let model = program.model().as_model();
    append("model ", out)?;
    append(model.name.as_str(), out)?;
    append("\n", out)?;
    append_count("enums", model.enums.len(), out)?;
    append_count("classes", model.classes.len(), out)?;
    append_count("associations", model.assocs.len(), out)?;
    append_count("invariants", program.invariants().len(), out)
}
