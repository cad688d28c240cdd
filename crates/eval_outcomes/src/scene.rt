ghost use Rattle.std.specs.Prelude.{◌≡◌};
ghost use Rattle.ocl_core.specs.Programs.{IsSoundProgram};

use eval_states::Both;
use ocl_core::ProgramParts;
use ocl_program::Program;

/// A program, the present state of its model, and the state at the entry of an operation.
#[derive(Drop)]
pub struct Scene {
    pub program: Program,
    pub now: Both,
    pub entry: Both,
}

/// The parts of a program.
pub(crate) fn parts(program: &Program) -> &ProgramParts
    ensures parts { result.now ≡ program.now }
    ensures sound { IsSoundProgram result.now }
{
    program.is_checked();
    program.as_parts()
}
