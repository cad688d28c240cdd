ghost use Rattle.std.specs.Prelude.{◌≡◌, MatchOption, ⊤};
ghost use Rattle.std.specs.Option.{option_copied};
ghost use Rattle.ocl_eval.specs.Scenes.{derived_body, query_called};
ghost use Rattle.ocl_core.specs.Programs.{query_of};
ghost use Rattle.ocl_core.specs.Trees.{IsSound};
ghost use Rattle.ocl_core.specs.Programs.{IsSoundProgram};

use class_model::{ClassNo, DerNo, OpNo};
use ocl_core::{Expr, OpBody, ProgramParts};

fn query_of(body: &OpBody) -> Option<&Expr>
    ensures { option_copied result ≡ query_of body.now }
{
    match body {
        OpBody::Query(e) => Some(e),
        OpBody::None => None,
        OpBody::Soil(_) => None,
    }
}

/// The query that an object of a class carries out where an operation is called.
pub(crate) fn query_called(program: &ProgramParts, class: ClassNo, op: OpNo) -> Option<&Expr>
    requires { IsSoundProgram program.now }
    ensures value { option_copied result ≡ query_called program.now class op }
    ensures sound { MatchOption (option_copied result) ⊤ IsSound }
{
    let model = &program.model;
    if class >= model.class_count() || op >= model.op_count() {
        return None;
    }
    match program.bodies.get(model.dispatch(class, op) as usize) {
        Some(body) => query_of(body),
        None => None,
    }
}

/// The body of a derived attribute.
pub(crate) fn derived_body(program: &ProgramParts, number: DerNo) -> Option<&Expr>
    requires { IsSoundProgram program.now }
    ensures value { option_copied result ≡ derived_body program.now number }
    ensures sound { MatchOption (option_copied result) ⊤ IsSound }
{
    program.derived.get(number as usize)
}
