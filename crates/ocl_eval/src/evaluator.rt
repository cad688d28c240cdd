ghost use Rattle.std.specs.Prelude.{◌≡◌, ◌+◌, IfOk};
ghost use Rattle.ocl_values.specs.Shape.{IsWellMade};
ghost use Rattle.ocl_eval.specs.Parts.{ev_in};
ghost use Rattle.ocl_eval.specs.Evaluations.{Gives};
ghost use Rattle.ocl_core.specs.Trees.{IsSound};
ghost use Rattle.ocl_core.specs.Programs.{IsSoundProgram};

use crate::node::Node;
use crate::{Meter, Setting, States, Stop, Values};
use ocl_core::Expr;
use ocl_values::Value;
use std::marker::PhantomData;

/// The value of an expression, with the levels that the setting tells.
pub(crate) fn value_of<S, V: States<S>>(
    setting: &Setting<'_, V>,
    e: &Expr,
    locals: &mut Values,
    meter: &mut Meter,
    steps: &mut S,
) -> Result<Value, Stop>
    requires program { IsSoundProgram setting.now.program.now }
    requires tree { IsSound e.now }
    ensures value { Gives (ev_in V.now V.pre setting.now locals.old e.now meter.old) result meter.new }
    ensures well_made { IfOk result IsWellMade }
    ensures locals { locals.new ≡ locals.old }
    ensures ticks { V.count steps.new + meter.new.fuel ≡ V.count steps.old + meter.old.fuel }
{
    if setting.levels == 0 {
        return Err(Stop::Exhausted);
    }
    let inside = Setting {
        alloc: setting.alloc,
        program: setting.program,
        states: setting.states,
        at: setting.at,
        levels: setting.levels - 1,
    };
    let node = Node {
        setting: inside,
        value: value_of::<S, V>,
        steps: PhantomData,
    };
    node.node(e, locals, meter, steps)
}
