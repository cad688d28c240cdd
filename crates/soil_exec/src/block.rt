ghost use Rattle.std.specs.Prelude.{◌≡◌, OnOk};
ghost use Rattle.soil_exec.specs.Bodies.{IsBody};
ghost use Rattle.soil_exec.specs.Kept.{Follows, Gives, HasRoom, IsCurrent, IsOfModel, stand};
ghost use Rattle.soil_exec.specs.Parts.{inside_in};

use crate::fault::breaks_b;
use crate::{Evaluator, ExecFault, Machine, Setting, Walk};
use ocl_core::Stmt;
use std::marker::PhantomData;
use use_text::Place;

/// A block in the statement at a place, with the levels that the setting tells; B3 where there is none.
#[tactic(auto, unfolding(crate::specs::Statements::within))]
pub(crate) fn block_in<S, V: Evaluator<S>>(
    setting: &Setting<'_, V>,
    place: Place,
    body: &[Stmt],
    machine: &mut Machine,
    steps: &mut S,
) -> Result<(), ExecFault>
    requires body { IsBody setting.now.program.now.model body.now }
    requires of_model { IsOfModel setting.now.program.now.model machine.old }
    requires room { HasRoom setting.now.levels machine.old }
    requires current { IsCurrent machine.old }
    ensures gives { Gives (inside_in setting.now place body.now (stand machine.old (V.count steps.old))) result (stand machine.new (V.count steps.new)) }
    ensures follows { OnOk result (Follows machine.old machine.new) }
{
    if setting.levels == 0 {
        return Err(breaks_b(3, place));
    }
    let inside = Setting {
        program: setting.program,
        evaluator: setting.evaluator,
        levels: setting.levels - 1,
        told: setting.told,
    };
    let walk = Walk {
        setting: inside,
        inside: block_in::<S, V>,
        steps: PhantomData,
    };
    let len = machine.env.len();
    walk.block(Some(place), body, machine, steps)?;
    machine.leave(len);
    Ok(())
}
