ghost use Rattle.std.specs.Prelude.{◌≡◌, ◌+◌, ◌-◌, All, IfOk, OnOk};
ghost use Rattle.ocl_values.specs.Shape.{IsWellMade};
ghost use Rattle.ocl_eval.specs.Evaluation.{IsWellMadeOutcome, eval_from, max_units, told};
ghost use Rattle.ocl_eval.specs.Evaluations.{Gives};
ghost use Rattle.ocl_eval.specs.Scenes.{scene_of};
ghost use Rattle.ocl_core.specs.Trees.{IsSound};
ghost use Rattle.ocl_core.specs.Programs.{IsSoundProgram};

use crate::evaluator::value_of;
use crate::states::TwoWorlds;
use crate::{Env, Meter, Outcome, Setting, Stop, Values};
use object_state::{Cells, World};
use ocl_core::{Expr, ProgramParts, When};
use ocl_values::Value;
use std::alloc::{AllocError, Global};
use std::mem;
use std::sync::ledger::Ledger;
use use_steps::Steps;

/// How deep an evaluation may go.
const MAX_DEPTH: u32 = 512;

/// How many units an evaluation has.
const MAX_UNITS: u32 = 1_000_000;

/// Values to be added to, with those of an environment.
fn copied(alloc: Global, all: &[Value]) -> Result<Values, AllocError>
    requires { All IsWellMade all.now }
    ensures { IfOk result (λ values. values ≡ all.now) }
{
    let mut values = Values::new(alloc);
    'copy: for value in all {
        values.push(value.try_copy(alloc)?)?;
    }
    Ok(values)
}

/// What is told of an evaluation.
fn tell(ending: Result<Value, Stop>) -> Result<Outcome, AllocError>
    requires { IfOk ending IsWellMade }
    ensures value { (outcome : _) (left : _) → Gives outcome ending left → IfOk result (λ o. (o ≡ told outcome.0) × (outcome.1 ≡ left)) }
    ensures well_made { IfOk result IsWellMadeOutcome }
{
    match ending {
        Ok(value) => Ok(Outcome::Done(value)),
        Err(Stop::Exhausted) => Ok(Outcome::Exhausted),
        Err(Stop::Memory) => Err(AllocError),
    }
}

/// Evaluates an expression in an environment over the state now and the state at entry (OCL 2.3.1,
/// clauses 7 and 11). Adds the cells that are read of the present state, and counts each unit that is
/// spent. After want of memory the cells are in no stated condition.
#[tactic(auto, unfolding(crate::specs::Evaluation::eval_from))]
pub fn evaluate<L: Ledger, W: World<L>, P: World<L>>(
    alloc: Global,
    program: &ProgramParts,
    e: &Expr,
    env: &Env,
    now: &W,
    pre: &P,
    reads: &mut Cells,
    steps: &mut Steps<L>,
) -> Result<Outcome, AllocError>
    requires program { IsSoundProgram program.now }
    requires tree { IsSound e.now }
    ensures value { IfOk result (λ outcome. outcome
        ≡ told (eval_from (scene_of program.now (W.picture now.now) (P.picture pre.now)) env.now e.now reads.old).0) }
    ensures well_made { IfOk result IsWellMadeOutcome }
    ensures reads { OnOk result (reads.new ≡ (eval_from (scene_of program.now (W.picture now.now) (P.picture pre.now)) env.now e.now reads.old).1.reads) }
    ensures units { OnOk result (steps.new + (eval_from (scene_of program.now (W.picture now.now) (P.picture pre.now)) env.now e.now reads.old).1.fuel
        ≡ steps.old + max_units) }
{
    let values = copied(alloc, env.as_slice())?;
    let mut env = Env { values };
    evaluate_in(alloc, program, e, &mut env, now, pre, reads, steps)
}

/// Evaluates an expression as `evaluate` does, in an environment of which no copy is made.
#[tactic(auto, unfolding(crate::specs::Evaluation::eval_from))]
pub fn evaluate_in<L: Ledger, W: World<L>, P: World<L>>(
    alloc: Global,
    program: &ProgramParts,
    e: &Expr,
    env: &mut Env,
    now: &W,
    pre: &P,
    reads: &mut Cells,
    steps: &mut Steps<L>,
) -> Result<Outcome, AllocError>
    requires program { IsSoundProgram program.now }
    requires tree { IsSound e.now }
    ensures value { IfOk result (λ outcome. outcome
        ≡ told (eval_from (scene_of program.now (W.picture now.now) (P.picture pre.now)) env.old e.now reads.old).0) }
    ensures well_made { IfOk result IsWellMadeOutcome }
    ensures reads { OnOk result (reads.new ≡ (eval_from (scene_of program.now (W.picture now.now) (P.picture pre.now)) env.old e.now reads.old).1.reads) }
    ensures units { OnOk result (steps.new + (eval_from (scene_of program.now (W.picture now.now) (P.picture pre.now)) env.old e.now reads.old).1.fuel
        ≡ steps.old + max_units) }
    ensures env { env.new ≡ env.old }
{
    let states = TwoWorlds { now, pre };
    let setting = Setting {
        alloc,
        program,
        states: &states,
        at: When::Now,
        levels: MAX_DEPTH,
    };
    let mut meter = Meter {
        fuel: MAX_UNITS,
        reads: mem::replace(reads, Cells::new(alloc)),
    };
    let result = value_of::<Steps<L>, TwoWorlds<'_, W, P>>(
        &setting,
        e,
        &mut env.values,
        &mut meter,
        steps,
    );
    let Meter {
        fuel: _,
        reads: read,
    } = meter;
    *reads = read;
    tell(result)
}
