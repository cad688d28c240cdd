ghost use Rattle.std.specs.Prelude.{◌≡◌, ◌+◌, ◌++◌, [], IfOk, OnOk, length};
ghost use Rattle.std.specs.List.{cons_option, filter_map, list_any, sum_by};
ghost use Rattle.std.specs.Option.{option_map};
ghost use Rattle.ocl_core.specs.Programs.{IsSoundProgram};
ghost use Rattle.ocl_core.specs.Trees.{IsSound};
ghost use Rattle.ocl_eval.specs.Evaluation.{told};
ghost use Rattle.invariant_cache.specs.Verdicts.{bad_among, by_outcome, by_value, instances, is_exhausted, is_failure, is_undefined, judge, object_of, part, units, verdict_over, work};

use crate::{Instance, Judged, Verdict};
use object_state::{Cells, World};
use ocl_core::{Invariant, ProgramParts};
use ocl_eval::{Env, Outcome, evaluate_in, no_units_are_gained};
use ocl_values::{ObjNo, Value};
use std::alloc::{AllocError, Global};
use std::sync::ledger::Ledger;
use use_lists::Items;
use use_steps::Steps;

/// Why an invariant of this value does not hold.
fn by_value(value: &Value) -> Option<Instance>
    ensures { result ≡ by_value value.now }
{
    match value {
        Value::Bool(holds) => { if *holds { None } else { Some(Instance::Fails) } }
        _ => Some(Instance::Undefined),
    }
}

/// Why an invariant that comes to this does not hold.
fn by_outcome(outcome: &Outcome) -> Option<Instance>
    ensures { result ≡ by_outcome outcome.now }
{
    match outcome {
        Outcome::Done(value) => by_value(value),
        Outcome::Exhausted => Some(Instance::Exhausted),
    }
}

fn is_failure(found: &(ObjNo, Instance)) -> bool
    ensures { result ≡ is_failure found.now }
{
    matches!(found.1, Instance::Fails)
}

fn is_exhausted(found: &(ObjNo, Instance)) -> bool
    ensures { result ≡ is_exhausted found.now }
{
    matches!(found.1, Instance::Exhausted)
}

fn is_undefined(found: &(ObjNo, Instance)) -> bool
    ensures { result ≡ is_undefined found.now }
{
    matches!(found.1, Instance::Undefined)
}

fn has_failure(bad: &[(ObjNo, Instance)]) -> bool
    ensures { result ≡ list_any is_failure bad.now }
{
    bad.iter().any(|found| is_failure(found))
}

fn has_exhausted(bad: &[(ObjNo, Instance)]) -> bool
    ensures { result ≡ list_any is_exhausted bad.now }
{
    bad.iter().any(|found| is_exhausted(found))
}

fn has_undefined(bad: &[(ObjNo, Instance)]) -> bool
    ensures { result ≡ list_any is_undefined bad.now }
{
    bad.iter().any(|found| is_undefined(found))
}

/// The verdict over the instances that do not hold.
fn verdict_over(bad: &[(ObjNo, Instance)]) -> Verdict
    ensures { result ≡ verdict_over bad.now }
{
    if has_failure(bad) {
        Verdict::Failed
    } else if has_exhausted(bad) {
        Verdict::Over
    } else if has_undefined(bad) {
        Verdict::NotApplicable
    } else {
        Verdict::Ok
    }
}

/// The object that a value is.
fn object_of(value: &Value) -> Option<ObjNo>
    ensures { result ≡ object_of value.now }
{
    match value {
        Value::Obj(object) => Some(*object),
        _ => None,
    }
}

/// The objects among values.
fn objects_among(alloc: Global, values: &[Value]) -> Result<Vec<ObjNo>, AllocError>
    ensures { IfOk result (λ v. v.items ≡ filter_map object_of values.now) }
{
    values
        .iter()
        .filter_map(|value| object_of(value))
        .collect(alloc)
}

/// The instances of the class of an invariant, those of its descendants included.
fn instances<L: Ledger, W: World<L>>(
    alloc: Global,
    invariant: &Invariant,
    world: &W,
    steps: &mut Steps<L>,
) -> Result<Vec<ObjNo>, AllocError>
    ensures objects { IfOk result (λ v. v.items ≡ instances (W.picture world.now) invariant.now) }
    ensures units { OnOk result (steps.new ≡ steps.old + 1) }
{
    let found = world.extent(alloc, invariant.class, steps)?;
    objects_among(alloc, found.as_slice())
}

/// An environment of one value.
fn one_value(alloc: Global) -> Result<Env, AllocError>
    ensures { IfOk result (λ env. length env ≡ 1) }
{
    let mut values = Items::new(alloc);
    values.push(Value::Null)?;
    Ok(Env::new(values))
}

/// What an invariant comes to for an instance. The environment is of one value, which becomes the
/// instance.
fn outcome_for<L: Ledger, W: World<L>>(
    alloc: Global,
    program: &ProgramParts,
    invariant: &Invariant,
    world: &W,
    instance: ObjNo,
    env: &mut Env,
    steps: &mut Steps<L>,
) -> Result<Outcome, AllocError>
    requires program { IsSoundProgram program.now }
    requires tree { IsSound invariant.now.expr }
    requires one { length env.old ≡ 1 }
    ensures outcome { IfOk result (λ outcome. outcome ≡ told (part program.now (W.picture world.now) invariant.now instance).0) }
    ensures units { OnOk result (steps.new ≡ steps.old + units program.now (W.picture world.now) invariant.now instance) }
    ensures one { length env.new ≡ 1 }
{
    no_units_are_gained();
    env.set(0, Value::Obj(instance));
    let mut reads = Cells::new(alloc);
    evaluate_in::<L, W, W>(
        alloc,
        program,
        &invariant.expr,
        env,
        world,
        world,
        &mut reads,
        steps,
    )
}

/// Adds an instance to those that do not hold, if it is one of them.
fn add_bad(
    bad: &mut Items<(ObjNo, Instance)>,
    instance: ObjNo,
    why: Option<Instance>,
) -> Result<(), AllocError>
    ensures { OnOk result (bad.new ≡ bad.old ++ cons_option (option_map (λ why. (instance, why)) why) []) }
{
    match why {
        None => Ok(()),
        Some(why) => bad.push((instance, why)),
    }
}

/// Those of some instances for which an invariant does not hold.
fn bad_among<L: Ledger, W: World<L>>(
    alloc: Global,
    program: &ProgramParts,
    invariant: &Invariant,
    world: &W,
    objects: &[ObjNo],
    steps: &mut Steps<L>,
) -> Result<Items<(ObjNo, Instance)>, AllocError>
    requires program { IsSoundProgram program.now }
    requires tree { IsSound invariant.now.expr }
    ensures bad { IfOk result (λ bad. bad ≡ bad_among program.now (W.picture world.now) invariant.now objects.now) }
    ensures units { OnOk result (steps.new ≡ steps.old + sum_by (units program.now (W.picture world.now) invariant.now) objects.now) }
{
    let mut env = one_value(alloc)?;
    let mut bad = Items::new(alloc);
    'instances: for object in objects {
        let outcome = outcome_for(alloc, program, invariant, world, *object, &mut env, steps)?;
        add_bad(&mut bad, *object, by_outcome(&outcome))?;
    }
    Ok(bad)
}

/// Judges an invariant: evaluates it for each instance of its class.
pub(crate) fn judge<L: Ledger, W: World<L>>(
    alloc: Global,
    program: &ProgramParts,
    invariant: &Invariant,
    world: &W,
    steps: &mut Steps<L>,
) -> Result<Judged, AllocError>
    requires program { IsSoundProgram program.now }
    requires tree { IsSound invariant.now.expr }
    ensures judged { IfOk result (λ judged. judged ≡ judge program.now (W.picture world.now) invariant.now) }
    ensures units { OnOk result (steps.new ≡ steps.old + work program.now (W.picture world.now) invariant.now) }
{
    let objects = instances(alloc, invariant, world, steps)?;
    let bad = bad_among(alloc, program, invariant, world, objects.as_slice(), steps)?;
    let verdict = verdict_over(bad.as_slice());
    Ok(Judged { verdict, bad })
}
