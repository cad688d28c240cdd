ghost use Rattle.std.specs.Prelude.{◌≡◌, ◌+◌, ◌++◌, IfOk, IfSome, OnOk};
ghost use Rattle.std.specs.Option.{option_copied};
ghost use Rattle.ocl_core.specs.Trees.{IsSound};
ghost use Rattle.ocl_eval.specs.Scenes.{scene_of};
ghost use Rattle.contract_frames.specs.Judging.{all_units, condition_at, outcome, outcome_if, outcomes, picture, units, units_if};

use object_referrers::ReferrerStore;
use object_state::{Cells, World};
use ocl_core::{ContractNo, Expr};
use ocl_eval::{Env, Outcome, evaluate_in, no_units_are_gained};
use ocl_program::Program;
use std::alloc::{AllocError, Global};
use std::sync::ledger::Ledger;
use use_lists::Items;
use use_steps::Steps;

/// What contracts are judged over: a program, the present state and the one at entry.
#[derive(Drop)]
pub(crate) struct Case<'a, P> {
    pub(crate) alloc: Global,
    pub(crate) program: &'a Program,
    pub(crate) store: &'a ReferrerStore,
    pub(crate) entry: &'a P,
}

/// The condition of a contract, where it is a postcondition or a precondition as is asked for.
fn condition(program: &Program, asked: bool, number: ContractNo) -> Option<&Expr>
    ensures value { option_copied result ≡ condition_at program.now asked number }
    ensures sound { IfSome result (λ e. IsSound e.now) }
{
    program.is_checked();
    match program.as_parts().contracts.get(number as usize) {
        None => None,
        Some(contract) => {
            if contract.is_post == asked {
                Some(&contract.expr)
            } else {
                None
            }
        }
    }
}

/// What a condition comes to.
fn outcome<L: Ledger, P: World<L>>(
    case: &Case<'_, P>,
    expr: &Expr,
    env: &mut Env,
    steps: &mut Steps<L>,
) -> Result<Outcome, AllocError>
    requires { IsSound expr.now }
    ensures value { IfOk result (λ o. o ≡ outcome (scene_of case.now.program.now (picture case.now.store.now) (P.picture case.now.entry.now)) env.old expr.now) }
    ensures units { OnOk result (steps.new ≡ steps.old + units (scene_of case.now.program.now (picture case.now.store.now) (P.picture case.now.entry.now)) env.old expr.now) }
    ensures env { env.new ≡ env.old }
{
    no_units_are_gained();
    case.program.is_checked();
    let mut reads = Cells::new(case.alloc);
    let told = evaluate_in::<L, ReferrerStore, P>(
        case.alloc,
        case.program.as_parts(),
        expr,
        env,
        case.store,
        case.entry,
        &mut reads,
        steps,
    )?;
    Ok(told)
}

/// Adds what a condition comes to, where there is one.
fn add_outcome<L: Ledger, P: World<L>>(
    case: &Case<'_, P>,
    number: ContractNo,
    expr: Option<&Expr>,
    env: &mut Env,
    outcomes: &mut Items<(ContractNo, Outcome)>,
    steps: &mut Steps<L>,
) -> Result<(), AllocError>
    requires { IfSome expr (λ e. IsSound e.now) }
    ensures added { OnOk result (outcomes.new
        ≡ outcomes.old ++ outcome_if (scene_of case.now.program.now (picture case.now.store.now) (P.picture case.now.entry.now)) env.old number (option_copied expr.entry)) }
    ensures units { OnOk result (steps.new ≡ steps.old + units_if (scene_of case.now.program.now (picture case.now.store.now) (P.picture case.now.entry.now)) env.old (option_copied expr.entry)) }
    ensures env { env.new ≡ env.old }
{
    match expr {
        None => Ok(()),
        Some(expr) => {
            let told = outcome(case, expr, env, steps)?;
            outcomes.push((number, told))
        }
    }
}

/// What the contracts of some numbers come to, all of them postconditions or preconditions as is
/// asked for.
pub(crate) fn outcomes<L: Ledger, P: World<L>>(
    case: &Case<'_, P>,
    asked: bool,
    numbers: &[ContractNo],
    env: &mut Env,
    steps: &mut Steps<L>,
) -> Result<Items<(ContractNo, Outcome)>, AllocError>
    ensures value { IfOk result (λ os. os ≡ outcomes (scene_of case.now.program.now (picture case.now.store.now) (P.picture case.now.entry.now)) asked env.old numbers.now) }
    ensures units { OnOk result (steps.new
        ≡ steps.old + all_units (scene_of case.now.program.now (picture case.now.store.now) (P.picture case.now.entry.now)) asked env.old numbers.now) }
{
    let mut outcomes = Items::new(case.alloc);
    'contracts: for number in numbers {
        let expr = condition(case.program, asked, *number);
        add_outcome(case, *number, expr, env, &mut outcomes, steps)?;
    }
    Ok(outcomes)
}
