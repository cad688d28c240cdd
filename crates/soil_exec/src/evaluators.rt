ghost use Rattle.std.specs.Prelude.{◌≡◌, ◌+◌, IfOk, OnOk};
ghost use Rattle.ocl_values.specs.Shape.{IsWellMade};
ghost use Rattle.ocl_core.specs.Trees.{IsSound};
ghost use Rattle.contract_frames.specs.Judging.{pre_units, pres};
ghost use Rattle.contract_frames.specs.Entering.{IsCall, IsOpen, TopIsCall, top_post_units, top_posts};
ghost use Rattle.ocl_eval.specs.Evaluation.{IsWellMadeOutcome, eval, max_units, told};
ghost use Rattle.soil_exec.specs.Values.{scene_at};

use contract_frames::{check_post, check_pre};
use entry_states::{Call, Frames};
use object_referrers::ReferrerStore;
use object_state::Cells;
use ocl_core::{ContractNo, Expr};
use ocl_eval::{Env, Outcome, evaluate_in};
use ocl_program::Program;
use ocl_values::Value;
use std::alloc::{AllocError, Global};
use std::sync::ledger::Ledger;
use use_lists::Items;
use use_steps::Steps;

/// What evaluates expressions over a store, and counts each unit that is spent.
pub(crate) trait Evaluator<S> {
    ghost use Rattle.std.specs.Prelude.{ℕ};

    /// How many units were counted.
    ghost count: { S → ℕ };

    /// The value of an expression in an environment, which stays; the state at entry is the present one.
    fn evaluate(
        &self,
        alloc: Global,
        program: &Program,
        e: &Expr,
        env: &mut Env,
        store: &ReferrerStore,
        steps: &mut S,
    ) -> Result<Outcome, AllocError>
        requires { IsSound e.now }
        ensures value { IfOk result (λ outcome. outcome ≡ told (eval (scene_at program.now store.now) env.old e.now).0) }
        ensures well_made { IfOk result IsWellMadeOutcome }
        ensures units { OnOk result (count steps.new + (eval (scene_at program.now store.now) env.old e.now).1.fuel ≡ count steps.old + max_units) }
        ensures env { env.new ≡ env.old };

    /// What the preconditions of a call come to in the present state.
    fn check_pre(
        &self,
        alloc: Global,
        program: &Program,
        store: &ReferrerStore,
        call: &Call,
        steps: &mut S,
    ) -> Result<Items<(ContractNo, Outcome)>, AllocError>
        requires { IsCall program.now call.now }
        ensures value { IfOk result (λ os. os ≡ pres program.now store.now call.now) }
        ensures units { OnOk result (count steps.new ≡ count steps.old + pre_units program.now store.now call.now) };

    /// What the postconditions of the top call come to, over the present state and the one at its
    /// entry.
    fn check_post(
        &self,
        alloc: Global,
        program: &Program,
        store: &ReferrerStore,
        frames: &Frames,
        given: &Value,
        steps: &mut S,
    ) -> Result<Items<(ContractNo, Outcome)>, AllocError>
        requires given { IsWellMade given.now }
        requires open { IsOpen frames.now }
        requires call { TopIsCall program.now frames.now }
        ensures value { IfOk result (λ os. os ≡ top_posts program.now store.now frames.now given.now) }
        ensures units { OnOk result (count steps.new ≡ count steps.old + top_post_units program.now store.now frames.now given.now) };
}

/// The evaluator of expressions, with its budget and a counter of steps.
#[derive(Drop)]
pub(crate) struct Counting;

impl<L: Ledger> Evaluator<Steps<L>> for Counting {
    ghost count = { λ steps. steps };

    fn evaluate(
        &self,
        alloc: Global,
        program: &Program,
        e: &Expr,
        env: &mut Env,
        store: &ReferrerStore,
        steps: &mut Steps<L>,
    ) -> Result<Outcome, AllocError> {
        program.is_checked();
        let mut reads = Cells::new(alloc);
        evaluate_in::<L, ReferrerStore, ReferrerStore>(
            alloc,
            program.as_parts(),
            e,
            env,
            store,
            store,
            &mut reads,
            steps,
        )
    }

    fn check_pre(
        &self,
        alloc: Global,
        program: &Program,
        store: &ReferrerStore,
        call: &Call,
        steps: &mut Steps<L>,
    ) -> Result<Items<(ContractNo, Outcome)>, AllocError> {
        check_pre(alloc, program, store, call, steps)
    }

    fn check_post(
        &self,
        alloc: Global,
        program: &Program,
        store: &ReferrerStore,
        frames: &Frames,
        given: &Value,
        steps: &mut Steps<L>,
    ) -> Result<Items<(ContractNo, Outcome)>, AllocError> {
        check_post(alloc, program, store, frames, given, steps)
    }
}
