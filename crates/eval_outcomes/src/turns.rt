ghost use Rattle.std.specs.Prelude.{◌≡◌, ◌<◌};
ghost use Rattle.ocl_core.specs.Trees.{IsSound};

use crate::scene::{Scene, parts};
use crate::texts::outcome_text;
use object_state::Cells;
use ocl_core::Expr;
use ocl_eval::{Env, Outcome, evaluate_in};
use std::alloc::{AllocError, Global};
use std::marker::Brand;
use std::sync::ledger::{Blank, Ledger};
use use_steps::Steps;

/// What a query comes to over the store with indexes, which adds the cells that it reads.
fn outcome_by<L: Ledger>(
    alloc: Global,
    scene: &Scene,
    e: &Expr,
    env: &mut Env,
    reads: &mut Cells,
    blank: Blank,
) -> Result<Outcome, AllocError>
    requires tree { IsSound e.now }
    requires name { blank.name ≡ L.name }
    requires parts { blank.parts ≡ L.parts }
    requires some { 0 < blank.parts }
{
    let mut steps = Steps::<L>::new(blank);
    let (now, entry) = (&scene.now.indexed, &scene.entry.indexed);
    let program = parts(&scene.program);
    evaluate_in(alloc, program, e, env, now, entry, reads, &mut steps)
}

/// What a query comes to, as `outcome_by` tells.
pub fn outcome_in(
    alloc: Global,
    scene: &Scene,
    e: &Expr,
    env: &mut Env,
    reads: &mut Cells,
) -> Result<Outcome, AllocError>
    requires { IsSound e.now }
{
    outcome_by::<Brand>(alloc, scene, e, env, reads, Blank::new(1))
}

/// The text of what a query comes to.
pub fn text_in(
    alloc: Global,
    scene: &Scene,
    e: &Expr,
    env: &mut Env,
    reads: &mut Cells,
) -> Result<String, AllocError>
    requires { IsSound e.now }
{
    let outcome = outcome_in(alloc, scene, e, env, reads)?;
    outcome_text(
        alloc,
        scene.program.as_parts(),
        &scene.now.indexed,
        &outcome,
    )
}
