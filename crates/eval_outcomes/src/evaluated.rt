ghost use Rattle.std.specs.Prelude.{◌≡◌, ◌<◌};
ghost use Rattle.ocl_core.specs.Trees.{IsSound};
ghost use Rattle.ocl_core.specs.Programs.{IsSoundProgram};

use crate::bound::environment;
use crate::scene::{Scene, parts};
use crate::texts::{cells_text, is_value, outcome_text};
use object_state::{Cells, StateReader};
use ocl_core::{Expr, ProgramParts};
use ocl_eval::{Env, Outcome, evaluate, evaluate_in};
use ocl_program::Program;
use std::alloc::{AllocError, Global};
use std::marker::Brand;
use std::sync::ledger::{Blank, Ledger};
use use_steps::Steps;

/// What an expression comes to, and the cells that are read.
#[derive(Drop)]
struct Told {
    outcome: Outcome,
    reads: Cells,
}

fn counted<L: Ledger, S: StateReader>(
    alloc: Global,
    program: &ProgramParts,
    e: &Expr,
    env: &Env,
    now: &S,
    entry: &S,
    blank: Blank,
) -> Result<Told, AllocError>
    requires program { IsSoundProgram program.now }
    requires tree { IsSound e.now }
    requires name { blank.name ≡ L.name }
    requires parts { blank.parts ≡ L.parts }
    requires some { 0 < blank.parts }
{
    let mut reads = Cells::new(alloc);
    let mut steps = Steps::<L>::new(blank);
    let outcome = evaluate(alloc, program, e, env, now, entry, &mut reads, &mut steps)?;
    Ok(Told { outcome, reads })
}

/// The outcome in a store of one kind.
fn outcome_of<S: StateReader>(
    alloc: Global,
    program: &ProgramParts,
    e: &Expr,
    tail: usize,
    now: &S,
    entry: &S,
) -> Result<Told, AllocError>
    requires program { IsSoundProgram program.now }
    requires tree { IsSound e.now }
{
    let env = environment(alloc, tail)?;
    counted::<Brand, S>(alloc, program, e, &env, now, entry, Blank::new(1))
}

/// The text of an outcome, and of the cells that are read where there are some.
fn text_of<S: StateReader>(
    alloc: Global,
    program: &ProgramParts,
    now: &S,
    told: &Told,
) -> Result<String, AllocError> {
    let text = outcome_text(alloc, program, now, &told.outcome)?;
    let cells = cells_text(alloc, &told.reads)?;
    if cells.is_empty() {
        Ok(text)
    } else {
        format!(in alloc; "{} reads{}", text.as_str(), cells.as_str())
    }
}

/// What an expression comes to over one store and its state at entry, as a text.
fn shown_by<S: StateReader>(
    alloc: Global,
    program: &Program,
    e: &Expr,
    tail: usize,
    now: &S,
    entry: &S,
) -> Result<String, AllocError>
    requires { IsSound e.now }
{
    let parts = parts(program);
    let told = outcome_of(alloc, parts, e, tail, now, entry)?;
    text_of(alloc, parts, now, &told)
}

/// What an expression comes to, as a text, or both texts where the stores differ.
pub fn shown(alloc: Global, scene: &Scene, e: &Expr, tail: usize) -> Result<String, AllocError>
    requires { IsSound e.now }
{
    let (now, entry) = (&scene.now, &scene.entry);
    let plain = shown_by(alloc, &scene.program, e, tail, &now.plain, &entry.plain)?;
    let indexed = shown_by(alloc, &scene.program, e, tail, &now.indexed, &entry.indexed)?;
    if plain.as_str() == indexed.as_str() {
        Ok(plain)
    } else {
        format!(in alloc; "{} but {}", plain.as_str(), indexed.as_str())
    }
}

/// Whether an expression has a value in an environment, which is then as it was.
fn is_done_in<L: Ledger, S: StateReader>(
    alloc: Global,
    program: &ProgramParts,
    e: &Expr,
    env: &mut Env,
    now: &S,
    entry: &S,
    blank: Blank,
) -> Result<bool, AllocError>
    requires program { IsSoundProgram program.now }
    requires tree { IsSound e.now }
    requires name { blank.name ≡ L.name }
    requires parts { blank.parts ≡ L.parts }
    requires some { 0 < blank.parts }
{
    let len = env.len();
    let mut reads = Cells::new(alloc);
    let mut steps = Steps::<L>::new(blank);
    let outcome = evaluate_in(alloc, program, e, env, now, entry, &mut reads, &mut steps)?;
    Ok(is_value(&outcome) && env.len() == len)
}

/// Whether an expression has a value over one store.
fn is_done_by<S: StateReader>(
    alloc: Global,
    program: &Program,
    e: &Expr,
    tail: usize,
    now: &S,
    entry: &S,
) -> Result<bool, AllocError>
    requires { IsSound e.now }
{
    let mut env = environment(alloc, tail)?;
    is_done_in::<Brand, S>(
        alloc,
        parts(program),
        e,
        &mut env,
        now,
        entry,
        Blank::new(1),
    )
}

/// Whether an expression has a value over both stores where it is to have one, and over neither where not.
pub fn is_done(
    alloc: Global,
    scene: &Scene,
    e: &Expr,
    tail: usize,
    wanted: bool,
) -> Result<bool, AllocError>
    requires { IsSound e.now }
{
    let (now, entry) = (&scene.now, &scene.entry);
    let plain = is_done_by(alloc, &scene.program, e, tail, &now.plain, &entry.plain)?;
    let indexed = is_done_by(alloc, &scene.program, e, tail, &now.indexed, &entry.indexed)?;
    Ok(plain == wanted && indexed == wanted)
}
