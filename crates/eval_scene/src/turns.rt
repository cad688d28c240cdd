ghost use Rattle.std.specs.Prelude.{◌≡◌};
ghost use Rattle.use_syntax.specs.Language.{language};
ghost use Rattle.ocl_core.specs.Trees.{IsSound};

use crate::queries::expression;
use crate::row_fault::RowFault;
use crate::scene::{language, made_scene};
use eval_outcomes::{Scene, cells_text, environment, is_value, outcome_in, text_in};
use grammar_core::Grammar;
use object_state::{Cell, Cells};
use ocl_core::Expr;
use ocl_eval::Env;
use ocl_values::Value;
use std::alloc::{AllocError, Global};

/// What is asked of two queries.
#[derive(Clone, Copy)]
enum Asked {
    Both,
    Cells,
    WithoutLast,
    End(usize),
}

/// What two expressions come to, one after the other.
fn both_texts(
    alloc: Global,
    scene: &Scene,
    first: &Expr,
    second: &Expr,
) -> Result<String, AllocError>
    requires first { IsSound first.now }
    requires second { IsSound second.now }
{
    let mut env = environment(alloc, 0)?;
    let mut reads = Cells::new(alloc);
    let before = text_in(alloc, scene, first, &mut env, &mut reads)?;
    let len = env.len();
    let behind = text_in(alloc, scene, second, &mut env, &mut reads)?;
    format!(in alloc; "{}, {} values, {}", before.as_str(), len, behind.as_str())
}

/// The cells that two expressions read, and the kind of object 9.
fn both_cells(
    alloc: Global,
    scene: &Scene,
    first: &Expr,
    second: &Expr,
) -> Result<String, AllocError>
    requires first { IsSound first.now }
    requires second { IsSound second.now }
{
    let mut env = environment(alloc, 0)?;
    let mut reads = Cells::new(alloc);
    reads.add(Cell::Kind(9))?;
    outcome_in(alloc, scene, first, &mut env, &mut reads)?;
    outcome_in(alloc, scene, second, &mut env, &mut reads)?;
    cells_text(alloc, &reads)
}

/// Sets the last of ten values.
fn set_last(env: &mut Env, value: bool) {
    if env.len() > 9 {
        env.set(9, Value::Bool(value));
    }
}

/// What an expression comes to without the last value, with another one, and with another one in its place.
fn last_texts(alloc: Global, scene: &Scene, e: &Expr) -> Result<String, AllocError>
    requires { IsSound e.now }
{
    let mut env = environment(alloc, 0)?;
    let mut reads = Cells::new(alloc);
    env.truncate(9);
    let none = text_in(alloc, scene, e, &mut env, &mut reads)?;
    env.push(Value::Int(7))?;
    let pushed = text_in(alloc, scene, e, &mut env, &mut reads)?;
    set_last(&mut env, true);
    let set = text_in(alloc, scene, e, &mut env, &mut reads)?;
    format!(in alloc; "{}, {}, {}", none.as_str(), pushed.as_str(), set.as_str())
}

/// Whether an expression has a value where `tail` stands for a String of so many bytes.
fn end_text(alloc: Global, scene: &Scene, e: &Expr, bytes: usize) -> Result<String, AllocError>
    requires { IsSound e.now }
{
    let mut env = environment(alloc, bytes)?;
    let mut reads = Cells::new(alloc);
    let outcome = outcome_in(alloc, scene, e, &mut env, &mut reads)?;
    let text = if is_value(&outcome) {
        "a value"
    } else {
        "exhausted"
    };
    String::from_str(alloc, text)
}

fn told(
    alloc: Global,
    scene: &Scene,
    asked: Asked,
    first: &Expr,
    second: &Expr,
) -> Result<String, AllocError>
    requires first { IsSound first.now }
    requires second { IsSound second.now }
{
    match asked {
        Asked::Both => both_texts(alloc, scene, first, second),
        Asked::Cells => both_cells(alloc, scene, first, second),
        Asked::WithoutLast => last_texts(alloc, scene, first),
        Asked::End(bytes) => end_text(alloc, scene, first, bytes),
    }
}

fn told_behind(
    alloc: Global,
    g: &Grammar,
    scene: &Scene,
    asked: Asked,
    first: &Expr,
    second: &str,
) -> Result<String, RowFault>
    requires grammar { g.now ≡ language }
    requires first { IsSound first.now }
{
    match expression(alloc, g, scene.program.model(), false, second)? {
        None => Err(RowFault::Unmade),
        Some(second) => Ok(told(alloc, scene, asked, first, &second)?),
    }
}

fn told_in(
    alloc: Global,
    g: &Grammar,
    scene: &Scene,
    asked: Asked,
    first: &str,
    second: &str,
) -> Result<String, RowFault>
    requires { g.now ≡ language }
{
    match expression(alloc, g, scene.program.model(), false, first)? {
        None => Err(RowFault::Unmade),
        Some(first) => told_behind(alloc, g, scene, asked, &first, second),
    }
}

fn told_by(
    alloc: Global,
    g: &Grammar,
    asked: Asked,
    first: &str,
    second: &str,
) -> Result<String, RowFault>
    requires { g.now ≡ language }
{
    let scene = made_scene(alloc, g)?;
    told_in(alloc, g, &scene, asked, first, second)
}

fn told_of(alloc: Global, asked: Asked, first: &str, second: &str) -> Result<String, RowFault> {
    let g = language(alloc)?;
    told_by(alloc, &g, asked, first, second)
}

/// What two queries come to, one after the other in one environment, and how many values that has
/// between them.
pub fn in_turn(alloc: Global, first: &str, second: &str) -> Result<String, RowFault> {
    told_of(alloc, Asked::Both, first, second)
}

/// The cells that two queries read, and the kind of object 9, which was read before.
pub fn cells_of(alloc: Global, first: &str, second: &str) -> Result<String, RowFault> {
    told_of(alloc, Asked::Cells, first, second)
}

/// What a query comes to without the last value, with 7 and with `true` in its place.
pub fn without_last(alloc: Global, text: &str) -> Result<String, RowFault> {
    told_of(alloc, Asked::WithoutLast, text, text)
}

/// Whether a query has `a value` or is `exhausted` where `tail` stands for a String of so many bytes.
pub fn end_of(alloc: Global, text: &str, bytes: usize) -> Result<String, RowFault> {
    told_of(alloc, Asked::End(bytes), text, text)
}
