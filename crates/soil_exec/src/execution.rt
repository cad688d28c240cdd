ghost use Rattle.std.specs.Prelude.{◌≡◌, ◌++◌, ◌<◌, ◌≤◌, ◌^◌, ℕ, List, All, Err, IfOk, None, OnOk, length, map, true};
ghost use Rattle.use_orders.specs.Canon.{all_differ};
ghost use Rattle.ocl_values.specs.Shape.{IsWellMade};
ghost use Rattle.ocl_values.specs.declared.value.Value.{Value};
ghost use Rattle.object_state.specs.Layouts.{layout_of};
ghost use Rattle.object_state.specs.State.{text_cmp};
ghost use Rattle.soil_changes.specs.Progress.{Lead};
ghost use Rattle.ocl_program.specs.Bodies.{IsBodyOf};
ghost use Rattle.soil_exec.specs.Bodies.{IsBody};
ghost use Rattle.soil_exec.specs.Typed.{IsTyped};
ghost use Rattle.soil_exec.specs.Ending.{Ends, GoesBack};
ghost use Rattle.soil_exec.specs.Exec.{Tells, exec, outermost};
ghost use Rattle.soil_exec.specs.Kept.{Gives, HasRoom, IsCurrent, IsOfModel, stand};
ghost use Rattle.soil_exec.specs.Machine.{begin, shell_value};

use crate::block::block_in;
use crate::evaluators::Counting;
use crate::machine::shell_value;
use crate::{ExecFault, Machine, Setting, Shell, Walk};
use entry_states::Frames;
use object_referrers::ReferrerStore;
use object_state::{Change, Layout, StateReader};
use ocl_core::Stmt;
use ocl_eval::Env;
use ocl_program::Program;
use ocl_values::{Text, Value};
use soil_changes::Transaction;
use std::alloc::{AllocError, Global};
use std::marker::PhantomData;
use std::mem;
use std::sync::ledger::Ledger;
use use_lists::Items;
use use_steps::Steps;

/// How many statements may be carried out.
const MAX_STATEMENTS: u32 = 50_000;

/// How many levels there are below the outermost block.
const INNER_LEVELS: u32 = 63;

/// What the names of the shell stand for.
fn shell_values(
    alloc: Global,
    store: &ReferrerStore,
    shell: &[Text],
) -> Result<Vec<Value>, AllocError>
    ensures { IfOk result (λ v. v.items ≡ map (shell_value store.now.state) shell.now) }
{
    let mut values = Vec::new(alloc);
    'names: for name in shell {
        values.push(shell_value(alloc, store, name)?)?;
    }
    Ok(values)
}

/// What the names of the shell stand for, and the values that are bound behind them.
pub fn environment(
    alloc: Global,
    store: &ReferrerStore,
    shell: &[Text],
    bound: Vec<Value>,
) -> Result<Env, AllocError>
    requires { All IsWellMade bound.items }
    ensures { IfOk result (λ env. env ≡ map (shell_value store.now.state) shell.now ++ bound.items) }
{
    store.state_is_valid();
    let mut values = shell_values(alloc, store, shell)?;
    let mut bound = bound;
    values.append(&mut bound)?;
    Ok(Env::new(Items::from_vec(values)))
}

/// What is the same for all statements of the outermost block.
pub(crate) fn setting_of<'a, V>(program: &'a Program, evaluator: &'a V) -> Setting<'a, V>
    ensures program { result.program.now ≡ program.now }
    ensures levels { result.levels ≡ 63 }
    ensures told { result.told ≡ None }
{
    Setting {
        program,
        evaluator,
        levels: INNER_LEVELS,
        told: None,
    }
}

/// Carries the outermost block out.
fn run<L: Ledger>(
    program: &Program,
    body: &[Stmt],
    machine: &mut Machine,
    steps: &mut Steps<L>,
) -> Result<(), ExecFault>
    requires body { IsBody program.now.model body.now }
    requires of_model { IsOfModel program.now.model machine.old }
    requires room { HasRoom 64 machine.old }
    requires current { IsCurrent machine.old }
    ensures gives { Gives (outermost program.now body.now (stand machine.old steps.old)) result (stand machine.new steps.new) }
{
    let walk = Walk {
        setting: setting_of(program, &Counting),
        inside: block_in::<Steps<L>, Counting>,
        steps: PhantomData,
    };
    walk.block(None, body, machine, steps)
}

/// What stands in a place while what stood there is at work.
fn no_store(alloc: Global) -> ReferrerStore {
    ReferrerStore::new(
        alloc,
        Layout {
            classes: Items::new(alloc),
            assocs: Items::new(alloc),
        },
    )
}

/// The names of the shell, and the environment in which statements begin.
pub(crate) fn beginning(
    alloc: Global,
    shell: Items<Text>,
    bound: Vec<Value>,
    store: &ReferrerStore,
) -> Result<(Shell, Env), AllocError>
    requires few { length shell < 2 ^ 32 }
    requires differ { all_differ text_cmp shell ≡ true }
    requires bound { All IsWellMade bound.items }
    ensures shell { IfOk result (λ r. r.0 ≡ shell) }
    ensures env { IfOk result (λ r. r.1 ≡ map (shell_value store.now.state) r.0 ++ bound.items) }
{
    let shell = Shell::new(alloc, shell)?;
    let env = environment(alloc, store, shell.as_slice(), bound)?;
    Ok((shell, env))
}

/// What statements work on at first; the store and the frames go there.
#[inline]
pub(crate) fn begin(
    alloc: Global,
    program: &Program,
    shell: Shell,
    env: Env,
    store: &mut ReferrerStore,
    frames: &mut Frames,
) -> Machine
    requires of_model { store.old.layout ≡ layout_of program.now.model }
    ensures started { (bound : List Value) → env ≡ map (shell_value store.old.state) shell ++ bound
        → ((steps : ℕ) → stand result steps ≡ begin store.old frames.old shell bound steps) × IsCurrent result }
    ensures of_model { IsOfModel program.now.model result }
    ensures depth { length result.transaction.frames ≡ length frames.old }
{
    program.model().has_numbers_in_range();
    let taken = mem::replace(store, no_store(alloc));
    let open = mem::replace(frames, Frames::new(alloc));
    Machine {
        alloc,
        transaction: Transaction::begin(alloc, taken, open),
        shell,
        env,
        left: MAX_STATEMENTS,
    }
}

/// Ends a refused transaction: all changes are taken back.
fn go_back(
    transaction: Transaction,
    fault: ExecFault,
    store: &mut ReferrerStore,
    frames: &mut Frames,
) -> ExecFault
    ensures { GoesBack transaction fault store.new frames.new (Err result) }
{
    let mut transaction = transaction;
    transaction.changes_lead();
    let back = transaction.roll_back();
    transaction.end(store, frames);
    match back {
        Ok(()) => fault,
        Err(_) => ExecFault::Memory,
    }
}

/// Ends a transaction: its changes stay, or all are taken back.
#[inline]
fn finish(
    transaction: Transaction,
    ended: Result<(), ExecFault>,
    store: &mut ReferrerStore,
    frames: &mut Frames,
) -> Result<Items<Change>, ExecFault>
    ensures { Ends transaction ended store.new frames.new result }
{
    match ended {
        Ok(()) => Ok(transaction.end(store, frames)),
        Err(ExecFault::Memory) => {
            transaction.end(store, frames);
            Err(ExecFault::Memory)
        }
        Err(fault) => Err(go_back(transaction, fault, store, frames)),
    }
}

/// Carries statements out whole or not at all: gives the changes that were made, in their order, or
/// the first refusal. `shell` are the names that the statements take from the shell, each once; their
/// values are the first of the environment, and `bound` are those behind them. Each unit that is spent
/// by an evaluation is counted. The calls that are open stay open, and calls of statements are above
/// them. After a refusal store and frames stand for what they stood for; after want of memory they are
/// in no stated condition.
pub fn execute<L: Ledger>(
    alloc: Global,
    program: &Program,
    body: &[Stmt],
    shell: Items<Text>,
    bound: Vec<Value>,
    store: &mut ReferrerStore,
    frames: &mut Frames,
    steps: &mut Steps<L>,
) -> Result<Items<Change>, ExecFault>
    requires few { length shell < 2 ^ 32 }
    requires differ { all_differ text_cmp shell ≡ true }
    requires bound { All IsWellMade bound.items }
    requires body { IsBodyOf program.now.model body.now }
    requires of_model { store.old.layout ≡ layout_of program.now.model }
    requires open { length frames.old ≤ 64 }
    ensures told { Tells store.old frames.old (exec program.now body.now shell bound.items store.old frames.old) steps.old result store.new frames.new steps.new }
    ensures layout { OnOk result (store.new.layout ≡ store.old.layout) }
    ensures lead { IfOk result (λ changes. Lead store.old.layout store.old.state changes store.new.state) }
    ensures typed { OnOk result (IsTyped program.now.model store.old.state → IsTyped program.now.model store.new.state) }
{
    program.is_checked();
    store.state_is_valid();
    let (shell, env) = beginning(alloc, shell, bound, store)?;
    let mut machine = begin(alloc, program, shell, env, store, frames);
    let ended = run(program, body, &mut machine, steps);
    finish(machine.into_transaction(), ended, store, frames)
}
