ghost use Rattle.std.specs.Prelude.{◌≡◌, ◌≤◌, ◌+◌, ◌-◌, ◌++◌, ◌∷◌, [], ℕ, IfOk, OnErr, OnOk, Ok, drop, length, take};
ghost use Rattle.std.specs.Option.{option_copied};
ghost use Rattle.ocl_values.specs.Shape.{IsWellMade};
ghost use Rattle.soil_changes.specs.Progress.{Changing};
ghost use Rattle.soil_exec.specs.declared.machine.Machine as declared;
ghost use Rattle.soil_exec.specs.Acted.{IsLed, WasDone};
ghost use Rattle.soil_exec.specs.Kept.{Comes, Follows, Gives, IsCurrent, stand};
ghost use Rattle.soil_exec.specs.Machine.{changing, count, leave, push, shell_value};
ghost use Rattle.soil_exec.specs.Refreshing.{name_of, refreshed, refreshed_all, refreshed_for};
ghost use Rattle.soil_exec.specs.Targets.{set_local};

use crate::fault::{breaks_b, placed};
use crate::{ExecFault, Shell};
use object_referrers::ReferrerStore;
use object_state::{Change, StateReader};
use ocl_eval::Env;
use ocl_values::{Text, Value};
use soil_changes::{ChangeFault, Transaction};
use std::alloc::{AllocError, Global};
use use_text::Place;

/// What statements work on.
#[derive(Drop)]
pub(crate) struct Machine {
    pub(crate) alloc: Global,
    pub(crate) transaction: Transaction,
    /// The names that stand for the first values of the environment.
    pub(crate) shell: Shell,
    pub(crate) env: Env,
    /// How many statements may still begin.
    pub(crate) left: u32,
}

/// The greater of two numbers.
fn greater(a: usize, b: usize) -> usize
    ensures { result ≡ b + (a - b) }
{
    if a < b { b } else { a }
}

/// What a name of the shell stands for: a variable, a live object, or nothing.
pub(crate) fn shell_value(
    alloc: Global,
    store: &ReferrerStore,
    name: &Text,
) -> Result<Value, AllocError>
    ensures { IfOk result (λ v. v ≡ shell_value store.now.state name.now) }
{
    match store.variable(name.as_str()) {
        Some(variable) => variable.value.try_copy(alloc),
        None => match store.object_named(name.as_str()) {
            Some(number) => Ok(Value::Obj(number)),
            None => Ok(Value::Invalid),
        },
    }
}

/// The name of what a change brings or takes away.
fn name_of(change: &Change) -> Option<&Text>
    ensures { option_copied result ≡ name_of change.now }
{
    match change {
        Change::Create(new) => Some(&new.name),
        Change::Remove(old) => Some(&old.name),
        Change::Bind { name, .. } => Some(name),
        Change::Unbind { name, .. } => Some(name),
        _ => None,
    }
}

/// Binds what a name stands for now, where it is one of the shell's.
fn refresh_name(
    alloc: Global,
    store: &ReferrerStore,
    shell: &Shell,
    env: &mut Env,
    name: &Text,
) -> Result<(), AllocError>
    requires { length shell.now ≤ length env.old }
    ensures bound { OnOk result (env.new ≡ refreshed shell.now store.now.state env.old name.now) }
    ensures length { OnOk result (length env.new ≡ length env.old) }
{
    store.state_is_valid();
    match shell.place_of(name) {
        None => Ok(()),
        Some(place) => {
            env.set(place, shell_value(alloc, store, name)?);
            Ok(())
        }
    }
}

fn refresh_for(
    alloc: Global,
    store: &ReferrerStore,
    shell: &Shell,
    env: &mut Env,
    change: &Change,
) -> Result<(), AllocError>
    requires { length shell.now ≤ length env.old }
    ensures bound { OnOk result (env.new ≡ refreshed_for shell.now store.now.state env.old change.now) }
    ensures length { OnOk result (length env.new ≡ length env.old) }
{
    match name_of(change) {
        None => Ok(()),
        Some(name) => refresh_name(alloc, store, shell, env, name),
    }
}

fn refresh_all(
    alloc: Global,
    store: &ReferrerStore,
    shell: &Shell,
    env: &mut Env,
    changes: &[Change],
) -> Result<(), AllocError>
    requires { length shell.now ≤ length env.old }
    ensures { OnOk result (env.new ≡ refreshed_all shell.now store.now.state env.old changes.now) }
{
    let mut rest = changes;
    'changes: while let [change, more @ ..] = rest {
        refresh_for(alloc, store, shell, env, change)?;
        rest = more;
    }
    Ok(())
}

impl Machine {
    /// The transaction, where nothing else is wanted any more.
    pub(crate) fn into_transaction(self) -> Transaction
        ensures { result ≡ self.transaction }
    {
        self.transaction
    }

    /// How many changes were made.
    pub(crate) fn changes(&self) -> usize
        ensures count { result ≡ length self.now.transaction.changes }
        ensures led { IsLed self.now.transaction }
    {
        self.transaction.changes_lead();
        self.transaction.store().state_is_valid();
        self.transaction.changes().len()
    }

    /// Binds anew what the names of the shell stand for that changes were about, since so many were
    /// made.
    pub(crate) fn refresh(&mut self, since: usize) -> Result<(), AllocError>
        requires since { since ≤ length self.old.transaction.changes }
        requires bound { length self.old.shell ≤ length self.old.env }
        ensures refreshed { OnOk result (self.new ≡ record self.old { env = refreshed_all self.old.shell self.old.transaction.state self.old.env (drop since self.old.transaction.changes) }) }
    {
        let changes = &self.transaction.changes()[since..];
        refresh_all(
            self.alloc,
            self.transaction.store(),
            &self.shell,
            &mut self.env,
            changes,
        )
    }

    /// Goes on after an act that was done on the transaction when it had made so many changes, or tells
    /// what refused it with the place.
    pub(crate) fn settle(
        &mut self,
        place: Place,
        since: usize,
        done: Result<(), ChangeFault>,
    ) -> Result<(), ExecFault>
        requires since { OnOk done (since ≤ length self.old.transaction.changes) }
        requires bound { OnOk done (length self.old.shell ≤ length self.old.env) }
        ensures { (act : Changing (Unit {0})) (before : declared.Machine) (steps : ℕ) → WasDone act before self.old since done
            → Comes (changing place act (stand before steps)) before self.new steps result }
    {
        match done {
            Ok(()) => {
                self.changes();
                self.shell.names_differ();
                self.refresh(since)?;
                Ok(())
            }
            Err(fault) => Err(placed(fault, place)),
        }
    }

    /// A statement more, or a turn; B2 where none is left.
    pub(crate) fn count(&mut self, place: Place) -> Result<(), ExecFault>
        requires { IsCurrent self.old }
        ensures gives { (steps : ℕ) → Gives (count place (stand self.old steps)) result (stand self.new steps) }
        ensures follows { Follows self.old self.new }
        ensures bound { self.new.env ≡ self.old.env }
    {
        if self.left == 0 {
            return Err(breaks_b(2, place));
        }
        self.left -= 1;
        Ok(())
    }

    /// Binds one more value, innermost.
    pub(crate) fn push(&mut self, value: Value) -> Result<(), ExecFault>
        requires well_made { IsWellMade value }
        requires current { IsCurrent self.old }
        ensures gives { (steps : ℕ) → Gives (push value (stand self.old steps)) result (stand self.new steps) }
        ensures follows { OnOk result (Follows self.old self.new) }
    {
        self.env.push(value)?;
        Ok(())
    }

    /// Takes back the values that were bound since there were so many.
    pub(crate) fn leave(&mut self, len: usize)
        requires within { length self.old.shell ≤ len }
        requires current { IsCurrent self.old }
        ensures gives { (steps : ℕ) → leave (len - length self.old.shell) (stand self.old steps) ≡ (Ok tt, stand self.new steps) }
        ensures follows { Follows self.old self.new }
    {
        self.env.truncate(len);
    }

    /// Binds a value at a place behind the names of the shell, or one more where there is none.
    pub(crate) fn set_local(&mut self, number: u32, value: Value) -> Result<(), ExecFault>
        requires well_made { IsWellMade value }
        requires current { IsCurrent self.old }
        ensures gives { (steps : ℕ) → Gives (set_local number value (stand self.old steps)) result (stand self.new steps) }
        ensures follows { OnOk result (Follows self.old self.new) }
    {
        let place = greater(number as usize, self.shell.len());
        if place < self.env.len() {
            self.env.set(place, value);
            Ok(())
        } else {
            self.push(value)
        }
    }
}
