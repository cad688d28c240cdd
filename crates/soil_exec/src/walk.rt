ghost use Rattle.std.specs.Prelude.{◌≡◌, ◌+◌, ℕ, OnOk};
ghost use Rattle.ocl_values.specs.Shape.{IsWellMade};
ghost use Rattle.ocl_core.specs.Trees.{IsSound};
ghost use Rattle.ocl_core.specs.declared.statement.Act.{out-Act};
ghost use Rattle.soil_exec.specs.Bodies.{ActHolds, HoldsTo, IsBody, IsStatement};
ghost use Rattle.soil_exec.specs.Kept.{Follows, Gives, HasRoom, IsCurrent, IsOfModel, stand};
ghost use Rattle.soil_exec.specs.Parts.{Executes, called_in, inside_in};
ghost use Rattle.soil_exec.specs.Statements as walk;
ghost use Rattle.soil_exec.specs.Statements.{again, block, branch, for_each, round, turn, while_true};

use crate::fault::breaks_b;
use crate::{Evaluator, ExecFault, Machine, Setting};
use ocl_core::{Act, Expr, Stmt};
use ocl_values::Value;
use std::marker::PhantomData;
use use_text::Place;

/// Statements, by what carries a block out one level deeper.
#[derive(Drop)]
pub(crate) struct Walk<'a, S, V, F> {
    pub(crate) setting: Setting<'a, V>,
    pub(crate) inside: F,
    pub(crate) steps: PhantomData<S>,
}

impl<S, V: Evaluator<S>, F> Walk<'_, S, V, F>
where
    F: Fn(&Setting<'_, V>, Place, &[Stmt], &mut Machine, &mut S) -> Result<(), ExecFault>,
{
    /// A block one level deeper.
    fn inside(
        &self,
        place: Place,
        body: &[Stmt],
        machine: &mut Machine,
        steps: &mut S,
    ) -> Result<(), ExecFault>
        requires inside { Executes V.count self.now.setting.levels (F.pre self.now.inside) (F.post self.now.inside) }
        requires body { IsBody self.now.setting.program.now.model body.now }
        requires of_model { IsOfModel self.now.setting.program.now.model machine.old }
        requires room { HasRoom self.now.setting.levels machine.old }
        requires current { IsCurrent machine.old }
        ensures gives { Gives (inside_in self.now.setting place body.now (stand machine.old (V.count steps.old))) result (stand machine.new (V.count steps.new)) }
        ensures follows { OnOk result (Follows machine.old machine.new) }
    {
        (self.inside)(&self.setting, place, body, machine, steps)
    }

    fn branch(
        &self,
        place: Place,
        test: &Expr,
        one: &[Stmt],
        other: &[Stmt],
        machine: &mut Machine,
        steps: &mut S,
    ) -> Result<(), ExecFault>
        requires inside { Executes V.count self.now.setting.levels (F.pre self.now.inside) (F.post self.now.inside) }
        requires tree { IsSound test.now }
        requires one { IsBody self.now.setting.program.now.model one.now }
        requires other { IsBody self.now.setting.program.now.model other.now }
        requires of_model { IsOfModel self.now.setting.program.now.model machine.old }
        requires room { HasRoom (self.now.setting.levels + 1) machine.old }
        requires current { IsCurrent machine.old }
        ensures gives { Gives (branch self.now.setting.program.now (inside_in self.now.setting) place test.now one.now other.now (stand machine.old (V.count steps.old))) result (stand machine.new (V.count steps.new)) }
        ensures follows { OnOk result (Follows machine.old machine.new) }
    {
        let holds = machine.condition(&self.setting, place, test, steps)?;
        self.inside(place, if holds { one } else { other }, machine, steps)
    }

    /// A turn of a `for`.
    fn turn(
        &self,
        place: Place,
        body: &[Stmt],
        value: Value,
        machine: &mut Machine,
        steps: &mut S,
    ) -> Result<(), ExecFault>
        requires inside { Executes V.count self.now.setting.levels (F.pre self.now.inside) (F.post self.now.inside) }
        requires body { IsBody self.now.setting.program.now.model body.now }
        requires well_made { IsWellMade value }
        requires of_model { IsOfModel self.now.setting.program.now.model machine.old }
        requires room { HasRoom (self.now.setting.levels + 1) machine.old }
        requires current { IsCurrent machine.old }
        ensures gives { Gives (turn self.now.setting.program.now (inside_in self.now.setting) place body.now value (stand machine.old (V.count steps.old))) result (stand machine.new (V.count steps.new)) }
        ensures follows { OnOk result (Follows machine.old machine.new) }
    {
        machine.count(place)?;
        let len = machine.env.len();
        machine.push(value)?;
        self.inside(place, body, machine, steps)?;
        machine.leave(len);
        Ok(())
    }

    fn for_each(
        &self,
        place: Place,
        e: &Expr,
        body: &[Stmt],
        machine: &mut Machine,
        steps: &mut S,
    ) -> Result<(), ExecFault>
        requires inside { Executes V.count self.now.setting.levels (F.pre self.now.inside) (F.post self.now.inside) }
        requires tree { IsSound e.now }
        requires body { IsBody self.now.setting.program.now.model body.now }
        requires of_model { IsOfModel self.now.setting.program.now.model machine.old }
        requires room { HasRoom (self.now.setting.levels + 1) machine.old }
        requires current { IsCurrent machine.old }
        ensures gives { Gives (for_each self.now.setting.program.now (inside_in self.now.setting) place e.now body.now (stand machine.old (V.count steps.old))) result (stand machine.new (V.count steps.new)) }
        ensures follows { OnOk result (Follows machine.old machine.new) }
    {
        let values = machine.collection(&self.setting, place, e, steps)?;
        'turns: for value in values.into_vec() {
            self.turn(place, body, value, machine, steps)?;
        }
        Ok(())
    }

    /// The body of a `while`, which then goes on; each further test counts a statement.
    fn again(
        &self,
        place: Place,
        body: &[Stmt],
        machine: &mut Machine,
        steps: &mut S,
    ) -> Result<bool, ExecFault>
        requires inside { Executes V.count self.now.setting.levels (F.pre self.now.inside) (F.post self.now.inside) }
        requires body { IsBody self.now.setting.program.now.model body.now }
        requires of_model { IsOfModel self.now.setting.program.now.model machine.old }
        requires room { HasRoom (self.now.setting.levels + 1) machine.old }
        requires current { IsCurrent machine.old }
        ensures gives { Gives (again self.now.setting.program.now (inside_in self.now.setting) place body.now (stand machine.old (V.count steps.old))) result (stand machine.new (V.count steps.new)) }
        ensures follows { OnOk result (Follows machine.old machine.new) }
    {
        self.inside(place, body, machine, steps)?;
        machine.count(place)?;
        Ok(true)
    }

    /// One round of a `while`, and whether it goes on.
    fn round(
        &self,
        place: Place,
        test: &Expr,
        body: &[Stmt],
        machine: &mut Machine,
        steps: &mut S,
    ) -> Result<bool, ExecFault>
        requires inside { Executes V.count self.now.setting.levels (F.pre self.now.inside) (F.post self.now.inside) }
        requires tree { IsSound test.now }
        requires body { IsBody self.now.setting.program.now.model body.now }
        requires of_model { IsOfModel self.now.setting.program.now.model machine.old }
        requires room { HasRoom (self.now.setting.levels + 1) machine.old }
        requires current { IsCurrent machine.old }
        ensures gives { Gives (round self.now.setting.program.now (inside_in self.now.setting) place test.now body.now (stand machine.old (V.count steps.old))) result (stand machine.new (V.count steps.new)) }
        ensures follows { OnOk result (Follows machine.old machine.new) }
    {
        if machine.condition(&self.setting, place, test, steps)? {
            self.again(place, body, machine, steps)
        } else {
            Ok(false)
        }
    }

    /// Each round counts a statement, so there are no more than may still begin and one.
    fn while_true(
        &self,
        place: Place,
        test: &Expr,
        body: &[Stmt],
        machine: &mut Machine,
        steps: &mut S,
    ) -> Result<(), ExecFault>
        requires inside { Executes V.count self.now.setting.levels (F.pre self.now.inside) (F.post self.now.inside) }
        requires tree { IsSound test.now }
        requires body { IsBody self.now.setting.program.now.model body.now }
        requires of_model { IsOfModel self.now.setting.program.now.model machine.old }
        requires room { HasRoom (self.now.setting.levels + 1) machine.old }
        requires current { IsCurrent machine.old }
        ensures gives { Gives (while_true self.now.setting.program.now (inside_in self.now.setting) place test.now body.now (stand machine.old (V.count steps.old))) result (stand machine.new (V.count steps.new)) }
        ensures follows { OnOk result (Follows machine.old machine.new) }
    {
        let mut most = machine.left as u64 + 1;
        'rounds: while most > 0 {
            let more = self.round(place, test, body, machine, steps)?;
            if !more {
                return Ok(());
            }
            most -= 1;
        }
        Err(breaks_b(2, place))
    }

    #[tactic(auto, unfolding(crate::specs::Statements::act))]
    fn act(
        &self,
        place: Place,
        act: &Act,
        machine: &mut Machine,
        steps: &mut S,
    ) -> Result<(), ExecFault>
        requires inside { Executes V.count self.now.setting.levels (F.pre self.now.inside) (F.post self.now.inside) }
        requires sound { (n : ℕ) → ActHolds self.now.setting.program.now.model (HoldsTo self.now.setting.program.now.model n) (out-Act act.now) }
        requires of_model { IsOfModel self.now.setting.program.now.model machine.old }
        requires room { HasRoom (self.now.setting.levels + 1) machine.old }
        requires current { IsCurrent machine.old }
        ensures gives { Gives (walk.act self.now.setting.program.now (inside_in self.now.setting) (called_in self.now.setting) place (out-Act act.now) (stand machine.old (V.count steps.old))) result (stand machine.new (V.count steps.new)) }
        ensures follows { OnOk result (Follows machine.old machine.new) }
    {
        let setting = &self.setting;
        match act {
            Act::New {
                class,
                name,
                target,
            } => machine.new_object(setting, place, *class, name, target, steps),
            Act::Create { names, class } => machine.create(place, names.as_slice(), *class),
            Act::Destroy(es) => machine.destroy(setting, place, es.as_slice(), steps),
            Act::Insert {
                assoc,
                first,
                second,
            } => machine.insert(setting, place, *assoc, first, second, steps),
            Act::Delete {
                assoc,
                first,
                second,
            } => machine.delete(setting, place, *assoc, first, second, steps),
            Act::Assign { target, value } => machine.assign(setting, place, target, value, steps),
            Act::Call {
                receiver,
                op,
                args,
                target,
            } => self.call(
                place,
                receiver,
                *op,
                args.as_slice(),
                target,
                machine,
                steps,
            ),
            Act::If {
                test,
                yes: one,
                no: other,
            } => {
                self.branch(
                    place,
                    test,
                    one.as_slice(),
                    other.as_slice(),
                    machine,
                    steps,
                )
            }
            Act::For { each, body } => {
                self.for_each(place, each, body.as_slice(), machine, steps)
            }
            Act::While { test, body } => {
                self.while_true(place, test, body.as_slice(), machine, steps)
            }
            Act::Declare(number) => machine.declare(*number),
        }
    }

    /// A statement counts one when it begins. Where none is left, that is told of the statement
    /// around it, if there is one.
    fn statement(
        &self,
        outer: Option<Place>,
        statement: &Stmt,
        machine: &mut Machine,
        steps: &mut S,
    ) -> Result<(), ExecFault>
        requires inside { Executes V.count self.now.setting.levels (F.pre self.now.inside) (F.post self.now.inside) }
        requires sound { IsStatement self.now.setting.program.now.model statement.now }
        requires of_model { IsOfModel self.now.setting.program.now.model machine.old }
        requires room { HasRoom (self.now.setting.levels + 1) machine.old }
        requires current { IsCurrent machine.old }
        ensures gives { Gives (walk.statement self.now.setting.program.now (inside_in self.now.setting) (called_in self.now.setting) self.now.setting.told outer statement.now (stand machine.old (V.count steps.old))) result (stand machine.new (V.count steps.new)) }
        ensures follows { OnOk result (Follows machine.old machine.new) }
    {
        let place = self.setting.told.unwrap_or(statement.place);
        machine.count(outer.unwrap_or(place))?;
        self.act(place, &statement.act, machine, steps)
    }

    pub(crate) fn block(
        &self,
        outer: Option<Place>,
        body: &[Stmt],
        machine: &mut Machine,
        steps: &mut S,
    ) -> Result<(), ExecFault>
        requires inside { Executes V.count self.now.setting.levels (F.pre self.now.inside) (F.post self.now.inside) }
        requires body { IsBody self.now.setting.program.now.model body.now }
        requires of_model { IsOfModel self.now.setting.program.now.model machine.old }
        requires room { HasRoom (self.now.setting.levels + 1) machine.old }
        requires current { IsCurrent machine.old }
        ensures gives { Gives (block self.now.setting.program.now (inside_in self.now.setting) (called_in self.now.setting) self.now.setting.told outer body.now (stand machine.old (V.count steps.old))) result (stand machine.new (V.count steps.new)) }
        ensures follows { OnOk result (Follows machine.old machine.new) }
    {
        let mut rest = body;
        'statements: while let [statement, more @ ..] = rest {
            self.statement(outer, statement, machine, steps)?;
            rest = more;
        }
        Ok(())
    }
}
