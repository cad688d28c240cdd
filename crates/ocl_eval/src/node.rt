ghost use Rattle.std.specs.Prelude.{◌≡◌, ◌+◌, ◌++◌, ◌∷◌, [], All, ◌<◌, IfOk, IfSome, MatchOption, None, Some, ⊤};
ghost use Rattle.ocl_values.specs.Shape.{IsWellMade};
ghost use Rattle.ocl_eval.specs.Parts.{Evaluates, ev_in};
ghost use Rattle.ocl_eval.specs.Evaluations.{Gives, pay};
ghost use Rattle.ocl_eval.specs.Integers.{at_hand};
ghost use Rattle.ocl_eval.specs.Nodes.{applied, bind, binary, branch, choice, collection, entry_of, paid, plain, plain_ready, right, to_set, unary, values};
ghost use Rattle.ocl_collections.specs.Operations.{coll_op_value};
ghost use Rattle.ocl_operations.specs.Operators.{plain_value};
ghost use Rattle.ocl_operations.specs.Sources.{as_source};
ghost use Rattle.ocl_core.specs.Trees.{IsSound};
ghost use Rattle.ocl_core.specs.Programs.{IsSoundProgram};

use crate::costs::{pay, spend_for};
use crate::integers::at_hand;
use crate::{Meter, Setting, States, Stop, Values};
use ocl_collections::apply_owned;
use ocl_core::{BinaryOp, CollOp, Expr, PlainOp, UnaryOp};
use ocl_operations::{as_source, binary, decided, plain, unary};
use ocl_values::Value;
use std::marker::PhantomData;
use std::slice;

/// A node, by what evaluates its parts.
#[derive(Drop)]
pub(crate) struct Node<'a, S, V, F> {
    pub(crate) setting: Setting<'a, V>,
    pub(crate) value: F,
    pub(crate) steps: PhantomData<S>,
}

impl<S, V: States<S>, F> Node<'_, S, V, F>
where
    F: Fn(&Setting<'_, V>, &Expr, &mut Values, &mut Meter, &mut S) -> Result<Value, Stop>,
{
    /// The value of a part.
    pub(crate) fn part(
        &self,
        e: &Expr,
        locals: &mut Values,
        meter: &mut Meter,
        steps: &mut S,
    ) -> Result<Value, Stop>
        requires parts { Evaluates V.now V.pre V.count self.now.setting.levels (F.pre self.now.value) (F.post self.now.value) }
        requires program { IsSoundProgram self.now.setting.program.now }
        requires tree { IsSound e.now }
        ensures value { Gives ((ev_in V.now V.pre self.now.setting) locals.old e.now meter.old) result meter.new }
        ensures well_made { IfOk result IsWellMade }
        ensures locals { locals.new ≡ locals.old }
        ensures ticks { V.count steps.new + meter.new.fuel ≡ V.count steps.old + meter.old.fuel }
    {
        (self.value)(&self.setting, e, locals, meter, steps)
    }

    /// The value of a literal.
    #[inline(never)]
    pub(crate) fn literal(
        &self,
        value: &Value,
        meter: &mut Meter,
        steps: &mut S,
    ) -> Result<Value, Stop>
        requires { IsWellMade value.now }
        ensures value { Gives (pay value.now meter.old) result meter.new }
        ensures well_made { IfOk result IsWellMade }
        ensures ticks { V.count steps.new + meter.new.fuel ≡ V.count steps.old + meter.old.fuel }
    {
        let copy = value.try_copy(self.setting.alloc)?;
        pay(self.setting.states, copy, meter, steps)
    }

    /// The value that is bound at a place.
    #[inline(never)]
    pub(crate) fn local(
        &self,
        number: u32,
        locals: &Values,
        meter: &mut Meter,
        steps: &mut S,
    ) -> Result<Value, Stop>
        ensures value { Gives (pay (entry_of locals.now number) meter.old) result meter.new }
        ensures well_made { IfOk result IsWellMade }
        ensures ticks { V.count steps.new + meter.new.fuel ≡ V.count steps.old + meter.old.fuel }
    {
        let copy = locals.copy_of(self.setting.alloc, number)?;
        pay(self.setting.states, copy, meter, steps)
    }

    #[tactic(auto, unfolding(crate::specs::Nodes::unary))]
    #[inline(never)]
    pub(crate) fn unary(
        &self,
        op: UnaryOp,
        a: &Expr,
        locals: &mut Values,
        meter: &mut Meter,
        steps: &mut S,
    ) -> Result<Value, Stop>
        requires parts { Evaluates V.now V.pre V.count self.now.setting.levels (F.pre self.now.value) (F.post self.now.value) }
        requires program { IsSoundProgram self.now.setting.program.now }
        requires tree { IsSound a.now }
        ensures value { Gives (unary (ev_in V.now V.pre self.now.setting) locals.old op a.now meter.old) result meter.new }
        ensures well_made { IfOk result IsWellMade }
        ensures locals { locals.new ≡ locals.old }
        ensures ticks { V.count steps.new + meter.new.fuel ≡ V.count steps.old + meter.old.fuel }
    {
        let x = self.part(a, locals, meter, steps)?;
        pay(self.setting.states, unary(op, &x), meter, steps)
    }

    /// What the left operand decides, or else what both give.
    fn right(
        &self,
        op: BinaryOp,
        x: Value,
        b: &Expr,
        known: Option<Value>,
        locals: &mut Values,
        meter: &mut Meter,
        steps: &mut S,
    ) -> Result<Value, Stop>
        requires parts { Evaluates V.now V.pre V.count self.now.setting.levels (F.pre self.now.value) (F.post self.now.value) }
        requires program { IsSoundProgram self.now.setting.program.now }
        requires tree { IsSound b.now }
        requires well { IsWellMade x }
        requires known { MatchOption known ⊤ IsWellMade }
        ensures value { Gives (right (ev_in V.now V.pre self.now.setting) locals.old op x b.now known meter.old) result meter.new }
        ensures well_made { IfOk result IsWellMade }
        ensures locals { locals.new ≡ locals.old }
        ensures ticks { V.count steps.new + meter.new.fuel ≡ V.count steps.old + meter.old.fuel }
    {
        match known {
            Some(value) => pay(self.setting.states, value, meter, steps),
            None => match op {
                BinaryOp::Eq => self.equality(x, b, locals, meter, steps),
                _ => self.operation(op, x, b, locals, meter, steps),
            },
        }
    }

    /// What an operation gives of a value and an operand.
    #[inline]
    pub(crate) fn operation(
        &self,
        op: BinaryOp,
        x: Value,
        b: &Expr,
        locals: &mut Values,
        meter: &mut Meter,
        steps: &mut S,
    ) -> Result<Value, Stop>
        requires parts { Evaluates V.now V.pre V.count self.now.setting.levels (F.pre self.now.value) (F.post self.now.value) }
        requires program { IsSoundProgram self.now.setting.program.now }
        requires tree { IsSound b.now }
        requires well { IsWellMade x }
        ensures value { Gives (right (ev_in V.now V.pre self.now.setting) locals.old op x b.now None meter.old) result meter.new }
        ensures well_made { IfOk result IsWellMade }
        ensures locals { locals.new ≡ locals.old }
        ensures ticks { V.count steps.new + meter.new.fuel ≡ V.count steps.old + meter.old.fuel }
    {
        let y = self.part(b, locals, meter, steps)?;
        let value = binary(self.setting.alloc, op, x, y)?;
        pay(self.setting.states, value, meter, steps)
    }

    /// An operation between two parts.
    #[tactic(auto, unfolding(crate::specs::Nodes::binary))]
    #[inline(never)]
    fn operands(
        &self,
        op: BinaryOp,
        a: &Expr,
        b: &Expr,
        locals: &mut Values,
        meter: &mut Meter,
        steps: &mut S,
    ) -> Result<Value, Stop>
        requires parts { Evaluates V.now V.pre V.count self.now.setting.levels (F.pre self.now.value) (F.post self.now.value) }
        requires program { IsSoundProgram self.now.setting.program.now }
        requires first { IsSound a.now }
        requires second { IsSound b.now }
        ensures value { Gives (binary (ev_in V.now V.pre self.now.setting) locals.old op a.now b.now meter.old) result meter.new }
        ensures well_made { IfOk result IsWellMade }
        ensures locals { locals.new ≡ locals.old }
        ensures ticks { V.count steps.new + meter.new.fuel ≡ V.count steps.old + meter.old.fuel }
    {
        let x = self.part(a, locals, meter, steps)?;
        let known = decided(op, &x);
        self.right(op, x, b, known, locals, meter, steps)
    }

    #[tactic(auto, unfolding(crate::specs::Nodes::binary))]
    #[inline]
    pub(crate) fn binary(
        &self,
        op: BinaryOp,
        a: &Expr,
        b: &Expr,
        locals: &mut Values,
        meter: &mut Meter,
        steps: &mut S,
    ) -> Result<Value, Stop>
        requires parts { Evaluates V.now V.pre V.count self.now.setting.levels (F.pre self.now.value) (F.post self.now.value) }
        requires program { IsSoundProgram self.now.setting.program.now }
        requires first { IsSound a.now }
        requires second { IsSound b.now }
        ensures value { Gives (binary (ev_in V.now V.pre self.now.setting) locals.old op a.now b.now meter.old) result meter.new }
        ensures well_made { IfOk result IsWellMade }
        ensures locals { locals.new ≡ locals.old }
        ensures ticks { V.count steps.new + meter.new.fuel ≡ V.count steps.old + meter.old.fuel }
    {
        if let BinaryOp::Int(op) = op {
            return self.integers(op, a, b, locals, meter, steps);
        }
        self.operands(op, a, b, locals, meter, steps)
    }

    /// The value of a branch.
    fn branch(
        &self,
        x: Value,
        a: &Expr,
        b: &Expr,
        locals: &mut Values,
        meter: &mut Meter,
        steps: &mut S,
    ) -> Result<Value, Stop>
        requires parts { Evaluates V.now V.pre V.count self.now.setting.levels (F.pre self.now.value) (F.post self.now.value) }
        requires program { IsSoundProgram self.now.setting.program.now }
        requires first { IsSound a.now }
        requires second { IsSound b.now }
        ensures value { Gives (branch (ev_in V.now V.pre self.now.setting) locals.old x a.now b.now meter.old) result meter.new }
        ensures well_made { IfOk result IsWellMade }
        ensures locals { locals.new ≡ locals.old }
        ensures ticks { V.count steps.new + meter.new.fuel ≡ V.count steps.old + meter.old.fuel }
    {
        match x {
            Value::Bool(true) => self.paid(a, locals, meter, steps),
            Value::Bool(false) => self.paid(b, locals, meter, steps),
            _ => pay(self.setting.states, Value::Invalid, meter, steps),
        }
    }

    /// A part whose value is that of the node.
    fn paid(
        &self,
        a: &Expr,
        locals: &mut Values,
        meter: &mut Meter,
        steps: &mut S,
    ) -> Result<Value, Stop>
        requires parts { Evaluates V.now V.pre V.count self.now.setting.levels (F.pre self.now.value) (F.post self.now.value) }
        requires program { IsSoundProgram self.now.setting.program.now }
        requires tree { IsSound a.now }
        ensures value { Gives (paid (ev_in V.now V.pre self.now.setting) locals.old a.now meter.old) result meter.new }
        ensures well_made { IfOk result IsWellMade }
        ensures locals { locals.new ≡ locals.old }
        ensures ticks { V.count steps.new + meter.new.fuel ≡ V.count steps.old + meter.old.fuel }
    {
        let x = self.part(a, locals, meter, steps)?;
        pay(self.setting.states, x, meter, steps)
    }

    #[tactic(auto, unfolding(crate::specs::Nodes::choice))]
    #[inline(never)]
    pub(crate) fn choice(
        &self,
        c: &Expr,
        a: &Expr,
        b: &Expr,
        locals: &mut Values,
        meter: &mut Meter,
        steps: &mut S,
    ) -> Result<Value, Stop>
        requires parts { Evaluates V.now V.pre V.count self.now.setting.levels (F.pre self.now.value) (F.post self.now.value) }
        requires program { IsSoundProgram self.now.setting.program.now }
        requires test { IsSound c.now }
        requires first { IsSound a.now }
        requires second { IsSound b.now }
        ensures value { Gives (choice (ev_in V.now V.pre self.now.setting) locals.old c.now a.now b.now meter.old) result meter.new }
        ensures well_made { IfOk result IsWellMade }
        ensures locals { locals.new ≡ locals.old }
        ensures ticks { V.count steps.new + meter.new.fuel ≡ V.count steps.old + meter.old.fuel }
    {
        let x = self.part(c, locals, meter, steps)?;
        self.branch(x, a, b, locals, meter, steps)
    }

    /// The value of a part with one more value bound, innermost.
    #[inline]
    pub(crate) fn bound(
        &self,
        x: Value,
        e: &Expr,
        locals: &mut Values,
        meter: &mut Meter,
        steps: &mut S,
    ) -> Result<Value, Stop>
        requires parts { Evaluates V.now V.pre V.count self.now.setting.levels (F.pre self.now.value) (F.post self.now.value) }
        requires program { IsSoundProgram self.now.setting.program.now }
        requires tree { IsSound e.now }
        requires well { IsWellMade x }
        ensures value { Gives ((ev_in V.now V.pre self.now.setting) (locals.old ++ x ∷ []) e.now meter.old) result meter.new }
        ensures well_made { IfOk result IsWellMade }
        ensures locals { locals.new ≡ locals.old }
        ensures ticks { V.count steps.new + meter.new.fuel ≡ V.count steps.old + meter.old.fuel }
    {
        locals.push(x)?;
        let value = self.part(e, locals, meter, steps);
        locals.pop();
        value
    }

    #[tactic(auto, unfolding(crate::specs::Nodes::bind))]
    #[inline(never)]
    pub(crate) fn bind(
        &self,
        a: &Expr,
        b: &Expr,
        locals: &mut Values,
        meter: &mut Meter,
        steps: &mut S,
    ) -> Result<Value, Stop>
        requires parts { Evaluates V.now V.pre V.count self.now.setting.levels (F.pre self.now.value) (F.post self.now.value) }
        requires program { IsSoundProgram self.now.setting.program.now }
        requires first { IsSound a.now }
        requires second { IsSound b.now }
        ensures value { Gives (bind (ev_in V.now V.pre self.now.setting) locals.old a.now b.now meter.old) result meter.new }
        ensures well_made { IfOk result IsWellMade }
        ensures locals { locals.new ≡ locals.old }
        ensures ticks { V.count steps.new + meter.new.fuel ≡ V.count steps.old + meter.old.fuel }
    {
        let x = self.part(a, locals, meter, steps)?;
        let y = self.bound(x, b, locals, meter, steps)?;
        pay(self.setting.states, y, meter, steps)
    }

    /// The values of several parts, after those that are there.
    #[tactic(auto, unfolding(crate::specs::Nodes::values))]
    pub(crate) fn values(
        &self,
        done: Values,
        all: &[Expr],
        locals: &mut Values,
        meter: &mut Meter,
        steps: &mut S,
    ) -> Result<Values, Stop>
        requires parts { Evaluates V.now V.pre V.count self.now.setting.levels (F.pre self.now.value) (F.post self.now.value) }
        requires program { IsSoundProgram self.now.setting.program.now }
        requires trees { All IsSound all.now }
        ensures value { Gives (values (ev_in V.now V.pre self.now.setting) locals.old done all.now meter.old) result meter.new }
        ensures locals { locals.new ≡ locals.old }
        ensures ticks { V.count steps.new + meter.new.fuel ≡ V.count steps.old + meter.old.fuel }
    {
        let mut done = done;
        let mut rest = all;
        'parts: while let [e, more @ ..] = rest {
            let x = self.part(e, locals, meter, steps)?;
            done.push(x)?;
            rest = more;
        }
        Ok(done)
    }

    /// An operation of a source and two arguments.
    #[tactic(auto, unfolding(crate::specs::Nodes::values))]
    #[inline]
    fn plain_of_two(
        &self,
        op: PlainOp,
        x: Value,
        b: &Expr,
        c: &Expr,
        locals: &mut Values,
        meter: &mut Meter,
        steps: &mut S,
    ) -> Result<Value, Stop>
        requires parts { Evaluates V.now V.pre V.count self.now.setting.levels (F.pre self.now.value) (F.post self.now.value) }
        requires program { IsSoundProgram self.now.setting.program.now }
        requires first { IsSound b.now }
        requires second { IsSound c.now }
        requires well { IsWellMade x }
        ensures value { Gives (applied (ev_in V.now V.pre self.now.setting) locals.old (plain_value op) x (b.now ∷ c.now ∷ []) meter.old) result meter.new }
        ensures well_made { IfOk result IsWellMade }
        ensures locals { locals.new ≡ locals.old }
        ensures ticks { V.count steps.new + meter.new.fuel ≡ V.count steps.old + meter.old.fuel }
    {
        let y = self.operand(b, locals, meter, steps)?;
        let z = self.operand(c, locals, meter, steps)?;
        let args = [y, z];
        let value = plain(self.setting.alloc, op, &x, &args)?;
        pay(self.setting.states, value, meter, steps)
    }

    /// An operation of a source and its arguments; most have one or two, which need no list.
    #[tactic(auto, unfolding(crate::specs::Nodes::values))]
    #[inline]
    fn plain_of(
        &self,
        op: PlainOp,
        x: Value,
        args: &[Expr],
        locals: &mut Values,
        meter: &mut Meter,
        steps: &mut S,
    ) -> Result<Value, Stop>
        requires parts { Evaluates V.now V.pre V.count self.now.setting.levels (F.pre self.now.value) (F.post self.now.value) }
        requires program { IsSoundProgram self.now.setting.program.now }
        requires trees { All IsSound args.now }
        requires well { IsWellMade x }
        ensures value { Gives (applied (ev_in V.now V.pre self.now.setting) locals.old (plain_value op) x args.now meter.old) result meter.new }
        ensures well_made { IfOk result IsWellMade }
        ensures locals { locals.new ≡ locals.old }
        ensures ticks { V.count steps.new + meter.new.fuel ≡ V.count steps.old + meter.old.fuel }
    {
        if let [b] = args {
            let y = self.operand(b, locals, meter, steps)?;
            let value = plain(self.setting.alloc, op, &x, slice::from_ref(&y))?;
            return pay(self.setting.states, value, meter, steps);
        }
        if let [b, c] = args {
            return self.plain_of_two(op, x, b, c, locals, meter, steps);
        }
        let xs = self.values(Values::new(self.setting.alloc), args, locals, meter, steps)?;
        let value = plain(self.setting.alloc, op, &x, xs.as_slice())?;
        pay(self.setting.states, value, meter, steps)
    }

    /// An operation of a source and its arguments, which are evaluated.
    #[tactic(auto, unfolding(crate::specs::Nodes::plain))]
    #[inline]
    fn plain_parts(
        &self,
        op: PlainOp,
        all: &[Expr],
        locals: &mut Values,
        meter: &mut Meter,
        steps: &mut S,
    ) -> Result<Value, Stop>
        requires parts { Evaluates V.now V.pre V.count self.now.setting.levels (F.pre self.now.value) (F.post self.now.value) }
        requires program { IsSoundProgram self.now.setting.program.now }
        requires trees { All IsSound all.now }
        ensures value { Gives (plain (ev_in V.now V.pre self.now.setting) locals.old op all.now meter.old) result meter.new }
        ensures well_made { IfOk result IsWellMade }
        ensures locals { locals.new ≡ locals.old }
        ensures ticks { V.count steps.new + meter.new.fuel ≡ V.count steps.old + meter.old.fuel }
    {
        match all {
            [] => pay(self.setting.states, Value::Invalid, meter, steps),
            [a, args @ ..] => {
                let x = self.part(a, locals, meter, steps)?;
                self.plain_of(op, x, args, locals, meter, steps)
            }
        }
    }

    /// A source and an argument that both stand ready.
    #[inline]
    fn both_ready<'b>(
        &self,
        a: &'b Expr,
        b: &'b Expr,
        locals: &'b Values,
    ) -> Option<(&'b Value, &'b Value)>
        ensures ready { IfSome result (λ r. (0 < self.now.setting.levels) × (at_hand locals.now a.now ≡ Some r.0.now) × (at_hand locals.now b.now ≡ Some r.1.now)) }
    {
        if self.setting.levels == 0 {
            return None;
        }
        match at_hand(a, locals) {
            None => None,
            Some(x) => match at_hand(b, locals) {
                None => None,
                Some(y) => Some((x, y)),
            },
        }
    }

    /// An operation of a source and an argument that stand ready, and are not copied.
    #[inline]
    fn plain_ready(
        &self,
        op: PlainOp,
        x: &Value,
        y: &Value,
        meter: &mut Meter,
        steps: &mut S,
    ) -> Result<Value, Stop>
        ensures value { Gives (plain_ready op x.now y.now meter.old) result meter.new }
        ensures well_made { IfOk result IsWellMade }
        ensures ticks { V.count steps.new + meter.new.fuel ≡ V.count steps.old + meter.old.fuel }
    {
        spend_for(self.setting.states, x, meter, steps)?;
        spend_for(self.setting.states, y, meter, steps)?;
        let value = plain(self.setting.alloc, op, x, slice::from_ref(y))?;
        pay(self.setting.states, value, meter, steps)
    }

    /// An operation of a source and its arguments. Where both it and its one argument stand ready,
    /// neither is copied.
    #[inline(never)]
    pub(crate) fn plain(
        &self,
        op: PlainOp,
        all: &[Expr],
        locals: &mut Values,
        meter: &mut Meter,
        steps: &mut S,
    ) -> Result<Value, Stop>
        requires parts { Evaluates V.now V.pre V.count self.now.setting.levels (F.pre self.now.value) (F.post self.now.value) }
        requires program { IsSoundProgram self.now.setting.program.now }
        requires trees { All IsSound all.now }
        ensures value { Gives (plain (ev_in V.now V.pre self.now.setting) locals.old op all.now meter.old) result meter.new }
        ensures well_made { IfOk result IsWellMade }
        ensures locals { locals.new ≡ locals.old }
        ensures ticks { V.count steps.new + meter.new.fuel ≡ V.count steps.old + meter.old.fuel }
    {
        if let [a, b] = all {
            if let Some((x, y)) = self.both_ready(a, b, locals) {
                return self.plain_ready(op, x, y, meter, steps);
            }
        }
        self.plain_parts(op, all, locals, meter, steps)
    }

    /// The same of a collection.
    #[tactic(auto, unfolding(crate::specs::Nodes::values))]
    #[inline]
    fn collection_of(
        &self,
        op: CollOp,
        x: Value,
        args: &[Expr],
        locals: &mut Values,
        meter: &mut Meter,
        steps: &mut S,
    ) -> Result<Value, Stop>
        requires parts { Evaluates V.now V.pre V.count self.now.setting.levels (F.pre self.now.value) (F.post self.now.value) }
        requires program { IsSoundProgram self.now.setting.program.now }
        requires trees { All IsSound args.now }
        requires well { IsWellMade x }
        ensures value { Gives (applied (ev_in V.now V.pre self.now.setting) locals.old (λ x xs. coll_op_value op (as_source x) xs) x args.now meter.old) result meter.new }
        ensures well_made { IfOk result IsWellMade }
        ensures locals { locals.new ≡ locals.old }
        ensures ticks { V.count steps.new + meter.new.fuel ≡ V.count steps.old + meter.old.fuel }
    {
        if let [b] = args {
            let y = self.part(b, locals, meter, steps)?;
            let source = as_source(self.setting.alloc, x)?;
            let value = apply_owned(self.setting.alloc, op, source, slice::from_ref(&y))?;
            return pay(self.setting.states, value, meter, steps);
        }
        let xs = self.values(Values::new(self.setting.alloc), args, locals, meter, steps)?;
        let source = as_source(self.setting.alloc, x)?;
        let value = apply_owned(self.setting.alloc, op, source, xs.as_slice())?;
        pay(self.setting.states, value, meter, steps)
    }

    #[tactic(auto, unfolding(crate::specs::Nodes::collection))]
    #[inline(never)]
    pub(crate) fn collection(
        &self,
        op: CollOp,
        all: &[Expr],
        locals: &mut Values,
        meter: &mut Meter,
        steps: &mut S,
    ) -> Result<Value, Stop>
        requires parts { Evaluates V.now V.pre V.count self.now.setting.levels (F.pre self.now.value) (F.post self.now.value) }
        requires program { IsSoundProgram self.now.setting.program.now }
        requires trees { All IsSound all.now }
        ensures value { Gives (collection (ev_in V.now V.pre self.now.setting) locals.old op all.now meter.old) result meter.new }
        ensures well_made { IfOk result IsWellMade }
        ensures locals { locals.new ≡ locals.old }
        ensures ticks { V.count steps.new + meter.new.fuel ≡ V.count steps.old + meter.old.fuel }
    {
        match all {
            [] => pay(self.setting.states, Value::Invalid, meter, steps),
            [a, args @ ..] => {
                let x = self.part(a, locals, meter, steps)?;
                self.collection_of(op, x, args, locals, meter, steps)
            }
        }
    }

    #[tactic(auto, unfolding(crate::specs::Nodes::to_set))]
    #[inline(never)]
    pub(crate) fn to_set(
        &self,
        a: &Expr,
        locals: &mut Values,
        meter: &mut Meter,
        steps: &mut S,
    ) -> Result<Value, Stop>
        requires parts { Evaluates V.now V.pre V.count self.now.setting.levels (F.pre self.now.value) (F.post self.now.value) }
        requires program { IsSoundProgram self.now.setting.program.now }
        requires tree { IsSound a.now }
        ensures value { Gives (to_set (ev_in V.now V.pre self.now.setting) locals.old a.now meter.old) result meter.new }
        ensures well_made { IfOk result IsWellMade }
        ensures locals { locals.new ≡ locals.old }
        ensures ticks { V.count steps.new + meter.new.fuel ≡ V.count steps.old + meter.old.fuel }
    {
        let x = self.part(a, locals, meter, steps)?;
        let value = as_source(self.setting.alloc, x)?;
        pay(self.setting.states, value, meter, steps)
    }
}
