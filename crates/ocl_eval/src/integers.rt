ghost use Rattle.std.specs.Prelude.{◌≡◌, ◌+◌, IfOk, MatchOption, None, ⊤};
ghost use Rattle.std.specs.Option.{option_copied};
ghost use Rattle.ocl_values.specs.Shape.{IsWellMade};
ghost use Rattle.ocl_eval.specs.Parts.{Evaluates, ev_in};
ghost use Rattle.ocl_eval.specs.Evaluations.{Gives};
ghost use Rattle.ocl_eval.specs.Nodes.{right};
ghost use Rattle.ocl_eval.specs.Integers.{at_hand, integer, integer_in, integers, of_integers, ready, small, small_ready};
ghost use Rattle.ocl_core.specs.declared.operators.BinaryOp.TheVariants.{Eq};
ghost use Rattle.ocl_core.specs.Trees.{IsSound};
ghost use Rattle.ocl_core.specs.Programs.{IsSoundProgram};

use crate::costs::pay;
use crate::node::Node;
use crate::{Meter, Setting, States, Stop, Values};
use ocl_core::{BinaryOp, Expr, IntOp};
use ocl_values::{Value, int_op, same};

/// The integer that a value is, if it is one.
fn integer_in(value: &Value) -> Option<i128>
    ensures { result ≡ integer_in value.now }
{
    match value {
        Value::Int(n) => Some(*n),
        _ => None,
    }
}

/// The value that stands ready as a literal or in the environment.
#[tactic(auto, unfolding(crate::specs::Integers::at_hand))]
#[inline]
pub(crate) fn at_hand<'a>(e: &'a Expr, locals: &'a Values) -> Option<&'a Value>
    ensures { option_copied result ≡ at_hand locals.now e.now }
{
    match e {
        Expr::Literal(value) => Some(value),
        Expr::Local(number) => locals.get(*number as usize),
        Expr::Unary(_, _)
        | Expr::Binary(_, _, _)
        | Expr::If(_, _, _)
        | Expr::Let(_, _)
        | Expr::Make(_, _)
        | Expr::Plain(_, _)
        | Expr::Coll(_, _)
        | Expr::Iter(_, _, _, _, _)
        | Expr::Attr(_, _, _)
        | Expr::Derived(_, _, _)
        | Expr::Nav(_, _, _, _)
        | Expr::Extent(_, _)
        | Expr::Query(_, _, _)
        | Expr::Test(_, _, _, _)
        | Expr::IsNew(_)
        | Expr::ToSet(_) => None,
    }
}

/// The integer that stands ready, if it is one.
#[inline]
fn ready(e: &Expr, locals: &Values) -> Option<i128>
    ensures { result ≡ ready locals.now e.now }
{
    match at_hand(e, locals) {
        Some(value) => integer_in(value),
        None => None,
    }
}

/// A copy of a value that is null, a truth value, an integer or an object.
#[inline]
fn small(value: &Value) -> Option<Value>
    ensures value { result ≡ small value.now }
    ensures well_made { MatchOption result ⊤ IsWellMade }
{
    match value {
        Value::Null => Some(Value::Null),
        Value::Bool(b) => Some(Value::Bool(*b)),
        Value::Int(n) => Some(Value::Int(*n)),
        Value::Obj(object) => Some(Value::Obj(*object)),
        _ => None,
    }
}

/// The value of size 1 that stands ready, if it is one.
#[inline]
fn small_ready(e: &Expr, locals: &Values) -> Option<Value>
    ensures value { result ≡ small_ready locals.now e.now }
    ensures well_made { MatchOption result ⊤ IsWellMade }
{
    match at_hand(e, locals) {
        Some(value) => small(value),
        None => None,
    }
}

/// An operation of the integers that its operands are; an operand that is none makes it invalid.
#[inline(always)]
fn of_integers(op: IntOp, x: Option<i128>, y: Option<i128>) -> Value
    ensures value { result ≡ of_integers op x y }
    ensures well_made { IsWellMade result }
{
    match x {
        None => Value::Invalid,
        Some(x) => match y {
            None => int_op(op, &Value::Int(x), &Value::Null),
            Some(y) => int_op(op, &Value::Int(x), &Value::Int(y)),
        },
    }
}

/// Operations of integers. Most of their operands stand ready, and are not copied to be looked at.
impl<S, V: States<S>, F> Node<'_, S, V, F>
where
    F: Fn(&Setting<'_, V>, &Expr, &mut Values, &mut Meter, &mut S) -> Result<Value, Stop>,
{
    /// The integer that a part gives, if it is one.
    #[inline]
    fn evaluated(
        &self,
        e: &Expr,
        locals: &mut Values,
        meter: &mut Meter,
        steps: &mut S,
    ) -> Result<Option<i128>, Stop>
        requires parts { Evaluates V.now V.pre V.count self.now.setting.levels (F.pre self.now.value) (F.post self.now.value) }
        requires program { IsSoundProgram self.now.setting.program.now }
        requires tree { IsSound e.now }
        ensures value { Gives (integer (ev_in V.now V.pre self.now.setting) locals.old e.now meter.old) result meter.new }
        ensures locals { locals.new ≡ locals.old }
        ensures ticks { V.count steps.new + meter.new.fuel ≡ V.count steps.old + meter.old.fuel }
    {
        let value = self.part(e, locals, meter, steps)?;
        Ok(integer_in(&value))
    }

    /// The same, where the integer may stand ready.
    #[inline]
    fn integer(
        &self,
        e: &Expr,
        locals: &mut Values,
        meter: &mut Meter,
        steps: &mut S,
    ) -> Result<Option<i128>, Stop>
        requires parts { Evaluates V.now V.pre V.count self.now.setting.levels (F.pre self.now.value) (F.post self.now.value) }
        requires program { IsSoundProgram self.now.setting.program.now }
        requires tree { IsSound e.now }
        ensures value { Gives (integer (ev_in V.now V.pre self.now.setting) locals.old e.now meter.old) result meter.new }
        ensures locals { locals.new ≡ locals.old }
        ensures ticks { V.count steps.new + meter.new.fuel ≡ V.count steps.old + meter.old.fuel }
    {
        if self.setting.levels > 0 && meter.fuel > 0 {
            let found = ready(e, locals);
            if found.is_some() {
                meter.fuel -= 1;
                self.setting.states.tick_by(1, steps);
                return Ok(found);
            }
        }
        self.evaluated(e, locals, meter, steps)
    }

    /// An operation of integers between two operands.
    #[tactic(auto, unfolding(crate::specs::Integers::integers))]
    #[inline(never)]
    pub(crate) fn integers(
        &self,
        op: IntOp,
        a: &Expr,
        b: &Expr,
        locals: &mut Values,
        meter: &mut Meter,
        steps: &mut S,
    ) -> Result<Value, Stop>
        requires parts { Evaluates V.now V.pre V.count self.now.setting.levels (F.pre self.now.value) (F.post self.now.value) }
        requires program { IsSoundProgram self.now.setting.program.now }
        requires first { IsSound a.now }
        requires second { IsSound b.now }
        ensures value { Gives (integers (ev_in V.now V.pre self.now.setting) locals.old op a.now b.now meter.old) result meter.new }
        ensures well_made { IfOk result IsWellMade }
        ensures locals { locals.new ≡ locals.old }
        ensures ticks { V.count steps.new + meter.new.fuel ≡ V.count steps.old + meter.old.fuel }
    {
        let x = self.integer(a, locals, meter, steps)?;
        let y = self.integer(b, locals, meter, steps)?;
        pay(self.setting.states, of_integers(op, x, y), meter, steps)
    }

    /// The value of a part, which often is of size 1 and stands ready.
    #[inline]
    pub(crate) fn operand(
        &self,
        e: &Expr,
        locals: &mut Values,
        meter: &mut Meter,
        steps: &mut S,
    ) -> Result<Value, Stop>
        requires parts { Evaluates V.now V.pre V.count self.now.setting.levels (F.pre self.now.value) (F.post self.now.value) }
        requires program { IsSoundProgram self.now.setting.program.now }
        requires tree { IsSound e.now }
        ensures value { Gives ((ev_in V.now V.pre self.now.setting) locals.old e.now meter.old) result meter.new }
        ensures well_made { IfOk result IsWellMade }
        ensures locals { locals.new ≡ locals.old }
        ensures ticks { V.count steps.new + meter.new.fuel ≡ V.count steps.old + meter.old.fuel }
    {
        if meter.fuel > 0 && self.setting.levels > 0 {
            if let Some(value) = small_ready(e, locals) {
                meter.fuel -= 1;
                self.setting.states.tick_by(1, steps);
                return Ok(value);
            }
        }
        self.part(e, locals, meter, steps)
    }

    /// Whether a value equals an operand, which often stands ready and is then not evaluated.
    pub(crate) fn equality(
        &self,
        x: Value,
        b: &Expr,
        locals: &mut Values,
        meter: &mut Meter,
        steps: &mut S,
    ) -> Result<Value, Stop>
        requires parts { Evaluates V.now V.pre V.count self.now.setting.levels (F.pre self.now.value) (F.post self.now.value) }
        requires program { IsSoundProgram self.now.setting.program.now }
        requires tree { IsSound b.now }
        requires well { IsWellMade x }
        ensures value { Gives (right (ev_in V.now V.pre self.now.setting) locals.old Eq x b.now None meter.old) result meter.new }
        ensures well_made { IfOk result IsWellMade }
        ensures locals { locals.new ≡ locals.old }
        ensures ticks { V.count steps.new + meter.new.fuel ≡ V.count steps.old + meter.old.fuel }
    {
        if meter.fuel > 0 && self.setting.levels > 0 {
            if let Some(y) = small_ready(b, locals) {
                meter.fuel -= 1;
                self.setting.states.tick_by(1, steps);
                return pay(self.setting.states, same(&x, &y), meter, steps);
            }
        }
        self.operation(BinaryOp::Eq, x, b, locals, meter, steps)
    }
}
