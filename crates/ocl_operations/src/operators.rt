ghost use Rattle.std.specs.Prelude.{◌≡◌, All, IfOk, MatchOption, ⊤};
ghost use Rattle.ocl_values.specs.Shape.{IsWellMade};
ghost use Rattle.ocl_operations.specs.Operators.{alone, binary_value, decided, integer_value, is_undefined, negated, plain_value, unary_value};

use ocl_collections::apply_owned;
use ocl_core::{BinaryOp, CollOp, IntOp, PlainOp, UnaryOp, Value};
use ocl_values::{and, implies, int_op, not, or, same, str_op, text_value, xor};
use std::alloc::{AllocError, Global};
use std::slice;

/// `not a` and `-a`.
pub fn unary(op: UnaryOp, a: &Value) -> Value
    ensures value { result ≡ unary_value op a.now }
    ensures well_made { IsWellMade result }
{
    match op {
        UnaryOp::Not => not(a),
        UnaryOp::Neg => int_op(IntOp::Neg, a, &Value::Null),
    }
}

/// What the left operand alone decides; the right one is then not evaluated.
pub fn decided(op: BinaryOp, a: &Value) -> Option<Value>
    ensures value { result ≡ decided op a.now }
    ensures well_made { MatchOption result ⊤ IsWellMade }
{
    match (op, a) {
        (BinaryOp::And, Value::Bool(false)) => Some(Value::Bool(false)),
        (BinaryOp::Or, Value::Bool(true)) => Some(Value::Bool(true)),
        (BinaryOp::Implies, Value::Bool(false)) => Some(Value::Bool(true)),
        _ => None,
    }
}

/// An operator between two operands.
pub fn binary(alloc: Global, op: BinaryOp, a: Value, b: Value) -> Result<Value, AllocError>
    requires first { IsWellMade a }
    requires second { IsWellMade b }
    ensures value { IfOk result (λ v. v ≡ binary_value op a b) }
    ensures well_made { IfOk result IsWellMade }
{
    match op {
        BinaryOp::And => Ok(and(&a, &b)),
        BinaryOp::Or => Ok(or(&a, &b)),
        BinaryOp::Xor => Ok(xor(&a, &b)),
        BinaryOp::Implies => Ok(implies(&a, &b)),
        BinaryOp::Eq => Ok(same(&a, &b)),
        BinaryOp::Ne => Ok(not(&same(&a, &b))),
        BinaryOp::Int(op) => Ok(int_op(op, &a, &b)),
        BinaryOp::Str(op) => str_op(alloc, op, &a, slice::from_ref(&b)),
        BinaryOp::Minus => apply_owned(alloc, CollOp::Minus, a, slice::from_ref(&b)),
    }
}

/// Whether a value is null or invalid.
pub(crate) fn is_undefined(a: &Value) -> bool
    ensures { result ≡ is_undefined a.now }
{
    matches!(a, Value::Null | Value::Invalid)
}

fn integer(op: IntOp, a: &Value, args: &[Value]) -> Value
    ensures value { result ≡ integer_value op a.now args.now }
    ensures well_made { IsWellMade result }
{
    match args {
        [] => int_op(op, a, &Value::Null),
        [b] => int_op(op, a, b),
        _ => Value::Invalid,
    }
}

/// A value where there is no argument, or invalid.
fn alone(args: &[Value], value: Value) -> Value
    requires { IsWellMade value }
    ensures value { result ≡ alone args.now value }
    ensures well_made { IsWellMade result }
{
    if args.is_empty() {
        value
    } else {
        Value::Invalid
    }
}

/// An operation of a value that is no collection, and its arguments. Arguments of another number or
/// kind make the result invalid.
pub fn plain(alloc: Global, op: PlainOp, a: &Value, args: &[Value]) -> Result<Value, AllocError>
    ensures value { IfOk result (λ v. v ≡ plain_value op a.now args.now) }
    ensures well_made { IfOk result IsWellMade }
{
    match op {
        PlainOp::Int(op) => Ok(integer(op, a, args)),
        PlainOp::Str(op) => str_op(alloc, op, a, args),
        PlainOp::ToText => Ok(alone(args, text_value(alloc, a)?)),
        PlainOp::IsUndefined => Ok(alone(args, Value::Bool(is_undefined(a)))),
        PlainOp::IsDefined => Ok(alone(args, Value::Bool(!is_undefined(a)))),
        PlainOp::IsInvalid => Ok(alone(args, Value::Bool(a.is_invalid()))),
    }
}
