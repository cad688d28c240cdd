ghost use Rattle.std.specs.Prelude.{◌≡◌, ℤ, ◌+ℤ◌, ◌-ℤ◌, ◌*ℤ◌, neg_ℤ, pos, unsigned_abs};
ghost use Rattle.ocl_values.specs.Checked.{checked};
ghost use Rattle.ocl_values.specs.Integers.{int_op_value, int_value, of_one, of_two, quotient, remainder};
ghost use Rattle.ocl_values.specs.Shape.{IsWellMade};

use crate::Value;

/// The operations of Integer (OCL 2.3.1, 11.5.2), without `toString`.
#[derive(Clone, Copy, Debug, PartialEq, Eq)]
pub enum IntOp {
    Add,
    Sub,
    Mul,
    /// The quotient, truncated toward zero.
    Div,
    /// What `Div` leaves: of two integers a and b, a - (a div b) * b.
    Mod,
    Lt,
    Le,
    Gt,
    Ge,
    Neg,
    Abs,
    Max,
    Min,
}

/// The integer, or invalid where there is none.
pub(crate) fn checked(n: Option<i128>) -> Value
    ensures { result ≡ checked n }
{
    match n {
        Some(n) => Value::Int(n),
        None => Value::Invalid,
    }
}

fn sum(a: i128, b: i128) -> Value
    ensures { result ≡ int_value (a +ℤ b) }
{
    checked(a.checked_add(b))
}

fn difference(a: i128, b: i128) -> Value
    ensures { result ≡ int_value (a -ℤ b) }
{
    checked(a.checked_sub(b))
}

fn product(a: i128, b: i128) -> Value
    ensures { result ≡ int_value (a *ℤ b) }
{
    checked(a.checked_mul(b))
}

fn quotient(a: i128, b: i128) -> Value
    ensures { result ≡ quotient a b }
{
    checked(a.checked_div(b))
}

fn remainder(a: i128, b: i128) -> Value
    ensures { result ≡ remainder a b }
{
    checked(a.checked_rem(b))
}

fn negative(a: i128) -> Value
    ensures { result ≡ int_value (neg_ℤ a) }
{
    checked(a.checked_neg())
}

fn magnitude(a: i128) -> Value
    ensures { result ≡ int_value (pos (unsigned_abs a)) }
{
    checked(a.checked_abs())
}

fn of_one(op: IntOp, a: i128) -> Value
    ensures { result ≡ of_one op a }
{
    match op {
        IntOp::Neg => negative(a),
        IntOp::Abs => magnitude(a),
        _ => Value::Invalid,
    }
}

#[inline(always)]
fn of_two(op: IntOp, a: i128, b: i128) -> Value
    ensures { result ≡ of_two op a b }
{
    match op {
        IntOp::Add => sum(a, b),
        IntOp::Sub => difference(a, b),
        IntOp::Mul => product(a, b),
        IntOp::Div => quotient(a, b),
        IntOp::Mod => remainder(a, b),
        IntOp::Lt => Value::Bool(a < b),
        IntOp::Le => Value::Bool(a <= b),
        IntOp::Gt => Value::Bool(b < a),
        IntOp::Ge => Value::Bool(b <= a),
        IntOp::Neg => negative(a),
        IntOp::Abs => magnitude(a),
        IntOp::Max => Value::Int(a.max(b)),
        IntOp::Min => Value::Int(a.min(b)),
    }
}

/// An operation of Integer. One of a single integer does not look at b. A side that is null,
/// invalid or no integer makes the result invalid, and so does a result past the range.
#[inline(always)]
pub fn int_op(op: IntOp, a: &Value, b: &Value) -> Value
    ensures value { result ≡ int_op_value op a.now b.now }
    ensures well_made { IsWellMade result }
{
    match a {
        Value::Int(a) => match b {
            Value::Int(b) => of_two(op, *a, *b),
            _ => of_one(op, *a),
        },
        _ => Value::Invalid,
    }
}
