ghost use Rattle.std.specs.Prelude.{◌≡◌, fold};
ghost use Rattle.ocl_values.specs.Integers.{int_op_value};
ghost use Rattle.ocl_collections.specs.Sums.{integer, joined_by, sum};

use ocl_values::{IntOp, Value, int_op};

// The values joined to a first one, from left to right.
fn folded(op: IntOp, start: Value, items: &[Value]) -> Value
    ensures { result ≡ fold (int_op_value op) start items.now }
{
    let mut total = start;
    'join: for v in items {
        total = int_op(op, &total, v);
    }
    total
}

// The sum of integers.
pub(crate) fn sum(items: &[Value]) -> Value
    ensures { result ≡ sum items.now }
{
    folded(IntOp::Add, Value::Int(0), items)
}

fn integer(v: &Value) -> Value
    ensures { result ≡ integer v.now }
{
    match v {
        Value::Int(n) => Value::Int(*n),
        _ => Value::Invalid,
    }
}

// Integers joined by an operation, which is `Max` or `Min`.
pub(crate) fn joined_by(op: IntOp, items: &[Value]) -> Value
    ensures { result ≡ joined_by op items.now }
{
    match items {
        [] => Value::Invalid,
        [first, rest @ ..] => folded(op, integer(first), rest),
    }
}
