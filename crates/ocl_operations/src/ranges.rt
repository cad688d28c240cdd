ghost use Rattle.std.specs.Prelude.{◌≡◌, ◌<◌, ◌++◌, ◌-◌, ◌^◌, min, map, pos, ◌+ℤ◌, All, IfOk, OnOk, is_some};
ghost use Rattle.std.specs.List.{range_with_len};
ghost use Rattle.std.specs.Option.{option_map_or};
ghost use Rattle.ocl_values.specs.Shape.{IsWellMade};
ghost use Rattle.ocl_values.specs.declared.value.Value.TheVariants.{Int};
ghost use Rattle.ocl_operations.specs.Ranges.{count_between, range_count, range_elements, whole_numbers};

use ocl_values::Value;
use std::alloc::{AllocError, Global};

/// How many whole numbers there are from one to another; past 2^64 - 1 counts as that.
fn count_between(a: i128, b: i128) -> u64
    ensures { result ≡ min (count_between a b) (2 ^ 64 - 1) }
{
    if b < a {
        return 0;
    }
    match b.checked_sub(a) {
        None => u64::MAX,
        Some(above) => {
            if above < u64::MAX as i128 {
                above as u64 + 1
            } else {
                u64::MAX
            }
        }
    }
}

/// How many elements a range has, none where a side is no integer; past 2^64 - 1 counts as that.
pub fn range_count(a: &Value, b: &Value) -> u64
    ensures { result ≡ min (range_count a.now b.now) (2 ^ 64 - 1) }
{
    match (a, b) {
        (Value::Int(a), Value::Int(b)) => count_between(*a, *b),
        _ => 0,
    }
}

/// The whole number that stands so many above the first one of a range.
fn number_above(a: i128, b: i128, above: u64) -> Value
    requires { above < count_between a b }
    ensures { result ≡ Int (a +ℤ pos above) }
{
    let number = a + above as i128;
    prove!(number <= b);
    Value::Int(number)
}

/// Appends the whole numbers from one to another.
fn append_numbers(a: i128, b: i128, out: &mut Vec<Value>) -> Result<(), AllocError>
    requires { count_between a b < 2 ^ 64 - 1 }
    ensures { OnOk result (out.new.items ≡ out.old.items ++ whole_numbers a b) }
{
    let count = count_between(a, b);
    'each: for above in 0..count {
        out.push(number_above(a, b, above))?;
    }
    Ok(())
}

/// Appends the elements of a range, and tells whether both its sides are integers; else it has none.
pub fn append_range(a: &Value, b: &Value, out: &mut Vec<Value>) -> Result<bool, AllocError>
    requires well { All IsWellMade out.old.items }
    requires small { range_count a.now b.now < 2 ^ 64 - 1 }
    ensures told { IfOk result (λ is. is ≡ is_some (range_elements a.now b.now)) }
    ensures value { OnOk result (out.new.items ≡ option_map_or (λ vs. out.old.items ++ vs) (range_elements a.now b.now) out.old.items) }
    ensures well_made { OnOk result (All IsWellMade out.new.items) }
{
    match (a, b) {
        (Value::Int(a), Value::Int(b)) => {
            append_numbers(*a, *b, out)?;
            Ok(true)
        }
        _ => Ok(false),
    }
}
