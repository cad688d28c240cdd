ghost use Rattle.std.specs.Prelude.{◌≡◌, ◌≤◌, ◌-◌, ◌^◌, ◌++◌, ◌∷◌, [], min, if◌then◌else◌, IfOk, true};
ghost use Rattle.ocl_values.specs.Shape.{IsWellMade, canon, sizes_of};
ghost use Rattle.ocl_values.specs.declared.value.Value.TheVariants.{Invalid};
ghost use Rattle.ocl_eval.specs.Evaluations.{Gives};
ghost use Rattle.ocl_eval.specs.Nodes.{add_range, nothing_made};

use crate::{Meter, Stop, Values};
use ocl_collections::make;
use ocl_operations::{append_range, range_count};
use ocl_values::{Kind, Value, size};
use std::alloc::{AllocError, Global};

/// The elements of a written collection so far, and whether all its ranges have integers as sides.
#[derive(Debug, Drop)]
pub(crate) struct Made {
    pub(crate) items: Values,
    pub(crate) is_valid: bool,
}

pub(crate) fn nothing_made(alloc: Global) -> Made
    ensures { result ≡ nothing_made }
{
    Made {
        items: Values::new(alloc),
        is_valid: true,
    }
}

/// The elements with one more.
pub(crate) fn add_item(before: Made, value: Value) -> Result<Made, AllocError>
    requires { IsWellMade value }
    ensures { IfOk result (λ made. made ≡ record before { items = before.items ++ value ∷ [] }) }
{
    let mut made = before;
    made.items.push(value)?;
    Ok(made)
}

/// How many units the elements of a collection cost; past 2^64 - 1 counts as that.
fn sizes(all: &[Value]) -> u64
    ensures { result ≡ min (sizes_of all.now) (2 ^ 64 - 1) }
{
    let mut sum = 0u64;
    'add: for value in all {
        sum = sum.saturating_add(size(value));
    }
    sum
}

/// The elements with those of a range, unless they are more than the units left allow.
pub(crate) fn add_range(before: Made, x: &Value, y: &Value, meter: &Meter) -> Result<Made, Stop>
    ensures { Gives (add_range before x.now y.now meter.now) result meter.now }
{
    let count = range_count(x, y);
    let needed = sizes(before.items.as_slice())
        .saturating_add(1)
        .saturating_add(count);
    if needed > u64::from(meter.fuel) {
        return Err(Stop::Exhausted);
    }
    let mut items = before.items.into_vec();
    let is_range = append_range(x, y, &mut items)?;
    Ok(Made {
        items: Values::from_vec(items),
        is_valid: before.is_valid && is_range,
    })
}

/// The collection that is made.
pub(crate) fn made_value(alloc: Global, kind: Kind, made: Made) -> Result<Value, AllocError>
    ensures value { IfOk result (λ v. v ≡ (if made.is_valid then canon kind made.items else Invalid)) }
    ensures well_made { IfOk result IsWellMade }
{
    if made.is_valid {
        make(alloc, kind, made.items.into_vec())
    } else {
        Ok(Value::Invalid)
    }
}
