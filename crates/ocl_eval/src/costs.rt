ghost use Rattle.std.specs.Prelude.{◌≡◌, ◌+◌, IfOk};
ghost use Rattle.ocl_values.specs.Shape.{IsWellMade, size_of};
ghost use Rattle.ocl_eval.specs.Evaluations.{Gives, pay, spend};

use crate::{Meter, States, Stop};
use ocl_values::{Value, size};

/// As many units as the size of a value, if they are left.
#[inline]
pub(crate) fn spend_for<S, V: States<S>>(
    states: &V,
    value: &Value,
    meter: &mut Meter,
    steps: &mut S,
) -> Result<(), Stop>
    ensures value { Gives (spend (size_of value.now) meter.old) result meter.new }
    ensures ticks { V.count steps.new + meter.new.fuel ≡ V.count steps.old + meter.old.fuel }
{
    let cost = size(value);
    if cost > u64::from(meter.fuel) {
        return Err(Stop::Exhausted);
    }
    meter.fuel -= cost as u32;
    states.tick_by(cost, steps);
    Ok(())
}

/// The value, if its size is left.
#[inline]
pub(crate) fn pay<S, V: States<S>>(
    states: &V,
    value: Value,
    meter: &mut Meter,
    steps: &mut S,
) -> Result<Value, Stop>
    requires { IsWellMade value }
    ensures value { Gives (pay value meter.old) result meter.new }
    ensures well_made { IfOk result IsWellMade }
    ensures ticks { V.count steps.new + meter.new.fuel ≡ V.count steps.old + meter.old.fuel }
{
    spend_for(states, &value, meter, steps)?;
    Ok(value)
}
