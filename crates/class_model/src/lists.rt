ghost use Rattle.std.specs.Prelude.{◌≡◌, [], ◌∷◌, ◌++◌, if◌then◌else◌, OnOk};

use std::alloc::AllocError;

/// Adds a number where a condition holds.
pub(crate) fn push_if(numbers: &mut Vec<u32>, holds: bool, number: u32) -> Result<(), AllocError>
    ensures { OnOk result (numbers.new.items ≡ numbers.old.items ++ (if holds then number ∷ [] else [])) }
{
    if !holds {
        return Ok(());
    }
    numbers.push(number)?;
    Ok(())
}
