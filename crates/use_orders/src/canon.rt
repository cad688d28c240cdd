ghost use Rattle.std.specs.Prelude.{◌≡◌, IfOk};
ghost use Rattle.std.specs.FinMap.{IsAntisymmetric};
ghost use Rattle.use_orders.specs.Canon.{bag_of, set_of};

use std::alloc::AllocError;

/// The elements in order; those that tie stay as they stood.
pub fn bag<T: Ord + Drop>(items: Vec<T>) -> Result<Vec<T>, AllocError>
    ensures { IfOk result (λ v. v.items ≡ bag_of T.cmp items.items) }
{
    let mut sorted = items;
    sorted.sort()?;
    Ok(sorted)
}

/// The elements in order, without repeats.
pub fn set<T: Ord + Drop>(items: Vec<T>) -> Result<Vec<T>, AllocError>
    requires exact { IsAntisymmetric T.cmp }
    ensures { IfOk result (λ v. v.items ≡ set_of T.cmp items.items) }
{
    let mut sorted = items;
    sorted.sort()?;
    sorted.dedup();
    Ok(sorted)
}
