ghost use Rattle.std.specs.Prelude.{◌≡◌, All, IfOk, length};
ghost use Rattle.ocl_values.specs.Shape.{IsWellMade};
ghost use Rattle.ocl_collections.specs.Sorting.{by_keys};

use ocl_values::Value;
use std::alloc::{AllocError, Global};

/// The items in the order of the keys that stand at the same places. The sort is stable: items
/// whose keys are equal stay in their order.
pub fn sort_by_keys(
    alloc: Global,
    items: Vec<Value>,
    keys: Vec<Value>,
) -> Result<Vec<Value>, AllocError>
    requires beside { length items.items ≡ length keys.items }
    requires well { All IsWellMade items.items }
    ensures value { IfOk result (λ v. v.items ≡ by_keys items.items keys.items) }
    ensures well_made { IfOk result (λ v. All IsWellMade v.items) }
{
    use_orders::sort_by_keys(alloc, items, keys)
}
