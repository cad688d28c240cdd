ghost use Rattle.std.specs.Prelude.{◌≡◌, length, IfOk, OnOk, if◌then◌else◌, ◌++◌, ◌∷◌, []};
ghost use Rattle.use_orders.specs.Canon.{firsts_of};
ghost use Rattle.use_orders.specs.Walks.{AreFirst};

use std::alloc::{AllocError, Global};
use std::collections::BTreeSet;

// Of each element, whether it is at its first place.
fn first_places<T: Ord>(alloc: Global, items: &[T]) -> Result<Vec<bool>, AllocError>
    ensures places { IfOk result (λ v. AreFirst T.cmp items.now v.items) }
    ensures len { IfOk result (λ v. length v.items ≡ length items.now) }
{
    let mut seen: BTreeSet<&T> = BTreeSet::new(alloc);
    let mut places = Vec::new(alloc);
    'mark: for x in items {
        places.push(seen.insert(x)?)?;
    }
    Ok(places)
}

pub(crate) fn keep_one<T: Drop>(out: &mut Vec<T>, x: T, here: bool) -> Result<(), AllocError>
    ensures { OnOk result (out.new.items ≡ (if here then out.old.items ++ x ∷ [] else out.old.items)) }
{
    if here {
        out.push(x)?;
    }
    Ok(())
}

/// Each element at its first place.
pub fn keep_first<T: Ord + Drop>(alloc: Global, items: Vec<T>) -> Result<Vec<T>, AllocError>
    ensures { IfOk result (λ v. v.items ≡ firsts_of T.cmp items.items) }
{
    let places = first_places(alloc, items.as_slice())?;
    let mut out = Vec::new(alloc);
    let mut i = 0;
    'keep: for x in items {
        keep_one(&mut out, x, places[i])?;
        i += 1;
    }
    Ok(out)
}
