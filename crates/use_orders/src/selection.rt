ghost use Rattle.std.specs.Prelude.{◌≡◌, ◌++◌, ◌∷◌, [], length, IfOk, OnOk, if◌then◌else◌};
ghost use Rattle.use_orders.specs.Canon.{selected};

use crate::TryCopy;
use crate::firsts::keep_one;
use std::alloc::{AllocError, Global};

fn copy_one<T: TryCopy + Drop>(
    alloc: Global,
    out: &mut Vec<T>,
    x: &T,
    here: bool,
) -> Result<(), AllocError>
    ensures { OnOk result (out.new.items ≡ (if here then out.old.items ++ x.now ∷ [] else out.old.items)) }
{
    if here {
        out.push(x.try_copy(alloc)?)?;
    }
    Ok(())
}

/// Copies of the elements beside which `true` stands.
pub fn copy_selected<T: TryCopy + Drop>(
    alloc: Global,
    items: &[T],
    flags: &[bool],
) -> Result<Vec<T>, AllocError>
    requires { length flags.now ≡ length items.now }
    ensures { IfOk result (λ v. v.items ≡ selected items.now flags.now) }
{
    let mut out = Vec::new(alloc);
    'pick: for i in 0..items.len() {
        copy_one(alloc, &mut out, &items[i], flags[i])?;
    }
    Ok(out)
}

/// The elements beside which `true` stands.
pub fn select<T: Drop>(alloc: Global, items: Vec<T>, flags: &[bool]) -> Result<Vec<T>, AllocError>
    requires { length flags.now ≡ length items.items }
    ensures { IfOk result (λ v. v.items ≡ selected items.items flags.now) }
{
    let mut out = Vec::new(alloc);
    let mut i = 0;
    'pick: for x in items {
        keep_one(&mut out, x, flags[i])?;
        i += 1;
    }
    Ok(out)
}
