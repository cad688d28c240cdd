ghost use Rattle.std.specs.Prelude.{◌≡◌, ◌++◌, ◌∷◌, ◌≤◌, [], IfOk, IsSorted, drop, length, take};
ghost use Rattle.std.specs.FinMap.{IsAntisymmetric};
ghost use Rattle.use_orders.specs.Canon.{bag_of, set_of, without};

use crate::searches::{below, up_to};
use crate::{TryCopy, append_copies, copied};
use std::alloc::{AllocError, Global};

/// Copies of the elements, with a copy of `x` behind the first `n`.
pub fn insert_at<T: TryCopy + Drop>(
    alloc: Global,
    items: &[T],
    n: usize,
    x: &T,
) -> Result<Vec<T>, AllocError>
    requires { n ≤ length items.now }
    ensures { IfOk result (λ v. v.items ≡ take n items.now ++ x.now ∷ drop n items.now) }
{
    let mut out = Vec::new(alloc);
    append_copies(alloc, &items[..n], 0, &mut out)?;
    out.push(x.try_copy(alloc)?)?;
    append_copies(alloc, items, n, &mut out)?;
    Ok(out)
}

// Copies of the elements but those from the first `n` on and before the first `m`.
fn without_range<T: TryCopy + Drop>(
    alloc: Global,
    items: &[T],
    n: usize,
    m: usize,
) -> Result<Vec<T>, AllocError>
    requires first { n ≤ length items.now }
    requires second { m ≤ length items.now }
    ensures { IfOk result (λ v. v.items ≡ take n items.now ++ drop m items.now) }
{
    let mut out = Vec::new(alloc);
    append_copies(alloc, &items[..n], 0, &mut out)?;
    append_copies(alloc, items, m, &mut out)?;
    Ok(out)
}

/// A list in order without what ties with `x`.
pub fn remove<T: Ord + TryCopy + Drop>(
    alloc: Global,
    items: &[T],
    x: &T,
) -> Result<Vec<T>, AllocError>
    requires sorted { IsSorted T.cmp items.now }
    ensures { IfOk result (λ v. v.items ≡ without T.cmp items.now (x.now ∷ [])) }
{
    without_range(alloc, items, below(items, x), up_to(items, x))
}

// A list with `x` behind the first `n`.
fn put_at<T: Drop>(items: Vec<T>, n: usize, x: T) -> Result<Vec<T>, AllocError>
    requires { n ≤ length items.items }
    ensures { IfOk result (λ v. v.items ≡ take n items.items ++ x ∷ drop n items.items) }
{
    let mut all = items;
    all.insert(n, x)?;
    Ok(all)
}

/// A list in order with one element more, at its place.
pub fn insert<T: Ord + Drop>(items: Vec<T>, x: T) -> Result<Vec<T>, AllocError>
    requires exact { IsAntisymmetric T.cmp }
    requires sorted { IsSorted T.cmp items.items }
    ensures { IfOk result (λ v. v.items ≡ bag_of T.cmp (items.items ++ x ∷ [])) }
{
    let n = below(items.as_slice(), &x);
    put_at(items, n, x)
}

/// A list in order without repeats, with one element more unless it is there.
pub fn insert_absent<T: Ord + Drop>(items: Vec<T>, x: T) -> Result<Vec<T>, AllocError>
    requires exact { IsAntisymmetric T.cmp }
    requires set { set_of T.cmp items.items ≡ items.items }
    ensures { IfOk result (λ v. v.items ≡ set_of T.cmp (items.items ++ x ∷ [])) }
{
    match items.binary_search(&x) {
        Ok(_) => Ok(items),
        Err(n) => put_at(items, n, x),
    }
}
