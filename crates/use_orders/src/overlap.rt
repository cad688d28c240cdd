ghost use Rattle.std.specs.Prelude.{◌≡◌, ◌<◌, IfOk, IsSorted, length};
ghost use Rattle.use_orders.specs.Canon.{common_of};
ghost use Rattle.use_orders.specs.Walks.{Progress};

use crate::TryCopy;
use std::alloc::{AllocError, Global};
use std::cmp::Ordering;

// Of two lists in order, passes what comes first, and takes what both have.
fn common_one<T: Ord + TryCopy + Drop>(
    alloc: Global,
    a: &[T],
    b: &[T],
    i: usize,
    j: usize,
    out: &mut Vec<T>,
) -> Result<(usize, usize), AllocError>
    requires first { IsSorted T.cmp a.now }
    requires second { IsSorted T.cmp b.now }
    requires in_a { i < length a.now }
    requires in_b { j < length b.now }
    ensures { IfOk result (λ next. Progress (common_of T.cmp) a.now b.now i j out.old.items next.0 next.1 out.new.items) }
{
    match a[i].cmp(&b[j]) {
        Ordering::Less => Ok((i + 1, j)),
        Ordering::Equal => {
            out.push(a[i].try_copy(alloc)?)?;
            Ok((i + 1, j + 1))
        }
        Ordering::Greater => Ok((i, j + 1)),
    }
}

/// What two lists in order share, each as often as the list that has fewer of it.
pub fn common<T: Ord + TryCopy + Drop>(
    alloc: Global,
    a: &[T],
    b: &[T],
) -> Result<Vec<T>, AllocError>
    requires first { IsSorted T.cmp a.now }
    requires second { IsSorted T.cmp b.now }
    ensures { IfOk result (λ v. v.items ≡ common_of T.cmp a.now b.now) }
{
    let mut out = Vec::new(alloc);
    let mut i = 0;
    let mut j = 0;
    'walk: while i < a.len() && j < b.len() {
        let (next_i, next_j) = common_one(alloc, a, b, i, j, &mut out)?;
        i = next_i;
        j = next_j;
    }
    Ok(out)
}
