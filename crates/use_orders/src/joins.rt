ghost use Rattle.std.specs.Prelude.{◌≡◌, ◌<◌, ◌++◌, length, IfOk, IsSorted};
ghost use Rattle.use_orders.specs.Canon.{bag_of};
ghost use Rattle.use_orders.specs.Walks.{Progress};

use crate::{TryCopy, append_copies};
use std::alloc::{AllocError, Global};

// Takes what comes first of two lists in order, and of two things that tie the one of the first list.
fn join_one<T: Ord + TryCopy + Drop>(
    alloc: Global,
    a: &[T],
    b: &[T],
    i: usize,
    j: usize,
    out: &mut Vec<T>,
) -> Result<(usize, usize), AllocError>
    requires first { IsSorted T.cmp a.now }
    requires second { IsSorted T.cmp b.now }
    requires in_a { i < length a.now }
    requires in_b { j < length b.now }
    ensures { IfOk result (λ next. Progress (λ xs ys. bag_of T.cmp (xs ++ ys)) a.now b.now i j out.old.items next.0 next.1 out.new.items) }
{
    if a[i].cmp(&b[j]).is_gt() {
        out.push(b[j].try_copy(alloc)?)?;
        Ok((i, j + 1))
    } else {
        out.push(a[i].try_copy(alloc)?)?;
        Ok((i + 1, j))
    }
}

/// The elements of two lists in order, in order and with their repeats. Of those that tie, the ones
/// of the first list come first.
pub fn join<T: Ord + TryCopy + Drop>(alloc: Global, a: &[T], b: &[T]) -> Result<Vec<T>, AllocError>
    requires first { IsSorted T.cmp a.now }
    requires second { IsSorted T.cmp b.now }
    ensures { IfOk result (λ v. v.items ≡ bag_of T.cmp (a.now ++ b.now)) }
{
    let mut out = Vec::with_capacity(alloc, a.len())?;
    let mut i = 0;
    let mut j = 0;
    'join: while i < a.len() && j < b.len() {
        let (next_i, next_j) = join_one(alloc, a, b, i, j, &mut out)?;
        i = next_i;
        j = next_j;
    }
    append_copies(alloc, a, i, &mut out)?;
    append_copies(alloc, b, j, &mut out)?;
    Ok(out)
}
