ghost use Rattle.std.specs.Prelude.{◌≡◌, ◌==◌, IsSorted, ◌++◌, ◌+◌, ◌<◌, ◌≤◌, not, filter, drop, length, IfOk, true, false, Bool};
ghost use Rattle.std.specs.Set.{sorted_merge};
ghost use Rattle.std.specs.FinMap.{IsAntisymmetric};
ghost use Rattle.use_orders.specs.Canon.{has, set_of, within, without};
ghost use Rattle.use_orders.specs.Walks.{Progress, answers};

use crate::{TryCopy, append_copies, contains};
use std::alloc::{AllocError, Global};
use std::cmp::Ordering;

// Takes what comes first of two lists in order, and of two equal things one.
fn merge_one<T: Ord + TryCopy + Drop>(
    alloc: Global,
    a: &[T],
    b: &[T],
    i: usize,
    j: usize,
    out: &mut Vec<T>,
) -> Result<(usize, usize), AllocError>
    requires in_a { i < length a.now }
    requires in_b { j < length b.now }
    ensures { IfOk result (λ next. Progress (sorted_merge T.cmp true) a.now b.now i j out.old.items next.0 next.1 out.new.items) }
{
    match a[i].cmp(&b[j]) {
        Ordering::Less => {
            out.push(a[i].try_copy(alloc)?)?;
            Ok((i + 1, j))
        }
        Ordering::Equal => {
            out.push(a[i].try_copy(alloc)?)?;
            Ok((i + 1, j + 1))
        }
        Ordering::Greater => {
            out.push(b[j].try_copy(alloc)?)?;
            Ok((i, j + 1))
        }
    }
}

fn merge<T: Ord + TryCopy + Drop>(alloc: Global, a: &[T], b: &[T]) -> Result<Vec<T>, AllocError>
    ensures { IfOk result (λ v. v.items ≡ sorted_merge T.cmp true a.now b.now) }
{
    let mut out = Vec::with_capacity(alloc, a.len())?;
    let mut i = 0;
    let mut j = 0;
    'merge: while i < a.len() && j < b.len() {
        let (next_i, next_j) = merge_one(alloc, a, b, i, j, &mut out)?;
        i = next_i;
        j = next_j;
    }
    append_copies(alloc, a, i, &mut out)?;
    append_copies(alloc, b, j, &mut out)?;
    Ok(out)
}

/// What is in either of two lists in order without repeats.
pub fn union<T: Ord + TryCopy + Drop>(alloc: Global, a: &[T], b: &[T]) -> Result<Vec<T>, AllocError>
    requires exact { IsAntisymmetric T.cmp }
    requires first { set_of T.cmp a.now ≡ a.now }
    requires second { set_of T.cmp b.now ≡ b.now }
    ensures { IfOk result (λ v. v.items ≡ set_of T.cmp (a.now ++ b.now)) }
{
    merge(alloc, a, b)
}

// The elements of `a` that are in `b` or, where `there` is false, not in `b`.
fn filtered<T: Ord + TryCopy + Drop>(
    alloc: Global,
    there: bool,
    a: &[T],
    b: &[T],
) -> Result<Vec<T>, AllocError>
    requires sorted { IsSorted T.cmp b.now }
    ensures { IfOk result (λ v. v.items ≡ filter (λ x. answers there (has T.cmp b.now x)) a.now) }
{
    let mut out = Vec::new(alloc);
    'pick: for x in a {
        if contains(b, x) == there {
            out.push(x.try_copy(alloc)?)?;
        }
    }
    Ok(out)
}

/// The elements of the first list that are in the second, which is in order.
pub fn within<T: Ord + TryCopy + Drop>(
    alloc: Global,
    a: &[T],
    b: &[T],
) -> Result<Vec<T>, AllocError>
    requires sorted { IsSorted T.cmp b.now }
    ensures { IfOk result (λ v. v.items ≡ within T.cmp a.now b.now) }
{
    filtered(alloc, true, a, b)
}

/// The elements of the first list that are not in the second, which is in order.
pub fn without<T: Ord + TryCopy + Drop>(
    alloc: Global,
    a: &[T],
    b: &[T],
) -> Result<Vec<T>, AllocError>
    requires sorted { IsSorted T.cmp b.now }
    ensures { IfOk result (λ v. v.items ≡ without T.cmp a.now b.now) }
{
    filtered(alloc, false, a, b)
}
