ghost use Rattle.std.specs.Prelude.{◌≡◌, ◌++◌, ◌<◌, length, IfOk};
ghost use Rattle.std.specs.FinMap.{IsAntisymmetric};
ghost use Rattle.use_orders.specs.Canon.{set_of, without};
ghost use Rattle.use_orders.specs.Walks.{Progress, apart};

use crate::{TryCopy, append_copies};
use std::alloc::{AllocError, Global};
use std::cmp::Ordering;

// Takes what comes first of two lists in order without repeats, and passes what both have.
fn apart_one<T: Ord + TryCopy + Drop>(
    alloc: Global,
    a: &[T],
    b: &[T],
    i: usize,
    j: usize,
    out: &mut Vec<T>,
) -> Result<(usize, usize), AllocError>
    requires exact { IsAntisymmetric T.cmp }
    requires first { set_of T.cmp a.now ≡ a.now }
    requires second { set_of T.cmp b.now ≡ b.now }
    requires in_a { i < length a.now }
    requires in_b { j < length b.now }
    ensures { IfOk result (λ next. Progress (apart T.cmp) a.now b.now i j out.old.items next.0 next.1 out.new.items) }
{
    match a[i].cmp(&b[j]) {
        Ordering::Less => {
            out.push(a[i].try_copy(alloc)?)?;
            Ok((i + 1, j))
        }
        Ordering::Equal => Ok((i + 1, j + 1)),
        Ordering::Greater => {
            out.push(b[j].try_copy(alloc)?)?;
            Ok((i, j + 1))
        }
    }
}

/// What is in one of two lists in order without repeats and not in the other.
pub fn symmetric<T: Ord + TryCopy + Drop>(
    alloc: Global,
    a: &[T],
    b: &[T],
) -> Result<Vec<T>, AllocError>
    requires exact { IsAntisymmetric T.cmp }
    requires first { set_of T.cmp a.now ≡ a.now }
    requires second { set_of T.cmp b.now ≡ b.now }
    ensures { IfOk result (λ v. v.items ≡ set_of T.cmp (without T.cmp a.now b.now ++ without T.cmp b.now a.now)) }
{
    let mut out = Vec::new(alloc);
    let mut i = 0;
    let mut j = 0;
    'walk: while i < a.len() && j < b.len() {
        let (next_i, next_j) = apart_one(alloc, a, b, i, j, &mut out)?;
        i = next_i;
        j = next_j;
    }
    append_copies(alloc, a, i, &mut out)?;
    append_copies(alloc, b, j, &mut out)?;
    Ok(out)
}
