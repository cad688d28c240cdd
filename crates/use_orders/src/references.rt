ghost use Rattle.std.specs.Prelude.{◌≡◌, IfOk, true};
ghost use Rattle.std.specs.List.{list_all, list_any};
ghost use Rattle.std.specs.Ordering.{is_eq};
ghost use Rattle.use_orders.specs.Canon.{all_differ, has, has_all, has_none};
ghost use Rattle.use_orders.specs.Walks.{answers};

use std::alloc::{AllocError, Global};
use std::collections::BTreeSet;

// The elements by reference, in order.
fn ordered<T: Ord>(alloc: Global, items: &[T]) -> Result<BTreeSet<&T>, AllocError>
    ensures { IfOk result (λ s. (z : T) → list_any (λ x. is_eq (T.cmp z x.now)) s.keys ≡ has T.cmp items.now z) }
{
    let mut seen: BTreeSet<&T> = BTreeSet::new(alloc);
    'each: for x in items {
        let _new = seen.insert(x)?;
    }
    Ok(seen)
}

// Whether a thing ties with one of some references.
fn refers<'a, T: Ord>(seen: &BTreeSet<&'a T>, y: &'a T) -> bool
    ensures { result ≡ list_any (λ x. is_eq (T.cmp y.now x.now)) seen.now.keys }
{
    seen.contains(&y)
}

// Whether each of some things is among the references or, where `there` is false, none is.
fn all_answer<'a, T: Ord>(seen: &BTreeSet<&'a T>, others: &'a [T], there: bool) -> bool
    ensures { result ≡ list_all (λ y. answers there (list_any (λ x. is_eq (T.cmp y x.now)) seen.now.keys)) others.now }
{
    'seek: for y in others {
        if refers(seen, y) != there {
            return false;
        }
    }
    true
}

/// Whether all of some things are in a list, in whatever order that is.
pub fn contains_all<T: Ord>(alloc: Global, items: &[T], others: &[T]) -> Result<bool, AllocError>
    ensures { IfOk result (λ b. b ≡ has_all T.cmp items.now others.now) }
{
    let seen = ordered(alloc, items)?;
    Ok(all_answer(&seen, others, true))
}

/// Whether none of some things is in a list, in whatever order that is.
pub fn contains_none<T: Ord>(alloc: Global, items: &[T], others: &[T]) -> Result<bool, AllocError>
    ensures { IfOk result (λ b. b ≡ has_none T.cmp items.now others.now) }
{
    let seen = ordered(alloc, items)?;
    Ok(all_answer(&seen, others, false))
}

/// Whether no two elements tie.
pub fn all_differ<T: Ord>(alloc: Global, items: &[T]) -> Result<bool, AllocError>
    ensures { IfOk result (λ b. b ≡ all_differ T.cmp items.now) }
{
    let mut seen: BTreeSet<&T> = BTreeSet::new(alloc);
    'each: for x in items {
        if !seen.insert(x)? {
            return Ok(false);
        }
    }
    Ok(true)
}
