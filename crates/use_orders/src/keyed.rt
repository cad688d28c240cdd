ghost use Rattle.std.specs.Prelude.{◌≡◌, IfOk, length, map};
ghost use Rattle.std.specs.List.{zip};
ghost use Rattle.std.specs.Cmp.{on_equiv, on_total, on_po, on_per};
ghost use Rattle.use_orders.specs.Canon.{bag_of, sorted_by_keys};

use crate::bag;
use std::alloc::{AllocError, Global};
use std::cmp::Ordering;

// A thing that goes by its key.
#[derive(Drop)]
struct Keyed<K, T> {
    key: K,
    item: T,
}

impl<K: PartialEq, T> PartialEq for Keyed<K, T> {
    ghost eq = { λ a b. K.eq a.key b.key };

    ghost laws = { on_per (λ p. p.key) K.laws };

    fn eq(&self, other: &Self) -> bool {
        self.key == other.key
    }
}

impl<K: Eq, T> Eq for Keyed<K, T> {
    ghost laws = { on_equiv (λ p. p.key) K.Eq.laws };
}

impl<K: PartialOrd, T> PartialOrd for Keyed<K, T> {
    ghost partial_cmp = { λ a b. K.partial_cmp a.key b.key };

    ghost laws = { on_po (λ p. p.key) K.PartialOrd.laws };

    fn partial_cmp(&self, other: &Self) -> Option<Ordering> {
        self.key.partial_cmp(&other.key)
    }
}

impl<K: Ord, T> Ord for Keyed<K, T> {
    ghost cmp = { λ a b. K.cmp a.key b.key };

    ghost total = { on_total (λ p. p.key) K.total };

    ghost matches_partial_cmp = { λ v w. K.matches_partial_cmp v.key w.key };

    ghost matches_eq = { λ v w. K.matches_eq v.key w.key };

    fn cmp(&self, other: &Self) -> Ordering {
        self.key.cmp(&other.key)
    }
}

// The items by their keys; those with one key stay as they stood.
fn by_keys<K: Ord + Drop, T: Drop>(
    alloc: Global,
    pairs: Vec<Keyed<K, T>>,
) -> Result<Vec<T>, AllocError>
    ensures { IfOk result (λ v. v.items ≡ map (λ p. p.item) (bag_of (λ a b. K.cmp a.key b.key) pairs.items)) }
{
    let sorted = bag(pairs)?;
    let mut out = Vec::new(alloc);
    'take: for pair in sorted {
        let Keyed { key: _, item } = pair;
        out.push(item)?;
    }
    Ok(out)
}

// Each item beside its key.
fn beside<K: Drop, T: Drop>(
    alloc: Global,
    items: Vec<T>,
    keys: Vec<K>,
) -> Result<Vec<Keyed<K, T>>, AllocError>
    ensures { IfOk result (λ v. map (λ p. (p.key, p.item)) v.items ≡ zip keys.items items.items) }
{
    let mut pairs = Vec::new(alloc);
    'pair: for (key, item) in keys.into_iter().zip(items) {
        pairs.push(Keyed { key, item })?;
    }
    Ok(pairs)
}

/// The items in the order of their keys, which stand at the same places. The sort is stable.
pub fn sort_by_keys<K: Ord + Drop, T: Drop>(
    alloc: Global,
    items: Vec<T>,
    keys: Vec<K>,
) -> Result<Vec<T>, AllocError>
    requires { length keys.items ≡ length items.items }
    ensures { IfOk result (λ v. v.items ≡ sorted_by_keys K.cmp items.items keys.items) }
{
    by_keys(alloc, beside(alloc, items, keys)?)
}
