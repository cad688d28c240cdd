ghost use Rattle.std.specs.Prelude.{◌≡◌, count_by, IsSorted};
ghost use Rattle.std.specs.Ordering.{is_le, is_lt};
ghost use Rattle.use_orders.specs.Canon.{has, times};

/// Whether `x` is in the list, which is in order.
pub fn contains<T: Ord>(items: &[T], x: &T) -> bool
    requires sorted { IsSorted T.cmp items.now }
    ensures { result ≡ has T.cmp items.now x.now }
{
    items.binary_search(x).is_ok()
}

/// Whether `x` is in the list, in whatever order that is.
pub fn contains_anywhere<T: Ord>(items: &[T], x: &T) -> bool
    ensures { result ≡ has T.cmp items.now x.now }
{
    items.contains(x)
}

// How many elements of a list in order are below `x`.
pub(crate) fn below<T: Ord>(items: &[T], x: &T) -> usize
    requires sorted { IsSorted T.cmp items.now }
    ensures { result ≡ count_by (λ y. is_lt (T.cmp y x.now)) items.now }
{
    items.partition_point(|y| y.cmp(x).is_lt())
}

// How many elements of a list in order are not above `x`.
pub(crate) fn up_to<T: Ord>(items: &[T], x: &T) -> usize
    requires sorted { IsSorted T.cmp items.now }
    ensures { result ≡ count_by (λ y. is_le (T.cmp y x.now)) items.now }
{
    items.partition_point(|y| y.cmp(x).is_le())
}

/// How often `x` is in the list, which is in order.
pub fn count<T: Ord>(items: &[T], x: &T) -> usize
    requires sorted { IsSorted T.cmp items.now }
    ensures { result ≡ times T.cmp items.now x.now }
{
    up_to(items, x) - below(items, x)
}

/// How often `x` is in the list, in whatever order that is.
pub fn count_anywhere<T: Ord>(items: &[T], x: &T) -> usize
    ensures { result ≡ times T.cmp items.now x.now }
{
    items.iter().filter(|y| x.cmp(*y).is_eq()).count()
}
