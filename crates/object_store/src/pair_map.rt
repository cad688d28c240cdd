ghost use Rattle.std.specs.Prelude.{◌≡◌, ◌<◌, [], filter, IfOk, OnOk, OnErr, None, Some, is_some, length, map, nat_eq, true};
ghost use Rattle.std.specs.BTreeMap.{insert_entry, is_at};
ghost use Rattle.std.specs.Map.{lookup, remove_entry, set_value};
ghost use Rattle.std.specs.Option.{option_copied};
ghost use Rattle.object_state.specs.State.{link_cmp};
ghost use Rattle.object_store.specs.Pairs.{pairs};

use crate::number_map::NumberMap;
use std::alloc::{AllocError, Global};
use std::marker::Model;

/// Values by two numbers, of which the first are few: a look takes the same time for any number of
/// values. Contracts see the list of its entries, by the first number and then by the second.
#[derive(Drop)]
pub(crate) struct PairMap<V> {
    rows: Vec<NumberMap<V>>,
}

impl<V> Model for PairMap<V> {
    ghost use Rattle.std.specs.Prelude.{List, ℕ};
    ghost use Rattle.std.specs.Coded.{coded_list, coded×, coded_ℕ};
    ghost use Rattle.object_store.specs.Pairs.{pairs};

    ghost Value = { List ((ℕ × ℕ) × V) };

    ghost coded = { coded_list (coded× (coded× coded_ℕ coded_ℕ) V.code) };

    ghost view = { λ m. pairs 0 m.rows.items };
}

/// Adds rows until there is one of this number.
fn grow<V: Drop>(
    alloc: Global,
    rows: &mut Vec<NumberMap<V>>,
    first: usize,
) -> Result<(), AllocError>
    ensures same { pairs 0 rows.new.items ≡ pairs 0 rows.old.items }
    ensures there { OnOk result (first < length rows.new.items) }
{
    'grow: while rows.len() <= first {
        rows.push(NumberMap::new(alloc))?;
    }
    Ok(())
}

impl<V: Drop> PairMap<V> {
    pub(crate) fn new(alloc: Global) -> PairMap<V>
        ensures { result ≡ [] }
    {
        PairMap {
            rows: Vec::new(alloc),
        }
    }

    /// The value of two numbers.
    pub(crate) fn get(&self, first: u32, second: u32) -> Option<&V>
        ensures { option_copied result ≡ lookup (is_at (link_cmp (first, second))) self.now }
    {
        match self.rows.get(first as usize) {
            None => None,
            Some(row) => row.get(second),
        }
    }

    pub(crate) fn has(&self, first: u32, second: u32) -> bool
        ensures { result ≡ is_some (lookup (is_at (link_cmp (first, second))) self.now) }
    {
        self.get(first, second).is_some()
    }

    /// The second numbers that stand with a first one, in their order.
    pub(crate) fn seconds(&self, alloc: Global, first: u32) -> Result<Vec<u32>, AllocError>
        ensures { IfOk result (λ v. v.items ≡ map (λ e. e.0.1) (filter (λ e. nat_eq e.0.0 first) self.now)) }
    {
        match self.rows.get(first as usize) {
            None => Ok(Vec::new(alloc)),
            Some(row) => row.numbers(alloc),
        }
    }

    /// Puts a value at two numbers that have none.
    pub(crate) fn insert(
        &mut self,
        alloc: Global,
        first: u32,
        second: u32,
        value: V,
    ) -> Result<(), AllocError>
        requires { lookup (is_at (link_cmp (first, second))) self.old ≡ None }
        ensures ok { OnOk result (self.new ≡ insert_entry link_cmp self.old (first, second) value) }
        ensures err { OnErr result (self.new ≡ self.old) }
    {
        let row = first as usize;
        grow(alloc, &mut self.rows, row)?;
        self.rows[row].insert(alloc, second, value)?;
        Ok(())
    }

    /// Puts another value at two numbers that have one, and gives that one.
    pub(crate) fn replace(&mut self, first: u32, second: u32, value: V) -> V
        requires { is_some (lookup (is_at (link_cmp (first, second))) self.old) ≡ true }
        ensures map { self.new ≡ set_value (is_at (link_cmp (first, second))) self.old value }
        ensures held { lookup (is_at (link_cmp (first, second))) self.old ≡ Some result }
    {
        self.rows[first as usize].replace(second, value)
    }

    /// Takes the value of two numbers out, if they have one.
    pub(crate) fn remove(&mut self, first: u32, second: u32)
        ensures map { self.new ≡ remove_entry (is_at (link_cmp (first, second))) self.old }
        ensures gone { lookup (is_at (link_cmp (first, second))) self.new ≡ None }
    {
        if self.has(first, second) {
            self.rows[first as usize].remove(second);
        }
    }
}

impl<V: Copy> PairMap<V> {
    /// The values that stand with a first number, by the second ones.
    pub(crate) fn values(&self, alloc: Global, first: u32) -> Result<Vec<V>, AllocError>
        ensures { IfOk result (λ v. v.items ≡ map (λ e. e.1) (filter (λ e. nat_eq e.0.0 first) self.now)) }
    {
        match self.rows.get(first as usize) {
            None => Ok(Vec::new(alloc)),
            Some(row) => row.values(alloc),
        }
    }
}
