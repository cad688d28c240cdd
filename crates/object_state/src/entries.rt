ghost use Rattle.std.specs.Prelude.{◌≡◌, ◌<◌, [], false, length, slice_get, IsTrue, OnOk, OnErr};
ghost use Rattle.std.specs.BTreeMap.{insert_entry, is_at};
ghost use Rattle.std.specs.List.{find, position};
ghost use Rattle.std.specs.Map.{lookup, remove_entry, set_value};
ghost use Rattle.std.specs.Option.{option_copied, option_map, option_map_or, unwrap_or};
ghost use Rattle.std.specs.Ordering.{is_le, nat_cmp};
ghost use Rattle.object_state.specs.Changes.{with_slot};

use crate::objects::set_slot;
use crate::{Layout, Object};
use class_model::AttrNo;
use ocl_values::{ObjNo, Value};
use std::alloc::{AllocError, Global};
use std::marker::Model;

/// A plain list of entries in the order of their keys.
#[derive(Debug, Drop)]
pub(crate) struct Entries<K, V> {
    entries: Vec<(K, V)>,
}

impl<K, V> Model for Entries<K, V> {
    ghost use Rattle.std.specs.Prelude.{List};
    ghost use Rattle.std.specs.Coded.{coded_list, coded×};

    ghost Value = { List (K × V) };

    ghost coded = { coded_list (coded× K.code V.code) };

    ghost view = { λ e. e.entries.items };
}

/// Where a key is.
fn place_at<K: Ord, V>(entries: &[(K, V)], key: &K) -> Option<usize>
    ensures { result ≡ position (λ e. is_at (K.cmp key.now) e.0) entries.now }
{
    entries.iter().position(|entry| key.cmp(&entry.0).is_eq())
}

/// The first entry whose key is not below a key.
fn first_from<K: Ord, V>(entries: &[(K, V)], key: &K) -> Option<usize>
    ensures { result ≡ position (λ e. is_le (K.cmp key.now e.0)) entries.now }
{
    entries.iter().position(|entry| key.cmp(&entry.0).is_le())
}

/// Before which entry a key goes, or where it is.
fn place_for<K: Ord, V>(entries: &[(K, V)], key: &K) -> usize
    ensures { result ≡ unwrap_or (position (λ e. is_le (K.cmp key.now e.0)) entries.now) (length entries.now) }
{
    match first_from(entries, key) {
        None => entries.len(),
        Some(at) => at,
    }
}

/// Whether the entry at a place has a key.
fn holds<K: Ord, V>(entries: &[(K, V)], at: usize, key: &K) -> bool
    ensures there { result ≡ option_map_or (λ e. is_at (K.cmp key.now) e.0) (slice_get entries.now at) false }
    ensures within { IsTrue result → at < length entries.now }
{
    match entries.get(at) {
        None => false,
        Some(entry) => key.cmp(&entry.0).is_eq(),
    }
}

/// The value at a key.
fn value_at<'a, K: Ord, V>(entries: &'a [(K, V)], key: &K) -> Option<&'a V>
    ensures { option_copied result ≡ option_map (λ e. e.1) (find (λ e. is_at (K.cmp key.now) e.0) entries.now) }
{
    entries
        .iter()
        .find(|entry| key.cmp(&entry.0).is_eq())
        .map(|entry| &entry.1)
}

impl<K, V> Entries<K, V> {
    pub(crate) fn new(alloc: Global) -> Entries<K, V>
        ensures { result ≡ [] }
    {
        Entries {
            entries: Vec::new(alloc),
        }
    }

    pub(crate) fn as_slice(&self) -> &[(K, V)]
        ensures { result.now ≡ self.now }
    {
        self.entries.as_slice()
    }

    pub(crate) fn len(&self) -> usize
        ensures { result ≡ length self.now }
    {
        self.entries.len()
    }
}

impl<K: Ord + Drop, V: Drop> Entries<K, V> {
    /// The value at a key.
    pub(crate) fn get(&self, key: &K) -> Option<&V>
        ensures { option_copied result ≡ lookup (is_at (K.cmp key.now)) self.now }
    {
        value_at(self.entries.as_slice(), key)
    }

    /// Puts a value at a key; an equal key stays.
    pub(crate) fn insert(&mut self, key: K, value: V) -> Result<(), AllocError>
        ensures ok { OnOk result (self.new ≡ insert_entry K.cmp self.old key value) }
        ensures err { OnErr result (self.new ≡ self.old) }
    {
        let at = place_for(self.entries.as_slice(), &key);
        if holds(self.entries.as_slice(), at, &key) {
            self.entries[at].1 = value;
            return Ok(());
        }
        self.entries.insert(at, (key, value))?;
        Ok(())
    }

    /// Takes the first entry of a key out.
    pub(crate) fn remove(&mut self, key: &K)
        ensures { self.new ≡ remove_entry (is_at (K.cmp key.now)) self.old }
    {
        if let Some(at) = place_at(self.entries.as_slice(), key) {
            self.entries.remove(at);
        }
    }
}

impl Entries<ObjNo, Object> {
    /// Stores a value in the object of a number, where it is live and has the attribute.
    pub(crate) fn set_slot(
        &mut self,
        alloc: Global,
        layout: &Layout,
        object: ObjNo,
        attr: AttrNo,
        value: Value,
    )
        ensures { self.new ≡ option_map_or (λ x. set_value (is_at (nat_cmp object)) self.old (with_slot layout.now x attr value)) (lookup (is_at
            (nat_cmp object)) self.old) self.old }
    {
        if let Some(at) = place_at(self.entries.as_slice(), &object) {
            let entry = &mut self.entries[at];
            set_slot(alloc, layout, &mut entry.1, attr, value);
        }
    }
}
