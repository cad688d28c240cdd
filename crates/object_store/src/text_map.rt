ghost use Rattle.std.specs.Prelude.{◌≡◌, [], OnOk, OnErr};
ghost use Rattle.std.specs.BTreeMap.{insert_entry, is_at};
ghost use Rattle.std.specs.Map.{lookup, remove_entry};
ghost use Rattle.std.specs.Option.{option_copied};
ghost use Rattle.object_state.specs.State.{text_cmp};

use std::alloc::{AllocError, Global};
use std::collections::BTreeMap;
use std::marker::Model;

/// A map from texts. Contracts see the list of its entries in the order of the texts.
#[derive(Drop)]
pub(crate) struct TextMap<V> {
    pub(crate) values: BTreeMap<String, V>,
}

impl<V> Model for TextMap<V> {
    ghost use Rattle.std.specs.Prelude.{List, ℕ, map, string_bytes};
    ghost use Rattle.std.specs.Coded.{coded_list, coded×, coded_ℕ};

    ghost Value = { List (List ℕ × V) };

    ghost coded = { coded_list (coded× (coded_list coded_ℕ) V.code) };

    ghost view = { λ m. map (λ e. (string_bytes e.0, e.1)) m.values.entries };
}

impl<V: Drop> TextMap<V> {
    pub(crate) fn new(alloc: Global) -> TextMap<V>
        ensures { result ≡ [] }
    {
        TextMap {
            values: BTreeMap::new(alloc),
        }
    }

    /// The value of a text.
    pub(crate) fn get(&self, text: &str) -> Option<&V>
        ensures { option_copied result ≡ lookup (is_at (text_cmp text.now)) self.now }
    {
        self.values.get(text)
    }

    /// Puts a value at a text, of which it makes a copy.
    pub(crate) fn insert(&mut self, alloc: Global, text: &str, value: V) -> Result<(), AllocError>
        ensures ok { OnOk result (self.new ≡ insert_entry text_cmp self.old text.now value) }
        ensures err { OnErr result (self.new ≡ self.old) }
    {
        let key = String::from_str(alloc, text)?;
        self.values.insert(key, value)?;
        Ok(())
    }

    pub(crate) fn remove(&mut self, text: &str)
        ensures { self.new ≡ remove_entry (is_at (text_cmp text.now)) self.old }
    {
        self.values.remove(text);
    }
}
