ghost use Rattle.std.specs.Prelude.{◌≡◌, OnOk, OnErr};
ghost use Rattle.std.specs.BTreeMap.{insert_entry, is_at};
ghost use Rattle.std.specs.Map.{remove_entry};

use std::alloc::AllocError;
use std::collections::BTreeMap;

/// Puts a value at a key.
pub(crate) fn put<K: Ord + Drop, V: Drop>(
    map: &mut BTreeMap<K, V>,
    key: K,
    value: V,
) -> Result<(), AllocError>
    ensures ok { OnOk result (map.new.entries ≡ insert_entry K.cmp map.old.entries key value) }
    ensures err { OnErr result (map.new.entries ≡ map.old.entries) }
{
    map.insert(key, value)?;
    Ok(())
}

/// Takes a key out.
pub(crate) fn take<K: Ord + Drop, V: Drop>(map: &mut BTreeMap<K, V>, key: K)
    ensures { map.new.entries ≡ remove_entry (is_at (K.cmp key)) map.old.entries }
{
    map.remove(&key);
}
