//! Changes of a map, put into it.
ghost use Rattle.std.specs.Prelude.{◌≡◌, ◌≤◌, List, ℕ, not, is_some, if◌then◌else◌, None, OnOk, OnErr};
ghost use Rattle.std.specs.Str.{bytes_eq};
ghost use Rattle.indexmap.specs.IndexMap.{get, index_map_len, insert_all, IsUnique};
ghost use Rattle.warg_permissions.specs.KeyMaps.Changes.{HasRoomFor};
ghost use Rattle.warg_permissions.specs.KeyMaps.Rights.{value_over};

use std::alloc::AllocError;
use std::hash::Hash;
use warg_crypto::signing::KeyID;
use warg_maps::NameMap;

/// Puts the entries of the changes into the map, in their order, or none. An empty map becomes the changes, of which
/// none is moved.
pub fn put_all<K: Ord + Hash + Clone + Drop, V: Drop>(
    map: &mut NameMap<K, V>,
    mut changes: NameMap<K, V>,
) -> Result<(), AllocError>
    ensures entries { OnOk result (map.new.entries ≡
        insert_all K.eq map.old.entries changes.entries) }
    ensures unchanged { OnErr result (map.new.entries ≡ map.old.entries) }
{
    // The contract of `len` says that no two keys are equal.
    let _len = changes.len();
    if map.is_empty() {
        *map = changes;
        return Ok(());
    }
    map.append(&mut changes)?;
    Ok(())
}

/// Makes the room that `lay_over` asks for. No entry changes.
pub(crate) fn make_room<V>(
    map: &mut NameMap<KeyID, V>,
    changes: &mut NameMap<KeyID, V>,
) -> Result<(), AllocError>
    ensures entries { map.new.entries ≡ map.old.entries }
    ensures changes { changes.new.entries ≡ changes.old.entries }
    ensures room { OnOk result (HasRoomFor map.new changes.new) }
{
    if map.len() < changes.len() {
        changes.reserve(map.len())
    } else {
        map.reserve(changes.len())
    }
}

/// Keeps the entries of the map whose keys have none among the changes.
fn keep_others<V: Drop>(map: &mut NameMap<KeyID, V>, changes: &NameMap<KeyID, V>)
    ensures values { (k : List ℕ) → get bytes_eq map.new k
        ≡ (if is_some (get bytes_eq changes.now k) then None else get bytes_eq map.old k) }
    ensures bound { index_map_len map.new ≤ index_map_len map.old }
    ensures unique { IsUnique bytes_eq map.new }
{
    map.retain(
        |key: &KeyID, value: &mut V| -> bool
            ensures { (result ≡ not (is_some (get bytes_eq changes.entry.now key.now))) ×
                (value.new ≡ value.old) }
        { !changes.contains_key(key) },
    );
}

/// Lays the changes over the map: each key has what they say of it, else what it had. The fewer entries are moved to the
/// others, so the map's order is lost.
pub(crate) fn lay_over<V: Drop>(map: &mut NameMap<KeyID, V>, mut changes: NameMap<KeyID, V>)
    requires { HasRoomFor map.old changes }
    ensures { (k : List ℕ) → get bytes_eq map.new k ≡ value_over map.old.entries changes.entries k }
{
    if map.len() < changes.len() {
        keep_others(map, &changes);
        changes.append(map).unwrap();
        *map = changes;
    } else {
        map.append(&mut changes).unwrap();
    }
}
