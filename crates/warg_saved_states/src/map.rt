//! Maps as objects.
ghost use Rattle.std.specs.Prelude.{IfErr, OnErr, OnOk, ◌≡◌, string_bytes};
ghost use Rattle.serde_json.specs.Data.{put};
ghost use Rattle.serde_json.specs.View.{members_view, view};
ghost use Rattle.warg_crypto.specs.declared.json.error.JsonError.TheVariants as fault;
ghost use Rattle.warg_crypto.specs.Json.Json.{ReturnsOrNoMemory};
ghost use Rattle.warg_crypto.specs.Json.Pairs.{AreAscending, names_of, pairs_json, pairs_member, pairs_of, plain_pairs};
ghost use Rattle.warg_saved_states.specs.Backs.{AreBack, AreVersionsBack};
ghost use Rattle.warg_saved_states.specs.Fit.{is_nil};
ghost use Rattle.warg_saved_states.specs.Maps.{put_pairs};

use crate::name::SavedName;
use crate::value::SavedValue;
use serde_json::{Map, Value};
use std::alloc::Global;
use warg_crypto::json::JsonError;
use warg_crypto::json::members::{members_in, put_member};
use warg_maps::NameMap;

/// Puts a member under a name of its own, of which no copy is made. The error is `OutOfMemory`.
fn put_named(members: &mut Map<String, Value>, name: String, value: Value) -> Result<(), JsonError>
    ensures ok { OnOk result (members_view members.new.entries
        ≡ put (string_bytes name) (view value) (members_view members.old.entries)) }
    ensures err { IfErr result (λ e. e ≡ fault.OutOfMemory) }
{
    drop(members.insert(name, value)?);
    Ok(())
}

/// The map as an object: where names repeat, the last entry counts.
pub fn map_value<K: SavedName, V: SavedValue>(
    alloc: Global,
    map: &NameMap<K, V>,
) -> Result<Value, JsonError>
    ensures written { ReturnsOrNoMemory view result (pairs_json K.name_of V.writes
        (plain_pairs K.plain V.plain map.now.entries)) }
    ensures back { OnOk result (AreVersionsBack K.versions V.versions
        (plain_pairs K.plain V.plain map.now.entries)
        → AreBack K.name_of K.key_named V.writes V.reads
        (plain_pairs K.plain V.plain map.now.entries)) }
{
    let mut members = Map::new(alloc);
    'entries: for (key, value) in map.iter() {
        let json = value.save(alloc)?;
        let name = key.to_name(alloc)?;
        put_named(&mut members, name, json)?;
    }
    Ok(Value::Object(members))
}

/// Whether the map has no entry.
pub fn is_empty<K: SavedName, V: SavedValue>(map: &NameMap<K, V>) -> bool
    ensures { result ≡ is_nil (plain_pairs K.plain V.plain map.now.entries) }
{
    map.is_empty()
}

/// Puts the map as a member, unless it is empty. Where that fails, the object is as it was.
pub fn put_map<K: SavedName, V: SavedValue>(
    members: &mut Map<String, Value>,
    alloc: Global,
    name: &str,
    map: &NameMap<K, V>,
) -> Result<(), JsonError>
    ensures written { ReturnsOrNoMemory (λ _. members_view members.new.entries) result
        (put_pairs K.name_of V.writes name.now (plain_pairs K.plain V.plain map.now.entries)
        (members_view members.old.entries)) }
    ensures back { OnOk result (AreVersionsBack K.versions V.versions
        (plain_pairs K.plain V.plain map.now.entries)
        → AreBack K.name_of K.key_named V.writes V.reads
        (plain_pairs K.plain V.plain map.now.entries)) }
    ensures kept { OnErr result (members_view members.new.entries ≡
        members_view members.old.entries) }
{
    if map.is_empty() {
        return Ok(());
    }
    let json = map_value(alloc, map)?;
    put_member(members, alloc, name, json)
}

/// The map of the members, in the byte order of their names: of each the name is read, then the value,
/// and the first fault is answered.
fn map_of<K: SavedName, V: SavedValue>(
    alloc: Global,
    object: &Map<String, Value>,
) -> Result<NameMap<K, V>, JsonError>
    requires { AreAscending (names_of (members_view object.now.entries)) }
    ensures { ReturnsOrNoMemory (λ m. plain_pairs K.plain V.plain m.entries) result
        (pairs_of K.key_named V.reads (members_view object.now.entries)) }
{
    let mut map = NameMap::with_capacity(alloc, object.len())?;
    'members: for (name, value) in object.iter() {
        let key = K::from_name(alloc, name.as_str())?;
        let value = V::load(alloc, value)?;
        drop(map.insert(key, value)?);
    }
    Ok(map)
}

/// The map of an object, whose names ascend.
fn map_in<K: SavedName, V: SavedValue>(
    alloc: Global,
    object: &Map<String, Value>,
) -> Result<NameMap<K, V>, JsonError>
    ensures { ReturnsOrNoMemory (λ m. plain_pairs K.plain V.plain m.entries) result
        (pairs_of K.key_named V.reads (members_view object.now.entries)) }
{
    let _len = object.len();
    map_of::<K, V>(alloc, object)
}

/// The map of the member of that name, empty where it is missing. `WrongType`: the value, or the
/// member, is no object.
pub fn map_member<K: SavedName, V: SavedValue>(
    alloc: Global,
    value: &Value,
    name: &str,
) -> Result<NameMap<K, V>, JsonError>
    ensures { ReturnsOrNoMemory (λ m. plain_pairs K.plain V.plain m.entries) result
        (pairs_member K.key_named V.reads name.now (view value.now)) }
{
    let _members = members_in(value)?;
    let Some(value) = value.get(name) else {
        return Ok(NameMap::new(alloc));
    };
    map_in::<K, V>(alloc, members_in(value)?)
}
