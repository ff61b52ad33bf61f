//! Maps whose names do not ascend in the text, or that have a fault: what was read of each name's last value is held
//! until the order of the names is known.
ghost use Rattle.std.specs.Prelude.{Err, IfErr, IfOk, MatchResult, None, Ok, Some, ◌<◌, ◌≡◌, ◌⊎◌, length};
ghost use Rattle.json.specs.Json.{members, value};
ghost use Rattle.serde_json.specs.Data.{Members, no_members};
ghost use Rattle.serde_json.specs.Read.{converted, of_members};
ghost use Rattle.warg_crypto.specs.Json.Json.{Returns};
ghost use Rattle.warg_crypto.specs.Json.Pairs.{pairs_of, plain_pairs};
ghost use Rattle.warg_saved_states.specs.Found.{AreFound, unboxed};

use crate::error::ReadFault;
use crate::name::SavedName;
use crate::value::{SavedValue, unless_no_memory};
use json::Reader;
use std::alloc::Global;
use std::collections::BTreeMap;
use warg_crypto::json::JsonError;
use warg_maps::NameMap;

/// What was read of a value: the value, or its first fault.
type Found<V> = Result<Box<V>, JsonError>;

/// The value in a place of its own, so that a fault takes little room.
fn boxed<V: Drop>(alloc: Global, read: Result<V, JsonError>) -> Result<Found<V>, ReadFault>
    ensures ok { IfOk result (λ r. unboxed r ≡ read) }
    ensures err { IfErr result (λ e. e ≡ ReadFault.OutOfMemory) }
{
    match read {
        Ok(value) => Ok(Ok(Box::new(alloc, value)?)),
        Err(fault) => Ok(Err(fault)),
    }
}

/// What is read of the members that come next, up to the end of their object, by their names.
fn next_found<'a, V: SavedValue>(
    alloc: Global,
    reader: &mut Reader<'a>,
    depth: usize,
) -> Result<BTreeMap<&'a str, Found<V>>, ReadFault>
    ensures { MatchResult result (λ found. (ms : Members) × (length reader.new < length reader.old)
        × (converted (λ js. of_members js no_members)
        (members (value depth) (length reader.old) reader.old) ≡ Some (ms, reader.new))
        × AreFound (λ b. V.plain b.value) V.reads found.entries ms)
        (λ e. e ≡ ReadFault.NotJson → converted (λ js. of_members js no_members)
        (members (value depth) (length reader.old) reader.old) ≡ None) }
{
    let mut found = BTreeMap::new(alloc);
    'members: while let Some(name) = reader.next_key()? {
        let read = V::read_next(alloc, reader, depth)?;
        let held = boxed(alloc, read)?;
        drop(found.insert(name, held)?);
    }
    Ok(found)
}

/// The entry of what was read of a name and of its value, or the first fault of the two.
fn entry_of<K: Drop, V: Drop>(
    key: Result<K, JsonError>,
    read: Found<V>,
) -> Result<(K, V), JsonError>
    ensures { MatchResult result (λ e. (key ≡ Ok e.0) × (unboxed read ≡ Ok e.1))
        (λ e. (key ≡ Err e) ⊎ ((k : K) × (key ≡ Ok k) × (unboxed read ≡ Err e))) }
{
    let key = key?;
    match read {
        Ok(value) => Ok((key, Box::into_inner(value))),
        Err(fault) => Err(fault),
    }
}

/// The map of what was read, in the byte order of the names: of each the name is read, then its value, and the first
/// fault is answered.
fn map_of_found<K: SavedName, V: SavedValue>(
    alloc: Global,
    found: BTreeMap<&str, Found<V>>,
) -> Result<Result<NameMap<K, V>, JsonError>, ReadFault>
    ensures ok { IfOk result (λ r. (ms : Members) → AreFound (λ b. V.plain b.value) V.reads found.entry.entries ms
        → Returns (λ m. plain_pairs K.plain V.plain m.entries) r (pairs_of K.key_named V.reads ms)) }
    ensures err { IfErr result (λ e. e ≡ ReadFault.OutOfMemory) }
{
    let _len = found.len();
    let mut map = NameMap::new(alloc);
    'entries: for (name, read) in found {
        let key = unless_no_memory(K::from_name(alloc, name))?;
        match entry_of(key, read) {
            Ok((key, value)) => drop(map.insert(key, value)?),
            Err(fault) => return Ok(Err(fault)),
        }
    }
    Ok(Ok(map))
}

/// The map of the members that come next, up to the end of their object, or its first fault in the byte order of the
/// names.
pub(crate) fn next_any_members<K: SavedName, V: SavedValue>(
    alloc: Global,
    reader: &mut Reader<'_>,
    depth: usize,
) -> Result<Result<NameMap<K, V>, JsonError>, ReadFault>
    ensures { MatchResult result (λ r. (ms : Members) × (length reader.new < length reader.old)
        × (converted (λ js. of_members js no_members)
        (members (value depth) (length reader.old) reader.old) ≡ Some (ms, reader.new))
        × Returns (λ m. plain_pairs K.plain V.plain m.entries) r (pairs_of K.key_named V.reads ms))
        (λ e. e ≡ ReadFault.NotJson → converted (λ js. of_members js no_members)
        (members (value depth) (length reader.old) reader.old) ≡ None) }
{
    let found = next_found::<V>(alloc, reader, depth)?;
    map_of_found(alloc, found)
}
