//! Maps read from the text of an object, one value after another: a value of the whole would take several times the
//! memory of the text.
ghost use Rattle.std.specs.Prelude.{IfSome, List, MatchResult, None, Ok, OnSome, Some, ℕ, ◌<◌, ◌≡◌, length};
ghost use Rattle.std.specs.Option.{option_map};
ghost use Rattle.indexmap.specs.IndexMap.{insert_entry};
ghost use Rattle.json.specs.Json.{members, value};
ghost use Rattle.serde_json.specs.Data.{Data, Members, no_members};
ghost use Rattle.serde_json.specs.Find.{get_member};
ghost use Rattle.serde_json.specs.Read.{converted, of_json, of_members, read};
ghost use Rattle.warg_crypto.specs.Json.Json.{Returns};
ghost use Rattle.warg_crypto.specs.Json.Pairs.{pairs_in, pairs_member, pairs_of, pairs_or_none, plain_pairs};
ghost use Rattle.warg_saved_states.specs.Ascending.{ascends};
ghost use Rattle.warg_saved_states.specs.JsonText.{ReturnsOfText, in_text};
ghost use Rattle.warg_saved_states.specs.Next.{ReadsNext, value_or_fault};

use crate::error::{JsonTextError, ReadFault};
use crate::found::next_any_members;
use crate::name::SavedName;
use crate::pass::{pass_from, pass_value};
use crate::read::MAX_DEPTH;
use crate::value::SavedValue;
use json::{Reader, Scratch, Token};
use std::alloc::Global;
use warg_crypto::json::JsonError;
use warg_maps::NameMap;

/// Whether the name comes after the last one, in byte order.
fn ascends(last: Option<&str>, name: &str) -> bool
    ensures { result ≡ ascends (option_map (λ s. s.now) last.entry) name.now }
{
    match last {
        Some(last) => last < name,
        None => true,
    }
}

/// The entry of that name, whose value comes next.
fn next_entry<K: SavedName, V: SavedValue>(
    alloc: Global,
    reader: &mut Reader<'_>,
    depth: usize,
    name: &str,
) -> Option<(K, V)>
    ensures read { IfSome result (λ e. (d : Data) × (converted of_json (value depth reader.old)
        ≡ Some (d, reader.new))
        × (K.key_named name.now ≡ Ok (K.plain e.0)) × (V.reads d ≡ Ok (V.plain e.1))) }
    ensures shorter { OnSome result (length reader.new < length reader.old) }
{
    let Ok(Ok(value)) = V::read_next(alloc, reader, depth) else {
        return None;
    };
    let Ok(key) = K::from_name(alloc, name) else {
        return None;
    };
    Some((key, value))
}

/// Puts the entry of that name, whose value comes next, into the map.
fn put_next<K: SavedName, V: SavedValue>(
    alloc: Global,
    reader: &mut Reader<'_>,
    depth: usize,
    name: &str,
    map: &mut NameMap<K, V>,
) -> Option<()>
    ensures read { OnSome result ((d : Data) × (key : K) × (v : V)
        × (converted of_json (value depth reader.old) ≡ Some (d, reader.new))
        × (K.key_named name.now ≡ Ok (K.plain key)) × (V.reads d ≡ Ok (V.plain v))
        × (map.new.entries ≡ insert_entry K.eq map.old.entries key v)) }
    ensures shorter { OnSome result (length reader.new < length reader.old) }
{
    let (key, value) = next_entry::<K, V>(alloc, reader, depth, name)?;
    drop(map.insert(key, value).ok()?);
    Some(())
}

/// The map of the members that come next, up to the end of their object.
fn next_members<K: SavedName, V: SavedValue>(
    alloc: Global,
    reader: &mut Reader<'_>,
    depth: usize,
) -> Option<NameMap<K, V>>
    ensures read { IfSome result (λ map. (ms : Members)
        × (converted (λ js. of_members js no_members)
        (members (value depth) (length reader.old) reader.old)
        ≡ Some (ms, reader.new))
        × (pairs_of K.key_named V.reads ms ≡ Ok (plain_pairs K.plain V.plain map.entries))) }
    ensures shorter { OnSome result (length reader.new < length reader.old) }
{
    let mut map = NameMap::new(alloc);
    let mut last = None;
    'members: while let Some(name) = reader.next_key().ok()? {
        if !ascends(last, name) {
            return None;
        }
        put_next(alloc, reader, depth, name, &mut map)?;
        last = Some(name);
    }
    Some(map)
}

/// The map of the members that come next, up to the end of their object. It is given up where a name does not ascend,
/// or where there is a fault.
fn quick_members<K: SavedName, V: SavedValue>(
    alloc: Global,
    reader: &mut Reader<'_>,
    depth: usize,
) -> Result<Result<NameMap<K, V>, JsonError>, ReadFault>
    ensures { MatchResult result (λ r. (ms : Members) × (length reader.new < length reader.old)
        × (converted (λ js. of_members js no_members)
        (members (value depth) (length reader.old) reader.old) ≡ Some (ms, reader.new))
        × Returns (λ m. plain_pairs K.plain V.plain m.entries) r (pairs_of K.key_named V.reads ms))
        (λ e. e ≡ ReadFault.NotJson → converted (λ js. of_members js no_members)
        (members (value depth) (length reader.old) reader.old) ≡ None) }
{
    match next_members::<K, V>(alloc, reader, depth) {
        Some(map) => Ok(Ok(map)),
        None => Err(ReadFault::GivenUp),
    }
}

/// The map of the members that come next, up to the end of their object, or its first fault. The quick way may be given
/// up.
fn next_map_members<K: SavedName, V: SavedValue>(
    alloc: Global,
    reader: &mut Reader<'_>,
    depth: usize,
    is_quick: bool,
) -> Result<Result<NameMap<K, V>, JsonError>, ReadFault>
    ensures { MatchResult result (λ r. (ms : Members) × (length reader.new < length reader.old)
        × (converted (λ js. of_members js no_members)
        (members (value depth) (length reader.old) reader.old) ≡ Some (ms, reader.new))
        × Returns (λ m. plain_pairs K.plain V.plain m.entries) r (pairs_of K.key_named V.reads ms))
        (λ e. e ≡ ReadFault.NotJson → converted (λ js. of_members js no_members)
        (members (value depth) (length reader.old) reader.old) ≡ None) }
{
    if is_quick {
        return quick_members(alloc, reader, depth);
    }
    next_any_members(alloc, reader, depth)
}

/// The map of the object that comes next, or its first fault.
pub(crate) fn next_map<K: SavedName, V: SavedValue>(
    alloc: Global,
    reader: &mut Reader<'_>,
    depth: usize,
    is_quick: bool,
) -> Result<Result<NameMap<K, V>, JsonError>, ReadFault>
    ensures { ReadsNext (λ m. plain_pairs K.plain V.plain m.entries) (pairs_in K.key_named V.reads)
        depth result reader.old reader.new }
{
    let Some(token) = reader.next() else {
        return Err(ReadFault::NotJson);
    };
    if let Token::BeginObject = token {
        if depth == 0 {
            return Err(ReadFault::NotJson);
        }
        return next_map_members(alloc, reader, depth - 1, is_quick);
    }
    match pass_from(token, reader, depth) {
        Ok(()) => Ok(Err(JsonError::WrongType)),
        Err(_) => Err(ReadFault::NotJson),
    }
}

/// The map of the member of that name among those that come next, up to the end of their object.
fn next_member<K: SavedName, V: SavedValue>(
    alloc: Global,
    reader: &mut Reader<'_>,
    depth: usize,
    name: &str,
    is_quick: bool,
) -> Result<Result<NameMap<K, V>, JsonError>, ReadFault>
    ensures { MatchResult result (λ r. (ms : Members) × (length reader.new < length reader.old)
        × (converted (λ js. of_members js no_members)
        (members (value depth) (length reader.old) reader.old) ≡ Some (ms, reader.new))
        × Returns (λ m. plain_pairs K.plain V.plain m.entries) r
        (pairs_or_none K.key_named V.reads (get_member name.now ms)))
        (λ e. e ≡ ReadFault.NotJson → converted (λ js. of_members js no_members)
        (members (value depth) (length reader.old) reader.old) ≡ None) }
{
    let mut found = Ok(NameMap::new(alloc));
    'members: while let Some(other) = reader.next_key()? {
        if other == name {
            found = next_map::<K, V>(alloc, reader, depth, is_quick)?;
        } else {
            pass_value(reader, depth)?;
        }
    }
    Ok(found)
}

/// The map of the member of that name of the object that comes next.
fn next_object<K: SavedName, V: SavedValue>(
    alloc: Global,
    reader: &mut Reader<'_>,
    depth: usize,
    name: &str,
    is_quick: bool,
) -> Result<Result<NameMap<K, V>, JsonError>, ReadFault>
    ensures { ReadsNext (λ m. plain_pairs K.plain V.plain m.entries)
        (pairs_member K.key_named V.reads name.now) depth result reader.old reader.new }
{
    let Some(token) = reader.next() else {
        return Err(ReadFault::NotJson);
    };
    if let Token::BeginObject = token {
        if depth == 0 {
            return Err(ReadFault::NotJson);
        }
        return next_member(alloc, reader, depth - 1, name, is_quick);
    }
    match pass_from(token, reader, depth) {
        Ok(()) => Ok(Err(JsonError::WrongType)),
        Err(_) => Err(ReadFault::NotJson),
    }
}

/// The map of the member of that name of the text's object.
fn read_member<K: SavedName, V: SavedValue>(
    alloc: Global,
    text: &str,
    name: &str,
    is_quick: bool,
) -> Result<Result<NameMap<K, V>, JsonError>, ReadFault>
    ensures { MatchResult result (λ r. (d : Data) × (read text.now ≡ Some d)
        × Returns (λ m. plain_pairs K.plain V.plain m.entries) r
        (pairs_member K.key_named V.reads name.now d))
        (λ e. e ≡ ReadFault.NotJson → read text.now ≡ None) }
{
    let mut scratch = Scratch::new(alloc);
    let Ok(mut reader) = Reader::new(text, &mut scratch) else {
        return Err(ReadFault::OutOfMemory);
    };
    let found = next_object(alloc, &mut reader, MAX_DEPTH, name, is_quick)?;
    if reader.next().is_some() {
        return Err(ReadFault::NotJson);
    }
    Ok(found)
}

/// The map, or the fault of the text.
fn map_or_fault<T: Drop>(read: Result<Result<T, JsonError>, ReadFault>) -> Result<T, JsonTextError>
    ensures { result ≡ value_or_fault read }
{
    match read {
        Ok(Ok(map)) => Ok(map),
        Ok(Err(fault)) => Err(JsonTextError::from(fault)),
        Err(fault) => Err(JsonTextError::from(fault)),
    }
}

/// The map of the member of that name of the text's object, empty where it is missing, or the first fault. The text is
/// read once where the names of the map ascend and no value has a fault, and else once more.
pub fn map_in_text<K: SavedName, V: SavedValue>(
    alloc: Global,
    text: &str,
    name: &str,
) -> Result<NameMap<K, V>, JsonTextError>
    ensures { ReturnsOfText (λ m. plain_pairs K.plain V.plain m.entries) result
        (in_text (pairs_member K.key_named V.reads name.now) text.now) }
{
    if let Ok(Ok(map)) = read_member(alloc, text, name, true) {
        return Ok(map);
    }
    map_or_fault(read_member(alloc, text, name, false))
}
