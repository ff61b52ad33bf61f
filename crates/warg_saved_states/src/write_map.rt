//! Maps written as the text of an object, one value after another.
ghost use Rattle.std.specs.Prelude.{IfErr, IfOk, OnOk, ◌≡◌, ◌⊎◌, [], Err, Ok, string_bytes};
ghost use Rattle.json.specs.Print.{print};
ghost use Rattle.serde_json.specs.Data.{Members, no_members, object};
ghost use Rattle.serde_json.specs.Written.{compact_text};
ghost use Rattle.warg_crypto.specs.declared.json.error.JsonError.TheVariants as fault;
ghost use Rattle.warg_crypto.specs.Json.Json.{ReturnsOrNoMemory};
ghost use Rattle.warg_crypto.specs.Json.Pairs.{pairs_json, pairs_onto, plain_pairs};
ghost use Rattle.warg_saved_states.specs.Backs.{AreBack, AreVersionsBack};
ghost use Rattle.warg_saved_states.specs.Texts.{AreMembers, text_of};

use crate::name::SavedName;
use crate::value::SavedValue;
use json::Writer;
use std::alloc::Global;
use std::collections::BTreeMap;
use warg_crypto::json::JsonError;
use warg_maps::NameMap;

/// The values by their names: where names repeat, the last entry counts. The fault is that of the first value
/// that cannot be written.
fn by_name<'m, K: SavedName, V: SavedValue>(
    alloc: Global,
    map: &'m NameMap<K, V>,
) -> Result<BTreeMap<String, &'m V>, JsonError>
    ensures ok { IfOk result (λ named. (ms : Members) × AreMembers V.plain V.writes named.entries ms
        × (pairs_onto K.name_of V.writes no_members (plain_pairs K.plain V.plain map.now.entries) ≡
        Ok ms)) }
    ensures back { OnOk result (AreVersionsBack K.versions V.versions
        (plain_pairs K.plain V.plain map.now.entries)
        → AreBack K.name_of K.key_named V.writes V.reads
        (plain_pairs K.plain V.plain map.now.entries)) }
    ensures err { IfErr result (λ e. (e ≡ fault.OutOfMemory)
        ⊎ (pairs_onto K.name_of V.writes no_members (plain_pairs K.plain V.plain map.now.entries) ≡
        Err e)) }
{
    let mut named = BTreeMap::new(alloc);
    'entries: for (key, value) in map.iter() {
        value.can_save()?;
        let name = key.to_name(alloc)?;
        drop(named.insert(name, value)?);
    }
    Ok(named)
}

/// What was written, where nothing stood before it.
fn written(out: Writer) -> String
    requires { out.before ≡ [] }
    ensures { string_bytes result ≡ print out.tokens }
{
    let bytes = out.into_inner();
    unsafe { String::from_utf8_unchecked(bytes) }
}

/// The text of the object whose members are those of the values. The error is `OutOfMemory`.
fn joined<V: SavedValue>(alloc: Global, named: &BTreeMap<String, &V>) -> Result<String, JsonError>
    requires { (ms : Members) × AreMembers V.plain V.writes named.now.entries ms }
    ensures ok { IfOk result (λ s. (ms : Members) → AreMembers V.plain V.writes named.now.entries ms
        → string_bytes s ≡ compact_text (object ms)) }
    ensures err { IfErr result (λ e. e ≡ fault.OutOfMemory) }
{
    let mut out = Writer::new(Vec::new(alloc));
    out.begin_object()?;
    'members: for (name, value) in named.iter() {
        out.key(name.as_str())?;
        value.write(alloc, &mut out)?;
    }
    out.end_object()?;
    Ok(written(out))
}

/// The text of the map as an object. One value after another is written, and no JSON value of any is made.
pub(crate) fn map_text<K: SavedName, V: SavedValue>(
    alloc: Global,
    map: &NameMap<K, V>,
) -> Result<String, JsonError>
    ensures written { ReturnsOrNoMemory string_bytes result (text_of (pairs_json K.name_of V.writes
        (plain_pairs K.plain V.plain map.now.entries))) }
    ensures back { OnOk result (AreVersionsBack K.versions V.versions
        (plain_pairs K.plain V.plain map.now.entries)
        → AreBack K.name_of K.key_named V.writes V.reads
        (plain_pairs K.plain V.plain map.now.entries)) }
{
    let named = by_name(alloc, map)?;
    joined(alloc, &named)
}
