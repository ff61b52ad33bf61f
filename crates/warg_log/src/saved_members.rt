//! The members of a saved state: its algorithm, its head, what each key may do, and two maps in this order, of which one is
//! that of the keys and the other the kind's own.
ghost use Rattle.std.specs.Prelude.{◌≡◌, IfOk, OnOk, Some, string_bytes};
ghost use Rattle.serde_json.specs.Data.{object};
ghost use Rattle.serde_json.specs.View.{members_view};
ghost use Rattle.warg_crypto.specs.Json.Json.{IsReadBack, ReturnsOrNoMemory};
ghost use Rattle.warg_crypto.specs.Json.Pairs.{plain_pairs};
ghost use Rattle.warg_saved_states.specs.Backs.{AreBack, AreVersionsBack};
ghost use Rattle.warg_saved_states.specs.MapNames.{text_name, text_named};
ghost use Rattle.warg_saved_states.specs.SavedPermissions.{permissions_in, permissions_json};
ghost use Rattle.warg_saved_states.specs.Texts.{IsReadAs, text_of};
ghost use Rattle.warg_log.specs.HeadJson.{head_in, head_json};
ghost use Rattle.warg_log.specs.Rules.{IsCoherent};
ghost use Rattle.warg_log.specs.SavedMembers.{saved_json};
ghost use Rattle.warg_log.specs.States.{view_of_state};
ghost use Rattle.warg_log.specs.declared.head.Head.{Head as OfHead};

use crate::head::{put_head, put_head_text};
use crate::log::Log;
use crate::own_state::OwnState;
use serde_json::{Map, Value};
use std::alloc::Global;
use warg_crypto::json::JsonError;
use warg_maps::NameMap;
use warg_saved_states::{MemberTexts, SavedName, SavedValue, put_algorithm, put_map};

/// The members of a state's JSON.
pub fn members_value<M: OwnState, K: SavedName, V: SavedValue, L: SavedName, W: SavedValue>(
    alloc: Global,
    log: &Log<M>,
    first: &str,
    firsts: &NameMap<K, V>,
    second: &str,
    seconds: &NameMap<L, W>,
) -> Result<Map<String, Value>, JsonError>
    ensures written { let json = saved_json (permissions_json M.Permission.text_of)
        first.now K.name_of V.writes second.now L.name_of W.writes
        log.now.authority.algorithm log.now.head log.now.authority.rights
        (plain_pairs K.plain V.plain firsts.now.entries)
        (plain_pairs L.plain W.plain seconds.now.entries) in
        ReturnsOrNoMemory (λ m. object (members_view m.entries)) result json }
    ensures coherent { OnOk result (IsCoherent M.rules M.Permission.eq
        (view_of_state M.Permission.eq M.view log.now)) }
    ensures head { OnOk result ((h : OfHead) → log.now.head ≡ Some h →
        IsReadBack head_json head_in (λ x y. x ≡ y) h) }
    ensures rights { OnOk result (AreBack text_name text_named
        (permissions_json M.Permission.text_of)
        (permissions_in M.Permission.eq M.Permission.permission_named)
        log.now.authority.rights) }
    ensures firsts { OnOk result (AreVersionsBack K.versions V.versions
        (plain_pairs K.plain V.plain firsts.now.entries)
        → AreBack K.name_of K.key_named V.writes V.reads
        (plain_pairs K.plain V.plain firsts.now.entries)) }
    ensures seconds { OnOk result (AreVersionsBack L.versions W.versions
        (plain_pairs L.plain W.plain seconds.now.entries)
        → AreBack L.name_of L.key_named W.writes W.reads
        (plain_pairs L.plain W.plain seconds.now.entries)) }
{
    let mut members = Map::new(alloc);
    put_algorithm(&mut members, alloc, log.algorithm())?;
    put_head(&mut members, alloc, log.head())?;
    put_map(&mut members, alloc, "permissions", log.permissions())?;
    put_map(&mut members, alloc, first, firsts)?;
    put_map(&mut members, alloc, second, seconds)?;
    Ok(members)
}

/// The text of a state's JSON, with no space. Each value of a map is written for itself, and no value is made of the whole.
pub fn members_text<M: OwnState, K: SavedName, V: SavedValue, L: SavedName, W: SavedValue>(
    alloc: Global,
    log: &Log<M>,
    first: &str,
    firsts: &NameMap<K, V>,
    second: &str,
    seconds: &NameMap<L, W>,
) -> Result<String, JsonError>
    ensures written { let json = saved_json (permissions_json M.Permission.text_of)
        first.now K.name_of V.writes second.now L.name_of W.writes
        log.now.authority.algorithm log.now.head log.now.authority.rights
        (plain_pairs K.plain V.plain firsts.now.entries)
        (plain_pairs L.plain W.plain seconds.now.entries) in
        ReturnsOrNoMemory string_bytes result (text_of json) }
    ensures read { let json = saved_json (permissions_json M.Permission.text_of)
        first.now K.name_of V.writes second.now L.name_of W.writes
        log.now.authority.algorithm log.now.head log.now.authority.rights
        (plain_pairs K.plain V.plain firsts.now.entries)
        (plain_pairs L.plain W.plain seconds.now.entries) in
        IfOk result (λ text. IsReadAs json (string_bytes text)) }
    ensures coherent { OnOk result (IsCoherent M.rules M.Permission.eq
        (view_of_state M.Permission.eq M.view log.now)) }
    ensures head { OnOk result ((h : OfHead) → log.now.head ≡ Some h →
        IsReadBack head_json head_in (λ x y. x ≡ y) h) }
    ensures rights { OnOk result (AreBack text_name text_named
        (permissions_json M.Permission.text_of)
        (permissions_in M.Permission.eq M.Permission.permission_named)
        log.now.authority.rights) }
    ensures firsts { OnOk result (AreVersionsBack K.versions V.versions
        (plain_pairs K.plain V.plain firsts.now.entries)
        → AreBack K.name_of K.key_named V.writes V.reads
        (plain_pairs K.plain V.plain firsts.now.entries)) }
    ensures seconds { OnOk result (AreVersionsBack L.versions W.versions
        (plain_pairs L.plain W.plain seconds.now.entries)
        → AreBack L.name_of L.key_named W.writes W.reads
        (plain_pairs L.plain W.plain seconds.now.entries)) }
{
    let mut members = MemberTexts::new(alloc);
    members.put_optional("algorithm", log.algorithm())?;
    put_head_text(&mut members, log.head())?;
    members.put_map("permissions", log.permissions())?;
    members.put_map(first, firsts)?;
    members.put_map(second, seconds)?;
    members.text()
}
