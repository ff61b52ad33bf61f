//! The members that states of every kind have: the algorithm, the permissions and the keys.
ghost use Rattle.std.specs.Prelude.{◌≡◌, OnErr, OnOk, codes};
ghost use Rattle.serde_json.specs.View.{members_view, view};
ghost use Rattle.warg_crypto.specs.Json.Json.{ReturnsOrNoMemory};
ghost use Rattle.warg_crypto.specs.Json.JsonTexts.{algorithm_in, algorithm_json, key_in, key_json};
ghost use Rattle.warg_crypto.specs.Json.Members.{optional_member, put_option};
ghost use Rattle.warg_crypto.specs.Json.Pairs.{pairs_member};
ghost use Rattle.warg_saved_states.specs.Backs.{AreBack};
ghost use Rattle.warg_saved_states.specs.Fit.{is_nil};
ghost use Rattle.warg_saved_states.specs.Maps.{put_pairs};
ghost use Rattle.warg_saved_states.specs.MapNames.{text_name, text_named};

use crate::map::{map_member, put_map};
use serde_json::{Map, Value};
use std::alloc::Global;
use warg_crypto::hash::HashAlgorithm;
use warg_crypto::json::JsonError;
use warg_crypto::json::members::{optional_member, put_value};
use warg_crypto::signing::{KeyID, PublicKey};
use warg_maps::NameMap;

/// Puts the algorithm, if there is one. Where that fails, the object is as it was.
pub fn put_algorithm(
    members: &mut Map<String, Value>,
    alloc: Global,
    algorithm: &Option<HashAlgorithm>,
) -> Result<(), JsonError>
    ensures written { ReturnsOrNoMemory (λ _. members_view members.new.entries) result
        (put_option algorithm_json (codes "algorithm") algorithm.now
        (members_view members.old.entries)) }
    ensures kept { OnErr result (members_view members.new.entries ≡
        members_view members.old.entries) }
{
    let Some(algorithm) = algorithm else {
        return Ok(());
    };
    put_value(members, alloc, "algorithm", algorithm)
}

/// The algorithm of a state, where a missing one and null are none.
pub fn algorithm_member(alloc: Global, value: &Value) -> Result<Option<HashAlgorithm>, JsonError>
    ensures { ReturnsOrNoMemory (λ a. a) result
        (optional_member algorithm_in (codes "algorithm") (view value.now)) }
{
    optional_member::<HashAlgorithm>(alloc, value, "algorithm")
}

/// Puts the keys, if there are any. Where that fails, the object is as it was.
pub fn put_keys(
    members: &mut Map<String, Value>,
    alloc: Global,
    keys: &NameMap<KeyID, PublicKey>,
) -> Result<(), JsonError>
    ensures written { ReturnsOrNoMemory (λ _. members_view members.new.entries) result
        (put_pairs text_name key_json (codes "keys") keys.now.entries
        (members_view members.old.entries)) }
    ensures back { OnOk result (AreBack text_name text_named key_json key_in keys.now.entries) }
    ensures kept { OnErr result (members_view members.new.entries ≡
        members_view members.old.entries) }
{
    put_map(members, alloc, "keys", keys)
}

/// The keys of a state, none where they are missing.
pub fn keys_member(alloc: Global, value: &Value) -> Result<NameMap<KeyID, PublicKey>, JsonError>
    ensures { ReturnsOrNoMemory (λ m. m.entries) result
        (pairs_member text_named key_in (codes "keys") (view value.now)) }
{
    map_member::<KeyID, PublicKey>(alloc, value, "keys")
}

/// Whether there are no keys.
pub fn are_no_keys(keys: &NameMap<KeyID, PublicKey>) -> bool
    ensures { result ≡ is_nil keys.now.entries }
{
    keys.is_empty()
}
