//! Whether the parts of a saved state fit together.
ghost use Rattle.std.specs.Prelude.{◌≡◌, IfOk, IfErr};
ghost use Rattle.std.specs.List.{list_any};
ghost use Rattle.std.specs.Map.{keys_of};
ghost use Rattle.warg_crypto.specs.declared.json.error.JsonError.TheVariants as fault;
ghost use Rattle.warg_crypto.specs.Json.Pairs.{plain_pairs};
ghost use Rattle.warg_saved_states.specs.Fit.{RefusesCase, RefusesCaseOrNoMemory, begun_case, empty_case, is_misplaced, is_unknown, keys_case, rights_case, version_case};

use crate::value::SavedValue;
use std::alloc::Global;
use warg_crypto::hash::HashAlgorithm;
use warg_crypto::json::{Incoherence, JsonError};
use warg_crypto::signing::{KeyID, PublicKey};
use warg_maps::NameMap;

/// Refuses an algorithm without a head, and a head without an algorithm. Of the head its version is given.
pub fn check_begun(algorithm: &Option<HashAlgorithm>, version: Option<u32>) -> Result<(), JsonError>
    ensures { RefusesCase (begun_case algorithm.now version) result }
{
    match (algorithm, version) {
        (Some(_), None) => Err(JsonError::Incoherent(Incoherence::AlgorithmWithoutHead)),
        (None, Some(_)) => Err(JsonError::Incoherent(Incoherence::HeadWithoutAlgorithm)),
        _ => Ok(()),
    }
}

/// Refuses maps that are not empty where there is no algorithm.
pub fn check_empty(algorithm: &Option<HashAlgorithm>, are_empty: bool) -> Result<(), JsonError>
    ensures { RefusesCase (empty_case algorithm.now are_empty) result }
{
    if algorithm.is_none() && !are_empty {
        return Err(JsonError::Incoherent(Incoherence::StateWithoutInit));
    }
    Ok(())
}

/// Whether some key stands under another id than its fingerprint.
fn has_misplaced(alloc: Global, keys: &NameMap<KeyID, PublicKey>) -> Result<bool, JsonError>
    ensures ok { IfOk result (λ b. b ≡ list_any is_misplaced keys.now.entries) }
    ensures err { IfErr result (λ e. e ≡ fault.OutOfMemory) }
{
    'keys: for (id, key) in keys.iter() {
        if key.fingerprint(alloc)? != *id {
            return Ok(true);
        }
    }
    Ok(false)
}

/// Refuses a key that stands under another id than its fingerprint.
pub fn check_keys(alloc: Global, keys: &NameMap<KeyID, PublicKey>) -> Result<(), JsonError>
    ensures { RefusesCaseOrNoMemory (keys_case keys.now.entries) result }
{
    if has_misplaced(alloc, keys)? {
        return Err(JsonError::Incoherent(Incoherence::KeyUnderOtherFingerprint));
    }
    Ok(())
}

/// Whether some id with an entry of permissions has no key.
fn has_unknown<V: SavedValue>(rights: &NameMap<KeyID, V>, keys: &NameMap<KeyID, PublicKey>) -> bool
    ensures { result ≡ list_any (is_unknown keys.now.entries)
        (keys_of (plain_pairs (λ id. id) V.plain rights.now.entries)) }
{
    'rights: for (id, _value) in rights.iter() {
        if !keys.contains_key(id) {
            return true;
        }
    }
    false
}

/// Refuses permissions of an id that has no key.
pub fn check_rights<V: SavedValue>(
    rights: &NameMap<KeyID, V>,
    keys: &NameMap<KeyID, PublicKey>,
) -> Result<(), JsonError>
    ensures { RefusesCase (rights_case (plain_pairs (λ id. id) V.plain rights.now.entries)
        keys.now.entries) result }
{
    if has_unknown(rights, keys) {
        return Err(JsonError::Incoherent(Incoherence::PermissionsWithoutKey));
    }
    Ok(())
}

/// Refuses a head of a version that no log has.
pub fn check_version(version: Option<u32>) -> Result<(), JsonError>
    ensures { RefusesCase (version_case version) result }
{
    match version {
        Some(version) if version > 1 => {
            Err(JsonError::Incoherent(Incoherence::UnsupportedVersion))
        }
        _ => Ok(()),
    }
}
