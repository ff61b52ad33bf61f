//! What is read of a saved state: its members one after another, and whether they fit together. Of the two maps that a state
//! has in this order, one is that of the keys and the other the kind's own.
ghost use Rattle.std.specs.Prelude.{◌≡◌, ◌&&◌, ◌∷◌, [], IfSome, Ok};
ghost use Rattle.serde_json.specs.View.{view};
ghost use Rattle.warg_crypto.specs.Json.Json.{ReturnsOrNoMemory};
ghost use Rattle.warg_crypto.specs.Json.Pairs.{plain_pairs};
ghost use Rattle.warg_saved_states.specs.Fit.{RefusesCase, RefusesCaseOrNoMemory, first_case, is_nil, keys_case, rights_case, version_case};
ghost use Rattle.warg_saved_states.specs.JsonText.{ReturnsOfText, in_text};
ghost use Rattle.warg_saved_states.specs.SavedPermissions.{permissions_in};
ghost use Rattle.warg_log.specs.SavedMembers.{begun_in, head_version, saved_in, saved_incoherence};
ghost use Rattle.warg_log.specs.SavedParts.{parts_view};

use crate::head::{Head, head_member, head_version};
use serde_json::Value;
use std::alloc::Global;
use warg_crypto::hash::HashAlgorithm;
use warg_crypto::json::{Incoherence, JsonError};
use warg_crypto::signing::{KeyID, PublicKey};
use warg_maps::NameMap;
use warg_permissions::{LogPermission, PermissionSet};
use warg_saved_states::{
    JsonTextError, SavedName, SavedValue, algorithm_member, check_begun, check_empty, check_keys,
    check_rights, check_version, is_empty, map_in_text, map_member, parts_in_text, read_asked,
};

/// What is read of a state's members.
#[derive(Drop)]
pub struct SavedParts<P: LogPermission, K: SavedName, V: SavedValue, L: SavedName, W: SavedValue> {
    /// How the log names records.
    pub algorithm: Option<HashAlgorithm>,
    /// The last record.
    pub head: Option<Head>,
    /// The permissions of each id that has an entry.
    pub rights: NameMap<KeyID, PermissionSet<P>>,
    /// The first of the two maps.
    pub firsts: NameMap<K, V>,
    /// The second of them.
    pub seconds: NameMap<L, W>,
}

/// The parts of a state, or the first fault of its members. The two maps are members of these names.
pub fn read_parts<P: LogPermission, K: SavedName, V: SavedValue, L: SavedName, W: SavedValue>(
    alloc: Global,
    value: &Value,
    first: &str,
    second: &str,
) -> Result<SavedParts<P, K, V, L, W>, JsonError>
    ensures { ReturnsOrNoMemory (parts_view K.plain V.plain L.plain W.plain) result
        (saved_in (permissions_in P.eq P.permission_named) first.now K.key_named V.reads
        second.now L.key_named W.reads (view value.now)) }
{
    let algorithm = algorithm_member(alloc, value)?;
    let head = head_member(alloc, value)?;
    let rights = map_member::<KeyID, PermissionSet<P>>(alloc, value, "permissions")?;
    let firsts = map_member::<K, V>(alloc, value, first)?;
    let seconds = map_member::<L, W>(alloc, value, second)?;
    Ok(SavedParts {
        algorithm,
        head,
        rights,
        firsts,
        seconds,
    })
}

/// The algorithm and the head of a state's text, or the first fault of either.
fn text_head(
    alloc: Global,
    text: &str,
) -> Result<(Option<HashAlgorithm>, Option<Head>), JsonTextError>
    ensures { ReturnsOfText (λ p. p) result (in_text begun_in text.now) }
{
    let asked = ["algorithm", "head", "digest", "timestamp", "version"];
    let value = read_asked(alloc, text, &asked, 2)?;
    let algorithm = algorithm_member(alloc, &value)?;
    let head = head_member(alloc, &value)?;
    Ok((algorithm, head))
}

/// The parts of a state's text, read in one pass. `None`: a name of a map does not ascend, some part has a fault, or
/// memory ran out.
fn quick_parts<P: LogPermission, K: SavedName, V: SavedValue, L: SavedName, W: SavedValue>(
    alloc: Global,
    text: &str,
    first: &str,
    second: &str,
) -> Option<SavedParts<P, K, V, L, W>>
    ensures { IfSome result (λ parts. in_text (saved_in (permissions_in P.eq P.permission_named)
        first.now K.key_named V.reads second.now L.key_named W.reads) text.now ≡
        Ok (parts_view K.plain V.plain L.plain W.plain parts)) }
{
    let (value, rights, firsts, seconds) = parts_in_text::<KeyID, PermissionSet<P>, K, V, L, W>(
        alloc,
        text,
        &["algorithm", "head", "digest", "timestamp", "version"],
        1,
        "permissions",
        first,
        second,
    )?;
    let Ok(algorithm) = algorithm_member(alloc, &value) else {
        return None;
    };
    let Ok(head) = head_member(alloc, &value) else {
        return None;
    };
    Some(SavedParts {
        algorithm,
        head,
        rights,
        firsts,
        seconds,
    })
}

/// The parts of a state's text, or its first fault: each part is read for itself.
fn slow_parts<P: LogPermission, K: SavedName, V: SavedValue, L: SavedName, W: SavedValue>(
    alloc: Global,
    text: &str,
    first: &str,
    second: &str,
) -> Result<SavedParts<P, K, V, L, W>, JsonTextError>
    ensures { ReturnsOfText (parts_view K.plain V.plain L.plain W.plain) result
        (in_text (saved_in (permissions_in P.eq P.permission_named) first.now K.key_named V.reads
        second.now L.key_named W.reads) text.now) }
{
    let (algorithm, head) = text_head(alloc, text)?;
    let rights = map_in_text::<KeyID, PermissionSet<P>>(alloc, text, "permissions")?;
    let firsts = map_in_text::<K, V>(alloc, text, first)?;
    let seconds = map_in_text::<L, W>(alloc, text, second)?;
    Ok(SavedParts {
        algorithm,
        head,
        rights,
        firsts,
        seconds,
    })
}

/// The parts of a state's text, or its first fault. What is not asked for is passed over, and each value of a map is
/// read for itself. The text is read in one pass where the names of the maps ascend and no part has a fault.
pub fn text_parts<P: LogPermission, K: SavedName, V: SavedValue, L: SavedName, W: SavedValue>(
    alloc: Global,
    text: &str,
    first: &str,
    second: &str,
) -> Result<SavedParts<P, K, V, L, W>, JsonTextError>
    ensures { ReturnsOfText (parts_view K.plain V.plain L.plain W.plain) result
        (in_text (saved_in (permissions_in P.eq P.permission_named) first.now K.key_named V.reads
        second.now L.key_named W.reads) text.now) }
{
    if let Some(parts) = quick_parts(alloc, text, first, second) {
        return Ok(parts);
    }
    slow_parts(alloc, text, first, second)
}

/// Refuses what does not fit together, if there is something.
fn check_case(incoherence: Option<Incoherence>) -> Result<(), JsonError>
    ensures { RefusesCase incoherence result }
{
    match incoherence {
        Some(incoherence) => Err(JsonError::Incoherent(incoherence)),
        None => Ok(()),
    }
}

/// Refuses maps that do not fit together, then a head of a version that no log has.
fn check_maps<P: LogPermission>(
    alloc: Global,
    before: Option<Incoherence>,
    keys: &NameMap<KeyID, PublicKey>,
    after: Option<Incoherence>,
    rights: &NameMap<KeyID, PermissionSet<P>>,
    head: &Option<Head>,
) -> Result<(), JsonError>
    ensures { RefusesCaseOrNoMemory (first_case (before ∷ keys_case keys.now.entries ∷ after ∷
        rights_case (plain_pairs (λ id. id) (λ set. set) rights.now.entries) keys.now.entries ∷
        version_case (head_version head.now) ∷ [])) result }
{
    check_case(before)?;
    check_keys(alloc, keys)?;
    check_case(after)?;
    check_rights(rights, keys)?;
    check_version(head_version(head))
}

impl<P, K, V, L, W> SavedParts<P, K, V, L, W>
where
    P: LogPermission,
    K: SavedName,
    V: SavedValue,
    L: SavedName,
    W: SavedValue,
{
    /// Whether the maps are empty.
    fn are_empty(&self) -> bool
        ensures { result ≡ (is_nil (parts_view K.plain V.plain L.plain W.plain self.now).rights &&
            (is_nil (parts_view K.plain V.plain L.plain W.plain self.now).firsts &&
            is_nil (parts_view K.plain V.plain L.plain W.plain self.now).seconds)) }
    {
        is_empty(&self.rights) && is_empty(&self.firsts) && is_empty(&self.seconds)
    }

    /// Refuses parts that do not fit together. Which of the maps is that of the keys is handed in, and what does not fit
    /// together in the kind's own map, before that of the keys or after it.
    pub fn check(
        &self,
        alloc: Global,
        before: Option<Incoherence>,
        keys: &NameMap<KeyID, PublicKey>,
        after: Option<Incoherence>,
    ) -> Result<(), JsonError>
        ensures { RefusesCaseOrNoMemory (saved_incoherence before
            (plain_pairs (λ id. id) (λ key. key) keys.now.entries) after
            (parts_view K.plain V.plain L.plain W.plain self.now)) result }
    {
        check_begun(&self.algorithm, head_version(&self.head))?;
        check_empty(&self.algorithm, self.are_empty())?;
        check_maps(alloc, before, keys, after, &self.rights, &self.head)
    }
}
