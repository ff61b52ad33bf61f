//! JSON of releases.

ghost use Rattle.std.specs.Prelude.{◌≡◌, [], ◌∷◌, codes, Ok, IfOk};
ghost use Rattle.semver.specs.Identifiers.{parts_of};
ghost use Rattle.serde_json.specs.View.{members_view, view};
ghost use Rattle.warg_crypto.specs.Json.EqualLaws.{same_equal};
ghost use Rattle.warg_crypto.specs.Json.Json.{AreReadBack, ReturnsOrNoMemory, json_result};
ghost use Rattle.warg_package_log.specs.ReleaseMap.{release_view};
ghost use Rattle.warg_package_log.specs.SameReleaseLaws.{release_decides};
ghost use Rattle.warg_package_log.specs.ReleaseVersionLaws.{release_versions, release_within};
ghost use Rattle.warg_package_log.specs.ReleaseJson.{release_in, release_json, release_state_in, release_state_json, released_in, state_of, status_member, version_in, version_json, yanked_in};
ghost use Rattle.warg_package_log.specs.Releases.{ReleaseView};
ghost use Rattle.warg_package_log.specs.declared.release.ReleaseState.{ReleaseState};
ghost use Rattle.warg_package_log.specs.declared.release.ReleaseState.TheVariants.{Released, Yanked};

use crate::release::{Release, ReleaseState};
use semver::Version;
use serde_json::{Map, Value};
use std::alloc::Global;
use warg_crypto::hash::AnyHash;
use warg_crypto::json::members::{
    member_in, object_value, put_member, put_value, string_value, text_in, text_value,
};
use warg_crypto::json::{JsonError, JsonValue};
use warg_crypto::signing::KeyID;
use warg_crypto::time::Timestamp;
use warg_log_records::RecordId;
use warg_saved_states::SavedName;

/// The text of the version.
fn version_value(alloc: Global, version: &Version) -> Result<Value, JsonError>
    ensures written { ReturnsOrNoMemory view result (version_json (parts_of version.now)) }
    ensures back { AreReadBack (parts_of version.now ∷ []) →
        IfOk result (λ v. version_in (view v) ≡ Ok (parts_of version.now)) }
{
    Ok(string_value(version.to_string(alloc)?))
}

/// The version of a text.
fn version_in(alloc: Global, value: &Value) -> Result<Version, JsonError>
    ensures { ReturnsOrNoMemory parts_of result (version_in (view value.now)) }
{
    Version::from_name(alloc, text_in(value)?)
}

/// The status as the first member of a state.
fn status_member(alloc: Global, status: &str) -> Result<Map<String, Value>, JsonError>
    ensures { ReturnsOrNoMemory (λ map. members_view map.entries) result
        (json_result (status_member status.now)) }
{
    let mut map = Map::new(alloc);
    put_member(&mut map, alloc, "status", text_value(alloc, status)?)?;
    Ok(map)
}

/// The state of a release that stands, as JSON.
fn released_value(alloc: Global, content: &AnyHash) -> Result<Value, JsonError>
    ensures written { ReturnsOrNoMemory view result (release_state_json (Released content.now)) }
    ensures back { IfOk result (λ v. release_state_in (view v) ≡ Ok (Released content.now)) }
{
    let mut map = status_member(alloc, "released")?;
    put_value(&mut map, alloc, "content", content)?;
    Ok(object_value(map))
}

/// The state of a release that was yanked, as JSON.
fn yanked_value(alloc: Global, by: &KeyID, timestamp: &Timestamp) -> Result<Value, JsonError>
    ensures written { ReturnsOrNoMemory view result
        (release_state_json (Yanked by.now timestamp.now)) }
    ensures back { IfOk result (λ v. release_state_in (view v) ≡ Ok (Yanked by.now timestamp.now)) }
{
    let mut map = status_member(alloc, "yanked")?;
    put_value(&mut map, alloc, "by", by)?;
    put_value(&mut map, alloc, "timestamp", timestamp)?;
    Ok(object_value(map))
}

/// The state of a release that stands.
fn released_in(alloc: Global, value: &Value) -> Result<ReleaseState, JsonError>
    ensures { ReturnsOrNoMemory (λ s. s) result (released_in (view value.now)) }
{
    let content = AnyHash::from_value(alloc, member_in(value, "content")?)?;
    Ok(ReleaseState::Released { content })
}

/// The state of a release that was yanked.
fn yanked_in(alloc: Global, value: &Value) -> Result<ReleaseState, JsonError>
    ensures { ReturnsOrNoMemory (λ s. s) result (yanked_in (view value.now)) }
{
    let by = KeyID::from_value(alloc, member_in(value, "by")?)?;
    let timestamp = Timestamp::from_value(alloc, member_in(value, "timestamp")?)?;
    Ok(ReleaseState::Yanked { by, timestamp })
}

impl JsonValue for ReleaseState {
    ghost Plain = { ReleaseState };

    ghost plain = { λ s. s };

    ghost writes = { release_state_json };

    ghost reads = { release_state_in };

    ghost versions = { λ _. [] };

    ghost equivalent = { λ x y. x ≡ y };

    ghost equivalent_equal = { same_equal };

    ghost versions_written = { λ x d h. tt };

    ghost versions_read = { λ x d h. tt };

    fn to_value(&self, alloc: Global) -> Result<Value, JsonError> {
        match self {
            ReleaseState::Released { content } => released_value(alloc, content),
            ReleaseState::Yanked { by, timestamp } => yanked_value(alloc, by, timestamp),
        }
    }

    fn from_value(alloc: Global, value: &Value) -> Result<ReleaseState, JsonError> {
        match text_in(member_in(value, "status")?)? {
            "released" => released_in(alloc, value),
            "yanked" => yanked_in(alloc, value),
            _ => Err(JsonError::BadText),
        }
    }
}

impl JsonValue for Release {
    ghost Plain = { ReleaseView };

    ghost plain = { release_view };

    ghost writes = { release_json };

    ghost reads = { release_in };

    ghost versions = { λ r. r.version ∷ [] };

    ghost equivalent = { λ x y. x ≡ y };

    ghost equivalent_equal = { λ _ x y h. (release_decides (release_view x) (release_view y)).1 h };

    ghost versions_written = { release_within };

    ghost versions_read = { release_versions };

    fn to_value(&self, alloc: Global) -> Result<Value, JsonError> {
        let mut map = Map::new(alloc);
        put_value(&mut map, alloc, "recordId", &self.record_id)?;
        let version = version_value(alloc, &self.version)?;
        put_member(&mut map, alloc, "version", version)?;
        put_value(&mut map, alloc, "by", &self.by)?;
        put_value(&mut map, alloc, "timestamp", &self.timestamp)?;
        put_value(&mut map, alloc, "state", &self.state)?;
        Ok(object_value(map))
    }

    fn from_value(alloc: Global, value: &Value) -> Result<Release, JsonError> {
        let record_id = RecordId::from_value(alloc, member_in(value, "recordId")?)?;
        let version = version_in(alloc, member_in(value, "version")?)?;
        let by = KeyID::from_value(alloc, member_in(value, "by")?)?;
        let timestamp = Timestamp::from_value(alloc, member_in(value, "timestamp")?)?;
        let state = ReleaseState::from_value(alloc, member_in(value, "state")?)?;
        Ok(Release {
            record_id,
            version,
            by,
            timestamp,
            state,
        })
    }
}
