//! The state of a package log as JSON.
ghost use Rattle.std.specs.Prelude.{List, ◌≡◌, None, IfOk, OnOk, string_bytes};
ghost use Rattle.std.specs.List.{list_any};
ghost use Rattle.semver.specs.Identifiers.{parts_of};
ghost use Rattle.serde_json.specs.Data.{object};
ghost use Rattle.serde_json.specs.View.{members_view};
ghost use Rattle.warg_crypto.specs.Json.Json.{AreReadBack, ReturnsOrNoMemory};
ghost use Rattle.warg_crypto.specs.Json.Pairs.{plain_pairs};
ghost use Rattle.warg_permissions.specs.declared.package.Permission.{Permission as OfPermission};
ghost use Rattle.warg_saved_states.specs.Fit.{RefusesCaseOrNoMemory, unless_case};
ghost use Rattle.warg_saved_states.specs.JsonText.{ReturnsOfText, TextReadsBack, in_text};
ghost use Rattle.warg_saved_states.specs.Texts.{IsReadAs, text_of};
ghost use Rattle.warg_permissions.specs.KeyMaps.AuthorityData.{AuthorityData};
ghost use Rattle.warg_log.specs.States.{State};
ghost use Rattle.warg_package_log.specs.ReleaseMap.{release_view};
ghost use Rattle.warg_package_log.specs.Releases.{ReleaseView};
ghost use Rattle.warg_package_log.specs.SavedBack.{AreEqual, IsSavable, saved_versions};
ghost use Rattle.warg_package_log.specs.SavedParts.{parts_view};
ghost use Rattle.warg_package_log.specs.SavedVersionLaws.{state_versions, state_within};
ghost use Rattle.warg_package_log.specs.SavedState.{incoherence, is_misfiled, releases_case, state_in, state_json, state_of};

use crate::release::Release;
use crate::release_map::ReleaseMap;
use crate::state::LogState;
use semver::Version;
use serde_json::{Map, Value};
use std::alloc::Global;
use warg_crypto::json::members::object_value;
use warg_crypto::json::{Incoherence, JsonError, JsonValue};
use warg_crypto::signing::{KeyID, PublicKey};
use warg_log::{Log, SavedParts, members_text, members_value, read_parts, text_parts};
use warg_log_records::package::Permission;
use warg_maps::NameMap;
use warg_saved_states::JsonTextError;

/// What is read of a state's members.
type Parts = SavedParts<Permission, Version, Release, KeyID, PublicKey>;

/// Whether some release stands under another version than its own.
fn has_misfiled(releases: &NameMap<Version, Release>) -> bool
    ensures { result ≡ list_any is_misfiled (plain_pairs parts_of release_view
        releases.now.entries) }
{
    'releases: for (version, release) in releases.iter() {
        if *version != release.version {
            return true;
        }
    }
    false
}

/// What does not fit together among releases: one stands under another version than its own.
fn misfiled(releases: &NameMap<Version, Release>) -> Option<Incoherence>
    ensures { result ≡ releases_case (plain_pairs parts_of release_view releases.now.entries) }
{
    if has_misfiled(releases) {
        return Some(Incoherence::ReleaseUnderOtherVersion);
    }
    None
}

/// Refuses parts that do not fit together.
fn check_parts(alloc: Global, parts: &Parts) -> Result<(), JsonError>
    ensures { RefusesCaseOrNoMemory (incoherence (parts_view parts.now)) result }
{
    parts.check(alloc, misfiled(&parts.firsts), &parts.seconds, None)
}

/// The log of parts that fit together.
fn restore(alloc: Global, parts: Parts) -> Log<ReleaseMap>
    requires { incoherence (parts_view parts) ≡ None }
    ensures { result ≡ state_of (parts_view parts) }
{
    let releases = ReleaseMap::restore(parts.firsts);
    Log::restore(
        alloc,
        parts.algorithm,
        parts.rights,
        parts.seconds,
        releases,
        parts.head,
    )
}

/// The state of the parts, or the first thing that does not fit together.
fn state_of_parts(alloc: Global, parts: Parts) -> Result<LogState, JsonError>
    ensures { ReturnsOrNoMemory (λ s. s) result
        (unless_case (incoherence (parts_view parts)) (state_of (parts_view parts))) }
{
    check_parts(alloc, &parts)?;
    Ok(LogState {
        log: restore(alloc, parts),
    })
}

/// The members of the state's JSON.
fn members_of(alloc: Global, log: &Log<ReleaseMap>) -> Result<Map<String, Value>, JsonError>
    ensures written { ReturnsOrNoMemory (λ m. object (members_view m.entries))
        result (state_json log.now) }
    ensures savable { OnOk result (AreReadBack (saved_versions log.now) → IsSavable log.now) }
{
    let releases = log.own_state().as_map();
    members_value(alloc, log, "releases", releases, "keys", log.keys())
}

/// The text of the state's JSON.
fn log_text(alloc: Global, log: &Log<ReleaseMap>) -> Result<String, JsonError>
    ensures written { ReturnsOrNoMemory string_bytes result (text_of (state_json log.now)) }
    ensures read { IfOk result (λ text. IsReadAs (state_json log.now) (string_bytes text)) }
    ensures savable { OnOk result (AreReadBack (saved_versions log.now) → IsSavable log.now) }
{
    members_text(
        alloc,
        log,
        "releases",
        log.own_state().as_map(),
        "keys",
        log.keys(),
    )
}

impl LogState {
    /// The state's JSON as text, with no space: what [`JsonValue::to_value`] gives, written. It takes a fraction of
    /// the time, since each release is written for itself, and no value is made of it. [`LogState::from_json`] reads it
    /// back as an equal state, where the texts of its versions read back. `TimeBeforeEpoch`: a time that is to be written lies
    /// before the epoch.
    pub fn to_json(&self, alloc: Global) -> Result<String, JsonError>
        ensures written { ReturnsOrNoMemory string_bytes result (text_of (state_json self.now)) }
        ensures read { IfOk result (λ text. IsReadAs (state_json self.now) (string_bytes text)) }
        ensures back { AreReadBack (saved_versions self.now) →
            IfOk result (λ text. TextReadsBack state_in AreEqual self.now (string_bytes text)) }
    {
        log_text(alloc, &self.log)
    }

    /// The state of a text of JSON: what [`JsonValue::from_value`] reads of its value. It takes about half the time, since
    /// no value of the whole state is made: each release is read for itself.
    pub fn from_json(alloc: Global, text: &str) -> Result<LogState, JsonTextError>
        ensures { ReturnsOfText (λ s. s) result (in_text state_in text.now) }
    {
        let parts: Parts = text_parts(alloc, text, "releases", "keys")?;
        match state_of_parts(alloc, parts) {
            Ok(state) => Ok(state),
            Err(error) => Err(JsonTextError::from(error)),
        }
    }
}

/// A state as JSON. `TimeBeforeEpoch`: a time that is to be written lies before the epoch. What is read is the
/// state, or its first fault, or else the first thing in it that does not fit together.
impl JsonValue for LogState {
    ghost Plain = { State (AuthorityData OfPermission) (List ReleaseView) };

    ghost plain = { λ s. s };

    ghost writes = { state_json };

    ghost reads = { state_in };

    ghost versions = { saved_versions };

    ghost equivalent = { AreEqual };

    ghost equivalent_equal = { λ _ s t h. h };

    ghost versions_written = { state_within };

    ghost versions_read = { state_versions };

    fn to_value(&self, alloc: Global) -> Result<Value, JsonError> {
        Ok(object_value(members_of(alloc, &self.log)?))
    }

    fn from_value(alloc: Global, value: &Value) -> Result<LogState, JsonError> {
        state_of_parts(alloc, read_parts(alloc, value, "releases", "keys")?)
    }
}
