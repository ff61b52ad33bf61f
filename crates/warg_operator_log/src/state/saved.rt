//! The state of an operator log as JSON.
ghost use Rattle.std.specs.Prelude.{ℕ, List, ◌≡◌, [], None, IfOk, OnOk, string_bytes};
ghost use Rattle.std.specs.List.{list_any};
ghost use Rattle.serde_json.specs.Data.{object};
ghost use Rattle.serde_json.specs.View.{members_view};
ghost use Rattle.warg_crypto.specs.Json.Json.{ReturnsOrNoMemory};
ghost use Rattle.warg_crypto.specs.Json.Pairs.{plain_pairs};
ghost use Rattle.warg_permissions.specs.declared.operator.Permission.{Permission as OfPermission};
ghost use Rattle.warg_saved_states.specs.Fit.{RefusesCaseOrNoMemory, unless_case};
ghost use Rattle.warg_saved_states.specs.JsonText.{ReturnsOfText, TextReadsBack, in_text};
ghost use Rattle.warg_saved_states.specs.Texts.{IsReadAs, text_of};
ghost use Rattle.warg_permissions.specs.KeyMaps.AuthorityData.{AuthorityData};
ghost use Rattle.warg_log.specs.States.{State};
ghost use Rattle.warg_operator_log.specs.NamespaceMap.{namespace_view};
ghost use Rattle.warg_operator_log.specs.Namespaces.{Namespace};
ghost use Rattle.warg_operator_log.specs.SavedBack.{AreEqual, IsSavable};
ghost use Rattle.warg_operator_log.specs.SavedParts.{parts_view};
ghost use Rattle.warg_operator_log.specs.SavedState.{incoherence, is_misnamed, namespaces_case, state_in, state_json, state_of};

use crate::namespace::NamespaceState;
use crate::namespace_map::NamespaceMap;
use crate::state::LogState;
use serde_json::{Map, Value};
use std::alloc::Global;
use warg_crypto::json::members::object_value;
use warg_crypto::json::{Incoherence, JsonError, JsonValue};
use warg_crypto::signing::{KeyID, PublicKey};
use warg_log::{Log, SavedParts, members_text, members_value, read_parts, text_parts};
use warg_log_records::operator::Permission;
use warg_maps::NameMap;
use warg_registry::PackageName;
use warg_saved_states::JsonTextError;

/// What is read of a state's members.
type Parts = SavedParts<Permission, KeyID, PublicKey, String, NamespaceState>;

/// Whether some name is no kebab name.
fn has_misnamed(namespaces: &NameMap<String, NamespaceState>) -> bool
    ensures { result ≡ list_any is_misnamed (plain_pairs string_bytes namespace_view
        namespaces.now.entries) }
{
    'namespaces: for (name, _state) in namespaces.iter() {
        if !PackageName::is_valid_namespace(name.as_str()) {
            return true;
        }
    }
    false
}

/// What does not fit together among namespaces: a name is no kebab name.
fn misnamed(namespaces: &NameMap<String, NamespaceState>) -> Option<Incoherence>
    ensures { result ≡ namespaces_case
        (plain_pairs string_bytes namespace_view namespaces.now.entries) }
{
    if has_misnamed(namespaces) {
        return Some(Incoherence::InvalidNamespace);
    }
    None
}

/// Refuses parts that do not fit together.
fn check_parts(alloc: Global, parts: &Parts) -> Result<(), JsonError>
    ensures { RefusesCaseOrNoMemory (incoherence (parts_view parts.now)) result }
{
    parts.check(alloc, None, &parts.firsts, misnamed(&parts.seconds))
}

/// The log of parts that fit together.
fn restore(alloc: Global, parts: Parts) -> Log<NamespaceMap>
    requires { incoherence (parts_view parts) ≡ None }
    ensures { result ≡ state_of (parts_view parts) }
{
    let namespaces = NamespaceMap::restore(parts.seconds);
    Log::restore(
        alloc,
        parts.algorithm,
        parts.rights,
        parts.firsts,
        namespaces,
        parts.head,
    )
}

/// The state of the parts, or the first thing that does not fit together.
fn state_of_parts(alloc: Global, parts: Parts) -> Result<LogState, JsonError>
    ensures { ReturnsOrNoMemory (λ s. s) result
        (unless_case (incoherence (parts_view parts)) (state_of (parts_view parts))) }
{
    check_parts(alloc, &parts)?;
    Ok(LogState {
        log: restore(alloc, parts),
    })
}

/// The members of the state's JSON.
fn members_of(alloc: Global, log: &Log<NamespaceMap>) -> Result<Map<String, Value>, JsonError>
    ensures written { ReturnsOrNoMemory (λ m. object (members_view m.entries))
        result (state_json log.now) }
    ensures savable { OnOk result (IsSavable log.now) }
{
    let namespaces = log.own_state().as_map();
    members_value(alloc, log, "keys", log.keys(), "namespaces", namespaces)
}

/// The text of the state's JSON.
fn log_text(alloc: Global, log: &Log<NamespaceMap>) -> Result<String, JsonError>
    ensures written { ReturnsOrNoMemory string_bytes result (text_of (state_json log.now)) }
    ensures read { IfOk result (λ text. IsReadAs (state_json log.now) (string_bytes text)) }
    ensures savable { OnOk result (IsSavable log.now) }
{
    members_text(
        alloc,
        log,
        "keys",
        log.keys(),
        "namespaces",
        log.own_state().as_map(),
    )
}

impl LogState {
    /// The state's JSON as text, with no space: what [`JsonValue::to_value`] gives, written. It takes a fraction of
    /// the time, since each namespace is written for itself, and no value is made of it. [`LogState::from_json`] reads it
    /// back as an equal state. `TimeBeforeEpoch`: a time that is to be written lies
    /// before the epoch.
    pub fn to_json(&self, alloc: Global) -> Result<String, JsonError>
        ensures written { ReturnsOrNoMemory string_bytes result (text_of (state_json self.now)) }
        ensures read { IfOk result (λ text. IsReadAs (state_json self.now) (string_bytes text)) }
        ensures back { IfOk result (λ text. TextReadsBack state_in AreEqual
            self.now (string_bytes text)) }
    {
        log_text(alloc, &self.log)
    }

    /// The state of a text of JSON: what [`JsonValue::from_value`] reads of its value. It takes about half the time, since
    /// no value of the whole state is made: each namespace is read for itself.
    pub fn from_json(alloc: Global, text: &str) -> Result<LogState, JsonTextError>
        ensures { ReturnsOfText (λ s. s) result (in_text state_in text.now) }
    {
        let parts: Parts = text_parts(alloc, text, "keys", "namespaces")?;
        match state_of_parts(alloc, parts) {
            Ok(state) => Ok(state),
            Err(error) => Err(JsonTextError::from(error)),
        }
    }
}

/// A state as JSON. `TimeBeforeEpoch`: a time that is to be written lies before the epoch. What is read is the
/// state, or its first fault, or else the first thing in it that does not fit together.
impl JsonValue for LogState {
    ghost Plain = { State (AuthorityData OfPermission) (List (List ℕ × Namespace)) };

    ghost plain = { λ s. s };

    ghost writes = { state_json };

    ghost reads = { state_in };

    ghost versions = { λ _. [] };

    ghost equivalent = { AreEqual };

    ghost equivalent_equal = { λ _ s t h. h };

    ghost versions_written = { λ x d h. tt };

    ghost versions_read = { λ x d h. tt };

    fn to_value(&self, alloc: Global) -> Result<Value, JsonError> {
        Ok(object_value(members_of(alloc, &self.log)?))
    }

    fn from_value(alloc: Global, value: &Value) -> Result<LogState, JsonError> {
        state_of_parts(alloc, read_parts(alloc, value, "keys", "namespaces")?)
    }
}
