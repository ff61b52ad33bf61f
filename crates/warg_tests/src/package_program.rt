//! A program over package logs, whose contracts cite what `warg_protocol` re-exports, and the view of a JSON value.
ghost use Rattle.std.specs.Prelude.{◌≡◌, IfOk, map, List, All, string_bytes};
ghost use Rattle.std.specs.Option.{option_map, option_copied};
ghost use Rattle.std.specs.Vec.{vec_items};
ghost use Rattle.serde_json.specs.View.{view};
ghost use Rattle.warg_protocol.specs.Json.{AreReadBack, ReturnsOrNoMemory, ReturnsOfText, IsReadAs, TextReadsBack, in_text};
ghost use Rattle.warg_protocol.specs.Logs.{IsAccepted, IsCoherent, EnvelopeData, NoKeyBringsItselfIn, SignatureRelation, envelope_of, read_all};
ghost use Rattle.warg_protocol.specs.Package.{TellsHistory, kind, package_record_of, records_of, view_of, state_json, state_in};
ghost use Rattle.warg_protocol.specs.Package.{AreEqual, rules, same_permission, saved_versions};
ghost use Rattle.warg_protocol.specs.Package.{IsGreatest, shows_candidate, shown_cmp, release_view};

use crate::samples::inputs;
use conformance_logs::scripts::id;
use serde_json::Value;
use std::alloc::Global;
use std::process::Abort;
use std::test::Fail;
use warg_protocol::package::{LogState, Permission, Release, ValidationError};
use warg_protocol::signing::{KeyID, Verifier};
use warg_protocol::toy::ToyVerifier;
use warg_protocol::{
    JsonError, JsonTextError, JsonValue, RunError, Validator, VersionReq, laws, run,
};

/// The state of a package's log: what its history says.
fn audited<V: Verifier>(
    alloc: Global,
    verifier: &V,
    inputs: &[Vec<u8>],
) -> Result<LogState, RunError<ValidationError>>
    ensures { let log = read_all (envelope_of package_record_of) (map vec_items inputs.now) in
        IfOk result (λ s. IsAccepted kind (V.belongs verifier.now) log × TellsHistory s log) }
{
    laws::package::states_tell_history();
    run(alloc, verifier, inputs)
}

/// In a log of version 1 each signer was let in by an entry before.
fn newcomers_are_let_in()
    ensures { (b : SignatureRelation) (log : List EnvelopeData) → IsAccepted kind b log →
        All (λ r. r.contents.version ≡ 1) (records_of log) → NoKeyBringsItselfIn (records_of log) }
{
    laws::package::no_key_brings_itself_in();
}

/// Whether the log has a record.
fn has_begun(state: &LogState) -> bool
    ensures { IsCoherent rules same_permission (view_of state.now) }
{
    state.head().is_some()
}

/// Whether the key may release.
fn may_release(state: &LogState, key_id: &KeyID) -> bool
    ensures { result ≡ (view_of state.now).state.authority.holds key_id.now Permission.Release }
{
    Validator::holds(state, key_id, Permission::Release)
}

/// The version that meets the requirement best.
fn resolved<'a>(state: &'a LogState, wanted: &VersionReq) -> Option<&'a Release>
    ensures { IsGreatest (shows_candidate wanted.now.comparators.items) shown_cmp
        (view_of state.now).state.own_state (option_map release_view (option_copied result)) }
{
    state.find_latest_release(wanted)
}

/// The state as JSON, to be kept.
fn saved(alloc: Global, state: &LogState) -> Result<Value, JsonError>
    ensures { ReturnsOrNoMemory view result (state_json state.now) }
{
    state.to_value(alloc)
}

/// The state that was kept.
fn restored(alloc: Global, value: &Value) -> Result<LogState, JsonError>
    ensures { ReturnsOrNoMemory (λ s. s) result (state_in (view value.now)) }
{
    LogState::from_value(alloc, value)
}

/// The state as a text, which is read as the state's JSON, and reads back as an equal state.
fn saved_text(alloc: Global, state: &LogState) -> Result<String, JsonError>
    ensures read { IfOk result (λ text. IsReadAs (state_json state.now) (string_bytes text)) }
    ensures back { AreReadBack (saved_versions state.now) →
        IfOk result (λ text. TextReadsBack state_in AreEqual state.now (string_bytes text)) }
{
    state.to_json(alloc)
}

/// The state that was kept as a text.
fn restored_text(alloc: Global, text: &str) -> Result<LogState, JsonTextError>
    ensures { ReturnsOfText (λ s. s) result (in_text state_in text.now) }
{
    LogState::from_json(alloc, text)
}

const LOG: &str = "
    alice 1.0: init alice, grant bob release
    bob 2.0: release 1.0.0 first, release 1.1.0 second
";

fn state(alloc: Global) -> Result<LogState, Fail> {
    let inputs = inputs::<LogState>(alloc, LOG)?;
    match audited(alloc, &ToyVerifier, inputs.as_slice()) {
        Ok(state) => Ok(state),
        Err(error) => Err(Fail::from(error)),
    }
}

fn may_release_in(alloc: Global, state: &LogState, name: &str) -> Result<bool, Fail> {
    Ok(may_release(state, &id(alloc, name)?))
}

fn best(alloc: Global, state: &LogState, wanted: &str) -> Result<String, Fail> {
    let wanted = VersionReq::parse(alloc, wanted)?;
    let release = resolved(state, &wanted).ok_or("nothing meets it")?;
    Ok(release.version.to_string(alloc)?)
}

fn comes_back(alloc: Global, state: &LogState) -> Result<bool, Fail> {
    let value = saved(alloc, state)?;
    let text = saved_text(alloc, state)?;
    let again = restored_text(alloc, text.as_str())?;
    Ok(restored(alloc, &value)? == *state && again == *state)
}

fn asks(rt: &impl Abort, alloc: Global, state: &LogState) -> Result<(), Fail> {
    newcomers_are_let_in();
    assert!(rt; has_begun(state));
    assert!(rt; may_release_in(alloc, state, "bob")?);
    assert!(rt; !may_release_in(alloc, state, "mallory")?);
    assert_eq!(rt; best(alloc, state, "^1")?.as_str(), "1.1.0");
    assert!(rt; comes_back(alloc, state)?);
    Ok(())
}

#[test]
fn a_program_asks_a_package_log(rt: HostRuntime) -> Result<(), Fail> {
    let alloc = rt.alloc();
    asks(&rt, alloc, &state(alloc)?)
}
