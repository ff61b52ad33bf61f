//! Copies, envelopes that are read back, and a time that is not saved.
use crate::samples::{envelope, state};
use conformance_logs::scripts::ScriptLog;
use std::alloc::{AllocError, Global};
use std::process::Abort;
use std::test::Fail;
use warg_protocol::package::{Release, ReleaseState};
use warg_protocol::signing::KeyID;
use warg_protocol::{JsonError, JsonValue, ProtoEnvelope, Record, Timestamp, operator, package};

// The copy is equal to the value.
fn is_copy<T: PartialEq + Drop>(rt: &impl Abort, copy: Result<T, AllocError>, value: &T) {
    let copy = copy.expect(rt, "memory");
    assert!(rt; copy == *value);
}

fn copy_head(rt: &impl Abort, head: &Option<package::Head>) {
    let head = head.as_ref().expect(rt, "a head");
    is_copy(rt, head.try_clone(), head);
}

fn copy_release(rt: &impl Abort, release: &Release) {
    is_copy(rt, release.try_clone(), release);
    is_copy(rt, release.state.try_clone(), &release.state);
}

fn copy_namespace(rt: &impl Abort, state: &operator::LogState, name: &str) {
    let namespace = state.namespace_state(name).expect(rt, name);
    is_copy(rt, namespace.try_clone(), namespace);
}

#[test]
fn package_states(rt: HostRuntime) -> Result<(), Fail> {
    let log = "
        alice 1.0: init alice, grant bob release yank
        bob 2.0: release 1.0.0, release 1.1.0
        alice 3.0: revoke bob release yank, yank 1.1.0
    ";
    let state = state::<package::LogState>(rt.alloc(), log)?;
    is_copy(&rt, state.try_clone(), &state);
    copy_head(&rt, state.head());
    for release in state.releases() {
        copy_release(&rt, release);
    }
    Ok(())
}

#[test]
fn operator_states(rt: HostRuntime) -> Result<(), Fail> {
    let log = "
        alice 1.0: init alice, define my-namespace, import imported-namespace registry.example.com
    ";
    let state = state::<operator::LogState>(rt.alloc(), log)?;
    is_copy(&rt, state.try_clone(), &state);
    copy_head(&rt, state.head());
    copy_namespace(&rt, &state, "my-namespace");
    copy_namespace(&rt, &state, "imported-namespace");
    Ok(())
}

fn is_read_back<R: Record + PartialEq>(
    alloc: Global,
    envelope: &ProtoEnvelope<R>,
) -> Result<bool, Fail> {
    let bytes = envelope.to_protobuf(alloc)?;
    Ok(ProtoEnvelope::<R>::from_protobuf(alloc, bytes.as_slice())? == *envelope)
}

fn reads_back<L: ScriptLog>(alloc: Global, line: &str) -> Result<bool, Fail>
where
    L::Record: PartialEq,
{
    is_read_back(alloc, &envelope::<L>(alloc, line)?)
}

#[test]
fn envelopes_are_read_back(rt: HostRuntime) -> Result<(), Fail> {
    let package =
        "alice 1.0: init alice, grant bob release yank, revoke bob release, release 1.0.0 \0\x01\x02\x03";
    assert!(rt; reads_back::<package::LogState>(rt.alloc(), package)?);
    let operator = "alice 1.0: init alice, grant bob commit, revoke bob commit";
    assert!(rt; reads_back::<operator::LogState>(rt.alloc(), operator)?);
    Ok(())
}

#[test]
fn a_yank_before_the_epoch_is_not_saved(rt: HostRuntime) -> Result<(), Fail> {
    let alloc = rt.alloc();
    let yanked = ReleaseState::Yanked {
        by: KeyID::from(String::from_str(alloc, "k")?),
        timestamp: Timestamp::new(-1, 5),
    };
    assert_eq!(rt;
        yanked.to_value(alloc).err(),
        Some(JsonError::TimeBeforeEpoch)
    );
    Ok(())
}
