//! The entry that an error is of.
use crate::samples::{inputs, state};
use conformance_logs::scripts::ScriptLog;
use std::alloc::Global;
use std::process::Abort;
use std::test::Fail;
use warg_protocol::toy::ToyVerifier;
use warg_protocol::{ProtoEnvelope, operator, package};

// The place of the entry for which the last record is refused, if it is refused for one.
fn entry_at_fault<L: ScriptLog>(
    alloc: Global,
    log: &str,
    record: &str,
) -> Result<Option<usize>, Fail> {
    let state = state::<L>(alloc, log)?;
    let lines = format!(in alloc; "{log}\n{record}")?;
    let inputs = inputs::<L>(alloc, lines.as_str())?;
    let Some(last) = inputs.as_slice().last() else {
        return Err(Fail::new("there is no record"));
    };
    let envelope = ProtoEnvelope::<L::Record>::from_protobuf(alloc, last.as_slice())?;
    match state.try_clone()?.validate(&envelope, &ToyVerifier) {
        Ok(_) => Err(Fail::new("the record is lawful")),
        Err(error) => Ok(state.entry_at_fault(&envelope, &error)?),
    }
}

// Logs, records that are refused after them, and the place of the entry at fault.
const PACKAGE_ROWS: &[(&str, &str, Option<usize>)] = &[
    ("", "alice 1.0: release 1.0.0, init alice", Some(0)),
    ("", "alice 1.0:", None),
    (
        "alice 1.0: init alice",
        "alice 2.0: release 1.0.0, init alice",
        Some(1),
    ),
    (
        "alice 1.0: init alice, release 1.0.0",
        "alice 2.0: release 1.0.0",
        Some(0),
    ),
    (
        "alice 1.0: init alice, release 1.0.0",
        "alice 2.0: release 1.1.0, yank 1.0.0, release 1.1.0, yank 1.0.0",
        Some(2),
    ),
    ("alice 1.0: init alice", "bob 2.0: release 1.0.0", Some(0)),
    ("alice 1.0: init alice", "bob 2.0:", None),
    (
        "alice 2.0: init alice",
        "alice 1.0: release 1.0.0, release 1.0.0",
        None,
    ),
];

const OPERATOR_ROWS: &[(&str, &str, Option<usize>)] = &[
    (
        "alice 1.0: init alice, define own",
        "alice 2.0: define other, define own",
        Some(1),
    ),
    (
        "alice 1.0: init alice",
        "alice 2.0: init alice, define own",
        Some(0),
    ),
    (
        "alice 2.0: init alice",
        "alice 1.0: define own, define own",
        None,
    ),
];

fn all_are_told<L: ScriptLog>(
    rt: &impl Abort,
    alloc: Global,
    rows: &[(&str, &str, Option<usize>)],
) -> Result<(), Fail> {
    for (log, record, place) in rows {
        assert_eq!(rt; entry_at_fault::<L>(alloc, log, record)?, *place);
    }
    Ok(())
}

#[test]
fn the_entry_at_fault_of_package_logs(rt: HostRuntime) -> Result<(), Fail> {
    all_are_told::<package::LogState>(&rt, rt.alloc(), PACKAGE_ROWS)
}

#[test]
fn the_entry_at_fault_of_operator_logs(rt: HostRuntime) -> Result<(), Fail> {
    all_are_told::<operator::LogState>(&rt, rt.alloc(), OPERATOR_ROWS)
}
