//! Calls on a log of three records: by `alice` an init and a grant to `bob`, then a release by `bob`, then by `alice` a
//! revoke and a yank.

use crate::call_error::CallError;
use crate::values::written;
use std::alloc::Global;
use warg_protocol::package::{LogState, Permission};
use warg_protocol::signing::{KeyID, Signer};
use warg_protocol::toy::{ToySigner, ToyVerifier};
use warg_protocol::{AuditedLog, ProtoEnvelope, run};

type Log = AuditedLog<LogState, ToyVerifier>;

// The head and the releases of a state.
fn told(alloc: Global, state: &LogState) -> Result<String, CallError> {
    let mut text = String::new(alloc);
    if let Some(head) = state.head() {
        write!(text, "{}", head.digest)?;
    }
    for release in state.releases() {
        let act = if release.yanked() {
            "yanked"
        } else {
            "released"
        };
        write!(text, ", {} {act}", release.version)?;
    }
    Ok(text)
}

fn state_of(alloc: Global, inputs: &[Vec<u8>]) -> Result<LogState, CallError> {
    match run::<LogState, ToyVerifier>(alloc, &ToyVerifier, inputs) {
        Ok(state) => Ok(state),
        Err(error) => Err(CallError::from(error.cause)),
    }
}

/// The JSON of the state of the log.
pub(crate) fn saved(alloc: Global, inputs: &[Vec<u8>]) -> Result<String, CallError> {
    written(alloc, &state_of(alloc, inputs)?)
}

/// The same, written with no value of the whole.
pub(crate) fn saved_text(alloc: Global, inputs: &[Vec<u8>]) -> Result<String, CallError> {
    text_of(alloc, &state_of(alloc, inputs)?)
}

fn text_of(alloc: Global, state: &LogState) -> Result<String, CallError> {
    Ok(state.to_json(alloc)?)
}

/// `run`: the state of the log.
pub(crate) fn run_all(alloc: Global, inputs: &[Vec<u8>]) -> Result<String, CallError> {
    told(alloc, &state_of(alloc, inputs)?)
}

fn has_record(alloc: Global, log: &Log, place: usize, input: &[u8]) -> Result<bool, CallError> {
    let envelope = ProtoEnvelope::from_protobuf(alloc, input)?;
    Ok(log.records().get(place) == Some(&envelope))
}

fn has_state(alloc: Global, log: &Log, inputs: &[Vec<u8>]) -> Result<bool, CallError> {
    Ok(*log.state() == state_of(alloc, inputs)?)
}

// The log has the records of the inputs, and the state that they add up to, and nothing else.
fn check(alloc: Global, log: &Log, inputs: &[Vec<u8>]) -> Result<(), CallError> {
    if log.records().len() != inputs.len() || !has_state(alloc, log, inputs)? {
        return Err(CallError::new("changed by a refusal"));
    }
    for (place, input) in inputs.iter().enumerate() {
        if !has_record(alloc, log, place, input.as_slice())? {
            return Err(CallError::new("a record changed by a refusal"));
        }
    }
    Ok(())
}

fn appended(log: &mut Log, input: &[u8]) -> Result<(), CallError> {
    Ok(log.append(input)?)
}

// Takes the bytes. Where they are refused, the log has to be as before, and then to take them: then the error is the
// inner error. The outer one says that they were not taken.
fn take(
    alloc: Global,
    log: &mut Log,
    before: &[Vec<u8>],
    input: &[u8],
) -> Result<Result<(), CallError>, CallError> {
    let Err(call_error) = appended(log, input) else {
        return Ok(Ok(()));
    };
    check(alloc, log, before)?;
    match appended(log, input) {
        Ok(()) => Ok(Err(call_error)),
        Err(_) => Err(CallError::new("refused again")),
    }
}

// The first error, if any, of inputs that the log took all the same.
fn take_each(
    alloc: Global,
    log: &mut Log,
    inputs: &[Vec<u8>],
) -> Result<Result<(), CallError>, CallError> {
    let mut taken = Ok(());
    for (place, input) in inputs.iter().enumerate() {
        let (before, _) = inputs.split_at(place);
        let next = take(alloc, log, before, input.as_slice())?;
        taken = taken.and(next);
    }
    Ok(taken)
}

// What came of the inputs, all of which the log has by now.
fn told_after(
    alloc: Global,
    log: &Log,
    inputs: &[Vec<u8>],
    taken: Result<(), CallError>,
) -> Result<String, CallError> {
    check(alloc, log, inputs)?;
    taken?;
    told(alloc, log.state())
}

fn append_to(alloc: Global, log: &mut Log, inputs: &[Vec<u8>]) -> Result<String, CallError> {
    let taken = take_each(alloc, log, inputs)?;
    told_after(alloc, log, inputs, taken)
}

/// `append` of each input. A refused one is appended once more.
pub(crate) fn append(alloc: Global, inputs: &[Vec<u8>]) -> Result<String, CallError> {
    let mut log = Log::new(alloc, ToyVerifier)?;
    append_to(alloc, &mut log, inputs)
}

// Where an input is refused, its place comes with the error.
fn appended_all(log: &mut Log, inputs: &[Vec<u8>]) -> Result<(), (usize, CallError)> {
    match log.append_all(inputs) {
        Ok(()) => Ok(()),
        Err(error) => Err((error.index, CallError::from(error.cause))),
    }
}

// Takes the inputs. Where one is refused, those before it have to stand, and then the log has to take the others.
fn take_all(
    alloc: Global,
    log: &mut Log,
    inputs: &[Vec<u8>],
) -> Result<Result<(), CallError>, CallError> {
    let Err((index, call_error)) = appended_all(log, inputs) else {
        return Ok(Ok(()));
    };
    let Some((before, after)) = inputs.split_at_checked(index) else {
        return Err(CallError::new("refused past the end"));
    };
    check(alloc, log, before)?;
    match appended_all(log, after) {
        Ok(()) => Ok(Err(call_error)),
        Err(_) => Err(CallError::new("refused again")),
    }
}

fn append_all_to(alloc: Global, log: &mut Log, inputs: &[Vec<u8>]) -> Result<String, CallError> {
    let taken = take_all(alloc, log, inputs)?;
    told_after(alloc, log, inputs, taken)
}

/// `append_all` of the inputs. From a refused one on they are appended once more.
pub(crate) fn append_all(alloc: Global, inputs: &[Vec<u8>]) -> Result<String, CallError> {
    let mut log = Log::new(alloc, ToyVerifier)?;
    append_all_to(alloc, &mut log, inputs)
}

fn key_id(alloc: Global, name: &str) -> Result<KeyID, CallError> {
    let signer = ToySigner::new(alloc, name.as_bytes())?;
    Ok(signer.public_key().fingerprint(alloc)?)
}

fn told_chain(
    alloc: Global,
    log: &Log,
    name: &str,
    permission: Permission,
) -> Result<String, CallError> {
    let mut text = String::new(alloc);
    let Some(links) = log.permission_chain(&key_id(alloc, name)?, permission)? else {
        return Ok(text);
    };
    for (place, link) in links.iter().enumerate() {
        let space = if place == 0 { "" } else { " " };
        write!(text, "{space}{}.{}", link.record_index, link.entry_index)?;
    }
    Ok(text)
}

// The chain after the inputs, which the log has to take.
fn told_chain_after(
    alloc: Global,
    log: &mut Log,
    inputs: &[Vec<u8>],
    name: &str,
) -> Result<String, CallError> {
    match appended_all(log, inputs) {
        Ok(()) => told_chain(alloc, log, name, Permission::Release),
        Err((_, call_error)) => Err(call_error),
    }
}

/// `permission_chain` of this person's permission to release, after the inputs.
pub(crate) fn chain(alloc: Global, inputs: &[Vec<u8>], name: &str) -> Result<String, CallError> {
    let mut log = Log::new(alloc, ToyVerifier)?;
    told_chain_after(alloc, &mut log, inputs, name)
}
