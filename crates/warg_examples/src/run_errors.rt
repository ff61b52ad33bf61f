//! Tells why a log is refused, whatever the error: `run_errors FILE..`, where the files hold its envelopes.

use crate::words::read_log;
use std::alloc::{AllocError, Global};
use std::io;
use warg_protocol::package::{LogState, ValidationError};
use warg_protocol::signing::SignatureError;
use warg_protocol::toy::ToyVerifier;
use warg_protocol::{DecodeError, ParseEnvelopeError, RunCause, RunError, run};

// Why the bytes are no envelope.
fn describe_fault(alloc: Global, fault: ParseEnvelopeError) -> Result<String, AllocError> {
    match fault {
        ParseEnvelopeError::ProtobufEnvelope(wire) => format!(in alloc;
            "its outer message: {wire}"
        ),
        ParseEnvelopeError::Contents(DecodeError::Wire(wire)) => format!(in alloc;
            "its record's message: {wire}"
        ),
        ParseEnvelopeError::Contents(contents) => format!(in alloc; "its record: {contents}"),
        ParseEnvelopeError::KeyID(text) => format!(in alloc; "its key id: {text}"),
        ParseEnvelopeError::Signature(text) => format!(in alloc; "its signature's text: {text}"),
        ParseEnvelopeError::OutOfMemory => String::from_str(alloc, "out of memory"),
    }
}

// Why the record can't come next. Each case has the fields that its text names.
fn describe_offence(alloc: Global, offence: &ValidationError) -> Result<String, AllocError> {
    match offence {
        ValidationError::SignatureError(SignatureError::Refused) => String::from_str(
            alloc,
            "its signature is not its signer's",
        ),
        ValidationError::YankOfYanked { version } => format!(in alloc;
            "{version} was yanked before"
        ),
        other => format!(in alloc; "{other}"),
    }
}

fn describe_cause(alloc: Global, cause: &RunCause<ValidationError>) -> Result<String, AllocError> {
    match cause {
        RunCause::Parse(fault) => describe_fault(alloc, *fault),
        RunCause::Validation(offence) => describe_offence(alloc, offence),
    }
}

fn describe_error(alloc: Global, error: &RunError<ValidationError>) -> Result<String, AllocError> {
    let cause = describe_cause(alloc, &error.cause)?;
    format!(in alloc; "record {}: {cause}", error.index)
}

// The result for a whole log, as text.
fn describe(alloc: Global, log: &[Vec<u8>]) -> Result<String, AllocError> {
    match run::<LogState, ToyVerifier>(alloc, &ToyVerifier, log) {
        Ok(state) => format!(in alloc; "lawful, with {} releases", state.releases().count()),
        Err(error) => describe_error(alloc, &error),
    }
}

// How many releases a whole log has. `?` turns the error of `run` into the program's own, with its text.
fn count_releases(alloc: Global, log: &[Vec<u8>]) -> anyhow::Result<usize> {
    let state = run::<LogState, ToyVerifier>(alloc, &ToyVerifier, log)?;
    Ok(state.releases().count())
}

// The short name of what refuses a log, which takes no memory.
fn error_name(alloc: Global, log: &[Vec<u8>]) -> Option<&'static str> {
    match run::<LogState, ToyVerifier>(alloc, &ToyVerifier, log) {
        Ok(_) => None,
        Err(error) => Some(error.name()),
    }
}

fn tell_count(rt: &(impl Alloc<A = Global> + Print), log: &[Vec<u8>]) -> io::Result<()> {
    match count_releases(rt.alloc(), log) {
        Ok(count) => println!(rt; "{count} releases"),
        Err(error) => println!(rt; "{error}"),
    }
}

fn tell(rt: &(impl Alloc<A = Global> + Print), log: &[Vec<u8>]) -> anyhow::Result<()> {
    println!(rt; "{}", describe(rt.alloc(), log)?)?;
    tell_count(rt, log)?;
    if let Some(name) = error_name(rt.alloc(), log) {
        println!(rt; "{name}")?;
    }
    Ok(())
}

/// Prints why the log is refused, in three ways.
pub(crate) fn main(rt: &HostRuntime) -> anyhow::Result<()> {
    tell(rt, read_log(rt)?.as_slice())
}
