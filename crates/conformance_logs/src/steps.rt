//! One input more at a log, which is taken or refused the same on every way: by `validate`, by `run_from`, and by the log
//! that is kept.
use crate::player::Log;
use crate::scripts::{ScriptLog, cause_words, check};
use conformance_rows::RowError;
use std::alloc::Global;
use std::slice;
use warg_protocol::toy::ToyVerifier;
use warg_protocol::{ProtoEnvelope, RunCause, RunError, run_from};

/// Appends the input, or leaves the log as it is and gives the cause in words.
pub fn advance<L: ScriptLog>(
    alloc: Global,
    log: &mut Log<L>,
    input: Vec<u8>,
) -> Result<Option<String>, RowError> {
    match judged(alloc, log.state.try_clone()?, input.as_slice()) {
        Ok(state) => {
            take(alloc, log, input, state)?;
            Ok(None)
        }
        Err(cause) => Ok(Some(leave(alloc, log, &input, &cause)?)),
    }
}

// Appends the input, which leads to the state.
fn take<L: ScriptLog>(
    alloc: Global,
    log: &mut Log<L>,
    input: Vec<u8>,
    state: L,
) -> Result<(), RowError> {
    makes(alloc, log, &input, &state)?;
    keep(log, &input, &state)?;
    log.inputs.push(input)?;
    log.state = state;
    Ok(())
}

// Leaves the log as it is, which refuses the input: the cause in words.
fn leave<L: ScriptLog>(
    alloc: Global,
    log: &mut Log<L>,
    input: &Vec<u8>,
    cause: &RunCause<L::Error>,
) -> Result<String, RowError> {
    let words = cause_words::<L>(alloc, cause)?;
    refuses(alloc, log, input, words.as_str())?;
    keep_out(alloc, log, input, words.as_str())?;
    Ok(words)
}

// The state or the cause, where an input comes next.
fn judged<L: ScriptLog>(alloc: Global, state: L, input: &[u8]) -> Result<L, RunCause<L::Error>> {
    let envelope = match ProtoEnvelope::<L::Record>::from_protobuf(alloc, input) {
        Ok(envelope) => envelope,
        Err(error) => return Err(RunCause::Parse(error)),
    };
    match state.validate(&envelope, &ToyVerifier) {
        Ok(state) => Ok(state),
        Err(error) => Err(RunCause::Validation(error)),
    }
}

/// Fails where `run_from` does not make this state.
pub fn check_state<L: ScriptLog>(
    made: Result<L, RunError<L::Error>>,
    wanted: &L,
) -> Result<(), RowError> {
    let is_same = match made {
        Ok(state) => state == *wanted,
        Err(_) => false,
    };
    check(is_same, "`run_from` makes another state")
}

// The input leads from the log to this state.
fn makes<L: ScriptLog>(
    alloc: Global,
    log: &Log<L>,
    input: &Vec<u8>,
    state: &L,
) -> Result<(), RowError> {
    let before = log.state.try_clone()?;
    check_state(
        run_from(alloc, before, &ToyVerifier, slice::from_ref(input)),
        state,
    )
}

// The input is refused after the log, for this cause.
fn refuses<L: ScriptLog>(
    alloc: Global,
    log: &Log<L>,
    input: &Vec<u8>,
    words: &str,
) -> Result<(), RowError> {
    let before = log.state.try_clone()?;
    let is_same = match run_from(alloc, before, &ToyVerifier, slice::from_ref(input)) {
        Ok(_) => false,
        Err(error) => {
            error.index == 0 && cause_words::<L>(alloc, &error.cause)?.as_str() == words
        }
    };
    check(is_same, "`run_from` answers otherwise")
}

// The kept log takes the input, and has this state then.
fn keep<L: ScriptLog>(log: &mut Log<L>, input: &Vec<u8>, state: &L) -> Result<(), RowError> {
    let Some(kept) = &mut log.kept else {
        return Ok(());
    };
    let is_taken = kept.append(input.as_slice()).is_ok();
    check(
        is_taken && *kept.state() == *state,
        "the kept log answers otherwise",
    )
}

// The kept log refuses the input for this cause, and is as before.
fn keep_out<L: ScriptLog>(
    alloc: Global,
    log: &mut Log<L>,
    input: &Vec<u8>,
    words: &str,
) -> Result<(), RowError> {
    let Some(kept) = &mut log.kept else {
        return Ok(());
    };
    let count = kept.records().len();
    let is_refused = match kept.append(input.as_slice()) {
        Ok(()) => false,
        Err(cause) => cause_words::<L>(alloc, &cause)?.as_str() == words,
    };
    let is_left = kept.records().len() == count && *kept.state() == log.state;
    check(is_refused && is_left, "the kept log answers otherwise")
}
