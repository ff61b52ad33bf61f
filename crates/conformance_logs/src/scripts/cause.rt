//! The causes of errors, in words.
use crate::scripts::script::ScriptLog;
use conformance_rows::RowError;
use std::alloc::Global;
use warg_protocol::RunCause;

/// The cause in words: `Parse` with the cases of the fault from the outside in, or a validation error.
pub fn cause_words<L: ScriptLog>(
    alloc: Global,
    cause: &RunCause<L::Error>,
) -> Result<String, RowError> {
    match cause {
        RunCause::Parse(fault) => Ok(format!(in alloc; "Parse {}", fault.name())?),
        RunCause::Validation(error) => L::words(alloc, error),
    }
}
