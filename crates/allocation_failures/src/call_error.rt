//! Why a call has no answer.

use std::alloc::{AllocError, AllocFailed};
use warg_protocol::package::ValidationError;
use warg_protocol::registry::PackageNameError;
use warg_protocol::signing::SignatureError;
use warg_protocol::{JsonError, ParseEnvelopeError, RunCause};

/// The name of a call's error, from its outermost case inwards: `OutOfMemory` where that is the whole error.
#[derive(Clone, Copy)]
pub(crate) struct CallError {
    /// The name.
    pub(crate) name: &'static str,
}

/// Memory was refused.
pub(crate) const OUT_OF_MEMORY: CallError = CallError {
    name: "OutOfMemory",
};

impl CallError {
    /// The error of this name.
    pub(crate) fn new(name: &'static str) -> CallError {
        CallError { name }
    }
}

impl From<AllocError> for CallError {
    fn from(_error: AllocError) -> CallError {
        OUT_OF_MEMORY
    }
}

impl<T: Drop> From<AllocFailed<T>> for CallError {
    fn from(_error: AllocFailed<T>) -> CallError {
        OUT_OF_MEMORY
    }
}

impl From<ParseEnvelopeError> for CallError {
    fn from(error: ParseEnvelopeError) -> CallError {
        CallError::new(error.name())
    }
}

impl From<RunCause<ValidationError>> for CallError {
    fn from(cause: RunCause<ValidationError>) -> CallError {
        match cause {
            RunCause::Parse(error) => CallError::new(error.name()),
            RunCause::Validation(error) => CallError::new(error.name()),
        }
    }
}

impl From<SignatureError> for CallError {
    fn from(error: SignatureError) -> CallError {
        match error {
            SignatureError::OutOfMemory => OUT_OF_MEMORY,
            SignatureError::Refused => CallError::new("Refused"),
        }
    }
}

impl From<PackageNameError> for CallError {
    fn from(error: PackageNameError) -> CallError {
        match error {
            PackageNameError::OutOfMemory => OUT_OF_MEMORY,
            PackageNameError::InvalidPackageName { .. } => CallError::new("InvalidPackageName"),
        }
    }
}

impl From<JsonError> for CallError {
    fn from(error: JsonError) -> CallError {
        match error {
            JsonError::OutOfMemory => OUT_OF_MEMORY,
            _ => CallError::new("JsonError"),
        }
    }
}
