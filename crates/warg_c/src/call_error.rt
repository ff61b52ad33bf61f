//! Why a call was not done.
ghost use Rattle.std.specs.Prelude.{◌≡◌, ◌≤◌};
ghost use Rattle.warg_c.specs.Statuses.{code_of, status_of};

use std::alloc::AllocError;

/// Why a call was not done.
#[derive(Clone, Copy, Debug, PartialEq, Eq)]
pub enum CallError {
    /// The log is none: it was not opened, or it was closed.
    NotOpen,
    /// There was no memory. The same call may be made again.
    OutOfMemory,
    /// The caller's buffer is too small. `used` says how much is needed.
    TooSmall,
    /// The bytes are no envelope of a record of the log's kind.
    NoEnvelope,
    /// The record is unlawful; or the proof does not hold; or the signature does not belong.
    Refused,
    /// There is no such thing.
    Absent,
    /// An argument is not of its form, or the log is none that has this call: it is of the other kind, or it was resumed and
    /// has no records.
    BadArgument,
    /// The key's algorithm is none that the library verifies.
    UnknownAlgorithm,
}

impl From<AllocError> for CallError {
    ghost use Rattle.warg_c.specs.declared.call_error.CallError.TheVariants.{OutOfMemory};

    ghost from_gives = { λ _ f. f ≡ OutOfMemory };

    fn from(_error: AllocError) -> CallError {
        CallError::OutOfMemory
    }
}

impl CallError {
    // The status of the error.
    fn code(self) -> u32
        ensures code { result ≡ code_of self }
        ensures status { result ≤ 8 }
    {
        match self {
            CallError::NotOpen => 1,
            CallError::OutOfMemory => 2,
            CallError::TooSmall => 3,
            CallError::NoEnvelope => 4,
            CallError::Refused => 5,
            CallError::Absent => 6,
            CallError::BadArgument => 7,
            CallError::UnknownAlgorithm => 8,
        }
    }
}

/// The status of an outcome.
pub(crate) fn status(outcome: Result<(), CallError>) -> u32
    ensures code { result ≡ status_of outcome }
    ensures status { result ≤ 8 }
{
    match outcome {
        Ok(()) => 0,
        Err(call_error) => call_error.code(),
    }
}
