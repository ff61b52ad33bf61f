//! Why the text of a value's JSON gives no value.
ghost use Rattle.std.specs.Prelude.{◌≡◌};
ghost use Rattle.warg_saved_states.specs.JsonText.{text_fault};

use json::Invalid;
use std::alloc::{AllocError, AllocFailed};
use thiserror::Error;
use warg_crypto::json::JsonError;

/// Why the text of a value's JSON gives no value.
#[derive(Clone, Copy, Debug, PartialEq, Eq, Error)]
pub enum JsonTextError {
    /// The text is no JSON, or a number in it is past the greatest float.
    #[error("NotJson")]
    NotJson,
    /// The JSON is no value.
    #[error("{0}")]
    Value(JsonError),
    /// There was no memory for the value.
    #[error("OutOfMemory")]
    OutOfMemory,
}

impl From<JsonError> for JsonTextError {
    ghost from_gives = { λ e f. f ≡ text_fault e };

    /// Out of memory stays out of memory.
    fn from(error: JsonError) -> JsonTextError {
        match error {
            JsonError::OutOfMemory => JsonTextError::OutOfMemory,
            fault => JsonTextError::Value(fault),
        }
    }
}

/// Why no value is read of a text.
#[derive(Clone, Copy, Debug, Drop, PartialEq, Eq)]
pub enum ReadFault {
    /// The text is no JSON, or a number in it is past the greatest float.
    NotJson,
    /// A quick way was given up: a map's names do not ascend, or it has a fault.
    GivenUp,
    /// There was no memory for the value.
    OutOfMemory,
}

impl From<Invalid> for ReadFault {
    ghost use Rattle.warg_saved_states.specs.declared.error.ReadFault.TheVariants.{NotJson};

    ghost from_gives = { λ _ e. e ≡ NotJson };

    fn from(_invalid: Invalid) -> ReadFault {
        ReadFault::NotJson
    }
}

impl From<AllocError> for ReadFault {
    ghost use Rattle.warg_saved_states.specs.declared.error.ReadFault.TheVariants.{OutOfMemory};

    ghost from_gives = { λ _ e. e ≡ OutOfMemory };

    fn from(_refused: AllocError) -> ReadFault {
        ReadFault::OutOfMemory
    }
}

impl<T: Drop> From<AllocFailed<T>> for ReadFault {
    ghost use Rattle.warg_saved_states.specs.declared.error.ReadFault.TheVariants.{OutOfMemory};

    ghost from_gives = { λ _ e. e ≡ OutOfMemory };

    fn from(_refused: AllocFailed<T>) -> ReadFault {
        ReadFault::OutOfMemory
    }
}

impl From<ReadFault> for JsonTextError {
    ghost use Rattle.warg_saved_states.specs.Asked.{fault_of};

    ghost from_gives = { λ e f. f ≡ fault_of e };

    fn from(fault: ReadFault) -> JsonTextError {
        match fault {
            ReadFault::NotJson => JsonTextError::NotJson,
            ReadFault::GivenUp | ReadFault::OutOfMemory => JsonTextError::OutOfMemory,
        }
    }
}
