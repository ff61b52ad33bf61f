//! Why a value has no JSON, or JSON is no value.

ghost use Rattle.std.specs.Prelude.{◌≡◌};
ghost use Rattle.warg_crypto.specs.declared.json.error.JsonError.TheVariants as fault;

use std::alloc::{AllocError, AllocFailed};
use thiserror::Error;

/// Why the parts of a saved state do not fit together.
#[derive(Clone, Copy, Debug, PartialEq, Eq, Error)]
pub enum Incoherence {
    /// An algorithm without a head.
    #[error("AlgorithmWithoutHead")]
    AlgorithmWithoutHead,
    /// A head without an algorithm.
    #[error("HeadWithoutAlgorithm")]
    HeadWithoutAlgorithm,
    /// Neither algorithm nor head, and some map is not empty.
    #[error("StateWithoutInit")]
    StateWithoutInit,
    /// A release whose version is not its name's.
    #[error("ReleaseUnderOtherVersion")]
    ReleaseUnderOtherVersion,
    /// A key whose fingerprint is not its name.
    #[error("KeyUnderOtherFingerprint")]
    KeyUnderOtherFingerprint,
    /// A namespace whose name is no kebab name.
    #[error("InvalidNamespace")]
    InvalidNamespace,
    /// Permissions of a key id that has no key.
    #[error("PermissionsWithoutKey")]
    PermissionsWithoutKey,
    /// A head of a version that no log has.
    #[error("UnsupportedVersion")]
    UnsupportedVersion,
}

/// Why a value has no JSON, or JSON is no value.
#[derive(Clone, Copy, Debug, PartialEq, Eq, Error)]
pub enum JsonError {
    /// Another kind of value stands there, or a number that is not whole and in range.
    #[error("WrongType")]
    WrongType,
    /// A member is missing.
    #[error("Missing")]
    Missing,
    /// A text is outside its grammar.
    #[error("BadText")]
    BadText,
    /// A time before the epoch has no text.
    #[error("TimeBeforeEpoch")]
    TimeBeforeEpoch,
    /// The seconds of a time, its nanoseconds carried, are past the greatest `i64`.
    #[error("TimeOutOfRange")]
    TimeOutOfRange,
    /// The parts of a saved state do not fit together.
    #[error("Incoherent")]
    Incoherent(Incoherence),
    /// Memory ran out.
    #[error("OutOfMemory")]
    OutOfMemory,
}

impl From<AllocError> for JsonError {
    ghost from_gives = { λ _ e. e ≡ fault.OutOfMemory };

    fn from(_e: AllocError) -> JsonError {
        JsonError::OutOfMemory
    }
}

impl<T: Drop> From<AllocFailed<T>> for JsonError {
    ghost from_gives = { λ _ e. e ≡ fault.OutOfMemory };

    fn from(_e: AllocFailed<T>) -> JsonError {
        JsonError::OutOfMemory
    }
}
