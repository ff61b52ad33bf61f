//! Why a text is no key or no signature, and why signing and verifying fail.

ghost use Rattle.std.specs.Prelude.{◌≡◌};

use crate::signing::algorithm_bytes::NamedBytesError;
use std::alloc::{AllocError, AllocFailed};
use thiserror::Error;

/// Why a text is no key.
#[derive(Clone, Copy, Debug, PartialEq, Eq, Error)]
pub enum KeyParseError {
    /// No colon stands in the text.
    #[error("MissingColon")]
    MissingColon,
    /// Nothing stands before the first colon.
    #[error("EmptyAlgorithm")]
    EmptyAlgorithm,
    /// What stands behind the first colon is no base64 (RFC 4648, with padding).
    #[error("BadBase64")]
    BadBase64,
    /// There was no memory for the key.
    #[error("OutOfMemory")]
    OutOfMemory,
}

impl From<NamedBytesError> for KeyParseError {
    ghost use Rattle.warg_crypto.specs.Keys.{key_fault};

    ghost from_gives = { λ e f. f ≡ key_fault e };

    fn from(error: NamedBytesError) -> KeyParseError {
        match error {
            NamedBytesError::MissingColon => KeyParseError::MissingColon,
            NamedBytesError::EmptyAlgorithm => KeyParseError::EmptyAlgorithm,
            NamedBytesError::BadBase64 => KeyParseError::BadBase64,
            NamedBytesError::OutOfMemory => KeyParseError::OutOfMemory,
        }
    }
}

impl From<AllocError> for KeyParseError {
    ghost use Rattle.warg_crypto.specs.declared.signing.error.KeyParseError.TheVariants.{OutOfMemory};

    ghost from_gives = { λ _ e. e ≡ OutOfMemory };

    fn from(_error: AllocError) -> KeyParseError {
        KeyParseError::OutOfMemory
    }
}

/// Why a text is no signature.
#[derive(Clone, Copy, Debug, PartialEq, Eq, Error)]
pub enum SignatureParseError {
    /// No colon stands in the text.
    #[error("MissingColon")]
    MissingColon,
    /// Nothing stands before the first colon.
    #[error("EmptyAlgorithm")]
    EmptyAlgorithm,
    /// What stands behind the first colon is no base64 (RFC 4648, with padding).
    #[error("BadBase64")]
    BadBase64,
    /// There was no memory for the signature.
    #[error("OutOfMemory")]
    OutOfMemory,
}

impl From<NamedBytesError> for SignatureParseError {
    ghost use Rattle.warg_crypto.specs.Keys.{signature_fault};

    ghost from_gives = { λ e f. f ≡ signature_fault e };

    fn from(error: NamedBytesError) -> SignatureParseError {
        match error {
            NamedBytesError::MissingColon => SignatureParseError::MissingColon,
            NamedBytesError::EmptyAlgorithm => SignatureParseError::EmptyAlgorithm,
            NamedBytesError::BadBase64 => SignatureParseError::BadBase64,
            NamedBytesError::OutOfMemory => SignatureParseError::OutOfMemory,
        }
    }
}

impl From<AllocError> for SignatureParseError {
    ghost use Rattle.warg_crypto.specs.declared.signing.error.SignatureParseError.TheVariants.{OutOfMemory};

    ghost from_gives = { λ _ e. e ≡ OutOfMemory };

    fn from(_error: AllocError) -> SignatureParseError {
        SignatureParseError::OutOfMemory
    }
}

/// Why nothing was signed, or why a signature was not accepted.
#[derive(Clone, Copy, Debug, PartialEq, Eq, Error)]
pub enum SignatureError {
    /// The verifier says that the signature does not belong to the message under the key, or the
    /// signer does not sign this message.
    #[error("Refused")]
    Refused,
    /// There was no memory to sign or to verify.
    #[error("OutOfMemory")]
    OutOfMemory,
}

impl From<AllocError> for SignatureError {
    ghost use Rattle.warg_crypto.specs.declared.signing.error.SignatureError.TheVariants.{OutOfMemory};

    ghost from_gives = { λ _ e. e ≡ OutOfMemory };

    fn from(_error: AllocError) -> SignatureError {
        SignatureError::OutOfMemory
    }
}

impl<T: Drop> From<AllocFailed<T>> for SignatureError {
    ghost use Rattle.warg_crypto.specs.declared.signing.error.SignatureError.TheVariants.{OutOfMemory};

    ghost from_gives = { λ _ e. e ≡ OutOfMemory };

    fn from(_error: AllocFailed<T>) -> SignatureError {
        SignatureError::OutOfMemory
    }
}
