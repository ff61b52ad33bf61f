//! Why a text says no claims.

ghost use Rattle.std.specs.Prelude.{◌≡◌};

use hex::FromHexError;
use std::alloc::AllocError;
use thiserror::Error;
use warg_crypto::signing::{KeyParseError, SignatureParseError};

/// Why a line says no claim.
#[derive(Clone, Copy, Debug, PartialEq, Eq, Error)]
pub enum ClaimParseError {
    /// Two spaces do not stand in the line.
    #[error("MissingPart")]
    MissingPart,
    /// What stands before the first space is the printed text of no key.
    #[error("Key.{0}")]
    Key(KeyParseError),
    /// What stands for the key or the signature is no printed text: a backslash stands there before another character
    /// than a backslash or the `u{..}` of a character's number.
    #[error("BadEscape")]
    BadEscape,
    /// What stands between the first two spaces is not made of pairs of hex digits.
    #[error("BadHex")]
    BadHex,
    /// What stands behind the second space is the printed text of no signature.
    #[error("Signature.{0}")]
    Signature(SignatureParseError),
    /// There was no memory for the claim.
    #[error("OutOfMemory")]
    OutOfMemory,
}

impl From<KeyParseError> for ClaimParseError {
    ghost use Rattle.warg_claims.specs.Verified.Faults.{key_fault};

    ghost from_gives = { λ e f. f ≡ key_fault e };

    fn from(error: KeyParseError) -> ClaimParseError {
        match error {
            KeyParseError::OutOfMemory => ClaimParseError::OutOfMemory,
            fault => ClaimParseError::Key(fault),
        }
    }
}

impl From<FromHexError> for ClaimParseError {
    ghost use Rattle.warg_claims.specs.Verified.Faults.{message_fault};

    ghost from_gives = { λ e f. f ≡ message_fault e };

    fn from(error: FromHexError) -> ClaimParseError {
        match error {
            FromHexError::OutOfMemory => ClaimParseError::OutOfMemory,
            _ => ClaimParseError::BadHex,
        }
    }
}

impl From<SignatureParseError> for ClaimParseError {
    ghost use Rattle.warg_claims.specs.Verified.Faults.{signature_fault};

    ghost from_gives = { λ e f. f ≡ signature_fault e };

    fn from(error: SignatureParseError) -> ClaimParseError {
        match error {
            SignatureParseError::OutOfMemory => ClaimParseError::OutOfMemory,
            fault => ClaimParseError::Signature(fault),
        }
    }
}

impl From<AllocError> for ClaimParseError {
    ghost use Rattle.warg_claims.specs.declared.verified.error.ClaimParseError.TheVariants.{OutOfMemory};

    ghost from_gives = { λ _ e. e ≡ OutOfMemory };

    fn from(_error: AllocError) -> ClaimParseError {
        ClaimParseError::OutOfMemory
    }
}

/// The first line of a text that says no claim, and why.
#[derive(Clone, Copy, Debug, PartialEq, Eq, Error)]
#[error("line {line}: {fault}")]
pub struct VerifiedParseError {
    /// The place of the line, counted from 0.
    pub line: usize,
    /// Why it says no claim.
    pub fault: ClaimParseError,
}
