//! Why a text is no proof, and bytes are no leaves.

ghost use Rattle.std.specs.Prelude.{◌≡◌};
ghost use Rattle.warg_transparency.specs.declared.error.ProofTextError.TheVariants as proof_text;
ghost use Rattle.warg_transparency.specs.declared.error.SavedLeavesError.TheVariants as saved_leaves;

use std::alloc::AllocError;
use thiserror::Error;

/// Why a text is no proof, or out of memory. Its text is the name of its case.
#[derive(Clone, Copy, Debug, PartialEq, Eq, Error)]
pub enum ProofTextError {
    /// The text is longer than that of any proof.
    #[error("TooLong")]
    TooLong,
    /// The text is no base64 (RFC 4648, with padding).
    #[error("BadBase64")]
    BadBase64,
    /// The bytes are not as many as the proof's hashes take.
    #[error("BadLength")]
    BadLength,
    /// A hash of a map's proof is the root of the empty subtree of its height, which the first 32 bytes have to leave out.
    #[error("EmptySibling")]
    EmptySibling,
    /// The allocator refused memory. No text has this fault.
    #[error("OutOfMemory")]
    OutOfMemory,
}

impl From<AllocError> for ProofTextError {
    ghost from_gives = { λ _ e. e ≡ proof_text.OutOfMemory };

    fn from(_e: AllocError) -> ProofTextError {
        ProofTextError::OutOfMemory
    }
}

/// Why bytes are not the saved form of leaves, or out of memory. Its text is the name of its case.
#[derive(Clone, Copy, Debug, PartialEq, Eq, Error)]
pub enum SavedLeavesError {
    /// The bytes are no multiple of 64.
    #[error("BadLength")]
    BadLength,
    /// The allocator refused memory. No bytes have this fault.
    #[error("OutOfMemory")]
    OutOfMemory,
}

impl From<AllocError> for SavedLeavesError {
    ghost from_gives = { λ _ e. e ≡ saved_leaves.OutOfMemory };

    fn from(_e: AllocError) -> SavedLeavesError {
        SavedLeavesError::OutOfMemory
    }
}
