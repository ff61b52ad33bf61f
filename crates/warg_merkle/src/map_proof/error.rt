//! Why bytes are no short proof.

ghost use Rattle.std.specs.Prelude.{◌≡◌};
ghost use Rattle.warg_merkle.specs.declared.map_proof.error.MapProofError.TheVariants.{OutOfMemory};

use std::alloc::{AllocError, AllocFailed};
use thiserror::Error;

/// Why bytes are no short proof, or out of memory. Its text is the name of its case.
#[derive(Clone, Copy, Debug, PartialEq, Eq, Error)]
pub enum MapProofError {
    /// There are fewer bytes than the 32 of the bits and a hash for each sibling that they do not leave out.
    #[error("TooShort")]
    TooShort,
    /// There are more bytes than the bits and the hashes that they call for.
    #[error("TooLong")]
    TooLong,
    /// A hash is the root of the empty subtree of its height, which the bits have to leave out.
    #[error("EmptySibling")]
    EmptySibling,
    /// The allocator refused memory. No bytes have this fault.
    #[error("OutOfMemory")]
    OutOfMemory,
}

impl From<AllocError> for MapProofError {
    ghost from_gives = { λ _ e. e ≡ OutOfMemory };

    fn from(_e: AllocError) -> MapProofError {
        MapProofError::OutOfMemory
    }
}

impl<T: Drop> From<AllocFailed<T>> for MapProofError {
    ghost from_gives = { λ _ e. e ≡ OutOfMemory };

    fn from(_e: AllocFailed<T>) -> MapProofError {
        MapProofError::OutOfMemory
    }
}
