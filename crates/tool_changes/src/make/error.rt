//! Why words make no record.

ghost use Rattle.std.specs.Prelude.{◌≡◌};
ghost use Rattle.tool_changes.specs.declared.make.error.EntryFault.TheVariants as entry;
ghost use Rattle.tool_changes.specs.declared.make.error.MakeError.TheVariants as made;

use std::alloc::{AllocError, AllocFailed};
use thiserror::Error;
use warg_crypto::signing::SignatureError;

/// Why words say no entry.
#[derive(Clone, Copy, Debug, PartialEq, Eq, Error)]
pub enum EntryFault {
    /// The first word is no entry of the kind.
    #[error("it begins with no entry's word")]
    UnknownEntry,
    /// A word is missing.
    #[error("a word is missing")]
    MissingWord,
    /// A word is there that the entry does not have.
    #[error("there is a word too many")]
    ExtraWord,
    /// A word is neither a name nor a key's text.
    #[error("a word is no key")]
    BadKey,
    /// A word is no permission of the kind.
    #[error("a word is no permission")]
    BadPermission,
    /// A word is no version.
    #[error("a word is no version")]
    BadVersion,
    /// There was no memory.
    #[error("out of memory")]
    OutOfMemory,
}

impl From<AllocError> for EntryFault {
    ghost from_gives = { λ _ fault. fault ≡ entry.OutOfMemory };

    fn from(_error: AllocError) -> EntryFault {
        EntryFault::OutOfMemory
    }
}

impl<T: Drop> From<AllocFailed<T>> for EntryFault {
    ghost from_gives = { λ _ fault. fault ≡ entry.OutOfMemory };

    fn from(_error: AllocFailed<T>) -> EntryFault {
        EntryFault::OutOfMemory
    }
}

/// Why words make no record.
#[derive(Clone, Copy, Debug, PartialEq, Eq, Error)]
pub enum MakeError {
    /// The word says no time.
    #[error("the time is not now, nor as 2026-11-28T14:00:00Z, nor seconds as 1700000000.0")]
    BadTime,
    /// The time is `now`, and the clock tells none.
    #[error("the clock can't be read")]
    NoClock,
    /// The words of the entry at this place, counted from 0, say none.
    #[error("entry {place}: {fault}")]
    Entry {
        /// The place of the entry.
        place: usize,
        /// Why its words say none.
        fault: EntryFault,
    },
    /// There was no memory.
    #[error("out of memory")]
    OutOfMemory,
}

impl From<AllocError> for MakeError {
    ghost from_gives = { λ _ error. error ≡ made.OutOfMemory };

    fn from(_error: AllocError) -> MakeError {
        MakeError::OutOfMemory
    }
}

impl<T: Drop> From<AllocFailed<T>> for MakeError {
    ghost from_gives = { λ _ error. error ≡ made.OutOfMemory };

    fn from(_error: AllocFailed<T>) -> MakeError {
        MakeError::OutOfMemory
    }
}

// The signers here refuse no message, so what is left is memory.
impl From<SignatureError> for MakeError {
    ghost from_gives = { λ _ error. error ≡ made.OutOfMemory };

    fn from(_error: SignatureError) -> MakeError {
        MakeError::OutOfMemory
    }
}
