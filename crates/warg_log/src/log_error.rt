//! Why a log of any kind refuses a record.
ghost use Rattle.std.specs.Prelude.{◌≡◌, ◌↔◌, IsTrue, is_none};
ghost use Rattle.warg_log.specs.Offences.{offence_of};

use std::alloc::AllocError;
use warg_crypto::hash::HashAlgorithm;
use warg_crypto::signing::{KeyID, SignatureError};

/// Why a log of any kind refuses a record.
#[derive(Debug, Drop)]
pub enum LogError<P> {
    /// An entry stands before any Init.
    FirstEntryIsNotInit,
    /// After the record there is still no Init.
    InitialRecordDoesNotInit,
    /// The signer has no key in this log, or does not own the key of its Init.
    KeyIDNotRecognized {
        /// The id of the signer's key.
        key_id: KeyID,
    },
    /// An Init stands already.
    InitialEntryAfterBeginning,
    /// The signer lacks a permission that the entry requires, grants or revokes.
    UnauthorizedAction {
        /// The id of the signer's key.
        key_id: KeyID,
        /// The permission that it lacks.
        needed_permission: P,
    },
    /// The key lacks a permission that is to be taken from it.
    PermissionNotFoundToRevoke {
        /// The permission.
        permission: P,
        /// The id of the key that lacks it.
        key_id: KeyID,
    },
    /// The signature is not the signer's.
    SignatureError(SignatureError),
    /// The record names its predecessor by another algorithm. Never returned: there is only one algorithm.
    IncorrectHashAlgorithm {
        /// The record's algorithm.
        found: HashAlgorithm,
        /// The log's algorithm.
        expected: HashAlgorithm,
    },
    /// The record names another predecessor.
    RecordHashDoesNotMatch,
    /// The first record names a predecessor.
    PreviousHashOnFirstRecord,
    /// A later record names no predecessor.
    NoPreviousHashAfterInit,
    /// The record is of a version that may not stand here.
    ProtocolVersionNotAllowed {
        /// The record's version.
        version: u32,
    },
    /// The record is older than its predecessor.
    TimestampLowerThanPrevious,
    /// The entry grants the key no permission; a record of version 0 may.
    EmptyGrant {
        /// The id of the key that it names.
        key_id: KeyID,
    },
    /// There was no memory left. Says nothing of the record.
    OutOfMemory,
}

impl<P> LogError<P> {
    /// Whether it stands for out of memory, and says nothing of the record.
    pub fn is_out_of_memory(&self) -> bool
        ensures told { result ≡ is_none (offence_of self.now) }
        ensures only { IsTrue result ↔ (self.now ≡ LogError.OutOfMemory) }
    {
        matches!(self, LogError::OutOfMemory)
    }
}

impl<P> From<AllocError> for LogError<P> {
    ghost use Rattle.warg_log.specs.declared.log_error.LogError.TheVariants.{OutOfMemory};

    ghost from_gives = { λ _ e. e ≡ OutOfMemory };

    fn from(_error: AllocError) -> LogError<P> {
        LogError::OutOfMemory
    }
}

impl<P> From<SignatureError> for LogError<P> {
    ghost use Rattle.warg_log.specs.LogErrors.{log_error_of_signature};

    ghost from_gives = { λ e r. r ≡ log_error_of_signature e };

    fn from(error: SignatureError) -> LogError<P> {
        match error {
            SignatureError::Refused => LogError::SignatureError(error),
            SignatureError::OutOfMemory => LogError::OutOfMemory,
        }
    }
}
