//! Why a record is refused.
ghost use Rattle.std.specs.Prelude.{◌≡◌};

use semver::Version;
use std::alloc::AllocError;
use std::error::Error;
use std::fmt;
use warg_crypto::hash::HashAlgorithm;
use warg_crypto::signing::{KeyID, SignatureError};
use warg_log::LogError;
use warg_log_records::package::Permission;

/// Why a record of a package log is refused.
#[derive(Debug, Drop, PartialEq, Eq)]
pub enum ValidationError {
    /// An entry stands before the log's init.
    FirstEntryIsNotInit,
    /// After the first record there is still no init.
    InitialRecordDoesNotInit,
    /// No key of this id is known to the log, or the signer of an init does not own its key.
    KeyIDNotRecognized {
        /// The id of the signer's key.
        key_id: KeyID,
    },
    /// A second init.
    InitialEntryAfterBeginning,
    /// The signer lacks a permission that the entry requires, grants or revokes.
    UnauthorizedAction {
        /// The id of the signer's key.
        key_id: KeyID,
        /// The permission that it lacks.
        needed_permission: Permission,
    },
    /// The key lacks a permission that is to be taken from it.
    PermissionNotFoundToRevoke {
        /// The permission.
        permission: Permission,
        /// The id of the key that lacks it.
        key_id: KeyID,
    },
    /// The signature is not the signer's. The case of being out of memory is never held here.
    SignatureError(SignatureError),
    /// The record before is named by another algorithm. Never returned: there is only one algorithm.
    IncorrectHashAlgorithm {
        /// The record's algorithm.
        found: HashAlgorithm,
        /// The log's algorithm.
        expected: HashAlgorithm,
    },
    /// The record names another record before it than the log's last.
    RecordHashDoesNotMatch,
    /// The first record names a record before it.
    PreviousHashOnFirstRecord,
    /// A later record names no record before it.
    NoPreviousHashAfterInit,
    /// The version of the protocol is not one of this log.
    ProtocolVersionNotAllowed {
        /// The record's version.
        version: u32,
    },
    /// The record is older than the log's last.
    TimestampLowerThanPrevious,
    /// The entry grants the key no permission, in a record of version 1.
    EmptyGrant {
        /// The id of the key that it names.
        key_id: KeyID,
    },
    /// The version was released before, even if it has been yanked since.
    ReleaseOfReleased {
        /// The version.
        version: Version,
    },
    /// The version to be yanked was never released.
    YankOfUnreleased {
        /// The version.
        version: Version,
    },
    /// The version to be yanked is yanked already.
    YankOfYanked {
        /// The version.
        version: Version,
    },
    /// There was no memory left. This says nothing of the record.
    OutOfMemory,
}

impl fmt::Display for ValidationError {
    ghost use Rattle.std.specs.Prelude.{Some};
    ghost use Rattle.warg_package_log.specs.ErrorTexts.{error_text};

    ghost output = { λ e. Some (error_text e) };

    fn fmt<W: fmt::Write>(&self, f: &mut fmt::Formatter<W>) -> fmt::Result {
        match self {
            Self::FirstEntryIsNotInit => f.write_str("the first entry of the log is not \"init\""),
            Self::InitialRecordDoesNotInit => f.write_str(
                "the initial record is empty and does not \"init\"",
            ),
            Self::KeyIDNotRecognized { .. } => f.write_str(
                "the Key ID used to sign this envelope is not known to this package log",
            ),
            Self::InitialEntryAfterBeginning => f.write_str("a second \"init\" entry was found"),
            Self::UnauthorizedAction {
                key_id,
                needed_permission,
            } => write!(
                f,
                "the key with ID {key_id} did not have required permission {needed_permission}"
            ),
            Self::PermissionNotFoundToRevoke { permission, key_id } => write!(
                f,
                "attempted to remove permission {permission} from key {key_id} which did not have it"
            ),
            Self::SignatureError(_) => f.write_str("unable to verify signature"),
            Self::IncorrectHashAlgorithm { found, expected } => write!(
                f,
                "record hash uses {found} algorithm but {expected} was expected"
            ),
            Self::RecordHashDoesNotMatch => f.write_str("previous record hash does not match"),
            Self::PreviousHashOnFirstRecord => f.write_str(
                "the first record contained a previous hash value",
            ),
            Self::NoPreviousHashAfterInit => f.write_str(
                "non-initial record contained no previous hash",
            ),
            Self::ProtocolVersionNotAllowed { version } => write!(
                f,
                "protocol version {version} not allowed"
            ),
            Self::TimestampLowerThanPrevious => f.write_str(
                "record has lower timestamp than previous",
            ),
            Self::EmptyGrant { key_id } => write!(
                f,
                "an entry granted no permission to key {key_id}"
            ),
            Self::ReleaseOfReleased { version } => write!(
                f,
                "an entry attempted to release version {version} which is already released"
            ),
            Self::YankOfUnreleased { version } => write!(
                f,
                "an entry attempted to yank version {version} which had not yet been released"
            ),
            Self::YankOfYanked { version } => write!(
                f,
                "an entry attempted to yank version {version} which is already yanked"
            ),
            Self::OutOfMemory => f.write_str("OutOfMemory"),
        }
    }
}

impl Error for ValidationError {}

impl From<AllocError> for ValidationError {
    ghost use Rattle.warg_package_log.specs.declared.error.ValidationError.TheVariants.{OutOfMemory};

    ghost from_gives = { λ _ e. e ≡ OutOfMemory };

    fn from(_error: AllocError) -> ValidationError {
        ValidationError::OutOfMemory
    }
}

impl From<SignatureError> for ValidationError {
    ghost use Rattle.warg_package_log.specs.State.{error_of_signature};

    ghost from_gives = { λ s e. e ≡ error_of_signature s };

    fn from(error: SignatureError) -> ValidationError {
        match error {
            SignatureError::Refused => ValidationError::SignatureError(error),
            SignatureError::OutOfMemory => ValidationError::OutOfMemory,
        }
    }
}

impl From<LogError<Permission>> for ValidationError {
    ghost use Rattle.std.specs.Option.{option_map};
    ghost use Rattle.warg_log.specs.Offences as shared;
    ghost use Rattle.warg_log.specs.Rules.{LogOffence};
    ghost use Rattle.warg_package_log.specs.State.{offence_of};

    ghost from_gives = { λ r e. offence_of e ≡ option_map LogOffence.Shared (shared.offence_of r) };

    fn from(log_error: LogError<Permission>) -> ValidationError {
        match log_error {
            LogError::FirstEntryIsNotInit => ValidationError::FirstEntryIsNotInit,
            LogError::InitialRecordDoesNotInit => ValidationError::InitialRecordDoesNotInit,
            LogError::KeyIDNotRecognized { key_id } => ValidationError::KeyIDNotRecognized {
                key_id,
            },
            LogError::InitialEntryAfterBeginning => ValidationError::InitialEntryAfterBeginning,
            LogError::UnauthorizedAction {
                key_id,
                needed_permission,
            } => ValidationError::UnauthorizedAction {
                key_id,
                needed_permission,
            },
            LogError::PermissionNotFoundToRevoke { permission, key_id } => {
                ValidationError::PermissionNotFoundToRevoke { permission, key_id }
            }
            LogError::SignatureError(error) => ValidationError::SignatureError(error),
            LogError::IncorrectHashAlgorithm { found, expected } => {
                ValidationError::IncorrectHashAlgorithm { found, expected }
            }
            LogError::RecordHashDoesNotMatch => ValidationError::RecordHashDoesNotMatch,
            LogError::PreviousHashOnFirstRecord => ValidationError::PreviousHashOnFirstRecord,
            LogError::NoPreviousHashAfterInit => ValidationError::NoPreviousHashAfterInit,
            LogError::ProtocolVersionNotAllowed { version } => {
                ValidationError::ProtocolVersionNotAllowed { version }
            }
            LogError::TimestampLowerThanPrevious => ValidationError::TimestampLowerThanPrevious,
            LogError::EmptyGrant { key_id } => ValidationError::EmptyGrant { key_id },
            LogError::OutOfMemory => ValidationError::OutOfMemory,
        }
    }
}
