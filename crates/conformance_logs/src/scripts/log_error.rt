//! The errors that every kind of log has, in words.
use crate::scripts::people::{id, owner};
use conformance_rows::RowError;
use std::alloc::Global;
use std::fmt::{Debug, Display};
use std::str::FromStr;
use warg_log::LogError;
use warg_protocol::hash::HashAlgorithm;
use warg_protocol::signing::{KeyID, SignatureError};

/// The error that words say: its case, a person or a version, and a permission.
pub fn log_error<P: FromStr + Drop>(
    alloc: Global,
    case: &str,
    subject: &str,
    permission: &str,
) -> Result<LogError<P>, RowError>
where
    P::Err: Debug + Drop,
{
    Ok(match case {
        "KeyIDNotRecognized" => LogError::KeyIDNotRecognized {
            key_id: id(alloc, subject)?,
        },
        "EmptyGrant" => LogError::EmptyGrant {
            key_id: id(alloc, subject)?,
        },
        "UnauthorizedAction" => LogError::UnauthorizedAction {
            key_id: id(alloc, subject)?,
            needed_permission: permission.parse::<P>()?,
        },
        "PermissionNotFoundToRevoke" => LogError::PermissionNotFoundToRevoke {
            key_id: id(alloc, subject)?,
            permission: permission.parse::<P>()?,
        },
        "ProtocolVersionNotAllowed" => LogError::ProtocolVersionNotAllowed {
            version: subject.parse::<u32>()?,
        },
        _ => without_fields(case)?,
    })
}

fn without_fields<P>(case: &str) -> Result<LogError<P>, RowError> {
    Ok(match case {
        "FirstEntryIsNotInit" => LogError::FirstEntryIsNotInit,
        "InitialRecordDoesNotInit" => LogError::InitialRecordDoesNotInit,
        "InitialEntryAfterBeginning" => LogError::InitialEntryAfterBeginning,
        "SignatureError" => LogError::SignatureError(SignatureError::Refused),
        "IncorrectHashAlgorithm" => LogError::IncorrectHashAlgorithm {
            found: HashAlgorithm::Sha256,
            expected: HashAlgorithm::Sha256,
        },
        "RecordHashDoesNotMatch" => LogError::RecordHashDoesNotMatch,
        "PreviousHashOnFirstRecord" => LogError::PreviousHashOnFirstRecord,
        "NoPreviousHashAfterInit" => LogError::NoPreviousHashAfterInit,
        "TimestampLowerThanPrevious" => LogError::TimestampLowerThanPrevious,
        "OutOfMemory" => LogError::OutOfMemory,
        _ => return Err(RowError::new("a strange error")),
    })
}

/// A case and its field.
pub fn with<T: Display>(alloc: Global, case: &str, field: &T) -> Result<String, RowError> {
    Ok(format!(in alloc; "{case} {field}")?)
}

/// A case, the person whose key it is about, and a permission.
pub fn with_permission<P: Display>(
    alloc: Global,
    case: &str,
    key_id: &KeyID,
    permission: &P,
) -> Result<String, RowError> {
    Ok(format!(in alloc; "{case} {} {permission}", owner(key_id))?)
}
