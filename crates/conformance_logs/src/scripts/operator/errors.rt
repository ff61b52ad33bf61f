//! The errors of operator logs, in words.
use crate::scripts::log_error::{log_error, with, with_permission};
use crate::scripts::people::owner;
use conformance_rows::RowError;
use std::alloc::Global;
use warg_protocol::operator::{Permission, ValidationError};

/// The error that words say: its case, a person or a namespace, and a permission.
pub fn error(
    alloc: Global,
    case: &str,
    subject: &str,
    permission: &str,
) -> Result<ValidationError, RowError> {
    Ok(match case {
        "InvalidNamespace" => ValidationError::InvalidNamespace {
            namespace: String::from_str(alloc, subject)?,
        },
        "NamespaceAlreadyDefined" => ValidationError::NamespaceAlreadyDefined {
            namespace: String::from_str(alloc, subject)?,
        },
        _ => ValidationError::from(log_error::<Permission>(alloc, case, subject, permission)?),
    })
}

/// The error in words, as `error` reads them.
pub fn words(alloc: Global, error: &ValidationError) -> Result<String, RowError> {
    let name = error.name();
    match error {
        ValidationError::KeyIDNotRecognized { key_id } | ValidationError::EmptyGrant { key_id } => {
            with(alloc, name, &owner(key_id))
        }
        ValidationError::UnauthorizedAction {
            key_id,
            needed_permission: permission,
        }
        | ValidationError::PermissionNotFoundToRevoke { key_id, permission } => {
            with_permission(alloc, name, key_id, permission)
        }
        ValidationError::ProtocolVersionNotAllowed { version } => with(alloc, name, version),
        ValidationError::InvalidNamespace { namespace }
        | ValidationError::NamespaceAlreadyDefined { namespace } => with(alloc, name, namespace),
        _ => Ok(String::from_str(alloc, name)?),
    }
}
