//! The names of errors, which take no memory.

ghost use Rattle.std.specs.Prelude.{◌≡◌};
ghost use Rattle.warg_operator_log.specs.OffenceNames.{error_name};

use crate::error::ValidationError;
use warg_replay::Named;

impl ValidationError {
    /// The name of the error's case, without its fields, as the program prints it. `OutOfMemory` is the name
    /// where memory was refused.
    pub fn name(&self) -> &'static str
        ensures { result.now ≡ error_name self.now }
    {
        match self {
            ValidationError::FirstEntryIsNotInit => "FirstEntryIsNotInit",
            ValidationError::InitialRecordDoesNotInit => "InitialRecordDoesNotInit",
            ValidationError::KeyIDNotRecognized { .. } => "KeyIDNotRecognized",
            ValidationError::InitialEntryAfterBeginning => "InitialEntryAfterBeginning",
            ValidationError::UnauthorizedAction { .. } => "UnauthorizedAction",
            ValidationError::PermissionNotFoundToRevoke { .. } => "PermissionNotFoundToRevoke",
            ValidationError::SignatureError(_) => "SignatureError",
            ValidationError::IncorrectHashAlgorithm { .. } => "IncorrectHashAlgorithm",
            ValidationError::RecordHashDoesNotMatch => "RecordHashDoesNotMatch",
            ValidationError::PreviousHashOnFirstRecord => "PreviousHashOnFirstRecord",
            ValidationError::NoPreviousHashAfterInit => "NoPreviousHashAfterInit",
            ValidationError::ProtocolVersionNotAllowed { .. } => "ProtocolVersionNotAllowed",
            ValidationError::TimestampLowerThanPrevious => "TimestampLowerThanPrevious",
            ValidationError::EmptyGrant { .. } => "EmptyGrant",
            ValidationError::InvalidNamespace { .. } => "InvalidNamespace",
            ValidationError::NamespaceAlreadyDefined { .. } => "NamespaceAlreadyDefined",
            ValidationError::OutOfMemory => "OutOfMemory",
        }
    }
}

impl Named for ValidationError {
    ghost name_of = { error_name };

    fn name(&self) -> &'static str {
        ValidationError::name(self)
    }
}
