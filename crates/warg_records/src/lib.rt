//! Records of both kinds of log in signed envelopes: re-exports of what the crates below prove. `warg_envelope` has the
//! envelopes, `warg_log_records` the records and their ids, `warg_permissions` the permissions, and `warg_registry` the names
//! of a registry.
#![tactic(auto)]

pub mod operator;
pub mod package;
pub mod registry;

pub use warg_crypto::DecodeError;
pub use warg_envelope::{
    ParseEnvelopeError, ProtoEnvelope, ProtoEnvelopeBody, PublishedProtoEnvelope,
    PublishedProtoEnvelopeBody, Record, SerdeEnvelope,
};
pub use warg_log_records::{LogRecord, Version, VersionReq};
pub use warg_permissions::{InvalidPermission, PermissionParseError};
