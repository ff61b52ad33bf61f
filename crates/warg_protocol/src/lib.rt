//! The protocol of a package registry: records of operator and package logs in signed envelopes, the
//! states that they add up to, the reading of whole logs, and logs that are kept and compared.
//!
//! A program that lists this crate reaches most of what it needs: this crate re-exports what the crates below
//! prove, their laws in `laws`, and in `specs/` what a clause of one's own may cite. Who calls `from_proto` or `to_proto`
//! names `warg_protobuf` too, and who calls `to_value` or `from_value` names `serde_json`.
#![tactic(auto)]

pub mod external;
pub mod host;
pub mod json;
pub mod laws;
pub mod operator;
pub mod p256;
pub mod package;
pub mod registry;
pub mod transparency;

pub use indexmap::IndexSet;
pub use semver::Error as VersionParseError;
pub use warg_crypto::json::{Incoherence, JsonError, JsonValue};
pub use warg_crypto::time::{Clock, SystemClock, TimeError, Timestamp};
pub use warg_crypto::{
    ByteVisitor, Decode, DecodeError, Encode, Signable, VisitBytes, WireFault, digits, hash,
    prefix, signing, toy,
};
pub use warg_envelope::{
    ParseEnvelopeError, ProtoEnvelope, ProtoEnvelopeBody, PublishedProtoEnvelope,
    PublishedProtoEnvelopeBody, Record, SerdeEnvelope,
};
pub use warg_log_records::{LogRecord, Version, VersionReq};
pub use warg_maps::NameSet;
pub use warg_permissions::{InvalidPermission, PermissionParseError};
pub use warg_protobuf::{Envelope, EnvelopeView, Message, WireError};
pub use warg_replay::audited_log::{
    AuditedLog, AuditedRecords, Comparison, ExternallyVerifiedLog,
    ExternallyVerifiedLog as HostedLog, HeadComparison, Link,
};
pub use warg_replay::{
    Effect, Named, PersistentState, RunCause, RunError, Validator, run, run_from,
};
pub use warg_saved_states::JsonTextError;
