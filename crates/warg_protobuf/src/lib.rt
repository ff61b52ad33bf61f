//! The messages of the Warg protocol in the proto3 wire format: read with the first fault named, and written.
#![tactic(auto)]

mod define_namespace;
mod entry;
mod envelope;
mod error;
mod field;
mod grant_flat;
mod import_namespace;
mod init;
pub mod laws;
mod message;
mod message_draft;
mod nested;
pub mod operator_entry;
pub mod package_entry;
mod record;
mod release;
mod revoke_flat;
mod shape;
mod signed;
mod text;
mod timestamp;
mod varint;
mod writing;
mod yank;

pub use define_namespace::OperatorDefineNamespace;
pub use envelope::{Envelope, EnvelopeView};
pub use error::WireError;
pub use grant_flat::{GrantFlat, OperatorGrantFlat, PackageGrantFlat};
pub use import_namespace::OperatorImportNamespace;
pub use init::{Init, OperatorInit, PackageInit};
pub use message::Message;
pub use operator_entry::OperatorEntry;
pub use package_entry::PackageEntry;
pub use record::{EntrySink, OperatorRecord, PackageRecord, Record};
pub use release::PackageRelease;
pub use revoke_flat::{OperatorRevokeFlat, PackageRevokeFlat, RevokeFlat};
pub use timestamp::TimestampPair;
pub use yank::PackageYank;
