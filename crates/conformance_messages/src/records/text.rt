//! The texts of entries and records.
use crate::text_codec::ToText;
use crate::words::word;
use conformance_rows::RowError;
use std::alloc::Global;
use std::fmt::Display;
use warg_log_records::LogRecord;
use warg_log_records::operator::OperatorEntry;
use warg_log_records::package::PackageEntry;

// A kind of entry, whom or what it is about, and a list of permissions.
fn with_permissions<P: Display>(
    alloc: Global,
    verb: &str,
    subject: &str,
    permissions: &[P],
) -> Result<String, RowError> {
    let subject = word(alloc, subject)?;
    let mut text = format!(in alloc; "{verb} {subject}")?;
    for permission in permissions {
        write!(text, " {permission}")?;
    }
    Ok(text)
}

impl ToText for PackageEntry {
    fn text(&self, alloc: Global) -> Result<String, RowError> {
        match self {
            PackageEntry::Init {
                hash_algorithm,
                key,
            } => {
                let key = word(alloc, key.to_text(alloc)?.as_str())?;
                Ok(format!(in alloc; "init {hash_algorithm} {key}")?)
            }
            PackageEntry::GrantFlat { key, permissions } => {
                let key = key.to_text(alloc)?;
                with_permissions(alloc, "grant", key.as_str(), permissions.as_slice())
            }
            PackageEntry::RevokeFlat {
                key_id,
                permissions,
            } => with_permissions(alloc, "revoke", key_id.as_str(), permissions.as_slice()),
            PackageEntry::Release { version, content } => {
                Ok(format!(in alloc; "release {version} {content}")?)
            }
            PackageEntry::Yank { version } => Ok(format!(in alloc; "yank {version}")?),
        }
    }
}

impl ToText for OperatorEntry {
    fn text(&self, alloc: Global) -> Result<String, RowError> {
        match self {
            OperatorEntry::Init {
                hash_algorithm,
                key,
            } => {
                let key = word(alloc, key.to_text(alloc)?.as_str())?;
                Ok(format!(in alloc; "init {hash_algorithm} {key}")?)
            }
            OperatorEntry::GrantFlat { key, permissions } => {
                let key = key.to_text(alloc)?;
                with_permissions(alloc, "grant", key.as_str(), permissions.as_slice())
            }
            OperatorEntry::RevokeFlat {
                key_id,
                permissions,
            } => with_permissions(alloc, "revoke", key_id.as_str(), permissions.as_slice()),
            OperatorEntry::DefineNamespace { namespace } => {
                let namespace = word(alloc, namespace.as_str())?;
                Ok(format!(in alloc; "define {namespace}")?)
            }
            OperatorEntry::ImportNamespace {
                namespace,
                registry,
            } => {
                let namespace = word(alloc, namespace.as_str())?;
                let registry = word(alloc, registry.as_str())?;
                Ok(format!(in alloc; "import {namespace} {registry}")?)
            }
        }
    }
}

impl<E: ToText> ToText for LogRecord<E> {
    fn text(&self, alloc: Global) -> Result<String, RowError> {
        let time = self.timestamp;
        let version = self.version;
        let mut text = format!(in alloc; "{time} v{version}")?;
        if let Some(prev) = &self.prev {
            write!(text, " after {prev}")?;
        }
        let mut separator = ":";
        for entry in &self.entries {
            let entry = entry.text(alloc)?;
            write!(text, "{separator} {entry}")?;
            separator = ",";
        }
        Ok(text)
    }
}
