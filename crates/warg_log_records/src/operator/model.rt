//! What a record of an operator log holds.

ghost use Rattle.std.specs.Prelude.{◌≡◌, IfOk};
ghost use Rattle.warg_log_records.specs.OperatorEntries.{entry_data, required_permission_of};

use crate::log_record::LogRecord;
use std::alloc::AllocError;
use warg_crypto::hash::HashAlgorithm;
use warg_crypto::signing::{KeyID, PublicKey};
use warg_permissions::operator::Permission;

/// A record of an operator log.
pub type OperatorRecord = LogRecord<OperatorEntry>;

/// An entry of an operator record.
#[derive(Debug, Drop, PartialEq, Eq)]
pub enum OperatorEntry {
    /// Begins the log. It stands as the log's first entry, and nowhere else.
    Init {
        /// The algorithm of the log's hashes.
        hash_algorithm: HashAlgorithm,
        /// The operator's first key.
        key: PublicKey,
    },
    /// Gives permissions to a key. The signer must hold them.
    GrantFlat {
        /// The key.
        key: PublicKey,
        /// What it may do from now on.
        permissions: Vec<Permission>,
    },
    /// Takes permissions from a key. The signer must hold them.
    RevokeFlat {
        /// The id of the key.
        key_id: KeyID,
        /// What it may no longer do.
        permissions: Vec<Permission>,
    },
    /// Defines a namespace, for packages of the registry's own.
    DefineNamespace {
        /// The namespace.
        namespace: String,
    },
    /// Imports a namespace from another registry.
    ImportNamespace {
        /// The namespace.
        namespace: String,
        /// Where the other registry is.
        registry: String,
    },
}

impl OperatorEntry {
    /// The permission that the signer must hold for an entry of this kind, if any.
    pub fn required_permission(&self) -> Option<Permission>
        ensures { result ≡ required_permission_of (entry_data self.now) }
    {
        match self {
            OperatorEntry::Init { .. } => None,
            OperatorEntry::GrantFlat { .. } | OperatorEntry::RevokeFlat { .. } => {
                Some(Permission::Commit)
            }
            OperatorEntry::DefineNamespace { .. } => Some(Permission::DefineNamespace),
            OperatorEntry::ImportNamespace { .. } => Some(Permission::ImportNamespace),
        }
    }

    /// A copy.
    pub fn try_clone(&self) -> Result<OperatorEntry, AllocError>
        ensures { IfOk result (λ e. entry_data e ≡ entry_data self.now) }
    {
        self.clone()
    }
}

impl Clone for OperatorEntry {
    ghost is_clone = { λ a b. entry_data b ≡ entry_data a };

    fn clone(&self) -> Result<OperatorEntry, AllocError> {
        Ok(match self {
            OperatorEntry::Init {
                hash_algorithm,
                key,
            } => OperatorEntry::Init {
                hash_algorithm: *hash_algorithm,
                key: key.clone()?,
            },
            OperatorEntry::GrantFlat { key, permissions } => OperatorEntry::GrantFlat {
                key: key.clone()?,
                permissions: permissions.clone()?,
            },
            OperatorEntry::RevokeFlat {
                key_id,
                permissions,
            } => OperatorEntry::RevokeFlat {
                key_id: key_id.clone()?,
                permissions: permissions.clone()?,
            },
            OperatorEntry::DefineNamespace { namespace } => OperatorEntry::DefineNamespace {
                namespace: namespace.clone()?,
            },
            OperatorEntry::ImportNamespace {
                namespace,
                registry,
            } => OperatorEntry::ImportNamespace {
                namespace: namespace.clone()?,
                registry: registry.clone()?,
            },
        })
    }
}
