//! What a record of a package log holds.

ghost use Rattle.std.specs.Prelude.{◌≡◌, IfOk};
ghost use Rattle.semver.specs.Identifiers.{parts_of};
ghost use Rattle.std.specs.Option.{option_copied};
ghost use Rattle.warg_log_records.specs.PackageEntries.{entry_data, required_permission_of, content_of};

use crate::log_record::LogRecord;
use semver::Version;
use std::alloc::AllocError;
use warg_crypto::hash::{AnyHash, HashAlgorithm};
use warg_crypto::signing::{KeyID, PublicKey};
use warg_permissions::package::Permission;

/// A record of a package log.
pub type PackageRecord = LogRecord<PackageEntry>;

/// An entry of a package record.
#[derive(Debug, Drop, PartialEq, Eq)]
pub enum PackageEntry {
    /// Begins the log. It stands as the log's first entry, and nowhere else.
    Init {
        /// The algorithm of the log's hashes.
        hash_algorithm: HashAlgorithm,
        /// The key of the package's first maintainer.
        key: PublicKey,
    },
    /// Gives permissions to a key. The signer must hold them.
    GrantFlat {
        /// The key.
        key: PublicKey,
        /// What it may do from now on.
        permissions: Vec<Permission>,
    },
    /// Takes permissions from a key. The signer must hold them.
    RevokeFlat {
        /// The id of the key.
        key_id: KeyID,
        /// What it may no longer do.
        permissions: Vec<Permission>,
    },
    /// Releases a version, which must not have been released before.
    Release {
        /// The version.
        version: Version,
        /// The hash of what is released.
        content: AnyHash,
    },
    /// Takes a released version back.
    Yank {
        /// The version.
        version: Version,
    },
}

impl PackageEntry {
    /// The permission that the signer must hold for an entry of this kind, if any.
    pub fn required_permission(&self) -> Option<Permission>
        ensures { result ≡ required_permission_of (entry_data self.now) }
    {
        match self {
            PackageEntry::Init { .. }
            | PackageEntry::GrantFlat { .. }
            | PackageEntry::RevokeFlat { .. } => None,
            PackageEntry::Release { .. } => Some(Permission::Release),
            PackageEntry::Yank { .. } => Some(Permission::Yank),
        }
    }

    /// The hash of what is released, if the entry is a release.
    pub fn content(&self) -> Option<&AnyHash>
        ensures { option_copied result ≡ content_of (entry_data self.now) }
    {
        match self {
            PackageEntry::Release { content, .. } => Some(content),
            _ => None,
        }
    }

    /// A copy.
    pub fn try_clone(&self) -> Result<PackageEntry, AllocError>
        ensures { IfOk result (λ e. entry_data e ≡ entry_data self.now) }
    {
        self.clone()
    }
}

fn clone_version(version: &Version) -> Result<Version, AllocError>
    ensures { IfOk result (λ v. parts_of v ≡ parts_of version.now) }
{
    version.clone()
}

impl Clone for PackageEntry {
    ghost is_clone = { λ a b. entry_data b ≡ entry_data a };

    fn clone(&self) -> Result<PackageEntry, AllocError> {
        Ok(match self {
            PackageEntry::Init {
                hash_algorithm,
                key,
            } => PackageEntry::Init {
                hash_algorithm: *hash_algorithm,
                key: key.clone()?,
            },
            PackageEntry::GrantFlat { key, permissions } => PackageEntry::GrantFlat {
                key: key.clone()?,
                permissions: permissions.clone()?,
            },
            PackageEntry::RevokeFlat {
                key_id,
                permissions,
            } => PackageEntry::RevokeFlat {
                key_id: key_id.clone()?,
                permissions: permissions.clone()?,
            },
            PackageEntry::Release { version, content } => PackageEntry::Release {
                version: clone_version(version)?,
                content: *content,
            },
            PackageEntry::Yank { version } => PackageEntry::Yank {
                version: clone_version(version)?,
            },
        })
    }
}
