//! Reading records of package logs from their messages.

ghost use Rattle.std.specs.Prelude.{◌≡◌, ◌↔◌, IsTrue};
ghost use Rattle.semver.specs.Parse.{memory_error};
ghost use Rattle.semver.specs.Identifiers.{parts_of};
ghost use Rattle.warg_protobuf.specs.Release.{release_view};
ghost use Rattle.warg_protobuf.specs.Yank.{yank_view};
ghost use Rattle.warg_protobuf.specs.PackageEntry.{package_entry_view};
ghost use Rattle.warg_protobuf.specs.PackageRecord.{package_record_view};
ghost use Rattle.warg_envelope.specs.Faults.{fault_of, IsReading};
ghost use Rattle.warg_log_records.specs.PackageEntries.{entry_data, record_data};
ghost use Rattle.warg_log_records.specs.PackageReading.{package_entry_of, release_of, version_of, yank_of};
ghost use Rattle.warg_log_records.specs.RecordReading.{own_entry, record_of};

use crate::log_record::LogRecord;
use crate::package::{PackageEntry, PackageRecord, Permission};
use crate::reading::{read_grant, read_init, read_revoke};
use semver::Version;
use std::alloc::{AllocError, Global};
use std::str::FromStr;
use warg_crypto::DecodeError;
use warg_crypto::hash::AnyHash;
use warg_protobuf as message;
use warg_protobuf::package_entry::Contents;
use warg_protobuf::{PackageRelease, PackageYank};

// Whether parsing a version found no memory.
fn is_memory_error(error: semver::Error) -> bool
    ensures { IsTrue result ↔ (error ≡ memory_error) }
{
    error == semver::Error::from(AllocError)
}

fn read_version(alloc: Global, text: &str) -> Result<Version, DecodeError>
    ensures { IsReading parts_of fault_of (version_of text.now) result }
{
    match Version::parse(alloc, text) {
        Ok(version) => Ok(version),
        Err(error) => Err(if is_memory_error(error) {
            DecodeError::OutOfMemory
        } else {
            DecodeError::Version
        }),
    }
}

fn read_release(alloc: Global, message: PackageRelease) -> Result<PackageEntry, DecodeError>
    ensures { IsReading entry_data fault_of (own_entry (release_of (release_view message))) result }
{
    let version = read_version(alloc, message.version.as_str())?;
    match AnyHash::from_str(message.content_hash.as_str()) {
        Ok(content) => Ok(PackageEntry::Release { version, content }),
        Err(error) => Err(DecodeError::ContentHash(error)),
    }
}

fn read_yank(alloc: Global, message: PackageYank) -> Result<PackageEntry, DecodeError>
    ensures { IsReading entry_data fault_of (own_entry (yank_of (yank_view message))) result }
{
    let version = read_version(alloc, message.version.as_str())?;
    Ok(PackageEntry::Yank { version })
}

impl PackageEntry {
    /// The entry that a message says, or its first fault.
    pub fn from_proto(
        alloc: Global,
        message: message::PackageEntry,
    ) -> Result<PackageEntry, DecodeError>
        ensures { IsReading entry_data fault_of (package_entry_of (package_entry_view message))
            result }
    {
        let Some(contents) = message.contents else {
            return Err(DecodeError::EmptyEntry);
        };
        match contents {
            Contents::Init(init) => {
                let (hash_algorithm, key) = read_init(alloc, init)?;
                Ok(PackageEntry::Init {
                    hash_algorithm,
                    key,
                })
            }
            Contents::GrantFlat(grant) => {
                let (key, permissions) = read_grant::<Permission>(alloc, grant)?;
                Ok(PackageEntry::GrantFlat { key, permissions })
            }
            Contents::RevokeFlat(revoke) => {
                let (key_id, permissions) = read_revoke::<Permission>(alloc, revoke)?;
                Ok(PackageEntry::RevokeFlat {
                    key_id,
                    permissions,
                })
            }
            Contents::Release(release) => read_release(alloc, release),
            Contents::Yank(yank) => read_yank(alloc, yank),
        }
    }
}

impl PackageRecord {
    /// The record that a message says, or its first fault: of the link, of the time, then of the entries in order.
    pub fn from_proto(
        alloc: Global,
        message: message::PackageRecord,
    ) -> Result<PackageRecord, DecodeError>
        ensures { IsReading record_data fault_of
            (record_of package_entry_of (package_record_view message)) result }
    {
        LogRecord::from_message(alloc, message)
    }
}
