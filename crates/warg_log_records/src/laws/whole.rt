//! What is true of every record of the program, whatever made it, so that it reads back as it is written.

ghost use Rattle.std.specs.List.{AllByRecursion};
ghost use Rattle.warg_log_records.specs.OperatorEntries as in_operator;
ghost use Rattle.warg_log_records.specs.PackageEntries as in_package;
ghost use Rattle.warg_log_records.specs.WellFormed.{IsReadable, IsWellFormed, IsWellFormedEntry, IsWellFormedHash, IsWellFormedLink, IsWellFormedOperatorOwnEntry, IsWellFormedPackageOwnEntry, IsWellFormedNamedBytes, IsWellFormedTime};

use crate::operator::{OperatorEntry, OperatorRecord};
use crate::package::{PackageEntry, PackageRecord};
use crate::record_id::RecordId;
use warg_crypto::hash::AnyHash;
use warg_crypto::laws::byte_range;
use warg_crypto::signing::PublicKey;
use warg_crypto::time::Timestamp;

fn hash_is_whole(hash: &AnyHash)
    ensures { IsWellFormedHash hash.now }
{
    byte_range(hash.bytes());
}

fn link_is_whole(link: &Option<RecordId>)
    ensures { IsWellFormedLink link.now }
{
    if let Some(id) = link {
        hash_is_whole(&AnyHash::from(*id));
    }
}

fn key_is_whole(key: &PublicKey)
    ensures { IsWellFormedNamedBytes key.now }
{
    let _name = key.algorithm();
    byte_range(key.bytes());
}

fn time_is_whole(time: Timestamp)
    ensures { IsWellFormedTime time }
{
    let _seconds = time.seconds();
    let _nanos = time.nanos();
}

fn package_entry_is_whole(entry: &PackageEntry)
    ensures { IsReadable (in_package.entry_data entry.now) →
        IsWellFormedEntry IsWellFormedPackageOwnEntry (in_package.entry_data entry.now) }
{
    match entry {
        PackageEntry::Init { key, .. } => key_is_whole(key),
        PackageEntry::GrantFlat { key, .. } => key_is_whole(key),
        PackageEntry::Release { content, .. } => hash_is_whole(content),
        PackageEntry::RevokeFlat { .. } | PackageEntry::Yank { .. } => {}
    }
}

fn operator_entry_is_whole(entry: &OperatorEntry)
    ensures { IsWellFormedEntry IsWellFormedOperatorOwnEntry (in_operator.entry_data entry.now) }
{
    match entry {
        OperatorEntry::Init { key, .. } => key_is_whole(key),
        OperatorEntry::GrantFlat { key, .. } => key_is_whole(key),
        OperatorEntry::RevokeFlat { .. }
        | OperatorEntry::DefineNamespace { .. }
        | OperatorEntry::ImportNamespace { .. } => {}
    }
}

/// A package record reads back as it is written wherever the texts of its versions do.
pub fn package_records_are_whole(package_record: &PackageRecord)
    ensures { AllByRecursion IsReadable (in_package.record_data package_record.now).entries →
        IsWellFormed IsWellFormedPackageOwnEntry (in_package.record_data package_record.now) }
{
    link_is_whole(&package_record.prev);
    time_is_whole(package_record.timestamp);
    for entry in &package_record.entries {
        package_entry_is_whole(entry);
    }
}

/// Every operator record reads back as it is written.
pub fn operator_records_are_whole(operator_record: &OperatorRecord)
    ensures { IsWellFormed IsWellFormedOperatorOwnEntry
        (in_operator.record_data operator_record.now) }
{
    link_is_whole(&operator_record.prev);
    time_is_whole(operator_record.timestamp);
    for entry in &operator_record.entries {
        operator_entry_is_whole(entry);
    }
}
