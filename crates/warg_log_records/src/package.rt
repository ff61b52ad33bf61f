//! Records of package logs.

ghost use Rattle.std.specs.Prelude.{◌≡◌, codes, IfOk, Ok, Option};
ghost use Rattle.std.specs.List.{AllByRecursion};
ghost use Rattle.std.proofs.Common.{refl};
ghost use Rattle.warg_protobuf.specs.PackageEntry.{PackageMember, package_entry_view, package_entry_table, package_entry_from};
ghost use Rattle.warg_protobuf.specs.PackageRecord.{IsPackageRecord, package_record_bytes};
ghost use Rattle.warg_envelope.specs.Faults.{RecordFault, decode_result, fault_of};
ghost use Rattle.warg_envelope.specs.FaultLaws.{decoded_is_read, decode_result-memory, fault_of-memory, fault_of-one};
ghost use Rattle.warg_log_records.specs.RecordData.{RecordData};
ghost use Rattle.warg_log_records.specs.PackageEntries.{PackageOwnEntry, content_of, entry_data, mentions, record_data};
ghost use Rattle.warg_log_records.specs.PackageReading.{package_entry_of, package_record_of};
ghost use Rattle.warg_log_records.specs.PackageWriting.{package_content_of, package_entry_message, package_record_message};
ghost use Rattle.warg_log_records.specs.WellFormed.{IsReadable, IsWellFormedPackageOwnEntry};
ghost use Rattle.warg_permissions.specs.declared.package.Permission.{Permission};

mod model;
mod reading;
mod writing;

use crate::RECORD_VERSION;
use crate::laws::{package_records_are_whole, record_reading_computes};
use crate::log_entry::LogEntry;
use crate::log_record::LogRecord;
use crate::mention::{self, Mention};
pub use model::{PackageEntry, PackageRecord};
use std::alloc::{AllocError, Global};
use warg_crypto::hash::AnyHash;
use warg_crypto::{Decode, DecodeError, Encode, Signable};
use warg_envelope::Record;
use warg_maps::NameSet;
pub use warg_permissions::package::Permission;
use warg_protobuf as message;
use warg_protobuf::laws::fields_give_values;
use warg_protobuf::{Message, WireError};

/// The newest version of the protocol that a package record may have.
pub const PACKAGE_RECORD_VERSION: u32 = RECORD_VERSION;

impl LogEntry for PackageEntry {
    type Message = message::PackageEntry;

    ghost MessageView = { Option PackageMember };

    ghost message_view = { package_entry_view };

    ghost table = { package_entry_table };

    ghost message_view_from = { package_entry_from };

    ghost IsMessage = { IsPackageRecord };

    ghost message_bytes = { package_record_bytes };

    ghost Permission = { Permission };

    ghost Own = { PackageOwnEntry };

    ghost plain = { entry_data };

    ghost read = { package_entry_of };

    ghost read_record = { package_record_of };

    ghost entry_message = { package_entry_message };

    ghost written_message = { λ e. package_entry_message (entry_data e) };

    ghost record_bytes = { package_content_of };

    ghost IsWellFormedOwn = { IsWellFormedPackageOwnEntry };

    ghost AreReadable = { AllByRecursion IsReadable };

    ghost writes_plain = { λ e. refl };

    ghost clones = { λ a b same. same };

    fn from_message(
        alloc: Global,
        message: message::PackageEntry,
    ) -> Result<PackageEntry, DecodeError> {
        PackageEntry::from_proto(alloc, message)
    }

    fn decode_message(alloc: Global, bytes: &[u8]) -> Result<message::PackageEntry, WireError> {
        message::PackageEntry::decode(alloc, bytes)
    }

    fn to_message(&self, alloc: Global) -> Result<message::PackageEntry, AllocError> {
        self.to_proto(alloc)
    }

    fn encode_message(
        alloc: Global,
        message: &message::PackageRecord,
    ) -> Result<Vec<u8>, AllocError> {
        message.encode(alloc)
    }

    fn record_is_whole(whole: &PackageRecord) {
        package_records_are_whole(whole);
    }

    fn laws() {
        fields_give_values::<message::PackageEntry>();
        record_reading_computes();
    }
}

impl Decode for PackageRecord {
    ghost Plain = { RecordData Permission PackageOwnEntry };

    ghost plain = { record_data };

    ghost decodes = { λ content. decode_result (package_record_of content) };

    fn decode(alloc: Global, bytes: &[u8]) -> Result<PackageRecord, DecodeError> {
        LogRecord::read(alloc, bytes)
    }
}

impl Encode for PackageRecord {
    ghost encoding = { λ r. package_content_of (record_data r) };

    fn encode(&self, alloc: Global) -> Result<Vec<u8>, AllocError>
        ensures spelled { IfOk result (λ v. v.items ≡ package_content_of (record_data self.now)) }

        // What is written is the message of the record, and reads back as the record.
        ensures read_again { IfOk result (λ v. IsPackageRecord v.items
            (package_record_message (record_data self.now))) }
        ensures same { AllByRecursion IsReadable (record_data self.now).entries →
            IfOk result (λ v. package_record_of v.items ≡ Ok (record_data self.now)) }
    {
        self.write(alloc)
    }
}

impl Signable for PackageRecord {
    const PREFIX: &'static str = "WARG-PACKAGE-RECORD-SIGNATURE-V0";

    ghost signed_prefix = { codes "WARG-PACKAGE-RECORD-SIGNATURE-V0" };

    fn signing_prefix() -> &'static str {
        Self::PREFIX
    }
}

impl Record for PackageRecord {
    ghost Meaning = { RecordData Permission PackageOwnEntry };

    ghost meaning = { record_data };

    ghost Fault = { RecordFault };

    ghost fault_of = { fault_of };

    ghost read = { package_record_of };

    ghost reading = { record {} };

    ghost decodes_reading = { λ b r h. decoded_is_read record_data (package_record_of b) r h };

    ghost memory_tells_none = { refl };

    ghost memory_alone = { fault_of-memory };

    ghost one_fault = { fault_of-one };

    ghost no_fault_of_memory = { λ b. decode_result-memory (package_record_of b) };

    ghost means_plain = { λ a b. (λ same. same, λ same. same) };

    ghost mentions = { mentions };

    fn contents(&self, alloc: Global) -> Result<NameSet<AnyHash>, AllocError> {
        mention::mentions(alloc, self.entries.as_slice())
    }

    fn try_clone(&self) -> Result<PackageRecord, AllocError> {
        self.copied()
    }
}

impl Clone for PackageRecord {
    ghost is_clone = { λ a b. record_data b ≡ record_data a };

    fn clone(&self) -> Result<PackageRecord, AllocError> {
        self.try_clone()
    }
}

impl Mention for PackageEntry {
    type Item = AnyHash;

    ghost mention_of = { λ e. content_of (entry_data e) };

    fn mention(&self) -> Option<AnyHash> {
        self.content().copied()
    }
}
