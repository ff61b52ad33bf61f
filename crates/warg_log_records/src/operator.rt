//! Records of operator logs.

ghost use Rattle.std.specs.Prelude.{◌≡◌, codes, IfOk, Ok, Option, []};
ghost use Rattle.std.proofs.Common.{refl};
ghost use Rattle.warg_protobuf.specs.OperatorEntry.{OperatorMember, operator_entry_view, operator_entry_table, operator_entry_from};
ghost use Rattle.warg_protobuf.specs.OperatorRecord.{IsOperatorRecord, operator_record_bytes};
ghost use Rattle.warg_envelope.specs.Faults.{RecordFault, decode_result, fault_of};
ghost use Rattle.warg_envelope.specs.FaultLaws.{decoded_is_read, decode_result-memory, fault_of-memory, fault_of-one};
ghost use Rattle.warg_log_records.specs.RecordData.{RecordData};
ghost use Rattle.warg_log_records.specs.OperatorEntries.{OperatorOwnEntry, entry_data, record_data};
ghost use Rattle.warg_log_records.specs.OperatorReading.{operator_entry_of, operator_record_of};
ghost use Rattle.warg_log_records.specs.OperatorWriting.{operator_content_of, operator_entry_message, operator_record_message};
ghost use Rattle.warg_log_records.specs.WellFormed.{AreAnyEntries, IsWellFormedOperatorOwnEntry};
ghost use Rattle.warg_permissions.specs.declared.operator.Permission.{Permission};

mod model;
mod reading;
mod writing;

use crate::RECORD_VERSION;
use crate::laws::{operator_records_are_whole, record_reading_computes};
use crate::log_entry::LogEntry;
use crate::log_record::LogRecord;
pub use model::{OperatorEntry, OperatorRecord};
use std::alloc::{AllocError, Global};
use warg_crypto::hash::AnyHash;
use warg_crypto::{Decode, DecodeError, Encode, Signable};
use warg_envelope::Record;
use warg_maps::NameSet;
pub use warg_permissions::operator::Permission;
use warg_protobuf as message;
use warg_protobuf::laws::fields_give_values;
use warg_protobuf::{Message, WireError};

/// The newest version of the protocol that an operator record may have.
pub const OPERATOR_RECORD_VERSION: u32 = RECORD_VERSION;

impl LogEntry for OperatorEntry {
    type Message = message::OperatorEntry;

    ghost MessageView = { Option OperatorMember };

    ghost message_view = { operator_entry_view };

    ghost table = { operator_entry_table };

    ghost message_view_from = { operator_entry_from };

    ghost IsMessage = { IsOperatorRecord };

    ghost message_bytes = { operator_record_bytes };

    ghost Permission = { Permission };

    ghost Own = { OperatorOwnEntry };

    ghost plain = { entry_data };

    ghost read = { operator_entry_of };

    ghost read_record = { operator_record_of };

    ghost entry_message = { operator_entry_message };

    ghost written_message = { λ e. operator_entry_message (entry_data e) };

    ghost record_bytes = { operator_content_of };

    ghost IsWellFormedOwn = { IsWellFormedOperatorOwnEntry };

    ghost AreReadable = { AreAnyEntries };

    ghost writes_plain = { λ e. refl };

    ghost clones = { λ a b same. same };

    fn from_message(
        alloc: Global,
        message: message::OperatorEntry,
    ) -> Result<OperatorEntry, DecodeError> {
        OperatorEntry::from_proto(alloc, message)
    }

    fn decode_message(alloc: Global, bytes: &[u8]) -> Result<message::OperatorEntry, WireError> {
        message::OperatorEntry::decode(alloc, bytes)
    }

    fn to_message(&self, alloc: Global) -> Result<message::OperatorEntry, AllocError> {
        self.to_proto(alloc)
    }

    fn encode_message(
        alloc: Global,
        message: &message::OperatorRecord,
    ) -> Result<Vec<u8>, AllocError> {
        message.encode(alloc)
    }

    fn record_is_whole(whole: &OperatorRecord) {
        operator_records_are_whole(whole);
    }

    fn laws() {
        fields_give_values::<message::OperatorEntry>();
        record_reading_computes();
    }
}

impl Decode for OperatorRecord {
    ghost Plain = { RecordData Permission OperatorOwnEntry };

    ghost plain = { record_data };

    ghost decodes = { λ content. decode_result (operator_record_of content) };

    fn decode(alloc: Global, bytes: &[u8]) -> Result<OperatorRecord, DecodeError> {
        LogRecord::read(alloc, bytes)
    }
}

impl Encode for OperatorRecord {
    ghost encoding = { λ r. operator_content_of (record_data r) };

    fn encode(&self, alloc: Global) -> Result<Vec<u8>, AllocError>
        ensures spelled { IfOk result (λ v. v.items ≡ operator_content_of (record_data self.now)) }

        // What is written is the message of the record, and reads back as the record.
        ensures read_again { IfOk result (λ v. IsOperatorRecord v.items
            (operator_record_message (record_data self.now))) }
        ensures same { IfOk result (λ v. operator_record_of v.items ≡ Ok (record_data self.now)) }
    {
        self.write(alloc)
    }
}

impl Signable for OperatorRecord {
    const PREFIX: &'static str = "WARG-OPERATOR-RECORD-SIGNATURE-V0";

    ghost signed_prefix = { codes "WARG-OPERATOR-RECORD-SIGNATURE-V0" };

    fn signing_prefix() -> &'static str {
        Self::PREFIX
    }
}

impl Record for OperatorRecord {
    ghost Meaning = { RecordData Permission OperatorOwnEntry };

    ghost meaning = { record_data };

    ghost Fault = { RecordFault };

    ghost fault_of = { fault_of };

    ghost read = { operator_record_of };

    ghost reading = { record {} };

    ghost decodes_reading = { λ b r h. decoded_is_read record_data (operator_record_of b) r h };

    ghost memory_tells_none = { refl };

    ghost memory_alone = { fault_of-memory };

    ghost one_fault = { fault_of-one };

    ghost no_fault_of_memory = { λ b. decode_result-memory (operator_record_of b) };

    ghost means_plain = { λ a b. (λ same. same, λ same. same) };

    ghost mentions = { λ _. [] };

    fn contents(&self, alloc: Global) -> Result<NameSet<AnyHash>, AllocError> {
        Ok(NameSet::new(alloc))
    }

    fn try_clone(&self) -> Result<OperatorRecord, AllocError> {
        self.copied()
    }
}

impl Clone for OperatorRecord {
    ghost is_clone = { λ a b. record_data b ≡ record_data a };

    fn clone(&self) -> Result<OperatorRecord, AllocError> {
        self.try_clone()
    }
}
