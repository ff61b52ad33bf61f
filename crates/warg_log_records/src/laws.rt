//! Laws of the definitions, and of the types that rest on them.

ghost use Rattle.std.specs.Prelude.{◌≡◌, ◌↔◌, List, ℕ, IfErr, length, true};
ghost use Rattle.hex.specs.Hex.{IsBytes};
ghost use Rattle.warg_crypto.specs.HashText.{hash_text};
ghost use Rattle.warg_envelope.specs.EnvelopeRelations.{ReadsEnvelope};
ghost use Rattle.warg_envelope.specs.Envelopes.{envelope_of};
ghost use Rattle.warg_protobuf.specs.OperatorRecord.{IsOperatorRecord, operator_record_table};
ghost use Rattle.warg_protobuf.specs.PackageRecord.{IsPackageRecord, package_record_table};
ghost use Rattle.warg_log_records.specs.OfBytes.{IsOfContent, IsOfEnvelope};
ghost use Rattle.warg_log_records.specs.OperatorEntries as in_operator;
ghost use Rattle.warg_log_records.specs.OperatorReading.{operator_entry_of, operator_record_of};
ghost use Rattle.warg_log_records.specs.PackageEntries as in_package;
ghost use Rattle.warg_log_records.specs.PackageReading.{package_entry_of, package_record_of};
ghost use Rattle.warg_log_records.specs.RecordIds.{id_of_text};
ghost use Rattle.warg_log_records.specs.Relations.{HasRecordFault, IsRecord, ReadsRecord};
ghost use Rattle.warg_log_records.specs.declared.effect.Effect.{Effect};
ghost use Rattle.warg_log_records.specs.declared.log_record.LogRecord.{LogRecord};
ghost use Rattle.warg_log_records.specs.declared.operator.model.OperatorEntry.{OperatorEntry};
ghost use Rattle.warg_log_records.specs.declared.package.model.PackageEntry.{PackageEntry};
ghost use Rattle.warg_log_records.specs.declared.record_id.RecordId.{RecordId};

mod record_ids;
mod whole;

use crate::effect::Effect;
use crate::log_record::LogRecord;
use crate::operator::OperatorEntry;
use crate::package::PackageEntry;
use crate::record_id::RecordId;
pub use record_ids::{clone_record_id, compare_record_ids, feed_record_id, print_record_id};
use warg_crypto::laws::hash_reads_back;
use warg_protobuf::laws::{decoding_computes, exactly_one};
pub use whole::{operator_records_are_whole, package_records_are_whole};

/// What is written of a record's id reads back.
pub fn record_id_reads_back()
    ensures { (id : RecordId) → length id.hash.bytes ≡ 32 → IsBytes id.hash.bytes →
        id_of_text (hash_text id.hash) ≡ Ok id }
{
    hash_reads_back();
}

/// What is computed of content bytes is the record that they are, or their first fault.
pub fn record_reading_computes()
    ensures of_package { (content : List ℕ) →
        ReadsRecord package_record_table IsPackageRecord package_entry_of
        (package_record_of content) content }
    ensures of_operator { (content : List ℕ) →
        ReadsRecord operator_record_table IsOperatorRecord operator_entry_of
        (operator_record_of content) content }
{
    decoding_computes();
}

/// What is computed of bytes is the envelope that they are, or their first fault.
pub fn envelope_reading_computes()
    ensures of_package { (bytes : List ℕ) → ReadsEnvelope
        (IsRecord package_record_table IsPackageRecord package_entry_of)
        (HasRecordFault package_record_table IsPackageRecord package_entry_of)
        (envelope_of package_record_of bytes) bytes }
    ensures of_operator { (bytes : List ℕ) → ReadsEnvelope
        (IsRecord operator_record_table IsOperatorRecord operator_entry_of)
        (HasRecordFault operator_record_table IsOperatorRecord operator_entry_of)
        (envelope_of operator_record_of bytes) bytes }
{
    decoding_computes();
    record_reading_computes();
}

/// No reading of bytes ends with out of memory, at the top or inside another fault.
pub fn no_fault_of_memory()
    ensures of_package { (content : List ℕ) → IfErr (package_record_of content) IsOfContent }
    ensures of_operator { (content : List ℕ) → IfErr (operator_record_of content) IsOfContent }
    ensures of_package_envelope { (bytes : List ℕ) →
        IfErr (envelope_of package_record_of bytes) IsOfEnvelope }
    ensures of_operator_envelope { (bytes : List ℕ) →
        IfErr (envelope_of operator_record_of bytes) IsOfEnvelope }
{
    decoding_computes();
    exactly_one();
}

/// When `==` is true: of entries and of records exactly where their plain data are identical, of ids of records and of
/// effects exactly where both are.
pub fn equality()
    ensures package_entries { (a b : PackageEntry) → (⟦<PackageEntry as PartialEq>⟧.eq a b ≡ true) ↔
        (in_package.entry_data a ≡ in_package.entry_data b) }
    ensures operator_entries { (a b : OperatorEntry) →
        (⟦<OperatorEntry as PartialEq>⟧.eq a b ≡ true) ↔
        (in_operator.entry_data a ≡ in_operator.entry_data b) }
    ensures package_records { (a b : LogRecord PackageEntry) →
        (⟦<LogRecord<PackageEntry> as PartialEq>⟧.eq a b ≡ true) ↔
        (in_package.record_data a ≡ in_package.record_data b) }
    ensures operator_records { (a b : LogRecord OperatorEntry) →
        (⟦<LogRecord<OperatorEntry> as PartialEq>⟧.eq a b ≡ true) ↔
        (in_operator.record_data a ≡ in_operator.record_data b) }
    ensures record_ids { (a b : RecordId) → (⟦<RecordId as PartialEq>⟧.eq a b ≡ true) ↔ (a ≡ b) }
    ensures effects { (a b : Effect) → (⟦<Effect as PartialEq>⟧.eq a b ≡ true) ↔ (a ≡ b) }
{}
