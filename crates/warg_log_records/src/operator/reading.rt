//! Reading records of operator logs from their messages.

ghost use Rattle.warg_protobuf.specs.OperatorEntry.{operator_entry_view};
ghost use Rattle.warg_protobuf.specs.OperatorRecord.{operator_record_view};
ghost use Rattle.warg_envelope.specs.Faults.{fault_of, IsReading};
ghost use Rattle.warg_log_records.specs.OperatorEntries.{entry_data, record_data};
ghost use Rattle.warg_log_records.specs.OperatorReading.{operator_entry_of};
ghost use Rattle.warg_log_records.specs.RecordReading.{record_of};

use crate::log_record::LogRecord;
use crate::operator::{OperatorEntry, OperatorRecord, Permission};
use crate::reading::{read_grant, read_init, read_revoke};
use std::alloc::Global;
use warg_crypto::DecodeError;
use warg_protobuf as message;
use warg_protobuf::operator_entry::Contents;

impl OperatorEntry {
    /// The entry that a message says, or its first fault.
    pub fn from_proto(
        alloc: Global,
        message: message::OperatorEntry,
    ) -> Result<OperatorEntry, DecodeError>
        ensures { IsReading entry_data fault_of (operator_entry_of (operator_entry_view message))
            result }
    {
        let Some(contents) = message.contents else {
            return Err(DecodeError::EmptyEntry);
        };
        match contents {
            Contents::Init(init) => {
                let (hash_algorithm, key) = read_init(alloc, init)?;
                Ok(OperatorEntry::Init {
                    hash_algorithm,
                    key,
                })
            }
            Contents::GrantFlat(grant) => {
                let (key, permissions) = read_grant::<Permission>(alloc, grant)?;
                Ok(OperatorEntry::GrantFlat { key, permissions })
            }
            Contents::RevokeFlat(revoke) => {
                let (key_id, permissions) = read_revoke::<Permission>(alloc, revoke)?;
                Ok(OperatorEntry::RevokeFlat {
                    key_id,
                    permissions,
                })
            }
            Contents::DefineNamespace(define) => {
                Ok(OperatorEntry::DefineNamespace {
                    namespace: define.namespace,
                })
            }
            Contents::ImportNamespace(import) => {
                Ok(OperatorEntry::ImportNamespace {
                    namespace: import.namespace,
                    registry: import.registry,
                })
            }
        }
    }
}

impl OperatorRecord {
    /// The record that a message says, or its first fault: of the link, of the time, then of the entries in order.
    pub fn from_proto(
        alloc: Global,
        message: message::OperatorRecord,
    ) -> Result<OperatorRecord, DecodeError>
        ensures { IsReading record_data fault_of
            (record_of operator_entry_of (operator_record_view message)) result }
    {
        LogRecord::from_message(alloc, message)
    }
}
