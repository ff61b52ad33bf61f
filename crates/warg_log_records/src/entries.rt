//! The entries of a record, each made of its message as soon as that is read.

ghost use Rattle.std.specs.Prelude.{◌≡◌, ◌≢◌, List, [], map, fold, IfOk, IfErr, OnOk, Result, Ok};
ghost use Rattle.warg_crypto.specs.declared.coding.DecodeError.TheVariants.{OutOfMemory};
ghost use Rattle.warg_protobuf.specs.Record.{record_table, record_from, record_view, gathered_of};
ghost use Rattle.warg_protobuf.specs.Values.{message_of as wire_message_of};
ghost use Rattle.warg_log_records.specs.Entries.{entries_held, next_entry};
ghost use Rattle.warg_envelope.specs.Faults.{RecordFault, fault_of, IsReading};
ghost use Rattle.warg_log_records.specs.RecordData.{EntryData};
ghost use Rattle.warg_log_records.specs.RecordReading.{message_of};

use crate::kept_fault::KeptFault;
use crate::log_entry::LogEntry;
use crate::reading::wire_error;
use std::alloc::{AllocError, Global};
use warg_crypto::DecodeError;
use warg_protobuf::{EntrySink, Record, WireError};

/// The entries that were read so far, up to the first fault of one.
#[derive(Drop)]
pub(crate) struct Entries<T> {
    entries: Vec<T>,
    fault: Option<KeptFault>,
}

impl<T: LogEntry> EntrySink for Entries<T> {
    ghost table = { T.table };

    ghost Entry = { T.MessageView };

    ghost entry_from = { T.message_view_from };

    ghost SinkData = { Result (List (EntryData T.Permission T.Own)) RecordFault };

    ghost sink_data = { entries_held T.plain };

    ghost no_entries = { Ok [] };

    ghost with_entry = { next_entry T.read };

    fn new(alloc: Global) -> Entries<T> {
        Entries {
            entries: Vec::new(alloc),
            fault: None,
        }
    }

    fn take(&mut self, alloc: Global, bytes: &[u8]) -> Result<(), WireError> {
        let message = T::decode_message(alloc, bytes)?;
        Ok(self.add(alloc, message)?)
    }

    fn laws() {
        T::laws();
    }
}

impl<T: LogEntry> Entries<T> {
    /// Adds the next entry. Behind a fault none counts.
    fn add(&mut self, alloc: Global, message: T::Message) -> Result<(), AllocError>
        ensures { OnOk result (entries_held T.plain self.new ≡
            next_entry T.read (entries_held T.plain self.old) (T.message_view message)) }
    {
        if self.fault.is_some() {
            return Ok(());
        }
        match T::from_message(alloc, message) {
            Ok(entry) => self.entries.push(entry)?,
            Err(DecodeError::OutOfMemory) => return Err(AllocError),
            Err(error) => self.fault = Some(KeptFault { error }),
        }
        Ok(())
    }

    /// All entries, or the first fault.
    pub(crate) fn finish(self) -> Result<Vec<T>, DecodeError>
        ensures given { IsReading (λ v. map T.plain v.items) fault_of
            (entries_held T.plain self) result }
        ensures no_memory { IfErr result (λ e. e ≢ OutOfMemory) }
    {
        match self.fault {
            Some(fault) => Err(fault.error),
            None => Ok(self.entries),
        }
    }
}

/// The entries of all messages, in order, up to the first fault.
pub(crate) fn read_each<T: LogEntry>(
    alloc: Global,
    messages: Vec<T::Message>,
) -> Result<Entries<T>, AllocError>
    ensures { IfOk result (λ s. entries_held T.plain s ≡ fold (next_entry T.read) (Ok [])
        (map T.message_view messages.items)) }
{
    let mut entries = Entries::<T>::new(alloc);
    for message in messages {
        entries.add(alloc, message)?;
    }
    Ok(entries)
}

/// The record that content bytes say. The link and the time are still as they were written.
pub(crate) fn read_content<T: LogEntry>(
    alloc: Global,
    content: &[u8],
) -> Result<Record<Entries<T>>, DecodeError>
    ensures { IsReading (record_view (entries_held T.plain)) fault_of
        (message_of (gathered_of (next_entry T.read) (Ok [])
        (wire_message_of (record_table T.table) (record_from T.table T.message_view_from)
        content.now))) result }
{
    match Record::<Entries<T>>::gather(alloc, content) {
        Ok(record) => Ok(record),
        Err(error) => Err(wire_error(error)),
    }
}
