//! Records of both kinds of log.

ghost use Rattle.std.specs.Prelude.{◌≡◌, ◌++◌, List, [], map, Result, Ok, OnOk, IfOk, string_bytes};
ghost use Rattle.warg_protobuf.specs.declared.error.WireError.{WireError};
ghost use Rattle.warg_protobuf.specs.MessageDrafts.{timestamp_kept, time_grown, RecordKept, record_kept, no_record, record_with, time_made, record_made, with_last};
ghost use Rattle.warg_protobuf.specs.Field.{Field};
ghost use Rattle.warg_protobuf.specs.Meaning.{GivesValues};
ghost use Rattle.warg_protobuf.specs.Record.{RecordValue, record_table, record_value, record_view, record_from, record_fields, taken_of, gathered_of, IsRecordOf, IsSoundRecord};
ghost use Rattle.warg_protobuf.specs.Timestamp.{timestamp_view};
ghost use Rattle.warg_protobuf.specs.Table.{Table, takes};
ghost use Rattle.warg_protobuf.specs.Values.{message_of};
ghost use Rattle.warg_protobuf.specs.Views.{option_view, ReturnsOrNoMemory};
ghost use Rattle.warg_protobuf.specs.Writing.{bytes_of};

use crate::error::WireError;
use crate::field::{RawField, RawPayload};
use crate::message::Codec;
use crate::message_draft::{MessageDraft, read_draft, read_into};
use crate::nested::{push_list, push_optional};
use crate::operator_entry::OperatorEntry;
use crate::package_entry::PackageEntry;
use crate::text::read_text;
use crate::timestamp::{TimestampDraft, TimestampPair};
use crate::writing::{push_number, push_optional_text};
use std::alloc::{AllocError, Global};

/// A record of a log: what an envelope's contents say. `L` is where its entries are: a list, or another sink.
#[derive(Debug, Drop, PartialEq, Eq)]
pub struct Record<L> {
    /// Field 1: the text of the id of the record before.
    pub prev: Option<String>,
    /// Field 2: the protocol's version.
    pub version: u32,
    /// Field 3: when the record was made.
    pub time: Option<TimestampPair>,
    /// Field 4: the entries, in order.
    pub entries: L,
}

/// A record of a package log.
pub type PackageRecord = Record<Vec<PackageEntry>>;

/// A record of an operator log.
pub type OperatorRecord = Record<Vec<OperatorEntry>>;

/// Where a record's entries go while the record is read: a list of their messages, or what makes something of each
/// at once, so that no list of messages is kept.
pub trait EntrySink: Drop {
    /// The fields of an entry.
    ghost table: { Table };

    /// An entry as plain data.
    ghost Entry: { Type 0 };

    /// What the fields of an entry say, computed.
    ghost entry_from: { List Field → Result Entry WireError };

    /// What the sink holds, as plain data.
    ghost SinkData: { Type 0 };

    ghost sink_data: { Self → SinkData };

    /// What it holds of no entries.
    ghost no_entries: { SinkData };

    /// What it holds once this entry came, by what it held before.
    ghost with_entry: { SinkData → Entry → SinkData };

    /// A sink that holds nothing.
    fn new(alloc: Global) -> Self
        ensures { sink_data result ≡ no_entries };

    /// Takes the next entry, all of the bytes.
    fn take(&mut self, alloc: Global, bytes: &[u8]) -> Result<(), WireError>
        ensures { ReturnsOrNoMemory (λ _. sink_data self.new) result
            (taken_of with_entry (sink_data self.old) (message_of table entry_from bytes.now)) };

    /// Fields that fit say an entry. This has no effect.
    fn laws()
        ensures { GivesValues table entry_from };
}

impl<E: Codec> EntrySink for Vec<E> {
    ghost table = { E.table };

    ghost Entry = { E.View };

    ghost entry_from = { E.value };

    ghost SinkData = { List E.View };

    ghost sink_data = { λ v. map E.view v.items };

    ghost no_entries = { [] };

    ghost with_entry = { with_last };

    fn new(alloc: Global) -> Vec<E> {
        Vec::new(alloc)
    }

    fn take(&mut self, alloc: Global, bytes: &[u8]) -> Result<(), WireError> {
        self.push(E::read(alloc, bytes)?)?;
        Ok(())
    }

    fn laws() {
        E::laws();
    }
}

/// A record that is read: its entries are whole, the rest is where it stands in the bytes.
#[derive(Drop)]
struct RecordDraft<'a, S> {
    alloc: Global,
    prev: Option<&'a str>,
    version: u64,
    time: Option<TimestampDraft>,
    entries: S,
}

impl<'a, S: EntrySink> RecordDraft<'a, S> {
    fn grow_time(&mut self, bytes: &'a [u8]) -> Result<(), WireError>
        ensures given { ReturnsOrNoMemory (λ _. option_view timestamp_kept self.new.time) result
            (time_grown (option_view timestamp_kept self.old.time) bytes.now) }
        ensures others { OnOk result ((self.new.prev ≡ self.old.prev) ×
            (self.new.version ≡ self.old.version) ×
            (self.new.entries ≡ self.old.entries)) }
    {
        let mut time = match self.time {
            Some(time) => time,
            None => TimestampDraft::new(self.alloc),
        };
        read_into(&mut time, bytes)?;
        self.time = Some(time);
        Ok(())
    }
}

impl<'a, S: EntrySink> MessageDraft<'a> for RecordDraft<'a, S> {
    ghost table = { record_table S.table };

    ghost KeptData = { RecordKept S.SinkData };

    ghost kept_data = { record_kept S.sink_data };

    ghost empty = { no_record S.no_entries };

    ghost with_field = { record_with S.with_entry S.table S.entry_from };

    ghost TakesMemory = { Unit {0} };

    fn new(alloc: Global) -> Self {
        RecordDraft {
            alloc,
            prev: None,
            version: 0,
            time: None,
            entries: S::new(alloc),
        }
    }

    fn takes(number: u32, wire_type: u32) -> bool
        ensures { result ≡ takes (record_table S.table) number wire_type }
    {
        match number {
            1 | 3 | 4 => wire_type == 2,
            2 => wire_type == 0,
            _ => true,
        }
    }

    #[tactic(auto, unfolding(crate::specs::Reading::payload_fault))]
    fn grow(&mut self, field: RawField<'a>) -> Result<(), WireError> {
        S::laws();
        match field.payload {
            RawPayload::Number(value) if field.number == 2 => self.version = value,
            RawPayload::Bytes(bytes) if field.number == 1 => self.prev = Some(read_text(bytes)?),
            RawPayload::Bytes(bytes) if field.number == 3 => self.grow_time(bytes)?,
            RawPayload::Bytes(bytes) if field.number == 4 => self.entries.take(self.alloc, bytes)?,
            _ => {}
        }
        Ok(())
    }
}

impl<S: EntrySink> Record<S> {
    /// Reads a record, all of the bytes, in one pass; each entry goes into the sink as it is read.
    pub fn gather(alloc: Global, bytes: &[u8]) -> Result<Record<S>, WireError>
        ensures { ReturnsOrNoMemory (record_view S.sink_data) result
            (gathered_of S.with_entry S.no_entries
            (message_of (record_table S.table) (record_from S.table S.entry_from) bytes.now)) }
    {
        S::laws();
        let draft = read_draft::<RecordDraft<'_, S>>(alloc, bytes)?;
        Ok(Record::finish(alloc, draft)?)
    }

    /// The message of what is kept.
    fn finish(alloc: Global, draft: RecordDraft<'_, S>) -> Result<Record<S>, AllocError>
        ensures { IfOk result (λ v. record_view S.sink_data v ≡
            record_made (record_kept S.sink_data draft.entry)) }
    {
        Ok(Record {
            prev: own_text(alloc, draft.prev)?,
            version: (draft.version % (1 << 32)) as u32,
            time: finish_time(draft.time),
            entries: draft.entries,
        })
    }
}

fn own_text(alloc: Global, text: Option<&str>) -> Result<Option<String>, AllocError>
    ensures { IfOk result (λ t. option_view (λ s. string_bytes s) t ≡
        option_view (λ t. t.now) text.entry) }
{
    let Some(text) = text else {
        return Ok(None);
    };
    Ok(Some(String::from_str(alloc, text)?))
}

fn finish_time(time: Option<TimestampDraft>) -> Option<TimestampPair>
    ensures { option_view timestamp_view result ≡
        option_view time_made (option_view timestamp_kept time) }
{
    let time = time?;
    Some(time.finish())
}

impl<E: Codec> Codec for Record<Vec<E>> {
    ghost table = { record_table E.table };

    ghost View = { RecordValue (List E.View) };

    ghost view = { record_view (λ es. map E.view es.items) };

    ghost Says = { IsRecordOf E.table E.Says };

    ghost value = { record_from E.table E.value };

    ghost TakesMemory = { λ _. Unit {0} };

    fn read(alloc: Global, bytes: &[u8]) -> Result<Record<Vec<E>>, WireError> {
        Record::<Vec<E>>::gather(alloc, bytes)
    }

    ghost written_fields = { record_fields (λ v. bytes_of (E.written_fields v)) };

    ghost is_sound = { IsSoundRecord E.is_sound };

    fn write(&self, alloc: Global, out: &mut Vec<u8>) -> Result<(), AllocError> {
        push_record::<E>(
            alloc,
            out,
            &self.prev,
            self.version,
            &self.time,
            &self.entries,
        )
    }

    fn laws() {
        E::laws();
    }
}

pub(crate) fn push_record<E: Codec>(
    alloc: Global,
    out: &mut Vec<u8>,
    prev: &Option<String>,
    version: u32,
    time: &Option<TimestampPair>,
    entries: &[E],
) -> Result<(), AllocError>
    ensures spelled { let value = record_value (option_view (λ s. string_bytes s) prev.now) version
        (option_view timestamp_view time.now) (map E.view entries.now) in
        OnOk result (out.new.items ≡ out.old.items ++
        bytes_of (record_fields (λ v. bytes_of (E.written_fields v)) value)) }
    ensures sound { let value = record_value (option_view (λ s. string_bytes s) prev.now) version
        (option_view timestamp_view time.now) (map E.view entries.now) in
        OnOk result (IsSoundRecord E.is_sound value) }
{
    push_optional_text(out, 1, prev)?;
    push_number(out, 2, u64::from(version))?;
    push_optional::<TimestampPair>(alloc, out, 3, time)?;
    push_list::<E>(alloc, out, 4, entries)
}
