//! Entries and records: read from their messages, and records from content bytes too.
mod text;

use crate::errors::contents_fault;
use crate::text_codec::{TextCodec, ToText};
use conformance_rows::{Answer, RowError, Words, bytes, hex};
use std::alloc::Global;
use warg_crypto::{Decode, DecodeError, Encode};
use warg_envelope::Record;
use warg_log_records::operator::{OperatorEntry, OperatorRecord};
use warg_log_records::package::{PackageEntry, PackageRecord};
use warg_protobuf as message;
use warg_protobuf::Message;

/// What is read from a message, and written as one.
pub(crate) trait ByMessage: Sized {
    /// The value that the message of these bytes says, or the fault in what it says.
    fn of_message(alloc: Global, bytes: &[u8]) -> Result<Result<Self, DecodeError>, RowError>;

    /// The bytes of the message that says the value.
    fn message(&self, alloc: Global) -> Result<Vec<u8>, RowError>;
}

impl ByMessage for PackageEntry {
    fn of_message(
        alloc: Global,
        bytes: &[u8],
    ) -> Result<Result<PackageEntry, DecodeError>, RowError> {
        let message = message::PackageEntry::decode(alloc, bytes)?;
        Ok(PackageEntry::from_proto(alloc, message))
    }

    fn message(&self, alloc: Global) -> Result<Vec<u8>, RowError> {
        Ok(self.to_proto(alloc)?.encode(alloc)?)
    }
}

impl ByMessage for OperatorEntry {
    fn of_message(
        alloc: Global,
        bytes: &[u8],
    ) -> Result<Result<OperatorEntry, DecodeError>, RowError> {
        let message = message::OperatorEntry::decode(alloc, bytes)?;
        Ok(OperatorEntry::from_proto(alloc, message))
    }

    fn message(&self, alloc: Global) -> Result<Vec<u8>, RowError> {
        Ok(self.to_proto(alloc)?.encode(alloc)?)
    }
}

impl ByMessage for PackageRecord {
    fn of_message(
        alloc: Global,
        bytes: &[u8],
    ) -> Result<Result<PackageRecord, DecodeError>, RowError> {
        let message = message::PackageRecord::decode(alloc, bytes)?;
        Ok(PackageRecord::from_proto(alloc, message))
    }

    fn message(&self, alloc: Global) -> Result<Vec<u8>, RowError> {
        Ok(self.to_proto(alloc)?.encode(alloc)?)
    }
}

impl ByMessage for OperatorRecord {
    fn of_message(
        alloc: Global,
        bytes: &[u8],
    ) -> Result<Result<OperatorRecord, DecodeError>, RowError> {
        let message = message::OperatorRecord::decode(alloc, bytes)?;
        Ok(OperatorRecord::from_proto(alloc, message))
    }

    fn message(&self, alloc: Global) -> Result<Vec<u8>, RowError> {
        Ok(self.to_proto(alloc)?.encode(alloc)?)
    }
}

/// An entry or a record in the bytes of its message.
#[derive(Drop, PartialEq)]
pub(crate) struct FromMessage<T> {
    value: T,
}

impl<T: ToText> ToText for FromMessage<T> {
    fn text(&self, alloc: Global) -> Result<String, RowError> {
        self.value.text(alloc)
    }
}

impl<T: ByMessage + ToText + PartialEq + Drop> TextCodec for FromMessage<T> {
    fn read(alloc: Global, word: &str) -> Result<Result<FromMessage<T>, String>, RowError> {
        match T::of_message(alloc, bytes(alloc, word)?.as_slice())? {
            Ok(value) => Ok(Ok(FromMessage { value })),
            Err(error) => Ok(Err(contents_fault(alloc, error)?)),
        }
    }

    fn write(&self, alloc: Global) -> Result<String, RowError> {
        hex(alloc, self.value.message(alloc)?.as_slice())
    }
}

/// A record in its content bytes.
#[derive(Drop, PartialEq)]
pub(crate) struct Content<C> {
    record: C,
}

impl<C: ToText> ToText for Content<C> {
    fn text(&self, alloc: Global) -> Result<String, RowError> {
        self.record.text(alloc)
    }
}

impl<C: Decode + Encode + ToText + PartialEq> TextCodec for Content<C> {
    fn read(alloc: Global, word: &str) -> Result<Result<Content<C>, String>, RowError> {
        match C::decode(alloc, bytes(alloc, word)?.as_slice()) {
            Ok(record) => Ok(Ok(Content { record })),
            Err(error) => Ok(Err(contents_fault(alloc, error)?)),
        }
    }

    fn write(&self, alloc: Global) -> Result<String, RowError> {
        hex(alloc, self.record.encode(alloc)?.as_slice())
    }
}

/// The answer to `record-contents`: of which kind of log, and the content bytes of a record. What it mentions stands in
/// brackets, each once, by first mention.
pub(crate) fn contents(alloc: Global, mut words: Words<'_>) -> Result<Answer, RowError> {
    let log = words.next_written();
    match log {
        "package" => contents_of::<PackageRecord>(alloc, words.rest()),
        "operator" => contents_of::<OperatorRecord>(alloc, words.rest()),
        _ => Err(RowError::new("a strange kind of log")),
    }
}

fn contents_of<C: Record>(alloc: Global, word: &str) -> Result<Answer, RowError> {
    let record = C::decode(alloc, bytes(alloc, word)?.as_slice())?;
    let mut text = String::from_str(alloc, "[")?;
    for hash in &record.contents(alloc)? {
        if !text.ends_with('[') {
            text.push_str(", ")?;
        }
        write!(text, "{hash}")?;
    }
    text.push(']')?;
    Ok(Answer::Value(text))
}
