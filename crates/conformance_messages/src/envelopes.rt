//! Envelopes, and the ids of the records in them.
use crate::errors::envelope_fault;
use crate::text_codec::{TextCodec, ToText};
use crate::words::word;
use conformance_rows::{Answer, RowError, Words, bytes, hex};
use std::alloc::Global;
use warg_crypto::hash::Sha256;
use warg_envelope::{ProtoEnvelope, Record};
use warg_log_records::RecordId;
use warg_log_records::operator::OperatorRecord;
use warg_log_records::package::PackageRecord;

impl<C: Record + ToText> ToText for ProtoEnvelope<C> {
    fn text(&self, alloc: Global) -> Result<String, RowError> {
        let key_id = word(alloc, self.key_id().as_str())?;
        let signature = word(alloc, self.signature().to_text(alloc)?.as_str())?;
        let content = hex(alloc, self.content_bytes())?;
        let record = self.contents().text(alloc)?;
        Ok(format!(in alloc;
            "key {key_id} signature {signature} content {content} record {record}"
        )?)
    }
}

impl<C: Record + ToText + PartialEq> TextCodec for ProtoEnvelope<C> {
    fn read(alloc: Global, word: &str) -> Result<Result<ProtoEnvelope<C>, String>, RowError> {
        match ProtoEnvelope::from_protobuf(alloc, bytes(alloc, word)?.as_slice()) {
            Ok(envelope) => Ok(Ok(envelope)),
            Err(error) => Ok(Err(envelope_fault(alloc, error)?)),
        }
    }

    fn write(&self, alloc: Global) -> Result<String, RowError> {
        hex(alloc, self.to_protobuf(alloc)?.as_slice())
    }
}

/// The envelope that the word says, which has no fault.
pub(crate) fn opened<C: Record>(alloc: Global, word: &str) -> Result<ProtoEnvelope<C>, RowError> {
    Ok(ProtoEnvelope::from_protobuf(alloc, bytes(alloc, word)?.as_slice())?)
}

// The id of the record in an envelope, and that of its content bytes.
fn ids(alloc: Global, log: &str, word: &str) -> Result<(RecordId, RecordId), RowError> {
    match log {
        "package" => {
            let envelope = opened::<PackageRecord>(alloc, word)?;
            let id = RecordId::package_record::<Sha256>(&envelope);
            let content = envelope.content_bytes();
            Ok((id, RecordId::of_package_content::<Sha256>(content)))
        }
        "operator" => {
            let envelope = opened::<OperatorRecord>(alloc, word)?;
            let id = RecordId::operator_record::<Sha256>(&envelope);
            let content = envelope.content_bytes();
            Ok((id, RecordId::of_operator_content::<Sha256>(content)))
        }
        _ => Err(RowError::new("a strange kind of log")),
    }
}

/// The answer to `record-id`: of which kind of log, and the envelope. The id is also that of the content bytes alone.
pub(crate) fn record_id(alloc: Global, mut words: Words<'_>) -> Result<Answer, RowError> {
    let log = words.next_written();
    let (id, of_content) = ids(alloc, log, words.rest())?;
    if id == of_content {
        Answer::value(alloc, &id)
    } else {
        Err(RowError::new("the content bytes have another id"))
    }
}
