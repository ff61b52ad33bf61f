//! Bodies: envelopes whose contents are not read.
use crate::envelopes::opened;
use crate::errors::contents_fault;
use crate::text_codec::ToText;
use conformance_rows::{Answer, RowError, Words};
use std::alloc::Global;
use warg_crypto::DecodeError;
use warg_envelope::{
    ProtoEnvelope, ProtoEnvelopeBody, PublishedProtoEnvelope, PublishedProtoEnvelopeBody, Record,
};
use warg_log_records::operator::OperatorRecord;
use warg_log_records::package::PackageRecord;

impl ToText for ProtoEnvelopeBody {
    fn text(&self, alloc: Global) -> Result<String, RowError> {
        ProtoEnvelope::<OperatorRecord>::from_body(alloc, self.try_clone()?)?.text(alloc)
    }
}

impl<C: Record + ToText> ToText for PublishedProtoEnvelope<C> {
    fn text(&self, alloc: Global) -> Result<String, RowError> {
        let index = self.registry_index;
        let envelope = self.envelope.text(alloc)?;
        Ok(format!(in alloc; "at {index} {envelope}")?)
    }
}

impl ToText for PublishedProtoEnvelopeBody {
    fn text(&self, alloc: Global) -> Result<String, RowError> {
        PublishedProtoEnvelope::<OperatorRecord>::from_body(alloc, self.try_clone()?)?.text(alloc)
    }
}

fn body_of<C: Record>(alloc: Global, word: &str) -> Result<ProtoEnvelopeBody, RowError> {
    Ok(ProtoEnvelopeBody::from(opened::<C>(alloc, word)?))
}

fn published_body_of<C: Record>(
    alloc: Global,
    word: &str,
    registry_index: usize,
) -> Result<PublishedProtoEnvelopeBody, RowError> {
    Ok(PublishedProtoEnvelopeBody::from(PublishedProtoEnvelope {
        envelope: opened::<C>(alloc, word)?,
        registry_index,
    }))
}

fn shown<T: ToText + Drop>(
    alloc: Global,
    opened: Result<T, DecodeError>,
) -> Result<Answer, RowError> {
    match opened {
        Ok(envelope) => Ok(Answer::Value(envelope.text(alloc)?)),
        Err(error) => Ok(Answer::Fault(contents_fault(alloc, error)?)),
    }
}

/// The answer to `body`: the kind of log of an envelope, another one, and the envelope. It is made a body, and that an
/// envelope of the other kind.
pub(crate) fn body(alloc: Global, mut words: Words<'_>) -> Result<Answer, RowError> {
    let (from, to) = (words.next_written(), words.next_written());
    let body = match from {
        "package" => body_of::<PackageRecord>(alloc, words.rest())?,
        "operator" => body_of::<OperatorRecord>(alloc, words.rest())?,
        _ => return Err(RowError::new("a strange kind of log")),
    };
    match to {
        "package" => shown(
            alloc,
            ProtoEnvelope::<PackageRecord>::from_body(alloc, body),
        ),
        "operator" => shown(
            alloc,
            ProtoEnvelope::<OperatorRecord>::from_body(alloc, body),
        ),
        _ => Err(RowError::new("a strange kind of log")),
    }
}

/// The answer to `published-body`: as `body`, with the place in the registry's log before the envelope.
pub(crate) fn published_body(alloc: Global, mut words: Words<'_>) -> Result<Answer, RowError> {
    let (from, to) = (words.next_written(), words.next_written());
    let index = words.next_written().parse::<usize>()?;
    let body = match from {
        "package" => published_body_of::<PackageRecord>(alloc, words.rest(), index)?,
        "operator" => published_body_of::<OperatorRecord>(alloc, words.rest(), index)?,
        _ => return Err(RowError::new("a strange kind of log")),
    };
    match to {
        "package" => shown(
            alloc,
            PublishedProtoEnvelope::<PackageRecord>::from_body(alloc, body),
        ),
        "operator" => shown(
            alloc,
            PublishedProtoEnvelope::<OperatorRecord>::from_body(alloc, body),
        ),
        _ => Err(RowError::new("a strange kind of log")),
    }
}
