//! Envelopes that are signed by the toy scheme, with the bytes of a name as the key.
use crate::json::value_of;
use crate::text_codec::ToText;
use conformance_rows::{Answer, RowError, Words, bytes, hex};
use std::alloc::Global;
use warg_crypto::json::JsonValue;
use warg_crypto::toy::ToySigner;
use warg_crypto::{Decode, Signable};
use warg_envelope::{ProtoEnvelope, SerdeEnvelope};
use warg_log_records::operator::OperatorRecord;
use warg_log_records::package::PackageRecord;
use warg_registry::TimestampedCheckpoint;

fn signed<C: Signable + Decode>(
    alloc: Global,
    signer: &ToySigner,
    word: &str,
) -> Result<Answer, RowError> {
    let record = C::decode(alloc, bytes(alloc, word)?.as_slice())?;
    let envelope = ProtoEnvelope::signed_contents(alloc, signer, record)?;
    Ok(Answer::Value(hex(alloc, envelope.to_protobuf(alloc)?.as_slice())?))
}

/// The answer to `sign`: of which kind of log, who signs, and the content bytes of a record.
pub(crate) fn sign(alloc: Global, mut words: Words<'_>) -> Result<Answer, RowError> {
    let log = words.next_written();
    let signer = ToySigner::new(alloc, words.next_written().as_bytes())?;
    match log {
        "package" => signed::<PackageRecord>(alloc, &signer, words.rest()),
        "operator" => signed::<OperatorRecord>(alloc, &signer, words.rest()),
        _ => Err(RowError::new("a strange kind of log")),
    }
}

fn signed_apart<C: Signable + Decode + ToText>(
    alloc: Global,
    signer: &ToySigner,
    word: &str,
) -> Result<Answer, RowError> {
    let record = C::decode(alloc, bytes(alloc, word)?.as_slice())?;
    let envelope = SerdeEnvelope::signed_contents(alloc, signer, record)?;
    Ok(Answer::Value(envelope.text(alloc)?))
}

fn signed_checkpoint(alloc: Global, signer: &ToySigner, json: &str) -> Result<Answer, RowError> {
    let checkpoint = TimestampedCheckpoint::from_value(alloc, &value_of(alloc, json)?)?;
    let envelope = SerdeEnvelope::signed_contents(alloc, signer, checkpoint)?;
    Ok(Answer::Value(envelope.to_value(alloc)?.to_string(alloc)?))
}

/// The answer to `sign-apart`: as `sign`, but the envelope keeps no bytes of its contents. A `checkpoint` with its time
/// is said by its JSON, and the answer is the envelope's.
pub(crate) fn sign_apart(alloc: Global, mut words: Words<'_>) -> Result<Answer, RowError> {
    let kind = words.next_written();
    let signer = ToySigner::new(alloc, words.next_written().as_bytes())?;
    match kind {
        "package" => signed_apart::<PackageRecord>(alloc, &signer, words.rest()),
        "operator" => signed_apart::<OperatorRecord>(alloc, &signer, words.rest()),
        "checkpoint" => signed_checkpoint(alloc, &signer, words.rest()),
        _ => Err(RowError::new("a strange kind of contents")),
    }
}

/// The answer to `signing-prefix`: of which kind of log. What stands before the content bytes in a signed message.
pub(crate) fn prefix(alloc: Global, words: Words<'_>) -> Result<Answer, RowError> {
    match words.rest() {
        "package" => Answer::value(alloc, &PackageRecord::PREFIX),
        "operator" => Answer::value(alloc, &OperatorRecord::PREFIX),
        _ => Err(RowError::new("a strange kind of log")),
    }
}
