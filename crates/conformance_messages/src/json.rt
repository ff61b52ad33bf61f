//! JSON of envelopes that keep no bytes of their contents, of bodies and of permissions.
use crate::text_codec::{TextCodec, ToText, Verb, play};
use crate::words::word;
use conformance_rows::{Answer, RowError, Words};
use serde_json::Value;
use std::alloc::Global;
use warg_crypto::hash::AnyHash;
use warg_crypto::json::JsonValue;
use warg_crypto::time::Timestamp;
use warg_envelope::{ProtoEnvelopeBody, PublishedProtoEnvelopeBody, SerdeEnvelope};
use warg_log_records::{operator, package};
use warg_registry::Checkpoint;

/// A value in its JSON.
#[derive(Drop, PartialEq)]
pub(crate) struct Json<T> {
    value: T,
}

impl<T: ToText> ToText for Json<T> {
    fn text(&self, alloc: Global) -> Result<String, RowError> {
        self.value.text(alloc)
    }
}

/// The JSON value of a text.
pub(crate) fn value_of(alloc: Global, json: &str) -> Result<Value, RowError> {
    Ok(Value::from_str(alloc, json)?)
}

impl<T: JsonValue + ToText + Drop> TextCodec for Json<T> {
    fn read(alloc: Global, word: &str) -> Result<Result<Json<T>, String>, RowError> {
        match T::from_value(alloc, &value_of(alloc, word)?) {
            Ok(value) => Ok(Ok(Json { value })),
            Err(fault) => Ok(Err(fault.to_string(alloc)?)),
        }
    }

    fn write(&self, alloc: Global) -> Result<String, RowError> {
        Ok(self.value.to_value(alloc)?.to_string(alloc)?)
    }
}

impl ToText for AnyHash {
    fn text(&self, alloc: Global) -> Result<String, RowError> {
        Ok(self.to_string(alloc)?)
    }
}

impl ToText for Timestamp {
    fn text(&self, alloc: Global) -> Result<String, RowError> {
        Ok(self.to_string(alloc)?)
    }
}

impl ToText for package::Permission {
    fn text(&self, alloc: Global) -> Result<String, RowError> {
        Ok(self.to_string(alloc)?)
    }
}

impl ToText for operator::Permission {
    fn text(&self, alloc: Global) -> Result<String, RowError> {
        Ok(self.to_string(alloc)?)
    }
}

impl ToText for Checkpoint {
    fn text(&self, alloc: Global) -> Result<String, RowError> {
        let (log_root, map_root) = (self.log_root, self.map_root);
        let length = self.log_length;
        Ok(format!(in alloc; "{log_root} {length} {map_root}")?)
    }
}

impl<C: ToText> ToText for SerdeEnvelope<C> {
    fn text(&self, alloc: Global) -> Result<String, RowError> {
        let key_id = word(alloc, self.key_id().as_str())?;
        let signature = word(alloc, self.signature().to_text(alloc)?.as_str())?;
        let contents = self.contents().text(alloc)?;
        Ok(format!(in alloc; "key {key_id} signature {signature} contents {contents}")?)
    }
}

/// The answer of a kind of values that JSON says.
pub(crate) fn answer(
    alloc: Global,
    verb: Verb,
    kind: &str,
    words: Words<'_>,
) -> Result<Answer, RowError> {
    match kind {
        "hash-envelope" => play::<Json<SerdeEnvelope<AnyHash>>>(alloc, verb, words),
        "checkpoint-envelope" => play::<Json<SerdeEnvelope<Checkpoint>>>(alloc, verb, words),
        "time-envelope-envelope" => {
            play::<Json<SerdeEnvelope<SerdeEnvelope<Timestamp>>>>(alloc, verb, words)
        }
        "body" => play::<Json<ProtoEnvelopeBody>>(alloc, verb, words),
        "published-body" => play::<Json<PublishedProtoEnvelopeBody>>(alloc, verb, words),
        "package-permission" => play::<Json<package::Permission>>(alloc, verb, words),
        "operator-permission" => play::<Json<operator::Permission>>(alloc, verb, words),
        _ => Err(RowError::new("a strange kind of JSON")),
    }
}
