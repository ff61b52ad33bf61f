//! JSON of values.

use crate::from_words::{FromWords, answer_of, no_such_kind, value_of};
use conformance_rows::{Answer, RowError, Words};
use serde_json::Value;
use std::alloc::Global;
use warg_crypto::hash::{AnyHash, HashAlgorithm};
use warg_crypto::json::JsonValue;
use warg_crypto::signing::{KeyID, PublicKey, Signature};
use warg_crypto::time::Timestamp;
use warg_log_records::{RecordId, operator, package};
use warg_registry::{Checkpoint, LogId, LogLeaf, PackageName, TimestampedCheckpoint};

/// `to-json KIND WORDS..`: the JSON of the value.
pub(crate) fn to_json(alloc: Global, mut words: Words<'_>) -> Result<Answer, RowError> {
    let kind = words.next_written();
    match kind {
        "u32" => written::<u32>(alloc, words),
        "u64" => written::<u64>(alloc, words),
        "usize" => written::<usize>(alloc, words),
        "algorithm" => written::<HashAlgorithm>(alloc, words),
        "hash" => written::<AnyHash>(alloc, words),
        "key" => written::<PublicKey>(alloc, words),
        "signature" => written::<Signature>(alloc, words),
        "key-id" => written::<KeyID>(alloc, words),
        "time" => written::<Timestamp>(alloc, words),
        "package-permission" => written::<package::Permission>(alloc, words),
        "operator-permission" => written::<operator::Permission>(alloc, words),
        "package-name" => written::<PackageName>(alloc, words),
        "log-id" => written::<LogId>(alloc, words),
        "record-id" => written::<RecordId>(alloc, words),
        "log-leaf" => written::<LogLeaf>(alloc, words),
        "checkpoint" => written::<Checkpoint>(alloc, words),
        "timestamped-checkpoint" => written::<TimestampedCheckpoint>(alloc, words),
        _ => no_such_kind(),
    }
}

fn written<T: FromWords + JsonValue>(alloc: Global, words: Words<'_>) -> Result<Answer, RowError> {
    let value = value_of::<T>(alloc, words)?;
    match value.to_value(alloc) {
        Ok(json) => Ok(Answer::Value(json.to_string(alloc)?)),
        Err(fault) => Answer::cases(alloc, &fault),
    }
}

/// `from-json KIND JSON`: the value that the JSON says, in words.
pub(crate) fn from_json(alloc: Global, mut words: Words<'_>) -> Result<Answer, RowError> {
    let kind = words.next_written();
    let json = Value::from_str(alloc, words.rest())?;
    read_kind(alloc, kind, &json)
}

fn read_kind(alloc: Global, kind: &str, json: &Value) -> Result<Answer, RowError> {
    match kind {
        "u32" => read::<u32>(alloc, json),
        "u64" => read::<u64>(alloc, json),
        "usize" => read::<usize>(alloc, json),
        "algorithm" => read::<HashAlgorithm>(alloc, json),
        "hash" => read::<AnyHash>(alloc, json),
        "key" => read::<PublicKey>(alloc, json),
        "signature" => read::<Signature>(alloc, json),
        "key-id" => read::<KeyID>(alloc, json),
        "time" => read::<Timestamp>(alloc, json),
        "package-permission" => read::<package::Permission>(alloc, json),
        "operator-permission" => read::<operator::Permission>(alloc, json),
        "package-name" => read::<PackageName>(alloc, json),
        "log-id" => read::<LogId>(alloc, json),
        "record-id" => read::<RecordId>(alloc, json),
        "log-leaf" => read::<LogLeaf>(alloc, json),
        "checkpoint" => read::<Checkpoint>(alloc, json),
        "timestamped-checkpoint" => read::<TimestampedCheckpoint>(alloc, json),
        _ => no_such_kind(),
    }
}

fn read<T: FromWords + JsonValue>(alloc: Global, json: &Value) -> Result<Answer, RowError> {
    answer_of(alloc, T::from_value(alloc, json))
}
