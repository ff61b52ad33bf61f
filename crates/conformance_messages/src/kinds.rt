//! The kinds of values that rows name by their words.
use crate::json;
use crate::messages::{Outer, Wire};
use crate::records::{Content, FromMessage};
use crate::text_codec::{Verb, play};
use conformance_rows::{Answer, RowError, Words};
use std::alloc::Global;
use warg_envelope::ProtoEnvelope;
use warg_log_records::operator::{OperatorEntry, OperatorRecord};
use warg_log_records::package::{PackageEntry, PackageRecord};
use warg_protobuf as message;

/// The answer to `decode`, `both-ways`, `encode`, `digest` and `equal`. The words are a group of values, a kind of its
/// values, and what says a value.
pub(crate) fn answer(alloc: Global, verb: Verb, mut words: Words<'_>) -> Result<Answer, RowError> {
    let group = words.next_written();
    let kind = words.next_written();
    match group {
        "message" => of_message(alloc, verb, kind, words),
        "package" => of_package(alloc, verb, kind, words),
        "operator" => of_operator(alloc, verb, kind, words),
        "both" => of_both(alloc, verb, kind, words),
        "json" => json::answer(alloc, verb, kind, words),
        _ => Err(RowError::new("a strange group of values")),
    }
}

fn of_message(alloc: Global, verb: Verb, kind: &str, words: Words<'_>) -> Result<Answer, RowError> {
    match kind {
        "Envelope" => play::<Outer>(alloc, verb, words),
        "TimestampPair" => play::<Wire<message::TimestampPair>>(alloc, verb, words),
        "PackageRecord" => play::<Wire<message::PackageRecord>>(alloc, verb, words),
        "OperatorRecord" => play::<Wire<message::OperatorRecord>>(alloc, verb, words),
        "PackageEntry" => play::<Wire<message::PackageEntry>>(alloc, verb, words),
        "OperatorEntry" => play::<Wire<message::OperatorEntry>>(alloc, verb, words),
        _ => of_member(alloc, verb, kind, words),
    }
}

// A message that is a member of an entry.
fn of_member(alloc: Global, verb: Verb, kind: &str, words: Words<'_>) -> Result<Answer, RowError> {
    match kind {
        "PackageInit" => play::<Wire<message::PackageInit>>(alloc, verb, words),
        "PackageGrantFlat" => play::<Wire<message::PackageGrantFlat>>(alloc, verb, words),
        "PackageRevokeFlat" => play::<Wire<message::PackageRevokeFlat>>(alloc, verb, words),
        "PackageRelease" => play::<Wire<message::PackageRelease>>(alloc, verb, words),
        "PackageYank" => play::<Wire<message::PackageYank>>(alloc, verb, words),
        "OperatorInit" => play::<Wire<message::OperatorInit>>(alloc, verb, words),
        "OperatorGrantFlat" => play::<Wire<message::OperatorGrantFlat>>(alloc, verb, words),
        "OperatorRevokeFlat" => play::<Wire<message::OperatorRevokeFlat>>(alloc, verb, words),
        "OperatorDefineNamespace" => {
            play::<Wire<message::OperatorDefineNamespace>>(alloc, verb, words)
        }
        "OperatorImportNamespace" => {
            play::<Wire<message::OperatorImportNamespace>>(alloc, verb, words)
        }
        _ => Err(RowError::new("a strange kind of message")),
    }
}

// An entry by its message, a record by its message or by its content bytes, or an envelope.
fn of_package(alloc: Global, verb: Verb, kind: &str, words: Words<'_>) -> Result<Answer, RowError> {
    match kind {
        "entry" => play::<FromMessage<PackageEntry>>(alloc, verb, words),
        "record-message" => play::<FromMessage<PackageRecord>>(alloc, verb, words),
        "record" => play::<Content<PackageRecord>>(alloc, verb, words),
        "envelope" => play::<ProtoEnvelope<PackageRecord>>(alloc, verb, words),
        _ => Err(RowError::new("a strange kind of value")),
    }
}

fn of_operator(
    alloc: Global,
    verb: Verb,
    kind: &str,
    words: Words<'_>,
) -> Result<Answer, RowError> {
    match kind {
        "entry" => play::<FromMessage<OperatorEntry>>(alloc, verb, words),
        "record-message" => play::<FromMessage<OperatorRecord>>(alloc, verb, words),
        "record" => play::<Content<OperatorRecord>>(alloc, verb, words),
        "envelope" => play::<ProtoEnvelope<OperatorRecord>>(alloc, verb, words),
        _ => Err(RowError::new("a strange kind of value")),
    }
}

// What both kinds of log answer.
fn of_both(alloc: Global, verb: Verb, kind: &str, words: Words<'_>) -> Result<Answer, RowError> {
    let package = of_package(alloc, verb, kind, words)?;
    let operator = of_operator(alloc, verb, kind, words)?;
    if package == operator {
        Ok(package)
    } else {
        Err(RowError::new("the kinds of log answer differently"))
    }
}
