//! Texts of values, read and printed.

use crate::from_words::{FromWords, answer_of, no_such_kind, value_of};
use crate::printed::{only_text_of, text_of};
use conformance_rows::{Answer, RowError, Words, quoted};
use std::alloc::Global;
use std::fmt::{Debug, Display};
use warg_crypto::hash::{AnyHash, HashAlgorithm};
use warg_crypto::signing::{KeyID, PublicKey, Signature};
use warg_crypto::time::Timestamp;
use warg_log_records::{RecordId, operator, package};
use warg_registry::{LogId, PackageName, PackageNameError};

/// `parse KIND TEXT`: the value that the text says, in words.
pub(crate) fn parse(alloc: Global, mut words: Words<'_>) -> Result<Answer, RowError> {
    let kind = words.next_written();
    let text = words.next(alloc)?;
    words.end()?;
    parse_kind(alloc, kind, text.as_str())
}

fn parse_kind(alloc: Global, kind: &str, text: &str) -> Result<Answer, RowError> {
    match kind {
        "algorithm" => answer_of(alloc, text.parse::<HashAlgorithm>()),
        "hash" => answer_of(alloc, text.parse::<AnyHash>()),
        "key" => answer_of(alloc, PublicKey::parse(alloc, text)),
        "signature" => answer_of(alloc, Signature::parse(alloc, text)),
        "log-id" => answer_of(alloc, text.parse::<LogId>()),
        "record-id" => answer_of(alloc, text.parse::<RecordId>()),
        "time" => answer_of(alloc, Timestamp::parse_text(text)),
        "package-name" => package_name(alloc, text),
        "package-permission" => answer_of(alloc, text.parse::<package::Permission>()),
        "operator-permission" => answer_of(alloc, text.parse::<operator::Permission>()),
        _ => no_such_kind(),
    }
}

// A refused name comes with its fault.
fn package_name(alloc: Global, text: &str) -> Result<Answer, RowError> {
    match PackageName::parse(alloc, text) {
        Err(PackageNameError::InvalidPackageName { name }) => {
            let name = quoted(alloc, name.as_str())?;
            Answer::fault(alloc, &format_args!("InvalidPackageName {name}"))
        }
        outcome => answer_of(alloc, outcome),
    }
}

/// `shown KIND WORDS..`: what the value prints, whatever options it is printed under.
pub(crate) fn shown(alloc: Global, mut words: Words<'_>) -> Result<Answer, RowError> {
    let kind = words.next_written();
    match kind {
        "algorithm" => of_text::<HashAlgorithm>(alloc, words),
        "hash" => of_only_text::<AnyHash>(alloc, words),
        "key" => of_only_text::<PublicKey>(alloc, words),
        "signature" => of_only_text::<Signature>(alloc, words),
        "key-id" => of_only_text::<KeyID>(alloc, words),
        "log-id" => of_only_text::<LogId>(alloc, words),
        "record-id" => of_only_text::<RecordId>(alloc, words),
        "time" => of_text::<Timestamp>(alloc, words),
        "package-name" => of_text::<PackageName>(alloc, words),
        "package-permission" => of_text::<package::Permission>(alloc, words),
        "operator-permission" => of_text::<operator::Permission>(alloc, words),
        _ => no_such_kind(),
    }
}

fn of_text<T: FromWords + Display>(alloc: Global, words: Words<'_>) -> Result<Answer, RowError> {
    let value = value_of::<T>(alloc, words)?;
    Answer::value(alloc, &text_of(alloc, &value)?)
}

// Of a kind that prints so for programmers too.
fn of_only_text<T: FromWords + Display + Debug>(
    alloc: Global,
    words: Words<'_>,
) -> Result<Answer, RowError> {
    let value = value_of::<T>(alloc, words)?;
    Answer::value(alloc, &only_text_of(alloc, &value)?)
}
