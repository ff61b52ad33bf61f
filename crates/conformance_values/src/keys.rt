//! Keys, signatures and what they are made of.

use crate::encoding::answer_bytes;
use crate::from_words::{answer_of, no_such_kind, value_of};
use conformance_rows::{Answer, RowError, Words, hex};
use std::alloc::Global;
use warg_crypto::hash::AnyHash;
use warg_crypto::signing::{PublicKey, Signature, is_algorithm_name};
use warg_registry::{LogId, PackageName};

fn named_bytes(alloc: Global, name: &str, bytes: &[u8]) -> Result<Answer, RowError> {
    let bytes = hex(alloc, bytes)?;
    Answer::value(alloc, &format_args!("{name} {bytes}"))
}

/// `parts KIND TEXT`: the algorithm and the bytes of a hash, a key or a signature; the namespace and the name of a
/// package; the bytes of the id of a log.
pub(crate) fn parts(alloc: Global, mut words: Words<'_>) -> Result<Answer, RowError> {
    let kind = words.next_written();
    match kind {
        "hash" => hash_parts(alloc, &value_of(alloc, words)?),
        "key" => key_parts(alloc, &value_of(alloc, words)?),
        "signature" => signature_parts(alloc, &value_of(alloc, words)?),
        "package-name" => name_parts(alloc, &value_of(alloc, words)?),
        "log-id" => answer_bytes(alloc, value_of::<LogId>(alloc, words)?.as_bytes()),
        _ => no_such_kind(),
    }
}

fn hash_parts(alloc: Global, hash: &AnyHash) -> Result<Answer, RowError> {
    named_bytes(alloc, hash.algorithm().as_str(), hash.bytes())
}

fn key_parts(alloc: Global, key: &PublicKey) -> Result<Answer, RowError> {
    named_bytes(alloc, key.algorithm(), key.bytes())
}

fn signature_parts(alloc: Global, signature: &Signature) -> Result<Answer, RowError> {
    named_bytes(alloc, signature.algorithm(), signature.bytes())
}

fn name_parts(alloc: Global, name: &PackageName) -> Result<Answer, RowError> {
    Answer::value(alloc, &format_args!("{} {}", name.namespace(), name.name()))
}

// The name and the bytes that the words say.
fn name_and_bytes(alloc: Global, mut words: Words<'_>) -> Result<(String, Vec<u8>), RowError> {
    let name = words.next(alloc)?;
    let bytes = words.next_bytes(alloc)?;
    words.end()?;
    Ok((name, bytes))
}

/// `key-of NAME BYTES`: the key of the bytes under the algorithm's name.
pub(crate) fn key_of(alloc: Global, words: Words<'_>) -> Result<Answer, RowError> {
    let (name, bytes) = name_and_bytes(alloc, words)?;
    if is_algorithm_name(name.as_str()) {
        return Answer::value(alloc, &PublicKey::new(name, bytes));
    }
    Err(RowError::new("no name of an algorithm"))
}

/// `signature-of NAME BYTES`: the signature of the bytes under the algorithm's name.
pub(crate) fn signature_of(alloc: Global, words: Words<'_>) -> Result<Answer, RowError> {
    let (name, bytes) = name_and_bytes(alloc, words)?;
    if is_algorithm_name(name.as_str()) {
        return Answer::value(alloc, &Signature::new(name, bytes));
    }
    Err(RowError::new("no name of an algorithm"))
}

/// `algorithm-name TEXT`: whether the text may name an algorithm.
pub(crate) fn algorithm_name(alloc: Global, mut words: Words<'_>) -> Result<Answer, RowError> {
    let name = words.next(alloc)?;
    words.end()?;
    Answer::value(alloc, &is_algorithm_name(name.as_str()))
}

/// `fingerprint KEY`: the id of the key.
pub(crate) fn fingerprint(alloc: Global, words: Words<'_>) -> Result<Answer, RowError> {
    let key = value_of::<PublicKey>(alloc, words)?;
    answer_of(alloc, key.fingerprint(alloc))
}
