//! Digests, of bytes and of the pieces that a visitor sees.

use crate::printed::only_text_of;
use conformance_rows::{Answer, RowError, Words, hex};
use std::alloc::Global;
use warg_crypto::VisitBytes;
use warg_crypto::hash::{AnyHash, Hash, HashAlgorithm, Sha256, SupportedDigest};
use warg_crypto::laws::bytes_and_hash;

/// `sha256 BYTES`: the hash of the bytes by SHA-256, as it prints.
pub(crate) fn sha256(alloc: Global, mut words: Words<'_>) -> Result<Answer, RowError> {
    let bytes = words.next_bytes(alloc)?;
    words.end()?;
    let hash = Hash::<Sha256>::of(&bytes);
    let text = only_text_of(alloc, &hash)?;
    let by_name = HashAlgorithm::Sha256.digest(bytes.as_slice());
    let by_bytes = AnyHash::new(Sha256::ALGORITHM, Sha256::digest(&bytes.as_slice()));
    if AnyHash::from(hash) != by_name || by_bytes != by_name {
        return Err(RowError::new("the algorithm gives another hash"));
    }
    Answer::value(alloc, &text)
}

// The bytes that a visitor sees of the content, and their hash.
fn seen<T: VisitBytes>(alloc: Global, content: &T) -> Result<Answer, RowError> {
    let (bytes, hash) = bytes_and_hash::<Sha256, T>(alloc, content)?;
    let bytes = hex(alloc, bytes.as_slice())?;
    Answer::value(alloc, &format_args!("{bytes} {hash}"))
}

/// `visited BYTES..`: the bytes of one to three lists that are visited together, and the hash of what is seen.
pub(crate) fn visited(alloc: Global, mut words: Words<'_>) -> Result<Answer, RowError> {
    let first = words.next_bytes(alloc)?;
    if words.is_empty() {
        return seen(alloc, &first);
    }
    let second = words.next_bytes(alloc)?;
    if words.is_empty() {
        return seen(alloc, &(first.as_slice(), &second));
    }
    let third = words.next_bytes(alloc)?;
    words.end()?;
    seen(alloc, &(first.as_slice(), (second.as_slice(), &third)))
}
