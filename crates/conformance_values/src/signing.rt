//! Signatures by the toy scheme, whose signers are told by the bytes of their keys' names, and those of ECDSA P-256.

use crate::from_words::{FromWords, answer_of, ok_or_fault};
use conformance_rows::{Answer, RowError, Words};
use std::alloc::Global;
use warg_crypto::Signable;
use warg_crypto::signing::{PublicKey, Signature, Signer, Verifier, is_algorithm_name};
use warg_crypto::toy::{ToySigner, ToyVerifier};
use warg_p256::{ALGORITHM, KnownKeys, P256Verifier};
use warg_registry::TimestampedCheckpoint;

// The signer whose key has the bytes of the next word.
fn signer(alloc: Global, words: &mut Words<'_>) -> Result<ToySigner, RowError> {
    let name = words.next(alloc)?;
    Ok(ToySigner::new(alloc, name.as_bytes())?)
}

/// `toy-key NAME`: the signer's key.
pub(crate) fn toy_key(alloc: Global, mut words: Words<'_>) -> Result<Answer, RowError> {
    let signer = signer(alloc, &mut words)?;
    words.end()?;
    Answer::value(alloc, signer.public_key())
}

/// `toy-sign NAME BYTES`: the signer's signature of the message.
pub(crate) fn toy_sign(alloc: Global, mut words: Words<'_>) -> Result<Answer, RowError> {
    let signer = signer(alloc, &mut words)?;
    let message = words.next_bytes(alloc)?;
    words.end()?;
    answer_of(alloc, signer.sign(alloc, message.as_slice()))
}

// The key, the bytes and the signature that the words say.
fn signed_bytes(
    alloc: Global,
    mut words: Words<'_>,
) -> Result<(PublicKey, Vec<u8>, Signature), RowError> {
    let key = PublicKey::from_words(alloc, &mut words)?;
    let bytes = words.next_bytes(alloc)?;
    let signature = Signature::from_words(alloc, &mut words)?;
    words.end()?;
    Ok((key, bytes, signature))
}

/// `toy-verify KEY BYTES SIGNATURE`: `ok` where the signature belongs to the message under the key.
pub(crate) fn toy_verify(alloc: Global, words: Words<'_>) -> Result<Answer, RowError> {
    let (key, message, signature) = signed_bytes(alloc, words)?;
    ok_or_fault(
        alloc,
        ToyVerifier.verify(alloc, &key, message.as_slice(), &signature),
    )
}

/// `sign-checkpoint NAME CHECKPOINT`: the signer's signature of the timestamped checkpoint.
pub(crate) fn sign_checkpoint(alloc: Global, mut words: Words<'_>) -> Result<Answer, RowError> {
    let signer = signer(alloc, &mut words)?;
    let checkpoint = TimestampedCheckpoint::from_words(alloc, &mut words)?;
    words.end()?;
    answer_of(alloc, checkpoint.sign(alloc, &signer))
}

/// `verify-checkpoint KEY BYTES SIGNATURE`: `ok` where the signature belongs to the timestamped checkpoint of these
/// bytes under the key.
pub(crate) fn verify_checkpoint(alloc: Global, words: Words<'_>) -> Result<Answer, RowError> {
    let (key, bytes, signature) = signed_bytes(alloc, words)?;
    let bytes = bytes.as_slice();
    ok_or_fault(
        alloc,
        TimestampedCheckpoint::verify(alloc, &ToyVerifier, &key, bytes, &signature),
    )
}

/// `checkpoint-prefix`: the prefix under which timestamped checkpoints are signed.
pub(crate) fn checkpoint_prefix(alloc: Global, words: Words<'_>) -> Result<Answer, RowError> {
    words.end()?;
    Answer::value(alloc, &TimestampedCheckpoint::PREFIX)
}

// Whether the verifier of keys' and signatures' texts takes the signature, and the one that keeps keys, twice: the second
// time it may have read the key.
fn verifiers_take(
    alloc: Global,
    key: &PublicKey,
    message: &[u8],
    signature: &Signature,
) -> (bool, bool, bool) {
    let known = KnownKeys::new(alloc);
    let by_text = P256Verifier.verify(alloc, key, message, signature).is_ok();
    let first = known.verify(alloc, key, message, signature).is_ok();
    let again = known.verify(alloc, key, message, signature).is_ok();
    (by_text, first, again)
}

/// `p256-verify KEY MESSAGE SIGNATURE`: whether the bytes of the signature belong to the message under the bytes of the
/// key, by ECDSA P-256 with SHA-256.
pub(crate) fn p256_verify(alloc: Global, mut words: Words<'_>) -> Result<Answer, RowError> {
    let key = words.next_bytes(alloc)?;
    let message = words.next_bytes(alloc)?;
    let signature = words.next_bytes(alloc)?;
    words.end()?;
    let belongs = warg_p256::verify(key.as_slice(), message.as_slice(), signature.as_slice());
    if !is_algorithm_name(ALGORITHM) {
        return Err(RowError::new("the scheme has no name"));
    }
    let key = PublicKey::new(String::from_str(alloc, ALGORITHM)?, key);
    let signature = Signature::new(String::from_str(alloc, ALGORITHM)?, signature);
    let taken = verifiers_take(alloc, &key, message.as_slice(), &signature);
    if taken != (belongs, belongs, belongs) {
        return Err(RowError::new("the verifiers differ"));
    }
    Answer::value(alloc, &if belongs { "yes" } else { "no" })
}
