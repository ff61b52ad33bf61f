//! A question and its answer as bytes: the key's text, the message, the signature's text.
ghost use Rattle.std.specs.Prelude.{◌≡◌, ◌⊎◌, ◌↔◌, ◌+◌, ◌<◌, ◌≤◌, ◌++◌, IfOk, IfErr, IsTrue, MatchOption, Ok};
ghost use Rattle.std.specs.Prelude.{length, take, drop, string_bytes};
ghost use Rattle.std.specs.Str.{IsUtf8};
ghost use Rattle.warg_crypto.specs.Keys.{public_key_of, signature_of};
ghost use Rattle.warg_crypto.specs.NamedBytes.{NamedBytes, named_bytes_text};
ghost use Rattle.warg_c.specs.declared.call_error.CallError.TheVariants.{BadArgument, OutOfMemory};
ghost use Rattle.warg_c.specs.Questions.{Says, SaysNone, Spells, key_part, lengths_of, message_part, signature_part};
ghost use Rattle.warg_c.specs.Verifying.{IsP256Key};

use crate::call_error::CallError;
use std::alloc::{AllocError, Global};
use warg_crypto::laws::{public_key_reads_back, signature_reads_back};
use warg_crypto::signing::{KeyParseError, PublicKey, Signature, SignatureParseError};
use warg_p256::ALGORITHM;
use warg_replay::external::{SignatureCheck, SignatureVerdict};

/// How many bytes of a question are the key's text, the message, and the signature's text. They stand one behind the other.
#[repr(C)]
#[derive(Clone, Copy)]
pub struct Asked {
    pub key_len: usize,
    pub message_len: usize,
    pub signature_len: usize,
}

// The three parts of the bytes, if they are long enough.
fn parts<'a>(bytes: &'a [u8], lengths: &Asked) -> Option<(&'a [u8], &'a [u8], &'a [u8])>
    ensures { MatchOption result (length bytes.now <
        (lengths.now.key_len + lengths.now.message_len) + lengths.now.signature_len)
        (λ p. ((lengths.now.key_len + lengths.now.message_len) + lengths.now.signature_len ≤
        length bytes.now) × (p.0.now ≡ key_part lengths.now bytes.now)
        × (p.1.now ≡ message_part lengths.now bytes.now) ×
        (p.2.now ≡ signature_part lengths.now bytes.now)) }
{
    let (key, rest) = bytes.split_at_checked(lengths.key_len)?;
    let (message, rest) = rest.split_at_checked(lengths.message_len)?;
    let (signature, _) = rest.split_at_checked(lengths.signature_len)?;
    Some((key, message, signature))
}

/// Whether the key is one of the algorithm that is verified here.
pub(crate) fn is_p256_key(key: &PublicKey) -> bool
    ensures { IsTrue result ↔ IsP256Key key.now }
{
    key.algorithm() == ALGORITHM
}

/// The key that a text says.
pub(crate) fn parse_key(alloc: Global, text: &[u8]) -> Result<PublicKey, CallError>
    ensures ok { IfOk result (λ key. IsUtf8 text.now × (public_key_of text.now ≡ Ok key)) }
    ensures err { IfErr result (λ f. (f ≡ OutOfMemory) ⊎
        ((f ≡ BadArgument) × ((key : NamedBytes) → IsUtf8 text.now →
        public_key_of text.now ≡ Ok key → ⊥))) }
{
    let Ok(text) = str::from_utf8(text) else {
        return Err(CallError::BadArgument);
    };
    match PublicKey::parse(alloc, text) {
        Ok(key) => Ok(key),
        Err(KeyParseError::OutOfMemory) => Err(CallError::OutOfMemory),
        Err(_) => Err(CallError::BadArgument),
    }
}

/// The signature that a text says.
pub(crate) fn parse_signature(alloc: Global, text: &[u8]) -> Result<Signature, CallError>
    ensures ok { IfOk result (λ signature. IsUtf8 text.now ×
        (signature_of text.now ≡ Ok signature)) }
    ensures err { IfErr result (λ f. (f ≡ OutOfMemory) ⊎
        ((f ≡ BadArgument) × ((signature : NamedBytes) → IsUtf8 text.now →
        signature_of text.now ≡ Ok signature → ⊥))) }
{
    let Ok(text) = str::from_utf8(text) else {
        return Err(CallError::BadArgument);
    };
    match Signature::parse(alloc, text) {
        Ok(signature) => Ok(signature),
        Err(SignatureParseError::OutOfMemory) => Err(CallError::OutOfMemory),
        Err(_) => Err(CallError::BadArgument),
    }
}

/// The answer to the question that the bytes say.
pub(crate) fn told(
    alloc: Global,
    bytes: &[u8],
    lengths: &Asked,
    belongs: bool,
) -> Result<SignatureVerdict, CallError>
    ensures ok { IfOk result (λ t. Says lengths.now bytes.now t.question × (t.belongs ≡ belongs)) }
    ensures err { IfErr result (λ f. (f ≡ OutOfMemory) ⊎
        ((f ≡ BadArgument) × SaysNone lengths.now bytes.now)) }
{
    let Some((key, message, signature)) = parts(bytes, lengths) else {
        return Err(CallError::BadArgument);
    };
    let question = SignatureCheck {
        key: parse_key(alloc, key)?,
        message: Vec::from_slice(alloc, message)?,
        signature: parse_signature(alloc, signature)?,
    };
    Ok(SignatureVerdict { question, belongs })
}

// The text of a key, which reads back as that key.
fn key_text(alloc: Global, key: &PublicKey) -> Result<String, AllocError>
    ensures text { IfOk result (λ text. string_bytes text ≡ named_bytes_text key.now) }
    ensures back { IfOk result (λ text. public_key_of (string_bytes text) ≡ Ok key.now) }
    ensures utf8 { IfOk result (λ text. IsUtf8 (string_bytes text)) }
{
    public_key_reads_back();
    let _name = key.algorithm();
    let _bytes = key.bytes();
    let text = key.to_text(alloc)?;
    let _utf8 = text.as_str().as_bytes();
    Ok(text)
}

/// The text of a signature, which reads back as that signature.
pub(crate) fn signature_text(alloc: Global, signature: &Signature) -> Result<String, AllocError>
    ensures text { IfOk result (λ text. string_bytes text ≡ named_bytes_text signature.now) }
    ensures back { IfOk result (λ text. signature_of (string_bytes text) ≡ Ok signature.now) }
    ensures utf8 { IfOk result (λ text. IsUtf8 (string_bytes text)) }
{
    signature_reads_back();
    let _name = signature.algorithm();
    let _bytes = signature.bytes();
    let text = signature.to_text(alloc)?;
    let _utf8 = text.as_str().as_bytes();
    Ok(text)
}

// Three parts one behind the other, and their lengths.
fn join(
    alloc: Global,
    key: &[u8],
    message: &[u8],
    signature: &[u8],
) -> Result<(Vec<u8>, Asked), AllocError>
    ensures text { IfOk result (λ p. p.0.items ≡ (key.now ++ message.now) ++ signature.now) }
    ensures lengths { IfOk result (λ p. p.1 ≡ lengths_of key.now message.now signature.now) }
{
    let length = key.len().saturating_add(message.len());
    let mut text = Vec::with_capacity(alloc, length.saturating_add(signature.len()))?;
    text.extend_from_slice(key)?;
    text.extend_from_slice(message)?;
    text.extend_from_slice(signature)?;
    let lengths = Asked {
        key_len: key.len(),
        message_len: message.len(),
        signature_len: signature.len(),
    };
    Ok((text, lengths))
}

/// A question as bytes.
pub(crate) fn spell(
    alloc: Global,
    question: &SignatureCheck,
) -> Result<(Vec<u8>, Asked), AllocError>
    ensures { IfOk result (λ p. Spells p.1 p.0.items question.now) }
{
    let key = key_text(alloc, &question.key)?;
    let signature = signature_text(alloc, &question.signature)?;
    let message = question.message.as_slice();
    join(alloc, key.as_bytes(), message, signature.as_bytes())
}
