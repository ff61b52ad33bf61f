//! Records in envelopes: signed, and still to be signed.

ghost use Rattle.std.specs.Prelude.{◌≡◌, ◌<◌, ◌^◌, ◌++◌, ℕ, List, length, IsUtf8, IfErr, IfOk};
ghost use Rattle.warg_crypto.specs.NamedBytes.{NamedBytes};
ghost use Rattle.tool_changes.specs.Make.Sealed.{IsEnclosed, IsSigned, IsUnsigned, signature_bytes, unsigned_bytes};
ghost use Rattle.warg_protobuf.specs.Envelope.{IsEnvelope};

use crate::make::error::MakeError;
use std::alloc::Global;
use warg_crypto::Signable;
use warg_crypto::signing::{PublicKey, Signature, SignatureError, Signer};
use warg_envelope::ProtoEnvelope;
use warg_protobuf::{Envelope, Message};

/// The record in an envelope that the signer signs.
pub(crate) fn enveloped<C: Signable + Drop, S: Signer>(
    alloc: Global,
    signer: &S,
    contents: C,
) -> Result<ProtoEnvelope<C>, MakeError>
    ensures ok { IfOk result (λ it. IsSigned (S.gives signer.now) (S.key_of signer.now)
        C.signed_prefix (C.encoding contents) it.envelope) }
    ensures err { IfErr result (λ error. error ≡ MakeError.OutOfMemory) }
{
    Ok(ProtoEnvelope::signed_contents(alloc, signer, contents)?)
}

/// What stands for a signer whose secret is elsewhere: for a signature it gives the message that is to be signed.
#[derive(Debug, Drop)]
pub(crate) struct Absent {
    pub(crate) key: PublicKey,
}

impl Signer for Absent {
    ghost key_of = { λ absent. absent.key };

    ghost gives = { λ _ message signature. signature.bytes ≡ message };

    ghost refuses = { λ _ _. ⊥ };

    fn public_key(&self) -> &PublicKey {
        &self.key
    }

    fn sign(&self, alloc: Global, message: &[u8]) -> Result<Signature, SignatureError> {
        let name = String::from_str(alloc, "unsigned")?;
        Ok(Signature::new(name, Vec::from_slice(alloc, message)?))
    }
}

/// A record that a key has to sign yet.
#[derive(Debug, Drop)]
pub struct UnsignedRecord {
    /// The envelope's bytes, without the field of the signature, which comes last.
    pub envelope: Vec<u8>,
    /// The message that the key has to sign.
    pub message: Vec<u8>,
    /// The same envelope's bytes, under a signature that is none: whatever is signed, the record is this one.
    pub draft: Vec<u8>,
}

/// The record in the envelope of a signer that is absent, to be signed.
pub(crate) fn unsigned<C>(alloc: Global, it: &ProtoEnvelope<C>) -> Result<UnsignedRecord, MakeError>
    ensures ok { IfOk result (λ made. (key : NamedBytes) (prefix content : List ℕ) →
        IsSigned (λ message signature. signature.bytes ≡ message) key prefix content
        it.now.envelope → IsUnsigned key prefix content made.envelope.items made.message.items ×
        IsEnclosed key content made.draft.items) }
    ensures err { IfErr result (λ error. error ≡ MakeError.OutOfMemory) }
{
    let envelope = Envelope {
        contents: Vec::from_slice(alloc, it.content_bytes())?,
        key_id: String::from_str(alloc, it.key_id().as_str())?,
        signature: String::new(alloc),
    };
    Ok(UnsignedRecord {
        envelope: envelope.encode(alloc)?,
        message: Vec::from_slice(alloc, it.signature().bytes())?,
        draft: it.to_protobuf(alloc)?,
    })
}

/// An envelope without its signature, and behind it the field of any signature's text, is the envelope with that signature.
pub fn signed_later()
    ensures { (content key_id text : List ℕ) → IsUtf8 key_id → IsUtf8 text →
        length (unsigned_bytes content key_id ++ signature_bytes text) < 2 ^ 64 →
        IsEnvelope (unsigned_bytes content key_id ++ signature_bytes text)
        (record { contents = content; key_id = key_id; signature = text }) }
{}
