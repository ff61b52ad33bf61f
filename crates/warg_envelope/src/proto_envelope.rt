//! Envelopes: the record, its bytes as they came, who signed them, and the signature.

ghost use Rattle.std.specs.Prelude.{◌≡◌, Err, IfOk, IfErr, IsOk};
ghost use Rattle.warg_crypto.specs.Signed.{signed_message};
ghost use Rattle.warg_crypto.specs.NamedBytes.{fingerprint_of};
ghost use Rattle.warg_crypto.specs.declared.signing.error.SignatureError.TheVariants.{Refused};
ghost use Rattle.warg_envelope.specs.Envelopes.{IsOpening, envelope_message};
ghost use Rattle.warg_envelope.specs.declared.proto_envelope.error.ParseEnvelopeError.TheVariants.{OutOfMemory};
ghost use Rattle.warg_protobuf.specs.Envelope.{IsEnvelope, envelope_bytes};
ghost use Rattle.warg_protobuf.specs.Envelope as outer;
ghost use Rattle.warg_envelope.specs.Faults.{IsReading};
ghost use Rattle.warg_envelope.specs.SameEnvelopes.{same_decoded_envelope, same_decoded_envelope_equiv, same_decoded_envelope_per};

mod body;
mod error;
mod name;

use crate::Record;
pub use body::{ProtoEnvelopeBody, PublishedProtoEnvelope, PublishedProtoEnvelopeBody};
pub use error::ParseEnvelopeError;
use std::alloc::{AllocError, Global};
use std::fmt;
use std::marker::Model;
use warg_crypto::signing::{KeyID, Signature, SignatureError, Signer};
use warg_crypto::{DecodeError, Signable};
use warg_protobuf::{Envelope, Message};

/// A record with its bytes as they came, who signed them, and the signature. The bytes are kept since other bytes
/// may say the same record.
#[derive(Debug, Drop)]
pub struct ProtoEnvelope<C> {
    contents: C,
    content_bytes: Vec<u8>,
    key_id: KeyID,
    signature: Signature,
}

impl<C> Model for ProtoEnvelope<C> {
    ghost use Rattle.warg_envelope.specs.EnvelopeData.{DecodedEnvelope};

    ghost Value = { DecodedEnvelope C };

    ghost view = { λ e. record {
      contents = e.contents;
      envelope = record { content = e.content_bytes.items; key_id = e.key_id; signature = e.signature };
    } };
}

impl<C> ProtoEnvelope<C> {
    /// The record.
    pub fn contents(&self) -> &C
        ensures { result.now ≡ self.now.contents }
    {
        &self.contents
    }

    /// The record's bytes, as they came.
    pub fn content_bytes(&self) -> &[u8]
        ensures { result.now ≡ self.now.envelope.content }
    {
        self.content_bytes.as_slice()
    }

    /// The id of the key that is said to have signed.
    pub fn key_id(&self) -> &KeyID
        ensures { result.now ≡ self.now.envelope.key_id }
    {
        &self.key_id
    }

    /// The signature, which nothing here verifies.
    pub fn signature(&self) -> &Signature
        ensures { result.now ≡ self.now.envelope.signature }
    {
        &self.signature
    }
}

impl<C> ProtoEnvelope<C> {
    /// The bytes of the envelope, with the content bytes as they came.
    pub fn to_protobuf(&self, alloc: Global) -> Result<Vec<u8>, AllocError>
        ensures spelled { IfOk result (λ v. v.items ≡
            envelope_bytes (envelope_message self.now.envelope)) }
        ensures read_again { IfOk result
            (λ v. IsEnvelope v.items (envelope_message self.now.envelope)) }
    {
        let envelope = Envelope {
            contents: self.content_bytes.clone()?,
            key_id: String::from_str(alloc, self.key_id.as_str())?,
            signature: self.signature.to_string(alloc)?,
        };
        envelope.encode(alloc)
    }
}

impl<C: Record> ProtoEnvelope<C> {
    /// The envelope that the bytes say. Faults are looked for in the outer message, then in the contents, then in the
    /// signature's text.
    pub fn from_protobuf(
        alloc: Global,
        bytes: &[u8],
    ) -> Result<ProtoEnvelope<C>, ParseEnvelopeError>
        ensures opened { IsOpening C.read C.meaning C.fault_of bytes.now result }

        // The outer message takes no memory: where memory is refused, it was read.
        ensures memory { IfErr result (λ e. e ≡ OutOfMemory → IsOk (outer.envelope_of bytes.now)) }
    {
        let envelope = Envelope::view(bytes)?;
        let contents = decode_contents::<C>(alloc, envelope.contents)?;
        let signature = Signature::parse(alloc, envelope.signature)?;
        let content_bytes = Vec::from_slice(alloc, envelope.contents)?;
        let key_id = KeyID::from(String::from_str(alloc, envelope.key_id)?);
        Ok(ProtoEnvelope {
            contents,
            content_bytes,
            key_id,
            signature,
        })
    }
}

// The record that the content bytes say.
pub(crate) fn decode_contents<C: Record>(alloc: Global, content: &[u8]) -> Result<C, DecodeError>
    ensures { IsReading C.meaning C.fault_of (C.read content.now) result }
{
    C::decode(alloc, content)
}

impl<C: Record> ProtoEnvelope<C> {
    /// A copy.
    pub fn try_clone(&self) -> Result<ProtoEnvelope<C>, AllocError>
        ensures envelope { IfOk result (λ e. e.envelope ≡ self.now.envelope) }
        ensures contents { IfOk result (λ e. C.meaning e.contents ≡ C.meaning self.now.contents) }
    {
        Ok(ProtoEnvelope {
            contents: self.contents.try_clone()?,
            content_bytes: self.content_bytes.clone()?,
            key_id: self.key_id.clone()?,
            signature: self.signature.clone()?,
        })
    }
}

impl<C: Record> Clone for ProtoEnvelope<C> {
    ghost is_clone = { λ a b. (b.envelope ≡ a.envelope) × (C.meaning b.contents ≡ C.meaning a.contents) };

    fn clone(&self) -> Result<ProtoEnvelope<C>, AllocError> {
        self.try_clone()
    }
}

impl<C: PartialEq> PartialEq for ProtoEnvelope<C> {
    ghost eq = { same_decoded_envelope C.eq };

    ghost laws = { same_decoded_envelope_per C.laws };

    fn eq(&self, other: &ProtoEnvelope<C>) -> bool {
        self.contents == other.contents
            && self.content_bytes.as_slice() == other.content_bytes.as_slice()
            && self.key_id == other.key_id
            && self.signature == other.signature
    }
}

impl<C: Eq> Eq for ProtoEnvelope<C> {
    ghost laws = { same_decoded_envelope_equiv C.Eq.laws };
}

impl<C: Signable + Drop> ProtoEnvelope<C> {
    /// The contents in an envelope, under the signer's signature of their encoding. `Refused` only where the signer
    /// refuses the message.
    pub fn signed_contents<S: Signer>(
        alloc: Global,
        signer: &S,
        contents: C,
    ) -> Result<ProtoEnvelope<C>, SignatureError>
        ensures contents { IfOk result (λ e. e.contents ≡ contents) }
        ensures content { IfOk result (λ e. e.envelope.content ≡ C.encoding contents) }
        ensures key_id { IfOk result (λ e. e.envelope.key_id ≡
            fingerprint_of (S.key_of signer.now)) }
        ensures signature { IfOk result (λ e. S.gives signer.now
            (signed_message C.signed_prefix (C.encoding contents)) e.envelope.signature) }
        ensures refused { result ≡ Err Refused → S.refuses signer.now
            (signed_message C.signed_prefix (C.encoding contents)) }
    {
        let content_bytes = contents.encode(alloc)?;
        let key_id = signer.public_key().fingerprint(alloc)?;
        let signature = contents.sign(alloc, signer)?;
        Ok(ProtoEnvelope {
            contents,
            content_bytes,
            key_id,
            signature,
        })
    }
}
