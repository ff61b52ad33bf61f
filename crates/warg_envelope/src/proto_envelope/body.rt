//! Envelopes without the record, as they are published.

ghost use Rattle.std.specs.Prelude.{◌≡◌, IfOk};
ghost use Rattle.std.specs.Cmp.{partial_equiv_from_equiv};
ghost use Rattle.warg_envelope.specs.Faults.{IsReading};
ghost use Rattle.warg_envelope.specs.SameEnvelopes.{same_envelope_data, same_envelope_data_equiv};

mod json;

use crate::proto_envelope::{ProtoEnvelope, decode_contents};
use crate::{Record, RegistryIndex};
use std::alloc::{AllocError, Global};
use std::marker::Model;
use warg_crypto::DecodeError;
use warg_crypto::signing::{KeyID, Signature};

/// An envelope whose content bytes are not read yet.
#[derive(Debug, Drop)]
pub struct ProtoEnvelopeBody {
    content_bytes: Vec<u8>,
    key_id: KeyID,
    signature: Signature,
}

impl Model for ProtoEnvelopeBody {
    ghost use Rattle.warg_envelope.specs.EnvelopeData.{EnvelopeData};

    ghost Value = { EnvelopeData };

    ghost view = { λ b. record { content = b.content_bytes.items; key_id = b.key_id; signature = b.signature } };
}

impl ProtoEnvelopeBody {
    /// A copy.
    pub fn try_clone(&self) -> Result<ProtoEnvelopeBody, AllocError>
        ensures { IfOk result (λ b. b ≡ self.now) }
    {
        Ok(ProtoEnvelopeBody {
            content_bytes: self.content_bytes.clone()?,
            key_id: self.key_id.clone()?,
            signature: self.signature.clone()?,
        })
    }
}

impl Clone for ProtoEnvelopeBody {
    ghost is_clone = { λ a b. b ≡ a };

    fn clone(&self) -> Result<ProtoEnvelopeBody, AllocError> {
        self.try_clone()
    }
}

impl PartialEq for ProtoEnvelopeBody {
    ghost eq = { same_envelope_data };

    ghost laws = { partial_equiv_from_equiv same_envelope_data_equiv };

    fn eq(&self, other: &ProtoEnvelopeBody) -> bool {
        self.content_bytes.as_slice() == other.content_bytes.as_slice()
            && self.key_id == other.key_id
            && self.signature == other.signature
    }
}

impl Eq for ProtoEnvelopeBody {
    ghost laws = { same_envelope_data_equiv };
}

impl<C: Drop> From<ProtoEnvelope<C>> for ProtoEnvelopeBody {
    ghost from_gives = { λ e b. b ≡ e.envelope };

    fn from(envelope: ProtoEnvelope<C>) -> ProtoEnvelopeBody {
        ProtoEnvelopeBody {
            content_bytes: envelope.content_bytes,
            key_id: envelope.key_id,
            signature: envelope.signature,
        }
    }
}

impl<C> ProtoEnvelope<C> {
    /// The body of the envelope, which stays as it is.
    pub fn to_body(&self) -> Result<ProtoEnvelopeBody, AllocError>
        ensures { IfOk result (λ b. b ≡ self.now.envelope) }
    {
        let content_bytes = self.content_bytes.clone()?;
        let key_id = self.key_id.clone()?;
        let signature = self.signature.clone()?;
        Ok(ProtoEnvelopeBody {
            content_bytes,
            key_id,
            signature,
        })
    }
}

impl<C: Record> ProtoEnvelope<C> {
    /// The envelope of a body: its record is what the content bytes say.
    pub fn from_body(
        alloc: Global,
        body: ProtoEnvelopeBody,
    ) -> Result<ProtoEnvelope<C>, DecodeError>
        ensures envelope { IfOk result (λ e. e.envelope ≡ body) }
        ensures contents { IsReading (λ e. C.meaning e.contents) C.fault_of
            (C.read body.content) result }
    {
        let contents = decode_contents::<C>(alloc, body.content_bytes.as_slice())?;
        Ok(ProtoEnvelope {
            contents,
            content_bytes: body.content_bytes,
            key_id: body.key_id,
            signature: body.signature,
        })
    }
}

/// An envelope, and where it stands in the registry's log.
#[derive(Debug, Drop, PartialEq, Eq)]
pub struct PublishedProtoEnvelope<C> {
    /// The envelope.
    pub envelope: ProtoEnvelope<C>,
    /// Its place in the registry's log of all records, from 0.
    pub registry_index: RegistryIndex,
}

/// An envelope whose content bytes are not read yet, and where it stands in the registry's log.
#[derive(Debug, Drop, PartialEq, Eq)]
pub struct PublishedProtoEnvelopeBody {
    /// The envelope.
    pub envelope: ProtoEnvelopeBody,
    /// Its place in the registry's log of all records, from 0.
    pub registry_index: RegistryIndex,
}

impl PublishedProtoEnvelopeBody {
    /// A copy.
    pub fn try_clone(&self) -> Result<PublishedProtoEnvelopeBody, AllocError>
        ensures { IfOk result (λ b. b ≡ self.now) }
    {
        Ok(PublishedProtoEnvelopeBody {
            envelope: self.envelope.try_clone()?,
            registry_index: self.registry_index,
        })
    }
}

impl Clone for PublishedProtoEnvelopeBody {
    ghost is_clone = { λ a b. b ≡ a };

    fn clone(&self) -> Result<PublishedProtoEnvelopeBody, AllocError> {
        self.try_clone()
    }
}

impl<C: Drop> From<PublishedProtoEnvelope<C>> for PublishedProtoEnvelopeBody {
    ghost from_gives = { λ e b. b ≡ record { envelope = e.envelope.envelope; registry_index = e.registry_index } };

    fn from(published: PublishedProtoEnvelope<C>) -> PublishedProtoEnvelopeBody {
        PublishedProtoEnvelopeBody {
            envelope: ProtoEnvelopeBody::from(published.envelope),
            registry_index: published.registry_index,
        }
    }
}

impl<C> PublishedProtoEnvelope<C> {
    /// The body of the published envelope, which stays as it is.
    pub fn to_body(&self) -> Result<PublishedProtoEnvelopeBody, AllocError>
        ensures { IfOk result (λ b. b ≡ record {
          envelope = self.now.envelope.envelope;
          registry_index = self.now.registry_index;
        }) }
    {
        let envelope = self.envelope.to_body()?;
        Ok(PublishedProtoEnvelopeBody {
            envelope,
            registry_index: self.registry_index,
        })
    }
}

impl<C: Record> PublishedProtoEnvelope<C> {
    /// The published envelope of a body: its record is what the content bytes say.
    pub fn from_body(
        alloc: Global,
        body: PublishedProtoEnvelopeBody,
    ) -> Result<PublishedProtoEnvelope<C>, DecodeError>
        ensures index { IfOk result (λ e. e.registry_index ≡ body.registry_index) }
        ensures envelope { IfOk result (λ e. e.envelope.envelope ≡ body.envelope) }
        ensures contents { IsReading (λ e. C.meaning e.envelope.contents) C.fault_of
            (C.read body.envelope.content) result }
    {
        let envelope = ProtoEnvelope::<C>::from_body(alloc, body.envelope)?;
        Ok(PublishedProtoEnvelope {
            envelope,
            registry_index: body.registry_index,
        })
    }

    /// A copy.
    pub fn try_clone(&self) -> Result<PublishedProtoEnvelope<C>, AllocError>
        ensures index { IfOk result (λ e. e.registry_index ≡ self.now.registry_index) }
        ensures envelope { IfOk result (λ e. e.envelope.envelope ≡ self.now.envelope.envelope) }
        ensures contents { IfOk result
            (λ e. C.meaning e.envelope.contents ≡ C.meaning self.now.envelope.contents) }
    {
        Ok(PublishedProtoEnvelope {
            envelope: self.envelope.try_clone()?,
            registry_index: self.registry_index,
        })
    }
}

impl<C: Record> Clone for PublishedProtoEnvelope<C> {
    ghost is_clone = { λ a b. (b.registry_index ≡ a.registry_index) × (b.envelope.envelope ≡ a.envelope.envelope)
        × (C.meaning b.envelope.contents ≡ C.meaning a.envelope.contents) };

    fn clone(&self) -> Result<PublishedProtoEnvelope<C>, AllocError> {
        self.try_clone()
    }
}
