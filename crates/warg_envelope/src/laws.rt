//! Laws of the definitions, and of the types that rest on them.

ghost use Rattle.std.specs.Prelude.{◌≡◌, ◌↔◌, List, ℕ, Ok, true};
ghost use Rattle.warg_crypto.specs.Keys.{signature_of};
ghost use Rattle.warg_crypto.specs.NamedBytes.{named_bytes_text};
ghost use Rattle.warg_envelope.specs.EnvelopeData.{DecodedEnvelope, EnvelopeData};
ghost use Rattle.warg_envelope.specs.Envelopes.{envelope_message};
ghost use Rattle.warg_envelope.specs.ReadingWords.{ContentsMatchBytes, envelope_in};
ghost use Rattle.warg_envelope.specs.declared.proto_envelope.body.PublishedProtoEnvelope.{PublishedProtoEnvelope};
ghost use Rattle.warg_envelope.specs.declared.proto_envelope.body.PublishedProtoEnvelopeBody.{PublishedProtoEnvelopeBody};
ghost use Rattle.warg_envelope.specs.declared.proto_envelope.error.ParseEnvelopeError.{ParseEnvelopeError};
ghost use Rattle.warg_envelope.specs.declared.serde_envelope.SerdeEnvelope.{SerdeEnvelope};
ghost use Rattle.warg_protobuf.specs.Envelope.{IsEnvelope};

use crate::{
    ParseEnvelopeError, ProtoEnvelope, ProtoEnvelopeBody, PublishedProtoEnvelope,
    PublishedProtoEnvelopeBody, Record, SerdeEnvelope,
};
use warg_crypto::laws::byte_range;
use warg_protobuf::laws::decoding_computes;

/// The text of an envelope's signature reads back as the signature.
pub fn signature_reads_back<C>(envelope: &ProtoEnvelope<C>)
    ensures { signature_of (named_bytes_text envelope.now.envelope.signature) ≡
        Ok envelope.now.envelope.signature }
{
    let signature = envelope.signature();
    let _algorithm = signature.algorithm();
    byte_range(signature.bytes());
}

/// What is written of an envelope whose record its content bytes say reads back as the envelope. What
/// is asked here of the bytes `ProtoEnvelope::to_protobuf` says of those it gives.
pub fn envelopes_read_back<C: Record>()
    ensures { (e : DecodedEnvelope C) (bytes : List ℕ) → ContentsMatchBytes C.reading e →
        IsEnvelope bytes (envelope_message e.envelope) →
        signature_of (named_bytes_text e.envelope.signature) ≡ Ok e.envelope.signature →
        envelope_in C.reading bytes ≡ Ok e.envelope }
{
    decoding_computes();
}

/// When `==` is true. Of envelopes: exactly where it is of their records, and the content bytes, the key ids and the
/// signatures are identical; of those that keep no bytes, exactly where it is of their contents, and the key ids and the
/// signatures are identical. Of published envelopes: exactly where it is of the envelopes, and the places are one. Of those
/// whose content bytes are not read yet, and of why bytes are no envelope: exactly where both are identical.
pub fn equality<C: Eq>()
    ensures envelopes { (a b : DecodedEnvelope C) →
        (⟦<ProtoEnvelope<C> as PartialEq>⟧.eq a b ≡ true) ↔
        ((C.eq a.contents b.contents ≡ true) × (a.envelope ≡ b.envelope)) }
    ensures bodies { (a b : EnvelopeData) →
        (⟦<ProtoEnvelopeBody as PartialEq>⟧.eq a b ≡ true) ↔ (a ≡ b) }
    ensures published_envelopes { (a b : PublishedProtoEnvelope C) →
        (⟦<PublishedProtoEnvelope<C> as PartialEq>⟧.eq a b ≡ true) ↔
        ((C.eq a.envelope.contents b.envelope.contents ≡ true) ×
        (a.envelope.envelope ≡ b.envelope.envelope) × (a.registry_index ≡ b.registry_index)) }
    ensures published_bodies { (a b : PublishedProtoEnvelopeBody) →
        (⟦<PublishedProtoEnvelopeBody as PartialEq>⟧.eq a b ≡ true) ↔ (a ≡ b) }
    ensures serde_envelopes { (a b : SerdeEnvelope C) →
        (⟦<SerdeEnvelope<C> as PartialEq>⟧.eq a b ≡ true) ↔
        ((C.eq a.contents b.contents ≡ true) × (a.key_id ≡ b.key_id) ×
        (a.signature ≡ b.signature)) }
    ensures parse_errors { (a b : ParseEnvelopeError) →
        (⟦<ParseEnvelopeError as PartialEq>⟧.eq a b ≡ true) ↔ (a ≡ b) }
{}
