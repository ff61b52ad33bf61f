//! JSON of envelopes whose contents are bytes.

ghost use Rattle.std.specs.Prelude.{◌≡◌, [], IfOk, Ok};
ghost use Rattle.serde_json.specs.View.{members_view, view};
ghost use Rattle.warg_crypto.specs.Json.EqualLaws.{same_equal};
ghost use Rattle.warg_crypto.specs.Json.Json.{ReturnsOrNoMemory};
ghost use Rattle.warg_envelope.specs.EnvelopeData.{EnvelopeData};
ghost use Rattle.warg_envelope.specs.EnvelopeJson.{AreBodyMembers, body_in, body_json, body_members, bytes_in, bytes_json, published_in, published_json};
ghost use Rattle.warg_envelope.specs.declared.proto_envelope.body.PublishedProtoEnvelopeBody.{PublishedProtoEnvelopeBody};

use crate::proto_envelope::{ProtoEnvelopeBody, PublishedProtoEnvelopeBody};
use base64::DecodeAllocError;
use base64::engine::general_purpose::STANDARD;
use serde_json::{Map, Value};
use std::alloc::Global;
use warg_crypto::json::members::{
    member_in, object_value, put_member, put_value, string_value, text_in,
};
use warg_crypto::json::{JsonError, JsonValue};
use warg_crypto::signing::{KeyID, Signature};

/// The bytes as a text in base64.
fn bytes_value(alloc: Global, bytes: &[u8]) -> Result<Value, JsonError>
    ensures written { ReturnsOrNoMemory view result (bytes_json bytes.now) }
    ensures back { IfOk result (λ v. bytes_in (view v) ≡ Ok bytes.now) }
{
    let text = STANDARD.encode(alloc, bytes)?;
    Ok(string_value(text))
}

/// The bytes of a text in base64.
fn bytes_in(alloc: Global, value: &Value) -> Result<Vec<u8>, JsonError>
    ensures { ReturnsOrNoMemory (λ bytes. bytes.items) result (bytes_in (view value.now)) }
{
    let text = text_in(value)?;
    match STANDARD.decode(alloc, text.as_bytes()) {
        Ok(bytes) => Ok(bytes),
        Err(DecodeAllocError::OutOfMemory) => Err(JsonError::OutOfMemory),
        Err(_) => Err(JsonError::BadText),
    }
}

/// The members of an envelope's JSON.
fn body_members(alloc: Global, body: &ProtoEnvelopeBody) -> Result<Map<String, Value>, JsonError>
    ensures written { ReturnsOrNoMemory (λ map. members_view map.entries) result
        (body_members body.now) }
    ensures back { IfOk result (λ map. AreBodyMembers body.now (members_view map.entries)) }
{
    let mut map = Map::new(alloc);
    let bytes = bytes_value(alloc, body.content_bytes.as_slice())?;
    put_member(&mut map, alloc, "contentBytes", bytes)?;
    put_value(&mut map, alloc, "keyId", &body.key_id)?;
    put_value(&mut map, alloc, "signature", &body.signature)?;
    Ok(map)
}

impl JsonValue for ProtoEnvelopeBody {
    ghost Plain = { EnvelopeData };

    ghost plain = { λ x. x };

    ghost writes = { body_json };

    ghost reads = { body_in };

    ghost versions = { λ _. [] };

    ghost equivalent = { λ x y. x ≡ y };

    ghost equivalent_equal = { same_equal };

    ghost versions_written = { λ x d h. tt };

    ghost versions_read = { λ x d h. tt };

    fn to_value(&self, alloc: Global) -> Result<Value, JsonError> {
        Ok(object_value(body_members(alloc, self)?))
    }

    fn from_value(alloc: Global, value: &Value) -> Result<ProtoEnvelopeBody, JsonError> {
        let content_bytes = bytes_in(alloc, member_in(value, "contentBytes")?)?;
        let key_id = KeyID::from_value(alloc, member_in(value, "keyId")?)?;
        let signature = Signature::from_value(alloc, member_in(value, "signature")?)?;
        Ok(ProtoEnvelopeBody {
            content_bytes,
            key_id,
            signature,
        })
    }
}

impl JsonValue for PublishedProtoEnvelopeBody {
    ghost Plain = { PublishedProtoEnvelopeBody };

    ghost plain = { λ x. x };

    ghost writes = { published_json };

    ghost reads = { published_in };

    ghost versions = { λ _. [] };

    ghost equivalent = { λ x y. x ≡ y };

    ghost equivalent_equal = { same_equal };

    ghost versions_written = { λ x d h. tt };

    ghost versions_read = { λ x d h. tt };

    fn to_value(&self, alloc: Global) -> Result<Value, JsonError> {
        let mut map = body_members(alloc, &self.envelope)?;
        put_value(&mut map, alloc, "registryIndex", &self.registry_index)?;
        Ok(object_value(map))
    }

    fn from_value(alloc: Global, value: &Value) -> Result<PublishedProtoEnvelopeBody, JsonError> {
        let envelope = ProtoEnvelopeBody::from_value(alloc, value)?;
        let registry_index = usize::from_value(alloc, member_in(value, "registryIndex")?)?;
        Ok(PublishedProtoEnvelopeBody {
            envelope,
            registry_index,
        })
    }
}
