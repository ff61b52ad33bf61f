//! JSON of envelopes that keep no bytes of their contents.

ghost use Rattle.std.specs.Prelude.{◌≡◌, ◌&&◌, true};
ghost use Rattle.std.proofs.Common.{subst};
ghost use Rattle.std.proofs.lemmas.Bool.{and_parts};
ghost use Rattle.warg_envelope.specs.EnvelopeJson.{AreEquivalentSigned, SignedContents, signed_in, signed_json};
ghost use Rattle.warg_envelope.specs.SignedVersionLaws.{signed_versions, signed_within};

use crate::serde_envelope::SerdeEnvelope;
use serde_json::{Map, Value};
use std::alloc::Global;
use warg_crypto::json::members::{member_in, object_value, put_value};
use warg_crypto::json::{JsonError, JsonValue};
use warg_crypto::signing::{KeyID, Signature};

impl<C: JsonValue + Drop> JsonValue for SerdeEnvelope<C> {
    ghost Plain = { SignedContents C.Plain };

    ghost plain = { λ e. record { contents = C.plain e.contents; key_id = e.key_id; signature = e.signature } };

    ghost writes = { signed_json C.writes };

    ghost reads = { signed_in C.reads };

    ghost versions = { λ e. C.versions e.contents };

    ghost equivalent = { AreEquivalentSigned C.equivalent };

    ghost equivalent_equal = { λ laws x y h i.
        let own = and_parts _ _ (laws.refl x) in
        let parts = and_parts _ _ own.1 in
        C.equivalent_equal C.Eq.laws x.contents y.contents h.contents i
        && (subst (λ id. ⟦<KeyID as PartialEq>⟧.eq x.key_id id ≡ true) h.key_id parts.0 i
        && subst (λ s. ⟦<Signature as PartialEq>⟧.eq x.signature s ≡ true) h.signature parts.1 i) };

    ghost versions_written = { λ x d h. signed_within C.writes C.versions C.versions_written x d h };

    ghost versions_read = { λ x d h. signed_versions C.reads C.versions C.versions_read x d h };

    fn to_value(&self, alloc: Global) -> Result<Value, JsonError> {
        let mut map = Map::new(alloc);
        put_value(&mut map, alloc, "contents", &self.contents)?;
        put_value(&mut map, alloc, "keyId", &self.key_id)?;
        put_value(&mut map, alloc, "signature", &self.signature)?;
        Ok(object_value(map))
    }

    fn from_value(alloc: Global, value: &Value) -> Result<SerdeEnvelope<C>, JsonError> {
        let contents = C::from_value(alloc, member_in(value, "contents")?)?;
        let key_id = KeyID::from_value(alloc, member_in(value, "keyId")?)?;
        let signature = Signature::from_value(alloc, member_in(value, "signature")?)?;
        Ok(SerdeEnvelope {
            contents,
            key_id,
            signature,
        })
    }
}
