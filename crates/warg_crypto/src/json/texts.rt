//! JSON of the values that are written as their text.

ghost use Rattle.std.specs.Prelude.{◌≡◌, List, [], ℕ};
ghost use Rattle.warg_crypto.specs.declared.hash.AnyHash.{AnyHash};
ghost use Rattle.warg_crypto.specs.declared.hash.HashAlgorithm.{HashAlgorithm};
ghost use Rattle.warg_crypto.specs.Json.EqualLaws.{same_equal};
ghost use Rattle.serde_json.specs.View.{view};
ghost use Rattle.warg_crypto.specs.Json.Json.{Returns};
ghost use Rattle.warg_crypto.specs.Json.JsonTexts.{algorithm_in, algorithm_json, hash_in, hash_json, key_id_in, key_id_json, key_in, key_json, signature_in, signature_json};
ghost use Rattle.warg_crypto.specs.NamedBytes.{NamedBytes};

use crate::hash::{AnyHash, HashAlgorithm};
use crate::json::members::{string_value, text_in, text_value};
use crate::json::{JsonError, JsonValue};
use crate::signing::{KeyID, KeyParseError, PublicKey, Signature, SignatureParseError};
use serde_json::Value;
use std::alloc::Global;

impl JsonValue for HashAlgorithm {
    ghost Plain = { HashAlgorithm };

    ghost plain = { λ x. x };

    ghost writes = { algorithm_json };

    ghost reads = { algorithm_in };

    ghost versions = { λ _. [] };

    ghost equivalent = { λ x y. x ≡ y };

    ghost equivalent_equal = { same_equal };

    ghost versions_written = { λ x d h. tt };

    ghost versions_read = { λ x d h. tt };

    fn to_value(&self, alloc: Global) -> Result<Value, JsonError> {
        let name = self.as_str();
        text_value(alloc, name)
    }

    /// The value of JSON, or its first fault. It takes no memory.
    fn from_value(_alloc: Global, value: &Value) -> Result<HashAlgorithm, JsonError>
        ensures { Returns (λ x. x) result (algorithm_in (view value.now)) }
    {
        let text = text_in(value)?;
        text.parse::<HashAlgorithm>()
            .map_err(|_| JsonError::BadText)
    }
}

impl JsonValue for AnyHash {
    ghost Plain = { AnyHash };

    ghost plain = { λ x. x };

    ghost writes = { hash_json };

    ghost reads = { hash_in };

    ghost versions = { λ _. [] };

    ghost equivalent = { λ x y. x ≡ y };

    ghost equivalent_equal = { same_equal };

    ghost versions_written = { λ x d h. tt };

    ghost versions_read = { λ x d h. tt };

    fn to_value(&self, alloc: Global) -> Result<Value, JsonError> {
        let _bytes = self.bytes();
        let hash = self.to_text(alloc)?;
        Ok(string_value(hash))
    }

    /// The value of JSON, or its first fault. It takes no memory.
    fn from_value(_alloc: Global, value: &Value) -> Result<AnyHash, JsonError>
        ensures { Returns (λ x. x) result (hash_in (view value.now)) }
    {
        let text = text_in(value)?;
        text.parse::<AnyHash>().map_err(|_| JsonError::BadText)
    }
}

impl JsonValue for KeyID {
    ghost Plain = { List ℕ };

    ghost plain = { λ x. x };

    ghost writes = { key_id_json };

    ghost reads = { key_id_in };

    ghost versions = { λ _. [] };

    ghost equivalent = { λ x y. x ≡ y };

    ghost equivalent_equal = { same_equal };

    ghost versions_written = { λ x d h. tt };

    ghost versions_read = { λ x d h. tt };

    fn to_value(&self, alloc: Global) -> Result<Value, JsonError> {
        text_value(alloc, self.as_str())
    }

    fn from_value(alloc: Global, value: &Value) -> Result<KeyID, JsonError> {
        Ok(KeyID::from(String::from_str(alloc, text_in(value)?)?))
    }
}

impl JsonValue for PublicKey {
    ghost Plain = { NamedBytes };

    ghost plain = { λ x. x };

    ghost writes = { key_json };

    ghost reads = { key_in };

    ghost versions = { λ _. [] };

    ghost equivalent = { λ x y. x ≡ y };

    ghost equivalent_equal = { same_equal };

    ghost versions_written = { λ x d h. tt };

    ghost versions_read = { λ x d h. tt };

    fn to_value(&self, alloc: Global) -> Result<Value, JsonError> {
        let _name = self.algorithm();
        let _bytes = self.bytes();
        let key = self.to_text(alloc)?;
        Ok(string_value(key))
    }

    fn from_value(alloc: Global, value: &Value) -> Result<PublicKey, JsonError> {
        match PublicKey::parse(alloc, text_in(value)?) {
            Ok(key) => Ok(key),
            Err(KeyParseError::OutOfMemory) => Err(JsonError::OutOfMemory),
            Err(_) => Err(JsonError::BadText),
        }
    }
}

impl JsonValue for Signature {
    ghost Plain = { NamedBytes };

    ghost plain = { λ x. x };

    ghost writes = { signature_json };

    ghost reads = { signature_in };

    ghost versions = { λ _. [] };

    ghost equivalent = { λ x y. x ≡ y };

    ghost equivalent_equal = { same_equal };

    ghost versions_written = { λ x d h. tt };

    ghost versions_read = { λ x d h. tt };

    fn to_value(&self, alloc: Global) -> Result<Value, JsonError> {
        let _name = self.algorithm();
        let _bytes = self.bytes();
        let signature = self.to_text(alloc)?;
        Ok(string_value(signature))
    }

    fn from_value(alloc: Global, value: &Value) -> Result<Signature, JsonError> {
        match Signature::parse(alloc, text_in(value)?) {
            Ok(signature) => Ok(signature),
            Err(SignatureParseError::OutOfMemory) => Err(JsonError::OutOfMemory),
            Err(_) => Err(JsonError::BadText),
        }
    }
}
