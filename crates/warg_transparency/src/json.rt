//! JSON of proofs.

ghost use Rattle.std.specs.Prelude.{◌≡◌, List, [], ℕ};
ghost use Rattle.warg_crypto.specs.Json.EqualLaws.{same_equal};
ghost use Rattle.warg_transparency.specs.ProofJson.{log_proof_in, log_proof_json, map_proof_in, map_proof_json};

use crate::error::ProofTextError;
use crate::log_proof::LogProof;
use crate::map_proof::MapProof;
use serde_json::Value;
use std::alloc::Global;
use warg_crypto::json::members::{string_value, text_in};
use warg_crypto::json::{JsonError, JsonValue};

impl JsonValue for LogProof {
    ghost Plain = { List (List ℕ) };

    ghost plain = { λ x. x };

    ghost writes = { log_proof_json };

    ghost reads = { log_proof_in };

    ghost versions = { λ _. [] };

    ghost equivalent = { λ x y. x ≡ y };

    ghost equivalent_equal = { same_equal };

    ghost versions_written = { λ x d h. tt };

    ghost versions_read = { λ x d h. tt };

    fn to_value(&self, alloc: Global) -> Result<Value, JsonError> {
        Ok(string_value(self.to_text(alloc)?))
    }

    fn from_value(alloc: Global, value: &Value) -> Result<LogProof, JsonError> {
        match LogProof::parse(alloc, text_in(value)?) {
            Ok(proof) => Ok(proof),
            Err(ProofTextError::OutOfMemory) => Err(JsonError::OutOfMemory),
            Err(_) => Err(JsonError::BadText),
        }
    }
}

impl JsonValue for MapProof {
    ghost Plain = { List (List ℕ) };

    ghost plain = { λ x. x };

    ghost writes = { map_proof_json };

    ghost reads = { map_proof_in };

    ghost versions = { λ _. [] };

    ghost equivalent = { λ x y. x ≡ y };

    ghost equivalent_equal = { same_equal };

    ghost versions_written = { λ x d h. tt };

    ghost versions_read = { λ x d h. tt };

    fn to_value(&self, alloc: Global) -> Result<Value, JsonError> {
        Ok(string_value(self.to_text(alloc)?))
    }

    fn from_value(alloc: Global, value: &Value) -> Result<MapProof, JsonError> {
        match MapProof::parse(alloc, text_in(value)?) {
            Ok(proof) => Ok(proof),
            Err(ProofTextError::OutOfMemory) => Err(JsonError::OutOfMemory),
            Err(_) => Err(JsonError::BadText),
        }
    }
}
