//! JSON of proofs.

use crate::transparency::known::{CONSISTENCY, PRESENCE};
use serde_json::Value;
use std::alloc::{AllocError, Global};
use std::test::Fail;
use warg_crypto::json::{JsonError, JsonValue};
use warg_transparency::{LogProof, MapProof};

// The text as JSON.
fn string(alloc: Global, text: &str) -> Result<Value, AllocError> {
    Ok(Value::String(String::from_str(alloc, text)?))
}

#[test]
fn proofs_are_their_texts(rt: HostRuntime) -> Result<(), Fail> {
    let alloc = rt.alloc();
    let proof = LogProof::from_value(alloc, &string(alloc, CONSISTENCY)?)?;
    assert_eq!(rt; proof.hashes().len(), 3);
    assert_eq!(rt; proof.to_value(alloc)?.as_str(), Some(CONSISTENCY));
    let proof = MapProof::from_value(alloc, &string(alloc, PRESENCE)?)?;
    assert_eq!(rt; proof.to_value(alloc)?.as_str(), Some(PRESENCE));
    Ok(())
}

#[test]
fn other_json_is_no_proof(rt: HostRuntime) -> Result<(), Fail> {
    let alloc = rt.alloc();
    let rows = [
        (Value::Null, JsonError::WrongType),
        (Value::Bool(true), JsonError::WrongType),
        (Value::Array(Vec::new(alloc)), JsonError::WrongType),
        (string(alloc, "=")?, JsonError::BadText),
        (string(alloc, "AAAA")?, JsonError::BadText),
    ];
    for (value, fault) in &rows {
        assert_eq!(rt; LogProof::from_value(alloc, value).err(), Some(*fault));
        assert_eq!(rt; MapProof::from_value(alloc, value).err(), Some(*fault));
    }
    Ok(())
}
